//! What a server's book is made with.
use fc_server::FirstServer;

/// The first key of a job's track, and the server's first state.
#[derive(Drop)]
pub struct BookBegin {
    pub first_job: u64,
    pub first: FirstServer,
}
