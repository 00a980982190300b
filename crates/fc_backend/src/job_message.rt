//! The message by which a worker receives a job.
use fc_filed::{ServerName, ServerTracks};
use fc_ticket::Job;
use std::marker::Model;

/// A job that is sent to a worker, with the job's track in the server's book.
///
/// Nothing is filed for the job but the call that produced it: the track has this one entry.
/// Contracts see the job and the tracks.
#[derive(Drop)]
pub struct JobMessage<J: ServerName> {
    pub(crate) job: Job,
    pub(crate) tracks: ServerTracks<J>,
}

impl<J: ServerName> Model for JobMessage<J> {
    ghost use Rattle.fc_backend.specs.Messages.{TrackedJob, IsNewJob};

    ghost Value = { TrackedJob };

    ghost view = { λ m. record { job = m.job; tracks = m.tracks } };

    ghost invariant = { λ m. IsNewJob J.first_job (record { job = m.job; tracks = m.tracks }) };
}
