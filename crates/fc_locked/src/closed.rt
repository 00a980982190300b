//! The result of closing a server.
use fc_front::Front;
use fc_registry::Shard;

/// The front and the shards of a closed server.
///
/// `changes` has the number of counted changes of each shard's slots, up to 2^64 - 1.
#[derive(Drop)]
pub struct ClosedServer {
    pub front: Front,
    pub shards: [Shard; 8],
    pub changes: [u64; 8],
}
