//! The output of a command.
use std::alloc::Global;

/// Standard output and standard error of a command, and its allocator.
///
/// Responses are written to `out`. The reason of a failure, or of a missing line, goes to `err`.
#[derive(Drop)]
pub struct Console<W, E> {
    pub alloc: Global,
    pub out: W,
    pub err: E,
}
