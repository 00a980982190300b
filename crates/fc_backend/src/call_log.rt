//! The log of a worker's calls, in order.

/// A worker's log of calls.
///
/// The log has the calls to the worker's gate and transmitter, and those that return a time. It
/// also has each backend call that may change something, or whose result is soon out of date
/// (`LoggedCall`). Each of these calls gets the log, and the call's contract names the log's states
/// before and after. So a contract can state which calls were made with this log, in which order,
/// and that there were no others. At run time the log stores nothing.
#[derive(Drop)]
pub struct CallLog {
    state: u8,
}

impl CallLog {
    /// Returns the log of a worker that has made no call.
    pub fn new() -> CallLog {
        CallLog { state: 0 }
    }
}
