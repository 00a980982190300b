//! Calls, as the history lists them.

/// A call.
///
/// It has the keys of the call's part, of the thread that made the call, and of the call's job, and
/// the call's result.
#[derive(Clone, Copy)]
pub struct CallEntry {
    pub part: u64,
    pub who: u64,
    pub job: u64,
    pub answer: u64,
}
