//! Counts of replies: those that were sent, and those that failed.
ghost use Rattle.std.specs.Prelude.{◌≡◌};
ghost use Rattle.fc_pool.specs.Counting.{both_replies, counted, no_replies, replies_by, replies_of};

use fc_backend::{CallLog, Share};
use std::fmt;

/// The number of sent replies, and the number of replies that couldn't be sent.
///
/// Each count stops at 2^64 - 1.
#[derive(Clone, Copy, PartialEq, Eq)]
pub struct Replies {
    pub sent: u64,
    pub failed: u64,
}

impl Replies {
    /// Returns counts of zero.
    pub fn none() -> Replies
        ensures { result ≡ no_replies }
    {
        Replies { sent: 0, failed: 0 }
    }

    /// Returns the counts of the replies that a worker sent and failed to send.
    pub fn by<T: Drop, L: Drop, M: Drop>(share: &Share<T, L, M>) -> Replies
        ensures { result ≡ replies_by share.now }
    {
        Replies {
            sent: share.sent,
            failed: share.failed,
        }
    }

    /// Returns the sums of the workers' counts; each sum stops at 2^64 - 1.
    pub fn of<T: Drop, L: Drop, M: Drop>(shares: &[Share<T, L, M>]) -> Replies
        ensures { result ≡ replies_of shares.now }
    {
        let mut replies = Replies::none();
        for share in shares {
            replies = replies.plus(Replies::by(share));
        }
        replies
    }

    /// Returns the sums of these counts and of `others`; each stops at 2^64 - 1.
    pub fn plus(self, others: Replies) -> Replies
        ensures { result ≡ both_replies self others }
    {
        Replies {
            sent: self.sent.saturating_add(others.sent),
            failed: self.failed.saturating_add(others.failed),
        }
    }

    /// Counts a reply as sent (`Some(true)`) or failed (`Some(false)`), if any.
    ///
    /// `None` means that there was no reply; then nothing changes.
    pub fn count_if_any(&mut self, out: Option<bool>)
        ensures { self.new ≡ counted out self.old }
    {
        match out {
            Some(true) => self.sent = self.sent.saturating_add(1),
            Some(false) => self.failed = self.failed.saturating_add(1),
            None => {}
        }
    }
}

/// The counts of the replies passed to a sink, and the log of the sink's calls.
#[derive(Drop)]
pub struct SentReplies {
    pub replies: Replies,
    pub log: CallLog,
}

impl SentReplies {
    /// Returns counts of zero, and a new log.
    pub fn new() -> SentReplies
        ensures { result.replies ≡ no_replies }
    {
        SentReplies {
            replies: Replies::none(),
            log: CallLog::new(),
        }
    }
}

/// The text of replies, such as `sent 2 failed 0`.
impl fmt::Display for Replies {
    ghost use Rattle.std.specs.Prelude.{Some};
    ghost use Rattle.fc_pool.specs.Counting.{replies_text};

    ghost output = { λ r. Some (replies_text r) };

    fn fmt<W: fmt::Write>(&self, f: &mut fmt::Formatter<W>) -> fmt::Result {
        let sent = self.sent;
        let failed = self.failed;
        write!(f, "sent {sent} failed {failed}")
    }
}
