//! The transmitter of replies.
ghost use Rattle.std.specs.Prelude.{⊤};
ghost use Rattle.fc_backend.specs.Answers.{GoesOut};
ghost use Rattle.fc_backend.specs.Called.{EndsJob, SendsReply, WireCall};
ghost use Rattle.fc_backend.specs.declared.call_log.CallLog.{CallLog as Log};

use crate::call_log::CallLog;
use coap_msg::Emission;
use std::sync::Wait;

/// The transmitter of the jobs' replies.
pub trait Wire {
    // A call with these arguments and this result was made, and led the caller's log from `before`
    // to `after`.
    ghost called: { WireCall → Log → Log → Type 0 } = { λ call before after. ⊤ };

    /// Sends `emission`, the reply of the job with this number.
    ///
    /// Returns whether the emission went out, which the thread that ran the job counts. The number
    /// is the job's at the channel, or 2^64 - 1 if the job wasn't sent there. The emission is the
    /// answer of some front to some job, or the notification of some shard.
    fn send<R: Wait>(&self, rt: &R, number: u64, emission: &Emission, log: &mut CallLog) -> bool
        requires { GoesOut emission.now }
        ensures { called (SendsReply number emission.now result) log.old log.new };

    /// Reports that the job with this number has ended.
    ///
    /// It is the last call for each job, whether or not anything was sent. An implementation may
    /// wake a thread that waits for the job.
    fn ended<R: Wait>(&self, rt: &R, number: u64, log: &mut CallLog)
        ensures { called (EndsJob number) log.old log.new };
}
