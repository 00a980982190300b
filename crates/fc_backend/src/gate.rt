//! The hooks of workers.
ghost use Rattle.std.specs.Prelude.{⊤, ℕ, Option};
ghost use Rattle.coap_msg.specs.declared.types.Emission.{Emission as Emitted};
ghost use Rattle.fc_front.specs.Receiving.{emission_if};
ghost use Rattle.fc_ticket.specs.declared.job.Job.{Job as Asked};
ghost use Rattle.fc_backend.specs.declared.call_log.CallLog.{CallLog as Log};

use crate::call_log::CallLog;
use coap_msg::Emission;
use fc_ticket::Job;
use std::sync::Wait;

/// The hooks of a worker: between snapshot and commit, and after an answer.
///
/// A test can delay a job in `between`, so that another job causes a conflict. A server records
/// answered requests in `after_answer`.
pub trait Gate {
    // The hook let the job with this number through, and the caller's log went from `before` to
    // `after`.
    ghost passed: { ℕ → Log → Log → Type 0 } = { λ number before after. ⊤ };

    // The hook was called with this answered job and its reply, if there is one, and the caller's
    // log went from `before` to `after`.
    ghost answered: { Asked → Option Emitted → Log → Log → Type 0 } = { λ job sent before after. ⊤ };

    /// Lets a request's job with this number pass, before each run of the job.
    ///
    /// The call is after the run's snapshot, and before the run's commit. A lease's job, which
    /// commits nothing, makes no such call.
    fn between<R: Wait>(&self, rt: &R, number: u64, log: &mut CallLog)
        ensures { passed number log.old log.new };

    /// Observes a request's job and its reply, once, right after the job's answer.
    ///
    /// The reply to send is `reply` if `has_reply`; otherwise there is none. A lease's job makes no
    /// such call.
    fn after_answer(&self, job: &Job, has_reply: bool, reply: &Emission, log: &mut CallLog)
        ensures { answered job.now (emission_if has_reply reply.now) log.old log.new };
}
