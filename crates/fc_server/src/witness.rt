//! Witnesses of the jobs that a single-threaded server answers.
ghost use Rattle.std.specs.Prelude.{◌≡◌, ⊤, Option};
ghost use Rattle.coap_msg.specs.declared.types.Emission.{Emission as Emitted};
ghost use Rattle.fc_front.specs.Receiving.{emission_if};
ghost use Rattle.fc_ticket.specs.declared.job.Job.{Job as Asked};

use coap_msg::Emission;
use fc_ticket::Job;

/// A witness of a server's answers.
///
/// The job of each request is shown to the witness after the job's answer.
pub trait Witness {
    // The relation of the witness before it is shown a job and afterwards. The second argument is
    // the response to send, if there is one.
    ghost shown: { Asked → Option Emitted → Self → Self → Type 0 } = { λ job sent old new. ⊤ };

    /// Records the job of a request that was answered.
    ///
    /// `reply` is the response to send if `has_reply` is `true`.
    fn show(&mut self, job: &Job, has_reply: bool, reply: &Emission)
        ensures { shown job.now (emission_if has_reply reply.now) self.old self.new };
}

/// A witness that records nothing.
#[derive(Clone, Copy)]
pub struct NoWitness;

impl Witness for NoWitness {
    ghost shown = { λ job sent old new. new ≡ old };

    fn show(&mut self, job: &Job, has_reply: bool, reply: &Emission) {
        let _ = job;
        let _ = has_reply;
        let _ = reply;
    }
}
