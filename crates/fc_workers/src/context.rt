//! The context shared by all workers, with the parts that a caller supplies.
//!
//! A caller supplies hooks, a transmitter, and a source of times.
ghost use Rattle.fc_front.specs.Receiving.{emission_if};
ghost use Rattle.fc_backend.specs.Called.{EndsJob, SendsReply};
ghost use Rattle.fc_backend.specs.Logs.{IsUnfiled};
ghost use Rattle.fc_backend.specs.Answers.{GoesOut};

use coap_msg::Emission;
use fc_backend::{Bench, Gate, TimeSource, TrackLog, Wire};
use fc_ticket::Job;
use std::alloc::Global;
use std::sync::Wait;

/// The context shared by all workers.
///
/// The runtime `rt` starts the workers' threads, and makes their waits.
#[derive(Drop)]
pub struct Context<'a, B: Bench, G: Gate, W: Wire, M: TimeSource, R: Wait> {
    pub rt: &'a R,
    pub alloc: Global,
    pub bench: &'a B,
    pub gate: &'a G,
    pub wire: &'a W,
    pub times: &'a M,
}

/// The parts of a worker context, as clauses see them.
///
/// It is implemented for a backend, hooks, a transmitter and a source of times, so that a clause
/// names the view of all four as `⟦<(B, G, W, M) as WorkerParts>⟧.view`.
pub trait WorkerParts {
    ghost use Rattle.fc_workers.specs.Views.{WorkerView};

    type Tallies;

    // The ghost view of the context.
    ghost view: { WorkerView Self.Tallies };
}

impl<B: Bench, G: Gate, W: Wire, M: TimeSource> WorkerParts for (B, G, W, M) {
    ghost use Rattle.fc_workers.specs.Views.{worker_view};

    type Tallies = B::Tallies;

    ghost view = { worker_view B.changes B.ended B.called B.logged M.is_time M.is_random G.passed G.answered W.called };
}

// Calls to the gate, the source of times and the transmitter. No track has an entry of such a call.
impl<'a, B: Bench, G: Gate, W: Wire, M: TimeSource, R: Wait> Context<'a, B, G, W, M, R> {
    // Calls the gate before a run of the job with this number. See [`Gate::between`].
    pub(crate) fn between(&self, number: u64, log: &mut TrackLog<B::Book>)
        ensures { IsUnfiled (G.passed number) log.old log.new }
    {
        self.gate.between(self.rt, number, &mut log.calls);
    }

    // Calls the gate after the answer of a job. See [`Gate::after_answer`].
    pub(crate) fn after_answer(
        &self,
        job: &Job,
        has_reply: bool,
        reply: &Emission,
        log: &mut TrackLog<B::Book>,
    )
        ensures { IsUnfiled (G.answered job.now (emission_if has_reply reply.now)) log.old log.new }
    {
        self.gate
            .after_answer(job, has_reply, reply, &mut log.calls);
    }

    // Returns the time of the call, in milliseconds, by [`TimeSource::now`].
    pub(crate) fn now(&self, log: &mut TrackLog<B::Book>) -> u64
        ensures { IsUnfiled (M.is_time result) log.old log.new }
    {
        self.times.now(self.rt, &mut log.calls)
    }

    // Sends the reply of the job with this number, by [`Wire::send`]. Returns whether the reply
    // went out.
    pub(crate) fn send(&self, number: u64, reply: &Emission, log: &mut TrackLog<B::Book>) -> bool
        requires { GoesOut reply.now }
        ensures { IsUnfiled (W.called (SendsReply number reply.now result)) log.old log.new }
    {
        self.wire.send(self.rt, number, reply, &mut log.calls)
    }

    // Reports that the job with this number has ended. See [`Wire::ended`].
    pub(crate) fn ended(&self, number: u64, log: &mut TrackLog<B::Book>)
        ensures { IsUnfiled (W.called (EndsJob number)) log.old log.new }
    {
        self.wire.ended(self.rt, number, &mut log.calls);
    }
}
