//! Recorders of changes, which are answered requests to change a slot's program.
ghost use Rattle.std.specs.Prelude.{◌≡◌, ⊤};
ghost use Rattle.fc_front.specs.Receiving.{emission_if};
ghost use Rattle.fc_record.specs.ProgramRequests.{Requested};
ghost use Rattle.fc_record.specs.Recording.{IsRecorded};
ghost use Rattle.fc_backend.specs.declared.call_log.CallLog.{CallLog as Log};

use crate::request::ProgramRequest;
use coap_msg::Emission;
use fc_backend::{CallLog, Gate};
use fc_server::Witness;
use fc_ticket::Job;
use log::{Log as Logger, info};
use std::marker::Model;
use std::sync::Wait;

/// A recorder of changes.
pub trait Recorder {
    // This change was recorded, which led the caller's log from `before` to `after`.
    ghost recorded: { Requested → Log → Log → Type 0 } = { λ change before after. ⊤ };

    /// Records an answered request to change a program.
    fn record(&self, change: &ProgramRequest<'_>, log: &mut CallLog)
        ensures { recorded change.now log.old log.new };
}

/// Records the change that a job asked for, if it asked for one, with the response.
///
/// The response is `reply` if `has_reply`; otherwise there is none. Workers call this after each
/// answer, and so does a server on one thread.
pub fn record_answer<C: Recorder>(
    recorder: &C,
    job: &Job,
    has_reply: bool,
    reply: &Emission,
    log: &mut CallLog,
)
    ensures { IsRecorded C.recorded job.now (emission_if has_reply reply.now) log.old log.new }
{
    if let Some(change) = ProgramRequest::of(job, has_reply, reply) {
        recorder.record(&change, log);
    }
}

/// Hooks that record each answered request to change a program.
#[derive(Clone, Copy)]
pub struct RecordingGate<'a, C: Recorder> {
    pub recorder: &'a C,
}

impl<'a, C: Recorder> Gate for RecordingGate<'a, C> {
    ghost passed = { λ number before after. after ≡ before };

    ghost answered = { IsRecorded C.recorded };

    // Delays no job.
    fn between<R: Wait>(&self, rt: &R, number: u64, log: &mut CallLog) {
        let _ = rt;
        let _ = number;
        let _ = log;
    }

    fn after_answer(&self, job: &Job, has_reply: bool, reply: &Emission, log: &mut CallLog) {
        record_answer(self.recorder, job, has_reply, reply, log);
    }
}

/// A recorder that records nothing.
#[derive(Clone, Copy)]
pub struct NoChanges;

impl Recorder for NoChanges {
    ghost recorded = { λ change before after. after ≡ before };

    fn record(&self, change: &ProgramRequest<'_>, log: &mut CallLog) {
        let _ = change;
        let _ = log;
    }
}

/// A recorder that passes each change to a logger, as a record of level info.
#[derive(Clone, Copy)]
pub struct LoggedChanges<'a, L: Logger> {
    pub logger: &'a L,
}

impl<'a, L: Logger> Recorder for LoggedChanges<'a, L> {
    ghost recorded = { λ change before after. after ≡ before };

    fn record(&self, change: &ProgramRequest<'_>, log: &mut CallLog) {
        let _ = log;
        info!(self.logger; target: "fcd", "{change}");
    }
}

/// A recorder, and the log of the changes that were passed to the recorder.
///
/// Contracts see the log.
#[derive(Drop)]
pub struct ChangeLog<'a, C: Recorder> {
    recorder: &'a C,
    log: CallLog,
}

impl<'a, C: Recorder> Model for ChangeLog<'a, C> {
    ghost use Rattle.fc_backend.specs.declared.call_log.CallLog.{CallLog as Log};

    ghost Value = { Log };

    ghost view = { λ c. c.log };
}

impl<'a, C: Recorder> ChangeLog<'a, C> {
    /// Creates an empty log of the changes that `recorder` will get.
    pub fn new(recorder: &'a C) -> ChangeLog<'a, C> {
        ChangeLog {
            recorder,
            log: CallLog::new(),
        }
    }
}

impl<'a, C: Recorder> Witness for ChangeLog<'a, C> {
    ghost shown = { IsRecorded C.recorded };

    // Records the change that an answered job asked for, if it asked for one.
    fn show(&mut self, job: &Job, has_reply: bool, reply: &Emission) {
        record_answer(self.recorder, job, has_reply, reply, &mut self.log);
    }
}
