//! A single-threaded server whose changes are recorded.
ghost use Rattle.std.specs.Prelude.{◌≡◌};
ghost use Rattle.fc_record.specs.Recording.{recorded_calls};

use crate::recorder::{ChangeLog, Recorder};
use coap_msg::{Emission, Endpoint};
use fc_front::Handled;
use fc_help::Readings;
use fc_observe::Ticked;
use fc_server::engine::{FireOutcome, NotifyOutcome};
use fc_server::{Gauges, Ingress, SingleThread};
use fc_ticket::SlotNumber;
use std::marker::Model;

/// A single-threaded server that records each change after its response.
///
/// Contracts see the server, and the log of its records.
#[derive(Drop)]
pub struct RecordedAlone<'a, C: Recorder> {
    alone: SingleThread,
    changes: ChangeLog<'a, C>,
}

impl<'a, C: Recorder> Model for RecordedAlone<'a, C> {
    ghost use Rattle.fc_record.specs.Recording.{Recording};

    ghost Value = { Recording };

    ghost view = { λ r. record { alone = r.alone; log = r.changes } };
}

impl<'a, C: Recorder> RecordedAlone<'a, C> {
    /// Wraps a server; `recorder` gets the server's changes from now on.
    pub fn new(alone: SingleThread, recorder: &'a C) -> RecordedAlone<'a, C>
        ensures { result.alone ≡ alone }
    {
        RecordedAlone {
            alone,
            changes: ChangeLog::new(recorder),
        }
    }

    /// Sets the readings and the random word for jobs that run from now on.
    ///
    /// `fcd serve` on one thread calls it in each round. See [`SingleThread::set_handed`].
    pub fn set_handed(&mut self, readings: &Readings, random: u16)
        ensures engine { self.new.alone.engine ≡ self.old.alone.engine }
        ensures handed { self.new.alone.handed ≡ record { readings = readings.now; random = random } }
        ensures log { self.new.log ≡ self.old.log }
    {
        self.alone.set_handed(readings, random);
    }
}

/// Each call is passed to the server.
///
/// `handle` also records the change that the datagram's job asked for, if it asked for one.
impl<'a, C: Recorder> Ingress for RecordedAlone<'a, C> {
    ghost calls = { recorded_calls C.recorded };

    fn handle(&mut self, now: u64, from: Endpoint, bytes: &[u8], reply: &mut Emission) -> Handled {
        self.alone
            .handle_with(now, from, bytes, reply, &mut self.changes)
    }

    fn tick(&mut self, now: u64) {
        self.alone.tick(now);
    }

    fn fire(&mut self, slot: SlotNumber, now: u64) -> FireOutcome {
        self.alone.fire(slot, now)
    }

    fn first_due(&self) -> u64 {
        self.alone.first_due()
    }

    fn resend(&mut self, shard: u8, now: u64) -> Ticked {
        self.alone.resend(shard, now)
    }

    fn advance_if_idle(&mut self, shard: u8, now: u64) -> bool {
        self.alone.advance_if_idle(shard, now)
    }

    fn idle_until(&self, shard: u8) -> u64 {
        self.alone.idle_until(shard)
    }

    fn gauges(&self, now: u64) -> Gauges {
        self.alone.gauges(now)
    }

    fn notify(&mut self, shard: u8, now: u64, emission: &mut Emission) -> NotifyOutcome {
        self.alone.notify(shard, now, emission)
    }
}
