//! A single-threaded server that runs each job before the call returns.
//!
//! A job is that of a request, or that of an observer's lease.
ghost use Rattle.std.specs.Prelude.{◌≡◌, [], IfOk};
ghost use Rattle.fc_help.specs.Region.{no_readings};
ghost use Rattle.fc_front.specs.Exchanges.{advanced};
ghost use Rattle.fc_front.specs.Receiving.{delivered, emission_if};
ghost use Rattle.fc_server.specs.SingleThread.{HandlesAlone, alone_calls};
ghost use Rattle.fc_server.specs.Ingresses.{is_reply};
ghost use Rattle.fc_server.specs.Serving.{Serves};
ghost use Rattle.fc_server.specs.Shown.{IsShown};
ghost use Rattle.fc_server.specs.States.{CanBegin, begin_of};

use crate::engine::{Engine, FireOutcome, NotifyOutcome};
use crate::first::FirstServer;
use crate::gauges::Gauges;
use crate::ingress::Ingress;
use crate::server::Begin;
use crate::witness::{NoWitness, Witness};
use coap_msg::{Emission, Endpoint};
use fc_front::Handled;
use fc_help::{NO_READINGS, Readings};
use fc_observe::Ticked;
use fc_ticket::{SHARDS, SlotNumber};
use std::alloc::{AllocError, Global};

/// Input for jobs: sensor readings, and a random word for timeouts.
///
/// A snapshot gets the readings. The random word determines how long the server waits for the
/// acknowledgement of a confirmable notification.
#[derive(Clone, Copy)]
pub struct Handed {
    readings: Readings,
    random: u16,
}

/// A server on one thread, with the input for its next jobs.
///
/// The calls of the server take the number of a shard modulo 8.
#[derive(Drop)]
pub struct SingleThread {
    alloc: Global,
    engine: Engine,
    handed: Handed,
}

impl SingleThread {
    /// Makes a server with empty slots and the initial state `begin`.
    ///
    /// The readings and the random word for its jobs are zeros. See [`Engine::new`].
    ///
    /// # Errors
    /// Returns `AllocError` if memory can't be allocated.
    pub fn new(alloc: Global, begin: &Begin) -> Result<SingleThread, AllocError>
        requires { CanBegin begin.now }
        ensures begins { IfOk result (λ alone. Serves (begin_of begin.now) alone.engine []) }
        ensures handed { IfOk result (λ alone. alone.handed ≡ record { readings = no_readings; random = 0 }) }
    {
        SingleThread::over(alloc, FirstServer::new(alloc, begin)?)
    }

    /// Makes a server in the state `first`.
    ///
    /// The readings and the random word for its jobs are zeros. See [`Engine::over`].
    ///
    /// # Errors
    /// Returns `AllocError` if memory can't be allocated.
    pub fn over(alloc: Global, first: FirstServer) -> Result<SingleThread, AllocError>
        ensures engine { IfOk result (λ alone. alone.engine ≡ first) }
        ensures handed { IfOk result (λ alone. alone.handed ≡ record { readings = no_readings; random = 0 }) }
    {
        Ok(SingleThread {
            alloc,
            engine: Engine::over(alloc, first)?,
            handed: Handed {
                readings: NO_READINGS,
                random: 0,
            },
        })
    }

    /// Sets the readings and the random word for the jobs that run from now on.
    pub fn set_handed(&mut self, readings: &Readings, random: u16)
        ensures engine { self.new.engine ≡ self.old.engine }
        ensures handed { self.new.handed ≡ record { readings = readings.now; random = random } }
    {
        self.handed = Handed {
            readings: *readings,
            random,
        };
    }

    /// Handles a datagram as [`Ingress::handle`] does, and shows its job to a witness.
    ///
    /// Returns `Reply` if there is a datagram to send, which is written over `reply`, and otherwise
    /// `Nothing`. The datagram's job is shown once, after its answer, with the response to send, if
    /// there is one. If the datagram produces no job, the witness doesn't change. `fc_record`
    /// passes a witness that records changes.
    pub fn handle_with<W: Witness>(
        &mut self,
        now: u64,
        from: Endpoint,
        bytes: &[u8],
        reply: &mut Emission,
        witness: &mut W,
    ) -> Handled
        ensures handles { HandlesAlone now from bytes.entry self.old self.new result reply.new }
        ensures shown { IsShown W.shown (delivered (advanced self.old.engine.front now) from bytes.now)
            (emission_if (is_reply result) reply.new) witness.old witness.new }
    {
        let readings = &self.handed.readings;
        if self
            .engine
            .handle(self.alloc, now, from, bytes, readings, reply, witness)
        {
            Handled::Reply
        } else {
            Handled::Nothing
        }
    }
}

impl Ingress for SingleThread {
    ghost calls = { alone_calls };

    fn handle(&mut self, now: u64, from: Endpoint, bytes: &[u8], reply: &mut Emission) -> Handled {
        self.handle_with(now, from, bytes, reply, &mut NoWitness)
    }

    fn tick(&mut self, now: u64) {
        self.engine.tick(now);
    }

    fn fire(&mut self, slot: SlotNumber, now: u64) -> FireOutcome {
        if self.engine.fire(slot, now, &self.handed.readings) {
            FireOutcome::Ended
        } else {
            FireOutcome::Refused
        }
    }

    fn first_due(&self) -> u64 {
        u64::MAX
    }

    fn resend(&mut self, shard: u8, now: u64) -> Ticked {
        self.engine.resend(shard % SHARDS, now)
    }

    fn advance_if_idle(&mut self, shard: u8, now: u64) -> bool {
        self.engine.advance_if_idle(shard % SHARDS, now)
    }

    fn idle_until(&self, shard: u8) -> u64 {
        self.engine.idle_until(shard % SHARDS)
    }

    fn gauges(&self, now: u64) -> Gauges {
        self.engine.gauges(now)
    }

    fn notify(&mut self, shard: u8, now: u64, emission: &mut Emission) -> NotifyOutcome {
        self.engine.notify(
            shard % SHARDS,
            now,
            &self.handed.readings,
            self.handed.random,
            emission,
        )
    }
}
