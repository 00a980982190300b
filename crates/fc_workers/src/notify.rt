//! Jobs of notification leases, run with the calls of a backend.
//!
//! A worker or the dispatcher runs such a job.
ghost use Rattle.std.specs.Prelude.{◌≡◌, ◌+◌, ◌<◌, None};
ghost use Rattle.coap_msg.specs.declared.types.Emission.{Emission as Emitted};
ghost use Rattle.fc_front.specs.Receiving.{emission_if};
ghost use Rattle.fc_ticket.specs.Notes.{noted_as, sent_of};
ghost use Rattle.fc_backend.specs.Answers.{saturated};
ghost use Rattle.fc_workers.specs.Outgoing.{IsFoundTold, IsGivenUp, IsNoteSent};
ghost use Rattle.fc_workers.specs.Work.{HasSameTallies, IsTurnWorked};

use crate::context::{Context, WorkerParts};
use crate::scratch::Scratch;
use coap_msg::Emission;
use fc_backend::{Bench, Gate, Share, ShareOf, TimeSource, TrackLog, Wire};
use fc_core::Step;
use fc_machine::{Frame, run};
use fc_observe::Turn;
use fc_registry::Taken;
use fc_ticket::{Job, NoteOutcome, Notification, Ticket};
use std::sync::Wait;

impl<'a, B: Bench, G: Gate, W: Wire, M: TimeSource, R: Wait> Context<'a, B, G, W, M, R> {
    /// Runs the job of a lease, and returns whether a message is to be sent.
    ///
    /// It takes a snapshot of the lease's slot, draws a message ID, runs the program and notifies
    /// the observer. If the slot is empty, nothing is run. The message is written over
    /// `scratch.reply`. If memory for the snapshot is refused, or no message ID is available, the
    /// lease is released, and nothing is to be sent. If the lease isn't active any more, nothing
    /// else is done. No slot changes, and one more ended job is counted.
    #[inline(never)]
    pub fn notify(
        &self,
        scratch: &mut Scratch,
        job: &Job,
        turn: Turn,
        share: &mut ShareOf<B::Tallies, B::Book>,
    ) -> bool
        requires { turn.slot < 64 }
        ensures worked { IsTurnWorked ⟦<(B, G, W, M) as WorkerParts>⟧.view
            job.now turn share.old share.new (emission_if result scratch.new.reply) }
        ensures ended { B.ended share.new.tallies ≡ saturated (B.ended share.old.tallies + 1) }
    {
        let Scratch {
            frame,
            stage,
            reply,
            ..
        } = scratch;
        stage.step = Step::Gone;
        let Share { tallies, log, .. } = share;
        let readings = self.bench.readings(self.rt, log);
        let taken = self
            .bench
            .take(self.rt, job, &readings, &mut stage.found, tallies, log);
        share.count_snapshot(&taken);
        match &taken {
            Taken::Given(program) => {
                let ticket = Ticket::of(program, &stage.found);
                self.tell(frame, turn, Some(ticket), reply, share)
            }
            Taken::Missing => self.tell(frame, turn, None, reply, share),
            Taken::Refused => {
                self.give_up(turn, share);
                false
            }
            Taken::Stale => false,
        }
    }

    // Runs the ticket's program, and notifies the lease's observer of the outcome. If `found` is
    // `None`, notifies the observer of an empty slot. Returns whether the message in `reply` is to
    // be sent. If no message ID is available, releases the lease instead, and returns `false`.
    fn tell(
        &self,
        frame: &mut Frame,
        turn: Turn,
        found: Option<Ticket<'_>>,
        reply: &mut Emission,
        share: &mut ShareOf<B::Tallies, B::Book>,
    ) -> bool
        requires { turn.slot < 64 }
        ensures told { IsFoundTold ⟦<(B, G, W, M) as WorkerParts>⟧.view
            turn found.entry (emission_if result reply.new) share.old.log share.new.log }
        ensures kept { HasSameTallies ⟦<(B, G, W, M) as WorkerParts>⟧.view
            share.old share.new }
        ensures ended { B.ended share.new.tallies ≡ saturated (B.ended share.old.tallies + 1) }
    {
        let now = self.now(&mut share.log);
        let Some(id) = self.bench.fresh_id(self.rt, now, &mut share.log) else {
            self.give_up(turn, share);
            return false;
        };
        match &found {
            Some(ticket) => {
                let outcome = run(
                    frame,
                    ticket.program(),
                    ticket.request(),
                    ticket.vars(),
                    ticket.readings(),
                );
                let told = Notification::Ran(&outcome, ticket);
                self.note(turn, id, &told, reply, share)
            }
            None => self.note(turn, id, &Notification::Gone, reply, share),
        }
    }

    // Notifies the observer of a lease, with the content `told` and message ID `id`, at the current
    // time. Returns whether the message in `reply` is to be sent. It isn't if the shard refuses the
    // notification, for example since the lease isn't active any more.
    fn note(
        &self,
        turn: Turn,
        id: u16,
        told: &Notification<'_>,
        reply: &mut Emission,
        share: &mut ShareOf<B::Tallies, B::Book>,
    ) -> bool
        requires { turn.slot < 64 }
        ensures noted { IsNoteSent ⟦<(B, G, W, M) as WorkerParts>⟧.view
            told.now turn id (emission_if result reply.new) share.old.log share.new.log }
        ensures kept { HasSameTallies ⟦<(B, G, W, M) as WorkerParts>⟧.view
            share.old share.new }
        ensures ended { B.ended share.new.tallies ≡ saturated (B.ended share.old.tallies + 1) }
    {
        let Share { tallies, log, .. } = share;
        let now = self.now(log);
        let random = self.times.random(self.rt);
        let noted = self
            .bench
            .note(self.rt, turn, id, now, random, told, reply, tallies, log);
        is_note_sent(noted)
    }

    // Releases a lease, at the current time. Nothing is sent.
    fn give_up(&self, turn: Turn, share: &mut ShareOf<B::Tallies, B::Book>)
        requires { turn.slot < 64 }
        ensures given_up { IsGivenUp ⟦<(B, G, W, M) as WorkerParts>⟧.view
            turn None share.old.log share.new.log }
        ensures kept { HasSameTallies ⟦<(B, G, W, M) as WorkerParts>⟧.view
            share.old share.new }
        ensures ended { B.ended share.new.tallies ≡ saturated (B.ended share.old.tallies + 1) }
    {
        let Share { tallies, log, .. } = share;
        let now = self.now(log);
        self.bench.give_up(self.rt, turn, now, tallies, log);
    }
}

// Returns whether a message is to be sent: whether the shard's result `noted` is `Sent`.
fn is_note_sent(noted: NoteOutcome) -> bool
    ensures { (reply : Emitted) → emission_if result reply ≡ sent_of (noted_as noted reply) }
{
    match noted {
        NoteOutcome::Sent => true,
        NoteOutcome::Stale | NoteOutcome::Stranger => false,
    }
}
