//! Tasks: the effect of each event on a job, its slot and its shard.
//!
//! `fc_server` applies an event by one of these calls. Except for [`Task::begin`] and
//! [`Task::lose`], a call has no effect if the task's stage needs another call.
ghost use Rattle.std.specs.Prelude.{◌≡◌, ℕ, ◌<◌, List, None, Option, Some, false, option_copied, max, OnOk, IsErr};
ghost use Rattle.fc_verify.specs.Accepted.{Accepts};
ghost use Rattle.fc_verify.specs.Judged.{judged};
ghost use Rattle.fc_registry.specs.Slots.{IsOwned, slot_in};
ghost use Rattle.fc_registry.specs.Calls.{HasGiven, wants};
ghost use Rattle.fc_ticket.specs.Notes.{note_calls};
ghost use Rattle.fc_registry.specs.Views.{HasSize, taken_with};
ghost use Rattle.fc_registry.specs.Watches.{at_time, with_calls};
ghost use Rattle.fc_core.specs.declared.event.Event.{Event};
ghost use Rattle.fc_core.specs.Fits.{FitsStage, HasNext, TellsOwn};
ghost use Rattle.fc_front.specs.Receiving.{emission_if};
ghost use Rattle.fc_core.specs.Sound.{AllSafe};
ghost use Rattle.fc_core.specs.Room.{FitsTurnStep, StandsAt, turn_stage_of};
ghost use Rattle.fc_core.specs.Stage.{Gone};
ghost use Rattle.fc_core.specs.Stages.{content_at, drew, ended, had_memory, image_of, needs_id, new_task, turn_to_take, without_memory};
ghost use Rattle.fc_core.specs.TurnStage as turns;
ghost use Rattle.fc_core.specs.declared.stage.TurnStep.TheVariants.{ToDraw};
ghost use Rattle.fc_core.specs.Steps.{changes_of_call, next_stage};
ghost use Rattle.fc_core.specs.Transitions.{Common, Inputs, ShardMoves, TaskMoves, commit_call, commit_effect, install_call, install_effect, goes_to, note_on, notification, transition, inputs_of, shard_moved, task_moved, words_after};

use crate::stage::{Stage, Step, Task, TurnStep};
use coap_msg::Emission;
use fc_front::answer::Answer;
use fc_front::front::blank_job;
use fc_front::heads::{Heads, WORDS};
use fc_help::{NO_READINGS, Readings};
use fc_machine::{Frame, run};
use fc_observe::Turn;
use fc_registry::{Shard, Taken, wants_to_write};
use fc_ticket::{
    Ask, InitialVars, Job, NoteOutcome, Notification, Receipt, SlotNumber, SlotSnapshot, Ticket,
};
use fc_verify::{Refusal, Verified, verify};
use std::alloc::{AllocError, Global};
use std::mem;
use std::sync::Arc;

impl Task {
    /// Makes a task of a job at its first stage.
    pub fn new(job: Job) -> Task
        ensures { result ≡ new_task job }
    {
        let mut stage = Stage::blank();
        stage.begin(&job);
        Task { job, stage }
    }

    /// Makes a task without a job; [`Task::begin`] starts a job that is written to it.
    pub fn blank() -> Task
        ensures { result ≡ new_task result.job }
    {
        Task::new(blank_job())
    }

    /// Sets the first stage of the task's job.
    pub fn begin(&mut self)
        ensures { self.new ≡ new_task self.old.job }
    {
        self.stage.begin(&self.job);
    }

    /// Reads the head word of `slot`, if the job needs the head word of this slot next.
    pub fn peek(&mut self, slot: u8, heads: &Heads)
        requires { HasNext self.old.stage }
        ensures { (k : ℕ) (shard : Shard) (free : ℕ → Option ℕ) → let common : Common = record { words = heads.now; free = free } in
            self.new ≡ task_moved self.old (transition (Event.Peek k slot) (inputs_of shard common self.old)) }
    {
        let stage = &mut self.stage;
        match &stage.step {
            Step::ToMatch if slot == self.job.origin.slot.number() => {
                let word = heads.peek(self.job.origin.slot);
                stage.matched(&self.job, word);
            }
            Step::ToList if usize::from(slot) == stage.seen.len() => {
                let word = heads.peek(SlotNumber::new(slot));
                let _fits = stage.seen.try_push(word);
                if stage.seen.len() == WORDS {
                    stage.listed();
                }
            }
            _ => {}
        }
    }

    /// Takes a snapshot of the job's slot in `shard`, with these readings.
    ///
    /// Returns `false` if memory for the snapshot can't be allocated: then a request is answered
    /// 5.03, and a lease still needs its snapshot. Returns `true` in all other cases, also if no
    /// snapshot is needed.
    pub fn take(&mut self, shard: &mut Shard, readings: &Readings) -> bool
        requires owned { IsOwned shard.old self.old.job.origin.slot }
        requires fits { FitsStage self.old.job (slot_in shard.old self.old.job.origin.slot) self.old.stage }
        ensures task { (k : ℕ) → TaskMoves (Event.Take k result readings.now) shard.old self.old self.new }
        ensures shard { (k : ℕ) → ShardMoves (Event.Take k result readings.now) shard.old self.old shard.new }
    {
        if let Some(turn) = self.stage.turn_to_take() {
            return self.take_turn(turn, shard, readings);
        }
        let stage = &mut self.stage;
        let Step::ToTake(count) = stage.step else {
            return true;
        };
        let taken = shard.take_into(&self.job, readings, &mut stage.found);
        let memory = had_memory(&taken);
        stage.step = Step::took(count, taken, &mut stage.answer);
        memory
    }

    // Takes the snapshot of the job's lease `turn`. Returns `false` if memory for the snapshot
    // can't be allocated, otherwise `true`.
    fn take_turn(&mut self, turn: Turn, shard: &mut Shard, readings: &Readings) -> bool
        requires owned { IsOwned shard.old self.old.job.origin.slot }
        requires fits { FitsStage self.old.job (slot_in shard.old self.old.job.origin.slot) self.old.stage }
        requires turn { turn_to_take self.old.stage ≡ Some turn }
        ensures task { (k : ℕ) → TaskMoves (Event.Take k result readings.now) shard.old self.old self.new }
        ensures shard { (k : ℕ) → ShardMoves (Event.Take k result readings.now) shard.old self.old shard.new }
    {
        let stage = &mut self.stage;
        let taken = shard.take_into(&self.job, readings, &mut stage.found);
        let memory = had_memory(&taken);
        stage.step = Step::turn_took(turn, taken);
        memory
    }

    /// Takes a snapshot as if memory couldn't be allocated.
    ///
    /// The call applies a `Take` whose `memory` is `false`. It has the effect of [`Task::take`] for
    /// an empty slot and for a lease that isn't active any more, since these need no memory.
    pub fn refuse_take(&mut self, shard: &mut Shard)
        requires owned { IsOwned shard.old self.old.job.origin.slot }
        requires fits { FitsStage self.old.job (slot_in shard.old self.old.job.origin.slot) self.old.stage }
        ensures task { (k : ℕ) (readings : List ℕ) → TaskMoves (Event.Take k false readings) shard.old self.old self.new }
        ensures shard { (k : ℕ) (readings : List ℕ) → ShardMoves (Event.Take k false readings) shard.old self.old shard.new }
    {
        if let Some(turn) = self.stage.turn_to_take() {
            return self.refuse_turn(turn, shard);
        }
        let stage = &mut self.stage;
        if let Step::ToTake(count) = stage.step {
            let taken = without_memory(shard.take_into(&self.job, &NO_READINGS, &mut stage.found));
            stage.step = Step::took(count, taken, &mut stage.answer);
        }
    }

    // Takes the snapshot of the job's lease `turn` as if memory couldn't be allocated.
    fn refuse_turn(&mut self, turn: Turn, shard: &mut Shard)
        requires owned { IsOwned shard.old self.old.job.origin.slot }
        requires fits { FitsStage self.old.job (slot_in shard.old self.old.job.origin.slot) self.old.stage }
        requires turn { turn_to_take self.old.stage ≡ Some turn }
        ensures task { (k : ℕ) (readings : List ℕ) → TaskMoves (Event.Take k false readings) shard.old self.old self.new }
        ensures shard { (k : ℕ) (readings : List ℕ) → ShardMoves (Event.Take k false readings) shard.old self.old shard.new }
    {
        let stage = &mut self.stage;
        let taken = without_memory(shard.take_into(&self.job, &NO_READINGS, &mut stage.found));
        stage.step = Step::turn_took(turn, taken);
    }

    /// Runs the snapshot's program, and commits the run in `shard`.
    ///
    /// `now` is in milliseconds. The commit determines the job's answer or its next snapshot (see
    /// [`Step::committed`]). Nothing changes unless the job is to commit a run next.
    pub fn commit(&mut self, frame: &mut Frame, shard: &mut Shard, now: u64)
        requires owned { IsOwned shard.old self.old.job.origin.slot }
        requires fits { FitsStage self.old.job (slot_in shard.old self.old.job.origin.slot) self.old.stage }
        ensures task { (k : ℕ) → TaskMoves (Event.Commit k now) shard.old self.old self.new }
        ensures shard { (k : ℕ) → ShardMoves (Event.Commit k now) shard.old self.old shard.new }
    {
        let stage = &mut self.stage;
        let Step::ToCommit(count, program) = &stage.step else {
            return;
        };
        let ticket = Ticket::of(program, &stage.found);
        stage.step = run_and_commit(frame, *count, &ticket, shard, now, &mut stage.answer);
    }

    /// Removes the program of the job's slot in `shard`.
    ///
    /// The removal determines the job's answer (see [`Stage::removed`]). Nothing changes unless the
    /// job is to remove a program next.
    pub fn remove(&mut self, shard: &mut Shard)
        requires { IsOwned shard.old self.old.job.origin.slot }
        ensures task { (k : ℕ) → TaskMoves (Event.Remove k) shard.old self.old self.new }
        ensures shard { (k : ℕ) → ShardMoves (Event.Remove k) shard.old self.old shard.new }
    {
        let stage = &mut self.stage;
        if let Step::ToRemove = &stage.step {
            stage.removed(shard.remove(self.job.origin.slot));
        }
    }

    /// Refuses the change of the job's slot, which can't be saved.
    ///
    /// The change is a removal, or the commit of a run that wants to write. The job's answer is
    /// then 5.03. At a commit, the snapshot's program runs in `frame`. If the run doesn't want to
    /// write, or at any other stage, nothing changes. No slot changes.
    pub fn refuse(&mut self, frame: &mut Frame)
        ensures { (k : ℕ) (shard : Shard) → TaskMoves (Event.Refuse k) shard self.old self.new }
    {
        let stage = &mut self.stage;
        match &stage.step {
            Step::ToCommit(_, program) => {
                let ticket = Ticket::of(program, &stage.found);
                if run_wants_to_write(frame, &ticket) {
                    stage.unavailable();
                }
            }
            Step::ToRemove => stage.unavailable(),
            _ => {}
        }
    }

    /// Reads the receipt of the program of the job's slot in `shard`.
    ///
    /// The answer is the receipt, or 4.04 for an empty slot. Nothing changes unless the job is to
    /// read a receipt next.
    pub fn describe(&mut self, shard: &Shard)
        ensures { (k : ℕ) → TaskMoves (Event.Receipt k) shard.entry.now self.old self.new }
    {
        let stage = &mut self.stage;
        if let Step::ToDescribe = &stage.step {
            stage.set_receipt(shard.receipt(self.job.origin.slot));
        }
    }

    /// Verifies the job's image, and installs the program in the job's slot.
    ///
    /// Returns `false` if memory can't be allocated: then no slot changes, and the job is answered
    /// 5.03. Returns `true` in all other cases, also if no install is needed. An image that breaks
    /// a rule is answered 4.00.
    pub fn install(&mut self, alloc: Global, shard: &mut Shard) -> bool
        requires { IsOwned shard.old self.old.job.origin.slot }
        ensures task { (k : ℕ) → TaskMoves (Event.Install k result) shard.old self.old self.new }
        ensures shard { (k : ℕ) → ShardMoves (Event.Install k result) shard.old self.old shard.new }
        ensures safe { (k : ℕ) (common : Common) → AllSafe (transition (Event.Install k result) (inputs_of shard.old common self.old)).changes }
    {
        let stage = &mut self.stage;
        let Step::ToInstall = &stage.step else {
            return true;
        };
        let slot = self.job.origin.slot;
        let initial = self.job.ask.initial_vars();
        match verify_and_install(alloc, image(&self.job.ask), initial, shard, slot, stage) {
            Ok(()) => true,
            Err(_) => {
                stage.unavailable();
                false
            }
        }
    }

    /// Installs as if memory couldn't be allocated: the job is answered 5.03.
    ///
    /// The call applies an `Install` whose `memory` is `false`.
    pub fn refuse_install(&mut self)
        ensures { (k : ℕ) (shard : Shard) → TaskMoves (Event.Install k false) shard self.old self.new }
    {
        let stage = &mut self.stage;
        if let Step::ToInstall = &stage.step {
            stage.unavailable();
        }
    }

    /// Publishes the new head word of the job's slot.
    ///
    /// Nothing changes unless the job is to raise a head word next.
    pub fn raise(&mut self, heads: &mut Heads)
        ensures task { (k : ℕ) (shard : Shard) → TaskMoves (Event.Raise k) shard self.old self.new }
        ensures words { (k : ℕ) (shard : Shard) (common : Common) →
            heads.new ≡ words_after (transition (Event.Raise k) (inputs_of shard common self.old)) self.old heads.old }
    {
        let stage = &mut self.stage;
        if let Step::ToRaise(word) = stage.step {
            heads.raise(self.job.origin.slot, word);
            stage.step = Step::ToAnswer;
        }
    }

    /// Returns the job's answer if the job is to be answered next, or `None`.
    pub fn content(&self) -> Option<&Answer>
        ensures { option_copied result ≡ content_at self.now.stage }
    {
        self.stage.content()
    }

    /// Ends a task whose job is to be answered next, so that it is answered once.
    pub fn end(&mut self)
        ensures { self.new ≡ task_moved self.old (goes_to (ended self.old.stage)) }
    {
        let stage = &mut self.stage;
        if let Step::ToAnswer = &stage.step {
            stage.step = Step::Gone;
        }
    }

    /// Returns whether the task needs a message ID for its lease's notification.
    pub fn needs_id(&self) -> bool
        ensures { result ≡ needs_id self.now.stage }
    {
        let stage = &self.stage;
        matches!(stage.step, Step::ToTell(_, TurnStep::ToDraw(_)))
    }

    /// Stores the message ID `free` for the notification of the task's lease.
    ///
    /// If `free` is `None`, the lease still needs a message ID.
    pub fn draw(&mut self, free: Option<u16>)
        ensures { self.new ≡ task_moved self.old (goes_to (drew free self.old.stage)) }
    {
        let stage = &mut self.stage;
        match (mem::replace(&mut stage.step, Step::Gone), free) {
            (Step::ToTell(turn, TurnStep::ToDraw(program)), Some(id)) => {
                stage.step = Step::ToTell(turn, TurnStep::ToNote(program, id));
            }
            (other, _) => stage.step = other,
        }
    }

    /// Runs the program of the lease's snapshot, and notifies the lease's observer.
    ///
    /// `now` is in milliseconds. No program runs if the slot was empty. The observer is notified if
    /// the lease is still active. The datagram is written over `emission`, and the task has ended.
    /// Returns whether there is a datagram to send. The result is `false`, and nothing changes,
    /// unless the task is to notify an observer next.
    pub fn note(
        &mut self,
        frame: &mut Frame,
        shard: &mut Shard,
        now: u64,
        random: u16,
        emission: &mut Emission,
    ) -> bool
        requires owned { IsOwned shard.old self.old.job.origin.slot }
        requires fits { FitsStage self.old.job (slot_in shard.old self.old.job.origin.slot) self.old.stage }
        ensures task { (k : ℕ) → TaskMoves (Event.Note k now random) shard.old self.old self.new }
        ensures shard { (k : ℕ) → ShardMoves (Event.Note k now random) shard.old self.old shard.new }
        ensures sent { (common : Common) →
            emission_if result emission.new ≡ notification now (inputs_of shard.old common self.old) self.old.stage }
    {
        let stage = &mut self.stage;
        let Step::ToTell(turn, TurnStep::ToNote(program, id)) = &stage.step else {
            return false;
        };
        let found = ticket_if(program, &stage.found);
        let sent = note(frame, shard, *turn, *id, now, random, &found, emission);
        stage.step = Step::Gone;
        sent
    }

    /// Releases the lease of the task in `shard`, and ends the task.
    ///
    /// `now` is in milliseconds. Nothing changes if the task has no lease, or has ended.
    pub fn give_up(&mut self, shard: &mut Shard, now: u64)
        requires owned { IsOwned shard.old self.old.job.origin.slot }
        requires fits { FitsStage self.old.job (slot_in shard.old self.old.job.origin.slot) self.old.stage }
        ensures task { (k : ℕ) → TaskMoves (Event.GiveUp k now) shard.old self.old self.new }
        ensures shard { (k : ℕ) → ShardMoves (Event.GiveUp k now) shard.old self.old shard.new }
    {
        let stage = &mut self.stage;
        if let Step::ToTell(turn, _) = &stage.step {
            shard.give_up(*turn, now);
            stage.step = Step::Gone;
        }
    }

    /// Ends the task, since its worker is lost. The job is never answered.
    pub fn lose(&mut self)
        ensures { self.new ≡ task_moved self.old (goes_to Gone) }
    {
        let stage = &mut self.stage;
        stage.step = Step::Gone;
    }
}

// Returns whether memory for a snapshot could be allocated, or wasn't needed.
fn had_memory(taken: &Taken) -> bool
    ensures { (f : SlotSnapshot) → result ≡ had_memory (taken_with taken.now f) }
{
    !matches!(taken, Taken::Refused)
}

// Returns the result of a snapshot as if memory couldn't be allocated: `Refused` instead of a
// program. Any other result needs no memory, and stays as it is.
fn without_memory(taken: Taken) -> Taken
    ensures { (f : SlotSnapshot) → (taken_with result f ≡ without_memory (taken_with taken f)) × HasSize result f }
{
    match taken {
        Taken::Given(_) => Taken::Refused,
        other => other,
    }
}

/// Returns the image that a job is to install, or no bytes for any other job.
pub fn image(ask: &Ask) -> &[u8]
    ensures { result.now ≡ image_of ask.now }
{
    match ask {
        Ask::Install(image, _) => image.as_slice(),
        _ => &[],
    }
}

// Runs the ticket's program and commits the run in the shard. Returns the next action, and writes
// the answer over `answer` if the run or the commit determines one. `count` is the number of
// snapshots so far.
fn run_and_commit(
    frame: &mut Frame,
    count: u8,
    ticket: &Ticket<'_>,
    shard: &mut Shard,
    now: u64,
    answer: &mut Answer,
) -> Step
    requires owned { IsOwned shard.old ticket.now.origin.slot }
    requires given { HasGiven (slot_in shard.old ticket.now.origin.slot) ticket.now }
    requires asked { ticket.now.turn ≡ None }
    ensures stage { StandsAt result answer.new (next_stage (commit_call shard.old count ticket.now)) }
    ensures shard { shard.new ≡ shard_moved (commit_effect shard.old count ticket.now now) ticket.now.origin.slot shard.old }
{
    let outcome = run(
        frame,
        ticket.program(),
        ticket.request(),
        ticket.vars(),
        ticket.readings(),
    );
    let committed = shard.commit(now, &outcome, ticket);
    Step::committed(count, &outcome, ticket, committed, answer)
}

// Runs the ticket's program, and returns whether the run wants to write.
fn run_wants_to_write(frame: &mut Frame, ticket: &Ticket<'_>) -> bool
    ensures { result ≡ wants ticket.now }
{
    let outcome = run(
        frame,
        ticket.program(),
        ticket.request(),
        ticket.vars(),
        ticket.readings(),
    );
    wants_to_write(&outcome)
}

// Returns the ticket of a program and its snapshot, or `None` if the slot was empty.
fn ticket_if<'a>(program: &'a Option<Arc<Verified>>, found: &'a SlotSnapshot) -> Option<Ticket<'a>>
    requires { FitsTurnStep (ToDraw program.now) found.now }
    ensures { turn_stage_of (ToDraw program.now) found.now ≡ turns.ToDraw result }
{
    match program {
        Some(program) => Some(Ticket::of(program, found)),
        None => None,
    }
}

// Notifies the observer of a lease. Runs the program of the lease's ticket, or reports that the
// slot was empty if `found` is `None`. The datagram is written over `emission`. Returns whether
// there is a datagram to send; there is none if the lease isn't active any more.
fn note(
    frame: &mut Frame,
    shard: &mut Shard,
    turn: Turn,
    id: u16,
    now: u64,
    random: u16,
    found: &Option<Ticket<'_>>,
    emission: &mut Emission,
) -> bool
    requires owned { IsOwned shard.old turn.slot }
    requires own { TellsOwn turn (slot_in shard.old turn.slot).serial found.now }
    ensures sent { emission_if result emission.new ≡ note_on shard.old now turn id found.now }
    ensures shard { let sent = emission_if result emission.new in
        shard.new ≡ with_calls (note_calls turn id random (max shard.old.now now) found.now sent) turn.slot (at_time shard.old now) }
{
    let noted = match found {
        Some(ticket) => {
            let outcome = run(
                frame,
                ticket.program(),
                ticket.request(),
                ticket.vars(),
                ticket.readings(),
            );
            let ran = Notification::Ran(&outcome, ticket);
            shard.write_note(turn, id, now, random, &ran, emission)
        }
        None => shard.write_note(turn, id, now, random, &Notification::Gone, emission),
    };
    match noted {
        NoteOutcome::Sent => true,
        NoteOutcome::Stale | NoteOutcome::Stranger => false,
    }
}

// Installs the program of an image, or records the rule that the image breaks, and sets the next
// stage. Returns an error if memory can't be allocated; then the shard is unchanged.
fn verify_and_install(
    alloc: Global,
    image: &[u8],
    initial: InitialVars,
    shard: &mut Shard,
    slot: SlotNumber,
    stage: &mut Stage,
) -> Result<(), AllocError>
    requires { IsOwned shard.old slot }
    ensures stage { OnOk result (stage.new ≡ next_stage (install_call initial (judged image.now) (slot_in shard.old slot))) }
    ensures shard { OnOk result ((s : Inputs) →
        shard.new ≡ shard_moved (install_effect initial (judged image.now) (record s { slot = slot_in shard.old slot })) slot shard.old) }
    ensures safe { OnOk result (AllSafe (changes_of_call (install_call initial (judged image.now) (slot_in shard.old slot)))) }
    ensures refused { IsErr result → shard.new ≡ shard.old }
{
    match verify(alloc, image) {
        Ok(program) => install_program(alloc, program, initial, shard, slot, stage),
        Err(Refusal::NoMemory) => Err(AllocError),
        Err(Refusal::Broken(fault)) => {
            stage.rejected(fault);
            Ok(())
        }
    }
}

// Installs a verified program, and sets the next stage. Returns an error if memory can't be
// allocated; then the shard is unchanged.
fn install_program(
    alloc: Global,
    program: Verified,
    initial: InitialVars,
    shard: &mut Shard,
    slot: SlotNumber,
    stage: &mut Stage,
) -> Result<(), AllocError>
    requires { IsOwned shard.old slot }
    ensures stage { OnOk result (stage.new ≡ next_stage (install_call initial (Accepts program) (slot_in shard.old slot))) }
    ensures shard { OnOk result ((s : Inputs) →
        shard.new ≡ shard_moved (install_effect initial (Accepts program) (record s { slot = slot_in shard.old slot })) slot shard.old) }
    ensures refused { IsErr result → shard.new ≡ shard.old }
{
    let receipt = Receipt::of(&program, 0);
    let program = Arc::new(alloc, program)?;
    stage.made(receipt, shard.install(slot, program, initial));
    Ok(())
}
