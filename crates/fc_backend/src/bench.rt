//! The backend: a server's shared parts, as workers call them.
ghost use Rattle.std.specs.Prelude.{◌≡◌, ℕ, ◌+◌, ◌<◌, ◌≤◌, [], max, true, ⊤, None, Some, IfErr, IfOk, IfSome, MatchBool};
ghost use Rattle.fc_front.specs.Timers.{timer_job};
ghost use Rattle.fc_front.specs.Contents.{IsOf};
ghost use Rattle.fc_core.specs.Stages.{image_of};
ghost use Rattle.fc_front.specs.Receiving.{emission_if, handled};
ghost use Rattle.fc_registry.specs.Calls.{commit_of, wants};
ghost use Rattle.fc_ticket.specs.Runs.{initial_vars_of};
ghost use Rattle.fc_registry.specs.Changes.{Committed as Wrote, Installed, Removed};
ghost use Rattle.fc_ticket.specs.Notes.{noted_as};
ghost use Rattle.fc_registry.specs.Turns.{written_if};
ghost use Rattle.fc_registry.specs.Views.{HasSize, taken_with};
ghost use Rattle.fc_filed.specs.Parts.{IsCheap};
ghost use Rattle.fc_filed.specs.Threads.{known_word};
ghost use Rattle.fc_backend.specs.Called.{BenchCall, CountsObservers, FindsSaving, LeavesUnquiet, LooksAhead, ReadsGauges, RefusesSave};
ghost use Rattle.fc_calls.specs.Logged.{AdvancesFront, AdvancesIdle, FiresTimer, GivesReadings, HandsSignal, LooksAt};
ghost use Rattle.fc_calls.specs.Logged.{AdvancesShard, AnswersRequest, CommitsRun, DrawsId, GivesTurn, GivesUpTurn, HandlesDatagram};
ghost use Rattle.fc_calls.specs.Logged.{InstallsProgram};
ghost use Rattle.fc_calls.specs.Logged.{LoggedCall, NotesTurn, RaisesWord, ReadsCost, RemovesProgram, SkipsIdle, TakesForJob, TellsReceipt};
ghost use Rattle.fc_linear.specs.Operations.{RefusesInstall, RejectsImage};
ghost use Rattle.fc_backend.specs.Filed.{FilesEach, HasFiled};
ghost use Rattle.fc_backend.specs.Logs.{FilesRefusal, TrackedLog as Log};
ghost use Rattle.fc_backend.specs.Answers.{AreTallied, IsSomeAnswer, IsSomeCommit, IsSomeDelivery, IsSomeDraw, IsSomeInstall, IsSomeNote, IsSomeIdle, IsSomeReceipt, IsSomeRemoval, IsSomeSnapshot, IsSomeTick, IsSomeTurn, changes_if, ended_by, saturated};
ghost use Rattle.fc_calls.specs.Kept.{commit_changes, install_changes, removal_changes};

use crate::track_log::TrackLog;
use coap_msg::{Emission, Endpoint};
use fc_filed::{ServerBook, ServerName};
use fc_front::{Answer, FrontGauges, Handled};
use fc_help::Readings;
use fc_machine::Outcome;
use fc_observe::{Ticked, Turn};
use fc_registry::{Committed, Made, PLACES, Removal, Taken};
use fc_ticket::{Job, NoteOutcome, Notification, Receipt, SlotNumber, SlotSnapshot, Ticket};
use fc_verify::Verified;
use std::sync::{Arc, Wait};

/// The calls of the shards, the head words and the front.
///
/// Any number of workers may call at a time. A server guards the front and each shard with a lock,
/// for which a call may wait. The result of a call is that of the shard at some slot. No clause
/// here relates the slots of two calls, since other threads may change them in between. An
/// implementation states the effects of its calls. It has to file each logged call, except the one
/// for readings (`files`).
///
/// Each worker passes tallies of its own. They count the changes of each shard that the results of
/// the worker's calls report, and the jobs that the worker ended. A worker passes its log to each
/// call that may change something, or whose result is soon out of date. So a clause can state which
/// of these calls the worker made, and in which order. The log has the worker's tracks in the
/// server's book. On them an implementation files the calls of its front, shards and head words,
/// and images that aren't installed.
pub trait Bench {
    /// The counts of one worker's changes, and of the jobs that it ended.
    type Tallies: Drop;

    /// The name of the book in which the calls of the front, shards and head words are filed.
    type Book: ServerName;

    // The number of changes of a shard, by its index, from 0 to 7.
    ghost changes: { Self.Tallies → ℕ → ℕ };

    // The number of jobs that the worker ended, up to 2^64 - 1.
    ghost ended: { Self.Tallies → ℕ };

    // The calls that were made, of those that change nothing and are in no log, each with its
    // arguments and its result.
    ghost called: { BenchCall → Type 0 } = { λ _. ⊤ };

    // The other calls that were made, each with its arguments, its result, and the log's states
    // before and after.
    ghost logged: { LoggedCall → Log → Log → Type 0 };

    // Each of these calls, except the one for readings, is filed on the worker's tracks.
    ghost files: { FilesEach logged };

    /// Returns the book in which the calls are filed.
    ///
    /// A dispatcher begins the tracks of jobs in it. A track can move to another thread's log.
    fn book(&self) -> &ServerBook<Self::Book>;

    /// Handles a datagram, at a time in milliseconds.
    ///
    /// Returns `Job` if a job was written over `job`, and `Reply` if a response was written over
    /// `reply`. Otherwise the datagram is a signal for the observers (`Signal`), or nothing is to
    /// be sent (`Nothing`). See [`Front::handle`](fc_front::Front::handle).
    fn handle<R: Wait>(
        &self,
        rt: &R,
        now: u64,
        endpoint: Endpoint,
        bytes: &[u8],
        job: &mut Job,
        reply: &mut Emission,
        log: &mut TrackLog<Self::Book>,
    ) -> Handled
        ensures handled { IsSomeDelivery now endpoint bytes.now (handled result job.new reply.new) }
        ensures logged { logged (HandlesDatagram now endpoint bytes.now (handled result job.new reply.new)) log.old log.new };

    /// Advances the front to a time in milliseconds.
    ///
    /// See [`Front::tick`](fc_front::Front::tick).
    fn tick<R: Wait>(&self, rt: &R, now: u64, log: &mut TrackLog<Self::Book>)
        ensures { logged (AdvancesFront now) log.old log.new };

    /// Fires the timer of a slot, at a time in milliseconds. Its job is written over `job`.
    ///
    /// See [`Front::fire`](fc_front::Front::fire).
    fn fire<R: Wait>(
        &self,
        rt: &R,
        slot: SlotNumber,
        now: u64,
        job: &mut Job,
        log: &mut TrackLog<Self::Book>,
    )
        ensures job { job.new ≡ timer_job slot }
        ensures logged { logged (FiresTimer slot now) log.old log.new };

    /// Draws a message ID of the server's own, at a time in milliseconds.
    ///
    /// Returns `None` if none is available. See [`Front::fresh_id`](fc_front::Front::fresh_id).
    fn fresh_id<R: Wait>(&self, rt: &R, now: u64, log: &mut TrackLog<Self::Book>) -> Option<u16>
        ensures drawn { IsSomeDraw now result }
        ensures logged { logged (DrawsId now result) log.old log.new };

    /// Returns the readings of the device, for one snapshot.
    fn readings<R: Wait>(&self, rt: &R, log: &mut TrackLog<Self::Book>) -> Readings
        ensures { logged (GivesReadings result) log.old log.new };

    /// Takes a snapshot of a job's slot, with these readings.
    ///
    /// The snapshot is written over `found`, except its program, which is in the result. The result
    /// is `Missing` if the slot is empty, and `Refused` if memory can't be allocated. `Stale` means
    /// that the job's lease isn't active, and ends the job: `tallies` count that job. See
    /// [`Shard::take_into`](fc_registry::Shard::take_into).
    fn take<R: Wait>(
        &self,
        rt: &R,
        job: &Job,
        readings: &Readings,
        found: &mut SlotSnapshot,
        tallies: &mut Self::Tallies,
        log: &mut TrackLog<Self::Book>,
    ) -> Taken
        ensures taken { IsSomeSnapshot job.now readings.now (taken_with result found.new) }
        ensures size { HasSize result found.new }
        ensures logged { logged (TakesForJob job.now readings.now (taken_with result found.new)) log.old log.new }
        ensures changes { (shard : ℕ) → shard < 8 →
            changes tallies.new shard ≡ changes tallies.old shard }
        ensures ended { ended tallies.new ≡ ended_by (taken_with result found.new) (ended tallies.old) };

    /// Takes a snapshot of a request's slot unless the slot's program is expensive.
    ///
    /// The slot is that of `job`. Its program is expensive if its cost is `least` steps or more. If
    /// it isn't expensive, see [`Bench::take`]. A request's snapshot ends no job.
    ///
    /// # Errors
    /// Returns the program's cost, in steps, if the program is expensive. Then the log has the read
    /// of the cost, no slot changes, and `found` has any contents.
    fn take_if_cheap<R: Wait>(
        &self,
        rt: &R,
        least: u32,
        job: &Job,
        readings: &Readings,
        found: &mut SlotSnapshot,
        log: &mut TrackLog<Self::Book>,
    ) -> Result<Taken, u32>
        requires request { job.now.turn ≡ None }
        ensures expensive { IfErr result (λ cost. (least ≤ cost) × logged (ReadsCost job.now.origin.slot (Some cost)) log.old log.new) }
        ensures taken { IfOk result (λ taken. IsSomeSnapshot job.now readings.now (taken_with taken found.new)) }
        ensures size { IfOk result (λ taken. HasSize taken found.new) }
        ensures cheap { IfOk result (IsCheap least) }
        ensures logged { IfOk result (λ taken. logged (TakesForJob job.now readings.now (taken_with taken found.new)) log.old log.new) };

    /// Commits the run of `ticket` with this outcome, at a time in milliseconds.
    ///
    /// Returns `None` if the commit can't be saved: then the run wants to write, no slot changes,
    /// and the refusal is filed. See [`Shard::commit`](fc_registry::Shard::commit).
    fn commit<R: Wait>(
        &self,
        rt: &R,
        now: u64,
        outcome: &Outcome<'_>,
        ticket: &Ticket<'_>,
        tallies: &mut Self::Tallies,
        log: &mut TrackLog<Self::Book>,
    ) -> Option<Committed>
        ensures committed { IfSome result (IsSomeCommit outcome.now ticket.now) }
        ensures logged { IfSome result (λ committed. logged (CommitsRun now outcome.now ticket.now committed) log.old log.new) }
        ensures refused { result ≡ None → called (RefusesSave ticket.now.origin.slot (Wrote (commit_of ticket.now)))
            × (wants ticket.now ≡ true) × FilesRefusal ticket.now.origin.slot (Wrote (commit_of ticket.now)) [] log.old log.new }
        ensures changes { AreTallied (changes tallies.old) (changes tallies.new)
            ticket.now.origin.slot (changes_if commit_changes result) }
        ensures ended { ended tallies.new ≡ ended tallies.old };

    /// Installs a program in `job`'s slot.
    ///
    /// Returns `None` if the install can't be saved: then no slot changes, and the refusal is
    /// filed, with the job's image. See [`Shard::install`](fc_registry::Shard::install).
    fn install<R: Wait>(
        &self,
        rt: &R,
        job: &Job,
        program: Arc<Verified>,
        tallies: &mut Self::Tallies,
        log: &mut TrackLog<Self::Book>,
    ) -> Option<Made>
        ensures made { IfSome result (IsSomeInstall (initial_vars_of job.now.ask) program.value) }
        ensures logged { IfSome result (λ made. logged (InstallsProgram job.now program.value made) log.old log.new) }
        ensures refused { result ≡ None → called (RefusesSave job.now.origin.slot (Installed program.value (initial_vars_of job.now.ask)))
            × FilesRefusal job.now.origin.slot (Installed program.value (initial_vars_of job.now.ask)) (image_of job.now.ask) log.old log.new }
        ensures changes { AreTallied (changes tallies.old) (changes tallies.new)
            job.now.origin.slot (changes_if install_changes result) }
        ensures ended { ended tallies.new ≡ ended tallies.old };

    /// Removes the program in `job`'s slot.
    ///
    /// Returns `None` if the removal can't be saved: then no slot changes, and the refusal is
    /// filed. See [`Shard::remove`](fc_registry::Shard::remove).
    fn remove<R: Wait>(
        &self,
        rt: &R,
        job: &Job,
        tallies: &mut Self::Tallies,
        log: &mut TrackLog<Self::Book>,
    ) -> Option<Removal>
        ensures removal { IfSome result IsSomeRemoval }
        ensures logged { IfSome result (λ removal. logged (RemovesProgram job.now removal) log.old log.new) }
        ensures refused { result ≡ None → called (RefusesSave job.now.origin.slot Removed)
            × FilesRefusal job.now.origin.slot Removed [] log.old log.new }
        ensures changes { AreTallied (changes tallies.old) (changes tallies.new)
            job.now.origin.slot (changes_if removal_changes result) }
        ensures ended { ended tallies.new ≡ ended tallies.old };

    /// Passes an Acknowledgement, or a Reset message if `reset`, to a shard, 0 to 7.
    ///
    /// See [`Shard::signal`](fc_registry::Shard::signal).
    fn signal<R: Wait>(
        &self,
        rt: &R,
        shard: u8,
        endpoint: Endpoint,
        id: u16,
        reset: bool,
        log: &mut TrackLog<Self::Book>,
    )
        ensures { logged (HandsSignal shard endpoint id reset) log.old log.new };

    /// Advances a shard, 0 to 7, to a time in milliseconds.
    ///
    /// Returns a message to retransmit, that an observer was removed, or neither. See
    /// [`Shard::tick`](fc_registry::Shard::tick).
    fn tick_shard<R: Wait>(
        &self,
        rt: &R,
        shard: u8,
        now: u64,
        log: &mut TrackLog<Self::Book>,
    ) -> Ticked
        ensures ticked { IsSomeTick now result }
        ensures logged { logged (AdvancesShard shard now result) log.old log.new };

    /// Advances a shard, 0 to 7, to a time in milliseconds if it is idle then.
    ///
    /// It is idle if no notification has timed out and no observer has a pending one. Returns
    /// whether the shard was advanced. If it wasn't, it is unchanged (`LeavesUnquiet`), and the log
    /// doesn't have the call. See [`Shard::advance_if_idle`](fc_registry::Shard::advance_if_idle).
    fn advance_if_idle<R: Wait>(
        &self,
        rt: &R,
        shard: u8,
        now: u64,
        log: &mut TrackLog<Self::Book>,
    ) -> bool
        ensures idle { IsSomeIdle now result }
        ensures logged { MatchBool result (logged (AdvancesIdle shard now) log.old log.new)
            (called (LeavesUnquiet shard now) × (log.new ≡ log.old)) };

    /// Skips a shard, 0 to 7, if it is known to be idle at a time in milliseconds.
    ///
    /// It is idle if no notification has timed out and no observer has a pending one. The shard
    /// isn't called. Returns whether the shard was skipped. A skipped shard needn't be advanced. If
    /// the shard wasn't skipped, nothing is known, and the log doesn't have the call.
    fn skip_if_idle(&self, shard: u8, now: u64, log: &mut TrackLog<Self::Book>) -> bool
        ensures { MatchBool result (logged (SkipsIdle shard now) log.old log.new) (log.new ≡ log.old) };

    /// Returns a time before which a shard, 0 to 7, is idle unless the shard is called.
    ///
    /// It bounds the wait for the next datagram. Another thread may call the shard at any time. The
    /// clause says that the bench returned this time; its meaning for a server is `TellsIdleUntil`.
    /// See [`Shard::idle_until`](fc_registry::Shard::idle_until).
    fn idle_until<R: Wait>(&self, rt: &R, shard: u8) -> u64
        ensures { called (LooksAhead shard result) };

    /// Returns how many exchanges and transfers the front holds at `now`, and their limits.
    ///
    /// `now` is in milliseconds. Nothing changes, and the log doesn't have the call. Another thread
    /// may call the front at any time: its state is that at some time during this call. See
    /// [`Front::gauges`](fc_front::Front::gauges).
    fn gauges<R: Wait>(&self, rt: &R, now: u64) -> FrontGauges
        ensures { called (ReadsGauges now result) };

    /// Returns how many observers each slot of a shard, 0 to 7, has, by its place in the shard.
    ///
    /// Nothing changes, and the log doesn't have the call. Another thread may call the shard at any
    /// time. See [`Shard::observer_counts`](fc_registry::Shard::observer_counts).
    fn observer_counts<R: Wait>(&self, rt: &R, shard: u8) -> [u8; PLACES]
        ensures { called (CountsObservers shard result) };

    /// Returns whether a change of the shard that owns `slot` is being saved, without a lock.
    ///
    /// A call of the shard would wait for the save. Another thread may begin or end a save at any
    /// time. So the clause says only that the bench returned `true`. The log doesn't have the call.
    fn is_saving(&self, slot: SlotNumber) -> bool
        ensures { result ≡ true → called (FindsSaving slot) };

    /// Asks a shard, 0 to 7, for its next lease, at a time in milliseconds.
    ///
    /// The lease's job is written over `job`. Returns `false` if no observer has a pending
    /// notification. See [`Shard::write_due`](fc_registry::Shard::write_due).
    fn next_due<R: Wait>(
        &self,
        rt: &R,
        shard: u8,
        now: u64,
        job: &mut Job,
        log: &mut TrackLog<Self::Book>,
    ) -> bool
        ensures turn { IsSomeTurn now (written_if result job.new) }
        ensures logged { logged (GivesTurn shard now (written_if result job.new)) log.old log.new };

    /// Notifies the observer of a lease, at a time in milliseconds, and ends its job.
    ///
    /// `told` is the content, and `random` sets the timeout of a confirmable message. The message,
    /// with message ID `id`, is written over `emission`, and is to be sent if the result is `Sent`.
    /// See [`Shard::write_note`](fc_registry::Shard::write_note).
    fn note<R: Wait>(
        &self,
        rt: &R,
        turn: Turn,
        id: u16,
        now: u64,
        random: u16,
        told: &Notification<'_>,
        emission: &mut Emission,
        tallies: &mut Self::Tallies,
        log: &mut TrackLog<Self::Book>,
    ) -> NoteOutcome
        requires { turn.slot < 64 }
        ensures noted { IsSomeNote now told.now turn id (noted_as result emission.new) }
        ensures logged { logged (NotesTurn turn id now random told.now (noted_as result emission.new)) log.old log.new }
        ensures changes { (shard : ℕ) → shard < 8 →
            changes tallies.new shard ≡ changes tallies.old shard }
        ensures ended { ended tallies.new ≡ saturated (ended tallies.old + 1) };

    /// Releases a lease, at a time in milliseconds, and ends its job.
    ///
    /// No message is sent for the lease. See [`Shard::give_up`](fc_registry::Shard::give_up).
    fn give_up<R: Wait>(
        &self,
        rt: &R,
        turn: Turn,
        now: u64,
        tallies: &mut Self::Tallies,
        log: &mut TrackLog<Self::Book>,
    )
        requires { turn.slot < 64 }
        ensures logged { logged (GivesUpTurn turn now) log.old log.new }
        ensures changes { (shard : ℕ) → shard < 8 →
            changes tallies.new shard ≡ changes tallies.old shard }
        ensures ended { ended tallies.new ≡ saturated (ended tallies.old + 1) };

    /// Returns the receipt of the program in `job`'s slot.
    ///
    /// Returns `None` if the slot is empty. See [`Shard::receipt`](fc_registry::Shard::receipt).
    fn receipt<R: Wait>(&self, rt: &R, job: &Job, log: &mut TrackLog<Self::Book>) -> Option<Receipt>
        ensures receipt { IsSomeReceipt result }
        ensures logged { logged (TellsReceipt job.now result) log.old log.new };

    /// Returns the cost of the program in a slot, in steps, for a job's dispatcher.
    ///
    /// No slot changes. Returns `None` if the slot is empty. The call is for no job.
    fn read_cost<R: Wait>(
        &self,
        rt: &R,
        slot: SlotNumber,
        log: &mut TrackLog<Self::Book>,
    ) -> Option<u32>
        ensures { logged (ReadsCost slot result) log.old log.new };

    /// Returns the head word of a slot, without a lock.
    ///
    /// The result is at least every word of the slot that the worker knows: those that its looks
    /// returned, and those to which it raised the word. The worker then knows the result. See
    /// [`ServerTracks::look`](fc_filed::ServerTracks::look).
    fn peek(&self, slot: SlotNumber, log: &mut TrackLog<Self::Book>) -> u64
        ensures rises { known_word slot log.old.tracks.own ≤ result }
        ensures knows { known_word slot log.new.tracks.own ≡ result }
        ensures logged { logged (LooksAt slot result) log.old log.new };

    /// Returns the head word of a slot, without a lock, for the dispatcher.
    ///
    /// See [`Bench::peek`]. The log doesn't have the call.
    fn read_word(&self, slot: SlotNumber, log: &mut TrackLog<Self::Book>) -> u64
        ensures rises { known_word slot log.old.tracks.own ≤ result }
        ensures kept { log.new ≡ log.old };

    /// Raises the head word of `job`'s slot, without a lock.
    ///
    /// A head word that is greater isn't changed. The worker then knows `word`, or a greater word
    /// that it knew before. See [`ServerTracks::raise`](fc_filed::ServerTracks::raise).
    fn raise(&self, job: &Job, word: u64, log: &mut TrackLog<Self::Book>)
        ensures knows { known_word job.now.origin.slot log.new.tracks.own ≡ max (known_word job.now.origin.slot log.old.tracks.own) word }
        ensures logged { logged (RaisesWord job.now.origin.slot word) log.old log.new };

    /// Files the rejection of the image of `job`, an install.
    ///
    /// `answer` is the job's answer. No part of the server is called.
    fn reject_image(&self, job: &Job, answer: &Answer, log: &mut TrackLog<Self::Book>)
        ensures { HasFiled (RejectsImage job.now answer.now) log.old log.new };

    /// Files that the program of `job`, an install, isn't installed.
    ///
    /// Memory can't be allocated. No part of the server is called.
    fn refuse_install(&self, job: &Job, log: &mut TrackLog<Self::Book>)
        ensures { HasFiled (RefusesInstall job.now) log.old log.new };

    /// Answers a job, at a time in milliseconds, and ends it.
    ///
    /// The response is written over `reply`. Returns `false` if no response is to be sent: the
    /// request's lifetime has passed, or no message ID is available. See
    /// [`Front::respond`](fc_front::Front::respond).
    fn respond<R: Wait>(
        &self,
        rt: &R,
        now: u64,
        job: &Job,
        answer: &Answer,
        reply: &mut Emission,
        tallies: &mut Self::Tallies,
        log: &mut TrackLog<Self::Book>,
    ) -> bool
        requires { IsOf job.now answer.now }
        ensures sent { IsSomeAnswer now job.now answer.now (emission_if result reply.new) }
        ensures logged { logged (AnswersRequest now job.now answer.now (emission_if result reply.new)) log.old log.new }
        ensures changes { (shard : ℕ) → shard < 8 →
            changes tallies.new shard ≡ changes tallies.old shard }
        ensures ended { ended tallies.new ≡ saturated (ended tallies.old + 1) };
}
