//! Slots: the snapshots that jobs take of them, and the changes that jobs make.
//!
//! A shard calls the methods of one of its slots, with the slot's observers (`watch`).
ghost use Rattle.std.specs.Prelude.{◌≡◌, ◌+◌, ◌<◌, ◌≤◌, ◌↔◌, [], ◌∷◌, true, false, length, replicate, IfErr, IfOk, IsTrue, OnErr, OnOk};
ghost use Rattle.fc_machine.specs.Ran.{meaning_of};
ghost use Rattle.fc_registry.specs.Restored.{restored_slot};
ghost use Rattle.fc_registry.specs.Starts.{CanRestore, IsRestoreError};
ghost use Rattle.fc_registry.specs.Slots.{new_slot, last_serial, version_in, vars_in};
ghost use Rattle.fc_registry.specs.Changes.{Committed as Wrote, after_changes, vars_installed};
ghost use Rattle.fc_registry.specs.Calls.{IsCommit, ComesTo, IsOwn, IsCurrent, commit_calls, commit_of, mark_of, install_in, receipt_at, remove_from, IsFinding, IsTurnSnapshot, WouldWrite, turn_calls};
ghost use Rattle.fc_ticket.specs.Registrations.{is_observed, observe_calls};
ghost use Rattle.fc_ticket.specs.Runs.{run_of};
ghost use Rattle.fc_registry.specs.Record.{IsRecord};
ghost use Rattle.fc_registry.specs.Views.{HasSize, as_seen, present_of, taken_with};
ghost use Rattle.fc_observe.specs.Calls.{after_calls};

use crate::body::Body;
use crate::commit::{CommitOutcome, Committed, wants_to_write};
use crate::mark::Mark;
use crate::restore::{RestoreError, restored};
use crate::ring::{Entry, Ring};
use crate::shard::{Made, Removal, Taken};
use fc_help::vars::VARS;
use fc_help::{Readings, Vars};
use fc_machine::Outcome;
use fc_observe::{Observers, Turn};
use fc_store::StoredSlot;
use fc_ticket::observe::observe;
use fc_ticket::ticket::is_run_of;
use fc_ticket::{InitialVars, Job, Receipt, SlotSnapshot, Ticket};
use fc_verify::Verified;
use std::alloc::{AllocError, Global};
use std::sync::Arc;

// Zeros for the variables of the largest size that a program may have.
const ZEROS: [u8; VARS] = [0; VARS];

/// The greatest serial.
pub const LAST_SERIAL: u64 = 9_223_372_036_854_775_807;

// A slot: its serial, its notify serial, its program, and the last commits of the program.
#[derive(Drop)]
pub(crate) struct SlotState {
    pub(crate) serial: u64,
    pub(crate) notify_serial: u64,
    pub(crate) body: Option<Body>,
    pub(crate) ring: Ring,
}

impl SlotState {
    // Makes a slot in which nothing was installed, at this serial. Returns an error if memory can't
    // be allocated.
    pub(crate) fn empty(alloc: Global, serial: u64) -> Result<SlotState, AllocError>
        ensures { IfOk result (λ s. as_seen s ≡ new_slot serial) }
    {
        Ok(SlotState {
            serial,
            notify_serial: serial,
            body: None,
            ring: Ring::new(alloc)?,
        })
    }

    // Returns the serial of a slot.
    pub(crate) fn serial(&self) -> u64
        ensures { result ≡ (as_seen self.now).serial }
    {
        self.serial
    }

    // Returns a slot's notify serial: that of the last change that observers are notified of.
    pub(crate) fn noticed(&self) -> u64
        ensures { result ≡ (as_seen self.now).notify_serial }
    {
        self.notify_serial
    }

    // Returns the version of a slot's program, or `None` if the slot is empty.
    pub(crate) fn version(&self) -> Option<u64>
        ensures { result ≡ version_in (as_seen self.now).present }
    {
        match &self.body {
            None => None,
            Some(body) => Some(body.version),
        }
    }

    // Returns the variables of a slot's program, or no bytes if the slot is empty.
    pub(crate) fn vars(&self) -> &[u8]
        ensures { result.now ≡ vars_in (as_seen self.now).present }
    {
        match &self.body {
            None => &[],
            Some(body) => body.vars.as_slice(),
        }
    }

    // Takes the snapshot of the lease `turn`, for `Shard::take_into`, at the shard's time. The
    // result is `Stale` if the lease isn't active. If the lease is active and the slot is empty,
    // the lease is marked as missing, and the result is `Missing`. Otherwise the result is `Given`,
    // or `Refused` if memory for a handle of the program can't be allocated.
    pub(crate) fn take_turn(
        &self,
        watch: &mut Observers,
        now: u64,
        turn: Turn,
        job: &Job,
        readings: &Readings,
        found: &mut SlotSnapshot,
    ) -> Taken
        ensures taken { IsTurnSnapshot turn now watch.old job.now readings.now (as_seen self.now) (taken_with result found.new) }
        ensures size { HasSize result found.new }
        ensures watch { watch.new ≡ after_calls (turn_calls turn now (as_seen self.now).present watch.old) watch.old }
    {
        watch.advance(now);
        if !watch.is_out(turn) {
            return Taken::Stale;
        }
        if self.body.is_none() {
            watch.mark_missing(turn);
        }
        self.find(job, readings, found)
    }

    // Takes a job's snapshot of a slot, and writes it over `found`. The result is `Missing` if the
    // slot is empty, `Refused` if memory for a handle of the program can't be allocated, and
    // otherwise `Given`.
    pub(crate) fn find(&self, job: &Job, readings: &Readings, found: &mut SlotSnapshot) -> Taken
        ensures taken { IsFinding job.now readings.now (as_seen self.now) (taken_with result found.new) }
        ensures size { HasSize result found.new }
    {
        let Some(body) = &self.body else {
            return Taken::Missing;
        };
        match Arc::try_clone(&body.program) {
            Ok(program) => {
                found.write(job, readings, self.serial, body.version, &body.vars);
                Taken::Given(program)
            }
            Err(_) => Taken::Refused,
        }
    }

    // Returns the variables that the install of a program leaves in a slot. They are zeros, or with
    // `Kept` the present ones if these have the program's size.
    pub(crate) fn vars_installed(&self, program: &Verified, initial: InitialVars) -> &[u8]
        ensures vars { result.now ≡ vars_installed initial program.now (vars_in (as_seen self.now).present) }
        ensures few { length result.now ≤ VARS }
    {
        let zeros = zeros(program);
        let before = self.vars();
        match initial {
            InitialVars::Zeros => zeros,
            InitialVars::Kept if before.len() == zeros.len() => before,
            InitialVars::Kept => zeros,
        }
    }

    // Installs a program in a slot. Returns the slot's new serial, and whether the slot was empty.
    // At the last serial nothing changes, and the result is `AtEnd`.
    pub(crate) fn install(&mut self, program: Arc<Verified>, initial: InitialVars) -> Made
        ensures answer { result ≡ (install_in (as_seen self.old) program.value initial).answer }
        ensures slot { let old = as_seen self.old in
            as_seen self.new ≡ after_changes old (install_in old program.value initial).changes }
    {
        if self.serial >= LAST_SERIAL {
            return Made::AtEnd;
        }
        let created = self.body.is_none();
        let vars = Vars::of(self.vars_installed(&program, initial));
        let serial = self.serial + 1;
        let body = Body {
            program,
            version: serial,
            vars,
        };
        self.put(serial, Some(body));
        Made::Raised { serial, created }
    }

    // Sets a slot to this program with its variables, or to none, at this serial. Observers are
    // notified of this change. The slot's ring is empty then.
    fn put(&mut self, serial: u64, body: Option<Body>)
        ensures { as_seen self.new ≡ record { serial = serial; notify_serial = serial; present = present_of body; ring = [] } }
    {
        self.serial = serial;
        self.notify_serial = serial;
        self.ring.clear();
        self.body = body;
    }

    // Sets a slot to its stored state, with an empty ring. The slot's serial never falls. Returns
    // the reason if the slot can't be restored; then the slot is unchanged. A stored serial below
    // the slot's serial, or above the last one, gives `State`.
    pub(crate) fn restore(&mut self, alloc: Global, stored: &StoredSlot) -> Result<(), RestoreError>
        ensures restored { OnOk result (as_seen self.new ≡ restored_slot stored.now) }
        ensures record { OnOk result (IsRecord (as_seen self.new)) }
        ensures rises { (as_seen self.old).serial ≤ (as_seen self.new).serial }
        ensures can { OnOk result (CanRestore stored.now) }
        ensures unchanged { OnErr result (self.new ≡ self.old) }
        ensures cause { IfErr result (IsRestoreError (as_seen self.old) stored.now) }
    {
        if stored.serial < self.serial || stored.serial > LAST_SERIAL {
            return Err(RestoreError::State);
        }
        let body = restored(alloc, stored)?;
        self.put(stored.serial, body);
        Ok(())
    }

    // Removes the program of a slot, and returns the slot's new serial. Nothing changes if the slot
    // is empty (`Absent`) or at its last serial (`AtEnd`).
    pub(crate) fn remove(&mut self) -> Removal
        ensures answer { result ≡ (remove_from (as_seen self.old)).answer }
        ensures slot { as_seen self.new ≡ after_changes (as_seen self.old) (remove_from (as_seen self.old)).changes }
    {
        if self.body.is_none() {
            return Removal::Absent;
        }
        if self.serial >= LAST_SERIAL {
            return Removal::AtEnd;
        }
        let serial = self.serial + 1;
        self.put(serial, None);
        Removal::Removed { serial }
    }

    // Returns the receipt of the program in a slot, or `None` if the slot is empty.
    pub(crate) fn receipt(&self) -> Option<Receipt>
        ensures { result ≡ receipt_at (as_seen self.now).present }
    {
        match &self.body {
            None => None,
            Some(body) => Some(Receipt::of(&body.program, body.version)),
        }
    }

    // Returns whether an outcome belongs to a ticket at this slot. The ticket isn't a lease's, and
    // its serial isn't above the slot's. The outcome is of the ticket's program, request, variables
    // and readings. If not, the result of the commit is `Stranger`.
    fn is_own(&self, outcome: &Outcome<'_>, ticket: &Ticket<'_>) -> bool
        ensures own { IsTrue result ↔ IsOwn outcome.now ticket.now (as_seen self.now) }
        ensures run { IsTrue result → outcome.now ≡ run_of ticket.now }
    {
        ticket.turn().is_none() && is_run_of(outcome, ticket, self.serial)
    }

    // Returns whether the slot still has the serial, the program, the version and the variables
    // that the ticket's snapshot found.
    fn is_current(&self, ticket: &Ticket<'_>) -> bool
        ensures { IsTrue result ↔ IsCurrent ticket.now (as_seen self.now) }
    {
        match &self.body {
            None => false,
            Some(body) => {
                self.serial == ticket.serial()
                    && ticket.version() == body.version
                    && ticket.program().is(&body.program)
                    && ticket.vars().is(&body.vars)
            }
        }
    }

    // Returns the effect that the commit of a ticket's run would have; the slot doesn't change
    // here. The result is `Keeps` for a run that has nothing to write, which isn't compared with
    // the slot. Otherwise the slot has changed since the ticket (`Overtakes`), its last serial is
    // used (`Ends`), or the run's variables are to be written (`Writes`).
    fn outcome_of(&self, outcome: &Outcome<'_>, ticket: &Ticket<'_>) -> CommitOutcome
        requires { IsOwn outcome.now ticket.now (as_seen self.now) }
        ensures { ComesTo ticket.now (as_seen self.now) result }
    {
        if !wants_to_write(outcome) {
            CommitOutcome::Keeps
        } else if !self.is_current(ticket) {
            CommitOutcome::Overtakes
        } else if self.serial >= LAST_SERIAL {
            CommitOutcome::Ends
        } else {
            CommitOutcome::Writes
        }
    }

    // Commits a run to its slot, for `Shard::commit`. A run that has nothing to write may register
    // the client as an observer or remove it, at the shard's time. Nothing changes unless the
    // result is `Done`. Returns `Stranger` if the outcome or the ticket doesn't belong to the slot,
    // `Overtaken` after a conflict, and `Ended` at the last serial.
    pub(crate) fn commit(
        &mut self,
        watch: &mut Observers,
        now: u64,
        outcome: &Outcome<'_>,
        ticket: &Ticket<'_>,
    ) -> Committed
        ensures commit { IsCommit outcome.now ticket.now (as_seen self.old) watch.old result (as_seen self.new) }
        ensures watch { watch.new ≡ after_calls (commit_calls result now ticket.now) watch.old }
    {
        if !self.is_own(outcome, ticket) {
            return Committed::Stranger;
        }
        match self.outcome_of(outcome, ticket) {
            CommitOutcome::Writes => Committed::Done(self.write(outcome, ticket)),
            CommitOutcome::Keeps => Committed::Done(self.keep(watch, now, outcome, ticket)),
            CommitOutcome::Overtakes => Committed::Overtaken,
            CommitOutcome::Ends => Committed::Ended,
        }
    }

    // Returns whether a commit of the run would write; nothing changes. For a run that has nothing
    // to write, the ticket and the slot aren't compared.
    pub(crate) fn would_write(&self, outcome: &Outcome<'_>, ticket: &Ticket<'_>) -> bool
        ensures { IsTrue result ↔ WouldWrite outcome.now ticket.now (as_seen self.now) }
    {
        wants_to_write(outcome)
            && self.is_own(outcome, ticket)
            && matches!(self.outcome_of(outcome, ticket), CommitOutcome::Writes)
    }

    // Commits a run that has nothing to write: registers the client as an observer or removes it,
    // if the request asks for that. Returns the mark of the commit.
    fn keep(
        &self,
        watch: &mut Observers,
        now: u64,
        outcome: &Outcome<'_>,
        ticket: &Ticket<'_>,
    ) -> Mark
        requires { outcome.now ≡ run_of ticket.now }
        ensures mark { result ≡ mark_of ticket.now (as_seen self.now).serial false (is_observed ticket.now watch.old) }
        ensures watch { watch.new ≡ after_calls (observe_calls now ticket.now) watch.old }
    {
        let observed = observe(watch, now, outcome, ticket);
        mark(ticket, self.serial, false, observed)
    }

    // Writes a run's final variables to the slot, at the next serial, and adds the commit to the
    // ring. If the run set the notify flag, the new serial is the notify serial too. Returns the
    // mark of the commit.
    fn write(&mut self, outcome: &Outcome<'_>, ticket: &Ticket<'_>) -> Mark
        requires own { IsOwn outcome.now ticket.now (as_seen self.old) }
        requires current { IsCurrent ticket.now (as_seen self.old) }
        requires below { (as_seen self.old).serial < last_serial }
        ensures mark { result ≡ mark_of ticket.now ((as_seen self.old).serial + 1) true false }
        ensures slot { as_seen self.new ≡ after_changes (as_seen self.old) (Wrote (commit_of ticket.now) ∷ []) }
    {
        self.serial += 1;
        if outcome.notice() {
            self.notify_serial = self.serial;
        }
        if let Some(body) = &mut self.body {
            body.vars = vars_after(outcome);
        }
        self.ring.push(Entry {
            serial: self.serial,
            request: outcome.request().copy(),
            readings: *outcome.readings(),
            before: outcome.found().copy(),
            after: vars_after(outcome),
        });
        mark(ticket, self.serial, true, false)
    }
}

// Returns as many zeros as a program has variables.
fn zeros(program: &Verified) -> &'static [u8]
    ensures vars { result.now ≡ replicate program.now.vars_size 0 }
    ensures size { length result.now ≡ program.now.vars_size }
    ensures few { length result.now ≤ VARS }
{
    &ZEROS[..usize::from(program.vars_size())]
}

// Returns the variables that a run left.
fn vars_after(outcome: &Outcome<'_>) -> Vars
    ensures vars { result ≡ (meaning_of outcome.now).vars }
    ensures size { length result ≡ outcome.now.program.vars_size }
{
    // From this call the prover knows the greatest number of bytes of the variables.
    let _size = outcome.program().vars_size();
    Vars::of(outcome.after())
}

// Makes the mark of a commit from the commit's ticket.
fn mark(ticket: &Ticket<'_>, serial: u64, changed: bool, observed: bool) -> Mark
    ensures { result ≡ mark_of ticket.now serial changed observed }
{
    Mark {
        origin: ticket.origin(),
        found: ticket.serial(),
        serial,
        changed,
        observed,
    }
}
