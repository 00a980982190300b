//! Laws about changes of slots, tickets, leases and rings.
//!
//! Each law is the contract of an empty function.
ghost use Rattle.circular_buffer.specs.Buffer.{keep_last};
ghost use Rattle.fc_registry.specs.Changes.{Change, Commit, Committed, Installed, after_changes, changed};
ghost use Rattle.fc_registry.specs.Laws.{AllCommits, FollowsInstall, IsTurnFor, RingBegins, notify_serial, vars_begun};
ghost use Rattle.fc_ticket.specs.Laws.{IsTicketOfJob};
ghost use Rattle.fc_observe.specs.Views.{interest_of};
ghost use Rattle.fc_observe.specs.declared.entry.Entry.{Entry};
ghost use Rattle.fc_observe.specs.Observers.{ObserverList};
ghost use Rattle.fc_observe.specs.declared.observers.Ticked.TheVariants.{Quiet};
ghost use Rattle.fc_registry.specs.Plans.{IsStoredOf, IsPlanned, SavesImage};
ghost use Rattle.fc_registry.specs.Record.{IsChain, IsRing};
ghost use Rattle.fc_store.specs.Updates.{slot_after};
ghost use Rattle.fc_store.specs.Stored.{StoredSlot};
ghost use Rattle.fc_store.specs.declared.store.SlotUpdate.{SlotUpdate};
ghost use Rattle.fc_registry.specs.Restored.{at_least, restored_slot};
ghost use Rattle.fc_ticket.specs.Tickets.{Present, Ticket};
ghost use Rattle.fc_registry.specs.Slots.{Shard, Slot, last_serial, new_slot, vars_in};
ghost use Rattle.fc_registry.specs.Starts.{CanRestore, RingContinues};
ghost use Rattle.fc_registry.specs.Turns.{due_job};
ghost use Rattle.fc_registry.specs.Watches.{after_due, shard_after_tick, due_place, is_idle, overdue_place, ticked_in, watch_at};
ghost use Rattle.fc_registry.specs.declared.commit.CommitOutcome.{CommitOutcome};
ghost use Rattle.fc_ticket.specs.declared.job.Job.{Job};
ghost use Rattle.fc_ticket.specs.declared.job.InitialVars.{InitialVars};
ghost use Rattle.fc_ticket.specs.declared.job.InitialVars.TheVariants.{Kept, Zeros};
ghost use Rattle.fc_kinds.specs.Meaning.{Program};
ghost use Rattle.fc_ticket.specs.Taken.{Given};
ghost use Rattle.fc_registry.specs.Calls.{HasGiven, ComesTo, IsSnapshot, install_in, outcome};
ghost use Rattle.std.specs.List.{Any};
ghost use Rattle.std.specs.Prelude.{List, [], None, Some, length, max, replicate, true, ℕ, ◌∷◌, ◌++◌, ◌+◌, ◌≤◌, ◌≡◌};

/// A slot's serial is its first serial, plus the number of the slot's changes.
pub fn serials_count_changes()
    ensures { (serial : ℕ) (cs : List Change) → (after_changes (new_slot serial) cs).serial ≡ serial + length cs }
{}

/// The notify serial is that of the newest change that observers are notified of.
///
/// Such a change is an install, a removal, or a commit whose run set the notify flag. Without one,
/// the notify serial is the slot's first serial. The notify serial is never above the slot's
/// serial.
pub fn noticed_serials_are_of_notices()
    ensures serial { (serial : ℕ) (cs : List Change) → (after_changes (new_slot serial) cs).notify_serial
        ≡ notify_serial serial cs }
    ensures limit { (serial : ℕ) (cs : List Change) → (after_changes (new_slot serial) cs).notify_serial
        ≤ (after_changes (new_slot serial) cs).serial }
{}

/// The program in a slot is that of the newest install.
///
/// No removal has come since then. The program's version is the serial of that install. The install
/// left the variables as requested, and only commits have written them since then.
pub fn versions_are_installs()
    ensures { (serial : ℕ) (cs : List Change) (p : Present) →
        (after_changes (new_slot serial) cs).present ≡ Some p → FollowsInstall serial cs p }
{}

/// An install keeps the variables, or sets them to zeros.
///
/// An install that keeps the variables leaves each byte of them unchanged if the new program has as
/// many bytes. Otherwise it sets the variables to zeros, as it does if the slot was empty. Every
/// other install sets them to zeros. So a program always has the number of variables that it
/// declares. Whether an install keeps the variables changes nothing else of the slot, and not the
/// install's result.
pub fn installs_keep_or_zero_variables()
    ensures kept { (slot : Slot) (found : Present) (p : Program) → slot.present ≡ Some found → length found.vars ≡ p.vars_size →
        vars_in (changed slot (Installed p Kept)).present ≡ found.vars }
    ensures other { (slot : Slot) (p : Program) → (length (vars_in slot.present) ≡ p.vars_size → ⊥) →
        vars_in (changed slot (Installed p Kept)).present ≡ replicate p.vars_size 0 }
    ensures empty { (slot : Slot) (p : Program) (initial : InitialVars) → slot.present ≡ None →
        vars_in (changed slot (Installed p initial)).present ≡ replicate p.vars_size 0 }
    ensures zeroed { (slot : Slot) (p : Program) → vars_in (changed slot (Installed p Zeros)).present ≡ replicate p.vars_size 0 }
    ensures size { (slot : Slot) (p : Program) (initial : InitialVars) →
        length (vars_in (changed slot (Installed p initial)).present) ≡ p.vars_size }
    ensures rest { (slot : Slot) (p : Program) →
        record (changed slot (Installed p Kept)) { present = (changed slot (Installed p Zeros)).present } ≡ changed slot (Installed p Zeros) }
    ensures answer { (slot : Slot) (p : Program) → (install_in slot p Kept).answer ≡ (install_in slot p Zeros).answer }
{}

/// A commit adds one entry to its slot's ring, which keeps eight entries.
///
/// The entry has the commit's serial and request, the readings of the commit's snapshot, and the
/// variables before and after the commit.
pub fn entries_are_of_their_commits()
    ensures { (slot : Slot) (c : Commit) → (changed slot (Committed c)).ring
        ≡ keep_last 8 (slot.ring ++ record { serial = slot.serial + 1; request = c.request; readings = c.readings; before = c.before; after = c.after } ∷ []) }
{}

/// The outcome of a commit follows from the serials, if the slot gave the ticket.
///
/// The slot has changed since the snapshot exactly if its serial isn't the ticket's. A run that is
/// to write is then overtaken. Otherwise it writes, or is refused at the slot's last serial. A run
/// with nothing to write keeps the slot. See `CommitOutcome`.
pub fn serials_decide()
    ensures { (t : Ticket) (slot : Slot) (o : CommitOutcome) → HasGiven slot t → ComesTo t slot o → o ≡ outcome t slot }
{}

/// An idle shard has nothing to do.
///
/// At the shard's time a tick sends nothing, no observer has a pending notification, and neither
/// `tick` nor `next_due` changes the shard.
pub fn idle_shards_do_nothing()
    ensures tick { (shard : Shard) → is_idle shard ≡ true →
        (ticked_in (overdue_place shard) shard ≡ Quiet) × (shard_after_tick (overdue_place shard) shard ≡ shard) }
    ensures due { (shard : Shard) → is_idle shard ≡ true →
        (due_job (due_place shard) shard ≡ None) × (after_due (due_place shard) shard ≡ shard) }
{}

/// A ticket has the data of its job.
///
/// This data is the job's origin and lease, and the request that the slot's program is to answer.
/// It also has the token, the block and the Observe value of the job's request.
pub fn tickets_are_of_their_jobs()
    ensures { (job : Job) (readings : List ℕ) (slot : Slot) (at : ℕ) (w : ObserverList) (t : Ticket) →
        IsSnapshot job readings slot at w (Given t) → IsTicketOfJob job t }
{}

/// The job of a lease has the request of a registration in the lease's slot.
///
/// The job requests the first block, of the size in the Block2 option of that registration, if
/// there was one (RFC 7959, section 2.6).
pub fn turns_ask_what_was_registered()
    ensures { (shard : Shard) (k : ℕ) (j : Job) → due_job (Some k) shard ≡ Some j →
        Any (λ (o : Entry). IsTurnFor j (interest_of o)) (watch_at shard k).held }
{}

/// The update of a change makes the stored state that of the changed slot.
///
/// This holds if the update is applied to the slot's stored state, and if an install's update has
/// an image of the program.
pub fn plans_keep_what_changes_make()
    ensures { (slot : Slot) (k : StoredSlot) (n : ℕ) (c : Change) (s : SlotUpdate) → IsStoredOf slot k → IsPlanned slot n c s → SavesImage c s.program
        → IsStoredOf (changed slot c) (slot_after s k) }
{}

/// The ring of a slot that was new has the commits since the slot's last install.
///
/// The ring has the last eight of these commits. If it has all of them, the first commit found the
/// variables that the install left. An install that keeps no variables left zeros.
pub fn new_slots_have_full_rings()
    ensures ring { (serial : ℕ) (cs : List Change) → IsChain (new_slot serial) cs → IsRing (after_changes (new_slot serial) cs) }
    ensures begins { (serial : ℕ) (cs : List Change) → IsChain (new_slot serial) cs →
        RingBegins serial cs (after_changes (new_slot serial) cs) }
    ensures zeros { (serial : ℕ) (later earlier : List Change) (p : Program) → AllCommits later →
        vars_begun serial (later ++ (Installed p Zeros ∷ earlier)) ≡ replicate p.vars_size 0 }
{}

/// The restored slot of a stored state has the serial and the program of the slot that was stored.
///
/// The program has its version and its variables. The notify serial is the serial, and the ring is
/// empty.
pub fn restored_slots_are_as_stored()
    ensures { (slot : Slot) (k : StoredSlot) → IsStoredOf slot k →
        restored_slot k ≡ record slot { notify_serial = slot.serial; ring = [] } }
{}

/// The serial of a restored slot is never below the stored serial, nor below `least`.
///
/// This holds after any changes. A stored state that can be restored can still be restored after
/// its serial was raised to `least`.
pub fn restored_serials_go_on()
    ensures serial { (least : ℕ) (k : StoredSlot) (cs : List Change) →
        max least k.serial ≤ (after_changes (restored_slot (at_least least k)) cs).serial }
    ensures can { (least : ℕ) (k : StoredSlot) → least ≤ last_serial → CanRestore k → CanRestore (at_least least k) }
    ensures raised { (k : StoredSlot) → k.serial ≡ 7 → (at_least 100 k).serial ≡ 100 }
    ensures kept { (k : StoredSlot) → k.serial ≡ 200 → (at_least 100 k).serial ≡ 200 }
{}

/// The ring of a restored slot has the commits since the start, or since a later install.
///
/// The ring has the last eight of these commits. If it has all of them, the first commit found the
/// variables of the start, or of the install. The ring of an empty slot is empty.
pub fn restored_slots_have_rings_since_the_start()
    ensures { (k : StoredSlot) (cs : List Change) → CanRestore k → IsChain (restored_slot k) cs →
        RingContinues (restored_slot k) cs (after_changes (restored_slot k) cs) }
{}
