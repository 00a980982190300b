//! Laws of starts: each function is a law, stated by its contract.
ghost use Rattle.std.specs.Prelude.{ℕ, ◌≡◌, ◌<◌, ◌≤◌, ◌⊎◌, ◌∷◌, [], List, None, Option, Some, false, length, map, max, true};
ghost use Rattle.fc_front.specs.Heads.{first_word, head_word, word_at};
ghost use Rattle.fc_core.specs.History.{BeginsWith, History, seen, slot_at};
ghost use Rattle.fc_front.specs.declared.policy.Policy.{Policy};
ghost use Rattle.fc_isa.specs.Rules.{number_of};
ghost use Rattle.fc_isa.specs.declared.rule.Fault.{Fault};
ghost use Rattle.fc_isa.specs.declared.rule.Rule.{Rule};
ghost use Rattle.fc_kinds.specs.Meaning.{Program};
ghost use Rattle.fc_laws.specs.StartLaws.{restored_at};
ghost use Rattle.fc_registry.specs.Changes.{Change, Commit, Committed, after_changes, entry_of};
ghost use Rattle.fc_registry.specs.Plans.{IsStoredOf};
ghost use Rattle.fc_registry.specs.Restored.{at_least, restored_slot};
ghost use Rattle.fc_ticket.specs.Tickets.{Present};
ghost use Rattle.fc_registry.specs.Starts.{CanRestore, IsStartError, RingContinuesIf};
ghost use Rattle.fc_registry.specs.declared.restore.RestoreError.{RestoreError};
ghost use Rattle.fc_registry.specs.declared.restore.RestoreError.TheVariants.{Image};
ghost use Rattle.fc_registry.specs.declared.ring.Entry.{Entry};
ghost use Rattle.fc_registry.specs.declared.shards.StartError.TheVariants.{Slot};
ghost use Rattle.fc_store.specs.Stored.{StoredProgram, StoredSlots};
ghost use Rattle.fc_verify.specs.Accepted.{Accepts, Breaks, Untypable};
ghost use Rattle.fc_verify.specs.Judged.{judged};
ghost use Rattle.fc_verify.specs.declared.refusal.Refusal.{Refusal};
ghost use Rattle.fc_verify.specs.declared.refusal.Refusal.TheVariants.{Broken, NoMemory};

use fc_store::StoredSlot;
use fc_verify::laws::{accepted_programs_run, judgement_is_right};

/// A start raises the head word of a restored program to that of its slot's serial.
///
/// A head word is twice the serial, plus one if the slot has a program. So at serial 5 it is 11 or
/// 10, and at serial 0 without a program it is 0. A program of version 3 that is restored at serial
/// 5 has the word 11. A slot that is restored as empty has the word 0 until a job raises it.
pub fn first_words_are_of_serials()
    ensures words { (head_word 5 true ≡ 11) × (head_word 5 false ≡ 10) × (head_word 0 false ≡ 0) }
    ensures program { (s : StoredProgram) (p : Program) → s.version ≡ 3 → judged s.image ≡ Accepts p
        → first_word (restored_at 5 (Some s)) ≡ 11 }
    ensures empty { first_word (restored_at 5 None) ≡ 0 }
    ensures history { (stored : StoredSlots) (id n : ℕ) (policy : Policy) (s : StoredProgram)
        (p : Program) → n < 64 → stored n ≡ record { serial = 5; program = Some s } → s.version ≡ 3
        → judged s.image ≡ Accepts p → word_at (seen (BeginsWith stored id policy)).words n ≡ 11 }
    ensures empty_history { (stored : StoredSlots) (id n : ℕ) (policy : Policy) → n < 64
        → stored n ≡ record { serial = 5; program = None }
        → word_at (seen (BeginsWith stored id policy)).words n ≡ 0 }
{}

/// A raise to at least 5 makes serials 3 and 9 to 5 and 9, and changes nothing else.
///
/// An empty slot stays empty. A program keeps its version, its image and its variables, and is
/// restored with the head word of the new serial.
pub fn raised_serials_keep_programs()
    ensures stored { (s t : StoredProgram) → map (at_least 5) (record { serial = 3; program = None }
        ∷ record { serial = 3; program = Some s } ∷ record { serial = 9; program = Some t } ∷ [])
        ≡ record { serial = 5; program = None } ∷ record { serial = 5; program = Some s }
        ∷ record { serial = 9; program = Some t } ∷ [] }
    ensures word { (s : StoredProgram) (p : Program) → judged s.image ≡ Accepts p
        → first_word (restored_slot (at_least 5 (record { serial = 3; program = Some s }))) ≡ 11 }
{}

/// The ring of a restored slot has the commits since the start.
///
/// A slot is restored at serial 20. Its next two commits have serials 21 and 22, and are the two
/// entries of its ring, whatever the program's version is. After an install at 21 the commit of
/// serial 22 is the only entry. Observers are notified of the commits whose runs set the notify
/// flag.
pub fn rings_begin_at_the_start()
    ensures ring { (program : Option StoredProgram) (c d : Commit)
        → (after_changes (restored_at 20 program) (Committed d ∷ Committed c ∷ [])).ring
        ≡ entry_of 21 c ∷ entry_of 22 d ∷ [] }
    ensures since { (program : Option StoredProgram) (cs : List Change) (p : Present)
        (ring : List Entry) → RingContinuesIf (restored_at 20 program) cs 22 (Some p) ring
        → p.version ≡ 3 → length ring ≡ 2 }
    ensures installed { (program : Option StoredProgram) (cs : List Change) (p : Present)
        (ring : List Entry) → RingContinuesIf (restored_at 20 program) cs 22 (Some p) ring
        → p.version ≡ 21 → length ring ≡ 1 }
    ensures quiet { (program : Option StoredProgram) (c d : Commit) → c.notice ≡ false
        → d.notice ≡ false
        → (after_changes (restored_at 20 program) (Committed d ∷ Committed c ∷ [])).notify_serial
        ≡ 20 }
    ensures notified { (program : Option StoredProgram) (c d : Commit) → c.notice ≡ true
        → d.notice ≡ false
        → (after_changes (restored_at 20 program) (Committed d ∷ Committed c ∷ [])).notify_serial
        ≡ 21 }
{}

/// No server starts with an image that today's verifier refuses, and the error names the slot.
///
/// Slot 9 is stored with the image, and the other slots are stored as empty at serial 7. An error
/// that names a slot names slot 9. If it is an error of an image, it has the rule that the image
/// breaks, or memory couldn't be allocated.
pub fn refused_images_stop_a_start()
    ensures can { (s : StoredProgram) → ((p : Program) → judged s.image ≡ Accepts p → ⊥)
        → CanRestore (record { serial = 7; program = Some s }) → ⊥ }
    ensures slot { (stored : StoredSlots) (n : ℕ) (e : RestoreError)
        → ((m : ℕ) → (m ≡ 9 → ⊥) → stored m ≡ record { serial = 7; program = None })
        → IsStartError stored (Slot n e) → n ≡ 9 }
    ensures rule { (stored : StoredSlots) (s : StoredProgram) (refusal : Refusal) (rule : Rule)
        (at : ℕ) → stored 9 ≡ record { serial = 7; program = Some s }
        → judged s.image ≡ Breaks rule at → IsStartError stored (Slot 9 (Image refusal))
        → (refusal ≡ Broken (record { rule = rule; slot = at })) ⊎ (refusal ≡ NoMemory) }
    ensures typing { (stored : StoredSlots) (s : StoredProgram) (fault : Fault)
        → stored 9 ≡ record { serial = 7; program = Some s } → judged s.image ≡ Untypable
        → IsStartError stored (Slot 9 (Image (Broken fault)))
        → (20 ≤ number_of fault.rule) × (number_of fault.rule ≤ 28) }
{}

/// A slot that a run leaves can be restored if the run's own start could restore it.
///
/// The run may have any events. `stored` is the slot's state as a store has it: the serial, and the
/// program with an image, its version and its variables. So each run can be followed by another.
pub fn left_slots_can_be_restored(stored: &StoredSlot)
    ensures { (h : History) (n : ℕ) → CanRestore ((seen h).stored n)
        → IsStoredOf (slot_at (seen h) n) stored.now → CanRestore stored.now }
{
    if let Some(program) = &stored.program {
        let image = program.image.as_slice();
        judgement_is_right(image);
        accepted_programs_run(image);
    }
}

/// A run begins with the programs that the run before it left.
///
/// `before` has the slots as the first run's store left them, and `after` has them with serials of
/// at least `least`. A slot then has the program that the first run left, with its version and its
/// variables. Its serial is that of the first run, or `least` if that is greater.
pub fn runs_begin_with_what_was_left()
    ensures program { (h : History) (n least id : ℕ) (policy : Policy) (before after : StoredSlots)
        → IsStoredOf (slot_at (seen h) n) (before n) → after n ≡ at_least least (before n)
        → (slot_at (seen (BeginsWith after id policy)) n).present ≡ (slot_at (seen h) n).present }
    ensures serial { (h : History) (n least id : ℕ) (policy : Policy) (before after : StoredSlots)
        → IsStoredOf (slot_at (seen h) n) (before n) → after n ≡ at_least least (before n)
        → (slot_at (seen (BeginsWith after id policy)) n).serial
        ≡ max least (slot_at (seen h) n).serial }
{}
