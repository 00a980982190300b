//! Laws of slots: each function is a law, stated by its contract.
ghost use Rattle.coap_msg.specs.declared.types.Emission.{Emission};
ghost use Rattle.fc_front.specs.Contents.{Content};
ghost use Rattle.fc_core.specs.History.{Entry, History, Then, Seen, seen, and_then, did, first_slot, job, slot_at, stage};
ghost use Rattle.fc_core.specs.AnswerLaws.{HasSerial, greatest};
ghost use Rattle.fc_front.specs.Contents.{Valid};
ghost use Rattle.fc_laws.specs.HeadLaws.{PublishesAt, raises_of};
ghost use Rattle.fc_front.specs.Heads.{head_word, word_at};
ghost use Rattle.fc_core.specs.declared.event.Event.TheVariants.{Peek};
ghost use Rattle.fc_core.specs.Stage.{ToAnswer, ToMatch};
ghost use Rattle.fc_core.specs.Laws.{HasCome, changes_by, slot_of, snapshots_of};
ghost use Rattle.fc_laws.specs.SlotLaws.{AllOfImages, ChangesBy, IsOfImage, IsToInstall, IsToRaise, IsUnchanged, IsWritten, inputs_installing, vars_at};
ghost use Rattle.fc_core.specs.Stages.{image_of};
ghost use Rattle.fc_core.specs.Transitions.{Inputs, names, transition};
ghost use Rattle.fc_core.specs.declared.event.Event.TheVariants.{Commit, Install};
ghost use Rattle.fc_core.specs.Stage.{ToCommit, ToRaise};
ghost use Rattle.fc_help.specs.declared.request.Method.TheVariants.{Get};
ghost use Rattle.fc_kinds.specs.Meaning.{Program};
ghost use Rattle.fc_registry.specs.Calls.{commit_of};
ghost use Rattle.fc_ticket.specs.Runs.{meaning_at, initial_vars_of};
ghost use Rattle.fc_registry.specs.Changes.{Committed};
ghost use Rattle.fc_registry.specs.Record.{IsChain, code_class};
ghost use Rattle.fc_ticket.specs.Tickets.{Present, Ticket};
ghost use Rattle.fc_ticket.specs.declared.job.InitialVars.TheVariants.{Kept, Zeros};
ghost use Rattle.arrayvec.specs.ArrayVec.{ArrayVec};
ghost use Rattle.fc_verify.specs.Accepted.{Accepts};
ghost use Rattle.fc_verify.specs.Judged.{judged};
ghost use Rattle.std.specs.Prelude.{ℕ, ◌+◌, ◌<◌, ◌≤◌, ◌∷◌, ◌⊎◌, Bool, None, Option, Some, length, replicate, true, ◌≡◌};

/// A job changes its slot at most once, and then publishes the new head word.
///
/// The event that changes the slot brings the job to the stage of publishing, `ToRaise`. No other
/// event does.
pub fn changes_are_published()
    ensures once { (h : History) (k : ℕ) → changes_by h k ≤ 1 }
    ensures published { (r : Entry) (s : Seen) (k : ℕ) → names r.event ≡ Some k
        → length (s.changes (slot_of s k)) < length ((and_then r s).changes (slot_of s k))
        → IsToRaise (stage (and_then r s) k) }
    ensures only { (r : Entry) (s : Seen) (k word : ℕ) (content : Content) → names r.event ≡ Some k
        → stage (and_then r s) k ≡ ToRaise word content → (stage s k ≡ ToRaise word content)
        ⊎ (length ((and_then r s).changes (slot_of s k)) ≡ length (s.changes (slot_of s k)) + 1) }
{}

/// A job raises its slot's head word to the word of a state of the slot.
///
/// Suppose that a job is to raise a head word after an event. Then the job was to raise that word
/// before the event, or the word is that of the slot's state after the event. The word of a state
/// is twice the serial, plus one if the slot has a program.
pub fn raised_words_are_of_slots()
    ensures { (h : History) (r : Entry) (k : ℕ) → HasCome (seen h) k
        → PublishesAt (slot_at (seen (Then h r)) (slot_of (seen h) k)) (stage (seen h) k) (stage (seen (Then h r)) k) }
{}

/// A slot changes only by one of three events:
///
/// - a job's install of its own accepted image, with memory for the program and below the last
///   serial;
/// - a job's removal of a program, below the last serial;
/// - the commit of a job's ticket.
pub fn slots_change_by_their_jobs()
    ensures { (r : Entry) (s : Seen) (n : ℕ) → ChangesBy r s n }
{}

/// The install of a refused image changes no slot.
pub fn refused_images_change_nothing()
    ensures { (r : Entry) (s : Seen) (k n : ℕ) (memory : Bool) → r.event ≡ Install k memory
        → ((p : Program) → judged (image_of (job s k).ask) ≡ Accepts p → ⊥)
        → (and_then r s).changes n ≡ s.changes n }
{}

/// An install keeps the variables or sets them to zeros, as the job requests.
///
/// An install that keeps the variables leaves each byte of them unchanged, if the slot has as many
/// bytes of variables as the program. The variables are zeros if the numbers of bytes differ, if
/// the slot is empty, and after an install that doesn't keep them.
pub fn updates_keep_variables()
    ensures kept { (s : Seen) (k : ℕ) (p : Program) (o : Option Emission) → IsToInstall s k p → initial_vars_of (job s k).ask ≡ Kept
        → length (vars_at s (slot_of s k)) ≡ p.vars_size
        → vars_at (and_then (did (Install k true) o) s) (slot_of s k) ≡ vars_at s (slot_of s k) }
    ensures other_size { (s : Seen) (k : ℕ) (p : Program) (o : Option Emission) → IsToInstall s k p
        → (length (vars_at s (slot_of s k)) ≡ p.vars_size → ⊥)
        → vars_at (and_then (did (Install k true) o) s) (slot_of s k) ≡ replicate p.vars_size 0 }
    ensures empty { (s : Seen) (k : ℕ) (p : Program) (o : Option Emission) → IsToInstall s k p
        → (slot_at s (slot_of s k)).present ≡ None
        → vars_at (and_then (did (Install k true) o) s) (slot_of s k) ≡ replicate p.vars_size 0 }
    ensures zeroed { (s : Seen) (k : ℕ) (p : Program) (o : Option Emission) → IsToInstall s k p → initial_vars_of (job s k).ask ≡ Zeros
        → vars_at (and_then (did (Install k true) o) s) (slot_of s k) ≡ replicate p.vars_size 0 }
{}

/// Whether an install keeps the variables doesn't change the install's answer.
///
/// It doesn't change the calls on the slot's observers either.
pub fn kept_variables_change_no_answer()
    ensures answer { (k : ℕ) (memory : Bool) (x : Inputs) (image : ArrayVec ℕ) →
        (transition (Install k memory) (inputs_installing image Kept x)).stage ≡ (transition (Install k memory) (inputs_installing image Zeros x)).stage }
    ensures calls { (k : ℕ) (memory : Bool) (x : Inputs) (image : ArrayVec ℕ) →
        (transition (Install k memory) (inputs_installing image Kept x)).calls ≡ (transition (Install k memory) (inputs_installing image Zeros x)).calls }
{}

/// Each program that was installed or is in a slot was accepted from some image.
pub fn programs_in_slots_are_accepted()
    ensures changes { (h : History) (n : ℕ) → AllOfImages ((seen h).changes n) }
    ensures present { (h : History) (n : ℕ) (p : Present) → (slot_at (seen h) n).present ≡ Some p
        → IsOfImage p.program }
{}

/// The commit of a successful POST writes exactly if its slot hasn't changed.
///
/// A POST is successful if its code has class 2. The slot hasn't changed if it has the same changes
/// as at the job's last snapshot; it is then still at the ticket's serial. The commit writes
/// nothing if the slot is at its last serial. Every other commit leaves the slot unchanged.
pub fn commits_write_where_nothing_changed()
    ensures writes { (h : History) (k now n : ℕ) (o : Option Emission) (t : Ticket)
        → stage (seen h) k ≡ ToCommit n t → IsWritten h k t
        → (seen (Then h (did (Commit k now) o))).changes (slot_of (seen h) k)
        ≡ Committed (commit_of t) ∷ (seen h).changes (slot_of (seen h) k) }
    ensures keeps { (h : History) (k now n : ℕ) (o : Option Emission) (t : Ticket)
        → stage (seen h) k ≡ ToCommit n t → (IsWritten h k t → ⊥)
        → (seen (Then h (did (Commit k now) o))).changes (slot_of (seen h) k)
        ≡ (seen h).changes (slot_of (seen h) k) }
    ensures serial { (h : History) (k n : ℕ) (t : Ticket) → stage (seen h) k ≡ ToCommit n t
        → IsUnchanged (snapshots_of h k) ((seen h).changes (slot_of (seen h) k))
        → (slot_at (seen h) (slot_of (seen h) k)).serial ≡ t.serial }
{}

/// The commit of a GET, or of a run whose code isn't of class 2, changes no slot.
pub fn gets_and_errors_change_nothing()
    ensures { (r : Entry) (s : Seen) (k now count n : ℕ) (t : Ticket) → r.event ≡ Commit k now
        → stage s k ≡ ToCommit count t → (t.request.method ≡ Get) ⊎ (code_class (meaning_at t).code ≡ 2 → ⊥)
        → (and_then r s).changes n ≡ s.changes n }
{}

/// The commits of each slot form a chain.
///
/// Each commit finds the state that the changes before it left, and leaves what its program means
/// for that state.
pub fn commits_are_a_chain()
    ensures { (h : History) (n : ℕ) → IsChain (first_slot (seen h) n) ((seen h).changes n) }
{}

/// The head word of a slot is the greatest to which a start or jobs of the slot raised it.
///
/// A start raises the head word of each restored program. The head word of an empty slot is 0
/// before the first raise by a job. A head word never decreases.
pub fn head_words_are_the_greatest_raised()
    ensures greatest { (h : History) (n : ℕ) → n < 64 → word_at (seen h).words n ≡ greatest (raises_of n h) }
    ensures rises { (h : History) (r : Entry) (n : ℕ) → n < 64 → word_at (seen h).words n ≤ word_at (seen (Then h r)).words n }
{}

/// A GET with an ETag of the head word's serial is answered 2.03 (Valid).
///
/// When the job reads the head word, the word says that the slot has a program at this serial. The
/// answer has the serial.
pub fn matching_etags_are_valid()
    ensures { (s : Seen) (k serial : ℕ) (o : Option Emission) → stage s k ≡ ToMatch
        → word_at s.words (slot_of s k) ≡ head_word serial true → HasSerial (job s k).etags.items serial
        → stage (and_then (did (Peek k (slot_of s k)) o) s) k ≡ ToAnswer (Valid serial) }
{}
