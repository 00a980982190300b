//! Laws of a job's stages: each function is a law, stated by its contract.
ghost use Rattle.std.specs.Prelude.{◌≡◌, ℕ, ◌+◌, ◌<◌, ◌≤◌, ◌∷◌, ◌++◌, ◌⊎◌, [], List, None, Option, Some, false, is_none, length, true};
ghost use Rattle.arrayvec.specs.ArrayVec.{ArrayVec};
ghost use Rattle.coap_msg.specs.declared.types.Emission.{Emission};
ghost use Rattle.fc_core.specs.AnswerLaws.{HasSerial};
ghost use Rattle.fc_front.specs.Contents.{Deleted, Described, Listed, Made, Missing, Rejected, Untyped};
ghost use Rattle.fc_front.specs.Heads.{head_word, word_at};
ghost use Rattle.fc_core.specs.History.{Seen, and_then, did, job, slot_at, stage};
ghost use Rattle.fc_core.specs.Laws.{slot_of};
ghost use Rattle.fc_core.specs.Stages.{image_of, new_task, run_content};
ghost use Rattle.fc_core.specs.declared.event.Event.TheVariants.{Commit, Install, Peek, Receipt, Remove};
ghost use Rattle.fc_core.specs.Stage.{ToAnswer, ToCommit, ToDescribe, ToInstall, ToList, ToMatch, ToRaise, ToRemove, ToTake, ToTell};
ghost use Rattle.fc_core.specs.TurnStage.{ToTake as TakesForTurn};
ghost use Rattle.fc_help.specs.Request.{Request};
ghost use Rattle.fc_isa.specs.declared.rule.Rule.{Rule};
ghost use Rattle.fc_kinds.specs.Meaning.{Program};
ghost use Rattle.fc_registry.specs.Calls.{wants};
ghost use Rattle.fc_ticket.specs.Tickets.{Present, Ticket};
ghost use Rattle.fc_ticket.specs.declared.job.InitialVars.{InitialVars};
ghost use Rattle.fc_ticket.specs.declared.job.Ask.TheVariants.{Describe, Discover, Install as Installs, Remove as Removes, Run};
ghost use Rattle.fc_ticket.specs.declared.job.Job.{Job};
ghost use Rattle.fc_verify.specs.Accepted.{Accepts, Breaks, Untypable};
ghost use Rattle.fc_verify.specs.Judged.{judged};

/// The kind of a job determines the job's first call:
///
/// - A GET or POST of a program takes a snapshot, or reads the slot's head word if the request has
///   ETags.
/// - A complete PUT installs the program.
/// - A DELETE removes the program.
/// - A GET of the slot reads the program's receipt.
/// - A GET of the list of slots reads the first head word.
/// - A lease takes a snapshot.
pub fn jobs_begin_with_their_first_call()
    ensures run { (j : Job) (request : Request) → j.turn ≡ None → j.ask ≡ Run request → j.etags.items ≡ []
        → (new_task j).stage ≡ ToTake 0 }
    ensures tagged { (j : Job) (request : Request) (serial : ℕ) (serials : List ℕ) → j.turn ≡ None → j.ask ≡ Run request
        → j.etags.items ≡ serial ∷ serials → (new_task j).stage ≡ ToMatch }
    ensures install { (j : Job) (image : ArrayVec ℕ) (initial : InitialVars) → j.turn ≡ None → j.ask ≡ Installs image initial →
        (new_task j).stage ≡ ToInstall }
    ensures remove { (j : Job) → j.turn ≡ None → j.ask ≡ Removes → (new_task j).stage ≡ ToRemove }
    ensures describe { (j : Job) → j.turn ≡ None → j.ask ≡ Describe → (new_task j).stage ≡ ToDescribe }
    ensures list { (j : Job) → j.turn ≡ None → j.ask ≡ Discover → (new_task j).stage ≡ ToList (record { items = [] }) }
    ensures turn { (j : Job) (number : ℕ) → j.turn ≡ Some number
        → (new_task j).stage ≡ ToTell (record { slot = j.origin.slot; number = number }) TakesForTurn }
{}

/// The result of a job's call determines the job's next call:
///
/// - A head word that matches none of the ETags leads to a snapshot.
/// - Each of the first 63 head words of the list leads to the next one.
/// - A commit that has nothing to write leads to the answer of the run.
/// - A commit that writes leads to the raise of the slot's head word, and so do an install and a
///   removal.
/// - A refused image, the removal from an empty slot, a receipt, and the last of 64 head words lead
///   to the answer.
pub fn jobs_go_on_with_their_next_call()
    ensures unmatched { (s : Seen) (k : ℕ) (o : Option Emission) → stage s k ≡ ToMatch
        → ((serial : ℕ) → word_at s.words (slot_of s k) ≡ head_word serial true → HasSerial (job s k).etags.items serial → ⊥)
        → stage (and_then (did (Peek k (slot_of s k)) o) s) k ≡ ToTake 0 }
    ensures keeps { (s : Seen) (k now count : ℕ) (t : Ticket) (o : Option Emission) → stage s k ≡ ToCommit count t → wants t ≡ false
        → (stage (and_then (did (Commit k now) o) s) k ≡ ToAnswer (run_content t true))
        ⊎ (stage (and_then (did (Commit k now) o) s) k ≡ ToAnswer (run_content t false)) }
    ensures writes { (s : Seen) (k now count : ℕ) (t : Ticket) (o : Option Emission) → stage s k ≡ ToCommit count t → wants t ≡ true
        → (slot_at s (slot_of s k)).serial ≡ t.serial → t.serial < 9223372036854775807
        → stage (and_then (did (Commit k now) o) s) k ≡ ToRaise (head_word (t.serial + 1) true) (run_content t false) }
    ensures installs { (s : Seen) (k : ℕ) (p : Program) (o : Option Emission) → stage s k ≡ ToInstall
        → judged (image_of (job s k).ask) ≡ Accepts p → (slot_at s (slot_of s k)).serial < 9223372036854775807
        → stage (and_then (did (Install k true) o) s) k ≡ ToRaise (head_word ((slot_at s (slot_of s k)).serial + 1) true) (Made (record {
          version = (slot_at s (slot_of s k)).serial + 1;
          cost = p.cost;
          budget = p.budget;
          vars = p.vars_size;
        })
        (is_none (slot_at s (slot_of s k)).present)) }
    ensures rejects { (s : Seen) (k n : ℕ) (rule : Rule) (o : Option Emission) → stage s k ≡ ToInstall
        → judged (image_of (job s k).ask) ≡ Breaks rule n → stage (and_then (did (Install k true) o) s) k ≡ ToAnswer (Rejected rule n) }
    ensures untyped { (s : Seen) (k : ℕ) (o : Option Emission) → stage s k ≡ ToInstall → judged (image_of (job s k).ask) ≡ Untypable
        → stage (and_then (did (Install k true) o) s) k ≡ ToAnswer Untyped }
    ensures removes { (s : Seen) (k : ℕ) (p : Present) (o : Option Emission) → stage s k ≡ ToRemove
        → (slot_at s (slot_of s k)).present ≡ Some p → (slot_at s (slot_of s k)).serial < 9223372036854775807
        → stage (and_then (did (Remove k) o) s) k ≡ ToRaise (head_word ((slot_at s (slot_of s k)).serial + 1) false) Deleted }
    ensures removes_nothing { (s : Seen) (k : ℕ) (o : Option Emission) → stage s k ≡ ToRemove → (slot_at s (slot_of s k)).present ≡ None
        → stage (and_then (did (Remove k) o) s) k ≡ ToAnswer Deleted }
    ensures describes_nothing { (s : Seen) (k : ℕ) (o : Option Emission) → stage s k ≡ ToDescribe
        → (slot_at s (slot_of s k)).present ≡ None → stage (and_then (did (Receipt k) o) s) k ≡ ToAnswer Missing }
    ensures describes { (s : Seen) (k : ℕ) (p : Present) (o : Option Emission) → stage s k ≡ ToDescribe
        → (slot_at s (slot_of s k)).present ≡ Some p → stage (and_then (did (Receipt k) o) s) k ≡ ToAnswer (Described (record {
          version = p.version;
          cost = p.program.cost;
          budget = p.program.budget;
          vars = p.program.vars_size;
        })) }
    ensures lists { (s : Seen) (k : ℕ) (seen : ArrayVec ℕ) (o : Option Emission) → stage s k ≡ ToList seen → length seen.items < 63
        → stage (and_then (did (Peek k (length seen.items)) o) s) k
        ≡ ToList (record { items = seen.items ++ word_at s.words (length seen.items) ∷ [] }) }
    ensures listed { (s : Seen) (k : ℕ) (seen : ArrayVec ℕ) (o : Option Emission) → stage s k ≡ ToList seen → length seen.items ≡ 63
        → stage (and_then (did (Peek k 63) o) s) k ≡ ToAnswer (Listed (seen.items ++ word_at s.words 63 ∷ [])) }
{}
