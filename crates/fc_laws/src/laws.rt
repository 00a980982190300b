//! Laws of jobs: each function is a law, stated by its contract.
ghost use Rattle.coap_msg.specs.declared.types.Emission.{Emission};
ghost use Rattle.fc_front.specs.Contents.{Content, Ran, RunAnswer, Unavailable};
ghost use Rattle.fc_core.specs.declared.event.Event.TheVariants.{Take, Commit, Install, Refuse, Raise, Answer, Lose};
ghost use Rattle.fc_core.specs.Stage.{ToTake, ToCommit, ToInstall, ToRemove, ToRaise, ToAnswer, ToTell, Gone};
ghost use Rattle.fc_core.specs.TurnStage.{ToDraw, ToNote};
ghost use Rattle.fc_core.specs.History.{Entry, History, Then, Seen, seen, and_then, did, job, slot_at, stage};
ghost use Rattle.fc_core.specs.Laws.{HasCome, IsOfNewest, IsOvertaken, TakesAgain, answer_at, answers_of, is_noop, followed_by, slot_of, snapshots_of};
ghost use Rattle.fc_help.specs.declared.request.Method.TheVariants.{Get, Post};
ghost use Rattle.fc_observe.specs.declared.entry.Turn.{Turn};
ghost use Rattle.fc_registry.specs.Calls.{commit_of};
ghost use Rattle.fc_ticket.specs.Runs.{meaning_at, run_of};
ghost use Rattle.fc_registry.specs.Record.{code_class};
ghost use Rattle.fc_ticket.specs.Tickets.{Present, Ticket};
ghost use Rattle.fc_core.specs.Legal.{AllMean, Emits, IsMeant};
ghost use Rattle.fc_core.specs.Stages.{is_refusable};
ghost use Rattle.fc_core.specs.Transitions.{names};
ghost use Rattle.std.specs.Prelude.{ℕ, ◌+◌, ◌<◌, ◌≤◌, ◌⊎◌, List, None, Option, Some, false, length, slice_set, true, ◌≡◌};

/// An event at the wrong stage of its job changes nothing and emits nothing.
///
/// The history's summary is unchanged. The same holds for an event of a job that has ended or never
/// arrived. It holds too for a `Peek` of a head word that the job doesn't need.
pub fn no_ops_change_nothing()
    ensures seen { (r : Entry) (s : Seen) → is_noop s r.event ≡ true → and_then r s ≡ s }
    ensures emitted { (r : Entry) (s : Seen) → is_noop s r.event ≡ true → Emits s r.event r.emitted
        → r.emitted ≡ None }
{}

/// An event changes the stage of no earlier job except the one that it names.
///
/// An earlier job is the same after each event, apart from its stage.
pub fn only_the_named_job_moves()
    ensures stages { (r : Entry) (s : Seen) (k : ℕ) → HasCome s k → (names r.event ≡ Some k → ⊥)
        → stage (and_then r s) k ≡ stage s k }
    ensures jobs { (r : Entry) (s : Seen) (k : ℕ) → HasCome s k → job (and_then r s) k ≡ job s k }
{}

/// An event changes no slot except the slot of the job that it names.
///
/// An event that names no job changes no slot.
pub fn only_the_named_slot_changes()
    ensures named { (r : Entry) (s : Seen) (k n : ℕ) → names r.event ≡ Some k
        → (n ≡ (job s k).origin.slot → ⊥) → (and_then r s).changes n ≡ s.changes n }
    ensures unnamed { (r : Entry) (s : Seen) (n : ℕ) → names r.event ≡ None
        → (and_then r s).changes n ≡ s.changes n }
{}

/// A job takes at most eight tickets.
///
/// If a run that wants to write finds at its commit that the slot has changed, its job takes
/// another ticket. After the eighth the job is answered 5.03 (Service Unavailable).
pub fn snapshots_are_few()
    ensures few { (h : History) (k : ℕ) → length (snapshots_of h k) ≤ 8 }
    ensures eighth { (h : History) (k now : ℕ) (o : Option Emission) → IsOvertaken (seen h) k
        → length (snapshots_of h k) ≡ 8
        → stage (seen (Then h (did (Commit k now) o))) k ≡ ToAnswer Unavailable }
    ensures earlier { (h : History) (k now : ℕ) (o : Option Emission) → IsOvertaken (seen h) k
        → length (snapshots_of h k) < 8
        → TakesAgain (stage (seen (Then h (did (Commit k now) o))) k) }
{}

/// The answer of a run comes from the last ticket that its job took.
///
/// The answer's code is the one that the ticket's program means for the request and for the
/// variables and readings of the snapshot. The answer has the requested block of the reply that the
/// program means. The answer's serial is that of the snapshot.
pub fn answers_are_of_the_last_snapshot()
    ensures { (h : History) (k : ℕ) (run : RunAnswer) → answer_at (stage (seen h) k) ≡ Some (Ran run)
        → IsOfNewest (snapshots_of h k) run }
{}

/// Each ticket of a job has a meaning, for a request as for a lease.
///
/// A ticket has a meaning if its program reaches its exit for the request and for the variables and
/// readings of the snapshot. The run takes at most the steps of the program's longest path, which
/// are at most its budget. The law holds in a history if each program that a snapshot found has a
/// meaning.
pub fn held_tickets_have_a_meaning()
    ensures committed { (h : History) (k n : ℕ) (t : Ticket) → AllMean h → stage (seen h) k ≡ ToCommit n t → IsMeant t }
    ensures drawing { (h : History) (k : ℕ) (turn : Turn) (t : Ticket) → AllMean h
        → stage (seen h) k ≡ ToTell turn (ToDraw (Some t)) → IsMeant t }
    ensures told { (h : History) (k id : ℕ) (turn : Turn) (t : Ticket) → AllMean h
        → stage (seen h) k ≡ ToTell turn (ToNote (Some t) id) → IsMeant t }
{}

/// A snapshot has the readings that were passed to it, not those of an earlier one.
///
/// The run of the ticket gets these readings, and the commit of the ticket has them.
pub fn snapshots_keep_their_readings()
    ensures { (s : Seen) (k count : ℕ) (readings : List ℕ) (o : Option Emission) (p : Present) → stage s k ≡ ToTake count
        → (slot_at s (slot_of s k)).present ≡ Some p
        → (t : Ticket) × (stage (and_then (did (Take k true readings) o) s) k ≡ ToCommit (count + 1) t)
        × ((run_of t).input.readings ≡ readings) × ((commit_of t).readings ≡ readings) }
{}

/// A job is answered at most once. A job that was answered has ended.
pub fn jobs_are_answered_once()
    ensures once { (h : History) (k : ℕ) → answers_of h k ≤ 1 }
    ensures gone { (h : History) (k : ℕ) → 1 ≤ answers_of h k → stage (seen h) k ≡ Gone }
{}

/// A job that was answered, or whose worker was lost, has ended.
///
/// A job that has ended stays ended, whatever events follow.
pub fn ended_jobs_stay_ended()
    ensures answered { (s : Seen) (k now : ℕ) (o : Option Emission) (content : Content)
        → stage s k ≡ ToAnswer content → stage (and_then (did (Answer k now) o) s) k ≡ Gone }
    ensures lost { (s : Seen) (k : ℕ) (o : Option Emission) → HasCome s k
        → stage (and_then (did (Lose k) o) s) k ≡ Gone }
    ensures for_ever { (h : History) (rs : List Entry) (k : ℕ) → HasCome (seen h) k → stage (seen h) k ≡ Gone
        → stage (seen (followed_by h rs)) k ≡ Gone }
{}

/// After its slot's new head word is published, a job gives the answer that it had.
pub fn raises_keep_the_answer()
    ensures { (s : Seen) (k word : ℕ) (o : Option Emission) (content : Content)
        → stage s k ≡ ToRaise word content → stage (and_then (did (Raise k) o) s) k ≡ ToAnswer content }
{}

/// A change whose save is refused isn't made, and its job is answered 5.03.
///
/// 5.03 is Service Unavailable. The change is a removal, or the commit of a run that wants to
/// write: a POST whose code is of class 2. Its refusal changes the stage of its job and nothing
/// else: no slot, no observer, no head word and no time. It emits nothing. So the next snapshot
/// finds each slot as it was.
///
/// No other job is refused. The commit of a GET, or of a POST whose code isn't of class 2, isn't. A
/// job whose change was made still publishes its head word. An install is refused as one without
/// memory.
pub fn unsaved_changes_are_refused()
    ensures alone { (s : Seen) (k : ℕ) (o : Option Emission) → is_refusable (stage s k) ≡ true
        → and_then (did (Refuse k) o) s
        ≡ record s { tasks = slice_set s.tasks k (record { job = job s k; stage = ToAnswer Unavailable }) } }
    ensures finds { (s : Seen) (k n : ℕ) (o : Option Emission) → slot_at (and_then (did (Refuse k) o) s) n ≡ slot_at s n }
    ensures emitted { (s : Seen) (k : ℕ) (o : Option Emission) → Emits s (Refuse k) o → o ≡ None }
    ensures removal { (s : Seen) (k : ℕ) (o : Option Emission) → stage s k ≡ ToRemove
        → stage (and_then (did (Refuse k) o) s) k ≡ ToAnswer Unavailable }
    ensures writes { (s : Seen) (k count : ℕ) (t : Ticket) (o : Option Emission) → stage s k ≡ ToCommit count t
        → t.request.method ≡ Post → code_class (meaning_at t).code ≡ 2
        → stage (and_then (did (Refuse k) o) s) k ≡ ToAnswer Unavailable }
    ensures reads { (s : Seen) (k count : ℕ) (t : Ticket) (o : Option Emission) → stage s k ≡ ToCommit count t
        → (t.request.method ≡ Get) ⊎ (code_class (meaning_at t).code ≡ 2 → ⊥) → and_then (did (Refuse k) o) s ≡ s }
    ensures made { (s : Seen) (k word : ℕ) (content : Content) (o : Option Emission) → stage s k ≡ ToRaise word content
        → and_then (did (Refuse k) o) s ≡ s }
    ensures install { (s : Seen) (k : ℕ) (o : Option Emission) → stage s k ≡ ToInstall → and_then (did (Refuse k) o) s ≡ s }
{}

/// A job without memory for a ticket or an install is answered 5.03.
///
/// 5.03 is Service Unavailable. A job that is at the stage of its answer takes no further ticket.
pub fn refused_memory_ends_a_job()
    ensures take { (s : Seen) (k count : ℕ) (readings : List ℕ) (o : Option Emission) (p : Present) → stage s k ≡ ToTake count
        → (slot_at s (slot_of s k)).present ≡ Some p
        → stage (and_then (did (Take k false readings) o) s) k ≡ ToAnswer Unavailable }
    ensures install { (s : Seen) (k : ℕ) (o : Option Emission) → stage s k ≡ ToInstall
        → stage (and_then (did (Install k false) o) s) k ≡ ToAnswer Unavailable }
    ensures later { (h : History) (rs : List Entry) (k : ℕ) (content : Content)
        → stage (seen h) k ≡ ToAnswer content → snapshots_of (followed_by h rs) k ≡ snapshots_of h k }
{}
