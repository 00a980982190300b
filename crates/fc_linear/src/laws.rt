//! Laws of logs of operations.
ghost use Rattle.std.specs.Prelude.{◌≡◌, ◌<◌, ℕ, [], List, None, Some, false, length, true, ◌∷◌, Option, replicate};
ghost use Rattle.std.specs.Borrow.{Bor};
ghost use Rattle.fc_calls.specs.Logged.{GivesReadings, ReadsCost, SkipsIdle};
ghost use Rattle.fc_front.specs.Contents.{Content, Unavailable};
ghost use Rattle.fc_front.specs.Heads.{word_at};
ghost use Rattle.fc_core.specs.History.{BeginsWith, History};
ghost use Rattle.fc_core.specs.Stage.{Stage, ToAnswer, ToCommit, ToInstall, ToRemove};
ghost use Rattle.fc_core.specs.declared.event.Event.TheVariants.{Install, Refuse};
ghost use Rattle.fc_front.specs.declared.policy.Policy.{Policy};
ghost use Rattle.fc_core.specs.declared.stage.Task.{Task};
ghost use Rattle.fc_kinds.specs.Meaning.{Program};
ghost use Rattle.fc_core.specs.Stages.{image_of};
ghost use Rattle.fc_registry.specs.Calls.{commit_of, wants};
ghost use Rattle.fc_ticket.specs.Runs.{initial_vars_of};
ghost use Rattle.fc_registry.specs.Restored.{restored_slot};
ghost use Rattle.fc_registry.specs.Shards.{slot_in_shards};
ghost use Rattle.fc_registry.specs.Slots.{Shard};
ghost use Rattle.fc_ticket.specs.Tickets.{Ticket};
ghost use Rattle.fc_registry.specs.Starts.{CanRestore};
ghost use Rattle.fc_ticket.specs.declared.job.InitialVars.TheVariants.{Zeros};
ghost use Rattle.fc_ticket.specs.declared.job.Job.{Job};
ghost use Rattle.fc_server.specs.declared.server.Begin.{Begin};
ghost use Rattle.fc_server.specs.Serving.{Serves};
ghost use Rattle.fc_server.specs.States.{ServerState, begin_of, first_server, server_over};
ghost use Rattle.fc_store.specs.declared.store.ProgramUpdate.TheVariants as saves;
ghost use Rattle.fc_store.specs.declared.store.SlotUpdate.{SlotUpdate};
ghost use Rattle.fc_store.specs.Stored.{StoredProgram, StoredSlot, StoredSlots, stored_in};
ghost use Rattle.fc_verify.specs.Accepted.{Accepts};
ghost use Rattle.fc_verify.specs.Judged.{judged};
ghost use Rattle.fc_linear.specs.Operations.{FailsToSave, RefusesInstall, LogEntry, NoPart, RejectsImage, StageMoves, event_for, part_of, Logged, ShardDoes, ShardPart};
ghost use Rattle.fc_linear.specs.Parts.{IsHistoryOf, LeavesServer, RightByParts, history_on};

/// A new server is the one that its history begins with, with empty slots or with restored ones.
///
/// A server is restored from 64 stored slots if a start can restore each of them.
pub fn new_servers_begin_a_history()
    ensures empty { (b : Begin) → Serves (begin_of b) (first_server b) [] }
    ensures restored { (items : List StoredSlot) (id : ℕ) (policy : Policy) → length items ≡ 64 → ((n : ℕ) → n < 64 → CanRestore (stored_in items n))
        → Serves (BeginsWith (stored_in items) id policy) (server_over (stored_in items) id policy) [] }
{}

/// A restored server begins with the head words of its programs, and with the stored slots.
///
/// If slot 13 is stored at serial 5 with a program that is accepted, its head word is 11. The head
/// word of an empty slot is 0 at serial 5, and at serial 0. Slot 13 is restored from its stored
/// state.
pub fn restored_servers_have_their_head_words()
    ensures program { (stored : StoredSlots) (id : ℕ) (policy : Policy) (k : StoredProgram) (p : Program) → judged k.image ≡ Accepts p →
        stored 13 ≡ record { serial = 5; program = Some k } → word_at (server_over stored id policy).words 13 ≡ 11 }
    ensures empty { (stored : StoredSlots) (id : ℕ) (policy : Policy) → stored 13 ≡ record { serial = 5; program = None } → word_at (server_over stored id policy).words 13 ≡ 0 }
    ensures blank { (stored : StoredSlots) (id : ℕ) (policy : Policy) → stored 13 ≡ record { serial = 0; program = None } → word_at (server_over stored id policy).words 13 ≡ 0 }
    ensures slot { (stored : StoredSlots) (id : ℕ) (policy : Policy) → slot_in_shards (server_over stored id policy).shards 13 ≡ restored_slot (stored 13) }
{}

/// A log that is right for each part of a server and each job is one history.
///
/// The history `h` leaves the server `first` without jobs. For a new server, `h` is its beginning.
/// The log's operations continue this history legally. The longer history's server is `end`, to
/// which the log leads.
pub fn calls_are_one_history()
    ensures { (log : List LogEntry) (h : History) (first end : ServerState) → Serves h first [] → RightByParts end first [] log →
        IsHistoryOf (history_on h log) end }
{}

/// A log that is right for each part of a server and each job continues a history.
///
/// If a history leaves the server, the history continued by the log leaves the server `end`, to
/// which the log leads.
pub fn calls_continue_a_history()
    ensures { (log : List LogEntry) (h : History) (end s : ServerState) (tasks : List Task) → Serves h s tasks →
        RightByParts end s tasks log → LeavesServer (history_on h log) end }
{}

/// An image that isn't installed, or a change that isn't saved, is one of a job.
///
/// An image breaks a rule, or memory for it is refused, at the stage of its install. The update of
/// an install fails to be saved at that stage too, and has the job's image, which is accepted. If the
/// install keeps no variables, the update has zeros. The update of a commit
/// fails at the stage of a commit that wants to write, and has the variables that its run left. The
/// update of a removal fails at the stage of the removal. So the slot hasn't changed yet. The job's
/// answer is then 5.03 (Service Unavailable), and the job's slot is that of the update.
///
/// The first two are calls of no part of the server. An update of slot 13 that fails to be saved is
/// an operation of shard 5, and leaves the shard unchanged. The events are an install with memory,
/// an install that is refused, and the refusal of a change.
pub fn filed_refusals_name_their_job()
    ensures rejects { (j job : Job) (content : Content) (s t : Stage) → StageMoves (RejectsImage j content) job s t → (j ≡ job) × (s ≡ ToInstall) }
    ensures refused { (j job : Job) (s t : Stage) → StageMoves (RefusesInstall j) job s t → (j ≡ job) × (s ≡ ToInstall) }
    ensures unsaved { (u : SlotUpdate) (job : Job) (s t : Stage) → StageMoves (FailsToSave u) job s t → (u.slot ≡ job.origin.slot) × (t ≡ ToAnswer Unavailable) }
    ensures install { (slot serial : ℕ) (image vars : Bor (List ℕ)) (job : Job) (s t : Stage) →
        StageMoves (FailsToSave (record { slot = slot; serial = serial; program = saves.Install image vars })) job s t → (s ≡ ToInstall) × (image.now ≡ image_of job.ask) }
    ensures accepted { (slot serial : ℕ) (image vars : Bor (List ℕ)) (job : Job) (s t : Stage) →
        StageMoves (FailsToSave (record { slot = slot; serial = serial; program = saves.Install image vars })) job s t
        → (program : Program) × (judged image.now ≡ Accepts program) × (initial_vars_of job.ask ≡ Zeros → vars.now ≡ replicate program.vars_size 0) }
    ensures commit { (slot serial : ℕ) (vars : Bor (List ℕ)) (job : Job) (s t : Stage) →
        StageMoves (FailsToSave (record { slot = slot; serial = serial; program = saves.Commit vars })) job s t
        → (count : ℕ) × ((ticket : Ticket) × ((s ≡ ToCommit count ticket) × (wants ticket ≡ true) × (vars.now ≡ (commit_of ticket).after))) }
    ensures removal { (slot serial : ℕ) (job : Job) (s t : Stage) →
        StageMoves (FailsToSave (record { slot = slot; serial = serial; program = saves.Remove })) job s t → s ≡ ToRemove }
    ensures no_part { (job : Job) (content : Content) → (part_of (RejectsImage job content) ≡ NoPart) × (part_of (RefusesInstall job) ≡ NoPart) }
    ensures shard { (u : SlotUpdate) → u.slot ≡ 13 → part_of (FailsToSave u) ≡ ShardPart 5 }
    ensures unchanged { (u : SlotUpdate) (x y : Shard) → ShardDoes (FailsToSave u) x y → y ≡ x }
    ensures events { (k : ℕ) (job : Job) (content : Content) →
        (event_for k (RejectsImage job content) ≡ Some (Install k true)) × (event_for k (RefusesInstall job) ≡ Some (Install k false)) }
    ensures unsaved_install { (k slot serial : ℕ) (image vars : Bor (List ℕ)) → event_for k (FailsToSave (record { slot = slot; serial = serial; program = saves.Install image vars })) ≡ Some (Install k false) }
    ensures unsaved_changes { (k slot serial : ℕ) (vars : Bor (List ℕ)) →
        (event_for k (FailsToSave (record { slot = slot; serial = serial; program = saves.Commit vars })) ≡ Some (Refuse k))
        × (event_for k (FailsToSave (record { slot = slot; serial = serial; program = saves.Remove })) ≡ Some (Refuse k)) }
{}

/// A read of a cost, a skip and a call for readings are no events.
///
/// The history of a log doesn't depend on them. A read of the cost in slot 13 is a call of shard 5.
/// A skip is a call of no part.
pub fn reads_and_skips_are_no_events()
    ensures cost { (k : ℕ) (cost : Option ℕ) (h : History) (log : List LogEntry) → history_on h (record { job = k; operation = Logged (ReadsCost 13 cost) } ∷ log) ≡ history_on h log }
    ensures skip { (k shard now : ℕ) (h : History) (log : List LogEntry) → history_on h (record { job = k; operation = Logged (SkipsIdle shard now) } ∷ log) ≡ history_on h log }
    ensures readings { (k : ℕ) (readings : List ℕ) (h : History) (log : List LogEntry) → history_on h (record { job = k; operation = Logged (GivesReadings readings) } ∷ log) ≡ history_on h log }
    ensures part { (cost : Option ℕ) (shard now : ℕ) → (part_of (Logged (ReadsCost 13 cost)) ≡ ShardPart 5) × (part_of (Logged (SkipsIdle shard now)) ≡ NoPart) }
{}
