//! Laws of tracks: right tracks are one legal history, and a thread knows the words on its tracks.
//!
//! The last laws are of saves, of idle words, and of programs that are expensive.
ghost use Rattle.std.specs.Prelude.{◌≡◌, ℕ, [], ◌∷◌, ◌++◌, List, None, Some, Ok, Err, true, false, slice_index};
ghost use Rattle.fc_book.specs.Tracks.{track};
ghost use Rattle.fc_book.specs.declared.view.BookView.{BookView};
ghost use Rattle.fc_observe.specs.declared.entry.Entry.{Entry};
ghost use Rattle.fc_observe.specs.declared.entry.Phase.TheVariants.{Outstanding};
ghost use Rattle.fc_observe.specs.Observers.{ObserverList};
ghost use Rattle.fc_ticket.specs.declared.job.Job.{Job};
ghost use Rattle.fc_registry.specs.declared.shard.Taken.TheVariants.{Given};
ghost use Rattle.fc_registry.specs.Slots.{Shard, slot_in};
ghost use Rattle.fc_ticket.specs.Taken.{SlotSnapshot};
ghost use Rattle.fc_front.specs.Heads.{word_at};
ghost use Rattle.fc_calls.specs.Doings.{cost_at};
ghost use Rattle.fc_calls.specs.Kept.{HasEightSlots};
ghost use Rattle.fc_calls.specs.Logged.{InstallsProgram, LooksAt, RaisesWord, RemovesProgram};
ghost use Rattle.fc_core.specs.History.{History};
ghost use Rattle.fc_server.specs.Serving.{Serves};
ghost use Rattle.fc_server.specs.States.{ServerState};
ghost use Rattle.fc_linear.specs.Operations.{FailsToSave, Logged};
ghost use Rattle.fc_linear.specs.Parts.{HaveNextNumbers, IsHistoryOf, RightByParts, bringing, history_on};
ghost use Rattle.fc_store.specs.Stored.{StoredSlots};
ghost use Rattle.fc_store.specs.declared.store.ProgramUpdate.{ProgramUpdate};
ghost use Rattle.fc_store.specs.declared.store.ProgramUpdate.TheVariants as saves;
ghost use Rattle.fc_store.specs.declared.store.SlotUpdate.{SlotUpdate};
ghost use Rattle.std.specs.Borrow.{Bor};
ghost use Rattle.fc_kinds.specs.Meaning.{Program};
ghost use Rattle.fc_verify.specs.Accepted.{Accepts};
ghost use Rattle.fc_verify.specs.Judged.{judged};
ghost use Rattle.fc_core.specs.Stages.{image_of};
ghost use Rattle.fc_registry.specs.declared.shard.Made.{Made};
ghost use Rattle.fc_registry.specs.declared.shard.Removal.{Removal};
ghost use Rattle.fc_store.specs.Recovery.{Save};
ghost use Rattle.fc_filed.specs.declared.entry.FiledEntry.{FiledEntry};
ghost use Rattle.fc_filed.specs.Books.{HasServerHistory, heads_in};
ghost use Rattle.fc_filed.specs.Entries.{AreKeyed, IsKeyed, entry_keys, log_of};
ghost use Rattle.fc_filed.specs.Idle.{LeadToIdle, idle_word};
ghost use Rattle.fc_filed.specs.Parts.{TakesIfCheap};
ghost use Rattle.fc_filed.specs.Recovered.{AreStoredAtFirst, FindsHistory, HaveSavedOrder, saves_of};
ghost use Rattle.fc_filed.specs.Saves.{ShardSteps, refused_save, stored_save};
ghost use Rattle.fc_filed.specs.Threads.{known_word};
ghost use Rattle.fc_filed.specs.Tracked.{AreTracksRight, OwnsAll};

use fc_store::Store;

/// If the tracks of a server are right, they continue its history legally.
///
/// The server begins in the state `first`, which some history leaves without jobs. Its tracks lead
/// the parts to the state `end`, in which the longer history leaves the server.
pub fn tracks_are_one_history()
    ensures { (first_job : ℕ) (log : List FiledEntry) (h : History) (first end : ServerState) → Serves h first [] → AreTracksRight first_job log first end →
        IsHistoryOf (history_on h (log_of first_job log)) end }
{}

/// An attested history is legal if one owner has all parts' and threads' tracks.
///
/// It continues a history that leaves the server `first` without jobs. The tracks of the parts lead
/// from `first` to `end`, whose head words are those of the attested history. Each job's track that
/// the owner has must be right for its job. The jobs must come in the order of their keys. A job's
/// track that the owner doesn't have, such as that of a lost message, is right by the book's rule.
pub fn attested_tracks_are_one_history()
    ensures { (first_job : ℕ) (before : History) (first end : ServerState) (v : BookView FiledEntry) (h : HasServerHistory first_job first v) → Serves before first [] →
        end.words ≡ h.words → HaveNextNumbers 0 (bringing (log_of first_job h.log)) → OwnsAll first_job v first end →
        IsHistoryOf (history_on before (log_of first_job h.log)) end }
{}

/// A thread knows the greatest word of a slot in the entries of all its tracks.
///
/// The thread has a job's track with no entries, and then its own. Its own has a raise of slot 5 to
/// 3 and a look that found 2.
pub fn threads_know_the_greatest_word()
    ensures any_track { known_word 5 (track 11 [] ∷ track 10 (record { who = 10; job = 11; operation = Logged (RaisesWord 5 3); save = None } ∷ record { who = 10; job = 11; operation = Logged (LooksAt 5 2); save = None } ∷ []) ∷ []) ≡ 3 }
    ensures own_slot { known_word 6 (track 10 (record { who = 10; job = 11; operation = Logged (RaisesWord 5 3); save = None } ∷ []) ∷ []) ≡ 0 }
{}

/// At each place of a history, a start finds the history's slots.
///
/// The law is about a server with a persistent store. The server begins in the state `first`, which
/// some history leaves without jobs, with the programs that are stored. Its calls are right for
/// each part and each job, and its changes are saved. The law holds at each place of the calls:
/// after `earlier`, and before `later`. The longer history is that of the calls up to there. The
/// slots stored by then are the history's. If the medium was clean, a start finds them, maybe with
/// one refused update.
pub fn starts_find_the_history<S: Store>()
    ensures { (keyed_from numbered_from : ℕ) (first end : ServerState) (stored : StoredSlots) (closed : List Shard) (calls earlier later : List FiledEntry) (before : History) →
        S.persistent ≡ true → Serves before first [] → RightByParts end first [] (log_of numbered_from calls) → AreKeyed keyed_from calls
        → AreStoredAtFirst first stored → (saved : HaveSavedOrder S.Store first stored closed calls) → calls ≡ earlier ++ later
        → FindsHistory S.Store first stored saved.before saved.after earlier later (history_on before (log_of numbered_from earlier)) }
{}

/// With a persistent store, each change of a slot is one entry with its save; no other entry changes
/// a slot.
///
/// An entry without a save changes no slot. Neither does one whose update was refused: it is the
/// refusal of just this update, and each refusal has its save. The update of slot 13 at serial 7 was
/// stored: it has serial 8, and so has the slot afterwards. Slot 5 of the same shard is unchanged.
/// After a stored removal slot 13 is empty. A server whose store isn't persistent files no save.
pub fn changes_of_slots_are_saved()
    ensures unsaved { (e : FiledEntry) (x y : Shard) → e.save ≡ None → ShardSteps true e x y → y.slots ≡ x.slots }
    ensures refused { (e : FiledEntry) (u : SlotUpdate) (x y : Shard) → e.save ≡ Some (refused_save u) → ShardSteps true e x y → (y.slots ≡ x.slots) × (e.operation ≡ FailsToSave u) }
    ensures refusal { (e : FiledEntry) (u : SlotUpdate) (x y : Shard) → e.operation ≡ FailsToSave u → ShardSteps true e x y → e.save ≡ Some (refused_save u) }
    ensures next { (e : FiledEntry) (u : SlotUpdate) (x y : Shard) → e.save ≡ Some (stored_save u) → u.slot ≡ 13 → (slot_in x 13).serial ≡ 7 → HasEightSlots x
        → ShardSteps true e x y → (u.serial ≡ 8) × ((slot_in y 13).serial ≡ 8) × (slot_in y 5 ≡ slot_in x 5) }
    ensures removed { (e : FiledEntry) (x y : Shard) → e.save ≡ Some (stored_save (record { slot = 13; serial = 8; program = saves.Remove })) → HasEightSlots x
        → ShardSteps true e x y → (slot_in y 13).present ≡ None }
    ensures none { (e : FiledEntry) (s : Save) (x y : Shard) → e.save ≡ Some s → ShardSteps false e x y → ⊥ }
{}

/// The update of an install has an image of its program.
///
/// The program is that of the image of a job, in slot 13, and the update is stored.
pub fn saved_installs_have_their_image()
    ensures { (e : FiledEntry) (job : Job) (p : Program) (made : Made) (serial : ℕ) (image vars : Bor (List ℕ)) (x y : Shard) → e.operation ≡ Logged (InstallsProgram job p made)
        → judged (image_of job.ask) ≡ Accepts p → job.origin.slot ≡ 13 → HasEightSlots x → e.save ≡ Some (stored_save (record { slot = 13; serial = serial; program = saves.Install image vars }))
        → ShardSteps true e x y → judged image.now ≡ Accepts p }
{}

/// An entry with a save is one of two parts: of the saved slot's shard, and of the store.
///
/// Slot 13 is one of shard 5, whose track has key 6, and the store's track has key 9. A read of a
/// head word has no save. A removal in slot 6 has no update of slot 13. The saves of three entries,
/// of which the second has none, are two, the newest first.
pub fn saves_are_entries_of_two_parts()
    ensures both { (p : ProgramUpdate) → let u : SlotUpdate = record { slot = 13; serial = 8; program = p } in
        entry_keys (record { who = 10; job = 12; operation = FailsToSave u; save = Some (refused_save u) }) ≡ record { part = 6; also = 9; who = 10; job = 12 } }
    ensures words { (u : SlotUpdate) → IsKeyed 11 (record { who = 10; job = 12; operation = Logged (LooksAt 13 0); save = Some (stored_save u) }) → ⊥ }
    ensures shard { (job : Job) (r : Removal) → job.origin.slot ≡ 6
        → IsKeyed 11 (record { who = 10; job = 12; operation = Logged (RemovesProgram job r); save = Some (stored_save (record { slot = 13; serial = 8; program = saves.Remove })) }) → ⊥ }
    ensures newest { (a b c : FiledEntry) (s t : Save) → a.save ≡ Some s → b.save ≡ None → c.save ≡ Some t → saves_of (a ∷ b ∷ c ∷ []) ≡ t ∷ s ∷ [] }
{}

/// The table of a book has eight words of padding, the idle words, and the head words.
///
/// The idle word of shard 0 is word 8, and that of shard 7 is word 15. The head word of slot 0 is
/// word 16, and that of slot 63 is word 79.
pub fn idle_words_come_before_head_words()
    ensures idle { (words : List ℕ) → (idle_word words 0 ≡ slice_index words 8) × (idle_word words 7 ≡ slice_index words 15) }
    ensures heads { (words : List ℕ) → (word_at (heads_in words) 0 ≡ slice_index words 16) × (word_at (heads_in words) 63 ≡ slice_index words 79) }
{}

/// A shard that is overdue from 5,000 ms on is idle at 4,999 ms, and not at 5,000 ms.
///
/// Its one observer's notification was sent at 3,000 ms with a timeout of 2,000 ms, and isn't
/// acknowledged.
pub fn overdue_shards_are_not_skipped()
    ensures { (o : Entry) (bytes : _) → let held = record o { serial = 0; phase = Outstanding 3000 2000 0 bytes } in
        let watch : ObserverList = record { slot = 0; confirm_after = 86400000; time = 3000; turns = 1; held = held ∷ [] } in
        let shard : Shard = record { index = 0; now = 3000; slots = []; watches = watch ∷ [] } in
        LeadToIdle shard [] 4999 × (LeadToIdle shard [] 5000 → ⊥) }
{}

/// A program is expensive if its cost is the limit or more.
///
/// The limit is 10,000 steps. A program of cost 60,764 may be found expensive, with that cost. No
/// snapshot of a program of cost 10,000 is taken. Neither a program of cost 9,999 nor an empty slot
/// is found expensive.
pub fn programs_are_expensive_from_the_limit()
    ensures expensive { (job : Job) (readings : List ℕ) (shard : Shard) (found : SlotSnapshot) → cost_at (slot_in shard job.origin.slot).present ≡ Some 60764
        → TakesIfCheap 10000 job readings shard (Err 60764) found shard }
    ensures cheap { (job : Job) (readings : List ℕ) (before after : Shard) (cost : ℕ) (found : SlotSnapshot) → cost_at (slot_in before job.origin.slot).present ≡ Some 9999
        → TakesIfCheap 10000 job readings before (Err cost) found after → ⊥ }
    ensures empty { (job : Job) (readings : List ℕ) (before after : Shard) (cost : ℕ) (found : SlotSnapshot) → (slot_in before job.origin.slot).present ≡ None
        → TakesIfCheap 10000 job readings before (Err cost) found after → ⊥ }
    ensures taken { (job : Job) (readings : List ℕ) (before after : Shard) (program : _) (found : SlotSnapshot) →
        TakesIfCheap 10000 job readings before (Ok (Given program)) found after → program.value.cost ≡ 10000 → ⊥ }
{}
