//! Laws about a server with locks.
//!
//! Each law is the contract of an empty function.
ghost use Rattle.std.specs.Prelude.{◌≡◌, ◌+◌, ◌<◌, ◌≤◌, ◌⊎◌, ⊤, ℕ, Bool, true, false, None, Option, Some, List, [], ◌∷◌, ◌++◌, length, slice_index};
ghost use Rattle.fc_front.specs.Heads.{word_at};
ghost use Rattle.fc_core.specs.History.{History};
ghost use Rattle.fc_calls.specs.Logged.{DrawsId, InstallsProgram, LooksAt, NotesTurn, RaisesWord, ReadsCost, SkipsIdle};
ghost use Rattle.fc_front.specs.declared.policy.Policy.{Policy};
ghost use Rattle.fc_store.specs.Recovery.{Save};
ghost use Rattle.fc_filed.specs.Entries.{front_entries, shard_entries, word_entries};
ghost use Rattle.fc_filed.specs.declared.entry.FiledEntry.{FiledEntry};
ghost use Rattle.fc_kinds.specs.Meaning.{Program};
ghost use Rattle.fc_linear.specs.Operations.{Logged};
ghost use Rattle.fc_front.specs.Policies.{default_policy};
ghost use Rattle.fc_observe.specs.Observers.{ObserverList};
ghost use Rattle.fc_observe.specs.declared.observers.Ticked.TheVariants.{Quiet};
ghost use Rattle.fc_observe.specs.declared.entry.Turn.{Turn};
ghost use Rattle.fc_registry.specs.Changes.{Change, Commit, Committed, Installed, Removed, installed};
ghost use Rattle.fc_ticket.specs.Notes.{IsNoted};
ghost use Rattle.fc_registry.specs.Slots.{Slot};
ghost use Rattle.fc_registry.specs.Turns.{due_job};
ghost use Rattle.fc_registry.specs.Watches.{at_time, due_place, overdue_place, ticked_in};
ghost use Rattle.fc_ticket.specs.declared.job.InitialVars.{InitialVars};
ghost use Rattle.fc_ticket.specs.declared.job.Job.{Job};
ghost use Rattle.fc_registry.specs.declared.shard.Made.TheVariants.{Raised};
ghost use Rattle.fc_ticket.specs.declared.note.Noted.{Noted};
ghost use Rattle.fc_ticket.specs.declared.note.Notification.{Notification};
ghost use Rattle.fc_server.specs.declared.server.Begin.{Begin};
ghost use Rattle.fc_locked.specs.Asked.{IsLoggedCall, peripherals};
ghost use Rattle.fc_book.specs.declared.view.BookView.{BookView};
ghost use Rattle.fc_filed.specs.Books.{HaveServerHistory};
ghost use Rattle.fc_filed.specs.declared.book_begin.BookBegin.{BookBegin};
ghost use Rattle.fc_backend.specs.RightTracks.{HaveRightTracks, filed_in};
ghost use Rattle.fc_backend.specs.Messages.{first_brought};
ghost use Rattle.fc_filed.specs.Entries.{log_of};
ghost use Rattle.fc_filed.specs.Recovered.{AreStoredAtFirst, FindsHistory};
ghost use Rattle.fc_linear.specs.Parts.{IsHistoryOf, RightByParts, history_on};
ghost use Rattle.fc_server.specs.Serving.{Serves};
ghost use Rattle.fc_server.specs.States.{ServerState, confirm_after_of, first_server, server_over};
ghost use Rattle.fc_store.specs.Stored.{StoredProgram, StoredSlots};
ghost use Rattle.fc_store.specs.Updates.{AreSameSlots, slots_after, with_stored_vars};
ghost use Rattle.fc_locked.specs.SharedStores.{HasSaved, SavesChange};
ghost use Rattle.fc_verify.specs.Accepted.{Accepts};
ghost use Rattle.fc_verify.specs.Judged.{judged};
ghost use Rattle.fc_locked.specs.LegalOrder.{HaveSavedLegalOrder, server_with};
ghost use Rattle.fc_backend.specs.Logs.{TrackedLog as Log};
ghost use Rattle.fc_locked.specs.OneOrder.{HaveOneOrder};
ghost use Rattle.fc_locked.specs.declared.closed.ClosedServer.{ClosedServer};

use crate::books::Books;
use fc_backend::Device;
use fc_registry::laws::idle_shards_do_nothing;
use fc_store::{MemoryStore, NoStore, Store};

/// A server with locks uses the confirmation time of its first state.
///
/// A logged notification is that of some observers whose notifications are confirmable after this
/// time in milliseconds. The notification is at the time of the call or a later one. By default the
/// confirmation time is 86,400,000 ms, 24 hours (RFC 7641, section 4.5).
pub fn locked_shards_confirm_in_time<B: Books, D: Device, K: Store>()
    ensures default { (stored : StoredSlots) (id : ℕ) → confirm_after_of (server_over stored id default_policy) ≡ 86400000 }
    ensures noted { (turn : Turn) (id now random : ℕ) (told : Notification) (noted : Noted) (before after : Log)
        → turn.slot < 64 → IsLoggedCall B.first (peripherals D.are_readings K.Store) (NotesTurn turn id now random told noted) before after
        → (watch : ObserverList) × (serial : ℕ) × (at : ℕ) × (watch.confirm_after ≡ confirm_after_of B.first) × (now ≤ at) × IsNoted told turn id at serial watch noted }
{}

/// A skipped shard has nothing to retransmit, and no observer to notify.
///
/// This holds of the shard to which its calls before the skip lead, in the one order of the
/// server's calls. At the time of the skip, a tick of it does nothing, and no observer has a
/// pending notification.
pub fn skipped_shards_do_nothing()
    ensures { (begin : ServerState) (logs : List Log) (closed : ClosedServer) (order : HaveOneOrder begin logs closed) (who job index now : ℕ) (earlier later : List FiledEntry)
        (is : order.calls ≡ earlier ++ record { who = who; job = job; operation = Logged (SkipsIdle index now); save = None } ∷ later)
        → let shard = at_time (order.skips earlier later (record { who = who; job = job; operation = Logged (SkipsIdle index now); save = None }) is).shard now in
        (ticked_in (overdue_place shard) shard ≡ Quiet) × (due_job (due_place shard) shard ≡ None) }
{
    idle_shards_do_nothing();
}

/// Two threads of a server that draw a message ID each draw two.
///
/// They call its front for nothing else. If the server draws 7 first, one of them gets 7, and the
/// other gets 8.
pub fn two_threads_draw_two_ids()
    ensures { (policy : Policy) (serial : ℕ) (one other : Log) (j k a b : ℕ) (closed : ClosedServer)
        → HaveOneOrder (first_server (record { serial = serial; id = 7; policy = policy })) (one ∷ other ∷ []) closed
        → front_entries (filed_in one) ≡ record { who = one.who; job = j; operation = Logged (DrawsId 0 (Some a)); save = None } ∷ []
        → front_entries (filed_in other) ≡ record { who = other.who; job = k; operation = Logged (DrawsId 0 (Some b)); save = None } ∷ []
        → ((a ≡ 7) × (b ≡ 8)) ⊎ ((a ≡ 8) × (b ≡ 7)) }
{}

/// Two threads of a server that install a program each in slot 13 get two serials.
///
/// They call its shard, shard 5, for nothing else. If the slots begin at serial 7, one of the
/// installs gets serial 8, and the other gets 9. If slot 13 is stored at serial 5, with a program
/// or without one, they get 6 and 7.
pub fn two_threads_install_at_two_serials()
    ensures new { (policy : Policy) (id : ℕ) (one other : Log) (job also : Job) (p q : Program) (j k a b : ℕ) (c d : Bool) (v w : Option Save) (closed : ClosedServer)
        → job.origin.slot ≡ 13 → also.origin.slot ≡ 13
        → HaveOneOrder (first_server (record { serial = 7; id = id; policy = policy })) (one ∷ other ∷ []) closed
        → shard_entries 5 (filed_in one) ≡ record { who = one.who; job = j; operation = Logged (InstallsProgram job p (Raised a c)); save = v } ∷ []
        → shard_entries 5 (filed_in other) ≡ record { who = other.who; job = k; operation = Logged (InstallsProgram also q (Raised b d)); save = w } ∷ []
        → ((a ≡ 8) × (b ≡ 9)) ⊎ ((a ≡ 9) × (b ≡ 8)) }
    ensures stored { (stored : StoredSlots) (o : Option StoredProgram) (policy : Policy) (id : ℕ) → stored 13 ≡ record { serial = 5; program = o }
        → (one other : Log) (job also : Job) (p q : Program) (j k a b : ℕ) (c d : Bool) (v w : Option Save) (closed : ClosedServer)
        → job.origin.slot ≡ 13 → also.origin.slot ≡ 13
        → HaveOneOrder (server_over stored id policy) (one ∷ other ∷ []) closed
        → shard_entries 5 (filed_in one) ≡ record { who = one.who; job = j; operation = Logged (InstallsProgram job p (Raised a c)); save = v } ∷ []
        → shard_entries 5 (filed_in other) ≡ record { who = other.who; job = k; operation = Logged (InstallsProgram also q (Raised b d)); save = w } ∷ []
        → ((a ≡ 6) × (b ≡ 7)) ⊎ ((a ≡ 7) × (b ≡ 6)) }
{}

/// The one order of a server's calls is a legal history if its jobs' tracks are right.
///
/// They are right if each is right for its job, and one thread produced all jobs in the order of
/// their keys. Each call for a job is on a track with a key from `first` on.
///
/// If a history leaves the first server without jobs, the calls as events continue it. Each
/// snapshot that found a program has a meaning. The longer history's server is the closed one: its
/// front, the slots, times and observers of its shards, and the head words at the end of the order.
/// The calls of each part lead it to the closed server, and those of each job follow its stages.
pub fn right_tracks_make_a_legal_order()
    ensures history { (begin : ServerState) (logs : List Log) (closed : ClosedServer) (first : ℕ) (order : HaveOneOrder begin logs closed) → HaveRightTracks first logs
        → (before : History) → Serves before begin [] → IsHistoryOf (history_on before (log_of first order.calls)) (server_with closed order.words) }
    ensures right { (begin : ServerState) (logs : List Log) (closed : ClosedServer) (first : ℕ) (order : HaveOneOrder begin logs closed) → HaveRightTracks first logs
        → RightByParts (server_with closed order.words) begin [] (log_of first order.calls) }
{}

/// At each place of a server's one order, a start finds the history's slots.
///
/// The order is that of the calls of a server whose store is persistent. The store begins with the
/// programs of the server's first state, which some history leaves without jobs. At each place of
/// the order, the slots that are stored are those of the history of the calls up to there. If the
/// medium was clean, a start finds them, maybe with one refused update.
pub fn starts_find_the_saved_order<S: Store>()
    ensures { (first : ServerState) (stored : StoredSlots) (logs : List Log) (closed : ClosedServer) (order : HaveSavedLegalOrder S.Store first stored logs closed) (before : History) (earlier later : List FiledEntry)
        → S.persistent ≡ true → Serves before first [] → AreStoredAtFirst first stored → order.legal.order.calls ≡ earlier ++ later
        → FindsHistory S.Store first stored order.saved.before order.saved.after earlier later (history_on before (log_of (first_brought (10 + length logs)) earlier)) }
{}

/// Of two threads one raises the head word of slot 5 to 3, and the other looks at that word.
///
/// Each does so once, and neither calls another head word. The look finds 0 or 3.
pub fn two_threads_raise_and_look()
    ensures { (begin : Begin) (one other : Log) (j k a : ℕ) (closed : ClosedServer)
        → HaveOneOrder (first_server begin) (one ∷ other ∷ []) closed
        → word_entries (filed_in one) ≡ record { who = one.who; job = j; operation = Logged (RaisesWord 5 3); save = None } ∷ []
        → word_entries (filed_in other) ≡ record { who = other.who; job = k; operation = Logged (LooksAt 5 a); save = None } ∷ []
        → (a ≡ 0) ⊎ (a ≡ 3) }
{}

/// A look at the head word of slot 5 that follows a raise to 7 finds 7 or more.
///
/// It follows the raise in the order of the filed calls of a server with empty slots. The two may
/// be by any threads, and other calls may be between them. A look before all raises finds 0, and so
/// does one that follows only a raise of slot 6. A look that follows raises to 7 and then to 4, and
/// no other, finds 7. If the server begins with other head words, a look before all raises finds
/// slot 5's first word. It is 11 if the slot is stored at serial 5 with a program that is accepted.
pub fn a_look_finds_the_raises_before_it()
    ensures least { (begin : Begin) (logs : List Log) (closed : ClosedServer) (order : HaveOneOrder (first_server begin) logs closed) (j k who by a : ℕ) (earlier between later : List FiledEntry)
        → order.calls ≡ earlier ++ record { who = who; job = j; operation = Logged (RaisesWord 5 7); save = None } ∷ between ++ record { who = by; job = k; operation = Logged (LooksAt 5 a); save = None } ∷ later
        → 7 ≤ a }
    ensures before { (begin : Begin) (logs : List Log) (closed : ClosedServer) (order : HaveOneOrder (first_server begin) logs closed) (k by a : ℕ) (earlier later : List FiledEntry)
        → order.calls ≡ earlier ++ record { who = by; job = k; operation = Logged (LooksAt 5 a); save = None } ∷ later → word_entries earlier ≡ [] → a ≡ 0 }
    ensures first { (begin : ServerState) (logs : List Log) (closed : ClosedServer) (order : HaveOneOrder begin logs closed) (k by a : ℕ) (earlier later : List FiledEntry)
        → order.calls ≡ earlier ++ record { who = by; job = k; operation = Logged (LooksAt 5 a); save = None } ∷ later → word_entries earlier ≡ [] → a ≡ word_at begin.words 5 }
    ensures stored { (stored : StoredSlots) (id : ℕ) (policy : Policy) (program : StoredProgram) (accepted : Program) → judged program.image ≡ Accepts accepted
        → stored 5 ≡ record { serial = 5; program = Some program }
        → (logs : List Log) (closed : ClosedServer) (order : HaveOneOrder (server_over stored id policy) logs closed) (k by a : ℕ) (earlier later : List FiledEntry)
        → order.calls ≡ earlier ++ record { who = by; job = k; operation = Logged (LooksAt 5 a); save = None } ∷ later → word_entries earlier ≡ [] → a ≡ 11 }
    ensures other { (begin : Begin) (logs : List Log) (closed : ClosedServer) (order : HaveOneOrder (first_server begin) logs closed) (j k who by a : ℕ) (earlier later : List FiledEntry)
        → order.calls ≡ earlier ++ record { who = by; job = k; operation = Logged (LooksAt 5 a); save = None } ∷ later
        → word_entries earlier ≡ record { who = who; job = j; operation = Logged (RaisesWord 6 7); save = None } ∷ [] → a ≡ 0 }
    ensures greatest { (begin : Begin) (logs : List Log) (closed : ClosedServer) (order : HaveOneOrder (first_server begin) logs closed) (i j k one other by a : ℕ) (earlier later : List FiledEntry)
        → order.calls ≡ earlier ++ record { who = by; job = k; operation = Logged (LooksAt 5 a); save = None } ∷ later
        → word_entries earlier ≡ record { who = one; job = i; operation = Logged (RaisesWord 5 7); save = None } ∷ record { who = other; job = j; operation = Logged (RaisesWord 5 4); save = None } ∷ [] → a ≡ 7 }
{}

/// A read of a cost finds the cost of the program that was installed before it.
///
/// Slot 13 is one of shard 5. In the order of a server's filed calls, shard 5 has an install in
/// slot 13 and a read of the cost there, and no other call. The two may be by any threads. If the
/// slots begin empty, a read before all other calls of shard 5 finds slot 13 empty.
pub fn costs_are_of_earlier_installs()
    ensures after { (stored : StoredSlots) (id : ℕ) (policy : Policy) (logs : List Log) (closed : ClosedServer) (order : HaveOneOrder (server_over stored id policy) logs closed) (who by j k serial : ℕ) (job : Job) (p : Program) (created : Bool) (v : Option Save) (cost : Option ℕ)
        → job.origin.slot ≡ 13
        → shard_entries 5 order.calls ≡ record { who = who; job = j; operation = Logged (InstallsProgram job p (Raised serial created)); save = v } ∷ record { who = by; job = k; operation = Logged (ReadsCost 13 cost); save = None } ∷ []
        → cost ≡ Some p.cost }
    ensures before { (begin : Begin) (logs : List Log) (closed : ClosedServer) (order : HaveOneOrder (first_server begin) logs closed) (by k : ℕ) (cost : Option ℕ) (later : List FiledEntry)
        → shard_entries 5 order.calls ≡ record { who = by; job = k; operation = Logged (ReadsCost 13 cost); save = None } ∷ later → cost ≡ None }
{}

/// The table of a new server's book has the head words of the server's programs.
///
/// If slot 13 is stored at serial 5 with a program that is accepted, word 29 of the table is 11:
/// sixteen words come before the head words.
pub fn new_tables_have_the_head_words_of_programs()
    ensures { (start : BookBegin) (words : List ℕ) (views : List (BookView FiledEntry)) (history : HaveServerHistory start words views) (stored : StoredSlots) (id : ℕ) (policy : Policy) (k : StoredProgram) (p : Program)
        → history.log ≡ [] → start.first ≡ server_over stored id policy → judged k.image ≡ Accepts p
        → stored 13 ≡ record { serial = 5; program = Some k } → slice_index words 29 ≡ 11 }
{}

/// A store in memory has the changes that a server with locks has saved in it.
///
/// The law is about a change of slot 5, at serial 7. The saved update has serial 8. After a removal
/// the store has no image, and an installed program has version 8 and an image of the program.
/// After a refused save each stored slot is unchanged. A call that changes nothing can't be
/// refused, and no save has two changes. A store that stores nothing refuses no change.
pub fn changes_are_saved_in_memory()
    ensures removal { (slot : Slot) (saved : HasSaved ⟦<MemoryStore as Store>⟧ ⊤ slot 5 (Removed ∷ []) true)
        → slot.serial ≡ 7
        → ⟦<MemoryStore as Store>⟧.stored saved.1.saves.new 5 ≡ record { serial = 8; program = None } }
    ensures install { (slot : Slot) (p : Program) (initial : InitialVars)
        (saved : HasSaved ⟦<MemoryStore as Store>⟧ ⊤ slot 5 (Installed p initial ∷ []) true) → slot.serial ≡ 7
        → (image : List ℕ) × (judged image ≡ Accepts p) × (⟦<MemoryStore as Store>⟧.stored saved.1.saves.new 5
        ≡ record { serial = 8; program = Some (record { version = 8; image = image; vars = (installed slot p initial).vars }) }) }
    ensures commit { (slot : Slot) (c : Commit)
        (saved : HasSaved ⟦<MemoryStore as Store>⟧ ⊤ slot 5 (Committed c ∷ []) true) → slot.serial ≡ 7
        → ⟦<MemoryStore as Store>⟧.stored saved.1.saves.new 5 ≡ record {
          serial = 8;
          program = with_stored_vars c.after
              (⟦<MemoryStore as Store>⟧.stored saved.1.saves.old 5).program;
        } }
    ensures refused { (slot : Slot) (change : Change) (saved : HasSaved ⟦<MemoryStore as Store>⟧ ⊤ slot 5 (change ∷ []) false)
        → AreSameSlots (⟦<MemoryStore as Store>⟧.stored saved.1.saves.new) (⟦<MemoryStore as Store>⟧.stored saved.1.saves.old) }
    ensures nothing { (slot : Slot) (n : ℕ) → HasSaved ⟦<MemoryStore as Store>⟧ ⊤ slot n [] false → ⊥ }
    ensures one { (slot : Slot) (n : ℕ) (a b : Change) (more : List Change)
        → HasSaved ⟦<MemoryStore as Store>⟧ ⊤ slot n (a ∷ b ∷ more) true → ⊥ }
    ensures never { (slot : Slot) (n : ℕ) (change : Change)
        → HasSaved ⟦<NoStore as Store>⟧ ⊤ slot n (change ∷ []) false → ⊥ }
{}

/// A start right after the save of a change finds the change, and no other.
///
/// The law is about a change of slot 5, at serial 7, that a server has saved in any persistent
/// store. The medium has returned the data that was written to it. A start finds serial 8. After a
/// removal it finds no image, and an installed program has version 8 and an image of the program.
/// After a commit the stored program has the new variables; without a stored program they are lost.
/// The other slots are those that were stored before. After a refused save a start finds slots that
/// it could find before the save, or the stored slots with the update.
pub fn saved_changes_are_found<K: Store>()
    ensures saves { (slot : Slot) (n : ℕ) (change : Change) (made : Bool) → K.persistent ≡ true
        → HasSaved K.Store ⊤ slot n (change ∷ []) made → SavesChange K.Store ⊤ slot n change made }
    ensures removal { (slot : Slot) (w : SavesChange K.Store ⊤ slot 5 Removed true) (found : StoredSlots) → slot.serial ≡ 7
        → K.is_clean w.saves.new → K.may_recover w.saves.new found → found 5 ≡ record { serial = 8; program = None } }
    ensures install { (slot : Slot) (p : Program) (initial : InitialVars)
        (w : SavesChange K.Store ⊤ slot 5 (Installed p initial) true) (found : StoredSlots) → slot.serial ≡ 7
        → K.is_clean w.saves.new → K.may_recover w.saves.new found
        → (image : List ℕ) × (judged image ≡ Accepts p)
        × (found 5 ≡ record {
          serial = 8;
          program = Some (record {
            version = 8;
            image = image;
            vars = (installed slot p initial).vars;
          });
        }) }
    ensures commit { (slot : Slot) (c : Commit) (p : StoredProgram)
        (w : SavesChange K.Store ⊤ slot 5 (Committed c) true) (found : StoredSlots) → slot.serial ≡ 7
        → (K.stored w.saves.old 5).program ≡ Some p → K.is_clean w.saves.new → K.may_recover w.saves.new found
        → found 5 ≡ record { serial = 8; program = Some (record { version = p.version; image = p.image; vars = c.after }) } }
    ensures lost { (slot : Slot) (c : Commit) (w : SavesChange K.Store ⊤ slot 5 (Committed c) true) (found : StoredSlots)
        → slot.serial ≡ 7
        → (K.stored w.saves.old 5).program ≡ None → K.is_clean w.saves.new → K.may_recover w.saves.new found
        → found 5 ≡ record { serial = 8; program = None } }
    ensures others { (slot : Slot) (change : Change) (n : ℕ) (w : SavesChange K.Store ⊤ slot 5 change true) (found : StoredSlots)
        → K.is_clean w.saves.new → K.may_recover w.saves.new found → n < 64 → (n ≡ 5 → ⊥)
        → found n ≡ K.stored w.saves.old n }
    ensures refused { (slot : Slot) (change : Change) (w : SavesChange K.Store ⊤ slot 5 change false) (found : StoredSlots)
        → K.is_clean w.saves.new → K.may_recover w.saves.new found
        → K.may_recover w.saves.old found ⊎ AreSameSlots found (slots_after w.update (K.stored w.saves.old)) }
{}
