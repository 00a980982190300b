//! Laws of saves. The functions do nothing; their contracts are the laws.
ghost use Rattle.std.specs.Prelude.{◌≡◌, ◌⊎◌, ◌<◌, ℕ, true, false, List, [], ◌∷◌, None};
ghost use Rattle.fc_store.specs.declared.store.ProgramUpdate.{ProgramUpdate};
ghost use Rattle.fc_store.specs.declared.store.ProgramUpdate.TheVariants.{Remove};
ghost use Rattle.fc_store.specs.Recovery.{MayBeFound, Save, SavesAll, refuses, stored_after, stores};
ghost use Rattle.fc_store.specs.Saves.{FindsStored, SavesUpdate};
ghost use Rattle.fc_store.specs.Stored.{StoredSlots};
ghost use Rattle.fc_store.specs.Updates.{AreSameSlots, slots_after};

use crate::store::Store;

/// A removed program isn't stored any more, and its slot's next serial is.
///
/// The law is about a removal in slot 5 at serial 8. After its save the store has serial 8 and no
/// image, and the other slots are unchanged. If the removal can't be saved, no stored slot changes.
pub fn removed_programs_are_not_stored<S: Store>()
    ensures removed { (old new : S) → SavesUpdate S.Store (record { slot = 5; serial = 8; program = Remove }) true old new
        → S.Store.stored new 5 ≡ record { serial = 8; program = None } }
    ensures others { (old new : S) (n : ℕ) → SavesUpdate S.Store (record { slot = 5; serial = 8; program = Remove }) true old new
        → n < 64 → (n ≡ 5 → ⊥) → S.Store.stored new n ≡ S.Store.stored old n }
    ensures refused { (old new : S) → SavesUpdate S.Store (record { slot = 5; serial = 8; program = Remove }) false old new
        → AreSameSlots (S.Store.stored new) (S.Store.stored old) }
{}

/// A start finds each update that was stored, and at most one refused update.
///
/// The law is about many saves of one store. Before them the store is ready, and a start would find
/// just the stored slots. Until the last save the medium has returned the data that was written to
/// it. The store then has each update that was stored, and is ready. A start may also find one
/// update that was refused after the last stored one.
pub fn starts_find_saved_slots<S: Store>()
    ensures stored { (saves : List Save) (first last : S) → SavesAll S.Store saves first last
        → AreSameSlots (S.Store.stored last) (stored_after saves (S.Store.stored first)) }
    ensures ready { (saves : List Save) (first last : S) → SavesAll S.Store saves first last
        → S.Store.is_ready first → S.Store.is_ready last }
    ensures found { (saves : List Save) (first last : S) (found : StoredSlots)
        → SavesAll S.Store saves first last → S.Store.is_ready first
        → (S.Store.is_clean first → FindsStored S.Store first)
        → S.Store.is_clean last → S.Store.may_recover last found
        → MayBeFound saves (S.Store.stored first) found }
{}

/// A refused update may be found alone, and until the next update is stored.
///
/// If the update of slot 5 at serial 8 is stored and the next, at serial 9, is refused, a start
/// finds slot 5 at serial 8 or 9, and may find either. The other slots are unchanged. If both are
/// stored, it finds serial 9. If the update of slot 5 at serial
/// 8 is refused and then one of slot 6 is stored, slot 5 is unchanged. If an update of slot 5 and
/// one of slot 6 are refused, at most one of them is found.
pub fn refused_updates_may_be_found()
    ensures refused { (a b : ProgramUpdate) (slots found : StoredSlots)
        → MayBeFound (refuses 5 9 b ∷ stores 5 8 a ∷ []) slots found
        → ((found 5).serial ≡ 8) ⊎ ((found 5).serial ≡ 9) }
    ensures others { (a b : ProgramUpdate) (slots found : StoredSlots) (n : ℕ)
        → MayBeFound (refuses 5 9 b ∷ stores 5 8 a ∷ []) slots found
        → n < 64 → (n ≡ 5 → ⊥) → found n ≡ slots n }
    ensures over { (a b : ProgramUpdate) (slots found : StoredSlots)
        → MayBeFound (stores 6 3 b ∷ refuses 5 8 a ∷ []) slots found
        → (found 5 ≡ slots 5) × ((found 6).serial ≡ 3) }
    ensures one { (a b : ProgramUpdate) (slots found : StoredSlots)
        → MayBeFound (refuses 6 3 b ∷ refuses 5 8 a ∷ []) slots found
        → (found 5 ≡ slots 5) ⊎ (found 6 ≡ slots 6) }
    ensures may { (a b : ProgramUpdate) (slots : StoredSlots)
        → MayBeFound (refuses 5 9 b ∷ stores 5 8 a ∷ []) slots
        (slots_after (record { slot = 5; serial = 9; program = b }) (slots_after (record { slot = 5; serial = 8; program = a }) slots)) }
    ensures alone { (a b : ProgramUpdate) (slots : StoredSlots)
        → MayBeFound (refuses 5 9 b ∷ stores 5 8 a ∷ []) slots
        (slots_after (record { slot = 5; serial = 8; program = a }) slots) }
    ensures last { (a b : ProgramUpdate) (slots found : StoredSlots)
        → MayBeFound (stores 5 9 b ∷ stores 5 8 a ∷ []) slots found → (found 5).serial ≡ 9 }
{}
