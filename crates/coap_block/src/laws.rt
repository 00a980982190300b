//! Laws about the definitions. Each law is the contract of an empty function.
ghost use Rattle.std.specs.Prelude.{◌≡◌, ◌≢◌, ◌↔◌, ℕ, ◌+◌, ◌*◌, ◌<◌, ◌≤◌, false, true, List, None, Option, Some, filter, find, length, take};
ghost use Rattle.coap_msg.specs.declared.types.Endpoint.{Endpoint};
ghost use Rattle.coap_block.specs.declared.transfer.Transfer.{Transfer};
ghost use Rattle.coap_opts.specs.Values.{Place, block_size};
ghost use Rattle.coap_block.specs.Uploads.{Continues, IsBadLength, IsFull, IsIncomplete, IsTooLarge, IsWhole, add_of, after_block, block_added, is_transfer_of, live, same_key};
ghost use Rattle.coap_block.specs.Transfers.{Addition, transfers};
ghost use Rattle.coap_block.specs.UnderWay.{BeginsBehind, FitsBehind, HasLength, IsUnderWay, RisesTo, bytes_held, others_at};
ghost use Rattle.coap_block.specs.Causes.{FindsNoRoom, HasLargeSum, HasWrongLength, IsOutOfPlace};
ghost use Rattle.coap_block.specs.Cuts.{Part, cut_at};
ghost use Rattle.coap_block.specs.Pieces.{IsBlockOf, joined_cuts};

/// The stored bytes of an endpoint and slot are those of its transfer in progress.
///
/// The bytes are the payloads since the transfer's last block number 0, joined. The transfer is in
/// progress while its blocks fit and each arrives less than EXCHANGE_LIFETIME after the one before.
/// At most 16 transfers are stored.
pub fn transfers_are_payloads_joined()
    ensures held { (h : List Addition) (now : ℕ) (to : Endpoint) (n : ℕ) (body : List ℕ) →
        RisesTo now h →
        ((bytes_held now to n (transfers h) ≡ Some body) ↔ IsUnderWay now to n h body) }
    ensures few { (h : List Addition) → length (transfers h) ≤ 16 }
{}

/// A fitting block is joined to the payloads before it.
///
/// The result is the whole body exactly if the block fits and is the last one. The transfer
/// continues exactly if the block fits and more blocks follow.
pub fn blocks_that_fit_are_joined()
    ensures whole { (h : List Addition) (a : Addition) (b : Place) (body : List ℕ) → RisesTo a.at h →
        ((block_added (transfers h) a.at a.endpoint a.slot b a.payload ≡ IsWhole body)
        ↔ ((b.more ≡ false) × FitsBehind h a b body)) }
    ensures continues { (h : List Addition) (a : Addition) (b : Place) → RisesTo a.at h →
        ((block_added (transfers h) a.at a.endpoint a.slot b a.payload ≡ Continues)
        ↔ ((b.more ≡ true) × ((body : List ℕ) × FitsBehind h a b body))) }
{}

/// A block is refused if one of these causes holds, checked in this order:
///
/// 1. `IsFull`: the block starts a transfer while 16 or more others are in progress.
/// 2. `IsIncomplete`: the block doesn't begin at the end of the payloads before it.
/// 3. `IsBadLength`: the payload doesn't have the length of the block.
/// 4. `IsTooLarge`: all payloads together have more than 8,208 bytes.
pub fn refusals_have_causes()
    ensures full { (h : List Addition) (a : Addition) (b : Place) → b.number ≡ 0 → 16 ≤ others_at a h →
        block_added (transfers h) a.at a.endpoint a.slot b a.payload ≡ IsFull }
    ensures incomplete { (h : List Addition) (a : Addition) (b : Place) → RisesTo a.at h → b.number ≢ 0 →
        ((before : List ℕ) → BeginsBehind h a b before → ⊥) →
        block_added (transfers h) a.at a.endpoint a.slot b a.payload ≡ IsIncomplete }
    ensures length { (h : List Addition) (a : Addition) (b : Place) (before : List ℕ) → RisesTo a.at h →
        BeginsBehind h a b before → (HasLength b.more (block_size b.szx) (length a.payload) → ⊥) →
        block_added (transfers h) a.at a.endpoint a.slot b a.payload ≡ IsBadLength }
    ensures sum { (h : List Addition) (a : Addition) (b : Place) (before : List ℕ) → RisesTo a.at h →
        BeginsBehind h a b before → HasLength b.more (block_size b.szx) (length a.payload) →
        8208 < length before + length a.payload →
        block_added (transfers h) a.at a.endpoint a.slot b a.payload ≡ IsTooLarge }
{}

/// A block is refused for a reason exactly if the cause of that reason holds.
///
/// The causes are those of [`refusals_have_causes`].
pub fn refusals_have_only_their_causes()
    ensures full { (h : List Addition) (a : Addition) (b : Place) → RisesTo a.at h →
        ((block_added (transfers h) a.at a.endpoint a.slot b a.payload ≡ IsFull) ↔ FindsNoRoom h a b) }
    ensures incomplete { (h : List Addition) (a : Addition) (b : Place) → RisesTo a.at h →
        ((block_added (transfers h) a.at a.endpoint a.slot b a.payload ≡ IsIncomplete) ↔ IsOutOfPlace h a b) }
    ensures length { (h : List Addition) (a : Addition) (b : Place) → RisesTo a.at h →
        ((block_added (transfers h) a.at a.endpoint a.slot b a.payload ≡ IsBadLength) ↔ HasWrongLength h a b) }
    ensures sum { (h : List Addition) (a : Addition) (b : Place) → RisesTo a.at h →
        ((block_added (transfers h) a.at a.endpoint a.slot b a.payload ≡ IsTooLarge) ↔ HasLargeSum h a b) }
{}

/// At most one transfer is stored for an endpoint and slot.
pub fn transfers_have_one_key()
    ensures { (h : List Addition) (to : Endpoint) (n : ℕ) → length (filter (is_transfer_of to n) (transfers h)) ≤ 1 }
{}

/// A whole body has at most 8,208 bytes.
///
/// A payload without a block option is a whole body exactly if it has at most 8,208 bytes.
pub fn bodies_are_bounded()
    ensures most { (held : List Transfer) (now : ℕ) (to : Endpoint) (n : ℕ) (block : Option Place)
        (bytes body : List ℕ) →
        add_of held now to n block bytes ≡ IsWhole body → length body ≤ 8208 }
    ensures without { (held : List Transfer) (now : ℕ) (to : Endpoint) (n : ℕ) (bytes : List ℕ) →
        ((add_of held now to n None bytes ≡ IsWhole bytes) ↔ (length bytes ≤ 8208)) }
{}

/// A block doesn't change the transfers of other endpoints and slots.
///
/// Only time ends those transfers.
pub fn blocks_leave_other_transfers()
    ensures { (held : List Transfer) (at now : ℕ) (from to : Endpoint) (m n : ℕ) (b : Place)
        (bytes : List ℕ) → at ≤ now → same_key from m to n ≡ false →
        find (is_transfer_of to n) (live now (after_block held at from m b bytes))
        ≡ find (is_transfer_of to n) (live now held) }
{}

/// The blocks of one size, numbered from 0 and joined, are the body.
///
/// Each block except the last has exactly the block size, and its M bit is set. The last block's M
/// bit isn't set. There is no block exactly if it isn't the first and would begin at or past the
/// end.
pub fn cuts_joined_are_the_body()
    ensures joined { (body : List ℕ) (szx k : ℕ) →
        joined_cuts body szx k ≡ take (k * block_size szx) body }
    ensures each { (body : List ℕ) (szx k : ℕ) (part : Part) →
        cut_at body k szx ≡ Some part → IsBlockOf body k szx part }
    ensures none { (body : List ℕ) (szx k : ℕ) →
        ((cut_at body k szx ≡ None) ↔ ((0 < k) × (length body ≤ k * block_size szx))) }
{}
