//! The transfers in progress, to which the server's front adds the blocks of PUTs.
ghost use Rattle.std.specs.Prelude.{◌≡◌, ◌≤◌, ◌<◌, [], ◌∷◌, ◌++◌, length, slice_index_or, IfOk, IfSome, vec_capacity};
ghost use Rattle.std.specs.List.{position, remove};
ghost use Rattle.coap_block.specs.declared.transfer.Transfer.{Transfer};
ghost use Rattle.coap_block.specs.Uploads.{add_of, after_add, after_block, before_of, block_added, body_behind, body_with, is_transfer_of, live};
ghost use Rattle.coap_block.specs.Places.{HasOneKey, IsPlaced};
ghost use Rattle.coap_block.specs.Views.{add_seen, joined_seen, refusal_seen};

use crate::transfer::{BODY, Body, Transfer, is_transfer_of, is_under_way};
use coap_msg::Endpoint;
use coap_opts::Block;
use std::alloc::{AllocError, Global};
use std::marker::Model;

/// Maximum number of transfers in progress.
pub const TRANSFERS: usize = 16;

/// The result for the payload of a PUT (RFC 7959, sections 2.5 and 2.9).
#[derive(Drop)]
pub enum Added {
    /// The block fits, and more blocks follow: 2.31 (Continue).
    Continue,
    /// The whole body: the block fits and is the last, or there is no Block1.
    Whole(Body),
    /// The block begins at a wrong place: 4.08 (Request Entity Incomplete).
    ///
    /// The right place is the sum of the payloads before it.
    Incomplete,
    /// The payload has a wrong length: 4.00 (Bad Request).
    ///
    /// If more blocks follow, the payload must have the block size; the last payload may be
    /// shorter.
    BadLength,
    /// The body has more than 8,208 bytes: 4.13 (Request Entity Too Large).
    TooLarge,
    /// A transfer starts while 16 others are in progress: 5.03 (Service Unavailable).
    Full,
}

// The reason why a payload is refused, as in `Added`.
enum UploadRefusal {
    Incomplete,
    BadLength,
    TooLarge,
    Full,
}

/// The transfers in progress, in the order of their latest blocks.
///
/// Times are in milliseconds.
#[derive(Drop)]
pub struct Uploads {
    held: Vec<Transfer>,
}

impl Model for Uploads {
    ghost use Rattle.std.specs.Prelude.{◌≤◌, List, length, vec_capacity};
    ghost use Rattle.coap_block.specs.declared.transfer.Transfer.{Transfer};
    ghost use Rattle.coap_block.specs.Places.{HasOneKey};

    ghost Value = { List Transfer };

    ghost view = { λ x. x.held.items };

    ghost invariant = { λ x. (length x.held.items ≤ 16) × (16 ≤ vec_capacity x.held) × HasOneKey x.held.items };
}

impl Uploads {
    /// Makes an empty table with room for 16 transfers.
    ///
    /// # Errors
    /// Returns `AllocError` if memory for the transfers can't be allocated.
    pub fn new(alloc: Global) -> Result<Uploads, AllocError>
        ensures { IfOk result (λ x. x ≡ []) }
    {
        Ok(Uploads {
            held: Vec::with_capacity(alloc, TRANSFERS)?,
        })
    }

    /// Joins the payload of a PUT to the transfer of its endpoint and slot.
    ///
    /// Returns [`Added::Continue`] if more blocks follow, and [`Added::Whole`] with the body after
    /// the last block. Without a block the payload is the whole body, and no transfer changes. The
    /// transfer ends with its last block, with a block that is refused, and once it is idle for
    /// 247,000 ms.
    ///
    /// The first of these conditions that holds refuses a block, and is the result:
    ///
    /// - [`Added::Full`]: a transfer starts while 16 others are in progress.
    /// - [`Added::Incomplete`]: the block doesn't begin at the sum of the payloads before it.
    /// - [`Added::BadLength`]: the payload has a wrong length.
    /// - [`Added::TooLarge`]: the body would have more than 8,208 bytes.
    pub fn add(
        &mut self,
        now: u64,
        endpoint: Endpoint,
        slot: u8,
        block1: Option<Block>,
        payload: &[u8],
    ) -> Added
        ensures added { add_seen result ≡ add_of self.old now endpoint slot block1 payload.now }
        ensures after { self.new ≡ after_add self.old now endpoint slot block1 payload.now }
    {
        match block1 {
            None => whole(payload),
            Some(block) => add_block(&mut self.held, now, endpoint, slot, block, payload),
        }
    }

    /// Returns how many transfers are in progress at `now`, and removes none.
    ///
    /// A transfer that was idle for 247,000 ms by then isn't in progress.
    pub fn held_at(&self, now: u64) -> usize
        ensures { result ≡ length (live now self.entry.now) }
    {
        self.held
            .iter()
            .filter(|transfer| is_under_way(now, transfer))
            .count()
    }
}

// Joins a block to its transfer for `add`, or removes the transfer and returns the refusal.
fn add_block(
    held: &mut Vec<Transfer>,
    now: u64,
    endpoint: Endpoint,
    slot: u8,
    block: Block,
    payload: &[u8],
) -> Added
    requires few { length held.old.items ≤ 16 }
    requires room { 16 ≤ vec_capacity held.old }
    requires single { HasOneKey held.old.items }
    ensures added { add_seen result ≡ block_added held.old.items now endpoint slot block payload.now }
    ensures after { held.new.items ≡ after_block held.old.items now endpoint slot block payload.now }
    ensures room { vec_capacity held.new ≡ vec_capacity held.old }
    ensures few { length held.new.items ≤ 16 }
{
    expire(held, now);
    let place = match place_for(held, now, endpoint, slot, block) {
        Ok(place) => place,
        Err(refusal) => return refused(refusal),
    };
    match join(&mut held[place], now, block, payload) {
        Ok(()) if block.more() => {
            move_last(held, place);
            Added::Continue
        }
        Ok(()) => Added::Whole(held.remove(place).body),
        Err(refusal) => {
            let _removed = held.remove(place);
            refused(refusal)
        }
    }
}

// Removes the transfers that were idle for EXCHANGE_LIFETIME.
fn expire(held: &mut Vec<Transfer>, now: u64)
    ensures held { held.new.items ≡ live now held.old.items }
    ensures room { vec_capacity held.new ≡ vec_capacity held.old }
    ensures fewer { length held.new.items ≤ length held.old.items }
{
    held.retain(|transfer| is_under_way(now, transfer));
}

// Returns the place of a block's transfer. A block with the number 0 starts the transfer, empty and
// in the last place, unless it is in progress. Returns `Full` if 16 others are in progress then.
// Returns `Incomplete` for a later block whose transfer isn't in progress.
fn place_for(
    held: &mut Vec<Transfer>,
    now: u64,
    endpoint: Endpoint,
    slot: u8,
    block: Block,
) -> Result<usize, UploadRefusal>
    requires few { length held.old.items ≤ 16 }
    requires room { 16 ≤ vec_capacity held.old }
    requires single { HasOneKey held.old.items }
    ensures place { IsPlaced held.old.items held.new.items endpoint slot block result }
    ensures room { vec_capacity held.new ≡ vec_capacity held.old }
    ensures few { length held.new.items ≤ 16 }
{
    if let Some(place) = place_of(held, endpoint, slot) {
        return Ok(place);
    }
    if block.number() > 0 {
        return Err(UploadRefusal::Incomplete);
    }
    let place = held.len();
    if place >= TRANSFERS {
        return Err(UploadRefusal::Full);
    }
    held.push_reserved(Transfer {
        endpoint,
        slot,
        at: now,
        body: Body::new(),
    });
    Ok(place)
}

// Returns the place of the transfer of this endpoint and slot, or `None` if there is none.
fn place_of(held: &[Transfer], endpoint: Endpoint, slot: u8) -> Option<usize>
    ensures place { result ≡ position (is_transfer_of endpoint slot) held.now }
    ensures within { IfSome result (λ i. i < length held.now) }
{
    held.iter()
        .position(|transfer| is_transfer_of(endpoint, slot, transfer))
}

// Moves the transfer at this place to the end of the list.
fn move_last(held: &mut Vec<Transfer>, place: usize)
    requires { place < length held.old.items }
    ensures held { (d : Transfer) → held.new.items
        ≡ remove held.old.items place ++ slice_index_or held.old.items place d ∷ [] }
    ensures room { vec_capacity held.new ≡ vec_capacity held.old }
    ensures few { length held.new.items ≡ length held.old.items }
{
    if place + 1 < held.len() {
        held[place..].rotate_left(1);
    }
}

// Appends a block's payload to its transfer, and sets the transfer's time to `now`. A block with
// the number 0 first removes the payloads so far. Returns `Incomplete` if the block doesn't begin
// at the sum of the payloads before it. Otherwise returns `BadLength` if the payload has a wrong
// length, or `TooLarge` if the body would have more than 8,208 bytes.
fn join(
    transfer: &mut Transfer,
    now: u64,
    block: Block,
    payload: &[u8],
) -> Result<(), UploadRefusal>
    ensures joined { joined_seen result transfer.new.body.items
        ≡ body_behind (before_of block.number (Some transfer.old)) block payload.now }
    ensures endpoint { transfer.new.endpoint ≡ transfer.old.endpoint }
    ensures slot { transfer.new.slot ≡ transfer.old.slot }
    ensures at { transfer.new.at ≡ now }
{
    transfer.at = now;
    if block.number() == 0 {
        transfer.body.clear();
    }
    let size = block.size();
    if block.number() as usize * size != transfer.body.len() {
        return Err(UploadRefusal::Incomplete);
    }
    if payload.len() > size || block.more() && payload.len() != size {
        return Err(UploadRefusal::BadLength);
    }
    append(&mut transfer.body, payload)
}

// Appends a payload to a body. Returns `TooLarge`, and appends nothing, if the body would then have
// more than 8,208 bytes.
fn append(body: &mut Body, payload: &[u8]) -> Result<(), UploadRefusal>
    ensures { joined_seen result body.new.items ≡ body_with body.old.items payload.now }
{
    if payload.len() > BODY - body.len() {
        return Err(UploadRefusal::TooLarge);
    }
    let _fits = body.try_extend_from_slice(payload);
    Ok(())
}

// Returns a payload without a block as the whole body, or `TooLarge` if it has more than 8,208
// bytes.
fn whole(payload: &[u8]) -> Added
    ensures { add_seen result ≡ body_with [] payload.now }
{
    let mut body = Body::new();
    match append(&mut body, payload) {
        Ok(()) => Added::Whole(body),
        Err(refusal) => refused(refusal),
    }
}

// Returns the result for a refused payload.
fn refused(refusal: UploadRefusal) -> Added
    ensures { add_seen result ≡ refusal_seen refusal }
{
    match refusal {
        UploadRefusal::Incomplete => Added::Incomplete,
        UploadRefusal::BadLength => Added::BadLength,
        UploadRefusal::TooLarge => Added::TooLarge,
        UploadRefusal::Full => Added::Full,
    }
}
