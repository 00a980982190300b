//! A block-wise upload of one body.
ghost use Rattle.std.specs.Prelude.{◌≡◌};
ghost use Rattle.coap_block.specs.Uploads.{is_transfer_of, is_under_way};

use arrayvec::ArrayVec;
use coap_msg::{Endpoint, WINDOW};

/// Maximum length of a body, in bytes.
pub const BODY: usize = 8208;

/// The bytes of a body.
pub type Body = ArrayVec<u8, BODY>;

/// A transfer: an upload in blocks (RFC 7959, section 2.5).
///
/// It has the client's endpoint, the slot, the time of the latest block in milliseconds, and the
/// payloads so far, joined.
#[derive(Drop)]
pub struct Transfer {
    pub endpoint: Endpoint,
    pub slot: u8,
    pub at: u64,
    pub body: Body,
}

// Returns whether the latest block arrived less than EXCHANGE_LIFETIME before `now`.
pub(crate) fn is_under_way(now: u64, transfer: &Transfer) -> bool
    ensures { result ≡ is_under_way now transfer.now }
{
    now < transfer.at || now - transfer.at < WINDOW
}

// Returns whether the transfer has this endpoint and slot.
pub(crate) fn is_transfer_of(endpoint: Endpoint, slot: u8, transfer: &Transfer) -> bool
    ensures { result ≡ is_transfer_of endpoint slot transfer.now }
{
    transfer.endpoint == endpoint && transfer.slot == slot
}
