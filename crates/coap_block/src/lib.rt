//! Block-wise transfers (RFC 7959): uploads in blocks, and bodies cut into blocks.
//!
//! [`Uploads`] stores the transfers in progress. [`Uploads::add`] joins a block to its transfer, or
//! returns the reason for its refusal. [`slice`] returns the block of a body that a GET requests.
//!
//! ```rust
//! use coap_block::{Added, Body, Uploads, slice};
//! use coap_msg::Endpoint;
//! use coap_opts::Block;
//!
//! /// Returns the body of a PUT for slot 2 after its last block.
//! fn upload(
//!     uploads: &mut Uploads,
//!     now: u64,
//!     from: Endpoint,
//!     block1: Option<Block>,
//!     payload: &[u8],
//! ) -> Option<Body> {
//!     match uploads.add(now, from, 2, block1, payload) {
//!         Added::Whole(body) => Some(body),
//!         _ => None,
//!     }
//! }
//!
//! /// Returns the bytes for a GET of this body, and whether more blocks follow.
//! fn answered(body: &[u8], block2: Option<Block>) -> Option<(&[u8], bool)> {
//!     let cut = slice(body, block2).ok()?;
//!     let more = cut.block.is_some_and(|block| block.more());
//!     Some((cut.bytes, more))
//! }
//! ```
//!
//! # What is proved
//!
//! - A block is joined to the transfer of its endpoint and slot, or is refused by the first check
//!   that fails; each refusal occurs exactly if its cause holds. A body of more than 8,208 bytes is
//!   refused.
//! - The stored bytes of an endpoint and slot are the payloads since its last block number 0,
//!   joined, whatever was added before. At most one transfer is stored for an endpoint and slot,
//!   and at most 16 in all.
//! - `held_at` returns how many transfers are in progress at a time.
//! - A body is cut as the requested block says, and the blocks of one size joined are the body.
//!
//! By the contracts of `Uploads::add`, `held_at`, `slice`, `laws`.
#![tactic(auto)]

pub mod cut;
pub mod laws;
pub mod transfer;
pub mod uploads;

pub use cut::{Cut, PastEnd, slice};
pub use transfer::{Body, Transfer};
pub use uploads::{Added, Uploads};
