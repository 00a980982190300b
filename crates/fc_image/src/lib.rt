//! Images of programs: the header, and the control-flow checks.
//!
//! The checks cover jumps, functions and frames, counted loops, and the longest path.
//!
//! ```rust
//! use fc_image::Head;
//! use fc_isa::{Fault, ImageVersion};
//!
//! /// Returns the header of a program of two slots, without variables, and two steps.
//! fn header() -> Result<[u8; 16], Fault> {
//!     Ok(Head::new(0, 2, 2, ImageVersion::One)?.bytes())
//! }
//! ```
//!
//! # What is proved
//!
//! - The header's rules are checked in their order, with the limits of the version that the magic
//!   names. Version 1 allows 512 slots and four frames, and version 2 allows 1,024 and eight
//!   (`slots_allowed`, `frames_allowed`).
//! - The limits of each version are stated in literals: slots, stack frames, loops and their
//!   bounds.
//! - The encoding of a header is parsed as that header. An accepted header is encoded as the bytes
//!   that were parsed.
//! - The rules of the control flow are checked in their order, for all instructions including
//!   calls, in version 2 with counted loops. The cost is the greatest number of steps on any path
//!   from slot 0 to the exit. A path runs through a body as many times as its loop has iterations.
//! - For a jump back that isn't a counted loop's, the reason is returned. It is a missing part of
//!   the form, or the slot that disturbs the loop, and how.
//! - A jump is that of a counted loop exactly if it and the addition before it have the form that
//!   `laws` states in literals. An accepted program has the loops that such jumps form. Any two of
//!   them are nested or apart.
//!
//! By the contracts of `head`, `Head::new`, `Head::bytes`, `shape`, `why_uncounted`, `laws`.
#![tactic(auto)]

pub mod control_flow;
mod cost;
mod flow;
mod functions;
pub mod head_table;
pub mod header;
pub mod laws;
pub mod limits;
pub mod loops;
mod spans;
pub mod table;
pub mod uncounted;

pub use control_flow::shape;
pub use head_table::loops_by_head;
pub use header::{HEADER_SIZE, head};
pub use limits::Head;
pub use table::MOST_SLOTS;
