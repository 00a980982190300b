//! The verifier: accepts exactly the images that keep the rules and have a typing.
//!
//! One of the rules is that the longest path is within the budget. The typing is of the program's
//! registers.
//!
//! No check can fail while an accepted program runs.
//!
//! ```rust
//! use fc_verify::{Refusal, verify};
//! use std::alloc::Global;
//!
//! /// Returns the maximum number of steps of an accepted image's program.
//! fn cost_of(alloc: Global, image: &[u8]) -> Result<u32, Refusal> {
//!     let program = verify(alloc, image)?;
//!     Ok(program.cost())
//! }
//! ```
//!
//! # What is proved
//!
//! - An image is acceptable exactly if it keeps every rule of its version, costs no more than its
//!   budget, and has some typing. At the head of a counted loop the typing holds in each iteration.
//!   At the entry R4 is unset in version 1. In version 2 it points to the readings: a store through
//!   that pointer is refused, and a load within its 64 bytes is not.
//! - Short programs show which registers a program may use at its entry, and how far it may read
//!   and write from each.
//! - An accepted image is acceptable. Each refusal names the first broken rule and its slot, or
//!   reports that memory can't be allocated. The latter is reported only for an image whose header
//!   keeps its rules. If only the typing is missing, the refusal names some slot of the program.
//!   `pass::typed` then returns the registers' abstract values at the slot and the precondition
//!   that doesn't hold: the instruction's own, a number in a loop's body, or a loop's counter below
//!   its bound.
//! - An accepted program runs to its exit within its budget for every request. Each typed program
//!   runs to its exit in at most the steps of its longest path, which count all iterations of its
//!   loops.
//! - An accepted program has one operation for each slot, which executes the slot's instruction.
//!   The operation executes the next instruction too exactly if the two are one of six pairs, and
//!   the next one isn't the first of another pair.
//!
//! By the contracts of `verify`, `pass::typed`, `Verified::ops`, `laws::judgement_is_right`,
//! `laws::judgement_is_only`, `laws::typings_are_found`, `laws::accepted_programs_run`,
//! `laws::typed_programs_end`, `laws::pairs_are_these`,
//! `laws::programs_reach_what_the_entry_holds`.
#![tactic(auto)]

pub mod laws;
pub mod lowering;
pub mod op;
pub mod pass;
pub mod refusal;
mod settling;
pub mod untyped;
pub mod verified;
pub mod verifier;

pub use op::Op;
pub use refusal::Refusal;
pub use untyped::{Demand, Untyped};
pub use verified::Verified;
pub use verifier::verify;
