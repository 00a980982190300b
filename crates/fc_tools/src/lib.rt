//! The `fcasm` commands: assemble, disassemble, verify and explain, and run.
//!
//! # What is proved
//!
//! - An image consists of a header of the requested version and the slots of the source's program.
//!   Its budget is the given budget, or the steps of the longest path.
//! - A disassembly is that of the program that the image's slots encode, also with slot numbers.
//! - The diagnosis of a refused image is a fault that the verifier may report, with the evidence
//!   for its rule. For V06 to V10 that is the slot's bytes. For V11 to V14 and V17 it is the slot's
//!   instruction, and for a backward jump (V12) also why it isn't that of a counted loop. For V16
//!   it is the cost, exactly if no rule of the control flow is broken with a budget of 65,536. For
//!   V20 to V28 it is the slot's instruction, the registers' abstract values before it, and the
//!   precondition that doesn't hold. The registers in the explanation decide whether the
//!   instruction's preconditions hold.
//! - A run's report is that of the meaning of the program, request, readings and variables.
//! - A digest is the SHA-256 (FIPS 180-4) of all bytes of the image, in 64 lowercase hex digits.
//!   `fcasm digest` prints it in a line for an input of at most 524,296 bytes. It refuses a longer
//!   input, reads 524,297 bytes of it, and prints nothing.
//!
//! By the contracts of `assemble::image_of`, `priced_image_of`, `list::listing_of`,
//! `numbered_listing_of`, `diagnosis::diagnose`, `runner::report`, `digest::digest_of`, `digest`,
//! `streams::image_bytes`, `laws`.
#![tactic(auto)]

pub mod assemble;
pub mod budget;
pub mod check;
pub mod diagnosis;
pub mod digest;
pub mod error;
pub mod expand;
pub mod explain;
pub mod facts;
pub mod laws;
pub mod list;
mod loops;
pub mod numbered_listing;
pub mod reads;
pub mod rules;
pub mod run;
pub mod run_options;
pub mod runner;
pub mod streams;
pub mod version;
