//! The assembler's preprocessor, line for line.
//!
//! The preprocessor replaces labels, constants, names of helpers, hexadecimal numbers, characters
//! and texts by numbers that the assembler accepts.
//!
//! # What is proved
//!
//! - A source without `:`, `'`, `"`, `0x`, `.c` and possible calls by name is expanded to
//!   itself. Only its tabs and carriage returns become spaces.
//!
//! By the contracts of `expand`.
#![tactic(auto)]

mod constant;
pub mod expander;
pub mod form;
mod helper;
mod pieces;
mod plain;
pub mod words;

pub use expander::{ExpandError, expand};
pub use form::{BadForm, Form};
