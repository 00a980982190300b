//! BPF instructions and their encoding (RFC 9669); rules and faults of images.
//!
//! ```rust
//! use fc_isa::{DecodeError, Insn, decode};
//! use std::alloc::Global;
//!
//! /// Returns whether the bytes encode a program that ends with an exit.
//! fn ends_with_exit(alloc: Global, bytes: &[u8]) -> Result<bool, DecodeError> {
//!     let program = decode(alloc, bytes)?;
//!     Ok(matches!(program.last(), Some(Insn::Exit)))
//! }
//! ```
//!
//! # What is proved
//!
//! - For all 117 opcodes: a decoded program is the one that the bytes encode, and every encoded
//!   program is decoded. A fault is that of the first faulty slot, with the least rule that it
//!   breaks.
//! - `encode` returns the only bytes that encode a program.
//! - The table of opcodes has 117 known rows, and each of them determines the fields that are used.
//!
//! By the contracts of `decode`, `encode`, `is_program`, `SHAPES`, `laws`.
#![tactic(auto)]

pub mod decoder;
pub mod encoder;
mod fields;
pub mod insn;
pub mod laws;
mod program;
pub mod rule;
pub mod shape;
mod table;
pub mod version;

pub use decoder::{DecodeError, decode};
pub use encoder::encode;
pub use insn::{
    AluOp, ByteOrder, Insn, Jump, LoadType, Operand, Reg, Relation, SignExtension, Size, SwapWidth,
    Target, UnaryOp, Width,
};
pub use program::is_program;
pub use rule::{Fault, Rule};
pub use shape::{Shape, SourceOperand, Uses};
pub use table::SHAPES;
pub use version::ImageVersion;
