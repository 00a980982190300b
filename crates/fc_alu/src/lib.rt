//! Arithmetic and comparisons on 64-bit registers (RFC 9669, sections 4.1 to 4.3).
//!
//! `alu` computes an arithmetic instruction, and `truth` evaluates the condition of a conditional
//! jump. The interpreter's loop calls the functions that `alu` and `truth` use. At each such call
//! the operation and the width are constants.
//!
//! ```rust
//! use fc_alu::arithmetic;
//! use fc_isa::{AluOp, Width};
//!
//! /// Returns the remainder of two registers: the dividend itself if the divisor is 0.
//! fn remainder(dividend: u64, divisor: u64) -> u64 {
//!     arithmetic(AluOp::Mod, Width::W64, dividend, divisor)
//! }
//! ```
//!
//! # What is proved
//!
//! - Each arithmetic operation and each comparison, at 32 and at 64 bits, gives the value of its
//!   definition. The definitions use whole numbers, powers of two and remainders.
//! - `laws` has values in literals for every operation and comparison, at both widths and at the
//!   ends of each range. The values follow from the standard's sentences, and weren't computed from
//!   the definitions.
//!
//! By the contracts of `alu`, `truth`, `laws`.
#![tactic(auto)]

pub mod byte_order;
pub mod comparison;
pub mod instruction;
pub mod laws;
pub mod operation;
pub mod sign_extension;
pub mod unary_operation;

pub use byte_order::reorder;
pub use comparison::{compare, truth};
pub use instruction::alu;
pub use operation::arithmetic;
pub use sign_extension::sign_extend;
pub use unary_operation::{neg, unary};
