//! The assembler and the disassembler: instructions as text, one on each line.
//!
//! ```rust
//! use fc_asm::{AsmError, assemble, disassemble};
//! use std::alloc::Global;
//!
//! /// Returns a text without comments and blank lines, with single spaces between words.
//! fn lay_out(alloc: Global, text: &str) -> Result<String, AsmError> {
//!     let program = assemble(alloc, text)?;
//!     Ok(disassemble(alloc, &program)?)
//! }
//! ```
//!
//! # What is proved
//!
//! - A text gives its program, or has a fault: the first faulty line, with its first mistake. The
//!   order of mistakes is: A1 (the first word isn't the name of an instruction), A2 (operands too
//!   few, too many or of the wrong sort), A3 (a number out of range).
//! - The disassembly of a program is as the definitions state. Assembling it gives the program, for
//!   every program.
//!
//! By the contracts of `assemble`, `disassemble`.
#![tactic(auto)]

pub mod assembler;
pub mod disassembler;
pub mod error;
mod line;
mod mnemonic;
mod names;
mod operand;
pub mod vocabulary;

pub use assembler::assemble;
pub use disassembler::disassemble;
pub use error::{AsmError, Mistake};
