//! Semantics of programs, and the abstract values of registers.
//!
//! `specs/` has the machine (values, configurations, steps, the meaning of a run) and the typing
//! rules. The code computes the part of the typing rules that the verifier needs: the abstract
//! state after an instruction.
//!
//! ```rust
//! use fc_kinds::{Kind, Regs, join};
//!
//! /// Returns the abstract value of R0 at a join of two paths.
//! ///
//! /// Numbers of both are within the least interval that contains both.
//! fn met(mut state: Regs, other: &Regs) -> Kind {
//!     join(&mut state, other);
//!     state[0]
//! }
//! ```
//!
//! # What is proved
//!
//! - The state after every instruction, and the state on each branch of a jump, are computed as the
//!   definitions state.
//! - Joins are least. Transfer functions, branch refinement and call entry are monotone, and
//!   contain the results of the machine's step.
//! - A run has at most one meaning, and it is the program's meaning if the run exits within the
//!   budget. The reply's code is the method's success, 4.00, 4.03, 4.04 or 5.00. The numbers in R0
//!   that give each code are stated in literals.
//! - The value of each register at the entry is stated in literals. R4 is unset in version 1. In
//!   version 2 it points to the readings, which can be read and not written.
//!
//! By the contracts of `after`, `refine`, `join`, `enter`, `entry`, `laws`.
#![tactic(auto)]

mod arithmetic;
pub mod calls;
pub mod interval;
pub mod kind;
pub mod lattice;
pub mod laws;
mod memory;
mod operands;
mod pointers;
pub mod refinement;
pub mod transfer;

pub use calls::enter;
pub use kind::{Kind, Regs, entry};
pub use lattice::join;
pub use refinement::refine;
pub use transfer::after;
