//! Published words of the 64 slots, which only increase, without locks.
//!
//! Each slot has one word. Each thread has a handle to the words.
//!
//! A thread loads and publishes words through a [`HeadSeat`] of its own. A handle's view is two
//! lists of 64 words: for each slot the greatest value that the handle has seen, and the greatest
//! that it published itself. Under every schedule a word is the greatest value published in any
//! view, or 0, and no view has seen a greater one (`specs/Heads.antt`, `AreGreatest`).
//!
//! There are two kinds of atomic step: a load, and a step that sets a word to the greater of two
//! numbers. Neither takes a lock or waits. The contracts don't say when a thread sees a word that
//! another published.
//!
//! ```rust
//! ghost use Rattle.std.specs.Prelude.{◌≡◌, ◌≤◌};
//!
//! use fc_heads::{HeadSeat, Heads};
//!
//! /// Publishes a word of slot 5, and loads it.
//! fn raise_and_peek(heads: &Heads, word: u64, seat: &mut HeadSeat) -> u64
//!     requires { seat.old.table ≡ heads.now }
//!     ensures { word ≤ result }
//! {
//!     heads.raise(5, word, seat);
//!     heads.peek(5, seat)
//! }
//! ```
//!
//! # What is proved
//!
//! - A load returns at least the greatest value of the word that the handle has seen. After a
//!   publication the handle has seen at least the published value. Two handles that exchange
//!   knowledge have then both seen the values that either had seen.
//! - Under every schedule a word is the greatest value that was published, or 0, and no view has
//!   seen a greater one.
//! - None of these calls takes a lock or waits.
//!
//! By the contracts of `Heads::peek`, `raise`, `meet`, `seat`, `new_seat`, `new`.
#![tactic(auto)]

pub mod heads;
mod steps;
pub mod view;

pub use heads::{HEAD_WORDS, HeadSeat, Heads};
