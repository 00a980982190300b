//! The calls that threads make of a server's parts, and the effects of these calls.
//!
//! `specs/Logged.antt` has a call with its arguments and its result, for each kind of call in a
//! thread's log. `specs/Doings.antt` has the effect of each kind of call: the part before, the
//! result, and the part after. Each call of a shard is a struct of its own ([`ShardCall`]).
//!
//! # What is proved
//!
//! - A request's job that takes a snapshot leaves its shard unchanged. A lease's job may change the
//!   shard, since the lease may have timed out.
//! - A call of a shard has the effect that is defined for it. The shard keeps its index, its eight
//!   slots and the time of its confirmable notifications. The sum of the slots' serials increases
//!   by the number of changes that the result reports. If this number is 0, no slot changes.
//!
//! By the contracts of `laws`, `ShardCall::call`, `Change::has_changed`.
#![tactic(auto)]

pub mod calls;
pub mod laws;

pub use calls::{Change, ShardCall};
