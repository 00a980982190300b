//! The jobs of a server by their stages, and the histories of a server.
//!
//! A [`Task`] is a job at a stage. Each of its steps calls the shard of the job's slot, or decides
//! without one, and leads to the next stage. `specs/` defines the history, the stages of jobs, the
//! changes of slots, and the permitted emissions of each event. A list of all events is judged by
//! these definitions. Each time is an argument; the crate has no clock.
//!
//! # What is proved
//!
//! - Each event changes a job as defined for the job's stage.
//! - A snapshot of a task is that of its job's slot. The answer of a task's run is the one that the
//!   program means for the request, the variables and the readings of the snapshot.
//! - An image is verified before its program is installed. An image that isn't accepted calls no
//!   shard.
//!
//! By the contracts of `Task`, `run_and_commit`, `verify_and_install`.
#![tactic(auto)]

pub mod event;
pub mod stage;
pub mod task;

pub use event::Event;
pub use stage::{Stage, Step, Task, TurnStep};
