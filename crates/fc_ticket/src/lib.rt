//! Jobs, their tickets, and the effects of a ticket's run on observers.
//!
//! The front makes a job of each request, and a shard makes one of each observer's lease. A
//! snapshot of the job's slot gives a ticket. The run of the ticket determines the job's response,
//! the notification of its lease, and whether the request's client observes the slot. Any caller
//! can write the data of a snapshot, so a commit compares the ticket with the slot.
//!
//! The crate also has the numbers of slots and the receipts of programs, which jobs and answers
//! name.
//!
//! No function allocates memory.
//!
//! # What is proved
//!
//! - A ticket has the data of its job: the origin, the lease and the request, with its token, block
//!   and Observe value. It also has the slot's serial, the program with version and variables, and
//!   the readings that were passed to the snapshot.
//! - An outcome is that of a ticket's run exactly if it is of the ticket's program, request,
//!   variables and readings, and the ticket's serial isn't above the slot's.
//! - A run that has nothing to write registers the client of a GET that has Observe 0 and names no
//!   later block, if it answers 2.05 (Content) and there is room. A GET with Observe 1 removes the
//!   client. No other run registers or removes a client.
//! - The notification of an active lease has the meaning of the run of the lease's ticket. If the
//!   lease's snapshot found the slot empty, the notification is 4.04. The notification ends the
//!   lease. A response that isn't 2.05 (Content) has no sequence number, and removes the observer.
//! - A lease that isn't active sends nothing. The ticket of another lease is refused.
//!
//! By the contracts of `SlotSnapshot::write`, `is_run_of`, `note`, `observe`, `laws`.
#![tactic(auto)]

pub mod job;
pub mod laws;
pub mod note;
pub mod observe;
pub mod receipt;
pub mod slot_number;
pub mod ticket;

pub use job::{Ask, InitialVars, Job, Opening, Origin};
pub use note::{NoteOutcome, Noted, Notification};
pub use receipt::Receipt;
pub use slot_number::{SHARDS, SLOTS, SlotNumber};
pub use ticket::{SlotSnapshot, Ticket};
