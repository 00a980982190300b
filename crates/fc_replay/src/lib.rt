//! Replays of lists of events.
//!
//! A list of lines is parsed, the events are executed, and the results are printed.
//!
//! # What is proved
//!
//! If a replay ends with `Done`:
//!
//! - Each line of the list has the form of an event, except for a first line with the server's
//!   initial state.
//! - The events were executed in their order on one server. Exactly these lines were printed: for
//!   each event its emission or `none`, and then one for each slot whose serial is above 0.
//!
//! By the contracts of `replay`, `ListedEvent`, `slot_line`.
#![tactic(auto)]

pub mod parser;
pub mod printer;
pub mod replay;
