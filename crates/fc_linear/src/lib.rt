//! The law that the calls of many threads are one legal history.
//!
//! Each call has to be right for its part of the server and for its job. The operations of a
//! server's threads are a log, in the order of their effects. The parts of the server are the
//! front, each of the eight shards, and the head words. The operations of each part lead it from
//! its first state to its last. The operations of each job are those that its stages need. By the
//! law the whole log is then a legal history, as the contract of `run_world` states one. Its front,
//! slots, observers and head words are those of the server (`specs/Parts.antt`).
//!
//! # What is proved
//!
//! - A new server is the one that its history begins with. Its slots are empty, or restored from
//!   stored states.
//! - A log that is right by parts and by jobs continues each history that leaves its first server
//!   without jobs. The longer history is legal, and each snapshot in it that found a program has a
//!   meaning. The server's front, slots and head words are those of the longer history.
//! - A log that is right from a server that a history leaves continues this history. The longer
//!   history leaves the server to which the log leads. Reads of costs, skips and calls for readings
//!   are no events.
//! - An image that isn't installed is one of the job that it names. It isn't a call of a part of
//!   the server.
//! - An update that fails to be saved is one of its job's slot, at the stage of the change. That of
//!   an install has the job's image, and that of a commit the variables that the run left. It is an
//!   operation of the slot's shard, and leaves the shard unchanged. A change that was made can't
//!   fail to be saved.
//!
//! A server's threads make such a log. The book of [fc_filed](../../fc_filed/src/lib.rt) provides
//! one order of all filed calls, which is right for each part. The workers and the dispatcher of
//! `fc_workers` keep each job's track right. So the order is legal
//! (`right_tracks_make_a_legal_order` of `fc_locked`), and `run_pool` of `fc_pool` guarantees that
//! the calls of a pool are one legal history.
//!
//! By the contracts of `laws`.
#![tactic(auto)]

pub mod laws;
