//! The client: command line, requests, observations, pings and their output.
//!
//! The server and the resource of a target are read by `coap_uri`.
//!
//! # What is proved
//!
//! - The operation of a command line, from the words that clap found. A request has a method, a
//!   target, a port, `-N`, `--text`, a body (`-n`, `-e`, `-f` or standard input), the body's
//!   Content-Format and an output file. An observation has a target, a port, `--text`, `--count`
//!   and `--seconds`. A ping has a target and a port. Words that don't go together give the reason.
//!   A GET or a DELETE whose body would be read from a terminal has no body.
//! - A client that prints a response has it from the server at its target's address. The client
//!   requested the target's resource, with its query, by the method, the type and the bytes of its
//!   input. The first of its message IDs is two random bytes. Its status is that of the response's
//!   class. With a file for the response, the bytes of a success are written to that file. Any
//!   other response is printed, and the file isn't changed.
//! - A client without a response stops for one of these reasons, which determines its status. The
//!   target is not an address, or it names no resource. The body can't be read, or random bytes
//!   can't be drawn. The request doesn't fit in a datagram, and then nothing was called. The fetch
//!   failed as `coap_client::fetch` does, at the server that was connected to. Or the client
//!   couldn't connect.
//! - A client has another status only if the reason can't be written, or if a response came and
//!   can't be written.
//! - An input that isn't the body isn't read.
//! - A ping is done only if the client connected to the server at its endpoint, and that server
//!   rejected the ping by a Reset message. Otherwise it stops for a reason of the same kind.
//! - An observer that ends has observed at its target's address, with a token and a message ID of
//!   random bytes, for `--count` lines and `--seconds` seconds. Otherwise it stops for a reason of
//!   the same kind. If the reason is a failed observation, the deregistration is as described
//!   below.
//! - The printed form of a response, in hex or as text. The client is done only at a success.
//! - An observer renders each note of a list, once, and writes nothing else. Its registration was
//!   sent, and each note came with its token. Each state is newer than the one before it (RFC 7641,
//!   section 3.4). No message is a duplicate, by its message ID within 247 s, of one before it.
//!   Each can be shown, and each but the last is a state.
//! - A note whose message is whole has one line. A state of several blocks ends in one of three
//!   ways. Its blocks, which were requested one after the other, are joined in one line. Or a newer
//!   notification arrived before they were whole; it has no line, and that notification is the next
//!   note, unless the time is over. Or they can't be fetched, and standard error has a line with
//!   the reason, which follows from the last message. After these lines, standard error has one
//!   more if the last response is a success without a sequence number. No clause says what
//!   standard error has if the observation fails.
//! - An observation that ends by its count has printed exactly that many lines, and one that ends
//!   by its time has printed fewer. In both cases the last message is a state as well, and the
//!   deregistration was sent and acknowledged. Otherwise the last is an error or has no sequence
//!   number.
//! - Between the registration and the deregistration an observer begins waits and receives. It
//!   sends only the acknowledgement of each confirmable notification, and requests for further
//!   blocks. With `--seconds S` it begins one wait, of S seconds, and one of what is left of them,
//!   rounded up, after the requests for each state of several blocks. The observation ends by its
//!   time only if its wait is over, if nothing was left after such requests, or after at least
//!   2^64 - 1 calls on the peer. Without it, each wait is of a day, and none ends the observation
//!   before 2^64 - 1 waits. After the deregistration, or an error or a response without a sequence
//!   number, nothing is called.
//! - An observation fails for one of these reasons. No response, or a Reset message, came to its
//!   registration or its deregistration. The message that came last can't be shown. Memory for a
//!   newer state can't be allocated. The line of the last note can't be printed, or the line about
//!   its missing blocks can't be written. Memory for a request can't be allocated, and nothing was
//!   called. Or a call of the peer failed. While further blocks of the last note are requested, it
//!   fails if a notification can't be shown, for memory, or by its peer; no clause says which calls
//!   were made since that note then, nor that memory was exhausted.
//!   Even then its deregistration was passed to the peer, unless nothing was called, or the
//!   registration was rejected or got no response. The deregistration was sent until it was
//!   acknowledged or rejected, or by its whole schedule, unless a call of the peer failed.
//! - A request has the method, the type (`-N`), the resource and the body that its options contain.
//!   A request that doesn't fit in a datagram isn't sent. The errors of a request are those of a
//!   fetch. The body is the input to its end.
//! - The contract doesn't say that each newer message that came is printed. Tests check that
//!   [`System`] connects and draws as documented.
//!
//! By the contracts of `operation_of`, `Asking::at_terminal`, `asking::ask_by`,
//! `printer::write_answer`, `write_note`, `client::fetch_by`, `fetch_to_by`, `fetch_from`,
//! `ping::ping_by`, `body_of`, `print_answer`, `observer::observe_by`,
//! `NotePrinter::print_notes`, `print_to_end`; `laws`.
#![tactic(auto)]

pub mod asking;
pub mod client;
pub mod connector;
pub mod console;
pub mod late_file;
pub mod laws;
pub mod observer;
pub mod operation;
pub mod ping;
pub mod printer;
mod rendering;
mod waits;

pub use client::{FetchOptions, fetch};
pub use connector::{Connector, System};
pub use console::Console;
pub use observer::{Observing, observe};
pub use operation::{Asking, BodySource, Operation, operation_of};
pub use ping::Pinging;
pub use printer::Shown;
