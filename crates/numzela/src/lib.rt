//! Numzela as a library for C: programs alone, and a single-threaded server.
//!
//! The library has no socket, no clock and no thread. `include/numzela.h` documents each call for
//! C. A handle is a struct in the caller's memory. A handle is empty at first, and later owns a box
//! allocated by `malloc`. No call keeps a pointer that is passed to it.
//!
//! # What is proved
//!
//! - **Loading**: a handle that is loaded holds the program of an image that the verifier accepts,
//!   and the verdict is this program's. The verdict on a refused image is a rule that the image
//!   breaks, the slot that breaks it, and zeros. If the call fails, the handle is unchanged.
//! - **Running**: the code, the reply, the variables, the notify flag and the steps are those of
//!   the program's meaning for this request, sensor input and variables. They don't depend on
//!   earlier runs in the frame. No byte after the reply is written. The program and the frame stay
//!   in their handles. If a handle is empty or a length is out of its range, nothing is written.
//! - **A frame** holds the machine's state, in which any program runs. A handle that has a frame
//!   isn't given another frame.
//! - **A server** begins with the serial, the message ID and the policy of its configuration, if
//!   the configuration is valid.
//! - **Receiving**: the server handles a datagram as the engine of `fc_server` does, whatever the
//!   history so far. If the engine sends an emission, just this emission is written.
//! - **Polling**: the steps are those of `fc_server`'s `Flushing`. `NUMZELA_SEND` guarantees that
//!   one step sent just the written datagram, and the other steps nothing. `NUMZELA_OK` guarantees
//!   that nothing was sent. `NUMZELA_OK` also guarantees that no work is left, no message ID was
//!   available, or 8,192 steps were taken (`AreFlushed`).
//! - **A deadline** is a time before which the shards have nothing to do. No contract says that the
//!   deadline is the latest such time, so 0 would meet the contract. The script of
//!   `tests/c-library` checks that the deadline is later than the time of the last poll.
//! - **Buffers**: a call doesn't write to its arguments unless its status says that they are
//!   written. A written size is exactly the number of written bytes.
//! - **Statuses**: each call returns one of the statuses that the header lists for this call. The
//!   statuses have the header's numbers.
//! - **Ownership**: a handle owns the box at its pointer, or nothing, before and after each call.
//!   So nothing is freed twice, or used after it was freed.
//! - Not proved, since C code isn't: that a caller passes pointers as the header says, and leaves
//!   the fields of a handle alone.
//!
//! By the contracts of `numzela_program_load`, `numzela_frame_new`, `numzela_program_run`,
//! `numzela_server_new`, `numzela_server_receive`, `numzela_server_poll`, `numzela_server_advance`,
//! `numzela_server_deadline`, `laws`.
#![tactic(auto)]

pub mod config;
pub mod frame;
pub mod laws;
mod loose;
pub mod program;
pub mod server;
pub mod status;
pub mod text;
