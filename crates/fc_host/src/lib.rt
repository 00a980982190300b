//! The host of a server: its clock, a file of sensor readings, and sockets.
//!
//! When lines are played, a scripted host replaces these.
//!
//! ```rust
//! use fc_backend::CallLog;
//! use coap_msg::Endpoint;
//! use fc_host::socket::{BUFFER, Receiving, SHORTEST_WAIT, Source, open};
//! use std::io;
//! use std::net::{Net, SocketAddrV4};
//!
//! /// Returns the sender of a datagram received within 100 ms, if there is one.
//! fn first_sender<R: Net>(rt: &R, address: SocketAddrV4) -> io::Result<Option<Endpoint>> {
//!     let socket = open(rt, address)?;
//!     let mut buffer = [0; BUFFER];
//!     match Receiving::new(&socket).receive(Some(SHORTEST_WAIT), &mut buffer, &mut CallLog::new()) {
//!         Some((_count, from)) => Ok(Some(from)),
//!         None => Ok(None),
//!     }
//! }
//! ```
//!
//! # What is proved
//!
//! - **Readings** are some time in eight bytes, least significant first, and the sensor readings.
//!   These are zeros if there are no sensors. The bytes read from a file are those of one call of
//!   its reader, at most 56; zeros follow them.
//! - **A datagram** that is received is at the start of its buffer. The buffer has 1,281 bytes, one
//!   more than a datagram may have (`laws`). A source whose receives are known gives the timeout of
//!   each, and the datagram received. The receives of a real socket are unknown.
//! - **An endpoint** has the address and the port of the socket address that a datagram came from.
//!   A reply is sent to the address and the port of its endpoint.
//! - **A reply** that a workers' transmitter sends is passed to its sink, once, with the
//!   transmitter's log. The sink returns whether the reply was sent. If a job ends, nothing is
//!   passed.
//! - **A timer** is first due one period after the start, and then at its beats: missed beats are
//!   skipped, and the next beat is later than the present time (`laws`).
//! - **Tested, not proved**: a time is the clock's, and a random word is its low bits. A file is
//!   read again. A socket is opened at its address and port; tests show what it sends and how long
//!   it waits.
//! - **Not claimed**: that a scripted host returns the reply that was sent and the readings that
//!   were set.
//!
//! By the contracts of `clock::SensingDevice`, `sensors::NoSensors`, `read_sensed`,
//! `socket::Source`, `endpoint_of`, `address_of`, `Replying`, `Timer`, `timers::first_due`, `laws`.
#![tactic(auto)]

pub mod clock;
pub mod laws;
pub mod scripted;
pub mod sensors;
pub mod socket;
pub mod timer;
pub mod timers;
