//! A single-threaded server, whose caller has the sockets, the clock and the device.
ghost use Rattle.std.specs.Prelude.{◌≡◌, ◌≤◌, ◌⊎◌, [], false, is_some, true, Option, Some, None, IfOk};
ghost use Rattle.fc_front.specs.Receiving.{emission_if};
ghost use Rattle.fc_server.specs.Serving.{Serves};
ghost use Rattle.fc_server.specs.States.{CanBegin, begin_of};
ghost use Rattle.numzela.specs.Configs.{begin_for, is_valid};
ghost use Rattle.numzela.specs.Servers.{HasAdvanced, HasBegun, HasDeadline, HasFlushed, HasPolled, HasPolledHeld, HasReceived, HasReceivedHeld, IsWritten, Writes};
ghost use Rattle.numzela.specs.Held.{boxed, loose_value};
ghost use Rattle.numzela.specs.declared.server.Serving.{Serving};

use crate::config::{Config, begin_for, is_valid};
use crate::loose::{Loose, Opaque};
use crate::status::{EMPTY, IN_USE, NO_MEMORY, OK, OUT_OF_RANGE, SEND};
use coap_msg::types::DATAGRAM;
use coap_msg::{Emission, Endpoint};
use fc_front::front::blank_emission;
use fc_help::Readings;
use fc_server::flush::{Flushing, STEPS, idle_until};
use fc_server::ingress::is_reply;
use fc_server::{Begin, Ingress, SingleThread};
use std::alloc::{AllocError, Global};
use std::marker::Model;
use std::mem::replace;

/// A server, and the memory for its emissions.
#[derive(Drop)]
pub struct Serving {
    alone: SingleThread,
    emission: Emission,
}

/// The handle of a server, which owns a box with the server, or nothing.
///
/// A handle of zeros is empty.
#[repr(C)]
#[derive(Drop)]
pub struct Server {
    at: *mut Opaque,
    held: bool,
    ghost value: { Option Serving },
}

impl Model for Server {
    ghost use Rattle.libc.specs.Heap.{chunk};
    ghost use Rattle.numzela.specs.Held.{owned};
    ghost use Rattle.numzela.specs.declared.server.Serving.{Serving};
    ghost use Rattle.numzela.specs.contracts.server.Serving.{the_row as serving-row};

    ghost also_owns = { λ p. owned chunk serving-row p.at p.held p.value };
}

impl Server {
    // Returns an empty handle, for `take` to leave.
    fn empty() -> Server
        ensures { result.value ≡ None }
    {
        Server {
            at: std::ptr::null_mut(),
            held: false,
        }
    }

    // Moves a box's pointer into a handle.
    fn hold(loose: Loose<Serving, Global>) -> Server
        ensures { result.value ≡ Some loose.value }
    {
        let Loose { at, alloc: _ } = loose;
        Server {
            at: at as *mut Opaque,
            held: true,
        }
    }

    // Moves a box's pointer out of a handle, or returns `None` if the handle is empty.
    fn release(self, alloc: Global) -> Option<Loose<Serving, Global>>
        ensures { loose_value result ≡ self.value }
    {
        let Server { at, held } = self;
        if held {
            Some(Loose {
                at: at as *mut Serving,
                alloc,
            })
        } else {
            None
        }
    }

    // Makes the handle of a server.
    fn of(serving: Box<Serving>) -> Server
        ensures { result.value ≡ Some serving.value }
    {
        Server::hold(Loose::of(serving))
    }

    // Returns the server that the handle holds, or `None` if the handle is empty.
    fn into_box(self, alloc: Global) -> Option<Box<Serving>>
        ensures { boxed result ≡ self.value }
    {
        match self.release(alloc) {
            Some(loose) => Some(loose.into_box()),
            None => None,
        }
    }

    // Takes the server out of the handle, which is then empty, or returns `None` if the handle was
    // empty. A call that uses the server puts it back.
    fn take(&mut self, alloc: Global) -> Option<Box<Serving>>
        ensures held { boxed result ≡ self.old.value }
        ensures now { self.new.value ≡ None }
    {
        replace(self, Server::empty()).into_box(alloc)
    }

    // Puts a server into the handle, which `take` has left empty.
    fn put(&mut self, serving: Box<Serving>)
        ensures { self.new.value ≡ Some serving.value }
    {
        *self = Server::of(serving);
    }
}

/// A UDP endpoint: an IPv4 address and a port.
///
/// The address has four bytes in network order.
#[repr(C)]
#[derive(Clone, Copy)]
pub struct Peer {
    pub address: [u8; 4],
    pub port: u16,
}

/// A datagram to send.
#[repr(C)]
#[derive(Drop)]
pub struct Datagram {
    pub to: Peer,
    pub size: u16,
    pub bytes: [u8; DATAGRAM],
}

/// Makes a server of empty slots in an empty handle.
///
/// Returns `OK`, `OUT_OF_RANGE` if the configuration isn't valid, `NO_MEMORY` if memory can't be
/// allocated, or `IN_USE` if the handle isn't empty. Unless the result is `OK`, the handle is
/// unchanged.
#[unsafe(no_mangle)]
pub extern "C" fn numzela_server_new(alloc: Global, server: &mut Server, config: &Config) -> u32
    ensures ok { result ≡ OK → HasBegun config.now server.new.value }
    ensures range { result ≡ OUT_OF_RANGE → is_valid config.now ≡ false }
    ensures kept { (result ≡ OK → ⊥) → server.new.value ≡ server.old.value }
    ensures empty { (result ≡ IN_USE → ⊥) → server.old.value ≡ None }
    ensures in_use { result ≡ IN_USE → is_some server.old.value ≡ true }
    ensures status { (result ≡ OK) ⊎ (result ≡ OUT_OF_RANGE) ⊎ (result ≡ NO_MEMORY) ⊎ (result ≡ IN_USE) }
{
    if let Some(serving) = server.take(alloc) {
        server.put(serving);
        return IN_USE;
    }
    if !is_valid(config) {
        return OUT_OF_RANGE;
    }
    match make_serving(alloc, &begin_for(config)) {
        Ok(serving) => {
            server.put(serving);
            OK
        }
        Err(AllocError) => NO_MEMORY,
    }
}

// Makes a server in a box. Returns an error if memory can't be allocated.
fn make_serving(alloc: Global, begin: &Begin) -> Result<Box<Serving>, AllocError>
    requires { CanBegin begin.now }
    ensures { IfOk result (λ made. Serves (begin_of begin.now) made.value.alone.engine []) }
{
    let alone = SingleThread::new(alloc, begin)?;
    let emission = blank_emission();
    match Box::new(alloc, Serving { alone, emission }) {
        Ok(serving) => Ok(serving),
        Err(_) => Err(AllocError),
    }
}

/// Receives a datagram, handles it, and writes the response if there is one.
///
/// The time is in milliseconds, and `readings` is the sensor input. Returns `SEND` if a response
/// was written, `OK` if there is none, and `EMPTY` if the handle is empty. Unless the result is
/// `SEND`, `out` is unchanged.
#[unsafe(no_mangle)]
pub extern "C" fn numzela_server_receive(
    alloc: Global,
    server: &mut Server,
    now: u64,
    from: &Peer,
    bytes: &[u8],
    readings: &Readings,
    out: &mut Datagram,
) -> u32
    ensures received { (result ≡ EMPTY → ⊥)
        → HasReceivedHeld readings.now now from.now bytes.entry server.old.value server.new.value result out.new }
    ensures empty { result ≡ EMPTY → (server.old.value ≡ None) × (server.new.value ≡ None) }
    ensures unwritten { (result ≡ SEND → ⊥) → out.new ≡ out.old }
{
    let Some(mut serving) = server.take(alloc) else {
        return EMPTY;
    };
    let status = serving.receive(now, from, bytes, readings, out);
    server.put(serving);
    status
}

/// Performs the pending work, up to the next datagram to send.
///
/// The datagram, a retransmission or a notification, is written. The time is in milliseconds. The
/// jobs get `readings` as their sensor input, and `random`. Returns `SEND` if a datagram was
/// written, else `OK`, or `EMPTY` if the handle is empty. Unless the result is `SEND`, `out` is
/// unchanged. The caller polls again after each `SEND`.
#[unsafe(no_mangle)]
pub extern "C" fn numzela_server_poll(
    alloc: Global,
    server: &mut Server,
    now: u64,
    random: u16,
    readings: &Readings,
    out: &mut Datagram,
) -> u32
    ensures polled { (result ≡ EMPTY → ⊥) → HasPolledHeld readings.now now random server.old.value server.new.value result out.new }
    ensures empty { result ≡ EMPTY → (server.old.value ≡ None) × (server.new.value ≡ None) }
    ensures unwritten { (result ≡ SEND → ⊥) → out.new ≡ out.old }
{
    let Some(mut serving) = server.take(alloc) else {
        return EMPTY;
    };
    let status = serving.poll(now, random, readings, out);
    server.put(serving);
    status
}

/// Advances the server's clock, in milliseconds, if no datagram was received.
///
/// Returns `OK`, or `EMPTY` if the handle is empty.
#[unsafe(no_mangle)]
pub extern "C" fn numzela_server_advance(alloc: Global, server: &mut Server, now: u64) -> u32
    ensures ok { (result ≡ EMPTY → ⊥) → (result ≡ OK) × HasAdvanced now server.old.value server.new.value }
    ensures empty { result ≡ EMPTY → (server.old.value ≡ None) × (server.new.value ≡ None) }
{
    let Some(mut serving) = server.take(alloc) else {
        return EMPTY;
    };
    serving.alone.tick(now);
    server.put(serving);
    OK
}

/// Writes a time in milliseconds before which there is nothing to do.
///
/// A datagram that is received may change this time. The time 2^64 - 1 means that there is never
/// anything to do. Returns `OK`, or `EMPTY` if the handle is empty; then `deadline` is unchanged.
#[unsafe(no_mangle)]
pub extern "C" fn numzela_server_deadline(
    alloc: Global,
    server: &mut Server,
    deadline: &mut u64,
) -> u32
    ensures ok { (result ≡ EMPTY → ⊥) → (result ≡ OK) × HasDeadline server.old.value server.new.value deadline.new }
    ensures empty { result ≡ EMPTY → (server.old.value ≡ None) × (server.new.value ≡ None) × (deadline.new ≡ deadline.old) }
{
    let Some(serving) = server.take(alloc) else {
        return EMPTY;
    };
    *deadline = idle_until(&serving.alone);
    server.put(serving);
    OK
}

/// Frees the server of a handle, and leaves the handle empty.
///
/// An empty handle stays empty.
#[unsafe(no_mangle)]
pub extern "C" fn numzela_server_free(alloc: Global, server: &mut Server)
    ensures { server.new.value ≡ None }
{
    let _freed = server.take(alloc);
}

impl Serving {
    // Handles a datagram, for `numzela_server_receive`. Returns `SEND` if a response was written
    // over `out`, otherwise `OK`.
    fn receive(
        &mut self,
        now: u64,
        from: &Peer,
        bytes: &[u8],
        readings: &Readings,
        out: &mut Datagram,
    ) -> u32
        ensures received { HasReceived readings.now now from.now bytes.entry self.old.alone.engine self.new.alone.engine result out.new }
        ensures status { result ≤ 1 }
        ensures unwritten { (result ≡ SEND → ⊥) → out.new ≡ out.old }
    {
        let endpoint = Endpoint {
            ip: from.address,
            port: from.port,
        };
        self.alone.set_handed(readings, 0);
        let handled = self.alone.handle(now, endpoint, bytes, &mut self.emission);
        write_if(is_reply(handled), &self.emission, out)
    }

    // Performs the pending work, for `numzela_server_poll`. Returns `SEND` if a datagram was
    // written over `out`, otherwise `OK`.
    fn poll(&mut self, now: u64, random: u16, readings: &Readings, out: &mut Datagram) -> u32
        ensures polled { HasPolled readings.now now random self.old.alone self.new.alone result out.new }
        ensures status { result ≤ 1 }
        ensures unwritten { (result ≡ SEND → ⊥) → out.new ≡ out.old }
    {
        self.alone.set_handed(readings, random);
        self.flush(now, out)
    }

    // Takes the pending steps at the time `now`, up to the first step that sends. Returns `SEND` if
    // a datagram was written over `out`. Otherwise returns `OK`: no work is left, no message ID was
    // available, or `STEPS` steps were taken.
    fn flush(&mut self, now: u64, out: &mut Datagram) -> u32
        ensures flushed { HasFlushed now self.old.alone self.new.alone result out.new }
        ensures status { result ≤ 1 }
        ensures unwritten { (result ≡ SEND → ⊥) → out.new ≡ out.old }
    {
        let mut flushing = Flushing::begin(&mut self.alone, now);
        'steps: for taken in 0..STEPS {
            if flushing.is_at_end() {
                return OK;
            }
            if flushing.step(&mut self.alone, now, &mut self.emission) {
                write_datagram(&self.emission, out);
                return SEND;
            }
        }
        OK
    }
}

// Writes an emission over `out` if it is to be sent. Returns `SEND` if so, otherwise `OK`.
fn write_if(sent: bool, emission: &Emission, out: &mut Datagram) -> u32
    ensures writes { Writes result (emission_if sent emission.now) out.new }
    ensures status { result ≤ 1 }
    ensures unwritten { (result ≡ SEND → ⊥) → out.new ≡ out.old }
{
    if !sent {
        return OK;
    }
    write_datagram(emission, out);
    SEND
}

// Writes the receiver, the size and the bytes of an emission over `out`.
fn write_datagram(emission: &Emission, out: &mut Datagram)
    ensures { IsWritten emission.now out.new }
{
    let bytes = emission.bytes.as_slice();
    out.to = Peer {
        address: emission.to.ip,
        port: emission.to.port,
    };
    out.size = bytes.len() as u16;
    out.bytes[..bytes.len()].copy_from_slice(bytes);
}
