//! The source and the sink of a server's datagrams: sockets, or a test's scripts.
ghost use Rattle.std.specs.Net.Addr.{ipv4_octets};
ghost use Rattle.std.specs.Net.Socket.{v4_ip, v4_port};
ghost use Rattle.std.specs.Prelude.{◌≡◌, ◌≤◌, ⊤, [], ◌∷◌, Bool, IfSome, List, None, Option, length};
ghost use Rattle.coap_msg.specs.declared.types.Emission.{Emission};
ghost use Rattle.fc_host.specs.Sockets.{Comes, IsHanded, Receive, incoming_in};
ghost use Rattle.fc_backend.specs.declared.call_log.CallLog.{CallLog as Log};

use coap_msg::types::DATAGRAM;
use coap_msg::{Emission, Endpoint};
use fc_backend::{CallLog, Wire};
use std::io;
use std::net::{Ipv4Addr, Net, SocketAddr, SocketAddrV4, UdpSocket};
use std::sync::Wait;
use std::time::Duration;

/// The shortest time that a receive waits for a datagram, in milliseconds.
///
/// If no datagram is received in this time, the server only advances its time.
pub const SHORTEST_WAIT: u64 = 100;

/// The length of a receive buffer, one byte more than a datagram may have.
///
/// A longer datagram fills the buffer, so it is recognised as too long and ignored.
pub const BUFFER: usize = DATAGRAM + 1;

/// A receive buffer.
pub type Buffer = [u8; BUFFER];

/// A source of datagrams.
pub trait Source {
    // The receives so far, if they are known. Each receive has its timeout and, if a datagram was
    // received, the part of the datagram that fitted the buffer.
    ghost came: { Self → Option (List Receive) } = { λ _. None };

    // A relation: the source was called for this receive, which led from the first state of the
    // caller's log to the second.
    ghost received: { Receive → Log → Log → Type 0 } = { λ receive before after. ⊤ };

    /// Waits `wait` milliseconds for a datagram, or without limit if `wait` is `None`.
    ///
    /// Writes the datagram to the start of `buffer`, and returns its number of bytes there and its
    /// sender. Bytes that don't fit the buffer are lost. Returns `None` if no datagram was received
    /// in time or if receiving failed.
    fn receive(
        &mut self,
        wait: Option<u64>,
        buffer: &mut Buffer,
        log: &mut CallLog,
    ) -> Option<(usize, Endpoint)>
        ensures fits { IfSome result (λ r. r.0 ≤ length buffer.new) }
        ensures given { Comes (came self.old) (came self.new) (record { wait = wait; came = incoming_in buffer.new result } ∷ []) }
        ensures logged { received (record { wait = wait; came = incoming_in buffer.new result }) log.old log.new };
}

/// A sink of datagrams.
pub trait Sink {
    // A relation: the datagram was passed to the sink, which returned whether it was sent. The call
    // led from the first state of the caller's log to the second.
    ghost went: { Emission → Bool → Log → Log → Type 0 } = { λ emission out before after. ⊤ };

    /// Sends a datagram, and returns whether it was sent.
    fn send(&self, emission: &Emission, log: &mut CallLog) -> bool
        ensures { went emission.now result log.old log.new };
}

/// A socket that datagrams are received from, and the timeout of its receives.
#[derive(Drop)]
pub struct Receiving<'a> {
    socket: &'a UdpSocket,
    wait: Option<u64>,
}

impl<'a> Receiving<'a> {
    /// Makes a source of a socket whose timeout of receives is 100 ms, as by [`open`].
    pub fn new(socket: &'a UdpSocket) -> Receiving<'a> {
        Receiving {
            socket,
            wait: Some(SHORTEST_WAIT),
        }
    }

    // Sets the timeout of receives, if it differs from the current one. If the system refuses the
    // new timeout, the current one stays, and the next receive tries to set its timeout again.
    fn set_wait(&mut self, wait: Option<u64>) {
        if self.wait != wait
            && self
                .socket
                .set_read_timeout(wait.map(Duration::from_millis))
                .is_ok()
        {
            self.wait = wait;
        }
    }
}

/// A source that receives from a real socket; contracts don't know its datagrams.
impl<'a> Source for Receiving<'a> {
    ghost received = { λ receive before after. after ≡ before };

    // Receives a datagram. Returns `None` if none was received in time, or if receiving failed. A
    // datagram from an IPv6 address is dropped, and the result is `None` too.
    fn receive(
        &mut self,
        wait: Option<u64>,
        buffer: &mut Buffer,
        log: &mut CallLog,
    ) -> Option<(usize, Endpoint)> {
        let _ = log;
        self.set_wait(wait);
        match self.socket.recv_from(buffer) {
            Ok((count, SocketAddr::V4(from))) => Some((count, endpoint_of(&from))),
            Ok((_, SocketAddr::V6(_))) | Err(_) => None,
        }
    }
}

impl Sink for UdpSocket {
    fn send(&self, emission: &Emission, log: &mut CallLog) -> bool {
        let _ = log;
        let to = address_of(emission.to);
        self.send_to(emission.bytes.as_slice(), to).is_ok()
    }
}

/// Binds a UDP socket at an address and a port of this host.
///
/// Port 0 requests a free port. The timeout of receives is 100 ms.
///
/// # Errors
/// Returns the system's error if the address isn't one of this host, if the port is used or not
/// permitted, or if no socket can be made.
pub fn open<R: Net>(rt: &R, address: SocketAddrV4) -> io::Result<UdpSocket> {
    let socket = UdpSocket::bind(rt, address)?;
    socket.set_read_timeout(Some(Duration::from_millis(SHORTEST_WAIT)))?;
    Ok(socket)
}

// Returns the endpoint with this address and port.
fn endpoint_of(address: &SocketAddrV4) -> Endpoint
    ensures { (result.ip ≡ ipv4_octets (v4_ip address.now)) × (result.port ≡ v4_port address.now) }
{
    Endpoint {
        ip: address.ip().octets(),
        port: address.port(),
    }
}

// Returns the socket address with this endpoint's address and port.
fn address_of(endpoint: Endpoint) -> SocketAddrV4
    ensures { (ipv4_octets (v4_ip result) ≡ endpoint.ip) × (v4_port result ≡ endpoint.port) }
{
    let [a, b, c, d] = endpoint.ip;
    SocketAddrV4::new(Ipv4Addr::new(a, b, c, d), endpoint.port)
}

/// A transmitter that passes the workers' replies to a sink.
///
/// The end of a job has no effect, since no caller waits for it.
#[derive(Drop)]
pub struct Replying<'a, K: Sink> {
    pub sink: &'a K,
}

impl<'a, K: Sink> Wire for Replying<'a, K> {
    ghost called = { IsHanded K.went };

    fn send<R: Wait>(&self, rt: &R, number: u64, emission: &Emission, log: &mut CallLog) -> bool {
        let _ = rt;
        let _ = number;
        self.sink.send(emission, log)
    }

    fn ended<R: Wait>(&self, rt: &R, number: u64, log: &mut CallLog) {
        let _ = rt;
        let _ = number;
        let _ = log;
    }
}
