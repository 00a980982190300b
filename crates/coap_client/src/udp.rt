//! A server at an address and a port: the [`Peer`] of the `fcreq` program.
ghost use Rattle.std.specs.Prelude.{◌≡◌, ◌⊎◌, ◌↔◌, ◌+◌, ◌*◌, ◌/◌, ◌<◌, ◌≤◌, ⊤, [], ◌∷◌, IfErr, IfNone, IfOk, IfSome, IsTrue, OnOk, false, length, min};
ghost use Rattle.std.specs.Duration.{as_nanos};
ghost use Rattle.std.specs.IoError.{error_kind};
ghost use Rattle.std.specs.Time.{FitsClock, instant_nanos};
ghost use Rattle.std.specs.declared.time.Instant.{Instant as Reading};
ghost use Rattle.coap_client.specs.PeerCalls.{Adds, PeerError, Reads, Waits, receives_in};
ghost use Rattle.coap_client.specs.Clocks.{IsEndOfWait, IsLeftOf, IsTimeSince, IsWaitOver, is_transient};

use crate::peer::{BUFFER, Buffer, Peer};
use coap_msg::Datagram;
use std::io;
use std::io::ErrorKind;
use std::net::{Ipv4Addr, Net, SocketAddr, SocketAddrV4, UdpSocket};
use std::time::{Clock, Duration, Instant};

/// A monotonic clock whose readings a contract can name.
pub trait Ticks {
    // A property of all readings that the clock returned.
    ghost is_read: { Reading → Type 0 } = { λ _. ⊤ };

    // A property of all errors that the clock returned.
    ghost is_error: { PeerError → Type 0 } = { λ _. ⊤ };

    /// Reads the clock.
    ///
    /// # Errors
    /// Returns an error if there is no clock.
    fn read(&self) -> io::Result<Instant>
        ensures reading { IfOk result is_read }
        ensures error { IfErr result is_error };
}

impl<C: Clock> Ticks for C {
    fn read(&self) -> io::Result<Instant> {
        Instant::now(self)
    }
}

/// The server at an address and a port, as seen through a socket of the client.
///
/// The socket is connected to the server, so that it can report an error if no server listens at
/// the port.
#[derive(Drop)]
pub struct UdpPeer<'a, T: Ticks> {
    ticks: &'a T,
    socket: UdpSocket,
    address: SocketAddr,
    start: Instant,
    until: Instant,
}

impl<'a, T: Ticks> UdpPeer<'a, T> {
    /// Connects to the server at this address and port.
    ///
    /// # Errors
    /// Returns an error if no socket can be bound or connected, or if the clock can't be read.
    pub fn at<R: Net>(net: &R, ticks: &'a T, address: SocketAddrV4) -> io::Result<UdpPeer<'a, T>> {
        let socket = UdpSocket::bind(net, SocketAddrV4::new(Ipv4Addr::UNSPECIFIED, 0))?;
        socket.connect(address)?;
        let start = ticks.read()?;
        Ok(UdpPeer {
            ticks,
            socket,
            address: SocketAddr::V4(address),
            start,
            until: start,
        })
    }

    // Returns the time that is left of the wait, or zero if the wait is over. Returns the clock's
    // error if the clock can't be read.
    fn left(&self) -> io::Result<Duration>
        ensures left { IfOk result (IsLeftOf T.is_read self.now.until) }
        ensures error { IfErr result T.is_error }
    {
        let now = self.ticks.read()?;
        Ok(self.until.duration_since(now))
    }

    // Returns whether `from` is the server's address and port.
    fn is_from(&self, from: SocketAddr) -> bool
        ensures { IsTrue result ↔ (from ≡ self.now.address) }
    {
        from == self.address
    }

    // Waits up to `left` for a datagram, and returns its length in bytes. Returns `None` if nothing
    // arrives, or if a signal interrupts the wait. Returns `None` for a datagram from another
    // address or port, which may have arrived before the socket was connected. Returns `None` for a
    // datagram that fills the buffer, since it may be truncated. Returns any other error of the
    // socket.
    fn receive_once(&self, left: Duration, buffer: &mut Buffer) -> io::Result<Option<usize>>
        ensures whole { IfOk result (λ r. IfSome r (λ count. count < length buffer.new)) }
        ensures error { IfErr result (λ e. is_transient (error_kind e) ≡ false) }
    {
        let received = match self.socket.set_read_timeout(Some(left)) {
            Ok(()) => self.socket.recv_from(buffer),
            Err(error) => Err(error),
        };
        match received {
            Ok((count, from)) if count < BUFFER && self.is_from(from) => Ok(Some(count)),
            Ok(_) => Ok(None),
            Err(error) if is_over(&error) => Ok(None),
            Err(error) => Err(error),
        }
    }
}

impl<'a, T: Ticks> Peer for UdpPeer<'a, T> {
    fn send(&mut self, datagram: &Datagram) -> io::Result<()> {
        self.socket.send(datagram.as_slice())?;
        Ok(())
    }

    fn begin_wait(&mut self, seconds: u64) -> io::Result<()>
        ensures called { OnOk result (Adds (λ _. ⊤) (λ _. ⊤) (Waits seconds ∷ [])) }
        ensures error { IfErr result (λ _. ⊤) }
        ensures until { OnOk result (IsEndOfWait T.is_read seconds self.new.until) }
    {
        let now = self.ticks.read()?;
        self.until = end_of(now, seconds);
        Ok(())
    }

    fn now(&mut self) -> io::Result<u64>
        ensures time { IfOk result (λ _. ⊤) }
        ensures called { IfOk result (λ time. Adds (λ _. ⊤) (λ _. ⊤) (Reads time ∷ [])) }
        ensures error { IfErr result (λ _. ⊤) }
        ensures since { IfOk result (IsTimeSince T.is_read self.old.start) }
    {
        let now = self.ticks.read()?;
        Ok(millis_of(now.duration_since(self.start)))
    }

    fn receive(&mut self, buffer: &mut Buffer) -> io::Result<Option<usize>>
        ensures came { IfOk result (λ r. IfSome r (λ count. (count ≤ length buffer.new) × ⊤)) }
        ensures whole { IfOk result (λ r. IfSome r (λ count. count < length buffer.new)) }
        ensures called { IfOk result (λ r. Adds (λ _. ⊤) (λ _. ⊤) (receives_in buffer.new r ∷ [])) }
        ensures error { IfErr result (λ _. ⊤) }
        ensures over { IfOk result (λ r. IfNone r (IsWaitOver T.is_read self.old.until)) }
        ensures interrupted { IfErr result (λ e. T.is_error e ⊎ (is_transient (error_kind e) ≡ false)) }
    {
        for _ in 0..u64::MAX {
            let left = self.left()?;
            if left.is_zero() {
                return Ok(None);
            }
            if let Some(count) = self.receive_once(left, buffer)? {
                return Ok(Some(count));
            }
        }
        Err(io::Error::from(ErrorKind::Other))
    }
}

// Returns whether a receive error means that nothing arrived in time, or that a signal interrupted
// the receive.
fn is_over(error: &io::Error) -> bool
    ensures { result ≡ is_transient (error_kind error.now) }
{
    matches!(
        error.kind(),
        ErrorKind::WouldBlock | ErrorKind::TimedOut | ErrorKind::Interrupted
    )
}

// Returns the end of a wait of `seconds` seconds from `now` on, or `now` if the clock can't
// represent the end.
fn end_of(now: Instant, seconds: u64) -> Instant
    ensures { FitsClock (instant_nanos now + seconds * 1_000_000_000) → instant_nanos result ≡ instant_nanos now + seconds * 1_000_000_000 }
{
    now.checked_add(Duration::from_secs(seconds)).unwrap_or(now)
}

// Returns the duration in whole milliseconds, at most 2^64 - 1.
fn millis_of(elapsed: Duration) -> u64
    ensures { result ≡ min (as_nanos elapsed / 1_000_000) 18446744073709551615 }
{
    u64::try_from(elapsed.as_millis()).unwrap_or(u64::MAX)
}
