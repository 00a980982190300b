//! A client's connections to servers, through sockets of its own, and its random bytes.
ghost use Rattle.std.specs.Prelude.{⊤, ℕ, List, IfOk, OnOk};
ghost use Rattle.std.specs.declared.net.socket_addr.SocketAddrV4.{SocketAddrV4 as Place};

use coap_client::{Peer, UdpPeer};
use std::io;
use std::net::{Net, SocketAddrV4};
use std::random::RandomSource;
use std::time::Clock;

/// A source of connections to servers and of random bytes.
pub trait Connector {
    /// A server that a client is connected to.
    type Server: Peer + Drop;

    // A client connected to this server at this address.
    ghost connected: { Self.Server → Place → Type 0 } = { λ server address. ⊤ };

    // These random bytes were drawn.
    ghost drawn: { List ℕ → Type 0 } = { λ bytes. ⊤ };

    /// Connects to the server at this address and port.
    ///
    /// # Errors
    /// Returns an error if there is no socket, or if the clock can't be read.
    fn connect(&self, address: SocketAddrV4) -> io::Result<Self::Server>
        ensures { IfOk result (λ server. connected server address) };

    /// Fills the buffer with random bytes.
    ///
    /// # Errors
    /// Returns an error if the system provides no random bytes.
    fn draw(&self, bytes: &mut [u8]) -> io::Result<()>
        ensures { OnOk result (drawn bytes.new) };
}

/// The sockets, the clock and the random bytes of the system.
#[derive(Clone, Copy)]
pub struct System<'a, R: Net + Clock + RandomSource> {
    pub rt: &'a R,
}

impl<'a, R: Net + Clock + RandomSource> Connector for System<'a, R> {
    type Server = UdpPeer<'a, R>;

    fn connect(&self, address: SocketAddrV4) -> io::Result<UdpPeer<'a, R>> {
        UdpPeer::at(self.rt, self.rt, address)
    }

    fn draw(&self, bytes: &mut [u8]) -> io::Result<()> {
        self.rt.fill_bytes(bytes)
    }
}
