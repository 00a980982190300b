//! Ports of this host.
ghost use Rattle.std.specs.Net.Addr.{ipv4_octets};
ghost use Rattle.std.specs.Net.Socket.{v4_ip, v4_port};
ghost use Rattle.std.specs.Prelude.{◌≡◌, [], ◌∷◌};

use std::io;
use std::net::{Ipv4Addr, Net, SocketAddrV4, UdpSocket};

/// Returns the address 127.0.0.1 with this port.
pub fn at_port(port: u16) -> SocketAddrV4
    ensures { (ipv4_octets (v4_ip result) ≡ 127 ∷ 0 ∷ 0 ∷ 1 ∷ []) × (v4_port result ≡ port) }
{
    SocketAddrV4::new(Ipv4Addr::LOCALHOST, port)
}

/// Returns a UDP port of 127.0.0.1 at which no socket listens.
///
/// # Errors
/// Returns the system's error if no socket can be made, or if no port is free.
pub fn free_port<R: Net>(rt: &R) -> io::Result<u16> {
    let socket = UdpSocket::bind(rt, at_port(0))?;
    Ok(socket.local_addr()?.port())
}
