//! Peers identified by a number, and emissions printed as `peer hex`.
//!
//! The programs `fcd play` and `fcreplay` use both.
ghost use Rattle.std.specs.Prelude.{◌≡◌, OnOk};
ghost use Rattle.std.specs.Io.KnownBytes.{Appends};
ghost use Rattle.fc_lines.specs.Emissions.{peer_endpoint, printed};

use crate::hexadecimal;
use coap_msg::{Emission, Endpoint};
use std::io;
use std::io::Write;

/// CoAP's default port (RFC 7252, section 6.1).
const PORT: u16 = 5683;

/// Returns the endpoint of a peer: 127.0.0.peer, at CoAP's default port.
pub fn endpoint(peer: u8) -> Endpoint
    ensures { result ≡ peer_endpoint peer }
{
    Endpoint {
        ip: [127, 0, 0, peer],
        port: PORT,
    }
}

/// Prints an emission as a line `peer hex`, and flushes the output.
///
/// `peer` is the last byte of the receiver's address. See [`endpoint`].
///
/// # Errors
/// Returns the writer's error.
pub fn print<W: Write>(out: &mut W, emission: &Emission) -> io::Result<()>
    ensures { OnOk result (Appends (W.contents out.old) (W.contents out.new) (printed emission.now)) }
{
    let peer = emission.to.ip[3];
    write!(out, "{peer} ")?;
    hexadecimal::write(out, emission.bytes.as_slice())?;
    out.write_all(b"\n")?;
    out.flush()
}
