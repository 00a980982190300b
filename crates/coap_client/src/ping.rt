//! Pings: checks that a server responds, without a request (RFC 7252, section 4.3).
ghost use Rattle.std.specs.Prelude.{◌≡◌, IfErr, IfOk, OnOk};
ghost use Rattle.std.specs.Bool.{OnTrue};
ghost use Rattle.coap_client.specs.Faults.{IsOfPeer};
ghost use Rattle.coap_client.specs.Pings.{CamePong, HasPong, IsOverUnlessPong, IsPingFault, IsPinged, ping_bytes};
ghost use Rattle.coap_client.specs.Transmissions.{MakesCalls};

use crate::fetcher::FetchFault;
use crate::peer::{BUFFER, Buffer, Peer};
use crate::transmission::{SENDINGS, ack_timeout, send, tells_reset};
use coap_msg::{Code, Datagram, MessageType, Outgoing, write};

/// Pings the server with an empty confirmable message with the message ID `id`.
///
/// Retransmits the message like a confirmable request, until a Reset message with that ID arrives.
///
/// # Errors
/// Returns [`FetchFault::Silence`] if no such Reset message arrives, or [`FetchFault::Socket`] if
/// sending or receiving fails.
pub fn ping<P: Peer>(peer: &mut P, id: u16) -> Result<(), FetchFault>
    ensures pong { OnOk result (HasPong P.went P.came id) }
    ensures called { OnOk result (MakesCalls (P.called peer.old) (P.called peer.new) (IsPinged id)) }
    ensures fault { IfErr result (IsPingFault P.is_error (MakesCalls (P.called peer.old) (P.called peer.new)) id) }
{
    let datagram = write_ping(id);
    let mut buffer = [0; BUFFER];
    for sendings in 0..SENDINGS {
        send(peer, &datagram, ack_timeout(sendings))?;
        if is_rejected(peer, id, &mut buffer)? {
            return Ok(());
        }
    }
    Err(FetchFault::Silence)
}

// Waits for the Reset message with this message ID. Returns `true` if it arrives, and `false` if
// the wait ends before. Skips other datagrams. Returns `FetchFault::Socket` if receiving fails.
fn is_rejected<P: Peer>(peer: &mut P, id: u16, buffer: &mut Buffer) -> Result<bool, FetchFault>
    ensures pong { IfOk result (λ is. OnTrue is (CamePong P.came id)) }
    ensures called { IfOk result (λ is. MakesCalls (P.called peer.old) (P.called peer.new) (IsOverUnlessPong id is)) }
    ensures fault { IfErr result (IsOfPeer P.is_error ⊥) }
{
    for received in 0..u64::MAX {
        let Some(count) = peer.receive(buffer)? else {
            return Ok(false);
        };
        if tells_reset(id, &buffer[..count]) {
            return Ok(true);
        }
    }
    Ok(false)
}

// Returns the datagram of the empty confirmable message with the message ID `id`.
fn write_ping(id: u16) -> Datagram
    ensures { result.items ≡ ping_bytes id }
{
    let message = Outgoing {
        kind: MessageType::Confirmable,
        code: Code::EMPTY,
        id,
        token: &[],
        options: &[],
        payload: &[],
    };
    let mut datagram = Datagram::new();
    write(&message, &mut datagram);
    datagram
}
