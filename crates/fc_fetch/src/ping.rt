//! A ping, which tests whether a server responds (RFC 7252, section 4.3).
ghost use Rattle.std.specs.Prelude.{◌≡◌, IfErr, IfOk, OnOk};
ghost use Rattle.fc_fetch.specs.Pinging.{HasEndedPing, IsNoEndpoint, IsPingEndpoint, IsPingStop, IsPingedAt, names_resource};

use crate::client::{FetchStop, connect, first_id};
use crate::connector::{Connector, System};
use coap_client::ping::ping as ping_peer;
use coap_uri::address::Address;
use fc_cli::status::{Status, tell};
use std::alloc::Global;
use std::io::Write;
use std::net::{Ipv4Addr, Net, SocketAddrV4};
use std::random::RandomSource;
use std::time::Clock;

/// Default port of CoAP (RFC 7252, section 6.1).
const COAP_PORT: u16 = 5683;

/// The target of a ping.
#[derive(Clone, Copy)]
pub struct Pinging<'a> {
    /// A URI of the scheme coap without a path and without a query.
    ///
    /// Without a target, a port of 127.0.0.1 is pinged.
    pub target: Option<&'a str>,
    /// The port of 127.0.0.1 to ping without a target; 5683 if it isn't given.
    pub port: Option<u16>,
}

/// Pings a server, and prints nothing.
///
/// Sends an empty confirmable message, and retransmits it like a confirmable request, until a Reset
/// message with the same message ID arrives.
///
/// Returns `Done` if this Reset message arrived. Returns `Bad` if the target is no address or names
/// a resource. Returns `Failed` if no such message arrived, if the socket or the random bytes
/// failed, or if memory can't be allocated. The reason is written to `err`; if it can't be written,
/// the result is `Failed`.
pub fn ping<R: Net + Clock + RandomSource, E: Write>(
    rt: &R,
    alloc: Global,
    err: &mut E,
    pinging: &Pinging<'_>,
) -> Status {
    ping_by(&System { rt }, alloc, err, pinging)
}

/// Pings a server that `connector` connects to, and prints nothing.
///
/// Returns the status of [`ping`], and writes the reason of a failure to `err`.
pub fn ping_by<C: Connector, E: Write>(
    connector: &C,
    alloc: Global,
    err: &mut E,
    pinging: &Pinging<'_>,
) -> Status
    ensures { HasEndedPing C.connected C.drawn C.Server.went C.Server.came C.Server.is_error C.Server.called pinging.now result }
{
    match ping_once(connector, alloc, pinging) {
        Ok(()) => Status::Done,
        Err(stop) => tell(err, &stop, stop.status()),
    }
}

// Pings the server of a target, with a message ID of random bytes. Returns the reason if the ping
// fails.
fn ping_once<'a, C: Connector>(
    connector: &C,
    alloc: Global,
    pinging: &Pinging<'a>,
) -> Result<(), FetchStop<'a>>
    ensures pinged { OnOk result (IsPingedAt C.connected C.drawn C.Server.went C.Server.came C.Server.called pinging.now) }
    ensures stop { IfErr result (IsPingStop C.connected C.drawn C.Server.is_error C.Server.called pinging.now) }
{
    let endpoint = endpoint_of(alloc, pinging)?;
    let id = first_id(connector)?;
    let mut server = connect(connector, endpoint)?;
    match ping_peer(&mut server, id) {
        Ok(()) => Ok(()),
        Err(fault) => Err(FetchStop::Fault(fault)),
    }
}

// Returns the endpoint to ping, or the reason why there is none: the target is no address, or names
// a resource.
fn endpoint_of<'a>(alloc: Global, pinging: &Pinging<'a>) -> Result<SocketAddrV4, FetchStop<'a>>
    ensures endpoint { IfOk result (IsPingEndpoint pinging.now) }
    ensures none { IfErr result (IsNoEndpoint pinging.now) }
{
    let Some(text) = pinging.target else {
        return Ok(SocketAddrV4::new(Ipv4Addr::LOCALHOST, pinging.port.unwrap_or(COAP_PORT)));
    };
    match Address::parse(alloc, text, pinging.port) {
        Ok(address) if has_resource(&address) => Err(FetchStop::Resource),
        Ok(address) => Ok(address.server),
        Err(error) => Err(FetchStop::Address(error)),
    }
}

// Returns whether an address names a resource of its server.
fn has_resource(address: &Address) -> bool
    ensures { result ≡ names_resource address.now }
{
    !address.path.is_empty() || !address.query.is_empty()
}
