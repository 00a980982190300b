//! The server and the resource of a request.
//!
//! A target is a path at a port of this host, or a URI of the scheme coap (RFC 7252, sections 6.1
//! and 6.4).
ghost use Rattle.std.specs.Prelude.{◌≡◌, ◌↔◌, ◌<◌, false, [], IfErr, IfOk, IsTrue, MatchOption, None, unwrap_or};
ghost use Rattle.std.specs.declared.net.ipv4_addr.Ipv4Addr.{Ipv4Addr as Ipv4};
ghost use Rattle.coap_uri.specs.declared.address.AddressError.TheVariants.{NoMemory};
ghost use Rattle.std.specs.List.{after_first, before_first, list_any};
ghost use Rattle.coap_client.specs.Paths.{path_text};
ghost use Rattle.percent_encoding.specs.Percent.{percent_decode};
ghost use Rattle.coap_uri.specs.Addresses.{HasParts, IsAddress, IsAtPort, IsHostOf, IsNoAddress, IsNoUri, IsOfUri, IsReadAsUri, IsUnfitBy, IsUnfitSegment, decoded_pieces, has_other_parts, has_slash, is_question, plain_pieces, segments_in, texts_in};

use percent_encoding::percent_decode_str;
use std::alloc::{AllocError, Global};
use std::net::{Ipv4Addr, SocketAddrV4};
use thiserror::Error;
use url::{ParseError, Url};

/// Default port of CoAP (RFC 7252, section 6.1).
const COAP_PORT: u16 = 5683;

/// A server's address and port, and a resource on that server.
///
/// The path is a text: a path of segments has a slash before each segment. The query is a list of
/// arguments. In the address of a URI, escapes are decoded.
#[derive(Drop)]
pub struct Address {
    pub server: SocketAddrV4,
    pub path: Vec<u8>,
    pub query: Vec<Vec<u8>>,
}

/// The reason why a text is not an address.
#[derive(Clone, Copy, Debug, PartialEq, Eq, Error)]
pub enum AddressError {
    /// A path without a port.
    #[error("`--port P` is missing, which a path needs; or give a URI: coap://127.0.0.1:5683/r/1")]
    NoPort,
    /// A URI together with a separate port.
    #[error("`--port` goes with a path: leave it out, and write the port into the URI, as coap://127.0.0.1:5683/r/1; without one it is 5683")]
    TwoPorts,
    /// Not a URI, or a URI of another scheme.
    #[error("this is no URI of the scheme coap, as coap://127.0.0.1:5683/r/1, with a port below 65536")]
    NoUri,
    /// A user, a password or a fragment, which coap URIs don't have.
    #[error("a coap URI has neither a user nor a fragment (`#`)")]
    Parts,
    /// A host that isn't an IPv4 address.
    #[error("the host is to be an IPv4 address, as 127.0.0.1, or localhost; other names aren't looked up")]
    Host,
    /// An escaped slash in a path.
    #[error("%2F in a path can't be sent: a slash parts its segments")]
    Escape,
    /// Memory can't be allocated, or the URI would have 4 GB.
    #[error("out of memory")]
    NoMemory,
}

impl From<AllocError> for AddressError {
    ghost use Rattle.std.specs.Prelude.{◌≡◌};
    ghost use Rattle.coap_uri.specs.declared.address.AddressError.TheVariants.{NoMemory};

    ghost from_gives = { λ _ error. error ≡ NoMemory };

    fn from(_: AllocError) -> AddressError {
        AddressError::NoMemory
    }
}

impl Address {
    /// Parses the address in `text`.
    ///
    /// If `port` is given, `text` is a path at that port of 127.0.0.1, with a query after a `?`.
    /// Otherwise `text` is a URI of the scheme coap. A URI that names no port has port 5683.
    ///
    /// # Errors
    /// Returns the reason why there is no address.
    pub fn parse(alloc: Global, text: &str, port: Option<u16>) -> Result<Address, AddressError>
        ensures address { IfOk result (IsAddress text.now port) }
        ensures none { IfErr result (IsNoAddress text.now port) }
    {
        match (is_uri(text), port) {
            (true, None) => read_uri(alloc, text),
            (true, Some(_)) => Err(AddressError::TwoPorts),
            (false, Some(port)) => at_port(alloc, text, port),
            (false, None) => Err(AddressError::NoPort),
        }
    }
}

// Returns whether a text is read as a URI.
fn is_uri(text: &str) -> bool
    ensures { IsTrue result ↔ IsReadAsUri text.now }
{
    text.contains("://") && !text.starts_with('/')
}

// Returns the address of a path with its query, at this port of 127.0.0.1. Escapes aren't decoded.
// Returns `AddressError::NoMemory` if memory can't be allocated.
fn at_port(alloc: Global, text: &str, port: u16) -> Result<Address, AddressError>
    ensures address { IfOk result (IsAtPort text.now port) }
    ensures memory { IfErr result (λ error. error ≡ NoMemory) }
{
    let (path, query) = split_query(text);
    Ok(Address {
        server: SocketAddrV4::new(Ipv4Addr::LOCALHOST, port),
        path: Vec::from_slice(alloc, path.as_bytes())?,
        query: arguments(alloc, query)?,
    })
}

// Returns the text before the first `?` and the text after it, which is empty without a `?`.
fn split_query(text: &str) -> (&str, &str)
    ensures path { result.0.now ≡ before_first is_question text.now }
    ensures query { result.1.now ≡ after_first is_question text.now }
{
    match text.split_once('?') {
        Some((path, query)) => (path, query),
        None => (text, ""),
    }
}

// Splits a query at each `&`, and leaves escapes as they are. An empty query has no arguments.
// Returns `AllocError` if memory can't be allocated.
fn arguments(alloc: Global, query: &str) -> Result<Vec<Vec<u8>>, AllocError>
    ensures { IfOk result (λ v. texts_in v.items ≡ plain_pieces 38 query.now) }
{
    let mut arguments = Vec::new(alloc);
    if query.is_empty() {
        return Ok(arguments);
    }
    for argument in query.split('&') {
        arguments.push(Vec::from_slice(alloc, argument.as_bytes())?)?;
    }
    Ok(arguments)
}

// Parses a URI of the scheme coap, for `Address::parse`. Returns `AddressError::NoUri` if the text
// is no such URI. Returns `Parts`, `Host` or `Escape` if its parts are no address. Returns
// `NoMemory` if memory can't be allocated, or if the URI would have 4 GB.
fn read_uri(alloc: Global, text: &str) -> Result<Address, AddressError>
    ensures address { IfOk result (IsOfUri text.now) }
    ensures none { IfErr result (IsNoUri text.now) }
{
    let uri = match Url::parse(alloc, text) {
        Ok(uri) => uri,
        Err(ParseError::OutOfMemory | ParseError::Overflow) => return Err(AddressError::NoMemory),
        Err(_) => return Err(AddressError::NoUri),
    };
    match uri.scheme() {
        "coap" => address_of(alloc, &uri),
        _ => Err(AddressError::NoUri),
    }
}

// Returns the address of a URI of the scheme coap, or the first reason why it can't be an address.
fn address_of(alloc: Global, uri: &Url) -> Result<Address, AddressError>
    ensures address { IfOk result (HasParts uri.now) }
    ensures none { IfErr result (IsUnfitBy uri.now) }
{
    if has_other_parts(uri) {
        return Err(AddressError::Parts);
    }
    let Some(name) = uri.host_str() else {
        return Err(AddressError::Host);
    };
    let Some(host) = host_of(name) else {
        return Err(AddressError::Host);
    };
    let segments = whole_segments_of(alloc, uri.path())?;
    Ok(Address {
        server: SocketAddrV4::new(host, uri.port().unwrap_or(COAP_PORT)),
        path: path_of(alloc, &segments)?,
        query: pieces(alloc, query_of(uri), '&')?,
    })
}

// Returns whether a URI has a user, a password or a fragment.
fn has_other_parts(uri: &Url) -> bool
    ensures { result ≡ has_other_parts uri.now }
{
    !uri.username().is_empty() || uri.password().is_some() || uri.fragment().is_some()
}

// Returns the IPv4 address that a host's name denotes: 127.0.0.1 for `localhost`, or the address
// that is written. Returns `None` for any other name.
fn host_of(name: &str) -> Option<Ipv4Addr>
    ensures { MatchOption result ((ip : Ipv4) → IsHostOf name.now ip → ⊥) (IsHostOf name.now) }
{
    match name {
        "localhost" => Some(Ipv4Addr::LOCALHOST),
        _ => name.parse::<Ipv4Addr>().ok(),
    }
}

// Returns the segments of a URI's path, with their escapes decoded. Returns `AddressError::Escape`
// if a decoded segment contains a slash, and `AddressError::NoMemory` if memory can't be allocated.
fn whole_segments_of(alloc: Global, path: &str) -> Result<Vec<Vec<u8>>, AddressError>
    ensures segments { IfOk result (λ v. texts_in v.items ≡ segments_in path.now) }
    ensures whole { IfOk result (λ v. list_any has_slash (segments_in path.now) ≡ false) }
    ensures none { IfErr result (IsUnfitSegment path.now) }
{
    let segments = segments_of(alloc, path)?;
    if have_slash(&segments) {
        return Err(AddressError::Escape);
    }
    Ok(segments)
}

// Returns the segments of a URI's path, with their escapes decoded. A path has no segments if it is
// `/` (RFC 7252, section 6.4) or doesn't begin with a slash. Returns `AllocError` if memory can't
// be allocated.
fn segments_of(alloc: Global, path: &str) -> Result<Vec<Vec<u8>>, AllocError>
    ensures { IfOk result (λ v. texts_in v.items ≡ segments_in path.now) }
{
    match path.strip_prefix('/') {
        Some(rest) => pieces(alloc, rest, '/'),
        None => Ok(Vec::new(alloc)),
    }
}

// Returns whether a segment contains a slash.
fn have_slash(segments: &[Vec<u8>]) -> bool
    ensures { result ≡ list_any (λ segment. has_slash segment.items) segments.now }
{
    segments.iter().any(|segment| segment.contains(&b'/'))
}

// Returns the path with a slash before each of these segments, or an empty path if there are none.
// Returns `AllocError` if memory can't be allocated.
fn path_of(alloc: Global, segments: &[Vec<u8>]) -> Result<Vec<u8>, AllocError>
    ensures { IfOk result (λ v. v.items ≡ path_text (texts_in segments.now)) }
{
    let mut path = Vec::new(alloc);
    for segment in segments {
        path.push(b'/')?;
        path.extend_from_slice(segment)?;
    }
    Ok(path)
}

// Returns the query of a URI, or an empty text if it has none.
fn query_of(uri: &Url) -> &str
    ensures { result.now ≡ unwrap_or uri.now.query [] }
{
    match uri.query() {
        Some(query) => query,
        None => "",
    }
}

// Splits a text at an ASCII character and decodes the escapes of each piece. An empty text has no
// pieces. Returns `AllocError` if memory can't be allocated.
fn pieces(alloc: Global, text: &str, parting: char) -> Result<Vec<Vec<u8>>, AllocError>
    requires { parting < 128 }
    ensures { IfOk result (λ v. texts_in v.items ≡ decoded_pieces parting text.now) }
{
    let mut pieces = Vec::new(alloc);
    if text.is_empty() {
        return Ok(pieces);
    }
    for piece in text.split(parting) {
        pieces.push(decode(alloc, piece)?)?;
    }
    Ok(pieces)
}

// Returns the bytes of a text with its escapes decoded. Returns `AllocError` if memory can't be
// allocated.
fn decode(alloc: Global, text: &str) -> Result<Vec<u8>, AllocError>
    ensures { IfOk result (λ v. v.items ≡ percent_decode text.now) }
{
    let mut bytes = Vec::new(alloc);
    percent_decode_str(text).append_to(&mut bytes)?;
    Ok(bytes)
}
