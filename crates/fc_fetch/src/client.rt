//! A client's request: its options, and how its response is printed.
//!
//! [`fetch`] sends it by the system's sockets. The contracts are those of [`fetch_by`] and
//! [`fetch_to_by`], which send it by any [`Connector`].
ghost use Rattle.std.specs.Io.KnownBytes.{Appends};
ghost use Rattle.std.specs.Prelude.{◌≡◌, ◌⊎◌, IfErr, IfNone, IfOk, IfSome, None, OnOk};
ghost use Rattle.coap_msg.specs.Codes.{code_text};
ghost use Rattle.coap_client.specs.Transmissions.{MakesCalls};
ghost use Rattle.fc_fetch.specs.Connecting.{IsDrawnId};
ghost use Rattle.fc_fetch.specs.Fetching.{HasNoRoom, IsAnswerTo, IsAnswered, IsAnsweredTo, IsFaultOf, IsFetchStop, IsFetchedBy, IsKeptOrPrinted, IsOfConnecting, IsOfInput, IsOfRandom, IsPrinted, IsTargetStop, NamesNoResource, ended_line, stop_status};
ghost use Rattle.coap_uri.specs.Addresses.{IsAddress};
ghost use Rattle.coap_uri.specs.Resources.{IsResourceOf};
ghost use Rattle.fc_cli.specs.Ending.{IsEnding};
ghost use Rattle.fc_cli.specs.declared.status.Status.TheVariants.{Bad, Failed};

use crate::connector::{Connector, System};
use crate::console::Console;
use crate::observer::NotesError;
use crate::printer::{PrintError, Shown, write_answer, write_bytes, write_code};
use coap_client::{ClientRequest, FetchFault, Fetched, PathError, Peer, RequestTarget};
use coap_opts::Method;
use coap_uri::address::{Address, AddressError};
use coap_uri::resource::{ResourceError, resource_of};
use fc_cli::status::{Status, tell};
use std::alloc::{AllocError, Global};
use std::io;
use std::io::{Read, Write};
use std::net::{Net, SocketAddrV4};
use std::random::RandomSource;
use std::time::Clock;
use thiserror::Error;

/// Class of the codes of success (RFC 7252, section 5.9.1).
const SUCCESS: u8 = 2;

/// The options of a request.
#[derive(Clone, Copy)]
pub struct FetchOptions<'a> {
    /// Whether the request is confirmable.
    ///
    /// A confirmable request is retransmitted if nothing comes.
    pub confirmable: bool,
    pub method: Method,
    /// A path, or a URI of the scheme coap.
    pub target: &'a str,
    /// The port of 127.0.0.1, for a path.
    pub port: Option<u16>,
    /// The name of the body's source, for a read error.
    pub source: &'a str,
    /// The number of the body's Content-Format, if the request has one.
    ///
    /// See RFC 7252, section 12.3.
    pub content_format: Option<u16>,
    pub shown: Shown,
}

/// The resource and the body of a request.
#[derive(Drop)]
pub struct RequestFields<'a> {
    pub target: RequestTarget<'a>,
    pub payload: &'a [u8],
}

/// A file for the bytes of a response, and its name, for the reason of a failure.
#[derive(Drop)]
pub struct ResponseFile<'a, F> {
    pub name: &'a str,
    pub file: F,
}

// The reason why a client prints nothing, or nothing more.
#[derive(Debug, Drop, Error)]
pub(crate) enum FetchStop<'a> {
    #[error("{0}")]
    Address(#[source] AddressError),
    #[error("{0}")]
    Path(#[source] PathError),
    #[error("an argument of the query has more than 255 bytes")]
    Argument,
    #[error("the request has no room in a datagram: the path, the query and the body have at most 1262 bytes together, with 5 more for each segment and argument; only a PUT's body goes in blocks, 1024 bytes at once")]
    Room,
    #[error("a ping has no resource: coap://127.0.0.1:5683, or `--port` alone")]
    Resource,
    #[error("{0}: {1}")]
    Input(&'a str, io::Error),
    #[error("random bytes: {0}")]
    Random(io::Error),
    #[error("{0}")]
    Fault(#[source] FetchFault),
    #[error("{0}")]
    Notes(#[source] NotesError),
    #[error("{0}")]
    Memory(#[source] AllocError),
}

impl<'a> FetchStop<'a> {
    // Returns the status of a program that stops for this reason.
    pub(crate) fn status(&self) -> Status
        ensures { result ≡ stop_status self.now }
    {
        match self {
            FetchStop::Address(AddressError::NoMemory) | FetchStop::Path(PathError::NoMemory) => {
                Status::Failed
            }
            FetchStop::Address(_)
            | FetchStop::Path(_)
            | FetchStop::Argument
            | FetchStop::Room
            | FetchStop::Resource => Status::Bad,
            FetchStop::Input(..)
            | FetchStop::Random(_)
            | FetchStop::Fault(_)
            | FetchStop::Notes(_)
            | FetchStop::Memory(_) => Status::Failed,
        }
    }
}

/// Sends a request to a server, with `input` as its body, and prints the response.
///
/// It prints the response's code. If the response has bytes, it prints them on a line of their own.
///
/// Returns:
///
/// - `Done` if the code is one of success, and `Refused` for any other code.
/// - `Bad` if the target is not an address, or if the request doesn't fit in a datagram. An address
///   is a path with a port, or a URI of the scheme coap with an IPv4 address. A path has a slash
///   before each segment, and its segments have 1 to 255 bytes.
/// - `Failed` if no response came, at a fault of the socket, or if reading, writing, memory or the
///   system's random bytes failed.
///
/// The reason is written to `console.err`.
pub fn fetch<R: Net + Clock + RandomSource, I: Read, W: Write, E: Write>(
    rt: &R,
    input: &mut I,
    console: &mut Console<W, E>,
    asking: &FetchOptions<'_>,
) -> Status {
    fetch_by(&System { rt }, input, console, asking)
}

/// Sends a request to a server that `connector` connects to, and prints the response.
///
/// Returns the status of [`fetch`], and writes the reason of a failure to `console.err`.
pub fn fetch_by<C: Connector, I: Read, W: Write, E: Write>(
    connector: &C,
    input: &mut I,
    console: &mut Console<W, E>,
    asking: &FetchOptions<'_>,
) -> Status
    ensures { IsAnswered (IsAnswerTo C.connected C.drawn C.Server.went C.Server.came C.Server.called asking.now (I.remaining input.old))
        (IsFetchStop C.connected C.drawn C.Server.went C.Server.came C.Server.is_error C.Server.called asking.now (I.remaining input.old))
        asking.now.shown (W.contents console.old.out) (W.contents console.new.out) result }
{
    match answer(connector, console.alloc, input, asking) {
        Ok(fetched) => print_answer(console, asking.shown, &fetched),
        Err(stop) => tell(&mut console.err, &stop, stop.status()),
    }
}

/// Sends a request, prints the response's code, and writes the bytes of a success to `file`.
///
/// Any response other than a success is printed whole, and `file` isn't written to.
///
/// Returns the status of [`fetch`]. Returns `Failed` if writing the file fails: `console.err` then
/// gets the file's name.
pub fn fetch_to_by<C: Connector, I: Read, W: Write, E: Write, F: Write>(
    connector: &C,
    input: &mut I,
    console: &mut Console<W, E>,
    file: &mut ResponseFile<'_, F>,
    asking: &FetchOptions<'_>,
) -> Status
    ensures { IsAnsweredTo (IsAnswerTo C.connected C.drawn C.Server.went C.Server.came C.Server.called asking.now (I.remaining input.old))
        (IsFetchStop C.connected C.drawn C.Server.went C.Server.came C.Server.is_error C.Server.called asking.now (I.remaining input.old))
        asking.now.shown (W.contents console.old.out) (W.contents console.new.out) (F.contents file.old.file) (F.contents file.new.file) result }
{
    match answer(connector, console.alloc, input, asking) {
        Ok(fetched) => keep_answer(console, file, asking.shown, &fetched),
        Err(stop) => tell(&mut console.err, &stop, stop.status()),
    }
}

// Sends the request, with `input` as its body, and returns the server's response, or the reason if
// there is none.
fn answer<'a, C: Connector, I: Read>(
    connector: &C,
    alloc: Global,
    input: &mut I,
    asking: &FetchOptions<'a>,
) -> Result<Fetched, FetchStop<'a>>
    ensures answer { IfOk result (λ f. IsAnswerTo C.connected C.drawn C.Server.went C.Server.came C.Server.called asking.now (I.remaining input.old)
        f.code.byte f.body.items) }
    ensures stop { IfErr result (IsFetchStop C.connected C.drawn C.Server.went C.Server.came C.Server.is_error C.Server.called asking.now
        (I.remaining input.old)) }
{
    let address = address_of(alloc, asking.target, asking.port)?;
    let target = resource_at(alloc, &address)?;
    let payload = body_of(alloc, input, asking.source)?;
    let id = first_id(connector)?;
    let mut server = connect(connector, address.server)?;
    let fields = RequestFields {
        target,
        payload: &payload,
    };
    match fetch_from(alloc, &mut server, asking, fields, id) {
        Ok(Some(fetched)) => Ok(fetched),
        Ok(None) => Err(FetchStop::Room),
        Err(fault) => Err(FetchStop::Fault(fault)),
    }
}

// Returns the address of a target. Returns `FetchStop::Address` if the target is no address, or if
// memory can't be allocated.
pub(crate) fn address_of<'a>(
    alloc: Global,
    target: &str,
    port: Option<u16>,
) -> Result<Address, FetchStop<'a>>
    ensures address { IfOk result (IsAddress target.now port) }
    ensures stop { IfErr result (IsTargetStop target.now port) }
{
    match Address::parse(alloc, target, port) {
        Ok(address) => Ok(address),
        Err(error) => Err(FetchStop::Address(error)),
    }
}

// Returns the resource that an address names. Returns `FetchStop::Path` or `FetchStop::Argument` if
// the address names none, and `FetchStop::Memory` if memory can't be allocated.
pub(crate) fn resource_at<'a, 'b>(
    alloc: Global,
    address: &'b Address,
) -> Result<RequestTarget<'b>, FetchStop<'a>>
    ensures resource { IfOk result (IsResourceOf address.entry.now) }
    ensures stop { IfErr result (NamesNoResource address.entry.now) }
{
    match resource_of(alloc, address) {
        Ok(target) => Ok(target),
        Err(ResourceError::Path(fault)) => Err(FetchStop::Path(fault)),
        Err(ResourceError::Argument) => Err(FetchStop::Argument),
        Err(ResourceError::NoMemory) => Err(FetchStop::Memory(AllocError)),
    }
}

// Reads the request's body, to the end of the input. Returns `FetchStop::Input` with the input's
// name, `source`, if reading fails or memory can't be allocated.
fn body_of<'a, I: Read>(
    alloc: Global,
    input: &mut I,
    source: &'a str,
) -> Result<Vec<u8>, FetchStop<'a>>
    ensures body { IfOk result (λ body. IfSome (I.remaining input.old) (λ bytes. body.items ≡ bytes)) }
    ensures stop { IfErr result (IsOfInput source.now) }
{
    let mut payload = Vec::new(alloc);
    match input.read_to_end(&mut payload) {
        Ok(_) => Ok(payload),
        Err(error) => Err(FetchStop::Input(source, error)),
    }
}

/// Fetches a resource from `peer`, with the method, type and format of `asking`.
///
/// The type is that of the request's message. The resource and the body are those of `fields`. The
/// message IDs begin with `id`. Returns `None` if the request doesn't fit in a datagram: then
/// nothing is sent.
///
/// # Errors
/// Returns the error of [`coap_client::fetch`].
pub fn fetch_from<P: Peer>(
    alloc: Global,
    peer: &mut P,
    asking: &FetchOptions<'_>,
    fields: RequestFields<'_>,
    id: u16,
) -> Result<Option<Fetched>, FetchFault>
    ensures asked { IfOk result (λ r. IfSome r (λ f. IsFetchedBy P.went P.came (P.called peer.old) (P.called peer.new)
        asking.now fields.entry.target fields.entry.payload.now id f.code.byte f.body.items)) }
    ensures none { IfOk result (λ r. IfNone r (HasNoRoom (MakesCalls (P.called peer.old) (P.called peer.new))
        asking.now.method fields.entry.target fields.entry.payload.now)) }
    ensures fault { IfErr result (IsFaultOf P.went P.came P.is_error (MakesCalls (P.called peer.old) (P.called peer.new))
        asking.now fields.entry.target fields.entry.payload.now id) }
{
    let RequestFields { target, payload } = fields;
    let Some(asked) = ClientRequest::new(asking.confirmable, asking.method, target, payload) else {
        return Ok(None);
    };
    let asked = with_format(asked, asking.content_format);
    Ok(Some(coap_client::fetch(alloc, peer, &asked, id)?))
}

// Sets the client request's Content-Format, if one is given.
fn with_format(client_request: ClientRequest<'_>, format: Option<u16>) -> ClientRequest<'_>
    requires { client_request.content_format ≡ None }
    ensures format { result.content_format ≡ format }
    ensures others { (result.confirmable ≡ client_request.entry.confirmable) × (result.method ≡ client_request.entry.method)
        × (result.target ≡ client_request.entry.target) × (result.payload ≡ client_request.entry.payload) }
{
    match format {
        Some(format) => client_request.with_content_format(format),
        None => client_request,
    }
}

// Connects to the server at this address, or returns the failure as a `FetchFault::Socket`.
pub(crate) fn connect<'a, C: Connector>(
    connector: &C,
    address: SocketAddrV4,
) -> Result<C::Server, FetchStop<'a>>
    ensures server { IfOk result (λ server. C.connected server address) }
    ensures stop { IfErr result IsOfConnecting }
{
    match connector.connect(address) {
        Ok(server) => Ok(server),
        Err(error) => Err(FetchStop::Fault(FetchFault::Socket(error))),
    }
}

// Draws the first message ID from two random bytes, so that earlier messages don't disclose it (RFC
// 7252, section 4.4). Returns `FetchStop::Random` if the system provides no random bytes.
pub(crate) fn first_id<'a, C: Connector>(connector: &C) -> Result<u16, FetchStop<'a>>
    ensures id { IfOk result (IsDrawnId C.drawn) }
    ensures stop { IfErr result IsOfRandom }
{
    let mut bytes = [0; 2];
    match connector.draw(&mut bytes) {
        Ok(()) => Ok(u16::from_be_bytes(bytes)),
        Err(error) => Err(FetchStop::Random(error)),
    }
}

// The reason why a response isn't stored.
#[derive(Debug, Drop, Error)]
enum KeepError<'a> {
    #[error("{0}: {1}")]
    File(&'a str, io::Error),
    #[error("{0}")]
    Print(#[source] PrintError),
}

// Writes the bytes of a success to a file and prints its code, or prints another response whole.
// Returns `Done` for a success, and `Refused` for any other code. Returns `Failed` if writing
// fails, and writes the reason to `console.err`.
fn keep_answer<W: Write, E: Write, F: Write>(
    console: &mut Console<W, E>,
    file: &mut ResponseFile<'_, F>,
    shown: Shown,
    fetched: &Fetched,
) -> Status
    ensures { IsKeptOrPrinted shown fetched.now.code.byte fetched.now.body.items (W.contents console.old.out) (W.contents console.new.out)
        (F.contents file.old.file) (F.contents file.new.file) result ⊎ (result ≡ Failed) }
{
    if fetched.code.class() != SUCCESS {
        return print_answer(console, shown, fetched);
    }
    match keep(&mut console.out, file, fetched) {
        Ok(()) => Status::Done,
        Err(error) => tell(&mut console.err, &error, Status::Failed),
    }
}

// Prints a response's code, then writes its bytes to a file. Returns `KeepError::Print` if printing
// fails, and `KeepError::File` with the file's name if writing fails. The order matters: if
// standard output is closed, a file that is opened first gets its descriptor.
fn keep<'a, W: Write, F: Write>(
    out: &mut W,
    file: &mut ResponseFile<'a, F>,
    fetched: &Fetched,
) -> Result<(), KeepError<'a>>
    ensures text { OnOk result (Appends (W.contents out.old) (W.contents out.new) (ended_line (code_text fetched.now.code.byte))) }
    ensures bytes { OnOk result (Appends (F.contents file.old.file) (F.contents file.new.file) fetched.now.body.items) }
{
    if let Err(error) = write_code(out, fetched.code) {
        return Err(KeepError::Print(error));
    }
    match write_bytes(&mut file.file, &fetched.body) {
        Ok(()) => Ok(()),
        Err(error) => Err(KeepError::File(file.name, error)),
    }
}

// Prints a response to `console.out`. Returns `Done` for a success, and `Refused` for any other
// code. Returns `Failed` if printing fails, and writes the reason to `console.err`.
fn print_answer<W: Write, E: Write>(
    console: &mut Console<W, E>,
    shown: Shown,
    fetched: &Fetched,
) -> Status
    ensures { IsPrinted shown fetched.now.code.byte fetched.now.body.items
        (W.contents console.old.out) (W.contents console.new.out) result ⊎ (result ≡ Failed) }
{
    match write_answer(console.alloc, &mut console.out, shown, fetched) {
        Ok(()) if fetched.code.class() == SUCCESS => Status::Done,
        Ok(()) => Status::Refused,
        Err(error) => tell(&mut console.err, &error, Status::Failed),
    }
}
