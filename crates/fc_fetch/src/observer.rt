//! An observer, which registers, prints newer notifications, and deregisters.
//!
//! It prints one line for each (RFC 7641). `fcreq observe` calls [`observe`], which uses the
//! system's sockets. [`observe_by`] uses any [`Connector`], and has the contract.
ghost use Rattle.std.specs.Prelude.{◌≡◌, ◌≤◌, IfErr, IfOk, OnErr, OnOk};
ghost use Rattle.std.specs.Io.KnownBytes.{Appends};
ghost use Rattle.coap_observer.specs.ObserverFaults.{IsLeavingFault, deregistration_of};
ghost use Rattle.coap_client.specs.Transmissions.{MakesCalls};
ghost use Rattle.fc_fetch.specs.Observing.{HasEnded, HasLeft, HasShown, IsEndFault, IsClientRequestStop, IsFirstBy, IsFirstFault, IsFirstShown, IsLeaving, IsNotesFault, IsObserveStop, IsObserved, IsObservedAt, IsObservedIn, IsTimedObservation, IsToldEnd, LeavesAtFault, ObservesToEnd, lines_wanted, unfit_error, unobserved_text};
ghost use Rattle.fc_fetch.specs.Observing as spec;
ghost use Rattle.fc_fetch.specs.Rendering.{written_to};
ghost use Rattle.fc_fetch.specs.declared.observer.NotesError.TheVariants as notes_error;

use crate::client::{FetchStop, address_of, connect, first_id, resource_at};
use crate::connector::{Connector, System};
use crate::console::Console;
use crate::printer::{PrintError, Shown, write_note};
use crate::rendering::{NoteRenderer, Progress};
use crate::waits::{TimeLimit, begin_wait, first_wait, time};
use coap_client::peer::{BUFFER, Buffer};
use coap_client::{ClientRequest, FetchFault, Peer};
use coap_msg::{Code, Datagram, Message, read};
use coap_observer::notice::{is_unobserved, notice_of};
use coap_observer::observing::TOKEN;
use coap_observer::{NotedMessage, NotificationClass, Observation, Observer};
use coap_opts::Method;
use fc_cli::status::{Status, tell};
use std::alloc::{AllocError, Global};
use std::io;
use std::io::Write;
use std::net::{Net, SocketAddrV4};
use std::random::RandomSource;
use std::time::Clock;
use thiserror::Error;

/// Class of the codes of success (RFC 7252, section 5.9.1).
const SUCCESS: u8 = 2;

/// The target of an observation, its printed form, and its extent.
#[derive(Clone, Copy)]
pub struct Observing<'a> {
    /// A path, or a URI of the scheme coap.
    pub target: &'a str,
    /// The port of 127.0.0.1, for a path.
    pub port: Option<u16>,
    pub shown: Shown,
    pub extent: ObservationExtent,
}

/// The number of lines and of seconds after which an observation ends.
///
/// The number of lines is at least 1. The seconds count from the first response. Without either,
/// the observation doesn't end.
#[derive(Clone, Copy)]
pub struct ObservationExtent {
    pub count: Option<u32>,
    pub seconds: Option<u32>,
}

/// The reason why an observation ends.
#[derive(Clone, Copy, PartialEq, Eq)]
pub enum ObservationEnd {
    /// As many lines were printed as are wanted.
    Counted,
    /// The time is over.
    Over,
    /// A response of this code was printed, after which no notification comes.
    Last(Code),
}

/// The error of an observation that fails.
#[derive(Debug, Drop, Error)]
pub enum NotesError {
    /// No response came, sending or receiving failed, or a message can't be shown.
    #[error("{0}")]
    Fault(#[source] FetchFault),
    /// The response to the registration has several blocks and no sequence number.
    #[error("the answer has more than one block and no Observe: the server doesn't notify of changes, or has no place for another observer; `fcreq get` fetches all of it")]
    Unobserved,
    /// A line can't be printed.
    #[error("{0}")]
    Print(#[source] PrintError),
    /// A line on standard error can't be written.
    #[error("standard error: {0}")]
    Report(#[source] io::Error),
    /// Memory can't be allocated.
    #[error("{0}")]
    Memory(#[source] AllocError),
}

impl From<FetchFault> for NotesError {
    ghost from_gives = { λ fault error. error ≡ notes_error.Fault fault };

    fn from(fault: FetchFault) -> NotesError {
        NotesError::Fault(fault)
    }
}

impl From<PrintError> for NotesError {
    ghost from_gives = { λ fault error. error ≡ notes_error.Print fault };

    fn from(fault: PrintError) -> NotesError {
        NotesError::Print(fault)
    }
}

impl From<AllocError> for NotesError {
    ghost from_gives = { λ fault error. error ≡ notes_error.Memory fault };

    fn from(fault: AllocError) -> NotesError {
        NotesError::Memory(fault)
    }
}

/// Observes a resource and prints one line for each state.
///
/// It registers, prints the response, then prints each notification that is newer than the one
/// accepted before it, and deregisters. A state that is superseded or can't be fetched is accepted
/// too.
///
/// Returns:
///
/// - `Done` after as many lines or seconds as are wanted.
/// - `Refused` if a response is an error or has no sequence number. That response is printed, and
///   the server sends no notification after it.
/// - The status of [`fetch`](crate::fetch) if the target is bad, or if no response came to the
///   registration or the deregistration.
/// - `Failed` if a notification can't be shown.
///
/// The reason is written to `console.err`.
pub fn observe<R: Net + Clock + RandomSource, W: Write, E: Write>(
    rt: &R,
    console: &mut Console<W, E>,
    observing: &Observing<'_>,
) -> Status {
    observe_by(&System { rt }, console, observing)
}

/// Observes a resource of a server that `connector` connects to.
///
/// Prints one line for each state. Returns the status of [`observe`], and writes the reason of a
/// failure to `console.err`.
pub fn observe_by<C: Connector, W: Write, E: Write>(
    connector: &C,
    console: &mut Console<W, E>,
    observing: &Observing<'_>,
) -> Status
    ensures { HasEnded (IsObserved C.connected C.drawn C.Server.went C.Server.came C.Server.is_time C.Server.called observing.now
        (written_to W.contents E.contents console.old) (written_to W.contents E.contents console.new))
        (IsObserveStop C.connected C.drawn C.Server.went C.Server.came C.Server.tried C.Server.is_time C.Server.is_error C.Server.called observing.now) result }
{
    match observe_to_end(connector, console, observing) {
        Ok(end) => finish(&mut console.err, end),
        Err(stop) => tell(&mut console.err, &stop, stop.status()),
    }
}

// Returns the status of a program whose observation ended: `Refused` after a last response, and
// else `Done`. If the last response is a success, writes to `err` that it has no sequence number.
// Returns `Failed` if that line can't be written.
fn finish<E: Write>(err: &mut E, end: ObservationEnd) -> Status
    ensures { IsToldEnd end (E.contents err.old) (E.contents err.new) result }
{
    match end {
        ObservationEnd::Counted | ObservationEnd::Over => Status::Done,
        ObservationEnd::Last(code) if code.class() == SUCCESS => match write_unobserved(err) {
            Ok(()) => Status::Refused,
            Err(_) => Status::Failed,
        },
        ObservationEnd::Last(_) => Status::Refused,
    }
}

// Reports in a line that the last response has no sequence number. Returns an error if writing
// fails.
fn write_unobserved<E: Write>(err: &mut E) -> io::Result<()>
    ensures { OnOk result (Appends (E.contents err.old) (E.contents err.new) unobserved_text) }
{
    writeln!(
        err,
        "the answer has no Observe: the server doesn't notify of changes, or has no place for another observer"
    )
}

// Observes the target, and returns how the observation ends, or the reason if it fails.
fn observe_to_end<'a, C: Connector, W: Write, E: Write>(
    connector: &C,
    console: &mut Console<W, E>,
    observing: &Observing<'a>,
) -> Result<ObservationEnd, FetchStop<'a>>
    ensures ended { IfOk result (IsObservedIn C.connected C.drawn C.Server.went C.Server.came C.Server.is_time C.Server.called observing.now
        (written_to W.contents E.contents console.old) (written_to W.contents E.contents console.new)) }
    ensures stop { IfErr result (IsObserveStop C.connected C.drawn C.Server.went C.Server.came C.Server.tried C.Server.is_time C.Server.is_error C.Server.called observing.now) }
{
    let address = address_of(console.alloc, observing.target, observing.port)?;
    let target = resource_at(console.alloc, &address)?;
    match ClientRequest::new(true, Method::Get, target, &[]) {
        Some(client_request) => observe_client_request(
            connector,
            console,
            observing,
            &client_request,
            address.server,
        ),
        None => Err(FetchStop::Room),
    }
}

// Observes the client request's resource at the server of this address, with a random token and
// message ID. Returns how the observation ends, or the reason if it fails.
fn observe_client_request<'a, C: Connector, W: Write, E: Write>(
    connector: &C,
    console: &mut Console<W, E>,
    observing: &Observing<'a>,
    client_request: &ClientRequest<'_>,
    address: SocketAddrV4,
) -> Result<ObservationEnd, FetchStop<'a>>
    ensures ended { IfOk result (IsObservedAt C.connected C.drawn C.Server.went C.Server.came C.Server.is_time C.Server.called observing.now
        client_request.now address (written_to W.contents E.contents console.old) (written_to W.contents E.contents console.new)) }
    ensures stop { IfErr result (IsClientRequestStop C.connected C.drawn C.Server.went C.Server.came C.Server.tried C.Server.is_time C.Server.is_error C.Server.called observing.now
        client_request.now address) }
{
    let mut token = [0; TOKEN];
    if let Err(error) = connector.draw(&mut token) {
        return Err(FetchStop::Random(error));
    }
    let observer = Observer {
        client_request,
        token,
        id: first_id(connector)?,
    };
    let mut server = connect(connector, address)?;
    let mut buffer = [0; BUFFER];
    let printer = NotePrinter {
        observer: &observer,
        shown: observing.shown,
        extent: observing.extent,
    };
    match printer.print_to_end(&mut server, console, &mut buffer) {
        Ok(end) => Ok(end),
        Err(error) => Err(FetchStop::Notes(error)),
    }
}

/// A printer of an observer's notes, with their form and the extent of the observation.
#[derive(Clone, Copy)]
pub struct NotePrinter<'a> {
    pub observer: &'a Observer<'a>,
    pub shown: Shown,
    pub extent: ObservationExtent,
}

impl<'a> NotePrinter<'a> {
    /// Registers, prints the notes, and deregisters if the server may still notify.
    ///
    /// [`print_notes`](NotePrinter::print_notes) prints the notes. The server sends no notification
    /// after a last response. After an error the server may still notify, unless it rejected the
    /// registration or sent no response.
    ///
    /// # Errors
    /// Returns the reason as a [`NotesError`]. Some lines may have been printed.
    pub fn print_to_end<P: Peer, W: Write, E: Write>(
        &self,
        peer: &mut P,
        console: &mut Console<W, E>,
        buffer: &mut Buffer,
    ) -> Result<ObservationEnd, NotesError>
        ensures shown { IfOk result (λ end. HasShown P.went P.came P.is_time
            (λ rs. MakesCalls (P.called peer.old) (P.called peer.new) (ObservesToEnd self.now.observer.now self.now.extent.seconds end rs))
            self.now.observer.now self.now.shown (lines_wanted self.now.extent.count)
            (written_to W.contents E.contents console.old) (written_to W.contents E.contents console.new) end) }
        ensures left { IfOk result (HasLeft P.went P.came self.now.observer.now) }
        ensures fault { IfErr result (IsEndFault P.went P.came P.is_time P.is_error P.called peer.old peer.new
            self.now.observer.now self.now.extent.seconds) }
        ensures leaves { OnErr result (LeavesAtFault P.called P.is_error P.tried peer.old peer.new self.now.observer.now) }
    {
        let leaving = self.observer.deregistration(console.alloc)?;
        match self.print_notes(peer, console, buffer) {
            Ok(end) => {
                leave(peer, self.observer, &leaving, end, buffer)?;
                Ok(end)
            }
            Err(error) => {
                if may_notify(&error) {
                    let _ended = self.observer.deregister_by(peer, &leaving, buffer);
                }
                Err(error)
            }
        }
    }

    /// Registers, and prints the response and later notifications, one line each.
    ///
    /// Returns how the observation ends: as many lines were printed as are wanted, the time is
    /// over, or no further notification comes. Each note came, each state is newer than the one
    /// before it (RFC 7641, section 3.4), and none is printed twice. The blocks of a state of
    /// several blocks are joined. If a newer notification arrives meanwhile, the state isn't
    /// printed. If the state's further blocks can't be fetched, a line on `console.err` reports the
    /// failure.
    ///
    /// # Errors
    /// Returns the reason as a [`NotesError`]. Some lines may have been printed.
    pub fn print_notes<P: Peer, W: Write, E: Write>(
        &self,
        peer: &mut P,
        console: &mut Console<W, E>,
        buffer: &mut Buffer,
    ) -> Result<ObservationEnd, NotesError>
        ensures shown { IfOk result (λ end. HasShown P.went P.came P.is_time
            (λ rs. MakesCalls (P.called peer.old) (P.called peer.new) (IsTimedObservation self.now.observer.now self.now.extent.seconds end rs))
            self.now.observer.now self.now.shown (lines_wanted self.now.extent.count)
            (written_to W.contents E.contents console.old) (written_to W.contents E.contents console.new) end) }
        ensures fault { IfErr result (IsNotesFault P.went P.came P.is_time P.is_error P.called peer.old peer.new
            self.now.observer.now self.now.extent.seconds) }
    {
        let (watch, count) = match self.print_first(
            console.alloc,
            peer,
            &mut console.out,
            buffer,
        )? {
            First::State(watch, count) => (watch, count),
            First::Only(code) => return Ok(ObservationEnd::Last(code)),
        };
        begin_wait(peer, first_wait(self.extent.seconds))?;
        let limit = TimeLimit {
            seconds: self.extent.seconds,
            start: watch.at,
        };
        let renderer = NoteRenderer {
            observer: self.observer,
            shown: self.shown,
            limit,
        };
        let mut progress = Progress {
            watch,
            next_id: self.observer.id.wrapping_add(2),
            buffer,
        };
        let mut next = Some(NotedMessage {
            count,
            time: limit.start,
            last: false,
        });
        for _ in 0..lines_wanted(self.extent.count) {
            let ended = renderer.print_line(peer, console, &mut progress, next)?;
            match ended {
                None => next = None,
                Some(end) => return Ok(end),
            }
        }
        Ok(ObservationEnd::Counted)
    }

    // Registers the observer, and prints the response if no notification follows it. Returns
    // `First::Only` with the response's code then. Otherwise returns `First::State` with the length
    // of the response in bytes, which is at the start of `buffer`. Returns an error if registering,
    // reading the clock or printing fails, if the response can't be shown, or if memory can't be
    // allocated.
    fn print_first<P: Peer, W: Write>(
        &self,
        alloc: Global,
        peer: &mut P,
        out: &mut W,
        buffer: &mut Buffer,
    ) -> Result<First, NotesError>
        ensures shown { IfOk result (IsFirstShown P.went P.came P.is_time self.now.observer.now self.now.shown
            (W.contents out.old) (W.contents out.new) buffer.new) }
        ensures called { IfOk result (λ first. MakesCalls (P.called peer.old) (P.called peer.new)
            (IsFirstBy self.now.observer.now first)) }
        ensures fault { IfErr result (IsFirstFault P.came P.is_error (MakesCalls (P.called peer.old) (P.called peer.new))
            self.now.observer.now) }
    {
        let count = self.observer.register(alloc, peer, buffer)?;
        let Ok(message) = read(&buffer[..count]) else {
            unreachable!();
        };
        let at = time(peer)?;
        match notice_of(&message) {
            NotificationClass::State(sequence) => {
                let watch = Observation::first(alloc, sequence, at, &message)?;
                Ok(First::State(watch, count))
            }
            NotificationClass::Last => {
                write_note(alloc, out, self.shown, message.code(), message.payload())?;
                Ok(First::Only(message.code()))
            }
            NotificationClass::Older | NotificationClass::Malformed => Err(unfit(&message)),
        }
    }
}

// Deregisters, if the server may still notify.
// The request is `leaving`. After a last response the server sends no notification. Returns the
// error of `Observer::deregister_by`.
fn leave<P: Peer>(
    peer: &mut P,
    observer: &Observer<'_>,
    leaving: &Datagram,
    end: ObservationEnd,
    buffer: &mut Buffer,
) -> Result<(), FetchFault>
    requires { leaving.now.items ≡ deregistration_of observer.now }
    ensures left { OnOk result (HasLeft P.went P.came observer.now end) }
    ensures called { OnOk result (MakesCalls (P.called peer.old) (P.called peer.new) (IsLeaving observer.now end)) }
    ensures tried { OnErr result (P.tried (deregistration_of observer.now)) }
    ensures fault { IfErr result (IsLeavingFault P.is_error (MakesCalls (P.called peer.old) (P.called peer.new)) observer.now) }
{
    match end {
        ObservationEnd::Last(_) => Ok(()),
        ObservationEnd::Counted | ObservationEnd::Over => {
            observer.deregister_by(peer, leaving, buffer)
        }
    }
}

// Returns whether a server may have the observer after this error. Returns `false` if the server
// rejected the registration, or if no response to the registration came.
fn may_notify(error: &NotesError) -> bool
    ensures { result ≡ spec.may_notify error.now }
{
    !matches!(
        error,
        NotesError::Fault(FetchFault::Rejected | FetchFault::Silence)
    )
}

// Returns the maximum number of lines: at least one, and 2^64 - 1 without a limit.
fn lines_wanted(count: Option<u32>) -> u64
    ensures wanted { result ≡ lines_wanted count }
    ensures some { 1 ≤ result }
{
    match count {
        Some(count) => u64::from(count.max(1)),
        None => u64::MAX,
    }
}

// The response to a registration: a state, which notifications follow, with the number of its bytes
// at the start of the buffer; or the last response, of this code, which was printed.
#[derive(Drop)]
enum First {
    State(Observation, usize),
    Only(Code),
}

// Returns the error for a response to the registration that can't be shown.
fn unfit(message: &Message<'_>) -> NotesError
    ensures { result ≡ unfit_error message.now }
{
    if is_unobserved(message) {
        NotesError::Unobserved
    } else {
        NotesError::Fault(FetchFault::Part)
    }
}
