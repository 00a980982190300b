//! The rendering of an observer's notes: a line of output for each, or the reason why not.
//!
//! The blocks of a state of several blocks are joined before it is printed.
ghost use Rattle.std.specs.Prelude.{◌≡◌, ℕ, IfErr, IfOk, IfSome, None, OnErr, OnOk, is_some, true, take};
ghost use Rattle.std.specs.Io.KnownBytes.{Appends};
ghost use Rattle.coap_observer.specs.Representations.{IsBegun, begun, state_of};
ghost use Rattle.coap_client.specs.Requests.{IsBlock};
ghost use Rattle.coap_client.specs.Transmissions.{MakesCalls};
ghost use Rattle.coap_msg.specs.Reading.{reading_of};
ghost use Rattle.coap_msg.specs.Wire.{Message as Read};
ghost use Rattle.fc_fetch.specs.Observing.{AwaitsNext, HasCalled, HasMessage, HasNewer, IsAwaitFault, IsBeforeNext, IsLastPrinted, IsLaterFault, IsLineOrEnd, IsNextNoted, IsNoMemory, IsRenderedAs, IsRenderFault, ObservesNotes};
ghost use Rattle.fc_fetch.specs.Rendering.{Written, has_further, missing_text, note_text, written_to};

use crate::console::Console;
use crate::observer::{NotesError, ObservationEnd};
use crate::printer::{PrintError, Shown, write_note};
use crate::waits::{TimeLimit, await_note, begin_rest};
use coap_client::peer::Buffer;
use coap_client::{FetchFault, Peer};
use coap_msg::{Message, read};
use coap_observer::{Completion, Joining, NotedMessage, Observation, Observer, Unfetched};
use std::alloc::Global;
use std::io;
use std::io::Write;

// The effect of rendering a state.
#[derive(Clone, Copy, PartialEq, Eq)]
pub(crate) enum Rendered {
    // It was printed.
    Line,
    // Its further blocks can't be fetched.
    Missing,
    // This newer notification arrived while its further blocks were requested.
    Newer(NotedMessage),
    // A newer notification arrived, and the time was over.
    Over,
}

// A renderer of an observer's notes, with their form and a time limit.
#[derive(Clone, Copy)]
pub(crate) struct NoteRenderer<'a> {
    pub(crate) observer: &'a Observer<'a>,
    pub(crate) shown: Shown,
    pub(crate) limit: TimeLimit,
}

// The progress of an observation: the client's data of its notes, and the next message ID for a
// further block. The message that came last is at the start of `buffer`.
#[derive(Drop)]
pub(crate) struct Progress<'a> {
    pub(crate) watch: Observation,
    pub(crate) next_id: u16,
    pub(crate) buffer: &'a mut Buffer,
}

impl<'a> NoteRenderer<'a> {
    // Renders notes until one is printed as a line, and returns `None`. Returns how the observation
    // ends if the time is over, or after the last note is printed. The first note is `next`, if
    // there is one. Returns an error if a note can't be shown, if printing or a call of the peer
    // fails, or if memory can't be allocated.
    pub(crate) fn print_line<P: Peer, W: Write, E: Write>(
        &self,
        peer: &mut P,
        console: &mut Console<W, E>,
        progress: &mut Progress<'_>,
        next: Option<NotedMessage>,
    ) -> Result<Option<ObservationEnd>, NotesError>
        requires { IfSome next (HasMessage progress.old.buffer.now) }
        ensures line { let o = self.now.observer.now in let limit = self.now.limit in
            IfOk result (λ end. (begun : P) (before : Written) (lines : ℕ) →
            IsBeforeNext P.went P.came P.is_time
            (HasCalled (MakesCalls (P.called begun) (P.called peer.old)) o progress.old.next_id (ObservesNotes o limit.seconds limit.start))
            o self.now.shown before (written_to W.contents E.contents console.old) lines progress.old.watch progress.old.buffer.now next →
            IsLineOrEnd P.went P.came P.is_time (MakesCalls (P.called begun) (P.called peer.new)) o self.now.shown limit.seconds limit.start
            before (written_to W.contents E.contents console.new) lines progress.new.watch progress.new.next_id end) }
        ensures fault { let o = self.now.observer.now in let limit = self.now.limit in
            IfErr result (λ error. (begun : P) (before : Written) (lines : ℕ) →
            IsBeforeNext P.went P.came P.is_time
            (HasCalled (MakesCalls (P.called begun) (P.called peer.old)) o progress.old.next_id (ObservesNotes o limit.seconds limit.start))
            o self.now.shown before (written_to W.contents E.contents console.old) lines progress.old.watch progress.old.buffer.now next →
            IsLaterFault P.went P.came P.is_time P.is_error P.called begun peer.new o (ObservesNotes o limit.seconds limit.start) error) }
    {
        let mut next = next;
        for _ in 0..u64::MAX {
            let Some(noted) = self.next_note(peer, &mut progress.watch, progress.buffer, next)?
            else {
                return Ok(Some(ObservationEnd::Over));
            };
            if noted.last {
                let end = print_last(
                    console.alloc,
                    &mut console.out,
                    self.shown,
                    noted,
                    progress.buffer,
                )?;
                return Ok(Some(end));
            }
            match self.render(peer, console, progress, noted)? {
                Rendered::Line => return Ok(None),
                Rendered::Missing => next = None,
                Rendered::Newer(newer) => next = Some(newer),
                Rendered::Over => return Ok(Some(ObservationEnd::Over)),
            }
        }
        Ok(Some(ObservationEnd::Over))
    }

    // Returns `next`, or waits for the next note if `next` is `None`. Returns `None` if the time is
    // over. Returns an error if a note can't be shown, if a call of the peer fails, or if memory
    // can't be allocated.
    fn next_note<P: Peer>(
        &self,
        peer: &mut P,
        watch: &mut Observation,
        buffer: &mut Buffer,
        next: Option<NotedMessage>,
    ) -> Result<Option<NotedMessage>, FetchFault>
        requires { IfSome next (HasMessage buffer.old) }
        ensures message { IfOk result (λ noted. IfSome noted (HasMessage buffer.new)) }
        ensures noted { IfOk result (IsNextNoted P.went P.came P.is_time self.now.observer.now.token
            watch.old watch.new buffer.old buffer.new next) }
        ensures called { IfOk result (λ noted. MakesCalls (P.called peer.old) (P.called peer.new)
            (AwaitsNext self.now.observer.now.token (is_some self.now.limit.seconds) next noted)) }
        ensures awaited { OnErr result (next ≡ None) }
        ensures fault { IfErr result (IsAwaitFault P.came P.is_time P.is_error (MakesCalls (P.called peer.old) (P.called peer.new))
            self.now.observer.now (is_some self.now.limit.seconds) watch.old) }
    {
        let ends = self.limit.seconds.is_some();
        match next {
            Some(noted) => Ok(Some(noted)),
            None => await_note(peer, self.observer, watch, ends, buffer),
        }
    }

    // Renders a state: prints it, or first requests its further blocks if it has several. Returns
    // the effect. Returns an error if a notification can't be shown, if writing or a call of the
    // peer fails, or if memory can't be allocated.
    fn render<P: Peer, W: Write, E: Write>(
        &self,
        peer: &mut P,
        console: &mut Console<W, E>,
        progress: &mut Progress<'_>,
        noted: NotedMessage,
    ) -> Result<Rendered, NotesError>
        requires { HasMessage progress.old.buffer.now noted }
        ensures message { IfOk result (HasNewer progress.new.buffer.now) }
        ensures rendered { let limit = self.now.limit in
            IfOk result (λ rendered. (m : Read) → reading_of (take noted.count progress.old.buffer.now) ≡ Ok m →
            IsRenderedAs P.went P.came P.is_time (MakesCalls (P.called peer.old) (P.called peer.new))
            self.now.observer.now self.now.shown limit.seconds limit.start m
            (written_to W.contents E.contents console.old) (written_to W.contents E.contents console.new)
            progress.old.watch progress.new.watch progress.old.next_id progress.new.next_id progress.new.buffer.now rendered) }
        ensures fault { let limit = self.now.limit in
            IfErr result (λ error. (m : Read) → reading_of (take noted.count progress.old.buffer.now) ≡ Ok m →
            IsRenderFault P.went P.came P.is_time P.is_error (MakesCalls (P.called peer.old) (P.called peer.new))
            self.now.observer.now limit.seconds limit.start m progress.old.watch progress.old.next_id error) }
    {
        let message = message_of(progress.buffer, noted);
        match begin_joining(console.alloc, &message)? {
            Some(joining) => self.render_blocks(peer, console, progress, joining),
            None => {
                write_note(
                    console.alloc,
                    &mut console.out,
                    self.shown,
                    message.code(),
                    message.payload(),
                )?;
                Ok(Rendered::Line)
            }
        }
    }

    // Requests the further blocks of a state, and begins the rest of the time again. Returns `Line`
    // after printing the state. Returns `Missing` after reporting that blocks can't be fetched. If
    // a newer notification arrived, returns `Newer`, or `Over` if the time is over. Returns an
    // error if a notification can't be shown, if writing or a call of the peer fails, or if memory
    // can't be allocated.
    fn render_blocks<P: Peer, W: Write, E: Write>(
        &self,
        peer: &mut P,
        console: &mut Console<W, E>,
        progress: &mut Progress<'_>,
        joining: Joining,
    ) -> Result<Rendered, NotesError>
        requires { IsBlock joining.number joining.szx }
        ensures message { IfOk result (HasNewer progress.new.buffer.now) }
        ensures rendered { let limit = self.now.limit in
            IfOk result (λ rendered. (m : Read) → begun m ≡ state_of joining → has_further m ≡ true →
            IsRenderedAs P.went P.came P.is_time (MakesCalls (P.called peer.old) (P.called peer.new))
            self.now.observer.now self.now.shown limit.seconds limit.start m
            (written_to W.contents E.contents console.old) (written_to W.contents E.contents console.new)
            progress.old.watch progress.new.watch progress.old.next_id progress.new.next_id progress.new.buffer.now rendered) }
        ensures fault { let limit = self.now.limit in
            IfErr result (λ error. (m : Read) → begun m ≡ state_of joining → has_further m ≡ true →
            IsRenderFault P.went P.came P.is_time P.is_error (MakesCalls (P.called peer.old) (P.called peer.new))
            self.now.observer.now limit.seconds limit.start m progress.old.watch progress.old.next_id error) }
    {
        let completion = progress.watch.complete(
            console.alloc,
            peer,
            self.observer,
            joining,
            &mut progress.next_id,
            progress.buffer,
        )?;
        let rest = begin_rest(peer, self.limit)?;
        match completion {
            Completion::Whole(code, body) => {
                write_note(console.alloc, &mut console.out, self.shown, code, &body)?;
                Ok(Rendered::Line)
            }
            Completion::Newer(_) if rest == 0 => Ok(Rendered::Over),
            Completion::Newer(noted) => Ok(Rendered::Newer(noted)),
            Completion::Unfetched(cause) => {
                if let Err(error) = write_missing(&mut console.err, cause) {
                    return Err(NotesError::Report(error));
                }
                Ok(Rendered::Missing)
            }
        }
    }
}

// Returns the message of a note, which is at the start of the buffer.
fn message_of(buffer: &Buffer, noted: NotedMessage) -> Message<'_>
    requires { HasMessage buffer.now noted }
    ensures { reading_of (take noted.count buffer.now) ≡ Ok result }
{
    let Ok(message) = read(&buffer[..noted.count]) else {
        unreachable!();
    };
    message
}

// Prints the last note, and returns the end of the observation, with the note's code. Returns an
// error if printing fails, or if memory can't be allocated.
fn print_last<W: Write>(
    alloc: Global,
    out: &mut W,
    shown: Shown,
    noted: NotedMessage,
    buffer: &Buffer,
) -> Result<ObservationEnd, PrintError>
    requires { HasMessage buffer.now noted }
    ensures { IfOk result (λ end. (m : Read) → reading_of (take noted.count buffer.now) ≡ Ok m → IsLastPrinted shown m (W.contents out.old) (W.contents out.new) end) }
{
    let message = message_of(buffer, noted);
    write_note(alloc, out, shown, message.code(), message.payload())?;
    Ok(ObservationEnd::Last(message.code()))
}

// Begins the joining of a state whose first block is `message`. Returns `None` if `message` isn't
// the first of several blocks, and `FetchFault::Memory` if memory can't be allocated.
fn begin_joining(alloc: Global, message: &Message<'_>) -> Result<Option<Joining>, FetchFault>
    ensures begun { IfOk result (IsBegun message.now) }
    ensures refused { IfErr result (λ fault. (has_further message.now ≡ true) × IsNoMemory fault) }
{
    Ok(Joining::begin(alloc, message)?)
}

// Reports in a line that a state isn't printed, and why. Returns an error if writing fails.
fn write_missing<E: Write>(err: &mut E, cause: Unfetched) -> io::Result<()>
    ensures { OnOk result (Appends (E.contents err.old) (E.contents err.new) (missing_text cause)) }
{
    writeln!(err, "a state isn't printed: {cause}")?;
    err.flush()
}
