//! Playing lines: an ingress executes each line, and its output is printed.
//!
//! The ingress is a server on one thread, or a server whose workers are waited for.
ghost use Rattle.std.specs.Prelude.{◌≡◌, ◌++◌, ⊤, ℕ, Err, List, Option, OnOk};
ghost use Rattle.std.specs.Io.KnownBytes.{Appends, IsAtEnd};
ghost use Rattle.coap_msg.specs.declared.types.Emission.{Emission};
ghost use Rattle.fc_cli.specs.declared.stop.Stop.TheVariants.{BadLine};
ghost use Rattle.fc_front.specs.Receiving.{emission_if};
ghost use Rattle.fc_lines.specs.Lines.{IsNoLine};
ghost use Rattle.fc_service.specs.Playing.{HasPlayed, IsCarriedOutBy, IsHandedBy, IsPlayedBy, PlayedLine, StopsAt, time_of, output_by, output_of, printed_steps};
ghost use Rattle.fc_server.specs.Flushing.{AreFlushed, AreStepsBy, FlushingStep};

use coap_msg::Emission;
use fc_cli::stop::Stop;
use fc_front::front::blank_emission;
use fc_help::Readings;
use fc_lines::emission::{endpoint, print};
use fc_lines::line::{Line, LineError, parse};
use fc_server::Ingress;
use fc_server::flush::{Flushing, STEPS};
use fc_server::ingress::is_reply;
use std::alloc::{AllocError, Global};
use std::io;
use std::io::{BufRead, Write};

/// An ingress whose jobs get the readings of the played lines.
pub(crate) trait LineIngress: Ingress {
    // A relation: from this call on, jobs get the readings. The states are those of the ingress
    // before and after the call.
    ghost hands: { List ℕ → Self → Self → Type 0 } = { λ readings old new. ⊤ };

    /// Sets the readings that jobs get from this call on.
    fn hand(&mut self, readings: &Readings)
        ensures { hands readings.now self.old self.new };
}

/// Reads lines, executes each line, and prints the sent datagrams.
///
/// A line's output is printed before the next line is read. The output has the response to the
/// line's datagram, then the retransmissions and the notifications at the line's time.
///
/// # Errors
/// Returns `BadLine` with the number of the first bad line, counted from 1. Exactly the
/// lines before the bad line were played, and exactly their output was printed. Returns `Input` or
/// `Output` if reading or writing failed, and `Memory` if memory for a line can't be allocated.
pub(crate) fn play_lines<N: LineIngress, R: BufRead + Drop, W: Write>(
    alloc: Global,
    ingress: &mut N,
    input: R,
    out: &mut W,
) -> Result<(), Stop>
    ensures played { OnOk result ((left : Option (List ℕ)) × HasPlayed N.hands N.calls ingress.old ingress.new
        (R.remaining input) left (W.contents out.old) (W.contents out.new) × IsAtEnd left) }
    ensures bad { (number : ℕ) → result ≡ Err (BadLine number)
        → StopsAt N.hands N.calls number ingress.old ingress.new (R.remaining input) (W.contents out.old) (W.contents out.new) }
{
    let mut reply = blank_emission();
    let mut number = 0u64;
    for text in input.split(alloc, b'\n') {
        number = number.saturating_add(1);
        match text {
            Ok(text) => play_line(alloc, ingress, &mut reply, &text, number, out)?,
            Err(error) => return Err(Stop::at_line(error, number)),
        }
    }
    Ok(())
}

// Parses `text`, executes the line, and prints the line's output. Returns `BadLine` with `number`
// if the line is bad; nothing is executed or printed then. Returns `Output` if printing fails, and
// `Memory` if memory for the line can't be allocated.
fn play_line<N: LineIngress, W: Write>(
    alloc: Global,
    ingress: &mut N,
    reply: &mut Emission,
    text: &[u8],
    number: u64,
    out: &mut W,
) -> Result<(), Stop>
    ensures played { OnOk result ((p : PlayedLine) × (p.text ≡ text.now)
        × IsPlayedBy N.hands N.calls p ingress.old ingress.new
        × Appends (W.contents out.old) (W.contents out.new) (output_by p)) }
    ensures bad { (stop : ℕ) → result ≡ Err (BadLine stop)
        → (stop ≡ number) × IsNoLine text.now × (ingress.new ≡ ingress.old) × (W.contents out.new ≡ W.contents out.old) }
{
    match parse(alloc, text) {
        Ok(line) => {
            hand(ingress, &line);
            if let Err(error) = carry_out(ingress, reply, &line, out) {
                return Err(Stop::Output(error));
            }
            match flush(ingress, time(&line), reply, out) {
                Ok(()) => Ok(()),
                Err(error) => Err(Stop::Output(error)),
            }
        }
        Err(LineError::Bad) => Err(Stop::BadLine(number)),
        Err(LineError::NoMemory) => Err(Stop::Memory(AllocError)),
    }
}

// Sets the readings that jobs get to those that the line gives. If it gives none, nothing changes.
fn hand<N: LineIngress>(ingress: &mut N, line: &Line)
    ensures { IsHandedBy N.hands N.calls line.now ingress.old ingress.new }
{
    match line {
        Line::Device { readings, .. } => ingress.hand(readings),
        Line::Tick { .. } | Line::Deliver { .. } => {}
    }
}

// Executes a line, and prints its immediate response, if there is one. The response is written over
// `reply`. Returns an error if printing fails.
fn carry_out<N: LineIngress, W: Write>(
    ingress: &mut N,
    reply: &mut Emission,
    line: &Line,
    out: &mut W,
) -> io::Result<()>
    ensures { (sent : Option Emission) × IsCarriedOutBy N.hands N.calls line.now ingress.old sent ingress.new
        × OnOk result (Appends (W.contents out.old) (W.contents out.new) (output_of sent)) }
{
    match line {
        Line::Tick { now } | Line::Device { now, .. } => {
            ingress.tick(*now);
            Ok(())
        }
        Line::Deliver { now, peer, bytes } => {
            let handled = ingress.handle(*now, endpoint(*peer), bytes, reply);
            print_if(out, is_reply(handled), reply)
        }
    }
}

// Returns the time of a line, in milliseconds.
fn time(line: &Line) -> u64
    ensures { result ≡ time_of line.now }
{
    match line {
        Line::Tick { now } | Line::Deliver { now, .. } | Line::Device { now, .. } => *now,
    }
}

// Sends and prints the retransmissions and the notifications at `now`, in milliseconds. Stops if no
// notification is left, if no message ID is available, or after 8,192 steps. Each datagram is
// written over `emission`. Returns an error if printing fails.
fn flush<N: Ingress, W: Write>(
    ingress: &mut N,
    now: u64,
    emission: &mut Emission,
    out: &mut W,
) -> io::Result<()>
    ensures { (steps : List FlushingStep) × AreStepsBy N.calls now steps ingress.old ingress.new
        × OnOk result (AreFlushed steps × Appends (W.contents out.old) (W.contents out.new) (printed_steps steps)) }
{
    let mut flushing = Flushing::begin(ingress, now);
    'steps: for taken in 0..STEPS {
        if flushing.is_at_end() {
            return Ok(());
        }
        let sent = flushing.step(ingress, now, emission);
        print_if(out, sent, emission)?;
    }
    Ok(())
}

// Prints an emission if `sent`. Returns an error if printing fails.
fn print_if<W: Write>(out: &mut W, sent: bool, emission: &Emission) -> io::Result<()>
    ensures { OnOk result (Appends (W.contents out.old) (W.contents out.new) (output_of (emission_if sent emission.now))) }
{
    if sent { print(out, emission) } else { Ok(()) }
}
