//! Playing lines on one thread, for `fcd play` without `--workers`.
ghost use Rattle.std.specs.Prelude.{◌≡◌, ℕ, Err, OnOk};
ghost use Rattle.fc_cli.specs.declared.status.Status.TheVariants.{Bad, Done};
ghost use Rattle.fc_cli.specs.declared.stop.Stop.TheVariants.{BadLine};
ghost use Rattle.fc_server.specs.States.{CanBegin};
ghost use Rattle.fc_service.specs.Playing.{IsPlayedOut, IsPlayedUpTo};

use crate::lines::play_lines;
use fc_cli::status::{Status, tell};
use fc_cli::stop::Stop;
use fc_server::{Begin, SingleThread};
use std::alloc::Global;
use std::io::{BufRead, Write};

/// Plays lines on a new single-threaded server, and prints the sent datagrams.
///
/// A line's output is printed before the next line is read. The output has the response to the
/// line's datagram, then the retransmissions and the notifications at the line's time. The result
/// is:
///
/// - `Done` at the end of the input. Each line was executed once, in order, and exactly the lines'
///   output was printed.
/// - `Bad` if a line is bad. The lines before the bad line were executed once, in order, and
///   exactly their output was printed. The bad line's number, counted from 1, is written to `err`.
/// - `Failed` if reading or writing failed, or if memory for the server or a line couldn't be
///   allocated. The reason is written to `err`.
pub fn play<R: BufRead + Drop, W: Write, E: Write>(
    alloc: Global,
    input: R,
    out: &mut W,
    err: &mut E,
    begin: Begin,
) -> Status
    requires { CanBegin begin }
    ensures done { result ≡ Done → IsPlayedOut begin (R.remaining input) (W.contents out.old) (W.contents out.new) }
    ensures bad { result ≡ Bad → (number : ℕ) × IsPlayedUpTo number begin (R.remaining input) (W.contents out.old) (W.contents out.new) }
{
    match play_alone(alloc, input, out, begin) {
        Ok(()) => Status::Done,
        Err(stop) => tell(err, &stop, stop.status()),
    }
}

// Plays lines as `play` does. Returns why playing stopped, or `Ok` at the end of the input.
fn play_alone<R: BufRead + Drop, W: Write>(
    alloc: Global,
    input: R,
    out: &mut W,
    begin: Begin,
) -> Result<(), Stop>
    requires { CanBegin begin }
    ensures done { OnOk result (IsPlayedOut begin (R.remaining input) (W.contents out.old) (W.contents out.new)) }
    ensures bad { (number : ℕ) → result ≡ Err (BadLine number) → IsPlayedUpTo number begin (R.remaining input) (W.contents out.old) (W.contents out.new) }
{
    let mut alone = match SingleThread::new(alloc, &begin) {
        Ok(alone) => alone,
        Err(error) => return Err(Stop::Memory(error)),
    };
    play_lines(alloc, &mut alone, input, out)
}
