//! Command lines, for all programs.
ghost use Rattle.std.specs.Prelude.{◌≡◌, ◌⊎◌, IfErr, IfOk};
ghost use Rattle.clap.specs.Values.{kind_of};
ghost use Rattle.std.specs.Process.{exit_status};
ghost use Rattle.fc_cli.specs.Ending.{Ends, IsExplained, MayReturn, explained, status_number};

use crate::status::Status;
use clap::error::ErrorKind;
use clap::{ArgMatches, Command, Error};
use std::io;
use std::io::Write;
use std::process::ExitCode;
use std::rt::Runtime;

/// The output of `--version`, which names the kit that proves these sources.
///
/// The kit that built the program may be another one.
pub const VERSION: &str = "0.1.0, of sources that rattle-kit-13f logic dac8208d650f15bf proves";

/// Returns the words of the command line, or `None` if one of them isn't UTF-8.
///
/// In that case a message is written to `err`, and the caller is to end with `Bad`.
///
/// # Errors
/// Returns an error if the words can't be read, if memory can't be allocated, or if `err` fails.
pub fn words<R: Runtime + AllocGlobal, E: Write>(
    rt: &R,
    err: &mut E,
) -> anyhow::Result<Option<Vec<String>>> {
    match std::env::args(rt) {
        Ok(words) => Ok(Some(words.collect(rt.alloc())?)),
        Err(error) if error.kind() == io::ErrorKind::InvalidData => {
            writeln!(err, "error: a word of the command line isn't UTF-8")?;
            Ok(None)
        }
        Err(error) => Err(error.into()),
    }
}

/// Prints why the command line's words aren't a command, and returns the program's status.
///
/// `error` is clap's reason. If the words ask for help or the version, the text is printed to
/// standard output, and the status is `Done`. Any other reason is printed to standard error. The
/// status is then `Failed` if memory couldn't be allocated, and else `Bad`.
///
/// # Errors
/// Returns an error if printing fails.
pub fn explain<R: Runtime>(rt: &R, error: &Error) -> anyhow::Result<Status>
    ensures { IfOk result (λ status. status ≡ explained (kind_of error.now)) }
{
    error.print(rt)?;
    Ok(match error.kind() {
        ErrorKind::OutOfMemory => Status::Failed,
        ErrorKind::DisplayHelp | ErrorKind::DisplayVersion => Status::Done,
        _ => Status::Bad,
    })
}

/// Parses the words of the command line as `command` defines them.
///
/// If the words don't match, prints why and returns the program's status as the inner error. The
/// status is `Done` for words that ask for help or the version. Otherwise it is `Failed` if memory
/// couldn't be allocated, and else `Bad`.
///
/// # Errors
/// Returns an error if printing fails.
pub fn parse<'a, R: Runtime>(
    rt: &R,
    command: Command<'a>,
    words: &'a [String],
) -> anyhow::Result<Result<ArgMatches<'a>, Status>>
    ensures { IfOk result (λ parsed. IfErr parsed IsExplained) }
{
    match command.try_get_matches_from(words) {
        Ok(matches) => Ok(Ok(matches)),
        Err(error) => Ok(Err(explain(rt, &error)?)),
    }
}

/// Returns the exit code of `main`, from the result of the program.
///
/// The exit code is that of the status. An error is written to `err`, and has the exit status 3.
pub fn exit_code<E: Write>(err: &mut E, ended: anyhow::Result<Status>) -> ExitCode
    ensures ended { IfOk ended (λ status. exit_status result ≡ status_number status) }
    ensures failed { IfErr ended (λ _. exit_status result ≡ 3) }
{
    match ended {
        Ok(status) => ExitCode::from(status),
        Err(error) => {
            let _told = writeln!(err, "{error}");
            ExitCode::from(Status::Failed)
        }
    }
}

/// Calls `work` with the words of the command line, and returns the exit code.
///
/// `work` writes its messages to `err`. If a word isn't UTF-8, `work` isn't called, `err` gets a
/// message, and the exit status is 2. An error is written to `err`, and has the exit status 3.
pub fn run_main<R, E, F>(rt: &R, err: &mut E, work: F) -> ExitCode
where
    R: Runtime + AllocGlobal,
    E: Write,
    F: FnOnce(&mut E, &[String]) -> anyhow::Result<Status>,
    requires { F.IsAlwaysCallable work }
    ensures { Ends (MayReturn (F.post work)) (exit_status result) }
{
    let ended = run_words(rt, err, work);
    exit_code(err, ended)
}

// Calls `work` with the words of the command line, and returns its status.
//
// Returns `Bad` without the call if a word isn't UTF-8. Returns the error of `words` or of `work`.
fn run_words<R, E, F>(rt: &R, err: &mut E, work: F) -> anyhow::Result<Status>
where
    R: Runtime + AllocGlobal,
    E: Write,
    F: FnOnce(&mut E, &[String]) -> anyhow::Result<Status>,
    requires { F.IsAlwaysCallable work }
    ensures { IfOk result (λ status. (status ≡ Status.Bad) ⊎ MayReturn (F.post work) status) }
{
    match words(rt, err)? {
        Some(words) => work(err, &words),
        None => Ok(Status::Bad),
    }
}
