//! The request of a command line: sending it, and printing or storing its response.
//!
//! An [`Asking`] has the source of the request's body and, if one is named, a file for the
//! response. `fcreq` calls [`ask_by`].

ghost use Rattle.fc_fetch.specs.Asking.{IsAskedBy, IsAskedFor, IsUnread};

use crate::client::{FetchStop, ResponseFile, fetch_by, fetch_to_by};
use crate::connector::Connector;
use crate::console::Console;
use crate::late_file::LateFile;
use crate::operation::{Asking, BodySource};
use fc_cli::status::{Status, tell};
use std::fs::File;
use std::io::{Read, Write};
use std::rt::Files;

/// Sends the request of a command line, and prints or stores its response.
///
/// The body is empty, a text, the bytes of a file, or those of `input` to its end. The response is
/// printed as [`fetch`](crate::fetch) prints it, or the bytes of a success are written to a file.
/// The file is created or emptied only then. `input` isn't read unless it is the body.
///
/// Returns the status of [`fetch`](crate::fetch) or [`fetch_to_by`]. Returns `Failed` if the body's
/// file can't be opened.
pub fn ask_by<C: Connector, R: Files, I: Read, W: Write, E: Write>(
    connector: &C,
    files: &R,
    input: &mut I,
    console: &mut Console<W, E>,
    asking: &Asking<'_>,
) -> Status
    ensures asked { IsAskedFor C.connected C.drawn C.Server.went C.Server.came C.Server.is_error C.Server.called asking.now (I.remaining input.old)
        (W.contents console.old.out) (W.contents console.new.out) result }
    ensures unread { IsUnread asking.now.body input.old input.new }
{
    match asking.body {
        BodySource::None => answer_to(connector, files, &mut b"".as_slice(), console, asking),
        BodySource::Text(text) => answer_to(
            connector,
            files,
            &mut text.as_bytes(),
            console,
            asking,
        ),
        BodySource::Input => answer_to(connector, files, input, console, asking),
        BodySource::File(name) => match File::open(files, name) {
            Ok(mut file) => answer_to(connector, files, &mut file, console, asking),
            Err(error) => tell(
                &mut console.err,
                &FetchStop::Input(name, error),
                Status::Failed,
            ),
        },
    }
}

// Sends the request with the bytes of `input` as its body, to the end. Prints the response, or
// writes it to the file that `asking` names. Returns the client's status.
fn answer_to<C: Connector, R: Files, I: Read, W: Write, E: Write>(
    connector: &C,
    files: &R,
    input: &mut I,
    console: &mut Console<W, E>,
    asking: &Asking<'_>,
) -> Status
    ensures { IsAskedBy C.connected C.drawn C.Server.went C.Server.came C.Server.is_error C.Server.called asking.now (I.remaining input.old)
        (W.contents console.old.out) (W.contents console.new.out) result }
{
    let options = &asking.options;
    match asking.output {
        None => fetch_by(connector, input, console, options),
        Some(name) => {
            let mut file = ResponseFile {
                name,
                file: LateFile::new(files, name),
            };
            fetch_to_by(connector, input, console, &mut file, options)
        }
    }
}
