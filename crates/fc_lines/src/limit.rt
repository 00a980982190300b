//! A limit on the length of the lines that a reader returns, for `fcd play`.
ghost use Rattle.std.specs.Prelude.{◌≡◌, ◌==◌};

use std::io;
use std::io::{ErrorKind, Read};

/// Maximum length of a line, in bytes.
///
/// A line has a time of 20 digits, a peer of three, and the hex digits of 65,507 bytes, the maximum
/// for UDP over IPv4. A space follows the time, and another one the peer.
pub const LONGEST_LINE: usize = 20 + 1 + 3 + 1 + 2 * 65_507;

/// A reader that returns another reader's bytes, and fails if a line is too long.
///
/// Of a line that is too long, it reads at most one byte more than [`LONGEST_LINE`]. Earlier reads
/// have returned all lines before that line.
#[derive(Drop)]
pub struct LineLimit<R: Read + Drop> {
    inner: R,
    length: usize,
}

impl<R: Read + Drop> LineLimit<R> {
    /// Makes a reader of the bytes of `inner`, which is at the beginning of a line.
    pub fn new(inner: R) -> LineLimit<R> {
        LineLimit { inner, length: 0 }
    }

    // Advances past `bytes`, and returns whether the line in which `bytes` begins is short enough.
    // `read` passes at most one byte more than that line may still have, so no later line in
    // `bytes` is too long.
    fn goes_on(&mut self, bytes: &[u8]) -> bool {
        let begun = match bytes.iter().position(is_line_feed) {
            Some(end) => self.length.saturating_add(end),
            None => self.length.saturating_add(bytes.len()),
        };
        self.length = match bytes.iter().rposition(is_line_feed) {
            Some(last) => bytes.len() - 1 - last,
            None => begun,
        };
        begun <= LONGEST_LINE
    }
}

fn is_line_feed(byte: &u8) -> bool
    ensures { result ≡ (byte.now == 10) }
{
    *byte == b'\n'
}

/// Returns the error for a line that is too long.
///
/// `fc_cli::stop::Stop::at_line` turns this error into `BadLine`.
fn too_long() -> io::Error {
    io::Error::from(ErrorKind::InvalidData)
}

impl<R: Read + Drop> Read for LineLimit<R> {
    fn read(&mut self, buf: &mut [u8]) -> io::Result<usize> {
        let left = (LONGEST_LINE + 1).saturating_sub(self.length).max(1);
        let most = buf.len().min(left);
        let count = self.inner.read(&mut buf[..most])?;
        if self.goes_on(&buf[..count]) {
            Ok(count)
        } else {
            Err(too_long())
        }
    }
}
