//! Hexadecimal encoding and decoding of bytes.
ghost use Rattle.std.specs.Prelude.{◌≡◌, ◌*◌, ◌≤◌, ℕ, List, length, IfOk, OnOk};
ghost use Rattle.std.specs.Io.KnownBytes.{Appends};
ghost use Rattle.hex.specs.Hex.{decode_of, encode_lower};
ghost use Rattle.fc_lines.specs.declared.line.LineError.TheVariants.{Bad};

use crate::line::LineError;
use hex::FromHexError;
use std::alloc::Global;
use std::io;
use std::io::Write;

/// Decodes hex digits in upper or lower case, two for each byte.
///
/// # Errors
/// Returns `Bad` if `digits` isn't an even number of hex digits, and `NoMemory` if memory for the
/// bytes can't be allocated.
pub fn decode(alloc: Global, digits: &[u8]) -> Result<Vec<u8>, LineError>
    ensures bytes { IfOk result (λ bytes. decode_of digits.now ≡ Ok bytes.items) }
    ensures bad { result ≡ Err Bad → (bytes : List ℕ) → decode_of digits.now ≡ Ok bytes → ⊥ }
{
    match hex::decode(alloc, digits) {
        Ok(bytes) => Ok(bytes),
        Err(FromHexError::OutOfMemory) => Err(LineError::NoMemory),
        Err(_) => Err(LineError::Bad),
    }
}

/// Maximum number of hex digits of a datagram.
const DIGITS: usize = 2560;

/// Maximum length of a short datagram, in bytes.
const SHORT: usize = 64;

/// Writes a datagram as hex digits in lower case, two for each byte.
///
/// The datagram has at most 1,280 bytes.
///
/// # Errors
/// Returns the writer's error.
pub fn write<W: Write>(out: &mut W, bytes: &[u8]) -> io::Result<()>
    requires { length bytes.now ≤ 1280 }
    ensures { OnOk result (Appends (W.contents out.old) (W.contents out.new) (encode_lower bytes.now)) }
{
    if bytes.len() <= SHORT {
        write_short(out, bytes)
    } else {
        write_long(out, bytes)
    }
}

// Writes a datagram of at most 64 bytes as hex digits. Most datagrams are that short, and a buffer
// for the longest datagram would have to be zeroed in each call. Returns the writer's error.
fn write_short<W: Write>(out: &mut W, bytes: &[u8]) -> io::Result<()>
    requires { length bytes.now ≤ 64 }
    ensures { OnOk result (Appends (W.contents out.old) (W.contents out.new) (encode_lower bytes.now)) }
{
    let mut digits = [0; 2 * SHORT];
    write_by(out, bytes, &mut digits)
}

// Writes a datagram of up to 1,280 bytes as hex digits. Returns the writer's error.
fn write_long<W: Write>(out: &mut W, bytes: &[u8]) -> io::Result<()>
    requires { length bytes.now ≤ 1280 }
    ensures { OnOk result (Appends (W.contents out.old) (W.contents out.new) (encode_lower bytes.now)) }
{
    let mut digits = [0; DIGITS];
    write_by(out, bytes, &mut digits)
}

// Writes bytes as hex digits. `room` is the buffer for the digits. Returns the writer's error.
fn write_by<W: Write>(out: &mut W, bytes: &[u8], room: &mut [u8]) -> io::Result<()>
    requires { 2 * length bytes.now ≤ length room.old }
    ensures { OnOk result (Appends (W.contents out.old) (W.contents out.new) (encode_lower bytes.now)) }
{
    let digits = &mut room[..2 * bytes.len()];
    let _fits = hex::encode_to_slice(bytes, digits);
    out.write_all(digits)
}
