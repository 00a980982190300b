//! The digest of an image, to compare two images.
ghost use Rattle.std.specs.Io.KnownBytes.{Appends};
ghost use Rattle.std.specs.Prelude.{◌≡◌, ◌++◌, ◌∷◌, [], IfErr, IfOk, OnOk, string_bytes};
ghost use Rattle.fc_tools.specs.declared.digest.DigestError.TheVariants.{Memory};
ghost use Rattle.fc_tools.specs.Digests.{IsDigestEnd, IsDigestFault, IsDigested, digest_text, error_status};

use crate::streams::{LONGEST_IMAGE, image_bytes};
use fc_cli::status::{Status, tell};
use sha2::{Digest, Sha256};
use std::alloc::{AllocError, Global};
use std::io;
use std::io::{Read, Write};
use thiserror::Error;

/// The errors of a digest.
#[derive(Debug, Drop, Error)]
enum DigestError {
    /// The input has too many bytes for an image.
    #[error("the input has more than 524296 bytes: no image is longer")]
    Long,
    /// Reading failed.
    #[error("standard input: {0}")]
    Input(io::Error),
    /// Writing failed.
    #[error("standard output: {0}")]
    Output(io::Error),
    /// Memory couldn't be allocated.
    #[error("{0}")]
    Memory(#[source] AllocError),
}

impl From<AllocError> for DigestError {
    ghost from_gives = { λ error fault. fault ≡ Memory error };

    fn from(error: AllocError) -> DigestError {
        DigestError::Memory(error)
    }
}

impl DigestError {
    fn status(&self) -> Status
        ensures { result ≡ error_status self.now }
    {
        match self {
            DigestError::Long => Status::Refused,
            DigestError::Input(_) | DigestError::Output(_) | DigestError::Memory(_) =>
                Status::Failed,
        }
    }
}

/// Returns the SHA-256 digest of an image in hex.
///
/// It is 64 lowercase hex digits (FIPS 180-4). The image isn't verified.
///
/// # Errors
/// Returns `AllocError` if memory can't be allocated.
pub fn digest_of(alloc: Global, image: &[u8]) -> Result<String, AllocError>
    ensures { IfOk result (λ s. string_bytes s ≡ digest_text image.now) }
{
    hex::encode(alloc, Sha256::digest(image))
}

/// Reads an image and writes its digest in a line.
///
/// The digest is that of [`digest_of`]. At most 524,297 bytes are read, one more than the longest
/// image has. Returns:
///
/// - `Done` if the line is written;
/// - `Refused` if the input has more than 524,296 bytes, which no image has; nothing is written to
///   `out`;
/// - `Failed` if reading or writing fails, or if memory can't be allocated.
///
/// Writes the reason to `err`.
pub fn digest<R: Read, W: Write, E: Write>(
    alloc: Global,
    input: &mut R,
    out: &mut W,
    err: &mut E,
) -> Status
    ensures { IsDigestEnd (R.remaining input.old) (W.contents out.old) (W.contents out.new) result }
{
    match write_digest(alloc, input, out) {
        Ok(()) => Status::Done,
        Err(error) => tell(err, &error, error.status()),
    }
}

// Reads an image and writes its digest in a line.
//
// Returns `DigestError::Long` for an input that is longer than any image. Returns an error if
// reading or writing fails, or if memory can't be allocated. For every error except one of writing,
// nothing at all is written.
fn write_digest<R: Read, W: Write>(
    alloc: Global,
    input: &mut R,
    out: &mut W,
) -> Result<(), DigestError>
    ensures written { OnOk result (IsDigested (R.remaining input.old) (W.contents out.old) (W.contents out.new)) }
    ensures fault { IfErr result (IsDigestFault (R.remaining input.old) (W.contents out.old) (W.contents out.new)) }
{
    let image = match image_bytes(alloc, input) {
        Ok(image) => image,
        Err(error) => return Err(DigestError::Input(error)),
    };
    if image.len() as u64 > LONGEST_IMAGE {
        return Err(DigestError::Long);
    }
    let text = digest_of(alloc, &image)?;
    match write_line(out, &text) {
        Ok(()) => Ok(()),
        Err(error) => Err(DigestError::Output(error)),
    }
}

// Writes a text as a line, and flushes the output. Returns an error if writing fails.
fn write_line<W: Write>(out: &mut W, text: &str) -> io::Result<()>
    ensures { OnOk result (Appends (W.contents out.old) (W.contents out.new) (text.now ++ 10 ∷ [])) }
{
    writeln!(out, "{text}")?;
    out.flush()
}
