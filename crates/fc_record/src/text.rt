//! The parts of a recorded change's text, in their order.
ghost use Rattle.std.specs.Prelude.{◌≡◌};
ghost use Rattle.hex.specs.Hex.{encode_lower};
ghost use Rattle.sha2.specs.Sha256.{sha256};

use crate::request::Response;
use coap_msg::Endpoint;
use hex::encode_to_slice;
use sha2::{Digest, Sha256};
use std::{fmt, str};

/// Number of hex digits of a digest.
const DIGITS: usize = 64;

/// An endpoint, as `192.0.2.7:40001`.
#[derive(Clone, Copy)]
pub(crate) struct PeerText(pub(crate) Endpoint);

impl fmt::Display for PeerText {
    ghost use Rattle.std.specs.Prelude.{Some};
    ghost use Rattle.fc_record.specs.ProgramRequests.{peer_text};

    ghost output = { λ t. Some (peer_text t.0) };

    fn fmt<W: fmt::Write>(&self, f: &mut fmt::Formatter<W>) -> fmt::Result {
        let [a, b, c, d] = self.0.ip;
        let port = self.0.port;
        write!(f, "{a}.{b}.{c}.{d}:{port}")
    }
}

/// The response to a change, after a space; ` unanswered` if there is none.
#[derive(Clone, Copy)]
pub(crate) struct ResponseText<'a>(pub(crate) Option<Response<'a>>);

impl<'a> fmt::Display for ResponseText<'a> {
    ghost use Rattle.std.specs.Prelude.{Some, option_map};
    ghost use Rattle.fc_record.specs.ProgramRequests.{response_text};

    ghost output = { λ t. Some (response_text (option_map (λ s. record { code = s.code.byte; note = s.note.now }) t.0)) };

    fn fmt<W: fmt::Write>(&self, f: &mut fmt::Formatter<W>) -> fmt::Result {
        match self.0 {
            Some(response) => {
                let code = response.code;
                let note = NoteText(response.note);
                write!(f, " code={code}{note}")
            }
            None => write!(f, " unanswered"),
        }
    }
}

/// A space and the note, or nothing if the note is empty.
#[derive(Clone, Copy)]
pub(crate) struct NoteText<'a>(pub(crate) &'a str);

impl<'a> fmt::Display for NoteText<'a> {
    ghost use Rattle.std.specs.Prelude.{Some};
    ghost use Rattle.fc_record.specs.ProgramRequests.{after_space};

    ghost output = { λ t. Some (after_space t.0.now) };

    fn fmt<W: fmt::Write>(&self, f: &mut fmt::Formatter<W>) -> fmt::Result {
        let note = self.0;
        if note.is_empty() {
            return Ok(());
        }
        write!(f, " {note}")
    }
}

/// The SHA-256 digest of an image, in hex digits, after a space.
///
/// The text is empty if there is no image.
#[derive(Clone, Copy)]
pub(crate) struct DigestText<'a>(pub(crate) Option<&'a [u8]>);

impl<'a> fmt::Display for DigestText<'a> {
    ghost use Rattle.std.specs.Prelude.{Some, option_map};
    ghost use Rattle.fc_record.specs.ProgramRequests.{digest_text};

    ghost output = { λ t. Some (digest_text (option_map (λ s. s.now) t.0)) };

    fn fmt<W: fmt::Write>(&self, f: &mut fmt::Formatter<W>) -> fmt::Result {
        match self.0 {
            Some(image) => {
                let digits = digits_of(image);
                match str::from_utf8(&digits) {
                    Ok(digits) => write!(f, " sha256={digits}"),
                    Err(_) => Err(fmt::Error),
                }
            }
            None => Ok(()),
        }
    }
}

// Returns the SHA-256 digest of an image, in hex digits in lower case.
fn digits_of(image: &[u8]) -> [u8; DIGITS]
    ensures { result ≡ encode_lower (sha256 image.now) }
{
    let digest = Sha256::digest(image);
    let mut digits = [0; DIGITS];
    let _fits = encode_to_slice(digest.as_slice(), &mut digits);
    digits
}
