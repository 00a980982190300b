//! Requests to change a program: to install an image, or to remove the program.
ghost use Rattle.std.specs.Prelude.{◌≡◌, None, Some, MatchOption, option_map};
ghost use Rattle.coap_msg.specs.Reading.{reading_of};
ghost use Rattle.fc_front.specs.Receiving.{emission_if};
ghost use Rattle.fc_record.specs.ProgramRequests.{IsNote, IsRequestOf, IsResponseBy, IsResponseIn, change_in, method_text};

use crate::text::{DigestText, PeerText, ResponseText};
use coap_msg::{Code, Emission, Endpoint, read};
use fc_ticket::{Ask, Job, SlotNumber};
use std::marker::Model;
use std::{fmt, str};

/// A request to change a slot's program: its sender, its image, and its response.
///
/// The request is written as one line of words.
#[derive(Drop)]
pub struct ProgramRequest<'a> {
    peer: Endpoint,
    slot: SlotNumber,
    // The image to install, or `None` if the program is to be removed.
    image: Option<&'a [u8]>,
    // `None` if there is no response.
    response: Option<Response<'a>>,
}

/// The code of a response, and its payload if that is text.
#[derive(Clone, Copy)]
pub(crate) struct Response<'a> {
    pub(crate) code: Code,
    pub(crate) note: &'a str,
}

impl<'a> Model for ProgramRequest<'a> {
    ghost use Rattle.std.specs.Prelude.{option_map};
    ghost use Rattle.fc_record.specs.ProgramRequests.{Requested};

    ghost Value = { Requested };

    ghost view = { λ c. record {
      peer = c.peer;
      slot = c.slot;
      image = option_map (λ s. s.now) c.image;
      response = option_map (λ s. record { code = s.code.byte; note = s.note.now }) c.response;
    } };
}

impl<'a> ProgramRequest<'a> {
    /// Returns the request of a job, or `None` if the job changes no program.
    ///
    /// The request's response is `reply` if `has_reply`; otherwise there is none. A `reply` that is
    /// no message is no response either.
    pub fn of(job: &'a Job, has_reply: bool, reply: &'a Emission) -> Option<ProgramRequest<'a>>
        ensures { MatchOption result (change_in job.now.ask ≡ None) (IsRequestOf job.now (emission_if has_reply reply.now)) }
    {
        let image = image_in(&job.ask)?;
        Some(ProgramRequest {
            peer: job.origin.endpoint,
            slot: job.origin.slot,
            image,
            response: response_by(has_reply, reply),
        })
    }

    // Returns the name of the request's method, for its text (RFC 7252, section 5.8).
    fn method(&self) -> &'static str
        ensures { result.now ≡ method_text self.now.image }
    {
        match self.image {
            Some(_) => "PUT",
            None => "DELETE",
        }
    }
}

// Returns the image that a job is to install, or `Some(None)` for a removal. Returns `None` if the
// job asks for no change.
fn image_in(ask: &Ask) -> Option<Option<&[u8]>>
    ensures { option_map (λ image. option_map (λ s. s.now) image) result ≡ change_in ask.now }
{
    match ask {
        Ask::Install(body, _) => Some(Some(body.as_slice())),
        Ask::Remove => Some(None),
        _ => None,
    }
}

// Returns the code and the payload of a reply. Returns `None` if there is no reply, or if its bytes
// are no message. A payload that isn't UTF-8 is replaced by an empty one.
fn response_by(has_reply: bool, reply: &Emission) -> Option<Response<'_>>
    ensures { IsResponseBy (emission_if has_reply reply.now) (option_map (λ s. record { code = s.code.byte; note = s.note.now }) result) }
{
    if !has_reply {
        return None;
    }
    response_in(reply.bytes.as_slice())
}

// Returns the code and the payload of a message, or `None` if the bytes are no message. A payload
// that isn't UTF-8 is replaced by an empty one.
fn response_in(bytes: &[u8]) -> Option<Response<'_>>
    ensures { IsResponseIn (reading_of bytes.now) (option_map (λ s. record { code = s.code.byte; note = s.note.now }) result) }
{
    match read(bytes) {
        Ok(message) => Some(Response {
            code: message.code(),
            note: note_of(message.payload()),
        }),
        Err(_) => None,
    }
}

// Returns a payload as text, or an empty text if it isn't UTF-8.
fn note_of(payload: &[u8]) -> &str
    ensures { IsNote payload.now result.now }
{
    match str::from_utf8(payload) {
        Ok(note) => note,
        Err(_) => "",
    }
}

/// Writes the request as a line of words.
///
/// An example:
///
/// `change PUT /p/3 peer=192.0.2.7:40001 code=2.01 version=1 cost=2 budget=2 vars=0 sha256=..`.
impl<'a> fmt::Display for ProgramRequest<'a> {
    ghost use Rattle.std.specs.Prelude.{Some};
    ghost use Rattle.fc_record.specs.ProgramRequests.{request_text};

    ghost output = { λ c. Some (request_text c) };

    fn fmt<W: fmt::Write>(&self, f: &mut fmt::Formatter<W>) -> fmt::Result {
        let method = self.method();
        let slot = self.slot.number();
        let peer = PeerText(self.peer);
        let response = ResponseText(self.response);
        let digest = DigestText(self.image);
        write!(f, "change {method} /p/{slot} peer={peer}{response}{digest}")
    }
}
