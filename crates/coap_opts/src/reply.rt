//! Responses, with any set of the options that the server sends.
ghost use Rattle.std.specs.Prelude.{◌≡◌, ◌+◌, ◌++◌, ◌≤◌, ◌<◌, length};
ghost use Rattle.std.specs.Int.{w64, to_be_bytes};
ghost use Rattle.std.specs.Option.{option_map};
ghost use Rattle.arrayvec.specs.ArrayVec.{array_vec_len};
ghost use Rattle.coap_msg.specs.Wire.{AreOptions, IsMessage, message_bytes, options_bytes};
ghost use Rattle.coap_opts.specs.Values as spec;
ghost use Rattle.coap_opts.specs.Values.{uint_bytes};

use crate::block::Block;
use crate::number::{BLOCK1, BLOCK2, CONTENT_FORMAT, ETAG, OBSERVE};
use crate::request::PAYLOAD;
use crate::uint::{UintBytes, encode_uint};
use coap_msg::types::{DATAGRAM, SHORT_OPTION, TOKEN};
use coap_msg::writer::{write_head, write_optional, write_payload};
use coap_msg::{Code, Datagram, MessageType};

/// The options of a response, each present if it has a value.
#[derive(Clone, Copy, Default)]
pub struct ReplyOptions {
    /// The ETag: the version of the payload, in eight bytes.
    pub etag: Option<u64>,
    /// The sequence number of a notification.
    ///
    /// A client expects a number of at most 24 bits (RFC 7641, section 3.4).
    pub observe: Option<u32>,
    /// The format of the payload.
    pub content_format: Option<u16>,
    /// The block of the response body that the payload contains.
    pub block2: Option<Block>,
    /// The block of the request that the response acknowledges.
    pub block1: Option<Block>,
}

/// Maximum length of a response's options, in bytes.
pub const REPLY_OPTIONS: usize = 5 * SHORT_OPTION;

impl ReplyOptions {
    ghost use Rattle.coap_opts.specs.Replies.{reply_options};

    /// Appends the options that have a value, in the order of their numbers.
    ///
    /// `datagram` has no options yet.
    fn write(&self, datagram: &mut Datagram)
        requires { array_vec_len datagram.old + REPLY_OPTIONS ≤ DATAGRAM }
        ensures bytes { datagram.new.items ≡ datagram.old.items ++ options_bytes 0 (reply_options self.now) }
        ensures options { AreOptions 0 (reply_options self.now) }
        ensures room { array_vec_len datagram.new ≤ array_vec_len datagram.old + REPLY_OPTIONS }
    {
        let last = write_optional(0, ETAG, etag_bytes(self.etag), datagram);
        let last = write_optional(last, OBSERVE, observe_bytes(self.observe), datagram);
        let format = format_bytes(self.content_format);
        let last = write_optional(last, CONTENT_FORMAT, format, datagram);
        let last = write_optional(last, BLOCK2, block_bytes(self.block2), datagram);
        let _last = write_optional(last, BLOCK1, block_bytes(self.block1), datagram);
    }
}

/// A response with any set of the server's options (RFC 7252, section 5.2).
#[derive(Clone, Copy)]
pub struct Reply<'a> {
    /// The type.
    pub kind: MessageType,
    /// The code, which isn't 0.00.
    pub code: Code,
    /// The message ID.
    pub id: u16,
    /// The request's token, 0 to 8 bytes.
    pub token: &'a [u8],
    /// The options.
    pub options: ReplyOptions,
    /// The payload, at most 1,024 bytes; no payload if it is empty.
    pub payload: &'a [u8],
}

impl Reply<'_> {
    ghost use Rattle.coap_opts.specs.Replies.{reply_message};

    /// Replaces `datagram` with the one encoding of the response.
    pub fn write(&self, datagram: &mut Datagram)
        requires code { 0 < self.now.code.byte }
        requires token { length self.now.token.now ≤ TOKEN }
        requires payload { length self.now.payload.now ≤ PAYLOAD }
        ensures bytes { datagram.new.items ≡ message_bytes (reply_message self.now) }
        ensures message { IsMessage (reply_message self.now) }
    {
        fit_head(self.code, self.id);
        datagram.clear();
        write_head(self.kind, self.code, self.id, self.token, datagram);
        self.options.write(datagram);
        write_payload(self.payload, datagram);
    }
}

// Does nothing: its contract states the limits of a code and of a message ID, for the prover.
fn fit_head(code: Code, id: u16)
    ensures code { code.byte < 256 }
    ensures id { id < 65536 }
{
    let _ = code;
    let _ = id;
}

// Returns the value of an ETag option, 8 bytes, or `None` if the response has no ETag.
fn etag_bytes(version: Option<u64>) -> Option<UintBytes>
    ensures { option_map (λ v. v.items) result ≡ option_map (to_be_bytes w64) version }
{
    let mut bytes = UintBytes::new();
    let room = bytes.try_extend_from_slice(&version?.to_be_bytes());
    prove!(room.is_ok());
    Some(bytes)
}

// Returns the value of an Observe option, or `None` if the response has no sequence number.
fn observe_bytes(sequence: Option<u32>) -> Option<UintBytes>
    ensures { option_map (λ v. v.items) result ≡ option_map uint_bytes sequence }
{
    Some(encode_uint(u64::from(sequence?)))
}

// Returns the value of a Content-Format option, or `None` if the response has no format.
fn format_bytes(format: Option<u16>) -> Option<UintBytes>
    ensures { option_map (λ v. v.items) result ≡ option_map uint_bytes format }
{
    Some(encode_uint(u64::from(format?)))
}

// Returns the value of a Block1 or Block2 option, or `None` if the response has no such block.
fn block_bytes(block: Option<Block>) -> Option<UintBytes>
    ensures { option_map (λ v. v.items) result ≡ option_map spec.block_bytes block }
{
    Some(block?.value())
}
