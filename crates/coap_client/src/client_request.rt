//! Client requests: requests that a client is to make, and their messages.
//!
//! [`fetch`](crate::fetch) and an [`Observer`](crate::Observer) send these messages.
ghost use Rattle.std.specs.Prelude.{◌≡◌, ◌+◌, ◌*◌, ◌<◌, ◌≤◌, ◌++◌, ◌↔◌, IfOk, IfSome, IsNone, None, OnOk, Some, length, min, sum_by};
ghost use Rattle.coap_msg.specs.Wire.{message_bytes};
ghost use Rattle.coap_msg.specs.Writing.{options_in};
ghost use Rattle.coap_client.specs.Paths.{slices_in};
ghost use Rattle.coap_client.specs.Parts.{FitsDatagrams, format_options, option_in, option_room, numbered, request_options};
ghost use Rattle.coap_client.specs.Parts as spec;
ghost use Rattle.coap_opts.specs.Fields as fields;
ghost use Rattle.coap_opts.specs.Values.{uint_bytes};

use crate::part::Part;
use crate::path::Path;
use coap_msg::{Code, Datagram, MessageType, Outgoing, write};
use coap_opts::number::{BLOCK1, BLOCK2, CONTENT_FORMAT, URI_PATH, URI_QUERY};
use coap_opts::{Block, Method, UintBytes, encode_uint};
use std::alloc::{AllocError, Global};

/// Length of the largest block, in bytes.
pub const LARGEST_BLOCK: usize = 1024;

/// SZX of the largest block: the exponent of its size, 2^10, less 4.
///
/// See RFC 7959, section 2.2.
pub const LARGEST_SZX: u8 = 6;

/// Maximum room in bytes of the path, the query and the payload of a request.
///
/// Each segment and each argument takes five bytes more than its length.
const ROOM: usize = 1262;

/// Maximum number of bytes before the value of an option.
const OPTION_HEAD: usize = 5;

/// Maximum length of a body, in bytes: 2^20 blocks of 1,024 bytes.
const MOST: usize = 1 << 30;

/// A resource: its path, and the arguments of its query.
///
/// Each argument is sent as a Uri-Query option (RFC 7252, section 5.10.1).
#[derive(Drop)]
pub struct RequestTarget<'a> {
    pub path: Path<'a>,
    pub query: Vec<&'a [u8]>,
}

/// A request to make: a method, a resource, and a body.
///
/// The body has the Content-Format `content_format`, if it is given. All messages are confirmable,
/// or all are non-confirmable. Each of them fits a datagram.
#[derive(Drop)]
pub struct ClientRequest<'a> {
    pub confirmable: bool,
    pub method: Method,
    pub target: RequestTarget<'a>,
    pub payload: &'a [u8],
    pub content_format: Option<u16>,
    ghost fits: { FitsDatagrams method (slices_in target.path.segments.items) (slices_in target.query.items) payload.now },
}

impl<'a> ClientRequest<'a> {
    ghost use Rattle.coap_client.specs.Parts.{first_part, has_more, part_options, part_payload};
    ghost use Rattle.coap_client.specs.Requests.{IsBlock, IsPartOf, block_request, part_request};

    /// Builds a client request, or returns `None` if its messages don't fit a datagram.
    ///
    /// They fit if the segments, the arguments and the payload of a message have at most 1,262
    /// bytes together. Each segment and each argument counts five bytes more. The payload is the
    /// body, or at most 1,024 bytes of it if the method is PUT. The body has at most 2^30 bytes.
    /// The client request has no Content-Format.
    pub fn new(
        confirmable: bool,
        method: Method,
        target: RequestTarget<'a>,
        payload: &'a [u8],
    ) -> Option<ClientRequest<'a>>
        ensures client_request { IfSome result (λ e. (e.confirmable ≡ confirmable) × (e.method ≡ method)
            × (e.target ≡ target.entry) × (e.payload ≡ payload.entry)) }
        ensures no_format { IfSome result (λ e. e.content_format ≡ None) }
        ensures none { IsNone result ↔ (FitsDatagrams method (slices_in target.entry.path.segments.items)
            (slices_in target.entry.query.items) payload.entry.now → ⊥) }
    {
        let room = room_of(&target.path.segments)
            .saturating_add(room_of(&target.query))
            .saturating_add(most_at_once(method, payload.len()));
        if room <= ROOM && payload.len() <= MOST {
            Some(ClientRequest {
                confirmable,
                method,
                target,
                payload,
                content_format: None,
            })
        } else {
            None
        }
    }

    /// Returns the client request with this Content-Format for its body.
    ///
    /// The format is a number of the registry (RFC 7252, section 12.3).
    pub fn with_content_format(self, format: u16) -> ClientRequest<'a>
        ensures format { result.content_format ≡ Some format }
        ensures others { (result.confirmable ≡ self.entry.confirmable) × (result.method ≡ self.entry.method)
            × (result.target ≡ self.entry.target) × (result.payload ≡ self.entry.payload) }
    {
        let ClientRequest {
            confirmable,
            method,
            target,
            payload,
            ..
        } = self;
        ClientRequest {
            confirmable,
            method,
            target,
            payload,
            content_format: Some(format),
        }
    }

    /// Returns the part that a fetch's first request carries.
    ///
    /// It is the body's first block, of 1,024 bytes, if the method is PUT and the body is longer
    /// than that. Otherwise it is the whole body.
    pub fn first_part(&self) -> Part
        ensures first { result ≡ first_part self.now.method (length self.now.payload.now) }
        ensures own { IsPartOf self.now result }
    {
        if self.method == Method::Put && self.payload.len() > LARGEST_BLOCK {
            Part::Body {
                number: 0,
                szx: LARGEST_SZX,
            }
        } else {
            Part::Whole
        }
    }

    /// Returns whether more of the body follows the block with number `number`.
    ///
    /// `szx` is the exponent of the block's size, less 4.
    pub fn has_more(&self, number: u32, szx: u8) -> bool
        requires { IsBlock number szx }
        ensures { result ≡ has_more (length self.now.payload.now) number szx }
    {
        let block = Block::new(number, false, szx);
        self.payload.len() > block.size() * (block.number() as usize + 1)
    }

    /// Writes a fetch's request for `part`, with the message ID `id`.
    ///
    /// The request replaces the contents of `datagram`.
    ///
    /// # Errors
    /// Returns `AllocError` if memory can't be allocated for the list of options.
    pub fn write(
        &self,
        alloc: Global,
        part: Part,
        id: u16,
        datagram: &mut Datagram,
    ) -> Result<(), AllocError>
        requires { IsPartOf self.now part }
        ensures { OnOk result (datagram.new.items ≡ message_bytes (part_request self.now part id)) }
    {
        let format = self.format_of(part);
        let block = self.block_of(part);
        let options = options_with(alloc, &self.target, &format, &block)?;
        let request = Outgoing {
            kind: request_kind(self.confirmable),
            code: method_code(self.method),
            id,
            token: &[],
            options: &options,
            payload: self.payload_of(part),
        };
        write(&request, datagram);
        Ok(())
    }

    /// Writes an observer's request for a further block of a state: a GET with Block2.
    ///
    /// The block has the number `number`, and `szx` is the exponent of its size, less 4. The
    /// request is confirmable. `id` is the request's message ID and, in two bytes, its token. The
    /// request has no body and no Observe. It replaces the contents of `datagram`.
    ///
    /// # Errors
    /// Returns `AllocError` if memory can't be allocated for the list of options.
    pub fn write_block(
        &self,
        alloc: Global,
        number: u32,
        szx: u8,
        id: u16,
        datagram: &mut Datagram,
    ) -> Result<(), AllocError>
        requires { IsBlock number szx }
        ensures { OnOk result (datagram.new.items ≡ message_bytes (block_request self.now number szx id)) }
    {
        let format = None;
        let block = Some((BLOCK2, Block::new(number, false, szx).value()));
        let options = options_with(alloc, &self.target, &format, &block)?;
        let token = id.to_be_bytes();
        let request = Outgoing {
            kind: MessageType::Confirmable,
            code: Code::GET,
            id,
            token: &token,
            options: &options,
            payload: &[],
        };
        write(&request, datagram);
        Ok(())
    }

    // Returns the Content-Format option of the request for `part`. Returns `None` if the client
    // request has no format, or if the request for `part` has no body.
    fn format_of(&self, part: Part) -> Option<(u16, UintBytes)>
        ensures format { option_in result ≡ format_options self.now.method part self.now.content_format }
        ensures short { IfSome result (λ o. (o.0 ≡ CONTENT_FORMAT) × (length o.1.items ≤ 2)) }
    {
        match self.content_format {
            Some(format) if brings_body(self.method, part) => {
                Some((CONTENT_FORMAT, encode_format(format)))
            }
            _ => None,
        }
    }

    // Returns the block option of the request for `part`: Block1 for a block of the body, Block2
    // for a further block of the response, and `None` for the whole body.
    fn block_of(&self, part: Part) -> Option<(u16, UintBytes)>
        requires { IsPartOf self.now part }
        ensures { option_in result ≡ part_options part (length self.now.payload.now) }
    {
        match part {
            Part::Whole => None,
            Part::Body { number, szx } => {
                let more = self.has_more(number, szx);
                Some((BLOCK1, Block::new(number, more, szx).value()))
            }
            Part::Answer { number, szx } => {
                Some((BLOCK2, Block::new(number, false, szx).value()))
            }
        }
    }

    // Returns the payload of the request for `part`: the body, or the block of the body. A request
    // for a further block of the response has the body if it is a GET, and else no payload.
    fn payload_of(&self, part: Part) -> &'a [u8]
        requires { IsPartOf self.now part }
        ensures { result.now ≡ part_payload self.now.method self.now.payload.now part }
    {
        match part {
            Part::Whole => self.payload,
            Part::Body { number, szx } => {
                let block = Block::new(number, false, szx);
                let rest = &self.payload[block.size() * block.number() as usize..];
                &rest[..rest.len().min(block.size())]
            }
            Part::Answer { .. } => match self.method {
                Method::Get => self.payload,
                Method::Post | Method::Put | Method::Delete => &[],
            },
        }
    }
}

// Encodes a Content-Format in at most two bytes.
fn encode_format(format: u16) -> UintBytes
    ensures bytes { result.items ≡ uint_bytes format }
    ensures short { length result.items ≤ 2 }
{
    encode_uint(u64::from(format))
}

// Returns whether the request for `part` has the body or a block of it. A request for a further
// block of the response has the body only if it is a GET.
fn brings_body(method: Method, part: Part) -> bool
    ensures { result ≡ spec.brings_body method part }
{
    match part {
        Part::Whole | Part::Body { .. } => true,
        Part::Answer { .. } => method == Method::Get,
    }
}

// Returns the message type of a request.
fn request_kind(confirmable: bool) -> MessageType
    ensures { result ≡ spec.request_kind confirmable }
{
    if confirmable {
        MessageType::Confirmable
    } else {
        MessageType::NonConfirmable
    }
}

// Returns the code of a method.
fn method_code(method: Method) -> Code
    ensures { result.byte ≡ fields.method_code method }
{
    match method {
        Method::Get => Code::GET,
        Method::Post => Code::POST,
        Method::Put => Code::PUT,
        Method::Delete => Code::DELETE,
    }
}

// Returns the maximum number of bytes of a body in one request, if the body has `count` bytes: at
// most 1,024 for PUT, and else `count`.
fn most_at_once(method: Method, count: usize) -> usize
    ensures { result ≡ spec.most_at_once method count }
{
    match method {
        Method::Put => count.min(LARGEST_BLOCK),
        Method::Get | Method::Post | Method::Delete => count,
    }
}

// Returns the room in bytes reserved for options with these values: the length of each value and
// five bytes more. The sum stops at 2^64 - 1.
fn room_of(values: &[&[u8]]) -> usize
    ensures { result ≡ min (sum_by option_room (slices_in values.entry.now)) 18446744073709551615 }
{
    let mut room = 0usize;
    for value in values {
        room = room.saturating_add(value.len()).saturating_add(OPTION_HEAD);
    }
    room
}

// Builds the list of a request's options: the path, the Content-Format if there is one, the query,
// and the block option if there is one. Returns `AllocError` if memory can't be allocated.
fn options_with<'a>(
    alloc: Global,
    target: &'a RequestTarget<'a>,
    format: &'a Option<(u16, UintBytes)>,
    block: &'a Option<(u16, UintBytes)>,
) -> Result<Vec<(u16, &'a [u8])>, AllocError>
    ensures { IfOk result (λ v. options_in v.items ≡ request_options (slices_in target.entry.now.path.segments.items)
        (option_in format.entry.now) (slices_in target.entry.now.query.items) ++ option_in block.entry.now) }
{
    let mut options = Vec::new(alloc);
    push_options(&mut options, URI_PATH, &target.path.segments)?;
    push_option(&mut options, format)?;
    push_options(&mut options, URI_QUERY, &target.query)?;
    push_option(&mut options, block)?;
    Ok(options)
}

// Appends the option to `options` if there is one. Returns `AllocError` if memory can't be
// allocated.
fn push_option<'a>(
    options: &mut Vec<(u16, &'a [u8])>,
    option: &'a Option<(u16, UintBytes)>,
) -> Result<(), AllocError>
    ensures { OnOk result (options_in options.new.items ≡ options_in options.old.items ++ option_in option.entry.now) }
{
    if let Some((number, value)) = option {
        options.push((*number, value.as_slice()))?;
    }
    Ok(())
}

// Appends an option with this number for each value. Returns `AllocError` if memory can't be
// allocated.
pub fn push_options<'a>(
    options: &mut Vec<(u16, &'a [u8])>,
    number: u16,
    values: &'a [&'a [u8]],
) -> Result<(), AllocError>
    ensures { OnOk result (options_in options.new.items ≡ options_in options.old.items ++ numbered number (slices_in values.entry.now)) }
{
    for value in values {
        options.push((number, *value))?;
    }
    Ok(())
}
