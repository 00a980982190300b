//! Replies: the messages that answer a request, and the next step of a fetch.
ghost use Rattle.std.specs.Prelude.{◌≡◌, ◌≤◌, ◌↔◌, IfSome, IsTrue, Some, [], length, true};
ghost use Rattle.std.specs.List.{list_all};
ghost use Rattle.coap_client.specs.Requests.{IsBlock, IsFurther, IsPartOf};
ghost use Rattle.coap_client.specs.declared.part.Part.TheVariants.{Answer};
ghost use Rattle.coap_client.specs.declared.part.Part.{Part as Piece};
ghost use Rattle.coap_client.specs.declared.reply.Next.TheVariants.{Ask};
ghost use Rattle.coap_client.specs.Replies.{IsEmptyAcknowledgement, IsReply, IsReset, IsSeparate};
ghost use Rattle.coap_client.specs.Replies as spec;

use crate::client_request::{ClientRequest, LARGEST_SZX};
use crate::part::Part;
use coap_msg::{Code, Message, MessageType};
use coap_opts::Block;
use coap_opts::number::{BLOCK1, BLOCK2, ETAG};

/// Class of the success codes (RFC 7252, section 5.9.1).
const SUCCESS: u8 = 2;

/// Class of the client error codes (RFC 7252, section 5.9.2).
const CLIENT_ERROR: u8 = 4;

/// Class of the server error codes (RFC 7252, section 5.9.3).
const SERVER_ERROR: u8 = 5;

/// Number of possible block numbers, which have 20 bits (RFC 7959, section 2.2).
const BLOCKS: u32 = 1 << 20;

/// Maximum length of a block option's value, in bytes (RFC 7959, section 2.2).
const BLOCK_VALUE: usize = 3;

/// The next step of a fetch after the response to the request for a part.
#[derive(Clone, Copy, PartialEq, Eq)]
pub enum Next {
    /// A request for this part follows.
    ///
    /// If the part is a further block of the response, the payload of the response just received is
    /// appended to the result. If it is a block of the body, nothing is appended.
    Ask(Part),
    /// The fetch ends, and this response has the last bytes of the result.
    Last,
    /// The fetch ends, since the code isn't a success. This response is the result.
    Refused,
    /// The response's block has another ETag than the blocks before it.
    Stale,
    /// The response doesn't match the request for the part.
    Malformed,
}

/// Returns whether `message` is the piggybacked response to a request.
///
/// The request has this message ID and no token (RFC 7252, section 5.2.1).
pub fn is_reply(id: u16, message: &Message<'_>) -> bool
    ensures { IsTrue result ↔ IsReply id message.now }
{
    message.kind() == MessageType::Acknowledgement && message.id() == id && is_response(message)
}

/// Returns whether `message` is an empty acknowledgement of a request.
///
/// The request has this message ID. A separate response may follow (RFC 7252, section 5.2.2).
pub fn is_empty_acknowledgement(id: u16, message: &Message<'_>) -> bool
    ensures { IsTrue result ↔ IsEmptyAcknowledgement id message.now }
{
    message.kind() == MessageType::Acknowledgement
        && message.id() == id
        && message.code() == Code::EMPTY
}

/// Returns whether `message` is a separate response without a token.
///
/// A separate response is confirmable or non-confirmable (RFC 7252, section 5.2.2).
pub fn is_separate(message: &Message<'_>) -> bool
    ensures { IsTrue result ↔ IsSeparate message.now }
{
    begins_exchange(message.kind()) && is_response(message)
}

// Returns whether a message has the code of a response, and no token.
fn is_response(message: &Message<'_>) -> bool
    ensures { IsTrue result ↔ ((message.now.token ≡ []) × (spec.is_response message.now.code ≡ true)) }
{
    message.token().is_empty()
        && matches!(
            message.code().class(),
            SUCCESS | CLIENT_ERROR | SERVER_ERROR
        )
}

/// Returns whether messages of this type begin an exchange.
///
/// The result is `true` for confirmable and non-confirmable messages.
pub fn begins_exchange(kind: MessageType) -> bool
    ensures { result ≡ spec.begins_exchange kind }
{
    match kind {
        MessageType::Confirmable | MessageType::NonConfirmable => true,
        MessageType::Acknowledgement | MessageType::Reset => false,
    }
}

/// Returns whether `message` is a Reset for the request with this message ID.
///
/// See RFC 7252, section 4.2.
pub fn is_reset(id: u16, message: &Message<'_>) -> bool
    ensures { IsTrue result ↔ IsReset id message.now }
{
    message.kind() == MessageType::Reset && message.id() == id && message.code() == Code::EMPTY
}

/// Returns the next step of a fetch after a response.
///
/// `message` is the response to the request for `part`. `etag` is the ETag of the response's blocks
/// so far.
pub fn next_of(
    client_request: &ClientRequest<'_>,
    part: Part,
    etag: &[u8],
    message: &Message<'_>,
) -> Next
    requires { IsPartOf client_request.now part }
    ensures { result ≡ spec.next_of (length client_request.now.payload.now) part etag.now message.now }
{
    if !is_understood(message) {
        return Next::Malformed;
    }
    if message.code().class() != SUCCESS {
        return Next::Refused;
    }
    match part {
        Part::Whole => next_of_whole(0, message),
        Part::Body { number, szx } if client_request.has_more(number, szx) => {
            match next_size(number, szx, message) {
                Some(smaller) => next_of_body(number, szx, smaller),
                None => Next::Malformed,
            }
        }
        Part::Body { number, .. } => next_of_whole(number, message),
        Part::Answer { number, szx } => next_of_further(number, szx, etag, message),
    }
}

// Returns the next step after the response to a request for a further block, if the blocks of a
// state are joined. `etag` is the ETag of the blocks before it.
pub fn next_of_block(number: u32, szx: u8, etag: &[u8], message: &Message<'_>) -> Next
    requires { IsBlock number szx }
    ensures next { result ≡ spec.next_of 0 (Answer number szx) etag.now message.now }
    ensures further { (part : Piece) → result ≡ Ask part → IsFurther part }
{
    if !is_understood(message) {
        Next::Malformed
    } else if message.code().class() != SUCCESS {
        Next::Refused
    } else {
        next_of_further(number, szx, etag, message)
    }
}

/// Returns the first ETag of a response, or no bytes if it has none.
///
/// See RFC 7252, section 5.10.6.
pub fn etag_of<'a>(message: &Message<'a>) -> &'a [u8]
    ensures { result.now ≡ spec.etag_of message.now }
{
    match message.values(ETAG).next() {
        Some(value) => value,
        None => &[],
    }
}

// Returns whether a message has no unknown critical option, and at most one Block1 and one Block2.
pub fn is_understood(message: &Message<'_>) -> bool
    ensures { result ≡ spec.is_understood message.now }
{
    are_known(message) && is_single(BLOCK1, message) && is_single(BLOCK2, message)
}

// Returns whether the client knows each critical option of a message.
fn are_known(message: &Message<'_>) -> bool
    ensures { result ≡ list_all (λ o. spec.is_known_option o.0) message.now.options }
{
    for (number, _) in message.options() {
        if !is_known_option(number) {
            return false;
        }
    }
    true
}

// Returns whether the option with this number is elective, or critical and known to the client.
fn is_known_option(number: u16) -> bool
    ensures { result ≡ spec.is_known_option number }
{
    number % 2 == 0 || number == BLOCK1 || number == BLOCK2
}

// Returns whether a message has at most one option with this number.
fn is_single(number: u16, message: &Message<'_>) -> bool
    ensures { result ≡ spec.is_single number message.now }
{
    let mut values = message.values(number);
    values.next().is_none() || values.next().is_none()
}

// Returns whether a response has the code 2.31 (Continue): the server took the block and expects
// more blocks.
fn is_continue(message: &Message<'_>) -> bool
    ensures { result ≡ spec.is_continue message.now }
{
    message.code() == Code::CONTINUE
}

// Returns the size exponent for the rest of the body, after a success in response to a block of the
// body other than the last. Returns `None` if the response doesn't say that the server took that
// block.
fn next_size(number: u32, szx: u8, message: &Message<'_>) -> Option<u8>
    ensures size { result ≡ spec.next_size number szx (spec.is_continue message.now) (spec.block1_of message.now) }
    ensures smaller { IfSome result (λ smaller. smaller ≤ szx) }
{
    match message.values(BLOCK1).next() {
        None => is_continue(message).then_some(szx),
        Some(value) if value.len() <= BLOCK_VALUE => {
            size_by_block(number, szx, Block::read(value))
        }
        Some(_) => None,
    }
}

// Returns the size exponent of a response's Block1. Returns `None` if the Block1 has another number
// than the block that was sent, or a greater size.
fn size_by_block(number: u32, szx: u8, block: Block) -> Option<u8>
    ensures { result ≡ spec.size_by_block number szx block }
{
    (block.number() == number && block.szx() <= szx).then_some(block.szx())
}

// Returns the request for the next block of the body, with the size exponent `smaller`. Returns
// `Next::Malformed` if the next block's number would have more than 20 bits.
fn next_of_body(number: u32, szx: u8, smaller: u8) -> Next
    requires block { IsBlock number szx }
    requires smaller { smaller ≤ szx }
    ensures { result ≡ spec.next_of_body number szx (Some smaller) }
{
    let next = (number + 1) << (szx - smaller);
    if next < BLOCKS {
        Next::Ask(Part::Body {
            number: next,
            szx: smaller,
        })
    } else {
        Next::Malformed
    }
}

// Returns the next step after a success in response to the whole body, or to its last block with
// this number. Returns `Next::Malformed` if the success is 2.31 or its Block1 isn't the last
// block's.
fn next_of_whole(number: u32, message: &Message<'_>) -> Next
    ensures { result ≡ spec.next_of_whole number message.now }
{
    if !is_continue(message) && says_last(number, message) {
        next_of_answer(0, LARGEST_SZX, message)
    } else {
        Next::Malformed
    }
}

// Returns whether a Block1 names this block and says that no block follows. Returns `true` if there
// is no Block1.
fn says_last(number: u32, message: &Message<'_>) -> bool
    ensures { result ≡ spec.says_last number (spec.block1_of message.now) }
{
    match message.values(BLOCK1).next() {
        None => true,
        Some(value) => value.len() <= BLOCK_VALUE && names_last(number, Block::read(value)),
    }
}

// Returns whether a Block1 has this number, and says that no more blocks follow.
fn names_last(number: u32, block: Block) -> bool
    ensures { result ≡ spec.names_last number block }
{
    block.number() == number && !block.more()
}

// Returns the next step after a success in response to a request for a further block. Returns
// `Next::Stale` if the block has another ETag than `etag`, that of the blocks before it. Returns
// `Next::Malformed` if the code is 2.31.
fn next_of_further(number: u32, szx: u8, etag: &[u8], message: &Message<'_>) -> Next
    requires { IsBlock number szx }
    ensures { result ≡ spec.next_of_further number szx etag.now message.now }
{
    if etag_of(message) != etag {
        return Next::Stale;
    }
    if is_continue(message) {
        return Next::Malformed;
    }
    next_of_answer(number, szx, message)
}

// Returns the next step after a success in response to a request for this block. A success without
// Block2 is whole if block 0 was requested, and else malformed.
pub fn next_of_answer(number: u32, szx: u8, message: &Message<'_>) -> Next
    requires { IsBlock number szx }
    ensures next { result ≡ spec.next_of_answer number szx message.now }
    ensures further { (part : Piece) → result ≡ Ask part → IsFurther part }
{
    match message.values(BLOCK2).next() {
        None if number == 0 => Next::Last,
        Some(value) if value.len() <= BLOCK_VALUE => {
            let block = Block::read(value);
            if fits_place(number, szx, block) {
                after_block(message.payload().len(), block)
            } else {
                Next::Malformed
            }
        }
        _ => Next::Malformed,
    }
}

// Returns whether a block begins at the start of the requested block, and isn't larger than that.
fn fits_place(number: u32, szx: u8, block: Block) -> bool
    requires { IsBlock number szx }
    ensures { result ≡ spec.fits_place number szx block }
{
    let asked = Block::new(number, false, szx);
    block.szx() <= szx
        && block.size() * block.number() as usize == asked.size() * asked.number() as usize
}

// Returns the next step after this block of the response, whose payload has `count` bytes. Returns
// `Next::Malformed` if `count` doesn't match the block size, or if no block number is left.
fn after_block(count: usize, block: Block) -> Next
    ensures { result ≡ spec.by_more block count }
{
    if !block.more() {
        return if count <= block.size() {
            Next::Last
        } else {
            Next::Malformed
        };
    }
    let number = block.number() + 1;
    if count == block.size() && number < BLOCKS {
        Next::Ask(Part::Answer {
            number,
            szx: block.szx(),
        })
    } else {
        Next::Malformed
    }
}
