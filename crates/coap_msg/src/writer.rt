//! Writing: from a message to a datagram.
//!
//! [`write`] writes a message. The other public functions write parts of a message, for
//! `coap_opts`, whose responses have options of another type.
ghost use Rattle.std.specs.Prelude.{◌≡◌, ◌+◌, ◌<◌, ◌≤◌, ◌++◌, length};
ghost use Rattle.arrayvec.specs.ArrayVec.{array_vec_len};
ghost use Rattle.coap_msg.specs.Wire.{IsMessage, AreOptions, message_bytes, extension, nibble, header, option_bytes, options_bytes, payload_bytes, type_number};
ghost use Rattle.coap_msg.specs.Writing.{last_number, options_in, short_option, message_stated};

use crate::code::Code;
use crate::types::{DATAGRAM, Datagram, MessageType, SHORT_OPTION, ShortValue};
use crate::wire::{
    ACKNOWLEDGEMENT, CONFIRMABLE, EXT8_BIAS, EXT16_BIAS, NIBBLE_EXT8, NIBBLE_EXT16,
    NON_CONFIRMABLE, PAYLOAD_MARKER, RESET, two_bytes,
};
use arrayvec::ArrayVec;

/// A message to send.
#[derive(Clone, Copy)]
pub struct Outgoing<'a> {
    /// The type.
    pub kind: MessageType,
    /// The code.
    pub code: Code,
    /// The message ID.
    pub id: u16,
    /// The token, 0 to 8 bytes.
    pub token: &'a [u8],
    /// The options in order of their numbers, each with its number and its value.
    pub options: &'a [(u16, &'a [u8])],
    /// The payload; no payload if it is empty.
    pub payload: &'a [u8],
}

/// Replaces `datagram` with the one encoding of `message`.
pub fn write(message: &Outgoing<'_>, datagram: &mut Datagram)
    requires { IsMessage (message_stated message.now) }
    ensures { datagram.new.items ≡ message_bytes (message_stated message.now) }
{
    datagram.clear();
    write_head(
        message.kind,
        message.code,
        message.id,
        message.token,
        datagram,
    );
    write_options(message.options, datagram);
    write_payload(message.payload, datagram);
}

/// Appends a header and a token.
pub fn write_head(kind: MessageType, code: Code, id: u16, token: &[u8], datagram: &mut Datagram)
    requires token { length token.now ≤ 8 }
    requires room { array_vec_len datagram.old + (4 + length token.now) ≤ DATAGRAM }
    ensures { datagram.new.items ≡ datagram.old.items ++ header kind code.byte id token.now }
{
    let first = 16 * version_and_type(kind) + token.len() as u8;
    let [high, low] = two_bytes(id);
    append(&[first, code.byte, high, low], datagram);
    append(token, datagram);
}

/// Returns the first byte's upper nibble: version and type.
fn version_and_type(kind: MessageType) -> u8
    ensures nibble { result ≡ 4 + type_number kind }
    ensures below { result < 8 }
{
    match kind {
        MessageType::Confirmable => CONFIRMABLE,
        MessageType::NonConfirmable => NON_CONFIRMABLE,
        MessageType::Acknowledgement => ACKNOWLEDGEMENT,
        MessageType::Reset => RESET,
    }
}

/// Appends options, each with its delta from the number of the option before.
fn write_options(options: &[(u16, &[u8])], datagram: &mut Datagram)
    requires options { AreOptions 0 (options_in options.now) }
    requires room { array_vec_len datagram.old + length (options_bytes 0 (options_in options.now)) ≤ DATAGRAM }
    ensures { datagram.new.items ≡ datagram.old.items ++ options_bytes 0 (options_in options.now) }
{
    let mut before = 0;
    for (number, value) in options {
        write_option(*number - before, value, datagram);
        before = *number;
    }
}

/// Appends an option.
///
/// `delta` is its number minus the number of the option before it.
fn write_option<const N: usize>(delta: u16, value: &[u8], datagram: &mut ArrayVec<u8, N>)
    requires value { length value.now < 65805 }
    requires room { array_vec_len datagram.old + length (option_bytes delta value.now) ≤ N }
    ensures { datagram.new.items ≡ datagram.old.items ++ option_bytes delta value.now }
{
    let delta = u32::from(delta);
    let length = value.len() as u32;
    datagram.push(16 * nibble_of(delta) + nibble_of(length));
    write_extension(delta, datagram);
    write_extension(length, datagram);
    append(value, datagram);
}

/// Appends the option `number`, or nothing if `value` is `None`.
///
/// `before` is the number of the last option in `datagram`, or 0. Returns the number of the last
/// option afterwards: `number`, or `before` if nothing was appended.
#[tactic(auto, using(crate::proofs::Sizes::option_size))]
pub fn write_optional(
    before: u16,
    number: u16,
    value: Option<ShortValue>,
    datagram: &mut Datagram,
) -> u16
    requires rises { before ≤ number }
    requires room { array_vec_len datagram.old + SHORT_OPTION ≤ DATAGRAM }
    ensures bytes { datagram.new.items ≡ datagram.old.items ++ options_bytes before (short_option number value) }
    ensures options { AreOptions before (short_option number value) }
    ensures last { result ≡ last_number before (short_option number value) }
    ensures rises { result ≤ number }
    ensures room { array_vec_len datagram.new ≤ array_vec_len datagram.old + SHORT_OPTION }
{
    match value {
        Some(value) => {
            write_option(number - before, value.as_slice(), datagram);
            number
        }
        None => before,
    }
}

/// Returns the nibble of a delta or a length.
fn nibble_of(number: u32) -> u8
    ensures nibble { result ≡ nibble number }
    ensures below { result < 15 }
{
    if number < EXT8_BIAS {
        number as u8
    } else if number < EXT16_BIAS {
        NIBBLE_EXT8
    } else {
        NIBBLE_EXT16
    }
}

/// Appends the extended value of a delta or a length.
fn write_extension<const N: usize>(number: u32, datagram: &mut ArrayVec<u8, N>)
    requires number { number < 65805 }
    requires room { array_vec_len datagram.old + length (extension number) ≤ N }
    ensures { datagram.new.items ≡ datagram.old.items ++ extension number }
{
    if number >= EXT16_BIAS {
        append(&two_bytes((number - EXT16_BIAS) as u16), datagram);
    } else if number >= EXT8_BIAS {
        datagram.push((number - EXT8_BIAS) as u8);
    }
}

/// Appends the payload marker and the payload, or nothing if the payload is empty.
pub fn write_payload(payload: &[u8], datagram: &mut Datagram)
    requires { array_vec_len datagram.old + length (payload_bytes payload.now) ≤ DATAGRAM }
    ensures { datagram.new.items ≡ datagram.old.items ++ payload_bytes payload.now }
{
    if !payload.is_empty() {
        datagram.push(PAYLOAD_MARKER);
        append(payload, datagram);
    }
}

/// Appends `bytes`; the caller guarantees that there is room for them.
fn append<const N: usize>(bytes: &[u8], datagram: &mut ArrayVec<u8, N>)
    requires { array_vec_len datagram.old + length bytes.now ≤ N }
    ensures { datagram.new.items ≡ datagram.old.items ++ bytes.now }
{
    let room = datagram.try_extend_from_slice(bytes);
    prove!(room.is_ok());
}
