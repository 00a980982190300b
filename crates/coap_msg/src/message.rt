//! A parsed message.
ghost use Rattle.std.specs.Prelude.{◌≡◌, ◌≤◌, length};
ghost use Rattle.coap_msg.specs.Parsing.{HasOptions, message_from};
ghost use Rattle.coap_msg.specs.Values.{values_in};

use crate::code::Code;
use crate::options::Options;
use crate::types::MessageType;
use crate::values::Values;
use std::marker::Model;

/// A parsed message (RFC 7252, section 3).
///
/// Its token, options and payload are borrowed from the datagram.
#[derive(Drop)]
pub struct Message<'a> {
    kind: MessageType,
    code: Code,
    id: u16,
    token: &'a [u8],
    options: &'a [u8],
    payload: &'a [u8],
}

impl<'a> Model for Message<'a> {
    ghost use Rattle.std.specs.Prelude.{◌≤◌, length};
    ghost use Rattle.coap_msg.specs.Parsing.{HasOptions, message_from};
    ghost use Rattle.coap_msg.specs.Wire.{Message as Stated};

    ghost Value = { Stated };

    ghost view = { λ m. message_from m.kind m.code.byte m.id m.token.now m.options.now m.payload.now };

    ghost invariant = { λ m. (length m.token.now ≤ 8) × HasOptions 0 m.options.now };
}

impl<'a> Message<'a> {
    /// Makes a message from its parts, for the parser.
    ///
    /// `options` is the encoding of the message's options.
    pub(crate) fn new(
        kind: MessageType,
        code: Code,
        id: u16,
        token: &'a [u8],
        options: &'a [u8],
        payload: &'a [u8],
    ) -> Self
        requires token { length token.now ≤ 8 }
        requires options { HasOptions 0 options.now }
        ensures { result ≡ message_from kind code.byte id token.entry.now options.entry.now payload.entry.now }
    {
        Message {
            kind,
            code,
            id,
            token,
            options,
            payload,
        }
    }

    /// Returns the type: confirmable, non-confirmable, acknowledgement or reset.
    pub fn kind(&self) -> MessageType
        ensures { result ≡ self.now.kind }
    {
        self.kind
    }

    /// Returns the code.
    pub fn code(&self) -> Code
        ensures { result.byte ≡ self.now.code }
    {
        self.code
    }

    /// Returns the message ID.
    pub fn id(&self) -> u16
        ensures { result ≡ self.now.id }
    {
        self.id
    }

    /// Returns the token, 0 to 8 bytes.
    pub fn token(&self) -> &'a [u8]
        ensures token { result.now ≡ self.now.token }
        ensures short { length result.now ≤ 8 }
    {
        self.token
    }

    /// Iterates over the options in order, each with its number and its value.
    ///
    /// The options are decoded again from the datagram's bytes.
    pub fn options(&self) -> Options<'a>
        ensures { result ≡ self.now.options }
    {
        Options::new(self.options)
    }

    /// Iterates in order over the values of the options with the number `number`.
    ///
    /// The iterator is empty if the message has no such option.
    pub fn values(&self, number: u16) -> Values<'a>
        ensures { result ≡ values_in number self.now.options }
    {
        Values::new(number, self.options())
    }

    /// Returns the payload, which is empty if the message has none.
    pub fn payload(&self) -> &'a [u8]
        ensures { result.now ≡ self.now.payload }
    {
        self.payload
    }
}
