//! Types shared with the crates that use this one.
use arrayvec::ArrayVec;
use thiserror::Error;

/// A UDP endpoint: an IPv4 address and a port.
#[derive(Clone, Copy, Default, PartialEq, Eq)]
pub struct Endpoint {
    pub ip: [u8; 4],
    pub port: u16,
}

/// Time for which an exchange or a transfer is stored, in milliseconds.
///
/// This is EXCHANGE_LIFETIME (RFC 7252, section 4.8.2).
pub const WINDOW: u64 = 247_000;

/// Maximum length of a datagram, in bytes.
pub const DATAGRAM: usize = 1280;

/// The bytes of a datagram.
pub type Datagram = ArrayVec<u8, DATAGRAM>;

/// Maximum length of a token, in bytes.
pub const TOKEN: usize = 8;

/// A message's token: 0 to 8 bytes (RFC 7252, section 5.3.1).
pub type Token = ArrayVec<u8, TOKEN>;

/// Maximum length of a [`ShortValue`], in bytes.
pub const SHORT_VALUE: usize = 8;

/// The value of an option to write: 0 to 8 bytes.
///
/// Integers, blocks and entity tags have such values.
pub type ShortValue = ArrayVec<u8, SHORT_VALUE>;

/// Maximum length of an option with a short value, in bytes.
///
/// It is one first byte, two extended values of two bytes each, and a value of eight bytes.
pub const SHORT_OPTION: usize = 13;

/// A datagram to send, with its receiver.
#[derive(Drop)]
pub struct Emission {
    pub to: Endpoint,
    pub bytes: Datagram,
}

/// The type of a message (RFC 7252, sections 3 and 4).
#[derive(Clone, Copy, PartialEq, Eq)]
pub enum MessageType {
    /// A message that requires an acknowledgement.
    Confirmable,
    /// A message that requires no acknowledgement.
    NonConfirmable,
    /// Acknowledges that a confirmable message arrived.
    Acknowledgement,
    /// Reports that a message arrived and can't be processed.
    Reset,
}

/// The reason why a datagram is no message, and the required reaction.
#[derive(Clone, Copy, Debug, PartialEq, Eq, Error)]
pub enum Bad {
    /// The datagram must be silently ignored (RFC 7252, sections 3 and 4.3).
    #[error("neither a CoAP 1 message nor a confirmable one with a format error: ignore it")]
    Ignore,
    /// A confirmable message with a format error.
    ///
    /// It must be rejected with a Reset message that has this message ID (RFC 7252, section 4.2).
    #[error("format error in the confirmable message with id {0}: reject it by a Reset message")]
    Reset(u16),
}
