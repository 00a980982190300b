//! The statuses that calls return.

/// The call succeeded, and there is nothing to send.
pub const OK: u32 = 0;

/// A datagram was written, and is to be sent.
pub const SEND: u32 = 1;

/// The image breaks a rule, which was written.
pub const REFUSED: u32 = 2;

/// Memory can't be allocated. Nothing changed.
pub const NO_MEMORY: u32 = 3;

/// The handle is empty.
pub const EMPTY: u32 = 4;

/// The handle is in use, and has to be freed first.
pub const IN_USE: u32 = 5;

/// An argument is out of the range that the header states. Nothing changed.
pub const OUT_OF_RANGE: u32 = 6;
