//! The parts of a fetch.

/// The part of a fetch that one request carries or requests.
///
/// A block has a number and a size. `szx` is the exponent of the size, less 4 (RFC 7959, section
/// 2.2).
#[derive(Clone, Copy, PartialEq, Eq)]
pub enum Part {
    /// The whole body.
    Whole,
    /// A block of the body (RFC 7959, section 2.5).
    Body { number: u32, szx: u8 },
    /// A further block of the response (RFC 7959, section 2.4).
    Answer { number: u32, szx: u8 },
}
