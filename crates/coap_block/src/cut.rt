//! The block of a body that a GET requests (RFC 7959, section 2.4).
ghost use Rattle.std.specs.Prelude.{◌≡◌, ◌<◌, ◌^◌};
ghost use Rattle.coap_block.specs.Cuts.{cut_at, cut_of};
ghost use Rattle.coap_block.specs.Views.{cut_seen};

use coap_opts::Block;

/// Maximum length in bytes of a body that is sent without Block2.
///
/// It is also the size of the first block of a longer body, if the request names no block.
pub const WHOLE: usize = 1024;

/// The size exponent of a block of 1,024 bytes (RFC 7959, section 2.2).
const WHOLE_SZX: u8 = 6;

/// A part of a body.
#[derive(Drop)]
pub struct Cut<'a> {
    /// The bytes of the part.
    pub bytes: &'a [u8],
    /// The part's place, for the Block2 option; `None` if the part is the whole body.
    pub block: Option<Block>,
}

/// The error that a block isn't the first and begins at or past the body's end.
#[derive(Clone, Copy, PartialEq, Eq)]
pub struct PastEnd;

/// Returns the requested block of a body, by its number and size alone.
///
/// The requested M bit is ignored. If no block is requested, returns the whole body, or its first
/// 1,024 bytes if the body is longer than that.
///
/// # Errors
/// Returns [`PastEnd`] if the block isn't the first, and begins at or past the body's end.
pub fn slice(bytes: &[u8], block2: Option<Block>) -> Result<Cut<'_>, PastEnd>
    ensures { cut_seen result ≡ cut_of bytes.now block2 }
{
    match block2 {
        Some(block) => cut_at(bytes, block.number(), block.szx()),
        None if bytes.len() <= WHOLE => Ok(Cut { bytes, block: None }),
        None => cut_at(bytes, 0, WHOLE_SZX),
    }
}

// Returns the block with this number and size exponent, for `slice`. Returns `PastEnd` if the block
// isn't the first, and begins at or past the body's end.
fn cut_at(bytes: &[u8], number: u32, szx: u8) -> Result<Cut<'_>, PastEnd>
    requires number { number < 2 ^ 20 }
    requires szx { szx < 8 }
    ensures { cut_seen result ≡ cut_at bytes.now number szx }
{
    let size: usize = 1 << (szx + 4);
    let start = number as usize * size;
    if number > 0 && start >= bytes.len() {
        return Err(PastEnd);
    }
    let rest = &bytes[start..];
    let more = rest.len() > size;
    let block = Block::new(number, more, szx);
    Ok(Cut {
        bytes: if more { &rest[..size] } else { rest },
        block: Some(block),
    })
}
