//! Blocks of response bodies (RFC 7959, section 2).
ghost use Rattle.std.specs.Prelude.{◌≡◌, min};
ghost use Rattle.std.specs.Option.{option_map};
ghost use Rattle.coap_reply.specs.Blocks.{asked_place, cut_for};

use coap_block::slice;
use coap_opts::Block;
use std::marker::Model;

/// Maximum length of a block, in bytes (RFC 7959, section 2.2).
pub const BLOCK: usize = 1024;

/// The SZX value of the greatest block size, 1,024 bytes.
const GREATEST: u8 = 6;

/// The part of a response body that one message carries, borrowed from the body.
#[derive(Drop)]
pub struct BodyBlock<'a> {
    /// The bytes of the part, at most 1,024.
    pub bytes: &'a [u8],
    /// The part's place; `None` if it is the whole body and no block was requested.
    pub block: Option<Block>,
}

impl<'a> Model for BodyBlock<'a> {
    ghost use Rattle.std.specs.Prelude.{◌≤◌, length};
    ghost use Rattle.coap_block.specs.Cuts.{Part};

    ghost Value = { Part };

    ghost view = { λ b. record { bytes = b.bytes.now; place = b.block } };

    ghost invariant = { λ b. length b.bytes.now ≤ 1024 };
}

impl<'a> BodyBlock<'a> {
    /// Returns the requested block of a body.
    ///
    /// If `asked` is `None`, returns the whole body, or the first 1,024 bytes of a longer body.
    /// Returns `None` if the requested block isn't the first and begins at or past the body's end.
    /// A requested block of the reserved size counts as one of 1,024 bytes.
    pub fn cut(body: &'a [u8], asked: Option<Block>) -> Option<BodyBlock<'a>>
        ensures { result ≡ cut_for asked body.now }
    {
        match slice(body, asked_block(asked)) {
            Ok(cut) => Some(BodyBlock {
                bytes: cut.bytes,
                block: cut.block,
            }),
            Err(_) => None,
        }
    }
}

// Returns the requested block, or `None` if no block is requested. A block of the reserved size
// becomes one of 1,024 bytes.
fn asked_block(asked: Option<Block>) -> Option<Block>
    ensures { result ≡ option_map asked_place asked }
{
    let block = asked?;
    Some(Block::new(block.number(), block.more(), block.szx().min(GREATEST)))
}
