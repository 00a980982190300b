//! Datagrams of tests.
ghost use Rattle.std.specs.Prelude.{◌≡◌, ◌++◌, IfOk};

use std::alloc::{AllocError, Global};

/// A PUT to slot 1 of an image with a budget of 8,207 steps.
///
/// The program has a loop of four iterations, and in it one of 1,024 iterations of two steps.
pub const PUT_EXPENSIVE: &[u8] =
    b"\x40\x03\x00\x01\xb1\x70\x01\x31\xff\x46\x43\x42\x32\x00\x00\x08\x00\x0f\x20\x00\x00\x00\x00\x00\x00\xb7\x06\x00\x00\x00\x00\x00\x00\xb7\x07\x00\x00\x00\x00\x00\x00\x07\x07\x00\x00\x01\x00\x00\x00\xa5\x07\xfe\xff\x00\x04\x00\x00\x07\x06\x00\x00\x01\x00\x00\x00\xa5\x06\xfb\xff\x04\x00\x00\x00\xb7\x00\x00\x00\x00\x00\x00\x00\x95\x00\x00\x00\x00\x00\x00\x00";

/// Returns the bytes of `first`, followed by those of `second`.
///
/// # Errors
/// Returns an error if memory can't be allocated.
pub fn joined(alloc: Global, first: &[u8], second: &[u8]) -> Result<Vec<u8>, AllocError>
    ensures { IfOk result (λ v. v.items ≡ first.now ++ second.now) }
{
    let mut bytes = Vec::new(alloc);
    bytes.extend_from_slice(first)?;
    bytes.extend_from_slice(second)?;
    Ok(bytes)
}
