//! A server's first message ID, from random bytes of the system.
use std::io;
use std::random::RandomSource;

/// Returns a random first message ID, from two random bytes of the system.
///
/// Messages that were sent before don't reveal it (RFC 7252, section 4.4).
///
/// # Errors
/// Returns an error if the system returns no random bytes.
pub fn random_id<R: RandomSource>(rt: &R) -> io::Result<u16> {
    let mut bytes = [0; 2];
    rt.fill_bytes(&mut bytes)?;
    Ok(u16::from_be_bytes(bytes))
}
