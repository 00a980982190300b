//! Paths of resources, which a client parses from text.
ghost use Rattle.std.specs.Prelude.{◌≡◌, ◌∷◌, ◌<◌, ◌≤◌, IfErr, IfOk, MatchOption, length};
ghost use Rattle.std.specs.List.{All};
ghost use Rattle.coap_client.specs.Paths.{HasNoSlash, IsFirstSegment, IsSlashed, IsSegment, slices_in, slash};
ghost use Rattle.coap_client.specs.PathErrors.{IsPathFault, IsUnfit, TellsNoPath};

use std::alloc::Global;
use thiserror::Error;

/// Maximum length of a segment, in bytes (RFC 7252, section 5.10).
const SEGMENT: usize = 255;

/// The segments of a path, each sent as a Uri-Path option.
#[derive(Drop)]
pub struct Path<'a> {
    pub segments: Vec<&'a [u8]>,
    ghost are: { (All IsSegment (slices_in segments.items)) },
}

/// The reason why a text isn't a path.
#[derive(Clone, Copy, Debug, PartialEq, Eq, Error)]
pub enum PathError {
    /// The text doesn't begin with a slash.
    #[error("a path begins with a slash, as /r/1")]
    NoSlash,
    /// The segment of this number, counted from 1, is empty.
    #[error("segment {0} of the path is empty: between two slashes, and behind the last one, stand 1 to 255 bytes")]
    Empty(usize),
    /// The segment of this number, counted from 1, has more than 255 bytes.
    ///
    /// The limit is that of RFC 7252, section 5.10.
    #[error("segment {0} of the path has more than 255 bytes")]
    Long(usize),
    /// Memory couldn't be allocated for the segments.
    #[error("out of memory")]
    NoMemory,
}

impl<'a> Path<'a> {
    /// Parses a path: a slash before each segment of 1 to 255 bytes.
    ///
    /// The empty text is the path without segments.
    ///
    /// # Errors
    /// Returns [`PathError`] if the text isn't a path, or if memory can't be allocated for the
    /// segments.
    pub fn parse(alloc: Global, text: &'a [u8]) -> Result<Path<'a>, PathError>
        ensures path { IfOk result (λ p. IsSlashed text.entry.now (slices_in p.segments.items)) }
        ensures none { IfErr result (TellsNoPath text.entry.now) }
        ensures fault { IfErr result (IsPathFault text.entry.now) }
    {
        let mut segments = Vec::new(alloc);
        let mut rest = text;
        while let Some(after) = after_slash(rest) {
            let (segment, next) = first_segment(after);
            if let Some(error) = fault_of(segment, segments.len().saturating_add(1)) {
                return Err(error);
            }
            match segments.push(segment) {
                Ok(()) => rest = next,
                Err(_) => return Err(PathError::NoMemory),
            }
        }
        if rest.is_empty() {
            Ok(Path { segments })
        } else {
            Err(PathError::NoSlash)
        }
    }
}

// Returns the fault of the segment with this number, or `None` if it has 1 to 255 bytes.
fn fault_of(segment: &[u8], number: usize) -> Option<PathError>
    ensures { MatchOption result ((0 < length segment.now) × (length segment.now ≤ 255)) (IsUnfit segment.now number) }
{
    if segment.is_empty() {
        Some(PathError::Empty(number))
    } else if segment.len() > SEGMENT {
        Some(PathError::Long(number))
    } else {
        None
    }
}

// Returns the text after its first byte if that byte is a slash, and else `None`.
fn after_slash(text: &[u8]) -> Option<&[u8]>
    ensures { MatchOption result (HasNoSlash text.now) (λ after. text.now ≡ slash ∷ after.now) }
{
    match text {
        [b'/', after @ ..] => Some(after),
        _ => None,
    }
}

// Splits the text before its first slash. Without a slash, the second part is empty.
fn first_segment(text: &[u8]) -> (&[u8], &[u8])
    ensures { IsFirstSegment text.now result.0.now result.1.now }
{
    match text.iter().position(|byte| *byte == b'/') {
        Some(at) => text.split_at(at),
        None => text.split_at(text.len()),
    }
}
