//! The versions of an image's format.

/// The version of an image's format, named by the image's magic.
///
/// Each version has its own limits, and its own registers at the entry.
#[derive(Clone, Copy, Debug, PartialEq, Eq)]
pub enum ImageVersion {
    /// `FCB1`.
    One,
    /// `FCB2`.
    Two,
}
