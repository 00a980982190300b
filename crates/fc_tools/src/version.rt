//! The version of an image, as an option gives it.
ghost use Rattle.std.specs.Prelude.{IfSome, option_copied};
ghost use Rattle.fc_tools.specs.Tools.{NamesVersion};

use fc_isa::ImageVersion;

/// Parses the version for a new image.
///
/// The word `1` or `2` names the version. Without a word, the version is 1. Returns `None` for any
/// other word.
pub fn version_named(word: Option<&str>) -> Option<ImageVersion>
    ensures { IfSome result (NamesVersion (option_copied word.entry)) }
{
    match word {
        None | Some("1") => Some(ImageVersion::One),
        Some("2") => Some(ImageVersion::Two),
        Some(_) => None,
    }
}
