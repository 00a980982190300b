//! The helpers, by their names in a source.
use fc_help::{helper_of, name_of};

/// Returns the number of the helper with this name, 1 to 7, or `None` if there is none.
///
/// The search ends at the first number without a helper, since the numbers have no gap.
pub(crate) fn number_of_helper(name: &[u8]) -> Option<u64> {
    for number in 1..i32::MAX {
        if name_of(helper_of(number)?).as_bytes() == name {
            return Some(number as u64);
        }
    }
    None
}
