//! The texts of the rules.
ghost use Rattle.std.specs.Prelude.{◌≤◌, length};

use fc_rules::{rule_numbered, rule_text};

/// Writes the text of the rule with a number, as far as it fits.
///
/// The text says how an image breaks the rule. Returns the number of bytes that were written, which
/// is 0 if there is no such rule. The contract says only that these bytes fit into `out`.
#[unsafe(no_mangle)]
pub extern "C" fn numzela_rule_text(rule: u32, out: &mut [u8]) -> usize
    ensures { result ≤ length out.old }
{
    let text = match rule_numbered(rule) {
        Some(rule) => rule_text(rule),
        None => "",
    };
    let bytes = text.as_bytes();
    let count = bytes.len().min(out.len());
    out[..count].copy_from_slice(&bytes[..count]);
    count
}
