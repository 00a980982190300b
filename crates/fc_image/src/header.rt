//! The header of an image.
ghost use Rattle.std.specs.Prelude.{IfErr, IfOk, None, Some, false, length, slice_index, ◌≡◌, ◌≤◌};
ghost use Rattle.fc_image.specs.Head.{head_breaks, head_fault, is_word, stated};
ghost use Rattle.fc_image.specs.Written.{KeepsHead};
ghost use Rattle.fc_isa.specs.declared.rule.Rule.{Rule};

use crate::limits::{Head, is_bad_budget, is_bad_count, is_bad_size};
use fc_isa::{Fault, ImageVersion, Rule};

/// Size of a header in bytes; an image's slots follow it.
pub const HEADER_SIZE: usize = 16;

/// Parses the header of an image.
///
/// # Errors
/// Returns the least rule of the header, 1 to 5, that the image breaks, at slot 0.
pub fn head(image: &[u8]) -> Result<Head, Fault>
    ensures head { IfOk result (λ h. (h ≡ stated image.now) × (head_fault image.now ≡ None)) }
    ensures kept { IfOk result (λ _. KeepsHead image.now) }
    ensures fault { IfErr result (λ f. (head_fault image.now ≡ Some f.rule) × (f.slot ≡ 0)) }
{
    match fault(image) {
        Some(rule) => Err(Fault { rule, slot: 0 }),
        None => Ok(Head::of(
            version(image),
            vars_size(image),
            count(image),
            budget(image),
        )),
    }
}

/// Returns the least rule of the header that the image breaks.
///
/// Returns `None` if the image breaks no rule of the header.
fn fault(image: &[u8]) -> Option<Rule>
    ensures { result ≡ head_fault image.now }
{
    if breaks_format(image) {
        Some(Rule::Format)
    } else if breaks_slot_count(image) {
        Some(Rule::SlotCount)
    } else if breaks_vars_size(image) {
        Some(Rule::VarsSize)
    } else if breaks_budget(image) {
        Some(Rule::Budget)
    } else if breaks_reserved(image) {
        Some(Rule::Reserved)
    } else {
        None
    }
}

/// Returns whether the image isn't a header with a known magic and its slots.
///
/// The image must have 16 bytes for the header, and 8 for each of the slots that the header states.
#[tactic(auto, unfolding(crate::specs::Head::head_breaks))]
fn breaks_format(image: &[u8]) -> bool
    ensures value { result ≡ head_breaks image.now Rule.Format }
    ensures header { result ≡ false → 16 ≤ length image.now }
{
    image.len() < HEADER_SIZE
        || !(is_word(image, *b"FCB1") || is_word(image, *b"FCB2"))
        || image.len() != HEADER_SIZE + 8 * count(image) as usize
}

/// Returns whether the number of slots is 0, or above the version's limit.
#[tactic(auto, unfolding(crate::specs::Head::head_breaks))]
fn breaks_slot_count(image: &[u8]) -> bool
    requires { 16 ≤ length image.now }
    ensures { result ≡ head_breaks image.now Rule.SlotCount }
{
    is_bad_count(version(image), count(image) as usize)
}

/// Returns whether the variables' size isn't a multiple of 8 up to 256 bytes.
#[tactic(auto, unfolding(crate::specs::Head::head_breaks))]
fn breaks_vars_size(image: &[u8]) -> bool
    requires { 16 ≤ length image.now }
    ensures { result ≡ head_breaks image.now Rule.VarsSize }
{
    is_bad_size(vars_size(image))
}

/// Returns whether the budget isn't 1 to 65536.
#[tactic(auto, unfolding(crate::specs::Head::head_breaks))]
fn breaks_budget(image: &[u8]) -> bool
    requires { 16 ≤ length image.now }
    ensures { result ≡ head_breaks image.now Rule.Budget }
{
    is_bad_budget(budget(image))
}

/// Returns whether a reserved byte isn't zero.
#[tactic(auto, unfolding(crate::specs::Head::head_breaks))]
fn breaks_reserved(image: &[u8]) -> bool
    requires { 16 ≤ length image.now }
    ensures { result ≡ head_breaks image.now Rule.Reserved }
{
    !is_word(&image[12..], [0; 4])
}

/// Returns whether the bytes begin with those of `word`.
fn is_word(bytes: &[u8], word: [u8; 4]) -> bool
    requires { 4 ≤ length bytes.now }
    ensures { result ≡ is_word (slice_index word 0) (slice_index word 1) (slice_index word 2) (slice_index word 3) bytes.now }
{
    (bytes[0] == word[0] && bytes[1] == word[1]) && (bytes[2] == word[2] && bytes[3] == word[3])
}

/// Returns the version that a known magic names: `Two` for `FCB2`, else `One`.
fn version(image: &[u8]) -> ImageVersion
    requires { 4 ≤ length image.now }
    ensures { result ≡ (stated image.now).version }
{
    if image[3] == b'2' {
        ImageVersion::Two
    } else {
        ImageVersion::One
    }
}

/// Returns the size of the variables that the header states, in bytes.
fn vars_size(image: &[u8]) -> u16
    requires { 16 ≤ length image.now }
    ensures { result ≡ (stated image.now).vars_size }
{
    u16::from_le_bytes([image[4], image[5]])
}

/// Returns the number of slots that the header states.
fn count(image: &[u8]) -> u16
    requires { 16 ≤ length image.now }
    ensures { result ≡ (stated image.now).count }
{
    u16::from_le_bytes([image[6], image[7]])
}

/// Returns the budget that the header states, in steps.
fn budget(image: &[u8]) -> u32
    requires { 16 ≤ length image.now }
    ensures { result ≡ (stated image.now).budget }
{
    u32::from_le_bytes([image[8], image[9], image[10], image[11]])
}
