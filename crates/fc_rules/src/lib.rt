//! The rules for an image, in plain words.
//!
//! ```rust
//! use fc_rules::{rule_numbered, rule_text};
//!
//! /// Returns the text of the rule with a number, or no text if there is no such rule.
//! fn text_of(number: u32) -> &'static str {
//!     match rule_numbered(number) {
//!         Some(rule) => rule_text(rule),
//!         None => "",
//!     }
//! }
//! ```
//!
//! # What is proved
//!
//! - The rule that is returned for a number has this number. If no rule is returned, no rule has
//!   the number. The texts are tested.
//!
//! By the contracts of `rule_numbered`.
#![tactic(auto)]

pub mod text;

pub use text::{rule_numbered, rule_text};
