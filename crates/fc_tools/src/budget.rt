//! The budget of an image, as an option gives it.

use std::str::FromStr;
use thiserror::Error;

/// The budget for an image.
#[derive(Clone, Copy, Debug, PartialEq, Eq)]
pub enum Budget {
    /// This number of steps.
    Steps(u32),
    /// The program's cost: the steps of its longest path.
    Auto,
}

/// The error for a text that isn't a budget.
#[derive(Clone, Copy, Debug, PartialEq, Eq, Drop, Error)]
#[error("a budget is 1 to 65536, or `auto`")]
pub struct BudgetError;

impl FromStr for Budget {
    type Err = BudgetError;

    /// Parses `auto` or a number of steps; the header's rules limit the number later.
    ///
    /// # Errors
    /// Returns [`BudgetError`] if the text is neither `auto` nor a number below 2^32.
    fn from_str(text: &str) -> Result<Self, BudgetError> {
        if text == "auto" {
            return Ok(Budget::Auto);
        }
        match text.parse::<u32>() {
            Ok(steps) => Ok(Budget::Steps(steps)),
            Err(_) => Err(BudgetError),
        }
    }
}
