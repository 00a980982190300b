//! The reasons why a file can't be opened as a store of slots.
ghost use Rattle.std.specs.Prelude.{◌≡◌};

use sqlite::{Error, ErrorCode};
use std::alloc::AllocError;
use thiserror::Error;

/// The reason why a row of the table isn't the state of a slot.
#[derive(Clone, Copy, Debug, PartialEq, Eq, Error)]
pub enum BadRow {
    #[error("slots have the numbers 0 to 63")]
    Number,
    #[error("another row has its number")]
    Twice,
    #[error("its serial is below 0")]
    Serial,
    #[error("its version is below 0, or above its serial")]
    Version,
    #[error("it has no version, no image or no variables, but not all three are missing")]
    Program,
}

/// The reason why a file can't be opened as a store of slots.
///
/// The file keeps its contents.
#[derive(Debug, Drop, Error)]
pub enum OpenError {
    #[error("another process has it open")]
    Busy,
    #[error("it can't be opened to be read and written")]
    CannotOpen,
    #[error("it is no database of SQLite, or a damaged one")]
    Damaged,
    #[error("it is a database, but none that `fcd serve` has made")]
    Foreign,
    /// The row with this number isn't the state of a slot.
    #[error("its row {0} is the state of no slot: {1}")]
    Row(i64, BadRow),
    #[error("memory allocation failed")]
    Memory,
    /// Another failure of the database, such as one of the disk.
    #[error("{0}")]
    Failed(Error),
}

impl From<Error> for OpenError {
    ghost use Rattle.fc_sql.specs.Errors.{open_error};

    ghost from_gives = { λ e r. r ≡ open_error e };

    fn from(error: Error) -> OpenError {
        match error {
            Error::SqliteFailure(ErrorCode::DatabaseBusy) => OpenError::Busy,
            Error::SqliteFailure(ErrorCode::CannotOpen) => OpenError::CannotOpen,
            Error::SqliteFailure(ErrorCode::NotADatabase | ErrorCode::DatabaseCorrupt) =>
                OpenError::Damaged,
            Error::SqliteFailure(ErrorCode::OutOfMemory) => OpenError::Memory,
            other => OpenError::Failed(other),
        }
    }
}

impl From<AllocError> for OpenError {
    ghost use Rattle.fc_sql.specs.declared.error.OpenError.TheVariants.{Memory};

    ghost from_gives = { λ _ r. r ≡ Memory };

    fn from(_: AllocError) -> OpenError {
        OpenError::Memory
    }
}
