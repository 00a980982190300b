//! Entries of a server's history.
use std::marker::Model;

/// An operation of a server, for contracts.
///
/// No value of this type is made.
pub struct FiledOperation {
    bits: u8,
}

impl Model for FiledOperation {
    ghost use Rattle.fc_linear.specs.Operations.{Operation};

    ghost Value = { Operation };

    ghost use Rattle.fc_filed.specs.Blank.{any_operation};

    ghost view = { any_operation };
}

/// The save of an operation's update, if there is one, for contracts.
///
/// No value of this type is made.
pub struct FiledSave {
    bits: u8,
}

impl Model for FiledSave {
    ghost use Rattle.std.specs.Prelude.{Option};
    ghost use Rattle.fc_store.specs.Recovery.{Save};

    ghost Value = { Option Save };

    ghost use Rattle.fc_filed.specs.Blank.{no_save};

    ghost view = { no_save };
}

/// An entry: the keys of the calling thread and the call's job, the operation, and its save.
///
/// No value of this type is made.
pub struct FiledEntry {
    pub who: u64,
    pub job: u64,
    pub operation: FiledOperation,
    pub save: FiledSave,
}
