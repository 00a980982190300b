//! Receipts: descriptions of installed programs.
ghost use Rattle.std.specs.Prelude.{◌≡◌};
ghost use Rattle.fc_ticket.specs.Runs.{receipt_of};

use fc_verify::Verified;

/// The description of an installed program.
///
/// A receipt has the serial of the install, the program's cost and budget in steps, and the size of
/// the program's variables in bytes.
#[derive(Clone, Copy, PartialEq, Eq)]
pub struct Receipt {
    pub version: u64,
    pub cost: u32,
    pub budget: u32,
    pub vars: u16,
}

impl Receipt {
    /// Makes the receipt of a program whose install has the serial `version`.
    pub fn of(program: &Verified, version: u64) -> Receipt
        ensures { result ≡ receipt_of program.now version }
    {
        Receipt {
            version,
            cost: program.cost(),
            budget: program.budget(),
            vars: program.vars_size(),
        }
    }
}
