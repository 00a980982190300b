//! Unopened books of changes, for a new server.
ghost use Rattle.std.specs.Prelude.{◌≡◌, ◌<◌};

use std::sync::ledger::Blank;

/// Eight unopened books of changes, each with the same number of parts.
///
/// [`Locked::new`](crate::server::Locked::new) opens one book for each shard. The shard's ledger
/// has the name of that book.
#[derive(Drop)]
pub struct Blanks {
    pub parts: u64,
    pub blank0: Blank,
    pub blank1: Blank,
    pub blank2: Blank,
    pub blank3: Blank,
    pub blank4: Blank,
    pub blank5: Blank,
    pub blank6: Blank,
    pub blank7: Blank,
    ghost some: { 0 < parts },
    ghost parts0: { blank0.parts ≡ parts },
    ghost parts1: { blank1.parts ≡ parts },
    ghost parts2: { blank2.parts ≡ parts },
    ghost parts3: { blank3.parts ≡ parts },
    ghost parts4: { blank4.parts ≡ parts },
    ghost parts5: { blank5.parts ≡ parts },
    ghost parts6: { blank6.parts ≡ parts },
    ghost parts7: { blank7.parts ≡ parts },
}

impl Blanks {
    /// Makes eight books of `parts` parts each.
    pub fn new(parts: u64) -> Blanks
        requires { 0 < parts }
        ensures { result.parts ≡ parts }
    {
        Blanks {
            parts,
            blank0: Blank::new(parts),
            blank1: Blank::new(parts),
            blank2: Blank::new(parts),
            blank3: Blank::new(parts),
            blank4: Blank::new(parts),
            blank5: Blank::new(parts),
            blank6: Blank::new(parts),
            blank7: Blank::new(parts),
        }
    }
}
