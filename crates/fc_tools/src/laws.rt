//! Laws about the registers that an instruction reads, and about digests.
//!
//! Each law is the contract of an empty function.
ghost use Rattle.std.specs.Prelude.{◌≡◌, ◌<◌, ◌≤◌, ℕ, List, Option, Some, length};
ghost use Rattle.fc_cli.specs.declared.status.Status.TheVariants.{Done, Refused};
ghost use Rattle.fc_tools.specs.Digests.{IsDigestEnd, read_of};
ghost use Rattle.fc_tools.specs.Reads.{ReadsDecide};

/// The registers that an instruction reads decide its preconditions.
///
/// The abstract values of these registers alone decide whether the preconditions hold.
pub fn reads_decide()
    ensures { ReadsDecide }
{}

/// A digest is of at most 524,296 bytes, the maximum length of an image.
///
/// An input of at most that many bytes is read whole, and isn't refused. If an input is longer,
/// 524,297 bytes are read, and no digest of it is printed.
pub fn digests_are_of_at_most_524296_bytes()
    ensures whole { (input : List ℕ) → length input ≤ 524296 → read_of input ≡ input }
    ensures part { (input : List ℕ) → 524296 < length input → length (read_of input) ≡ 524297 }
    ensures short { (input : List ℕ) (before after : Option (List ℕ)) → length input ≤ 524296 → IsDigestEnd (Some input) before after Refused → ⊥ }
    ensures long { (input : List ℕ) (before after : Option (List ℕ)) → 524296 < length input → IsDigestEnd (Some input) before after Done → ⊥ }
{}
