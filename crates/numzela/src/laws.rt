//! Laws about the statuses and the configuration, in literals.
//!
//! Each law is the contract of an empty function.
ghost use Rattle.std.specs.Prelude.{◌≡◌, [], ◌∷◌, true};
ghost use Rattle.fc_front.specs.Policies.{default_policy};
ghost use Rattle.numzela.specs.Configs.{begin_for, is_valid, managers_for};
ghost use Rattle.numzela.specs.declared.config.Subnet.{Subnet};

use crate::status::{EMPTY, IN_USE, NO_MEMORY, OK, OUT_OF_RANGE, REFUSED, SEND};

/// The statuses have the numbers that `numzela.h` gives them.
pub fn statuses_have_their_numbers()
    ensures ok { OK ≡ 0 }
    ensures send { SEND ≡ 1 }
    ensures refused { REFUSED ≡ 2 }
    ensures no_memory { NO_MEMORY ≡ 3 }
    ensures empty { EMPTY ≡ 4 }
    ensures in_use { IN_USE ≡ 5 }
    ensures out_of_range { OUT_OF_RANGE ≡ 6 }
{}

/// A server with a configuration of zeros begins with the defaults.
///
/// The defaults are serial 0, message ID 0, and the default policy, for any entries of `managers`.
/// If the entries are zeros too, the configuration is valid.
pub fn zeros_are_the_defaults()
    ensures begins { (a b c d : Subnet) → begin_for (record {
      first_serial = 0;
      confirm_after = 0;
      exchanges = 0;
      share = 0;
      first_id = 0;
      manager_count = 0;
      managers = a ∷ b ∷ c ∷ d ∷ [];
    })
        ≡ record { serial = 0; id = 0; policy = default_policy } }
    ensures valid { let none : Subnet = record { address = 0 ∷ 0 ∷ 0 ∷ 0 ∷ []; prefix = 0 } in
        is_valid (record {
          first_serial = 0;
          confirm_after = 0;
          exchanges = 0;
          share = 0;
          first_id = 0;
          manager_count = 0;
          managers = none ∷ none ∷ none ∷ none ∷ [];
        }) ≡ true }
{}

/// The last manager that is given is repeated until there are four.
///
/// For 192.0.2.0/24 and 10.0.0.0/8, with a count of 2, the four networks are the first one, and
/// then the second one three times.
pub fn the_last_manager_is_repeated()
    ensures { (c d : Subnet)
        → managers_for 2 (record { address = 192 ∷ 0 ∷ 2 ∷ 0 ∷ []; prefix = 24 } ∷ record { address = 10 ∷ 0 ∷ 0 ∷ 0 ∷ []; prefix = 8 } ∷ c ∷ d ∷ [])
        ≡ record { ip = 192 ∷ 0 ∷ 2 ∷ 0 ∷ []; bits = 24 } ∷ record { ip = 10 ∷ 0 ∷ 0 ∷ 0 ∷ []; bits = 8 }
        ∷ record { ip = 10 ∷ 0 ∷ 0 ∷ 0 ∷ []; bits = 8 } ∷ record { ip = 10 ∷ 0 ∷ 0 ∷ 0 ∷ []; bits = 8 } ∷ [] }
{}
