//! Refusals of images.
use crate::untyped::Untyped;
use fc_isa::{DecodeError, Fault};
use std::alloc::AllocError;
use thiserror::Error;

/// The reason why an image is refused; nothing of the image is stored.
#[derive(Clone, Copy, Debug, PartialEq, Eq, Error)]
pub enum Refusal {
    /// The first rule that the image breaks, with its slot.
    ///
    /// If only the typing is missing, the rule is one from 20 to 28.
    #[error("{0}")]
    Broken(Fault),
    /// Memory for the program can't be allocated.
    #[error("out of memory")]
    NoMemory,
}

impl From<Fault> for Refusal {
    ghost use Rattle.std.specs.Prelude.{◌≡◌};
    ghost use Rattle.fc_verify.specs.declared.refusal.Refusal.TheVariants.{Broken};

    ghost from_gives = { λ fault e. e ≡ Broken fault };

    fn from(fault: Fault) -> Self {
        Refusal::Broken(fault)
    }
}

impl From<Untyped> for Refusal {
    ghost use Rattle.std.specs.Prelude.{◌≡◌};
    ghost use Rattle.fc_verify.specs.declared.refusal.Refusal.TheVariants.{Broken};

    ghost from_gives = { λ u e. e ≡ Broken u.fault };

    fn from(untyped: Untyped) -> Self {
        Refusal::Broken(untyped.fault)
    }
}

impl From<AllocError> for Refusal {
    ghost use Rattle.std.specs.Prelude.{◌≡◌};
    ghost use Rattle.fc_verify.specs.declared.refusal.Refusal.TheVariants.{NoMemory};

    ghost from_gives = { λ _ e. e ≡ NoMemory };

    fn from(_error: AllocError) -> Self {
        Refusal::NoMemory
    }
}

impl From<DecodeError> for Refusal {
    ghost use Rattle.std.specs.Prelude.{◌≡◌};
    ghost use Rattle.fc_verify.specs.Refusals.{refusal_of};

    ghost from_gives = { λ error e. e ≡ refusal_of error };

    fn from(error: DecodeError) -> Self {
        match error {
            DecodeError::Fault(fault) => Refusal::Broken(fault),
            DecodeError::NoMemory => Refusal::NoMemory,
        }
    }
}
