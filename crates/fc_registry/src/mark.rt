//! The mark of a commit.
ghost use Rattle.std.specs.Prelude.{◌≡◌};

use fc_ticket::Origin;
use std::marker::Model;

/// The mark of a commit: a token that the response of the run consumes.
///
/// The response of a run isn't made without a mark of the run's commit. Only a commit makes a mark,
/// a mark can't be copied, and only `into_serial` consumes it.
#[must_use]
pub struct Mark {
    pub(crate) origin: Origin,
    pub(crate) found: u64,
    pub(crate) serial: u64,
    pub(crate) changed: bool,
    pub(crate) observed: bool,
}

impl Model for Mark {
    ghost use Rattle.fc_registry.specs.Slots.{Mark as Seal};

    ghost Value = { Seal };

    ghost view = { λ m. record { origin = m.origin; found = m.found; serial = m.serial; changed = m.changed; observed = m.observed } };
}

impl Mark {
    /// Returns the origin of the job whose commit made the mark.
    pub fn origin(&self) -> Origin
        ensures { result ≡ self.now.origin }
    {
        self.origin
    }

    /// Returns the serial that the job's snapshot found.
    pub fn found(&self) -> u64
        ensures { result ≡ self.now.found }
    {
        self.found
    }

    /// Returns the slot's serial at the commit.
    pub fn serial(&self) -> u64
        ensures { result ≡ self.now.serial }
    {
        self.serial
    }

    /// Returns whether the commit changed the slot.
    pub fn changed(&self) -> bool
        ensures { result ≡ self.now.changed }
    {
        self.changed
    }

    /// Returns whether the client of the job's request observes the slot from now on.
    pub fn observed(&self) -> bool
        ensures { result ≡ self.now.observed }
    {
        self.observed
    }

    /// Consumes the mark, and returns the serial that the job's snapshot found.
    pub fn into_serial(self) -> u64
        ensures { result ≡ self.found }
    {
        let Mark {
            origin: _,
            found,
            serial: _,
            changed: _,
            observed: _,
        } = self;
        found
    }
}
