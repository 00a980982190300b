//! The readings: a program's sensor input.
ghost use Rattle.std.specs.Prelude.{◌≡◌, ◌↔◌, IsTrue};

/// Length of the readings, in bytes.
pub const READINGS: usize = 64;

/// The read-only input of programs from their device, supplied with each snapshot.
pub type Readings = [u8; READINGS];

/// Readings of zeros, for a device that supplies none.
pub const NO_READINGS: Readings = [0; READINGS];

/// Returns whether two readings are the same.
///
/// A commit compares an outcome's readings with those of the ticket.
pub fn are_same_readings(readings: &[u8], other: &[u8]) -> bool
    ensures { IsTrue result ↔ (readings.now ≡ other.now) }
{
    readings == other
}
