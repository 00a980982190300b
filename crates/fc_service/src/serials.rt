//! The first serial of a server, from the time at which the server starts, and from stored slots.
//!
//! It has to be higher than any serial that an earlier server reached. See [`serial_of_start`] and
//! [`serial_over`].
ghost use Rattle.std.specs.Prelude.{◌≡◌, ◌≤◌, ◌/◌, min};
ghost use Rattle.std.specs.Time.{system_time_nanos};
ghost use Rattle.fc_registry.specs.Slots.{last_serial};
ghost use Rattle.fc_service.specs.Serials.{greatest_serial, serial_of_start, serial_over};

use fc_registry::LAST_SERIAL;
use fc_store::StoredSlot;
use std::io;
use std::time::{Clock, SystemTime, UNIX_EPOCH};

/// The time in milliseconds from which on each start has the same first serial.
///
/// It is 2^48 ms after the beginning of 1970, in the year 10889.
const LAST_START: u64 = 0x1_0000_0000_0000;

/// The amount by which the first serial rises in a millisecond.
///
/// At 32, the 24-bit number of Observe rises by less than 2^23 in 256 s (RFC 7641, section 3.4).
const OF_MILLISECOND: u64 = 32;

/// The additional amount by which the first serial rises in a whole second.
///
/// It is 2^24, so it doesn't change the 24-bit number of Observe.
const OF_SECOND: u64 = 0x100_0000;

/// Returns the milliseconds since the beginning of 1970, by the system's clock.
///
/// `fcd serve` calls it when it starts.
///
/// # Errors
/// Returns an error if the clock can't be read, or if it is set to a time before 1970.
pub fn unix_milliseconds<R: Clock>(clock: &R) -> io::Result<u64> {
    Ok(milliseconds_of(SystemTime::now(clock)?))
}

// Returns the whole milliseconds from the beginning of 1970 to `time`, or 2^64 - 1 if there are
// more.
fn milliseconds_of(time: SystemTime) -> u64
    ensures { result ≡ min (system_time_nanos time / 1000000) 18446744073709551615 }
{
    let since = time.duration_since(UNIX_EPOCH);
    since.map_or(
        0,
        |since| u64::try_from(since.as_millis()).unwrap_or(u64::MAX),
    )
}

/// Returns the first serial of the slots of a server that starts at this time.
///
/// The time is in milliseconds since the beginning of 1970. A later start begins at a higher serial
/// than any that a server reached before. This may not hold if the clock was set back. Nor may it
/// hold if a slot changed more than 32 times a millisecond, and the server ended within a second.
pub fn serial_of_start(milliseconds: u64) -> u64
    ensures value { result ≡ serial_of_start milliseconds }
    ensures bound { result ≤ last_serial }
{
    let passed = milliseconds.min(LAST_START);
    OF_MILLISECOND * passed + OF_SECOND * (passed / 1_000)
}

/// Returns the first serial of a server that starts over stored slots at this time.
///
/// The time is in milliseconds since the beginning of 1970. The serial is that of
/// [`serial_of_start`], or one more than the greatest stored serial if that is greater. So it is
/// greater than each stored serial, unless some slot is stored at the last serial.
pub fn serial_over(milliseconds: u64, stored: &[StoredSlot]) -> u64
    ensures value { result ≡ serial_over milliseconds stored.now }
    ensures bound { result ≤ last_serial }
{
    let next = greatest_serial(stored).saturating_add(1).min(LAST_SERIAL);
    serial_of_start(milliseconds).max(next)
}

// Returns the greatest serial of stored slots, or 0 if there are none.
fn greatest_serial(stored: &[StoredSlot]) -> u64
    ensures { result ≡ greatest_serial stored.now }
{
    stored
        .iter()
        .fold(0, |greatest, slot| greatest.max(slot.serial))
}
