//! The monotonic clock, and the readings of a device with a clock.
ghost use Rattle.std.specs.Prelude.{◌≡◌};
ghost use Rattle.fc_host.specs.Clocks.{AreReadAt, device_readings};

use crate::sensors::{Sensed, Sensors};
use fc_backend::{CallLog, Device, TimeSource};
use fc_help::{NO_READINGS, Readings};
use std::io;
use std::sync::Wait;
use std::time::{Clock, Instant};

/// The number of bytes that the clock's time has in the readings.
const CLOCK: usize = 8;

/// A source of times in milliseconds since a start, by the monotonic clock.
///
/// A time is 0 if the clock can't be read.
#[derive(Drop)]
pub struct Elapsed<'a, R: Clock> {
    clock: &'a R,
    start: Instant,
}

impl<'a, R: Clock> Elapsed<'a, R> {
    /// Makes a source of times that starts now, with time 0.
    ///
    /// # Errors
    /// Returns the system's error if the clock can't be read.
    pub fn start(clock: &'a R) -> io::Result<Elapsed<'a, R>> {
        let start = Instant::now(clock)?;
        Ok(Elapsed { clock, start })
    }

    // Returns the milliseconds since the start, or 0 if the clock can't be read.
    fn milliseconds(&self) -> u64 {
        match self.start.elapsed(self.clock) {
            Ok(elapsed) => u64::try_from(elapsed.as_millis()).unwrap_or(u64::MAX),
            Err(_) => 0,
        }
    }
}

impl<'a, C: Clock> TimeSource for Elapsed<'a, C> {
    ghost is_time = { λ now before after. after ≡ before };

    fn now<R: Wait>(&self, rt: &R, log: &mut CallLog) -> u64 {
        let _ = rt;
        let _ = log;
        self.milliseconds()
    }

    // Returns the low 16 bits of the time in milliseconds. The word spreads retransmissions (RFC
    // 7252, section 4.2), and is no secret.
    fn random<R: Wait>(&self, rt: &R) -> u16 {
        let _ = rt;
        (self.milliseconds() % 0x1_0000) as u16
    }
}

/// A device with a clock, and with sensors or none.
#[derive(Drop)]
pub struct SensingDevice<'a, M: TimeSource, Z: Sensors> {
    pub times: &'a M,
    pub sensors: &'a Z,
}

impl<'a, M: TimeSource, Z: Sensors> Device for SensingDevice<'a, M, Z> {
    ghost are_readings = { AreReadAt M.is_time Z.are_sensed };

    // Reads the clock, and then the sensors at that time.
    fn readings<R: Wait>(&self, rt: &R, log: &mut CallLog) -> Readings {
        let now = self.times.now(rt, log);
        device_readings(now, &self.sensors.sense(rt, now))
    }
}

/// Returns the readings at `now`, in milliseconds.
///
/// They are the time as eight bytes, least significant first, followed by the sensor readings.
pub fn device_readings(now: u64, sensed: &Sensed) -> Readings
    ensures { result ≡ device_readings now sensed.now }
{
    let mut readings = NO_READINGS;
    readings[..CLOCK].copy_from_slice(&now.to_le_bytes());
    readings[CLOCK..].copy_from_slice(sensed);
    readings
}
