//! Readings for jobs of a server on one thread, from a line or from the sensors.
ghost use Rattle.fc_service.specs.SingleThread.{HandsAlone, ReadiesRecorded};

use crate::lines::LineIngress;
use fc_help::Readings;
use fc_host::clock::device_readings;
use fc_host::sensors::Sensors;
use fc_receive::rounds::Preparation;
use fc_record::{RecordedAlone, Recorder};
use fc_server::SingleThread;
use std::sync::Wait;

/// A preparation that reads the sensors at the time of a round.
///
/// The round's jobs get these readings. The random word is the low 16 bits of the time.
#[derive(Drop)]
pub(crate) struct Sensed<'a, Z: Sensors> {
    pub(crate) sensors: &'a Z,
}

impl<'a, 'b, Z: Sensors, C: Recorder> Preparation<RecordedAlone<'b, C>> for Sensed<'a, Z> {
    ghost readies = { ReadiesRecorded Z.are_sensed };

    fn ready<R: Wait>(&self, rt: &R, ingress: &mut RecordedAlone<'b, C>, now: u64) {
        let readings = device_readings(now, &self.sensors.sense(rt, now));
        ingress.set_handed(&readings, (now % 0x1_0000) as u16);
    }
}

impl LineIngress for SingleThread {
    ghost hands = { HandsAlone };

    // Sets the readings. The random word is 0, so that the output is the same each time.
    fn hand(&mut self, readings: &Readings) {
        self.set_handed(readings, 0);
    }
}
