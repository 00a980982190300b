//! Sensors: the readings of a device after its clock.
//!
//! The readings are those that a driver or a script keeps in a file, or zeros without sensors.
ghost use Rattle.std.specs.Prelude.{◌≡◌, ⊤, ℕ, List, IfOk, OnErr};
ghost use Rattle.fc_host.specs.Clocks.{AreSensed, no_sensors};

use std::io::{Eprint, Read};
use std::os::unix::fs::FileTypeExt;
use std::rt::Files;
use std::sync::{Mutex, Wait};
use std::{fs, io};
use thiserror::Error;

/// The number of bytes of the sensor readings, which follow those of the clock.
pub const SENSED: usize = 56;

/// The sensor readings.
pub type Sensed = [u8; SENSED];

/// The sensor readings without sensors: zeros.
const NOTHING: Sensed = [0; SENSED];

/// The sensors of a device.
pub trait Sensors {
    // A property of all readings that the sensors return.
    ghost are_sensed: { List ℕ → Type 0 } = { λ _. ⊤ };

    /// Returns the sensor readings at `now`, in milliseconds.
    fn sense<R: Wait>(&self, rt: &R, now: u64) -> Sensed
        ensures { are_sensed result };
}

/// Sensors of a device without any; the readings are zeros.
#[derive(Clone, Copy)]
pub struct NoSensors;

impl Sensors for NoSensors {
    ghost are_sensed = { λ sensed. sensed ≡ no_sensors };

    fn sense<R: Wait>(&self, rt: &R, now: u64) -> Sensed {
        let _ = rt;
        let _ = now;
        NOTHING
    }
}

// The reason why a file doesn't give all 56 bytes of the sensor readings.
#[derive(Debug, Drop, Error)]
enum Trouble {
    #[error("{0}")]
    Unread(#[from] io::Error),
    #[error("a FIFO isn't read, since that waits for its writer")]
    Fifo,
    #[error("{0} bytes of 56")]
    Short(usize),
}

impl Trouble {
    // Returns the state of a file that has this trouble.
    fn state(&self) -> FileState {
        match self {
            Trouble::Unread(_) => FileState::Unread,
            Trouble::Fifo => FileState::Fifo,
            Trouble::Short(_) => FileState::Short,
        }
    }
}

// The state of a file: it gives the 56 bytes (`Whole`), or the reason why it doesn't.
#[derive(Clone, Copy, PartialEq, Eq)]
enum FileState {
    Whole,
    Unread,
    Fifo,
    Short,
}

// The last readings of a file, the time of the read, and the file's state at that read.
#[derive(Drop)]
struct KeptReadings {
    at: Option<u64>,
    sensed: Sensed,
    state: FileState,
}

/// Sensors whose readings are the first 56 bytes of a file.
///
/// The file is read at the first call, and at each call with a later time than at the last read.
/// Any other call gets the readings of the last read. Missing bytes are zeros. A line is written to
/// standard error if the file can't be read, is a FIFO or is too short. Each later change of the
/// file's state is reported too.
#[derive(Drop)]
pub struct FileSensors<'a, F: Files + Eprint> {
    files: &'a F,
    path: &'a str,
    kept: Mutex<KeptReadings>,
}

impl<'a, F: Files + Eprint> FileSensors<'a, F> {
    /// Makes the sensors of the file at `path`.
    pub fn new(files: &'a F, path: &'a str) -> FileSensors<'a, F> {
        let kept = KeptReadings {
            at: None,
            sensed: NOTHING,
            state: FileState::Whole,
        };
        FileSensors {
            files,
            path,
            kept: Mutex::new(kept),
        }
    }

    // Reads up to 56 bytes from the start of the file over `sensed`; the missing bytes are zeros.
    // Returns the trouble if not all 56 bytes were read: `Fifo` for a FIFO, which isn't read,
    // `Short` with the number of bytes, or `Unread` with the error.
    fn read(&self, sensed: &mut Sensed) -> Result<(), Trouble> {
        *sensed = NOTHING;
        if fs::metadata(self.files, self.path)?.file_type().is_fifo() {
            return Err(Trouble::Fifo);
        }
        let mut file = fs::open(self.files, self.path)?;
        match read_sensed(&mut file, sensed)? {
            SENSED => Ok(()),
            count => Err(Trouble::Short(count)),
        }
    }

    // Writes a line about the result of the last read of the file to standard error.
    fn tell(&self, read: &Result<(), Trouble>) {
        let path = self.path;
        let _told = match read {
            Ok(()) => eprintln!(self.files; "readings {path}: whole again"),
            Err(trouble) => eprintln!(self.files;
                "readings {path}: {trouble}: zeros stand for what is missing"
            ),
        };
    }
}

impl<'a, F: Files + Eprint> Sensors for FileSensors<'a, F> {
    // Returns the readings of the file's last read. The file is read at the first call, and if
    // `now` is later than the time of the last read.
    fn sense<R: Wait>(&self, rt: &R, now: u64) -> Sensed {
        let mut kept = self.kept.lock(rt);
        // an earlier time belongs to a delayed run, and the kept readings are newer
        if kept.at < Some(now) {
            kept.at = Some(now);
            let read = self.read(&mut kept.sensed);
            let state = match &read {
                Ok(()) => FileState::Whole,
                Err(trouble) => trouble.state(),
            };
            if state != kept.state {
                kept.state = state;
                self.tell(&read);
            }
        }
        kept.sensed
    }
}

// Reads up to 56 bytes by one call of the reader over `sensed`; the missing bytes are zeros.
// Returns the number of bytes read. If the call fails, returns its error, and all bytes are zeros.
fn read_sensed<R: Read>(reader: &mut R, sensed: &mut Sensed) -> io::Result<usize>
    ensures given { IfOk result (λ count. AreSensed (R.remaining reader.old) (R.remaining reader.new) count sensed.new) }
    ensures none { OnErr result (sensed.new ≡ no_sensors) }
{
    *sensed = NOTHING;
    let mut given = NOTHING;
    let count = reader.read(&mut given)?;
    sensed[..count].copy_from_slice(&given[..count]);
    Ok(count)
}
