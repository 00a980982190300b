//! The bytes of both files after the accesses of a trace, and after a power cut.
use crate::trace::{Access, File};
use std::alloc::{AllocError, Global};

// The bytes of both files.
#[derive(Drop)]
pub(crate) struct Contents {
    pub log: Vec<u8>,
    pub database: Vec<u8>,
}

impl Contents {
    // Two empty files.
    pub(crate) fn empty(alloc: Global) -> Contents {
        Contents {
            log: Vec::new(alloc),
            database: Vec::new(alloc),
        }
    }
}

// A file with all that was written to it, and with what was synced.
#[derive(Drop)]
struct Replayed {
    written: Vec<u8>,
    synced: Vec<u8>,
}

// Both files, after the accesses so far.
#[derive(Drop)]
pub(crate) struct Replay {
    alloc: Global,
    log: Replayed,
    database: Replayed,
}

// What a power cut leaves of the writes that no sync has completed.
#[derive(Clone, Copy, PartialEq, Eq)]
pub(crate) enum Unsynced {
    Kept,
    Lost,
    // The log's are lost, and the database's are kept.
    LostInLog,
    // The database's are lost, and the log's are kept.
    LostInDatabase,
}

// What a power cut leaves of the access during which it comes.
#[derive(Clone, Copy, PartialEq, Eq)]
pub(crate) enum UnderWay {
    Nothing,
    FirstHalf,
    LastHalf,
    // The bytes of a write are neither the old nor the new ones.
    Garbled,
    Whole,
}

// Copies bytes.
fn copy(alloc: Global, bytes: &[u8]) -> Result<Vec<u8>, AllocError> {
    Vec::from_slice(alloc, bytes)
}

// Writes bytes at an offset; a file that is too short grows.
fn write(file: &mut Vec<u8>, at: usize, bytes: &[u8]) -> Result<(), AllocError> {
    let end = at.checked_add(bytes.len()).ok_or(AllocError)?;
    if end > file.len() {
        file.resize(end, 0)?;
    }
    file[at..end].copy_from_slice(bytes);
    Ok(())
}

// Returns bytes that differ from these in each place.
fn garbled(alloc: Global, bytes: &[u8]) -> Result<Vec<u8>, AllocError> {
    let mut other = Vec::new(alloc);
    for byte in bytes {
        other.push(!*byte)?;
    }
    Ok(other)
}

// Makes a part of a write to a file.
fn write_part(
    alloc: Global,
    file: &mut Vec<u8>,
    at: usize,
    bytes: &[u8],
    part: UnderWay,
) -> Result<(), AllocError> {
    let half = bytes.len() / 2;
    match part {
        UnderWay::Nothing => Ok(()),
        UnderWay::FirstHalf => write(file, at, &bytes[..half]),
        UnderWay::LastHalf => write(file, at.saturating_add(half), &bytes[half..]),
        UnderWay::Garbled => write(file, at, &garbled(alloc, bytes)?),
        UnderWay::Whole => write(file, at, bytes),
    }
}

// Makes a part of a change of a file's length.
fn resize_part(file: &mut Vec<u8>, len: usize, part: UnderWay) -> Result<(), AllocError> {
    match part {
        UnderWay::Nothing => Ok(()),
        UnderWay::FirstHalf => {
            let middle = file.len() / 2 + len / 2;
            file.resize(middle, 0)
        }
        UnderWay::LastHalf | UnderWay::Garbled | UnderWay::Whole => file.resize(len, 0),
    }
}

// Makes a part of an access to a file. Of a sync there is no part.
fn apply_part(
    alloc: Global,
    file: &mut Vec<u8>,
    access: &Access,
    part: UnderWay,
) -> Result<(), AllocError> {
    match access {
        Access::Write(at, bytes) => write_part(alloc, file, *at, bytes, part),
        Access::Resize(len) => resize_part(file, *len, part),
        Access::Sync => Ok(()),
    }
}

impl Replayed {
    fn new(alloc: Global, bytes: &[u8]) -> Result<Replayed, AllocError> {
        Ok(Replayed {
            written: copy(alloc, bytes)?,
            synced: copy(alloc, bytes)?,
        })
    }

    // Applies an access.
    fn apply(&mut self, alloc: Global, access: &Access) -> Result<(), AllocError> {
        if matches!(access, Access::Sync) {
            self.synced = copy(alloc, &self.written)?;
            return Ok(());
        }
        apply_part(alloc, &mut self.written, access, UnderWay::Whole)
    }

    // Returns the file's bytes with its unsynced writes, or without them.
    fn bytes(&self, has_unsynced: bool) -> &[u8] {
        if has_unsynced {
            &self.written
        } else {
            &self.synced
        }
    }
}

impl Replay {
    // Begins with files that hold these bytes.
    pub(crate) fn new(alloc: Global, contents: &Contents) -> Result<Replay, AllocError> {
        Ok(Replay {
            alloc,
            log: Replayed::new(alloc, &contents.log)?,
            database: Replayed::new(alloc, &contents.database)?,
        })
    }

    // Applies an access to a file.
    pub(crate) fn apply(&mut self, file: File, access: &Access) -> Result<(), AllocError> {
        match file {
            File::Log => self.log.apply(self.alloc, access),
            File::Database => self.database.apply(self.alloc, access),
        }
    }

    // Applies accesses to the files, in their order.
    pub(crate) fn apply_all(&mut self, accesses: &[(File, Access)]) -> Result<(), AllocError> {
        for access in accesses {
            self.apply(access.0, &access.1)?;
        }
        Ok(())
    }

    // Returns what both files hold after a power cut between two accesses.
    pub(crate) fn left(&self, unsynced: Unsynced) -> Result<Contents, AllocError> {
        let in_log = matches!(unsynced, Unsynced::Kept | Unsynced::LostInDatabase);
        let in_database = matches!(unsynced, Unsynced::Kept | Unsynced::LostInLog);
        Ok(Contents {
            log: copy(self.alloc, self.log.bytes(in_log))?,
            database: copy(self.alloc, self.database.bytes(in_database))?,
        })
    }

    // Returns what both files hold after a power cut during an access.
    pub(crate) fn left_during(
        &self,
        unsynced: Unsynced,
        file: File,
        access: &Access,
        part: UnderWay,
    ) -> Result<Contents, AllocError> {
        let mut left = self.left(unsynced)?;
        let bytes = match file {
            File::Log => &mut left.log,
            File::Database => &mut left.database,
        };
        apply_part(self.alloc, bytes, access, part)?;
        Ok(left)
    }
}
