//! A disk that records its writes and syncs in a trace, and fails at the call that the trace names.
//!
//! It is written as `Fuse` of the kit's sqlite_disk is.
ghost use Rattle.std.specs.Prelude.{◌≡◌, ◌+◌, ◌≤◌, ◌&&◌, length, None, not, false};
ghost use Rattle.sqlite_disk.specs.Disk.{MoreFaults};
ghost use Rattle.sqlite_disk.specs.Refusal.{is_no_room};

use crate::trace::{Access, Failure, File, Trace};
use sqlite_disk::{Disk, Tally};
use std::io;

#[derive(Drop)]
pub(crate) struct TracedDisk<'a, D: Disk> {
    inner: D,
    file: File,
    trace: &'a Trace,
    refused: u64,
    sync_refused: bool,
}

impl<'a, D: Disk> TracedDisk<'a, D> {
    pub(crate) fn new(inner: D, file: File, trace: &'a Trace) -> TracedDisk<'a, D>
        ensures inner { result.inner ≡ inner }
        ensures usable { result.sync_refused ≡ false }
    {
        TracedDisk {
            inner,
            file,
            trace,
            refused: 0,
            sync_refused: false,
        }
    }
}

// Counts a failed call, and returns its error.
fn refuse(refused: &mut u64) -> io::Error
    ensures faults { MoreFaults refused.old refused.new }
    ensures grows { refused.old ≤ refused.new }
    ensures kind { is_no_room result ≡ false }
{
    *refused = refused.saturating_add(1);
    io::Error::other("the disk fails")
}

// Returns the part of a write that is done. Without a failure that is all.
fn part_of(bytes: &[u8], failure: Option<Failure>) -> &[u8]
    ensures all { failure ≡ None → result.now ≡ bytes.now }
    ensures bound { length result.now ≤ length bytes.now }
{
    match failure {
        Some(Failure::Nothing) => &bytes[..0],
        Some(Failure::Half) => &bytes[..bytes.len() / 2],
        Some(Failure::All) | None => bytes,
    }
}

impl<'a, D: Disk> Disk for TracedDisk<'a, D> {
    ghost seen = { λ f. D.Disk.seen f.inner };

    ghost may_leave = { λ f. D.Disk.may_leave f.inner };

    ghost is_usable = { λ f. D.Disk.is_usable f.inner && not f.sync_refused };

    ghost faults = { λ f. D.Disk.faults f.inner + f.refused };

    ghost tally_of = { λ f. D.Disk.tally_of f.inner };

    ghost is_rotten = { λ f. D.Disk.is_rotten f.inner };

    ghost key_of = { λ f. D.Disk.key_of f.inner };

    ghost is_clean = { λ f. D.Disk.is_clean f.inner };

    ghost is_fair = { λ f. D.Disk.is_fair f.inner };

    ghost fair_if_clean = { λ f. D.Disk.fair_if_clean f.inner };

    ghost seen_may_stay = { λ f. D.Disk.seen_may_stay f.inner };

    // As `Wary` supposes, a torn write may leave any bytes.
    fn mixes(&self) -> bool {
        false
    }

    fn key(&self) -> u64 {
        self.inner.key()
    }

    fn tally(&self) -> Tally {
        self.inner.tally()
    }

    fn may_be_used(&self) -> bool {
        self.inner.may_be_used() && !self.sync_refused
    }

    fn len(&mut self) -> io::Result<usize> {
        if self.trace.count_call().is_some() {
            return Err(refuse(&mut self.refused));
        }
        self.inner.len()
    }

    fn read_at(&mut self, at: usize, buf: &mut [u8]) -> io::Result<()> {
        if self.trace.count_call().is_some() {
            return Err(refuse(&mut self.refused));
        }
        self.inner.read_at(at, buf)
    }

    fn read_checked(&mut self, key: u64, want: u64, at: usize, buf: &mut [u8]) -> io::Result<()> {
        if self.trace.count_call().is_some() {
            return Err(refuse(&mut self.refused));
        }
        self.inner.read_checked(key, want, at, buf)
    }

    fn write_at(&mut self, at: usize, bytes: &[u8]) -> io::Result<()> {
        let failure = self.trace.count_call();
        let part = part_of(bytes, failure);
        if self.trace.note_write(self.file, at, part).is_err() {
            return Err(refuse(&mut self.refused));
        }
        self.inner.write_at(at, part)?;
        match failure {
            None => Ok(()),
            Some(_) => Err(refuse(&mut self.refused)),
        }
    }

    fn set_len(&mut self, len: usize) -> io::Result<()> {
        let failure = self.trace.count_call();
        if matches!(failure, Some(Failure::Nothing | Failure::Half))
            || self.trace.note(self.file, Access::Resize(len)).is_err()
        {
            return Err(refuse(&mut self.refused));
        }
        self.inner.set_len(len)?;
        match failure {
            None => Ok(()),
            Some(_) => Err(refuse(&mut self.refused)),
        }
    }

    fn sync(&mut self) -> io::Result<()> {
        let failure = self.trace.count_call();
        self.sync_refused = true;
        if failure.is_some() {
            self.trace.note_failed_sync();
        }
        if matches!(failure, Some(Failure::Nothing))
            || self.trace.note(self.file, Access::Sync).is_err()
        {
            return Err(refuse(&mut self.refused));
        }
        self.inner.sync()?;
        match failure {
            None => {
                self.sync_refused = false;
                Ok(())
            }
            Some(_) => Err(refuse(&mut self.refused)),
        }
    }
}
