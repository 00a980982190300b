//! A record of the accesses to two files, which can make one of them fail.
use std::alloc::{AllocError, Global};
use std::cell::{Cell, RefCell};

// The file that is accessed.
#[derive(Clone, Copy, PartialEq, Eq)]
pub(crate) enum File {
    Log,
    Database,
}

// An access that changes a file, or makes its changes permanent.
#[derive(Drop)]
pub(crate) enum Access {
    // Bytes at an offset.
    Write(usize, Vec<u8>),
    // The new length.
    Resize(usize),
    Sync,
}

// What a failing call does before it fails.
#[derive(Clone, Copy)]
pub(crate) enum Failure {
    Nothing,
    // A write writes the first half of its bytes. A sync syncs.
    Half,
    // The call does all that was asked.
    All,
}

// The accesses so far, and the call that will fail.
#[derive(Drop)]
pub(crate) struct Trace {
    alloc: Global,
    accesses: RefCell<Vec<(File, Access)>>,
    calls_left: Cell<Option<u64>>,
    failure: Cell<Failure>,
    has_failed_sync: Cell<bool>,
}

impl Trace {
    pub(crate) fn new(alloc: Global) -> Trace {
        Trace {
            alloc,
            accesses: RefCell::new(Vec::new(alloc)),
            calls_left: Cell::new(None),
            failure: Cell::new(Failure::Nothing),
            has_failed_sync: Cell::new(false),
        }
    }

    // Makes the call fail that comes after this number of calls.
    pub(crate) fn fail_after(&self, calls: u64, failure: Failure) {
        self.calls_left.set(Some(calls));
        self.failure.set(failure);
    }

    // Returns whether the call of the last `fail_after` hasn't come yet.
    pub(crate) fn has_failure_left(&self) -> bool {
        self.calls_left.get().is_some()
    }

    // Counts a call. Returns how it fails, if it has to.
    pub(crate) fn count_call(&self) -> Option<Failure> {
        match self.calls_left.get() {
            None => None,
            Some(0) => {
                self.calls_left.set(None);
                Some(self.failure.get())
            }
            Some(calls) => {
                self.calls_left.set(Some(calls - 1));
                None
            }
        }
    }

    // Records that a sync has failed.
    pub(crate) fn note_failed_sync(&self) {
        self.has_failed_sync.set(true);
    }

    // Returns whether a sync has failed.
    pub(crate) fn has_failed_sync(&self) -> bool {
        self.has_failed_sync.get()
    }

    // Records a write.
    pub(crate) fn note_write(&self, file: File, at: usize, bytes: &[u8]) -> Result<(), AllocError> {
        let bytes = Vec::from_slice(self.alloc, bytes)?;
        self.note(file, Access::Write(at, bytes))
    }

    // Records an access.
    pub(crate) fn note(&self, file: File, access: Access) -> Result<(), AllocError> {
        let Ok(mut accesses) = self.accesses.try_borrow_mut() else {
            return Err(AllocError);
        };
        accesses.push((file, access))?;
        Ok(())
    }

    // Returns the number of accesses so far.
    pub(crate) fn len(&self) -> usize {
        match self.accesses.try_borrow() {
            Ok(accesses) => accesses.len(),
            Err(_) => 0,
        }
    }

    // Returns the accesses, in their order.
    pub(crate) fn into_accesses(self) -> Vec<(File, Access)> {
        self.accesses.into_inner()
    }
}
