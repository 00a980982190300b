//! Calls of the disk that fail.
//!
//! Each update of the list is saved by a store that was started after the updates before it. In
//! turn each call of the disk that the save makes fails once: it does nothing, half, or all of what
//! was asked, and returns an error.
use crate::replay::{Contents, Replay, Unsynced};
use crate::starts::{Recording, TracedStore, check_start, close, record, save, start};
use crate::trace::{Access, Failure, File, Trace};
use crate::updates::{COUNT, Made};
use std::alloc::Global;
use std::test::Fail;

// More calls of the disk than a start, a save or a close makes.
const MANY: u64 = 10_000;

// Checks the starts after a kill and after a power cut, over files that held these bytes before the
// accesses.
fn check_starts(
    alloc: Global,
    before: &Contents,
    accesses: &[(File, Access)],
    made: &[Made],
) -> Result<(), Fail> {
    let mut replay = Replay::new(alloc, before)?;
    replay.apply_all(accesses)?;
    check_start(alloc, &replay.left(Unsynced::Kept)?, made)?;
    check_start(alloc, &replay.left(Unsynced::Lost)?, made)
}

// Saves the next update after a failure during the update `number`. Returns the lists of updates of
// which a start has to find one.
fn made_after(
    alloc: Global,
    store: &mut TracedStore<'_>,
    number: usize,
    is_saved: bool,
) -> Result<Vec<Made>, Fail> {
    let made = if is_saved {
        Made::first(number.saturating_add(1))
    } else {
        Made::first(number)
    };
    if !made.leaves(store.slots()) {
        Err("the store has other slots")?;
    }
    let next = number.saturating_add(1);
    if is_saved || next >= COUNT {
        return Ok(vec![in alloc; made, Made::first(next)]?);
    }
    let both = Made::except(number, next.saturating_add(1));
    if save(alloc, store, Made::except(number, next))? {
        return Ok(vec![in alloc; both]?);
    }
    Ok(vec![in alloc; made, Made::first(next), both]?)
}

// Checks the failure of one call during the save of the update `number`, which comes after this
// number of calls. Returns `false` if the save makes no such call.
fn check_failed_save(
    alloc: Global,
    before: &Contents,
    number: usize,
    calls: u64,
    failure: Failure,
) -> Result<bool, Fail> {
    let trace = Trace::new(alloc);
    let mut store = start(alloc, &trace, before).ok_or("no store")?;
    trace.fail_after(calls, failure);
    let is_saved = save(alloc, &mut store, Made::first(number))?;
    if trace.has_failure_left() {
        return Ok(false);
    }
    let made = made_after(alloc, &mut store, number, is_saved)?;
    drop(store);
    if trace.has_failed_sync() && made.len() == 1 {
        Err("a store is open after a failed sync")?;
    }
    check_starts(alloc, before, &trace.into_accesses(), &made)?;
    Ok(true)
}

// Checks the failure of one call during a start over files that hold the first `count` updates.
// Returns `false` if the start makes no such call.
fn check_failed_start(
    alloc: Global,
    before: &Contents,
    count: usize,
    calls: u64,
    failure: Failure,
) -> Result<bool, Fail> {
    let trace = Trace::new(alloc);
    trace.fail_after(calls, failure);
    drop(start(alloc, &trace, before));
    if trace.has_failure_left() {
        return Ok(false);
    }
    check_starts(alloc, before, &trace.into_accesses(), &[Made::first(count)])?;
    Ok(true)
}

// Checks the failure of one call while files that hold the first `count` updates are closed.
// Returns `false` if the close makes no such call.
fn check_failed_close(
    alloc: Global,
    before: &Contents,
    count: usize,
    calls: u64,
    failure: Failure,
) -> Result<bool, Fail> {
    let trace = Trace::new(alloc);
    let store = start(alloc, &trace, before).ok_or("no store")?;
    trace.fail_after(calls, failure);
    close(store);
    if trace.has_failure_left() {
        return Ok(false);
    }
    check_starts(alloc, before, &trace.into_accesses(), &[Made::first(count)])?;
    Ok(true)
}

// Checks the failure of each call during the save of the update `number`.
fn check_save(
    alloc: Global,
    before: &Contents,
    number: usize,
    failure: Failure,
) -> Result<(), Fail> {
    for calls in 0..MANY {
        if !check_failed_save(alloc, before, number, calls, failure)? {
            return Ok(());
        }
    }
    Err("a save makes too many calls")?
}

// Checks the failure of each call during a start.
fn check_start_calls(
    alloc: Global,
    before: &Contents,
    count: usize,
    failure: Failure,
) -> Result<(), Fail> {
    for calls in 0..MANY {
        if !check_failed_start(alloc, before, count, calls, failure)? {
            return Ok(());
        }
    }
    Err("a start makes too many calls")?
}

// Checks the failure of each call during a close.
fn check_close_calls(
    alloc: Global,
    before: &Contents,
    count: usize,
    failure: Failure,
) -> Result<(), Fail> {
    for calls in 0..MANY {
        if !check_failed_close(alloc, before, count, calls, failure)? {
            return Ok(());
        }
    }
    Err("a close makes too many calls")?
}

// Checks the failure of each call during the save of each update.
fn check_saves(alloc: Global, failure: Failure) -> Result<(), Fail> {
    let Recording { trace, begins } = record(alloc)?;
    let accesses = trace.into_accesses();
    let mut replay = Replay::new(alloc, &Contents::empty(alloc))?;
    for (index, access) in accesses.iter().enumerate() {
        if let Some(number) = begins.iter().position(|begin| *begin == index) {
            if number < COUNT {
                check_save(alloc, &replay.left(Unsynced::Kept)?, number, failure)?;
            }
        }
        replay.apply(access.0, &access.1)?;
    }
    Ok(())
}

// Returns what the files hold before the update `number`, or before the close if there is none.
fn contents_before(alloc: Global, number: usize) -> Result<Contents, Fail> {
    let Recording { trace, begins } = record(alloc)?;
    let count = *begins.get(number).ok_or("an update")?;
    let accesses = trace.into_accesses();
    let mut replay = Replay::new(alloc, &Contents::empty(alloc))?;
    for access in accesses.iter().take(count) {
        replay.apply(access.0, &access.1)?;
    }
    Ok(replay.left(Unsynced::Kept)?)
}

#[test]
fn a_call_of_a_save_does_nothing_and_fails(rt: HostRuntime) -> Result<(), Fail> {
    check_saves(rt.alloc(), Failure::Nothing)
}

#[test]
fn a_call_of_a_save_does_half_and_fails(rt: HostRuntime) -> Result<(), Fail> {
    check_saves(rt.alloc(), Failure::Half)
}

#[test]
fn a_call_of_a_save_does_all_and_fails(rt: HostRuntime) -> Result<(), Fail> {
    check_saves(rt.alloc(), Failure::All)
}

#[test]
fn a_call_of_the_first_start_fails(rt: HostRuntime) -> Result<(), Fail> {
    let alloc = rt.alloc();
    check_start_calls(alloc, &Contents::empty(alloc), 0, Failure::Nothing)?;
    check_start_calls(alloc, &Contents::empty(alloc), 0, Failure::Half)?;
    check_start_calls(alloc, &Contents::empty(alloc), 0, Failure::All)
}

#[test]
fn a_call_of_a_later_start_fails(rt: HostRuntime) -> Result<(), Fail> {
    let alloc = rt.alloc();
    let before = contents_before(alloc, COUNT)?;
    check_start_calls(alloc, &before, COUNT, Failure::Nothing)?;
    check_start_calls(alloc, &before, COUNT, Failure::Half)
}

#[test]
fn a_call_of_a_close_fails(rt: HostRuntime) -> Result<(), Fail> {
    let alloc = rt.alloc();
    let before = contents_before(alloc, COUNT)?;
    check_close_calls(alloc, &before, COUNT, Failure::Nothing)?;
    check_close_calls(alloc, &before, COUNT, Failure::Half)?;
    check_close_calls(alloc, &before, COUNT, Failure::All)
}
