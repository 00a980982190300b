//! Power cuts between and during the accesses of a run.
use crate::replay::{Contents, Replay, UnderWay, Unsynced};
use crate::starts::{Recording, check_start, record};
use crate::trace::{Access, File};
use crate::updates::{COUNT, Made};
use std::alloc::Global;
use std::test::Fail;

// What a power cut leaves.
#[derive(Clone, Copy)]
struct Cut {
    unsynced: Unsynced,
    part: UnderWay,
}

// Returns the number of updates that were stored before the access `number`.
fn stored_before(begins: &[usize], number: usize) -> usize {
    begins
        .iter()
        .skip(1)
        .filter(|begin| **begin <= number)
        .count()
}

// Checks the start after a power cut during the access `number`. If nothing of an update was done,
// the slots are those of the updates before it.
fn check_cut(
    alloc: Global,
    replay: &Replay,
    begins: &[usize],
    number: usize,
    access: &(File, Access),
    cut: Cut,
) -> Result<(), Fail> {
    if cut.part != UnderWay::Nothing && matches!(access.1, Access::Sync) {
        return Ok(());
    }
    let left = replay.left_during(cut.unsynced, access.0, &access.1, cut.part)?;
    let count = stored_before(begins, number);
    let made = Made::first(count);
    if begins.contains(&number) && cut.part == UnderWay::Nothing {
        return check_start(alloc, &left, &[made]);
    }
    check_start(alloc, &left, &[made, Made::first(count.saturating_add(1))])
}

// Checks the start after a power cut at each access of a run, and after the last access.
fn check_cuts(alloc: Global, unsynced: Unsynced, part: UnderWay) -> Result<(), Fail> {
    let Recording { trace, begins } = record(alloc)?;
    let accesses = trace.into_accesses();
    let mut replay = Replay::new(alloc, &Contents::empty(alloc))?;
    for (number, access) in accesses.iter().enumerate() {
        check_cut(
            alloc,
            &replay,
            &begins,
            number,
            access,
            Cut { unsynced, part },
        )?;
        replay.apply(access.0, &access.1)?;
    }
    check_start(alloc, &replay.left(unsynced)?, &[Made::first(COUNT)])
}

#[test]
fn a_killed_process_leaves_its_writes(rt: HostRuntime) -> Result<(), Fail> {
    check_cuts(rt.alloc(), Unsynced::Kept, UnderWay::Nothing)
}

#[test]
fn a_power_cut_loses_what_is_not_synced(rt: HostRuntime) -> Result<(), Fail> {
    check_cuts(rt.alloc(), Unsynced::Lost, UnderWay::Nothing)
}

#[test]
fn a_power_cut_loses_what_is_not_synced_of_one_file(rt: HostRuntime) -> Result<(), Fail> {
    check_cuts(rt.alloc(), Unsynced::LostInLog, UnderWay::Nothing)?;
    check_cuts(rt.alloc(), Unsynced::LostInDatabase, UnderWay::Nothing)
}

#[test]
fn a_torn_write_has_its_first_half(rt: HostRuntime) -> Result<(), Fail> {
    check_cuts(rt.alloc(), Unsynced::Kept, UnderWay::FirstHalf)
}

#[test]
fn a_torn_write_has_its_last_half(rt: HostRuntime) -> Result<(), Fail> {
    check_cuts(rt.alloc(), Unsynced::Kept, UnderWay::LastHalf)
}

#[test]
fn a_torn_write_has_other_bytes(rt: HostRuntime) -> Result<(), Fail> {
    check_cuts(rt.alloc(), Unsynced::Kept, UnderWay::Garbled)
}

#[test]
fn a_write_is_done_before_earlier_ones(rt: HostRuntime) -> Result<(), Fail> {
    check_cuts(rt.alloc(), Unsynced::Lost, UnderWay::Whole)
}
