//! A shard under its lock: the changes that its calls count.
ghost use Rattle.std.specs.Prelude.{◌≡◌, ◌+◌, false};
ghost use Rattle.fc_store.specs.Stored.{blank_slot};
ghost use Rattle.fc_locked.specs.Naming.{AreNamed};

use crate::job_tests::job;
use crate::overtaking_tests::Bare;
use fc_backend::{Bench, TrackLog};
use fc_filed::NewServerBook;
use fc_fixtures::images::COUNTER;
use fc_front::DEFAULT_POLICY;
use fc_help::{Method, NO_READINGS, Request};
use fc_locked::{Blanks, Books, Locked};
use fc_machine::{Frame, run};
use fc_pool::no_store;
use fc_registry::{Committed, Removal, Taken};
use fc_server::{Begin, FirstServer};
use fc_store::NoStore;
use fc_ticket::{Ask, Job, SlotNumber, SlotSnapshot, Ticket};
use fc_verify::verify;
use std::alloc::Global;
use std::marker::Brand;
use std::sync::{Arc, Wait};
use std::test::Fail;

// Returns the job of a POST to slot 3, which shard 3 owns.
fn post() -> Job {
    let mut post = job(0);
    post.origin.slot = SlotNumber::new(3);
    post.ask = Ask::Run(Request::new(Method::Post, 3, None, &[], &[]));
    post
}

// Takes a snapshot for the job, runs the program, and commits the outcome. Returns whether the mark
// of the commit has serial 8; `false` if there was no snapshot or no commit.
fn commit<B: Bench, R: Wait>(
    rt: &R,
    frame: &mut Frame,
    bench: &B,
    tallies: &mut B::Tallies,
    log: &mut TrackLog<B::Book>,
    job: &Job,
) -> bool {
    let mut found = SlotSnapshot::blank();
    let taken = bench.take(rt, job, &NO_READINGS, &mut found, tallies, log);
    match &taken {
        Taken::Given(given) => {
            let ticket = Ticket::of(given, &found);
            commit_run(rt, frame, bench, tallies, log, &ticket)
        }
        Taken::Missing | Taken::Refused | Taken::Stale => false,
    }
}

// Runs the program of a snapshot, and commits the outcome. Returns whether the mark of the commit
// has serial 8; `false` if there was no commit.
fn commit_run<B: Bench, R: Wait>(
    rt: &R,
    frame: &mut Frame,
    bench: &B,
    tallies: &mut B::Tallies,
    log: &mut TrackLog<B::Book>,
    ticket: &Ticket<'_>,
) -> bool {
    let outcome = run(
        frame,
        ticket.program(),
        ticket.request(),
        ticket.vars(),
        ticket.readings(),
    );
    match bench.commit(rt, 0, &outcome, ticket, tallies, log) {
        Some(committed) => is_at_8(committed),
        None => false,
    }
}

// Returns whether a run was committed, and its mark has serial 8.
fn is_at_8(committed: Committed) -> bool {
    match committed {
        Committed::Done(mark) => mark.into_serial() == 8,
        Committed::Overtaken | Committed::Ended | Committed::Stranger => false,
    }
}

// Installs a program, commits a run, removes the program, and removes it again, which changes
// nothing. Returns the slot's serial after the removal; `None` if the run or the removal failed.
fn change_slot<B: Bench, R: Wait>(
    rt: &R,
    alloc: Global,
    bench: &B,
    tallies: &mut B::Tallies,
    log: &mut TrackLog<B::Book>,
) -> Result<Option<u64>, Fail> {
    let mut frame = Frame::new(alloc)?;
    let program = Arc::new(alloc, verify(alloc, COUNTER).map_err(|_| "accepted")?)?;
    let job = post();
    let _made = bench.install(rt, &job, program, tallies, log);
    let has_run = commit(rt, &mut frame, bench, tallies, log, &job);
    let removal = bench.remove(rt, &job, tallies, log);
    let _absent = bench.remove(rt, &job, tallies, log);
    match removal {
        Some(Removal::Removed { serial }) if has_run => Ok(Some(serial)),
        _ => Ok(None),
    }
}

// Changes a slot of a new server whose slots begin at serial 7. Returns the slot's serial at the
// end, 0 if a change failed, and the number of changes in the tally of its shard.
fn change<B: Books, R: Wait>(
    rt: &R,
    alloc: Global,
    blanks: Blanks,
    book: NewServerBook,
) -> Result<(u64, u64), Fail>
    requires parts { blanks.parts ≡ 2 }
    requires names { AreNamed blanks B.names }
    requires books { blanks.parts ≡ B.parts }
    requires table { book.table ≡ B.table }
    requires book_threads { book.first_job ≡ 11 }
    requires threads { book.first_job ≡ B.first_job }
    requires server { book.first ≡ B.first }
    requires persistent { B.persistent ≡ false }
    requires stored { (λ n. blank_slot) ≡ B.stored }
{
    let device = Bare::new();
    let (server, mut unassigned, mut logs, _keys) = Locked::<B, Bare, NoStore>::new(
        alloc,
        &device,
        no_store(),
        blanks,
        book,
    )?;
    let Some(mut log) = logs.pop() else {
        unreachable!();
    };
    let mut tallies = unassigned.split();
    let changed = change_slot(rt, alloc, &server, &mut tallies, &mut log);
    let shown = tallies.shown(3);
    changed.map(|serial| (serial.unwrap_or(0), shown))
}

#[test]
fn each_change_is_counted_once(rt: HostRuntime) -> Result<(), Fail> {
    let blanks = Blanks::new(2);
    let begin = Begin {
        serial: 7,
        id: 0,
        policy: DEFAULT_POLICY,
    };
    let first = FirstServer::new(rt.alloc(), &begin)?;
    let book = NewServerBook::new(rt.alloc(), 1, first)?;
    assert!(rt; change::<Brand, HostRuntime>(&rt, rt.alloc(), blanks, book)? == (10, 3));
    Ok(())
}

// What is known of two shards, without a call of theirs.
#[derive(Debug, PartialEq, Eq, Drop)]
struct Known {
    at_first: bool,
    after_its_advance: bool,
    at_the_other_shard: bool,
    after_its_call: bool,
}

// Advances shard 3, asks what is known of shards 2 and 3, calls shard 3, and asks again.
fn ask_what_is_known<B: Bench, R: Wait>(
    rt: &R,
    bench: &B,
    tallies: &mut B::Tallies,
    log: &mut TrackLog<B::Book>,
) -> Known {
    let at_first = bench.skip_if_idle(3, 1_000, log);
    let advanced = bench.advance_if_idle(rt, 3, 1_000, log);
    let after_its_advance = advanced && bench.skip_if_idle(3, 5_000, log);
    let at_the_other_shard = bench.skip_if_idle(2, 5_000, log);
    let _absent = bench.remove(rt, &post(), tallies, log);
    Known {
        at_first,
        after_its_advance,
        at_the_other_shard,
        after_its_call: bench.skip_if_idle(3, 5_000, log),
    }
}

// Returns what is known of the shards of a new server.
fn know<B: Books, R: Wait>(
    rt: &R,
    alloc: Global,
    blanks: Blanks,
    book: NewServerBook,
) -> Result<Known, Fail>
    requires parts { blanks.parts ≡ 2 }
    requires names { AreNamed blanks B.names }
    requires books { blanks.parts ≡ B.parts }
    requires table { book.table ≡ B.table }
    requires book_threads { book.first_job ≡ 11 }
    requires threads { book.first_job ≡ B.first_job }
    requires server { book.first ≡ B.first }
    requires persistent { B.persistent ≡ false }
    requires stored { (λ n. blank_slot) ≡ B.stored }
{
    let device = Bare::new();
    let (server, mut unassigned, mut logs, _keys) = Locked::<B, Bare, NoStore>::new(
        alloc,
        &device,
        no_store(),
        blanks,
        book,
    )?;
    let Some(mut log) = logs.pop() else {
        unreachable!();
    };
    let mut tallies = unassigned.split();
    Ok(ask_what_is_known(rt, &server, &mut tallies, &mut log))
}

// A shard without observers is known to be idle after its advance, until it is called again.
#[test]
fn an_idle_shard_is_known_until_it_is_called(rt: HostRuntime) -> Result<(), Fail> {
    let blanks = Blanks::new(2);
    let begin = Begin {
        serial: 7,
        id: 0,
        policy: DEFAULT_POLICY,
    };
    let first = FirstServer::new(rt.alloc(), &begin)?;
    let book = NewServerBook::new(rt.alloc(), 1, first)?;
    let expected = Known {
        at_first: false,
        after_its_advance: true,
        at_the_other_shard: false,
        after_its_call: false,
    };
    assert!(rt; know::<Brand, HostRuntime>(&rt, rt.alloc(), blanks, book)? == expected);
    Ok(())
}
