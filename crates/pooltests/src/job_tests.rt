//! The channel of jobs.
//!
//! Jobs are received in the order in which they were sent, each with its number. After the sender
//! is gone and all its jobs were received, `next` returns `None`. A send to a full channel waits.
ghost use Rattle.std.specs.Prelude.{◌≡◌};

use coap_msg::{Endpoint, Token};
use fc_help::{Method, Request};
use fc_jobs::{Got, Jobs, Sent};
use fc_ticket::{Ask, Job, Opening, Origin, SlotNumber};
use std::sync::Wait;
use std::sync::atomic::{AtomicUsize, Ordering};
use std::test::Fail;
use std::thread;
use std::time::{Clock, Duration};

// Makes a job of slot 0 whose exchange has this number.
pub(crate) fn job(opened: u64) -> Job {
    let opening = Opening {
        number: opened,
        at: 0,
    };
    Job {
        origin: Origin {
            opening,
            endpoint: Endpoint::default(),
            id: 0,
            slot: SlotNumber::default(),
        },
        turn: None,
        confirmable: true,
        token: Token::default(),
        etags: Default::default(),
        block: None,
        observe: None,
        ask: Ask::Run(Request::new(Method::Get, 0, None, &[], &[])),
    }
}

// Two workers receive the three jobs that were sent, in order and with the numbers 0 to 2. After
// these they receive `None`, since the sender is gone.
#[test]
fn jobs_come_in_order(rt: HostRuntime) -> Result<(), Fail> {
    let (jobs, mut sent, mut gots) = Jobs::<Job>::new(rt.alloc(), 2)?;
    let (Some(mut one), Some(mut other)) = (gots.pop(), gots.pop()) else {
        panic!(rt; "two workers")
    };
    assert!(rt; gots.is_empty());
    assert!(rt; jobs.send(&rt, job(7), &mut sent).is_none());
    assert!(rt; jobs.send(&rt, job(8), &mut sent).is_none());
    assert!(rt; jobs.send(&rt, job(9), &mut sent).is_none());
    drop(sent);
    assert!(rt; !jobs.is_served());
    assert!(rt; of(jobs.next(&rt, &mut one)) == Some((0, 7)));
    assert!(rt; jobs.is_served());
    assert!(rt; of(jobs.next(&rt, &mut other)) == Some((1, 8)));
    assert!(rt; of(jobs.next(&rt, &mut one)) == Some((2, 9)));
    assert!(rt; jobs.next(&rt, &mut one).is_none());
    assert!(rt; jobs.next(&rt, &mut other).is_none());
    Ok(())
}

// Returns the number of a received job, and the number of the job's exchange.
fn of(got: Option<(u64, Job)>) -> Option<(u64, u64)> {
    let (number, job) = got?;
    Some((number, job.origin.opening.number))
}

// A caller that waits for a worker continues as soon as one calls `next`, here on a closed channel.
#[test]
fn a_worker_is_awaited(rt: HostRuntime) -> Result<(), Fail> {
    let (jobs, sent, mut gots) = Jobs::<Job>::new(rt.alloc(), 1)?;
    let Some(mut got) = gots.pop() else {
        panic!(rt; "a worker")
    };
    drop(sent);
    let jobs = &jobs;
    let (is_here, is_none) = thread::join(
        &rt,
        || -> bool { jobs.await_worker(&rt) },
        || -> bool
            requires { got.channel ≡ jobs.now }
        { jobs.next(&rt, &mut got).is_none() },
    );
    assert!(rt; is_here && is_none);
    jobs.dismiss(&rt);
    assert!(rt; jobs.await_worker(&rt));
    Ok(())
}

// After `dismiss`, if no worker has come, `await_worker` returns `false` without waiting.
#[test]
fn nobody_waits_for_workers_that_do_not_come(rt: HostRuntime) -> Result<(), Fail> {
    let (jobs, _sent, _gots) = Jobs::<Job>::new(rt.alloc(), 1)?;
    jobs.dismiss(&rt);
    assert!(rt; !jobs.await_worker(&rt) && !jobs.is_served());
    Ok(())
}

// The capacity of the channel.
const PLACES: usize = 256;

// The number of jobs that are sent.
const JOBS: u64 = 300;

// The number of sends that have begun, and the number of those that have ended.
#[derive(Drop)]
struct Progress {
    begun: AtomicUsize,
    done: AtomicUsize,
}

// Sends 300 jobs, whose exchanges have the numbers from 0 on. Returns whether the channel accepted
// all of them.
fn send_all<R: Wait>(rt: &R, jobs: &Jobs<Job>, mut sent: Sent<Job>, progress: &Progress) -> bool
    requires { sent.channel ≡ jobs.now }
{
    let mut are_taken = true;
    for number in 0..JOBS {
        progress.begun.fetch_add(1, Ordering::SeqCst);
        if jobs.send(rt, job(number), &mut sent).is_some() {
            are_taken = false;
        }
        progress.done.fetch_add(1, Ordering::SeqCst);
    }
    are_taken
}

// Waits until one more send has begun than the channel has places, at most 10,000 times 1 ms. Then
// returns the number of sends that have ended.
fn done_when_full<C: Clock>(clock: &C, progress: &Progress) -> usize {
    for _turn in 0..10_000u32 {
        if progress.begun.load(Ordering::SeqCst) > PLACES {
            break;
        }
        thread::sleep(clock, Duration::from_millis(1));
    }
    thread::sleep(clock, Duration::from_millis(20));
    progress.done.load(Ordering::SeqCst)
}

// Receives 300 jobs and once more. Returns whether these are the jobs that were sent, in order,
// each once, and then `None`.
fn takes_all<R: Wait>(rt: &R, jobs: &Jobs<Job>, mut got: Got<Job>) -> bool
    requires { got.channel ≡ jobs.now }
{
    let mut are_next = true;
    for number in 0..JOBS {
        if of(jobs.next(rt, &mut got)) != Some((number, number)) {
            are_next = false;
        }
    }
    are_next && jobs.next(rt, &mut got).is_none()
}

// The 257th send to a channel of 256 places waits until a job is received.
#[test]
fn a_full_channel_waits(rt: HostRuntime) -> Result<(), Fail> {
    let (jobs, sent, mut gots) = Jobs::<Job>::new(rt.alloc(), 1)?;
    let Some(got) = gots.pop() else {
        panic!(rt; "a worker")
    };
    let progress = Progress {
        begun: AtomicUsize::new(0),
        done: AtomicUsize::new(0),
    };
    let (jobs, progress) = (&jobs, &progress);
    let (are_taken, (done, are_next)) = thread::join(
        &rt,
        || -> bool
            requires { sent.channel ≡ jobs.now }
        { send_all(&rt, jobs, sent, progress) },
        || -> (usize, bool)
            requires { got.channel ≡ jobs.now }
        {
            let done = done_when_full(&rt, progress);
            (done, takes_all(&rt, jobs, got))
        },
    );
    assert!(rt; are_taken && are_next);
    assert!(rt; done == PLACES);
    Ok(())
}
