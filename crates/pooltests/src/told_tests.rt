//! Effects of calls on a server with locks.
//!
//! The calls advance the time, pass a signal, release a lease, and pass a random word. The
//! contracts don't say in which state of the front or of a shard such a call is made. They don't
//! state the effect of the random word either.
ghost use Rattle.std.specs.Prelude.{◌≡◌};
ghost use Rattle.fc_backend.specs.Messages.{first_brought};
ghost use Rattle.fc_backend.specs.Logs.{IsNewLog};

use crate::driver::{PEER, Request, datagram};
use crate::lock_tests::Open;
use crate::overtaking_tests::{Crew, Held, Replies, Trial, hold};
use fc_backend::{Bench, CallLog, JobKeys, JobMessage, ShareOf, TimeSource, TrackLog};
use fc_filed::ServerName;
use fc_fixtures::images::COUNTER;
use fc_front::Handled;
use fc_front::front::{blank_emission, blank_job};
use fc_jobs::{Jobs, Sent};
use fc_observe::{Ticked, Turn};
use fc_ticket::SlotNumber;
use fc_workers::{Context, Dispatcher, Offload, SeedOf, WorkerSeed, make_seats};
use std::alloc::{AllocError, Global};
use std::sync::Wait;
use std::sync::atomic::{AtomicU64, Ordering};
use std::test::Fail;
use std::thread::Threads;
use std::time::Clock;

// A GET of slot 0 with token 0x6f, which registers an observer (RFC 7641, section 2).
const REGISTRATION: &[u8] = &[0x41, 1, 0, 9, 0x6f, 0x60, 0x51, b'r', 0x01, b'0'];

// A call whose effect a test checks. Before it, slot 0 of the server has the counter, an observer
// and a new state.
#[derive(Clone, Copy)]
pub(crate) enum Told {
    // A time at which the exchanges have expired, so that a duplicate is a new request.
    Time,
    // An Acknowledgement of a notification, after which the observer is notified again, and a Reset
    // message, after which it isn't (RFC 7641, section 3.6).
    Signals,
    // The release of a lease, after which the observer gets another lease at a later time.
    Turn,
    // A random word, which determines the timeout of a confirmable notification (RFC 7252, section
    // 4.2).
    Word,
}

// 24 hours, after which a notification is confirmable (RFC 7641, section 4.5).
const DAY: u64 = 86_400_000;

// A random word that adds 500 ms to the timeout of 2,000 ms.
const WORD: u16 = 500;

// A source of the time that a test sets, and of `WORD` as each random word.
#[derive(Drop)]
struct Watch {
    now: AtomicU64,
}

impl Watch {
    fn new() -> Watch {
        Watch {
            now: AtomicU64::new(0),
        }
    }
}

impl TimeSource for Watch {
    fn now<R: Wait>(&self, rt: &R, log: &mut CallLog) -> u64 {
        let _ = rt;
        let _ = log;
        self.now.load(Ordering::SeqCst)
    }

    fn random<R: Wait>(&self, rt: &R) -> u16 {
        let _ = rt;
        WORD
    }
}

impl Told {
    // Makes this call on a new server. Returns an error if the call doesn't have the expected
    // effect.
    pub(crate) fn hold<B: Bench, R: Wait>(
        &self,
        rt: &R,
        alloc: Global,
        bench: &B,
        crew: Crew<B::Tallies, B::Book>,
    ) -> anyhow::Result<Held<B::Tallies>> {
        let Crew {
            tallies,
            logs,
            keys,
        } = crew;
        let (jobs, sent, mut seats) = make_seats(alloc, tallies, logs)?;
        match (seats.pop(), seats.pop()) {
            (Some(seat), Some(other)) => self.hold_at(
                rt, alloc, bench, &jobs, sent, seat, keys, other,
            ),
            _ => Err(anyhow::anyhow!("no seats")),
        }
    }

    // Makes this call on a new server, with a dispatcher at `seat`, and with the tallies and the
    // log of `other` for the test's own calls. Returns an error if the call doesn't have the
    // expected effect.
    fn hold_at<B: Bench, R: Wait>(
        &self,
        rt: &R,
        alloc: Global,
        bench: &B,
        jobs: &Jobs<JobMessage<B::Book>>,
        sent: Sent<JobMessage<B::Book>>,
        seat: SeedOf<B::Tallies, B::Book>,
        keys: JobKeys<B::Book>,
        other: SeedOf<B::Tallies, B::Book>,
    ) -> anyhow::Result<Held<B::Tallies>>
        requires sent { sent.channel ≡ jobs.now }
        requires new_log { IsNewLog seat.log }
        requires keys { keys ≡ first_brought B.Book.first_job }
    {
        let replies = Replies::new();
        let watch = Watch::new();
        let context = Context {
            rt,
            alloc,
            bench,
            gate: &Open,
            wire: &replies,
            times: &watch,
        };
        let mut dispatcher = Dispatcher::new(&context, jobs, sent, seat, keys, Offload::Never);
        let shown = self.show(rt, alloc, bench, other, &watch, &mut dispatcher);
        let share = dispatcher.close();
        match shown {
            Ok(true) => seen_alone(alloc, replies, share),
            Ok(false) => Err(anyhow::anyhow!("the server wasn't told")),
            Err(error) => Err(error.into()),
        }
    }

    // Observes the counter, and makes this call with the tallies and the log of `other`. Returns
    // whether the call has the expected effect, or an error if memory can't be allocated.
    fn show<B: Bench, R: Wait>(
        &self,
        rt: &R,
        alloc: Global,
        bench: &B,
        other: SeedOf<B::Tallies, B::Book>,
        watch: &Watch,
        dispatcher: &mut Teller<'_, B, R>,
    ) -> Result<bool, AllocError> {
        observe_counter(alloc, dispatcher)?;
        let WorkerSeed {
            mut tallies,
            mut log,
            ..
        } = other;
        match self {
            Told::Time => shows_time(alloc, dispatcher),
            Told::Signals => shows_signals(rt, alloc, bench, &mut log, dispatcher),
            Told::Turn => Ok(shows_turn(rt, bench, &mut tallies, &mut log)),
            Told::Word => Ok(shows_word(watch, dispatcher)),
        }
    }
}

// Returns the results of a trial in which the dispatcher ran all jobs.
fn seen_alone<T: Drop, J: ServerName>(
    alloc: Global,
    replies: Replies,
    share: ShareOf<T, J>,
) -> anyhow::Result<Held<T>> {
    let mut shares = Vec::new(alloc);
    shares.push(share)?;
    replies.seen(alloc, shares)
}

// A dispatcher that runs each job itself.
type Teller<'a, B, R> = Dispatcher<'a, B, Open, Replies, Watch, R>;

// Installs the counter in slot 0, registers an observer of that slot, and changes the slot's state.
fn observe_counter<B: Bench, R: Wait>(
    alloc: Global,
    teller: &mut Teller<'_, B, R>,
) -> Result<(), AllocError> {
    ask(alloc, teller, 0, Request::Put(COUNTER), 0)?;
    handle(teller, 0, REGISTRATION);
    ask(alloc, teller, 0, Request::Post, 1)?;
    Ok(())
}

// Returns whether a duplicate of the PUT is a new request 300,000 ms later: its exchange has
// expired (RFC 7252, section 4.8.2).
fn shows_time<B: Bench, R: Wait>(
    alloc: Global,
    teller: &mut Teller<'_, B, R>,
) -> Result<bool, AllocError> {
    teller.tick(300_000);
    let handled = ask(alloc, teller, 0, Request::Put(COUNTER), 0)?;
    Ok(handled == Handled::Job)
}

// Returns whether the observer is notified after an Acknowledgement of the first notification, and
// isn't notified after a Reset message to the second one.
fn shows_signals<B: Bench, R: Wait>(
    rt: &R,
    alloc: Global,
    bench: &B,
    log: &mut TrackLog<B::Book>,
    teller: &mut Teller<'_, B, R>,
) -> Result<bool, AllocError> {
    let is_first = teller.notify(0, 10);
    bench.signal(rt, 0, PEER, 0, false, log);
    ask(alloc, teller, 20, Request::Post, 2)?;
    let is_second = teller.notify(0, 30);
    bench.signal(rt, 0, PEER, 1, true, log);
    ask(alloc, teller, 40, Request::Post, 3)?;
    Ok(is_first && is_second && !teller.notify(0, 50))
}

// Returns whether the observer gets another lease 1 ms after the first one was released, and none
// at the time of the release.
fn shows_turn<B: Bench, R: Wait>(
    rt: &R,
    bench: &B,
    own: &mut B::Tallies,
    log: &mut TrackLog<B::Book>,
) -> bool {
    let mut job = blank_job();
    if !bench.next_due(rt, 0, 10, &mut job, log) {
        return false;
    }
    let Some(number) = job.turn else {
        return false;
    };
    bench.give_up(rt, Turn { slot: 0, number }, 20, own, log);
    let is_early = bench.next_due(rt, 0, 20, &mut job, log);
    !is_early && bench.next_due(rt, 0, 21, &mut job, log)
}

// Returns whether a confirmable notification times out exactly 2,500 ms after it was sent.
fn shows_word<B: Bench, R: Wait>(watch: &Watch, teller: &mut Teller<'_, B, R>) -> bool {
    watch.now.store(DAY, Ordering::SeqCst);
    let is_notified = teller.notify(0, DAY);
    let is_early = !matches!(teller.resend(0, DAY + 2_499), Ticked::Quiet);
    let is_overdue = matches!(teller.resend(0, DAY + 2_500), Ticked::Resend(_));
    is_notified && !is_early && is_overdue
}

// Delivers a request for slot 0 at `now`, in milliseconds. Returns how the datagram was handled.
fn ask<B: Bench, R: Wait>(
    alloc: Global,
    teller: &mut Teller<'_, B, R>,
    now: u64,
    request: Request<'_>,
    id: u16,
) -> Result<Handled, AllocError> {
    let bytes = datagram(alloc, request, id, SlotNumber::new(0))?;
    Ok(handle(teller, now, &bytes))
}

// Delivers a datagram at `now`, in milliseconds. Returns how the datagram was handled.
fn handle<B: Bench, R: Wait>(teller: &mut Teller<'_, B, R>, now: u64, bytes: &[u8]) -> Handled {
    let mut reply = blank_emission();
    teller.handle(now, PEER, bytes, &mut reply)
}

// Returns whether this call has the expected effect on a server with locks.
fn is_told<R: Threads + Wait + Clock + Sync>(rt: &R, alloc: Global, told: Told) -> bool {
    hold(rt, alloc, 1, &Trial::Told(told)).is_ok()
}

// With locks, the front advances to the time of a tick, and expires exchanges.
#[test]
fn a_locked_front_is_told_the_time(rt: HostRuntime) -> Result<(), Fail> {
    assert!(rt; is_told(&rt, rt.alloc(), Told::Time));
    Ok(())
}

// With locks, a shard distinguishes an Acknowledgement, after which its observer is notified again,
// from a Reset message, after which it isn't.
#[test]
fn a_locked_shard_is_told_which_signal_came(rt: HostRuntime) -> Result<(), Fail> {
    assert!(rt; is_told(&rt, rt.alloc(), Told::Signals));
    Ok(())
}

// With locks, a shard determines the timeout of a confirmable notification by the random word.
#[test]
fn a_locked_shard_is_told_the_random_word(rt: HostRuntime) -> Result<(), Fail> {
    assert!(rt; is_told(&rt, rt.alloc(), Told::Word));
    Ok(())
}

// With locks, a shard grants an observer another lease after the first one was released.
#[test]
fn a_locked_shard_is_told_that_a_turn_is_given_up(rt: HostRuntime) -> Result<(), Fail> {
    assert!(rt; is_told(&rt, rt.alloc(), Told::Turn));
    Ok(())
}
