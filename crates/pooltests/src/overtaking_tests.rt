//! Conflicts of jobs at their commits.
//!
//! The tests check the order of the responses, and the workers' counts of changes and conflicts.
ghost use Rattle.std.specs.Prelude.{◌≡◌, ◌+◌, ◌<◌, false, vec_len};
ghost use Rattle.std.specs.List.{All};
ghost use Rattle.fc_store.specs.Stored.{blank_slot};
ghost use Rattle.fc_backend.specs.Messages.{first_brought};
ghost use Rattle.fc_locked.specs.Naming.{AreNamed};
ghost use Rattle.fc_backend.specs.Logs.{IsNewLog};

use crate::driver::{Deliver, Driver, Request};
use crate::job_tests::job;
use crate::lock_tests::{Locks, ShardHeld};
use crate::told_tests::Told;
use arrayvec::ArrayVec;
use coap_msg::Emission;
use fc_backend::{
    Bench, CallLog, Device, Gate, JobKeys, JobMessage, ShareOf, TimeSource, TrackLog, Wire,
};
use fc_filed::{NewServerBook, ServerName};
use fc_fixtures::images::COUNTER;
use fc_front::DEFAULT_POLICY;
use fc_help::{NO_READINGS, Readings};
use fc_jobs::{Jobs, Sent};
use fc_locked::{Blanks, Books, Locked};
use fc_pool::no_store;
use fc_server::{DEFAULT_BEGIN, FirstServer};
use fc_store::NoStore;
use fc_ticket::{Job, SlotNumber};
use fc_verify::{Verified, verify};
use fc_workers::{Context, Dispatcher, Offload, SeedOf, drive_workers, make_seats};
use std::alloc::{AllocError, Global};
use std::marker::Brand;
use std::sync::atomic::{AtomicUsize, Ordering};
use std::sync::{Arc, Mutex, Wait};
use std::test::Fail;
use std::thread;
use std::thread::Threads;
use std::time::{Clock, Duration};

// 2.01 (Created), the code of a response (RFC 7252, section 12.1.2).
pub(crate) const CREATED: u8 = 0x41;

// 2.04 (Changed), the code of a response (RFC 7252, section 12.1.2).
const CHANGED: u8 = 0x44;

// 5.03 (Service Unavailable), the code of a response (RFC 7252, section 12.1.2).
const UNAVAILABLE: u8 = 0xa3;

// The results of a trial with a server.
#[derive(Drop)]
pub(crate) struct Held<T: Drop> {
    // The responses, in the order in which they were sent.
    pub(crate) replies: ArrayVec<Reply, 128>,
    // The number of conflicts at commits.
    pub(crate) overtakings: u64,
    pub(crate) tallies: Vec<T>,
    // The number of times that the device was read.
    pub(crate) readings: usize,
}

// The number of times that a thread checks, once a millisecond, for another thread's progress.
const TURNS: u32 = 10_000;

// A response that was sent: the number of its job, and its code.
#[derive(Clone, Copy, Debug, Default, PartialEq, Eq)]
pub(crate) struct Reply {
    pub(crate) job: u64,
    pub(crate) code: u8,
}

// The responses in the order in which they were sent, and whether a thread waited for one in vain.
#[derive(Drop)]
pub(crate) struct Replies {
    all: Mutex<ArrayVec<Reply, 128>>,
    missed: Mutex<bool>,
}

impl Replies {
    pub(crate) fn new() -> Replies {
        Replies {
            all: Mutex::new(ArrayVec::new()),
            missed: Mutex::new(false),
        }
    }

    // Returns whether the response of this job was sent.
    fn has<R: Wait>(&self, rt: &R, job: u64) -> bool {
        let all = self.all.lock(rt);
        all.iter().any(|it| it.job == job)
    }

    // Waits until the response of this job was sent. If 10,000 checks find none, the response is
    // recorded as missed.
    pub(crate) fn wait_for<R: Wait, C: Clock>(&self, rt: &R, clock: &C, job: u64) {
        for _turn in 0..TURNS {
            if self.has(rt, job) {
                return;
            }
            thread::sleep(clock, Duration::from_millis(1));
        }
        *self.missed.lock(rt) = true;
    }

    // Returns the responses, the number of conflicts, and the workers' tallies. Returns an error if
    // a response was missed.
    pub(crate) fn seen<T: Drop, J: ServerName>(
        self,
        alloc: Global,
        shares: Vec<ShareOf<T, J>>,
    ) -> anyhow::Result<Held<T>> {
        if self.missed.into_inner() {
            return Err(anyhow::anyhow!("a reply was missed"));
        }
        let mut overtakings = 0u64;
        let mut tallies = Vec::new(alloc);
        for share in shares {
            overtakings = overtakings.saturating_add(share.overtakings);
            tallies.push(share.tallies)?;
        }
        Ok(Held {
            replies: self.all.into_inner(),
            overtakings,
            tallies,
            readings: 0,
        })
    }
}

impl Wire for Replies {
    fn send<R: Wait>(&self, rt: &R, number: u64, emission: &Emission, log: &mut CallLog) -> bool {
        let _ = log;
        let Some(&code) = emission.bytes.as_slice().get(1) else {
            return false;
        };
        let mut all = self.all.lock(rt);
        all.try_push(Reply { job: number, code }).is_ok()
    }

    fn ended<R: Wait>(&self, rt: &R, number: u64, log: &mut CallLog) {
        let _ = log;
        let _ = rt;
        let _ = number;
    }
}

impl TimeSource for Replies {
    fn now<R: Wait>(&self, rt: &R, log: &mut CallLog) -> u64 {
        let _ = rt;
        let _ = log;
        0
    }

    fn random<R: Wait>(&self, rt: &R) -> u16 {
        let _ = rt;
        0
    }
}

// A test hook that delays job 1 until job 2's response was sent.
#[derive(Drop)]
struct Holding<'c, 'r, C: Clock> {
    clock: &'c C,
    replies: &'r Replies,
}

impl<'c, 'r, C: Clock> Gate for Holding<'c, 'r, C> {
    fn between<R: Wait>(&self, rt: &R, number: u64, log: &mut CallLog) {
        let _ = log;
        if number == 1 {
            self.replies.wait_for(rt, self.clock, 2);
        }
    }

    fn after_answer(&self, job: &Job, has_reply: bool, reply: &Emission, log: &mut CallLog) {
        let _ = job;
        let _ = has_reply;
        let _ = reply;
        let _ = log;
    }
}

// The requests of a trial. `drive` delivers them, and sends the jobs to the workers.
pub(crate) trait Drive {
    fn drive<D: Deliver + Drop, R: Wait + Clock>(
        &self,
        rt: &R,
        driver: D,
        replies: &Replies,
    ) -> Result<(), AllocError>;
}

// The tallies and logs of workers and of a test's own dispatcher, and the keys of the dispatcher's
// jobs. Nothing is filed in a log yet.
#[derive(Drop)]
pub(crate) struct Crew<T: Drop, J: ServerName> {
    pub(crate) tallies: Vec<T>,
    pub(crate) logs: Vec<TrackLog<J>>,
    pub(crate) keys: JobKeys<J>,
    ghost equal: { vec_len logs ≡ vec_len tallies },
    ghost new_logs: { All IsNewLog logs.items },
    ghost first: { keys ≡ first_brought J.first_job },
}

// Runs workers with this test hook, while `drive` delivers requests. Returns the workers'
// statistics, or an error if memory can't be allocated.
pub(crate) fn work_fed<B: Bench + Sync, G: Gate + Sync, F: Drive, R: Threads + Wait + Clock + Sync>(
    rt: &R,
    alloc: Global,
    bench: &B,
    crew: Crew<B::Tallies, B::Book>,
    gate: &G,
    replies: &Replies,
    drive: &F,
) -> anyhow::Result<Vec<ShareOf<B::Tallies, B::Book>>>
where
    B::Tallies: Send,
    B::Book: Send,
{
    let Crew {
        tallies,
        logs,
        keys,
    } = crew;
    let (jobs, sent, mut seats) = make_seats(alloc, tallies, logs)?;
    let context = Context {
        rt,
        alloc,
        bench,
        gate,
        wire: replies,
        times: replies,
    };
    match seats.pop() {
        Some(own) => both(work_seated(&context, &jobs, sent, own, keys, seats, drive)),
        None => Err(anyhow::anyhow!("no seat")),
    }
}

// Runs a worker at each of `seats`, while `drive` delivers requests to a dispatcher with the state
// `own`. Returns the result of `drive`, and the workers' statistics.
fn work_seated<'a, B: Bench + Sync, G: Gate + Sync, F: Drive, R: Threads + Wait + Clock + Sync>(
    context: &'a Context<'a, B, G, Replies, Replies, R>,
    jobs: &'a Jobs<JobMessage<B::Book>>,
    sent: Sent<JobMessage<B::Book>>,
    own: SeedOf<B::Tallies, B::Book>,
    keys: JobKeys<B::Book>,
    seats: Vec<SeedOf<B::Tallies, B::Book>>,
    drive: &F,
) -> (
    Result<(), AllocError>,
    Result<Vec<ShareOf<B::Tallies, B::Book>>, AllocError>,
)
where
    B::Tallies: Send,
    B::Book: Send,
    requires sent { sent.channel ≡ jobs.now }
    requires new_log { IsNewLog own.log }
    requires keys { keys ≡ first_brought B.Book.first_job }
    requires seats { All (λ s. s.got.channel ≡ jobs.now) seats.items }
{
    let driver = Driver {
        alloc: context.alloc,
        dispatcher: Dispatcher::new(context, jobs, sent, own, keys, Offload::Every),
    };
    drive_workers(
        context,
        jobs,
        seats,
        move |_has_workers| -> Result<(), AllocError> {
            drive.drive(context.rt, driver, context.wire)
        },
    )
}

// Returns the second result, or the error of either.
fn both<T: Drop>(
    results: (Result<(), AllocError>, Result<Vec<T>, AllocError>),
) -> anyhow::Result<Vec<T>> {
    let (first, second) = results;
    first?;
    Ok(second?)
}

// A trial: an install, and then two POSTs for two workers. The first POST is delayed until the
// response of the second was sent.
#[derive(Drop)]
pub(crate) struct TwoAtOnce;

impl TwoAtOnce {
    // Runs this trial with the workers. Returns the responses, conflicts and tallies, or an error
    // if memory can't be allocated or a response wasn't seen in time.
    fn hold<B: Bench + Sync, R: Threads + Wait + Clock + Sync>(
        &self,
        rt: &R,
        alloc: Global,
        bench: &B,
        crew: Crew<B::Tallies, B::Book>,
    ) -> anyhow::Result<Held<B::Tallies>>
    where
        B::Tallies: Send,
        B::Book: Send,
    {
        let replies = Replies::new();
        let gate = Holding {
            clock: rt,
            replies: &replies,
        };
        let shares = work_fed(rt, alloc, bench, crew, &gate, &replies, self)?;
        replies.seen(alloc, shares)
    }
}

impl Drive for TwoAtOnce {
    fn drive<D: Deliver + Drop, R: Wait + Clock>(
        &self,
        rt: &R,
        mut driver: D,
        replies: &Replies,
    ) -> Result<(), AllocError> {
        let slot = SlotNumber::new(0);
        driver.ask(0, Request::Put(COUNTER), 0, slot)?;
        replies.wait_for(rt, rt, 0);
        driver.ask(0, Request::Post, 1, slot)?;
        driver.ask(0, Request::Post, 2, slot)?;
        Ok(())
    }
}

// The job that a worker runs, the number of hook calls for that job, and the hook's tallies and
// log.
#[derive(Drop)]
struct Turn<T: Drop, L: Drop> {
    tallies: T,
    log: L,
    job: u64,
    runs: u64,
}

// A test hook that installs the counter in slot 0 before a commit, with tallies of its own. It does
// so for the first `held` runs of each job whose number is a multiple of `every`.
#[derive(Drop)]
struct Changing<'a, B: Bench> {
    bench: &'a B,
    counter: Arc<Verified>,
    every: u64,
    held: u64,
    turn: Mutex<Turn<B::Tallies, TrackLog<B::Book>>>,
    ghost some: { 0 < every },
}

impl<'a, B: Bench> Gate for Changing<'a, B> {
    fn between<R: Wait>(&self, rt: &R, number: u64, log: &mut CallLog) {
        let _ = log;
        let mut turn = self.turn.lock(rt);
        if turn.job != number {
            turn.job = number;
            turn.runs = 0;
        }
        turn.runs = turn.runs.saturating_add(1);
        if number % self.every != 0 || turn.runs > self.held {
            return;
        }
        if let Ok(counter) = Arc::try_clone(&self.counter) {
            let Turn { tallies, log, .. } = &mut *turn;
            let _made = self.bench.install(rt, &job(0), counter, tallies, log);
        }
    }

    fn after_answer(&self, job: &Job, has_reply: bool, reply: &Emission, log: &mut CallLog) {
        let _ = job;
        let _ = has_reply;
        let _ = reply;
        let _ = log;
    }
}

// A trial: POSTs for one worker, to a slot that has the counter. Of each job whose number is a
// multiple of `every`, the first `runs` runs have a conflict.
#[derive(Drop)]
pub(crate) struct Overtaken {
    posts: u16,
    every: u64,
    runs: u64,
    ghost some: { 0 < every },
}

impl Overtaken {
    // Runs this trial with the workers. Returns the responses, conflicts and tallies, or an error
    // if memory can't be allocated or a response wasn't seen in time.
    fn hold<B: Bench + Sync, R: Threads + Wait + Clock + Sync>(
        &self,
        rt: &R,
        alloc: Global,
        bench: &B,
        crew: Crew<B::Tallies, B::Book>,
    ) -> anyhow::Result<Held<B::Tallies>>
    where
        B::Tallies: Send,
        B::Book: Send,
    {
        let Crew {
            mut tallies,
            mut logs,
            keys,
        } = crew;
        let (Some(mut others), Some(mut log)) = (tallies.pop(), logs.pop()) else {
            return Err(anyhow::anyhow!("no tallies"));
        };
        let counter = Arc::new(alloc, verify(alloc, COUNTER)?)?;
        let installed = Arc::try_clone(&counter)?;
        let _made = bench.install(rt, &job(0), installed, &mut others, &mut log);
        let gate = Changing {
            bench,
            counter,
            every: self.every,
            held: self.runs,
            turn: Mutex::new(Turn {
                tallies: others,
                log,
                job: u64::MAX,
                runs: 0,
            }),
        };
        let replies = Replies::new();
        let crew = Crew {
            tallies,
            logs,
            keys,
        };
        let shares = work_fed(rt, alloc, bench, crew, &gate, &replies, self)?;
        let mut held = replies.seen(alloc, shares)?;
        let Changing { turn, .. } = gate;
        held.tallies.push(turn.into_inner().tallies)?;
        Ok(held)
    }
}

impl Drive for Overtaken {
    fn drive<D: Deliver + Drop, R: Wait + Clock>(
        &self,
        rt: &R,
        mut driver: D,
        replies: &Replies,
    ) -> Result<(), AllocError> {
        let _ = replies;
        for id in 0..self.posts {
            driver.ask(0, Request::Post, id, SlotNumber::new(0))?;
        }
        Ok(())
    }
}

// The trials with a new server.
#[derive(Drop)]
pub(crate) enum Trial {
    TwoAtOnce(TwoAtOnce),
    Overtaken(Overtaken),
    ShardHeld(ShardHeld),
    Told(Told),
}

impl Trial {
    // Runs this trial with the workers. Returns the responses, conflicts and tallies, or an error
    // if memory can't be allocated or a response wasn't seen in time.
    fn hold<B: Locks + Sync, R: Threads + Wait + Clock + Sync>(
        &self,
        rt: &R,
        alloc: Global,
        bench: &B,
        crew: Crew<B::Tallies, B::Book>,
    ) -> anyhow::Result<Held<B::Tallies>>
    where
        B::Tallies: Send,
        B::Book: Send,
    {
        match self {
            Trial::TwoAtOnce(two) => two.hold(rt, alloc, bench, crew),
            Trial::Overtaken(overtaken) => overtaken.hold(rt, alloc, bench, crew),
            Trial::ShardHeld(held) => held.hold(rt, alloc, bench, crew),
            Trial::Told(told) => told.hold(rt, alloc, bench, crew),
        }
    }
}

// A device without sensors. It counts how often it is read.
#[derive(Drop)]
pub(crate) struct Bare {
    reads: AtomicUsize,
}

impl Bare {
    pub(crate) fn new() -> Bare {
        Bare {
            reads: AtomicUsize::new(0),
        }
    }

    // Returns how often it was read.
    pub(crate) fn count(&self) -> usize {
        self.reads.load(Ordering::SeqCst)
    }
}

impl Device for Bare {
    fn readings<R: Wait>(&self, rt: &R, log: &mut CallLog) -> Readings {
        let _ = rt;
        let _ = log;
        let _before = self.reads.fetch_add(1, Ordering::SeqCst);
        NO_READINGS
    }
}

// Runs a trial with a new server of empty slots and this many tallies. Returns the results, with
// the number of changes of shard 0 that each tally counted.
pub(crate) fn hold<R: Threads + Wait + Clock + Sync>(
    rt: &R,
    alloc: Global,
    tallies: u8,
    trial: &Trial,
) -> anyhow::Result<Held<u64>> {
    let blanks = Blanks::new(u64::from(tallies) + 2);
    let first = FirstServer::new(alloc, &DEFAULT_BEGIN)?;
    let book = NewServerBook::new(alloc, u16::from(tallies) + 1, first)?;
    hold_named::<Brand, R>(rt, alloc, tallies, trial, blanks, book)
}

// Runs a trial as `hold` does, with a server that has these ledgers and this book of calls.
fn hold_named<B: Books + Send + Sync, R: Threads + Wait + Clock + Sync>(
    rt: &R,
    alloc: Global,
    tallies: u8,
    trial: &Trial,
    blanks: Blanks,
    book: NewServerBook,
) -> anyhow::Result<Held<u64>>
    requires parts { blanks.parts ≡ tallies + 2 }
    requires names { AreNamed blanks B.names }
    requires books { blanks.parts ≡ B.parts }
    requires table { book.table ≡ B.table }
    requires book_threads { book.first_job ≡ 10 + tallies + 1 }
    requires threads { book.first_job ≡ B.first_job }
    requires server { book.first ≡ B.first }
    requires persistent { B.persistent ≡ false }
    requires stored { (λ n. blank_slot) ≡ B.stored }
{
    let device = Bare::new();
    let (server, mut unassigned, logs, keys) = Locked::<B, Bare, NoStore>::new(
        alloc,
        &device,
        no_store(),
        blanks,
        book,
    )?;
    let tallies = unassigned.split_each(alloc, usize::from(tallies) + 1)?;
    let crew = Crew {
        tallies,
        logs,
        keys,
    };
    let held = trial.hold(rt, alloc, &server, crew)?;
    let mut changes = Vec::new(alloc);
    for tally in &held.tallies {
        changes.push(tally.shown(0))?;
    }
    Ok(Held {
        replies: held.replies,
        overtakings: held.overtakings,
        tallies: changes,
        readings: device.count(),
    })
}

// If two workers run POSTs to one slot, the one that commits last has a conflict, and runs the job
// again. Both POSTs change the slot.
#[test]
fn two_workers_run_at_once(rt: HostRuntime) -> Result<(), Fail> {
    let held = hold(&rt, rt.alloc(), 2, &Trial::TwoAtOnce(TwoAtOnce))?;
    let order = [(0, CREATED), (2, CHANGED), (1, CHANGED)];
    let wanted = order.map(|it| Reply {
        job: it.0,
        code: it.1,
    });
    assert!(rt; held.replies.as_slice() == wanted.as_slice());
    assert!(rt; held.overtakings == 1);
    let mut changes = 0u64;
    for tally in &held.tallies {
        changes = changes.saturating_add(*tally);
    }
    assert!(rt; changes == 3);
    Ok(())
}

// Of 100 POSTs, seven have one conflict each, and are run again. All are answered with 2.04.
#[test]
fn overtaken_runs_are_run_again(rt: HostRuntime) -> Result<(), Fail> {
    let overtaken = Overtaken {
        posts: 100,
        every: 15,
        runs: 1,
    };
    let held = hold(&rt, rt.alloc(), 2, &Trial::Overtaken(overtaken))?;
    assert!(rt; held.replies.len() == 100);
    assert!(rt; held.replies.iter().all(|it| it.code == CHANGED));
    assert!(rt; held.overtakings == 7);
    assert!(rt; held.tallies.as_slice() == [100, 8].as_slice());
    // One reading of the device for each snapshot, of which seven had a conflict.
    assert!(rt; held.readings == 107);
    Ok(())
}

// A job that has a conflict in each of eight runs is answered with 5.03, and its worker counts no
// change.
#[test]
fn eight_overtakings_end_a_job(rt: HostRuntime) -> Result<(), Fail> {
    let overtaken = Overtaken {
        posts: 1,
        every: 1,
        runs: 8,
    };
    let held = hold(&rt, rt.alloc(), 2, &Trial::Overtaken(overtaken))?;
    let wanted = [Reply {
        job: 0,
        code: UNAVAILABLE,
    }];
    assert!(rt; held.replies.as_slice() == wanted.as_slice());
    assert!(rt; held.overtakings == 8);
    assert!(rt; held.tallies.as_slice() == [0, 9].as_slice());
    assert!(rt; held.readings == 8);
    Ok(())
}
