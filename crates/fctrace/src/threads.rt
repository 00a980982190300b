//! The threads of a traced pool: its workers and its driver.
ghost use Rattle.std.specs.Prelude.{◌≡◌, ◌+◌, ◌<◌, IfOk, vec_len};
ghost use Rattle.std.specs.List.{All};
ghost use Rattle.fc_backend.specs.Messages.{first_brought};
ghost use Rattle.fc_backend.specs.Logs.{IsNewLog};

use crate::clients::Open;
use crate::traced_bench::TracedBench;
use crate::traced_run::TracedRun;
use fc_backend::{Bench, JobKeys, JobMessage, Share, ShareOf, TrackLog};
use fc_filed::ServerName;
use fc_jobs::{Jobs, Sent};
use fc_workers::{Context, Dispatcher, SeedOf, make_seats, worker};
use std::alloc::AllocError;
use std::sync::Wait;
use std::thread;
use std::thread::Threads;
use std::time::Clock;

/// The statistics of a pool's workers, and of its driver.
#[derive(Drop)]
pub(crate) struct PoolShares<T: Drop, L: Drop, M: Drop> {
    pub(crate) workers: Vec<Share<T, L, M>>,
    pub(crate) driver: Share<T, L, M>,
}

/// The statistics of a pool whose calls are filed in the book with the name `J`.
pub(crate) type PoolSharesOf<T, J> = PoolShares<T, TrackLog<J>, JobMessage<J>>;

impl<T: Drop, J: ServerName> PoolShares<T, TrackLog<J>, JobMessage<J>> {
    /// Returns the number of conflicts that the workers counted, at most 2^64 - 1.
    pub(crate) fn conflicts(&self) -> u64 {
        let mut conflicts = 0u64;
        for share in &self.workers {
            conflicts = conflicts.saturating_add(share.overtakings);
        }
        conflicts
    }
}

/// Runs the driver with the last of `tallies`, and a worker with each other one.
///
/// Each has a thread of its own, and one of `logs`. Returns their statistics.
///
/// # Errors
/// Returns `AllocError` if memory can't be allocated.
pub(crate) fn run_threads<B: Bench + Sync, R: Threads + Wait + Clock + Sync>(
    rt: &R,
    run: &TracedRun,
    bench: &B,
    tallies: Vec<B::Tallies>,
    logs: Vec<TrackLog<B::Book>>,
    keys: JobKeys<B::Book>,
) -> Result<PoolSharesOf<B::Tallies, B::Book>, AllocError>
where
    B::Tallies: Send,
    B::Book: Send,
    requires some { 0 < vec_len tallies }
    requires logs { vec_len logs ≡ vec_len tallies }
    requires new_logs { All IsNewLog logs.items }
    requires keys { keys ≡ first_brought B.Book.first_job }
    ensures { IfOk result (λ r. vec_len r.workers + 1 ≡ vec_len tallies) }
{
    let (jobs, sent, mut seats) = make_seats(run.alloc, tallies, logs)?;
    let Some(own) = seats.pop() else {
        unreachable!();
    };
    run_seated(rt, run, bench, &jobs, sent, own, keys, seats)
}

// Runs a worker for each of `seats`, and the driver with `own`, each in a thread of its own.
// Returns their statistics, or `AllocError` if memory can't be allocated.
fn run_seated<B: Bench + Sync, R: Threads + Wait + Clock + Sync>(
    rt: &R,
    run: &TracedRun,
    bench: &B,
    jobs: &Jobs<JobMessage<B::Book>>,
    sent: Sent<JobMessage<B::Book>>,
    own: SeedOf<B::Tallies, B::Book>,
    keys: JobKeys<B::Book>,
    seats: Vec<SeedOf<B::Tallies, B::Book>>,
) -> Result<PoolSharesOf<B::Tallies, B::Book>, AllocError>
where
    B::Tallies: Send,
    B::Book: Send,
    requires sent { sent.channel ≡ jobs.now }
    requires new_log { IsNewLog own.log }
    requires keys { keys ≡ first_brought B.Book.first_job }
    requires seats { All (λ s. s.got.channel ≡ jobs.now) seats.items }
    ensures { IfOk result (λ r. vec_len r.workers ≡ vec_len seats) }
{
    let (workers, driver) = thread::join(
        rt,
        move || -> Result<Vec<ShareOf<B::Tallies, B::Book>>, AllocError>
            requires { All (λ s. s.got.channel ≡ jobs.now) seats.items }
            ensures { IfOk result (λ v. vec_len v ≡ vec_len seats) }
        { run_workers(rt, run, bench, jobs, seats) },
        move || -> ShareOf<B::Tallies, B::Book>
            requires sent { sent.channel ≡ jobs.now }
            requires new_log { IsNewLog own.log }
            requires keys { keys ≡ first_brought B.Book.first_job }
        { run_driver(rt, run, bench, jobs, sent, own, keys) },
    );
    Ok(PoolShares {
        workers: workers?,
        driver,
    })
}

// Runs a worker for each of `seats`, each in a thread of its own. Returns their statistics, or
// `AllocError` if memory can't be allocated.
fn run_workers<B: Bench + Sync, R: Threads + Wait + Sync>(
    rt: &R,
    run: &TracedRun,
    bench: &B,
    jobs: &Jobs<JobMessage<B::Book>>,
    seats: Vec<SeedOf<B::Tallies, B::Book>>,
) -> Result<Vec<ShareOf<B::Tallies, B::Book>>, AllocError>
where
    B::Tallies: Send,
    B::Book: Send,
    requires { All (λ s. s.got.channel ≡ jobs.now) seats.items }
    ensures { IfOk result (λ v. vec_len v ≡ vec_len seats) }
{
    let shares = thread::map_vec(
        rt,
        seats,
        &|seat: SeedOf<B::Tallies, B::Book>| -> ShareOf<B::Tallies, B::Book>
            requires { seat.got.channel ≡ jobs.now }
        { run_worker(rt, run, bench, jobs, seat) },
    );
    jobs.dismiss(rt);
    shares
}

// Runs a worker until the channel is closed and empty, and returns its statistics.
fn run_worker<'a, B: Bench, R: Wait>(
    rt: &'a R,
    run: &'a TracedRun,
    bench: &'a B,
    jobs: &Jobs<JobMessage<B::Book>>,
    seat: SeedOf<B::Tallies, B::Book>,
) -> ShareOf<B::Tallies, B::Book>
    requires { seat.got.channel ≡ jobs.now }
{
    let traced = TracedBench {
        bench,
        trace: &run.trace,
        waits: rt,
        thread: run.next_thread(),
    };
    let context = Context {
        rt,
        alloc: run.alloc,
        bench: &traced,
        gate: &Open,
        wire: &run.clients,
        times: &run.clients,
    };
    worker(&context, jobs, seat)
}

// Delivers the clients' datagrams, closes the channel, and returns the driver's statistics. If
// memory can't be allocated, the trace is marked as broken.
fn run_driver<B: Bench, R: Wait + Clock>(
    rt: &R,
    run: &TracedRun,
    bench: &B,
    jobs: &Jobs<JobMessage<B::Book>>,
    sent: Sent<JobMessage<B::Book>>,
    own: SeedOf<B::Tallies, B::Book>,
    keys: JobKeys<B::Book>,
) -> ShareOf<B::Tallies, B::Book>
    requires sent { sent.channel ≡ jobs.now }
    requires new_log { IsNewLog own.log }
    requires keys { keys ≡ first_brought B.Book.first_job }
{
    let traced = TracedBench {
        bench,
        trace: &run.trace,
        waits: rt,
        thread: 0,
    };
    let context = Context {
        rt,
        alloc: run.alloc,
        bench: &traced,
        gate: &Open,
        wire: &run.clients,
        times: &run.clients,
    };
    let mut dispatcher = Dispatcher::new(&context, jobs, sent, own, keys, run.offload);
    run.drive(rt, &mut dispatcher);
    dispatcher.close()
}
