//! Workers in threads of their own, and the channel by which they get jobs.
ghost use Rattle.std.specs.Prelude.{◌≡◌, Bool, IfOk, vec_len};
ghost use Rattle.std.specs.List.{All};
ghost use Rattle.fc_jobs.specs.Ends.{nothing_got, nothing_sent};
ghost use Rattle.fc_backend.specs.Logs.{IsNewLog};
ghost use Rattle.fc_workers.specs.Views.{worker_view};
ghost use Rattle.fc_workers.specs.Shares.{AreNewSeats, AreSharesOf, IsShareOf};

use crate::context::{Context, WorkerParts};
use crate::worker_seed::{SeedOf, WorkerSeed, worker};
use fc_backend::{Bench, Gate, JobMessage, ShareOf, TimeSource, TrackLog, Wire};
use fc_filed::ServerName;
use fc_jobs::{Got, Jobs, Sent};
use std::alloc::{AllocError, Global};
use std::marker::PhantomData;
use std::snapshot::Snapshot;
use std::sync::Wait;
use std::thread;
use std::thread::{Promise, Threads};

/// Makes a channel of jobs, and a worker seed for each of `tallies`.
///
/// The worker seeds have the tallies in order, and the logs in reverse order. There are as many
/// logs as tallies. If nothing is filed in any log, the same holds of the worker seeds' logs.
/// Returns the channel, the channel's sending end, and the worker seeds.
///
/// # Errors
/// Returns `AllocError` if memory can't be allocated.
pub fn make_seats<T: Drop, J: ServerName>(
    alloc: Global,
    tallies: Vec<T>,
    logs: Vec<TrackLog<J>>,
) -> Result<(Jobs<JobMessage<J>>, Sent<JobMessage<J>>, Vec<SeedOf<T, J>>), AllocError>
    requires { vec_len logs ≡ vec_len tallies }
    ensures sent { IfOk result (λ r. r.1 ≡ nothing_sent r.0) }
    ensures seats { IfOk result (λ r. AreNewSeats r.0 tallies.items logs.items r.2.items) }
    ensures new_logs { All IsNewLog logs.items → IfOk result (λ r. All (λ s. IsNewLog s.log) r.2.items) }
{
    let (jobs, sent, gots) = Jobs::new(alloc, tallies.len())?;
    let seats = seats_at(alloc, &jobs, gots, tallies, logs)?;
    Ok((jobs, sent, seats))
}

// Makes a worker seed for each of `tallies`, in order. Each worker seed gets the last place left in
// `gots`, and the last log left in `logs`. The three lists have the same length. Returns
// `AllocError` if memory can't be allocated.
fn seats_at<T: Drop, J: ServerName>(
    alloc: Global,
    jobs: &Jobs<JobMessage<J>>,
    mut gots: Vec<Got<JobMessage<J>>>,
    tallies: Vec<T>,
    mut logs: Vec<TrackLog<J>>,
) -> Result<Vec<SeedOf<T, J>>, AllocError>
    requires got { All (λ g. g ≡ nothing_got jobs.now) gots.items }
    requires count { vec_len gots ≡ vec_len tallies }
    requires logs { vec_len logs ≡ vec_len tallies }
    ensures { IfOk result (λ v. AreNewSeats jobs.now tallies.items logs.items v.items) }
{
    let _ = jobs;
    let mut seats = Vec::with_capacity(alloc, tallies.len())?;
    for own in tallies {
        let Some(got) = gots.pop() else {
            unreachable!();
        };
        let Some(log) = logs.pop() else {
            unreachable!();
        };
        seats.push(WorkerSeed::new(alloc, got, own, log)?)?;
    }
    Ok(seats)
}

/// Runs a worker for each worker seed, until the channel is closed and empty.
///
/// Each worker has a thread of its own. If no thread can be made, the workers run one after
/// another. Returns the workers' statistics, in the order of the worker seeds.
///
/// # Errors
/// Returns `AllocError` if memory for the list of statistics can't be allocated. Then the
/// statistics are lost, and some worker seeds may have had no worker.
pub fn run_workers<
    B: Bench + Sync,
    G: Gate + Sync,
    W: Wire + Sync,
    M: TimeSource + Sync,
    R: Threads + Wait + Sync,
>(
    context: &Context<'_, B, G, W, M, R>,
    jobs: &Jobs<JobMessage<B::Book>>,
    seats: Vec<SeedOf<B::Tallies, B::Book>>,
) -> Result<Vec<ShareOf<B::Tallies, B::Book>>, AllocError>
where
    B::Tallies: Send,
    B::Book: Send,
    requires { All (λ s. s.got.channel ≡ jobs.now) seats.items }
    ensures { IfOk result (λ v. AreSharesOf B.Book.first_job ⟦<(B, G, W, M) as WorkerParts>⟧.view
        seats.items v.items) }
{
    thread::map_vec(
        context.rt,
        seats,
        &|seat: SeedOf<B::Tallies, B::Book>| -> ShareOf<B::Tallies, B::Book>
            requires { seat.got.channel ≡ jobs.now }
            ensures { IsShareOf B.Book.first_job (worker_view B.changes B.ended B.called B.logged M.is_time M.is_random G.passed G.answered W.called) seat result }
        { worker(context, jobs, seat) },
    )
}

// The promise that a thread returns the statistics of the workers of these worker seeds, or an
// error.
#[derive(Drop)]
struct PromisedShares<B: Bench, G: Gate, W: Wire, M: TimeSource> {
    seats: Snapshot<Vec<SeedOf<B::Tallies, B::Book>>>,
    gate: PhantomData<G>,
    wire: PhantomData<W>,
    times: PhantomData<M>,
}

impl<B: Bench, G: Gate, W: Wire, M: TimeSource> Promise<
    Result<Vec<ShareOf<B::Tallies, B::Book>>, AllocError>,
> for PromisedShares<B, G, W, M> {
    ghost kept_by = { λ p r. IfOk r (λ v. AreSharesOf B.Book.first_job ⟦<(B, G, W, M) as WorkerParts>⟧.view
        p.seats.value.items v.items) };
}

/// Runs a worker for each worker seed, and a driver on the calling thread.
///
/// See [`run_workers`]. Returns the driver's result and the workers' statistics.
///
/// The driver sends the jobs, and owns the sending end of the channel. Once the driver drops this
/// end, the channel is closed, and the workers end. The driver's argument is whether workers were
/// started; the contract doesn't guarantee its value. If no thread can be made for the workers, the
/// workers run after the driver.
///
/// # Errors
/// The statistics are an error if those of `run_workers` are. If memory is refused for every worker
/// seed, no worker ever asks for a job ([`Jobs::is_served`]). A driver that then sends more than
/// 256 jobs waits for ever.
pub fn drive_workers<
    B: Bench + Sync,
    G: Gate + Sync,
    W: Wire + Sync,
    M: TimeSource + Sync,
    R: Threads + Wait + Sync,
    X: Drop,
    F: FnOnce(bool) -> X + Drop,
>(
    context: &Context<'_, B, G, W, M, R>,
    jobs: &Jobs<JobMessage<B::Book>>,
    seats: Vec<SeedOf<B::Tallies, B::Book>>,
    drive: F,
) -> (X, Result<Vec<ShareOf<B::Tallies, B::Book>>, AllocError>)
where
    B::Tallies: Send,
    B::Book: Send,
    requires seats { All (λ s. s.got.channel ≡ jobs.now) seats.items }
    requires drive { F.IsAlwaysCallable drive }
    ensures fed { (has_workers : Bool) × F.post drive has_workers result.0 }
    ensures shares { IfOk result.1 (λ v. AreSharesOf B.Book.first_job ⟦<(B, G, W, M) as WorkerParts>⟧.view
        seats.items v.items) }
{
    thread::scope(
        thread::scope_env(),
        context.rt,
        move |scope| -> (X, Result<Vec<ShareOf<B::Tallies, B::Book>>, AllocError>)
            requires { All (λ s. s.got.channel ≡ jobs.now) seats.items × F.IsAlwaysCallable drive }
            ensures { ((has_workers : Bool) × F.post drive has_workers result.0)
                × IfOk result.1 (λ v. AreSharesOf B.Book.first_job (worker_view B.changes B.ended B.called B.logged M.is_time M.is_random G.passed G.answered W.called)
                seats.items v.items) }
        {
            let has_seats = !seats.is_empty();
            let promise = PromisedShares::<B, G, W, M> {
                seats: Snapshot::of(&seats),
                gate: PhantomData,
                wire: PhantomData,
                times: PhantomData,
            };
            let started = scope.spawn_with(
                promise,
                move || -> Result<Vec<ShareOf<B::Tallies, B::Book>>, AllocError>
                    requires { All (λ s. s.got.channel ≡ jobs.now) seats.items }
                    ensures { IfOk result
                        (λ v. AreSharesOf B.Book.first_job (worker_view B.changes B.ended B.called B.logged M.is_time M.is_random G.passed G.answered W.called)
                        seats.items v.items) }
                {
                    let shares = run_workers(context, jobs, seats);
                    jobs.dismiss(context.rt);
                    shares
                },
            );
            match started {
                Ok(workers) => {
                    let fed = drive(has_seats);
                    (fed, workers.join(context.rt))
                }
                Err(refused) => {
                    let fed = drive(false);
                    (fed, (refused.value)())
                }
            }
        },
    )
}
