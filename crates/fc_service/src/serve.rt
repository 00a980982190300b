//! A server on a socket, with one thread or with workers.
//!
//! One thread receives the datagrams. Their jobs run on worker threads or on the receiving thread.
ghost use Rattle.std.specs.Prelude.{◌≡◌, ◌⊎◌, ⊤, [], false, if◌then◌else◌, true, IfOk, IfSome, None};
ghost use Rattle.fc_filed.specs.Recovered.{HaveSavedOrder};
ghost use Rattle.fc_host.specs.Clocks.{AreReadAt};
ghost use Rattle.fc_pool.specs.Pooled.{locked_view};
ghost use Rattle.fc_receive.specs.Rounds.{HasReceivedWith, round_calls};
ghost use Rattle.fc_service.specs.Services.{HasServedBy, HasServedPooled, IsOneThread, IsServed, offload_of};
ghost use Rattle.fc_pool.specs.declared.replies.Replies.{Replies as Counts};
ghost use Rattle.fc_cli.specs.declared.status.Status.TheVariants.{Done, Failed};
ghost use Rattle.fc_locked.specs.SharedStores.{HasSaved};
ghost use Rattle.fc_service.specs.Starting.{IsRestoredFrom};

use crate::alone::Sensed;
use crate::slots::Slots;
use fc_backend::{TimeSource, Wire};
use fc_cli::status::{Status, tell};
use fc_config::options::{Extent, Listening};
use fc_host::clock::{Elapsed, SensingDevice};
use fc_host::sensors::Sensors;
use fc_host::socket::{Receiving, Replying, Sink, Source, open};
use fc_host::timer::Timer;
use fc_locked::ReadyStore;
use fc_pool::{Driven, Driver, Pool, Replies, run_pool};
use fc_receive::reports::{CountedSink, Reports};
use fc_receive::rounds::Unprepared;
use fc_receive::timed::{TimersOf, run_timed};
use fc_receive::timer_jobs::{TimerJobs, TimerWire};
use fc_record::{RecordedAlone, Recorder, Reporter};
use fc_server::{FirstServer, Ingress, SingleThread};
use fc_store::Store;
use fc_workers::Offload;
use log::{Log, info};
use std::alloc::{AllocError, Global};
use std::io;
use std::io::Write;
use std::net::{Net, SocketAddrV4};
use std::sync::Wait;
use std::thread::Threads;
use std::time::Clock;
use thiserror::Error;

/// The least cost, in steps, of a run that is dispatched to a worker.
///
/// Dispatching a job wakes a thread, which costs about 14 us of processor time. A program executes
/// some thousand steps in this time. A cheaper job runs on the thread that received it.
const EXPENSIVE: u32 = 6_000;

// The reason why a server doesn't start.
#[derive(Debug, Drop, Error)]
enum ServeStop {
    #[error("UDP {0}: {1}")]
    Socket(SocketAddrV4, io::Error),
    #[error("clock: {0}")]
    Clock(io::Error),
    #[error("{0}")]
    Memory(#[from] AllocError),
}

/// The receivers of a server's records: its end, program changes and reports.
#[derive(Clone, Copy)]
pub struct Records<'a, L: Log, C: Recorder, Q: Reporter> {
    pub end: &'a L,
    pub changes: &'a C,
    pub reports: Reports<'a, Q>,
}

/// A service: its records, sensors and timers, and how long and with how many workers it serves.
///
/// The programs of the timers run at their beats. The sensors give the readings of programs.
#[derive(Drop)]
pub struct Service<'a, L: Log, C: Recorder, Q: Reporter, Z: Sensors> {
    pub alloc: Global,
    pub records: &'a Records<'a, L, C, Q>,
    pub sensors: &'a Z,
    pub timers: Vec<Timer>,
    pub extent: Extent,
}

/// Serves on UDP at an address and a port of this host, as [`serve_at`] does.
///
/// The listening address is written to `err` if `listening.told` is set. Returns `Done` once
/// `service.extent.limit` datagrams were received. If the server doesn't start or the socket can't
/// be opened, returns `Failed`, and the reason is written to `err`.
pub fn serve<
    R: Threads + Wait + Clock + Net + Sync,
    L: Log,
    C: Recorder + Sync,
    Q: Reporter + Sync,
    E: Write,
    Z: Sensors + Sync,
    P: Store + Send + Drop,
>(
    rt: &R,
    err: &mut E,
    service: Service<'_, L, C, Q, Z>,
    slots: Slots<P>,
    listening: Listening,
) -> Status
    ensures status { (result ≡ Done) ⊎ (result ≡ Failed) }
    ensures starts { P.persistent ≡ true → IsRestoredFrom (P.stored slots.store) slots.first }
    ensures served { result ≡ Done → (replies : Counts)
        × IsServed service.entry.timers.items Z.are_sensed (round_calls (λ receive before after. after ≡ before) (λ now before after. after ≡ before) (λ emission out before after. ⊤)) C.recorded service.entry.records.now.reports.every Q.reported service.entry.extent (HasSaved P.Store) P.persistent slots.first (HaveSavedOrder P.Store slots.first (P.stored slots.store)) None None replies }
{
    let address = listening.address;
    match open(rt, address) {
        Ok(socket) => {
            if listening.told {
                let _told = writeln!(err, "listening on {address}");
            }
            let source = Receiving::new(&socket);
            done_if(serve_at(rt, err, service, slots, source, &socket).is_some())
        }
        Err(error) => tell(err, &ServeStop::Socket(address, error), Status::Failed),
    }
}

// Returns the status of a server by whether it ran to its end.
fn done_if(done: bool) -> Status
    ensures { (result ≡ (if done then Done else Failed)) }
{
    if done { Status::Done } else { Status::Failed }
}

/// Serves datagrams of a source on a server that starts with `slots`.
///
/// The server ends once it has received `service.extent.limit` datagrams. Programs read the
/// milliseconds since the start, and the sensor readings. This thread answers a datagram with a
/// cheap job before it receives the next. Workers, each on its own thread, run the jobs whose
/// programs may run long. If there is one worker and the store isn't persistent, this thread runs
/// all jobs. The same holds if no thread can be created for a worker, and this is written to `err`.
///
/// If the store is persistent, each change of a slot is saved before it is made. Workers, or the
/// one worker, run the jobs that may change a slot.
///
/// After each datagram notifications that have timed out are retransmitted, and observers with
/// pending notifications are notified. If no datagram comes in time, time passes. A receive waits
/// 100 ms. After a round without a datagram, it waits without limit while no job is running, no
/// notification waits for an acknowledgement, and no observer has a pending notification.
///
/// At the end the workers run the remaining jobs. The logger of the end gets the numbers of replies
/// that were passed to the sink and that couldn't be sent: a record `sent 2 failed 0` of level
/// info. The source is returned.
///
/// In each round the timers that are due fire before the datagram is handled, in their order. The
/// job of a timer is that of a POST of its slot's resource, which sends nothing. A timer whose last
/// job is at a worker skips the beat. Each receive ends when the first timer is due.
///
/// If `service.records.reports` has a period, the reporter gets the counts of datagrams and
/// notifications once in each period, while the server runs: at the first round after they are due.
///
/// The recorder gets each program change that is answered, once: an image that is installed or
/// refused, and a removal. A duplicate request is no change. A block-wise upload is one change, at
/// its last block.
///
/// Returns `None` if the clock can't be read or memory can't be allocated at the start. The reason
/// is written to `err`.
pub fn serve_at<
    R: Threads + Wait + Clock + Sync,
    S: Source + Drop,
    K: Sink + Sync,
    L: Log,
    C: Recorder + Sync,
    Q: Reporter + Sync,
    E: Write,
    Z: Sensors + Sync,
    P: Store + Send + Drop,
>(
    rt: &R,
    err: &mut E,
    service: Service<'_, L, C, Q, Z>,
    slots: Slots<P>,
    source: S,
    sink: &K,
) -> Option<S>
    ensures starts { P.persistent ≡ true → IsRestoredFrom (P.stored slots.store) slots.first }
    ensures served { IfSome result (λ left. (replies : Counts)
        × IsServed service.entry.timers.items Z.are_sensed (round_calls S.received (λ now before after. after ≡ before) K.went) C.recorded service.entry.records.now.reports.every Q.reported service.entry.extent (HasSaved P.Store) P.persistent slots.first (HaveSavedOrder P.Store slots.first (P.stored slots.store)) (S.came source) (S.came left) replies) }
{
    let end = service.records.end;
    match serve_counted(rt, err, service, slots, source, sink) {
        Ok(Received { source, replies }) => {
            info!(end; "{replies}");
            Some(source)
        }
        Err(stop) => {
            tell(err, &stop, Status::Failed);
            None
        }
    }
}

// A source after its datagrams were received, and the replies.
#[derive(Drop)]
struct Received<S: Source + Drop> {
    source: S,
    replies: Replies,
}

// Serves to the end, and returns the source and the numbers of replies. If there are reports, the
// reporter counts the datagrams that are passed to the sink. Returns why the server doesn't start
// if the clock can't be read or memory can't be allocated.
fn serve_counted<
    R: Threads + Wait + Clock + Sync,
    S: Source + Drop,
    K: Sink + Sync,
    L: Log,
    C: Recorder + Sync,
    Q: Reporter + Sync,
    E: Write,
    Z: Sensors + Sync,
    P: Store + Send + Drop,
>(
    rt: &R,
    err: &mut E,
    service: Service<'_, L, C, Q, Z>,
    slots: Slots<P>,
    source: S,
    sink: &K,
) -> Result<Received<S>, ServeStop>
    ensures { IfOk result (λ r. IsServed service.entry.timers.items Z.are_sensed (round_calls S.received (λ now before after. after ≡ before) K.went) C.recorded service.entry.records.now.reports.every Q.reported service.entry.extent (HasSaved P.Store) P.persistent slots.first (HaveSavedOrder P.Store slots.first (P.stored slots.store)) (S.came source) (S.came r.source) r.replies) }
{
    let records = service.records;
    if records.reports.every.is_none() {
        return serve_to_end(rt, err, service, slots, source, sink);
    }
    let counted = CountedSink {
        sink,
        reporter: records.reports.reporter,
    };
    serve_to_end(rt, err, service, slots, source, &counted)
}

// Serves as `serve_at` does, and returns the source and the numbers of replies at the end.
// Returns why the server doesn't start if the clock can't be read or memory can't be allocated.
fn serve_to_end<
    R: Threads + Wait + Clock + Sync,
    S: Source + Drop,
    K: Sink + Sync,
    L: Log,
    C: Recorder + Sync,
    Q: Reporter + Sync,
    E: Write,
    Z: Sensors + Sync,
    P: Store + Send + Drop,
>(
    rt: &R,
    err: &mut E,
    service: Service<'_, L, C, Q, Z>,
    slots: Slots<P>,
    source: S,
    sink: &K,
) -> Result<Received<S>, ServeStop>
    ensures { IfOk result (λ r. IsServed service.entry.timers.items Z.are_sensed (round_calls S.received (λ now before after. after ≡ before) K.went) C.recorded service.entry.records.now.reports.every Q.reported service.entry.extent (HasSaved P.Store) P.persistent slots.first (HaveSavedOrder P.Store slots.first (P.stored slots.store)) (S.came source) (S.came r.source) r.replies) }
{
    let times = Elapsed::start(rt).map_err(ServeStop::Clock)?;
    let has_timers = !service.timers.is_empty();
    let jobs = TimerJobs::new(service.alloc, service.timers.len())?;
    if is_one_thread(service.extent.workers, &slots.store) {
        let Slots {
            first,
            store: _unused,
        } = slots;
        return Ok(serve_alone(rt, service, first, source, sink, &times, &jobs)?);
    }
    let replying = Replying { sink };
    if !has_timers {
        return Ok(serve_pooled(
            rt, err, service, slots, source, sink, &replying, &times, &jobs,
        )?);
    }
    let wire = TimerWire {
        wire: &replying,
        jobs: &jobs,
    };
    Ok(serve_pooled(rt, err, service, slots, source, sink, &wire, &times, &jobs)?)
}

// Returns whether a server runs all jobs on the receiving thread: with one worker, and a store that
// isn't persistent. With a persistent store it never does, so that other jobs run while a change is
// saved.
fn is_one_thread<P: Store>(workers: u8, store: &ReadyStore<P>) -> bool
    ensures one { result ≡ true → IsOneThread workers P.persistent }
    ensures more { result ≡ false → IsOneThread workers P.persistent → ⊥ }
{
    workers == 1 && !store.is_persistent()
}

// Returns the dispatch policy of a server, by whether its store is persistent.
fn offload_of<P: Store>(store: &ReadyStore<P>) -> Offload
    ensures { result ≡ offload_of P.persistent }
{
    if store.is_persistent() {
        Offload::ChangesAndExpensive(EXPENSIVE)
    } else {
        Offload::Expensive(EXPENSIVE)
    }
}

// A receiver of datagrams, up to a limit. It sends what needs no job, and fires the timers.
#[derive(Drop)]
struct Receiver<'a, 'b, S: Source + Drop, K: Sink, M: TimeSource, Q: Reporter> {
    source: S,
    sink: &'a K,
    times: &'a M,
    limit: u32,
    reports: &'a Reports<'b, Q>,
    timers: TimersOf<'a>,
}

impl<'a, 'b, S: Source + Drop, K: Sink, M: TimeSource, Q: Reporter> Driver<Received<S>>
    for Receiver<'a, 'b, S, K, M, Q> {
    ghost drives = { λ T calls self first last given. HasReceivedWith self.timers.timers.items self.reports.now.every Q.reported (λ now old new. new ≡ old)
        calls (round_calls S.received M.is_time K.went) self.limit (S.came self.source) (S.came given.source) first last given.replies };

    // Receives datagrams up to the limit, as `run_timed` does, and returns the ingress, the source
    // and the numbers of replies.
    fn drive<N: Ingress, R: Wait>(self, rt: &R, ingress: N) -> Driven<N, Received<S>> {
        let Receiver {
            mut source,
            sink,
            times,
            limit,
            reports,
            timers,
        } = self;
        let Driven {
            ingress,
            given: replies,
        } = run_timed(
            rt,
            ingress,
            &Unprepared,
            &mut source,
            sink,
            times,
            limit,
            reports,
            timers,
        );
        let given = Received { source, replies };
        Driven { ingress, given }
    }
}

// Serves with workers, or with this thread alone if no thread can be created for a worker.
// The workers' replies are passed to `wire`. Returns the source, and the numbers of replies.
// Returns `AllocError` if memory for the server can't be allocated.
fn serve_pooled<
    R: Threads + Wait + Sync,
    L: Log,
    C: Recorder + Sync,
    Q: Reporter + Sync,
    E: Write,
    Z: Sensors + Sync,
    S: Source + Drop,
    K: Sink + Sync,
    W: Wire + Sync,
    M: TimeSource + Sync,
    P: Store + Send + Drop,
>(
    rt: &R,
    err: &mut E,
    service: Service<'_, L, C, Q, Z>,
    slots: Slots<P>,
    source: S,
    sink: &K,
    wire: &W,
    times: &M,
    jobs: &TimerJobs,
) -> Result<Received<S>, AllocError>
    ensures { let view = locked_view slots.first (AreReadAt M.is_time Z.are_sensed) (HasSaved P.Store) M.is_time M.is_random W.called C.recorded in
        IfOk result (λ r. HasServedPooled view service.entry.timers.items service.entry.records.now.reports.every Q.reported (round_calls S.received M.is_time K.went) service.entry.extent.workers service.entry.extent.limit P.persistent slots.first (HaveSavedOrder P.Store slots.first (P.stored slots.store)) (S.came source) (S.came r.source) r.replies) }
{
    let Service {
        alloc,
        records,
        sensors,
        timers,
        extent,
    } = service;
    let Slots { first, store } = slots;
    let pool = Pool {
        workers: extent.workers,
        offload: offload_of(&store),
        wire,
        times,
        device: &SensingDevice { times, sensors },
        recorder: records.changes,
    };
    let receiver = Receiver {
        source,
        sink,
        times,
        limit: extent.limit,
        reports: &records.reports,
        timers: TimersOf { timers, jobs },
    };
    let fed = run_pool(rt, alloc, err, &pool, first, store, receiver)?;
    let Received { source, replies } = fed.given;
    Ok(Received {
        source,
        replies: replies.plus(fed.replies),
    })
}

// Serves on one thread: runs each datagram's job on this thread, before the next is received.
// Returns the source, and the numbers of replies, each counted once. Returns `AllocError` if memory
// for the server can't be allocated.
fn serve_alone<
    R: Wait,
    L: Log,
    C: Recorder,
    Q: Reporter,
    S: Source + Drop,
    K: Sink,
    M: TimeSource,
    Z: Sensors,
>(
    rt: &R,
    service: Service<'_, L, C, Q, Z>,
    first: FirstServer,
    mut source: S,
    sink: &K,
    times: &M,
    jobs: &TimerJobs,
) -> Result<Received<S>, AllocError>
    ensures { IfOk result (λ r. HasServedBy service.entry.timers.items service.entry.records.now.reports.every Q.reported Z.are_sensed (round_calls S.received M.is_time K.went) C.recorded service.entry.extent.limit first
        (S.came source) (S.came r.source) r.replies) }
{
    let Service {
        alloc,
        records,
        sensors,
        timers,
        extent,
    } = service;
    let alone = RecordedAlone::new(SingleThread::over(alloc, first)?, records.changes);
    let sensed = Sensed { sensors };
    let Driven {
        ingress: _last,
        given: replies,
    } = run_timed(
        rt,
        alone,
        &sensed,
        &mut source,
        sink,
        times,
        extent.limit,
        &records.reports,
        TimersOf { timers, jobs },
    );
    Ok(Received { source, replies })
}
