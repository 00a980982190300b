//! Pools: a new server with locks, its workers, and a driver of datagrams.
//!
//! `fcd play --workers` drives one with lines. `fcd serve` drives one with the datagrams of a
//! socket, unless it has one worker and no store.
ghost use Rattle.std.specs.Prelude.{◌≡◌, ◌+◌, ◌<◌, ◌≤◌, ℕ, ⊤, List, vec_len, IfOk};
ghost use Rattle.std.specs.List.{All};
ghost use Rattle.fc_filed.specs.Recovered.{HaveSavedOrder};
ghost use Rattle.fc_jobs.specs.Ends.{nothing_got, nothing_sent};
ghost use Rattle.fc_pool.specs.Counting.{both_replies, replies_by, replies_of};
ghost use Rattle.fc_server.specs.Ingresses.{IngressCalls};
ghost use Rattle.fc_store.specs.Stored.{blank_slot};
ghost use Rattle.fc_pool.specs.Pooled.{DrivesTo, IsFed, IsFedBeside, offload_where, locked_view, open_view, pooled_calls};
ghost use Rattle.fc_locked.specs.Closing.{HasCountedAll};
ghost use Rattle.fc_locked.specs.Naming.{AreNamed};
ghost use Rattle.fc_locked.specs.LegalOrder.{HaveSavedLegalOrder};
ghost use Rattle.fc_backend.specs.Messages.{first_brought};
ghost use Rattle.fc_backend.specs.Logs.{IsNewLog};
ghost use Rattle.fc_locked.specs.OneOrder.{logs_of};
ghost use Rattle.fc_workers.specs.Producing.{HasRightOrder, IsRightWorker};
ghost use Rattle.fc_locked.specs.SharedStores.{HasSaved};
ghost use Rattle.fc_record.specs.Recording.{IsRecorded};

use crate::replies::Replies;
use coap_msg::{Emission, Endpoint};
use fc_backend::{
    Bench, CallLog, Device, Gate, JobKeys, JobMessage, Share, ShareOf, TimeSource, TrackLog, Wire,
};
use fc_filed::NewServerBook;
use fc_front::Handled;
use fc_locked::{Blanks, Books, ClosedServer, Locked, ReadyStore, ServerOf, Tallies, Unassigned};
use fc_observe::Ticked;
use fc_record::{Recorder, RecordingGate};
use fc_server::engine::{FireOutcome, NotifyOutcome};
use fc_server::{FirstServer, Gauges, Ingress, ObserverCounts};
use fc_store::{NoStore, Store};
use fc_ticket::SlotNumber;
use fc_workers::{Context, Dispatcher, Offload, WorkerParts, drive_workers, make_seats};
use std::alloc::{AllocError, Global};
use std::io::Write;
use std::marker::{Brand, Model};
use std::sync::Wait;
use std::sync::atomic::{AtomicU64, Ordering};
use std::thread::Threads;

// A transmitter that counts the jobs that have ended.
#[derive(Drop)]
struct Counting<'a, W: Wire> {
    wire: &'a W,
    ended: AtomicU64,
}

impl<'a, W: Wire> Wire for Counting<'a, W> {
    ghost called = { W.called };

    fn send<R: Wait>(&self, rt: &R, number: u64, emission: &Emission, log: &mut CallLog) -> bool {
        self.wire.send(rt, number, emission, log)
    }

    fn ended<R: Wait>(&self, rt: &R, number: u64, log: &mut CallLog) {
        self.wire.ended(rt, number, log);
        let _before = self.ended.fetch_add(1, Ordering::SeqCst);
    }
}

// A dispatcher as its driver calls it. `begun` is the number of jobs that the driver's calls
// produced, and `ended` that of the jobs that ended.
#[derive(Drop)]
struct PooledIngress<'a, B: Bench, G: Gate, W: Wire, M: TimeSource, R: Wait> {
    dispatcher: Dispatcher<'a, B, G, W, M, R>,
    begun: u64,
    ended: &'a AtomicU64,
}

impl<'a, B: Bench, G: Gate, W: Wire, M: TimeSource, R: Wait> Model
    for PooledIngress<'a, B, G, W, M, R> {
    ghost use Rattle.fc_pool.specs.Pooled.{PooledIngress as Seen};

    ghost Value = { Seen B.Tallies };

    ghost view = { λ d. record { offload = d.dispatcher.offload; done = d.dispatcher.done } };
}

impl<'a, B: Bench, G: Gate, W: Wire, M: TimeSource, R: Wait> PooledIngress<'a, B, G, W, M, R> {
    // Closes the dispatcher, and returns the statistics of the jobs that it ran itself.
    fn close(self) -> ShareOf<B::Tallies, B::Book>
        ensures share { result ≡ self.entry.done.share }
        ensures order { HasRightOrder B.Book.first_job result.log }
    {
        let PooledIngress { dispatcher, .. } = self;
        dispatcher.close()
    }
}

impl<'a, B: Bench, G: Gate, W: Wire, M: TimeSource, R: Wait> Ingress
    for PooledIngress<'a, B, G, W, M, R> {
    ghost calls = { pooled_calls ⟦<(B, G, W, M) as WorkerParts>⟧.view };

    // Handles a datagram by the dispatcher, and returns the dispatcher's result. A job is counted.
    fn handle(&mut self, now: u64, from: Endpoint, bytes: &[u8], reply: &mut Emission) -> Handled {
        let handled = self.dispatcher.handle(now, from, bytes, reply);
        if matches!(handled, Handled::Job) {
            self.begun = self.begun.saturating_add(1);
        }
        handled
    }

    fn tick(&mut self, now: u64) {
        self.dispatcher.tick(now);
    }

    // Fires a timer by the dispatcher, and counts the timer's job. Returns `Sent` with the job's
    // number if the job was sent to a worker, and `Ended` if it has ended here.
    fn fire(&mut self, slot: SlotNumber, now: u64) -> FireOutcome {
        let number = self.dispatcher.fire(slot, now);
        self.begun = self.begun.saturating_add(1);
        match number {
            Some(number) => FireOutcome::Sent(number),
            None => FireOutcome::Ended,
        }
    }

    fn first_due(&self) -> u64 {
        u64::MAX
    }

    fn resend(&mut self, shard: u8, now: u64) -> Ticked {
        self.dispatcher.resend(shard, now)
    }

    fn advance_if_idle(&mut self, shard: u8, now: u64) -> bool {
        self.dispatcher.advance_or_skip(shard, now)
    }

    // Returns 0 while a job waits or is running, since the job may change a slot or register an
    // observer. The count of ended jobs is read before the shard is called.
    fn idle_until(&self, shard: u8) -> u64 {
        if self.ended.load(Ordering::SeqCst) == self.begun {
            self.dispatcher.idle_until(shard)
        } else {
            0
        }
    }

    fn gauges(&self, now: u64) -> Gauges {
        let dispatcher = &self.dispatcher;
        Gauges {
            offloaded: dispatcher.offloaded(),
            front: dispatcher.gauges(now),
            observers: ObserverCounts {
                shards: [
                    dispatcher.observer_counts(0),
                    dispatcher.observer_counts(1),
                    dispatcher.observer_counts(2),
                    dispatcher.observer_counts(3),
                    dispatcher.observer_counts(4),
                    dispatcher.observer_counts(5),
                    dispatcher.observer_counts(6),
                    dispatcher.observer_counts(7),
                ],
            },
        }
    }

    // Requests a lease by the dispatcher, and counts the job of a lease that the shard granted.
    // Returns `Unsent` for such a job, which was sent to a worker or has ended here, and else
    // `Nobody`. Nothing is written over `emission`.
    fn notify(&mut self, shard: u8, now: u64, emission: &mut Emission) -> NotifyOutcome {
        let _ = emission;
        if self.dispatcher.notify(shard, now) {
            self.begun = self.begun.saturating_add(1);
            NotifyOutcome::Unsent
        } else {
            NotifyOutcome::Nobody
        }
    }
}

/// The ingress that a driver returns at its end, and the driver's result.
pub struct Driven<N: Ingress, X: Drop> {
    pub ingress: N,
    pub given: X,
}

/// A driver that passes datagrams to a server.
pub trait Driver<X: Drop> {
    // The driver fed an ingress with these calls, and returned this: the ingress before and after.
    ghost drives: { (S : Type 0) → IngressCalls S → Self → S → S → X → Type 0 } = { λ S calls self first last given. ⊤ };

    /// Passes datagrams to `ingress`, and returns it with the driver's result at its end.
    ///
    /// The pool's workers end after that.
    fn drive<N: Ingress, R: Wait>(self, rt: &R, ingress: N) -> Driven<N, X>
        ensures { drives N N.calls self ingress result.ingress result.given };
}

/// The result of a pool.
///
/// It has the driver's result, whether workers were started, the replies of the jobs that were run,
/// and the closed server.
#[derive(Drop)]
pub struct Fed<X: Drop> {
    pub given: X,
    pub has_workers: bool,
    pub replies: Replies,
    pub closed: ClosedServer,
}

// A server whose workers haven't been started.
#[derive(Drop)]
struct Begun<'a, B: Books, D: Device, K: Store> {
    server: Locked<'a, B, D, K>,
    unassigned: Unassigned<B>,
    tallies: Vec<Tallies<B>>,
    logs: Vec<TrackLog<ServerOf<B>>>,
    keys: JobKeys<ServerOf<B>>,
}

// The driver's result, whether workers were started, and the statistics of the driver's thread and
// of the workers.
#[derive(Drop)]
struct Ended<X: Drop, T: Drop, L: Drop, M: Drop> {
    given: X,
    has_workers: bool,
    own: Share<T, L, M>,
    shares: Vec<Share<T, L, M>>,
}

// The same, if the calls are filed in the book with the name `J`.
type EndedOf<X, T, J> = Ended<X, T, TrackLog<J>, JobMessage<J>>;

/// The parts of a pool.
///
/// It has the number of workers, 1 to 16, and the dispatch policy. It also has the transmitter of
/// the jobs' replies, and the clock. Its other parts are the device whose readings programs get,
/// and the recorder of program changes.
#[derive(Drop)]
pub struct Pool<'a, W: Wire, M: TimeSource, D: Device, C: Recorder> {
    pub workers: u8,
    pub offload: Offload,
    pub wire: &'a W,
    pub times: &'a M,
    pub device: &'a D,
    pub recorder: &'a C,
}

/// Returns the store of a server whose changes aren't saved. Each of its slots is blank.
pub fn no_store() -> ReadyStore<NoStore>
    ensures { (n : ℕ) → ⟦<NoStore as Store>⟧.stored result n ≡ blank_slot }
{
    ReadyStore::new(NoStore)
}

/// Makes a server that begins as `first`, and runs its workers and a driver to their end.
///
/// Each change of a slot is saved in `store` before it is made, if the store is persistent.
///
/// Each worker runs on its own thread, and the driver on the calling thread. Then the server is
/// closed: the serials of each shard have risen by exactly the counted changes. The filed calls of
/// the driver's dispatcher and of some shares of the workers have one order. If a history leaves
/// `first` without jobs, the order continues it legally, up to the closed server
/// (`HaveLegalOrder`). The saves of `store` have their place in the order: with a persistent store
/// each change of a slot is saved (`HaveSavedOrder`). If no thread can be created for a worker, the
/// driver's thread runs all jobs, and this is written to `err`.
///
/// # Errors
/// Returns `AllocError` if memory for the server, the workers or their statistics can't be
/// allocated.
pub fn run_pool<
    R: Threads + Wait + Sync,
    W: Wire + Sync,
    M: TimeSource + Sync,
    D: Device + Sync,
    C: Recorder + Sync,
    K: Store + Send + Drop,
    E: Write,
    X: Drop,
    F: Driver<X> + Drop,
>(
    rt: &R,
    alloc: Global,
    err: &mut E,
    pool: &Pool<'_, W, M, D, C>,
    first: FirstServer,
    store: ReadyStore<K>,
    driver: F,
) -> Result<Fed<X>, AllocError>
    ensures counted { IfOk result (λ fed. HasCountedAll first.shards fed.closed) }
    ensures fed { let worker_view = locked_view first D.are_readings (HasSaved K.Store) M.is_time M.is_random W.called C.recorded in
        IfOk result (λ fed. IsFedBeside worker_view (F.drives _) first (HaveSavedOrder K.Store first (K.stored store)) (offload_where fed.has_workers pool.now.offload) pool.now.workers driver fed.given fed.replies fed.closed) }
{
    let blanks = Blanks::new(u64::from(pool.workers) + 2);
    let book = NewServerBook::new(alloc, u16::from(pool.workers) + 1, first)?;
    run_named::<Brand, R, W, M, D, C, K, E, X, F>(rt, alloc, err, pool, store, driver, blanks, book)
}

// Runs a pool, with ledgers of the names `B`, and `book` for its calls. Returns `AllocError` if
// memory for the server, the workers or their statistics can't be allocated.
fn run_named<
    B: Books + Send + Sync,
    R: Threads + Wait + Sync,
    W: Wire + Sync,
    M: TimeSource + Sync,
    D: Device + Sync,
    C: Recorder + Sync,
    K: Store + Send + Drop,
    E: Write,
    X: Drop,
    F: Driver<X> + Drop,
>(
    rt: &R,
    alloc: Global,
    err: &mut E,
    pool: &Pool<'_, W, M, D, C>,
    store: ReadyStore<K>,
    driver: F,
    blanks: Blanks,
    book: NewServerBook,
) -> Result<Fed<X>, AllocError>
    requires parts { blanks.parts ≡ pool.now.workers + 2 }
    requires names { AreNamed blanks B.names }
    requires books { blanks.parts ≡ B.parts }
    requires table { book.table ≡ B.table }
    requires book_threads { book.first_job ≡ 10 + pool.now.workers + 1 }
    requires threads { book.first_job ≡ B.first_job }
    requires server { book.first ≡ B.first }
    requires persistent { B.persistent ≡ K.persistent }
    requires stored { K.stored store ≡ B.stored }
    ensures counted { IfOk result (λ fed. HasCountedAll B.first.shards fed.closed) }
    ensures fed { let worker_view = locked_view B.first D.are_readings (HasSaved K.Store) M.is_time M.is_random W.called C.recorded in
        IfOk result (λ fed. IsFedBeside worker_view (F.drives _) B.first (HaveSavedOrder K.Store B.first B.stored) (offload_where fed.has_workers pool.now.offload) pool.now.workers driver fed.given fed.replies fed.closed) }
{
    let Begun {
        server,
        unassigned,
        tallies,
        logs,
        keys,
    } = begin::<B, D, K>(alloc, pool.workers, pool.device, store, blanks, book)?;
    let ended = run_at(rt, alloc, err, pool, &server, tallies, logs, keys, driver)?;
    Ok(close(server, unassigned, ended))
}

// Makes a server, the change counters and logs of its workers and driver, the keys of its jobs, and
// the unassigned shares. Returns `AllocError` if memory for them can't be allocated.
fn begin<'a, B: Books, D: Device, K: Store + Drop>(
    alloc: Global,
    workers: u8,
    device: &'a D,
    store: ReadyStore<K>,
    blanks: Blanks,
    book: NewServerBook,
) -> Result<Begun<'a, B, D, K>, AllocError>
    requires parts { blanks.parts ≡ workers + 2 }
    requires names { AreNamed blanks B.names }
    requires books { blanks.parts ≡ B.parts }
    requires table { book.table ≡ B.table }
    requires book_threads { book.first_job ≡ 10 + workers + 1 }
    requires threads { book.first_job ≡ B.first_job }
    requires server { book.first ≡ B.first }
    requires persistent { B.persistent ≡ K.persistent }
    requires stored { K.stored store ≡ B.stored }
    ensures count { IfOk result (λ b. vec_len b.tallies ≡ workers + 1) }
    ensures logs { IfOk result (λ b. vec_len b.logs ≡ vec_len b.tallies) }
    ensures new_logs { IfOk result (λ b. All IsNewLog b.logs.items) }
    ensures keys { IfOk result (λ b. b.keys ≡ first_brought B.first_job) }
    ensures parts { IfOk result (λ b. b.unassigned.parts + vec_len b.tallies ≡ B.parts) }
{
    let (server, mut unassigned, logs, keys) = Locked::<B, D, K>::new(
        alloc, device, store, blanks, book,
    )?;
    let tallies = unassigned.split_each(alloc, usize::from(workers) + 1)?;
    Ok(Begun {
        server,
        unassigned,
        tallies,
        logs,
        keys,
    })
}

// Closes a server whose workers have ended, and sums their replies. `unassigned` has the unassigned
// shares that their change counters were split from.
fn close<B: Books, D: Device, K: Store + Drop, X: Drop>(
    server: Locked<'_, B, D, K>,
    mut unassigned: Unassigned<B>,
    ended: EndedOf<X, Tallies<B>, ServerOf<B>>,
) -> Fed<X>
    requires { unassigned.parts + vec_len ended.shares + 1 ≡ B.parts }
    ensures counted { HasCountedAll B.first.shards result.closed }
    ensures given { result.given ≡ ended.given }
    ensures workers { result.has_workers ≡ ended.has_workers }
    ensures replies { result.replies ≡ both_replies (replies_of ended.shares.items) (replies_by ended.own) }
    ensures order { 10 + (vec_len ended.shares + 1) ≡ B.first_job → All (λ s. IsRightWorker B.first_job s.log) ended.shares.items → HasRightOrder B.first_job ended.own.log
        → HaveSavedLegalOrder K.Store B.first B.stored (logs_of ended.shares.items ended.own) result.closed }
{
    let Ended {
        given,
        has_workers,
        own,
        shares,
    } = ended;
    let replies = Replies::of(&shares).plus(Replies::by(&own));
    let tracks = server.merge_each(&mut unassigned, own, shares);
    let closed = server.close(&mut unassigned, tracks);
    Fed {
        given,
        has_workers,
        replies,
        closed,
    }
}

// Runs a worker for each change counter except the last, and the driver with the last. Each has one
// of the logs. The workers and the driver return one share for each change counter. If no worker
// was started, that is written to `err`. Returns `AllocError` if memory can't be allocated.
fn run_at<
    B: Bench + Sync,
    R: Threads + Wait + Sync,
    W: Wire + Sync,
    M: TimeSource + Sync,
    D: Device + Sync,
    C: Recorder + Sync,
    E: Write,
    X: Drop,
    F: Driver<X> + Drop,
>(
    rt: &R,
    alloc: Global,
    err: &mut E,
    pool: &Pool<'_, W, M, D, C>,
    bench: &B,
    tallies: Vec<B::Tallies>,
    logs: Vec<TrackLog<B::Book>>,
    keys: JobKeys<B::Book>,
    driver: F,
) -> Result<EndedOf<X, B::Tallies, B::Book>, AllocError>
where
    B::Tallies: Send,
    B::Book: Send,
    requires some { 0 < vec_len tallies }
    requires logs { vec_len logs ≡ vec_len tallies }
    requires new_logs { All IsNewLog logs.items }
    requires keys { keys ≡ first_brought B.Book.first_job }
    ensures shares { IfOk result (λ ended. vec_len ended.shares + 1 ≡ vec_len tallies) }
    ensures right { IfOk result (λ ended. All (λ s. IsRightWorker B.Book.first_job s.log) ended.shares.items) }
    ensures order { IfOk result (λ ended. HasRightOrder B.Book.first_job ended.own.log) }
    ensures fed { let worker_view = open_view B.changes B.ended B.called B.logged M.is_time M.is_random (IsRecorded C.recorded) W.called in
        IfOk result (λ ended. IsFed worker_view B.Book.first_job (F.drives _) (offload_where ended.has_workers pool.now.offload) driver ended.given ended.own ended.shares.items) }
{
    let (jobs, sent, mut seats) = make_seats(alloc, tallies, logs)?;
    let Some(own) = seats.pop() else {
        unreachable!();
    };
    let wire = Counting {
        wire: pool.wire,
        ended: AtomicU64::new(0),
    };
    let gate = RecordingGate {
        recorder: pool.recorder,
    };
    let context = Context {
        rt,
        alloc,
        bench,
        gate: &gate,
        wire: &wire,
        times: pool.times,
    };
    let (context, channel, ended) = (&context, &jobs, &wire.ended);
    let offload = pool.offload;
    let ((given, has_workers, own), shares) = drive_workers(
        context,
        channel,
        seats,
        move |has_workers| -> (X, bool, ShareOf<B::Tallies, B::Book>)
            requires sent { sent ≡ nothing_sent channel.now }
            requires got { own.got ≡ nothing_got channel.now }
            requires new_log { IsNewLog own.log }
            requires keys { keys ≡ first_brought B.Book.first_job }
            ensures { let worker_view = open_view B.changes B.ended B.called B.logged M.is_time M.is_random (IsRecorded C.recorded) W.called in
                DrivesTo worker_view B.Book.first_job (F.drives _) channel.entry.now (offload_where result.1 offload) driver result.0 result.2 × HasRightOrder B.Book.first_job result.2.log }
        {
            if !has_workers {
                tell_alone(err);
            }
            let offload = offload_where(has_workers, offload);
            let ingress = PooledIngress {
                dispatcher: Dispatcher::new(context, channel, sent, own, keys, offload),
                begun: 0,
                ended,
            };
            let Driven { ingress, given } = driver.drive(rt, ingress);
            (given, has_workers, ingress.close())
        },
    );
    Ok(Ended {
        given,
        has_workers,
        own,
        shares: shares?,
    })
}

// Returns the dispatch policy: `offload`, or `Never` if no worker was started.
fn offload_where(has_workers: bool, offload: Offload) -> Offload
    ensures { result ≡ offload_where has_workers offload }
{
    if has_workers { offload } else { Offload::Never }
}

// Reports to `err` that there is no worker. A failed write is ignored.
fn tell_alone<E: Write>(err: &mut E) {
    let _told = writeln!(
        err,
        "no worker could be started: the receiving thread works all jobs off"
    );
}
