//! A run of a traced pool: a new server, its threads, and the trace of their calls.
ghost use Rattle.std.specs.Prelude.{◌≡◌, ◌+◌, IfOk, vec_len};
ghost use Rattle.std.specs.List.{All};
ghost use Rattle.fc_backend.specs.Messages.{first_brought};
ghost use Rattle.fc_locked.specs.Naming.{AreNamed};
ghost use Rattle.fc_backend.specs.Logs.{IsNewLog};

use crate::call_trace::CallTrace;
use crate::clients::Clients;
use crate::refusing_store::RefusingStore;
use crate::threads::{PoolShares, PoolSharesOf, run_threads};
use crate::traced_run::TracedRun;
use fc_backend::{JobKeys, TrackLog};
use fc_filed::NewServerBook;
use fc_front::{DEFAULT_POLICY, Policy};
use fc_locked::{Blanks, Books, ClosedServer, Locked, ReadyStore, ServerOf, Tallies, Unassigned};
use fc_server::{Begin, FirstServer};
use fc_store::Store;
use fc_workers::Offload;
use std::alloc::{AllocError, Global};
use std::marker::Brand;
use std::sync::Wait;
use std::thread::Threads;
use std::time::Clock;

/// The first line of the events, which has the initial state of each traced server.
pub(crate) const BEGIN_LINE: &[u8] =
    b"Begin serial=0 id=0 managers=0.0.0.0/0 exchanges=1024 share=1024 confirm-after=60\n";

/// The initial state of each traced server. A notification is confirmable after a minute.
const BEGIN: Begin = Begin {
    serial: 0,
    id: 0,
    policy: Policy {
        confirm_after: 60_000,
        ..DEFAULT_POLICY
    },
};

/// The trace of a pool that has ended, and the closed server.
#[derive(Drop)]
pub(crate) struct Traced {
    pub(crate) trace: CallTrace,
    pub(crate) closed: ClosedServer,
    /// The number of conflicts that the workers counted.
    pub(crate) conflicts: u64,
}

// A server whose workers haven't been started.
#[derive(Drop)]
struct Begun<'c, B: Books> {
    server: Locked<'c, B, Clients, RefusingStore>,
    unassigned: Unassigned<B>,
    tallies: Vec<Tallies<B>>,
    logs: Vec<TrackLog<ServerOf<B>>>,
    keys: JobKeys<ServerOf<B>>,
}

// A closed server, and the number of its workers' conflicts.
#[derive(Drop)]
struct Ended {
    closed: ClosedServer,
    conflicts: u64,
}

/// Runs a pool of three workers and a driver on a new server, and traces their calls.
///
/// # Errors
/// Returns an error if memory can't be allocated.
pub(crate) fn run_traced<R: Threads + Wait + Clock + Sync>(
    rt: &R,
    alloc: Global,
    requests: u32,
    offload: Offload,
) -> Result<Traced, AllocError> {
    let book = new_book(alloc)?;
    let blanks = Blanks::new(5);
    let run = TracedRun::new(alloc, requests, offload);
    let store = RefusingStore::ready(alloc)?;
    let Ended { closed, conflicts } = run_named::<Brand, R>(rt, &run, store, blanks, book)?;
    Ok(Traced {
        trace: run.into_trace(),
        closed,
        conflicts,
    })
}

// Makes a new server, and the book of its calls: those of three workers and a driver. Returns
// `AllocError` if memory can't be allocated.
fn new_book(alloc: Global) -> Result<NewServerBook, AllocError>
    ensures { IfOk result (λ b. b.first_job ≡ 10 + 4) }
{
    let first = FirstServer::new(alloc, &BEGIN)?;
    NewServerBook::new(alloc, 4, first)
}

// Runs a pool, with a server that has these ledgers, this store and this book of calls. Returns
// `AllocError` if memory can't be allocated.
fn run_named<B: Books + Send + Sync, R: Threads + Wait + Clock + Sync>(
    rt: &R,
    run: &TracedRun,
    store: ReadyStore<RefusingStore>,
    blanks: Blanks,
    book: NewServerBook,
) -> Result<Ended, AllocError>
    requires parts { blanks.parts ≡ 5 }
    requires names { AreNamed blanks B.names }
    requires books { blanks.parts ≡ B.parts }
    requires table { book.table ≡ B.table }
    requires book_threads { book.first_job ≡ 10 + 4 }
    requires threads { book.first_job ≡ B.first_job }
    requires server { book.first ≡ B.first }
    requires persistent { B.persistent ≡ ⟦<RefusingStore as Store>⟧.persistent }
    requires stored { ⟦<RefusingStore as Store>⟧.stored store ≡ B.stored }
{
    let Begun {
        server,
        unassigned,
        tallies,
        logs,
        keys,
    } = begin::<B>(run, store, blanks, book)?;
    let shares = run_threads(rt, run, &server, tallies, logs, keys)?;
    Ok(close(server, unassigned, shares))
}

// Makes a server, the tallies and logs of its workers and driver, the keys of its jobs, and the
// unassigned shares. Returns `AllocError` if memory for them can't be allocated.
fn begin<'c, B: Books>(
    run: &'c TracedRun,
    store: ReadyStore<RefusingStore>,
    blanks: Blanks,
    book: NewServerBook,
) -> Result<Begun<'c, B>, AllocError>
    requires parts { blanks.parts ≡ 5 }
    requires names { AreNamed blanks B.names }
    requires books { blanks.parts ≡ B.parts }
    requires table { book.table ≡ B.table }
    requires book_threads { book.first_job ≡ 10 + 4 }
    requires threads { book.first_job ≡ B.first_job }
    requires server { book.first ≡ B.first }
    requires persistent { B.persistent ≡ ⟦<RefusingStore as Store>⟧.persistent }
    requires stored { ⟦<RefusingStore as Store>⟧.stored store ≡ B.stored }
    ensures count { IfOk result (λ b. vec_len b.tallies ≡ 4) }
    ensures logs { IfOk result (λ b. vec_len b.logs ≡ vec_len b.tallies) }
    ensures new_logs { IfOk result (λ b. All IsNewLog b.logs.items) }
    ensures keys { IfOk result (λ b. b.keys ≡ first_brought B.first_job) }
    ensures parts { IfOk result (λ b. b.unassigned.parts + vec_len b.tallies ≡ B.parts) }
{
    let (server, mut unassigned, logs, keys) = Locked::<B, Clients, RefusingStore>::new(
        run.alloc,
        &run.clients,
        store,
        blanks,
        book,
    )?;
    let tallies = unassigned.split_each(run.alloc, 4)?;
    Ok(Begun {
        server,
        unassigned,
        tallies,
        logs,
        keys,
    })
}

// Closes a server whose workers and driver have ended with these statistics.
fn close<B: Books>(
    server: Locked<'_, B, Clients, RefusingStore>,
    mut unassigned: Unassigned<B>,
    shares: PoolSharesOf<Tallies<B>, ServerOf<B>>,
) -> Ended
    requires { unassigned.parts + vec_len shares.workers + 1 ≡ B.parts }
{
    let conflicts = shares.conflicts();
    let PoolShares { workers, driver } = shares;
    let tracks = server.merge_each(&mut unassigned, driver, workers);
    let closed = server.close(&mut unassigned, tracks);
    Ended { closed, conflicts }
}
