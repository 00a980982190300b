//! Servers of tests without a store, which start with empty slots; consoles of clients.
use fc_config::options::{DEFAULT_EXTENT, Extent};
use fc_fetch::Console;
use fc_front::Policy;
use fc_host::sensors::Sensors;
use fc_host::socket::{Sink, Source};
use fc_record::{Recorder, Reporter};
use fc_service::serve::{Records, Service, serve_at};
use fc_service::slots::Slots;
use fc_store::NoStore;
use log::Log;
use std::alloc::{AllocError, Global};
use std::io::Write;
use std::sync::Wait;
use std::thread::Threads;
use std::time::Clock;

/// Makes a console that keeps what is written to it.
pub(crate) fn captured(alloc: Global) -> Console<Vec<u8>, Vec<u8>> {
    Console {
        alloc,
        out: Vec::new(alloc),
        err: Vec::new(alloc),
    }
}

/// Returns the extent of a server with this number of workers, which ends after `limit` datagrams.
///
/// All else of it is the default.
pub(crate) fn extent_of(workers: u8, limit: u32) -> Extent {
    Extent {
        workers,
        limit,
        ..DEFAULT_EXTENT
    }
}

/// Returns empty slots of a server that starts at `started`, in milliseconds since 1970.
///
/// The server has the policy, draws the message ID 0 first, and has no store.
pub(crate) fn slots_without_store(
    alloc: Global,
    started: u64,
    policy: &Policy,
) -> Result<Slots<NoStore>, AllocError> {
    Slots::empty(alloc, started, 0, policy)
}

/// Serves as `serve_at` does, with the slots of [`slots_without_store`] for the beginning of 1970.
///
/// Returns `None` too if memory for the slots can't be allocated.
pub(crate) fn serve_without_store<
    R: Threads + Wait + Clock + Sync,
    S: Source + Drop,
    K: Sink + Sync,
    L: Log,
    C: Recorder + Sync,
    Q: Reporter + Sync,
    E: Write,
    Z: Sensors + Sync,
>(
    rt: &R,
    alloc: Global,
    records: &Records<'_, L, C, Q>,
    err: &mut E,
    sensors: &Z,
    source: S,
    sink: &K,
    policy: &Policy,
    extent: Extent,
) -> Option<S> {
    let Ok(slots) = slots_without_store(alloc, 0, policy) else {
        return None;
    };
    let service = Service {
        alloc,
        records,
        sensors,
        timers: Vec::new(alloc),
        extent,
    };
    serve_at(rt, err, service, slots, source, sink)
}
