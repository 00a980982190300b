//! The parts that the threads of a traced pool share, in addition to the server.
use crate::call_trace::CallTrace;
use crate::clients::Clients;
use fc_workers::Offload;
use std::alloc::Global;
use std::sync::Mutex;
use std::sync::atomic::{AtomicUsize, Ordering};

/// A run of a traced pool: its trace, its clients, its dispatch policy, and its size.
#[derive(Drop)]
pub(crate) struct TracedRun {
    pub(crate) alloc: Global,
    pub(crate) trace: Mutex<CallTrace>,
    pub(crate) clients: Clients,
    pub(crate) offload: Offload,
    /// The number of requests that the clients send.
    pub(crate) requests: u32,
    // The number of the next worker's thread, from 1.
    next: AtomicUsize,
}

impl TracedRun {
    /// Makes a run that hasn't begun.
    pub(crate) fn new(alloc: Global, requests: u32, offload: Offload) -> TracedRun {
        TracedRun {
            alloc,
            trace: Mutex::new(CallTrace::new(alloc)),
            clients: Clients::new(alloc),
            offload,
            requests,
            next: AtomicUsize::new(1),
        }
    }

    /// Returns the number of the next worker's thread.
    pub(crate) fn next_thread(&self) -> usize {
        self.next.fetch_add(1, Ordering::SeqCst)
    }

    /// Ends the run, and returns the trace.
    pub(crate) fn into_trace(self) -> CallTrace {
        let TracedRun { trace, .. } = self;
        trace.into_inner()
    }
}
