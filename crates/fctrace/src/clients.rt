//! The clients' side of a traced pool: what they receive, the clock, and the device.
use coap_msg::Emission;
use fc_backend::{CallLog, Device, Gate, TimeSource, Wire};
use fc_help::{READINGS, Readings};
use fc_ticket::Job;
use std::alloc::Global;
use std::sync::atomic::{AtomicU64, Ordering};
use std::sync::{Mutex, Wait};

/// The number of slots that the clients use.
pub(crate) const USED_SLOTS: usize = 16;

/// The first option of a response with an ETag of eight bytes (RFC 7252, sections 3.1 and 5.10.6).
const ETAG: u8 = 0x48;

/// The first four bits of a confirmable message (RFC 7252, section 3).
const CONFIRMABLE: u8 = 4;

/// A confirmable notification that a client received: the client's number and the message ID.
#[derive(Clone, Copy)]
pub(crate) struct Notified {
    pub(crate) client: u8,
    pub(crate) id: [u8; 2],
}

/// The datagrams that the clients received, as far as their next requests need them.
#[derive(Drop)]
struct Received {
    notified: Vec<Notified>,
    etags: [[u8; 8]; USED_SLOTS],
}

/// The clients of a pool, with the pool's clock and device.
///
/// A request's token is the number of its slot.
#[derive(Drop)]
pub(crate) struct Clients {
    received: Mutex<Received>,
    now: AtomicU64,
    calls: AtomicU64,
}

impl Clients {
    pub(crate) fn new(alloc: Global) -> Clients {
        Clients {
            received: Mutex::new(Received {
                notified: Vec::new(alloc),
                etags: [[0; 8]; USED_SLOTS],
            }),
            now: AtomicU64::new(0),
            calls: AtomicU64::new(0),
        }
    }

    /// Advances the clock by some milliseconds, and returns the time.
    pub(crate) fn advance(&self, step: u64) -> u64 {
        self.now
            .fetch_add(step, Ordering::SeqCst)
            .saturating_add(step)
    }

    /// Receives a datagram of the server.
    pub(crate) fn receive<R: Wait>(&self, rt: &R, emission: &Emission) {
        let mut received = self.received.lock(rt);
        received.add(emission.to.ip[3], emission.bytes.as_slice());
    }

    /// Returns a confirmable notification that no client has acknowledged, and removes it.
    pub(crate) fn next_notified<R: Wait>(&self, rt: &R) -> Option<Notified> {
        self.received.lock(rt).notified.pop()
    }

    /// Returns the last ETag that a client received for a slot.
    pub(crate) fn etag<R: Wait>(&self, rt: &R, slot: u8) -> [u8; 8] {
        let received = self.received.lock(rt);
        match received.etags.get(usize::from(slot)) {
            Some(etag) => *etag,
            None => [0; 8],
        }
    }
}

impl Received {
    // Adds a datagram that a client received.
    fn add(&mut self, client: u8, bytes: &[u8]) {
        let [head, _, high, low, token, rest @ ..] = bytes else {
            return;
        };
        if *head >> 4 == CONFIRMABLE {
            let id = [*high, *low];
            let _added = self.notified.push(Notified { client, id });
        }
        self.add_etag(*token, rest);
    }

    // Adds the ETag of a response, if the response's options begin with one.
    fn add_etag(&mut self, slot: u8, options: &[u8]) {
        let [ETAG, a, b, c, d, e, f, g, h, ..] = options else {
            return;
        };
        if let Some(etag) = self.etags.get_mut(usize::from(slot)) {
            *etag = [*a, *b, *c, *d, *e, *f, *g, *h];
        }
    }
}

impl Wire for Clients {
    fn send<R: Wait>(&self, rt: &R, number: u64, emission: &Emission, log: &mut CallLog) -> bool {
        let _ = number;
        let _ = log;
        self.receive(rt, emission);
        true
    }

    fn ended<R: Wait>(&self, rt: &R, number: u64, log: &mut CallLog) {
        let _ = rt;
        let _ = number;
        let _ = log;
    }
}

impl TimeSource for Clients {
    fn now<R: Wait>(&self, rt: &R, log: &mut CallLog) -> u64 {
        let _ = rt;
        let _ = log;
        self.now.load(Ordering::SeqCst)
    }

    fn random<R: Wait>(&self, rt: &R) -> u16 {
        let _ = rt;
        (self.calls.fetch_add(40_503, Ordering::SeqCst) % 65_536) as u16
    }
}

/// Each snapshot gets other readings.
impl Device for Clients {
    fn readings<R: Wait>(&self, rt: &R, log: &mut CallLog) -> Readings {
        let _ = rt;
        let _ = log;
        let count = self.calls.fetch_add(1, Ordering::SeqCst);
        [(count % 256) as u8; READINGS]
    }
}

/// Hooks that do nothing.
#[derive(Drop)]
pub(crate) struct Open;

impl Gate for Open {
    fn between<R: Wait>(&self, rt: &R, number: u64, log: &mut CallLog) {
        let _ = rt;
        let _ = number;
        let _ = log;
    }

    fn after_answer(&self, job: &Job, has_reply: bool, reply: &Emission, log: &mut CallLog) {
        let _ = job;
        let _ = has_reply;
        let _ = reply;
        let _ = log;
    }
}
