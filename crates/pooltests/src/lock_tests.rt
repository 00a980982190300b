//! Separate locks: the actions of a worker while the lock of a shard is held.
ghost use Rattle.std.specs.Prelude.{◌≡◌};

use crate::driver::{Deliver, Request, datagram};
use crate::overtaking_tests::{CREATED, Crew, Drive, Held, Replies, Reply, Trial, hold, work_fed};
use coap_msg::Emission;
use fc_backend::{Bench, CallLog, Device, Gate};
use fc_calls::ShardCall;
use fc_fixtures::images::COUNTER;
use fc_locked::{Books, Locked};
use fc_registry::Shard;
use fc_store::Store;
use fc_ticket::{Job, SlotNumber};
use std::alloc::{AllocError, Global};
use std::sync::Wait;
use std::test::Fail;
use std::thread::Threads;
use std::time::Clock;

// 2.03 (Valid), the code of a response to a GET (RFC 7252, section 12.1.2).
const VALID: u8 = 0x43;

// 2.05 (Content), the code of a response to a GET (RFC 7252, section 12.1.2).
const CONTENT: u8 = 0x45;

// A call of a shard that runs `call` while the shard's lock is held, and doesn't change the shard.
#[derive(Drop)]
struct WhileHeld<F: Drop> {
    call: F,
}

impl<X, F: FnOnce() -> X + Drop> ShardCall for WhileHeld<F> {
    type Answer = X;

    type Room = ();

    ghost may_ask = { λ held shard. F.pre held.call };

    ghost does = { λ held before answer room after. F.post held.call answer × (after ≡ before) };

    fn call(self, shard: &mut Shard, _: &mut ()) -> X {
        let _ = shard;
        let WhileHeld { call } = self;
        call()
    }
}

// A backend on which a test can hold the lock of a shard while `call` runs.
pub(crate) trait Locks: Bench {
    fn hold<X, F: FnOnce() -> X + Drop, R: Wait>(&self, rt: &R, shard: u8, call: F) -> X
        requires { F.pre call }
        ensures { F.post call result };
}

impl<'a, B: Books, D: Device, K: Store + Drop> Locks for Locked<'a, B, D, K> {
    fn hold<X, F: FnOnce() -> X + Drop, R: Wait>(&self, rt: &R, shard: u8, call: F) -> X {
        self.inspect(rt, shard, WhileHeld { call }, &mut ())
    }
}

// Hooks that do nothing.
#[derive(Drop)]
pub(crate) struct Open;

impl Gate for Open {
    fn between<R: Wait>(&self, rt: &R, number: u64, log: &mut CallLog) {
        let _ = rt;
        let _ = number;
        let _ = log;
    }

    fn after_answer(&self, job: &Job, has_reply: bool, reply: &Emission, log: &mut CallLog) {
        let _ = job;
        let _ = has_reply;
        let _ = reply;
        let _ = log;
    }
}

// A trial that installs a program in slot 1, and sends a GET of that slot while the lock of `shard`
// is held. If `serial` is given, the GET has the ETag of that serial.
#[derive(Drop)]
pub(crate) struct ShardHeld {
    pub(crate) shard: u8,
    pub(crate) serial: Option<u64>,
}

impl ShardHeld {
    // Runs the trial with these workers. Returns the responses and the counts.
    pub(crate) fn hold<B: Locks + Sync, R: Threads + Wait + Clock + Sync>(
        &self,
        rt: &R,
        alloc: Global,
        bench: &B,
        crew: Crew<B::Tallies, B::Book>,
    ) -> anyhow::Result<Held<B::Tallies>>
    where
        B::Tallies: Send,
        B::Book: Send,
    {
        let replies = Replies::new();
        let drive = HeldDrive {
            alloc,
            bench,
            held: self,
        };
        let shares = work_fed(rt, alloc, bench, crew, &Open, &replies, &drive)?;
        replies.seen(alloc, shares)
    }
}

// The requests of such a trial, on a backend whose locks can be held.
#[derive(Drop)]
struct HeldDrive<'a, B: Locks> {
    alloc: Global,
    bench: &'a B,
    held: &'a ShardHeld,
}

impl<'a, B: Locks> Drive for HeldDrive<'a, B> {
    // Installs the counter, and sends a GET. Holds the lock until the GET is answered, or until
    // many checks have found no response.
    fn drive<D: Deliver + Drop, R: Wait + Clock>(
        &self,
        rt: &R,
        mut driver: D,
        replies: &Replies,
    ) -> Result<(), AllocError> {
        let slot = SlotNumber::new(1);
        driver.ask(0, Request::Put(COUNTER), 0, slot)?;
        replies.wait_for(rt, rt, 0);
        let request = match self.held.serial {
            Some(serial) => Request::Valid(serial),
            None => Request::Get,
        };
        let bytes = datagram(self.alloc, request, 1, slot)?;
        let _sent = self.bench.hold(rt, self.held.shard, || -> bool {
            let sent = driver.deliver(0, &bytes);
            replies.wait_for(rt, rt, 1);
            sent
        });
        Ok(())
    }
}

// Returns whether a worker answers the GET with this code while the lock is held.
fn is_answered<R: Threads + Wait + Clock + Sync>(
    rt: &R,
    alloc: Global,
    held: ShardHeld,
    code: u8,
) -> anyhow::Result<bool> {
    let trial = Trial::ShardHeld(held);
    let held = hold(rt, alloc, 1, &trial)?;
    let wanted = [(0, CREATED), (1, code)].map(|it| Reply {
        job: it.0,
        code: it.1,
    });
    Ok(held.replies.as_slice() == wanted.as_slice())
}

// While the lock of shard 0 is held, a worker answers a GET of slot 1, which belongs to shard 1.
#[test]
fn another_shards_lock_holds_nobody_up(rt: HostRuntime) -> Result<(), Fail> {
    let held = ShardHeld {
        shard: 0,
        serial: None,
    };
    assert!(rt; is_answered(&rt, rt.alloc(), held, CONTENT)?);
    Ok(())
}

// While the lock of shard 1 is held, a worker answers a GET of slot 1 with the ETag of the slot's
// serial. Such a GET takes the lock of no shard.
#[test]
fn a_valid_state_takes_no_shards_lock(rt: HostRuntime) -> Result<(), Fail> {
    let held = ShardHeld {
        shard: 1,
        serial: Some(1),
    };
    assert!(rt; is_answered(&rt, rt.alloc(), held, VALID)?);
    Ok(())
}
