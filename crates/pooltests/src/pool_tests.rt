//! Pools: the state of a server after its workers have ended.
ghost use Rattle.std.specs.Prelude.{◌<◌};

use crate::driver::{PEER, Request, datagram};
use crate::overtaking_tests::{Bare, Replies};
use fc_fixtures::datagrams::PUT_EXPENSIVE;
use fc_fixtures::images::COUNTER;
use fc_front::DEFAULT_POLICY;
use fc_front::front::blank_emission;
use fc_locked::ClosedServer;
use fc_pool::{Driven, Driver, Pool, no_store, run_pool};
use fc_record::NoChanges;
use fc_server::{Begin, FirstServer, Ingress};
use fc_store::{StoredProgram, StoredSlot};
use fc_ticket::SlotNumber;
use fc_workers::Offload;
use std::alloc::{AllocError, Global};
use std::array::from_fn;
use std::sync::Wait;
use std::test::Fail;
use std::thread;
use std::thread::Threads;
use std::time::{Clock, Duration};

// A server whose slots begin at serial 7.
const AT_SEVEN: Begin = Begin {
    serial: 7,
    id: 0,
    policy: DEFAULT_POLICY,
};

// A driver that installs the counter in slots 1 and 9, which shard 1 owns, in slot 2, and in slot 9
// again.
#[derive(Drop)]
struct Installs {
    alloc: Global,
}

impl Driver<Result<(), AllocError>> for Installs {
    fn drive<N: Ingress, R: Wait>(
        self,
        rt: &R,
        mut ingress: N,
    ) -> Driven<N, Result<(), AllocError>> {
        let _ = rt;
        let given = self.install(&mut ingress);
        Driven { ingress, given }
    }
}

impl Installs {
    // Passes the datagrams to `ingress`. Returns `AllocError` if memory for one can't be allocated.
    fn install<N: Ingress>(&self, ingress: &mut N) -> Result<(), AllocError> {
        let mut reply = blank_emission();
        for (id, slot) in [(0, 1), (1, 9), (2, 2), (3, 9)] {
            let slot = SlotNumber::new(slot);
            let bytes = datagram(self.alloc, Request::Put(COUNTER), id, slot)?;
            let _handled = ingress.handle(0, PEER, &bytes, &mut reply);
        }
        Ok(())
    }
}

// Runs the driver `Installs` and two workers, on a server in the state `first`. Returns whether a
// worker was started, and the closed server.
fn installed<R: Threads + Wait + Clock + Sync>(
    rt: &R,
    alloc: Global,
    first: FirstServer,
) -> Result<(bool, ClosedServer), Fail> {
    let replies = Replies::new();
    let pool = Pool {
        workers: 2,
        offload: Offload::Every,
        wire: &replies,
        times: &replies,
        device: &Bare::new(),
        recorder: &NoChanges,
    };
    let mut err = Vec::new(alloc);
    let installs = Installs { alloc };
    let fed = run_pool(rt, alloc, &mut err, &pool, first, no_store(), installs)?;
    fed.given?;
    Ok((fed.has_workers, fed.closed))
}

// Returns the serials of the slots 1, 9, 17 and 2.
fn serials_in(closed: &ClosedServer) -> [u64; 4] {
    let [_, shard1, shard2, ..] = &closed.shards;
    [
        shard1.serial(SlotNumber::new(1)),
        shard1.serial(SlotNumber::new(9)),
        shard1.serial(SlotNumber::new(17)),
        shard2.serial(SlotNumber::new(2)),
    ]
}

// Each install is counted once, for the slot's shard, whichever worker makes it. Each install
// increases the slot's serial by 1.
#[test]
fn a_pool_counts_the_changes_of_each_shard(rt: HostRuntime) -> Result<(), Fail> {
    let first = FirstServer::new(rt.alloc(), &AT_SEVEN)?;
    let (has_workers, closed) = installed(&rt, rt.alloc(), first)?;
    assert!(rt; has_workers && closed.changes == [0, 3, 1, 0, 0, 0, 0, 0]);
    assert!(rt; serials_in(&closed) == [8, 9, 7, 8]);
    Ok(())
}

// Returns a server that is restored from stored slots. Slot 9 is stored at serial 5 with the
// counter; the other slots are stored as empty, at serial 0.
fn with_stored_counter(alloc: Global) -> Result<FirstServer, Fail> {
    let counter = StoredSlot {
        serial: 5,
        program: Some(StoredProgram {
            version: 3,
            image: Vec::from_slice(alloc, COUNTER)?,
            vars: Vec::from_slice(alloc, &[0; 8])?,
        }),
    };
    let mut stored: [StoredSlot; 64] = from_fn(|_| StoredSlot::blank());
    stored[9] = counter;
    let Ok(first) = FirstServer::over(alloc, &stored, 0, &DEFAULT_POLICY) else {
        return Err("the slots are restored".into());
    };
    Ok(first)
}

// A pool that begins with stored slots goes on from their serials.
#[test]
fn a_pool_goes_on_from_stored_slots(rt: HostRuntime) -> Result<(), Fail> {
    let first = with_stored_counter(rt.alloc())?;
    assert!(rt; first.heads().peek(SlotNumber::new(9)) == 11);
    let (_has_workers, closed) = installed(&rt, rt.alloc(), first)?;
    assert!(rt; closed.changes == [0, 3, 1, 0, 0, 0, 0, 0]);
    assert!(rt; serials_in(&closed) == [1, 7, 0, 1]);
    Ok(())
}

// The results of a driver that waits until a job is sent to a worker.
#[derive(Drop)]
struct Priced {
    // The number of GETs of slot 1, of which the last was sent to the worker.
    gets: usize,
    // The number of jobs that were sent to the worker at that time, and at the end.
    first: u64,
    all: u64,
}

// A driver that installs an expensive program in slot 1 and the counter in slot 0. It passes GETs
// of slot 1 until one is sent to a worker. Then it passes a GET of slot 1 with a valid ETag, and a
// GET of slot 0.
#[derive(Drop)]
struct Prices<'c, C: Clock> {
    alloc: Global,
    clock: &'c C,
}

impl<'c, C: Clock> Driver<Result<Priced, AllocError>> for Prices<'c, C> {
    fn drive<N: Ingress, R: Wait>(
        self,
        rt: &R,
        mut ingress: N,
    ) -> Driven<N, Result<Priced, AllocError>> {
        let _ = rt;
        let given = self.price(&mut ingress);
        Driven { ingress, given }
    }
}

impl<'c, C: Clock> Prices<'c, C> {
    // Passes the datagrams to `ingress`. Returns `AllocError` if memory for one can't be allocated.
    fn price<N: Ingress>(&self, ingress: &mut N) -> Result<Priced, AllocError> {
        let mut reply = blank_emission();
        let _handled = ingress.handle(0, PEER, PUT_EXPENSIVE, &mut reply);
        self.ask(ingress, Request::Put(COUNTER), 0, 0)?;
        let gets = self.get_until_sent(ingress)?;
        let first = ingress.gauges(0).offloaded;
        self.ask(ingress, Request::Valid(8), 0xfffe, 1)?;
        self.ask(ingress, Request::Get, 0xffff, 0)?;
        Ok(Priced {
            gets,
            first,
            all: ingress.gauges(0).offloaded,
        })
    }

    // Passes GETs of slot 1 to `ingress`, one each millisecond, until one is sent to a worker.
    // Returns their number, at most 1,000.
    fn get_until_sent<N: Ingress>(&self, ingress: &mut N) -> Result<usize, AllocError> {
        let mut gets = 0usize;
        for id in 2..1002 {
            if ingress.gauges(0).offloaded > 0 {
                break;
            }
            thread::sleep(self.clock, Duration::from_millis(1));
            self.ask(ingress, Request::Get, id, 1)?;
            gets = gets.saturating_add(1);
        }
        Ok(gets)
    }

    // Passes a request's datagram to `ingress`.
    fn ask<N: Ingress>(
        &self,
        ingress: &mut N,
        request: Request<'_>,
        id: u16,
        slot: u8,
    ) -> Result<(), AllocError>
        requires { slot < 64 }
    {
        let mut reply = blank_emission();
        let bytes = datagram(self.alloc, request, id, SlotNumber::new(slot))?;
        let _handled = ingress.handle(0, PEER, &bytes, &mut reply);
        Ok(())
    }
}

// Runs the driver `Prices` and one worker, which gets expensive jobs. Returns the results of the
// driver, and the number of times that the device was read.
fn run_prices<R: Threads + Wait + Clock + Sync>(
    rt: &R,
    alloc: Global,
) -> Result<(Priced, usize), Fail> {
    let replies = Replies::new();
    let device = Bare::new();
    let pool = Pool {
        workers: 1,
        offload: Offload::Expensive(6_000),
        wire: &replies,
        times: &replies,
        device: &device,
        recorder: &NoChanges,
    };
    let mut err = Vec::new(alloc);
    let prices = Prices { alloc, clock: rt };
    let first = FirstServer::new(alloc, &AT_SEVEN)?;
    let fed = run_pool(rt, alloc, &mut err, &pool, first, no_store(), prices)?;
    Ok((fed.given?, device.count()))
}

// For a job that is run on the receiving thread, the device is read once. For one that is sent it
// is read twice: for the snapshot that isn't taken here, and for the worker's. A job whose ETag
// matches takes no snapshot, and isn't sent.
#[test]
fn the_device_is_read_again_for_a_sent_job(rt: HostRuntime) -> Result<(), Fail> {
    let (Priced { gets, first, all }, readings) = run_prices(&rt, rt.alloc())?;
    assert!(rt; first == 1 && all == 1);
    assert!(rt; readings == gets.saturating_add(2));
    Ok(())
}

// A driver that installs an expensive program in slot 1, and passes GETs of slot 1 until a job is
// sent to a worker. Then it passes a PUT, a POST, a GET and a DELETE for slot 0, which is empty at
// first. Returns which of these four were sent to the worker.
#[derive(Drop)]
struct Changes<'c, C: Clock> {
    prices: Prices<'c, C>,
}

impl<'c, C: Clock> Driver<Result<[bool; 4], AllocError>> for Changes<'c, C> {
    fn drive<N: Ingress, R: Wait>(
        self,
        rt: &R,
        mut ingress: N,
    ) -> Driven<N, Result<[bool; 4], AllocError>> {
        let _ = rt;
        let given = self.change(&mut ingress);
        Driven { ingress, given }
    }
}

impl<'c, C: Clock> Changes<'c, C> {
    // Passes the datagrams to `ingress`. Returns `AllocError` if memory for one can't be allocated.
    fn change<N: Ingress>(&self, ingress: &mut N) -> Result<[bool; 4], AllocError> {
        let mut reply = blank_emission();
        let _handled = ingress.handle(0, PEER, PUT_EXPENSIVE, &mut reply);
        let _gets = self.prices.get_until_sent(ingress)?;
        Ok([
            self.is_sent(ingress, Request::Put(COUNTER), 0xfffc)?,
            self.is_sent(ingress, Request::Post, 0xfffd)?,
            self.is_sent(ingress, Request::Get, 0xfffe)?,
            self.is_sent(ingress, Request::Delete, 0xffff)?,
        ])
    }

    // Passes a request for slot 0 to `ingress`. Returns whether its job was sent to a worker.
    fn is_sent<N: Ingress>(
        &self,
        ingress: &mut N,
        request: Request<'_>,
        id: u16,
    ) -> Result<bool, AllocError> {
        let sent = ingress.gauges(0).offloaded;
        self.prices.ask(ingress, request, id, 0)?;
        Ok(ingress.gauges(0).offloaded > sent)
    }
}

// Returns which of the four requests of `Changes` are sent to a worker by this policy.
fn sent_by<R: Threads + Wait + Clock + Sync>(
    rt: &R,
    alloc: Global,
    offload: Offload,
) -> Result<[bool; 4], Fail> {
    let replies = Replies::new();
    let pool = Pool {
        workers: 1,
        offload,
        wire: &replies,
        times: &replies,
        device: &Bare::new(),
        recorder: &NoChanges,
    };
    let mut err = Vec::new(alloc);
    let changes = Changes {
        prices: Prices { alloc, clock: rt },
    };
    let first = FirstServer::new(alloc, &AT_SEVEN)?;
    let store = no_store();
    let fed = run_pool(rt, alloc, &mut err, &pool, first, store, changes)?;
    Ok(fed.given?)
}

// The policy of changes sends each job that may change a slot to a worker that has asked for a job,
// and keeps a cheap GET. The policy of expensive programs keeps all four jobs.
#[test]
fn changes_are_sent_whatever_they_cost(rt: HostRuntime) -> Result<(), Fail> {
    let changes = sent_by(&rt, rt.alloc(), Offload::ChangesAndExpensive(6_000))?;
    assert!(rt; changes == [true, true, false, true]);
    let expensive = sent_by(&rt, rt.alloc(), Offload::Expensive(6_000))?;
    assert!(rt; expensive == [false, false, false, false]);
    Ok(())
}
