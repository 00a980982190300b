//! A server with locks that saves its changes.
//!
//! A change is in the store before it is answered. If the store can't save a change, the request is
//! answered with 5.03, the slot is unchanged, and the next change goes on. While a change is saved,
//! the receiving thread handles other requests.
ghost use Rattle.std.specs.Prelude.{◌<◌};

use crate::driver::{PEER, Request, datagram};
use crate::overtaking_tests::{Bare, Replies};
use coap_msg::Emission;
use fc_backend::{CallLog, Wire};
use fc_fixtures::images::COUNTER;
use fc_front::DEFAULT_POLICY;
use fc_front::front::blank_emission;
use fc_locked::ReadyStore;
use fc_pool::{Driven, Driver, Pool, run_pool};
use fc_record::NoChanges;
use fc_server::{Begin, FirstServer, Ingress};
use fc_store::{MemoryStore, ProgramUpdate, SlotUpdate, Store, StoredProgram, StoredSlot};
use fc_ticket::SlotNumber;
use fc_workers::Offload;
use std::alloc::{AllocError, Global};
use std::array::from_fn;
use std::sync::Wait;
use std::sync::atomic::{AtomicBool, AtomicU64, Ordering};
use std::test::Fail;
use std::thread;
use std::thread::Threads;
use std::time::{Clock, Duration};

// The codes of responses (RFC 7252, section 12.1.2).
const CREATED: u8 = 0x41;

const DELETED: u8 = 0x42;

const VALID: u8 = 0x43;

const CHANGED: u8 = 0x44;

const CONTENT: u8 = 0x45;

const NOT_FOUND: u8 = 0x84;

const UNAVAILABLE: u8 = 0xa3;

// What a test sees of a store that a server owns: the updates that were saved, as digits. The last
// digit is the last save's: 1 for an install, 2 for a commit, 3 for a removal, and 9 for a refusal.
#[derive(Drop)]
struct Saves {
    digits: AtomicU64,
    serial: AtomicU64,
}

impl Saves {
    fn new() -> Saves {
        Saves {
            digits: AtomicU64::new(0),
            serial: AtomicU64::new(0),
        }
    }

    // Notes a save of this kind, and returns the number of saves before it.
    fn note(&self, digit: u64) {
        let before = self.digits.load(Ordering::SeqCst);
        self.digits.store(
            before.saturating_mul(10).saturating_add(digit),
            Ordering::SeqCst,
        );
    }
}

// A store in memory whose saves a test can see. Each save whose number is in `refused`, from 0, is
// refused.
#[derive(Drop)]
struct SeenStore<'a> {
    memory: MemoryStore,
    saves: &'a Saves,
    refused: u64,
    count: u64,
}

impl<'a> Store for SeenStore<'a> {
    ghost use Rattle.std.specs.Prelude.{true};
    ghost use Rattle.fc_store.specs.Updates.{AreSameSlots};
    ghost use Rattle.fc_store.specs.Stored.{stored_in};

    ghost persistent = { true };

    ghost stored = { λ s. stored_in s.memory.slots.items };

    ghost may_recover = { λ s found. AreSameSlots found (stored_in s.memory.slots.items) };

    fn is_persistent(&self) -> bool {
        true
    }

    fn save(&mut self, update: &SlotUpdate<'_>) -> bool {
        self.memory.refuses = self.count == self.refused;
        self.count = self.count.saturating_add(1);
        let saved = self.memory.save(update);
        let digit = match update.program {
            ProgramUpdate::Install(..) => 1,
            ProgramUpdate::Commit(_) => 2,
            ProgramUpdate::Remove => 3,
        };
        self.saves.note(if saved { digit } else { 9 });
        if saved {
            self.saves.serial.store(update.serial, Ordering::SeqCst);
        }
        saved
    }
}

// A transmitter that keeps the codes of the last eight responses.
#[derive(Drop)]
struct Codes {
    all: AtomicU64,
}

impl Codes {
    // Returns the codes of the last six responses, in order.
    fn last_six(&self) -> [u8; 6] {
        let codes = self.all.load(Ordering::SeqCst).to_be_bytes();
        [codes[2], codes[3], codes[4], codes[5], codes[6], codes[7]]
    }
}

impl Wire for Codes {
    fn send<R: Wait>(&self, rt: &R, number: u64, emission: &Emission, log: &mut CallLog) -> bool {
        let _ = rt;
        let _ = number;
        let _ = log;
        let Some(&code) = emission.bytes.as_slice().get(1) else {
            return false;
        };
        let before = self.all.load(Ordering::SeqCst);
        self.all
            .store((before << 8) | u64::from(code), Ordering::SeqCst);
        true
    }

    fn ended<R: Wait>(&self, rt: &R, number: u64, log: &mut CallLog) {
        let _ = rt;
        let _ = number;
        let _ = log;
    }
}

// A driver that sends a PUT of the counter to slot 9, two POSTs, a GET, a DELETE and a GET.
#[derive(Drop)]
struct Changes {
    alloc: Global,
}

impl Driver<Result<(), AllocError>> for Changes {
    fn drive<N: Ingress, R: Wait>(
        self,
        rt: &R,
        mut ingress: N,
    ) -> Driven<N, Result<(), AllocError>> {
        let _ = rt;
        let given = self.send(&mut ingress);
        Driven { ingress, given }
    }
}

impl Changes {
    // Passes the datagrams to `ingress`. Returns `AllocError` if memory for one can't be allocated.
    fn send<N: Ingress>(&self, ingress: &mut N) -> Result<(), AllocError> {
        let mut reply = blank_emission();
        for id in 0..6u16 {
            let request = match id {
                0 => Request::Put(COUNTER),
                1 | 2 => Request::Post,
                4 => Request::Delete,
                _ => Request::Get,
            };
            let bytes = datagram(self.alloc, request, id, SlotNumber::new(9))?;
            let _handled = ingress.handle(0, PEER, &bytes, &mut reply);
        }
        Ok(())
    }
}

// The codes of the responses, the saves as digits, the last saved serial, and the slot's serial.
type Trial = ([u8; 6], u64, u64, u64);

// Runs the requests of `Changes` on a server that saves, whose slots begin at serial 7. The store
// refuses the save with the number `refused`.
fn run_trial<R: Threads + Wait + Sync>(rt: &R, alloc: Global, refused: u64) -> Result<Trial, Fail> {
    let saves = Saves::new();
    let codes = Codes {
        all: AtomicU64::new(0),
    };
    let pool = Pool {
        workers: 1,
        offload: Offload::Never,
        wire: &codes,
        times: &Replies::new(),
        device: &Bare::new(),
        recorder: &NoChanges,
    };
    let store = ReadyStore::new(SeenStore {
        memory: MemoryStore::new(alloc)?,
        saves: &saves,
        refused,
        count: 0,
    });
    let begin = Begin {
        serial: 7,
        id: 0,
        policy: DEFAULT_POLICY,
    };
    let first = FirstServer::new(alloc, &begin)?;
    let mut err = Vec::new(alloc);
    let fed = run_pool(rt, alloc, &mut err, &pool, first, store, Changes { alloc })?;
    fed.given?;
    let [_, shard1, ..] = &fed.closed.shards;
    Ok((
        codes.last_six(),
        saves.digits.load(Ordering::SeqCst),
        saves.serial.load(Ordering::SeqCst),
        shard1.serial(SlotNumber::new(9)),
    ))
}

// Each change is saved once, in its order, at the slot's next serial. A GET saves nothing.
#[test]
fn each_change_is_saved_once(rt: HostRuntime) -> Result<(), Fail> {
    let (codes, digits, saved, serial) = run_trial(&rt, rt.alloc(), 100)?;
    assert!(rt; codes == [CREATED, CHANGED, CHANGED, CONTENT, DELETED, NOT_FOUND]);
    assert!(rt; digits == 1223);
    assert!(rt; (saved, serial) == (11, 11));
    Ok(())
}

// An install that can't be saved is answered with 5.03, and the slot stays empty.
#[test]
fn an_unsaved_install_leaves_no_program(rt: HostRuntime) -> Result<(), Fail> {
    let (codes, digits, _, serial) = run_trial(&rt, rt.alloc(), 0)?;
    let [put, post, .., last] = codes;
    assert!(rt; [put, post, last] == [UNAVAILABLE, NOT_FOUND, NOT_FOUND]);
    assert!(rt; (digits, serial) == (9, 7));
    Ok(())
}

// A commit that can't be saved is answered with 5.03. The next commit goes on from the slot as it
// was.
#[test]
fn an_unsaved_commit_changes_nothing(rt: HostRuntime) -> Result<(), Fail> {
    let (codes, digits, saved, serial) = run_trial(&rt, rt.alloc(), 1)?;
    assert!(rt; codes == [CREATED, UNAVAILABLE, CHANGED, CONTENT, DELETED, NOT_FOUND]);
    assert!(rt; digits == 1923);
    assert!(rt; (saved, serial) == (10, 10));
    Ok(())
}

// A removal that can't be saved is answered with 5.03, and the program stays.
#[test]
fn an_unsaved_removal_leaves_the_program(rt: HostRuntime) -> Result<(), Fail> {
    let (codes, digits, saved, serial) = run_trial(&rt, rt.alloc(), 3)?;
    assert!(rt; codes == [CREATED, CHANGED, CHANGED, CONTENT, UNAVAILABLE, CONTENT]);
    assert!(rt; digits == 1229);
    assert!(rt; (saved, serial) == (10, 10));
    Ok(())
}

// The number of times that a wait of 1 ms is repeated, at most.
const TURNS: u64 = 10_000;

// Waits until `count` is at least `least`, for 10 s at most.
fn wait_for<C: Clock>(clock: &C, count: &AtomicU64, least: u64) {
    for _turn in 0..TURNS {
        if count.load(Ordering::SeqCst) >= least {
            return;
        }
        thread::sleep(clock, Duration::from_millis(1));
    }
}

// A gate that a test can close, and the number of saves that have reached it.
#[derive(Drop)]
struct SaveGate {
    closed: AtomicBool,
    reached: AtomicU64,
}

impl SaveGate {
    // Counts a save, and waits while the gate is closed, for 10 s at most.
    fn pass<C: Clock>(&self, clock: &C) {
        let _before = self.reached.fetch_add(1, Ordering::SeqCst);
        for _turn in 0..TURNS {
            if !self.closed.load(Ordering::SeqCst) {
                return;
            }
            thread::sleep(clock, Duration::from_millis(1));
        }
    }
}

// A store in memory whose saves wait at a gate.
#[derive(Drop)]
struct GatedStore<'a, C: Clock> {
    memory: MemoryStore,
    clock: &'a C,
    gate: &'a SaveGate,
}

impl<'a, C: Clock> Store for GatedStore<'a, C> {
    ghost use Rattle.std.specs.Prelude.{true};
    ghost use Rattle.fc_store.specs.Updates.{AreSameSlots};
    ghost use Rattle.fc_store.specs.Stored.{stored_in};

    ghost persistent = { true };

    ghost stored = { λ s. stored_in s.memory.slots.items };

    ghost may_recover = { λ s found. AreSameSlots found (stored_in s.memory.slots.items) };

    fn is_persistent(&self) -> bool {
        true
    }

    fn save(&mut self, update: &SlotUpdate<'_>) -> bool {
        self.gate.pass(self.clock);
        self.memory.save(update)
    }
}

// A transmitter that counts responses, and keeps the code of the last one.
#[derive(Drop)]
struct Answers {
    count: AtomicU64,
    last: AtomicU64,
}

impl Wire for Answers {
    fn send<R: Wait>(&self, rt: &R, number: u64, emission: &Emission, log: &mut CallLog) -> bool {
        let _ = rt;
        let _ = number;
        let _ = log;
        let Some(&code) = emission.bytes.as_slice().get(1) else {
            return false;
        };
        self.last.store(u64::from(code), Ordering::SeqCst);
        let _before = self.count.fetch_add(1, Ordering::SeqCst);
        true
    }

    fn ended<R: Wait>(&self, rt: &R, number: u64, log: &mut CallLog) {
        let _ = rt;
        let _ = number;
        let _ = log;
    }
}

// The results of `DuringSave`: which of its requests were left to a worker, and the codes of the
// last responses when two of them had been handled.
#[derive(Drop)]
struct Handled {
    post: bool,
    get: bool,
    description: bool,
    valid: bool,
    valid_code: u64,
    other: bool,
    other_code: u64,
}

// A driver that passes POSTs of slot 9 until one is sent to a worker and answered. Then it closes
// the gate, and passes one more POST of slot 9. While that change is being saved, it passes three
// GETs for slot 1, whose shard is that of slot 9, and a GET of slot 2. The second GET is that of
// the program's description. The third has the ETag of the slot's serial. Then the gate is opened.
#[derive(Drop)]
struct DuringSave<'a, C: Clock> {
    alloc: Global,
    clock: &'a C,
    gate: &'a SaveGate,
    answers: &'a Answers,
}

impl<'a, C: Clock> Driver<Result<Handled, AllocError>> for DuringSave<'a, C> {
    fn drive<N: Ingress, R: Wait>(
        self,
        rt: &R,
        mut ingress: N,
    ) -> Driven<N, Result<Handled, AllocError>> {
        let _ = rt;
        let given = self.pass_requests(&mut ingress);
        Driven { ingress, given }
    }
}

impl<'a, C: Clock> DuringSave<'a, C> {
    // Passes the datagrams to `ingress`. Returns `AllocError` if memory for one can't be allocated.
    fn pass_requests<N: Ingress>(&self, ingress: &mut N) -> Result<Handled, AllocError> {
        let posts = self.post_until_sent(ingress)?;
        self.gate.closed.store(true, Ordering::SeqCst);
        let post = self.is_left(ingress, Request::Post, 0xfffa, 9)?;
        wait_for(self.clock, &self.gate.reached, posts.saturating_add(1));
        let get = self.is_left(ingress, Request::Get, 0xfffb, 1)?;
        let description = self.is_left(ingress, Request::Describe, 0xfffc, 1)?;
        let valid = self.is_left(ingress, Request::Valid(5), 0xfffd, 1)?;
        let valid_code = self.answers.last.load(Ordering::SeqCst);
        let other = self.is_left(ingress, Request::Get, 0xfffe, 2)?;
        let other_code = self.answers.last.load(Ordering::SeqCst);
        self.gate.closed.store(false, Ordering::SeqCst);
        Ok(Handled {
            post,
            get,
            description,
            valid,
            valid_code,
            other,
            other_code,
        })
    }

    // Passes POSTs of slot 9 to `ingress`, one each millisecond, until one is sent to a worker.
    // Then waits until all are answered. Returns their number, at most 1,000.
    fn post_until_sent<N: Ingress>(&self, ingress: &mut N) -> Result<u64, AllocError> {
        let mut posts = 0u64;
        for id in 0..1000 {
            posts = posts.saturating_add(1);
            if self.is_sent(ingress, Request::Post, id, 9)? {
                break;
            }
            thread::sleep(self.clock, Duration::from_millis(1));
        }
        wait_for(self.clock, &self.answers.count, posts);
        Ok(posts)
    }

    // Passes a request's datagram to `ingress`. Returns whether its job was sent to a worker. No
    // save may be held up meanwhile, since the gauges are read under the shards' locks.
    fn is_sent<N: Ingress>(
        &self,
        ingress: &mut N,
        request: Request<'_>,
        id: u16,
        slot: u8,
    ) -> Result<bool, AllocError>
        requires { slot < 64 }
    {
        let sent = ingress.gauges(0).offloaded;
        self.pass(ingress, request, id, slot)?;
        Ok(ingress.gauges(0).offloaded > sent)
    }

    // Passes a request's datagram to `ingress` while a save is held up. Returns whether the request
    // wasn't answered in the call: then its job is left to a worker, which waits for the save.
    fn is_left<N: Ingress>(
        &self,
        ingress: &mut N,
        request: Request<'_>,
        id: u16,
        slot: u8,
    ) -> Result<bool, AllocError>
        requires { slot < 64 }
    {
        let answered = self.answers.count.load(Ordering::SeqCst);
        self.pass(ingress, request, id, slot)?;
        Ok(self.answers.count.load(Ordering::SeqCst) == answered)
    }

    // Passes a request's datagram to `ingress`. A response goes to `answers`.
    fn pass<N: Ingress>(
        &self,
        ingress: &mut N,
        request: Request<'_>,
        id: u16,
        slot: u8,
    ) -> Result<(), AllocError>
        requires { slot < 64 }
    {
        let mut reply = blank_emission();
        let bytes = datagram(self.alloc, request, id, SlotNumber::new(slot))?;
        let _handled = ingress.handle(0, PEER, &bytes, &mut reply);
        Ok(())
    }
}

// Returns a slot that is stored at serial 5 with the counter.
fn counter_at_five(alloc: Global) -> Result<StoredSlot, AllocError> {
    Ok(StoredSlot {
        serial: 5,
        program: Some(StoredProgram {
            version: 3,
            image: Vec::from_slice(alloc, COUNTER)?,
            vars: Vec::from_slice(alloc, &[0; 8])?,
        }),
    })
}

// Returns a server that is restored with the counter in slots 1, 2 and 9, each stored at serial 5.
fn with_counters(alloc: Global) -> Result<FirstServer, Fail> {
    let one = counter_at_five(alloc)?;
    let two = counter_at_five(alloc)?;
    let nine = counter_at_five(alloc)?;
    let mut stored: [StoredSlot; 64] = from_fn(|_| StoredSlot::blank());
    stored[1] = one;
    stored[2] = two;
    stored[9] = nine;
    let Ok(first) = FirstServer::over(alloc, &stored, 0, &DEFAULT_POLICY) else {
        return Err("the slots are restored".into());
    };
    Ok(first)
}

// Runs the driver `DuringSave` and two workers, on a server that saves into the store of `gate`.
// Returns the results of the driver.
fn handled_during_save<R: Threads + Wait + Clock + Sync>(
    rt: &R,
    alloc: Global,
    gate: &SaveGate,
    answers: &Answers,
) -> Result<Handled, Fail> {
    let pool = Pool {
        workers: 2,
        offload: Offload::ChangesAndExpensive(6_000),
        wire: answers,
        times: &Replies::new(),
        device: &Bare::new(),
        recorder: &NoChanges,
    };
    let first = with_counters(alloc)?;
    let store = ReadyStore::new(GatedStore {
        memory: MemoryStore::new(alloc)?,
        clock: rt,
        gate,
    });
    let drive = DuringSave {
        alloc,
        clock: rt,
        gate,
        answers,
    };
    let mut err = Vec::new(alloc);
    let fed = run_pool(rt, alloc, &mut err, &pool, first, store, drive)?;
    Ok(fed.given?)
}

// While a change of slot 9 is being saved, GETs of slot 1 go to a worker, since their shard is that
// of slot 9. So the receiving thread answers the GET of slot 2 meanwhile. It also answers the GET
// with the state's ETag, which takes no shard's lock. All are answered in the end.
#[test]
fn a_save_holds_up_no_other_shards_get(rt: HostRuntime) -> Result<(), Fail> {
    let gate = SaveGate {
        closed: AtomicBool::new(false),
        reached: AtomicU64::new(0),
    };
    let answers = Answers {
        count: AtomicU64::new(0),
        last: AtomicU64::new(0),
    };
    let handled = handled_during_save(&rt, rt.alloc(), &gate, &answers)?;
    assert!(rt; handled.post && handled.get && handled.description);
    assert!(rt; !handled.valid && !handled.other);
    assert!(rt; handled.valid_code == u64::from(VALID) && handled.other_code == u64::from(CONTENT));
    let posts = gate.reached.load(Ordering::SeqCst);
    assert!(rt; answers.count.load(Ordering::SeqCst) == posts.saturating_add(4));
    Ok(())
}
