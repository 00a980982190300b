//! The start of a server with stored slots: its serials, its save, and why it is refused.
//!
//! The first serials are those of docs/PROTOCOL.md: 32 for each millisecond, and 2^24 for each
//! second, or one more than the greatest stored serial. The rules are those of docs/REFERENCE.md.
use fc_fixtures::images::COUNTER;
use fc_front::DEFAULT_POLICY;
use fc_front::heads::serial_in;
use fc_isa::{Fault, Rule};
use fc_registry::{RestoreError, StartError};
use fc_service::slots::{Slots, restored_slots};
use fc_store::{
    MemoryStore, ProgramUpdate, SlotUpdate, Store, StoredProgram, StoredSlot, copy_slots,
};
use fc_ticket::SlotNumber;
use fc_verify::Refusal;
use std::alloc::{AllocError, Global};
use std::array::from_fn;
use std::process::Abort;
use std::sync::atomic::{AtomicU64, Ordering};
use std::test::Fail;

// Returns a slot that is stored at this serial. It has a program of version 3 with this image, and
// with eight bytes of variables.
fn slot_at(alloc: Global, serial: u64, image: &[u8]) -> Result<StoredSlot, AllocError> {
    let program = StoredProgram {
        version: 3,
        image: Vec::from_slice(alloc, image)?,
        vars: Vec::from_slice(alloc, &[0; 8])?,
    };
    Ok(StoredSlot {
        serial,
        program: Some(program),
    })
}

// Returns 64 stored slots: slot 9 is that of `slot_at`, and the other slots are blank.
fn stored_at(alloc: Global, serial: u64, image: &[u8]) -> Result<[StoredSlot; 64], AllocError> {
    let mut stored: [StoredSlot; 64] = from_fn(|_| StoredSlot::blank());
    stored[9] = slot_at(alloc, serial, image)?;
    Ok(stored)
}

// A store in memory whose saves a test can see. `saved` is ten times the serial of the last saved
// update of slot 0, plus 1 for a commit or 2 for a removal. It is 0 if none was saved.
#[derive(Drop)]
struct SeenStore<'a> {
    memory: MemoryStore,
    saved: &'a AtomicU64,
}

impl<'a> Store for SeenStore<'a> {
    ghost use Rattle.std.specs.Prelude.{true};
    ghost use Rattle.fc_store.specs.Updates.{AreSameSlots};
    ghost use Rattle.fc_store.specs.Stored.{stored_in};

    ghost persistent = { true };

    ghost stored = { λ s. stored_in s.memory.slots.items };

    ghost may_recover = { λ s found. AreSameSlots found (stored_in s.memory.slots.items) };

    fn is_persistent(&self) -> bool {
        true
    }

    fn save(&mut self, update: &SlotUpdate<'_>) -> bool {
        let is_saved = self.memory.save(update);
        if is_saved && update.slot == 0 {
            let kind = match update.program {
                ProgramUpdate::Install(..) => 0,
                ProgramUpdate::Commit(_) => 1,
                ProgramUpdate::Remove => 2,
            };
            let saved = update.serial.saturating_mul(10).saturating_add(kind);
            self.saved.store(saved, Ordering::SeqCst);
        }
        is_saved
    }
}

// Starts at 1,000 ms over this store. Returns what the start reports of its save, or `None` if the
// start is refused, and what is saved, as `SeenStore` says.
fn saved_at_start(
    rt: &HostRuntime,
    memory: MemoryStore,
) -> Result<(Option<bool>, u64), AllocError> {
    let stored = copy_slots(rt.alloc(), memory.slots())?;
    let saved = AtomicU64::new(0);
    let store = SeenStore {
        memory,
        saved: &saved,
    };
    let started = Slots::restored(rt.alloc(), store, &stored, 1_000, 0, &DEFAULT_POLICY);
    let reported = started.ok().map(|(_slots, is_saved)| is_saved);
    Ok((reported, saved.load(Ordering::SeqCst)))
}

// Returns a store in memory whose slot 0 has a program with this image, at serial 50,000,000.
fn store_with(rt: &HostRuntime, image: &[u8]) -> Result<MemoryStore, Fail> {
    let mut memory = MemoryStore::new(rt.alloc())?;
    let vars = [0; 8];
    let install = SlotUpdate {
        slot: 0,
        serial: 50_000_000,
        program: ProgramUpdate::Install(image, &vars),
    };
    if memory.save(&install) {
        Ok(memory)
    } else {
        Err("the slot is stored".into())
    }
}

// Returns the serials of slots 9 and 10 after a start at 1,000 ms. Their programs are stored at
// this serial, and at serial 5.
fn serials_after_start(rt: &HostRuntime, serial: u64) -> Result<(u64, u64), Fail> {
    let mut stored = stored_at(rt.alloc(), serial, COUNTER)?;
    stored[10] = slot_at(rt.alloc(), 5, COUNTER)?;
    let Ok(first) = restored_slots(rt.alloc(), &stored, 1_000, 0, &DEFAULT_POLICY) else {
        return Err("the slots are restored".into());
    };
    let heads = first.heads();
    Ok((
        serial_in(heads.peek(SlotNumber::new(9))),
        serial_in(heads.peek(SlotNumber::new(10))),
    ))
}

// A start raises each serial to that of its time.
#[test]
fn a_start_raises_a_serial_to_that_of_its_time(rt: HostRuntime) -> Result<(), Fail> {
    let serial = 32_000 + 16_777_216;
    assert!(rt; serials_after_start(&rt, 5)? == (serial, serial));
    Ok(())
}

// A start over a serial above that of its time raises all slots to one more than this serial.
#[test]
fn a_start_goes_above_each_stored_serial(rt: HostRuntime) -> Result<(), Fail> {
    assert!(rt; serials_after_start(&rt, 50_000_000)? == (50_000_001, 50_000_001));
    Ok(())
}

// A start over blank slots saves the serial of its time with slot 0.
#[test]
fn a_start_saves_its_serial(rt: HostRuntime) -> Result<(), Fail> {
    let memory = MemoryStore::new(rt.alloc())?;
    assert!(rt; saved_at_start(&rt, memory)? == (Some(true), 10 * (32_000 + 16_777_216) + 2));
    Ok(())
}

// A start keeps the program of slot 0: it saves a commit.
#[test]
fn a_start_keeps_the_program_of_slot_0(rt: HostRuntime) -> Result<(), Fail> {
    let memory = store_with(&rt, COUNTER)?;
    assert!(rt; saved_at_start(&rt, memory)? == (Some(true), 10 * 50_000_001 + 1));
    Ok(())
}

// A start whose save is refused succeeds, and reports it.
#[test]
fn a_start_succeeds_if_its_save_is_refused(rt: HostRuntime) -> Result<(), Fail> {
    let mut memory = MemoryStore::new(rt.alloc())?;
    memory.refuses = true;
    assert!(rt; saved_at_start(&rt, memory)? == (Some(false), 0));
    Ok(())
}

// A start that is refused saves nothing.
#[test]
fn a_refused_start_saves_nothing(rt: HostRuntime) -> Result<(), Fail> {
    let memory = store_with(&rt, &COUNTER[..15])?;
    assert!(rt; saved_at_start(&rt, memory)? == (None, 0));
    Ok(())
}

// A start refuses an image that is cut off, and names the slot and the rule.
#[test]
fn a_start_names_the_slot_of_a_refused_image(rt: HostRuntime) -> Result<(), Fail> {
    let stored = stored_at(rt.alloc(), 5, &COUNTER[..15])?;
    let Err(error) = restored_slots(rt.alloc(), &stored, 1_000, 0, &DEFAULT_POLICY) else {
        panic!(rt; "the image is accepted")
    };
    let text = format!(in rt.alloc(); "{error}")?;
    assert!(rt; text.as_str() == "/p/9: its image isn't accepted: V01 slot 0");
    Ok(())
}

// A start refuses a version above the slot's serial: a start at 0 ms raises serial 1 to 2.
#[test]
fn a_start_refuses_a_version_above_the_serial(rt: HostRuntime) -> Result<(), Fail> {
    let stored = stored_at(rt.alloc(), 1, COUNTER)?;
    let result = restored_slots(rt.alloc(), &stored, 0, 0, &DEFAULT_POLICY);
    assert!(rt; matches!(result, Err(StartError::Slot(9, RestoreError::State))));
    Ok(())
}

// Each reason has its text.
#[test]
fn a_refused_start_is_told_in_words(rt: HostRuntime) -> Result<(), Fail> {
    let fault = Fault {
        rule: Rule::Cost,
        slot: 0,
    };
    let errors = [
        (
            StartError::Slot(9, RestoreError::Image(Refusal::Broken(fault))),
            "/p/9: its image isn't accepted: V16 slot 0",
        ),
        (
            StartError::Slot(63, RestoreError::State),
            "/p/63: its serial, its version or the size of its variables is wrong",
        ),
        (
            StartError::Slot(0, RestoreError::Memory),
            "/p/0: memory allocation failed",
        ),
        (StartError::Memory, "memory allocation failed"),
    ];
    for (error, text) in &errors {
        let told = format!(in rt.alloc(); "{error}")?;
        assert!(rt; told.as_str() == *text);
    }
    Ok(())
}
