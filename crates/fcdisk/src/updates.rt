//! Forty updates, and the slots that they leave.
//!
//! The expected slots are worked out from the list, and not by a store.
use fc_store::StoredSlot;
use std::alloc::{AllocError, Global};

// The number of updates.
pub(crate) const COUNT: usize = 40;

// What an update does to its slot's program.
#[derive(Clone, Copy)]
pub(crate) enum Action {
    // Installs an image of this many bytes.
    Install(usize),
    Commit,
    Remove,
}

use Action::{Commit, Install, Remove};

// The slot of each update, and its action. Images have up to 4,112 bytes, so some rows need several
// pages.
pub(crate) static UPDATES: [(u8, Action); COUNT] = [
    (0, Install(24)),
    (1, Install(136)),
    (63, Install(40)),
    (0, Commit),
    (0, Commit),
    (7, Install(4112)),
    (7, Commit),
    (1, Commit),
    (2, Install(264)),
    (0, Remove),
    (63, Commit),
    (3, Install(520)),
    (7, Commit),
    (3, Install(24)),
    (0, Install(56)),
    (9, Install(1032)),
    (9, Commit),
    (7, Remove),
    (10, Install(40)),
    (11, Install(40)),
    (12, Install(40)),
    (12, Commit),
    (12, Commit),
    (1, Remove),
    (1, Install(4112)),
    (1, Install(24)),
    (30, Install(2056)),
    (31, Install(2056)),
    (30, Commit),
    (31, Remove),
    (31, Install(24)),
    (7, Install(72)),
    (7, Commit),
    (63, Remove),
    (62, Install(136)),
    (62, Commit),
    (0, Commit),
    (0, Commit),
    (9, Remove),
    (63, Install(4112)),
];

// A program: its version, and the numbers of the updates that installed it and that last wrote its
// variables.
#[derive(Clone, Copy)]
struct Program {
    version: u64,
    installed: usize,
    written: usize,
    len: usize,
}

// The expected state of a slot.
#[derive(Clone, Copy)]
struct Expected {
    serial: u64,
    program: Option<Program>,
}

// Returns byte `at` of the image or the variables of the update `number`.
fn byte_of(number: usize, at: usize) -> u8 {
    (number.wrapping_mul(37).wrapping_add(at.wrapping_mul(11)) % 251) as u8
}

// Returns the number of the variables' bytes that the update `number` writes.
fn vars_len(number: usize) -> usize {
    8 + number % 3 * 16
}

// Returns the image or the variables that the update `number` writes.
fn bytes_of(alloc: Global, number: usize, len: usize) -> Result<Vec<u8>, AllocError> {
    let mut bytes = Vec::new(alloc);
    for at in 0..len {
        bytes.push(byte_of(number, at))?;
    }
    Ok(bytes)
}

// Returns the image that the update `number` installs.
pub(crate) fn image_of(alloc: Global, number: usize, len: usize) -> Result<Vec<u8>, AllocError> {
    bytes_of(alloc, number, len)
}

// Returns the variables that the update `number` writes.
pub(crate) fn vars_of(alloc: Global, number: usize) -> Result<Vec<u8>, AllocError> {
    bytes_of(alloc, number, vars_len(number))
}

// Returns whether these bytes are those that the update `number` writes.
fn are_bytes(bytes: &[u8], number: usize, len: usize) -> bool {
    bytes.len() == len
        && bytes
            .iter()
            .enumerate()
            .all(|(at, byte)| *byte == byte_of(number, at))
}

impl Expected {
    // The state after the update `number`.
    fn after(self, number: usize, action: Action) -> Expected {
        let serial = self.serial.wrapping_add(1);
        let program = match action {
            Install(len) => Some(Program {
                version: serial,
                installed: number,
                written: number,
                len,
            }),
            Commit => self.program.map(|program| Program {
                written: number,
                ..program
            }),
            Remove => None,
        };
        Expected { serial, program }
    }

    // Returns whether a stored slot has this state.
    fn is_state_of(&self, stored: &StoredSlot) -> bool {
        let has_program = match (&self.program, &stored.program) {
            (None, None) => true,
            (Some(program), Some(found)) => found.version == program.version
                && are_bytes(&found.image, program.installed, program.len)
                && are_bytes(&found.vars, program.written, vars_len(program.written)),
            _ => false,
        };
        has_program && stored.serial == self.serial
    }
}

// The updates that are made: the first `count` of the list, except the refused one.
#[derive(Clone, Copy)]
pub(crate) struct Made {
    pub count: usize,
    pub refused: Option<usize>,
}

impl Made {
    // The first `count` updates.
    pub(crate) fn first(count: usize) -> Made {
        Made {
            count,
            refused: None,
        }
    }

    // The first `count` updates except the update `refused`.
    pub(crate) fn except(refused: usize, count: usize) -> Made {
        Made {
            count,
            refused: Some(refused),
        }
    }

    // Returns the state of a slot that these updates leave.
    fn expected(self, slot: usize) -> Expected {
        let mut expected = Expected {
            serial: 0,
            program: None,
        };
        for (number, (updated, action)) in UPDATES.iter().take(self.count).enumerate() {
            if usize::from(*updated) == slot && self.refused != Some(number) {
                expected = expected.after(number, *action);
            }
        }
        expected
    }

    // Returns the serial of the next update of a slot.
    pub(crate) fn next_serial(self, slot: u8) -> u64 {
        self.expected(usize::from(slot)).serial.wrapping_add(1)
    }

    // Returns whether these are the 64 slots that the updates leave.
    pub(crate) fn leaves(self, slots: &[StoredSlot]) -> bool {
        slots.len() == 64
            && slots
                .iter()
                .enumerate()
                .all(|(slot, stored)| self.expected(slot).is_state_of(stored))
    }
}

// Returns whether these are the 64 slots that one of the lists of updates leaves.
pub(crate) fn some_leaves(made: &[Made], slots: &[StoredSlot]) -> bool {
    made.iter().any(|made| made.leaves(slots))
}
