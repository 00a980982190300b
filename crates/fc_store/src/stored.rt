//! The stored state of a slot, and the effect of an update on it.
ghost use Rattle.std.specs.Prelude.{◌≡◌, IfOk};
ghost use Rattle.fc_store.specs.Updates.{slot_after, with_stored_vars};

use crate::store::{ProgramUpdate, SlotUpdate};
use std::alloc::{AllocError, Global};
use std::marker::Model;

/// A stored program: the serial of its install, its image, and its variables.
#[derive(Drop)]
pub struct StoredProgram {
    pub version: u64,
    pub image: Vec<u8>,
    pub vars: Vec<u8>,
}

impl Model for StoredProgram {
    ghost use Rattle.fc_store.specs.Stored.{StoredProgram};

    ghost Value = { StoredProgram };

    ghost view = { λ p. record { version = p.version; image = p.image.items; vars = p.vars.items } };
}

/// A stored slot: its serial, and its program if it has one.
#[derive(Drop)]
pub struct StoredSlot {
    pub serial: u64,
    pub program: Option<StoredProgram>,
}

impl Model for StoredSlot {
    ghost use Rattle.fc_store.specs.Stored.{StoredSlot};

    ghost Value = { StoredSlot };

    ghost view = { λ k. record { serial = k.serial; program = k.program } };
}

impl StoredSlot {
    ghost use Rattle.fc_store.specs.Stored.{blank_slot};

    /// Makes the stored state of a slot without any update: serial 0, no program.
    pub fn blank() -> StoredSlot
        ensures { result ≡ blank_slot }
    {
        StoredSlot {
            serial: 0,
            program: None,
        }
    }

    /// Copies the slot.
    ///
    /// # Errors
    /// Returns `AllocError` if memory can't be allocated.
    pub fn copy(&self, alloc: Global) -> Result<StoredSlot, AllocError>
        ensures { IfOk result (λ s. s ≡ self.now) }
    {
        let program = match &self.program {
            Some(program) => self.with_vars(alloc, &program.vars)?,
            None => None,
        };
        Ok(StoredSlot {
            serial: self.serial,
            program,
        })
    }

    /// Copies the slot and applies `update` to the copy.
    ///
    /// # Errors
    /// Returns `AllocError` if memory can't be allocated.
    pub fn after(&self, alloc: Global, update: &SlotUpdate<'_>) -> Result<StoredSlot, AllocError>
        ensures { IfOk result (λ s. s ≡ slot_after update.now self.now) }
    {
        let program = match update.program {
            ProgramUpdate::Install(image, vars) => Some(copy(alloc, update.serial, image, vars)?),
            ProgramUpdate::Commit(vars) => self.with_vars(alloc, vars)?,
            ProgramUpdate::Remove => None,
        };
        Ok(StoredSlot {
            serial: update.serial,
            program,
        })
    }

    // Returns a copy of the slot's program with other variables, or `None` if the slot has no
    // program. Returns `AllocError` if memory can't be allocated.
    fn with_vars(&self, alloc: Global, vars: &[u8]) -> Result<Option<StoredProgram>, AllocError>
        ensures { IfOk result (λ p. p ≡ with_stored_vars vars.now self.now.program) }
    {
        match &self.program {
            Some(program) => Ok(Some(copy(alloc, program.version, &program.image, vars)?)),
            None => Ok(None),
        }
    }
}

/// Copies a list of slots.
///
/// # Errors
/// Returns `AllocError` if memory can't be allocated.
pub fn copy_slots(alloc: Global, slots: &[StoredSlot]) -> Result<Vec<StoredSlot>, AllocError>
    ensures { IfOk result (λ v. v.items ≡ slots.now) }
{
    let mut copies = Vec::with_capacity(alloc, slots.len())?;
    for slot in slots {
        copies.push(slot.copy(alloc)?)?;
    }
    Ok(copies)
}

// Copies an image and variables into a stored program of this version. Returns `AllocError` if
// memory can't be allocated.
fn copy(alloc: Global, version: u64, image: &[u8], vars: &[u8]) -> Result<StoredProgram, AllocError>
    ensures { IfOk result (λ p. p ≡ record { version = version; image = image.now; vars = vars.now }) }
{
    Ok(StoredProgram {
        version,
        image: Vec::from_slice(alloc, image)?,
        vars: Vec::from_slice(alloc, vars)?,
    })
}
