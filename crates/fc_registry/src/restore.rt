//! Restoring the stored state of a slot.
//!
//! `Shard::restore` verifies the stored image again by these functions.
ghost use Rattle.std.specs.Prelude.{◌≡◌, ◌↔◌, ◌≤◌, [], IsTrue, IfErr, IfOk, Some, map};
ghost use Rattle.fc_verify.specs.Accepted.{Accepts};
ghost use Rattle.fc_verify.specs.Judged.{judged};
ghost use Rattle.fc_store.specs.Stored.{StoredProgram};
ghost use Rattle.fc_registry.specs.Record.{HasRecordIf};
ghost use Rattle.fc_registry.specs.Restored.{at_least, restored_present};
ghost use Rattle.fc_registry.specs.Slots.{last_serial};
ghost use Rattle.fc_registry.specs.Starts.{CanRestoreProgram, IsProgramError, IsProgramState, RestoresProgram};
ghost use Rattle.fc_registry.specs.Views.{present_of};

use crate::body::Body;
use fc_help::Vars;
use fc_store::{StoredProgram, StoredSlot};
use fc_verify::{Refusal, Verified, verify};
use std::alloc::Global;
use std::sync::Arc;
use thiserror::Error;

/// The reason why a stored slot isn't restored; the slot is unchanged.
#[derive(Clone, Copy, Debug, PartialEq, Eq, Error)]
pub enum RestoreError {
    /// No history can leave this state.
    ///
    /// The slot's serial, the program's version or the number of variables is wrong.
    #[error("its serial, its version or the size of its variables is wrong")]
    State,
    /// The verifier refuses the image.
    #[error("its image isn't accepted: {0}")]
    Image(Refusal),
    /// Memory can't be allocated.
    #[error("memory allocation failed")]
    Memory,
}

// Returns the program of a stored slot with its version and variables, or `None` if the slot is
// stored as empty. The image is verified again. Returns an error with the reason if the program
// isn't restored.
pub(crate) fn restored(alloc: Global, stored: &StoredSlot) -> Result<Option<Body>, RestoreError>
    ensures program { IfOk result (λ b. present_of b ≡ restored_present stored.now.program) }
    ensures record { IfOk result (λ b. HasRecordIf stored.now.serial (present_of b) []) }
    ensures can { IfOk result (λ b. CanRestoreProgram stored.now.serial stored.now.program) }
    ensures cause { IfErr result (λ e. (s : StoredProgram) × (stored.now.program ≡ Some s) × IsProgramError stored.now.serial s e) }
{
    match &stored.program {
        Some(program) => Ok(Some(restored_program(alloc, stored.serial, program)?)),
        None => Ok(None),
    }
}

// Verifies the image of a stored program, and returns the program with its version and variables.
// `serial` is that of the stored slot. Returns an error with the reason if the program isn't
// restored.
fn restored_program(
    alloc: Global,
    serial: u64,
    stored: &StoredProgram,
) -> Result<Body, RestoreError>
    ensures program { IfOk result (λ b. judged stored.now.image ≡ Accepts b.program.value) }
    ensures version { IfOk result (λ b. b.version ≡ stored.now.version) }
    ensures vars { IfOk result (λ b. b.vars ≡ stored.now.vars) }
    ensures state { IfOk result (λ b. IsProgramState serial stored.now b.program.value) }
    ensures can { IfOk result (λ b. RestoresProgram serial stored.now) }
    ensures cause { IfErr result (IsProgramError serial stored.now) }
{
    let program = match verify(alloc, stored.image.as_slice()) {
        Ok(program) => program,
        Err(refusal) => return Err(RestoreError::Image(refusal)),
    };
    if !is_state(serial, stored, &program) {
        return Err(RestoreError::State);
    }
    let vars = Vars::of(stored.vars.as_slice());
    match Arc::new(alloc, program) {
        Ok(program) => Ok(Body {
            program,
            version: stored.version,
            vars,
        }),
        Err(_) => Err(RestoreError::Memory),
    }
}

// Returns whether a slot at `serial` may have this program: the stored version is 1 to `serial`,
// and the stored variables have the program's size.
fn is_state(serial: u64, stored: &StoredProgram, program: &Verified) -> bool
    ensures { IsTrue result ↔ IsProgramState serial stored.now program.now }
{
    stored.version > 0
        && stored.version <= serial
        && stored.vars.len() == usize::from(program.vars_size())
}

/// Raises the serial of each stored slot to at least `least`.
///
/// A start raises the serials before [`crate::restore_shards`]. If `least` is above all serials of
/// earlier runs, the slots have serials and ETags from now on that no earlier run has sent.
pub fn raise_serials(stored: &mut [StoredSlot], least: u64)
    requires { least ≤ last_serial }
    ensures { stored.new ≡ map (at_least least) stored.old }
{
    for slot in stored.iter_mut() {
        raise_serial(slot, least);
    }
}

// Raises the serial of a stored slot to at least `least`.
fn raise_serial(stored: &mut StoredSlot, least: u64)
    ensures { stored.new ≡ at_least least stored.old }
{
    stored.serial = stored.serial.max(least);
}
