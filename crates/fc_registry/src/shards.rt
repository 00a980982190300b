//! The eight shards of a server.
ghost use Rattle.std.specs.Prelude.{◌≡◌, ◌%◌, ◌<◌, ◌≤◌, ℕ, IfErr, IfOk, OnOk, length};
ghost use Rattle.fc_store.specs.Stored.{stored_in};
ghost use Rattle.fc_registry.specs.Restored.{restored_slot};
ghost use Rattle.fc_registry.specs.Starts.{CanRestore, IsSlotError, IsStartError, RestoresTo, shard_over, shards_over};
ghost use Rattle.fc_registry.specs.Slots.{IsOwned, last_serial, slot_in};
ghost use Rattle.fc_registry.specs.Shards.{first_shards};

use crate::restore::RestoreError;
use crate::shard::Shard;
use fc_store::StoredSlot;
use fc_ticket::{SHARDS, SlotNumber};
use std::alloc::{AllocError, Global};
use thiserror::Error;

/// The reason why the shards of a server aren't restored.
#[derive(Clone, Copy, Debug, PartialEq, Eq, Error)]
pub enum StartError {
    /// This slot, 0 to 63, isn't restored, for this reason.
    ///
    /// The text names slot 9 as `/p/9`.
    #[error("/p/{0}: {1}")]
    Slot(u8, RestoreError),
    /// Memory for the shards can't be allocated.
    #[error("memory allocation failed")]
    Memory,
}

impl From<AllocError> for StartError {
    ghost use Rattle.fc_registry.specs.declared.shards.StartError.TheVariants.{Memory};

    ghost from_gives = { λ _ r. r ≡ Memory };

    fn from(_: AllocError) -> StartError {
        StartError::Memory
    }
}

/// Makes eight shards, in the order of their indices.
///
/// The slots are empty, each at `first_serial`. Notifications are confirmable after `confirm_after`
/// milliseconds.
///
/// # Errors
/// Returns `AllocError` if memory can't be allocated.
pub fn make_shards(
    alloc: Global,
    first_serial: u64,
    confirm_after: u64,
) -> Result<Vec<Shard>, AllocError>
    requires { first_serial ≤ last_serial }
    ensures { IfOk result (λ v. v.items ≡ first_shards first_serial confirm_after) }
{
    let mut shards = Vec::with_capacity(alloc, usize::from(SHARDS))?;
    for index in 0..SHARDS {
        shards.push(Shard::new(alloc, index, first_serial, confirm_after)?)?;
    }
    Ok(shards)
}

/// Makes eight shards whose slots are restored from their stored states.
///
/// `stored` has the states of slots 0 to 63. Each stored image is verified again. No slot has an
/// observer, and the rings are empty. Notifications are confirmable after `confirm_after`
/// milliseconds.
///
/// # Errors
/// Returns `Slot` with the number of a slot that can't be restored, and the reason. Returns
/// `Memory` if memory for the shards can't be allocated.
pub fn restore_shards(
    alloc: Global,
    confirm_after: u64,
    stored: &[StoredSlot],
) -> Result<Vec<Shard>, StartError>
    requires { length stored.now ≡ 64 }
    ensures shards { IfOk result (λ v. v.items ≡ shards_over (λ n. restored_slot (stored_in stored.now n)) confirm_after) }
    ensures can { IfOk result (λ v. (n : ℕ) → n < 64 → CanRestore (stored_in stored.now n)) }
    ensures cause { IfErr result (IsStartError (stored_in stored.now)) }
{
    let mut shards = Vec::with_capacity(alloc, usize::from(SHARDS))?;
    for index in 0..SHARDS {
        let shard = restore_shard(alloc, index, confirm_after, stored)?;
        if shards.push(shard).is_err() {
            return Err(StartError::Memory);
        }
    }
    Ok(shards)
}

// Makes the shard with this index, whose slots are restored from their stored states. Returns
// `Slot` with a slot that isn't restored and the reason, or `Memory` if memory can't be allocated.
fn restore_shard(
    alloc: Global,
    index: u8,
    confirm_after: u64,
    stored: &[StoredSlot],
) -> Result<Shard, StartError>
    requires index { index < 8 }
    requires count { length stored.now ≡ 64 }
    ensures shard { IfOk result (λ s. s ≡ shard_over (λ n. restored_slot (stored_in stored.now n)) confirm_after index) }
    ensures can { IfOk result (λ s. (n : ℕ) → n < 64 → n % 8 ≡ index → CanRestore (stored_in stored.now n)) }
    ensures cause { IfErr result (IsStartError (stored_in stored.now)) }
{
    let mut shard = Shard::new(alloc, index, 0, confirm_after)?;
    for place in 0..SHARDS {
        let slot = SlotNumber::new(8 * place + index);
        restore_slot(alloc, &mut shard, slot, &stored[usize::from(slot.number())])?;
    }
    Ok(shard)
}

// Restores a slot of a new shard. If the slot isn't restored, returns `Slot` with its number and
// the reason.
fn restore_slot(
    alloc: Global,
    shard: &mut Shard,
    slot: SlotNumber,
    stored: &StoredSlot,
) -> Result<(), StartError>
    requires { IsOwned shard.old slot }
    ensures restored { OnOk result (RestoresTo stored.now shard.old slot shard.new) }
    ensures can { OnOk result (CanRestore stored.now) }
    ensures cause { IfErr result (IsSlotError (slot_in shard.old slot) slot stored.now) }
{
    match shard.restore(alloc, slot, stored) {
        Ok(()) => Ok(()),
        Err(error) => Err(StartError::Slot(slot.number(), error)),
    }
}
