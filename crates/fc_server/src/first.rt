//! The state that a server begins with.
ghost use Rattle.std.specs.Prelude.{◌≡◌, ◌<◌, ℕ, [], length, IfErr, IfOk};
ghost use Rattle.fc_registry.specs.Starts.{CanRestore, IsStartError};
ghost use Rattle.fc_core.specs.History.{BeginsWith};
ghost use Rattle.fc_store.specs.Stored.{stored_in};
ghost use Rattle.fc_server.specs.Serving.{Serves};
ghost use Rattle.fc_server.specs.States.{CanBegin, CanBeginWith, begin_of, first_server, server_over};

use crate::server::Begin;
use fc_front::{Front, Heads, Policy};
use fc_registry::{Shard, StartError, make_shards, restore_shards};
use fc_store::StoredSlot;
use std::alloc::{AllocError, Global};
use std::marker::Model;

/// The front, the eight shards, and the head words of a server before any event.
///
/// In contracts they are the first state of the server. Some history leaves each first state.
#[derive(Drop)]
pub struct FirstServer {
    pub(crate) front: Front,
    pub(crate) shards: Vec<Shard>,
    pub(crate) heads: Heads,
}

impl Model for FirstServer {
    ghost use Rattle.fc_server.specs.States.{ServerState};

    ghost Value = { ServerState };

    ghost view = { λ f. record { front = f.front; shards = f.shards.items; words = f.heads } };

    ghost use Rattle.fc_server.specs.Serving.{IsFirstServer};

    ghost invariant = { λ f. IsFirstServer (record { front = f.front; shards = f.shards.items; words = f.heads }) };
}

impl FirstServer {
    /// Makes the first state of a server with empty slots 0 to 63, by `begin`.
    ///
    /// # Errors
    /// Returns `AllocError` if memory can't be allocated.
    pub fn new(alloc: Global, begin: &Begin) -> Result<FirstServer, AllocError>
        requires { CanBegin begin.now }
        ensures first { IfOk result (λ f. f ≡ first_server begin.now) }
        ensures begins { IfOk result (λ f. Serves (begin_of begin.now) f []) }
    {
        Ok(FirstServer {
            front: Front::new(alloc, &begin.policy, begin.id)?,
            shards: make_shards(alloc, begin.serial, begin.policy.confirm_after)?,
            heads: Heads::new(),
        })
    }

    /// Makes the first state of a server whose slots 0 to 63 are restored from these stored states.
    ///
    /// Each stored image is verified again. The server has the policy, and draws the message ID
    /// `id` first. Its head words are those of the restored programs.
    ///
    /// # Errors
    /// Returns `Slot` with the number of a slot that can't be restored, and the reason. Returns
    /// `Memory` if memory can't be allocated.
    pub fn over(
        alloc: Global,
        stored: &[StoredSlot],
        id: u16,
        policy: &Policy,
    ) -> Result<FirstServer, StartError>
        requires { length stored.now ≡ 64 }
        ensures first { IfOk result (λ f. f ≡ server_over (stored_in stored.now) id policy.now) }
        ensures begins { IfOk result (λ f. Serves (BeginsWith (stored_in stored.now) id policy.now) f []) }
        ensures can { IfOk result (λ f. (n : ℕ) → n < 64 → CanRestore (stored_in stored.now n)) }
        ensures cause { IfErr result (IsStartError (stored_in stored.now)) }
    {
        let shards = restore_shards(alloc, policy.confirm_after, stored)?;
        Ok(FirstServer {
            front: Front::new(alloc, policy, id)?,
            shards,
            heads: Heads::over(stored),
        })
    }

    /// Returns the head words. The contract also states that a server can begin in this state.
    pub fn heads(&self) -> &Heads
        ensures words { result.now ≡ self.now.words }
        ensures can { CanBeginWith self.now }
    {
        &self.heads
    }

    /// Returns the front and the shards. The contract also states that a server can begin so.
    pub fn into_parts(self) -> (Front, Vec<Shard>)
        ensures front { result.0 ≡ self.front }
        ensures shards { result.1.items ≡ self.shards }
        ensures can { CanBeginWith self }
    {
        (self.front, self.shards)
    }
}
