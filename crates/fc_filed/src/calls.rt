//! The calls of a shard, and the operations that are filed for them.
//!
//! [`crate::FiledShard::ask`] makes them. Two calls are methods of `FiledShard`: an advance, which
//! is filed only if the shard is idle, and a request for a lease, which may begin a track.
ghost use Rattle.std.specs.Prelude.{◌≡◌, true, false, None, ⊤, refl};
ghost use Rattle.fc_registry.specs.Slots.{IsOwned};
ghost use Rattle.fc_linear.specs.Operations.{Logged, ShardPart};
ghost use Rattle.fc_filed.specs.Parts.{logged_no_refusal};

use crate::shard::{FiledCall, FiledChange};
use fc_calls::ShardCall;
use fc_calls::calls::{
    Commit, Describe, GiveUp, Install, NextDue, Note, ReadCost, Remove, Signal, Take, Tick,
};
use fc_help::Readings;
use fc_registry::{Shard, Taken};
use fc_ticket::{Job, SlotSnapshot};

impl<'a> FiledCall for Take<'a> {
    ghost use Rattle.fc_registry.specs.Views.{taken_with};
    ghost use Rattle.fc_calls.specs.Logged.{TakesForJob};

    ghost is_of = { λ call shard. IsOwned shard call.job.now.origin.slot };

    ghost of_job = { true };

    ghost operation = { λ index call answer room. Logged (TakesForJob call.job.now call.readings.now (taken_with answer room)) };

    ghost right = { λ call before answer room after is does.
        record { does = does.0; part = λ i. ShardPart (is.index i); job = λ is. is; of_server = λ low. tt; logged = λ u e. logged_no_refusal _ u e } };
}

/// Takes a snapshot of a request's slot unless the slot's program is expensive.
///
/// The slot is that of `job`, which has no lease. See [`Shard::take_into`]. If the program's cost
/// is `least` steps or more, the snapshot is dropped, and the shard is unchanged. Then the result
/// is the program's cost as `Err`, a read of the cost is filed, and a worker has to take its own
/// snapshot.
#[derive(Drop)]
pub struct TakeIfCheap<'a> {
    pub job: &'a Job,
    pub readings: &'a Readings,
    pub least: u32,
}

impl<'a> ShardCall for TakeIfCheap<'a> {
    ghost use Rattle.fc_registry.specs.Slots.{IsOwned};
    ghost use Rattle.fc_filed.specs.Parts.{TakesIfCheap};

    type Answer = Result<Taken, u32>;

    type Room = SlotSnapshot;

    ghost may_ask = { λ call shard. IsOwned shard call.job.now.origin.slot × (call.job.now.turn ≡ None) };

    ghost does = { λ call before answer room after. TakesIfCheap call.least call.job.now call.readings.now before answer room after };

    fn call(self, shard: &mut Shard, room: &mut SlotSnapshot) -> Result<Taken, u32> {
        match shard.take_into(self.job, self.readings, room) {
            Taken::Given(program) if program.cost() >= self.least => Err(program.cost()),
            taken => Ok(taken),
        }
    }
}

/// The snapshot is filed, or the read of the cost.
impl<'a> FiledCall for TakeIfCheap<'a> {
    ghost use Rattle.fc_filed.specs.Parts.{cheap_filed, cheap_operation};

    ghost is_of = { λ call shard. IsOwned shard call.job.now.origin.slot };

    ghost of_job = { true };

    ghost operation = { λ index call answer room. cheap_operation call.job.now call.readings.now answer room };

    ghost right = { λ call before answer room after is does.
        cheap_filed call.least call.job.now call.readings.now before answer room after is does };
}

impl<'a> FiledCall for Commit<'a> {
    ghost use Rattle.fc_calls.specs.Logged.{CommitsRun};

    ghost is_of = { λ call shard. IsOwned shard call.ticket.now.origin.slot };

    ghost of_job = { true };

    ghost operation = { λ index call answer room. Logged (CommitsRun call.now call.outcome.now call.ticket.now answer) };

    ghost right = { λ call before answer room after is does.
        record { does = does; part = λ i. ShardPart (is.index i); job = λ is. is; of_server = λ low. tt; logged = λ u e. logged_no_refusal _ u e } };
}

impl<'a> FiledChange for Commit<'a> {
    ghost of_slot = { λ call shard is. is };

    ghost verified = { λ index call answer room is. tt };
}

impl<'a> FiledCall for Install<'a> {
    ghost use Rattle.fc_calls.specs.Logged.{InstallsProgram};

    ghost is_of = { λ call shard. IsOwned shard call.job.now.origin.slot };

    ghost of_job = { true };

    ghost operation = { λ index call answer room. Logged (InstallsProgram call.job.now call.program.value answer) };

    ghost right = { λ call before answer room after is does.
        record { does = does; part = λ i. ShardPart (is.index i); job = λ is. is; of_server = λ low. tt; logged = λ u e. logged_no_refusal _ u e } };
}

impl<'a> FiledChange for Install<'a> {
    ghost of_slot = { λ call shard is. is };

    ghost verified = { λ index call answer room is. is };
}

impl<'a> FiledCall for Remove<'a> {
    ghost use Rattle.fc_calls.specs.Logged.{RemovesProgram};

    ghost is_of = { λ call shard. IsOwned shard call.job.now.origin.slot };

    ghost of_job = { true };

    ghost operation = { λ index call answer room. Logged (RemovesProgram call.job.now answer) };

    ghost right = { λ call before answer room after is does.
        record { does = does; part = λ i. ShardPart (is.index i); job = λ is. is; of_server = λ low. tt; logged = λ u e. logged_no_refusal _ u e } };
}

impl<'a> FiledChange for Remove<'a> {
    ghost of_slot = { λ call shard is. is };

    ghost verified = { λ index call answer room is. tt };
}

impl<'a> FiledCall for Describe<'a> {
    ghost use Rattle.fc_calls.specs.Logged.{TellsReceipt};

    ghost is_of = { λ call shard. IsOwned shard call.job.now.origin.slot };

    ghost of_job = { true };

    ghost operation = { λ index call answer room. Logged (TellsReceipt call.job.now answer) };

    ghost right = { λ call before answer room after is does.
        record { does = does; part = λ i. ShardPart (is.index i); job = λ is. is; of_server = λ low. tt; logged = λ u e. logged_no_refusal _ u e } };
}

impl FiledCall for ReadCost {
    ghost use Rattle.fc_calls.specs.Logged.{ReadsCost};

    ghost is_of = { λ call shard. IsOwned shard call.slot };

    ghost of_job = { false };

    ghost operation = { λ index call answer room. Logged (ReadsCost call.slot answer) };

    ghost right = { λ call before answer room after is does.
        record { does = does; part = λ i. ShardPart (is.index i); job = λ is. is; of_server = λ low. tt; logged = λ u e. logged_no_refusal _ u e } };
}

impl<'a> FiledCall for Note<'a> {
    ghost use Rattle.fc_ticket.specs.Notes.{noted_as};
    ghost use Rattle.fc_calls.specs.Logged.{NotesTurn};

    ghost is_of = { λ call shard. IsOwned shard call.turn.slot };

    ghost of_job = { true };

    ghost operation = { λ index call answer room. Logged (NotesTurn call.turn call.id call.now call.random call.told.now (noted_as answer room)) };

    ghost right = { λ call before answer room after is does.
        record { does = does; part = λ i. ShardPart (is.index i); job = λ is. is; of_server = λ low. tt; logged = λ u e. logged_no_refusal _ u e } };
}

impl FiledCall for GiveUp {
    ghost use Rattle.fc_calls.specs.Logged.{GivesUpTurn};

    ghost is_of = { λ call shard. IsOwned shard call.turn.slot };

    ghost of_job = { true };

    ghost operation = { λ index call answer room. Logged (GivesUpTurn call.turn call.now) };

    ghost right = { λ call before answer room after is does.
        record { does = does; part = λ i. ShardPart (is.index i); job = λ is. is; of_server = λ low. tt; logged = λ u e. logged_no_refusal _ u e } };
}

impl FiledCall for Signal {
    ghost use Rattle.fc_calls.specs.Logged.{HandsSignal};

    ghost is_of = { λ call shard. ⊤ };

    ghost of_job = { false };

    ghost operation = { λ index call answer room. Logged (HandsSignal index call.endpoint call.id call.reset) };

    ghost right = { λ call before answer room after is does.
        record { does = does; part = refl; job = λ is. is; of_server = λ low. low; logged = λ u e. logged_no_refusal _ u e } };
}

impl FiledCall for Tick {
    ghost use Rattle.fc_calls.specs.Logged.{AdvancesShard};

    ghost is_of = { λ call shard. ⊤ };

    ghost of_job = { false };

    ghost operation = { λ index call answer room. Logged (AdvancesShard index call.now answer) };

    ghost right = { λ call before answer room after is does.
        record { does = does; part = refl; job = λ is. is; of_server = λ low. low; logged = λ u e. logged_no_refusal _ u e } };
}

impl FiledCall for NextDue {
    ghost use Rattle.fc_registry.specs.Turns.{written_if};
    ghost use Rattle.fc_calls.specs.Logged.{GivesTurn};

    ghost is_of = { λ call shard. ⊤ };

    ghost of_job = { true };

    ghost operation = { λ index call answer room. Logged (GivesTurn index call.now (written_if answer room)) };

    ghost right = { λ call before answer room after is does.
        record { does = does; part = refl; job = λ is. refl; of_server = λ low. low; logged = λ u e. logged_no_refusal _ u e } };
}
