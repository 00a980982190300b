//! The effects of a refusal: one law, whose cases are its three exceptions.
ghost use Rattle.std.specs.Prelude.{◌≡◌, ℕ, Some};
ghost use Rattle.coap_msg.specs.Wire.{Message};
ghost use Rattle.coap_opts.specs.Values.{Place};
ghost use Rattle.coap_opts.specs.Verdict.{Asked};
ghost use Rattle.fc_observe.specs.declared.entry.Turn.{Turn};
ghost use Rattle.fc_laws.specs.BodyLaws.{Asks, RespondsNowBy};
ghost use Rattle.fc_core.specs.History.{Entry, Seen, and_then};
ghost use Rattle.fc_front.specs.Receiving.{slot_asked};
ghost use Rattle.fc_laws.specs.RefusalLaws.{FindsTurnMissing, IsRefusedByCheck, IsRefusedCall, IsTurnedDown, LeavesAll, LeavesAllButExchange, LeavesAllButStage, LeavesAllButTransfer, LeavesAllButTurn, sender};

use coap_block::laws::blocks_leave_other_transfers;

/// A refusal leaves everything unchanged, with three exceptions.
///
/// In every case the time, a drawn message ID, and the stage of the job whose call was refused may
/// change. The exceptions:
///
/// - A request that a check refuses opens its exchange. A request without space for its exchange
///   opens none, and is answered 5.03 (Service Unavailable).
/// - A refused block opens the exchange of its request, and the transfer of the request's endpoint
///   and slot is removed.
/// - If the snapshot of a lease finds the slot empty, the entry of the lease's observer records
///   that.
pub fn refusals_leave_all_else()
    ensures turned_down { (r : Entry) (s : Seen) → IsTurnedDown s r.event → LeavesAll s (and_then r s) }
    ensures refused_calls { (r : Entry) (s : Seen) (k : ℕ) → IsRefusedCall s k r.event r.emitted → LeavesAllButStage k s (and_then r s) }
    ensures but_exchanges { (r : Entry) (s : Seen) → IsRefusedByCheck s r.event → LeavesAllButExchange r s }
    ensures but_transfers { (r : Entry) (s : Seen) (m : Message) (q : Asked) (b : Place) (answer : ℕ) → Asks s r.event m q
        → q.block1 ≡ Some b → RespondsNowBy s r.event m q answer
        → LeavesAllButTransfer r s (sender r.event) (slot_asked q.action) }
    ensures but_turns { (r : Entry) (s : Seen) (k : ℕ) (turn : Turn) → FindsTurnMissing s k r.event turn
        → LeavesAllButTurn k turn s (and_then r s) }
{
    blocks_leave_other_transfers();
}
