//! Laws of bodies in blocks: each function is a law, stated by its contract.
ghost use Rattle.coap_block.specs.Causes.{FindsNoRoom, HasLargeSum, HasWrongLength, IsOutOfPlace};
ghost use Rattle.coap_block.specs.Cuts.{cut_at};
ghost use Rattle.coap_block.specs.Transfers.{transfers};
ghost use Rattle.coap_block.specs.UnderWay.{FitsBehind, RisesTo};
ghost use Rattle.coap_msg.specs.Codes.{code};
ghost use Rattle.coap_msg.specs.Wire.{Message};
ghost use Rattle.coap_msg.specs.declared.types.Endpoint.{Endpoint};
ghost use Rattle.coap_opts.specs.Values.{Place};
ghost use Rattle.coap_opts.specs.Verdict.{Asked};
ghost use Rattle.coap_reply.specs.Blocks.{cut_for};
ghost use Rattle.fc_laws.specs.BodyLaws.{Asks, BringsInstall, FitsBy, IsAnswerAtOnce, PutsBlock, RespondsNowBy, addition_at, addition_by, asked_at, continue_by};
ghost use Rattle.fc_laws.specs.ExchangeLaws.{bare_by};
ghost use Rattle.fc_core.specs.History.{Entry, History, Seen, and_then, seen};
ghost use Rattle.fc_core.specs.Legal.{Emits};
ghost use Rattle.fc_front.specs.Receiving.{Opened, Immediate};
ghost use Rattle.coap_reply.specs.Responses.{Response, bare, settled_by};
ghost use Rattle.std.specs.Prelude.{ℕ, ◌≡◌, ◌↔◌, ◌++◌, ◌<◌, ◌≤◌, List, Some, false, length, true};

use coap_block::laws::{
    blocks_that_fit_are_joined, bodies_are_bounded, refusals_have_only_their_causes,
    transfers_are_payloads_joined,
};

/// Blocks are joined to a body (RFC 7959, section 2.5).
///
/// A new request with a block is served exactly if the block is the last one and fits. Whether a
/// block fits depends on the earlier blocks of its endpoint for its slot. Block 0 starts a new
/// body; each other block begins at the end of the earlier ones. The body consists of the payloads
/// of the blocks since block number 0, joined, and of the request's own payload. The request is
/// answered 2.31 (Continue) with its Block1 exactly if its block fits and more blocks follow. A
/// body has at most 8,208 bytes, and at most 16 transfers are stored. The times of added payloads
/// never decrease.
pub fn blocks_are_joined()
    ensures whole { (h : History) (now : ℕ) (to : Endpoint) (m : Message) (r : Asked) (b : Place)
        (body : List ℕ) → r.block1 ≡ Some b →
        ((asked_at (seen h) now to m r ≡ Opened m r body)
        ↔ ((b.more ≡ false) × FitsBehind (seen h).additions (addition_at (seen h) now to r) b body)) }
    ensures continues { (h : History) (now : ℕ) (to : Endpoint) (m : Message) (r : Asked) (b : Place) →
        r.block1 ≡ Some b →
        ((asked_at (seen h) now to m r ≡ Immediate m r (settled_by (code 2 31) (Some b)))
        ↔ ((b.more ≡ true)
        × ((body : List ℕ) × FitsBehind (seen h).additions (addition_at (seen h) now to r) b body))) }
    ensures most { (h : History) (now : ℕ) (to : Endpoint) (m : Message) (r : Asked) (body : List ℕ) →
        asked_at (seen h) now to m r ≡ Opened m r body → length body ≤ 8208 }
    ensures few { (h : History) → length (transfers (seen h).additions) ≤ 16 }
    ensures rises { (h : History) → RisesTo (seen h).time (seen h).additions }
{
    blocks_that_fit_are_joined();
    bodies_are_bounded();
    transfers_are_payloads_joined();
}

/// Each new request that passes the checks of its options adds its payload.
///
/// The request is no duplicate, its endpoint is allowed to send it, and there is space for its
/// exchange. The payload is added together with the request's block, if there is one. No other
/// event adds a payload. So a duplicate adds nothing, and a request that is refused before its
/// payload is examined leaves the transfers unchanged.
pub fn new_requests_add_their_payloads()
    ensures adds { (e : Entry) (s : Seen) (m : Message) (r : Asked) → Asks s e.event m r
        → (and_then e s).additions ≡ addition_by s e.event r ++ s.additions }
    ensures others { (e : Entry) (s : Seen) → ((m : Message) (r : Asked) → Asks s e.event m r → ⊥)
        → (and_then e s).additions ≡ s.additions }
{}

/// A PUT of slot N whose last block fits makes a job that installs the body.
///
/// The job installs the complete body in slot N, and the query of the last request decides about
/// the variables. A PUT whose block fits and isn't the last one makes no job, and is answered 2.31
/// (Continue) with its Block1.
pub fn blocks_that_fit_are_answered()
    ensures installs { (e : Entry) (h : History) (m : Message) (r : Asked) (n : ℕ) (b : Place) (body : List ℕ) →
        Asks (seen h) e.event m r → PutsBlock r n b → b.more ≡ false → FitsBy (seen h) e.event r b body
        → BringsInstall e (seen h) r n body }
    ensures continues { (e : Entry) (h : History) (m : Message) (r : Asked) (n : ℕ) (b : Place) (body : List ℕ) →
        Asks (seen h) e.event m r → PutsBlock r n b → b.more ≡ true → FitsBy (seen h) e.event r b body
        → Emits (seen h) e.event e.emitted → e.emitted ≡ continue_by (seen h) e.event m b }
    ensures waits { (e : Entry) (h : History) (m : Message) (r : Asked) (n : ℕ) (b : Place) (body : List ℕ) →
        Asks (seen h) e.event m r → PutsBlock r n b → b.more ≡ true → FitsBy (seen h) e.event r b body
        → (and_then e (seen h)).tasks ≡ (seen h).tasks }
{
    blocks_that_fit_are_joined();
}

/// A block that doesn't fit is answered immediately by the code of its only cause.
///
/// RFC 7959, section 2.9, defines 4.08 and 4.13. The causes:
///
/// - 5.03 (Service Unavailable), whose byte is 163, exactly if the block has number 0 and 16 other
///   transfers are in progress.
/// - 4.08 (Request Entity Incomplete), 136, exactly if the block has another number and doesn't
///   begin at the end of the blocks before it.
/// - 4.00 (Bad Request), 128, exactly if the request's payload doesn't have the length of the
///   block.
/// - 4.13 (Request Entity Too Large), 141, exactly if the sum of the payloads is above 8,208 bytes.
///
/// Such a block makes no job. The only other immediate answer is 2.31 (Continue), 95.
pub fn refused_blocks_have_causes()
    ensures full { (h : History) (now : ℕ) (to : Endpoint) (m : Message) (r : Asked) (b : Place) →
        r.block1 ≡ Some b →
        ((asked_at (seen h) now to m r ≡ Immediate m r (bare 163))
        ↔ FindsNoRoom (seen h).additions (addition_at (seen h) now to r) b) }
    ensures incomplete { (h : History) (now : ℕ) (to : Endpoint) (m : Message) (r : Asked) (b : Place) →
        r.block1 ≡ Some b →
        ((asked_at (seen h) now to m r ≡ Immediate m r (bare 136))
        ↔ IsOutOfPlace (seen h).additions (addition_at (seen h) now to r) b) }
    ensures length { (h : History) (now : ℕ) (to : Endpoint) (m : Message) (r : Asked) (b : Place) →
        r.block1 ≡ Some b →
        ((asked_at (seen h) now to m r ≡ Immediate m r (bare 128))
        ↔ HasWrongLength (seen h).additions (addition_at (seen h) now to r) b) }
    ensures sum { (h : History) (now : ℕ) (to : Endpoint) (m : Message) (r : Asked) (b : Place) →
        r.block1 ≡ Some b →
        ((asked_at (seen h) now to m r ≡ Immediate m r (bare 141))
        ↔ HasLargeSum (seen h).additions (addition_at (seen h) now to r) b) }
    ensures only { (h : History) (now : ℕ) (to : Endpoint) (m : Message) (r : Asked) (b : Place) (response : Response) →
        r.block1 ≡ Some b → asked_at (seen h) now to m r ≡ Immediate m r response → IsAnswerAtOnce b response }
    ensures answered { (e : Entry) (s : Seen) (m : Message) (r : Asked) (answer : ℕ) →
        Asks s e.event m r → RespondsNowBy s e.event m r answer → Emits s e.event e.emitted
        → e.emitted ≡ bare_by s e.event m answer }
    ensures waits { (e : Entry) (s : Seen) (m : Message) (r : Asked) (answer : ℕ) →
        Asks s e.event m r → RespondsNowBy s e.event m r answer → (and_then e s).tasks ≡ s.tasks }
{
    refusals_have_only_their_causes();
}

/// A GET that requests a block is answered by the block with that number and size.
///
/// The request's "more" bit has no effect.
pub fn asked_blocks_are_cut()
    ensures { (body : List ℕ) (p : Place) → p.szx < 7
        → cut_for (Some p) body ≡ cut_at body p.number p.szx }
{}
