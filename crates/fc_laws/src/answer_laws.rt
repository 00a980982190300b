//! Laws of answers and times: each function is a law, stated by its contract.
ghost use Rattle.coap_msg.specs.declared.types.Emission.{Emission};
ghost use Rattle.fc_core.specs.AnswerLaws.{Causes, greatest, times_of, shard_times_of};
ghost use Rattle.coap_block.specs.Cuts.{Part};
ghost use Rattle.coap_reply.specs.Blocks.{cut_for};
ghost use Rattle.fc_front.specs.Contents.{Content, Deleted, Described, Listed, Made, Missing, Ran, Rejected, RunAnswer, Unavailable, Untyped, Valid};
ghost use Rattle.fc_front.specs.Links.{links_text};
ghost use Rattle.fc_front.specs.Replies.{Says};
ghost use Rattle.fc_isa.specs.declared.rule.Rule.{Rule};
ghost use Rattle.fc_ticket.specs.Receipts.{receipt_text};
ghost use Rattle.fc_ticket.specs.declared.job.Job.{Job};
ghost use Rattle.fc_ticket.specs.declared.receipt.Receipt.{Receipt};
ghost use Rattle.fc_core.specs.History.{Entry, History, Then, Seen, seen, and_then, did, slot_at, stage};
ghost use Rattle.fc_core.specs.Laws.{HasCome, answer_at, slot_of};
ghost use Rattle.coap_reply.specs.Responses.{Response, bare, ran_response};
ghost use Rattle.fc_core.specs.declared.event.Event.TheVariants.{Take};
ghost use Rattle.fc_core.specs.Stage.{ToAnswer, ToTake};
ghost use Rattle.fc_help.specs.declared.request.Method.TheVariants.{Post};
ghost use Rattle.fc_kinds.specs.Meaning.{Input, IsRun, Program, meant};
ghost use Rattle.fc_registry.specs.Record.{code_class};
ghost use Rattle.std.specs.Prelude.{ℕ, ◌⊎◌, ◌++◌, ◌<◌, ◌≤◌, Bool, List, None, Option, Some, false, length, take, true, ◌≡◌};

/// A job's answer after an event was its answer before, or the event caused it.
///
/// The causes of each answer:
///
/// - 5.03 (Service Unavailable): memory can't be allocated, the slot changes under the job's eighth
///   ticket, the slot is at its last serial and has to change, or the store refuses the save.
/// - 4.04 (Not Found): a snapshot or a receipt finds the slot empty.
/// - 2.03 (Valid): the slot's head word is that of a program at a serial that the request names.
/// - 2.02 (Deleted): a removal.
/// - The code of a run, with the requested block of the run's reply: the commit of the run. If the
///   run wants to write, only a commit that may write is a cause.
/// - The receipt of an install: the install. The receipt is that of the program, its version is the
///   slot's new serial, and it says whether the slot was empty.
/// - The receipt of a slot: the reading of the receipt. The receipt is that of the slot's program,
///   with the serial of the program's install.
/// - A list of head words: the reading of the last of the list's 64 words.
pub fn answers_have_causes()
    ensures { (h : History) (r : Entry) (k : ℕ) (c : Content)
        → answer_at (stage (seen (Then h r)) k) ≡ Some c
        → (answer_at (stage (seen h) k) ≡ Some c) ⊎ Causes h r k c }
{}

/// A slot is empty after the removal that makes a job's answer 2.02 (Deleted).
pub fn deleted_slots_are_empty()
    ensures { (h : History) (r : Entry) (k : ℕ) → HasCome (seen h) k
        → answer_at (stage (seen (Then h r)) k) ≡ Some Deleted
        → (answer_at (stage (seen h) k) ≡ Some Deleted) ⊎ ((slot_at (seen (Then h r)) (slot_of (seen h) k)).present ≡ None) }
{}

/// A snapshot that finds the slot empty makes the job's answer 4.04 (Not Found).
///
/// The job is at the stage of its snapshot. The law holds whether or not memory can be allocated.
pub fn empty_slots_are_missing()
    ensures { (s : Seen) (k count : ℕ) (memory : Bool) (readings : List ℕ) (o : Option Emission) → stage s k ≡ ToTake count
        → (slot_at s (slot_of s k)).present ≡ None
        → stage (and_then (did (Take k memory readings) o) s) k ≡ ToAnswer Missing }
{}

/// The time of the front, and of a shard, is the latest time passed to it.
///
/// Deliveries, ticks and timers that fire pass a time to the front. So does a job at the right
/// stage that is answered, or that draws a message ID for a lease. Requests for a lease, and ticks,
/// pass a time to a shard. So does a job at the right stage that commits, notifies or releases its
/// lease in a slot of the shard.
pub fn times_are_the_greatest()
    ensures front { (h : History) → (seen h).time ≡ greatest (times_of h) }
    ensures shard { (h : History) (i : ℕ) → (seen h).shard_time i ≡ greatest (shard_times_of i h) }
{}

/// Without a requested block, an answer of at most 1,024 bytes is sent complete.
///
/// An answer that is sent complete has no Block2. Of a longer answer the first 1,024 bytes are sent
/// as block 0 of that size, with more to follow. The reply to a POST is always sent complete.
pub fn unasked_answers_are_cut_at_1024()
    ensures whole { (body : List ℕ) → length body ≤ 1024
        → cut_for None body ≡ Some (record { bytes = body; place = None }) }
    ensures longer { (body : List ℕ) → 1024 < length body
        → cut_for None body ≡ Some (record { bytes = take 1024 body; place = Some (record { number = 0; more = true; szx = 6 }) }) }
    ensures post { (p : Program) (input : Input) → IsRun p input → input.request.method ≡ Post
        → cut_for None (meant p input).reply ≡ Some (record { bytes = (meant p input).reply; place = None }) }
{}

/// A run whose code isn't of class 2 is answered by its code alone.
///
/// This holds for any reply, and whether or not the slot is observed.
pub fn errors_carry_no_block()
    ensures { (answer : ℕ) (cut : Option Part) (serial : ℕ) (observed : Bool)
        → (code_class answer ≡ 2 → ⊥)
        → ran_response answer cut serial observed ≡ bare answer }
{}

/// Each answer has its code, given by the code's byte (RFC 7252, section 12.1.2).
///
/// - The receipt of an install is a 2.01 (Created), 65, if the slot was empty, and otherwise a 2.04
///   (Changed), 68.
/// - The answer of a removal is a 2.02 (Deleted), 66.
/// - The answer of a job whose ETag matches is a 2.03 (Valid), 67.
/// - The answer for an empty slot is a 4.04 (Not Found), 132.
/// - The answer of a job that can't be executed is a 5.03 (Service Unavailable), 163.
/// - The answer to a refused image is a 4.00 (Bad Request), 128.
/// - The receipt of a slot, and the list of slots, are a 2.05 (Content), 69.
/// - The answer of a run has the run's own code.
/// - An answer that would be a 2.05 is a 4.00 if the requested block begins at or past the end of
///   the answer.
pub fn answers_have_their_codes()
    ensures created { (j : Job) (receipt : Receipt) (r : Response) → Says j (Made receipt true) r → r.code ≡ 65 }
    ensures changed { (j : Job) (receipt : Receipt) (r : Response) → Says j (Made receipt false) r → r.code ≡ 68 }
    ensures deleted { (j : Job) (r : Response) → Says j Deleted r → r.code ≡ 66 }
    ensures valid { (j : Job) (serial : ℕ) (r : Response) → Says j (Valid serial) r → r.code ≡ 67 }
    ensures missing { (j : Job) (r : Response) → Says j Missing r → r.code ≡ 132 }
    ensures unavailable { (j : Job) (r : Response) → Says j Unavailable r → r.code ≡ 163 }
    ensures rejected { (j : Job) (rule : Rule) (slot : ℕ) (r : Response) → Says j (Rejected rule slot) r → r.code ≡ 128 }
    ensures untyped { (j : Job) (r : Response) → Says j Untyped r → r.code ≡ 128 }
    ensures described { (j : Job) (receipt : Receipt) (part : Part) (r : Response)
        → cut_for j.block (receipt_text receipt) ≡ Some part → Says j (Described receipt) r → r.code ≡ 69 }
    ensures described_past { (j : Job) (receipt : Receipt) (r : Response)
        → cut_for j.block (receipt_text receipt) ≡ None → Says j (Described receipt) r → r.code ≡ 128 }
    ensures listed { (j : Job) (words : List ℕ) (part : Part) (r : Response)
        → cut_for j.block (links_text words) ≡ Some part → Says j (Listed words) r → r.code ≡ 69 }
    ensures listed_past { (j : Job) (words : List ℕ) (r : Response)
        → cut_for j.block (links_text words) ≡ None → Says j (Listed words) r → r.code ≡ 128 }
    ensures ran { (j : Job) (run : RunAnswer) (part : Part) (r : Response)
        → run.cut ≡ Some part → Says j (Ran run) r → r.code ≡ run.code }
    ensures ran_past { (j : Job) (run : RunAnswer) (r : Response)
        → run.cut ≡ None → run.code ≡ 69 → Says j (Ran run) r → r.code ≡ 128 }
{}
