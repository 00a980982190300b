//! Laws of options and payloads: each function is a law, stated by its contract.
ghost use Rattle.std.specs.Prelude.{◌≡◌, ◌≢◌, ℕ, ◌≤◌, ◌%◌, ◌∷◌, [], List, None, Option, Some, Bool, codes, false, true};
ghost use Rattle.std.specs.Int.{to_be_bytes, w64};
ghost use Rattle.coap_block.specs.Cuts.{Part};
ghost use Rattle.coap_opts.specs.Values.{Place, block_bytes, uint_bytes};
ghost use Rattle.coap_reply.specs.Blocks.{cut_for};
ghost use Rattle.coap_reply.specs.Responses.{Response};
ghost use Rattle.fc_front.specs.Contents.{Deleted, Described, Listed, Made, Missing, Ran, Rejected, RunAnswer, Unavailable, Untyped, Valid};
ghost use Rattle.fc_front.specs.Links.{links_text};
ghost use Rattle.fc_front.specs.Replies.{Says};
ghost use Rattle.fc_isa.specs.Rules.{fault_text, number_of};
ghost use Rattle.fc_isa.specs.declared.rule.Rule.{Rule};
ghost use Rattle.fc_ticket.specs.Receipts.{receipt_text};
ghost use Rattle.fc_ticket.specs.declared.job.Job.{Job};
ghost use Rattle.fc_ticket.specs.declared.receipt.Receipt.{Receipt};

/// An install is answered by the receipt of the program.
///
/// If the image was sent in blocks, the answer has the Block1 of the last block, option 27 (RFC
/// 7959, section 2.3). If the image was sent complete, the answer has no option.
pub fn installs_are_answered_by_receipts()
    ensures whole { (j : Job) (receipt : Receipt) (created : Bool) (r : Response) → j.block ≡ None → Says j (Made receipt created) r
        → (r.options ≡ []) × (r.payload ≡ receipt_text receipt) }
    ensures in_blocks { (j : Job) (receipt : Receipt) (created : Bool) (r : Response) (p : Place) → j.block ≡ Some p
        → Says j (Made receipt created) r → (r.options ≡ (27, block_bytes p) ∷ []) × (r.payload ≡ receipt_text receipt) }
{}

/// Some answers consist of a code alone, or of a code with an ETag.
///
/// A 2.03 (Valid), 67, has the slot's serial as its ETag, option 4, and no payload (RFC 7252,
/// section 5.9.1.3). A 2.02 (Deleted), 66, a 4.04 (Not Found), 132, and a 5.03 (Service
/// Unavailable), 163, have neither options nor payload, and so no Max-Age.
pub fn some_answers_are_codes_alone()
    ensures valid { (j : Job) (serial : ℕ) (r : Response) → Says j (Valid serial) r
        → r ≡ record { code = 67; options = (4, to_be_bytes w64 serial) ∷ []; payload = [] } }
    ensures deleted { (j : Job) (r : Response) → Says j Deleted r → r ≡ record { code = 66; options = []; payload = [] } }
    ensures missing { (j : Job) (r : Response) → Says j Missing r → r ≡ record { code = 132; options = []; payload = [] } }
    ensures unavailable { (j : Job) (r : Response) → Says j Unavailable r → r ≡ record { code = 163; options = []; payload = [] } }
{}

/// The answer to a refused image names a rule that the image breaks, and a slot.
///
/// The answer is a text without options. It has the first rule that the image breaks, and the slot.
/// If only the typing refuses the image, the text has a number from 20 to 28 and any slot (RFC
/// 7252, section 5.5.2).
pub fn refused_images_are_told_why()
    ensures rejected { (j : Job) (rule : Rule) (slot : ℕ) (r : Response) → Says j (Rejected rule slot) r
        → (r.options ≡ []) × (r.payload ≡ fault_text (number_of rule) slot) }
    ensures untyped { (j : Job) (r : Response) → Says j Untyped r → (number : ℕ) × (slot : ℕ) × (20 ≤ number) × (number ≤ 28)
        × (r.options ≡ []) × (r.payload ≡ fault_text number slot) }
{}

/// The receipt of a slot, and the list of slots, are cut to the requested block.
///
/// The answer has Block2, option 23, unless it is sent complete (RFC 7959, section 2.4). The list
/// has Content-Format 40, option 12 (RFC 7252, section 12.3); a receipt has no Content-Format.
pub fn descriptions_are_cut_as_asked()
    ensures described { (j : Job) (receipt : Receipt) (part : Part) (r : Response) → cut_for j.block (receipt_text receipt) ≡ Some part
        → part.place ≡ None → Says j (Described receipt) r → (r.options ≡ []) × (r.payload ≡ part.bytes) }
    ensures described_in_blocks { (j : Job) (receipt : Receipt) (part : Part) (p : Place) (r : Response)
        → cut_for j.block (receipt_text receipt) ≡ Some part → part.place ≡ Some p → Says j (Described receipt) r
        → (r.options ≡ (23, block_bytes p) ∷ []) × (r.payload ≡ part.bytes) }
    ensures listed { (j : Job) (words : List ℕ) (part : Part) (r : Response) → cut_for j.block (links_text words) ≡ Some part
        → part.place ≡ None → Says j (Listed words) r → (r.options ≡ (12, 40 ∷ []) ∷ []) × (r.payload ≡ part.bytes) }
    ensures listed_in_blocks { (j : Job) (words : List ℕ) (part : Part) (p : Place) (r : Response)
        → cut_for j.block (links_text words) ≡ Some part → part.place ≡ Some p → Says j (Listed words) r
        → (r.options ≡ (12, 40 ∷ []) ∷ (23, block_bytes p) ∷ []) × (r.payload ≡ part.bytes) }
{}

/// A run is answered by its code and its reply.
///
/// - A 2.05 (Content), 69, has the serial of the snapshot as its ETag, option 4. If the client
///   observes the slot, the answer has the lowest 24 bits of that serial as its sequence number,
///   option 6. The answer has the requested block of the reply, with Block2, option 23, unless the
///   reply is sent complete.
/// - A 2.04 (Changed), 68, has the sent part of the reply as its payload, and no options.
/// - An answer of any other code has neither options nor payload.
pub fn runs_are_answered_with_their_reply()
    ensures content { (j : Job) (run : RunAnswer) (part : Part) (r : Response) → run.code ≡ 69 → run.cut ≡ Some part → part.place ≡ None
        → run.observed ≡ false → Says j (Ran run) r → (r.options ≡ (4, to_be_bytes w64 run.serial) ∷ []) × (r.payload ≡ part.bytes) }
    ensures in_blocks { (j : Job) (run : RunAnswer) (part : Part) (p : Place) (r : Response) → run.code ≡ 69 → run.cut ≡ Some part
        → part.place ≡ Some p → run.observed ≡ false → Says j (Ran run) r
        → (r.options ≡ (4, to_be_bytes w64 run.serial) ∷ (23, block_bytes p) ∷ []) × (r.payload ≡ part.bytes) }
    ensures observed { (j : Job) (run : RunAnswer) (part : Part) (r : Response) → run.code ≡ 69 → run.cut ≡ Some part → part.place ≡ None
        → run.observed ≡ true → Says j (Ran run) r
        → (r.options ≡ (4, to_be_bytes w64 run.serial) ∷ (6, uint_bytes (run.serial % 16777216)) ∷ []) × (r.payload ≡ part.bytes) }
    ensures observed_in_blocks { (j : Job) (run : RunAnswer) (part : Part) (p : Place) (r : Response) → run.code ≡ 69
        → run.cut ≡ Some part → part.place ≡ Some p → run.observed ≡ true → Says j (Ran run) r
        → (r.options ≡ (4, to_be_bytes w64 run.serial) ∷ (6, uint_bytes (run.serial % 16777216)) ∷ (23, block_bytes p) ∷ [])
        × (r.payload ≡ part.bytes) }
    ensures changed { (j : Job) (run : RunAnswer) (part : Part) (r : Response) → run.code ≡ 68 → run.cut ≡ Some part → Says j (Ran run) r
        → (r.options ≡ []) × (r.payload ≡ part.bytes) }
    ensures other { (j : Job) (run : RunAnswer) (r : Response) → run.code ≢ 69 → run.code ≢ 68 → Says j (Ran run) r
        → (r.options ≡ []) × (r.payload ≡ []) }
{}

/// The texts of answers are ASCII, as these examples show.
///
/// The examples are a receipt, two refusals of an image, and two lists of links. A list has the
/// slots with a program, whose head words are odd.
pub fn texts_are_plain()
    ensures receipt { receipt_text (record { version = 1; cost = 2; budget = 3; vars = 8 }) ≡ codes "version=1 cost=2 budget=3 vars=8" }
    ensures refusal { fault_text 16 0 ≡ codes "V16 slot 0" }
    ensures early_refusal { fault_text 5 7 ≡ codes "V05 slot 7" }
    ensures links { links_text (3 ∷ 4 ∷ 0 ∷ 7 ∷ []) ≡ codes "</r/0>;obs,</r/3>;obs" }
    ensures no_link { links_text (2 ∷ 0 ∷ []) ≡ [] }
{}
