//! Laws about the definitions, for the crates that use this one.
//!
//! Each law is the contract of an empty function.
ghost use Rattle.std.specs.Prelude.{◌≡◌, ◌≢◌, ◌<◌, ◌≤◌, ◌^◌, ◌%◌, ◌∷◌, ◌++◌, [], ℕ, Bool, false, true, List, None, Ok, Option, Some, length};
ghost use Rattle.std.specs.Int.{to_be_bytes, w64};
ghost use Rattle.coap_msg.specs.Reading.{reading_of};
ghost use Rattle.coap_msg.specs.Wire.{IsMessage, Message};
ghost use Rattle.coap_opts.specs.Values.{Place, block_bytes, uint_bytes, uint_value};
ghost use Rattle.coap_block.specs.Cuts.{Part};
ghost use Rattle.coap_reply.specs.Blocks.{block1, block2};
ghost use Rattle.coap_reply.specs.Responses.{Envelope, Response, content, etag, observe_option, ran_response, sent_in, settled_by, text};

use coap_msg::laws::written_is_read;

/// A response is sent to its envelope's endpoint, and is parsed as it was written.
///
/// The parsed message has the envelope's type, message ID and token, and the response's code,
/// options and payload (RFC 7252, section 3).
pub fn replies_are_read_as_their_responses()
    ensures to { (e : Envelope) (r : Response) → (sent_in e r).to ≡ e.to }
    ensures message { (e : Envelope) (r : Response) (m : Message) → IsMessage m
        → m ≡ record { kind = e.kind; code = r.code; id = e.id; token = e.token; options = r.options; payload = r.payload }
        → reading_of (sent_in e r).bytes.items ≡ Ok m }
{
    written_is_read();
}

/// The ETag and the Observe value of a revision counter.
///
/// The ETag is option 4 with the counter's eight bytes, the most significant first (RFC 7252,
/// section 5.10.6). The sequence number of a notification is option 6 with the counter's lowest 24
/// bits, in the least number of bytes (RFC 7641, sections 2 and 4.4).
pub fn versions_are_serials()
    ensures etag { (serial : ℕ) → serial < 2 ^ 64
        → (value : List ℕ) × (etag serial ≡ (4, value) ∷ []) × (length value ≡ 8) × (uint_value value ≡ serial) }
    ensures sequence { (serial : ℕ) → observe_option true serial ≡ (6, uint_bytes (serial % 16777216)) ∷ [] }
    ensures none { (serial : ℕ) → observe_option false serial ≡ [] }
{}

/// A block of a response is named by Block2, option 23.
///
/// A block of a request's body is named by Block1, option 27 (RFC 7959, section 2.1).
pub fn blocks_have_their_options()
    ensures block2 { (p : Place) → block2 (Some p) ≡ (23, block_bytes p) ∷ [] }
    ensures block1 { (p : Place) → block1 (Some p) ≡ (27, block_bytes p) ∷ [] }
    ensures no_block2 { block2 None ≡ [] }
    ensures no_block1 { block1 None ≡ [] }
{}

/// The response to a run, by its code (RFC 7252, section 5.9).
///
/// - 2.05 (Content), 69: the ETag is the revision counter that the run found. If the client
///   observes the slot, the counter's lowest 24 bits are the sequence number. The payload is the
///   requested block, with its Block2. If there is no such block, the response is 4.00 (Bad
///   Request), 128, without options and payload.
/// - 2.04 (Changed), 68: the payload is the requested block, and there are no options.
/// - Any other code: there are no options and no payload.
pub fn runs_have_their_responses()
    ensures content { (part : Part) (serial : ℕ) → ran_response 69 (Some part) serial false
        ≡ record { code = 69; options = (4, to_be_bytes w64 serial) ∷ block2 part.place; payload = part.bytes } }
    ensures observed { (part : Part) (serial : ℕ) → ran_response 69 (Some part) serial true
        ≡ record { code = 69; options = (4, to_be_bytes w64 serial) ∷ (6, uint_bytes (serial % 16777216)) ∷ block2 part.place; payload = part.bytes } }
    ensures past { (serial : ℕ) (observed : Bool) → ran_response 69 None serial observed
        ≡ record { code = 128; options = []; payload = [] } }
    ensures changed { (part : Part) (serial : ℕ) (observed : Bool) → ran_response 68 (Some part) serial observed
        ≡ record { code = 68; options = []; payload = part.bytes } }
    ensures other { (answer serial : ℕ) (cut : Option Part) (observed : Bool) → answer ≢ 69 → answer ≢ 68
        → ran_response answer cut serial observed ≡ record { code = answer; options = []; payload = [] } }
{}

/// The responses to jobs other than runs, and to blocks of a request's body.
///
/// A 2.05 (Content), 69, has the given options, followed by a Block2 if the block has a place. A
/// text has no options. A block that is answered immediately gets a code without a payload, and
/// with the Block1 that is given, if any (RFC 7959, section 2.3).
pub fn others_have_their_responses()
    ensures content { (part : Part) (options : List (ℕ × List ℕ)) → part.place ≡ None → content options (Some part)
        ≡ record { code = 69; options = options; payload = part.bytes } }
    ensures content_block { (part : Part) (options : List (ℕ × List ℕ)) (p : Place) → part.place ≡ Some p → content options (Some part)
        ≡ record { code = 69; options = options ++ (23, block_bytes p) ∷ []; payload = part.bytes } }
    ensures text { (answer : ℕ) (bytes : List ℕ) → text answer bytes ≡ record { code = answer; options = []; payload = bytes } }
    ensures settled { (answer : ℕ) (p : Place) → settled_by answer (Some p)
        ≡ record { code = answer; options = (27, block_bytes p) ∷ []; payload = [] } }
    ensures settled_alone { (answer : ℕ) → settled_by answer None ≡ record { code = answer; options = []; payload = [] } }
{}
