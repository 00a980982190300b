//! Laws about the definitions, for the crates that use this one.
//!
//! Each law is the contract of an empty function.
ghost use Rattle.std.specs.Prelude.{◌≡◌, ◌≢◌, ◌↔◌, ◌⊎◌, ◌+◌, ◌*◌, ◌<◌, ◌≤◌, ◌^◌, ℕ, List, None, Option, Some, [], ◌∷◌, false, length, slice_index, true};
ghost use Rattle.coap_opts.specs.Checks.{HasBadValue, IsAllowed, IsRequest, NamesProxy, PassesOptions};
ghost use Rattle.coap_opts.specs.Classified.{IsErrorCode};
ghost use Rattle.coap_opts.specs.Observe.{has_observe};
ghost use Rattle.coap_opts.specs.Recognition.{has_unknown_critical, is_recognised};
ghost use Rattle.coap_opts.specs.Values.{Place, block_bytes, block_size, place_in, uint_bytes, uint_value};
ghost use Rattle.coap_msg.specs.declared.types.MessageType.TheVariants.{Acknowledgement, Confirmable, NonConfirmable, Reset};
ghost use Rattle.coap_opts.specs.Path.{method_of, resource_of};
ghost use Rattle.coap_opts.specs.Fields.{IsAskedWithin, IsMadeOf, IsResource, method_code, path_of};
ghost use Rattle.coap_msg.specs.Wire.{Message};
ghost use Rattle.coap_opts.specs.Verdict.{Asked, IsAsked, IsIgnored, IsRefused, IsReset, IsSignal, IsSilent, action, resource, verdict};
ghost use Rattle.coap_opts.specs.declared.request.Method.{Method};
ghost use Rattle.coap_opts.specs.declared.request.Method.TheVariants.{Get, Post, Put, Delete};
ghost use Rattle.coap_opts.specs.declared.request.Resource.{Resource};
ghost use Rattle.coap_opts.specs.declared.request.Action.{Action};
ghost use Rattle.std.specs.List.{All};
ghost use Rattle.coap_msg.specs.declared.code.TheConstants.Code.{GET, PUT};
ghost use Rattle.coap_opts.specs.Served.{action_of, once, repeatable, resource_in, rows};
ghost use Rattle.coap_opts.specs.Fields.{method_in};

use crate::number::{
    BLOCK1, BLOCK2, CONTENT_FORMAT, ETAG, OBSERVE, PROXY_SCHEME, PROXY_URI, URI_HOST, URI_PATH,
    URI_PORT, URI_QUERY,
};
use crate::observe::{CANCEL, REGISTER};

/// Encoding and then decoding an integer gives that integer.
///
/// The encoding has at most 8 bytes and no leading zero.
pub fn uints_are_read_again()
    ensures again { (n : ℕ) → n < 2 ^ 64 → uint_value (uint_bytes n) ≡ n }
    ensures shortest { (n : ℕ) → 0 < length (uint_bytes n) → slice_index (uint_bytes n) 0 ≢ 0 }
    ensures short { (n : ℕ) → length (uint_bytes n) ≤ 8 }
{}

/// Each resource has one path, and other paths name no resource.
pub fn resources_have_one_path()
    ensures named { (r : Resource) → IsResource r → resource_of (path_of r) ≡ Some r }
    ensures only { (segments : List (List ℕ)) (r : Resource) → resource_of segments ≡ Some r →
        (segments ≡ path_of r) × IsResource r }
{}

/// Each action is a method of a resource, and no other method or resource has it.
pub fn actions_have_their_methods()
    ensures served { (action : Action) → action_of (resource_in action) (method_in action) ≡ Some action }
    ensures only { (at : Resource) (method : Method) (action : Action) → action_of at method ≡ Some action →
        (at ≡ resource_in action) × (method ≡ method_in action) }
{}

/// An accepted request's fields are within limits; a refusal has an error code.
///
/// The query has at most 64 bytes, the payload at most 1,024, and there are at most 4 ETags. ETags
/// and Block2 occur only in a GET, Observe only in a GET of `/r/N`, and Block1 only in a PUT. No
/// block has the reserved size. The resource exists and serves the method.
pub fn requests_are_within()
    ensures accepted { (m : Message) (r : Asked) → verdict m ≡ IsAsked r → IsAskedWithin m r }
    ensures refused { (m : Message) (code : ℕ) → verdict m ≡ IsRefused code → IsErrorCode code }
{}

/// Each field of an accepted request comes from its message.
///
/// The method is that of the code, the resource is that of the Uri-Path values, and the query is
/// that of the Uri-Query values. Each other field comes from the options with its number.
pub fn fields_are_the_options()
    ensures { (m : Message) (r : Asked) → verdict m ≡ IsAsked r → IsMadeOf m r }
{}

/// Codes 1 to 4 are GET, POST, PUT and DELETE; no other code is a method.
///
/// See RFC 7252, section 12.1.1.
pub fn methods_have_their_codes()
    ensures get { method_of 1 ≡ Some Get }
    ensures post { method_of 2 ≡ Some Post }
    ensures put { method_of 3 ≡ Some Put }
    ensures delete { method_of 4 ≡ Some Delete }
    ensures only { (code : ℕ) (method : Method) → method_of code ≡ Some method → code ≡ method_code method }
{}

/// The numbers of the named options.
///
/// See RFC 7252, section 12.2; RFC 7641, section 6; and RFC 7959, section 6.
pub fn options_are_registered()
    ensures uri_host { URI_HOST ≡ 3 }
    ensures etag { ETAG ≡ 4 }
    ensures observe { OBSERVE ≡ 6 }
    ensures uri_port { URI_PORT ≡ 7 }
    ensures uri_path { URI_PATH ≡ 11 }
    ensures content_format { CONTENT_FORMAT ≡ 12 }
    ensures uri_query { URI_QUERY ≡ 15 }
    ensures block2 { BLOCK2 ≡ 23 }
    ensures block1 { BLOCK1 ≡ 27 }
    ensures proxy_uri { PROXY_URI ≡ 35 }
    ensures proxy_scheme { PROXY_SCHEME ≡ 39 }
{}

/// Observe 0 registers, and Observe 1 cancels (RFC 7641, section 2).
///
/// No other value does either, and a request without the option does neither.
pub fn observe_values_have_their_meanings()
    ensures registers { (option : Option ℕ) → ((has_observe REGISTER option ≡ true) ↔ (option ≡ Some 0)) }
    ensures cancels { (option : Option ℕ) → ((has_observe CANCEL option ≡ true) ↔ (option ≡ Some 1)) }
{}

/// The recognised options: their lengths, and the methods they are defined for.
///
/// The numbers of a row are the least and the greatest length of a value (RFC 7252, section 5.10;
/// RFC 7641, section 2; RFC 7959, section 2.1). A row with a method is for this method alone. An
/// option that isn't repeatable is recognised once. Its repetition, which directly follows it,
/// isn't recognised (RFC 7252, section 5.4.5). No other option number is recognised.
pub fn options_are_recognised()
    ensures table { rows ≡ once URI_HOST 1 255 None
        ∷ repeatable ETAG 1 8 (Some GET)
        ∷ once OBSERVE 0 3 (Some GET)
        ∷ once URI_PORT 0 2 None
        ∷ repeatable URI_PATH 0 255 None
        ∷ once CONTENT_FORMAT 0 2 None
        ∷ repeatable URI_QUERY 0 255 None
        ∷ once BLOCK2 0 3 (Some GET)
        ∷ once BLOCK1 0 3 (Some PUT)
        ∷ once PROXY_URI 1 1034 None
        ∷ once PROXY_SCHEME 1 255 None
        ∷ [] }
    ensures known { (code count : ℕ) (before : Option ℕ) →
        All (λ r. (is_recognised code before r.number count ≡ true) ↔ IsAllowed r code before count) rows }
    ensures others { (code count number : ℕ) (before : Option ℕ) →
        All (λ r. r.number ≢ number) rows → is_recognised code before number count ≡ false }
{}

/// The checks of a request, in their order; the first that fails decides.
///
/// 1. The request names a proxy: 5.05, whose byte is 165.
/// 2. A critical option isn't recognised: 4.02, whose byte is 130. A non-confirmable request then
///   gets no response.
/// 3. The code isn't a method: 4.05, whose byte is 133.
/// 4. The path names no resource: 4.04, whose byte is 132.
/// 5. The method isn't served at the resource: 4.05.
/// 6. A block has the reserved size, or the query has more than 64 bytes: 4.00, whose byte is 128.
/// 7. The payload has more than 1,024 bytes: 4.13, whose byte is 141.
///
/// See RFC 7252, sections 5.4.1, 5.8, 5.9 and 5.10.2, and RFC 7959, section 2.2.
pub fn checks_come_in_order()
    ensures proxy { (m : Message) → IsRequest m → NamesProxy m → verdict m ≡ IsRefused 165 }
    ensures option { (m : Message) → IsRequest m → (NamesProxy m → ⊥) → m.kind ≡ Confirmable
        → has_unknown_critical m.code None m.options ≡ true → verdict m ≡ IsRefused 130 }
    ensures silent { (m : Message) → IsRequest m → (NamesProxy m → ⊥) → m.kind ≡ NonConfirmable
        → has_unknown_critical m.code None m.options ≡ true → verdict m ≡ IsSilent }
    ensures method { (m : Message) → IsRequest m → PassesOptions m → 4 < m.code → verdict m ≡ IsRefused 133 }
    ensures path { (m : Message) → IsRequest m → PassesOptions m → m.code ≤ 4 → resource m ≡ None → verdict m ≡ IsRefused 132 }
    ensures served { (m : Message) (at : Resource) (method : Method) → IsRequest m → PassesOptions m → method_of m.code ≡ Some method
        → resource m ≡ Some at → action_of at method ≡ None → verdict m ≡ IsRefused 133 }
    ensures value { (m : Message) (a : Action) → IsRequest m → PassesOptions m → action m ≡ Some a → HasBadValue m
        → verdict m ≡ IsRefused 128 }
    ensures payload { (m : Message) (a : Action) → IsRequest m → PassesOptions m → action m ≡ Some a → (HasBadValue m → ⊥)
        → 1024 < length m.payload → verdict m ≡ IsRefused 141 }
    ensures carried_out { (m : Message) (a : Action) → IsRequest m → PassesOptions m → action m ≡ Some a → (HasBadValue m → ⊥)
        → length m.payload ≤ 1024 → (r : Asked) × (verdict m ≡ IsAsked r) × (r.action ≡ a) }
{}

/// The verdicts for messages that aren't requests (RFC 7252, sections 4.2 and 4.3).
///
/// A confirmable message with code 0.00 or a class above 0 is rejected with a Reset message. A
/// non-confirmable message with such a code is ignored. An empty Acknowledgement or Reset message
/// is a signal, and every other Acknowledgement or Reset message is ignored.
pub fn other_messages_have_their_verdicts()
    ensures rejected { (m : Message) → m.kind ≡ Confirmable → (m.code ≡ 0) ⊎ (32 ≤ m.code) → verdict m ≡ IsReset }
    ensures ignored { (m : Message) → m.kind ≡ NonConfirmable → (m.code ≡ 0) ⊎ (32 ≤ m.code) → verdict m ≡ IsIgnored }
    ensures acknowledges { (m : Message) → m.kind ≡ Acknowledgement → m.code ≡ 0 → verdict m ≡ IsSignal false }
    ensures resets { (m : Message) → m.kind ≡ Reset → m.code ≡ 0 → verdict m ≡ IsSignal true }
    ensures acknowledges_nothing { (m : Message) → m.kind ≡ Acknowledgement → m.code ≢ 0 → verdict m ≡ IsIgnored }
    ensures resets_nothing { (m : Message) → m.kind ≡ Reset → m.code ≢ 0 → verdict m ≡ IsIgnored }
{}

/// The value of a block option (RFC 7959, section 2.2).
///
/// The value is 16 times the block number, plus 8 if more blocks follow, plus SZX. It is encoded in
/// the least number of bytes, and decoding it gives the block again. The block size is 16 bytes for
/// SZX 0, and 1,024 bytes for SZX 6.
pub fn blocks_have_their_values()
    ensures last { (number szx : ℕ)
        → block_bytes (record { number = number; more = false; szx = szx }) ≡ uint_bytes (16 * number + szx) }
    ensures more { (number szx : ℕ)
        → block_bytes (record { number = number; more = true; szx = szx }) ≡ uint_bytes (16 * number + 8 + szx) }
    ensures again { (b : Place) → b.number < 2 ^ 20 → b.szx < 8 → place_in (block_bytes b) ≡ b }
    ensures least { block_size 0 ≡ 16 }
    ensures greatest { block_size 6 ≡ 1024 }
{}
