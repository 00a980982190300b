//! Laws about helpers and the memory of programs, for the crates above.
//!
//! Each law is the contract of an empty function.
ghost use Rattle.std.specs.Prelude.{List, None, Some, codes, length, negsuc, pos, slice_index, ℕ, ◌*◌, ◌+◌, ◌-◌, ◌<◌, ◌^◌, ◌≡◌, ◌≤◌};
ghost use Rattle.fc_help.specs.Helpers.{helper_name, helper_of, room_of, signature_of};
ghost use Rattle.fc_help.specs.Region.{readings_region, region_of};
ghost use Rattle.fc_help.specs.Layout.{FitsRegion};
ghost use Rattle.fc_help.specs.Request.{Request};
ghost use Rattle.fc_help.specs.declared.helper.Arguments.TheVariants.{Bytes, NoArgument, OneNumber, TwoNumbers};
ghost use Rattle.fc_help.specs.declared.helper.Helper.TheVariants.{Notify, PayloadByte, PayloadLen, ReplyByte, ReplyPut, VarGet, VarPut};
ghost use Rattle.fc_help.specs.declared.request.Method.TheVariants.{Get, Post};

/// The helpers have the numbers 1 to 7; 0, numbers above 7 and negative numbers are no helpers.
///
/// A reply to a GET has room for 4,096 bytes, and a reply to a POST has room for 1,024.
pub fn helpers_have_their_numbers()
    ensures payload_len { helper_of (pos 1) ≡ Some PayloadLen }
    ensures payload_byte { helper_of (pos 2) ≡ Some PayloadByte }
    ensures var_get { helper_of (pos 3) ≡ Some VarGet }
    ensures var_put { helper_of (pos 4) ≡ Some VarPut }
    ensures reply_put { helper_of (pos 5) ≡ Some ReplyPut }
    ensures reply_byte { helper_of (pos 6) ≡ Some ReplyByte }
    ensures notify { helper_of (pos 7) ≡ Some Notify }
    ensures none { helper_of (pos 0) ≡ None }
    ensures no_more { (n : ℕ) → 7 < n → helper_of (pos n) ≡ None }
    ensures negative { (n : ℕ) → helper_of (negsuc n) ≡ None }
    ensures get { room_of Get ≡ 4096 }
    ensures post { room_of Post ≡ 1024 }
{}

/// Each helper's arguments, and the greatest number that it returns.
pub fn helpers_have_their_signatures()
    ensures payload_len { signature_of PayloadLen ≡ record { arguments = NoArgument; most = 1024 } }
    ensures payload_byte { signature_of PayloadByte ≡ record { arguments = OneNumber; most = 2 ^ 64 - 1 } }
    ensures var_get { signature_of VarGet ≡ record { arguments = OneNumber; most = 2 ^ 64 - 1 } }
    ensures var_put { signature_of VarPut ≡ record { arguments = TwoNumbers; most = 1 } }
    ensures reply_put { signature_of ReplyPut ≡ record { arguments = Bytes; most = 1 } }
    ensures reply_byte { signature_of ReplyByte ≡ record { arguments = OneNumber; most = 1 } }
    ensures notify { signature_of Notify ≡ record { arguments = NoArgument; most = 0 } }
{}

/// The layout of a request in its 1,104 bytes of memory.
///
/// By byte:
///
/// - 0: the method, 1 for a GET and 2 for a POST.
/// - 1: the slot.
/// - 2 and 3: the payload's length, least significant byte first.
/// - 4 and 5: the Content-Format, least significant byte first.
/// - 6: whether there is a Content-Format.
/// - 7: the query's length.
/// - from 16 on: the query.
/// - from 80 on: the payload.
///
/// All other bytes are zeros.
pub fn requests_have_their_places()
    ensures size { (r : Request) → FitsRegion r → length (region_of r) ≡ 1104 }
    ensures get { (r : Request) → r.method ≡ Get → slice_index (region_of r) 0 ≡ 1 }
    ensures post { (r : Request) → r.method ≡ Post → slice_index (region_of r) 0 ≡ 2 }
    ensures slot { (r : Request) → slice_index (region_of r) 1 ≡ r.slot }
    ensures payload_length { (r : Request) → FitsRegion r
        → slice_index (region_of r) 2 + 256 * slice_index (region_of r) 3 ≡ length r.payload }
    ensures content_format { (r : Request) (format : ℕ) → r.content_format ≡ Some format → format < 65536
        → (slice_index (region_of r) 4 + 256 * slice_index (region_of r) 5 ≡ format) × (slice_index (region_of r) 6 ≡ 1) }
    ensures no_content_format { (r : Request) → r.content_format ≡ None
        → (slice_index (region_of r) 4 ≡ 0) × (slice_index (region_of r) 5 ≡ 0) × (slice_index (region_of r) 6 ≡ 0) }
    ensures query_length { (r : Request) → slice_index (region_of r) 7 ≡ length r.query }
    ensures reserved { (r : Request) (k : ℕ) → 8 ≤ k → k < 16 → slice_index (region_of r) k ≡ 0 }
    ensures query { (r : Request) (k : ℕ) → FitsRegion r → k < length r.query → slice_index (region_of r) (16 + k) ≡ slice_index r.query k }
    ensures after_query { (r : Request) (k : ℕ) → FitsRegion r → length r.query ≤ k → k < 64 → slice_index (region_of r) (16 + k) ≡ 0 }
    ensures payload { (r : Request) (k : ℕ) → FitsRegion r → k < length r.payload
        → slice_index (region_of r) (80 + k) ≡ slice_index r.payload k }
    ensures after_payload { (r : Request) (k : ℕ) → FitsRegion r → length r.payload ≤ k → k < 1024
        → slice_index (region_of r) (80 + k) ≡ 0 }
{}

/// The layout of the readings in 64 bytes.
///
/// The supplied bytes come first, at most 64 of them, and zeros follow.
pub fn readings_have_their_places()
    ensures size { (bytes : List ℕ) → length (readings_region bytes) ≡ 64 }
    ensures given { (bytes : List ℕ) (k : ℕ) → k < length bytes → k < 64 → slice_index (readings_region bytes) k ≡ slice_index bytes k }
    ensures zeros { (bytes : List ℕ) (k : ℕ) → length bytes ≤ k → k < 64 → slice_index (readings_region bytes) k ≡ 0 }
{}

/// The name of each helper in a source, in ASCII.
pub fn helpers_have_their_names()
    ensures payload_len { helper_name PayloadLen ≡ codes "payload_len" }
    ensures payload_byte { helper_name PayloadByte ≡ codes "payload_byte" }
    ensures var_get { helper_name VarGet ≡ codes "var_get" }
    ensures var_put { helper_name VarPut ≡ codes "var_put" }
    ensures reply_put { helper_name ReplyPut ≡ codes "reply_put" }
    ensures reply_byte { helper_name ReplyByte ≡ codes "reply_byte" }
    ensures notify { helper_name Notify ≡ codes "notify" }
{}
