//! Laws about the definitions. Each law is the contract of an empty function.
ghost use Rattle.std.specs.Prelude.{◌≡◌, ◌+◌, ◌*◌, ◌<◌, ◌≤◌, ◌⊎◌, ℕ, Bool, List, [], ◌∷◌, Option, Some, None, codes, drop, false, length, take, true};
ghost use Rattle.coap_msg.specs.Wire.{Message, SpellsMessage, message_bytes};
ghost use Rattle.coap_opts.specs.Values.{block_bytes};
ghost use Rattle.coap_opts.specs.declared.request.Method.TheVariants.{Get, Post, Put};
ghost use Rattle.coap_client.specs.Listening.{is_passed_over};
ghost use Rattle.coap_client.specs.declared.transmission.ReplyClass.TheVariants as reception;
ghost use Rattle.coap_client.specs.declared.client_request.ClientRequest.{ClientRequest};
ghost use Rattle.coap_client.specs.declared.part.Part.{Part};
ghost use Rattle.coap_client.specs.declared.part.Part.TheVariants.{Answer, Body, Whole};
ghost use Rattle.coap_client.specs.Pings.{IsPinged, IsPingedInVain, own_calls, ping_bytes};
ghost use Rattle.coap_client.specs.Clocks.{is_transient};
ghost use Rattle.std.specs.declared.io.ErrorKind.TheVariants.{ConnectionRefused, Interrupted, NetworkDown, TimedOut, WouldBlock};
ghost use Rattle.coap_client.specs.Handled.{Tells};
ghost use Rattle.coap_client.specs.Parts.{first_part, format_option, format_options, part_options, part_payload, request_options};
ghost use Rattle.coap_client.specs.PeerCalls.{PeerCall, Sends, Waits};
ghost use Rattle.coap_client.specs.Faults.{IsRejection, IsSilence};
ghost use Rattle.coap_client.specs.Schedules.{AwaitsResponse, BeginsSchedule, EndsByReset, full_schedule, schedule, seconds_in};
ghost use Rattle.coap_client.specs.Transmissions.{IsTransmission};
ghost use Rattle.coap_client.specs.Fetching.{Ended, Out, after_reply, state_after};
ghost use Rattle.coap_client.specs.Joined.{IsOneAnswer, SaysTaken};
ghost use Rattle.coap_client.specs.Replies.{is_success};
ghost use Rattle.coap_client.specs.PathErrors.{IsPathFault};
ghost use Rattle.coap_client.specs.declared.path.PathError.TheVariants.{Empty};

use crate::peer::BUFFER;

/// A block of the body is followed by another only if the server took it.
///
/// The response to that block is then a success that says so.
pub fn the_next_block_goes_behind_one_that_was_taken()
    ensures { (count n szx next smaller : ℕ) (m : Message) (body etag body_then etag_then : List ℕ) →
        after_reply count m (Out (Body n szx) body etag) ≡ Out (Body next smaller) body_then etag_then →
        SaysTaken n szx m }
{}

/// A successful response is joined from blocks of one version.
///
/// If a reply ends a fetch by a success, the response consists of the payloads of that reply and of
/// some replies before it, joined. The reply has the last block, each block begins at the end of
/// those before it, and all have one ETag, or none.
pub fn the_answer_is_of_one_version()
    ensures { (e : ClientRequest) (m : Message) (replies : List Message) (part : Part) (body etag answer : List ℕ) (code : ℕ) →
        state_after e replies ≡ Out part body etag →
        state_after e (m ∷ replies) ≡ Ended code answer → is_success code ≡ true →
        IsOneAnswer answer m replies }
{}

/// A PUT's body of more than 1,024 bytes is sent in blocks of 1,024.
///
/// The blocks are sent from the first on (RFC 7959, section 2.5). Block n is that part of the body,
/// and has the Block1 option, 27, whose M bit says whether more blocks follow. A body of at most
/// 1,024 bytes is sent whole.
pub fn bodies_go_in_blocks()
    ensures large { (count : ℕ) → 1024 < count → first_part Put count ≡ Body 0 6 }
    ensures small { (count : ℕ) → count ≤ 1024 → first_part Put count ≡ Whole }
    ensures block { (payload : List ℕ) (n : ℕ) → part_payload Put payload (Body n 6) ≡ take 1024 (drop (1024 * n) payload) }
    ensures more { (n count : ℕ) → 1024 * (n + 1) < count
        → part_options (Body n 6) count ≡ (27, block_bytes (record { number = n; more = true; szx = 6 })) ∷ [] }
    ensures last { (n count : ℕ) → count ≤ 1024 * (n + 1)
        → part_options (Body n 6) count ≡ (27, block_bytes (record { number = n; more = false; szx = 6 })) ∷ [] }
{}

/// Requests are sent by a fixed schedule.
///
/// A confirmable request without a response is sent five times, with waits of 2, 4, 8, 16 and 32
/// seconds. The client gives up after these 62 seconds. The schedule is that of ACK_TIMEOUT and
/// MAX_RETRANSMIT, without a random part (RFC 7252, sections 4.2 and 4.8). Or the request is
/// acknowledged, isn't sent again, and the client waits 93 seconds more. That is MAX_TRANSMIT_WAIT
/// (RFC 7252, section 4.8.2). A request that got a response was sent by this schedule until the
/// response.
///
/// A non-confirmable request is sent once, with a wait of 32 seconds. Apart from these requests,
/// only empty messages are sent.
pub fn requests_are_sent_by_the_schedule()
    ensures unanswered { (id : ℕ) (earlier : List ℕ) (m : Message) (calls : List PeerCall) → (m.code ≡ 0 → ⊥)
        → IsTransmission true (Tells true id earlier) (message_bytes m) None calls
        → (schedule calls ≡ full_schedule (message_bytes m)) ⊎ AwaitsResponse (message_bytes m) (schedule calls) }
    ensures answered { (id : ℕ) (earlier : List ℕ) (m : Message) (answer : List ℕ) (calls : List PeerCall) → (m.code ≡ 0 → ⊥)
        → IsTransmission true (Tells true id earlier) (message_bytes m) (Some answer) calls
        → BeginsSchedule (message_bytes m) (schedule calls) ⊎ AwaitsResponse (message_bytes m) (schedule calls) }
    ensures non_confirmable { (id : ℕ) (earlier : List ℕ) (m : Message) (answer : Option (List ℕ)) (calls : List PeerCall)
        → (m.code ≡ 0 → ⊥) → IsTransmission false (Tells false id earlier) (message_bytes m) answer calls → schedule calls ≡ Waits 32 ∷ Sends (message_bytes m) ∷ [] }
{}

/// A missing response is reported only after the full wait.
///
/// The client gives up a confirmable request after at least 62 seconds: MAX_TRANSMIT_WAIT without
/// its random part (RFC 7252, section 4.8.2). It waits 32 seconds for the response to a
/// non-confirmable request; this number is the client's own.
pub fn no_answer_is_told_too_soon()
    ensures confirmable { (id : ℕ) (earlier : List ℕ) (m : Message) (calls : List PeerCall) → (m.code ≡ 0 → ⊥)
        → IsSilence true (Tells true id earlier) (message_bytes m) calls → 62 ≤ seconds_in calls }
    ensures non_confirmable { (id : ℕ) (earlier : List ℕ) (m : Message) (calls : List PeerCall) → (m.code ≡ 0 → ⊥)
        → IsSilence false (Tells false id earlier) (message_bytes m) calls → seconds_in calls ≡ 32 }
{}

/// A request is rejected only by a Reset message with its message ID.
///
/// The Reset is the last datagram received (RFC 7252, section 4.2), and the request is sent by the
/// same schedule until then.
pub fn requests_are_rejected_by_a_reset()
    ensures reset { (confirmable : Bool) (id : ℕ) (earlier request : List ℕ) (calls : List PeerCall)
        → IsRejection confirmable (Tells confirmable id earlier) request calls → EndsByReset id calls }
    ensures schedule { (id : ℕ) (earlier : List ℕ) (m : Message) (calls : List PeerCall) → (m.code ≡ 0 → ⊥)
        → IsRejection true (Tells true id earlier) (message_bytes m) calls
        → BeginsSchedule (message_bytes m) (schedule calls) ⊎ AwaitsResponse (message_bytes m) (schedule calls) }
{}

/// A wait skips datagrams that don't answer the request.
///
/// While a request may still be acknowledged, its acknowledgement ends the wait, and a separate
/// response is skipped. Once it is acknowledged, the reverse holds (RFC 7252, section 5.2.2). A
/// piggybacked response and a Reset message always end the wait. A response that was received
/// before never ends the wait, and neither does any other datagram.
pub fn waits_pass_over_what_does_not_answer()
    ensures acknowledged { (is_passed_over false reception.Acknowledged ≡ false) × (is_passed_over true reception.Acknowledged ≡ true) }
    ensures separate { (is_passed_over false reception.Separate ≡ true) × (is_passed_over true reception.Separate ≡ false) }
    ensures answers { (awaited : Bool) → is_passed_over awaited reception.Reply ≡ false }
    ensures rejected { (awaited : Bool) → is_passed_over awaited reception.Rejected ≡ false }
    ensures others { (awaited : Bool) → (is_passed_over awaited reception.Repeat ≡ true) × (is_passed_over awaited reception.Other ≡ true) }
{}

/// A message never fills the receive buffer.
///
/// A datagram is received into 1,281 bytes, one more than the maximum length of a message. A
/// datagram that fills the buffer isn't a message.
pub fn messages_leave_room_in_the_buffer()
    ensures buffer { BUFFER ≡ 1281 }
    ensures message { (bytes : List ℕ) (m : Message) → SpellsMessage bytes m → length bytes < 1281 }
{}

/// A ping is four bytes, and is sent by the schedule of a confirmable request.
///
/// It has its message ID and nothing else: with ID 7 it is the bytes 64, 0, 0 and 7. A ping without
/// an answer is sent five times, with waits of 2, 4, 8, 16 and 32 seconds. A ping that got an
/// answer was sent by this schedule until the answer. Nothing else is sent.
///
/// The answer is a Reset message with the ping's ID, the last datagram received (RFC 7252, sections
/// 4.2 and 4.3).
pub fn pings_are_sent_by_the_schedule()
    ensures bytes { ping_bytes 7 ≡ 64 ∷ 0 ∷ 0 ∷ 7 ∷ [] }
    ensures unanswered { (id : ℕ) (calls : List PeerCall) → IsPingedInVain id calls → own_calls calls ≡ full_schedule (ping_bytes id) }
    ensures answered { (id : ℕ) (calls : List PeerCall) → IsPinged id calls → BeginsSchedule (ping_bytes id) (own_calls calls) }
    ensures pong { (id : ℕ) (calls : List PeerCall) → IsPinged id calls → EndsByReset id calls }
{}

/// A Content-Format is sent together with the body.
///
/// It is option 12, between the path and the query. The number 50 (JSON) has one byte, and 0 (plain
/// text) has none (RFC 7252, section 12.3). Each block of a PUT's body has it, and so has a GET for
/// a further block of the response. The other methods request a further block without the body, and
/// so without the format.
pub fn formats_go_with_bodies()
    ensures json { (path query : List ℕ) → request_options (path ∷ []) (format_option (Some 50)) (query ∷ [])
        ≡ (11, path) ∷ (12, 50 ∷ []) ∷ (15, query) ∷ [] }
    ensures text { format_option (Some 0) ≡ (12, []) ∷ [] }
    ensures block { (n : ℕ) (format : Option ℕ) → format_options Put (Body n 6) format ≡ format_option format }
    ensures again { (n : ℕ) (format : Option ℕ) → format_options Get (Answer n 6) format ≡ format_option format }
    ensures further { (n : ℕ) (format : Option ℕ) → (format_options Post (Answer n 6) format ≡ []) × (format_options Put (Answer n 6) format ≡ []) }
{}

/// An interrupted receive doesn't end a wait.
///
/// Neither does a receive in which nothing arrives in time. A receive that fails because the
/// server's port is closed, or its network is down, ends the wait.
pub fn interruptions_end_no_wait()
    ensures interrupted { (is_transient Interrupted ≡ true) × (is_transient WouldBlock ≡ true) × (is_transient TimedOut ≡ true) }
    ensures closed { (is_transient ConnectionRefused ≡ false) × (is_transient NetworkDown ≡ false) }
{}

/// A path's segments are counted from 1.
///
/// The empty segment of `/` and of `//a` has the number 1, and that of `/a/` the number 2.
pub fn segments_are_counted_from_one()
    ensures alone { (number : ℕ) → IsPathFault (codes "/") (Empty number) → number ≡ 1 }
    ensures first { (number : ℕ) → IsPathFault (codes "//a") (Empty number) → number ≡ 1 }
    ensures second { (number : ℕ) → IsPathFault (codes "/a/") (Empty number) → number ≡ 2 }
{}
