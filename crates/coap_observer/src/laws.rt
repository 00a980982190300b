//! Laws about the definitions. Each law is the contract of an empty function.
ghost use Rattle.std.specs.Prelude.{◌≡◌, ◌+◌, ◌*◌, ◌%◌, ◌<◌, ◌≤◌, ◌⊎◌, ◌++◌, ℕ, List, [], ◌∷◌, Some, None, codes, false, length, max, take, true};
ghost use Rattle.coap_msg.specs.Wire.{Message, message_bytes};
ghost use Rattle.coap_client.specs.declared.client_request.ClientRequest.{ClientRequest};
ghost use Rattle.coap_client.specs.declared.part.Part.TheVariants.{Answer};
ghost use Rattle.coap_observer.specs.declared.notice.NotificationClass.TheVariants.{Last, Malformed, State};
ghost use Rattle.coap_observer.specs.declared.notice.ObserveOption.TheVariants.{Deregister, Register};
ghost use Rattle.coap_observer.specs.declared.observing.Observer.{Observer};
ghost use Rattle.coap_observer.specs.Notices.{IsOwnResponse, can_be_shown, is_newer, is_shown_again, is_unobserved, notice_of, observe_request};
ghost use Rattle.coap_client.specs.PeerCalls.{PeerCall};
ghost use Rattle.coap_observer.specs.ObserverFaults.{IsRejectedLeaving, deregistration_of, leaving_id, registration_of};
ghost use Rattle.coap_client.specs.Faults.{IsRejection, IsSilence};
ghost use Rattle.coap_observer.specs.Notes.{IsHandledFrom, TellsObserver};
ghost use Rattle.coap_observer.specs.declared.watch.Observation.{Observation};
ghost use Rattle.coap_client.specs.Schedules.{AwaitsResponse, BeginsSchedule, EndsByReset, full_schedule, schedule};
ghost use Rattle.coap_observer.specs.ObserverCalls.{IsDeregistration, IsPassedOverLeaving, IsRegistration};
ghost use Rattle.coap_client.specs.Transmissions.{AreInVain, IsLastSending};
ghost use Rattle.coap_observer.specs.Completions.{BlockOutcome, IsBlockOutcome, IsUnfetchedBy, IsStateEnd, Joined, Missing, OlderNotification, Response, StateEnd, Superseded, block_id, following_id, id_after, state_from};
ghost use Rattle.coap_client.specs.Fetching.{Ended, Out, Outdated};
ghost use Rattle.coap_client.specs.Fetching as fetching;
ghost use Rattle.coap_client.specs.Joined.{IsOneAnswer};
ghost use Rattle.coap_client.specs.Replies.{etag_of, first_or_none, is_success, is_understood, next_of_answer};
ghost use Rattle.coap_observer.specs.Representations.{begun, joined, unfetched_text};
ghost use Rattle.coap_observer.specs.declared.joining.Unfetched.{Unfetched};
ghost use Rattle.coap_observer.specs.declared.joining.Unfetched.TheVariants as unfetched;
ghost use Rattle.coap_msg.specs.declared.code.Code.{Code};
ghost use Rattle.coap_client.specs.Requests.{block_request};
ghost use Rattle.coap_client.specs.Paths.{slices_in};
ghost use Rattle.coap_client.specs.declared.reply.Next.TheVariants as next;
ghost use Rattle.coap_msg.specs.Values.{values_in};

use coap_client::Peer;

/// The body of an observed state is joined from blocks of one ETag.
///
/// A notification that is whole is the body. Otherwise it is the first block, and the last reply has
/// the last block. Each block begins at the end of those before it, and all have one ETag, or none
/// (RFC 7959, section 2.4).
pub fn an_observed_state_is_of_one_version()
    ensures whole { (m : Message) (code : ℕ) (body : List ℕ) → joined m [] ≡ Ended code body → next_of_answer 0 6 m ≡ next.Last → body ≡ m.payload }
    ensures blocks { (m reply : Message) (replies : List Message) (code : ℕ) (body : List ℕ) → ((c : ℕ) (b : List ℕ) → joined m replies ≡ Ended c b → ⊥) →
        joined m (reply ∷ replies) ≡ Ended code body → is_success code ≡ true → IsOneAnswer body reply (replies ++ m ∷ []) }
{}

/// The request of a further block is a GET without Observe, whose token is its message ID.
///
/// It has the path, the query and Block2, option 23: block 1 of 1,024 bytes has the value 22. With
/// message ID 258 its token is the bytes 1 and 2 (RFC 7959, sections 2.2 and 2.6).
pub fn further_blocks_are_requested_without_observe()
    ensures options { (e : ClientRequest) (id : ℕ) → slices_in e.target.path.segments.items ≡ codes "r" ∷ [] → slices_in e.target.query.items ≡ []
        → (block_request e 1 6 id).options ≡ (11, codes "r") ∷ (23, 22 ∷ []) ∷ [] }
    ensures token { (e : ClientRequest) (n szx : ℕ) → (block_request e n szx 258).token ≡ 1 ∷ 2 ∷ [] }
{}

/// A further block is requested after a response with the block before it.
///
/// A notification with block 0 of 1,024 bytes, after which more follow (Block2 is 14), is followed
/// by a request for block 1, of that size. A success with block 1 (30), of the same ETag, is
/// followed by a request for block 2. Without more (22) it ends the state. After a notification that
/// isn't newer, the request is for the same block (RFC 7959, sections 2.2 and 2.4).
///
/// A success with block 1 of another ETag, 2 in place of 1, is of another version.
pub fn each_further_block_follows_the_one_before()
    ensures first { (m : Message) → length m.payload ≡ 1024 → first_or_none (values_in 23 m.options) ≡ Some (14 ∷ [])
        → begun m ≡ Out (Answer 1 6) m.payload (etag_of m) }
    ensures next { (r : Message) (body etag : List ℕ) → is_understood r ≡ true → r.code ≡ 69 → length r.payload ≡ 1024 → etag_of r ≡ etag
        → first_or_none (values_in 23 r.options) ≡ Some (30 ∷ []) → state_from (Out (Answer 1 6) body etag) (Response r ∷ []) ≡ Out (Answer 2 6) (body ++ r.payload) (etag_of r) }
    ensures last { (r : Message) (body etag : List ℕ) → is_understood r ≡ true → r.code ≡ 69 → length r.payload ≡ 1024 → etag_of r ≡ etag
        → first_or_none (values_in 23 r.options) ≡ Some (22 ∷ []) → state_from (Out (Answer 1 6) body etag) (Response r ∷ []) ≡ Ended 69 (body ++ r.payload) }
    ensures changed { (r : Message) (body : List ℕ) → is_understood r ≡ true → r.code ≡ 69 → length r.payload ≡ 1024 → etag_of r ≡ 2 ∷ []
        → first_or_none (values_in 23 r.options) ≡ Some (30 ∷ []) → state_from (Out (Answer 1 6) body (1 ∷ [])) (Response r ∷ []) ≡ Outdated }
    ensures again { (state : fetching.State) (m : Message) (time : ℕ) (outcomes : List BlockOutcome)
        → state_from state (OlderNotification m time ∷ outcomes) ≡ state_from state outcomes }
{}

/// The message IDs of the registration and deregistration are skipped.
///
/// No request for a further block has one of them (RFC 7252, section 4.4). If the registration has
/// 7, the deregistration has 8, and the request after that with 6 has 9. If the registration has
/// 65,535, the deregistration has 0, and the request after that with 65,534 has 1.
pub fn further_blocks_have_ids_of_their_own()
    ensures own { (o : Observer) (next : ℕ) → (block_id o next ≡ o.id → ⊥) × (block_id o next ≡ leaving_id o → ⊥) }
    ensures up { (o : Observer) (x y : BlockOutcome) → o.id ≡ 7
        → (following_id o 5 [] ≡ 5) × ((following_id o 5 (x ∷ []) ≡ 6) × (following_id o 5 (y ∷ x ∷ []) ≡ 9)) }
    ensures around { (o : Observer) (x : BlockOutcome) → o.id ≡ 65535 → (following_id o 65534 [] ≡ 65534) × (following_id o 65534 (x ∷ []) ≡ 1) }
{}

/// Each request for a further block uses a message ID.
///
/// The registration has 7, and the request for a block has 9. Once its response makes the state
/// whole, the next message ID is 10. If the request after it, with 10, has no response, is rejected,
/// or is superseded by a newer notification, the next is 11.
pub fn each_request_for_a_block_uses_an_id()
    ensures joined { (o : Observer) (x : BlockOutcome) (code : ℕ) (body : List ℕ) → o.id ≡ 7 → id_after o 9 (x ∷ []) (Joined code body) ≡ 10 }
    ensures silent { (o : Observer) (x : BlockOutcome) → o.id ≡ 7 → id_after o 9 (x ∷ []) (Missing unfetched.Silence) ≡ 11 }
    ensures rejected { (o : Observer) (x : BlockOutcome) → o.id ≡ 7 → id_after o 9 (x ∷ []) (Missing unfetched.Rejected) ≡ 11 }
    ensures superseded { (o : Observer) (x : BlockOutcome) (bytes : List ℕ) (time : ℕ) → o.id ≡ 7 → id_after o 9 (x ∷ []) (Superseded bytes time) ≡ 11 }
    ensures changed { (o : Observer) (x : BlockOutcome) → o.id ≡ 7 → id_after o 9 (x ∷ []) (Missing unfetched.Changed) ≡ 10 }
{}

/// While a block is requested, only a notification that isn't newer is passed over.
///
/// The last accepted state has the sequence number 5 and the time 1,000 ms. A notification with 6
/// that isn't a duplicate is never passed over. One with 4 is, if it arrives within 128 seconds (RFC
/// 7641, section 3.4).
pub fn only_older_notifications_are_passed_over<P: Peer>()
    ensures newer { (o : Observer) (w : Observation) (id n szx time : ℕ) (m : Message) → w.sequence ≡ 5 → is_shown_again w.marks.items m.id (max w.at time) ≡ false → notice_of m ≡ State 6
        → IsBlockOutcome P.went P.came P.is_time o w id (OlderNotification m time) n szx → ⊥ }
    ensures older { (o : Observer) (w : Observation) (id n szx : ℕ) (m : Message) (bytes : List ℕ) → w.sequence ≡ 5 → w.at ≡ 1000 → notice_of m ≡ State 4
        → IsHandledFrom P.went P.came bytes m → IsOwnResponse o.token m → P.is_time 129000
        → IsBlockOutcome P.went P.came P.is_time o w id (OlderNotification m 129000) n szx }
    ensures later { (o : Observer) (w : Observation) (id n szx : ℕ) (m : Message) → w.sequence ≡ 5 → w.at ≡ 1000 → is_shown_again w.marks.items m.id 129001 ≡ false → notice_of m ≡ State 4
        → IsBlockOutcome P.went P.came P.is_time o w id (OlderNotification m 129001) n szx → ⊥ }
{}

/// The end of a state of several blocks follows from its last message.
///
/// A newer notification supersedes only a state that isn't whole. An error 4.04 is the reason why
/// the state can't be fetched, and so is a block of another version. A state whose last response is
/// 2.05 has no such reason. While a block is outstanding, the reason is that the request has no
/// response or is rejected; or there were 4,194,304 requests. There are never more.
pub fn states_end_by_their_last_message()
    ensures superseded { (code count time : ℕ) (body bytes : List ℕ) → IsStateEnd (Ended code body) count (Superseded bytes time) → ⊥ }
    ensures refused { (count : ℕ) (body : List ℕ) (cause : Unfetched) → IsUnfetchedBy (Ended 132 body) count cause
        → unfetched_text cause ≡ codes "a further block was refused by 4.04" }
    ensures changed { (count : ℕ) (cause : Unfetched) → IsUnfetchedBy Outdated count cause → cause ≡ unfetched.Changed }
    ensures whole { (count : ℕ) (body : List ℕ) (cause : Unfetched) → IsUnfetchedBy (Ended 69 body) count cause → ⊥ }
    ensures outstanding { (n szx count : ℕ) (body etag : List ℕ) (cause : Unfetched) → count < 4194304 → IsUnfetchedBy (Out (Answer n szx) body etag) count cause
        → (cause ≡ unfetched.Silence) ⊎ (cause ≡ unfetched.Rejected) }
    ensures last { (n szx : ℕ) (body etag : List ℕ) (cause : Unfetched) → IsStateEnd (Out (Answer n szx) body etag) 4194304 (Missing cause)
        → unfetched_text cause ≡ codes "a block is missing after 4194304 requests" }
    ensures requests { (state : fetching.State) (count : ℕ) (end : StateEnd) → IsStateEnd state count end → count ≤ 4194304 }
{}

/// After the greatest sequence number, 0 is newer.
///
/// The numbers have 24 bits, and then start again (RFC 7641, section 3.4).
pub fn zero_is_newer_than_the_greatest()
    ensures { (first second : ℕ) → is_newer 16777215 first 0 second ≡ true }
{}

/// A sequence number ahead by less than half of the numbers is newer.
pub fn less_than_half_ahead_is_newer()
    ensures { (v first second : ℕ) → is_newer v first (v + 8388607) second ≡ true }
{}

/// Of two sequence numbers apart by half of all, neither is newer, except by age.
pub fn half_apart_is_newer_neither_way()
    ensures up { (v first second : ℕ) → second ≤ first + 128000 → is_newer v first (v + 8388608) second ≡ false }
    ensures down { (v first second : ℕ) → second ≤ first + 128000 → is_newer (v + 8388608) first v second ≡ false }
{}

/// A sequence number lower by more than half of the numbers is newer.
///
/// The numbers have started again in between.
pub fn more_than_half_behind_is_newer()
    ensures { (v first second : ℕ) → is_newer (v + 8388609) first v second ≡ true }
{}

/// The same sequence number is newer only by an age above 128 seconds.
pub fn the_same_is_newer_by_age_alone()
    ensures { (v first second : ℕ) → second ≤ first + 128000 → is_newer v first v second ≡ false }
{}

/// Any sequence number is newer 128,001 milliseconds later.
pub fn any_is_newer_by_age()
    ensures { (v w first : ℕ) → is_newer v first w (first + 128001) ≡ true }
{}

/// Of two states at the same time, at most one is newer than the other.
pub fn at_most_one_is_newer()
    ensures { (v w at : ℕ) → is_newer v at w at ≡ true → is_newer w at v at ≡ false }
{}

/// A response that can be shown and has no Observe is the last.
///
/// Its server doesn't notify.
pub fn without_observe_it_is_the_last()
    ensures { (m : Message) → can_be_shown m ≡ true → first_or_none (values_in 6 m.options) ≡ None → notice_of m ≡ Last }
{}

/// A response of several blocks without Observe can't be shown: its server doesn't notify.
///
/// Block2 with the value 14 is block 0 of 1,024 bytes, and more follow.
pub fn several_blocks_without_observe_are_unobserved()
    ensures unobserved { (m : Message) → is_understood m ≡ true → m.code ≡ 69 → length m.payload ≡ 1024 → first_or_none (values_in 23 m.options) ≡ Some (14 ∷ [])
        → first_or_none (values_in 6 m.options) ≡ None → is_unobserved m ≡ true }
    ensures unshown { (m : Message) → is_unobserved m ≡ true → can_be_shown m ≡ false }
{}

/// The first of several blocks of a state is a state itself.
///
/// It is a success with 1,024 bytes, an Observe of 7, and a Block2 that names block 0 of 1,024 bytes
/// and says that more follow (14). With block 1 (30) it can't be shown (RFC 7959, section 2.6).
pub fn the_first_block_of_a_state_is_a_state()
    ensures first { (m : Message) → is_understood m ≡ true → m.code ≡ 69 → length m.payload ≡ 1024 → first_or_none (values_in 23 m.options) ≡ Some (14 ∷ [])
        → first_or_none (values_in 6 m.options) ≡ Some (7 ∷ []) → notice_of m ≡ State 7 }
    ensures second { (m : Message) → is_understood m ≡ true → m.code ≡ 69 → length m.payload ≡ 1024 → first_or_none (values_in 23 m.options) ≡ Some (30 ∷ [])
        → first_or_none (values_in 6 m.options) ≡ Some (7 ∷ []) → notice_of m ≡ Malformed }
{}

/// The text of each reason why the blocks of a state can't be fetched.
pub fn unfetched_blocks_have_a_reason()
    ensures silence { unfetched_text unfetched.Silence ≡ codes "no answer to a request for a further block" }
    ensures rejected { unfetched_text unfetched.Rejected ≡ codes "a request for a further block was rejected" }
    ensures refused { (code : Code) → code.byte ≡ 132 → unfetched_text (unfetched.Refused code) ≡ codes "a further block was refused by 4.04" }
    ensures changed { unfetched_text unfetched.Changed ≡ codes "it changed while its blocks were fetched" }
    ensures malformed { unfetched_text unfetched.Malformed ≡ codes "a further block doesn't fit the request" }
    ensures many { unfetched_text unfetched.TooMany ≡ codes "a block is missing after 4194304 requests" }
{}

/// A success that can be shown and has an Observe of three bytes is a state.
///
/// The three bytes are its sequence number, the most significant first.
pub fn by_an_observe_of_three_bytes_it_is_a_state()
    ensures { (m : Message) (a b c : ℕ) → can_be_shown m ≡ true → is_success m.code ≡ true
        → first_or_none (values_in 6 m.options) ≡ Some (a ∷ b ∷ c ∷ []) → notice_of m ≡ State (65536 * a + 256 * b + c) }
{}

/// A response that can be shown and has an Observe of four bytes is the last.
///
/// Such a value isn't a sequence number.
pub fn by_a_long_observe_it_is_the_last()
    ensures { (m : Message) (value : List ℕ) → can_be_shown m ≡ true
        → first_or_none (values_in 6 m.options) ≡ Some value → length value ≡ 4 → notice_of m ≡ Last }
{}

/// A registration begins with Observe 0, and a deregistration with Observe 1.
///
/// Observe is option 6, and the value 0 has no bytes (RFC 7641, section 2).
pub fn registers_by_0_and_deregisters_by_1()
    ensures registration { (e : ClientRequest) (token : List ℕ) (id : ℕ) → take 1 (observe_request e Register token id).options ≡ (6, []) ∷ [] }
    ensures deregistration { (e : ClientRequest) (token : List ℕ) (id : ℕ)
        → take 1 (observe_request e Deregister token id).options ≡ (6, 1 ∷ []) ∷ [] }
{}

/// A deregistration has the message ID after that of the registration.
///
/// Message IDs have 16 bits (RFC 7252, section 3).
pub fn deregisters_by_the_next_id()
    ensures next { (o : Observer) → o.id ≡ 7 → leaving_id o ≡ 8 }
    ensures first { (o : Observer) → o.id ≡ 65535 → leaving_id o ≡ 0 }
{}

/// An observer's requests are sent by the same schedule.
///
/// A registration that got a response was sent by the schedule until the response. A successful
/// deregistration was sent by the schedule until it was acknowledged.
pub fn observers_are_sent_by_the_schedule()
    ensures registration { (o : Observer) (answer : List ℕ) (calls : List PeerCall) → IsRegistration o answer calls
        → BeginsSchedule (message_bytes (observe_request o.client_request.now Register o.token o.id)) (schedule calls)
        ⊎ AwaitsResponse (message_bytes (observe_request o.client_request.now Register o.token o.id)) (schedule calls) }
    ensures deregistration { (o : Observer) (calls : List PeerCall) → IsDeregistration o calls
        → BeginsSchedule (message_bytes (observe_request o.client_request.now Deregister o.token ((o.id + 1) % 65536))) (schedule calls) }
{}

/// An observer gives up by the same schedule.
///
/// A registration without a response is sent five times with these waits, or is acknowledged. A
/// deregistration without an acknowledgement is sent five times. A request that is rejected was
/// sent by that schedule up to then.
pub fn observers_give_up_by_the_schedule()
    ensures unanswered { (o : Observer) (calls : List PeerCall) → IsSilence true (TellsObserver o.token o.id) (registration_of o) calls
        → (schedule calls ≡ full_schedule (registration_of o)) ⊎ AwaitsResponse (registration_of o) (schedule calls) }
    ensures unacknowledged { (o : Observer) (calls : List PeerCall) → AreInVain (IsPassedOverLeaving o.token (leaving_id o)) (deregistration_of o) 5 calls
        → schedule calls ≡ full_schedule (deregistration_of o) }
    ensures rejected { (o : Observer) (calls : List PeerCall) → IsRejection true (TellsObserver o.token o.id) (registration_of o) calls
        → BeginsSchedule (registration_of o) (schedule calls) ⊎ AwaitsResponse (registration_of o) (schedule calls) }
    ensures leaving { (o : Observer) (calls : List PeerCall)
        → IsLastSending (IsPassedOverLeaving o.token (leaving_id o)) (deregistration_of o) (IsRejectedLeaving o.token (leaving_id o)) calls
        → BeginsSchedule (deregistration_of o) (schedule calls) }
{}

/// An observer's request is rejected only by a Reset message with its message ID.
///
/// The Reset is the last datagram received (RFC 7252, section 4.2). The deregistration has the
/// message ID after that of the registration.
pub fn observers_are_rejected_by_a_reset()
    ensures registration { (token : List ℕ) (id : ℕ) (request : List ℕ) (calls : List PeerCall) → IsRejection true (TellsObserver token id) request calls
        → EndsByReset id calls }
    ensures deregistration { (token : List ℕ) (id : ℕ) (request : List ℕ) (calls : List PeerCall)
        → IsLastSending (IsPassedOverLeaving token id) request (IsRejectedLeaving token id) calls → EndsByReset id calls }
{}
