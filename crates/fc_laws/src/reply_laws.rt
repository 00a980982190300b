//! Laws of refusals and receivers: each function is a law, stated by its contract.
ghost use Rattle.std.specs.Borrow.{Bor};
ghost use Rattle.std.specs.Prelude.{◌≡◌, ℕ, Bool, Err, List, None, Ok, Option, Some, false, max, true};
ghost use Rattle.coap_msg.specs.Wire.{Message};
ghost use Rattle.coap_msg.specs.Reading.{reading_of};
ghost use Rattle.coap_msg.specs.declared.types.Bad.TheVariants as bad;
ghost use Rattle.coap_msg.specs.declared.types.Emission.{Emission};
ghost use Rattle.coap_msg.specs.declared.types.Endpoint.{Endpoint};
ghost use Rattle.coap_msg.specs.declared.types.MessageType.TheVariants.{Acknowledgement, Confirmable, NonConfirmable};
ghost use Rattle.coap_opts.specs.Verdict.{IsIgnored, IsSignal, IsSilent, verdict};
ghost use Rattle.coap_reply.specs.Responses.{Response, sent_in};
ghost use Rattle.fc_front.specs.Contents.{Content};
ghost use Rattle.fc_laws.specs.ExchangeLaws.{IsOpening, bare_by};
ghost use Rattle.fc_front.specs.Exchanges.{FrontState};
ghost use Rattle.fc_core.specs.History.{Entry, Seen, and_then, did, job, stage};
ghost use Rattle.fc_front.specs.Ids.{free_id};
ghost use Rattle.fc_core.specs.Legal.{Emits};
ghost use Rattle.fc_front.specs.Receiving.{delivered, reply_sent};
ghost use Rattle.fc_laws.specs.ReplyLaws.{IsAnswerTo, Refuses, Rejects, reset_to};
ghost use Rattle.fc_core.specs.declared.event.Event.TheVariants.{Answer, Deliver};
ghost use Rattle.fc_front.specs.declared.by_value.Delivered.TheVariants.{Signal};
ghost use Rattle.fc_core.specs.Stage.{ToAnswer};

/// A request that a check of its options refuses is answered with the check's code.
///
/// The request is no duplicate. A confirmable message with a format error is rejected by a Reset
/// message with the same message ID (RFC 7252, section 4.2). So is a ping, and a confirmable
/// message that isn't a request. Refused requests and rejected messages make no job. No delivery
/// changes a slot, a slot's observers, a head word or a shard's time.
pub fn refusals_are_answered_by_their_code()
    ensures refused { (r : Entry) (s : Seen) (m : Message) (answer : ℕ) → Refuses s r.event m answer
        → Emits s r.event r.emitted → r.emitted ≡ bare_by s r.event m answer }
    ensures rejected { (r : Entry) (s : Seen) (to : Endpoint) (id : ℕ) → Rejects r.event to id
        → Emits s r.event r.emitted → r.emitted ≡ Some (reset_to to id) }
    ensures refused_jobs { (r : Entry) (s : Seen) (m : Message) (answer : ℕ) → Refuses s r.event m answer
        → (and_then r s).tasks ≡ s.tasks }
    ensures rejected_jobs { (r : Entry) (s : Seen) (to : Endpoint) (id : ℕ) → Rejects r.event to id
        → (and_then r s).tasks ≡ s.tasks }
    ensures rejected_exchanges { (r : Entry) (s : Seen) (to : Endpoint) (id : ℕ) → Rejects r.event to id
        → (and_then r s).exchanges ≡ s.exchanges }
    ensures slots { (s : Seen) (now n : ℕ) (to : Endpoint) (bytes : Bor (List ℕ)) (o : Option Emission) →
        (and_then (did (Deliver now to bytes) o) s).changes n ≡ s.changes n }
    ensures observers { (s : Seen) (now n : ℕ) (to : Endpoint) (bytes : Bor (List ℕ)) (o : Option Emission) →
        (and_then (did (Deliver now to bytes) o) s).calls n ≡ s.calls n }
    ensures words { (s : Seen) (now : ℕ) (to : Endpoint) (bytes : Bor (List ℕ)) (o : Option Emission) →
        (and_then (did (Deliver now to bytes) o) s).words ≡ s.words }
    ensures shards { (s : Seen) (now i : ℕ) (to : Endpoint) (bytes : Bor (List ℕ)) (o : Option Emission) →
        (and_then (did (Deliver now to bytes) o) s).shard_time i ≡ s.shard_time i }
{}

/// An answer is sent to its client's endpoint, with the token of the request.
///
/// A confirmable request is answered in an Acknowledgement, with the request's message ID. Any
/// other request is answered in a non-confirmable message with the server's next message ID (RFC
/// 7252, sections 5.2 and 5.3). If that message ID isn't available, nothing is sent.
pub fn answers_go_to_their_clients()
    ensures confirmable { (s : Seen) (k now : ℕ) (content : Content) (e : Emission) → stage s k ≡ ToAnswer content
        → (job s k).confirmable ≡ true → Emits s (Answer k now) (Some e)
        → IsAnswerTo (job s k) content Acknowledgement (job s k).origin.id e }
    ensures other { (s : Seen) (k now : ℕ) (content : Content) (e : Emission) → stage s k ≡ ToAnswer content
        → (job s k).confirmable ≡ false → Emits s (Answer k now) (Some e)
        → (id : ℕ) × (free_id s.ids (max s.time now) ≡ Some id) × IsAnswerTo (job s k) content NonConfirmable id e }
    ensures at_once { (f : FrontState) (to : Endpoint) (m : Message) (response : Response) → m.kind ≡ Confirmable
        → reply_sent f to m response ≡ Some (sent_in (record { to = to; kind = Acknowledgement; id = m.id; token = m.token }) response) }
    ensures other_at_once { (f : FrontState) (to : Endpoint) (m : Message) (response : Response) (id : ℕ) → m.kind ≡ NonConfirmable
        → free_id f.ids f.now ≡ Some id
        → reply_sent f to m response ≡ Some (sent_in (record { to = to; kind = NonConfirmable; id = id; token = m.token }) response) }
    ensures none_at_once { (f : FrontState) (to : Endpoint) (m : Message) (response : Response) → m.kind ≡ NonConfirmable
        → free_id f.ids f.now ≡ None → reply_sent f to m response ≡ None }
{}

/// A signal, an ignored datagram and some non-confirmable requests get no response.
///
/// An Acknowledgement or a Reset message is passed on as a signal: the message ID that it answers,
/// and its type. No response follows a signal, an ignored datagram, or a non-confirmable request
/// with an unrecognised critical option (RFC 7252, sections 4.2, 4.3 and 5.4.1).
pub fn some_messages_get_no_answer()
    ensures handed_on { (f : FrontState) (to : Endpoint) (bytes : List ℕ) (m : Message) (reset : Bool) → reading_of bytes ≡ Ok m
        → verdict m ≡ IsSignal reset → delivered f to bytes ≡ Signal m.id reset }
    ensures signal { (s : Seen) (now : ℕ) (to : Endpoint) (bytes : Bor (List ℕ)) (m : Message) (reset : Bool) (o : Option Emission)
        → reading_of bytes.now ≡ Ok m → verdict m ≡ IsSignal reset → Emits s (Deliver now to bytes) o → o ≡ None }
    ensures ignored { (s : Seen) (now : ℕ) (to : Endpoint) (bytes : Bor (List ℕ)) (m : Message) (o : Option Emission)
        → reading_of bytes.now ≡ Ok m → verdict m ≡ IsIgnored → Emits s (Deliver now to bytes) o → o ≡ None }
    ensures no_message { (s : Seen) (now : ℕ) (to : Endpoint) (bytes : Bor (List ℕ)) (o : Option Emission)
        → reading_of bytes.now ≡ Err bad.Ignore → Emits s (Deliver now to bytes) o → o ≡ None }
    ensures silent { (s : Seen) (now : ℕ) (to : Endpoint) (bytes : Bor (List ℕ)) (w : IsOpening s now to bytes.now) (o : Option Emission)
        → verdict w.message ≡ IsSilent → Emits s (Deliver now to bytes) o → o ≡ None }
{}
