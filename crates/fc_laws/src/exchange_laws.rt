//! Laws of exchanges and message IDs: each function is a law with its contract.
ghost use Rattle.coap_dedup.specs.Exchanges.{Exchange};
ghost use Rattle.fc_laws.specs.ExchangeLaws.{AllBefore, AreApart, AreInOrder, FindsNoExchange, HasExchange, IsOfRequest, Opens, OpensOne, Repeats, arrivals, bare_by, draws_of, first_id, repeat_emits};
ghost use Rattle.fc_front.specs.Contents.{Content};
ghost use Rattle.fc_core.specs.History.{Entry, History, Seen, Then, and_then, did, job, seen, stage};
ghost use Rattle.fc_laws.specs.DrawLaws.{NeedsId};
ghost use Rattle.fc_laws.specs.TimerLaws.{HasNoFire};
ghost use Rattle.fc_laws.specs.KeptLaws.{AnswersJob, HasId, answers, answers_with, emitted_bytes, exchange_of_job, opened_at};
ghost use Rattle.fc_core.specs.declared.event.Event.TheVariants.{Answer};
ghost use Rattle.fc_core.specs.Stage.{ToAnswer};
ghost use Rattle.coap_msg.specs.Wire.{Message};
ghost use Rattle.coap_msg.specs.declared.types.Emission.{Emission};
ghost use Rattle.fc_core.specs.Laws.{HasCome};
ghost use Rattle.fc_front.specs.Ids.{free_id};
ghost use Rattle.fc_core.specs.Legal.{Emits};
ghost use Rattle.std.specs.Prelude.{ℕ, ◌+◌, ◌%◌, ◌<◌, ◌≤◌, ◌≡◌, ◌↔◌, ◌++◌, ◌∷◌, [], None, Option, Some, is_some, false, length, max, true};

/// A duplicate opens no exchange, makes no job, and adds and draws nothing.
///
/// A duplicate is a request with an endpoint and a message ID for which an exchange was opened less
/// than 247,000 ms before. The duplicate adds no payload to a transfer, and draws no message ID. If
/// the request of that exchange was confirmable and was answered, the stored bytes of the answer
/// are emitted. Otherwise nothing is emitted.
pub fn repeats_do_nothing()
    ensures exchanges { (r : Entry) (s : Seen) (e : Exchange) → Repeats s r.event e
        → (and_then r s).exchanges ≡ s.exchanges }
    ensures tasks { (r : Entry) (s : Seen) (e : Exchange) → Repeats s r.event e
        → (and_then r s).tasks ≡ s.tasks }
    ensures additions { (r : Entry) (s : Seen) (e : Exchange) → Repeats s r.event e
        → (and_then r s).additions ≡ s.additions }
    ensures ids { (r : Entry) (s : Seen) (e : Exchange) → Repeats s r.event e → (and_then r s).ids ≡ s.ids }
    ensures emitted { (r : Entry) (s : Seen) (e : Exchange) → Repeats s r.event e → Emits s r.event r.emitted
        → r.emitted ≡ repeat_emits r.event e }
{}

/// A new request for which there is space opens an exchange, and nothing else does.
///
/// The request is no duplicate. There is space under three conditions. Fewer than 2^64 - 1
/// exchanges were ever opened. Fewer than the policy's limit were opened in the last 247,000 ms.
/// Fewer than a share of these are from the request's address. The exchange has the delivery's
/// endpoint, message ID and type, and is opened at the front's time. No exchange is ever lost.
pub fn new_requests_open_exchanges()
    ensures opens { (r : Entry) (s : Seen) → Opens s r.event → OpensOne r s }
    ensures others { (r : Entry) (s : Seen) → (Opens s r.event → ⊥)
        → arrivals (and_then r s) ≡ arrivals s }
{}

/// A new request without space for its exchange is answered 5.03.
///
/// 5.03 is Service Unavailable, and its byte is 163. The request is no duplicate, and its address
/// is below its share. There is no space if as many exchanges as the policy's limit were opened in
/// the last 247,000 ms, or if 2^64 - 1 were ever opened. The request opens no exchange, so nothing
/// of it is stored. It makes no job, and adds no payload to a transfer.
pub fn requests_without_room_are_unavailable()
    ensures exchanges { (r : Entry) (s : Seen) (m : Message) → FindsNoExchange s r.event m
        → (and_then r s).exchanges ≡ s.exchanges }
    ensures tasks { (r : Entry) (s : Seen) (m : Message) → FindsNoExchange s r.event m → (and_then r s).tasks ≡ s.tasks }
    ensures additions { (r : Entry) (s : Seen) (m : Message) → FindsNoExchange s r.event m
        → (and_then r s).additions ≡ s.additions }
    ensures emitted { (r : Entry) (s : Seen) (m : Message) → FindsNoExchange s r.event m → Emits s r.event r.emitted
        → r.emitted ≡ bare_by s r.event m 163 }
{}

/// A request is executed at most once within its lifetime.
///
/// Suppose that two jobs of requests have one endpoint and one message ID. Then their exchanges
/// were opened at least 247,000 ms apart. The job of an observer's lease and the job of a timer
/// aren't jobs of requests. If no timer has fired, each job without a lease is that of a request.
pub fn requests_are_carried_out_once()
    ensures requests { (h : History) (j k : ℕ) → j < k → HasCome (seen h) k
        → IsOfRequest (job (seen h) j) → IsOfRequest (job (seen h) k)
        → (job (seen h) j).origin.endpoint ≡ (job (seen h) k).origin.endpoint
        → (job (seen h) j).origin.id ≡ (job (seen h) k).origin.id
        → (job (seen h) j).origin.opening.at + 247000 ≤ (job (seen h) k).origin.opening.at }
    ensures without_timers { (h : History) (j k : ℕ) → HasNoFire h → j < k → HasCome (seen h) k
        → (job (seen h) j).turn ≡ None → (job (seen h) k).turn ≡ None
        → (job (seen h) j).origin.endpoint ≡ (job (seen h) k).origin.endpoint
        → (job (seen h) j).origin.id ≡ (job (seen h) k).origin.id
        → (job (seen h) j).origin.opening.at + 247000 ≤ (job (seen h) k).origin.opening.at }
{}

/// The server draws its message IDs in order; the one after 65,535 is 0.
///
/// No message ID is drawn twice within less than 247,000 ms. A message ID is available at a time
/// exactly if it is the next one, and each of its draws was at least 247,000 ms before.
pub fn message_ids_come_in_order()
    ensures order { (h : History) → first_id h < 65536 → AreInOrder (first_id h) (draws_of h) }
    ensures apart { (h : History) → first_id h < 65536 → AreApart (draws_of h) }
    ensures free { (h : History) (at id : ℕ) → first_id h < 65536 → (free_id (seen h).ids at ≡ Some id)
        ↔ ((id ≡ (first_id h + length (draws_of h)) % 65536) × AllBefore id at (draws_of h)) }
{}

/// An event draws a message ID exactly if the event needs one and one is available.
///
/// An event needs one to answer a request that isn't confirmable. The request's delivery answers it
/// on arrival, or the request's job does less than 247,000 ms after the exchange was opened. The
/// draw of a lease needs a message ID too. The answer of a timer's job, which has no exchange,
/// needs none.
pub fn message_ids_are_drawn_where_needed()
    ensures needed { (h : History) (r : Entry) (id : ℕ) → first_id h < 65536 → NeedsId (seen h) r.event
        → free_id (seen h).ids (seen (Then h r)).time ≡ Some id
        → draws_of (Then h r) ≡ record { id = id; at = (seen (Then h r)).time } ∷ draws_of h }
    ensures none_free { (h : History) (r : Entry) → free_id (seen h).ids (seen (Then h r)).time ≡ None
        → draws_of (Then h r) ≡ draws_of h }
    ensures others { (h : History) (r : Entry) → (NeedsId (seen h) r.event → ⊥) → draws_of (Then h r) ≡ draws_of h }
    ensures without_timers { (h : History) (k now : ℕ) (content : Content) → HasNoFire h
        → stage (seen h) k ≡ ToAnswer content → (job (seen h) k).confirmable ≡ false
        → max (seen h).time now < opened_at (seen h) k + 247000 → NeedsId (seen h) (Answer k now) }
{}

/// The answer of a job is sent in time or never.
///
/// In time means less than 247,000 ms after the exchange of the job's request was opened. In that
/// time the answer of a job with an exchange is sent if the request was confirmable. Otherwise it
/// is sent if a message ID of the server is available. If no timer has fired, each job that is to
/// be answered has an exchange.
pub fn answers_go_out_in_time()
    ensures overdue { (s : Seen) (k now : ℕ) (e : Emission) → Emits s (Answer k now) (Some e)
        → max s.time now < opened_at s k + 247000 }
    ensures in_time { (s : Seen) (k now : ℕ) (content : Content) (o : Option Emission) → stage s k ≡ ToAnswer content → HasExchange (job s k)
        → max s.time now < opened_at s k + 247000 → HasId s k now → Emits s (Answer k now) o → is_some o ≡ true }
    ensures without_timers { (h : History) (k now : ℕ) (content : Content) (o : Option Emission)
        → HasNoFire h → stage (seen h) k ≡ ToAnswer content
        → max (seen h).time now < opened_at (seen h) k + 247000 → HasId (seen h) k now
        → Emits (seen h) (Answer k now) o → is_some o ≡ true }
{}

/// The stored answer of an exchange consists of the bytes that were sent.
///
/// The exchange's delivery emitted these bytes, if the request was answered immediately; otherwise
/// the `Answer` of the exchange's job did. No other event changes a stored answer.
pub fn kept_answers_are_what_went_out()
    ensures opened { (h : History) (r : Entry) → Opens (seen h) r.event → Emits (seen h) r.event r.emitted
        → answers (seen (Then h r)) ≡ answers (seen h) ++ emitted_bytes r.emitted ∷ [] }
    ensures answered { (h : History) (k now : ℕ) (content : Content) (o : Option Emission) → stage (seen h) k ≡ ToAnswer content
        → answers (seen (Then h (did (Answer k now) o))) ≡ answers_with o (exchange_of_job (seen h) k) (answers (seen h)) }
    ensures others { (h : History) (r : Entry) → (Opens (seen h) r.event → ⊥) → (AnswersJob (seen h) r.event → ⊥)
        → answers (seen (Then h r)) ≡ answers (seen h) }
{}
