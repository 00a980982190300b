//! Laws of timers: each function is a law, stated by its contract.
ghost use Rattle.std.specs.Prelude.{ℕ, ◌≡◌, ◌⊎◌, ◌%◌, ◌++◌, ◌∷◌, [], None, Option, length, max};
ghost use Rattle.coap_msg.specs.Wire.{Message};
ghost use Rattle.coap_msg.specs.declared.types.Emission.{Emission};
ghost use Rattle.coap_msg.specs.declared.types.Endpoint.{Endpoint};
ghost use Rattle.fc_core.specs.History.{Entry, History, Seen, and_then, did, job, seen};
ghost use Rattle.fc_core.specs.Laws.{HasCome, slot_of};
ghost use Rattle.fc_core.specs.Legal.{Emits};
ghost use Rattle.fc_core.specs.Stage.{ToTake};
ghost use Rattle.fc_core.specs.declared.event.Event.TheVariants.{Answer, Fire};
ghost use Rattle.fc_laws.specs.AskLaws.{BringsJob};
ghost use Rattle.fc_laws.specs.ExchangeLaws.{HasExchange, IsInPlace, IsOfLease, IsOfRequest, arrival_of_job, arrivals};
ghost use Rattle.fc_laws.specs.TimerLaws.{HasNoFire, IsOfFire, IsPostOfTimer};
ghost use Rattle.fc_ticket.specs.declared.job.Job.{Job};

/// A timer that fires makes one job, that of a POST of its slot's resource.
///
/// The slot is taken modulo 64. The job is the newest one, and begins with a snapshot.
pub fn timers_make_one_job()
    ensures { (s : Seen) (n now : ℕ) (o : Option Emission) → (j : Job) × IsPostOfTimer (n % 64) j
        × ((and_then (did (Fire n now) o) s).tasks ≡ s.tasks ++ record { job = j; stage = ToTake 0 } ∷ []) }
{}

/// A timer that fires changes nothing else but the front's time, and emits nothing.
///
/// It opens no exchange, draws no message ID, and changes no slot.
pub fn timers_change_the_time()
    ensures time { (s : Seen) (n now : ℕ) (o : Option Emission) → (and_then (did (Fire n now) o) s).time ≡ max s.time now }
    ensures exchanges { (s : Seen) (n now : ℕ) (o : Option Emission) → (and_then (did (Fire n now) o) s).exchanges ≡ s.exchanges }
    ensures additions { (s : Seen) (n now : ℕ) (o : Option Emission) → (and_then (did (Fire n now) o) s).additions ≡ s.additions }
    ensures ids { (s : Seen) (n now : ℕ) (o : Option Emission) → (and_then (did (Fire n now) o) s).ids ≡ s.ids }
    ensures changes { (s : Seen) (n now k : ℕ) (o : Option Emission) → (and_then (did (Fire n now) o) s).changes k ≡ s.changes k }
    ensures shards { (s : Seen) (n now i : ℕ) (o : Option Emission) → (and_then (did (Fire n now) o) s).shard_time i ≡ s.shard_time i }
    ensures observers { (s : Seen) (n now k : ℕ) (o : Option Emission) → (and_then (did (Fire n now) o) s).calls k ≡ s.calls k }
    ensures words { (s : Seen) (n now : ℕ) (o : Option Emission) → (and_then (did (Fire n now) o) s).words ≡ s.words }
    ensures emitted { (s : Seen) (n now : ℕ) (o : Option Emission) → Emits s (Fire n now) o → o ≡ None }
{}

/// The answer of a job without an exchange is sent to nobody.
///
/// The answer is stored in no exchange, and draws no message ID.
pub fn answers_without_exchanges_are_dropped()
    ensures emitted { (s : Seen) (k now : ℕ) (o : Option Emission) → (HasExchange (job s k) → ⊥) → Emits s (Answer k now) o → o ≡ None }
    ensures exchanges { (s : Seen) (k now : ℕ) (o : Option Emission) → (HasExchange (job s k) → ⊥)
        → Emits s (Answer k now) o → (and_then (did (Answer k now) o) s).exchanges ≡ s.exchanges }
    ensures ids { (s : Seen) (k now : ℕ) (o : Option Emission) → (HasExchange (job s k) → ⊥)
        → (and_then (did (Answer k now) o) s).ids ≡ s.ids }
{}

/// The answer of a timer's job is sent to nobody, whatever events came meanwhile.
///
/// The job remains a POST of its slot's resource, without an exchange. The answer is stored in no
/// exchange, and draws no message ID.
pub fn answers_of_timers_are_dropped()
    ensures post { (h : History) (n k : ℕ) → IsOfFire n k h
        → IsPostOfTimer (n % 64) (job (seen h) k) }
    ensures emitted { (h : History) (n k now : ℕ) (o : Option Emission) → IsOfFire n k h
        → Emits (seen h) (Answer k now) o → o ≡ None }
    ensures exchanges { (h : History) (n k now : ℕ) (o : Option Emission) → IsOfFire n k h
        → Emits (seen h) (Answer k now) o
        → (and_then (did (Answer k now) o) (seen h)).exchanges ≡ (seen h).exchanges }
    ensures ids { (h : History) (n k now : ℕ) (o : Option Emission) → IsOfFire n k h
        → (and_then (did (Answer k now) o) (seen h)).ids ≡ (seen h).ids }
{}

/// A delivery that makes a job opens the job's exchange, as the newest.
///
/// The exchange has the job's endpoint, message ID and type, and the job's time of opening. The job
/// has the exchange's number, which is the exchange's position in the list. Fewer than 2^64 - 1
/// exchanges were opened before it. The exchange of a request's job stays in its place, whatever
/// events follow.
pub fn requests_have_exchanges()
    ensures opened { (r : Entry) (s : Seen) (from : Endpoint) (m : Message) (j : Job)
        → BringsJob r s from m j → arrivals (and_then r s) ≡ arrivals s ++ arrival_of_job j ∷ [] }
    ensures number { (r : Entry) (s : Seen) (from : Endpoint) (m : Message) (j : Job)
        → BringsJob r s from m j → j.origin.opening.number ≡ length (arrivals s) }
    ensures few { (r : Entry) (s : Seen) (from : Endpoint) (m : Message) (j : Job)
        → BringsJob r s from m j → HasExchange j }
    ensures stays { (h : History) (k : ℕ) → HasCome (seen h) k → IsOfRequest (job (seen h) k)
        → IsInPlace (arrivals (seen h)) (job (seen h) k) }
{}

/// Each job is that of an observer's lease, of a request, or of the slot's timer.
///
/// If no timer has fired, no job is that of a timer.
pub fn jobs_are_of_requests_leases_or_timers()
    ensures any { (h : History) (k : ℕ) → HasCome (seen h) k
        → IsOfLease (job (seen h) k)
        ⊎ (IsOfRequest (job (seen h) k) ⊎ IsPostOfTimer (slot_of (seen h) k) (job (seen h) k)) }
    ensures without_timers { (h : History) (k : ℕ) → HasNoFire h → HasCome (seen h) k
        → IsOfLease (job (seen h) k) ⊎ IsOfRequest (job (seen h) k) }
{}
