//! Laws of a server's policy: each function is a law, stated by its contract.
ghost use Rattle.std.specs.Borrow.{Bor};
ghost use Rattle.std.specs.Prelude.{ℕ, List, [], ◌∷◌, length, max, nat_le, ◌≡◌, ◌*◌, ◌+◌, ◌<◌, ◌≤◌, Ok, false, true, if◌then◌else◌};
ghost use Rattle.coap_msg.specs.declared.types.Emission.{Emission};
ghost use Rattle.coap_msg.specs.declared.types.MessageType.TheVariants.{Confirmable, NonConfirmable};
ghost use Rattle.coap_reply.specs.Responses.{Response};
ghost use Rattle.fc_observe.specs.declared.entry.Turn.{Turn};
ghost use Rattle.fc_laws.specs.TurnLaws.{NotifiesOf, time_at, note_as};
ghost use Rattle.coap_msg.specs.Reading.{reading_of};
ghost use Rattle.coap_msg.specs.Wire.{Message};
ghost use Rattle.coap_msg.specs.declared.types.Endpoint.{Endpoint};
ghost use Rattle.coap_opts.specs.Verdict.{Asked, IsAsked, verdict};
ghost use Rattle.fc_core.specs.declared.event.Event.TheVariants.{Deliver};
ghost use Rattle.fc_core.specs.History.{Entry, History, Seen, and_then, job, seen};
ghost use Rattle.fc_core.specs.Laws.{HasCome};
ghost use Rattle.fc_core.specs.Legal.{Emits};
ghost use Rattle.coap_dedup.specs.Exchanges.{places_of};
ghost use Rattle.coap_dedup.specs.Keys.{address_number};
ghost use Rattle.coap_opts.specs.declared.request.Action.{Action};
ghost use Rattle.coap_opts.specs.declared.request.Action.TheVariants as actions;
ghost use Rattle.fc_core.specs.declared.event.Event.{Event};
ghost use Rattle.fc_front.specs.declared.policy.Network.{Network};
ghost use Rattle.fc_front.specs.Policies.{any_address, changes_program, default_policy, is_allowed, is_in, is_manager};
ghost use Rattle.fc_front.specs.Receiving.{is_confirmable};
ghost use Rattle.fc_laws.specs.ExchangeLaws.{ExceedsShare, IsCrowdedOut, IsOpening, held_at, shared_at};
ghost use Rattle.fc_laws.specs.PolicyLaws.{AreAmong, IsManaged, IsOneOf, over_share_emits};
ghost use Rattle.fc_laws.specs.RefusalLaws.{LeavesAll};
ghost use Rattle.fc_laws.specs.ReplyLaws.{Refuses};

/// A network contains the addresses that begin with the network's bits.
///
/// 192.0.2.0/25 contains 192.0.2.127, but not 192.0.2.128. 192.0.2.0/24 contains 192.0.2.128, but
/// not 193.0.2.0. 127.0.0.1/32 doesn't contain 127.0.0.2, and neither does 127.0.0.1/40, since bits
/// above 32 don't count. 0.0.0.0/0 contains each address.
pub fn networks_are_prefixes()
    ensures last { is_in (192 ∷ 0 ∷ 2 ∷ 127 ∷ []) (record { ip = 192 ∷ 0 ∷ 2 ∷ 0 ∷ []; bits = 25 }) ≡ true }
    ensures next { is_in (192 ∷ 0 ∷ 2 ∷ 128 ∷ []) (record { ip = 192 ∷ 0 ∷ 2 ∷ 0 ∷ []; bits = 25 }) ≡ false }
    ensures wider { is_in (192 ∷ 0 ∷ 2 ∷ 128 ∷ []) (record { ip = 192 ∷ 0 ∷ 2 ∷ 0 ∷ []; bits = 24 }) ≡ true }
    ensures first { is_in (193 ∷ 0 ∷ 2 ∷ 0 ∷ []) (record { ip = 192 ∷ 0 ∷ 2 ∷ 0 ∷ []; bits = 24 }) ≡ false }
    ensures one { is_in (127 ∷ 0 ∷ 0 ∷ 2 ∷ []) (record { ip = 127 ∷ 0 ∷ 0 ∷ 1 ∷ []; bits = 32 }) ≡ false }
    ensures more { is_in (127 ∷ 0 ∷ 0 ∷ 2 ∷ []) (record { ip = 127 ∷ 0 ∷ 0 ∷ 1 ∷ []; bits = 40 }) ≡ false }
    ensures any { (ip : List ℕ) → address_number ip < 4294967296 → is_in ip any_address ≡ true }
{}

/// Only a PUT or DELETE of `/p/N` requires a manager's endpoint.
///
/// A GET or POST of `/r/N`, a GET of `/p/N` and a GET of the list are allowed to each endpoint.
/// Each action is allowed to a manager's endpoint.
pub fn managers_are_wanted_for_changes_alone()
    ensures get { (managers : List Network) (to : Endpoint) (n : ℕ) → is_allowed managers to (actions.Get n) ≡ true }
    ensures post { (managers : List Network) (to : Endpoint) (n : ℕ) → is_allowed managers to (actions.Post n) ≡ true }
    ensures describe { (managers : List Network) (to : Endpoint) (n : ℕ) → is_allowed managers to (actions.Describe n) ≡ true }
    ensures discover { (managers : List Network) (to : Endpoint) → is_allowed managers to actions.Discover ≡ true }
    ensures install { (managers : List Network) (to : Endpoint) (n : ℕ) → is_allowed managers to (actions.Install n) ≡ is_manager managers to }
    ensures remove { (managers : List Network) (to : Endpoint) (n : ℕ) → is_allowed managers to (actions.Remove n) ≡ is_manager managers to }
    ensures managers { (managers : List Network) (to : Endpoint) (action : Action) → is_manager managers to ≡ true → is_allowed managers to action ≡ true }
{}

/// The default policy allows each endpoint to change programs.
///
/// By the default policy at most 1,024 exchanges are stored, and no address is above its share. A
/// notification is confirmable after 86,400,000 ms, which is 24 hours.
pub fn default_policy_allows_all()
    ensures managers { (to : Endpoint) → address_number to.ip < 4294967296 → is_manager default_policy.managers to ≡ true }
    ensures places { places_of default_policy.limits ≡ 1024 }
    ensures confirm_after { default_policy.confirm_after ≡ 86400000 }
    ensures shares { (h : History) (e : Event) (m : Message) → (seen h).policy ≡ default_policy → ExceedsShare (seen h) e m → ⊥ }
{}

/// Each job that installs or removes a program comes from a manager's endpoint.
///
/// A slot changes only by installs, removals and commits of jobs. So only a manager's endpoint
/// changes which program is in a slot.
pub fn managers_alone_change_programs()
    ensures { (h : History) (k : ℕ) → HasCome (seen h) k → IsManaged (seen h).policy.managers (job (seen h) k) }
{}

/// A new PUT or DELETE of a program is refused by 4.03 if no manager sent it.
///
/// The request passes each check of its options, and its endpoint isn't a manager's. 4.03 is
/// Forbidden, and its byte is 131.
pub fn forbidden_changes_are_refused()
    ensures { (s : Seen) (now : ℕ) (to : Endpoint) (bytes : Bor (List ℕ)) (m : Message) (r : Asked) → IsOpening s now to bytes.now
        → reading_of bytes.now ≡ Ok m → verdict m ≡ IsAsked r → changes_program r.action ≡ true → is_manager s.policy.managers to ≡ false
        → Refuses s (Deliver now to bytes) m 131 }
{}

/// The exchanges are within the policy's limits, in total and for each address.
///
/// From the front's time on, at most `Limits::places` exchanges are less than 247,000 ms old. At
/// most `share` of these exchanges are from one address.
pub fn exchanges_are_within_limits()
    ensures all { (h : History) (at : ℕ) → (seen h).time ≤ at → length (held_at (seen h) at) ≤ places_of (seen h).policy.limits }
    ensures shares { (h : History) (at : ℕ) (ip : List ℕ) → (seen h).time ≤ at → shared_at (seen h) at ip ≤ (seen h).policy.limits.share }
{}

/// Each address keeps space for the exchanges of its share.
///
/// Suppose that all stored exchanges belong to some addresses, and that a share for each of these
/// addresses fits into the table. Suppose also that fewer than 2^64 - 1 exchanges were ever opened.
/// Then a new request from one of these addresses finds space if that address is below its share.
pub fn shares_are_kept_free()
    ensures { (h : History) (now : ℕ) (to : Endpoint) (bytes : List ℕ) (m : Message) (ips : List (List ℕ))
        → AreAmong ips (held_at (seen h) (max (seen h).time now)) → IsOneOf to.ip ips
        → length ips * (seen h).policy.limits.share ≤ places_of (seen h).policy.limits
        → length (seen h).exchanges < 18446744073709551615 → IsCrowdedOut (seen h) now to bytes m → ⊥ }
{}

/// A new request above its address's share changes nothing but the front's time.
///
/// The request opens no exchange, draws no message ID, makes no job and adds no payload to a
/// transfer. A confirmable request is answered 5.03 (Service Unavailable), whose byte is 163; any
/// other gets no response.
pub fn requests_above_a_share_change_nothing()
    ensures left { (r : Entry) (s : Seen) (m : Message) → ExceedsShare s r.event m → LeavesAll s (and_then r s) }
    ensures ids { (r : Entry) (s : Seen) (m : Message) → ExceedsShare s r.event m → (and_then r s).ids ≡ s.ids }
    ensures emitted { (r : Entry) (s : Seen) (m : Message) → ExceedsShare s r.event m → Emits s r.event r.emitted
        → r.emitted ≡ over_share_emits (is_confirmable m.kind) s r.event m }
{}

/// A notification is confirmable exactly if the policy's time has passed.
///
/// The policy's time is `confirm_after`, in ms. It is counted since the observer's registration or
/// the last confirmable notification to the observer. No notification is confirmable a millisecond
/// early, and none is non-confirmable from then on. By default the time is 86,400,000 ms, 24 hours.
pub fn notifications_are_confirmable_in_time()
    ensures in_time { (s : Seen) (k now id : ℕ) (turn : Turn) (response : Response) (e : Emission) (n : NotifiesOf s k now turn id response e)
        → n.entry.confirmed + s.policy.confirm_after ≤ time_at s k now → e ≡ note_as Confirmable id n.entry response }
    ensures early { (s : Seen) (k now id : ℕ) (turn : Turn) (response : Response) (e : Emission) (n : NotifiesOf s k now turn id response e)
        → time_at s k now < n.entry.confirmed + s.policy.confirm_after → e ≡ note_as NonConfirmable id n.entry response }
    ensures default { (s : Seen) (k now id : ℕ) (turn : Turn) (response : Response) (e : Emission) (n : NotifiesOf s k now turn id response e)
        → s.policy ≡ default_policy
        → e ≡ note_as (if nat_le (n.entry.confirmed + 86400000) (time_at s k now) then Confirmable else NonConfirmable) id n.entry response }
{}
