//! Laws about the definitions.
//!
//! Each law is the contract of an empty function.
ghost use Rattle.std.specs.Prelude.{◌≡◌, ◌+◌, ◌++◌, ◌<◌, ◌≤◌, ◌^◌, ℕ, [], ◌∷◌, List, None, Ok, Option, Some, codes, false, length, true};
ghost use Rattle.std.specs.List.{All};
ghost use Rattle.clap.specs.Matches.{first_value};
ghost use Rattle.clap.specs.declared.parser.matches.Found.{Found};
ghost use Rattle.coap_opts.specs.declared.request.Method.{Method};
ghost use Rattle.coap_opts.specs.declared.request.Method.TheVariants.{Delete, Get, Post, Put};
ghost use Rattle.fc_fetch.specs.Operations.{IsFormatNamed, IsOperationError, body_at};
ghost use Rattle.fc_fetch.specs.declared.operation.OperationError.TheVariants.{Missing};
ghost use Rattle.fc_fetch.specs.declared.operation.BodySource.TheVariants as source;
ghost use Rattle.coap_observer.specs.Completions.{BlockOutcome, IsFollowing, Joined, Missing, StateEnd, Superseded, following_id, state_from};
ghost use Rattle.coap_client.specs.Fetching.{Ended};
ghost use Rattle.coap_observer.specs.Notices.{notice_of};
ghost use Rattle.coap_client.specs.PeerCalls.{PeerCall, Reads, Waits};
ghost use Rattle.coap_observer.specs.declared.notice.NotificationClass.TheVariants as notice;
ghost use Rattle.coap_observer.specs.Representations.{begun};
ghost use Rattle.coap_client.specs.Schedules.{schedule};
ghost use Rattle.coap_client.specs.declared.fetcher.FetchFault.{FetchFault};
ghost use Rattle.coap_observer.specs.declared.observing.Observer.{Observer};
ghost use Rattle.coap_observer.specs.Notes.{IsAfter, Note};
ghost use Rattle.coap_observer.specs.declared.watch.Observation.{Observation};
ghost use Rattle.coap_msg.specs.Reading.{reading_of};
ghost use Rattle.coap_msg.specs.Wire.{Message};
ghost use Rattle.coap_msg.specs.declared.code.Code.{Code};
ghost use Rattle.fc_cli.specs.declared.status.Status.TheVariants.{Done, Refused};
ghost use Rattle.fc_fetch.specs.Fetching.{ending_of};
ghost use Rattle.fc_fetch.specs.Observing.{IsEnd, IsRenderedBy, IsStoppedBy, IsStoppedJoining, IsTimedObservation, IsWaitedFor, ObservesNotes, lines_wanted, rest_wait};
ghost use Rattle.fc_fetch.specs.Rendering.{AreRendered, AreWhole, Blocks, IsRendering, RenderedNote, Rendering, Whole, errors_text, has_line, ids_after, lines_in, missing_text, notes_text, rendered_error};
ghost use Rattle.fc_fetch.specs.declared.printer.Shown.TheVariants.{Text};
ghost use Rattle.coap_observer.specs.declared.joining.Unfetched.{Unfetched};
ghost use Rattle.coap_observer.specs.declared.joining.Unfetched.TheVariants.{Changed};
ghost use Rattle.fc_fetch.specs.declared.observer.ObservationEnd.{ObservationEnd};
ghost use Rattle.fc_fetch.specs.declared.observer.ObservationEnd.TheVariants.{Counted, Last, Over};

use coap_client::Peer;

/// The waits of an observation, with and without `--seconds`.
///
/// With `--seconds 5` it begins one wait after the registration, of 5 seconds, and sends no request
/// during that wait, if each note is whole. After the requests for the further blocks of a state,
/// the rest begins again, once: 3 seconds after 2,200 ms, and none after 5,001 ms. Without it, each
/// wait is of 86,400 seconds, and the time is over only after 2^64 - 1 waits. Nothing is called if
/// the only note is the last one: a response without a sequence number, or an error. The wait begins
/// if the only note is a state, or if there are several notes.
pub fn an_observation_lasts_so_many_seconds()
    ensures seconds { (o : Observer) (start : ℕ) (rs : List RenderedNote) (calls : List PeerCall) → AreWhole rs → IsWaitedFor o (Some 5) start rs calls
        → schedule calls ≡ Waits 5 ∷ [] }
    ensures days { (o : Observer) (start : ℕ) (rs : List RenderedNote) (calls : List PeerCall) → AreWhole rs → IsWaitedFor o None start rs calls
        → All (λ c. c ≡ Waits 86400) (schedule calls) }
    ensures whole { (o : Observer) (seconds : Option ℕ) (start : ℕ) (m : Message) (calls : List PeerCall) → IsRenderedBy o seconds start m Whole calls → calls ≡ [] }
    ensures blocks { (o : Observer) (first : ℕ) (w : Observation) (outcomes : List BlockOutcome) (end : StateEnd) (m : Message) (calls : List PeerCall)
        → (r : IsRenderedBy o (Some 5) 1000 m (Blocks first w outcomes end) calls) → r.now ≡ 3200
        → (calls ≡ Waits 3 ∷ Reads 3200 ∷ r.following) × IsFollowing o first (begun m) outcomes end r.following }
    ensures rest { (rest_wait (Some 5) 1000 3200 ≡ 3) × ((rest_wait (Some 5) 1000 6001 ≡ 0) × (rest_wait None 1000 3200 ≡ 86400)) }
    ensures last { (o : Observer) (end : ObservationEnd) (r : RenderedNote) (calls : List PeerCall) (t : IsTimedObservation o (Some 5) end (r ∷ []) calls)
        → notice_of r.note.message ≡ notice.Last → t.newer ≡ [] }
    ensures state { (o : Observer) (end : ObservationEnd) (r : RenderedNote) (calls : List PeerCall) (t : IsTimedObservation o (Some 5) end (r ∷ []) calls)
        → notice_of r.note.message ≡ notice.State 7 → IsWaitedFor o (Some 5) t.registered.time (r ∷ []) t.newer }
    ensures later { (o : Observer) (end : ObservationEnd) (r n : RenderedNote) (rs : List RenderedNote) (calls : List PeerCall) (t : IsTimedObservation o (Some 5) end (r ∷ n ∷ rs) calls)
        → IsWaitedFor o (Some 5) t.registered.time (r ∷ n ∷ rs) t.newer }
    ensures over { (o : Observer) (rs : List RenderedNote) (calls : List PeerCall) (t : IsTimedObservation o None Over rs calls) → 2 ^ 64 ≤ length (schedule t.newer) + 1 }
{}

/// The end of each state of several blocks.
///
/// It has a line if its blocks are joined. It is reported on standard error if its further blocks
/// can't be fetched. It has neither if it is superseded: a newer notification arrived before its
/// blocks were whole, and is the next note, if there is one.
pub fn each_large_state_ends_in_one_way<P: Peer>()
    ensures joined { (first code : ℕ) (w : Observation) (outcomes : List BlockOutcome) (body : List ℕ) → let r = Blocks first w outcomes (Joined code body) in
        (has_line r ≡ true) × (rendered_error r ≡ []) }
    ensures missing { (first : ℕ) (w : Observation) (outcomes : List BlockOutcome) (cause : Unfetched) → let r = Blocks first w outcomes (Missing cause) in
        (has_line r ≡ false) × (rendered_error r ≡ missing_text cause) }
    ensures superseded { (first time : ℕ) (w : Observation) (outcomes : List BlockOutcome) (bytes : List ℕ) → let r = Blocks first w outcomes (Superseded bytes time) in
        (has_line r ≡ false) × (rendered_error r ≡ []) }
    ensures newer { (o : Observer) (n : Note) (older : List Note) (first time code : ℕ) (w : Observation)
        (outcomes : List BlockOutcome) (bytes body : List ℕ) → IsRendering P.went P.came P.is_time o n older (Blocks first w outcomes (Superseded bytes time))
        → (state_from (begun n.message) outcomes ≡ Ended code body → ⊥)
        × ((newer : Note) × (reading_of bytes ≡ Ok newer.message) × IsAfter n newer) }
    ensures next { (o : Observer) (n next : Note) (rs : List RenderedNote) (rendering : Rendering) (first time : ℕ)
        (w : Observation) (outcomes : List BlockOutcome) (bytes : List ℕ)
        → AreRendered P.went P.came P.is_time o (record { note = next; rendering = rendering } ∷ record { note = n; rendering = Blocks first w outcomes (Superseded bytes time) } ∷ rs)
        → reading_of bytes ≡ Ok next.message }
{}

/// A notification that supersedes a state isn't dropped.
///
/// After the requests for the blocks of that state, no notification is awaited: the one that
/// superseded it is the next note. So no later notification stops the observer in its place. If the
/// requests for the blocks of a note fail, that note superseded the state before it, if any did.
pub fn each_superseding_notification_is_handled<P: Peer>()
    ensures calls { (o : Observer) (seconds : Option ℕ) (start first time : ℕ) (n : Note) (rs : List RenderedNote) (w : Observation) (outcomes : List BlockOutcome) (bytes : List ℕ) (calls : List PeerCall)
        → (m : ObservesNotes o seconds start (record { note = n; rendering = Blocks first w outcomes (Superseded bytes time) } ∷ rs) calls) → calls ≡ m.own ++ m.older }
    ensures waiting { (o : Observer) (first time : ℕ) (w : Observation) (outcomes : List BlockOutcome) (bytes : List ℕ)
        → (s : IsStoppedBy P.went P.came P.is_time (λ Calls. Unit {0}) o (λ rs calls. Unit {0}) (λ class. Unit {0}))
        → s.latest.rendering ≡ Blocks first w outcomes (Superseded bytes time) → ⊥ }
    ensures joining { (o : Observer) (before : P) (first time : ℕ) (n : Note) (rs : List RenderedNote) (w : Observation) (outcomes : List BlockOutcome) (bytes : List ℕ) (fault : FetchFault)
        → (s : IsStoppedJoining P.went P.came P.is_time P.is_error P.called before o (λ rs calls. Unit {0}) fault)
        → s.older ≡ record { note = n; rendering = Blocks first w outcomes (Superseded bytes time) } ∷ rs → reading_of bytes ≡ Ok s.latest.message }
{}

/// The message IDs of the requests for further blocks continue from state to state.
///
/// The registration has 7 and the deregistration 8. Of two states of two blocks each, the request
/// of the first has 9, and that of the second 10. A whole message in between changes nothing (RFC
/// 7252, section 4.4).
pub fn further_blocks_continue_their_ids<P: Peer>()
    ensures first { (o : Observer) (n : Note) (first code : ℕ) (w : Observation) (x : BlockOutcome) (body : List ℕ) → o.id ≡ 7
        → AreRendered P.went P.came P.is_time o (record { note = n; rendering = Blocks first w (x ∷ []) (Joined code body) } ∷ [])
        → following_id o first [] ≡ 9 }
    ensures second { (o : Observer) (n next : Note) (first second code later : ℕ) (w v : Observation) (x y : BlockOutcome) (body other : List ℕ) → o.id ≡ 7
        → AreRendered P.went P.came P.is_time o (record { note = next; rendering = Blocks second v (y ∷ []) (Joined later other) }
        ∷ record { note = n; rendering = Blocks first w (x ∷ []) (Joined code body) } ∷ [])
        → following_id o second [] ≡ 10 }
    ensures whole { (o : Observer) (n : Note) (rs : List RenderedNote) → ids_after o (record { note = n; rendering = Whole } ∷ rs) ≡ ids_after o rs }
{}

/// The number of lines that an observation prints.
///
/// With `--count 3` an observation that ends by its count has printed 3 lines. One that ends by its
/// time has printed fewer. One that ends by an error or without a sequence number has printed at
/// most 3. With `--count 0`, which no command line gives, the number of lines is one.
pub fn an_observation_prints_so_many_lines()
    ensures counted { (latest : RenderedNote) (older : List RenderedNote) → IsEnd (lines_wanted (Some 3)) Counted latest older → lines_in (latest ∷ older) ≡ 3 }
    ensures over { (latest : RenderedNote) (older : List RenderedNote) → IsEnd (lines_wanted (Some 3)) Over latest older → lines_in (latest ∷ older) < 3 }
    ensures last { (latest : RenderedNote) (older : List RenderedNote) (code : Code) → IsEnd (lines_wanted (Some 3)) (Last code) latest older → lines_in (latest ∷ older) ≤ 3 }
    ensures none { lines_wanted (Some 0) ≡ 1 }
{}

/// The lines of four notes.
///
/// A whole message and joined blocks have a line each. A state that a newer one superseded has none,
/// nor has one whose further blocks can't be fetched: standard error gets a line for that.
pub fn each_note_is_rendered_once()
    ensures whole { (n : Note) → n.message.code ≡ 69 → n.message.payload ≡ codes "19" → notes_text Text (record { note = n; rendering = Whole } ∷ []) ≡ codes "2.05 19" ++ (10 ∷ []) }
    ensures joined { (n : Note) (first : ℕ) (w : Observation) (outcomes : List BlockOutcome)
        → notes_text Text (record { note = n; rendering = Blocks first w outcomes (Joined 69 (codes "1234")) } ∷ []) ≡ codes "2.05 1234" ++ (10 ∷ []) }
    ensures superseded { (n : Note) (first time : ℕ) (w : Observation) (outcomes : List BlockOutcome) (bytes : List ℕ)
        → let r : RenderedNote = record { note = n; rendering = Blocks first w outcomes (Superseded bytes time) } in
        (notes_text Text (r ∷ []) ≡ []) × ((errors_text (r ∷ []) ≡ []) × (lines_in (r ∷ []) ≡ 0)) }
    ensures missing { (n : Note) (first : ℕ) (w : Observation) (outcomes : List BlockOutcome)
        → let r : RenderedNote = record { note = n; rendering = Blocks first w outcomes (Missing Changed) } in
        (notes_text Text (r ∷ []) ≡ []) × ((errors_text (r ∷ []) ≡ codes "a state isn't printed: it changed while its blocks were fetched" ++ (10 ∷ [])) × (lines_in (r ∷ []) ≡ 0)) }
{}

/// `ping` has all words that it needs, and so has `observe` with a target.
pub fn ping_needs_no_target()
    ensures ping { (f : Found) → first_value f (codes "method") ≡ Some (codes "ping") → IsOperationError f Missing → ⊥ }
    ensures observation { (f : Found) (target : List ℕ) → first_value f (codes "method") ≡ Some (codes "observe")
        → first_value f (codes "target") ≡ Some target → IsOperationError f Missing → ⊥ }
{}

/// The number of each named Content-Format (RFC 7252, section 12.3).
///
/// `text/plain` has 0, `application/link-format` 40, `application/xml` 41,
/// `application/octet-stream` 42, `application/exi` 47, and `application/json` 50.
pub fn formats_have_their_numbers()
    ensures text { (n : ℕ) → IsFormatNamed (codes "text/plain") n → n ≡ 0 }
    ensures links { (n : ℕ) → IsFormatNamed (codes "application/link-format") n → n ≡ 40 }
    ensures xml { (n : ℕ) → IsFormatNamed (codes "application/xml") n → n ≡ 41 }
    ensures octets { (n : ℕ) → IsFormatNamed (codes "application/octet-stream") n → n ≡ 42 }
    ensures exi { (n : ℕ) → IsFormatNamed (codes "application/exi") n → n ≡ 47 }
    ensures json { (n : ℕ) → IsFormatNamed (codes "application/json") n → n ≡ 50 }
{}

/// Standard input that is a terminal is read for a POST or a PUT only.
///
/// For a GET or a DELETE a terminal isn't read. A pipe or a file is read for each method.
pub fn terminals_are_read_for_bodies_alone()
    ensures get { body_at true Get source.Input ≡ source.None }
    ensures delete { body_at true Delete source.Input ≡ source.None }
    ensures post { body_at true Post source.Input ≡ source.Input }
    ensures put { body_at true Put source.Input ≡ source.Input }
    ensures pipe { (m : Method) → body_at false m source.Input ≡ source.Input }
{}

/// A response of class 2 ends a client with 0, and any other response with 1.
pub fn answers_end_by_their_class()
    ensures done { ending_of 69 ≡ Done }
    ensures refused { (ending_of 132 ≡ Refused) × (ending_of 160 ≡ Refused) }
{}
