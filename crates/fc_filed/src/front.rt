//! The front under its lock, together with the track of its calls.
ghost use Rattle.std.specs.Prelude.{◌≡◌, ◌≤◌, ◌++◌, ◌∷◌, [], true};
ghost use Rattle.fc_front.specs.Answering.{emission_of, responded};
ghost use Rattle.fc_front.specs.Contents.{IsOf};
ghost use Rattle.fc_front.specs.Gauges.{gauges_at};
ghost use Rattle.fc_front.specs.Receiving.{handled};
ghost use Rattle.fc_front.specs.Timers.{timer_job};
ghost use Rattle.fc_book.specs.Tracks.{part_view, with_part};
ghost use Rattle.fc_calls.specs.Doings.{AdvancesTo, AnswersAt, DrawsAt, FiresAt, HandlesAt};
ghost use Rattle.fc_calls.specs.Logged.{AdvancesFront, AnswersRequest, DrawsId, FiresTimer, HandlesDatagram};
ghost use Rattle.fc_linear.specs.Operations.{FrontDoes, Logged};
ghost use Rattle.fc_filed.specs.Entries.{OperationsLead};
ghost use Rattle.fc_filed.specs.Threads.{HasJobFirst, HasOwnTrack, MayFile, begun_if, brings_job, did_by, entry_by};

use crate::book::{FiledTrack, ServerBook, ServerName, ServerTracks, file_as};
use crate::view::FiledName;
use coap_msg::{Emission, Endpoint};
use fc_book::Part;
use fc_front::{Answer, Front, FrontGauges, Handled, Responded};
use fc_ticket::{Job, SlotNumber};
use std::marker::{Brand, Model, PhantomData};

/// The front of a book's server, as a part: its key is 0.
pub struct FrontOf<J: ServerName> {
    of: PhantomData<J>,
}

impl<J: ServerName> Part for FrontOf<J> {
    ghost table = { J.table };

    ghost key = { 0 };

    fn track_key() -> u64 {
        0
    }
}

/// A front and the track of its calls.
///
/// The calls lead to it from the server's first front.
#[derive(Drop)]
pub struct FiledFront<J: ServerName> {
    front: Front,
    track: FiledTrack<FrontOf<J>>,
}

impl<J: ServerName> Model for FiledFront<J> {
    ghost use Rattle.fc_filed.specs.Parts.{FrontCalls};

    ghost Value = { FrontCalls };

    ghost view = { λ f. record { front = f.front; calls = f.track } };

    ghost use Rattle.fc_linear.specs.Operations.{FrontDoes};
    ghost use Rattle.fc_filed.specs.Entries.{OperationsLead};

    ghost invariant = { λ f. OperationsLead FrontDoes f.track J.first.front f.front };
}

impl<J: ServerName> FiledFront<J> {
    /// Makes a filed front of the server's first front, with an empty track.
    pub fn new(front: Front, track: FiledTrack<FrontOf<J>>) -> FiledFront<J>
        requires front { front ≡ J.first.front }
        requires track { track ≡ [] }
        ensures { result ≡ record { front = front; calls = [] } }
    {
        FiledFront { front, track }
    }

    /// Returns how many exchanges and transfers the front holds at `now` ms, and their limits.
    ///
    /// A read changes nothing and isn't filed. See [`Front::gauges`].
    pub fn gauges(&self, now: u64) -> FrontGauges
        ensures { result ≡ gauges_at now self.now.front }
    {
        self.front.gauges(now)
    }

    /// Handles a datagram at `now` ms, as [`Front::handle`] does, and files that.
    ///
    /// Returns `Job` if a job was written over `job`, and `Reply` if a datagram to send was written
    /// over `reply`. A job that the datagram produces begins a track.
    pub fn handle(
        &mut self,
        book: &ServerBook<J>,
        tracks: &mut ServerTracks<J>,
        who: u64,
        now: u64,
        endpoint: Endpoint,
        bytes: &[u8],
        job: &mut Job,
        reply: &mut Emission,
    ) -> Handled
        requires thread { HasOwnTrack J.first_job who tracks.old }
        requires may_begin { tracks.old.may_begin ≡ true }
        requires next { J.first_job ≤ tracks.old.next }
        ensures handled { HandlesAt now endpoint bytes.now (handled result job.new reply.new) self.old.front self.new.front }
        ensures filed { let operation = Logged (HandlesDatagram now endpoint bytes.now (handled result job.new reply.new)) in
            tracks.new ≡ did_by who operation (begun_if (brings_job result) tracks.old) }
    {
        let outcome = self.front.handle(now, endpoint, bytes, job, reply);
        begin_if_job(book, tracks, &outcome);
        file_handled::<Brand, J>(
            book,
            tracks,
            &mut self.track,
            who,
            now,
            endpoint,
            bytes,
            &outcome,
            job,
            reply,
        );
        outcome
    }

    /// Handles a datagram at `now` ms, as [`Front::handle`] does, and files that.
    ///
    /// Returns `Job` if a job was written over `job`, and `Reply` if a datagram to send was written
    /// over `reply`. A job begins no track: the entry is on the track that is first. A server with
    /// locks (`fc_locked`) makes this call for its threads: all jobs of a thread have one track.
    pub fn handle_for_first(
        &mut self,
        book: &ServerBook<J>,
        tracks: &mut ServerTracks<J>,
        who: u64,
        now: u64,
        endpoint: Endpoint,
        bytes: &[u8],
        job: &mut Job,
        reply: &mut Emission,
    ) -> Handled
        requires thread { HasOwnTrack J.first_job who tracks.old }
        requires job { HasJobFirst J.first_job tracks.old }
        ensures handled { HandlesAt now endpoint bytes.now (handled result job.new reply.new) self.old.front self.new.front }
        ensures filed { let operation = Logged (HandlesDatagram now endpoint bytes.now (handled result job.new reply.new)) in
            tracks.new ≡ did_by who operation tracks.old }
    {
        let outcome = self.front.handle(now, endpoint, bytes, job, reply);
        file_handled::<Brand, J>(
            book,
            tracks,
            &mut self.track,
            who,
            now,
            endpoint,
            bytes,
            &outcome,
            job,
            reply,
        );
        outcome
    }

    /// Advances the clock to `now` ms, as [`Front::tick`] does, and files that.
    #[tactic(auto, unfolding(fc_calls::specs::Doings::AdvancesTo))]
    pub fn tick(&mut self, book: &ServerBook<J>, tracks: &mut ServerTracks<J>, who: u64, now: u64)
        requires { HasOwnTrack J.first_job who tracks.old }
        ensures advanced { AdvancesTo now self.old.front self.new.front }
        ensures filed { tracks.new ≡ did_by who (Logged (AdvancesFront now)) tracks.old }
    {
        self.front.tick(now);
        file_tick::<Brand, J>(book, tracks, &mut self.track, who, now);
    }

    /// Fires the timer of a slot at `now` ms, as [`Front::fire`] does, and files that.
    ///
    /// The timer's job is written over `job`. The job begins no track: the entry is on the track
    /// that is first.
    #[tactic(auto, unfolding(fc_calls::specs::Doings::FiresAt))]
    pub fn fire_for_first(
        &mut self,
        book: &ServerBook<J>,
        tracks: &mut ServerTracks<J>,
        who: u64,
        slot: SlotNumber,
        now: u64,
        job: &mut Job,
    )
        requires thread { HasOwnTrack J.first_job who tracks.old }
        requires job { HasJobFirst J.first_job tracks.old }
        ensures job { job.new ≡ timer_job slot }
        ensures fired { FiresAt now self.old.front self.new.front }
        ensures filed { tracks.new ≡ did_by who (Logged (FiresTimer slot now)) tracks.old }
    {
        self.front.fire(slot, now, job);
        file_fire::<Brand, J>(book, tracks, &mut self.track, who, slot, now);
    }

    /// Draws a message ID at `now` ms, as [`Front::fresh_id`] does, and files that.
    ///
    /// Returns `None`, and draws nothing, if the next message ID was last drawn less than
    /// EXCHANGE_LIFETIME before. The call is filed in both cases.
    pub fn fresh_id(
        &mut self,
        book: &ServerBook<J>,
        tracks: &mut ServerTracks<J>,
        who: u64,
        now: u64,
    ) -> Option<u16>
        requires thread { HasOwnTrack J.first_job who tracks.old }
        requires job { HasJobFirst J.first_job tracks.old }
        ensures drawn { DrawsAt now result self.old.front self.new.front }
        ensures filed { tracks.new ≡ did_by who (Logged (DrawsId now result)) tracks.old }
    {
        let id = self.front.fresh_id(now);
        file_draw::<Brand, J>(book, tracks, &mut self.track, who, now, id);
        id
    }

    /// Answers the job at `now` ms, as [`Front::respond`] does, and files that.
    ///
    /// If the result is `Sent`, the response is written over `reply`. Returns `Late` if the job has
    /// no exchange or the exchange's lifetime has passed, and `NoId` if no message ID is available.
    /// The call is filed in each case.
    pub fn respond(
        &mut self,
        book: &ServerBook<J>,
        tracks: &mut ServerTracks<J>,
        who: u64,
        now: u64,
        job: &Job,
        answer: &Answer,
        reply: &mut Emission,
    ) -> Responded
        requires thread { HasOwnTrack J.first_job who tracks.old }
        requires job { HasJobFirst J.first_job tracks.old }
        requires own { IsOf job.now answer.now }
        ensures answered { AnswersAt now job.now answer.now (emission_of (responded result reply.new)) self.old.front self.new.front }
        ensures filed { let operation = Logged (AnswersRequest now job.now answer.now (emission_of (responded result reply.new))) in
            tracks.new ≡ did_by who operation tracks.old }
    {
        let outcome = self.front.respond(now, job, answer, reply);
        file_answer::<Brand, J>(
            book,
            tracks,
            &mut self.track,
            who,
            now,
            job,
            answer,
            &outcome,
            reply,
        );
        outcome
    }

    /// Moves the front's track to `tracks`, and returns the front.
    pub fn close(self, book: &ServerBook<J>, tracks: &mut ServerTracks<J>) -> Front
        ensures front { result ≡ self.front }
        ensures led { OperationsLead FrontDoes self.calls J.first.front result }
        ensures closed { tracks.new ≡ with_part tracks.old (part_view 0 self.calls) }
    {
        let FiledFront { front, track } = self;
        tracks.close(book, track);
        front
    }
}

/// Begins the track of the job that a datagram produces, if it produces one.
fn begin_if_job<J: ServerName>(
    book: &ServerBook<J>,
    tracks: &mut ServerTracks<J>,
    outcome: &Handled,
)
    requires { tracks.old.may_begin ≡ true }
    ensures { tracks.new ≡ begun_if (brings_job outcome.now) tracks.old }
{
    if let Handled::Job = outcome {
        tracks.begin(book);
    }
}

/// Files that a datagram was handled, with the entry named by `X`.
///
/// See [`FiledFront::handle`]. Only the clauses use the datagram and its result.
fn file_handled<X: FiledName, J: ServerName>(
    book: &ServerBook<J>,
    tracks: &mut ServerTracks<J>,
    track: &mut FiledTrack<FrontOf<J>>,
    who: u64,
    now: u64,
    endpoint: Endpoint,
    bytes: &[u8],
    outcome: &Handled,
    job: &Job,
    reply: &Emission,
)
    requires entry { let operation = Logged (HandlesDatagram now endpoint bytes.now (handled outcome.now job.now reply.now)) in
        X.entry ≡ entry_by who tracks.old operation }
    requires may { let operation = Logged (HandlesDatagram now endpoint bytes.now (handled outcome.now job.now reply.now)) in
        MayFile J.first_job who tracks.old operation }
    ensures track { track.new ≡ track.old ++ X.entry ∷ [] }
    ensures filed { tracks.new ≡ did_by who X.entry.operation tracks.old }
{
    let _ = now;
    let _ = endpoint;
    let _ = bytes;
    let _ = outcome;
    let _ = job;
    let _ = reply;
    file_as::<X, J, FrontOf<J>>(book, tracks, track, who);
}

/// Files that the clock was advanced, with the entry named by `X`.
///
/// See [`FiledFront::tick`]. Only the clauses use the time.
fn file_tick<X: FiledName, J: ServerName>(
    book: &ServerBook<J>,
    tracks: &mut ServerTracks<J>,
    track: &mut FiledTrack<FrontOf<J>>,
    who: u64,
    now: u64,
)
    requires entry { X.entry ≡ entry_by who tracks.old (Logged (AdvancesFront now)) }
    requires may { MayFile J.first_job who tracks.old (Logged (AdvancesFront now)) }
    ensures track { track.new ≡ track.old ++ X.entry ∷ [] }
    ensures filed { tracks.new ≡ did_by who X.entry.operation tracks.old }
{
    let _ = now;
    file_as::<X, J, FrontOf<J>>(book, tracks, track, who);
}

/// Files the firing of a timer, with the entry named by `X`.
///
/// See [`FiledFront::fire_for_first`]. Only the clauses use the slot and the time.
fn file_fire<X: FiledName, J: ServerName>(
    book: &ServerBook<J>,
    tracks: &mut ServerTracks<J>,
    track: &mut FiledTrack<FrontOf<J>>,
    who: u64,
    slot: SlotNumber,
    now: u64,
)
    requires entry { X.entry ≡ entry_by who tracks.old (Logged (FiresTimer slot now)) }
    requires may { MayFile J.first_job who tracks.old (Logged (FiresTimer slot now)) }
    ensures track { track.new ≡ track.old ++ X.entry ∷ [] }
    ensures filed { tracks.new ≡ did_by who X.entry.operation tracks.old }
{
    let _ = slot;
    let _ = now;
    file_as::<X, J, FrontOf<J>>(book, tracks, track, who);
}

/// Files the result of a draw of a message ID, with the entry named by `X`.
///
/// See [`FiledFront::fresh_id`]. Only the clauses use the time and the message ID.
fn file_draw<X: FiledName, J: ServerName>(
    book: &ServerBook<J>,
    tracks: &mut ServerTracks<J>,
    track: &mut FiledTrack<FrontOf<J>>,
    who: u64,
    now: u64,
    id: Option<u16>,
)
    requires entry { X.entry ≡ entry_by who tracks.old (Logged (DrawsId now id)) }
    requires may { MayFile J.first_job who tracks.old (Logged (DrawsId now id)) }
    ensures track { track.new ≡ track.old ++ X.entry ∷ [] }
    ensures filed { tracks.new ≡ did_by who X.entry.operation tracks.old }
{
    let _ = now;
    let _ = id;
    file_as::<X, J, FrontOf<J>>(book, tracks, track, who);
}

/// Files that a job was answered, with the entry named by `X`.
///
/// See [`FiledFront::respond`]. Only the clauses use the answer and its result.
fn file_answer<X: FiledName, J: ServerName>(
    book: &ServerBook<J>,
    tracks: &mut ServerTracks<J>,
    track: &mut FiledTrack<FrontOf<J>>,
    who: u64,
    now: u64,
    job: &Job,
    answer: &Answer,
    outcome: &Responded,
    reply: &Emission,
)
    requires entry { let operation = Logged (AnswersRequest now job.now answer.now (emission_of (responded outcome.now reply.now))) in
        X.entry ≡ entry_by who tracks.old operation }
    requires may { let operation = Logged (AnswersRequest now job.now answer.now (emission_of (responded outcome.now reply.now))) in
        MayFile J.first_job who tracks.old operation }
    ensures track { track.new ≡ track.old ++ X.entry ∷ [] }
    ensures filed { tracks.new ≡ did_by who X.entry.operation tracks.old }
{
    let _ = now;
    let _ = job;
    let _ = answer;
    let _ = outcome;
    let _ = reply;
    file_as::<X, J, FrontOf<J>>(book, tracks, track, who);
}
