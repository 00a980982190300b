//! A server's front, which began as that of the server's first state.
//!
//! [`Locked`](crate::server::Locked) calls it for the workers, under the front's lock. Times are in
//! milliseconds.
ghost use Rattle.std.specs.Prelude.{◌≡◌, []};
ghost use Rattle.fc_front.specs.Answering.{emission_of, responded};
ghost use Rattle.fc_front.specs.Contents.{IsOf};
ghost use Rattle.fc_front.specs.Receiving.{handled};
ghost use Rattle.fc_front.specs.Timers.{timer_job};
ghost use Rattle.fc_calls.specs.Doings.{AdvancesTo, AnswersAt, DrawsAt, FiresAt, HandlesAt, TellsGauges};
ghost use Rattle.fc_calls.specs.Logged.{AdvancesFront, AnswersRequest, DrawsId, FiresTimer, HandlesDatagram};
ghost use Rattle.fc_linear.specs.Operations.{FrontDoes};
ghost use Rattle.fc_filed.specs.Entries.{OperationsLead};
ghost use Rattle.fc_filed.specs.Tracked.{IsPartClosed};
ghost use Rattle.fc_locked.specs.Asked.{IsFrontAsked, IsFrontCall};
ghost use Rattle.fc_locked.specs.Fronts.{BeganAt};

use crate::books::{Books, ServerOf};
use coap_msg::{Emission, Endpoint};
use fc_backend::TrackLog;
use fc_filed::{FiledFront, FiledTrack, FrontOf, ServerBook, ServerTracks};
use fc_front::{Answer, Front, FrontGauges, Handled, Responded};
use fc_ticket::{Job, SlotNumber};
use std::marker::PhantomData;

/// A front that started as its server's first front.
///
/// It has been changed only by calls since.
///
/// Each call is filed in the server's book, on the track of the front and on those of the caller.
#[derive(Drop)]
pub(crate) struct BegunFront<B: Books> {
    filed: FiledFront<ServerOf<B>>,
    of: PhantomData<B>,
    ghost began: { ∥ BeganAt B.first.front filed.front ∥₁ },
}

impl<B: Books> BegunFront<B> {
    /// Wraps the server's first front, with its track, which has no entry.
    pub(crate) fn new(front: Front, track: FiledTrack<FrontOf<ServerOf<B>>>) -> BegunFront<B>
        requires front { front ≡ B.first.front }
        requires track { track ≡ [] }
    {
        BegunFront {
            filed: FiledFront::new(front, track),
            of: PhantomData,
        }
    }

    /// Handles a datagram at `now` ms, and files the call.
    ///
    /// Returns `Job` if a job was written over `job`, and `Reply` if a response was written over
    /// `reply`. See [`Front::handle`] for the other results.
    pub(crate) fn handle(
        &mut self,
        book: &ServerBook<ServerOf<B>>,
        log: &mut TrackLog<ServerOf<B>>,
        now: u64,
        endpoint: Endpoint,
        bytes: &[u8],
        job: &mut Job,
        reply: &mut Emission,
    ) -> Handled
        ensures { let brings = handled result job.new reply.new in
            IsFrontCall B.first.front (HandlesAt now endpoint bytes.now brings) (HandlesDatagram now endpoint bytes.now brings) log.old log.new }
    {
        let tracks = &mut log.tracks;
        self.filed
            .handle_for_first(book, tracks, log.who, now, endpoint, bytes, job, reply)
    }

    /// Returns how many exchanges and transfers the front holds at `now` ms, and their limits.
    ///
    /// A read changes nothing and isn't filed. See [`Front::gauges`].
    pub(crate) fn gauges(&self, now: u64) -> FrontGauges
        ensures { IsFrontAsked B.first.front (λ before after. TellsGauges now before result after) }
    {
        self.filed.gauges(now)
    }

    /// Advances the clock to `now` ms, and files the call. See [`Front::tick`].
    pub(crate) fn tick(
        &mut self,
        book: &ServerBook<ServerOf<B>>,
        log: &mut TrackLog<ServerOf<B>>,
        now: u64,
    )
        ensures { IsFrontCall B.first.front (AdvancesTo now) (AdvancesFront now) log.old log.new }
    {
        self.filed.tick(book, &mut log.tracks, log.who, now);
    }

    /// Fires the timer of a slot at `now` ms, and files the call. See [`Front::fire`].
    ///
    /// The timer's job is written over `job`.
    pub(crate) fn fire(
        &mut self,
        book: &ServerBook<ServerOf<B>>,
        log: &mut TrackLog<ServerOf<B>>,
        slot: SlotNumber,
        now: u64,
        job: &mut Job,
    )
        ensures job { job.new ≡ timer_job slot }
        ensures fires { IsFrontCall B.first.front (FiresAt now) (FiresTimer slot now) log.old log.new }
    {
        let tracks = &mut log.tracks;
        self.filed
            .fire_for_first(book, tracks, log.who, slot, now, job);
    }

    /// Draws a message ID at `now` ms, and files the call.
    ///
    /// Returns `None` if none is available. See [`Front::fresh_id`].
    pub(crate) fn fresh_id(
        &mut self,
        book: &ServerBook<ServerOf<B>>,
        log: &mut TrackLog<ServerOf<B>>,
        now: u64,
    ) -> Option<u16>
        ensures { IsFrontCall B.first.front (DrawsAt now result) (DrawsId now result) log.old log.new }
    {
        self.filed.fresh_id(book, &mut log.tracks, log.who, now)
    }

    /// Answers a job at `now` ms, and files the call.
    ///
    /// If the result is `Sent`, the response is written over `reply`. Otherwise none is to be sent:
    /// the job has no live exchange (`Late`), or no message ID is available (`NoId`). See
    /// [`Front::respond`].
    pub(crate) fn respond(
        &mut self,
        book: &ServerBook<ServerOf<B>>,
        log: &mut TrackLog<ServerOf<B>>,
        now: u64,
        job: &Job,
        answer: &Answer,
        reply: &mut Emission,
    ) -> Responded
        requires { IsOf job.now answer.now }
        ensures { let sent = emission_of (responded result reply.new) in
            IsFrontCall B.first.front (AnswersAt now job.now answer.now sent) (AnswersRequest now job.now answer.now sent) log.old log.new }
    {
        let tracks = &mut log.tracks;
        self.filed
            .respond(book, tracks, log.who, now, job, answer, reply)
    }

    /// Closes the front: its track becomes one of `tracks`. Returns the front.
    pub(crate) fn close(
        self,
        book: &ServerBook<ServerOf<B>>,
        tracks: &mut ServerTracks<ServerOf<B>>,
    ) -> Front
        ensures { IsPartClosed (OperationsLead FrontDoes) 0 B.first.front result tracks.old tracks.new }
    {
        self.filed.close(book, tracks)
    }
}
