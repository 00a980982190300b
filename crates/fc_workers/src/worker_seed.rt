//! Workers: a worker's initial state, and how a worker runs a job.
ghost use Rattle.std.specs.Prelude.{◌≡◌, ◌+◌, ℕ, true, None, IfOk};
ghost use Rattle.fc_front.specs.Receiving.{emission_if};
ghost use Rattle.fc_backend.specs.Answers.{saturated, GoesOut};
ghost use Rattle.fc_workers.specs.Shares.{IsShareOf};
ghost use Rattle.fc_workers.specs.Steps.{IsReady, IsToAnswer, Walked};
ghost use Rattle.fc_workers.specs.Work.{IsFinished, IsReplied, IsRequestWorked, IsWorked, IsWorkedTo};
ghost use Rattle.fc_backend.specs.Statistics.{Share as Done};

use crate::context::{Context, WorkerParts};
use crate::scratch::Scratch;
use coap_msg::Emission;
use fc_backend::{Bench, Gate, JobMessage, Share, ShareOf, TimeSource, TrackLog, Wire};
use fc_jobs::{Got, Jobs};
use fc_machine::Frame;
use fc_observe::Turn;
use fc_ticket::Job;
use std::alloc::{AllocError, Global};
use std::sync::Wait;

/// The initial state of a worker.
///
/// It has the worker's end of the channel, the worker's tallies and log, and the frame that the
/// worker's programs run in.
#[derive(Drop)]
pub struct WorkerSeed<T: Drop, L: Drop, M: Drop> {
    pub got: Got<M>,
    pub tallies: T,
    pub log: L,
    pub frame: Frame,
}

/// The initial state of a worker whose calls are filed in the book with the name `J`.
pub type SeedOf<T, J> = WorkerSeed<T, TrackLog<J>, JobMessage<J>>;

impl<T: Drop, L: Drop, M: Drop> WorkerSeed<T, L, M> {
    /// Makes a worker's initial state, with a new frame for the worker's programs.
    ///
    /// # Errors
    /// Returns `AllocError` if memory for the frame can't be allocated.
    pub fn new(
        alloc: Global,
        got: Got<M>,
        tallies: T,
        log: L,
    ) -> Result<WorkerSeed<T, L, M>, AllocError>
        ensures got { IfOk result (λ s. s.got ≡ got) }
        ensures tallies { IfOk result (λ s. s.tallies ≡ tallies) }
        ensures log { IfOk result (λ s. s.log ≡ log) }
    {
        let frame = Frame::new(alloc)?;
        Ok(WorkerSeed {
            got,
            tallies,
            log,
            frame,
        })
    }
}

/// Runs jobs until the channel is closed and empty.
///
/// Each job comes with its track in the server's book, and this track becomes the first one of the
/// log. Then the job is run. If it has a reply, the reply is sent and counted. Returns the worker's
/// statistics. The worker has ended exactly the jobs that it received.
pub fn worker<B: Bench, G: Gate, W: Wire, M: TimeSource, R: Wait>(
    context: &Context<'_, B, G, W, M, R>,
    jobs: &Jobs<JobMessage<B::Book>>,
    seat: SeedOf<B::Tallies, B::Book>,
) -> ShareOf<B::Tallies, B::Book>
    requires { seat.got.channel ≡ jobs.now }
    ensures { IsShareOf B.Book.first_job ⟦<(B, G, W, M) as WorkerParts>⟧.view seat result }
{
    let WorkerSeed {
        got,
        tallies,
        log,
        frame,
    } = seat;
    log.attest_own();
    let mut share = Share::new(got, tallies, log);
    let mut scratch = Scratch::new(frame);
    for _ in context.rt.forever() {
        let Some((number, message)) = jobs.next(context.rt, &mut share.got) else {
            break;
        };
        let job = share.log.take_from_message(context.bench.book(), message);
        context.work(&mut scratch, number, &job, &mut share);
    }
    share
}

impl<'a, B: Bench, G: Gate, W: Wire, M: TimeSource, R: Wait> Context<'a, B, G, W, M, R> {
    /// Runs the job with this number, and sends its reply if there is one.
    ///
    /// A request is answered, and a lease's observer is notified. The reply is sent under the job's
    /// number, and counted as sent or as failed. The last call reports to the transmitter that the
    /// job has ended. One more ended job is counted.
    pub fn work(
        &self,
        scratch: &mut Scratch,
        number: u64,
        job: &Job,
        share: &mut ShareOf<B::Tallies, B::Book>,
    )
        ensures worked { IsReplied ⟦<(B, G, W, M) as WorkerParts>⟧.view
            number job.now share.old share.new }
        ensures ended { B.ended share.new.tallies ≡ saturated (B.ended share.old.tallies + 1) }
        ensures got { share.new.got ≡ share.old.got }
    {
        let replies = self.reply(scratch, number, job, share);
        self.finish(number, replies, &scratch.reply, share);
    }

    /// Runs a request's job from its present stage, and answers the request.
    ///
    /// The dispatcher uses it for a job that it began. The present stage is that of `scratch`. The
    /// reply is sent, and the job is ended, as in [`Context::work`]. If calls led the job from its
    /// first stage to the present one, all calls together are one run of the job by `work`.
    pub(crate) fn work_begun(
        &self,
        scratch: &mut Scratch,
        number: u64,
        job: &Job,
        share: &mut ShareOf<B::Tallies, B::Book>,
    )
        requires asked { job.now.turn ≡ None }
        requires ready { IsReady job.now scratch.old.stage }
        ensures worked { (before : Done B.Tallies)
            → Walked ⟦<(B, G, W, M) as WorkerParts>⟧.view
            number job.now scratch.old.stage before share.old
            → IsReplied ⟦<(B, G, W, M) as WorkerParts>⟧.view
            number job.now before share.new }
        ensures ended { B.ended share.new.tallies ≡ saturated (B.ended share.old.tallies + 1) }
    {
        self.work_on(scratch, number, job, share);
        let replies = self.respond(scratch, job, share);
        self.finish(number, replies, &scratch.reply, share);
    }

    // Runs a job, and writes its reply over `scratch.reply`. Returns whether there is a reply to
    // send: the response to a request, or the notification of a lease.
    fn reply(
        &self,
        scratch: &mut Scratch,
        number: u64,
        job: &Job,
        share: &mut ShareOf<B::Tallies, B::Book>,
    ) -> bool
        ensures worked { IsWorked ⟦<(B, G, W, M) as WorkerParts>⟧.view
            number job.now share.old share.new (emission_if result scratch.new.reply) }
        ensures ended { B.ended share.new.tallies ≡ saturated (B.ended share.old.tallies + 1) }
        ensures got { share.new.got ≡ share.old.got }
    {
        match job.turn {
            None => self.answer(scratch, number, job, share),
            Some(number) => {
                let slot = job.origin.slot.number();
                let turn = Turn { slot, number };
                self.notify(scratch, job, turn, share)
            }
        }
    }

    // Runs a request's job, answers the request, and writes the reply over `scratch.reply`. Returns
    // whether there is a reply to send.
    fn answer(
        &self,
        scratch: &mut Scratch,
        number: u64,
        job: &Job,
        share: &mut ShareOf<B::Tallies, B::Book>,
    ) -> bool
        requires asked { job.now.turn ≡ None }
        ensures worked { IsRequestWorked ⟦<(B, G, W, M) as WorkerParts>⟧.view
            number job.now share.old share.new (emission_if result scratch.new.reply) }
        ensures ended { B.ended share.new.tallies ≡ saturated (B.ended share.old.tallies + 1) }
        ensures got { share.new.got ≡ share.old.got }
    {
        self.work_off(scratch, number, job, share);
        self.respond(scratch, job, share)
    }

    // Answers the request of a job that was run, and writes the reply over `scratch.reply`. Returns
    // whether there is a reply to send. There is none if the request's lifetime has passed, or if
    // no message ID is available.
    fn respond(
        &self,
        scratch: &mut Scratch,
        job: &Job,
        share: &mut ShareOf<B::Tallies, B::Book>,
    ) -> bool
        requires { IsToAnswer job.now scratch.old.stage }
        ensures worked { (number : ℕ) (before : Done B.Tallies)
            → IsWorkedTo ⟦<(B, G, W, M) as WorkerParts>⟧.view
            number job.now scratch.old.stage before share.old
            → IsRequestWorked ⟦<(B, G, W, M) as WorkerParts>⟧.view
            number job.now before share.new (emission_if result scratch.new.reply) }
        ensures goes_out { result ≡ true → GoesOut scratch.new.reply }
        ensures ended { B.ended share.new.tallies ≡ saturated (B.ended share.old.tallies + 1) }
        ensures got { share.new.got ≡ share.old.got }
    {
        let Some(answer) = scratch.stage.content() else {
            unreachable!()
        };
        let Share { tallies, log, .. } = share;
        let now = self.now(log);
        let reply = &mut scratch.reply;
        let has_reply = self
            .bench
            .respond(self.rt, now, job, answer, reply, tallies, log);
        self.after_answer(job, has_reply, reply, log);
        has_reply
    }

    // Sends `reply` if `replies`, and counts it as sent or as failed. The last call reports to the
    // transmitter that the job has ended.
    fn finish(
        &self,
        number: u64,
        replies: bool,
        reply: &Emission,
        share: &mut ShareOf<B::Tallies, B::Book>,
    )
        requires { replies ≡ true → GoesOut reply.now }
        ensures finished { IsFinished ⟦<(B, G, W, M) as WorkerParts>⟧.view
            number (emission_if replies reply.now) share.old share.new }
        ensures tallies { share.new.tallies ≡ share.old.tallies }
        ensures got { share.new.got ≡ share.old.got }
    {
        if replies {
            let out = self.send(number, reply, &mut share.log);
            share.count_reply(out);
        }
        self.ended(number, &mut share.log);
    }
}
