//! Requests' jobs, run by a worker or the dispatcher with the calls of a backend.
ghost use Rattle.std.specs.Prelude.{◌≡◌, ◌+◌, ◌<◌, ℕ, true, false, None, length};
ghost use Rattle.fc_verify.specs.Judged.{judged};
ghost use Rattle.fc_verify.specs.Accepted.{Accepts, IsAccepted};
ghost use Rattle.fc_verify.specs.declared.refusal.Refusal.TheVariants.{Broken};
ghost use Rattle.fc_kinds.specs.Runnable.{IsRunnable};
ghost use Rattle.fc_front.specs.Contents.{Unavailable};
ghost use Rattle.fc_front.specs.Ends.{refused};
ghost use Rattle.fc_core.specs.Stages.{image_of};
ghost use Rattle.fc_core.specs.Stage.{ToAnswer, ToInstall, ToRemove};
ghost use Rattle.fc_linear.specs.Operations.{RefusesInstall, RejectsImage};
ghost use Rattle.fc_backend.specs.Answers.{saturated};
ghost use Rattle.fc_workers.specs.Dispatch.{MayGo};
ghost use Rattle.fc_workers.specs.declared.dispatcher.Offload.TheVariants.{Expensive};
ghost use Rattle.fc_backend.specs.Filed.{HasFiled};
ghost use Rattle.fc_workers.specs.Work.{IsWorkedTo};
ghost use Rattle.fc_workers.specs.Steps.{IsCheapAt, IsPlainRun, IsReady, IsStep, IsToAnswer, IsToCommit, IsToTake, ListsOn, Walked};
ghost use Rattle.fc_backend.specs.Statistics.{Share as Done};

use crate::context::{Context, WorkerParts};
use crate::scratch::Scratch;
use fc_backend::{Bench, Gate, Share, ShareOf, TimeSource, TrackLog, Wire};
use fc_core::task::image;
use fc_core::{Stage, Step};
use fc_front::answer::Words;
use fc_front::heads::WORDS;
use fc_isa::Fault;
use fc_machine::{Frame, run};
use fc_ticket::{Job, Receipt, SlotNumber, Ticket};
use fc_verify::{Refusal, Verified, verify};
use std::sync::{Arc, Wait};

// Functions that few jobs need aren't inlined into the loop. Inlined, they would make the loop zero
// their stack space for each job.
impl<'a, B: Bench, G: Gate, W: Wire, M: TimeSource, R: Wait> Context<'a, B, G, W, M, R> {
    /// Runs a request's job until only its answer is left.
    ///
    /// `scratch.stage` then has the answer. A list of calls leads from the job's first stage to
    /// this stage:
    ///
    /// - Each call is the one that the stage before it needs, and its result is that of some slot.
    /// - A call that reads a head word reads the one that the stage needs.
    /// - A call that raises a head word raises it to the word that the stage has.
    /// - The gate lets the job through before each commit.
    /// - The next stage follows from the call's result.
    /// - At most eight calls take a snapshot.
    ///
    /// The statistics count the calls that changed the job's slot, the refused allocations and
    /// changes, and the conflicts.
    pub fn work_off(
        &self,
        scratch: &mut Scratch,
        number: u64,
        job: &Job,
        share: &mut ShareOf<B::Tallies, B::Book>,
    )
        requires asked { job.now.turn ≡ None }
        ensures worked { IsWorkedTo ⟦<(B, G, W, M) as WorkerParts>⟧.view
            number job.now scratch.new.stage share.old share.new }
        ensures ended { B.ended share.new.tallies ≡ B.ended share.old.tallies }
    {
        scratch.stage.ask(job);
        self.work_on(scratch, number, job, share);
    }

    /// Runs a request's job from its present stage until only its answer is left.
    ///
    /// See [`Context::work_off`]. The present stage is that of `scratch`. If calls led the job from
    /// its first stage to the present one, these calls and further ones lead to the answer.
    pub(crate) fn work_on(
        &self,
        scratch: &mut Scratch,
        number: u64,
        job: &Job,
        share: &mut ShareOf<B::Tallies, B::Book>,
    )
        requires asked { job.now.turn ≡ None }
        requires ready { IsReady job.now scratch.old.stage }
        ensures answers { IsToAnswer job.now scratch.new.stage }
        ensures worked { (before : Done B.Tallies)
            → Walked ⟦<(B, G, W, M) as WorkerParts>⟧.view
            number job.now scratch.old.stage before share.old
            → IsWorkedTo ⟦<(B, G, W, M) as WorkerParts>⟧.view
            number job.now scratch.new.stage before share.new }
        ensures ended { B.ended share.new.tallies ≡ B.ended share.old.tallies }
    {
        'calls: loop {
            let stage = &mut scratch.stage;
            match &stage.step {
                Step::ToMatch => {
                    let log = &mut share.log;
                    let word = self.bench.peek(job.origin.slot, log);
                    stage.matched(job, word);
                }
                Step::ToTake(_) => self.take(job, stage, share),
                Step::ToCommit(..) => {
                    self.commit(&mut scratch.frame, number, job, stage, share);
                }
                Step::ToInstall => self.install(job, stage, share),
                Step::ToRemove => self.remove(job, stage, share),
                Step::ToDescribe => {
                    let log = &mut share.log;
                    let receipt = self.bench.receipt(self.rt, job, log);
                    stage.set_receipt(receipt);
                }
                Step::ToList => {
                    self.list(&mut stage.seen, &mut share.log);
                    stage.listed();
                }
                Step::ToRaise(word) => {
                    let word = *word;
                    let log = &mut share.log;
                    self.bench.raise(job, word, log);
                    stage.raised();
                }
                Step::ToAnswer => return,
                Step::ToTell(..) | Step::Gone => unreachable!(),
            }
        }
    }

    /// Begins a run without ETags by its first snapshot, unless the slot's program is expensive.
    ///
    /// The job is a request's. The program is expensive if it may take `least` instructions or
    /// more. Returns whether the job was begun. If it wasn't, the log has only the call for
    /// readings and the read of the program's cost.
    pub(crate) fn begin_if_cheap(
        &self,
        least: u32,
        scratch: &mut Scratch,
        job: &Job,
        share: &mut ShareOf<B::Tallies, B::Book>,
    ) -> bool
        requires plain { IsPlainRun job.now }
        ensures begun { result ≡ true → (number : ℕ)
            → Walked ⟦<(B, G, W, M) as WorkerParts>⟧.view
            number job.now scratch.new.stage share.old share.new }
        ensures cheap { result ≡ true → IsCheapAt least scratch.new.stage }
        ensures expensive { result ≡ false
            → MayGo ⟦<(B, G, W, M) as WorkerParts>⟧.view
            (Expensive least) job.now share.old.log share.new.log × (share.new ≡ record share.old { log = share.new.log }) }
        ensures tallies { share.new.tallies ≡ share.old.tallies }
    {
        let stage = &mut scratch.stage;
        stage.ask(job);
        let log = &mut share.log;
        let given = self.bench.readings(self.rt, log);
        let Ok(taken) = self
            .bench
            .take_if_cheap(self.rt, least, job, &given, &mut stage.found, log)
        else {
            return false;
        };
        share.count_snapshot(&taken);
        stage.step = Step::took(0, taken, &mut stage.answer);
        true
    }

    // Reads the head words that `words` doesn't have yet, up to that of slot 63, and appends them
    // to `words` in order.
    #[inline(never)]
    fn list(&self, words: &mut Words, log: &mut TrackLog<B::Book>)
        requires seen { length words.old.items < 64 }
        ensures listed { ListsOn B.logged words.old.items words.new.items log.old log.new }
    {
        'slots: while words.len() < WORDS {
            let slot = SlotNumber::new(words.len() as u8);
            let word = self.bench.peek(slot, log);
            let _fits = words.try_push(word);
        }
    }

    // Removes the program of the job's slot, and sets the next stage. If the removal can't be
    // saved, the next stage is the answer `Unavailable`.
    #[inline(never)]
    fn remove(&self, job: &Job, stage: &mut Stage, share: &mut ShareOf<B::Tallies, B::Book>)
        ensures step { (number : ℕ) → IsStep ⟦<(B, G, W, M) as WorkerParts>⟧.view
            number job.now ToRemove stage.new share.old share.new }
        ensures ended { B.ended share.new.tallies ≡ B.ended share.old.tallies }
    {
        let log = &mut share.log;
        match self.bench.remove(self.rt, job, &mut share.tallies, log) {
            Some(removal) => stage.removed(removal),
            None => self.answer_unsaved(stage, share),
        }
    }

    // Requests readings, takes a snapshot of the job's slot with them, and sets the next stage.
    fn take(&self, job: &Job, stage: &mut Stage, share: &mut ShareOf<B::Tallies, B::Book>)
        requires at { IsToTake stage.old }
        requires ready { IsReady job.now stage.old }
        requires asked { job.now.turn ≡ None }
        ensures step { (number : ℕ) → IsStep ⟦<(B, G, W, M) as WorkerParts>⟧.view
            number job.now stage.old stage.new share.old share.new }
        ensures ended { B.ended share.new.tallies ≡ B.ended share.old.tallies }
    {
        let Step::ToTake(count) = stage.step else {
            unreachable!()
        };
        let Share { tallies, log, .. } = share;
        let readings = self.bench.readings(self.rt, log);
        let taken = self
            .bench
            .take(self.rt, job, &readings, &mut stage.found, tallies, log);
        share.count_snapshot(&taken);
        stage.step = Step::took(count, taken, &mut stage.answer);
    }

    // Runs the ticket's program once the gate lets the job through, commits the run, and sets the
    // next stage. After a conflict the next stage is another snapshot. If the job may take no more
    // snapshots, if the slot is at its last serial, or if the commit can't be saved, the next stage
    // is the answer `Unavailable`.
    fn commit(
        &self,
        frame: &mut Frame,
        number: u64,
        job: &Job,
        stage: &mut Stage,
        share: &mut ShareOf<B::Tallies, B::Book>,
    )
        requires at { IsToCommit stage.old }
        requires ready { IsReady job.now stage.old }
        ensures step { IsStep ⟦<(B, G, W, M) as WorkerParts>⟧.view
            number job.now stage.old stage.new share.old share.new }
        ensures ended { B.ended share.new.tallies ≡ B.ended share.old.tallies }
    {
        let Step::ToCommit(count, program) = &stage.step else {
            unreachable!()
        };
        let ticket = Ticket::of(program, &stage.found);
        let log = &mut share.log;
        self.between(number, log);
        let outcome = run(
            frame,
            ticket.program(),
            ticket.request(),
            ticket.vars(),
            ticket.readings(),
        );
        let now = self.now(log);
        let tallies = &mut share.tallies;
        let rt = self.rt;
        match self.bench.commit(rt, now, &outcome, &ticket, tallies, log) {
            Some(committed) => {
                share.count_commit(&committed);
                let answer = &mut stage.answer;
                stage.step = Step::committed(*count, &outcome, &ticket, committed, answer);
            }
            None => self.answer_unsaved(stage, share),
        }
    }

    // Verifies the job's image, installs the program, and sets the next stage. If the image breaks
    // a rule, or if the program isn't installed, the next stage is an answer with this reason.
    #[inline(never)]
    fn install(&self, job: &Job, stage: &mut Stage, share: &mut ShareOf<B::Tallies, B::Book>)
        ensures step { (number : ℕ) → IsStep ⟦<(B, G, W, M) as WorkerParts>⟧.view
            number job.now ToInstall stage.new share.old share.new }
        ensures ended { B.ended share.new.tallies ≡ B.ended share.old.tallies }
    {
        match verify(self.alloc, image(&job.ask)) {
            Ok(program) => self.install_program(job, program, stage, share),
            Err(Refusal::Broken(fault)) => self.answer_rejected_image(
                job,
                fault,
                stage,
                &mut share.log,
            ),
            Err(Refusal::NoMemory) => self.answer_uninstalled(job, stage, share),
        }
    }

    // Installs `program`, the verified program of the job's image, and sets the next stage. If
    // memory for the program's handle is refused, or the install can't be saved, the next stage is
    // the answer `Unavailable`.
    fn install_program(
        &self,
        job: &Job,
        program: Verified,
        stage: &mut Stage,
        share: &mut ShareOf<B::Tallies, B::Book>,
    )
        requires accepted { IsAccepted (image_of job.now.ask) program }
        requires runs { IsRunnable program }
        requires judged { judged (image_of job.now.ask) ≡ Accepts program }
        ensures step { (number : ℕ) → IsStep ⟦<(B, G, W, M) as WorkerParts>⟧.view
            number job.now ToInstall stage.new share.old share.new }
        ensures ended { B.ended share.new.tallies ≡ B.ended share.old.tallies }
    {
        let receipt = Receipt::of(&program, 0);
        match Arc::new(self.alloc, program) {
            Ok(program) => {
                let log = &mut share.log;
                match self
                    .bench
                    .install(self.rt, job, program, &mut share.tallies, log)
                {
                    Some(made) => stage.made(receipt, made),
                    None => self.answer_unsaved(stage, share),
                }
            }
            Err(_) => self.answer_uninstalled(job, stage, share),
        }
    }

    // Sets the answer of an install whose image breaks a rule: the rule and the slot. Files the
    // rejection.
    fn answer_rejected_image(
        &self,
        job: &Job,
        fault: Fault,
        stage: &mut Stage,
        log: &mut TrackLog<B::Book>,
    )
        ensures answer { stage.new ≡ ToAnswer (refused (Broken fault)) }
        ensures filed { HasFiled (RejectsImage job.now (refused (Broken fault))) log.old log.new }
    {
        stage.rejected(fault);
        let Some(answer) = stage.content() else {
            unreachable!()
        };
        self.bench.reject_image(job, answer, log);
    }

    // Sets the answer of an install to `Unavailable`, since memory for it is refused. Counts and
    // files the refusal.
    fn answer_uninstalled(
        &self,
        job: &Job,
        stage: &mut Stage,
        share: &mut ShareOf<B::Tallies, B::Book>,
    )
        ensures answer { stage.new ≡ ToAnswer Unavailable }
        ensures filed { HasFiled (RefusesInstall job.now) share.old.log share.new.log }
        ensures counted { share.new ≡ record share.old { log = share.new.log; refusals = saturated (share.old.refusals + 1) } }
    {
        self.bench.refuse_install(job, &mut share.log);
        share.count_refusal();
        stage.unavailable();
    }

    // Sets the job's answer to `Unavailable`, since the change of its slot can't be saved. Counts
    // the refusal.
    fn answer_unsaved(&self, stage: &mut Stage, share: &mut ShareOf<B::Tallies, B::Book>)
        ensures answer { stage.new ≡ ToAnswer Unavailable }
        ensures counted { share.new ≡ record share.old { refusals = saturated (share.old.refusals + 1) } }
    {
        share.count_refusal();
        stage.unavailable();
    }
}
