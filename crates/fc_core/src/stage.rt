//! The stages of jobs, and the stage after the result of each call.
//!
//! A [`Task`] and the workers (`fc_workers`) make a job's calls, and set its stage by these
//! functions.
ghost use Rattle.std.specs.Prelude.{◌≡◌, ◌<◌, option_copied};
ghost use Rattle.fc_front.specs.Contents.{AreDone, Content, IsMadeBelow, IsRemovedBelow, Unavailable};
ghost use Rattle.fc_front.specs.Ends.{refused};
ghost use Rattle.fc_core.specs.Fits.{HasListed};
ghost use Rattle.fc_core.specs.Room.{LeadsTo, StandsAt};
ghost use Rattle.fc_core.specs.Stage.{Gone, ToAnswer};
ghost use Rattle.fc_core.specs.Stages as stages;
ghost use Rattle.fc_core.specs.Stages.{after_list, asked_stage, first_stage};

use fc_front::answer::{Answer, End, Words};
use fc_front::heads::{head_word, is_present, serial_in};
use fc_isa::Fault;
use fc_machine::Outcome;
use fc_observe::Turn;
use fc_registry::{Committed, Made, Removal, Taken};
use fc_ticket::{Ask, Job, Receipt, SlotSnapshot, Ticket};
use fc_verify::{Refusal, Verified};
use std::marker::Model;
use std::sync::Arc;

/// The greatest number of snapshots of a job.
const SNAPSHOTS: u8 = 8;

/// The next action that a job needs.
#[derive(Drop)]
pub enum Step {
    /// Read the head word of the job's slot, which may answer the job without a run.
    ToMatch,
    /// Take a snapshot; the number counts the snapshots before it.
    ToTake(u8),
    /// Commit the run of this program; the number counts the snapshots so far.
    ToCommit(u8, Arc<Verified>),
    /// Install the program of the job's image.
    ToInstall,
    /// Remove the program of the job's slot.
    ToRemove,
    /// Read the receipt of the program of the job's slot.
    ToDescribe,
    /// Read the next slot's head word, after the words that the job has listed.
    ToList,
    /// Raise the head word of the job's slot to this word, then send the job's answer.
    ToRaise(u64),
    /// Send the job's answer.
    ToAnswer,
    /// Notify this lease's observer; the second field is the lease's next action.
    ToTell(Turn, TurnStep),
    /// Nothing: the job was answered, released or lost, or it never arrived.
    Gone,
}

/// The next action that a lease needs.
#[derive(Drop)]
pub enum TurnStep {
    /// Take a snapshot.
    ToTake,
    /// Draw a message ID for this program's snapshot; `None` if the slot was empty.
    ToDraw(Option<Arc<Verified>>),
    /// Send the notification of this program's snapshot, with this message ID.
    ///
    /// The program is `None` if the slot was empty.
    ToNote(Option<Arc<Verified>>, u16),
}

/// The stage of a job.
///
/// A stage has the job's next action, and memory for the job's snapshot, listed head words and
/// answer. The data in this memory is overwritten for each job. In contracts a stage is the action
/// with the data that the action needs.
#[derive(Drop)]
pub struct Stage {
    pub step: Step,
    pub found: SlotSnapshot,
    pub seen: Words,
    pub answer: Answer,
}

impl Model for Stage {
    ghost use Rattle.fc_core.specs.Stage as spec;

    ghost Value = { spec.Stage };

    ghost use Rattle.fc_core.specs.Room.{FitsStep, stage_of};

    ghost view = { λ s. stage_of s.step s.found s.seen s.answer };

    ghost invariant = { λ s. FitsStep s.step s.found };
}

/// A job and its stage.
#[derive(Drop)]
pub struct Task {
    pub job: Job,
    pub stage: Stage,
}

/// The stage after the result of each call, on any thread.
impl Stage {
    /// Returns the stage of a job that never arrived.
    ///
    /// The memory of the stage is for the jobs that [`Stage::begin`] starts.
    pub fn blank() -> Stage
        ensures { result ≡ Gone }
    {
        Stage {
            step: Step::Gone,
            found: SlotSnapshot::blank(),
            seen: Words::new(),
            answer: Answer::other(End::Unavailable),
        }
    }

    /// Sets the first stage of a job.
    pub fn begin(&mut self, job: &Job)
        ensures { self.new ≡ first_stage job.now }
    {
        match job.turn {
            Some(number) => {
                let slot = job.origin.slot.number();
                self.step = Step::ToTell(Turn { slot, number }, TurnStep::ToTake);
            }
            None => self.ask(job),
        }
    }

    /// Sets the first stage of a request's job.
    ///
    /// [`Stage::begin`] calls this function for a job without a lease. The workers (`fc_workers`)
    /// call it directly, since none of their jobs has a lease.
    pub fn ask(&mut self, job: &Job)
        ensures { self.new ≡ asked_stage job.now }
    {
        match &job.ask {
            Ask::Run(_) if job.etags.is_empty() => self.step = Step::ToTake(0),
            Ask::Run(_) => self.step = Step::ToMatch,
            Ask::Install(..) => self.step = Step::ToInstall,
            Ask::Remove => self.step = Step::ToRemove,
            Ask::Describe => self.step = Step::ToDescribe,
            Ask::Discover => {
                self.seen.clear();
                self.step = Step::ToList;
            }
        }
    }

    /// Continues after reading the head word of a run's slot.
    ///
    /// If `word` belongs to a program at a serial that is one of the job's ETags, the answer is
    /// 2.03 (Valid), without a run. Otherwise the job takes a snapshot next.
    pub fn matched(&mut self, job: &Job, word: u64)
        ensures { self.new ≡ stages.matched word job.now.etags.items }
    {
        let serial = serial_in(word);
        if is_present(word) && job.etags.as_slice().contains(&serial) {
            self.answer.write_other(End::Match(serial));
            self.step = Step::ToAnswer;
        } else {
            self.step = Step::ToTake(0);
        }
    }

    /// Continues after an install; `receipt` has no version yet.
    ///
    /// The slot's head word is raised next, and then the job is answered with the receipt. If the
    /// slot is at its last serial, the answer is 5.03.
    pub fn made(&mut self, receipt: Receipt, made: Made)
        requires { IsMadeBelow made }
        ensures { self.new ≡ stages.made receipt made }
    {
        match made {
            Made::Raised { serial, created } => {
                let receipt = Receipt {
                    version: serial,
                    ..receipt
                };
                self.answer.write_other(End::Made(receipt, created));
                self.step = Step::ToRaise(head_word(serial, true));
            }
            Made::AtEnd => self.unavailable(),
        }
    }

    /// Continues after a removal.
    ///
    /// The slot's head word is raised next, unless the slot was empty. In both cases the answer is
    /// 2.02. If the slot has a program and is at its last serial, the answer is 5.03.
    pub fn removed(&mut self, removal: Removal)
        requires { IsRemovedBelow removal }
        ensures { self.new ≡ stages.removed removal }
    {
        match removal {
            Removal::Removed { serial } => {
                self.answer.write_other(End::Removed);
                self.step = Step::ToRaise(head_word(serial, false));
            }
            Removal::Absent => {
                self.answer.write_other(End::Removed);
                self.step = Step::ToAnswer;
            }
            Removal::AtEnd => self.unavailable(),
        }
    }

    /// Continues after a receipt was read; `None` if the slot is empty.
    ///
    /// The answer is the receipt, or 4.04 for an empty slot.
    pub fn set_receipt(&mut self, receipt: Option<Receipt>)
        ensures { self.new ≡ ToAnswer (stages.receipt_content receipt) }
    {
        self.answer.write_other(End::Told(receipt));
        self.step = Step::ToAnswer;
    }

    /// Continues after an image was refused by a rule: the answer is 4.00.
    pub fn rejected(&mut self, fault: Fault)
        ensures { self.new ≡ ToAnswer (refused (Refusal.Broken fault)) }
    {
        self.answer
            .write_other(End::Rejected(Refusal::Broken(fault)));
        self.step = Step::ToAnswer;
    }

    /// Continues after a failed allocation or a refused change, or at the last serial.
    ///
    /// The answer is 5.03.
    pub fn unavailable(&mut self)
        ensures { self.new ≡ ToAnswer Unavailable }
    {
        self.answer.write_other(End::Unavailable);
        self.step = Step::ToAnswer;
    }

    /// Continues after the head words of all slots were listed: they are the answer.
    ///
    /// Nothing changes if the job's next action isn't to list a head word.
    pub fn listed(&mut self)
        requires { HasListed self.old }
        ensures { self.new ≡ after_list self.old }
    {
        if let Step::ToList = &self.step {
            let mut words = Words::new();
            let _fits = words.try_extend_from_slice(self.seen.as_slice());
            self.answer.write_other(End::Core(words));
            self.step = Step::ToAnswer;
        }
    }

    /// Continues after the head word of the job's slot was raised.
    ///
    /// Nothing changes if the job's next action isn't to raise a head word.
    pub fn raised(&mut self)
        ensures { self.new ≡ stages.word_raised self.old }
    {
        if let Step::ToRaise(_) = &self.step {
            self.step = Step::ToAnswer;
        }
    }

    /// Returns the job's answer if the job is to be answered next, or `None`.
    pub fn content(&self) -> Option<&Answer>
        ensures { option_copied result ≡ stages.content_at self.now }
    {
        match &self.step {
            Step::ToAnswer => Some(&self.answer),
            _ => None,
        }
    }

    // Returns the job's lease if the lease takes its snapshot next, or `None`. `Task::take` and
    // `refuse_take` distinguish a lease from a request by this result.
    pub(crate) fn turn_to_take(&self) -> Option<Turn>
        ensures { result ≡ stages.turn_to_take self.now }
    {
        match &self.step {
            Step::ToTell(turn, TurnStep::ToTake) => Some(*turn),
            _ => None,
        }
    }
}

/// The next actions, with the answer written separately.
///
/// These functions are for a caller that borrows the snapshot and the answer of a stage separately.
impl Step {
    /// Returns the next action after a request's snapshot; `count` snapshots came before it.
    ///
    /// If the snapshot gave a program, the program's run is committed next. Otherwise `answer` is
    /// written, and sent next: 4.04 if the slot is empty, 5.03 if memory can't be allocated. The
    /// answer is 5.03 too if the result is that of a lease that isn't active.
    pub fn took(count: u8, taken: Taken, answer: &mut Answer) -> Step
        requires { count < 8 }
        ensures { LeadsTo taken (stages.took count) result answer.new }
    {
        match taken {
            Taken::Missing => {
                answer.write_other(End::Missing);
                Step::ToAnswer
            }
            Taken::Given(program) => Step::ToCommit(count + 1, program),
            Taken::Refused => Step::unavailable(answer),
            Taken::Stale => Step::unavailable(answer),
        }
    }

    /// Returns the next action after the snapshot of a lease.
    ///
    /// If the snapshot gave a program, or the slot is empty, the lease needs a message ID next. A
    /// lease that isn't active has ended (`Gone`). If memory can't be allocated, the lease still
    /// needs its snapshot.
    pub fn turn_took(turn: Turn, taken: Taken) -> Step
        ensures { (content : Content) → LeadsTo taken (stages.turn_took turn) result content }
    {
        match taken {
            Taken::Given(program) => Step::ToTell(turn, TurnStep::ToDraw(Some(program))),
            Taken::Missing => Step::ToTell(turn, TurnStep::ToDraw(None)),
            Taken::Stale => Step::Gone,
            Taken::Refused => Step::ToTell(turn, TurnStep::ToTake),
        }
    }

    /// Returns the next action after a commit.
    ///
    /// If the commit was done, `answer` is that of the run, and the head word is raised first if
    /// the slot changed. If the slot had changed since the snapshot, the job takes another
    /// snapshot, at most eight in all. Otherwise `answer` is 5.03: the slot is at its last serial,
    /// or the outcome doesn't belong to the ticket.
    pub fn committed(
        count: u8,
        outcome: &Outcome<'_>,
        ticket: &Ticket<'_>,
        committed: Committed,
        answer: &mut Answer,
    ) -> Step
        requires { AreDone outcome.now ticket.now committed }
        ensures { StandsAt result answer.new (stages.after_commit count ticket.now committed) }
    {
        match committed {
            Committed::Done(mark) => {
                let changed = mark.changed();
                let serial = mark.serial();
                answer.write_run(outcome, ticket, mark);
                if changed {
                    Step::ToRaise(head_word(serial, true))
                } else {
                    Step::ToAnswer
                }
            }
            Committed::Overtaken => Step::overtaken(count, answer),
            Committed::Ended => Step::unavailable(answer),
            Committed::Stranger => Step::unavailable(answer),
        }
    }

    // Returns the next action if the slot has changed since the snapshot. The job takes another
    // snapshot; after the eighth, `answer` is 5.03 and is sent next. `count` is the number of
    // snapshots so far.
    fn overtaken(count: u8, answer: &mut Answer) -> Step
        ensures { StandsAt result answer.new (stages.retaken count) }
    {
        if count < SNAPSHOTS {
            return Step::ToTake(count);
        }
        answer.write_other(End::Unavailable);
        Step::ToAnswer
    }

    // Writes a 5.03 over `answer`, and returns the next action, which sends this answer. The causes
    // are a failed allocation, the slot's last serial, and a wrong call.
    fn unavailable(answer: &mut Answer) -> Step
        ensures { StandsAt result answer.new (ToAnswer Unavailable) }
    {
        answer.write_other(End::Unavailable);
        Step::ToAnswer
    }
}
