//! The answer of a job.
ghost use Rattle.std.specs.Prelude.{◌≡◌, ◌≤◌, length};
ghost use Rattle.fc_machine.specs.Ran.{meaning_of};
ghost use Rattle.fc_front.specs.Contents.{Ran, AreOne, run_answer};
ghost use Rattle.fc_front.specs.Ends.{IsTold, content_of, part_in, said_of};

use crate::heads::WORDS;
use arrayvec::ArrayVec;
use coap_msg::Code;
use coap_opts::Block;
use coap_reply::{BLOCK, BodyBlock};
use fc_machine::Outcome;
use fc_registry::Mark;
use fc_ticket::{Origin, Receipt, Ticket};
use fc_verify::Refusal;
use std::marker::Model;

/// The result of a job's last call, if that wasn't a run.
#[derive(Drop)]
pub enum End {
    /// The client already has the response of the slot at this serial.
    Match(u64),
    /// The slot was empty.
    Missing,
    /// The service is unavailable.
    ///
    /// The slot is at its last serial, memory couldn't be allocated, the slot changed since the
    /// job's eighth snapshot, or the store refuses the save.
    Unavailable,
    /// A program was installed; `true` if the slot was empty before.
    Made(Receipt, bool),
    /// An image was refused.
    Rejected(Refusal),
    /// A program was removed, or the slot was empty.
    Removed,
    /// The receipt of the slot's program; `None` if the slot is empty.
    Told(Option<Receipt>),
    /// The head words of all slots.
    Core(Words),
}

/// The head words of slots, from slot 0 on.
pub type Words = ArrayVec<u64, WORDS>;

// The body of an answer. The bytes of a run's block are stored next to it.
#[derive(Drop)]
pub(crate) enum AnswerBody {
    Ran {
        by: Origin,
        code: Code,
        // The block of the reply, if there is one.
        block: Option<Option<Block>>,
        serial: u64,
        observed: bool,
    },
    Other(End),
}

/// The answer of a job.
///
/// The answer of a run is made from the run's outcome, and consumes the mark of the run's commit.
/// Without a mark no answer of a run can be made. In contracts an answer is its content, without
/// the rule and the slot of a refusal by typing. An answer has memory for a block, and can be
/// overwritten in place.
#[derive(Drop)]
pub struct Answer {
    said: AnswerBody,
    bytes: ArrayVec<u8, BLOCK>,
}

impl Model for Answer {
    ghost use Rattle.fc_front.specs.Contents.{Content};

    ghost Value = { Content };

    ghost use Rattle.fc_front.specs.Ends.{said_of, IsTold};

    ghost view = { λ a. said_of a.said a.bytes.items };

    ghost invariant = { λ a. IsTold a.said };
}

impl Answer {
    /// Makes the answer of a run from its outcome and ticket, and consumes `mark`.
    ///
    /// The answer has the outcome's code, the requested block of the reply, and the ticket's
    /// serial. It also states whether the client is an observer of the slot from now on. `mark`
    /// shows that the run's commit was done.
    pub fn ran(outcome: &Outcome<'_>, ticket: &Ticket<'_>, mark: Mark) -> Answer
        requires { AreOne outcome.now ticket.now mark }
        ensures { result ≡ Ran (run_answer ticket.now (meaning_of outcome.now) mark.observed) }
    {
        let mut answer = Answer::other(End::Unavailable);
        answer.write_run(outcome, ticket, mark);
        answer
    }

    /// Makes the answer of a job whose last call wasn't a run.
    pub fn other(end: End) -> Answer
        ensures { result ≡ content_of end }
    {
        Answer {
            said: AnswerBody::Other(end),
            bytes: ArrayVec::new(),
        }
    }

    /// Writes the answer of a run over this answer, and consumes `mark`.
    ///
    /// The answer has the outcome's code, the requested block of the reply, and the ticket's
    /// serial, as that of [`Answer::ran`].
    pub fn write_run(&mut self, outcome: &Outcome<'_>, ticket: &Ticket<'_>, mark: Mark)
        requires { AreOne outcome.now ticket.now mark }
        ensures { self.new ≡ Ran (run_answer ticket.now (meaning_of outcome.now) mark.observed) }
    {
        let observed = mark.observed();
        let serial = mark.into_serial();
        let block = write_block(
            BodyBlock::cut(outcome.reply(), ticket.block()),
            &mut self.bytes,
        );
        self.said = AnswerBody::Ran {
            by: ticket.origin(),
            code: Code {
                byte: outcome.code(),
            },
            block,
            serial,
            observed,
        };
    }

    /// Overwrites this answer with that of a job whose last call wasn't a run.
    pub fn write_other(&mut self, end: End)
        ensures { self.new ≡ content_of end }
    {
        self.said = AnswerBody::Other(end);
    }

    // Returns the body of the answer and the stored bytes, of which `reply` makes a response. The
    // bytes are those of the answer's block. They mean nothing if the answer has no block.
    pub(crate) fn said(&self) -> (&AnswerBody, &[u8])
        ensures said { said_of result.0.now result.1.now ≡ self.now }
        ensures told { IsTold result.0.now }
        ensures short { length result.1.now ≤ 1024 }
    {
        (&self.said, self.bytes.as_slice())
    }
}

// Writes the bytes of a block over `bytes`. If there is no block, returns `None` and writes
// nothing. Otherwise returns the block's place, which a whole body doesn't have.
fn write_block(
    block: Option<BodyBlock<'_>>,
    bytes: &mut ArrayVec<u8, BLOCK>,
) -> Option<Option<Block>>
    ensures { part_in result bytes.new.items ≡ block.entry }
{
    let block = block?;
    bytes.clear();
    let _fits = bytes.try_extend_from_slice(block.bytes);
    Some(block.block)
}
