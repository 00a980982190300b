//! The results of a front's calls by value: the job and the response are moved.
ghost use Rattle.std.specs.Prelude.{◌≡◌};
ghost use Rattle.fc_front.specs.Answering.{AnswersIn, after_answered, emission_of};
ghost use Rattle.fc_front.specs.Contents.{IsOf};
ghost use Rattle.fc_front.specs.Exchanges.{advanced};
ghost use Rattle.fc_front.specs.Receiving.{after_delivered};
ghost use Rattle.fc_front.specs.Receiving as receiving;

use crate::answer::Answer;
use crate::front::{Front, Handled, Responded, blank_emission, blank_job};
use coap_msg::{Emission, Endpoint};
use fc_ticket::Job;

/// The result of the delivery of a datagram.
#[derive(Drop)]
pub enum Delivered {
    /// Nothing: the datagram is ignored.
    Nothing,
    /// A datagram to send immediately.
    Reply(Emission),
    /// The job of a new request.
    Job(Job),
    /// An acknowledgement, or a reset, of the message `mid`, for the observers.
    Signal { mid: u16, reset: bool },
}

/// The result of answering a job.
#[derive(Drop)]
pub enum Answered {
    /// The response to send.
    Sent(Emission),
    /// The job has no exchange, or the exchange's lifetime has passed: nothing is sent.
    Late,
    /// No message ID is available: nothing is sent.
    NoId,
}

impl Front {
    /// Handles a datagram, as [`Front::handle`] does.
    ///
    /// Returns the job of a request that is served, the datagram to send immediately, or a signal
    /// for the observers. If there is none of these, the result is `Nothing`.
    pub fn deliver(&mut self, now: u64, endpoint: Endpoint, bytes: &[u8]) -> Delivered
        ensures delivered { result ≡ receiving.delivered (advanced self.old now) endpoint bytes.now }
        ensures after { self.new ≡ after_delivered (advanced self.old now) endpoint bytes.now }
    {
        let mut job = blank_job();
        let mut reply = blank_emission();
        match self.handle(now, endpoint, bytes, &mut job, &mut reply) {
            Handled::Nothing => Delivered::Nothing,
            Handled::Reply => Delivered::Reply(reply),
            Handled::Job => Delivered::Job(job),
            Handled::Signal { mid, reset } => Delivered::Signal { mid, reset },
        }
    }

    /// Answers a job, as [`Front::respond`] does, and returns the response to send.
    ///
    /// Returns `Late` if the job has no exchange or the exchange's lifetime has passed, and `NoId`
    /// if no message ID is available. Then nothing is sent.
    pub fn answer(&mut self, now: u64, job: &Job, answer: &Answer) -> Answered
        requires { IsOf job.now answer.now }
        ensures answered { AnswersIn (advanced self.old now) job.now answer.now result }
        ensures after { self.new ≡ after_answered job.now (emission_of result) (advanced self.old now) }
    {
        let mut reply = blank_emission();
        match self.respond(now, job, answer, &mut reply) {
            Responded::Sent => Answered::Sent(reply),
            Responded::Late => Answered::Late,
            Responded::NoId => Answered::NoId,
        }
    }
}
