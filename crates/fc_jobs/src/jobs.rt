//! The calls of the channel's ends: sending, receiving, and waiting for a worker.
ghost use Rattle.std.specs.Prelude.{◌≡◌, ◌<◌, ◌≤◌, ◌^◌, ◌∷◌, ◌++◌, [], length, replicate, IfOk, IfSome, MatchOption, Some};
ghost use Rattle.fc_jobs.specs.Once.{times};
ghost use Rattle.fc_jobs.specs.Ends.{nothing_sent, nothing_got, with_sent, with_got};

use crate::ends::{Got, Jobs, Sent};
use crate::protocol::{Hires, Numbered, Puts, Takes};
use crossbeam_channel::{SendError, bounded_with};
use std::alloc::{AllocError, Global};
use std::sync::{OnceLock, Wait};

/// The capacity of the channel: the number of jobs that may wait.
const PLACES: usize = 256;

/// The number of the first job that is not sent.
const LAST: u64 = 1 << 61;

impl<M: Drop> Jobs<M> {
    /// Makes a channel of 256 places, with its sending end and a `Got` for each worker.
    ///
    /// # Errors
    /// Returns `AllocError` if memory can't be allocated.
    pub fn new(alloc: Global, workers: usize) -> Result<(Jobs<M>, Sent<M>, Vec<Got<M>>), AllocError>
        ensures sent { IfOk result (λ r. r.1 ≡ nothing_sent r.0) }
        ensures got { IfOk result (λ r. r.2.items ≡ replicate workers (nothing_got r.0)) }
    {
        let (sender, receiver, pass) = bounded_with(alloc, PLACES)?;
        let mut sent = Sent {
            sender,
            pass,
            next: 0,
        };
        let gots = hire(alloc, &mut sent, workers)?;
        let jobs = Jobs {
            receiver,
            served: OnceLock::new(),
        };
        Ok((jobs, sent, gots))
    }

    /// Sends a job under the next number, from 0 on, or returns the job if it can't be sent.
    ///
    /// Returns `None` if the job was sent. The call waits while the channel is full. The job is
    /// returned if memory can't be allocated, or if its number would be 2^61 or more. Then `sent`
    /// is unchanged, and the dispatcher runs the job itself.
    pub fn send<R: Wait>(&self, rt: &R, message: M, sent: &mut Sent<M>) -> Option<M>
        requires { sent.old.channel ≡ self.now }
        ensures sent { MatchOption result (sent.new ≡ with_sent sent.old message)
            (λ back. (back ≡ message) × (sent.new ≡ sent.old)) }
        ensures end { 2 ^ 61 ≤ length sent.old.sent → result ≡ Some message }
    {
        if sent.next >= LAST {
            return Some(message);
        }
        let number = sent.next;
        sent.send(rt, Numbered { number, message })
    }

    /// Receives the next job with its number, which is new to the worker.
    ///
    /// Returns `None` if the sender is gone and no job is left; then `got` is unchanged. The call
    /// waits while the channel is empty. It records that a worker has asked for a job: see
    /// [`Jobs::is_served`].
    pub fn next<R: Wait>(&self, rt: &R, got: &mut Got<M>) -> Option<(u64, M)>
        requires { got.old.channel ≡ self.now }
        ensures got { MatchOption result (got.new ≡ got.old) (λ r. got.new ≡ with_got got.old r.0 r.1) }
        ensures once { IfSome result (λ r. times r.0 got.old.got ≡ 0) }
    {
        if !self.is_served() {
            let _ = self.served.set(rt, true);
        }
        match self.receiver.recv_as::<Takes, R>(rt, &mut got.pass) {
            Ok(Numbered { number, message }) => Some((number, message)),
            Err(_) => None,
        }
    }
}

impl<M: Drop> Jobs<M> {
    /// Returns whether a worker has asked for a job yet.
    ///
    /// If no worker has asked, perhaps none ever will: the thread that was to start the workers may
    /// have been refused memory. A caller that sends no job before a worker has asked doesn't wait
    /// for ever.
    pub fn is_served(&self) -> bool {
        self.served.get() == Some(&true)
    }

    /// Waits until a worker has asked for a job, or it is known that none will.
    ///
    /// Returns whether a worker has asked for a job.
    pub fn await_worker<R: Wait>(&self, rt: &R) -> bool {
        *self.served.wait(rt)
    }

    /// Declares that no worker will ask for a job any more.
    ///
    /// A caller that waits for a worker continues. If a worker has asked before, this call has no
    /// effect.
    pub fn dismiss<R: Wait>(&self, rt: &R) {
        let _ = self.served.set(rt, false);
    }
}

impl<M: Drop> Sent<M> {
    /// Returns the number of jobs that were sent, which is the number of the next job.
    pub fn count(&self) -> u64
        ensures { result ≡ length self.now.sent }
    {
        self.next
    }

    // Sends a numbered job, or returns the job if the channel can't take it. If the job is
    // returned, the next job gets the same number.
    fn send<R: Wait>(&mut self, rt: &R, numbered: Numbered<M>) -> Option<M>
        requires { (numbered.number ≡ length self.old.sent) × (numbered.number < 2 ^ 61) }
        ensures { MatchOption result (self.new ≡ with_sent self.old numbered.message)
            (λ back. (back ≡ numbered.message) × (self.new ≡ self.old)) }
    {
        match self.sender.send_as::<Puts, R>(rt, &mut self.pass, numbered) {
            Ok(()) => {
                self.next += 1;
                None
            }
            Err(SendError::Disconnected(back)) => Some(back.message),
            Err(SendError::OutOfMemory(back)) => Some(back.message),
        }
    }

    // Makes the end of another worker.
    fn hire(&mut self) -> Got<M>
        ensures same { self.new ≡ self.old }
        ensures got { result ≡ nothing_got self.old.channel }
    {
        let pass = self.sender.another::<Hires>(&mut self.pass);
        Got { pass }
    }
}

// Makes an end of the channel for each of `workers` workers. Returns `AllocError` if memory can't
// be allocated.
fn hire<M: Drop>(
    alloc: Global,
    sent: &mut Sent<M>,
    workers: usize,
) -> Result<Vec<Got<M>>, AllocError>
    ensures same { sent.new ≡ sent.old }
    ensures got { IfOk result (λ v. v.items ≡ replicate workers (nothing_got sent.old.channel)) }
{
    let mut gots = Vec::new(alloc);
    for worker in 0..workers {
        gots.push(sent.hire())?;
    }
    Ok(gots)
}
