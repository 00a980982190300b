//! Observations: an observer's record of the notifications that it has shown.
//!
//! The record decides whether a later notification is newer.
ghost use Rattle.std.specs.Prelude.{◌≡◌, IfOk, OnOk};
ghost use Rattle.coap_observer.specs.Notices.{first_marks, is_shown_again, marked, notice_after};
ghost use Rattle.coap_msg.specs.Windows.{within_window};

use crate::notice::{NotificationClass, is_newer, notice_of};
use coap_client::reply::begins_exchange;
use coap_msg::Message;
use coap_msg::types::WINDOW;
use std::alloc::{AllocError, Global};

/// The mark of a separate response that was shown.
///
/// It has the message ID of the response, and the time of its arrival in milliseconds.
#[derive(Clone, Copy, PartialEq, Eq)]
pub struct ShownMark {
    pub id: u16,
    pub at: u64,
}

/// The latest state shown, and the messages shown in the last 247 seconds.
///
/// `sequence` and `at` are the sequence number of that state and its time in milliseconds. `marks`
/// are those of the messages, which are separate responses. If one of these messages is received
/// again, it is a duplicate (RFC 7252, section 4.5).
#[derive(Drop)]
pub struct Observation {
    pub sequence: u32,
    pub at: u64,
    pub marks: Vec<ShownMark>,
}

impl Observation {
    /// Begins an observation after the first message shown.
    ///
    /// `message` is the response to a registration: a state with this sequence number, shown at
    /// `at`, in milliseconds. A mark is made if the response is separate.
    ///
    /// # Errors
    /// Returns `AllocError` if memory can't be allocated for the mark.
    pub fn first(
        alloc: Global,
        sequence: u32,
        at: u64,
        message: &Message<'_>,
    ) -> Result<Observation, AllocError>
        ensures shown { IfOk result (λ w. (w.sequence ≡ sequence) × (w.at ≡ at)) }
        ensures marks { IfOk result (λ w. w.marks.items ≡ first_marks message.now at) }
    {
        let mut marks = Vec::new(alloc);
        if begins_exchange(message.kind()) {
            marks.push(ShownMark {
                id: message.id(),
                at,
            })?;
        }
        Ok(Observation {
            sequence,
            at,
            marks,
        })
    }

    /// Classifies a separate response received at `at`, in milliseconds.
    ///
    /// A state is `Older` if it isn't newer than the one accepted last. A duplicate of an accepted
    /// message is `Older` too.
    pub fn notice_of(&self, at: u64, message: &Message<'_>) -> NotificationClass
        ensures { result ≡ notice_after self.now at message.now }
    {
        if self.repeats(message.id(), at) {
            return NotificationClass::Older;
        }
        match notice_of(message) {
            NotificationClass::State(sequence) if !is_newer(self.sequence, self.at, sequence, at) =>
                { NotificationClass::Older }
            notice => notice,
        }
    }

    // Returns whether a message with this message ID was shown less than 247 seconds before `at`.
    fn repeats(&self, id: u16, at: u64) -> bool
        ensures { result ≡ is_shown_again self.now.marks.items id at }
    {
        self.marks
            .iter()
            .any(|mark| mark.id == id && is_kept(mark, at))
    }

    /// Records that a state is shown, and removes marks that are at least 247 s old.
    ///
    /// The state has this sequence number and is shown at `at`, in milliseconds. It is a separate
    /// response with the message ID `id`.
    ///
    /// # Errors
    /// Returns `AllocError` if memory can't be allocated for the mark. Then the observation changes
    /// only by the removal of old marks; the contract doesn't say so.
    pub fn keep(&mut self, sequence: u32, at: u64, id: u16) -> Result<(), AllocError>
        ensures shown { OnOk result ((self.new.sequence ≡ sequence) × (self.new.at ≡ at)) }
        ensures marks { OnOk result (self.new.marks.items ≡ marked self.old.marks.items id at) }
    {
        self.marks.retain(|mark| is_kept(mark, at));
        self.marks.push(ShownMark { id, at })?;
        self.sequence = sequence;
        self.at = at;
        Ok(())
    }
}

// Returns whether a mark is less than 247 seconds old at `at`, in milliseconds.
fn is_kept(mark: &ShownMark, at: u64) -> bool
    ensures { result ≡ within_window at mark.now.at }
{
    at.saturating_sub(mark.at) < WINDOW
}
