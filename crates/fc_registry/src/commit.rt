//! Outcomes and results of commits.
ghost use Rattle.std.specs.Prelude.{◌≡◌};
ghost use Rattle.fc_registry.specs.Calls.{is_post, wants_by};

use crate::mark::Mark;
use fc_help::Method;
use fc_machine::Outcome;

/// The outcome of a commit of a ticket's run, at its slot.
#[derive(Clone, Copy, PartialEq, Eq)]
pub enum CommitOutcome {
    /// The commit writes.
    ///
    /// The run answered a POST with a code of class 2. Nothing has changed since the ticket's
    /// snapshot, and the slot is below its last serial.
    Writes,
    /// The run has nothing to write.
    Keeps,
    /// A conflict: the run wants to write, but the slot has changed since the snapshot.
    Overtakes,
    /// The run wants to write, and the slot is at its last serial.
    Ends,
}

/// The result of a commit.
///
/// Every variant but `Done` leaves the slots unchanged.
#[must_use]
pub enum Committed {
    /// The run is done: its commit wrote, or had nothing to write.
    ///
    /// A response consumes the mark.
    Done(Mark),
    /// A conflict: the run wanted to write, but the slot changed since the snapshot.
    Overtaken,
    /// The run wanted to write, and the slot is at its last serial.
    Ended,
    /// The outcome or the ticket doesn't belong to this commit.
    ///
    /// The outcome isn't of the ticket's program, request, variables and readings. Or the ticket is
    /// that of a lease, or the ticket's serial is above the slot's.
    Stranger,
}

/// Returns whether a run has variables to write: it answered a POST with a code of class 2.
///
/// The commit of any other run changes no slot.
pub fn wants_to_write(outcome: &Outcome<'_>) -> bool
    ensures { result ≡ wants_by outcome.now }
{
    is_post(outcome.request().method()) && outcome.code() / 32 == 2
}

// Returns whether a request is a POST.
fn is_post(method: Method) -> bool
    ensures { result ≡ is_post method }
{
    method == Method::Post
}
