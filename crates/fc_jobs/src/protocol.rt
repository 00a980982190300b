//! The rule of the channel, and the moves under it.
use crossbeam_channel::protocol::{Lesson, Outcome, Protocol, Split};
use std::collections::LinkedList;

/// A job with its number.
///
/// The message is of the caller's type. It has the job, and what travels with the job.
#[derive(Drop)]
pub struct Numbered<M: Drop> {
    pub number: u64,
    pub message: M,
}

/// The view of a pass: the jobs that the sender sent, or that a worker received.
///
/// Only contracts use this type; no value of it is made.
pub struct Hand<M: Drop> {
    pub sends: bool,
    pub sent: LinkedList<Numbered<M>>,
    pub got: LinkedList<Numbered<M>>,
}

/// The rule that each number is received once.
pub struct OnceEach;

impl<M: Drop> Protocol<Numbered<M>, Hand<M>> for OnceEach {
    ghost use Rattle.std.specs.Prelude.{[]};
    ghost use Rattle.fc_jobs.specs.Once.{Once, sends_view};

    ghost holds = { Once };

    ghost first = { sends_view [] };
}

/// A send: the sender's view lists the jobs that it sent.
pub(crate) struct Puts;

impl<M: Drop> Outcome<Numbered<M>, Hand<M>> for Puts {
    ghost use Rattle.std.specs.Prelude.{◌≡◌, ◌++◌, [], ◌∷◌};
    ghost use Rattle.fc_jobs.specs.Once.{sends_view};

    ghost then = { λ v x w. w ≡ sends_view (v.sent ++ x ∷ []) };
}

impl<M: Drop> Lesson<Numbered<M>, Hand<M>> for Puts {
    ghost use Rattle.std.specs.Prelude.{⊤};

    ghost fact = { λ _ _. ⊤ };
}

/// A receive: the worker's view lists the jobs that it received, with new numbers.
pub(crate) struct Takes;

impl<M: Drop> Outcome<Numbered<M>, Hand<M>> for Takes {
    ghost use Rattle.std.specs.Prelude.{◌≡◌, ◌++◌, [], ◌∷◌};
    ghost use Rattle.fc_jobs.specs.Once.{gets_view, times};

    ghost then = { λ v x w. (w ≡ gets_view (v.got ++ x ∷ [])) × (times x.number v.got ≡ 0) };
}

impl<M: Drop> Lesson<Numbered<M>, Hand<M>> for Takes {
    ghost use Rattle.std.specs.Prelude.{⊤};

    ghost fact = { λ _ _. ⊤ };
}

/// Another worker's pass, split from the sender's; it has received nothing yet.
pub(crate) struct Hires;

impl<M: Drop> Split<Hand<M>> for Hires {
    ghost use Rattle.std.specs.Prelude.{[]};
    ghost use Rattle.fc_jobs.specs.Once.{gets_view};

    ghost left = { λ v. v };

    ghost right = { λ _. gets_view [] };
}
