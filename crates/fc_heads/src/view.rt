//! A handle's knowledge of the words, and the steps that change it.
ghost use Rattle.std.specs.Prelude.{◌≡◌};

use atomic_table::{Join, Play, Split, TableRule};
use std::collections::LinkedList;

/// The values that a handle has seen and published, for each slot.
///
/// No value of this type is made: only contracts use it.
pub struct View {
    pub seen: LinkedList<u64>,
    pub raised: LinkedList<u64>,
}

/// The rule for the words and all views.
///
/// A word is the greatest value published in any view, or 0, and no view has seen a greater one.
pub struct Greatest;

impl TableRule<u8, View, ()> for Greatest {
    ghost use Rattle.fc_heads.specs.Heads.{fresh, AreGreatest};

    ghost holds = { λ _ s. AreGreatest s.words s.views };

    ghost first = { λ _. fresh };
}

/// A load of a word: the handle has seen the word then.
pub(crate) struct Peeks;

impl Play<u8, View> for Peeks {
    ghost use Rattle.std.specs.Prelude.{◌≡◌, ◌≤◌};
    ghost use Rattle.fc_heads.specs.Heads.{peeked, word_of};

    ghost then = { λ s v found w. (word_of v.0.seen s.word ≤ found) × (w ≡ (peeked v.0 s.word found, v.1)) };
}

/// A publication: the handle has seen the greater of the word and its value.
pub(crate) struct Raises;

impl Play<u8, View> for Raises {
    ghost use Rattle.std.specs.Prelude.{◌≡◌, ◌≤◌};
    ghost use Rattle.fc_heads.specs.Heads.{raised_to, word_of};

    ghost then = { λ s v found w. (word_of v.0.seen s.word ≤ found)
        × (w ≡ (raised_to v.0 s.word s.first found, v.1)) };
}

/// The step by which a handle gives another one its knowledge.
pub(crate) struct Tells;

impl Split<View> for Tells {
    ghost use Rattle.fc_heads.specs.Heads.{note};

    ghost left = { λ v. v };

    ghost right = { note };
}

impl Join<View> for Tells {
    ghost use Rattle.fc_heads.specs.Heads.{fresh, met};

    ghost both = { met };

    ghost spent = { fresh };
}

/// A new handle, which has seen and published nothing.
pub(crate) struct Sits;

impl Play<u8, View> for Sits {
    ghost use Rattle.std.specs.Prelude.{◌≡◌};

    ghost then = { λ s v found w. w ≡ v };
}

impl Split<View> for Sits {
    ghost use Rattle.fc_heads.specs.Heads.{fresh};

    ghost left = { λ v. v };

    ghost right = { λ v. fresh };
}
