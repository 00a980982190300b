//! The first value of each recognised option, for the collector.
ghost use Rattle.std.specs.Prelude.{◌≡◌, ◌<◌, ◌==◌, List, None, Some, ℕ};
ghost use Rattle.coap_opts.specs.Recognition as spec;
ghost use Rattle.coap_opts.specs.Firsts.{cons_if, first_at, first_with, lent};

use crate::recognition::row_place;
use crate::served::ROWS;
use std::marker::Model;

/// The first value of each recognised option.
///
/// In contracts it is the list of the values, in the order of the rows of `OPTIONS`.
#[derive(Drop)]
pub(crate) struct Firsts<'a> {
    values: [Option<&'a [u8]>; ROWS],
}

impl<'a> Model for Firsts<'a> {
    ghost use Rattle.std.specs.Prelude.{◌≡◌, length};
    ghost use Rattle.coap_opts.specs.Firsts.{FirstValues};
    ghost use Rattle.coap_opts.specs.declared.served.TheConstants.{ROWS as rows};

    ghost Value = { FirstValues };

    ghost view = { λ f. f.values };

    ghost invariant = { λ f. length f.values ≡ rows };
}

impl<'a> Firsts<'a> {
    /// Returns the collection without any value.
    pub(crate) fn new() -> Self
        ensures { (number : ℕ) → first_at result number ≡ None }
    {
        Firsts {
            values: [None; ROWS],
        }
    }

    /// Stores the value of an option with the row at `place`, unless a value is stored there.
    pub(crate) fn keep(&mut self, place: usize, value: &'a [u8])
        requires { place < ROWS }
        ensures { (number wanted : ℕ) (left : List (List ℕ)) → spec.row_place number ≡ Some place →
            first_with (first_at self.old wanted) (cons_if (number == wanted) value.now left)
            ≡ first_with (first_at self.new wanted) left }
    {
        if self.values[place].is_none() {
            self.values[place] = Some(value);
        }
    }

    /// Returns the first value of the option with this number, or `None` if no value is stored.
    pub(crate) fn of(&self, number: u16) -> Option<&'a [u8]>
        ensures { lent result ≡ first_at self.now number }
    {
        self.values[row_place(number)?]
    }
}
