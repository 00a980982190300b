//! The values of the options with one number.
ghost use Rattle.std.specs.Prelude.{◌≡◌};
ghost use Rattle.std.specs.Iterator.{YieldsFirstBy, item_count};
ghost use Rattle.coap_msg.specs.Values.{values_in};

use crate::options::Options;
use std::marker::Model;

/// An iterator over the values of a message's options with one number.
///
/// Contracts see it as the list of the values that are left, in order.
#[derive(Drop)]
pub struct Values<'a> {
    number: u16,
    options: Options<'a>,
}

impl<'a> Model for Values<'a> {
    ghost use Rattle.std.specs.Prelude.{ℕ, List};
    ghost use Rattle.coap_msg.specs.Values.{values_in};

    ghost Value = { List (List ℕ) };

    ghost view = { λ v. values_in v.number v.options };
}

impl<'a> Values<'a> {
    /// Makes an iterator over the values of the options with the number `number`.
    ///
    /// Only the options that `options` hasn't yielded yet count.
    pub(crate) fn new(number: u16, options: Options<'a>) -> Self
        ensures { result ≡ values_in number options.entry }
    {
        Values { number, options }
    }
}

impl<'a> Iterator for Values<'a> {
    type Item = &'a [u8];

    ghost next_gives = { YieldsFirstBy (λ v. v.now) (λ rest. rest) };

    ghost remaining = { item_count (λ rest. rest) };

    fn next(&mut self) -> Option<&'a [u8]> {
        while let Some((number, value)) = self.options.next() {
            if number == self.number {
                return Some(value);
            }
        }
        None
    }
}
