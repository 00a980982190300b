//! The key by which an exchange is found.
ghost use Rattle.std.specs.Prelude.{◌≡◌, ◌+◌, ◌<◌};
ghost use Rattle.coap_dedup.specs.Keys.{AreBytes, IsPeer, first_key, is_key_at, key_cmp, key_of};

use coap_msg::Endpoint;
use std::cmp::Ordering;
use std::marker::Model;

/// A count of comparisons of keys.
#[derive(Drop)]
pub(crate) struct Comparisons {
    count: u32,
}

impl Model for Comparisons {
    ghost use Rattle.std.specs.Prelude.{ℕ};

    ghost Value = { ℕ };

    ghost view = { λ p. p.count };
}

impl Comparisons {
    // Returns a count of 0.
    pub(crate) fn none() -> Comparisons
        ensures { result ≡ 0 }
    {
        Comparisons { count: 0 }
    }

    // Returns the number of comparisons so far.
    pub(crate) fn count(&self) -> u32
        ensures { result ≡ self.now }
    {
        self.count
    }
}

/// A request's address, port and message ID as one number.
///
/// The address has the highest bits, and the message ID the lowest. So the keys of an address are
/// adjacent in the order of keys, and one comparison of numbers compares all three parts.
#[derive(Clone, Copy)]
pub(crate) struct Key {
    number: u64,
}

impl Key {
    // Makes the key of the request from this endpoint with this message ID.
    pub(crate) fn new(endpoint: Endpoint, id: u16) -> Key
        ensures key { result ≡ key_of endpoint id }
        ensures peer { IsPeer endpoint id }
    {
        let Endpoint { ip, port } = endpoint;
        let Key { number: first } = Key::first_of(ip);
        Key {
            number: first + u64::from(port) * 65_536 + u64::from(id),
        }
    }

    // Returns the least key that a request from this address can have.
    pub(crate) fn first_of(ip: [u8; 4]) -> Key
        ensures key { result ≡ first_key ip }
        ensures bytes { AreBytes ip }
    {
        let [a, b, c, d] = ip;
        Key {
            number: u64::from(u32::from_be_bytes([a, b, c, d])) * 4_294_967_296,
        }
    }

    // Returns the order of two keys, and adds one to `comparisons`. (`is_of` reads a key too, and
    // isn't counted.)
    pub(crate) fn order(&self, other: &Key, comparisons: &mut Comparisons) -> Ordering
        requires { comparisons.old < 4294967295 }
        ensures order { result ≡ key_cmp self.now other.now }
        ensures counted { comparisons.new ≡ comparisons.old + 1 }
    {
        comparisons.count += 1;
        self.number.cmp(&other.number)
    }

    // Returns whether the key is that of a request from this address.
    pub(crate) fn is_of(&self, ip: [u8; 4]) -> bool
        ensures { result ≡ is_key_at ip self.now }
    {
        self.number / 4_294_967_296 == u64::from(u32::from_be_bytes(ip))
    }
}
