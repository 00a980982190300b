//! A slot's variables.
ghost use Rattle.std.specs.Prelude.{◌≡◌, ◌≤◌, ◌↔◌, length, replicate, IsTrue};

use arrayvec::ArrayVec;
use std::marker::Model;

/// Maximum length of a slot's variables, in bytes.
pub const VARS: usize = 256;

/// A slot's variables: 0 to 256 bytes. In contracts they are these bytes.
#[derive(Drop)]
pub struct Vars {
    bytes: ArrayVec<u8, VARS>,
}

impl Model for Vars {
    ghost use Rattle.std.specs.Prelude.{List, ℕ};

    ghost Value = { List ℕ };

    ghost view = { λ v. v.bytes.items };
}

impl Vars {
    /// Makes variables with this number of zero bytes.
    pub fn zeros(size: u16) -> Self
        requires { size ≤ 256 }
        ensures { result ≡ replicate size 0 }
    {
        let mut bytes = ArrayVec::new();
        for _byte in 0..size {
            bytes.push(0);
        }
        Vars { bytes }
    }

    /// Makes variables with these bytes, at most 256.
    pub fn of(bytes: &[u8]) -> Self
        requires { length bytes.now ≤ VARS }
        ensures { result ≡ bytes.now }
    {
        let mut vars = Vars {
            bytes: ArrayVec::new(),
        };
        let _fits = vars.bytes.try_extend_from_slice(bytes);
        vars
    }

    /// Returns the bytes.
    pub fn as_slice(&self) -> &[u8]
        ensures { result.now ≡ self.now }
    {
        self.bytes.as_slice()
    }

    /// Returns whether two sets of variables have the same bytes.
    ///
    /// A commit compares the outcome's and the slot's variables with the ticket's.
    pub fn is(&self, other: &Vars) -> bool
        ensures { IsTrue result ↔ (self.now ≡ other.now) }
    {
        self.bytes.as_slice() == other.bytes.as_slice()
    }

    /// Returns a copy.
    ///
    /// The record of a commit keeps a copy of the variables before the commit.
    pub fn copy(&self) -> Vars
        ensures { result ≡ self.now }
    {
        Vars::of(self.bytes.as_slice())
    }

    /// Overwrites these variables with a copy of others, in place.
    pub fn copy_from(&mut self, other: &Vars)
        ensures { self.new ≡ other.now }
    {
        self.bytes.clear();
        let _fits = self.bytes.try_extend_from_slice(other.bytes.as_slice());
    }
}
