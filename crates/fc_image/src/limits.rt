//! The fields of an image's header, and the limits of its numbers.
ghost use Rattle.std.specs.Prelude.{◌≡◌, ◌≤◌};
ghost use Rattle.fc_image.specs.Head.{frames_allowed, is_bad_budget, is_bad_count, is_bad_size, loops_allowed, slots_allowed};
ghost use Rattle.fc_image.specs.Written.{limit_fault};

use fc_isa::{Fault, ImageVersion, Rule};
use std::marker::Model;

/// Returns the maximum number of slots of a program of this version.
fn slots_allowed(version: ImageVersion) -> usize
    ensures is { result ≡ slots_allowed version }
    ensures few { result ≤ 1024 }
{
    match version {
        ImageVersion::One => 512,
        ImageVersion::Two => 1024,
    }
}

/// Returns the maximum depth of stack frames in a program of this version.
fn frames_allowed(version: ImageVersion) -> u8
    ensures is { result ≡ frames_allowed version }
    ensures few { result ≤ 8 }
{
    match version {
        ImageVersion::One => 4,
        ImageVersion::Two => 8,
    }
}

/// Returns whether the programs of a version may have counted loops.
pub fn loops_allowed(version: ImageVersion) -> bool
    ensures { result ≡ loops_allowed version }
{
    match version {
        ImageVersion::One => false,
        ImageVersion::Two => true,
    }
}

/// The header of an image.
///
/// In contracts a header is its version and three numbers, which are within the version's limits.
#[derive(Clone, Copy, PartialEq, Eq)]
pub struct Head {
    version: ImageVersion,
    vars_size: u16,
    count: u16,
    budget: u32,
}

impl Model for Head {
    ghost use Rattle.fc_image.specs.Head.{Head as Stated};
    ghost use Rattle.fc_image.specs.Written.{IsHead};

    ghost Value = { Stated };

    ghost view = { λ h. record { version = h.version; vars_size = h.vars_size; count = h.count; budget = h.budget } };

    ghost invariant = { λ h. IsHead (record { version = h.version; vars_size = h.vars_size; count = h.count; budget = h.budget }) };

    ghost inverse = { λ h. record { version = h.version; vars_size = h.vars_size; count = h.count; budget = h.budget } };
}

impl Head {
    ghost use Rattle.std.specs.Prelude.{IfErr, IfOk, Some, ◌%◌, ◌≡◌, ◌≤◌};
    ghost use Rattle.fc_image.specs.Head.{frames_allowed, slots_allowed};
    ghost use Rattle.fc_image.specs.Written.{IsHead, IsWithinLimits, head_bytes, head_of, limit_fault};

    /// Makes the header with these numbers, if they are within the version's limits.
    ///
    /// `vars_size` is the size of the variables in bytes, `count` the number of slots, and `budget`
    /// the maximum number of steps.
    ///
    /// # Errors
    /// Returns the least rule, 2 to 4, that a number breaks, at slot 0.
    pub fn new(
        vars_size: u16,
        count: usize,
        budget: u32,
        version: ImageVersion,
    ) -> Result<Self, Fault>
        ensures head { IfOk result (IsWithinLimits vars_size count budget version) }
        ensures fault { IfErr result (λ f. (limit_fault (head_of vars_size count budget version) ≡ Some f.rule) × (f.slot ≡ 0)) }
    {
        match broken_limit(version, vars_size, count, budget) {
            Some(rule) => Err(Fault { rule, slot: 0 }),
            None => Ok(Head::of(version, vars_size, count as u16, budget)),
        }
    }

    /// Makes the header of numbers within their limits.
    pub(crate) fn of(version: ImageVersion, vars_size: u16, count: u16, budget: u32) -> Self
        requires { IsHead (record { version = version; vars_size = vars_size; count = count; budget = budget }) }
        ensures { result ≡ record { version = version; vars_size = vars_size; count = count; budget = budget } }
    {
        Head {
            version,
            vars_size,
            count,
            budget,
        }
    }

    /// Returns this header with the budget `budget`, in steps.
    ///
    /// A diagnosis needs such a header to compute a cost above the image's budget.
    pub fn with_budget(&self, budget: u32) -> Self
        requires some { 1 ≤ budget }
        requires limit { budget ≤ 65536 }
        ensures { result ≡ record self.now { budget = budget } }
    {
        Head { budget, ..*self }
    }

    /// Encodes the header as the first sixteen bytes of its image.
    pub fn bytes(&self) -> [u8; 16]
        ensures { result ≡ head_bytes self.now }
    {
        let digit = match self.version {
            ImageVersion::One => b'1',
            ImageVersion::Two => b'2',
        };
        let size = self.vars_size.to_le_bytes();
        let count = self.count.to_le_bytes();
        let budget = self.budget.to_le_bytes();
        [
            b'F', b'C', b'B', digit, size[0], size[1], count[0], count[1], budget[0], budget[1],
            budget[2], budget[3], 0, 0, 0, 0,
        ]
    }

    /// Returns the version of the image's format.
    pub fn version(&self) -> ImageVersion
        ensures { result ≡ self.now.version }
    {
        self.version
    }

    /// Returns the maximum depth of stack frames of the program's calls.
    pub fn frames(&self) -> u8
        ensures value { result ≡ frames_allowed self.now.version }
        ensures limit { result ≤ 8 }
    {
        frames_allowed(self.version)
    }

    /// Returns the size of the variables in bytes.
    pub fn vars_size(&self) -> u16
        ensures value { result ≡ self.now.vars_size }
        ensures limit { result ≤ 256 }
        ensures words { result % 8 ≡ 0 }
    {
        self.vars_size
    }

    /// Returns the number of slots.
    pub fn count(&self) -> u16
        ensures value { result ≡ self.now.count }
        ensures allowed { result ≤ slots_allowed self.now.version }
        ensures some { 1 ≤ result }
        ensures limit { result ≤ 1024 }
    {
        // This call shows the checker the maximum.
        let _most = slots_allowed(self.version);
        self.count
    }

    /// Returns the maximum number of steps of a run.
    pub fn budget(&self) -> u32
        ensures value { result ≡ self.now.budget }
        ensures some { 1 ≤ result }
        ensures limit { result ≤ 65536 }
    {
        self.budget
    }
}

/// Returns the least rule that these numbers break, or `None` if they break none.
fn broken_limit(version: ImageVersion, vars_size: u16, count: usize, budget: u32) -> Option<Rule>
    ensures { result ≡ limit_fault (record { version = version; vars_size = vars_size; count = count; budget = budget }) }
{
    if is_bad_count(version, count) {
        Some(Rule::SlotCount)
    } else if is_bad_size(vars_size) {
        Some(Rule::VarsSize)
    } else if is_bad_budget(budget) {
        Some(Rule::Budget)
    } else {
        None
    }
}

/// Returns whether the number of slots is 0, or above the version's limit.
pub(crate) fn is_bad_count(version: ImageVersion, count: usize) -> bool
    ensures { result ≡ is_bad_count version count }
{
    count == 0 || count > slots_allowed(version)
}

/// Returns whether the variables' size isn't a multiple of 8 up to 256 bytes.
pub(crate) fn is_bad_size(vars_size: u16) -> bool
    ensures { result ≡ is_bad_size vars_size }
{
    vars_size > 256 || vars_size % 8 != 0
}

/// Returns whether the budget isn't 1 to 65,536.
pub(crate) fn is_bad_budget(budget: u32) -> bool
    ensures { result ≡ is_bad_budget budget }
{
    budget == 0 || budget > 65536
}
