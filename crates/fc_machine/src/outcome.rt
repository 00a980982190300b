//! The outcome of a run.
ghost use Rattle.std.specs.Prelude.{length, true, ◌≡◌, ◌≤◌};
ghost use Rattle.fc_help.specs.Helpers.{room_of};
ghost use Rattle.fc_kinds.specs.Runnable.{is_reply_code};
ghost use Rattle.fc_machine.specs.Ran.{meaning_of};

use fc_help::{Readings, Request, Vars};
use fc_kinds::laws::reply_codes_are_known;
use fc_verify::Verified;
use std::marker::Model;

/// The outcome of a run.
///
/// In contracts an outcome is the inputs of its run: each part of the outcome is that part of the
/// meaning of these inputs.
#[derive(Drop)]
pub struct Outcome<'a> {
    pub(crate) program: &'a Verified,
    pub(crate) request: &'a Request,
    pub(crate) found: &'a Vars,
    pub(crate) readings: &'a Readings,
    pub(crate) code: u8,
    pub(crate) reply: &'a [u8],
    pub(crate) after: &'a [u8],
    pub(crate) notice: bool,
    pub(crate) steps: u32,
}

impl<'a> Model for Outcome<'a> {
    ghost use Rattle.fc_machine.specs.Ran.{Ran};

    ghost Value = { Ran };

    ghost use Rattle.fc_machine.specs.Outcome.{IsMadeRight, made_of};

    ghost view = { made_of };

    ghost invariant = { IsMadeRight };
}

impl<'a> Outcome<'a> {
    /// Returns the program that ran.
    pub fn program(&self) -> &'a Verified
        ensures { result.now ≡ self.now.program }
    {
        self.program
    }

    /// Returns the request that the program handled.
    pub fn request(&self) -> &'a Request
        ensures { result.now ≡ self.now.input.request }
    {
        self.request
    }

    /// Returns the variables that the program found.
    pub fn found(&self) -> &'a Vars
        ensures { result.now ≡ self.now.input.vars }
    {
        self.found
    }

    /// Returns the readings that the program was given.
    pub fn readings(&self) -> &'a Readings
        ensures { result.now ≡ self.now.input.readings }
    {
        self.readings
    }

    /// Returns the reply's code, of class 2, 4 or 5.
    ///
    /// It is the method's success, 4.00, 4.03, 4.04 or 5.00.
    pub fn code(&self) -> u8
        ensures code { result ≡ (meaning_of self.now).code }
        ensures known { is_reply_code self.now.input.request.method result ≡ true }
        ensures reply { 64 ≤ result }
    {
        reply_codes_are_known();
        self.code
    }

    /// Returns the reply's bytes, borrowed from the frame.
    ///
    /// They are at most 4,096 for a GET, and 1,024 for a POST.
    pub fn reply(&self) -> &'a [u8]
        ensures reply { result.now ≡ (meaning_of self.now).reply }
        ensures room { length result.now ≤ room_of self.now.input.request.method }
    {
        self.reply
    }

    /// Returns whether the program set the notify flag.
    pub fn notice(&self) -> bool
        ensures { result ≡ (meaning_of self.now).notice }
    {
        self.notice
    }

    /// Returns the variables after the run, borrowed from the frame.
    ///
    /// They have the size of the program's variables.
    pub fn after(&self) -> &'a [u8]
        ensures vars { result.now ≡ (meaning_of self.now).vars }
        ensures size { length result.now ≡ self.now.program.vars_size }
    {
        self.after
    }

    /// Returns the number of steps, including the exit.
    ///
    /// It is at most the program's budget.
    pub fn steps(&self) -> u32
        ensures steps { result ≡ (meaning_of self.now).steps }
        ensures within { result ≤ self.now.program.budget }
    {
        self.steps
    }
}
