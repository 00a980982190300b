//! The data of snapshots, and tickets.
ghost use Rattle.std.specs.Prelude.{◌≡◌, ◌↔◌, IsTrue, length};
ghost use Rattle.fc_kinds.specs.Meaning.{Program};
ghost use Rattle.fc_ticket.specs.Runs.{IsRunOf, request_of, run_of, ticket_of};
ghost use Rattle.fc_ticket.specs.Taken.{IsSized, ticket_with};

use crate::job::{Ask, Job, Origin};
use coap_msg::Token;
use coap_opts::Block;
use fc_help::{Method, NO_READINGS, Readings, Request, Vars, are_same_readings};
use fc_machine::Outcome;
use fc_verify::Verified;
use std::marker::Model;

/// The data that a snapshot writes: data of its job, and of the slot.
///
/// Together with the handle of the program, which is the snapshot's result, this data is a ticket.
/// A snapshot overwrites the data of an earlier one. Later installs and commits don't change the
/// data.
#[derive(Drop)]
pub struct SlotSnapshot {
    origin: Origin,
    turn: Option<u64>,
    token: Token,
    request: Request,
    block: Option<Block>,
    observe: Option<u32>,
    serial: u64,
    version: u64,
    vars: Vars,
    readings: Readings,
}

impl Model for SlotSnapshot {
    ghost use Rattle.fc_ticket.specs.Taken as spec;

    ghost Value = { spec.SlotSnapshot };

    ghost view = { λ f. record {
      origin = f.origin;
      turn = f.turn;
      token = f.token;
      request = f.request;
      block = f.block;
      observe = f.observe;
      serial = f.serial;
      version = f.version;
      vars = f.vars;
      readings = f.readings;
    } };
}

impl SlotSnapshot {
    /// Makes a value for a snapshot to write over.
    pub fn blank() -> SlotSnapshot {
        SlotSnapshot {
            origin: Origin::default(),
            turn: None,
            token: Token::new(),
            request: Request::new(Method::Get, 0, None, &[], &[]),
            block: None,
            observe: None,
            serial: 0,
            version: 0,
            vars: Vars::zeros(0),
            readings: NO_READINGS,
        }
    }

    /// Writes the data of a job, its readings and its slot over this snapshot.
    ///
    /// The slot is at this serial, and has a program of this version with these variables.
    pub fn write(&mut self, job: &Job, readings: &Readings, serial: u64, version: u64, vars: &Vars)
        ensures { (p : Program) →
            ticket_with p self.new ≡ ticket_of job.now readings.now serial (record { program = p; version = version; vars = vars.now }) }
    {
        self.origin = job.origin;
        self.turn = job.turn;
        self.token = copy_token(&job.token);
        write_request(&job.ask, &mut self.request);
        self.block = job.block;
        self.observe = job.observe;
        self.serial = serial;
        self.version = version;
        self.vars.copy_from(vars);
        self.readings = *readings;
    }
}

// Returns a copy of a token.
fn copy_token(token: &Token) -> Token
    ensures { result ≡ token.now }
{
    let mut copy = Token::new();
    let _fits = copy.try_extend_from_slice(token.as_slice());
    copy
}

// Writes the request that a job asks a program to answer over `request`. For a job that runs no
// program, writes an empty GET of slot 0.
fn write_request(ask: &Ask, request: &mut Request)
    ensures { request.new ≡ request_of ask.now }
{
    match ask {
        Ask::Run(asked) => request.copy_from(asked),
        _ => request.write(Method::Get, 0, None, &[], &[]),
    }
}

/// A ticket: a view of a program, and of the data of a snapshot.
///
/// If one snapshot gave both, the ticket is the state of the slot that the snapshot found, for the
/// snapshot's job. A commit compares the ticket's program, version, variables and serial with those
/// of the slot. Later installs and commits don't change the ticket.
#[derive(Drop)]
pub struct Ticket<'a> {
    program: &'a Verified,
    found: &'a SlotSnapshot,
}

impl<'a> Model for Ticket<'a> {
    ghost use Rattle.fc_ticket.specs.Tickets as spec;

    ghost Value = { spec.Ticket };

    ghost use Rattle.fc_ticket.specs.Taken.{IsSized, ticket_with};

    ghost view = { λ t. ticket_with t.program.now t.found.now };

    ghost invariant = { λ t. IsSized t.program.now t.found.now };
}

impl<'a> Ticket<'a> {
    /// Makes the ticket of a snapshot's program and data.
    pub fn of(program: &'a Verified, found: &'a SlotSnapshot) -> Ticket<'a>
        requires { IsSized program.now found.now }
        ensures { result ≡ ticket_with program.now found.now }
    {
        Ticket { program, found }
    }

    /// Returns the origin of the job that took the snapshot.
    pub fn origin(&self) -> Origin
        ensures { result ≡ self.now.origin }
    {
        let found = self.found;
        found.origin
    }

    /// Returns the number of the lease of the job, or `None` for a request's job.
    pub fn turn(&self) -> Option<u64>
        ensures { result ≡ self.now.turn }
    {
        let found = self.found;
        found.turn
    }

    /// Returns the job's request.
    pub fn request(&self) -> &'a Request
        ensures { result.now ≡ self.now.request }
    {
        let found = self.found;
        &found.request
    }

    /// Returns the block that the request names, or `None` if it names none.
    pub fn block(&self) -> Option<Block>
        ensures { result ≡ self.now.block }
    {
        let found = self.found;
        found.block
    }

    /// Returns the token of the job's request.
    pub fn token(&self) -> &'a Token
        ensures { result.now ≡ self.now.token }
    {
        let found = self.found;
        &found.token
    }

    /// Returns the value of the request's Observe option, or `None` if there is none.
    pub fn observe(&self) -> Option<u32>
        ensures { result ≡ self.now.observe }
    {
        let found = self.found;
        found.observe
    }

    /// Returns the slot's serial at the snapshot.
    pub fn serial(&self) -> u64
        ensures { result ≡ self.now.serial }
    {
        let found = self.found;
        found.serial
    }

    /// Returns the program that the snapshot found.
    pub fn program(&self) -> &'a Verified
        ensures { result.now ≡ self.now.found.program }
    {
        self.program
    }

    /// Returns the version of the program that the snapshot found.
    pub fn version(&self) -> u64
        ensures { result ≡ self.now.found.version }
    {
        let found = self.found;
        found.version
    }

    /// Returns the variables that the snapshot found.
    pub fn vars(&self) -> &'a Vars
        ensures vars { result.now ≡ self.now.found.vars }
        ensures size { length result.now ≡ self.now.found.program.vars_size }
    {
        let found = self.found;
        &found.vars
    }

    /// Returns the readings that were passed to the snapshot.
    pub fn readings(&self) -> &'a Readings
        ensures { result.now ≡ self.now.readings }
    {
        let found = self.found;
        &found.readings
    }
}

/// Returns whether an outcome is that of a ticket's run, and the ticket isn't newer than the slot.
///
/// The outcome is of the ticket's program, request, variables and readings. The ticket's serial
/// isn't above `serial`, the slot's. If the result is `false`, a commit or a notification returns
/// `Stranger`.
pub fn is_run_of(outcome: &Outcome<'_>, ticket: &Ticket<'_>, serial: u64) -> bool
    ensures of { IsTrue result ↔ IsRunOf outcome.now ticket.now serial }
    ensures run { IsTrue result → outcome.now ≡ run_of ticket.now }
{
    outcome.program().is(ticket.program())
        && outcome.request().is(ticket.request())
        && outcome.found().is(ticket.vars())
        && are_same_readings(outcome.readings(), ticket.readings())
        && ticket.serial() <= serial
}
