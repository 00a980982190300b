//! A program: verified once, and run any number of times, in any frame.
ghost use Rattle.std.specs.Prelude.{◌≡◌, ◌≤◌, ◌⊎◌, length, is_some, true, Option, Some, None, IfOk, IfErr};
ghost use Rattle.fc_help.specs.Helpers.{room_of};
ghost use Rattle.fc_kinds.specs.Meaning.{Program as Accepted};
ghost use Rattle.fc_verify.specs.Accepted.{Accepts};
ghost use Rattle.fc_verify.specs.Judged.{judged};
ghost use Rattle.fc_verify.specs.Refusals.{IsRefusal};
ghost use Rattle.numzela.specs.Programs.{FitsRun, HasLoaded, HasRefused, HasRunProgram, HasRunHeld, IsOutOfRange, IsReported, format_for, method_for, number_in, refusal_for, request_for, verdict_for};
ghost use Rattle.numzela.specs.Held.{boxed, loose_value};

use crate::frame::Frame;
use crate::loose::{Loose, Opaque};
use crate::status::{EMPTY, IN_USE, NO_MEMORY, OK, OUT_OF_RANGE, REFUSED};
use fc_help::request::{PAYLOAD, QUERY};
use fc_help::{Method, Readings, Request, Vars, room_of};
use fc_isa::{Fault, ImageVersion};
use fc_machine::{Outcome, run};
use fc_verify::{Refusal, Verified, verify};
use std::alloc::Global;
use std::marker::Model;
use std::mem::replace;

/// The handle of a program, which owns a box with the program, or nothing.
///
/// A handle of zeros is empty.
#[repr(C)]
#[derive(Drop)]
pub struct Program {
    at: *mut Opaque,
    held: bool,
    ghost value: { Option Accepted },
}

impl Model for Program {
    ghost use Rattle.libc.specs.Heap.{chunk};
    ghost use Rattle.numzela.specs.Held.{owned};
    ghost use Rattle.fc_verify.specs.contracts.verified.Verified.{the_row as verified-row};

    ghost also_owns = { λ p. owned chunk verified-row p.at p.held p.value };
}

impl Program {
    // Returns an empty handle, for `take` to leave.
    fn empty() -> Program
        ensures { result.value ≡ None }
    {
        Program {
            at: std::ptr::null_mut(),
            held: false,
        }
    }

    // Moves a box's pointer into a handle.
    fn hold(loose: Loose<Verified, Global>) -> Program
        ensures { result.value ≡ Some loose.value }
    {
        let Loose { at, alloc: _ } = loose;
        Program {
            at: at as *mut Opaque,
            held: true,
        }
    }

    // Moves a box's pointer out of a handle, or returns `None` if the handle is empty.
    fn release(self, alloc: Global) -> Option<Loose<Verified, Global>>
        ensures { loose_value result ≡ self.value }
    {
        let Program { at, held } = self;
        if held {
            Some(Loose {
                at: at as *mut Verified,
                alloc,
            })
        } else {
            None
        }
    }

    // Makes the handle of a program.
    fn of(verified: Box<Verified>) -> Program
        ensures { result.value ≡ Some verified.value }
    {
        Program::hold(Loose::of(verified))
    }

    // Returns the program that the handle holds, or `None` if the handle is empty.
    fn into_box(self, alloc: Global) -> Option<Box<Verified>>
        ensures { boxed result ≡ self.value }
    {
        match self.release(alloc) {
            Some(loose) => Some(loose.into_box()),
            None => None,
        }
    }

    // Takes the program out of the handle, which is then empty, or returns `None` if the handle was
    // empty. A call that uses the program puts it back.
    fn take(&mut self, alloc: Global) -> Option<Box<Verified>>
        ensures held { boxed result ≡ self.old.value }
        ensures now { self.new.value ≡ None }
    {
        replace(self, Program::empty()).into_box(alloc)
    }

    // Puts a program into the handle, which `take` has left empty.
    fn put(&mut self, verified: Box<Verified>)
        ensures { self.new.value ≡ Some verified.value }
    {
        *self = Program::of(verified);
    }
}

/// The verdict on an image.
///
/// For an accepted image it has the image's version, the program's cost and budget, and the size of
/// its variables. For a refused image it has the rule that the image breaks, and the slot that
/// breaks it. The other numbers are 0.
#[repr(C)]
#[derive(Clone, Copy)]
pub struct Verdict {
    pub version: u32,
    pub cost: u32,
    pub budget: u32,
    pub vars_size: u32,
    pub rule: u32,
    pub slot: u32,
}

/// A request without its bytes.
///
/// It has the slot of the requested resource (any number), the method, and the Content-Format of
/// the payload if `has_format`.
#[repr(C)]
#[derive(Clone, Copy)]
pub struct RequestHead {
    pub slot: u8,
    pub is_post: bool,
    pub has_format: bool,
    pub format: u16,
}

/// A response without its bytes.
///
/// It has the code, whether the program set the notify flag, the number of bytes written to the
/// reply, and the steps of the run.
#[repr(C)]
#[derive(Clone, Copy)]
pub struct ResponseHead {
    pub code: u8,
    pub notify: bool,
    pub size: u16,
    pub steps: u32,
}

/// Verifies an image, and loads its program into an empty handle.
///
/// Returns `OK`, `REFUSED` if the image breaks a rule, `NO_MEMORY` if memory can't be allocated, or
/// `IN_USE` if the handle isn't empty. Unless the result is `OK`, the handle is unchanged. The
/// verdict is written if the result is `OK` or `REFUSED`.
#[unsafe(no_mangle)]
pub extern "C" fn numzela_program_load(
    alloc: Global,
    program: &mut Program,
    image: &[u8],
    verdict: &mut Verdict,
) -> u32
    ensures ok { result ≡ OK → HasLoaded image.now program.new.value verdict.new }
    ensures refused { result ≡ REFUSED → HasRefused image.now verdict.new }
    ensures kept { (result ≡ OK → ⊥) → program.new.value ≡ program.old.value }
    ensures empty { (result ≡ IN_USE → ⊥) → program.old.value ≡ None }
    ensures in_use { result ≡ IN_USE → is_some program.old.value ≡ true }
    ensures status { (result ≡ OK) ⊎ (result ≡ REFUSED) ⊎ (result ≡ NO_MEMORY) ⊎ (result ≡ IN_USE) }
    ensures unwritten { (result ≡ OK → ⊥) → (result ≡ REFUSED → ⊥) → verdict.new ≡ verdict.old }
{
    if let Some(verified) = program.take(alloc) {
        program.put(verified);
        return IN_USE;
    }
    match load(alloc, image) {
        Ok(verified) => {
            *verdict = accepted(&verified);
            program.put(verified);
            OK
        }
        Err(Refusal::Broken(fault)) => {
            *verdict = refused(&fault);
            REFUSED
        }
        Err(Refusal::NoMemory) => NO_MEMORY,
    }
}

// Verifies an image, and returns its program in a box. Returns `Broken` with the fault if the image
// breaks a rule, or `NoMemory` if memory can't be allocated.
fn load(alloc: Global, image: &[u8]) -> Result<Box<Verified>, Refusal>
    ensures accepts { IfOk result (λ loaded. judged image.now ≡ Accepts loaded.value) }
    ensures refused { IfErr result (IsRefusal image.now) }
{
    let verified = verify(alloc, image)?;
    match Box::new(alloc, verified) {
        Ok(loaded) => Ok(loaded),
        Err(_) => Err(Refusal::NoMemory),
    }
}

// Returns the verdict on an accepted image.
fn accepted(verified: &Verified) -> Verdict
    ensures { result ≡ verdict_for verified.now }
{
    Verdict {
        version: version_number(verified.image_version()),
        cost: verified.cost(),
        budget: verified.budget(),
        vars_size: u32::from(verified.vars_size()),
        rule: 0,
        slot: 0,
    }
}

// Returns the number of an image's version, 1 or 2, for C.
fn version_number(version: ImageVersion) -> u32
    ensures { result ≡ number_in version }
{
    match version {
        ImageVersion::One => 1,
        ImageVersion::Two => 2,
    }
}

// Returns the verdict on an image that breaks a rule. A slot from 2^32 on is written as 2^32 - 1.
fn refused(fault: &Fault) -> Verdict
    ensures { result ≡ refusal_for fault.now }
{
    Verdict {
        version: 0,
        cost: 0,
        budget: 0,
        vars_size: 0,
        rule: u32::from(fault.rule.number()),
        slot: fault.slot.min(0xffff_ffff) as u32,
    }
}

/// Runs a program in a frame on a request, sensor input and variables.
///
/// Both handles keep their contents. Writes the variables after the run, the reply and the
/// response, and returns `OK`. Returns `EMPTY` if a handle is empty. Returns `OUT_OF_RANGE` if the
/// query has more than 64 bytes, the payload more than 1,024, `vars` isn't of the program's size,
/// or `reply` has no room for the longest reply. Unless the result is `OK`, nothing is written.
#[unsafe(no_mangle)]
pub extern "C" fn numzela_program_run(
    alloc: Global,
    program: &mut Program,
    frame: &mut Frame,
    request: &RequestHead,
    query: &[u8],
    payload: &[u8],
    readings: &Readings,
    vars: &mut [u8],
    reply: &mut [u8],
    response: &mut ResponseHead,
) -> u32
    ensures ok { result ≡ OK → HasRunHeld program.old.value (request_for request.now query.now payload.now)
        readings.now vars.old vars.new reply.old reply.new response.new }
    ensures program_kept { program.new.value ≡ program.old.value }
    ensures frame_held { is_some frame.new.value ≡ is_some frame.old.value }
    ensures unwritten { (result ≡ OK → ⊥) → (frame.new.value ≡ frame.old.value) × (vars.new ≡ vars.old) × (reply.new ≡ reply.old)
        × (response.new ≡ response.old) }
    ensures empty { result ≡ EMPTY → (program.old.value ≡ None) ⊎ (frame.old.value ≡ None) }
    ensures held { (result ≡ EMPTY → ⊥) → (is_some program.old.value ≡ true) × (is_some frame.old.value ≡ true) }
    ensures status { (result ≡ OK) ⊎ (result ≡ EMPTY) ⊎ (result ≡ OUT_OF_RANGE) }
    ensures range { result ≡ OUT_OF_RANGE → IsOutOfRange program.old.value request.now query.now payload.now vars.old reply.old }
{
    let Some(verified) = program.take(alloc) else {
        return EMPTY;
    };
    let status = run_held(
        alloc, frame, &verified, request, query, payload, readings, vars, reply, response,
    );
    program.put(verified);
    status
}

// Runs a program in the frame of a handle. Returns `EMPTY` if the handle holds no frame, and
// otherwise the status of `run_in`.
fn run_held(
    alloc: Global,
    frame: &mut Frame,
    verified: &Verified,
    request: &RequestHead,
    query: &[u8],
    payload: &[u8],
    readings: &Readings,
    vars: &mut [u8],
    reply: &mut [u8],
    response: &mut ResponseHead,
) -> u32
    ensures ok { result ≡ OK → HasRunProgram verified.now (request_for request.now query.now payload.now)
        readings.now vars.old vars.new reply.old reply.new response.new }
    ensures frame_held { is_some frame.new.value ≡ is_some frame.old.value }
    ensures unwritten { (result ≡ OK → ⊥) → (frame.new.value ≡ frame.old.value) × (vars.new ≡ vars.old) × (reply.new ≡ reply.old)
        × (response.new ≡ response.old) }
    ensures empty { result ≡ EMPTY → frame.old.value ≡ None }
    ensures held { (result ≡ EMPTY → ⊥) → is_some frame.old.value ≡ true }
    ensures range { result ≡ OUT_OF_RANGE → FitsRun verified.now request.now query.now payload.now vars.old reply.old → ⊥ }
    ensures status { (result ≡ OK) ⊎ (result ≡ EMPTY) ⊎ (result ≡ OUT_OF_RANGE) }
{
    let Some(mut machine) = frame.take(alloc) else {
        return EMPTY;
    };
    let status = run_in(
        &mut machine,
        verified,
        request,
        query,
        payload,
        readings,
        vars,
        reply,
        response,
    );
    frame.put(machine);
    status
}

// Runs a program in a frame, writes the results, and returns `OK`. Returns `OUT_OF_RANGE`, and
// writes nothing, if a length isn't in its range.
fn run_in(
    machine: &mut fc_machine::Frame,
    verified: &Verified,
    request: &RequestHead,
    query: &[u8],
    payload: &[u8],
    readings: &Readings,
    vars: &mut [u8],
    reply: &mut [u8],
    response: &mut ResponseHead,
) -> u32
    ensures ok { result ≡ OK → HasRunProgram verified.now (request_for request.now query.now payload.now)
        readings.now vars.old vars.new reply.old reply.new response.new }
    ensures unwritten { (result ≡ OK → ⊥) → (machine.new ≡ machine.old) × (vars.new ≡ vars.old) × (reply.new ≡ reply.old)
        × (response.new ≡ response.old) }
    ensures range { result ≡ OUT_OF_RANGE → FitsRun verified.now request.now query.now payload.now vars.old reply.old → ⊥ }
    ensures status { (result ≡ OK) ⊎ (result ≡ OUT_OF_RANGE) }
{
    let method = method_for(request.is_post);
    let format = format_for(request.has_format, request.format);
    let size = usize::from(verified.vars_size());
    if query.len() > QUERY
        || payload.len() > PAYLOAD
        || vars.len() != size
        || reply.len() < room_of(method)
    {
        return OUT_OF_RANGE;
    }
    let asked = Request::new(method, request.slot, format, query, payload);
    let found = Vars::of(vars);
    let outcome = run(machine, verified, &asked, &found, readings);
    write_outcome(&outcome, vars, reply, response);
    OK
}

// Returns the method of a request from C.
fn method_for(is_post: bool) -> Method
    ensures { result ≡ method_for is_post }
{
    if is_post { Method::Post } else { Method::Get }
}

// Returns the Content-Format of a request from C: `format` if `has_format`, otherwise `None`.
fn format_for(has_format: bool, format: u16) -> Option<u16>
    ensures { result ≡ format_for has_format format }
{
    if has_format { Some(format) } else { None }
}

// Writes the outcome of a run: the variables, the reply to the start of `reply`, and the rest to
// `response`.
fn write_outcome(outcome: &Outcome, vars: &mut [u8], reply: &mut [u8], response: &mut ResponseHead)
    requires vars { length vars.old ≡ outcome.now.program.vars_size }
    requires room { room_of outcome.now.input.request.method ≤ length reply.old }
    ensures { IsReported outcome.now vars.new reply.old reply.new response.new }
{
    let bytes = outcome.reply();
    reply[..bytes.len()].copy_from_slice(bytes);
    vars.copy_from_slice(outcome.after());
    *response = ResponseHead {
        code: outcome.code(),
        notify: outcome.notice(),
        size: bytes.len() as u16,
        steps: outcome.steps(),
    };
}

/// Frees the program of a handle, and leaves the handle empty.
///
/// An empty handle stays empty.
#[unsafe(no_mangle)]
pub extern "C" fn numzela_program_free(alloc: Global, program: &mut Program)
    ensures { program.new.value ≡ None }
{
    let _freed = program.take(alloc);
}
