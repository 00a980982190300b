//! The input of a program in a run, in hex digits.
ghost use Rattle.std.specs.Prelude.{IfOk, length, option_copied, ◌≡◌, ◌≤◌};
ghost use Rattle.hex.specs.Hex.{decode_of};
ghost use Rattle.fc_help.specs.Region.{no_readings, padded};
ghost use Rattle.fc_tools.specs.Runs.{AreHex, IsAskedBy, SpellReadings};

use fc_cli::Status;
use fc_help::readings::READINGS;
use fc_help::request::{PAYLOAD, QUERY};
use fc_help::vars::VARS;
use fc_help::{Method, NO_READINGS, Readings, Request, Vars};
use hex::FromHexError;
use std::alloc::Global;
use std::fmt;
use thiserror::Error;

/// The request, the variables and the readings for a program.
#[derive(Drop)]
pub struct Asked {
    /// A GET or POST of slot 0, whose payload has no Content-Format.
    pub request: Request,
    /// The variables, or `None` if none are given: they are zeros then.
    pub vars: Option<Vars>,
    /// The readings of the device.
    pub readings: Readings,
}

/// A part of the input that is given in hex digits.
#[derive(Clone, Copy, Debug, PartialEq, Eq)]
pub enum RunPart {
    Payload,
    Query,
    Variables,
    Readings,
}

impl fmt::Display for RunPart {
    fn fmt<W: fmt::Write>(&self, f: &mut fmt::Formatter<W>) -> fmt::Result {
        f.write_str(match self {
            RunPart::Payload => "the payload's",
            RunPart::Query => "the query's",
            RunPart::Variables => "the variables'",
            RunPart::Readings => "the readings'",
        })
    }
}

/// The reason why the input is refused.
#[derive(Clone, Copy, Debug, PartialEq, Eq, Drop, Error)]
pub enum AskedError {
    /// The part isn't hex digits.
    #[error("{0} bytes are to be hex digits, two a byte")]
    NoHex(RunPart),
    /// The part has too many bytes.
    #[error("{part} bytes are more than {most}")]
    TooLong { part: RunPart, most: usize },
    /// Memory couldn't be allocated.
    #[error("out of memory")]
    NoMemory,
}

impl AskedError {
    /// Returns the status of a command with this error.
    pub fn status(self) -> Status {
        match self {
            AskedError::NoHex(_) | AskedError::TooLong { .. } => Status::Bad,
            AskedError::NoMemory => Status::Failed,
        }
    }
}

impl Asked {
    /// Parses a GET or POST of slot 0 with this payload and query.
    ///
    /// Also parses the variables, if they are given. Payload, query and variables are hex digits of
    /// either case. The readings are zeros.
    ///
    /// # Errors
    /// Returns an error if a part isn't hex digits, or has too many bytes for a request (payload
    /// 1,024, query 64) or a program (variables 256); or if memory can't be allocated.
    pub fn new(
        alloc: Global,
        method: Method,
        payload: &str,
        query: &str,
        vars: Option<&str>,
    ) -> Result<Asked, AskedError>
        ensures request { IfOk result (λ a. IsAskedBy method payload.now query.now a.request) }
        ensures vars { IfOk result (λ a. AreHex (option_copied vars.entry) a.vars) }
        ensures readings { IfOk result (λ a. a.readings ≡ no_readings) }
    {
        let payload = bytes(alloc, RunPart::Payload, payload, PAYLOAD)?;
        let query = bytes(alloc, RunPart::Query, query, QUERY)?;
        let vars = variables(alloc, vars)?;
        Ok(Asked {
            request: Request::new(method, 0, None, &query, &payload),
            vars,
            readings: NO_READINGS,
        })
    }

    /// Returns this input with other readings, which `digits` encode.
    ///
    /// The hex digits, of either case, encode at most 64 bytes, and zeros follow.
    ///
    /// # Errors
    /// Returns an error if `digits` aren't hex digits, or encode more bytes; or if memory can't be
    /// allocated.
    pub fn with_readings(self, alloc: Global, digits: &str) -> Result<Asked, AskedError>
        ensures spelled { IfOk result (λ a. SpellReadings digits.now a.readings) }
        ensures rest { IfOk result (λ a. a ≡ record self { readings = a.readings }) }
    {
        let readings = readings(alloc, digits)?;
        Ok(Asked { readings, ..self })
    }
}

/// Parses readings in hex digits; zeros follow fewer than 64 bytes.
///
/// # Errors
/// Returns an error if `digits` aren't hex digits, or encode more than 64 bytes; or if memory can't
/// be allocated.
fn readings(alloc: Global, digits: &str) -> Result<Readings, AskedError>
    ensures { IfOk result (SpellReadings digits.now) }
{
    let bytes = bytes(alloc, RunPart::Readings, digits, READINGS)?;
    Ok(padded(&bytes))
}

/// Returns readings that begin with these bytes, followed by zeros.
fn padded(bytes: &[u8]) -> Readings
    requires { length bytes.now ≤ 64 }
    ensures { result ≡ padded 64 bytes.now }
{
    let mut readings = NO_READINGS;
    readings[..bytes.len()].copy_from_slice(bytes);
    readings
}

/// Parses the variables in hex digits, or returns `None` if they aren't given.
///
/// # Errors
/// Returns an error if `digits` aren't hex digits, or encode more than 256 bytes; or if memory
/// can't be allocated.
fn variables(alloc: Global, digits: Option<&str>) -> Result<Option<Vars>, AskedError>
    ensures { IfOk result (AreHex (option_copied digits.entry)) }
{
    match digits {
        Some(digits) => {
            let bytes = bytes(alloc, RunPart::Variables, digits, VARS)?;
            Ok(Some(Vars::of(&bytes)))
        }
        None => Ok(None),
    }
}

/// Parses hex digits into at most `most` bytes.
///
/// # Errors
/// Returns `NoHex` if `digits` aren't hex digits, and `TooLong` if they encode more bytes; both
/// name `part`. Returns `NoMemory` if memory can't be allocated.
fn bytes(alloc: Global, part: RunPart, digits: &str, most: usize) -> Result<Vec<u8>, AskedError>
    ensures bytes { IfOk result (λ v. decode_of digits.now ≡ Ok v.items) }
    ensures limit { IfOk result (λ v. length v.items ≤ most) }
{
    match hex::decode(alloc, digits) {
        Ok(bytes) if bytes.len() <= most => Ok(bytes),
        Ok(_) => Err(AskedError::TooLong { part, most }),
        Err(FromHexError::OutOfMemory) => Err(AskedError::NoMemory),
        Err(_) => Err(AskedError::NoHex(part)),
    }
}
