//! The operation of a client's command line: a request, an observation, or a ping.
//!
//! [`operation_of`] builds it from the words that clap found, for `fcreq`. Functions named `.._in`
//! read one option or one group of options from these words.
ghost use Rattle.std.specs.Prelude.{◌≡◌, ◌≢◌, IfErr, IfOk, MatchBool, codes};
ghost use Rattle.clap.specs.Matches.{first_value, found_of, one_text};
ghost use Rattle.fc_fetch.specs.Operations.{HasNoFormat, HasTwoBodies, IsBodyIn, IsForNoRequest, IsForRequest, IsFormatIn, IsFormatOf, IsLimited, IsMethodOf, IsNumberOf, IsObservationIn, IsOperationError, IsOperationIn, IsPingIn, IsShownIn, IsUnlimited, body_at};
ghost use Rattle.fc_fetch.specs.declared.operation.OperationError.TheVariants as operation_error;

use crate::client::FetchOptions;
use crate::observer::{ObservationExtent, Observing};
use crate::ping::Pinging;
use crate::printer::Shown;
use clap::ArgMatches;
use coap_opts::Method;
use thiserror::Error;

/// Command word for an observation instead of a single request.
pub const OBSERVE: &str = "observe";

/// Command word for a ping instead of a request.
pub const PING: &str = "ping";

/// Name of the body's source if no file is named.
const INPUT: &str = "standard input";

/// The source of a request's body.
#[derive(Clone, Copy, PartialEq, Eq)]
pub enum BodySource<'a> {
    /// There is no body, and nothing is read.
    None,
    /// This text.
    Text(&'a str),
    /// The file of this name, to its end.
    File(&'a str),
    /// Standard input, to its end.
    Input,
}

/// A request, with the source of its body and the file for its response.
///
/// `output` names the file for the bytes of a success; without a name the bytes are printed.
#[derive(Clone, Copy)]
pub struct Asking<'a> {
    pub options: FetchOptions<'a>,
    pub body: BodySource<'a>,
    pub output: Option<&'a str>,
}

impl<'a> BodySource<'a> {
    /// Returns the body's source for a method, given whether the input is a terminal.
    ///
    /// A GET or a DELETE whose source is a terminal has no body. Any other source is returned
    /// unchanged.
    pub fn at_terminal(self, method: Method, terminal: bool) -> BodySource<'a>
        ensures { result ≡ body_at terminal method self.entry }
    {
        match self {
            BodySource::Input if terminal => match method {
                Method::Get | Method::Delete => BodySource::None,
                Method::Post | Method::Put => BodySource::Input,
            },
            source => source,
        }
    }
}

impl<'a> Asking<'a> {
    /// Returns this request, given whether standard input is a terminal.
    ///
    /// A GET or a DELETE whose body would be read from a terminal has no body. All else is
    /// unchanged.
    pub fn at_terminal(&self, terminal: bool) -> Asking<'a>
        ensures body { result.body ≡ body_at terminal self.now.options.method self.now.body }
        ensures others { (result.options ≡ self.now.options) × (result.output ≡ self.now.output) }
    {
        Asking {
            options: self.options,
            body: self.body.at_terminal(self.options.method, terminal),
            output: self.output,
        }
    }
}

/// The operation of a command line.
#[derive(Clone, Copy)]
pub enum Operation<'a> {
    /// A request.
    Fetch(Asking<'a>),
    /// An observation.
    Observe(Observing<'a>),
    /// A ping.
    Ping(Pinging<'a>),
}

/// The reason why the words of a command line are not an operation.
#[derive(Clone, Copy, Debug, PartialEq, Eq, Error)]
pub enum OperationError {
    /// An observation with `-N`, `-f`, `-e`, `-t` or `-o`.
    #[error("`observe` is a confirmable GET without a body, and prints lines: it takes none of `-N`, `-f`, `-e`, `-t` and `-o`")]
    Request,
    /// A request with `--count` or `--seconds`.
    #[error("`--count` and `--seconds` go with `observe`")]
    Extent,
    /// No method, no target, or an unknown method.
    #[error("the target is missing: a path, as /r/1 with `--port P`, or a URI, as coap://127.0.0.1:5683/r/1")]
    Missing,
    /// More than one of `-n`, `-e` and `-f`.
    #[error("one of `-n`, `-e` and `-f` says what the body is: leave the others out")]
    Bodies,
    /// A Content-Format that is neither a number below 65536 nor a known name.
    #[error("`-t` is a number of 0 to 65535, or text/plain, application/link-format, application/xml, application/octet-stream, application/exi or application/json")]
    Format,
    /// A ping with an option of requests or of observations.
    #[error("`ping` sends no request: it takes `--port P` or a URI, as coap://127.0.0.1:5683, and none of `-N`, `-f`, `-e`, `-t`, `-o`, `--count` and `--seconds`")]
    Ping,
}

/// Returns the operation that the words of a command line ask for.
///
/// # Errors
/// Returns the reason why the words are no operation.
pub fn operation_of<'a>(matches: &ArgMatches<'a>) -> Result<Operation<'a>, OperationError>
    ensures operation { IfOk result (IsOperationIn (found_of matches.now)) }
    ensures none { IfErr result (IsOperationError (found_of matches.now)) }
{
    let Some(word) = matches.get_str("method") else {
        return Err(OperationError::Missing);
    };
    if word == PING {
        return Ok(Operation::Ping(ping_of(matches)?));
    }
    let Some(target) = matches.get_str("target") else {
        return Err(OperationError::Missing);
    };
    if word == OBSERVE {
        Ok(Operation::Observe(observation_of(matches, target)?))
    } else {
        request_of(matches, word, target)
    }
}

// Returns the ping of a target or a port, or `OperationError::Ping` if an option of another
// operation is given.
fn ping_of<'a>(matches: &ArgMatches<'a>) -> Result<Pinging<'a>, OperationError>
    requires word { first_value (found_of matches.now) (codes "method") ≡ Some (codes "ping") }
    ensures ping { IfOk result (IsPingIn (found_of matches.now)) }
    ensures none { IfErr result (IsOperationError (found_of matches.now)) }
{
    if is_for_request(matches) || is_limited(matches) {
        return Err(OperationError::Ping);
    }
    Ok(Pinging {
        target: matches.get_str("target"),
        port: port_in(matches),
    })
}

// Returns the observation of this target, or `OperationError::Request` if an option of requests is
// given.
fn observation_of<'a>(
    matches: &ArgMatches<'a>,
    target: &'a str,
) -> Result<Observing<'a>, OperationError>
    requires word { first_value (found_of matches.now) (codes "method") ≡ Some (codes "observe") }
    requires target { first_value (found_of matches.now) (codes "target") ≡ Some target.now }
    ensures observation { IfOk result (IsObservationIn (found_of matches.now)) }
    ensures none { IfErr result (IsOperationError (found_of matches.now)) }
{
    if is_for_request(matches) {
        return Err(OperationError::Request);
    }
    Ok(Observing {
        target,
        port: port_in(matches),
        shown: shown_in(matches),
        extent: ObservationExtent {
            count: limit_in(matches, "count"),
            seconds: limit_in(matches, "seconds"),
        },
    })
}

// Returns the request of the method that `word` names, and of this target. Returns the reason if
// the method, the body or the format is bad, or if a limit of observations is given.
fn request_of<'a>(
    matches: &ArgMatches<'a>,
    word: &str,
    target: &'a str,
) -> Result<Operation<'a>, OperationError>
    requires word { first_value (found_of matches.now) (codes "method") ≡ Some word.now }
    requires other { word.now ≢ codes "observe" }
    requires no_ping { word.now ≢ codes "ping" }
    requires target { first_value (found_of matches.now) (codes "target") ≡ Some target.now }
    ensures request { IfOk result (IsOperationIn (found_of matches.now)) }
    ensures none { IfErr result (IsOperationError (found_of matches.now)) }
{
    if is_limited(matches) {
        return Err(OperationError::Extent);
    }
    let Some(method) = method_of(word) else {
        return Err(OperationError::Missing);
    };
    let body = body_in(matches)?;
    let options = FetchOptions {
        confirmable: !matches.get_flag("non"),
        method,
        target,
        port: port_in(matches),
        source: matches.get_str("file").unwrap_or(INPUT),
        content_format: format_in(matches)?,
        shown: shown_in(matches),
    };
    Ok(Operation::Fetch(Asking {
        options,
        body,
        output: matches.get_str("output"),
    }))
}

// Returns whether `-N`, `-f`, `-e`, `-t` or `-o` is given, which only a request takes.
fn is_for_request(matches: &ArgMatches<'_>) -> bool
    ensures { MatchBool result (IsForRequest (found_of matches.now)) (IsForNoRequest (found_of matches.now)) }
{
    matches.get_flag("non")
        || matches.get_str("file").is_some()
        || matches.get_str("body").is_some()
        || matches.get_str("format").is_some()
        || matches.get_str("output").is_some()
}

// Returns whether `--count` or `--seconds` is given, which only an observation takes.
fn is_limited(matches: &ArgMatches<'_>) -> bool
    ensures { MatchBool result (IsLimited (found_of matches.now)) (IsUnlimited (found_of matches.now)) }
{
    limit_in(matches, "count").is_some() || limit_in(matches, "seconds").is_some()
}

// Returns the source of the body: none for `-n`, a text for `-e`, a file for `-f`, and otherwise
// standard input. Returns `OperationError::Bodies` if more than one of the three options is given.
fn body_in<'a>(matches: &ArgMatches<'a>) -> Result<BodySource<'a>, OperationError>
    ensures body { IfOk result (IsBodyIn (found_of matches.now)) }
    ensures none { IfErr result (λ error. (error ≡ operation_error.Bodies) × HasTwoBodies (found_of matches.now)) }
{
    let none = matches.get_flag("no-body");
    match (none, matches.get_str("body"), matches.get_str("file")) {
        (true, None, None) => Ok(BodySource::None),
        (false, Some(text), None) => Ok(BodySource::Text(text)),
        (false, None, Some(name)) => Ok(BodySource::File(name)),
        (false, None, None) => Ok(BodySource::Input),
        _ => Err(OperationError::Bodies),
    }
}

// Returns the number of the Content-Format of `-t`, or `None` if `-t` isn't given. Returns
// `OperationError::Format` if its text is neither a number of 16 bits nor a known name.
fn format_in(matches: &ArgMatches<'_>) -> Result<Option<u16>, OperationError>
    ensures format { IfOk result (IsFormatIn (found_of matches.now)) }
    ensures none { IfErr result (λ error. (error ≡ operation_error.Format) × HasNoFormat (found_of matches.now)) }
{
    let Some(text) = matches.get_str("format") else {
        return Ok(None);
    };
    match format_of(text) {
        Some(format) => Ok(Some(format)),
        None => Err(OperationError::Format),
    }
}

// Returns a Content-Format's number for its name (RFC 7252, section 12.3) or its digits. Returns
// `None` if `text` is neither a known name nor a number of 16 bits.
fn format_of(text: &str) -> Option<u16>
    ensures { IsFormatOf text.now result }
{
    match text {
        "text/plain" => Some(0),
        "application/link-format" => Some(40),
        "application/xml" => Some(41),
        "application/octet-stream" => Some(42),
        "application/exi" => Some(47),
        "application/json" => Some(50),
        digits => digits.parse::<u16>().ok(),
    }
}

// Returns the method with this name in lower case, or `None` if there is none.
fn method_of(word: &str) -> Option<Method>
    ensures { IsMethodOf word.now result }
{
    match word {
        "get" => Some(Method::Get),
        "post" => Some(Method::Post),
        "put" => Some(Method::Put),
        "delete" => Some(Method::Delete),
        _ => None,
    }
}

// Returns the number of `--port`, or `None` if no such number is given.
fn port_in(matches: &ArgMatches<'_>) -> Option<u16>
    ensures { IsNumberOf 16 (one_text (found_of matches.now) (codes "port")) result }
{
    matches.get_one::<u16>("port")
}

// Returns the number of the option `name`, `count` or `seconds`, or `None` if no such number is
// given.
fn limit_in(matches: &ArgMatches<'_>, name: &str) -> Option<u32>
    ensures { IsNumberOf 32 (one_text (found_of matches.now) name.now) result }
{
    matches.get_one::<u32>(name)
}

// Returns the printed form of bytes: text with `--text`, and else hex.
fn shown_in(matches: &ArgMatches<'_>) -> Shown
    ensures { IsShownIn (found_of matches.now) result }
{
    if matches.get_flag("text") {
        Shown::Text
    } else {
        Shown::Hex
    }
}
