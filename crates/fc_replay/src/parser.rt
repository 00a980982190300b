//! Events as lines of text: a name, and its parts as `key=value`, in any order.
//!
//! [`crate::replay::replay`] reads lists of such lines. The contracts say what an accepted line
//! means. They don't say which lines are refused.
ghost use Rattle.std.specs.List.{slice_split};
ghost use Rattle.std.specs.Prelude.{◌≡◌, ◌==◌, ◌≤◌, ◌++◌, ◌∷◌, ◌^◌, length, codes, IfOk, IfSome};
ghost use Rattle.fc_registry.specs.Slots.{last_serial};
ghost use Rattle.fc_replay.specs.Listed.{HasData, HasEndpoint, HasFlag, HasLimits, HasNumber, HasPart, HasPolicy, HasSeconds, AreOfEvent, IsBeginOf, SaysBegin, SaysPolicy, IsEventOf, comma, equals, line_words, texts};

use coap_msg::Endpoint;
use fc_front::{DEFAULT_POLICY, Policy};
use fc_help::NO_READINGS;
use fc_lines::emission::endpoint;
use fc_lines::hexadecimal::decode;
use fc_lines::line::{LineError, byte, number, readings};
use fc_lines::policy::{DEFAULT_SECONDS, policy};
use fc_registry::LAST_SERIAL;
use fc_server::Begin;
use fc_ticket::SLOTS;
use fc_world::Event;
use std::alloc::{AllocError, Global};
use std::marker::Model;

/// The words of a line, and the datagram in the word `data=hex`, if there is one.
#[derive(Drop)]
pub struct ListedEvent<'a> {
    words: Vec<&'a str>,
    datagram: Option<Vec<u8>>,
}

impl<'a> Model for ListedEvent<'a> {
    ghost use Rattle.std.specs.Prelude.{IfSome};
    ghost use Rattle.std.specs.Option.{option_map};
    ghost use Rattle.fc_replay.specs.Listed.{Line, HasData, texts};

    ghost Value = { Line };

    ghost view = { λ l. record { words = texts l.words.items; datagram = option_map (λ v. v.items) l.datagram } };

    ghost invariant = { λ l. IfSome l.datagram (λ v. HasData (texts l.words.items) v.items) };
}

impl<'a> ListedEvent<'a> {
    /// Reads an event's line, whose words are separated by single spaces.
    ///
    /// # Errors
    /// Returns `Bad` if the line is no event or its data aren't hex digits, and `NoMemory` if
    /// memory can't be allocated.
    pub fn read(alloc: Global, line: &'a [u8]) -> Result<ListedEvent<'a>, LineError>
        ensures { IfOk result (λ l. l.words ≡ line_words line.now) }
    {
        let words = words(alloc, line)?;
        let datagram = datagram(alloc, &words)?;
        let listed = ListedEvent { words, datagram };
        if listed.event().is_none() {
            return Err(LineError::Bad);
        }
        Ok(listed)
    }

    /// Returns the event of the line, or `None` if the line is no event.
    pub fn event(&self) -> Option<Event<'_>>
        ensures { IfSome result (AreOfEvent self.now.words) }
    {
        let [name, parts @ ..] = self.words.as_slice() else {
            return None;
        };
        match parts.len() {
            1 => with_one(name, parts),
            2 => with_two(name, parts),
            3 => with_three(name, parts, &self.datagram),
            4 => with_four(name, parts),
            _ => None,
        }
    }
}

/// Parses a server's initial state from `Begin serial=S id=I`.
///
/// Three more parts may give the server's policy: `exchanges=N`, `share=N`, and `managers=` with up
/// to four networks `A.B.C.D/BITS` separated by commas. A further part, `confirm-after=N`, may give
/// the seconds until a notification is confirmable, by default 86,400. The parts may be in any
/// order. Returns `None` if the line has none of these forms.
///
/// # Errors
/// Returns `AllocError` if memory can't be allocated.
pub fn begin_in(alloc: Global, line: &[u8]) -> Result<Option<Begin>, AllocError>
    ensures { IfOk result (λ found. IfSome found (SaysBegin (line_words line.now))) }
{
    match words(alloc, line) {
        Ok(words) => begin_of(alloc, &words),
        Err(LineError::Bad) => Ok(None),
        Err(LineError::NoMemory) => Err(AllocError),
    }
}

// Returns the initial state that a line's words give, or `None` if the words don't have the form
// that `begin_in` accepts. Returns an error if memory can't be allocated.
fn begin_of(alloc: Global, words: &[&str]) -> Result<Option<Begin>, AllocError>
    ensures { IfOk result (λ found. IfSome found (SaysBegin (texts words.now))) }
{
    let [name, parts @ ..] = words else {
        return Ok(None);
    };
    match policy_of(alloc, parts)? {
        Some(policy) => Ok(begin_with(name, parts, policy)),
        None => Ok(None),
    }
}

// Returns the initial state with this policy, and with the parts `serial=S` and `id=I`. Returns
// `None` if the name isn't `Begin`, or if one of these parts is missing or malformed.
fn begin_with(name: &str, parts: &[&str], policy: Policy) -> Option<Begin>
    requires { HasPolicy (texts parts.now) policy }
    ensures { IfSome result (IsBeginOf name.now (texts parts.now)) }
{
    match name {
        "Begin" => Some(Begin {
            serial: serial(parts)?,
            id: short(parts, "id")?,
            policy,
        }),
        _ => None,
    }
}

// Returns the default policy if there are two parts, and the policy that the parts give if there
// are five or six. Returns `None` for any other number of parts, or if five or six parts give no
// policy. Returns an error if memory can't be allocated.
fn policy_of(alloc: Global, parts: &[&str]) -> Result<Option<Policy>, AllocError>
    ensures { IfOk result (λ found. IfSome found (HasPolicy (texts parts.now))) }
{
    if parts.len() == 2 {
        return Ok(Some(DEFAULT_POLICY));
    }
    match seconds(parts) {
        Some(seconds) => policy_said(alloc, parts, seconds),
        None => Ok(None),
    }
}

// Returns the seconds after which a notification is confirmable. These are the default if there are
// five parts, and the number of the part `confirm-after=N` if there are six. Returns `None` for any
// other number of parts, or if that part is missing or malformed.
fn seconds(parts: &[&str]) -> Option<u64>
    ensures { IfSome result (HasSeconds (texts parts.now)) }
{
    match parts.len() {
        5 => Some(DEFAULT_SECONDS),
        6 => long(parts, "confirm-after"),
        _ => None,
    }
}

// Returns the policy with these seconds, and with the networks and limits of the parts `managers=`,
// `exchanges=N` and `share=N`. Returns `None` if one of these parts is missing or malformed, or if
// no policy has these values. Returns an error if memory can't be allocated.
fn policy_said(alloc: Global, parts: &[&str], seconds: u64) -> Result<Option<Policy>, AllocError>
    requires { HasSeconds (texts parts.now) seconds }
    ensures { IfOk result (λ found. IfSome found (SaysPolicy (texts parts.now))) }
{
    let Some(list) = value(parts, "managers") else {
        return Ok(None);
    };
    let networks = between_commas(alloc, list)?;
    Ok(policy_with(parts, list, &networks, seconds))
}

// Returns the texts in `list`, the value of `managers=`, which are separated by single commas.
// Returns an error if memory can't be allocated.
fn between_commas(alloc: Global, list: &str) -> Result<Vec<&str>, AllocError>
    ensures { IfOk result (λ v. texts v.items ≡ slice_split (λ b. b == comma) list.now) }
{
    match list.split(',').collect(alloc) {
        Ok(parts) => Ok(parts),
        Err(_) => Err(AllocError),
    }
}

// Returns the policy with these networks and seconds, and with the limits in the parts
// `exchanges=N` and `share=N`. Returns `None` if one of these parts is missing or malformed, or if
// no policy has these values.
fn policy_with(parts: &[&str], list: &str, networks: &[&str], seconds: u64) -> Option<Policy>
    requires networks { texts networks.now ≡ slice_split (λ b. b == comma) list.now }
    requires seconds { HasSeconds (texts parts.now) seconds }
    ensures { IfSome result (HasLimits (texts parts.now) (slice_split (λ b. b == comma) list.now)) }
{
    let exchanges = index(parts, "exchanges")?;
    let share = index(parts, "share")?;
    policy(networks, exchanges, share, seconds)
}

// Returns the number of the part `serial=N`, or `None` if there is none or slots can't begin with
// that serial.
fn serial(parts: &[&str]) -> Option<u64>
    ensures { IfSome result (λ n. HasNumber (texts parts.now) (codes "serial") (2 ^ 64) n × (n ≤ last_serial)) }
{
    let serial = long(parts, "serial")?;
    if serial <= LAST_SERIAL {
        Some(serial)
    } else {
        None
    }
}

// Returns the words of a line, which are separated by single spaces. Returns `Bad` if the line
// isn't UTF-8, and `NoMemory` if memory can't be allocated.
fn words(alloc: Global, line: &[u8]) -> Result<Vec<&str>, LineError>
    ensures { IfOk result (λ v. texts v.items ≡ line_words line.now) }
{
    let Ok(text) = str::from_utf8(line) else {
        return Err(LineError::Bad);
    };
    match text.split(' ').collect(alloc) {
        Ok(words) => Ok(words),
        Err(_) => Err(LineError::NoMemory),
    }
}

// Returns the datagram in the word `data=hex` of a line, or `None` if there is no such word.
// Returns `Bad` if the text after `data=` isn't hex digits, and `NoMemory` if memory can't be
// allocated.
fn datagram(alloc: Global, words: &[&str]) -> Result<Option<Vec<u8>>, LineError>
    ensures { IfOk result (λ found. IfSome found (λ v. HasData (texts words.now) v.items)) }
{
    match value(words, "data") {
        None => Ok(None),
        Some(digits) => Ok(Some(decode(alloc, digits.as_bytes())?)),
    }
}

// Returns the value of the first part `key=value`, or `None` if no part has this key.
fn value<'a>(parts: &[&'a str], key: &str) -> Option<&'a str>
    ensures { IfSome result (λ value. HasPart (texts parts.now) key.now value.now) }
{
    parts.iter().copied().find_map(|part| value_of(part, key))
}

// Returns the text of a part after `key=`, or `None` if the part doesn't begin with `key=`.
fn value_of<'a>(part: &'a str, key: &str) -> Option<&'a str>
    ensures { IfSome result (λ value. part.now ≡ key.now ++ (equals ∷ value.now)) }
{
    part.strip_prefix(key)?.strip_prefix("=")
}

// Returns the number of the part `key=N`, or `None` if there is none below 2^64.
fn long(parts: &[&str], key: &str) -> Option<u64>
    ensures { IfSome result (HasNumber (texts parts.now) key.now (2 ^ 64)) }
{
    number(value(parts, key)?.as_bytes())
}

// Returns the number of the part `key=N`, such as a job's, or `None` if there is none that fits
// into a `usize`.
fn index(parts: &[&str], key: &str) -> Option<usize>
    ensures { IfSome result (HasNumber (texts parts.now) key.now (2 ^ 64)) }
{
    usize::try_from(long(parts, key)?).ok()
}

// Returns the number of the part `key=N`, or `None` if there is none below 65,536.
fn short(parts: &[&str], key: &str) -> Option<u16>
    ensures { IfSome result (HasNumber (texts parts.now) key.now 65536) }
{
    u16::try_from(long(parts, key)?).ok()
}

// Returns the number of the part `key=N`, or `None` if there is none below 256.
fn octet(parts: &[&str], key: &str) -> Option<u8>
    ensures { IfSome result (HasNumber (texts parts.now) key.now 256) }
{
    byte(value(parts, key)?.as_bytes())
}

// Returns the number of the part `slot=N`, or `None` if there is none below 64.
fn slot(parts: &[&str]) -> Option<u8>
    ensures { IfSome result (HasNumber (texts parts.now) (codes "slot") 64) }
{
    let slot = octet(parts, "slot")?;
    if slot < SLOTS { Some(slot) } else { None }
}

// Returns `false` for a part `key=0` and `true` for a part `key=1`, or `None` if there is neither.
fn flag(parts: &[&str], key: &str) -> Option<bool>
    ensures { IfSome result (HasFlag (texts parts.now) key.now) }
{
    match value(parts, key)? {
        "0" => Some(false),
        "1" => Some(true),
        _ => None,
    }
}

// Returns the endpoint of peer N in the part `ep=N`, or `None` if there is no N below 256.
fn peer(parts: &[&str]) -> Option<Endpoint>
    ensures { IfSome result (HasEndpoint (texts parts.now)) }
{
    Some(endpoint(octet(parts, "ep")?))
}

// Returns the event with this name and this one part, or `None` if no event has them.
fn with_one<'a>(name: &str, parts: &[&str]) -> Option<Event<'a>>
    requires { length parts.now ≡ 1 }
    ensures { IfSome result (IsEventOf name.now (texts parts.now)) }
{
    match name {
        "Remove" => Some(Event::Remove {
            job: index(parts, "job")?,
        }),
        "Refuse" => Some(Event::Refuse {
            job: index(parts, "job")?,
        }),
        "Receipt" => Some(Event::Receipt {
            job: index(parts, "job")?,
        }),
        "Raise" => Some(Event::Raise {
            job: index(parts, "job")?,
        }),
        "Tick" => Some(Event::Tick {
            now: long(parts, "now")?,
        }),
        "Lose" => Some(Event::Lose {
            job: index(parts, "job")?,
        }),
        _ => None,
    }
}

// Returns the event with this name and these two parts, or `None` if no event has them.
fn with_two<'a>(name: &str, parts: &[&str]) -> Option<Event<'a>>
    requires { length parts.now ≡ 2 }
    ensures { IfSome result (IsEventOf name.now (texts parts.now)) }
{
    match name {
        "Due" => Some(Event::Due {
            shard: octet(parts, "shard")?,
            now: long(parts, "now")?,
        }),
        "Fire" => Some(Event::Fire {
            slot: slot(parts)?,
            now: long(parts, "now")?,
        }),
        "ShardTick" => Some(Event::ShardTick {
            shard: octet(parts, "shard")?,
            now: long(parts, "now")?,
        }),
        _ => of_job(name, parts, index(parts, "job")?),
    }
}

// Returns the event with this name, `job` and one more part, or `None` if no event has them.
fn of_job<'a>(name: &str, parts: &[&str], job: usize) -> Option<Event<'a>>
    requires count { length parts.now ≡ 2 }
    requires job { HasNumber (texts parts.now) (codes "job") (2 ^ 64) job }
    ensures { IfSome result (IsEventOf name.now (texts parts.now)) }
{
    match name {
        "Peek" => Some(Event::Peek {
            job,
            slot: octet(parts, "slot")?,
        }),
        "Take" => Some(Event::Take {
            job,
            memory: flag(parts, "memory")?,
            readings: NO_READINGS,
        }),
        "Commit" => Some(Event::Commit {
            job,
            now: long(parts, "now")?,
        }),
        "Install" => Some(Event::Install {
            job,
            memory: flag(parts, "memory")?,
        }),
        "Answer" => Some(Event::Answer {
            job,
            now: long(parts, "now")?,
        }),
        "Fresh" => Some(Event::Fresh {
            job,
            now: long(parts, "now")?,
        }),
        "GiveUp" => Some(Event::GiveUp {
            job,
            now: long(parts, "now")?,
        }),
        _ => None,
    }
}

// Returns the event with this name and these three parts, or `None` if no event has them.
// `datagram` has the bytes of the part `data=hex`, if there is one.
fn with_three<'a>(name: &str, parts: &[&str], datagram: &'a Option<Vec<u8>>) -> Option<Event<'a>>
    requires count { length parts.now ≡ 3 }
    requires datagram { IfSome datagram.now (λ v. HasData (name.now ∷ texts parts.now) v.items) }
    ensures { IfSome result (IsEventOf name.now (texts parts.now)) }
{
    match name {
        "Deliver" => match datagram {
            Some(bytes) => Some(Event::Deliver {
                now: long(parts, "now")?,
                endpoint: peer(parts)?,
                bytes,
            }),
            None => None,
        },
        "Take" => Some(Event::Take {
            job: index(parts, "job")?,
            memory: flag(parts, "memory")?,
            readings: readings(value(parts, "readings")?.as_bytes())?,
        }),
        "Note" => Some(Event::Note {
            job: index(parts, "job")?,
            now: long(parts, "now")?,
            random: short(parts, "random")?,
        }),
        _ => None,
    }
}

// Returns the event with this name and these four parts, or `None` if no event has them.
fn with_four<'a>(name: &str, parts: &[&str]) -> Option<Event<'a>>
    requires { length parts.now ≡ 4 }
    ensures { IfSome result (IsEventOf name.now (texts parts.now)) }
{
    match name {
        "Signal" => Some(Event::Signal {
            shard: octet(parts, "shard")?,
            endpoint: peer(parts)?,
            mid: short(parts, "mid")?,
            reset: flag(parts, "reset")?,
        }),
        _ => None,
    }
}
