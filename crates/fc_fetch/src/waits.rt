//! The waits of an observer: for its next note, and how long.
ghost use Rattle.std.specs.Prelude.{◌≡◌, ◌∷◌, [], IfErr, IfOk, OnOk, is_none};
ghost use Rattle.coap_client.specs.Faults.{IsOfPeer};
ghost use Rattle.coap_observer.specs.Notes.{Watches};
ghost use Rattle.coap_client.specs.PeerCalls.{Adds, Reads, Waits};
ghost use Rattle.coap_client.specs.Transmissions.{MakesCalls};
ghost use Rattle.fc_fetch.specs.Observing.{AwaitsNote, BeginsRest, IsAwaitFault};
ghost use Rattle.fc_fetch.specs.Observing as spec;

use coap_client::peer::Buffer;
use coap_client::{FetchFault, Peer};
use coap_observer::{NotedMessage, Observation, Observer};

/// Length of each wait of an observation without a time limit, in seconds: a day.
const DAY: u64 = 86_400;

// The time limit of an observation in seconds, and the time in milliseconds at which it starts.
#[derive(Clone, Copy)]
pub(crate) struct TimeLimit {
    pub(crate) seconds: Option<u32>,
    pub(crate) start: u64,
}

// Returns the length of the first wait in seconds: the time limit, or a day without a limit.
pub(crate) fn first_wait(seconds: Option<u32>) -> u64
    ensures { result ≡ spec.first_wait seconds }
{
    match seconds {
        Some(seconds) => u64::from(seconds),
        None => DAY,
    }
}

// Returns the length in seconds of a wait that begins at `now`, in milliseconds. The wait lasts for
// the rest of the time limit, rounded up, or a day without a limit.
fn rest_wait(limit: TimeLimit, now: u64) -> u64
    ensures { result ≡ spec.rest_wait limit.seconds limit.start now }
{
    match limit.seconds {
        Some(seconds) => {
            let passed = now.saturating_sub(limit.start);
            let rest = (u64::from(seconds) * 1_000).saturating_sub(passed);
            (rest + 999) / 1_000
        }
        None => DAY,
    }
}

// Reads the clock, and begins a wait for the rest of the time. Returns the wait's length in
// seconds, or `FetchFault::Socket` if the peer returns an error.
pub(crate) fn begin_rest<P: Peer>(peer: &mut P, limit: TimeLimit) -> Result<u64, FetchFault>
    ensures called { IfOk result (λ rest. MakesCalls (P.called peer.old) (P.called peer.new) (BeginsRest limit.seconds limit.start rest)) }
    ensures fault { IfErr result (IsOfPeer P.is_error ⊥) }
{
    let now = time(peer)?;
    let rest = rest_wait(limit, now);
    begin_wait(peer, rest)?;
    Ok(rest)
}

// Reads the clock, and returns the milliseconds since some start. Returns `FetchFault::Socket` if
// the peer returns an error.
pub(crate) fn time<P: Peer>(peer: &mut P) -> Result<u64, FetchFault>
    ensures time { IfOk result P.is_time }
    ensures called { IfOk result (λ time. Adds (P.called peer.old) (P.called peer.new) (Reads time ∷ [])) }
    ensures fault { IfErr result (IsOfPeer P.is_error ⊥) }
{
    Ok(peer.now()?)
}

// Begins a wait of `seconds` seconds. Returns `FetchFault::Socket` if the peer returns an error.
pub(crate) fn begin_wait<P: Peer>(peer: &mut P, seconds: u64) -> Result<(), FetchFault>
    ensures called { OnOk result (Adds (P.called peer.old) (P.called peer.new) (Waits seconds ∷ [])) }
    ensures fault { IfErr result (IsOfPeer P.is_error ⊥) }
{
    Ok(peer.begin_wait(seconds)?)
}

// Waits for the next notification that is to be shown. If the wait is over, returns `None` if
// `ends` is set, and else waits for a further day. Returns an error if a notification can't be
// shown, if a call of the peer fails, or if memory can't be allocated.
pub(crate) fn await_note<P: Peer>(
    peer: &mut P,
    observer: &Observer<'_>,
    watch: &mut Observation,
    ends: bool,
    buffer: &mut Buffer,
) -> Result<Option<NotedMessage>, FetchFault>
    ensures watched { IfOk result (Watches P.went P.came P.is_time observer.now.token buffer.new watch.old watch.new) }
    ensures called { IfOk result (λ noted. MakesCalls (P.called peer.old) (P.called peer.new)
        (AwaitsNote observer.now.token ends (is_none noted))) }
    ensures fault { IfErr result (IsAwaitFault P.came P.is_time P.is_error (MakesCalls (P.called peer.old) (P.called peer.new))
        observer.now ends watch.old) }
{
    for _ in 0..u64::MAX {
        match watch.next(peer, &observer.token, buffer)? {
            Some(noted) => return Ok(Some(noted)),
            None if ends => return Ok(None),
            None => peer.begin_wait(DAY)?,
        }
    }
    Ok(None)
}
