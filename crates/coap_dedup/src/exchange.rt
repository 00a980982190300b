//! An exchange, and the limits on the number of exchanges.
ghost use Rattle.std.specs.Prelude.{◌≡◌, ◌%◌, ◌<◌, ◌≤◌};
ghost use Rattle.coap_msg.specs.Windows.{within_window};
ghost use Rattle.coap_dedup.specs.Exchanges.{places_of};

use crate::key::Key;
use coap_msg::{Datagram, WINDOW};

/// Default limit on the number of stored exchanges.
pub const EXCHANGES: usize = 1024;

/// Greatest possible number of stored exchanges.
///
/// The index of the exchanges has numbers of 16 bits.
pub const MOST_EXCHANGES: usize = 65_536;

/// Limits on the number of stored exchanges, in all and of one IP address.
#[derive(Clone, Copy, Debug, PartialEq, Eq)]
pub struct Limits {
    pub exchanges: usize,
    pub share: usize,
}

impl Limits {
    /// Returns the maximum number of stored exchanges.
    ///
    /// It is `exchanges`, or the nearest number from 1 to 65,536.
    pub fn places(&self) -> usize
        ensures places { result ≡ places_of self.now }
        ensures some { 1 ≤ result }
        ensures most { result ≤ 65536 }
    {
        self.exchanges.min(MOST_EXCHANGES).max(1)
    }
}

/// The default limits: 1,024 exchanges, all of which may be of one address.
pub const DEFAULT_LIMITS: Limits = Limits {
    exchanges: EXCHANGES,
    share: MOST_EXCHANGES,
};

/// An opened request: its key, whether it is confirmable, its number and its time.
#[derive(Clone, Copy)]
pub(crate) struct Opened {
    pub(crate) key: Key,
    pub(crate) confirmable: bool,
    pub(crate) number: u64,
    pub(crate) at: u64,
}

/// The place of an exchange's response; it has one if `answered` is `true`.
///
/// The bytes are the first field, without padding before them. So the compiler zeroes the memory of
/// a new place directly, and doesn't copy zeros to it.
#[derive(Drop)]
pub(crate) struct StoredResponse {
    pub(crate) bytes: Datagram,
    pub(crate) answered: bool,
}

// Returns whether the request was opened less than EXCHANGE_LIFETIME before `now`.
pub(crate) fn is_live(now: u64, opened: &Opened) -> bool
    ensures { result ≡ within_window now opened.now.at }
{
    now < opened.at || now - opened.at < WINDOW
}

// Returns the place of the exchange with this number: `number` modulo `places`. No two stored
// exchanges have the same place.
pub(crate) fn place(number: u64, places: usize) -> usize
    requires { 0 < places }
    ensures place { result ≡ number % places }
    ensures below { result < places }
{
    (number % places as u64) as usize
}

// Replaces the contents of `written` by `bytes`.
pub(crate) fn write_over(written: &mut Datagram, bytes: &Datagram)
    ensures { written.new ≡ bytes.now }
{
    written.clear();
    let _fits = written.try_extend_from_slice(bytes.as_slice());
}

// Returns a copy of a datagram.
pub(crate) fn copy(bytes: &Datagram) -> Datagram
    ensures { result ≡ bytes.now }
{
    let mut copy = Datagram::new();
    let _fits = copy.try_extend_from_slice(bytes.as_slice());
    copy
}
