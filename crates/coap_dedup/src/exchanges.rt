//! The exchange table of a server's front.
ghost use Rattle.std.specs.Prelude.{◌≡◌, ◌+◌, ◌<◌, ◌≤◌, [], length, map, option_map, IfOk, MatchOption};
ghost use Rattle.std.specs.List.{list_any};
ghost use Rattle.coap_dedup.specs.Exchanges.{look_at, places_of, has_place, has_share, repeated_by, room_at, IsNew};
ghost use Rattle.coap_dedup.specs.Calls.{is_open, answered, expired, closing, opened};
ghost use Rattle.coap_dedup.specs.Looks.{look_of};
ghost use Rattle.coap_dedup.specs.Views.{IsGone, IsNumbered};

use crate::answers::Answers;
use crate::exchange::{Limits, Opened, copy, is_live};
use crate::key::{Comparisons, Key};
use crate::requests::Requests;
use coap_msg::{Datagram, Endpoint};
use std::alloc::{AllocError, Global};
use std::marker::Model;

/// The class of a request, by the stored exchanges.
#[derive(Drop)]
pub enum Looked {
    /// A new request. [`Exchanges::room`] returns whether there is room for it.
    New,
    /// A duplicate of a request in progress.
    Busy,
    /// A duplicate of a confirmable request that got this response.
    Again(Datagram),
    /// A duplicate of a non-confirmable request that got a response.
    Silent,
}

/// The room for a new request from an IP address.
#[derive(Clone, Copy)]
pub enum Room {
    /// There is room for the request.
    Free,
    /// The limit on exchanges is reached, or 2^64 - 1 were ever opened.
    Full,
    /// The address has reached its share of the exchanges.
    OverShare,
}

/// The result of storing a response.
#[derive(Clone, Copy, PartialEq, Eq)]
pub enum Closed {
    /// The response is stored for duplicates of its request.
    Closed,
    /// The exchange isn't stored, or is past its lifetime. Nothing changed.
    Late,
}

/// The exchanges within their lifetime, in order of arrival.
///
/// Times are in milliseconds.
#[derive(Drop)]
pub struct Exchanges {
    limits: Limits,
    now: u64,
    opened: u64,
    requests: Requests,
    answers: Answers,
    comparisons: Comparisons,
}

impl Model for Exchanges {
    ghost use Rattle.std.specs.Prelude.{◌≤◌, map};
    ghost use Rattle.coap_dedup.specs.Exchanges.{Table, places_of};
    ghost use Rattle.coap_dedup.specs.Views.{AreExchanges, as_exchange};

    ghost Value = { Table };

    ghost view = { λ x. record { limits = x.limits; now = x.now; opened = x.opened; held = map (as_exchange x.answers) x.requests.items } };

    ghost invariant = { λ x. AreExchanges x.limits x.now x.opened x.requests x.answers × (x.comparisons ≤ 17) × (places_of x.limits ≤ 1024 → x.comparisons ≤ 11) };
}

impl Exchanges {
    /// Makes an empty table with as many places as `limits` allows.
    ///
    /// # Errors
    /// Returns `AllocError` if memory for the places can't be allocated.
    pub fn new(alloc: Global, limits: Limits) -> Result<Exchanges, AllocError>
        ensures { IfOk result (λ x. x ≡ record { limits = limits; now = 0; opened = 0; held = [] }) }
    {
        Ok(Exchanges {
            limits,
            now: 0,
            opened: 0,
            requests: Requests::new(alloc, limits.places())?,
            answers: Answers::new(alloc, limits.places())?,
            comparisons: Comparisons::none(),
        })
    }

    /// Expires exchanges past their lifetime, and classifies a request.
    ///
    /// `endpoint` and `id` are the request's endpoint and message ID. Returns [`Looked::New`] if no
    /// stored exchange has them. Otherwise the request is a duplicate, and the result has its
    /// class.
    pub fn look(&mut self, now: u64, endpoint: Endpoint, id: u16) -> Looked
        requires { self.old.now ≤ now }
        ensures looked { look_of result (room_at (expired self.old now) endpoint.ip) ≡ look_at (expired self.old now) endpoint id }
        ensures after { self.new ≡ expired self.old now }
    {
        self.expire(now);
        self.comparisons = Comparisons::none();
        match self
            .requests
            .find(&Key::new(endpoint, id), &mut self.comparisons)
        {
            Some(opened) => repeat(opened.confirmable, self.answers.get(opened.number)),
            None => Looked::New,
        }
    }

    /// Returns the room for a new request from an address.
    ///
    /// Returns [`Room::OverShare`] if the address has reached its share, whatever else is stored.
    /// Otherwise returns [`Room::Full`] if there is no place for another exchange, and else
    /// [`Room::Free`].
    pub fn room(&self, ip: [u8; 4]) -> Room
        ensures { result ≡ room_at self.entry.now ip }
    {
        match (self.has_share(ip), self.has_place()) {
            (false, _) => Room::OverShare,
            (true, false) => Room::Full,
            (true, true) => Room::Free,
        }
    }

    // Returns whether there is a place for one more exchange.
    fn has_place(&self) -> bool
        ensures { result ≡ has_place self.entry.now }
    {
        self.requests.len() < self.limits.places() && self.opened < u64::MAX
    }

    // Returns whether fewer exchanges of this address are stored than its share. The exchanges of
    // the address are counted only if at least as many as a share are stored in all.
    fn has_share(&self, ip: [u8; 4]) -> bool
        ensures { result ≡ has_share self.entry.now ip }
    {
        let share = self.limits.share;
        if self.requests.len() < share {
            return true;
        }
        self.requests.are_fewer(ip, share)
    }

    /// Opens an exchange for a new request, and returns its number.
    ///
    /// The caller guarantees that [`Exchanges::look`] finds the request new, and that there is room
    /// for it.
    pub fn open(&mut self, now: u64, endpoint: Endpoint, id: u16, confirmable: bool) -> u64
        requires time { self.old.now ≤ now }
        requires new { look_at self.old endpoint id ≡ IsNew }
        ensures number { result ≡ self.old.opened }
        ensures after { self.new ≡ opened self.old now endpoint id confirmable }
    {
        let number = self.opened;
        self.answers.forget(number);
        self.requests.push(Opened {
            key: Key::new(endpoint, id),
            confirmable,
            number,
            at: now,
        });
        self.now = now;
        self.opened += 1;
        number
    }

    /// Stores the response `bytes` of the exchange with the number `opening`.
    ///
    /// Returns [`Closed::Late`] and changes nothing if that exchange isn't stored, or is past its
    /// lifetime at `now`.
    pub fn close(&mut self, now: u64, opening: u64, bytes: &Datagram) -> Closed
        ensures closed { result ≡ closing (list_any (is_open now opening) self.old.held) }
        ensures after { self.new ≡ record self.old { held = map (answered now opening bytes.now) self.old.held } }
    {
        match numbered(&self.requests, self.opened, opening) {
            Some(opened) if is_live(now, &opened) => {
                self.answers.keep(opening, bytes);
                Closed::Closed
            }
            _ => Closed::Late,
        }
    }

    /// Expires the exchanges past their lifetime.
    pub fn expire(&mut self, now: u64)
        requires { self.old.now ≤ now }
        ensures { self.new ≡ expired self.old now }
    {
        self.now = now;
        self.requests.expire(now);
    }

    /// Returns how many exchanges are within their lifetime at `now`, and expires none.
    pub fn held_at(&self, now: u64) -> usize
        ensures { result ≡ length (expired self.entry.now now).held }
    {
        self.requests.live_at(now)
    }

    /// Returns the maximum number of stored exchanges.
    pub fn places(&self) -> usize
        ensures { result ≡ places_of self.entry.now.limits }
    {
        self.limits.places()
    }

    /// Returns how many keys the last [`Exchanges::look`] compared.
    ///
    /// It is at most 17, at most 11 if there are at most 1,024 places, and 0 before the first call.
    pub fn comparisons(&self) -> u32
        ensures most { result ≤ 17 }
        ensures few { places_of self.entry.now.limits ≤ 1024 → result ≤ 11 }
    {
        self.comparisons.count()
    }
}

// Returns the class of a duplicate: `Busy`, `Again` with the stored response, or `Silent`.
// `confirmable` and `answer` are those of the first request; `answer` is `None` if that request is
// in progress.
fn repeat(confirmable: bool, answer: Option<&Datagram>) -> Looked
    ensures { (room : Room) → look_of result room ≡ repeated_by confirmable (option_map (λ bytes. bytes.now) answer.entry) }
{
    match answer {
        None => Looked::Busy,
        Some(bytes) if confirmable => Looked::Again(copy(bytes)),
        Some(_) => Looked::Silent,
    }
}

// Returns the request with this number, or `None` if it isn't stored. `opened` is the number of
// exchanges opened so far.
fn numbered(requests: &Requests, opened: u64, number: u64) -> Option<Opened>
    ensures { MatchOption result (IsGone requests.now.items opened number) (IsNumbered requests.now.items opened number) }
{
    let held = requests.len() as u64;
    if opened <= number || held < opened - number {
        return None;
    }
    let place = held - (opened - number);
    requests.get(place as usize)
}
