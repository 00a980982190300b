//! The list of observers of a slot, which the slot's shard has (`fc_registry`).
ghost use Rattle.std.specs.Prelude.{◌≡◌, ◌<◌, ◌≤◌, ◌↔◌, [], length, max, true, ◌&&◌, is_none, is_some, IfOk, IfSome, IsTrue, vec_capacity};
ghost use Rattle.std.specs.List.{All, list_any, position};
ghost use Rattle.std.specs.Option.{option_map};
ghost use Rattle.fc_observe.specs.Entries.{acknowledged, has_last_id, has_turn, is_due, is_entry_of, is_overdue};
ghost use Rattle.fc_observe.specs.Observers.{after_ack, after_reset, after_tick, at_each, list_at_time, cancelled, entry_out, is_missing, is_out, overdue_entry, must_confirm_turn, next_turn, no_observers, registered, registration, ticked, turn_ended, turn_given, turn_given_up, turn_missed, turn_notified, without_those};
ghost use Rattle.fc_observe.specs.Quiet.{AreIdleUntil, IsIdle};
ghost use Rattle.fc_observe.specs.Views.{interest, interest_of};

use crate::entry::{Entry, Observer, Phase, Turn, copy_token};
use coap_msg::{Datagram, Emission, Endpoint, Token};
use fc_help::Request;
use std::alloc::{AllocError, Global};
use std::marker::Model;

/// Maximum number of observers of a slot.
pub const OBSERVERS: usize = 32;

/// The result of a registration.
#[derive(Clone, Copy, PartialEq, Eq)]
pub enum Registered {
    /// A new entry.
    Entered,
    /// An entry in place of the one with the same endpoint and token.
    ///
    /// See RFC 7641, section 4.1.
    Replaced,
    /// Refused: there are 32 others. No entry changed.
    Full,
}

/// The effect of a tick.
#[derive(Drop)]
pub enum Ticked {
    /// A confirmable notification, to be retransmitted.
    Resend(Emission),
    /// An observer that acknowledged no transmission was removed.
    Removed,
    /// No notification had timed out.
    Quiet,
}

/// The list of observers of a slot, in order of registration.
///
/// Times are in milliseconds, and never decrease: an earlier time counts as the greatest passed so
/// far.
#[derive(Drop)]
pub struct Observers {
    slot: u8,
    confirm_after: u64,
    time: u64,
    turns: u64,
    held: Vec<Entry>,
    // Cached: before this time no entry has timed out, and none has a pending notification about
    // this revision.
    idle_until: u64,
    idle_for: u64,
}

impl Model for Observers {
    ghost use Rattle.std.specs.Prelude.{◌≤◌, length, vec_capacity};
    ghost use Rattle.fc_observe.specs.Observers.{ObserverList};
    ghost use Rattle.fc_observe.specs.Quiet.{AreIdleUntil};

    ghost Value = { ObserverList };

    ghost view = { λ x. record {
      slot = x.slot;
      confirm_after = x.confirm_after;
      time = x.time;
      turns = x.turns;
      held = x.held.items;
    } };

    ghost invariant = { λ x. (length x.held.items ≤ 32) × (32 ≤ vec_capacity x.held)
        × AreIdleUntil x.idle_until x.idle_for x.held.items };
}

impl Observers {
    /// Makes the empty list of a slot, with room for 32 observers.
    ///
    /// A notification is confirmable if `confirm_after` milliseconds have passed since its
    /// observer's registration or last confirmable one. RFC 7641, section 4.5 allows at most 24
    /// hours.
    ///
    /// # Errors
    /// Returns `AllocError` if memory for the entries can't be allocated.
    pub fn new(alloc: Global, slot: u8, confirm_after: u64) -> Result<Observers, AllocError>
        ensures { IfOk result (λ x. x ≡ no_observers slot confirm_after) }
    {
        Ok(Observers {
            slot,
            confirm_after,
            time: 0,
            turns: 0,
            held: Vec::with_capacity(alloc, OBSERVERS)?,
            idle_until: 0,
            idle_for: 0,
        })
    }

    /// Advances the clock to `now`, never backwards.
    pub fn advance(&mut self, now: u64)
        ensures { self.new ≡ list_at_time now self.old }
    {
        self.time = self.time.max(now);
    }

    /// Registers an observer as the last entry (RFC 7641, section 4.1).
    ///
    /// `serial` is the revision that its request found. Returns [`Registered::Replaced`] if an
    /// entry with this endpoint and token is removed, and else [`Registered::Entered`]. Returns
    /// [`Registered::Full`], and registers nothing, if 32 others are registered.
    pub fn register(
        &mut self,
        now: u64,
        endpoint: Endpoint,
        token: &Token,
        request: &Request,
        szx: Option<u8>,
        serial: u64,
    ) -> Registered
        ensures answer { result ≡ registration endpoint token.now.items self.old }
        ensures after { self.new
            ≡ registered endpoint token.now request.now szx serial (list_at_time now self.old) }
    {
        self.advance(now);
        let known = is_known(&self.held, endpoint, token);
        if !known && self.held.len() >= OBSERVERS {
            return Registered::Full;
        }
        remove_of(&mut self.held, endpoint, token);
        self.idle_until = 0;
        self.held.push_reserved(Entry {
            endpoint,
            token: copy_token(token),
            request: request.copy(),
            szx,
            serial,
            id: None,
            confirmed: self.time,
            phase: Phase::Idle,
        });
        if known {
            Registered::Replaced
        } else {
            Registered::Entered
        }
    }

    /// Removes the entry of this endpoint and token (RFC 7641, section 3.6).
    ///
    /// Its client is no longer interested. Without such an entry, nothing changes.
    pub fn cancel(&mut self, endpoint: Endpoint, token: &Token)
        ensures { self.new ≡ cancelled endpoint token.now.items self.old }
    {
        remove_of(&mut self.held, endpoint, token);
    }

    /// Grants a lease to the first observer with a pending notification.
    ///
    /// `notify_serial` is the slot's noticed revision. An observer has a pending notification if
    /// these conditions hold:
    ///
    /// - The last revision sent to it is below `notify_serial`.
    /// - None of its confirmable notifications is outstanding.
    /// - None of its leases is active, and none was released at this time.
    ///
    /// Returns `None` if no observer has a pending notification, or if 2^64 - 1 leases were granted
    /// already.
    pub fn next_due(&mut self, now: u64, notify_serial: u64) -> Option<Turn>
        ensures turn { result ≡ next_turn notify_serial (list_at_time now self.old) }
        ensures after { self.new ≡ turn_given notify_serial (list_at_time now self.old) }
    {
        self.advance(now);
        if self.turns == u64::MAX {
            return None;
        }
        let place = first_due(&self.held, self.time, notify_serial)?;
        let number = self.turns;
        self.idle_until = 0;
        self.held[place].take_turn(number, self.time);
        self.turns += 1;
        Some(Turn {
            slot: self.slot,
            number,
        })
    }

    /// Returns whether `next_due` would grant a lease.
    pub fn is_due(&self, now: u64, notify_serial: u64) -> bool
        ensures { result ≡ is_some (next_turn notify_serial (list_at_time now self.now)) }
    {
        if self.is_at_rest(now, notify_serial) {
            return false;
        }
        self.turns != u64::MAX && first_due(&self.held, self.time.max(now), notify_serial).is_some()
    }

    /// Returns the observer that has this lease.
    ///
    /// Returns `None` if the lease isn't active: it was ended or released, or its entry was removed
    /// or replaced.
    pub fn out(&self, turn: Turn) -> Option<Observer<'_>>
        ensures observer { option_map interest result ≡ option_map interest_of (entry_out turn self.now) }
        ensures confirmable { IfSome result (λ o. o.confirmable ≡ must_confirm_turn turn self.now) }
    {
        self.observer_out(turn)
    }

    // Borrows the observer that has this lease, for `out`. Returns `None` if the lease isn't
    // active.
    fn observer_out(&self, turn: Turn) -> Option<Observer<'_>>
        ensures observer { option_map interest result ≡ option_map interest_of (entry_out turn self.now) }
        ensures confirmable { IfSome result (λ o. o.confirmable ≡ must_confirm_turn turn self.now) }
    {
        let place = self.at(turn)?;
        Some(self.held[place].observer(self.confirm_after, self.time))
    }

    // Returns the place of the entry that has this lease, or `None` if the lease isn't active.
    fn at(&self, turn: Turn) -> Option<usize>
        ensures place { result ≡ position (is_out turn self.now) self.now.held }
        ensures within { IfSome result (λ i. i < length self.now.held) }
    {
        first_out(&self.held, self.slot, self.time, turn)
    }

    /// Returns whether this lease is active, so that `out` returns its observer.
    pub fn is_out(&self, turn: Turn) -> bool
        ensures { result ≡ is_some (entry_out turn self.now) }
    {
        self.at(turn).is_some()
    }

    /// Records that the snapshot of a lease found the slot empty.
    ///
    /// If the lease isn't active, nothing changes.
    pub fn mark_missing(&mut self, turn: Turn)
        ensures { self.new ≡ turn_missed turn self.old }
    {
        if let Some(place) = self.at(turn) {
            self.idle_until = 0;
            self.held[place].mark_missing();
        }
    }

    /// Returns whether the snapshot of this lease found the slot empty.
    ///
    /// Returns `false` if the lease isn't active.
    pub fn is_missing(&self, turn: Turn) -> bool
        ensures { result ≡ is_missing turn self.now }
    {
        match self.at(turn) {
            Some(place) => self.held[place].has_missed(),
            None => false,
        }
    }

    /// Returns whether the notification of this lease must be confirmable.
    ///
    /// It must if `confirm_after` milliseconds or more have passed since the registration or the
    /// last confirmable notification (RFC 7641, section 4.5). Returns `false` if the lease isn't
    /// active.
    pub fn must_confirm(&self, turn: Turn) -> bool
        ensures { result ≡ must_confirm_turn turn self.now }
    {
        match self.at(turn) {
            Some(place) => self.held[place].must_confirm(self.confirm_after, self.time),
            None => false,
        }
    }

    /// Advances the clock, and returns whether this lease's notification must be confirmable.
    ///
    /// The clock advances to `now`. Returns `false` if the lease isn't active at that time.
    pub fn confirmable(&mut self, now: u64, turn: Turn) -> bool
        ensures answer { result ≡ must_confirm_turn turn (list_at_time now self.old) }
        ensures after { self.new ≡ list_at_time now self.old }
    {
        self.advance(now);
        self.must_confirm(turn)
    }

    /// Ends an active lease with a notification.
    ///
    /// The notification has this message ID, revision and bytes. A confirmable notification is
    /// outstanding from now on. `random` determines the timeout of its first transmission, 2,000 to
    /// 3,000 ms. If the lease isn't active, only the clock advances.
    pub fn sent(
        &mut self,
        now: u64,
        turn: Turn,
        id: u16,
        serial: u64,
        random: u16,
        bytes: &Datagram,
    )
        ensures { self.new
            ≡ turn_notified turn id serial random bytes.now (list_at_time now self.old) }
    {
        self.advance(now);
        if let Some(place) = self.at(turn) {
            self.idle_until = 0;
            self.held[place].notify(self.confirm_after, self.time, id, serial, random, bytes);
        }
    }

    /// Removes the observer that has this active lease.
    ///
    /// A notification that isn't a success requires this removal (RFC 7641, section 4.2). If the
    /// lease isn't active, nothing changes.
    pub fn end(&mut self, turn: Turn)
        ensures { self.new ≡ turn_ended turn self.old }
    {
        if let Some(place) = self.at(turn) {
            self.idle_until = 0;
            let _removed = self.held.remove(place);
        }
    }

    /// Releases an active lease.
    ///
    /// Its observer has a pending notification again at a later time. If the lease isn't active,
    /// only the clock advances.
    pub fn give_up(&mut self, turn: Turn, now: u64)
        ensures { self.new ≡ turn_given_up turn (list_at_time now self.old) }
    {
        self.advance(now);
        if let Some(place) = self.at(turn) {
            self.idle_until = 0;
            self.held[place].give_up(self.time);
        }
    }

    /// Handles a Reset message (RFC 7641, section 3.6).
    ///
    /// Removes each entry whose last notification went to this endpoint with this message ID.
    pub fn reset(&mut self, endpoint: Endpoint, id: u16)
        ensures { self.new ≡ after_reset endpoint id self.old }
    {
        remove_reset(&mut self.held, endpoint, id);
    }

    /// Handles an Acknowledgement (RFC 7252, section 4.2).
    ///
    /// Each entry whose last notification went to this endpoint with this message ID no longer
    /// waits for its acknowledgement.
    pub fn acked(&mut self, endpoint: Endpoint, id: u16)
        ensures { self.new ≡ after_ack endpoint id self.old }
    {
        if is_last_sent(&self.held, endpoint, id) {
            self.idle_until = 0;
            acknowledge_each(&mut self.held, endpoint, id);
        }
    }

    /// Advances the time to `now`, and returns the first notification that has to be retransmitted.
    ///
    /// That is the first outstanding notification that timed out. If it was retransmitted four
    /// times already, its observer is removed, and the result is `Removed` (RFC 7252, section 4.2;
    /// RFC 7641, section 4.5). The result is `Quiet` if no notification timed out.
    pub fn tick(&mut self, now: u64) -> Ticked
        ensures answer { result ≡ ticked (list_at_time now self.old) }
        ensures after { self.new ≡ after_tick (list_at_time now self.old) }
    {
        self.advance(now);
        let Some(place) = first_overdue(&self.held, self.time) else {
            return Ticked::Quiet;
        };
        self.idle_until = 0;
        match self.held[place].retransmit(self.time) {
            Some(emission) => Ticked::Resend(emission),
            None => {
                let _removed = self.held.remove(place);
                Ticked::Removed
            }
        }
    }

    /// Returns whether `tick` would retransmit a notification or remove an observer.
    pub fn is_overdue(&self, now: u64) -> bool
        ensures { result ≡ is_some (overdue_entry (list_at_time now self.now)) }
    {
        !self.is_at_rest(now, self.idle_for)
            && first_overdue(&self.held, self.time.max(now)).is_some()
    }

    /// Returns the number of observers.
    pub fn len(&self) -> usize
        ensures count { result ≡ length self.now.held }
        ensures most { result ≤ 32 }
    {
        self.held.len()
    }

    /// Returns whether there is no observer.
    pub fn is_empty(&self) -> bool
        ensures { IsTrue result ↔ (self.now.held ≡ []) }
    {
        self.held.is_empty()
    }

    /// Returns whether neither `tick` nor `next_due` has anything to do.
    pub fn is_idle(&self, now: u64, notify_serial: u64) -> bool
        ensures { let w = list_at_time now self.now in
            result ≡ (is_none (overdue_entry w) && is_none (next_turn notify_serial w)) }
    {
        self.is_at_rest(now, notify_serial)
            || (!self.is_overdue(now) && !self.is_due(now, notify_serial))
    }

    /// Returns whether neither `tick` nor `next_due` has anything to do.
    ///
    /// If the result is `true`, caches until when the list is idle, so that the next call is short.
    pub fn check_idle(&mut self, now: u64, notify_serial: u64) -> bool
        ensures idle { let w = list_at_time now self.old in
            result ≡ (is_none (overdue_entry w) && is_none (next_turn notify_serial w)) }
        ensures after { self.new ≡ self.old }
    {
        let idle = self.is_idle(now, notify_serial);
        if idle && !self.is_at_rest(now, notify_serial) {
            self.idle_until = idle_until(&self.held, notify_serial);
            self.idle_for = notify_serial;
        }
        idle
    }

    /// Returns a time before which the list is idle for revision `notify_serial`.
    ///
    /// Before that time no entry has timed out, and none has a pending notification. It needn't be
    /// the latest such time. 2^64 - 1 means that neither is expected.
    pub fn idle_until(&self, notify_serial: u64) -> u64
        ensures { AreIdleUntil result notify_serial self.now.held }
    {
        idle_until(&self.held, notify_serial)
    }

    // Returns whether the cache alone shows that the list is idle at `now`. Idle means that no
    // entry has timed out, and none has a pending notification about revision `notify_serial`.
    fn is_at_rest(&self, now: u64, notify_serial: u64) -> bool
        ensures { result ≡ true → All (IsIdle (max self.now.time now) notify_serial) self.now.held }
    {
        self.time.max(now) < self.idle_until && notify_serial <= self.idle_for
    }
}

// Returns the place of the first entry with a pending notification, or `None` if there is none.
fn first_due(held: &[Entry], now: u64, notify_serial: u64) -> Option<usize>
    ensures place { result ≡ position (is_due now notify_serial) held.now }
    ensures within { IfSome result (λ i. i < length held.now) }
{
    held.iter()
        .position(|entry| entry.is_due(now, notify_serial))
}

// Returns the place of the first entry that has this lease, or `None` if the lease isn't active.
fn first_out(held: &[Entry], slot: u8, now: u64, turn: Turn) -> Option<usize>
    ensures place { result ≡ position (has_turn slot now turn) held.now }
    ensures within { IfSome result (λ i. i < length held.now) }
{
    held.iter()
        .position(|entry| entry.has_turn(slot, now, turn))
}

// Returns the place of the first entry whose notification timed out, or `None` if there is none.
fn first_overdue(held: &[Entry], now: u64) -> Option<usize>
    ensures place { result ≡ position (is_overdue now) held.now }
    ensures within { IfSome result (λ i. i < length held.now) }
{
    held.iter().position(|entry| entry.is_overdue(now))
}

// Returns whether there is an entry of this endpoint and token.
fn is_known(held: &[Entry], endpoint: Endpoint, token: &Token) -> bool
    ensures { result ≡ list_any (is_entry_of endpoint token.now.items) held.now }
{
    held.iter().any(|entry| entry.is_entry_of(endpoint, token))
}

// Removes the entry of this endpoint and token, if the list has one. The list's capacity stays.
fn remove_of(held: &mut Vec<Entry>, endpoint: Endpoint, token: &Token)
    ensures held { held.new.items
        ≡ without_those (is_entry_of endpoint token.now.items) held.old.items }
    ensures room { vec_capacity held.new ≡ vec_capacity held.old }
    ensures fewer { length held.new.items ≤ length held.old.items }
    ensures less { list_any (is_entry_of endpoint token.now.items) held.old.items ≡ true
        → length held.new.items < length held.old.items }
{
    held.retain(|entry| !entry.is_entry_of(endpoint, token));
}

// Removes each entry whose last notification went to this endpoint with this message ID.
fn remove_reset(held: &mut Vec<Entry>, endpoint: Endpoint, id: u16)
    ensures held { held.new.items ≡ without_those (has_last_id endpoint id) held.old.items }
    ensures room { vec_capacity held.new ≡ vec_capacity held.old }
    ensures fewer { length held.new.items ≤ length held.old.items }
{
    held.retain(|entry| !entry.has_last_id(endpoint, id));
}

// Returns whether there is an entry whose last notification went to this endpoint with this message
// ID.
fn is_last_sent(held: &[Entry], endpoint: Endpoint, id: u16) -> bool
    ensures { result ≡ list_any (has_last_id endpoint id) held.now }
{
    held.iter().any(|entry| entry.has_last_id(endpoint, id))
}

// Ends the wait of each entry whose last notification went to this endpoint with this message ID.
fn acknowledge_each(held: &mut [Entry], endpoint: Endpoint, id: u16)
    ensures { held.new ≡ at_each (has_last_id endpoint id) acknowledged held.old }
{
    for entry in held.iter_mut() {
        entry.acknowledge(endpoint, id);
    }
}

// Returns a time before which none of these entries has timed out, or has a pending notification
// about revision `notify_serial`.
fn idle_until(held: &[Entry], notify_serial: u64) -> u64
    ensures { AreIdleUntil result notify_serial held.now }
{
    let mut until = u64::MAX;
    for entry in held {
        until = until.min(entry.idle_until(notify_serial));
    }
    until
}
