//! An entry in the list of observers, with the methods that the list calls.
ghost use Rattle.std.specs.Prelude.{◌≡◌, ℕ, ◌<◌, false, is_some};
ghost use Rattle.fc_observe.specs.Entries.{acknowledged, backoff, changed_if, first_timeout, given_up, has_last_id, has_missed, has_turn, is_due, is_entry_of, is_free, is_overdue, is_overdue_in, missed, must_confirm, notified, retransmission, retransmitted, with_turn};
ghost use Rattle.fc_observe.specs.Quiet.{IsIdleUntil};
ghost use Rattle.fc_observe.specs.Views.{interest, interest_of};

use coap_msg::{Datagram, Emission, Endpoint, Token, WINDOW};
use fc_help::Request;

/// Default interval between confirmable notifications, in milliseconds: 24 hours.
///
/// If this time has passed since the last confirmable notification, the next one is confirmable.
/// RFC 7641, section 4.5 allows at most 24 hours.
pub const CONFIRM_AFTER: u64 = 86_400_000;

/// Minimum timeout of the first transmission, in milliseconds.
///
/// This is ACK_TIMEOUT (RFC 7252, section 4.8).
pub const ACK_TIMEOUT: u16 = 2000;

/// Number of possible timeouts of the first transmission.
///
/// The timeouts are a millisecond apart, from ACK_TIMEOUT to ACK_TIMEOUT * ACK_RANDOM_FACTOR (RFC
/// 7252, section 4.8).
pub const ACK_TIMEOUTS: u16 = 1001;

/// Maximum number of retransmissions of a confirmable notification.
///
/// This is MAX_RETRANSMIT (RFC 7252, section 4.8).
pub const MAX_RETRANSMIT: u8 = 4;

/// A notification lease: permission to notify one observer once.
///
/// It has the slot, and the lease's number among the leases of that slot, counted from 0.
#[derive(Clone, Copy, Default, PartialEq, Eq)]
pub struct Turn {
    /// The slot.
    pub slot: u8,
    /// The lease's number among the leases of the slot.
    pub number: u64,
}

/// The state of an observer's notification.
///
/// Times and timeouts are in milliseconds.
#[derive(Drop)]
pub enum Phase {
    /// There is no lease and no outstanding notification.
    Idle,
    /// As `Idle`, and the last lease was released at this time.
    GivenUp(u64),
    /// There is a granted lease. It counts as released 247,000 ms after its grant.
    TurnOut {
        /// The lease's number.
        number: u64,
        /// The time at which the lease was granted.
        at: u64,
        /// Whether the lease's snapshot found the slot empty.
        missing: bool,
    },
    /// A confirmable notification isn't acknowledged yet (RFC 7252, section 4.2).
    Outstanding {
        /// The time at which the notification was last sent.
        sent_at: u64,
        /// The timeout of the first transmission; each retransmission doubles the timeout.
        timeout: u16,
        /// The number of retransmissions so far.
        retransmissions: u8,
        /// The bytes of the notification.
        bytes: Datagram,
    },
}

/// An entry in the list of observers (RFC 7641, section 4.1).
#[derive(Drop)]
pub struct Entry {
    /// The observer's endpoint.
    pub endpoint: Endpoint,
    /// The token of the observer's request, sent in each notification.
    pub token: Token,
    /// The observer's request, executed again for each notification.
    pub request: Request,
    /// The size exponent of the request's Block2, if any (RFC 7959, section 2.6).
    pub szx: Option<u8>,
    /// The last revision sent to the observer, in its registration's response or later.
    pub serial: u64,
    /// The message ID of the last notification, or `None` if none was sent yet.
    pub id: Option<u16>,
    /// The time, in ms, of the registration or the last confirmable notification.
    pub confirmed: u64,
    /// The state of the observer's notification.
    pub phase: Phase,
}

/// The data for an observer's notification, borrowed from the observer's entry.
#[derive(Drop)]
pub struct Observer<'a> {
    /// The observer's endpoint.
    pub endpoint: Endpoint,
    /// The token of the observer's request.
    pub token: &'a Token,
    /// The observer's request.
    pub request: &'a Request,
    /// The size exponent of the request's Block2 option, if it had one.
    pub szx: Option<u8>,
    /// Whether the notification must be confirmable (RFC 7641, section 4.5).
    pub confirmable: bool,
}

impl Entry {
    // Borrows the data for the entry's notification; it is confirmable if `must_confirm` says so.
    pub(crate) fn observer(&self, confirm_after: u64, now: u64) -> Observer<'_>
        ensures interest { interest result ≡ interest_of self.now }
        ensures confirmable { result.confirmable ≡ must_confirm confirm_after now self.now }
    {
        Observer {
            endpoint: self.endpoint,
            token: &self.token,
            request: &self.request,
            szx: self.szx,
            confirmable: self.must_confirm(confirm_after, now),
        }
    }

    // Returns whether the entry has this endpoint and token.
    pub(crate) fn is_entry_of(&self, endpoint: Endpoint, token: &Token) -> bool
        ensures { result ≡ is_entry_of endpoint token.now.items self.now }
    {
        self.endpoint == endpoint && self.token.as_slice() == token.as_slice()
    }

    // Returns whether the entry's last notification went to this endpoint, with this message ID.
    pub(crate) fn has_last_id(&self, endpoint: Endpoint, id: u16) -> bool
        ensures { result ≡ has_last_id endpoint id self.now }
    {
        self.endpoint == endpoint && self.id == Some(id)
    }

    // Returns whether the entry has the lease `turn`, and the lease is active at `now`. `slot` is
    // the slot of the entry's list.
    pub(crate) fn has_turn(&self, slot: u8, now: u64, turn: Turn) -> bool
        ensures { result ≡ has_turn slot now turn self.now }
    {
        match &self.phase {
            Phase::TurnOut { number, at, .. } => {
                turn.slot == slot && *number == turn.number && (now < *at || now - *at < WINDOW)
            }
            _ => false,
        }
    }

    // Returns whether the entry has a lease, active or expired, whose snapshot found the slot
    // empty.
    pub(crate) fn has_missed(&self) -> bool
        ensures { result ≡ has_missed self.now }
    {
        match &self.phase {
            Phase::TurnOut { missing, .. } => *missing,
            _ => false,
        }
    }

    // Returns whether the entry has a pending notification about revision `notify_serial`.
    pub(crate) fn is_due(&self, now: u64, notify_serial: u64) -> bool
        ensures { result ≡ is_due now notify_serial self.now }
    {
        self.serial < notify_serial && is_free(now, &self.phase)
    }

    // Returns whether the entry's next notification must be confirmable: `confirm_after`
    // milliseconds or more have passed since the registration or the last confirmable notification.
    pub(crate) fn must_confirm(&self, confirm_after: u64, now: u64) -> bool
        ensures { result ≡ must_confirm confirm_after now self.now }
    {
        self.confirmed <= now && now - self.confirmed >= confirm_after
    }

    // Returns whether the entry has an outstanding notification whose timeout has passed at `now`.
    pub(crate) fn is_overdue(&self, now: u64) -> bool
        ensures { result ≡ is_overdue now self.now }
    {
        match &self.phase {
            Phase::Outstanding {
                sent_at,
                timeout,
                retransmissions,
                ..
            } => *sent_at <= now && now - *sent_at >= backoff(*timeout, *retransmissions),
            _ => false,
        }
    }

    // Returns a time before which no retransmission and no notification about revision
    // `notify_serial` is pending.
    pub(crate) fn idle_until(&self, notify_serial: u64) -> u64
        ensures { IsIdleUntil result notify_serial self.now }
    {
        let overdue = overdue_from(&self.phase);
        if self.serial < notify_serial {
            overdue.min(free_from(&self.phase))
        } else {
            overdue
        }
    }

    // Grants the entry the lease with this number at `now`. Its snapshot is still to be taken.
    pub(crate) fn take_turn(&mut self, number: u64, now: u64)
        ensures { self.new ≡ with_turn number now self.old }
    {
        self.phase = Phase::TurnOut {
            number,
            at: now,
            missing: false,
        };
    }

    // Records that the snapshot of the entry's lease found the slot empty. Without a lease, nothing
    // changes.
    pub(crate) fn mark_missing(&mut self)
        ensures { self.new ≡ missed self.old }
    {
        if let Phase::TurnOut { missing, .. } = &mut self.phase {
            *missing = true;
        }
    }

    // Releases the entry's lease at `now`.
    pub(crate) fn give_up(&mut self, now: u64)
        ensures { self.new ≡ given_up now self.old }
    {
        self.phase = Phase::GivenUp(now);
    }

    // Records that the observer was sent a notification with this message ID, revision and bytes.
    // The notification ends the entry's lease. If the notification must be confirmable, it is then
    // outstanding, and `random` determines its timeout.
    pub(crate) fn notify(
        &mut self,
        confirm_after: u64,
        now: u64,
        id: u16,
        serial: u64,
        random: u16,
        bytes: &Datagram,
    )
        ensures { self.new ≡ notified confirm_after now id serial random bytes.now self.old }
    {
        let confirmable = self.must_confirm(confirm_after, now);
        self.serial = serial;
        self.id = Some(id);
        if confirmable {
            self.confirmed = now;
            self.phase = Phase::Outstanding {
                sent_at: now,
                timeout: first_timeout(random),
                retransmissions: 0,
                bytes: copy(bytes),
            };
        } else {
            self.phase = Phase::Idle;
        }
    }

    // Ends the entry's wait for an acknowledgement, if the entry's last notification went to this
    // endpoint with this message ID. Otherwise nothing changes.
    pub(crate) fn acknowledge(&mut self, endpoint: Endpoint, id: u16)
        ensures { self.new ≡ changed_if (has_last_id endpoint id self.old) acknowledged self.old }
    {
        if self.has_last_id(endpoint, id)
            && let Phase::Outstanding { .. } = self.phase
        {
            self.phase = Phase::Idle;
        }
    }

    // Returns the entry's outstanding notification for retransmission, and starts its timeout
    // again, doubled. Returns `None`, and changes nothing, if no notification is outstanding or if
    // it was retransmitted four times already.
    pub(crate) fn retransmit(&mut self, now: u64) -> Option<Emission>
        ensures sent { result ≡ retransmission self.old }
        ensures after { self.new
            ≡ changed_if (is_some (retransmission self.old)) (retransmitted now) self.old }
    {
        match &mut self.phase {
            Phase::Outstanding {
                sent_at,
                timeout: _,
                retransmissions,
                bytes,
            } if *retransmissions < MAX_RETRANSMIT => {
                *sent_at = now;
                *retransmissions += 1;
                Some(Emission {
                    to: self.endpoint,
                    bytes: copy(bytes),
                })
            }
            _ => None,
        }
    }
}

// Returns whether a lease can be granted at `now`: no lease is active, no notification is
// outstanding, and the last lease was released before `now`.
fn is_free(now: u64, phase: &Phase) -> bool
    ensures { result ≡ is_free now phase.now }
{
    match phase {
        Phase::Idle => true,
        Phase::GivenUp(at) => *at < now,
        Phase::TurnOut { at, .. } => *at < now && now - *at > WINDOW,
        Phase::Outstanding { .. } => false,
    }
}

// Returns a time before which no lease can be granted (`is_free` is `false`).
fn free_from(phase: &Phase) -> u64
    ensures { (now : ℕ) → now < result → is_free now phase.now ≡ false }
{
    match phase {
        Phase::Idle => 0,
        Phase::GivenUp(at) => at.saturating_add(1),
        Phase::TurnOut { at, .. } => at.saturating_add(WINDOW + 1),
        Phase::Outstanding { .. } => u64::MAX,
    }
}

// Returns a time before which the phase's notification isn't overdue, or 2^64 - 1 if no
// notification is outstanding.
fn overdue_from(phase: &Phase) -> u64
    ensures { (now : ℕ) → now < result → is_overdue_in now phase.now ≡ false }
{
    match phase {
        Phase::Outstanding {
            sent_at,
            timeout,
            retransmissions,
            ..
        } => sent_at.saturating_add(backoff(*timeout, *retransmissions)),
        _ => u64::MAX,
    }
}

// Returns the timeout after this number of retransmissions: `timeout`, doubled for each of them, at
// most four times.
fn backoff(timeout: u16, retransmissions: u8) -> u64
    ensures { result ≡ backoff timeout retransmissions }
{
    (timeout as u64) << retransmissions.min(MAX_RETRANSMIT)
}

// Returns the timeout of the first transmission, 2,000 to 3,000 ms, from a random number.
fn first_timeout(random: u16) -> u16
    ensures { result ≡ first_timeout random }
{
    ACK_TIMEOUT + random % ACK_TIMEOUTS
}

// Returns a copy of a datagram.
fn copy(bytes: &Datagram) -> Datagram
    ensures { result ≡ bytes.now }
{
    let mut copy = Datagram::new();
    let _fits = copy.try_extend_from_slice(bytes.as_slice());
    copy
}

// Returns a copy of a token.
pub(crate) fn copy_token(token: &Token) -> Token
    ensures { result ≡ token.now }
{
    let mut copy = Token::new();
    let _fits = copy.try_extend_from_slice(token.as_slice());
    copy
}
