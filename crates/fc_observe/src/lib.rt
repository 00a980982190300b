//! The observers of a slot: registrations, leases, notifications (RFC 7641).
//!
//! [`Observers`] is the list of observers, in order of registration. The slot's *noticed revision*
//! is that of its last change that requires notifications. After such a change, observers have
//! pending notifications. Each of them gets a notification lease by [`Observers::next_due`], and
//! its request is executed again. A lease records whether its snapshot found the slot empty
//! ([`Observers::mark_missing`]).
//!
//! A lease ends with its notification ([`Observers::sent`]), with the removal of its observer
//! ([`Observers::end`]), or by its release. [`Observers::tick`] retransmits a confirmable
//! notification until it is acknowledged.
//!
//! In contracts the list is the record of `specs/Observers`: the slot, `confirm_after`, the
//! greatest time passed to the list, the number of leases granted, and the entries. Times, in
//! milliseconds, and random words are arguments. Only `new` allocates memory.
//!
//! ```rust
//! use coap_msg::{Datagram, Emission, Endpoint, Token};
//! use fc_help::Request;
//! use fc_observe::{Observers, Registered, Ticked};
//!
//! /// Returns whether the response to a GET of the slot with Observe 0 has Observe too.
//! ///
//! /// The request found the revision `serial`.
//! fn observe(
//!     observers: &mut Observers,
//!     now: u64,
//!     from: Endpoint,
//!     token: &Token,
//!     request: &Request,
//!     serial: u64,
//! ) -> bool {
//!     observers.register(now, from, token, request, None, serial) != Registered::Full
//! }
//!
//! /// Notifies the first observer with a pending notification, and returns its endpoint.
//! ///
//! /// The notification has these bytes, and is for the revision `serial`.
//! fn notify(
//!     observers: &mut Observers,
//!     now: u64,
//!     notify_serial: u64,
//!     id: u16,
//!     serial: u64,
//!     bytes: &Datagram,
//! ) -> Option<Endpoint> {
//!     let turn = observers.next_due(now, notify_serial)?;
//!     let endpoint = observers.out(turn)?.endpoint;
//!     observers.sent(now, turn, id, serial, 0, bytes);
//!     Some(endpoint)
//! }
//!
//! /// Returns the notification to retransmit at `now`, if there is one.
//! fn overdue(observers: &mut Observers, now: u64) -> Option<Emission> {
//!     match observers.tick(now) {
//!         Ticked::Resend(emission) => Some(emission),
//!         Ticked::Removed | Ticked::Quiet => None,
//!     }
//! }
//! ```
//!
//! # What is proved
//!
//! - A slot has at most 32 observers, and one per endpoint and token. A registration is new,
//!   replaces the one of its endpoint and token, or is refused because of 32 others. If fewer than
//!   32 observe the slot, the registration is entered.
//! - The first observer with a pending notification gets the lease. An observer has a pending
//!   notification exactly if these conditions hold: the last revision sent to it is below the
//!   slot's noticed one; none of its confirmable notifications is outstanding; none of its leases
//!   is active, and none was released at this time. So a change of readings alone makes no
//!   notification pending.
//! - A lease belongs to one observer. The lease is no longer active once its notification is sent,
//!   its observer is removed, or the lease is released. It is released after 247,000 ms at the
//!   latest. An active lease keeps the mark that its snapshot found the slot empty.
//! - A call registered each entry of the list after it, or the entry was in the list before. In the
//!   second case it is unchanged, or changed as that call changes entries. An entry's message ID is
//!   that of its last notification.
//! - A notification is confirmable exactly if the list's `confirm_after` has passed since its
//!   observer's registration or last confirmable notification. A confirmable notification is
//!   retransmitted after t, 2t, 4t and 8t with the same bytes, where t is 2,000 to 3,000 ms. 16t
//!   later its observer is removed. A tick retransmits the first notification that timed out.
//! - An Acknowledgement ends the wait of just the entries whose last notification it matches, and a
//!   Reset removes just those. A removed observer gets nothing before it registers again.
//! - The revisions sent to an observer increase, if each notification's is at least the noticed
//!   revision of its lease.
//! - `check_idle` returns `true` exactly if no notification has timed out, and no observer has a
//!   pending one, whatever the list cached before. Before the time that `idle_until` returns, both
//!   conditions hold unless the list is called.
//! - `len` returns the number of observers.
//!
//! By the contracts of `Observers::register`, `next_due`, `check_idle`, `idle_until`, `out`,
//! `mark_missing`, `sent`, `end`, `give_up`, `reset`, `acked`, `tick`, `len`,
//! `laws`.
#![tactic(auto)]

pub mod entry;
pub mod laws;
pub mod observers;

pub use entry::{CONFIRM_AFTER, Entry, Observer, Phase, Turn};
pub use observers::{Observers, Registered, Ticked};
