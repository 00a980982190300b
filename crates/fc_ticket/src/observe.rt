//! Registration and removal of a GET's client as an observer (RFC 7641).
ghost use Rattle.std.specs.Prelude.{◌≡◌};
ghost use Rattle.fc_observe.specs.Calls.{Register, after_calls, observers_after};
ghost use Rattle.fc_observe.specs.Observers.{registration};
ghost use Rattle.fc_ticket.specs.Registrations.{is_entered, is_first_block, is_observed, observe_calls, is_registration, szx_of};
ghost use Rattle.fc_ticket.specs.Runs.{run_of};

use crate::ticket::Ticket;
use coap_msg::Code;
use coap_opts::{Block, CANCEL, REGISTER, has_observe};
use fc_machine::Outcome;
use fc_observe::{Observers, Registered};

/// Registers or removes the client of a run as an observer, if the run's request asks for that.
///
/// The run has nothing to write. `now` is in milliseconds. Returns whether the client observes the
/// slot from now on.
pub fn observe(watch: &mut Observers, now: u64, outcome: &Outcome<'_>, ticket: &Ticket<'_>) -> bool
    requires { outcome.now ≡ run_of ticket.now }
    ensures observed { result ≡ is_observed ticket.now watch.old }
    ensures watch { watch.new ≡ after_calls (observe_calls now ticket.now) watch.old }
{
    if is_registration(outcome, ticket) {
        return register(watch, now, ticket);
    }
    if has_observe(CANCEL, ticket.observe()) {
        watch.cancel(ticket.origin().endpoint, ticket.token());
    }
    false
}

// Returns whether the run registers the client as an observer. It does if the request has Observe 0
// and is for the first block, and the response is 2.05 (Content).
fn is_registration(outcome: &Outcome<'_>, ticket: &Ticket<'_>) -> bool
    requires { outcome.now ≡ run_of ticket.now }
    ensures { result ≡ is_registration ticket.now }
{
    has_observe(REGISTER, ticket.observe())
        && is_first_block(ticket.block())
        && outcome.code() == Code::CONTENT.byte
}

// Registers the client of the ticket's request. Returns whether there was room for the client; if
// not, no entry of `watch` changes.
fn register(watch: &mut Observers, now: u64, ticket: &Ticket<'_>) -> bool
    ensures room { result ≡ is_entered (registration ticket.now.origin.endpoint ticket.now.token.items watch.old) }
    ensures watch { watch.new ≡ observers_after
        (Register now ticket.now.origin.endpoint ticket.now.token ticket.now.request (szx_of ticket.now.block) ticket.now.serial)
        watch.old }
{
    let registered = watch.register(
        now,
        ticket.origin().endpoint,
        ticket.token(),
        ticket.request(),
        szx_of(ticket.block()),
        ticket.serial(),
    );
    is_entered(registered)
}

// Returns whether a client is registered, that is, whether the list wasn't full.
fn is_entered(registered: Registered) -> bool
    ensures { result ≡ is_entered registered }
{
    match registered {
        Registered::Entered | Registered::Replaced => true,
        Registered::Full => false,
    }
}

// Returns whether a request is for the first block of a response: it names block 0, or no block.
fn is_first_block(block: Option<Block>) -> bool
    ensures { result ≡ is_first_block block }
{
    match block {
        None => true,
        Some(block) => block.number() == 0,
    }
}

// Returns the size exponent (SZX) of the block that a request names, or `None` if it names none.
fn szx_of(block: Option<Block>) -> Option<u8>
    ensures { result ≡ szx_of block }
{
    match block {
        None => None,
        Some(block) => Some(block.szx()),
    }
}
