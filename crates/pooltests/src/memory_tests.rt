//! Each test makes one call that allocates memory, with enough memory.
//!
//! The script tests/refused-memory refuses each allocation of these calls.
use coap_block::Uploads;
use coap_dedup::{DEFAULT_LIMITS, Exchanges};
use coap_msg::Endpoint;
use fc_front::{DEFAULT_POLICY, Front};
use fc_heads::Heads;
use fc_jobs::Jobs;
use fc_observe::{CONFIRM_AFTER, Observers};
use fc_registry::Shard;
use fc_ticket::{Job, SlotNumber};
use fc_world::{Event, run_world};
use std::alloc::AllocError;
use std::process::Abort;

// A new table of exchanges has compared no key.
#[test]
fn exchanges_are_made(rt: HostRuntime) -> Result<(), AllocError> {
    assert!(rt; Exchanges::new(rt.alloc(), DEFAULT_LIMITS)?.comparisons() == 0);
    Ok(())
}

// A table of uploads is allocated.
#[test]
fn transfers_are_made(rt: HostRuntime) -> Result<(), AllocError> {
    let _none = Uploads::new(rt.alloc())?;
    Ok(())
}

// A new list of observers is empty.
#[test]
fn observers_are_made(rt: HostRuntime) -> Result<(), AllocError> {
    assert!(rt; Observers::new(rt.alloc(), 1, CONFIRM_AFTER)?.is_empty());
    Ok(())
}

// A new front first draws the message ID with which it was made.
#[test]
fn a_front_is_made(rt: HostRuntime) -> Result<(), AllocError> {
    assert!(rt; Front::new(rt.alloc(), &DEFAULT_POLICY, 7)?.fresh_id(0) == Some(7));
    Ok(())
}

// A slot of a new shard has the serial with which the shard was made.
#[test]
fn a_shard_is_made(rt: HostRuntime) -> Result<(), AllocError> {
    let shard = Shard::new(rt.alloc(), 3, 41, CONFIRM_AFTER)?;
    assert!(rt; shard.serial(SlotNumber::new(3)) == 41);
    Ok(())
}

// A new head word is 0.
#[test]
fn head_words_are_made(rt: HostRuntime) -> Result<(), AllocError> {
    let (heads, mut seat) = Heads::new(rt.alloc())?;
    assert!(rt; heads.peek(5, &mut seat) == 0);
    Ok(())
}

// A channel for two workers has two receiving ends.
#[test]
fn a_channel_is_made(rt: HostRuntime) -> Result<(), AllocError> {
    let (_jobs, _sent, gots) = Jobs::<Job>::new(rt.alloc(), 2)?;
    assert!(rt; gots.len() == 2);
    Ok(())
}

// Two events: a ping arrives, and time passes.
static EVENTS: [Event<'static>; 2] = [
    Event::Deliver {
        now: 0,
        endpoint: Endpoint {
            ip: [127, 0, 0, 1],
            port: 5683,
        },
        bytes: b"\x40\x00\x00\x07",
    },
    Event::Tick { now: 1 },
];

// The ping is answered with a Reset message, and the result has an entry for each of the events.
#[test]
fn a_list_is_carried_out(rt: HostRuntime) -> Result<(), AllocError> {
    let world = run_world(rt.alloc(), &EVENTS)?;
    let mut sent = world.emissions.iter().flatten();
    let is_reset = sent.next().is_some_and(|emission| emission.bytes.as_slice()
        == b"\x70\x00\x00\x07".as_slice());
    assert!(rt; is_reset && world.emissions.len() == 2);
    Ok(())
}
