//! Observers, leases and notifications, with the times of RFC 7641 and RFC 7252.
use coap_msg::{Datagram, Endpoint, Token};
use fc_help::{Method, Request};
use fc_observe::{Observers, Registered, Ticked, Turn};
use std::process::Abort;
use std::test::Fail;

// 24 hours.
const DAY: u64 = 86_400_000;

// Returns the endpoint of the client at this port.
fn peer(port: u16) -> Endpoint {
    Endpoint {
        ip: [192, 0, 2, 1],
        port,
    }
}

// Returns the token that consists of this byte.
fn token(byte: u8) -> Token {
    let mut token = Token::new();
    let _fits = token.try_extend_from_slice(&[byte]);
    token
}

// Returns the datagram that consists of these bytes.
fn datagram(bytes: &[u8]) -> Datagram {
    let mut datagram = Datagram::new();
    let _fits = datagram.try_extend_from_slice(bytes);
    datagram
}

// Registers the client at this port as an observer of slot 1, with a GET without a payload and a
// token of one byte.
fn register(observers: &mut Observers, now: u64, port: u16, byte: u8, serial: u64) -> Registered {
    let request = Request::new(Method::Get, 1, None, b"", b"");
    observers.register(now, peer(port), &token(byte), &request, Some(2), serial)
}

// Notifies the first observer that is due, with a datagram that consists of the low byte of `id`.
// Returns the observer's port and whether the notification is confirmable, or `None` if no observer
// is due.
fn notify(
    observers: &mut Observers,
    now: u64,
    noticed: u64,
    id: u16,
    serial: u64,
) -> Option<(u16, bool)> {
    let turn = observers.next_due(now, noticed)?;
    let port = observers.out(turn)?.endpoint.port;
    let confirmable = observers.confirmable(now, turn);
    observers.sent(now, turn, id, serial, 0, &datagram(&[(id % 256) as u8]));
    Some((port, confirmable))
}

// The effect of a tick.
#[derive(Clone, Copy, Debug, PartialEq, Eq)]
enum Did {
    Resent,
    Removed,
    Nothing,
}

// Advances the observers to `now`, and returns the effect. Checks that a retransmission has these
// bytes.
fn tick(rt: &impl Abort, observers: &mut Observers, now: u64, bytes: &[u8]) -> Did {
    match observers.tick(now) {
        Ticked::Resend(emission) => {
            assert!(rt; emission.bytes.as_slice() == bytes);
            Did::Resent
        }
        Ticked::Removed => Did::Removed,
        Ticked::Quiet => Did::Nothing,
    }
}

// The ticks after a confirmable notification that was sent at DAY with the random word 0. Each has
// the time since DAY, in milliseconds, and the effect.
static TICKS: [(u64, Did); 11] = [
    (1_999, Did::Nothing),
    (2_000, Did::Resent),
    (2_000, Did::Nothing),
    (5_999, Did::Nothing),
    (6_000, Did::Resent),
    (14_000, Did::Resent),
    (29_999, Did::Nothing),
    (30_000, Did::Resent),
    (61_999, Did::Nothing),
    (62_000, Did::Removed),
    (62_001, Did::Nothing),
];

// A notification without an acknowledgement is sent again after 2, 6, 14 and 30 s. After 62 s the
// observer is removed.
#[test]
fn overdue_notifications_are_sent_again(rt: HostRuntime) -> Result<(), Fail> {
    let mut observers = Observers::new(rt.alloc(), 1, DAY)?;
    assert!(rt; register(&mut observers, 0, 1, 0x6f, 7) == Registered::Entered);
    assert!(rt; notify(&mut observers, DAY - 1, 8, 0, 8) == Some((1, false)));
    assert!(rt; notify(&mut observers, DAY, 8, 1, 8) == None);
    assert!(rt; notify(&mut observers, DAY, 9, 1, 9) == Some((1, true)));
    for (after, wanted) in &TICKS {
        let (after, wanted) = (*after, *wanted);
        assert!(rt; observers.is_overdue(DAY + after) == (wanted != Did::Nothing));
        assert!(rt;
            tick(&rt, &mut observers, DAY + after, &[1]) == wanted,
            "{after}"
        );
    }
    assert!(rt; !observers.is_due(2 * DAY, 10));
    Ok(())
}

// A notification is confirmable if it is sent at least 1,000 ms, the given time, after the
// registration.
#[test]
fn notifications_are_confirmable_once_their_time_has_passed(rt: HostRuntime) -> Result<(), Fail> {
    let mut observers = Observers::new(rt.alloc(), 1, 1_000)?;
    register(&mut observers, 5, 1, 0x6f, 7);
    assert!(rt; notify(&mut observers, 1_004, 8, 0, 8) == Some((1, false)));
    assert!(rt; notify(&mut observers, 1_005, 9, 1, 9) == Some((1, true)));
    Ok(())
}

// A notification is acknowledged only by an Acknowledgement from the observer's endpoint with the
// notification's message ID.
#[test]
fn acknowledgements_end_the_wait(rt: HostRuntime) -> Result<(), Fail> {
    let mut observers = Observers::new(rt.alloc(), 1, DAY)?;
    register(&mut observers, 0, 1, 0x6f, 7);
    assert!(rt; notify(&mut observers, DAY, 8, 5, 8) == Some((1, true)));
    observers.acked(peer(2), 5);
    observers.acked(peer(1), 6);
    assert!(rt; observers.is_overdue(DAY + 2_000));
    observers.acked(peer(1), 5);
    assert!(rt; !observers.is_overdue(DAY + 2_000));
    assert!(rt; notify(&mut observers, DAY + 1, 9, 6, 9) == Some((1, false)));
    Ok(())
}

// A Reset message removes the observer with that endpoint whose notification has the message ID. A
// cancellation removes the observer with that endpoint and token.
#[test]
fn resets_and_cancelling_remove(rt: HostRuntime) -> Result<(), Fail> {
    let mut observers = Observers::new(rt.alloc(), 1, DAY)?;
    register(&mut observers, 0, 1, 0x6f, 7);
    register(&mut observers, 0, 2, 0x6f, 7);
    register(&mut observers, 0, 3, 0x6f, 7);
    assert!(rt; notify(&mut observers, 1, 8, 4, 8) == Some((1, false)));
    assert!(rt; notify(&mut observers, 1, 8, 5, 8) == Some((2, false)));
    observers.reset(peer(2), 4);
    observers.reset(peer(1), 4);
    observers.cancel(peer(3), &token(0x6f));
    assert!(rt; notify(&mut observers, 2, 9, 6, 9) == Some((2, false)));
    assert!(rt; notify(&mut observers, 2, 9, 7, 9) == None);
    Ok(())
}

// A 33rd observer isn't registered. A registration with the endpoint and token of an observer
// replaces that observer, and the new one is notified last.
#[test]
fn renewed_observers_are_one(rt: HostRuntime) -> Result<(), Fail> {
    let mut observers = Observers::new(rt.alloc(), 1, DAY)?;
    for port in 0..32 {
        assert!(rt; register(&mut observers, 0, port, 1, 0) == Registered::Entered);
    }
    assert!(rt; register(&mut observers, 0, 32, 1, 0) == Registered::Full);
    assert!(rt; register(&mut observers, 0, 0, 2, 0) == Registered::Full);
    assert!(rt; register(&mut observers, 0, 0, 1, 0) == Registered::Replaced);
    for port in 1..32 {
        assert!(rt; notify(&mut observers, 1, 1, port, 1) == Some((port, false)));
    }
    assert!(rt; notify(&mut observers, 1, 1, 32, 1) == Some((0, false)));
    assert!(rt; notify(&mut observers, 1, 1, 33, 1) == None);
    Ok(())
}

// A lease that is released or has expired can't be used, and its observer is due again 1 ms later.
// A lease expires 247,000 ms after it was granted.
#[test]
fn turns_are_given_up(rt: HostRuntime) -> Result<(), Fail> {
    let mut observers = Observers::new(rt.alloc(), 1, DAY)?;
    register(&mut observers, 0, 1, 0x6f, 7);
    let first = observers.next_due(10, 8).ok_or("due")?;
    assert!(rt; first == Turn { slot: 1, number: 0 });
    let observer = observers.out(first).ok_or("out")?;
    assert!(rt; observer.token.as_slice() == [0x6f].as_slice() && observer.szx == Some(2));
    assert!(rt; observer.request.slot() == 1);
    observers.give_up(first, 20);
    observers.sent(20, first, 0, 8, 0, &datagram(b"late"));
    assert!(rt; observers.out(first).is_none() && observers.next_due(20, 9).is_none());
    let second = observers.next_due(21, 9).ok_or("due again")?;
    // The second lease expires at 247,021.
    observers.advance(247_020);
    assert!(rt; observers.out(second).is_some() && observers.next_due(247_020, 9).is_none());
    observers.advance(247_021);
    assert!(rt; observers.out(second).is_none() && observers.next_due(247_021, 9).is_none());
    let third = observers.next_due(247_022, 9).ok_or("due once more")?;
    observers.end(second);
    assert!(rt; observers.out(third).is_some());
    observers.end(third);
    assert!(rt; observers.out(third).is_none() && !observers.is_due(300_000, 10));
    Ok(())
}

// A lease that is marked as missing stays marked until it expires, and no other lease is marked.
#[test]
fn turns_keep_that_the_slot_was_empty(rt: HostRuntime) -> Result<(), Fail> {
    let mut observers = Observers::new(rt.alloc(), 1, DAY)?;
    register(&mut observers, 0, 1, 0x6f, 7);
    register(&mut observers, 0, 2, 0x6f, 7);
    let first = observers.next_due(1, 8).ok_or("due")?;
    let second = observers.next_due(1, 8).ok_or("due too")?;
    assert!(rt; observers.is_out(second) && !observers.is_missing(second));
    observers.mark_missing(second);
    observers.advance(247_000);
    assert!(rt; observers.is_missing(second) && !observers.is_missing(first));
    // Both leases have expired.
    observers.advance(247_001);
    assert!(rt; !observers.is_missing(second) && !observers.is_out(second));
    Ok(())
}

// `idle_until` returns the time of the next action: 0 for an observer that is due, the time after
// which a lease has expired or was released, or the timeout of a notification. If there is no such
// action, it is `u64::MAX`.
#[test]
fn a_list_is_idle_until_it_has_something_to_do(rt: HostRuntime) -> Result<(), Fail> {
    let mut observers = Observers::new(rt.alloc(), 1, DAY)?;
    assert!(rt; observers.idle_until(8) == u64::MAX);
    register(&mut observers, 0, 1, 0x6f, 7);
    assert!(rt; observers.idle_until(7) == u64::MAX && observers.idle_until(8) == 0);
    let turn = observers.next_due(10, 8).ok_or("due")?;
    assert!(rt; observers.idle_until(8) == 247_011);
    observers.give_up(turn, 20);
    assert!(rt; observers.idle_until(8) == 21 && observers.idle_until(7) == u64::MAX);
    assert!(rt; notify(&mut observers, DAY, 8, 5, 8) == Some((1, true)));
    assert!(rt; observers.idle_until(9) == DAY + 2_000);
    assert!(rt; tick(&rt, &mut observers, DAY + 2_050, &[5]) == Did::Resent);
    assert!(rt; observers.idle_until(9) == DAY + 6_050);
    observers.acked(peer(1), 5);
    assert!(rt; observers.idle_until(8) == u64::MAX);
    Ok(())
}
