//! The exchange table, as a caller sees it.
ghost use Rattle.std.specs.Prelude.{◌≡◌, ◌≤◌};

use coap_dedup::{Closed, DEFAULT_LIMITS, Exchanges, Looked, Room};
use coap_msg::{Datagram, Endpoint};
use std::alloc::AllocError;
use std::process::Abort;
use std::test::Fail;

const CLIENT: Endpoint = Endpoint {
    ip: [127, 0, 0, 1],
    port: 5683,
};

// Looks up the exchange of a confirmable request, and opens one if the request is new and there is
// room. Returns whether an exchange was opened.
fn arrives(exchanges: &mut Exchanges, now: u64, from: Endpoint, id: u16) -> bool
    requires { exchanges.old.now ≤ now }
    ensures { exchanges.new.now ≡ now }
{
    match exchanges.look(now, from, id) {
        Looked::New => match exchanges.room(from.ip) {
            Room::Free => {
                exchanges.open(now, from, id, true);
                true
            }
            Room::Full | Room::OverShare => false,
        },
        _ => false,
    }
}

// Exchanges expire in the order in which they were opened. A key whose exchange expired can be
// opened again, and its new exchange expires last.
#[test]
fn exchanges_end_in_order_of_arrival(rt: HostRuntime) -> Result<(), AllocError> {
    let mut exchanges = Exchanges::new(rt.alloc(), DEFAULT_LIMITS)?;
    assert!(rt; arrives(&mut exchanges, 0, CLIENT, 1));
    assert!(rt; arrives(&mut exchanges, 1, CLIENT, 2));
    assert!(rt; arrives(&mut exchanges, 2, CLIENT, 3));
    assert!(rt; arrives(&mut exchanges, 247_000, CLIENT, 1));
    assert!(rt; arrives(&mut exchanges, 247_001, CLIENT, 2));
    assert!(rt; !arrives(&mut exchanges, 247_001, CLIENT, 1));
    assert!(rt; !arrives(&mut exchanges, 247_001, CLIENT, 3));
    exchanges.expire(494_000);
    assert!(rt; arrives(&mut exchanges, 494_000, CLIENT, 1));
    assert!(rt; !arrives(&mut exchanges, 494_000, CLIENT, 2));
    Ok(())
}

// A search compares no key if no exchange is stored. Otherwise it begins with the latest request's
// key, and goes on in the middle of the keys below or above. Calls other than searches don't change
// the number of comparisons.
#[test]
fn looks_count_their_comparisons(rt: HostRuntime) -> Result<(), AllocError> {
    let mut exchanges = Exchanges::new(rt.alloc(), DEFAULT_LIMITS)?;
    assert!(rt; arrives(&mut exchanges, 0, CLIENT, 1) && exchanges.comparisons() == 0);
    assert!(rt; arrives(&mut exchanges, 0, CLIENT, 2) && exchanges.comparisons() == 1);
    assert!(rt; arrives(&mut exchanges, 0, CLIENT, 3) && exchanges.comparisons() == 1);
    assert!(rt; !arrives(&mut exchanges, 0, CLIENT, 3) && exchanges.comparisons() == 1);
    assert!(rt; !arrives(&mut exchanges, 0, CLIENT, 2) && exchanges.comparisons() == 2);
    assert!(rt; !arrives(&mut exchanges, 0, CLIENT, 1) && exchanges.comparisons() == 3);
    exchanges.close(0, 0, &Datagram::new());
    exchanges.expire(247_000);
    assert!(rt; exchanges.comparisons() == 3);
    Ok(())
}

// Returns the endpoint and message ID of the exchange with this number. There are two hosts, 1,024
// ports in no order, and three message IDs.
fn key(number: u16) -> (Endpoint, u16) {
    let host = if number % 2 == 0 { 1 } else { 2 };
    let client = Endpoint {
        ip: [10, 0, 0, host],
        port: number.wrapping_mul(40_503),
    };
    (client, number % 3)
}

// Returns the response of the exchange with this number: the number's two bytes.
fn answer(number: u16) -> Datagram {
    let mut bytes = Datagram::new();
    let _fits = bytes.try_extend_from_slice(&number.to_be_bytes());
    bytes
}

// Opens 1,024 exchanges, and closes each with its response.
fn fill(rt: &impl Abort, exchanges: &mut Exchanges)
    requires { exchanges.old.now ≡ 0 }
    ensures { exchanges.new.now ≡ 0 }
{
    for number in 0..1024 {
        let (client, id) = key(number);
        assert!(rt; arrives(exchanges, 0, client, id), "{number}");
        let closed = exchanges.close(0, u64::from(number), &answer(number));
        assert!(rt; closed == Closed::Closed, "{number}");
    }
}

// Looks up 1,024 exchanges. Each is found with at most eleven comparisons, and has the response
// with which it was closed.
fn find_all(rt: &impl Abort, exchanges: &mut Exchanges)
    requires { exchanges.old.now ≡ 0 }
    ensures { exchanges.new.now ≡ 0 }
{
    for number in 0..1024 {
        let (client, id) = key(number);
        let found = match exchanges.look(0, client, id) {
            Looked::Again(bytes) => bytes.as_slice() == answer(number).as_slice(),
            _ => false,
        };
        let comparisons = exchanges.comparisons();
        assert!(rt;
            found && 0 < comparisons && comparisons <= 11,
            "{number}: {comparisons}"
        );
    }
}

// A table of 1,024 exchanges finds each of them, and has no room for another one. After 247,000 ms
// a response is too late.
#[test]
fn each_of_1024_exchanges_is_found(rt: HostRuntime) -> Result<(), Fail> {
    let mut exchanges = Exchanges::new(rt.alloc(), DEFAULT_LIMITS)?;
    assert_eq!(rt; exchanges.comparisons(), 0);
    fill(&rt, &mut exchanges);
    find_all(&rt, &mut exchanges);
    assert!(rt; !arrives(&mut exchanges, 0, CLIENT, 1));
    assert!(rt; exchanges.close(247_000, 0, &answer(0)) == Closed::Late);
    Ok(())
}
