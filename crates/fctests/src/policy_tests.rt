//! A server with a policy, and clients at two addresses of this host.
//!
//! The expected bytes are worked out by hand.
use crate::serving::extent_of;
use crate::socket_tests::{check_logged, serve_since};
use coap_dedup::Limits;
use fc_fixtures::ports::at_port;
use fc_front::{MOST_NETWORKS, Network, Policy};
use fc_host::sensors::NoSensors;
use fc_host::socket::open;
use fc_observe::CONFIRM_AFTER;
use std::io;
use std::net::{Ipv4Addr, Net, SocketAddrV4, UdpSocket};
use std::process::Abort;
use std::sync::Wait;
use std::test::Fail;
use std::thread::Threads;
use std::time::{Clock, Duration};

// A policy with 127.0.0.1 as the only manager, and at most two exchanges for an address.
const POLICY: Policy = Policy {
    managers: [Network {
        ip: [127, 0, 0, 1],
        bits: 32,
    }; MOST_NETWORKS],
    limits: Limits {
        exchanges: 1024,
        share: 2,
    },
    confirm_after: CONFIRM_AFTER,
};

// A confirmable DELETE of /p/0 with message ID 1.
const DELETE_1: [u8; 8] = [0x40, 0x04, 0x00, 0x01, 0xb1, b'p', 0x01, b'0'];

// A confirmable GET of /r/0 with message ID 2.
const GET_2: [u8; 8] = [0x40, 0x01, 0x00, 0x02, 0xb1, b'r', 0x01, b'0'];

// A confirmable GET of /r/0 with message ID 3.
const GET_3: [u8; 8] = [0x40, 0x01, 0x00, 0x03, 0xb1, b'r', 0x01, b'0'];

// A non-confirmable GET of /r/0 with message ID 4.
const NON_4: [u8; 8] = [0x50, 0x01, 0x00, 0x04, 0xb1, b'r', 0x01, b'0'];

// Opens a client's socket at this address of this host.
fn client_at<R: Net>(rt: &R, ip: Ipv4Addr) -> io::Result<UdpSocket> {
    open(rt, SocketAddrV4::new(ip, 0))
}

// Sends a datagram. Returns the first four bytes of the response, or zeros if none arrives within
// this many milliseconds.
fn answered(client: &UdpSocket, port: u16, datagram: &[u8], wait: u64) -> io::Result<[u8; 4]> {
    client.set_read_timeout(Some(Duration::from_millis(wait)))?;
    client.send_to(datagram, at_port(port))?;
    let mut answer = [0; 64];
    match client.recv_from(&mut answer) {
        Ok(_) => Ok([answer[0], answer[1], answer[2], answer[3]]),
        Err(_) => Ok([0; 4]),
    }
}

// Sends requests from the manager's address and from another one. A DELETE from the other address,
// and its duplicate, get 4.03. After two exchanges that address gets 5.03, or no response to a
// non-confirmable request. The manager's DELETE of the empty slot gets 2.02.
fn ask_from_two<R: Abort + Net>(rt: &R, port: u16) -> Result<(), Fail> {
    let other = client_at(rt, Ipv4Addr::new(127, 0, 0, 2))?;
    let manager = client_at(rt, Ipv4Addr::LOCALHOST)?;
    assert!(rt; answered(&other, port, &DELETE_1, 10_000)? == [0x60, 0x83, 0x00, 0x01]);
    assert!(rt; answered(&other, port, &DELETE_1, 10_000)? == [0x60, 0x83, 0x00, 0x01]);
    assert!(rt; answered(&other, port, &GET_2, 10_000)? == [0x60, 0x84, 0x00, 0x02]);
    assert!(rt; answered(&other, port, &GET_3, 10_000)? == [0x60, 0xa3, 0x00, 0x03]);
    assert!(rt; answered(&other, port, &NON_4, 300)? == [0, 0, 0, 0]);
    assert!(rt; answered(&manager, port, &DELETE_1, 10_000)? == [0x60, 0x42, 0x00, 0x01]);
    Ok(())
}

// Serves both addresses with this many workers, and checks the counts that are logged at the end.
fn serve_two<R: Abort + AllocGlobal + Threads + Wait + Clock + Net + Sync>(
    rt: &R,
    workers: u8,
) -> Result<(), Fail> {
    let extent = extent_of(workers, 6);
    let memory = serve_since(
        rt,
        &NoSensors,
        0,
        &POLICY,
        extent,
        |port| ask_from_two(rt, port),
    )?;
    check_logged(rt, memory, "sent 5 failed 0");
    Ok(())
}

// With one worker and with two, managers and shares are distinguished by the clients' addresses.
#[test]
fn a_policy_is_of_addresses(rt: HostRuntime) -> Result<(), Fail> {
    serve_two(&rt, 1)?;
    serve_two(&rt, 2)
}
