//! Pings of a server by the client's program.
use crate::serving::extent_of;
use crate::socket_tests::serve_while;
use fc_cli::Status;
use fc_fetch::Pinging;
use fc_fetch::ping::ping;
use fc_host::sensors::NoSensors;
use std::alloc::Global;
use std::net::Net;
use std::process::Abort;
use std::random::RandomSource;
use std::test::Fail;
use std::time::Clock;

// Checks that a ping of a server succeeds, and writes no message.
fn check_ping<R: Abort + Net + Clock + RandomSource>(rt: &R, alloc: Global, pinging: &Pinging<'_>) {
    let mut err = Vec::new(alloc);
    let ended = ping(rt, alloc, &mut err, pinging);
    assert!(rt; ended == Status::Done && err.is_empty());
}

// Checks a ping of the server of this URI.
fn check_ping_of<R: Abort + Net + Clock + RandomSource>(rt: &R, alloc: Global, uri: &str) {
    let pinging = Pinging {
        target: Some(uri),
        port: None,
    };
    check_ping(rt, alloc, &pinging);
}

// A server responds to a ping with a Reset message that has the ping's message ID (RFC 7252,
// section 4.3). The ping ends with `Done`.
#[test]
fn a_server_answers_a_ping(rt: HostRuntime) -> Result<(), Fail> {
    let extent = extent_of(1, 1);
    let _memory = serve_while(&rt, &NoSensors, extent, |port| {
        let pinging = Pinging {
            target: None,
            port: Some(port),
        };
        check_ping(&rt, rt.alloc(), &pinging);
        Ok(())
    })?;
    Ok(())
}

// A ping accepts the URI of a server, with or without a `/` at its end (RFC 7252, section 6.4).
#[test]
fn a_server_answers_a_ping_of_its_uri(rt: HostRuntime) -> Result<(), Fail> {
    let extent = extent_of(1, 2);
    let _memory = serve_while(&rt, &NoSensors, extent, |port| {
        let bare = format!(in rt.alloc(); "coap://127.0.0.1:{port}")?;
        check_ping_of(&rt, rt.alloc(), bare.as_str());
        let slash = format!(in rt.alloc(); "coap://127.0.0.1:{port}/")?;
        check_ping_of(&rt, rt.alloc(), slash.as_str());
        Ok(())
    })?;
    Ok(())
}
