//! A server whose programs read a file as their sensors, while the file changes.
use crate::serving::extent_of;
use crate::socket_tests::{client_of, install_reader, readings_of, serve_while};
use fc_fixtures::ports::at_port;
use fc_host::sensors::{FileSensors, Sensors};
use std::net::{Net, SocketAddrV4, UdpSocket};
use std::process::Abort;
use std::random::RandomSource;
use std::rt::Files;
use std::sync::Wait;
use std::test::Fail;
use std::thread::Threads;
use std::time::{Clock, Duration};
use std::{fs, thread};

// Waits 20 ms after the file was changed, and sends a GET. Returns the 56 sensor bytes that the
// program reads, which follow the clock in the readings.
fn sensed<R: Clock>(
    rt: &R,
    client: &UdpSocket,
    server: SocketAddrV4,
    id: u8,
) -> Result<[u8; 56], Fail> {
    thread::sleep(rt, Duration::from_millis(20));
    let readings = readings_of(client, server, id)?;
    let mut sensed = [0; 56];
    sensed.copy_from_slice(&readings[8..]);
    Ok(sensed)
}

// Changes the file, and checks the sensor bytes of each state. Without a file they are zeros. Of 60
// bytes the first 56 are read, and zeros follow three bytes.
fn write_and_ask<R: Abort + AllocGlobal + Net + Clock + RandomSource + Files>(
    rt: &R,
    port: u16,
    path: &str,
) -> Result<(), Fail> {
    install_reader(rt, port);
    let server = at_port(port);
    let client = client_of(rt)?;
    assert!(rt; sensed(rt, &client, server, 1)? == [0; 56], "gone");
    fs::write(rt, path, [7u8; 60].as_slice())?;
    assert!(rt;
        sensed(rt, &client, server, 2)? == [7; 56],
        "56 bytes and more"
    );
    fs::write(rt, path, [8u8; 56].as_slice())?;
    assert!(rt; sensed(rt, &client, server, 3)? == [8; 56], "changed");
    fs::write(rt, path, b"abc".as_slice())?;
    let short = sensed(rt, &client, server, 4)?;
    assert!(rt; short.starts_with(b"abc") && short[3..] == [0; 53], "short");
    fs::remove_file(rt, path)?;
    assert!(rt; sensed(rt, &client, server, 5)? == [0; 56], "gone again");
    Ok(())
}

// Serves a program that replies with its readings, with this many workers, while the file changes.
fn check_sensed<
    R: Abort + AllocGlobal + Threads + Wait + Clock + Net + RandomSource + Files + Sync,
    Z: Sensors + Sync,
>(rt: &R, sensors: &Z, path: &str, workers: u8) -> Result<(), Fail> {
    let extent = extent_of(workers, 6);
    let _memory = serve_while(rt, sensors, extent, |port| write_and_ask(rt, port, path))?;
    Ok(())
}

// With one worker and with two, a program reads the bytes that the file has at that time.
#[test]
fn programs_read_a_file(rt: HostRuntime) -> Result<(), Fail> {
    let path = "readings-of-a-test";
    check_sensed(&rt, &FileSensors::new(&rt, path), path, 1)?;
    check_sensed(&rt, &FileSensors::new(&rt, path), path, 2)
}
