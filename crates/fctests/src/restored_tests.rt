//! A server that starts with stored slots, on one thread and with workers.
use crate::serving::extent_of;
use crate::socket_tests::{check_asked, unrecorded};
use coap_opts::Method;
use fc_cli::Status;
use fc_fixtures::images::SHOW_8;
use fc_fixtures::ports::at_port;
use fc_front::DEFAULT_POLICY;
use fc_host::sensors::NoSensors;
use fc_host::socket::{Receiving, open};
use fc_server::FirstServer;
use fc_service::serve::{Service, serve_at};
use fc_service::slots::Slots;
use fc_store::{NoStore, StoredProgram, StoredSlot};
use log::sink::Memory;
use log::{LevelFilter, Logged};
use std::alloc::Global;
use std::array::from_fn;
use std::net::{Net, UdpSocket};
use std::process::Abort;
use std::random::RandomSource;
use std::sync::Wait;
use std::test::Fail;
use std::thread;
use std::thread::Threads;
use std::time::Clock;

// Returns slots of which slot 1 is stored at serial 5: this program, installed at serial 3, with
// the variables 1 to 8. The other slots are stored as empty, at serial 0.
fn stored_slots(alloc: Global, image: &[u8]) -> Result<Slots<NoStore>, Fail> {
    let mut stored: [StoredSlot; 64] = from_fn(|_| StoredSlot::blank());
    stored[1] = StoredSlot {
        serial: 5,
        program: Some(StoredProgram {
            version: 3,
            image: Vec::from_slice(alloc, image)?,
            vars: Vec::from_slice(alloc, &[1, 2, 3, 4, 5, 6, 7, 8])?,
        }),
    };
    match FirstServer::over(alloc, &stored, 0, &DEFAULT_POLICY) {
        Ok(first) => Ok(Slots::of(first, NoStore)),
        Err(_) => Err("the slots are restored".into()),
    }
}

// Serves two datagrams of a socket with these slots. Returns whether serving succeeded.
fn serve_stored<R: Threads + Wait + Clock + Sync>(
    rt: &R,
    alloc: Global,
    socket: &UdpSocket,
    image: &[u8],
    workers: u8,
) -> Result<bool, Fail> {
    let memory = Memory::new(alloc);
    let log = Logged::new(rt, LevelFilter::Off, &memory);
    let mut err = Vec::new(alloc);
    let service = Service {
        alloc,
        records: &unrecorded(&log),
        sensors: &NoSensors,
        timers: Vec::new(alloc),
        extent: extent_of(workers, 2),
    };
    let slots = stored_slots(alloc, image)?;
    let served = serve_at(rt, &mut err, service, slots, Receiving::new(socket), socket);
    Ok(served.is_some())
}

// Checks that a server with this many workers finds the stored program and its variables.
fn check_restored<R: Abort + AllocGlobal + Threads + Wait + Clock + Net + RandomSource + Sync>(
    rt: &R,
    workers: u8,
) -> Result<(), Fail> {
    let alloc = rt.alloc();
    let receipt = hex::encode(alloc, b"version=3 cost=5 budget=100 vars=8".as_slice())?;
    let described = format!(in alloc; "2.05\n{receipt}\n")?;
    let socket = open(rt, at_port(0))?;
    let port = socket.local_addr()?.port();
    let (served, ()) = thread::join(
        rt,
        || serve_stored(rt, alloc, &socket, SHOW_8, workers),
        || {
            let shown = "2.05\n0102030405060708\n";
            check_asked(rt, port, Method::Get, "/r/1", &[], Status::Done, shown);
            let described = described.as_str();
            check_asked(rt, port, Method::Get, "/p/1", &[], Status::Done, described);
        },
    );
    assert!(rt; served?);
    Ok(())
}

// With one worker and with two, a server that starts with stored slots runs their programs. Each
// program has its stored version and variables.
#[test]
fn a_server_starts_with_stored_slots(rt: HostRuntime) -> Result<(), Fail> {
    check_restored(&rt, 1)?;
    check_restored(&rt, 2)
}
