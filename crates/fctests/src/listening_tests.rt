//! The address at which `serve` listens, and a server's use of its host.
//!
//! A client at another address of this host tests where the server listens. The parts of the host
//! that a server uses are its socket, the waits of a receive, and random words.
use crate::serving::{extent_of, slots_without_store};
use crate::socket_tests::unrecorded;
use coap_msg::Endpoint;
use fc_backend::{CallLog, TimeSource};
use fc_cli::Status;
use fc_config::options::Listening;
use fc_fixtures::ports::{at_port, free_port};
use fc_front::DEFAULT_POLICY;
use fc_front::front::blank_emission;
use fc_host::clock::Elapsed;
use fc_host::sensors::NoSensors;
use fc_host::socket::{BUFFER, Receiving, Sink, Source, open};
use fc_service::serve::{Service, serve};
use log::sink::Memory;
use log::{LevelFilter, Logged};
use std::io::Write;
use std::net::{Ipv4Addr, Net, SocketAddrV4, UdpSocket};
use std::process::Abort;
use std::sync::Wait;
use std::sync::atomic::{AtomicUsize, Ordering};
use std::test::Fail;
use std::thread::Threads;
use std::time::{Clock, Duration, Instant};
use std::{io, thread};

// Returns the address 127.0.0.2, another one of this host, with this port.
fn at_other(port: u16) -> SocketAddrV4 {
    SocketAddrV4::new(Ipv4Addr::new(127, 0, 0, 2), port)
}

// A writer that counts the calls of `write`.
#[derive(Drop)]
struct Told<'a> {
    writes: &'a AtomicUsize,
}

impl<'a> Write for Told<'a> {
    fn write(&mut self, buf: &[u8]) -> io::Result<usize> {
        let _before = self.writes.fetch_add(1, Ordering::SeqCst);
        Ok(buf.len())
    }

    fn flush(&mut self) -> io::Result<()> {
        Ok(())
    }
}

// Sends a GET of slot 0, which is empty. Returns whether the response is 4.04 and arrives before
// the client's wait ends.
fn is_answered(client: &UdpSocket, server: SocketAddrV4, id: u8) -> bool {
    let _sent = client.send_to(&[0x40, 0x01, 0x00, id, 0xb1, b'r', 0x01, b'0'], server);
    let mut answer = [0; 16];
    match client.recv_from(&mut answer) {
        Ok((count, _from)) => answer[..count] == [0x60, 0x84, 0x00, id],
        Err(_) => false,
    }
}

// Opens a client's socket at 127.0.0.2. A receive from it fails after `wait` milliseconds.
fn other_client<R: Net>(rt: &R, wait: u64) -> io::Result<UdpSocket> {
    let client = open(rt, at_other(0))?;
    client.set_read_timeout(Some(Duration::from_millis(wait)))?;
    Ok(client)
}

// Serves up to `limit` datagrams at an address, while `ask` sends requests. `ask` begins when the
// server has printed its address, or after five seconds. Checks that the server ends with `Done`,
// and prints its address exactly if `told` is true.
fn serve_at_address<
    R: Abort + AllocGlobal + Threads + Wait + Clock + Net + Sync,
    F: FnOnce() -> Result<(), Fail> + Send,
>(rt: &R, address: SocketAddrV4, told: bool, limit: u32, ask: F) -> Result<(), Fail>
    requires { F.IsAlwaysCallable ask }
{
    let alloc = rt.alloc();
    let writes = AtomicUsize::new(0);
    let extent = extent_of(2, limit);
    let listening = Listening { address, told };
    let (asked, status) = thread::join(
        rt,
        || -> Result<(), Fail>
            requires { F.IsAlwaysCallable ask }
        {
            for _ in 0..500u16 {
                if writes.load(Ordering::SeqCst) > 0 {
                    break;
                }
                thread::sleep(rt, Duration::from_millis(10));
            }
            ask()
        },
        || {
            let memory = Memory::new(alloc);
            let log = Logged::new(rt, LevelFilter::Off, &memory);
            let mut err = Told { writes: &writes };
            let Ok(slots) = slots_without_store(alloc, 0, &DEFAULT_POLICY) else {
                return Status::Failed;
            };
            let service = Service {
                alloc,
                records: &unrecorded(&log),
                sensors: &NoSensors,
                timers: Vec::new(alloc),
                extent,
            };
            serve(rt, &mut err, service, slots, listening)
        },
    );
    asked?;
    assert!(rt; status == Status::Done);
    assert!(rt; (writes.load(Ordering::SeqCst) > 0) == told);
    Ok(())
}

// A server at 0.0.0.0 listens at each address of this host. It responds from the address at which
// it received the request.
#[test]
fn a_server_listens_at_every_address_where_it_is_told_to(rt: HostRuntime) -> Result<(), Fail> {
    let port = free_port(&rt)?;
    let client = other_client(&rt, 5000)?;
    let every = SocketAddrV4::new(Ipv4Addr::UNSPECIFIED, port);
    serve_at_address(&rt, every, true, 1, || -> Result<(), Fail> {
        assert!(rt; is_answered(&client, at_other(port), 1));
        Ok(())
    })
}

// A server at 127.0.0.1 listens at no other address: a datagram to 127.0.0.2 gets no response.
#[test]
fn a_server_listens_at_its_own_address_alone(rt: HostRuntime) -> Result<(), Fail> {
    let port = free_port(&rt)?;
    let client = other_client(&rt, 5000)?;
    let hasty = other_client(&rt, 300)?;
    serve_at_address(&rt, at_port(port), true, 2, || -> Result<(), Fail> {
        assert!(rt; is_answered(&client, at_port(port), 1));
        assert!(rt; !is_answered(&hasty, at_other(port), 2));
        assert!(rt; is_answered(&client, at_port(port), 3));
        Ok(())
    })
}

// If `told` is false, as without `--log info`, a server doesn't print its address.
#[test]
fn a_server_that_is_not_to_tell_where_it_listens_does_not(rt: HostRuntime) -> Result<(), Fail> {
    let port = free_port(&rt)?;
    let client = other_client(&rt, 5000)?;
    serve_at_address(&rt, at_port(port), false, 1, || -> Result<(), Fail> {
        assert!(rt; is_answered(&client, at_port(port), 1));
        Ok(())
    })
}

// A socket is bound to the address and port at which it is opened.
#[test]
fn a_socket_has_the_address_that_it_is_opened_at(rt: HostRuntime) -> Result<(), Fail> {
    let address = at_other(free_port(&rt)?);
    let socket = open(&rt, address)?;
    assert!(rt; socket.local_addr()? == std::net::SocketAddr::V4(address));
    Ok(())
}

// Receives with this wait in milliseconds, while a datagram arrives after 1,500 ms. Returns the
// number of received bytes, or `None` for no datagram, and the time that this took in milliseconds.
fn received_in<R: Threads + Clock + Net + Sync>(
    rt: &R,
    wait: Option<u64>,
) -> Result<(Option<usize>, u128), Fail> {
    let socket = open(rt, at_port(0))?;
    let server = socket.local_addr()?;
    let client = open(rt, at_port(0))?;
    let start = Instant::now(rt)?;
    let (count, sent) = thread::join(
        rt,
        || {
            let mut buffer = [0; BUFFER];
            Receiving::new(&socket)
                .receive(wait, &mut buffer, &mut CallLog::new())
                .map(|it| it.0)
        },
        || {
            thread::sleep(rt, Duration::from_millis(1500));
            client.send_to(b"late", server)
        },
    );
    let _sent = sent?;
    Ok((count, start.elapsed(rt)?.as_millis()))
}

// A receive with a wait of 250 ms returns `None` before the datagram arrives. A receive without a
// limit waits for the datagram.
#[test]
fn a_receive_waits_as_long_as_it_is_told(rt: HostRuntime) -> Result<(), Fail> {
    let (count, _) = received_in(&rt, Some(250))?;
    assert!(rt; count.is_none());
    let (count, took) = received_in(&rt, None)?;
    assert!(rt; count == Some(4) && took >= 1500, "{took}");
    Ok(())
}

// Receives without a limit, and then with a wait of 250 ms. One datagram arrives immediately, and
// another one after 1,500 ms. Returns the numbers of received bytes.
fn received_twice<R: Threads + Clock + Net + Sync>(
    rt: &R,
) -> Result<(Option<usize>, Option<usize>), Fail> {
    let socket = open(rt, at_port(0))?;
    let server = socket.local_addr()?;
    let client = open(rt, at_port(0))?;
    let (counts, sent) = thread::join(
        rt,
        || {
            let mut buffer = [0; BUFFER];
            let mut source = Receiving::new(&socket);
            let first = source.receive(None, &mut buffer, &mut CallLog::new());
            let second = source.receive(Some(250), &mut buffer, &mut CallLog::new());
            (first.map(|it| it.0), second.map(|it| it.0))
        },
        || {
            let sent = client.send_to(b"one", server);
            thread::sleep(rt, Duration::from_millis(1500));
            sent.and(client.send_to(b"late", server))
        },
    );
    let _sent = sent?;
    Ok(counts)
}

// A receive of 250 ms ends without a datagram, also after a receive without a limit.
#[test]
fn a_receive_after_one_without_end_ends_in_time(rt: HostRuntime) -> Result<(), Fail> {
    let (first, second) = received_twice(&rt)?;
    assert!(rt; first == Some(3) && second.is_none());
    Ok(())
}

// A datagram of up to 1,281 bytes is received completely. That is one more than the longest message
// has.
#[test]
fn a_datagram_comes_whole(rt: HostRuntime) -> Result<(), Fail> {
    let socket = open(&rt, at_port(0))?;
    let address = socket.local_addr()?;
    let bytes = [7; 1281];
    for count in [1153, 1280, 1281] {
        socket.send_to(bytes.get(..count).unwrap_or(&[]), address)?;
        let mut buffer = [0; BUFFER];
        let came = Receiving::new(&socket).receive(Some(5000), &mut buffer, &mut CallLog::new());
        assert!(rt; came.map(|it| it.0) == Some(count), "{count}");
    }
    Ok(())
}

// Sending a datagram to port 0 returns `false`, since the system refuses it.
#[test]
fn a_refused_datagram_counts_as_failed(rt: HostRuntime) -> Result<(), Fail> {
    let socket = open(&rt, at_port(0))?;
    let mut emission = blank_emission();
    emission.to = Endpoint {
        ip: [127, 0, 0, 1],
        port: 0,
    };
    assert!(rt; !Sink::send(&socket, &emission, &mut CallLog::new()));
    Ok(())
}

// Times are in milliseconds. A random word consists of the low bits of the clock.
#[test]
fn a_random_word_is_of_the_clock(rt: HostRuntime) -> Result<(), Fail> {
    let elapsed = Elapsed::start(&rt)?;
    thread::sleep(&rt, Duration::from_millis(300));
    let now = elapsed.now(&rt, &mut CallLog::new());
    let word = elapsed.random(&rt);
    assert!(rt; now >= 300 && now < 30_000, "{now}");
    assert!(rt;
        u64::from(word) >= now && u64::from(word) < now + 10_000,
        "{word}"
    );
    Ok(())
}
