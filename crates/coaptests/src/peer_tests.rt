//! A client's own socket, with a server at another socket of this host.
//!
//! The tests check the units of the socket's waits and times, and the sources of the datagrams that
//! it accepts.
use coap_client::peer::BUFFER;
use coap_client::{Peer, UdpPeer};
use fc_fixtures::ports::at_port;
use std::io;
use std::net::{Net, SocketAddr, UdpSocket};
use std::process::Abort;
use std::sync::atomic::{AtomicU64, Ordering};
use std::test::Fail;
use std::time::{Clock, Duration, Instant};

// Opens a socket of this host at a free port.
fn free_socket<R: Net>(rt: &R) -> io::Result<UdpSocket> {
    UdpSocket::bind(rt, at_port(0))
}

// A wait of one second ends after a second, and not much later.
#[test]
fn a_wait_is_of_seconds(rt: HostRuntime) -> Result<(), Fail> {
    let server = free_socket(&rt)?;
    let mut peer = UdpPeer::at(&rt, &rt, at_port(server.local_addr()?.port()))?;
    let mut buffer = [0; BUFFER];
    let start = Instant::now(&rt)?;
    peer.begin_wait(1)?;
    let came = peer.receive(&mut buffer)?;
    let waited = start.elapsed(&rt)?;
    assert!(rt; came.is_none());
    assert!(rt; waited >= Duration::from_millis(990) && waited < Duration::from_millis(4500));
    Ok(())
}

// A clock that advances by 1,500 ms each time that it is read.
#[derive(Drop)]
struct Stepping {
    reads: AtomicU64,
}

impl Clock for Stepping {
    fn monotonic(&self) -> io::Result<Duration> {
        let reads = self.reads.fetch_add(1, Ordering::Relaxed);
        Ok(Duration::from_millis(reads.wrapping_mul(1500)))
    }

    fn since_1970(&self) -> io::Result<Duration> {
        self.monotonic()
    }
}

// Times are in milliseconds, counted from the opening of the socket.
#[test]
fn a_time_is_of_milliseconds(rt: HostRuntime) -> Result<(), Fail> {
    let server = free_socket(&rt)?;
    let clock = Stepping {
        reads: AtomicU64::new(0),
    };
    let mut peer = UdpPeer::at(&rt, &clock, at_port(server.local_addr()?.port()))?;
    assert!(rt; peer.now()? == 1500);
    assert!(rt; peer.now()? == 3000);
    Ok(())
}

// A network in which another endpoint sends a byte to each socket that is bound, before the socket
// is connected.
#[derive(Drop)]
struct Intruding<'a, R: Net> {
    net: &'a R,
    other: &'a UdpSocket,
}

impl<'a, R: Net> Net for Intruding<'a, R> {
    type Stream = R::Stream;

    type Listener = R::Listener;

    fn bind(&self, addr: SocketAddr) -> io::Result<R::Listener> {
        self.net.bind(addr)
    }

    fn connect(&self, addr: SocketAddr) -> io::Result<R::Stream> {
        self.net.connect(addr)
    }

    fn bind_udp(&self, addr: SocketAddr) -> io::Result<UdpSocket> {
        let socket = self.net.bind_udp(addr)?;
        self.other
            .send_to(b"x", at_port(socket.local_addr()?.port()))?;
        Ok(socket)
    }
}

// A datagram from another endpoint, which arrived before the socket was connected, is ignored. The
// server's datagram after it is received.
#[test]
fn another_endpoint_s_datagram_is_passed_over(rt: HostRuntime) -> Result<(), Fail> {
    let server = free_socket(&rt)?;
    let other = free_socket(&rt)?;
    let net = Intruding {
        net: &rt,
        other: &other,
    };
    let mut peer = UdpPeer::at(&net, &rt, at_port(server.local_addr()?.port()))?;
    let mut buffer = [0; BUFFER];
    peer.send(&coap_msg::Datagram::new())?;
    let (_, client) = server.recv_from(&mut buffer)?;
    server.send_to(b"yz", client)?;
    peer.begin_wait(10)?;
    let came = peer.receive(&mut buffer)?;
    assert!(rt; came == Some(2) && buffer.starts_with(b"yz"));
    Ok(())
}

// A datagram of 1,281 bytes or more fills the buffer and is ignored, since it may be cut. One of
// 1,280 bytes is received.
#[test]
fn a_datagram_that_may_be_cut_is_passed_over(rt: HostRuntime) -> Result<(), Fail> {
    let server = free_socket(&rt)?;
    let mut peer = UdpPeer::at(&rt, &rt, at_port(server.local_addr()?.port()))?;
    let mut buffer = [0; BUFFER];
    peer.send(&coap_msg::Datagram::new())?;
    let (_, client) = server.recv_from(&mut buffer)?;
    server.send_to(&[1; 2000], client)?;
    server.send_to(&[2; 1281], client)?;
    server.send_to(&[3; 1280], client)?;
    peer.begin_wait(10)?;
    let came = peer.receive(&mut buffer)?;
    assert!(rt; came == Some(1280) && buffer.starts_with(&[3; 1280]));
    Ok(())
}
