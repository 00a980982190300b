//! Records of the changes of programs that a server makes, over a socket.
//!
//! Each answered change has one record, made at the last block of a change in blocks. A duplicate
//! datagram has no record. The digests are those that `sha256sum` printed for the images.
use crate::serving::{extent_of, serve_without_store};
use crate::socket_tests::{COUNT, client_of, largest_image, never};
use fc_config::options::Extent;
use fc_fixtures::ports::at_port;
use fc_front::DEFAULT_POLICY;
use fc_host::sensors::NoSensors;
use fc_host::socket::{Receiving, open};
use fc_record::{LoggedChanges, NoReports, Recorder};
use fc_service::serve::Records;
use log::sink::{Discard, Locked};
use log::{LevelFilter, Log, Logged};
use std::alloc::{AllocError, Global};
use std::net::{Net, SocketAddrV4, UdpSocket};
use std::process::Abort;
use std::sync::Wait;
use std::test::Fail;
use std::thread;
use std::thread::Threads;
use std::time::Clock;

// The digest of COUNT.
static COUNT_DIGEST: &str = "917718e9702d2d1155476671e2632bddc03155dab4a99f8fd2fccd0dfaa9f517";

// The digest of COUNT with a budget of 8 steps, one less than the cost.
static SHORT_DIGEST: &str = "2ce74acc1cbc78650f9e5d9030d450b3f183aaacc165cab103e8be2897c37c10";

// The digest of the largest image, of 4,112 bytes.
static LARGEST_DIGEST: &str = "0dc80a6025d96e9a74cdddec3e98ae861853e4533da8871e4b96576846ab2b47";

// The method GET (RFC 7252, section 12.1.1).
const GET: u8 = 1;

// The method PUT (RFC 7252, section 12.1.1).
const PUT: u8 = 3;

// The method DELETE (RFC 7252, section 12.1.1).
const DELETE: u8 = 4;

// The first byte of a confirmable message without a token.
const CON: u8 = 0x40;

// Returns a confirmable request of /p/N with this message ID, payload and, if given, Block1 value.
fn request(
    alloc: Global,
    method: u8,
    id: u8,
    slot: u8,
    block1: Option<u8>,
    payload: &[u8],
) -> Result<Vec<u8>, AllocError> {
    let mut bytes = Vec::new(alloc);
    bytes.extend_from_slice(&[CON, method, 0, id, 0xb1, b'p', 0x01, b'0' + slot % 10])?;
    if let Some(value) = block1 {
        // Block1 is option 27, after option 11.
        bytes.extend_from_slice(&[0xd1, 3, value])?;
    }
    if !payload.is_empty() {
        bytes.push(0xff)?;
        bytes.extend_from_slice(payload)?;
    }
    Ok(bytes)
}

// Sends a datagram, and checks the code of its response.
fn check_code<R: Abort>(
    rt: &R,
    client: &UdpSocket,
    server: SocketAddrV4,
    bytes: &[u8],
    code: u8,
) -> Result<(), Fail> {
    client.send_to(bytes, server)?;
    let mut answer = [0; 1280];
    let (_count, _from) = client.recv_from(&mut answer)?;
    assert!(rt; answer[1] == code);
    Ok(())
}

// Sends an upload and its duplicate, a GET, and an image whose cost is above its budget. Then sends
// a removal and its duplicate, a second removal, which finds no program, and an upload in blocks.
fn change_programs<R: Abort + AllocGlobal>(
    rt: &R,
    client: &UdpSocket,
    server: SocketAddrV4,
) -> Result<(), Fail> {
    let alloc = rt.alloc();
    let upload = request(alloc, PUT, 1, 3, None, &COUNT)?;
    check_code(rt, client, server, &upload, 0x41)?;
    check_code(rt, client, server, &upload, 0x41)?;
    check_code(
        rt,
        client,
        server,
        &request(alloc, GET, 2, 3, None, &[])?,
        0x45,
    )?;
    let mut short = COUNT;
    short[8] = 8;
    let refused = request(alloc, PUT, 3, 4, None, &short)?;
    check_code(rt, client, server, &refused, 0x80)?;
    let removal = request(alloc, DELETE, 4, 3, None, &[])?;
    check_code(rt, client, server, &removal, 0x42)?;
    check_code(rt, client, server, &removal, 0x42)?;
    check_code(
        rt,
        client,
        server,
        &request(alloc, DELETE, 5, 3, None, &[])?,
        0x42,
    )?;
    upload_by_blocks(rt, client, server)
}

// Sends the largest image in five blocks, of 1,024 bytes each but for the last. The response to
// each of the first four is 2.31, and the response to the last is 2.01.
fn upload_by_blocks<R: Abort + AllocGlobal>(
    rt: &R,
    client: &UdpSocket,
    server: SocketAddrV4,
) -> Result<(), Fail> {
    let alloc = rt.alloc();
    let image = largest_image(alloc)?;
    for (number, payload) in (0u8..5).zip(image.chunks(1024)) {
        let more = number < 4;
        // Block size exponent 6, and the bit for more blocks (RFC 7959, section 2.2).
        let value = (number << 4) | if more { 8 } else { 0 } | 6;
        let block = request(alloc, PUT, number.wrapping_add(10), 5, Some(value), payload)?;
        check_code(rt, client, server, &block, if more { 0x5f } else { 0x41 })?;
    }
    Ok(())
}

// Returns the lines that a server with this many workers records while the client changes programs.
fn recorded_by<R: Abort + AllocGlobal + Threads + Wait + Clock + Net + Sync>(
    rt: &R,
    client: &UdpSocket,
    workers: u8,
) -> Result<Vec<u8>, Fail> {
    let alloc = rt.alloc();
    let socket = open(rt, at_port(0))?;
    let server = at_port(socket.local_addr()?.port());
    let extent = extent_of(workers, 12);
    let ((served, lines), asked) = thread::join(
        rt,
        || serve_recorded(rt, alloc, &socket, extent),
        || change_programs(rt, client, server),
    );
    asked?;
    assert!(rt; served);
    Ok(lines)
}

// Serves a socket. Returns whether serving succeeded, and the recorded lines.
fn serve_recorded<R: Threads + Wait + Clock + Sync>(
    rt: &R,
    alloc: Global,
    socket: &UdpSocket,
    extent: Extent,
) -> (bool, Vec<u8>) {
    let lines = Locked::new(rt, Vec::new(alloc));
    let logger = Logged::new(rt, LevelFilter::Info, &lines);
    let served = serve_by(rt, alloc, &recorder_of(&logger), socket, extent);
    (served, lines.into_inner())
}

// Returns a recorder that writes to this logger.
fn recorder_of<L: Log>(logger: &L) -> LoggedChanges<'_, L> {
    LoggedChanges { logger }
}

// Serves a socket with this recorder of changes, and logs nothing else. Returns whether serving
// succeeded.
fn serve_by<R: Threads + Wait + Clock + Sync, C: Recorder + Sync>(
    rt: &R,
    alloc: Global,
    recorder: &C,
    socket: &UdpSocket,
    extent: Extent,
) -> bool {
    let end = Logged::new(rt, LevelFilter::Off, Discard);
    let mut err = Vec::new(alloc);
    let source = Receiving::new(socket);
    let served = serve_without_store(
        rt,
        alloc,
        &records_of(&end, recorder),
        &mut err,
        &NoSensors,
        source,
        socket,
        &DEFAULT_POLICY,
        extent,
    );
    served.is_some()
}

// Returns records with this logger for the end, this recorder of changes, and no reports.
fn records_of<'a, L: Log, C: Recorder>(end: &'a L, changes: &'a C) -> Records<'a, L, C, NoReports> {
    Records {
        end,
        changes,
        reports: never(),
    }
}

// Returns the expected lines for the changes of `change_programs`, by a client at this port.
fn expected(alloc: Global, port: u16) -> Result<String, AllocError> {
    format!(in alloc;
        "\
[INFO  fcd] change PUT /p/3 peer=127.0.0.1:{port} code=2.01 version=1 cost=9 budget=9 vars=8 sha256={COUNT_DIGEST}
[INFO  fcd] change PUT /p/4 peer=127.0.0.1:{port} code=4.00 V16 slot 0 sha256={SHORT_DIGEST}
[INFO  fcd] change DELETE /p/3 peer=127.0.0.1:{port} code=2.02
[INFO  fcd] change DELETE /p/3 peer=127.0.0.1:{port} code=2.02
[INFO  fcd] change PUT /p/5 peer=127.0.0.1:{port} code=2.01 version=1 cost=512 budget=512 vars=0 sha256={LARGEST_DIGEST}
"
    )
}

// With 1, 2 and 16 workers, each change has one record, in the order of the requests.
#[test]
fn each_change_is_recorded_once(rt: HostRuntime) -> Result<(), Fail> {
    for workers in [1, 2, 16] {
        let client = client_of(&rt)?;
        let port = client.local_addr()?.port();
        let lines = recorded_by(&rt, &client, workers)?;
        let expected = expected(rt.alloc(), port)?;
        assert!(rt; lines.as_slice() == expected.as_bytes(), "{workers}");
    }
    Ok(())
}
