//! A server that follows a script, for tests of the client.
use coap_client::peer::{BUFFER, Buffer};
use coap_client::{ClientRequest, FetchFault, Fetched, Path, Peer, RequestTarget, fetch};
use coap_msg::Datagram;
use coap_opts::Method;
use fc_fixtures::datagrams::joined;
use std::alloc::{AllocError, Global};
use std::io;
use std::process::Abort;

// A server that sends the datagrams of its script in order, each at its time. An empty datagram in
// the script ends the client's wait. `sent` are the client's datagrams, and `waits` the client's
// waits in seconds.
#[derive(Drop)]
pub(crate) struct Scripted {
    alloc: Global,
    script: Vec<Vec<u8>>,
    times: Vec<u64>,
    place: usize,
    pub(crate) sent: Vec<Vec<u8>>,
    pub(crate) waits: Vec<u64>,
}

impl Peer for Scripted {
    fn send(&mut self, datagram: &Datagram) -> io::Result<()> {
        let copy = joined(self.alloc, datagram.as_slice(), &[])?;
        self.sent.push(copy).map_err(AllocError::from)?;
        Ok(())
    }

    // Returns the time of the last datagram that was received, or 0.
    fn now(&mut self) -> io::Result<u64> {
        let times = &self.times;
        Ok(
            times
                .get(self.place.saturating_sub(1))
                .copied()
                .unwrap_or(0),
        )
    }

    fn begin_wait(&mut self, seconds: u64) -> io::Result<()> {
        self.waits.push(seconds)?;
        Ok(())
    }

    fn receive(&mut self, buffer: &mut Buffer) -> io::Result<Option<usize>> {
        let Some(bytes) = self.script.get(self.place) else {
            return Ok(None);
        };
        self.place = self.place.saturating_add(1);
        let count = bytes.len();
        if count == 0 || count >= BUFFER {
            return Ok(None);
        }
        buffer[..count].copy_from_slice(bytes);
        Ok(Some(count))
    }
}

// Makes a server with an empty script.
pub(crate) fn follows(alloc: Global) -> Scripted {
    Scripted {
        alloc,
        script: Vec::new(alloc),
        times: Vec::new(alloc),
        place: 0,
        sent: Vec::new(alloc),
        waits: Vec::new(alloc),
    }
}

// Adds to the script a datagram at time 0: `first`, followed by `second`.
pub(crate) fn comes(server: &mut Scripted, first: &[u8], second: &[u8]) -> Result<(), AllocError> {
    comes_at(server, 0, first, second)
}

// Adds to the script a datagram at this time, in milliseconds: `first`, followed by `second`.
pub(crate) fn comes_at(
    server: &mut Scripted,
    time: u64,
    first: &[u8],
    second: &[u8],
) -> Result<(), AllocError> {
    let bytes = joined(server.alloc, first, second)?;
    server.script.push(bytes).map_err(AllocError::from)?;
    server.times.push(time).map_err(AllocError::from)
}

// Sends this request to a path with confirmable messages, whose message IDs begin with 7. Returns
// the response or the fault.
pub(crate) fn fetched(
    server: &mut Scripted,
    method: Method,
    path: &str,
    payload: &[u8],
) -> Result<Fetched, FetchFault> {
    asked(server, true, method, path, payload)
}

// Sends this request with confirmable or non-confirmable messages. See `fetched`.
pub(crate) fn asked(
    server: &mut Scripted,
    confirmable: bool,
    method: Method,
    path: &str,
    payload: &[u8],
) -> Result<Fetched, FetchFault> {
    let path = match Path::parse(server.alloc, path.as_bytes()) {
        Ok(path) => path,
        Err(_) => return Err(FetchFault::Memory(AllocError)),
    };
    let target = RequestTarget {
        path,
        query: Vec::new(server.alloc),
    };
    let Some(client_request) = ClientRequest::new(confirmable, method, target, payload) else {
        return Err(FetchFault::Memory(AllocError));
    };
    fetch(server.alloc, server, &client_request, 7)
}

// Makes a server with this script. Each datagram is given in two parts.
pub(crate) fn answers(alloc: Global, script: &[(&[u8], &[u8])]) -> Result<Scripted, AllocError> {
    let mut server = follows(alloc);
    for (first, second) in script.iter().copied() {
        comes(&mut server, first, second)?;
    }
    Ok(server)
}

// Checks that the client's datagram at this place is `first`, followed by `second`.
pub(crate) fn check_sent<R: Abort>(
    rt: &R,
    server: &Scripted,
    place: usize,
    first: &[u8],
    second: &[u8],
) {
    let is_so = match server.sent.get(place) {
        Some(sent) => {
            sent.len() == first.len().saturating_add(second.len())
                && sent.starts_with(first)
                && sent.ends_with(second)
        }
        None => false,
    };
    assert!(rt; is_so, "datagram {place}");
}
