//! A driver of a pool of workers, for tests.
//!
//! It delivers datagrams to a server, and sends the jobs to the workers.
use crate::overtaking_tests::Replies;
use coap_msg::Endpoint;
use fc_backend::{Bench, Gate};
use fc_front::front::blank_emission;
use fc_ticket::SlotNumber;
use fc_workers::Dispatcher;
use std::alloc::{AllocError, Global};
use std::sync::Wait;

/// The sender of all datagrams.
pub(crate) const PEER: Endpoint = Endpoint {
    ip: [127, 0, 0, 1],
    port: 5683,
};

/// The request of a datagram.
#[derive(Clone, Copy)]
pub(crate) enum Request<'a> {
    /// `PUT /p/SLOT` of an image.
    Put(&'a [u8]),
    /// `GET /r/SLOT`.
    Get,
    /// `GET /r/SLOT` with the ETag of this serial.
    Valid(u64),
    /// `POST /r/SLOT`.
    Post,
    /// `DELETE /p/SLOT`.
    Delete,
    /// `GET /p/SLOT`.
    Describe,
}

/// Makes the datagram of a confirmable request, with this message ID.
pub(crate) fn datagram(
    alloc: Global,
    request: Request<'_>,
    id: u16,
    slot: SlotNumber,
) -> Result<Vec<u8>, AllocError> {
    let mut bytes = Vec::new(alloc);
    let (code, path) = match request {
        Request::Put(_) => (3, b'p'),
        Request::Get | Request::Valid(_) => (1, b'r'),
        Request::Post => (2, b'r'),
        Request::Delete => (4, b'p'),
        Request::Describe => (1, b'p'),
    };
    let id = id.to_be_bytes();
    let tens = b'0' + slot.number() / 10;
    let ones = b'0' + slot.number() % 10;
    bytes.extend_from_slice(&[0x40, code, id[0], id[1]])?;
    if let Request::Valid(serial) = request {
        bytes.push(0x48)?;
        bytes.extend_from_slice(&serial.to_be_bytes())?;
        bytes.extend_from_slice(&[0x71, path])?;
    } else {
        bytes.extend_from_slice(&[0xb1, path])?;
    }
    if tens == b'0' {
        bytes.extend_from_slice(&[0x01, ones])?;
    } else {
        bytes.extend_from_slice(&[0x02, tens, ones])?;
    }
    if let Request::Put(image) = request {
        bytes.push(0xff)?;
        bytes.extend_from_slice(image)?;
    }
    Ok(bytes)
}

/// A driver: it delivers datagrams to a server, and sends the jobs to workers.
///
/// It waits for the first worker that asks for a job.
#[derive(Drop)]
pub(crate) struct Driver<'a, B: Bench, G: Gate, R: Wait> {
    pub(crate) alloc: Global,
    pub(crate) dispatcher: Dispatcher<'a, B, G, Replies, Replies, R>,
}

/// A part that delivers datagrams to a server, and sends the jobs to workers.
pub(crate) trait Deliver {
    /// Delivers a request's datagram at `now`, in milliseconds, and sends the job.
    ///
    /// Returns whether the datagram produced a job that was sent, or an error if memory can't be
    /// allocated.
    fn ask(
        &mut self,
        now: u64,
        request: Request<'_>,
        id: u16,
        slot: SlotNumber,
    ) -> Result<bool, AllocError>;

    /// Delivers a datagram at `now`, in milliseconds, and sends the job.
    ///
    /// Returns whether the datagram produced a job that was sent.
    fn deliver(&mut self, now: u64, bytes: &[u8]) -> bool;
}

impl<'a, B: Bench, G: Gate, R: Wait> Deliver for Driver<'a, B, G, R> {
    fn ask(
        &mut self,
        now: u64,
        request: Request<'_>,
        id: u16,
        slot: SlotNumber,
    ) -> Result<bool, AllocError> {
        let bytes = datagram(self.alloc, request, id, slot)?;
        Ok(self.deliver(now, &bytes))
    }

    fn deliver(&mut self, now: u64, bytes: &[u8]) -> bool {
        let mut reply = blank_emission();
        let sent = self.dispatcher.offloaded();
        let _handled = self.dispatcher.handle(now, PEER, bytes, &mut reply);
        self.dispatcher.offloaded() > sent
    }
}
