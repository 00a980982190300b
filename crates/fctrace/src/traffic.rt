//! The datagrams of eight clients, chosen by a generator of numbers.
ghost use Rattle.std.specs.Prelude.{◌<◌};

use std::alloc::{AllocError, Global};

/// The number of clients.
const CLIENTS: u64 = 8;

/// The image of a counter: each run adds 1 to the one word of the program's variables.
const COUNTER: &[u8] =
    b"FCB1\x08\x00\x09\x00\x09\x00\x00\x00\x00\x00\x00\x00\xb7\x01\x00\x00\x00\x00\x00\x00\x85\x00\x00\x00\x03\x00\x00\x00\x07\x00\x00\x00\x01\x00\x00\x00\xbf\x02\x00\x00\x00\x00\x00\x00\xb7\x01\x00\x00\x00\x00\x00\x00\x85\x00\x00\x00\x04\x00\x00\x00\x85\x00\x00\x00\x07\x00\x00\x00\xb7\x00\x00\x00\x00\x00\x00\x00\x95\x00\x00\x00\x00\x00\x00\x00";

/// The image of a program of 8,207 steps, which goes to a worker.
const EXPENSIVE: &[u8] =
    b"FCB2\x00\x00\x08\x00\x0f\x20\x00\x00\x00\x00\x00\x00\xb7\x06\x00\x00\x00\x00\x00\x00\xb7\x07\x00\x00\x00\x00\x00\x00\x07\x07\x00\x00\x01\x00\x00\x00\xa5\x07\xfe\xff\x00\x04\x00\x00\x07\x06\x00\x00\x01\x00\x00\x00\xa5\x06\xfb\xff\x04\x00\x00\x00\xb7\x00\x00\x00\x00\x00\x00\x00\x95\x00\x00\x00\x00\x00\x00\x00";

/// A kind of datagram: its first byte, its code, its options, and its image (RFC 7252, section 3).
///
/// If the options end with the path of a slot, the slot's number is added. If they begin after an
/// ETag, the last ETag of the slot is added.
#[derive(Clone, Copy)]
struct Kind(u8, u8, &'static [u8], &'static [u8]);

/// The first option after an ETag: the option delta is 7, from ETag to Uri-Path.
const AFTER_ETAG: u8 = 0x71;

/// The kinds of datagrams that are no repeats.
static KINDS: [Kind; 16] = [
    // GET, POST, and both as non-confirmable messages.
    Kind(0x41, 1, b"\xb1r", b""),
    Kind(0x41, 2, b"\xb1r", b""),
    Kind(0x51, 1, b"\xb1r", b""),
    Kind(0x51, 2, b"\xb1r", b""),
    // GET with Observe 0 and 1, and with an ETag.
    Kind(0x41, 1, b"\x60\x51r", b""),
    Kind(0x41, 1, b"\x61\x01\x51r", b""),
    Kind(0x41, 1, b"\x71r", b""),
    // PUT of the counter, of the expensive program, and of an image that is rejected; DELETE.
    Kind(0x41, 3, b"\xb1p", COUNTER),
    Kind(0x41, 3, b"\xb1p", EXPENSIVE),
    Kind(0x41, 3, b"\xb1p", b"FCB1"),
    Kind(0x41, 4, b"\xb1p", b""),
    // GET of a receipt, of the list of slots, and of no resource.
    Kind(0x41, 1, b"\xb1p", b""),
    Kind(0x41, 1, b"\xbb.well-known\x04core", b""),
    Kind(0x41, 1, b"\xb1x", b""),
    // A ping, and a message with a payload marker but no payload.
    Kind(0x40, 0, b"", b""),
    Kind(0x41, 1, b"\xff", b""),
];

/// The kind of each 64th datagram, as an index of `KINDS`. 16 stands for a repeat.
static MIX: [usize; 64] = [
    0, 0, 0, 0, 0, 0, 0, 0, 1, 1, 1, 1, 1, 1, 1, 1, 1, 1, 1, 1, 2, 2, 2, 3, 3, 3, 3, 4, 4, 4, 4, 4,
    4, 4, 5, 5, 6, 6, 6, 6, 6, 6, 7, 7, 7, 7, 7, 8, 8, 8, 9, 10, 10, 11, 11, 11, 12, 12, 13, 14,
    15, 16, 16, 16,
];

/// A generator of datagrams, and the last datagram with its sender.
#[derive(Drop)]
pub(crate) struct Traffic {
    state: u64,
    sent: u64,
    pub(crate) client: u8,
    pub(crate) bytes: Vec<u8>,
}

impl Traffic {
    /// Makes a generator that has made no datagram yet.
    ///
    /// Its first state is fixed, so each run draws the same sequence of numbers.
    pub(crate) fn new(alloc: Global) -> Traffic {
        Traffic {
            state: 1,
            sent: 0,
            client: 1,
            bytes: Vec::new(alloc),
        }
    }

    /// Returns a number below `limit`.
    ///
    /// The generator is a linear congruential one, modulo 2^64.
    pub(crate) fn below(&mut self, limit: u64) -> u64
        requires { 0 < limit }
        ensures { result < limit }
    {
        let next = self.state.wrapping_mul(6_364_136_223_846_793_005);
        self.state = next.wrapping_add(1_442_695_040_888_963_407);
        (self.state >> 33) % limit
    }

    /// Returns one of the used slots.
    pub(crate) fn slot(&mut self) -> u8
        ensures { result < 16 }
    {
        self.below(16) as u8
    }

    /// Makes the next datagram, for a slot whose last ETag is `etag`, or keeps the last one.
    ///
    /// # Errors
    /// Returns `AllocError` if memory can't be allocated.
    pub(crate) fn make(&mut self, slot: u8, etag: &[u8; 8]) -> Result<(), AllocError> {
        let place = self.below(64) as usize;
        let kind = MIX.get(place).copied().unwrap_or(0);
        match KINDS.get(kind) {
            Some(kind) => self.make_kind(kind, slot, etag),
            None => Ok(()),
        }
    }

    /// Makes a datagram that installs the counter in a slot.
    ///
    /// # Errors
    /// Returns `AllocError` if memory can't be allocated.
    pub(crate) fn make_install(&mut self, slot: u8) -> Result<(), AllocError> {
        self.make_kind(&Kind(0x41, 3, b"\xb1p", COUNTER), slot, &[0; 8])
    }

    // Makes a datagram of this kind, from a client with its next message ID. Returns `AllocError`
    // if memory can't be allocated.
    fn make_kind(&mut self, kind: &Kind, slot: u8, etag: &[u8; 8]) -> Result<(), AllocError> {
        let Kind(first, code, options, image) = *kind;
        self.client = (1 + self.below(CLIENTS)) as u8;
        self.sent = self.sent.saturating_add(1);
        let id = ((self.sent % 65_536) as u16).to_be_bytes();
        self.bytes.clear();
        self.bytes.extend_from_slice(&[first, code])?;
        self.bytes.extend_from_slice(&id)?;
        if first % 16 == 1 {
            self.bytes.push(slot)?;
        }
        if options.first() == Some(&AFTER_ETAG) {
            self.bytes.push(0x48)?;
            self.bytes.extend_from_slice(etag)?;
        }
        self.bytes.extend_from_slice(options)?;
        self.add_slot(options, slot)?;
        self.add_image(image)
    }

    // Adds the option with a slot's number, if the path of slots is the last of `options`. Returns
    // `AllocError` if memory can't be allocated.
    fn add_slot(&mut self, options: &[u8], slot: u8) -> Result<(), AllocError> {
        if !matches!(options.last(), Some(b'r' | b'p')) {
            return Ok(());
        }
        let ones = b'0' + slot % 10;
        if slot < 10 {
            self.bytes.extend_from_slice(&[0x01, ones])?;
        } else {
            self.bytes.extend_from_slice(&[0x02, b'1', ones])?;
        }
        Ok(())
    }

    // Adds a payload, unless it is empty. Returns `AllocError` if memory can't be allocated.
    fn add_image(&mut self, image: &[u8]) -> Result<(), AllocError> {
        if image.is_empty() {
            return Ok(());
        }
        self.bytes.push(0xff)?;
        self.bytes.extend_from_slice(image)?;
        Ok(())
    }
}
