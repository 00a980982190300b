//! The request that a program handles.
ghost use Rattle.std.specs.Prelude.{◌≡◌, ◌+◌, ◌++◌, ◌≤◌, ◌↔◌, drop, length, IsTrue};
ghost use Rattle.fc_help.specs.Layout.{request_with};
ghost use Rattle.fc_help.specs.Region.{region_head, method_number, padded, region_of};
ghost use Rattle.fc_help.specs.Layout.{FitsRegion, IsZeroFrom};

use arrayvec::ArrayVec;
use std::marker::Model;

/// The method of a request that a program handles.
#[derive(Clone, Copy, Default, PartialEq, Eq)]
pub enum Method {
    /// GET, which reads the resource (RFC 7252, section 5.8.1).
    #[default]
    Get,
    /// POST, which may change the resource's variables (RFC 7252, section 5.8.2).
    Post,
}

/// Maximum length of a request's payload, in bytes.
pub const PAYLOAD: usize = 1024;

/// Maximum length of a request's query, in bytes.
pub const QUERY: usize = 64;

/// Length in bytes of the memory region for a program's request.
pub const REGION: usize = 1104;

/// Length of the part before the query, in bytes.
///
/// These bytes have the method, the slot, lengths and the Content-Format.
const HEAD: usize = 16;

/// Offset of the payload in the region, in bytes.
const BEFORE_PAYLOAD: usize = HEAD + QUERY;

/// A request for a program, laid out as the memory region that the program reads.
///
/// The type guarantees the limits of query and payload.
#[derive(Drop)]
pub struct Request {
    method: Method,
    slot: u8,
    content_format: Option<u16>,
    query_size: u8,
    payload_size: u16,
    region: ArrayVec<u8, REGION>,
}

impl Model for Request {
    ghost use Rattle.fc_help.specs.Layout.{IsLaidOut, read_from};
    ghost use Rattle.fc_help.specs.Request.{Request as Stated};

    ghost Value = { Stated };

    ghost view = { λ r. read_from r.method r.slot r.content_format r.query_size r.payload_size r.region.items };

    ghost invariant = { λ r. IsLaidOut r.method r.slot r.content_format r.query_size r.payload_size r.region.items };
}

/// Zeros for padding.
const ZEROS: [u8; PAYLOAD] = [0; PAYLOAD];

/// Appends bytes, padded with zeros to `size` bytes.
fn put_padded(region: &mut ArrayVec<u8, REGION>, bytes: &[u8], size: usize)
    requires fits { length bytes.now ≤ size }
    requires size { size ≤ 1024 }
    requires room { length region.old.items + size ≤ 1104 }
    ensures { region.new.items ≡ region.old.items ++ padded size bytes.now }
{
    let _fits = region.try_extend_from_slice(bytes);
    let _fits = region.try_extend_from_slice(&ZEROS[..size - bytes.len()]);
}

/// Encodes the first 16 bytes of a request's region.
///
/// These bytes have the method, the slot, the Content-Format, and the lengths of query and payload.
fn head(
    method: Method,
    slot: u8,
    content_format: Option<u16>,
    query: &[u8],
    payload: &[u8],
) -> [u8; HEAD]
    requires query { length query.now ≤ QUERY }
    requires payload { length payload.now ≤ PAYLOAD }
    ensures { result ≡ region_head (request_with method slot content_format query.now payload.now) }
{
    let method = method_byte(method);
    let length = (payload.len() as u16).to_le_bytes();
    let format = content_format.unwrap_or(0).to_le_bytes();
    let said = u8::from(content_format.is_some());
    let query = query.len() as u8;
    [
        method, slot, length[0], length[1], format[0], format[1], said, query, 0, 0, 0, 0, 0, 0, 0,
        0,
    ]
}

/// Writes the region of a request in place of the bytes that `region` has.
fn lay_out(
    region: &mut ArrayVec<u8, REGION>,
    method: Method,
    slot: u8,
    content_format: Option<u16>,
    query: &[u8],
    payload: &[u8],
)
    requires query { length query.now ≤ QUERY }
    requires payload { length payload.now ≤ PAYLOAD }
    ensures { region.new.items ≡ region_of (request_with method slot content_format query.now payload.now) }
{
    region.clear();
    let _fits = region.try_extend_from_slice(&head(method, slot, content_format, query, payload));
    put_padded(region, query, QUERY);
    put_padded(region, payload, PAYLOAD);
}

/// Overwrites `room` with bytes, padded with zeros.
fn write_padded(room: &mut [u8], bytes: &[u8])
    requires { length bytes.now ≤ length room.old }
    ensures { room.new ≡ padded (length room.old) bytes.now }
{
    room[..bytes.len()].copy_from_slice(bytes);
    room[bytes.len()..].fill(0);
}

/// Overwrites `room` with a head and a query, padded with zeros.
fn write_start(room: &mut [u8], head: &[u8; HEAD], query: &[u8])
    requires room { length room.old ≡ 80 }
    requires query { length query.now ≤ 64 }
    ensures { room.new ≡ head.now ++ padded 64 query.now }
{
    room[..HEAD].copy_from_slice(head);
    write_padded(&mut room[HEAD..], query);
}

/// Overwrites a payload of `before` bytes with `payload`, padded with zeros.
///
/// All bytes of `room` after the old payload are already zero.
fn write_payload(room: &mut [u8], before: usize, payload: &[u8])
    requires room { length room.old ≡ 1024 }
    requires before { before ≤ 1024 }
    requires payload { length payload.now ≤ 1024 }
    requires zeros { IsZeroFrom before room.old }
    ensures { room.new ≡ padded 1024 payload.now }
{
    let written = before.max(payload.len());
    write_padded(&mut room[..written], payload);
}

/// Overwrites the region of a request with that of another request.
///
/// `before` is the length of the old payload. After the new payload, only the rest of a longer old
/// payload is cleared.
fn lay_over(
    region: &mut ArrayVec<u8, REGION>,
    before: usize,
    method: Method,
    slot: u8,
    content_format: Option<u16>,
    query: &[u8],
    payload: &[u8],
)
    requires size { length region.old.items ≡ 1104 }
    requires before { before ≤ 1024 }
    requires zeros { IsZeroFrom before (drop 80 region.old.items) }
    requires query { length query.now ≤ QUERY }
    requires payload { length payload.now ≤ PAYLOAD }
    ensures { region.new.items ≡ region_of (request_with method slot content_format query.now payload.now) }
{
    let head = head(method, slot, content_format, query, payload);
    let bytes = region.as_mut_slice();
    write_start(&mut bytes[..BEFORE_PAYLOAD], &head, query);
    write_payload(&mut bytes[BEFORE_PAYLOAD..], before, payload);
}

/// Overwrites the region of a request with that of `other`.
///
/// `before` is the length of the old payload. Nothing is written after the longer of the two
/// payloads, since both regions are zero there.
fn copy_over(region: &mut ArrayVec<u8, REGION>, before: usize, other: &Request)
    requires size { length region.old.items ≡ 1104 }
    requires before { before ≤ 1024 }
    requires zeros { IsZeroFrom before (drop 80 region.old.items) }
    ensures { region.new.items ≡ region_of other.now }
{
    let bytes = region.as_mut_slice();
    bytes[..BEFORE_PAYLOAD].copy_from_slice(&other.region()[..BEFORE_PAYLOAD]);
    write_payload(&mut bytes[BEFORE_PAYLOAD..], before, other.payload());
}

/// Returns the byte of a method in the region: 1 for GET, 2 for POST.
fn method_byte(method: Method) -> u8
    ensures { result ≡ method_number method }
{
    match method {
        Method::Get => 1,
        Method::Post => 2,
    }
}

impl Request {
    /// Makes a GET or POST of this slot's resource.
    ///
    /// `content_format` is that of the payload, if the request states one. `query` is the values of
    /// the Uri-Query options joined by `&`, at most 64 bytes. `payload` has at most 1,024 bytes.
    pub fn new(
        method: Method,
        slot: u8,
        content_format: Option<u16>,
        query: &[u8],
        payload: &[u8],
    ) -> Self
        requires query { length query.now ≤ QUERY }
        requires payload { length payload.now ≤ PAYLOAD }
        ensures { result ≡ request_with method slot content_format query.now payload.now }
    {
        let mut region = ArrayVec::new();
        lay_out(&mut region, method, slot, content_format, query, payload);
        Request {
            method,
            slot,
            content_format,
            query_size: query.len() as u8,
            payload_size: payload.len() as u16,
            region,
        }
    }

    /// Overwrites this request with a GET or POST of this slot's resource.
    ///
    /// The result is that of [`Request::new`], but written in place: the buffers of snapshots and
    /// jobs are used again.
    pub fn write(
        &mut self,
        method: Method,
        slot: u8,
        content_format: Option<u16>,
        query: &[u8],
        payload: &[u8],
    )
        requires query { length query.now ≤ QUERY }
        requires payload { length payload.now ≤ PAYLOAD }
        ensures { self.new ≡ request_with method slot content_format query.now payload.now }
    {
        lay_over(
            &mut self.region,
            usize::from(self.payload_size),
            method,
            slot,
            content_format,
            query,
            payload,
        );
        self.method = method;
        self.slot = slot;
        self.content_format = content_format;
        self.query_size = query.len() as u8;
        self.payload_size = payload.len() as u16;
    }

    /// Returns the memory region that a program reads.
    pub fn region(&self) -> &[u8]
        ensures region { result.now ≡ region_of self.now }
        ensures size { length result.now ≡ 1104 }
        ensures fits { FitsRegion self.now }
    {
        self.region.as_slice()
    }

    /// Returns the method.
    pub fn method(&self) -> Method
        ensures { result ≡ self.now.method }
    {
        self.method
    }

    /// Returns the slot of the requested resource.
    pub fn slot(&self) -> u8
        ensures { result ≡ self.now.slot }
    {
        self.slot
    }

    /// Returns the payload's Content-Format, or `None` if the request states none.
    ///
    /// See RFC 7252, section 5.10.3.
    pub fn content_format(&self) -> Option<u16>
        ensures { result ≡ self.now.content_format }
    {
        self.content_format
    }

    /// Returns the values of the Uri-Query options, joined by `&`.
    ///
    /// See RFC 7252, section 5.10.1.
    pub fn query(&self) -> &[u8]
        ensures query { result.now ≡ self.now.query }
        ensures limit { length result.now ≤ QUERY }
    {
        &self.region.as_slice()[HEAD..HEAD + self.query_size as usize]
    }

    /// Returns the payload.
    pub fn payload(&self) -> &[u8]
        ensures payload { result.now ≡ self.now.payload }
        ensures limit { length result.now ≤ PAYLOAD }
    {
        &self.region.as_slice()[BEFORE_PAYLOAD..BEFORE_PAYLOAD + self.payload_size as usize]
    }

    /// Returns whether the two requests are the same in all fields.
    ///
    /// A commit compares the outcome's request with the ticket's.
    pub fn is(&self, other: &Request) -> bool
        ensures { IsTrue result ↔ (self.now ≡ other.now) }
    {
        self.method == other.method
            && self.slot == other.slot
            && self.content_format == other.content_format
            && self.query() == other.query()
            && self.payload() == other.payload()
    }

    /// Returns a copy. An observation and the record of a commit keep such a copy.
    pub fn copy(&self) -> Request
        ensures { result ≡ self.now }
    {
        let mut region = ArrayVec::new();
        let _fits = region.try_extend_from_slice(self.region.as_slice());
        Request {
            method: self.method,
            slot: self.slot,
            content_format: self.content_format,
            query_size: self.query_size,
            payload_size: self.payload_size,
            region,
        }
    }

    /// Overwrites this request with a copy of another, in place.
    pub fn copy_from(&mut self, other: &Request)
        ensures { self.new ≡ other.now }
    {
        copy_over(&mut self.region, usize::from(self.payload_size), other);
        self.method = other.method;
        self.slot = other.slot;
        self.content_format = other.content_format;
        self.query_size = other.query_size;
        self.payload_size = other.payload_size;
    }
}
