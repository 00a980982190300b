//! Option numbers.
//!
//! See RFC 7252, section 5.10; RFC 7641, section 2; and RFC 7959, section 2.1.

/// Uri-Host, the target host; the server ignores it (RFC 7252, section 5.10.1).
pub const URI_HOST: u16 = 3;
/// ETag, a version of the resource (RFC 7252, section 5.10.6).
pub const ETAG: u16 = 4;
/// Observe: register or cancel an observation (RFC 7641, section 2).
pub const OBSERVE: u16 = 6;
/// Uri-Port, the target port; the server ignores it (RFC 7252, section 5.10.1).
pub const URI_PORT: u16 = 7;
/// Uri-Path, a segment of the path (RFC 7252, section 5.10.1).
pub const URI_PATH: u16 = 11;
/// Content-Format, the format of the payload (RFC 7252, section 5.10.3).
pub const CONTENT_FORMAT: u16 = 12;
/// Uri-Query, a parameter of the resource (RFC 7252, section 5.10.1).
pub const URI_QUERY: u16 = 15;
/// Block2, a block of the response (RFC 7959, section 2.1).
pub const BLOCK2: u16 = 23;
/// Block1, a block of the request (RFC 7959, section 2.1).
pub const BLOCK1: u16 = 27;
/// Proxy-Uri, the URI for a forward proxy (RFC 7252, section 5.10.2).
pub const PROXY_URI: u16 = 35;
/// Proxy-Scheme, the scheme for a forward proxy (RFC 7252, section 5.10.2).
pub const PROXY_SCHEME: u16 = 39;
