//! Requests, and the classes of messages that the server receives.
use crate::block::Block;
use arrayvec::ArrayVec;
use coap_msg::Code;

/// A request method (RFC 7252, section 5.8).
#[derive(Clone, Copy, PartialEq, Eq)]
pub enum Method {
    Get,
    Post,
    Put,
    Delete,
}

/// A resource, named by its path.
#[derive(Clone, Copy, PartialEq, Eq)]
pub enum Resource {
    /// `/r/N`, the resource that slot N's program serves; N is 0 to 63.
    Run(u8),
    /// `/p/N`, slot N's program; N is 0 to 63.
    Program(u8),
    /// `/.well-known/core`, the list of resources (RFC 6690, section 4).
    Core,
}

/// An action of the server: a method on a resource that serves this method.
#[derive(Clone, Copy, PartialEq, Eq)]
pub enum Action {
    /// GET of `/r/N`: run slot N's program.
    Get(u8),
    /// POST of `/r/N`: run slot N's program.
    Post(u8),
    /// PUT of `/p/N`: install a program in slot N.
    Install(u8),
    /// DELETE of `/p/N`: remove slot N's program.
    Remove(u8),
    /// GET of `/p/N`: describe slot N's program.
    Describe(u8),
    /// GET of `/.well-known/core`: list the resources.
    Discover,
}

/// Maximum length of a query, in bytes.
pub const QUERY: usize = 64;

/// The values of the Uri-Query options, joined by `&`.
pub type Query = ArrayVec<u8, QUERY>;

/// Maximum number of ETags of a request that are compared.
pub const ETAGS: usize = 4;

/// Maximum length of a payload, in bytes.
pub const PAYLOAD: usize = 1024;

/// An accepted request; its payload is borrowed from the datagram.
#[derive(Drop)]
pub struct Request<'a> {
    pub action: Action,
    /// The query, at most 64 bytes.
    pub query: Query,
    /// The format of the payload, if the request states one.
    pub content_format: Option<u16>,
    /// In a GET, the first four ETags of 8 bytes, each as an integer.
    pub etags: ArrayVec<u64, ETAGS>,
    /// Observe in a GET of `/r/N`: 0 registers, 1 cancels (RFC 7641, section 2).
    pub observe: Option<u32>,
    /// The block that a PUT carries.
    pub block1: Option<Block>,
    /// The block that a GET requests.
    pub block2: Option<Block>,
    /// The payload, at most 1,024 bytes.
    pub payload: &'a [u8],
}

impl<'a> Request<'a> {
    /// Makes an empty request.
    ///
    /// [`classify_over`](crate::classify_over) writes an accepted request over it.
    pub fn blank() -> Request<'a> {
        Request {
            action: Action::Discover,
            query: Query::new(),
            content_format: None,
            etags: ArrayVec::new(),
            observe: None,
            block1: None,
            block2: None,
            payload: &[],
        }
    }
}

/// The action for a request.
#[derive(Drop)]
pub enum Asking<R> {
    /// Serve the request.
    Serve(R),
    /// Refuse the request with this code.
    ///
    /// The response's type, message ID and token follow from the request.
    Refuse(Code),
    /// Send no response.
    ///
    /// The request is non-confirmable and has an unrecognised critical option (RFC 7252, section
    /// 5.4.1).
    Silent,
}

/// The class of a message: a request, or a message that requires another reaction.
#[derive(Drop)]
pub enum Classified<R> {
    /// A request, and the action for it.
    Request(Asking<R>),
    /// A confirmable message to reject with a Reset that has its message ID.
    ///
    /// The message is empty, or has another code than a request (RFC 7252, sections 4.2 and 4.3).
    Reset,
    /// An empty Acknowledgement, or an empty Reset if `reset` is true.
    ///
    /// The signal is about a message that was sent with the same message ID.
    Signal { reset: bool },
    /// A message to ignore silently.
    Ignored,
}
