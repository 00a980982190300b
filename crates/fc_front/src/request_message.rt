//! A request message, as the front's functions pass it on.
use coap_msg::{Endpoint, Message};
use coap_opts::Request;

/// A request message, with the endpoint that sent it.
#[derive(Drop)]
pub(crate) struct RequestMessage<'a, 'm> {
    pub(crate) endpoint: Endpoint,
    pub(crate) message: &'a Message<'m>,
    /// The fields of the request, if it is accepted; else they are unspecified.
    pub(crate) fields: &'a Request<'m>,
}
