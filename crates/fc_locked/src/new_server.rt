//! A new server before its shards are locked: its book, and the tracks that aren't begun yet.
use crate::books::{Books, ServerOf};
use fc_filed::{ServerBook, ServerTracks};

/// The book of a new server, and the owner of its further tracks.
#[derive(Drop)]
pub(crate) struct NewServer<B: Books> {
    pub(crate) book: ServerBook<ServerOf<B>>,
    pub(crate) first: ServerTracks<ServerOf<B>>,
}
