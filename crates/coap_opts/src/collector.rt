//! A message's recognised options, collected in one pass, for the classifier.
ghost use Rattle.std.specs.Prelude.{◌≡◌, ◌<◌, ◌||◌, None, Some, List, ℕ, ◌∷◌, false};
ghost use Rattle.coap_msg.specs.Wire.{Message as Stated};
ghost use Rattle.coap_opts.specs.Recognition as spec;
ghost use Rattle.coap_opts.specs.Verdict.{has};
ghost use Rattle.coap_opts.specs.Collected.{IsCollected, IsJoined, IsUncollected, IsTaken, resource_with, tags_with};
ghost use Rattle.coap_opts.specs.Firsts.{AreShort, first_at};

use crate::firsts::Firsts;
use crate::number::{ETAG, PROXY_SCHEME, PROXY_URI, URI_PATH, URI_QUERY};
use crate::recognition::recognised_place;
use crate::request::{ETAGS, Query};
use crate::served::ROWS;
use crate::uint::decode_uint;
use arrayvec::ArrayVec;
use coap_msg::Message;

/// Length of the server's ETags, in bytes.
///
/// Each of them is a revision counter. Received ETags of another length are ignored.
const SERIAL: usize = 8;

/// The segments of a path: none, one, two, or more.
///
/// No resource's path has more than two segments, so a longer path isn't stored.
#[derive(Clone, Copy)]
pub(crate) enum Segments<'a> {
    Empty,
    One(&'a [u8]),
    Two(&'a [u8], &'a [u8]),
    More,
}

impl<'a> Segments<'a> {
    /// Appends a segment; with a third segment, the path is `More`.
    fn push(&mut self, segment: &'a [u8])
        ensures { (left : List (List ℕ)) →
            resource_with self.old (segment.now ∷ left) ≡ resource_with self.new left }
    {
        match *self {
            Segments::Empty => *self = Segments::One(segment),
            Segments::One(first) => *self = Segments::Two(first, segment),
            Segments::Two(..) => *self = Segments::More,
            Segments::More => {}
        }
    }
}

/// The values of a query joined by `&`, as far as they fit into 64 bytes.
#[derive(Drop)]
pub(crate) struct JoinedQuery {
    pub items: Query,
    /// Whether a value was appended.
    pub is_begun: bool,
    /// Whether the joined values have more than 64 bytes.
    pub is_long: bool,
}

impl JoinedQuery {
    /// Appends a value, with a `&` before it if it isn't the first.
    ///
    /// Sets `is_long` if the `&` and the value don't fit. Once `is_long` is set, nothing changes.
    fn push(&mut self, value: &[u8])
        ensures { (left : List (List ℕ)) (all : List ℕ) →
            IsJoined self.old (value.now ∷ left) all → IsJoined self.new left all }
    {
        if self.is_long {
            return;
        }
        if self.is_begun && self.items.try_push(b'&').is_err() {
            self.is_long = true;
            return;
        }
        self.is_begun = true;
        if self.items.try_extend_from_slice(value).is_err() {
            self.is_long = true;
        }
    }
}

/// A message's recognised options.
#[derive(Drop)]
pub(crate) struct Collected<'a> {
    /// The first value of each recognised option.
    pub firsts: Firsts<'a>,
    /// The first four ETags of 8 bytes.
    pub etags: ArrayVec<u64, ETAGS>,
    pub path: Segments<'a>,
    pub query: JoinedQuery,
    /// Whether a critical option isn't recognised.
    pub has_unknown: bool,
}

impl<'a> Collected<'a> {
    /// Returns the empty collection, for the state before the first option.
    pub(crate) fn new() -> Self
        ensures parts { (m : Stated) → IsUncollected m result None m.options }
        ensures unknown { result.has_unknown ≡ false }
    {
        Collected {
            firsts: Firsts::new(),
            etags: ArrayVec::new(),
            path: Segments::Empty,
            query: JoinedQuery {
                items: Query::new(),
                is_begun: false,
                is_long: false,
            },
            has_unknown: false,
        }
    }

    /// Stores the value of a recognised option, whose row of `OPTIONS` is at `place`.
    ///
    /// The first value of each option is stored, and every value of ETag, Uri-Path and Uri-Query.
    fn take(&mut self, place: usize, number: u16, value: &'a [u8])
        requires within { place < ROWS }
        requires place { spec.row_place number ≡ Some place }
        ensures taken { IsTaken self.old self.new number value.now }
        ensures unknown { self.new.has_unknown ≡ self.old.has_unknown }
    {
        self.firsts.keep(place, value);
        match number {
            ETAG => take_tag(&mut self.etags, value),
            URI_PATH => self.path.push(value),
            URI_QUERY => self.query.push(value),
            _ => {}
        }
    }
}

impl Collected<'_> {
    /// Returns whether Proxy-Uri or Proxy-Scheme is present.
    ///
    /// The server is no proxy, and refuses such a request.
    pub(crate) fn names_proxy(&self) -> bool
        ensures { result ≡ (has (first_at self.now.firsts PROXY_URI) || has (first_at self.now.firsts PROXY_SCHEME)) }
    {
        self.firsts.of(PROXY_URI).is_some() || self.firsts.of(PROXY_SCHEME).is_some()
    }
}

/// Stores an ETag of 8 bytes, unless four are stored already.
///
/// An ETag of another length is ignored, because the server sends none.
fn take_tag(tags: &mut ArrayVec<u64, ETAGS>, value: &[u8])
    ensures { (left : List (List ℕ)) →
        tags_with tags.old.items (value.now ∷ left) ≡ tags_with tags.new.items left }
{
    if value.len() == SERIAL && !tags.is_full() {
        tags.push(decode_uint(value));
    }
}

/// Collects a message's recognised options in one pass, in `collected`, which is empty before.
///
/// The caller's collection is filled in place, since a returned one is copied. `has_unknown` is
/// then `true` if a critical option isn't recognised.
pub(crate) fn collect<'a>(message: &Message<'a>, collected: &mut Collected<'a>)
    requires parts { IsUncollected message.now collected.old None message.now.options }
    requires unknown { collected.old.has_unknown ≡ false }
    ensures parts { IsCollected message.now collected.new }
    ensures short { AreShort collected.new.firsts }
    ensures unknown { collected.new.has_unknown ≡ spec.has_unknown_critical message.now.code None message.now.options }
{
    let code = message.code();
    let mut before = None;
    for (number, value) in message.options() {
        if let Some(place) = recognised_place(code, before, number, value.len()) {
            collected.take(place, number, value);
        } else if number % 2 == 1 {
            collected.has_unknown = true;
        }
        before = Some(number);
    }
}
