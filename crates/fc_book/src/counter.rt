//! A counter under a lock, as the simplest part: it numbers its calls.
ghost use Rattle.std.specs.Prelude.{◌≡◌, ◌<◌, ◌≤◌, ◌^◌, ◌++◌, ◌∷◌, [], length, map, vec_len, IfOk, IfSome};
ghost use Rattle.fc_book.specs.Counters.{AreCounted, IsThread, call_of, with_call};
ghost use Rattle.fc_book.specs.Tracks.{part_view, with_part};

use crate::book::{Book, BookName, PartOf, PartTrack, Tracks};
use crate::entry::CallEntry;
use std::marker::Model;
use std::sync::{Mutex, Wait};

/// The contents of a counter's lock: the count, and the track of the counted calls.
///
/// In contracts a counter is the list of these calls.
#[derive(Drop)]
pub struct CallCounter<J: BookName, const KEY: u64> {
    count: u64,
    track: PartTrack<PartOf<J, KEY>>,
}

impl<J: BookName, const KEY: u64> Model for CallCounter<J, KEY> {
    ghost use Rattle.std.specs.Prelude.{◌≡◌, List, length};
    ghost use Rattle.fc_book.specs.declared.entry.CallEntry.{CallEntry as Call};

    ghost Value = { List Call };

    ghost use Rattle.fc_book.specs.Counters.{AreCounted};

    ghost view = { λ c. c.track };

    ghost invariant = { λ c. (c.count ≡ length c.track) × AreCounted KEY 0 c.track };
}

impl<J: BookName, const KEY: u64> CallCounter<J, KEY> {
    /// Makes a counter at 0, with an empty track.
    pub fn new(track: PartTrack<PartOf<J, KEY>>) -> CallCounter<J, KEY>
        requires { track ≡ [] }
        ensures { result ≡ [] }
    {
        CallCounter { count: 0, track }
    }

    /// Counts and files a call by thread `who`, and returns its number.
    ///
    /// If the count is at its maximum, returns `None` and files nothing; the contract doesn't say
    /// so.
    pub fn count(&mut self, book: &Book<J>, tracks: &mut Tracks<J>, who: u64) -> Option<u64>
        requires thread { IsThread who tracks.old }
        requires key { 2 ≤ who }
        ensures thread { IsThread who tracks.new }
        ensures called { IfSome result (λ n. tracks.new ≡ with_call (call_of KEY who n) tracks.old) }
    {
        if self.count == u64::MAX {
            return None;
        }
        let entry = CallEntry {
            part: KEY,
            who,
            job: who,
            answer: self.count,
        };
        let n = self.count;
        let CallCounter { count, track } = self;
        tracks.file(book, track, &entry);
        *count += 1;
        Some(n)
    }

    /// Closes the counter, and returns its count.
    ///
    /// The counter's track becomes one of those of `tracks`.
    pub fn close(self, book: &Book<J>, tracks: &mut Tracks<J>) -> u64
        ensures count { result ≡ length self }
        ensures counted { AreCounted KEY 0 self }
        ensures closed { tracks.new ≡ with_part tracks.old (part_view KEY self) }
    {
        let CallCounter { count, track } = self;
        tracks.close(book, track);
        count
    }
}
