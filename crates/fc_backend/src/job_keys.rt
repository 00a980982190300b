//! The keys of the tracks of jobs.
ghost use Rattle.std.specs.Prelude.{◌≡◌, ◌+◌, ◌≤◌, [], true};
ghost use Rattle.fc_book.specs.Tracks.{own_view};
ghost use Rattle.fc_backend.specs.Messages.{first_brought};

use fc_filed::{ServerBook, ServerName, ServerTracks};
use std::marker::Model;

/// The right to begin the tracks of a server's jobs, in the order of their keys.
///
/// There is one for each server. The thread that produces the jobs owns it. Contracts see the key
/// of the next track.
#[derive(Drop)]
pub struct JobKeys<J: ServerName> {
    tracks: ServerTracks<J>,
}

impl<J: ServerName> Model for JobKeys<J> {
    ghost use Rattle.std.specs.Prelude.{ℕ, ◌≡◌, ◌≤◌, true};

    ghost Value = { ℕ };

    ghost use Rattle.fc_backend.specs.Messages.{first_brought};

    ghost view = { λ k. k.tracks.next };

    ghost invariant = { λ k. (k.tracks.may_begin ≡ true) × (first_brought J.first_job ≤ k.tracks.next) };
}

impl<J: ServerName> JobKeys<J> {
    /// Makes the right to begin the tracks of jobs from `tracks`, the first owner of a book.
    pub fn new(tracks: ServerTracks<J>) -> JobKeys<J>
        requires may_begin { tracks.may_begin ≡ true }
        requires next { first_brought J.first_job ≤ tracks.next }
        ensures { result ≡ tracks.next }
    {
        JobKeys { tracks }
    }

    /// Begins the next track, and returns its owner.
    pub fn begin(&mut self, book: &ServerBook<J>) -> ServerTracks<J>
        ensures track { result ≡ own_view self.old [] }
        ensures next { self.new ≡ self.old + 1 }
        ensures above { first_brought J.first_job ≤ self.old }
    {
        self.tracks.begin_tracks(book)
    }
}
