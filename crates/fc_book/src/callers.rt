//! Two threads that call two counters: their calls have one history.
//!
//! This module is an example of the book's use; no server calls it.
ghost use Rattle.std.specs.Prelude.{◌≡◌, ◌≤◌, [], IfSome};
ghost use Rattle.fc_book.specs.Counters.{HasOneHistory, IsCaller};
ghost use Rattle.fc_book.specs.Tracks.{own_view};

use crate::book::{Book, BookName, NewBook, Tracks};
use crate::counter::CallCounter;
use std::alloc::Global;
use std::marker::Brand;
use std::sync::{Mutex, Wait};
use std::thread::{Threads, join};

/// The results of two threads' calls, and the counts of two counters at the end.
#[derive(Drop)]
pub struct CallerResults {
    pub first: Vec<u64>,
    pub second: Vec<u64>,
    pub left: u64,
    pub right: u64,
}

/// Calls two counters alternately as thread `who`, and returns the results.
///
/// Makes `calls` calls, and files them on the thread's tracks, which are returned too. Returns
/// `None` if memory can't be allocated, or if a counter is at its maximum.
fn call_in_turn<J: BookName, R: Wait>(
    rt: &R,
    alloc: Global,
    book: &Book<J>,
    left: &Mutex<CallCounter<J, 0>>,
    right: &Mutex<CallCounter<J, 1>>,
    mut tracks: Tracks<J>,
    who: u64,
    calls: usize,
) -> Option<(Tracks<J>, Vec<u64>)>
    requires tracks { tracks ≡ own_view who [] }
    requires key { 2 ≤ who }
    ensures { IfSome result (λ r. IsCaller who calls r.0 r.1.items) }
{
    let mut answers = Vec::new(alloc);
    for call in 0..calls {
        answers.reserve(1).ok()?;
        let answer = if call % 2 == 0 {
            left.lock(rt).count(book, &mut tracks, who)?
        } else {
            right.lock(rt).count(book, &mut tracks, who)?
        };
        answers.push_reserved(answer);
    }
    Some((tracks, answers))
}

/// Runs two threads, each of which makes `calls` calls of two counters alternately.
///
/// The calls are filed in a book that `J` names. Returns `None` if memory can't be allocated, or if
/// a counter is at its maximum.
fn run_callers_in<J: BookName + Send + Sync, R: Threads + Wait + Sync>(
    rt: &R,
    alloc: Global,
    new_book: NewBook,
    calls: usize,
) -> Option<CallerResults>
    requires { new_book.words.shared.table_id ≡ J.table }
    ensures { IfSome result (λ s. HasOneHistory calls s) }
{
    let (book, mut tracks) = new_book.with_name::<J>();
    let left = Mutex::new(CallCounter::new(tracks.begin_part(&book)));
    let right = Mutex::new(CallCounter::new(tracks.begin_part(&book)));
    let one = tracks.begin_tracks(&book);
    let two = tracks.begin_tracks(&book);
    let (a, b) = join(
        rt,
        || -> Option<(Tracks<J>, Vec<u64>)>
            requires { one ≡ own_view 2 [] }
            ensures { IfSome result (λ r. IsCaller 2 calls r.0 r.1.items) }
        { call_in_turn(rt, alloc, &book, &left, &right, one, 2, calls) },
        || -> Option<(Tracks<J>, Vec<u64>)>
            requires { two ≡ own_view 3 [] }
            ensures { IfSome result (λ r. IsCaller 3 calls r.0 r.1.items) }
        { call_in_turn(rt, alloc, &book, &left, &right, two, 3, calls) },
    );
    let (one, first) = a?;
    let (two, second) = b?;
    let left = left.into_inner().close(&book, &mut tracks);
    let right = right.into_inner().close(&book, &mut tracks);
    tracks.merge(&book, one);
    tracks.merge(&book, two);
    tracks.attest(&book);
    Some(CallerResults {
        first,
        second,
        left,
        right,
    })
}

/// Runs two threads, each of which makes `calls` calls of two counters alternately.
///
/// Each counter has a lock of its own. Returns `None` if memory can't be allocated, or if a counter
/// is at its maximum.
pub fn run_callers<R: Threads + Wait + Sync>(
    rt: &R,
    alloc: Global,
    calls: usize,
) -> Option<CallerResults>
    ensures { IfSome result (λ s. HasOneHistory calls s) }
{
    let new_book = NewBook::new(alloc).ok()?;
    run_callers_in::<Brand, R>(rt, alloc, new_book, calls)
}
