//! The log of a worker, with its tracks in the server's book.
ghost use Rattle.std.specs.Prelude.{◌≡◌, ◌+◌, ◌<◌, ◌≤◌, ℕ, [], true, max, vec_len, IfOk};
ghost use Rattle.std.specs.List.{All};
ghost use Rattle.fc_book.specs.Tracks.{AreSingle, own_view, with_next};
ghost use Rattle.fc_calls.specs.Logged.{LooksAt, RaisesWord, SkipsIdle};
ghost use Rattle.fc_linear.specs.Operations.{Logged};
ghost use Rattle.fc_filed.specs.Threads.{HasJobFirst, known_word};
ghost use Rattle.fc_backend.specs.Logs.{MayFileAll, with_filed_call, with_filed_if, IsNewLog};
ghost use Rattle.fc_backend.specs.Messages.{IsNewJob, first_brought, with_tracks, first_tracked, with_new_track, without_job};

use crate::call_log::CallLog;
use crate::job_keys::JobKeys;
use crate::job_message::JobMessage;
use fc_filed::{ServerBook, ServerName, ServerTracks};
use fc_ticket::{Job, SlotNumber};
use std::alloc::{AllocError, Global};
use std::marker::{Model, PhantomData};

/// The key of the first thread's track.
///
/// Keys 0 to 9 are those of the tracks of the front, of eight shards and of the store.
const FIRST_THREAD: u64 = 10;

/// A worker's log: that of its calls, and its tracks in the server's book.
///
/// Each call of the server's front, of a shard or of a head word that gets the log becomes the last
/// entry on the worker's own track. So does an image that isn't installed. An entry for a job is
/// also the last one on the first track, that of the job. Readings, times, gates and transmitters
/// leave the tracks unchanged. A clause sees the log of the calls, the key of the worker's own
/// track, and the tracks. Only [`begin_logs`] makes a log.
#[derive(Drop)]
pub struct TrackLog<J: ServerName> {
    pub calls: CallLog,
    pub who: u64,
    pub tracks: ServerTracks<J>,
    made: PhantomData<J>,
}

impl<J: ServerName> Model for TrackLog<J> {
    ghost use Rattle.fc_backend.specs.Logs.{TrackedLog, MayFileAll};

    ghost Value = { TrackedLog };

    ghost view = { λ l. record { calls = l.calls; who = l.who; tracks = l.tracks } };

    ghost invariant = { λ l. MayFileAll J.first_job l.who l.tracks };
}

// A thread's own track, without an entry.
#[derive(Drop)]
struct ThreadTrack<J: ServerName> {
    who: u64,
    tracks: ServerTracks<J>,
    ghost key: { (10 ≤ who) × (who < J.first_job) },
    ghost own: { tracks ≡ own_view who [] },
}

impl<J: ServerName> TrackLog<J> {
    // Makes the log of a thread, with its own track and the next track that `first` begins.
    fn new(book: &ServerBook<J>, first: &mut ServerTracks<J>, thread: ThreadTrack<J>) -> TrackLog<J>
        requires may_begin { first.old.may_begin ≡ true }
        requires next { J.first_job ≤ first.old.next }
        ensures kept { first.new ≡ with_next first.old }
        ensures new_log { IsNewLog result }
    {
        let ThreadTrack { who, mut tracks } = thread;
        let jobs = first.begin_tracks(book);
        tracks.merge(book, jobs);
        TrackLog {
            calls: CallLog::new(),
            who,
            tracks,
            made: PhantomData,
        }
    }

    /// Returns the head word of a slot, and files the look.
    ///
    /// The result is at least every word of the slot that the thread knows. The thread then knows
    /// the result. No lock is taken.
    pub fn look(&mut self, book: &ServerBook<J>, slot: SlotNumber) -> u64
        ensures rises { known_word slot self.old.tracks.own ≤ result }
        ensures knows { known_word slot self.new.tracks.own ≡ result }
        ensures filed { self.new ≡ with_filed_call (LooksAt slot result) self.old }
    {
        let slot = usize::from(slot.number());
        self.tracks.look(book, self.who, slot)
    }

    /// Raises the head word of a slot to `word` if `word` is greater, and files the raise.
    ///
    /// The thread then knows `word`, or a greater word that it knew before. No lock is taken.
    pub fn raise(&mut self, book: &ServerBook<J>, slot: SlotNumber, word: u64)
        ensures knows { known_word slot self.new.tracks.own ≡ max (known_word slot self.old.tracks.own) word }
        ensures filed { self.new ≡ with_filed_call (RaisesWord slot word) self.old }
    {
        let slot = usize::from(slot.number());
        self.tracks.raise(book, self.who, slot, word);
    }

    /// Skips a shard, 0 to 7, if it is known to be idle at `now`, in milliseconds, and files that.
    ///
    /// Returns whether the shard was skipped. No lock is taken. See [`ServerTracks::skip_if_idle`].
    pub fn skip_if_idle(&mut self, book: &ServerBook<J>, shard: u8, now: u64) -> bool
        requires { shard < 8 }
        ensures { self.new ≡ with_filed_if result (Logged (SkipsIdle shard now)) self.old }
    {
        self.tracks
            .skip_if_idle(book, self.who, usize::from(shard), now)
    }

    /// States an invariant of the log's type: the thread may file each call.
    pub fn attest_own(&self)
        ensures { MayFileAll J.first_job self.now.who self.now.tracks }
    {
        let _ = &self.calls;
    }

    /// Begins the track of the next job, and puts it first.
    ///
    /// The track becomes that of the next job that a call of this log produces.
    pub fn begin_job(&mut self, book: &ServerBook<J>, keys: &mut JobKeys<J>)
        ensures keys { keys.new ≡ keys.old + 1 }
        ensures begun { self.new ≡ with_new_track keys.old self.old }
    {
        let track = keys.begin(book);
        self.tracks.merge(book, track);
    }

    /// Moves the first track, which is that of `job`, to a message to a worker.
    ///
    /// The contract also guarantees that no two tracks of the log had the same key.
    pub fn move_to_message(&mut self, book: &ServerBook<J>, job: Job) -> JobMessage<J>
        requires new { IsNewJob J.first_job (first_tracked job self.old) }
        requires rest { HasJobFirst J.first_job (without_job self.old).tracks }
        ensures message { result ≡ first_tracked job self.old }
        ensures sent { self.new ≡ without_job self.old }
        ensures single { AreSingle self.old.tracks.own }
    {
        self.tracks.attest(book);
        let tracks = self.tracks.split_first(book);
        JobMessage { job, tracks }
    }

    /// Moves the track of a message's job to the log, as the first one, and returns the job.
    pub fn take_from_message(&mut self, book: &ServerBook<J>, message: JobMessage<J>) -> Job
        ensures job { result ≡ message.job }
        ensures new { IsNewJob J.first_job message }
        ensures received { self.new ≡ with_tracks message.tracks self.old }
    {
        let JobMessage { job, tracks } = message;
        self.tracks.merge(book, tracks);
        job
    }

    /// Returns the tracks of the log. The thread's own track is among them.
    pub fn into_tracks(self) -> ServerTracks<J>
        ensures tracks { result ≡ self.tracks }
        ensures may_file { MayFileAll J.first_job self.who self.tracks }
    {
        self.tracks
    }
}

/// Begins the tracks of a book's threads, and returns a log for each.
///
/// First the threads' own tracks begin. Then an empty track begins for each thread; it is first
/// while the thread has no job. `first` keeps the right to begin the tracks of jobs.
///
/// # Errors
/// Returns `AllocError` if memory for the list can't be allocated.
pub fn begin_logs<J: ServerName>(
    alloc: Global,
    book: &ServerBook<J>,
    first: &mut ServerTracks<J>,
    threads: u16,
) -> Result<Vec<TrackLog<J>>, AllocError>
    requires may_begin { first.old.may_begin ≡ true }
    requires next { first.old.next ≡ 10 }
    requires threads { J.first_job ≡ 10 + threads }
    ensures count { IfOk result (λ v. vec_len v ≡ threads) }
    ensures new_logs { IfOk result (λ v. All IsNewLog v.items) }
    ensures next { IfOk result (λ v. first.new ≡ record first.old { next = first_brought J.first_job }) }
{
    let began = begin_threads(alloc, book, first, threads)?;
    let mut logs = Vec::with_capacity(alloc, began.len())?;
    for thread in began {
        logs.push(TrackLog::new(book, first, thread))?;
    }
    Ok(logs)
}

// Begins the next tracks, one for each thread: its own, under the thread's key. Returns an error if
// memory for the list can't be allocated.
fn begin_threads<J: ServerName>(
    alloc: Global,
    book: &ServerBook<J>,
    first: &mut ServerTracks<J>,
    threads: u16,
) -> Result<Vec<ThreadTrack<J>>, AllocError>
    requires may_begin { first.old.may_begin ≡ true }
    requires next { first.old.next ≡ 10 }
    requires threads { J.first_job ≡ 10 + threads }
    ensures next { IfOk result (λ v. first.new ≡ record first.old { next = J.first_job }) }
    ensures count { IfOk result (λ v. vec_len v ≡ threads) }
{
    let mut began = Vec::with_capacity(alloc, usize::from(threads))?;
    for thread in 0..threads {
        let tracks = first.begin_tracks(book);
        let who = FIRST_THREAD + u64::from(thread);
        began.push(ThreadTrack { who, tracks })?;
    }
    Ok(began)
}
