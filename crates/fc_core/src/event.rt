//! The events of a server.
use coap_msg::Endpoint;
use fc_help::Readings;

/// An event of a server.
///
/// Jobs are numbered from 0 in the order of their arrival, and shards from 0 to 7. Times are in
/// milliseconds. An event has no effect if the job that it names isn't at the stage that the event
/// needs. An event of a shard above 7 has no effect either.
#[derive(Clone, Copy)]
pub enum Event<'a> {
    /// A datagram is received.
    Deliver {
        now: u64,
        endpoint: Endpoint,
        bytes: &'a [u8],
    },
    /// The timer of a slot fires. The slot is taken modulo 64.
    Fire {
        slot: u8,
        now: u64,
    },
    /// A job reads the head word of a slot.
    Peek {
        job: usize,
        slot: u8,
    },
    /// A job takes a snapshot with these readings; memory can be allocated or not.
    Take {
        job: usize,
        memory: bool,
        readings: Readings,
    },
    /// A job has run its snapshot's program, and commits.
    Commit {
        job: usize,
        now: u64,
    },
    /// A job verifies its image and installs the program.
    ///
    /// `memory` is false if memory can't be allocated, or if the store refuses the save.
    Install {
        job: usize,
        memory: bool,
    },
    /// A job removes the program of the job's slot.
    Remove {
        job: usize,
    },
    /// The store refuses to save the change of a job's slot, so it isn't made.
    ///
    /// The change is a removal, or the commit of a run that wants to write. The refusal of an
    /// install is an [`Event::Install`] without memory.
    Refuse {
        job: usize,
    },
    /// A job reads the receipt of the program of the job's slot.
    Receipt {
        job: usize,
    },
    /// A job raises the head word of the slot that it changed.
    Raise {
        job: usize,
    },
    /// A job is answered.
    Answer {
        job: usize,
        now: u64,
    },
    /// A shard is asked for an observer's lease.
    Due {
        shard: u8,
        now: u64,
    },
    /// A lease draws a message ID.
    Fresh {
        job: usize,
        now: u64,
    },
    /// A lease's notification is sent.
    Note {
        job: usize,
        now: u64,
        random: u16,
    },
    /// A lease is released.
    GiveUp {
        job: usize,
        now: u64,
    },
    /// An endpoint acknowledged the message with this message ID, or reset it.
    Signal {
        shard: u8,
        endpoint: Endpoint,
        mid: u16,
        reset: bool,
    },
    /// Time passes for the exchanges.
    Tick {
        now: u64,
    },
    /// Time passes for a shard.
    ShardTick {
        shard: u8,
        now: u64,
    },
    /// A job's worker is lost.
    Lose {
        job: usize,
    },
}

impl Event<'_> {
    ghost use Rattle.std.specs.Prelude.{◌≡◌};
    ghost use Rattle.fc_core.specs.Transitions.{names};

    /// Returns the number of the job that the event names, or `None` if it names no job.
    pub fn job(&self) -> Option<usize>
        ensures { result ≡ names self.now }
    {
        match *self {
            Event::Peek { job, .. } => Some(job),
            Event::Take { job, .. } => Some(job),
            Event::Commit { job, .. } => Some(job),
            Event::Install { job, .. } => Some(job),
            Event::Remove { job } => Some(job),
            Event::Refuse { job } => Some(job),
            Event::Receipt { job } => Some(job),
            Event::Raise { job } => Some(job),
            Event::Answer { job, .. } => Some(job),
            Event::Fresh { job, .. } => Some(job),
            Event::Note { job, .. } => Some(job),
            Event::GiveUp { job, .. } => Some(job),
            Event::Lose { job } => Some(job),
            _ => None,
        }
    }
}
