//! Notification leases of observers, as jobs, for `Shard::write_due`.
ghost use Rattle.std.specs.Prelude.{◌≡◌, false};
ghost use Rattle.fc_observe.specs.Calls.{NextDue, observers_after};
ghost use Rattle.fc_observe.specs.Views.{interest};
ghost use Rattle.fc_ticket.specs.declared.job.Ask.TheVariants.{Run};
ghost use Rattle.fc_registry.specs.Turns.{first_block, turn_given_to, turn_job, written_if};

use arrayvec::ArrayVec;
use coap_msg::Token;
use coap_opts::Block;
use fc_help::Request;
use fc_observe::{Observer, Observers};
use fc_ticket::{Ask, Job, Opening, Origin, SlotNumber};

// Grants a lease to the first observer of a slot that has a pending notification about this notify
// serial. Writes the lease's job over `job`. Returns whether a lease was granted; if not, `job` is
// unchanged.
pub(crate) fn next_turn(
    watch: &mut Observers,
    now: u64,
    notify_serial: u64,
    slot: SlotNumber,
    job: &mut Job,
) -> bool
    ensures job { written_if result job.new ≡ turn_given_to slot now notify_serial watch.old }
    ensures kept { result ≡ false → job.new ≡ job.old }
    ensures watch { watch.new ≡ observers_after (NextDue now notify_serial) watch.old }
{
    let Some(turn) = watch.next_due(now, notify_serial) else {
        return false;
    };
    let Some(observer) = watch.out(turn) else {
        return false;
    };
    write_turn(&observer, turn.number, slot, job);
    true
}

// Makes a job for `write_turn` to write over.
pub(crate) fn no_job() -> Job {
    Job {
        origin: Origin::default(),
        turn: None,
        confirmable: false,
        token: Token::new(),
        etags: ArrayVec::new(),
        block: None,
        observe: None,
        ask: Ask::Remove,
    }
}

// Writes the job of the lease with this number over `job`: it answers the observer's request again,
// from the first block on.
fn write_turn(observer: &Observer<'_>, number: u64, slot: SlotNumber, job: &mut Job)
    ensures { job.new ≡ turn_job slot number (interest observer.now) }
{
    job.origin = Origin {
        opening: Opening { number: 0, at: 0 },
        endpoint: observer.endpoint,
        id: 0,
        slot,
    };
    job.turn = Some(number);
    job.confirmable = false;
    write_token(observer.token, &mut job.token);
    job.etags.clear();
    job.block = first_block(observer.szx);
    job.observe = None;
    ask_anew(observer.request, &mut job.ask);
}

// Writes `token` over another one.
fn write_token(token: &Token, over: &mut Token)
    ensures { over.new ≡ token.now }
{
    over.clear();
    let _fits = over.try_extend_from_slice(token.as_slice());
}

// Sets a job's action to answering this request. If the action is already a run, its request is
// overwritten in place.
fn ask_anew(request: &Request, ask: &mut Ask)
    ensures { ask.new ≡ Run request.now }
{
    match ask {
        Ask::Run(own) => own.write(
            request.method(),
            request.slot(),
            request.content_format(),
            request.query(),
            request.payload(),
        ),
        _ => *ask = Ask::Run(request.copy()),
    }
}

// Returns the first block of the size with this exponent (SZX), of which three bits count. Returns
// `None` without an exponent.
fn first_block(szx: Option<u8>) -> Option<Block>
    ensures { result ≡ first_block szx }
{
    match szx {
        None => None,
        Some(szx) => Some(Block::new(0, false, szx % 8)),
    }
}
