//! The trait of a server that handles datagrams, and the effects of its calls.
ghost use Rattle.std.specs.Prelude.{◌≡◌, MatchBool};
ghost use Rattle.fc_registry.specs.Slots.{Shard};
ghost use Rattle.fc_registry.specs.Watches.{at_time, is_idle};
ghost use Rattle.fc_server.specs.Ingresses.{IngressCalls, is_reply};
ghost use Rattle.fc_server.specs.Notified.{notified_as};

use crate::engine::{FireOutcome, NotifyOutcome};
use crate::gauges::Gauges;
use coap_msg::{Emission, Endpoint};
use fc_front::Handled;
use fc_observe::Ticked;
use fc_ticket::SlotNumber;

/// A server that handles datagrams and notifies observers.
///
/// The server runs on one thread, or is a dispatcher of workers. Each implementation states the
/// effect of the calls.
pub trait Ingress {
    // The effect of each call.
    ghost calls: { IngressCalls Self };

    /// Handles a datagram received at `now`, in milliseconds.
    ///
    /// A response is written over `reply`. The job of a request runs here or on a worker. A signal
    /// goes to each shard. Returns `Reply` if the written response is to be sent, and `Job` if a
    /// worker has the job or has sent its response. After any other result nothing is to be sent.
    fn handle(&mut self, now: u64, from: Endpoint, bytes: &[u8], reply: &mut Emission) -> Handled
        ensures { calls.handles now from bytes.entry self.old self.new result reply.new };

    /// Advances the clock to `now`, in milliseconds.
    fn tick(&mut self, now: u64)
        ensures { calls.passes now self.old self.new };

    /// Fires the timer of a slot at `now`, in milliseconds.
    ///
    /// The timer's job, a POST of the slot's resource, runs here or on a worker. The job sends
    /// nothing. Returns `Sent` with the job's number if the job was sent to a worker. Otherwise the
    /// job has ended here. `Refused` means that it ended without a run, since memory for its
    /// snapshot couldn't be allocated.
    fn fire(&mut self, slot: SlotNumber, now: u64) -> FireOutcome
        ensures { calls.fires slot now self.old self.new result };

    /// Returns the time at which the first of the server's own timers is due.
    ///
    /// The server fires such a timer when it handles a datagram or its clock is advanced. The time
    /// is in milliseconds; 2^64 - 1 means that the server has no timer.
    fn first_due(&self) -> u64
        ensures { calls.is_first_due self.now result };

    /// Advances a shard, 0 to 7, to `now`, and returns its retransmission.
    ///
    /// `now` is in milliseconds. If there is no retransmission, the result is that an observer was
    /// removed, or that no notification has timed out.
    fn resend(&mut self, shard: u8, now: u64) -> Ticked
        ensures { calls.resends shard now self.old self.new result };

    /// Advances a shard, 0 to 7, to `now` in milliseconds if it is idle then.
    ///
    /// A shard is idle if no notification has timed out and no observer has a pending one. An
    /// ingress may skip a shard that it knows to be idle. Returns whether the shard is idle; if it
    /// isn't, nothing changes.
    fn advance_if_idle(&mut self, shard: u8, now: u64) -> bool
        ensures idle { (some : Shard) × (result ≡ is_idle (at_time some now)) }
        ensures after { MatchBool result (calls.passes_over shard now self.old self.new) (self.new ≡ self.old) };

    /// Returns a time before which a shard, 0 to 7, is idle without a datagram.
    ///
    /// Before that time no notification times out and no observer has a pending one. The time is in
    /// milliseconds, and needn't be the latest such time. 2^64 - 1 means that neither is expected.
    fn idle_until(&self, shard: u8) -> u64
        ensures { calls.stays_idle shard self.now result };

    /// Returns the server's gauges at `now`, in milliseconds. Nothing changes.
    ///
    /// The gauges count exchanges, transfers and observers at that time, with limits, and the jobs
    /// that the server has sent to workers since its start.
    fn gauges(&self, now: u64) -> Gauges
        ensures { calls.tells_gauges now self.now result };

    /// Notifies the first observer of a shard, 0 to 7, that has a pending notification.
    ///
    /// `now` is in milliseconds. The lease of the observer runs here or on a worker. If the result
    /// is `Sent`, the datagram to send is written over `emission`. Nothing is written if a worker
    /// has the lease or has sent the notification (`Unsent`). `Nobody` means that no observer has a
    /// pending notification.
    fn notify(&mut self, shard: u8, now: u64, emission: &mut Emission) -> NotifyOutcome
        ensures { calls.notifies shard now self.old self.new (notified_as result emission.new) };
}

/// Returns whether the datagram that [`Ingress::handle`] wrote is to be sent.
pub fn is_reply(handled: Handled) -> bool
    ensures { result ≡ is_reply handled }
{
    match handled {
        Handled::Reply => true,
        Handled::Nothing | Handled::Job | Handled::Signal { .. } => false,
    }
}
