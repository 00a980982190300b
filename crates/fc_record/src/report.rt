//! Reports: counts of a server's datagrams and notifications, and its gauges.
ghost use Rattle.std.specs.Prelude.{◌≡◌};
ghost use Rattle.fc_record.specs.Reports.{datagram_counted, lease_counted, nothing_counted, one_more_if, response_counted, second_byte, tick_counted};
ghost use Rattle.fc_server.specs.Notified.{notified_as};

use coap_msg::{Code, Emission};
use fc_front::Handled;
use fc_observe::Ticked;
use fc_server::Gauges;
use fc_server::engine::NotifyOutcome;
use std::fmt;

/// Counts of a server's datagrams and notifications since its start, and its gauges.
///
/// Each count stops at 2^64 - 1. A report is written as a line of words.
#[derive(Clone, Copy, Debug, PartialEq, Eq)]
pub struct Report {
    /// The datagrams received.
    pub received: u64,
    /// The immediate responses with 4.03 (Forbidden).
    pub forbidden: u64,
    /// The immediate responses with 5.03 (Service Unavailable).
    pub unavailable: u64,
    /// The notification leases that shards granted.
    pub notified: u64,
    /// The notifications that were retransmitted.
    pub resent: u64,
    /// The observers that were removed, since they acknowledged no transmission.
    pub removed: u64,
    /// The gauges of the report's time, or of the last report's until then.
    pub gauges: Gauges,
}

impl Report {
    /// Returns counts of zero, and gauges of zero.
    pub fn none() -> Report
        ensures { result ≡ nothing_counted }
    {
        Report {
            received: 0,
            forbidden: 0,
            unavailable: 0,
            notified: 0,
            resent: 0,
            removed: 0,
            gauges: Gauges::none(),
        }
    }

    /// Counts a datagram that was handled, and its immediate response.
    ///
    /// The response is `reply` if `handled` is `Reply`.
    pub fn count_datagram(&mut self, handled: Handled, reply: &Emission)
        ensures { self.new ≡ datagram_counted handled reply.now self.old }
    {
        self.received = self.received.saturating_add(1);
        match handled {
            Handled::Reply => self.count_response(reply),
            Handled::Nothing | Handled::Job | Handled::Signal { .. } => {}
        }
    }

    // Counts a response whose code is 4.03 or 5.03. Other responses leave the counts unchanged.
    fn count_response(&mut self, reply: &Emission)
        ensures { self.new ≡ response_counted reply.now self.old }
    {
        let byte = second_byte(reply.bytes.as_slice());
        self.forbidden = one_more_if(byte == Code::FORBIDDEN.byte, self.forbidden);
        self.unavailable = one_more_if(byte == Code::SERVICE_UNAVAILABLE.byte, self.unavailable);
    }

    /// Counts the result of a shard's tick: a retransmission or a removed observer.
    pub fn count_tick(&mut self, ticked: &Ticked)
        ensures { self.new ≡ tick_counted ticked.now self.old }
    {
        match ticked {
            Ticked::Resend(_) => self.resent = self.resent.saturating_add(1),
            Ticked::Removed => self.removed = self.removed.saturating_add(1),
            Ticked::Quiet => {}
        }
    }

    /// Counts the lease that a shard was asked for, if it granted one.
    ///
    /// Only the contract reads `emission`, which is the lease's notification if `outcome` is
    /// `Sent`. The notification isn't counted itself.
    pub fn count_lease(&mut self, outcome: NotifyOutcome, emission: &Emission)
        ensures { self.new ≡ lease_counted (notified_as outcome emission.now) self.old }
    {
        let _ = emission;
        let granted = outcome != NotifyOutcome::Nobody;
        self.notified = one_more_if(granted, self.notified);
    }
}

// Returns `count`, or one more if `more`, up to 2^64 - 1.
fn one_more_if(more: bool, count: u64) -> u64
    ensures { result ≡ one_more_if more count }
{
    if more { count.saturating_add(1) } else { count }
}

// Returns the second byte of a message, its code (RFC 7252, section 3), or 0 if it has none.
fn second_byte(bytes: &[u8]) -> u8
    ensures { result ≡ second_byte bytes.now }
{
    match bytes {
        [_, byte, ..] => *byte,
        _ => 0,
    }
}

/// Writes a report as a line of words.
///
/// An example: `report received=1204 forbidden=1 unavailable=3
/// notified=40 resent=2 removed=1 offloaded=7 exchanges=12/1024 transfers=1/16 observers/7=2`.
impl fmt::Display for Report {
    ghost use Rattle.std.specs.Prelude.{Some};
    ghost use Rattle.fc_record.specs.Reports.{report_text};

    ghost output = { λ r. Some (report_text r) };

    fn fmt<W: fmt::Write>(&self, f: &mut fmt::Formatter<W>) -> fmt::Result {
        let Report {
            received,
            forbidden,
            unavailable,
            notified,
            resent,
            removed,
            gauges,
        } = *self;
        write!(
            f,
            "report received={received} forbidden={forbidden} unavailable={unavailable} notified={notified} resent={resent} removed={removed}"
        )?;
        write!(f, "{gauges}")
    }
}
