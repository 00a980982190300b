//! A server that reports its counts, with a period in milliseconds.
ghost use Rattle.std.specs.Prelude.{◌≡◌};
ghost use Rattle.fc_receive.specs.Reporting.{ReportsIfDue, readies_through, reported_calls, reporting_from};

use crate::rounds::Preparation;
use coap_msg::{Emission, Endpoint};
use fc_backend::CallLog;
use fc_front::Handled;
use fc_observe::Ticked;
use fc_record::{Report, Reporter};
use fc_server::engine::{FireOutcome, NotifyOutcome};
use fc_server::{Gauges, Ingress};
use fc_ticket::SlotNumber;
use std::marker::Model;
use std::sync::Wait;

/// An ingress that passes each call to a server, and reports counts of the results.
///
/// A due report is made before a datagram is handled, or before time passes. Contracts see the
/// server, its counts, their period, when the next report is due, and the log of the reports.
pub(crate) struct Reporting<'a, N: Ingress, Q: Reporter> {
    ingress: N,
    report: Report,
    every: u64,
    due: u64,
    log: CallLog,
    reporter: &'a Q,
}

impl<'a, N: Ingress, Q: Reporter> Model for Reporting<'a, N, Q> {
    ghost use Rattle.fc_receive.specs.Reporting.{Reporting as Seen};

    ghost Value = { Seen N };

    ghost view = { λ r. record { ingress = r.ingress; report = r.report; every = r.every; due = r.due; log = r.log } };
}

impl<'a, N: Ingress, Q: Reporter> Reporting<'a, N, Q> {
    /// Begins to report the counts of a server, with a period of `every` milliseconds.
    ///
    /// The first report is due at `every` milliseconds.
    pub(crate) fn new(ingress: N, every: u64, reporter: &'a Q) -> Reporting<'a, N, Q>
        ensures { result ≡ reporting_from every result.log ingress }
    {
        Reporting {
            ingress,
            report: Report::none(),
            every,
            due: every,
            log: CallLog::new(),
            reporter,
        }
    }

    /// Returns the server, as the last call left it.
    pub(crate) fn into_inner(self) -> N
        ensures { result ≡ self.entry.ingress }
    {
        let Reporting {
            ingress,
            report: _,
            every: _,
            due: _,
            log: _,
            reporter: _,
        } = self;
        ingress
    }

    // Makes the report that is due at `now`, in milliseconds; the next is due one period after
    // `now`. Nothing changes if none is due.
    fn report_if_due(&mut self, now: u64)
        ensures { ReportsIfDue Q.reported N.calls now self.old self.new }
    {
        if now < self.due {
            return;
        }
        self.report.gauges = self.ingress.gauges(now);
        self.reporter.report(&self.report, &mut self.log);
        self.due = now.saturating_add(self.every);
    }
}

impl<'a, N: Ingress, Q: Reporter> Ingress for Reporting<'a, N, Q> {
    ghost calls = { reported_calls Q.reported N.calls };

    fn handle(&mut self, now: u64, from: Endpoint, bytes: &[u8], reply: &mut Emission) -> Handled {
        self.report_if_due(now);
        let handled = self.ingress.handle(now, from, bytes, reply);
        self.report.count_datagram(handled, reply);
        handled
    }

    fn tick(&mut self, now: u64) {
        self.report_if_due(now);
        self.ingress.tick(now);
    }

    fn fire(&mut self, slot: SlotNumber, now: u64) -> FireOutcome {
        self.ingress.fire(slot, now)
    }

    fn first_due(&self) -> u64 {
        self.ingress.first_due()
    }

    fn resend(&mut self, shard: u8, now: u64) -> Ticked {
        let ticked = self.ingress.resend(shard, now);
        self.report.count_tick(&ticked);
        ticked
    }

    fn advance_if_idle(&mut self, shard: u8, now: u64) -> bool {
        self.ingress.advance_if_idle(shard, now)
    }

    // Returns no later time than that of the next report, so that the server wakes up for it.
    fn idle_until(&self, shard: u8) -> u64 {
        self.ingress.idle_until(shard).min(self.due)
    }

    fn gauges(&self, now: u64) -> Gauges {
        self.ingress.gauges(now)
    }

    fn notify(&mut self, shard: u8, now: u64, emission: &mut Emission) -> NotifyOutcome {
        let outcome = self.ingress.notify(shard, now, emission);
        self.report.count_lease(outcome, emission);
        outcome
    }
}

// A preparation of the server whose counts are reported.
#[derive(Drop)]
pub(crate) struct Through<'a, P> {
    pub(crate) preparation: &'a P,
}

impl<'a, 'b, N: Ingress, Q: Reporter, P: Preparation<N>> Preparation<Reporting<'b, N, Q>>
    for Through<'a, P> {
    ghost readies = { readies_through P.readies };

    fn ready<R: Wait>(&self, rt: &R, ingress: &mut Reporting<'b, N, Q>, now: u64) {
        self.preparation.ready(rt, &mut ingress.ingress, now);
    }
}
