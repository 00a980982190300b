//! Reporters: recorders of a server's reports.
ghost use Rattle.std.specs.Prelude.{◌≡◌, ⊤};
ghost use Rattle.fc_record.specs.declared.report.Report.{Report as Counts};
ghost use Rattle.fc_backend.specs.declared.call_log.CallLog.{CallLog as Log};

use crate::report::Report;
use fc_backend::CallLog;
use log::{Log as Logger, info};
use std::sync::atomic::{AtomicU64, Ordering};

/// A recorder of reports.
pub trait Reporter {
    // This report was recorded, which led the caller's log from `before` to `after`.
    ghost reported: { Counts → Log → Log → Type 0 } = { λ report before after. ⊤ };

    /// Records a report.
    fn report(&self, report: &Report, log: &mut CallLog)
        ensures { reported report.now log.old log.new };

    /// Counts a datagram of the server's own: as sent if `out`, and else as failed.
    ///
    /// A later report may give both numbers.
    fn count_sending(&self, out: bool);
}

/// A reporter that records nothing.
#[derive(Clone, Copy)]
pub struct NoReports;

impl Reporter for NoReports {
    ghost reported = { λ report before after. after ≡ before };

    fn report(&self, report: &Report, log: &mut CallLog) {
        let _ = report;
        let _ = log;
    }

    fn count_sending(&self, out: bool) {
        let _ = out;
    }
}

/// A reporter that passes each report to a logger, as a record of level info.
///
/// The record ends with two numbers: of datagrams that were sent, and of datagrams that couldn't be
/// sent. Any thread may change the numbers at any time, so no contract speaks of them.
#[derive(Drop)]
pub struct LoggedReports<'a, L: Logger> {
    logger: &'a L,
    sent: AtomicU64,
    failed: AtomicU64,
}

impl<'a, L: Logger> LoggedReports<'a, L> {
    /// Makes a reporter that writes to `logger`, and has counted no datagram.
    pub fn new(logger: &'a L) -> LoggedReports<'a, L> {
        LoggedReports {
            logger,
            sent: AtomicU64::new(0),
            failed: AtomicU64::new(0),
        }
    }
}

impl<'a, L: Logger> Reporter for LoggedReports<'a, L> {
    ghost reported = { λ report before after. after ≡ before };

    fn report(&self, report: &Report, log: &mut CallLog) {
        let _ = log;
        let sent = self.sent.load(Ordering::SeqCst);
        let failed = self.failed.load(Ordering::SeqCst);
        info!(self.logger; target: "fcd", "{report} sent={sent} failed={failed}");
    }

    fn count_sending(&self, out: bool) {
        let count = if out { &self.sent } else { &self.failed };
        let _before = count.fetch_add(1, Ordering::SeqCst);
    }
}
