//! Reports of a server's counts: which numbers each has, and the options that ask for them.
//!
//! A script stands for the socket. With a period of 0 each round makes a report, of the counts
//! before the round's datagram.
use crate::serving::{extent_of, serve_without_store};
use crate::socket_tests::put_datagram;
use coap_dedup::Limits;
use coap_msg::{Emission, Endpoint};
use fc_backend::CallLog;
use fc_config::command::command;
use fc_config::options::{BadOption, ServeConfig};
use fc_front::{DEFAULT_POLICY, FrontGauges, MOST_NETWORKS, Network, Policy};
use fc_host::sensors::NoSensors;
use fc_host::socket::{Buffer, Sink, Source};
use fc_observe::CONFIRM_AFTER;
use fc_receive::reports::Reports;
use fc_record::{LoggedReports, NoChanges, Report, Reporter};
use fc_server::{Gauges, ObserverCounts};
use fc_service::serve::Records;
use log::sink::{Discard, Locked};
use log::{LevelFilter, Log, Logged};
use std::alloc::Global;
use std::process::Abort;
use std::sync::Wait;
use std::sync::atomic::{AtomicUsize, Ordering};
use std::test::Fail;
use std::thread::Threads;
use std::time::Clock;

// No client at 127.0.0.1 is a manager, and there are two exchanges.
const POLICY: Policy = Policy {
    managers: [Network {
        ip: [192, 0, 2, 0],
        bits: 24,
    }; MOST_NETWORKS],
    limits: Limits {
        exchanges: 2,
        share: 2,
    },
    confirm_after: CONFIRM_AFTER,
};

// DELETE /p/0, which is refused with 4.03; GET /r/0, which is empty; GET /r/1, for which there is
// no exchange; and an empty confirmable message, which is rejected by a Reset.
const DELETE_1: [u8; 8] = [0x40, 0x04, 0x00, 0x01, 0xb1, b'p', 0x01, b'0'];

const GET_2: [u8; 8] = [0x40, 0x01, 0x00, 0x02, 0xb1, b'r', 0x01, b'0'];

const GET_3: [u8; 8] = [0x40, 0x01, 0x00, 0x03, 0xb1, b'r', 0x01, b'1'];

const EMPTY_4: [u8; 4] = [0x40, 0x00, 0x00, 0x04];

// PUT /p/7 of the program `mov64 r0, 69` and `exit`; GET /r/7 with Observe 0; and PUT /p/9 of a
// first block of 16 bytes.
const PUT_7: [u8; 41] = [
    0x40, 0x03, 0x00, 0x01, 0xb1, b'p', 0x01, b'7', 0xff, b'F', b'C', b'B', b'1', 0, 0, 2, 0, 2, 0,
    0, 0, 0, 0, 0, 0, 0xb7, 0, 0, 0, 69, 0, 0, 0, 0x95, 0, 0, 0, 0, 0, 0, 0,
];

const OBSERVE_7: [u8; 9] = [0x40, 0x01, 0x00, 0x02, 0x60, 0x51, b'r', 0x01, b'7'];

const BLOCK_9: [u8; 28] = [
    0x40, 0x03, 0x00, 0x03, 0xb1, b'p', 0x01, b'9', 0xd1, 0x03, 0x08, 0xff, b'F', b'C', b'B', b'1',
    0, 0, 2, 0, 2, 0, 0, 0, 0, 0, 0, 0,
];

// The datagrams that a server receives.
#[derive(Clone, Copy, PartialEq, Eq)]
enum Played {
    // A client that is no manager, with two exchanges.
    Refused,
    // A client with a program, an observer, and an upload in blocks.
    Held,
}

impl Played {
    fn policy(self) -> Policy {
        match self {
            Played::Refused => POLICY,
            Played::Held => DEFAULT_POLICY,
        }
    }

    // Returns the number of datagrams.
    fn limit(self) -> u32 {
        match self {
            Played::Refused => 5,
            Played::Held => 4,
        }
    }
}

// A source that returns no datagram at its first call, and for `Refused` none at its sixth call.
#[derive(Drop)]
struct Script {
    calls: usize,
    played: Played,
}

impl Source for Script {
    fn receive(
        &mut self,
        wait: Option<u64>,
        buffer: &mut Buffer,
        log: &mut CallLog,
    ) -> Option<(usize, Endpoint)> {
        let _ = log;
        let _ = wait;
        self.calls = self.calls.saturating_add(1);
        match (self.played, self.calls) {
            (Played::Refused, 2) => put_datagram(&DELETE_1, buffer),
            (Played::Refused, 3) => put_datagram(&GET_2, buffer),
            (Played::Refused, 4) => put_datagram(&GET_3, buffer),
            (Played::Refused, 5 | 7) => put_datagram(&EMPTY_4, buffer),
            (Played::Held, 2) => put_datagram(&PUT_7, buffer),
            (Played::Held, 3) => put_datagram(&OBSERVE_7, buffer),
            (Played::Held, 4) => put_datagram(&BLOCK_9, buffer),
            (Played::Held, 5) => put_datagram(&EMPTY_4, buffer),
            _ => None,
        }
    }
}

// A sink that fails at every second datagram.
#[derive(Drop)]
struct Lossy {
    sends: AtomicUsize,
}

impl Sink for Lossy {
    fn send(&self, emission: &Emission, log: &mut CallLog) -> bool {
        let _ = emission;
        let _ = log;
        self.sends.fetch_add(1, Ordering::SeqCst) % 2 == 0
    }
}

// The reports before each of the seven rounds.
const EXPECTED: &str = "\
[INFO  fcd] report received=0 forbidden=0 unavailable=0 notified=0 resent=0 removed=0 offloaded=0 exchanges=0/2 transfers=0/16 sent=0 failed=0
[INFO  fcd] report received=0 forbidden=0 unavailable=0 notified=0 resent=0 removed=0 offloaded=0 exchanges=0/2 transfers=0/16 sent=0 failed=0
[INFO  fcd] report received=1 forbidden=1 unavailable=0 notified=0 resent=0 removed=0 offloaded=0 exchanges=1/2 transfers=0/16 sent=1 failed=0
[INFO  fcd] report received=2 forbidden=1 unavailable=0 notified=0 resent=0 removed=0 offloaded=0 exchanges=2/2 transfers=0/16 sent=1 failed=1
[INFO  fcd] report received=3 forbidden=1 unavailable=1 notified=0 resent=0 removed=0 offloaded=0 exchanges=2/2 transfers=0/16 sent=2 failed=1
[INFO  fcd] report received=4 forbidden=1 unavailable=1 notified=0 resent=0 removed=0 offloaded=0 exchanges=2/2 transfers=0/16 sent=2 failed=2
[INFO  fcd] report received=4 forbidden=1 unavailable=1 notified=0 resent=0 removed=0 offloaded=0 exchanges=2/2 transfers=0/16 sent=2 failed=2
";

// The reports before each of the five rounds.
const EXPECTED_HELD: &str = "\
[INFO  fcd] report received=0 forbidden=0 unavailable=0 notified=0 resent=0 removed=0 offloaded=0 exchanges=0/1024 transfers=0/16 sent=0 failed=0
[INFO  fcd] report received=0 forbidden=0 unavailable=0 notified=0 resent=0 removed=0 offloaded=0 exchanges=0/1024 transfers=0/16 sent=0 failed=0
[INFO  fcd] report received=1 forbidden=0 unavailable=0 notified=0 resent=0 removed=0 offloaded=0 exchanges=1/1024 transfers=0/16 sent=1 failed=0
[INFO  fcd] report received=2 forbidden=0 unavailable=0 notified=0 resent=0 removed=0 offloaded=0 exchanges=2/1024 transfers=0/16 observers/7=1 sent=1 failed=1
[INFO  fcd] report received=3 forbidden=0 unavailable=0 notified=0 resent=0 removed=0 offloaded=0 exchanges=3/1024 transfers=1/16 observers/7=1 sent=2 failed=1
";

// Serves the datagrams with this many workers and this period in milliseconds. Returns the lines of
// the reports.
fn reported_by<R: Abort + AllocGlobal + Threads + Wait + Clock + Sync>(
    rt: &R,
    played: Played,
    workers: u8,
    every: Option<u64>,
) -> Vec<u8> {
    let alloc = rt.alloc();
    let lines = Locked::new(rt, Vec::new(alloc));
    let logger = Logged::new(rt, LevelFilter::Info, &lines);
    let served = serve_by(
        rt,
        alloc,
        &LoggedReports::new(&logger),
        played,
        workers,
        every,
    );
    assert!(rt; served);
    lines.into_inner()
}

// Serves the datagrams with this reporter. Returns whether they were served.
fn serve_by<R: Threads + Wait + Clock + Sync, Q: Reporter + Sync>(
    rt: &R,
    alloc: Global,
    reporter: &Q,
    played: Played,
    workers: u8,
    every: Option<u64>,
) -> bool {
    let end = Logged::new(rt, LevelFilter::Off, Discard);
    let mut err = Vec::new(alloc);
    let extent = extent_of(workers, played.limit());
    let policy = played.policy();
    let script = Script { calls: 0, played };
    let lossy = Lossy {
        sends: AtomicUsize::new(0),
    };
    let served = serve_without_store(
        rt,
        alloc,
        &records_of(&end, Reports { every, reporter }),
        &mut err,
        &NoSensors,
        script,
        &lossy,
        &policy,
        extent,
    );
    served.is_some()
}

fn records_of<'a, L: Log, Q: Reporter>(
    end: &'a L,
    reports: Reports<'a, Q>,
) -> Records<'a, L, NoChanges, Q> {
    Records {
        end,
        changes: &NoChanges,
        reports,
    }
}

#[test]
fn reports_have_the_counts_of_their_rounds(rt: HostRuntime) -> Result<(), Fail> {
    for workers in [1, 2] {
        let lines = reported_by(&rt, Played::Refused, workers, Some(0));
        assert!(rt; lines.as_slice() == EXPECTED.as_bytes(), "{workers}");
    }
    Ok(())
}

// An upload and a registration are answered, and an upload in blocks is in progress.
#[test]
fn reports_have_the_gauges_of_their_rounds(rt: HostRuntime) -> Result<(), Fail> {
    for workers in [1, 2] {
        let lines = reported_by(&rt, Played::Held, workers, Some(0));
        assert!(rt; lines.as_slice() == EXPECTED_HELD.as_bytes(), "{workers}");
    }
    Ok(())
}

// A server without a period, or with a period of a day, reports nothing until the script ends.
#[test]
fn nothing_is_reported_before_it_is_due(rt: HostRuntime) -> Result<(), Fail> {
    for every in [None, Some(86_400_000)] {
        assert!(rt; reported_by(&rt, Played::Refused, 1, every).is_empty());
        assert!(rt; reported_by(&rt, Played::Refused, 2, every).is_empty());
    }
    Ok(())
}

// Nine jobs of workers, 12 exchanges, three transfers, two observers of slot 7 and one of slot 12.
const GAUGES: Gauges = Gauges {
    offloaded: 9,
    front: FrontGauges {
        exchanges: 12,
        most_exchanges: 1024,
        transfers: 3,
        most_transfers: 16,
    },
    observers: ObserverCounts {
        shards: [
            [0; 8],
            [0; 8],
            [0; 8],
            [0; 8],
            [0, 1, 0, 0, 0, 0, 0, 0],
            [0; 8],
            [0; 8],
            [2, 0, 0, 0, 0, 0, 0, 0],
        ],
    },
};

// Reports these counts, after a datagram that couldn't be sent and two that were.
fn report_after_a_failure<L: Log>(logger: &L, report: &Report) {
    let reporter = LoggedReports::new(logger);
    reporter.count_sending(false);
    reporter.count_sending(true);
    reporter.count_sending(true);
    reporter.report(report, &mut CallLog::new());
}

#[test]
fn a_report_has_each_of_its_numbers(rt: HostRuntime) -> Result<(), Fail> {
    let lines = Locked::new(&rt, Vec::new(rt.alloc()));
    let logger = Logged::new(&rt, LevelFilter::Info, &lines);
    let report = Report {
        received: 1204,
        forbidden: 1,
        unavailable: 3,
        notified: 40,
        resent: 2,
        removed: 5,
        gauges: GAUGES,
    };
    report_after_a_failure(&logger, &report);
    let text =
        "[INFO  fcd] report received=1204 forbidden=1 unavailable=3 notified=40 resent=2 removed=5 offloaded=9 exchanges=12/1024 transfers=3/16 observers/7=2 observers/12=1 sent=2 failed=1\n";
    assert!(rt; lines.into_inner().as_slice() == text.as_bytes());
    Ok(())
}

// Returns the period in milliseconds that `--log` with this value, after `report:1`, gives.
fn period_of(alloc: Global, value: &str) -> Result<Result<Option<u64>, BadOption>, Fail> {
    let words = [
        "fcd", "serve", "--port", "5683", "--log", "report:1", "--log", value,
    ];
    let matches = command(alloc)?.try_get_matches_from(&words)?;
    let Some(matches) = matches.subcommand_matches("serve") else {
        return Ok(Ok(None));
    };
    Ok(ServeConfig::from_matches(matches).map(|config| config.logs.report))
}

#[test]
fn the_last_period_of_reports_counts(rt: HostRuntime) -> Result<(), Fail> {
    for (value, period) in [
        ("report:60", 60_000),
        ("report:86400", 86_400_000),
        ("info", 1_000),
        ("changes", 1_000),
        ("off", 1_000),
    ] {
        let given = period_of(rt.alloc(), value)?;
        assert!(rt;
            matches!(given, Ok(Some(given)) if given == period),
            "{value}"
        );
    }
    Ok(())
}

#[test]
fn other_values_of_log_are_refused(rt: HostRuntime) -> Result<(), Fail> {
    for value in [
        "report:0",
        "report:86401",
        "report:",
        "report",
        "report:1s",
        "reports:1",
        "all",
        "",
    ] {
        let given = period_of(rt.alloc(), value)?;
        assert!(rt; matches!(given, Err(BadOption::Log)), "{value}");
    }
    Ok(())
}
