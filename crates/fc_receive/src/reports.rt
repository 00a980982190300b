//! Rounds of a server, with or without reports of the server's counts.
ghost use Rattle.std.specs.Prelude.{◌≡◌};
ghost use Rattle.fc_receive.specs.Rounds.{HasReceivedBy, round_calls};

use crate::reporting::{Reporting, Through};
use crate::rounds::{Preparation, run_rounds};
use coap_msg::Emission;
use fc_backend::{CallLog, TimeSource};
use fc_host::socket::{Sink, Source};
use fc_pool::{Driven, Replies};
use fc_record::Reporter;
use fc_server::Ingress;
use std::sync::Wait;

/// The reporter of a server, and the period of its reports in milliseconds.
///
/// Without a period, nothing is reported.
#[derive(Clone, Copy)]
pub struct Reports<'a, Q: Reporter> {
    pub every: Option<u64>,
    pub reporter: &'a Q,
}

/// A sink whose reporter counts each datagram as sent or failed.
#[derive(Drop)]
pub struct CountedSink<'a, K: Sink, Q: Reporter> {
    pub sink: &'a K,
    pub reporter: &'a Q,
}

impl<'a, K: Sink, Q: Reporter> Sink for CountedSink<'a, K, Q> {
    ghost went = { K.went };

    fn send(&self, emission: &Emission, log: &mut CallLog) -> bool {
        let out = self.sink.send(emission, log);
        self.reporter.count_sending(out);
        out
    }
}

/// Receives datagrams as [`run_rounds`] does, and reports the counts.
///
/// Without a period in `reports`, nothing is reported. A due report is made in the next round. Each
/// receive ends at the latest when a report is due, or up to 100 ms later. Returns the server as
/// the last round left it, and the counts of the replies that were sent and that failed.
pub(crate) fn run_reported<
    R: Wait,
    N: Ingress,
    P: Preparation<N>,
    S: Source,
    K: Sink,
    M: TimeSource,
    Q: Reporter,
>(
    rt: &R,
    mut ingress: N,
    preparation: &P,
    source: &mut S,
    sink: &K,
    times: &M,
    limit: u32,
    reports: &Reports<'_, Q>,
) -> Driven<N, Replies>
    ensures { HasReceivedBy reports.now.every Q.reported P.readies N.calls (round_calls S.received M.is_time K.went) limit
        (S.came source.old) (S.came source.new) ingress result.ingress result.given }
{
    let Some(every) = reports.every else {
        let given = run_rounds(rt, &mut ingress, preparation, source, sink, times, limit);
        return Driven { ingress, given };
    };
    let mut reporting = Reporting::new(ingress, every, reports.reporter);
    let preparation = Through { preparation };
    let given = run_rounds(rt, &mut reporting, &preparation, source, sink, times, limit);
    Driven {
        ingress: reporting.into_inner(),
        given,
    }
}
