//! Rounds of a server, with timers or without.
ghost use Rattle.std.specs.Prelude.{◌≡◌};
ghost use Rattle.fc_receive.specs.Rounds.{HasReceivedWith, round_calls};

use crate::firing::{Firing, ThroughTimers};
use crate::reports::{Reports, run_reported};
use crate::rounds::Preparation;
use crate::timer_jobs::TimerJobs;
use fc_backend::TimeSource;
use fc_host::socket::{Sink, Source};
use fc_host::timer::Timer;
use fc_pool::{Driven, Replies};
use fc_record::Reporter;
use fc_server::Ingress;
use std::sync::Wait;

/// The timers of a server, and those of their jobs that workers have.
#[derive(Drop)]
pub struct TimersOf<'a> {
    pub timers: Vec<Timer>,
    pub jobs: &'a TimerJobs,
}

/// Receives datagrams as [`run_reported`] does, and fires the timers when they are due.
///
/// A timer fires in the first round at or after its due time. Each receive ends when the first
/// timer is due. Without timers the server is called directly. Returns the server as the last round
/// left it, and the numbers of replies, as `run_reported` does.
pub fn run_timed<
    R: Wait,
    N: Ingress,
    P: Preparation<N>,
    S: Source,
    K: Sink,
    M: TimeSource,
    Q: Reporter,
>(
    rt: &R,
    ingress: N,
    preparation: &P,
    source: &mut S,
    sink: &K,
    times: &M,
    limit: u32,
    reports: &Reports<'_, Q>,
    timers: TimersOf<'_>,
) -> Driven<N, Replies>
    ensures { HasReceivedWith timers.entry.timers.items reports.now.every Q.reported P.readies N.calls (round_calls S.received M.is_time K.went) limit
        (S.came source.old) (S.came source.new) ingress result.ingress result.given }
{
    let TimersOf { timers, jobs } = timers;
    if timers.as_slice().is_empty() {
        return run_reported(
            rt,
            ingress,
            preparation,
            source,
            sink,
            times,
            limit,
            reports,
        );
    }
    let firing = Firing::new(ingress, timers, jobs);
    let preparation = ThroughTimers { preparation };
    let Driven { ingress, given } = run_reported(
        rt,
        firing,
        &preparation,
        source,
        sink,
        times,
        limit,
        reports,
    );
    Driven {
        ingress: ingress.into_inner(),
        given,
    }
}
