//! Gauges of a server: how much it holds at one time.
ghost use Rattle.std.specs.Prelude.{◌≡◌};
ghost use Rattle.fc_server.specs.Gauges.{no_gauges};

use crate::observer_counts::ObserverCounts;
use fc_front::FrontGauges;
use std::fmt;

/// Exchanges, transfers and observers at one time, and the jobs sent to workers by then.
#[derive(Clone, Copy, Debug, PartialEq, Eq)]
pub struct Gauges {
    /// The jobs that were sent to workers since the server's start.
    pub offloaded: u64,
    /// What the front holds, with its limits.
    pub front: FrontGauges,
    /// The observers of each slot.
    pub observers: ObserverCounts,
}

impl Gauges {
    /// Returns the gauges of a server that holds nothing, with limits of 0.
    pub fn none() -> Gauges
        ensures { result ≡ no_gauges }
    {
        Gauges {
            offloaded: 0,
            front: FrontGauges {
                exchanges: 0,
                most_exchanges: 0,
                transfers: 0,
                most_transfers: 0,
            },
            observers: ObserverCounts::none(),
        }
    }
}

/// Each word is written after a space, and a gauge before its limit.
///
/// An example: ` offloaded=7 exchanges=12/1024 transfers=1/16 observers/7=2`.
impl fmt::Display for Gauges {
    ghost use Rattle.std.specs.Prelude.{Some};
    ghost use Rattle.fc_server.specs.Gauges.{gauges_text};

    ghost output = { λ g. Some (gauges_text g) };

    fn fmt<W: fmt::Write>(&self, f: &mut fmt::Formatter<W>) -> fmt::Result {
        let Gauges {
            offloaded,
            front,
            observers,
        } = *self;
        let FrontGauges {
            exchanges,
            most_exchanges,
            transfers,
            most_transfers,
        } = front;
        write!(
            f,
            " offloaded={offloaded} exchanges={exchanges}/{most_exchanges} transfers={transfers}/{most_transfers}{observers}"
        )
    }
}
