//! Gauges of a front: how much it holds at a time, with its limits.

/// The exchanges and the transfers that a front holds, with their limits.
#[derive(Clone, Copy, Debug, PartialEq, Eq)]
pub struct FrontGauges {
    /// The exchanges within their lifetime.
    pub exchanges: usize,
    /// The maximum number of exchanges.
    pub most_exchanges: usize,
    /// The transfers in progress.
    pub transfers: usize,
    /// The maximum number of transfers.
    pub most_transfers: usize,
}
