//! Laws of gauges: what counts as held by a front at a time.
ghost use Rattle.std.specs.Prelude.{◌≡◌, [], ◌∷◌, ℕ};
ghost use Rattle.coap_block.specs.declared.transfer.Transfer.{Transfer};
ghost use Rattle.coap_dedup.specs.Exchanges.{Exchange};
ghost use Rattle.fc_front.specs.Exchanges.{FrontState};
ghost use Rattle.fc_front.specs.Gauges.{gauges_at};

/// A front holds an exchange and a transfer for 247 s.
///
/// If an exchange was opened at 0 ms and the latest block of a transfer came then, both are held at
/// 246,999 ms, and not at 247,000 ms. If the front's own time is later, it counts instead.
pub fn fronts_hold_for_247_seconds()
    ensures held { (f : FrontState) (e : Exchange) (t : Transfer) →
        let gauges = gauges_at 246999 (record f { now = 0; held = record e { at = 0 } ∷ []; transfers = record t { at = 0 } ∷ [] }) in
        (gauges.exchanges ≡ 1) × (gauges.transfers ≡ 1) }
    ensures over { (f : FrontState) (e : Exchange) (t : Transfer) →
        let gauges = gauges_at 247000 (record f { now = 0; held = record e { at = 0 } ∷ []; transfers = record t { at = 0 } ∷ [] }) in
        (gauges.exchanges ≡ 0) × (gauges.transfers ≡ 0) }
    ensures own { (f : FrontState) (e : Exchange) (t : Transfer) →
        let gauges = gauges_at 0 (record f { now = 247000; held = record e { at = 0 } ∷ []; transfers = record t { at = 0 } ∷ [] }) in
        (gauges.exchanges ≡ 0) × (gauges.transfers ≡ 0) }
{}

/// A front has the limits of its policy, and 16 transfers at most.
///
/// By default there are at most 1,024 exchanges. A policy of 100,000 means 65,536, and one of 0
/// means 1.
pub fn fronts_hold_up_to_their_limits()
    ensures usual { (f : FrontState) (now : ℕ) → (gauges_at now (record f { limits = record { exchanges = 1024; share = 65536 } })).most_exchanges ≡ 1024 }
    ensures most { (f : FrontState) (now : ℕ) → (gauges_at now (record f { limits = record { exchanges = 100000; share = 65536 } })).most_exchanges ≡ 65536 }
    ensures least { (f : FrontState) (now : ℕ) → (gauges_at now (record f { limits = record { exchanges = 0; share = 65536 } })).most_exchanges ≡ 1 }
    ensures transfers { (f : FrontState) (now : ℕ) → (gauges_at now f).most_transfers ≡ 16 }
{}
