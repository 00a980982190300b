//! Laws about the definitions of records.
//!
//! Each law is the contract of an empty function.
ghost use Rattle.std.specs.Prelude.{◌≡◌, ℕ, [], ◌∷◌, ◌++◌, List, None, Option, Some, codes};
ghost use Rattle.hex.specs.Hex.{encode_lower};
ghost use Rattle.sha2.specs.Sha256.{sha256};
ghost use Rattle.coap_msg.specs.declared.types.Emission.{Emission};
ghost use Rattle.coap_msg.specs.declared.types.Endpoint.{Endpoint};
ghost use Rattle.fc_front.specs.declared.front.Handled.TheVariants.{Job, Nothing, Reply};
ghost use Rattle.fc_observe.specs.declared.observers.Ticked.TheVariants.{Quiet, Removed, Resend};
ghost use Rattle.fc_record.specs.ProgramRequests.{Coded, request_text};
ghost use Rattle.fc_record.specs.Reports.{datagram_counted, lease_counted, nothing_counted, report_text, tick_counted};
ghost use Rattle.fc_server.specs.Notified.{Nobody, Starved, Unsent};
ghost use Rattle.fc_server.specs.declared.gauges.Gauges.{Gauges};

/// The records of two uploads and two removals have exactly these texts.
///
/// The text of an upload names the method, the slot, the sender, the code, the receipt and the
/// image's digest. For a refused image it has the rule and its place instead of the receipt. The
/// text of a removal has no digest. A request without a response is `unanswered`.
pub fn requests_are_written_so()
    ensures upload { (image : List ℕ) →
        let peer : Endpoint = record { ip = 192 ∷ 0 ∷ 2 ∷ 7 ∷ []; port = 40001 } in
        let receipt : Coded = record { code = 65; note = codes "version=1 cost=2 budget=2 vars=0" } in
        request_text (record { peer = peer; slot = 3; image = Some image; response = Some receipt })
        ≡ codes "change PUT /p/3 peer=192.0.2.7:40001 code=2.01 version=1 cost=2 budget=2 vars=0 sha256=" ++ encode_lower (sha256 image) }
    ensures refused { (image : List ℕ) →
        let peer : Endpoint = record { ip = 192 ∷ 0 ∷ 2 ∷ 7 ∷ []; port = 40001 } in
        let rule : Coded = record { code = 128; note = codes "V16 slot 0" } in
        request_text (record { peer = peer; slot = 63; image = Some image; response = Some rule })
        ≡ codes "change PUT /p/63 peer=192.0.2.7:40001 code=4.00 V16 slot 0 sha256=" ++ encode_lower (sha256 image) }
    ensures removal { let peer : Endpoint = record { ip = 127 ∷ 0 ∷ 0 ∷ 1 ∷ []; port = 5683 } in
        let deleted : Coded = record { code = 66; note = [] } in
        request_text (record { peer = peer; slot = 0; image = None; response = Some deleted }) ≡ codes "change DELETE /p/0 peer=127.0.0.1:5683 code=2.02" }
    ensures unanswered { let peer : Endpoint = record { ip = 127 ∷ 0 ∷ 0 ∷ 1 ∷ []; port = 5683 } in
        request_text (record { peer = peer; slot = 0; image = None; response = None }) ≡ codes "change DELETE /p/0 peer=127.0.0.1:5683 unanswered" }
{}

/// The exact text of a report.
///
/// Two observers of slot 7, at the first place of shard 7, and one of slot 12, at the second place
/// of shard 4, are written by these numbers of slots. Other slots aren't written.
pub fn reports_are_written_so()
    ensures { let none : List ℕ = 0 ∷ 0 ∷ 0 ∷ 0 ∷ 0 ∷ 0 ∷ 0 ∷ 0 ∷ [] in
        let four : List ℕ = 0 ∷ 1 ∷ 0 ∷ 0 ∷ 0 ∷ 0 ∷ 0 ∷ 0 ∷ [] in
        let seven : List ℕ = 2 ∷ 0 ∷ 0 ∷ 0 ∷ 0 ∷ 0 ∷ 0 ∷ 0 ∷ [] in
        let gauges : Gauges = record {
          offloaded = 9;
          front = record { exchanges = 12; most_exchanges = 1024; transfers = 3; most_transfers = 16 };
          observers = record { shards = none ∷ none ∷ none ∷ none ∷ four ∷ none ∷ none ∷ seven ∷ [] };
        } in
        report_text (record { received = 1204; forbidden = 1; unavailable = 3; notified = 40; resent = 2; removed = 5; gauges = gauges })
        ≡ codes "report received=1204 forbidden=1 unavailable=3 notified=40 resent=2 removed=5 offloaded=9 exchanges=12/1024 transfers=3/16 observers/7=2 observers/12=1" }
{}

/// A report counts each call once, by the call's result.
///
/// A datagram is one more that was received. If its immediate response is `60 83 00 01`, whose code
/// is 4.03, one more was forbidden, and with `60 a3 00 01`, 5.03, one more was unavailable. Another
/// code, as 2.05 in `60 45 00 01`, and a job's response count as nothing else. A shard's tick
/// retransmits a notification, removes an observer, or does neither. A lease that was granted is
/// one notification more, whatever it led to.
pub fn reports_count_calls()
    ensures forbidden { (to : Endpoint) →
        let reply : Emission = record { to = to; bytes = record { items = 96 ∷ 131 ∷ 0 ∷ 1 ∷ [] } } in
        datagram_counted Reply reply nothing_counted ≡ record nothing_counted { received = 1; forbidden = 1 } }
    ensures unavailable { (to : Endpoint) →
        let reply : Emission = record { to = to; bytes = record { items = 96 ∷ 163 ∷ 0 ∷ 1 ∷ [] } } in
        datagram_counted Reply reply nothing_counted ≡ record nothing_counted { received = 1; unavailable = 1 } }
    ensures content { (to : Endpoint) →
        let reply : Emission = record { to = to; bytes = record { items = 96 ∷ 69 ∷ 0 ∷ 1 ∷ [] } } in
        datagram_counted Reply reply nothing_counted ≡ record nothing_counted { received = 1 } }
    ensures job { (last : Emission) → datagram_counted Job last nothing_counted ≡ record nothing_counted { received = 1 } }
    ensures ignored { (last : Emission) → datagram_counted Nothing last nothing_counted ≡ record nothing_counted { received = 1 } }
    ensures resent { (emission : Emission) → tick_counted (Resend emission) nothing_counted ≡ record nothing_counted { resent = 1 } }
    ensures removed { tick_counted Removed nothing_counted ≡ record nothing_counted { removed = 1 } }
    ensures idle { tick_counted Quiet nothing_counted ≡ nothing_counted }
    ensures granted { (lease_counted Unsent nothing_counted ≡ record nothing_counted { notified = 1 }) × (lease_counted Starved nothing_counted ≡ record nothing_counted { notified = 1 }) }
    ensures nobody { lease_counted Nobody nothing_counted ≡ nothing_counted }
{}
