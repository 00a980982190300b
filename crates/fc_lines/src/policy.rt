//! A server's policy as text: networks as `192.0.2.0/24`, limits, and seconds.
ghost use Rattle.std.specs.Prelude.{◌∷◌, [], map, MatchOption};
ghost use Rattle.fc_lines.specs.Policies.{AreManagers, AreNetworks, AreNoManagers, AreNoNetworks, IsNetwork, IsNoNetwork, IsNoPolicy, IsPolicyOf};

use crate::line::byte;
use coap_dedup::{Limits, MOST_EXCHANGES};
use fc_front::{Managers, Network, Policy};
use std::net::Ipv4Addr;

/// Maximum of the seconds after which a notification is confirmable: 24 hours.
///
/// See RFC 7641, section 4.5.
pub const MAX_SECONDS: u64 = 86_400;

/// Default of the seconds after which a notification is confirmable: 24 hours.
pub const DEFAULT_SECONDS: u64 = 86_400;

/// Builds a policy from the texts of one to four networks, and limits.
///
/// `seconds` is the time after which a notification is confirmable. Returns `None` exactly in these
/// cases:
///
/// - One of the texts isn't a network, or there are no texts, or more than four.
/// - `exchanges` isn't 1 to 65,536.
/// - `share` is 0.
/// - `seconds` isn't 1 to 86,400.
pub fn policy(managers: &[&str], exchanges: usize, share: usize, seconds: u64) -> Option<Policy>
    ensures { let texts = map (λ text. text.now) managers.now in
        MatchOption result (IsNoPolicy texts exchanges share seconds) (IsPolicyOf texts exchanges share seconds) }
{
    let managers = networks(managers)?;
    if exchanges == 0 || exchanges > MOST_EXCHANGES || share == 0 {
        return None;
    }
    if seconds == 0 || seconds > MAX_SECONDS {
        return None;
    }
    Some(Policy {
        managers,
        limits: Limits { exchanges, share },
        confirm_after: 1000 * seconds,
    })
}

/// Parses the texts of one to four networks.
///
/// The result always has four networks: the last network is repeated for missing ones. Returns
/// `None` exactly if one of the texts isn't a network, or if there are no texts or more than four.
pub fn networks(texts: &[&str]) -> Option<Managers>
    ensures { let all = map (λ text. text.now) texts.now in MatchOption result (AreNoManagers all) (AreManagers all) }
{
    match texts {
        [a] => four(a, a, a, a),
        [a, b] => four(a, b, b, b),
        [a, b, c] => four(a, b, c, c),
        [a, b, c, d] => four(a, b, c, d),
        _ => None,
    }
}

// Parses the texts of four networks. Returns `None` if one of the texts isn't a network.
fn four(a: &str, b: &str, c: &str, d: &str) -> Option<Managers>
    ensures { let texts = a.now ∷ b.now ∷ c.now ∷ d.now ∷ [] in MatchOption result (AreNoNetworks texts) (AreNetworks texts) }
{
    Some([network(a)?, network(b)?, network(c)?, network(d)?])
}

/// Parses a network, as `192.0.2.0/24`.
///
/// The text is an IPv4 address, a slash, and the number of leading bits, 0 to 32, that all
/// addresses of the network share. Returns `None` for any other text.
pub fn network(text: &str) -> Option<Network>
    ensures { MatchOption result (IsNoNetwork text.now) (IsNetwork text.now) }
{
    let (address, digits) = text.split_once('/')?;
    let Ok(address) = address.parse::<Ipv4Addr>() else {
        return None;
    };
    let bits = byte(digits.as_bytes())?;
    if bits > 32 {
        return None;
    }
    Some(Network {
        ip: address.octets(),
        bits,
    })
}
