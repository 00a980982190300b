//! A server's policy: allow list, table limits, and confirmable notifications.
//!
//! The allow list names the addresses that may change programs. The policy also determines how
//! often notifications are confirmable.
ghost use Rattle.std.specs.Prelude.{◌≡◌, ◌/◌, ◌^◌, ◌-◌};
ghost use Rattle.fc_front.specs.Policies as spec;
ghost use Rattle.coap_dedup.specs.Keys.{address_number};
ghost use Rattle.fc_front.specs.Policies.{is_in};

use coap_dedup::{DEFAULT_LIMITS, Limits};
use coap_msg::Endpoint;
use coap_opts::Action;
use fc_observe::CONFIRM_AFTER;

/// The greatest number of managers' networks.
pub const MOST_NETWORKS: usize = 4;

/// The IPv4 addresses that begin with the first `bits` bits of `ip`.
///
/// `bits` is 0 to 32; a greater number counts as 32.
#[derive(Clone, Copy, Debug, PartialEq, Eq)]
pub struct Network {
    pub ip: [u8; 4],
    pub bits: u8,
}

/// The network of all addresses.
pub const ANY_ADDRESS: Network = Network {
    ip: [0, 0, 0, 0],
    bits: 0,
};

/// The allow list: networks of the endpoints that may change a slot's program.
///
/// If there are fewer than four networks, one is repeated.
pub type Managers = [Network; MOST_NETWORKS];

/// The managers' networks, the limits of the exchanges, and `confirm_after`.
#[derive(Clone, Copy, Debug, PartialEq, Eq)]
pub struct Policy {
    pub managers: Managers,
    pub limits: Limits,
    /// The time in milliseconds after which a notification is confirmable.
    ///
    /// The time is counted from an observer's registration or last confirmable notification. RFC
    /// 7641, section 4.5 allows at most 24 hours. If it is 0, each notification is confirmable.
    pub confirm_after: u64,
}

/// The default policy.
///
/// Any address may change programs; up to 1,024 exchanges are stored, and all of them may belong to
/// one address; a notification is confirmable after 24 hours.
pub const DEFAULT_POLICY: Policy = Policy {
    managers: [ANY_ADDRESS; MOST_NETWORKS],
    limits: DEFAULT_LIMITS,
    confirm_after: CONFIRM_AFTER,
};

impl Network {
    /// Returns whether an address belongs to the network.
    pub fn contains(&self, ip: [u8; 4]) -> bool
        ensures { result ≡ is_in ip self.now }
    {
        self.first_bits(ip) == self.first_bits(self.ip)
    }

    // Returns the first bits of an address, as many as the network has, as a number.
    fn first_bits(&self, ip: [u8; 4]) -> u64
        ensures { result ≡ address_number ip / 2 ^ (32 - self.now.bits) }
    {
        u64::from(u32::from_be_bytes(ip)) >> 32_u32.saturating_sub(u32::from(self.bits))
    }
}

/// Returns whether an endpoint's address is in one of the managers' networks.
pub fn is_manager(managers: &Managers, endpoint: Endpoint) -> bool
    ensures { result ≡ spec.is_manager managers.now endpoint }
{
    managers.iter().any(|network| network.contains(endpoint.ip))
}

/// Returns whether an action changes a slot's program.
pub fn changes_program(action: Action) -> bool
    ensures { result ≡ spec.changes_program action }
{
    match action {
        Action::Install(_) | Action::Remove(_) => true,
        _ => false,
    }
}
