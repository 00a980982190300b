//! The configuration of a server, as C passes it. A configuration of zeros is the default.
ghost use Rattle.std.specs.Prelude.{◌≡◌, true};
ghost use Rattle.fc_server.specs.States.{CanBegin};
ghost use Rattle.numzela.specs.Configs.{begin_for, is_prefix, is_valid, managers_for, network_for, or_default};

use coap_dedup::{EXCHANGES, Limits, MOST_EXCHANGES};
use fc_front::policy::ANY_ADDRESS;
use fc_front::{Managers, Network, Policy};
use fc_server::Begin;

/// Greatest `confirm_after`, in milliseconds, and its default: 24 hours.
///
/// After the time `confirm_after`, a notification is confirmable (RFC 7641, section 4.5).
const LONGEST: u64 = 86_400_000;

/// The greatest serial that slots may begin with.
const LAST_SERIAL: u64 = 9_223_372_036_854_775_807;

/// A network of IPv4 addresses, by a prefix.
///
/// Its addresses begin with the first `prefix` bits of `address`.
#[repr(C)]
#[derive(Clone, Copy)]
pub struct Subnet {
    pub address: [u8; 4],
    pub prefix: u8,
}

/// The initial state of a server, and its policy.
///
/// `first_serial` is the slots' first serial, and `first_id` the server's first message ID.
/// `confirm_after` is in milliseconds. A 0 in `confirm_after`, `exchanges` or `share` is the
/// default. With no managers any address may change programs.
#[repr(C)]
#[derive(Clone, Copy)]
pub struct Config {
    pub first_serial: u64,
    pub confirm_after: u64,
    pub exchanges: u32,
    pub share: u32,
    pub first_id: u16,
    pub manager_count: u8,
    pub managers: [Subnet; 4],
}

/// Returns whether each field is in its range.
///
/// There are at most four managers, prefixes of at most 32 bits, and 65,536 exchanges.
/// `confirm_after` is at most 86,400,000 ms, and the serial is below 2^63. All four entries of
/// `managers` need a valid prefix, even those past the count. `numzela_server_new` makes no server
/// with any other configuration.
pub(crate) fn is_valid(config: &Config) -> bool
    ensures valid { result ≡ is_valid config.now }
    ensures begins { result ≡ true → CanBegin (begin_for config.now) }
{
    let [a, b, c, d] = &config.managers;
    config.manager_count <= 4
        && config.exchanges <= 65_536
        && config.confirm_after <= LONGEST
        && config.first_serial <= LAST_SERIAL
        && is_prefix(a)
        && is_prefix(b)
        && is_prefix(c)
        && is_prefix(d)
}

// Returns whether a subnet's prefix has at most 32 bits.
fn is_prefix(subnet: &Subnet) -> bool
    ensures { result ≡ is_prefix subnet.now }
{
    subnet.prefix <= 32
}

/// Returns the initial state of a server with this configuration.
pub(crate) fn begin_for(config: &Config) -> Begin
    ensures { result ≡ begin_for config.now }
{
    Begin {
        serial: config.first_serial,
        id: config.first_id,
        policy: Policy {
            managers: managers_for(config.manager_count, &config.managers),
            limits: Limits {
                exchanges: or_default(u64::from(config.exchanges), EXCHANGES as u64) as usize,
                share: or_default(u64::from(config.share), MOST_EXCHANGES as u64) as usize,
            },
            confirm_after: or_default(config.confirm_after, LONGEST),
        },
    }
}

// Returns `value`, or `default` if `value` is 0.
fn or_default(value: u64, default: u64) -> u64
    ensures { result ≡ or_default value default }
{
    if value == 0 { default } else { value }
}

// Returns the networks of the first `count` managers. The last of these networks is repeated until
// there are four. If `count` is 0, all four networks contain every address.
fn managers_for(count: u8, subnets: &[Subnet; 4]) -> Managers
    ensures { result ≡ managers_for count subnets.now }
{
    let [a, b, c, d] = subnets;
    let (a, b, c, d) = (
        network_for(a),
        network_for(b),
        network_for(c),
        network_for(d),
    );
    match count {
        0 => [ANY_ADDRESS; 4],
        1 => [a, a, a, a],
        2 => [a, b, b, b],
        3 => [a, b, c, c],
        _ => [a, b, c, d],
    }
}

// Returns the network of a subnet, for `managers_for`.
fn network_for(subnet: &Subnet) -> Network
    ensures { result ≡ network_for subnet.now }
{
    Network {
        ip: subnet.address,
        bits: subnet.prefix,
    }
}
