//! The command line of the server's program.
//!
//! The output of `--version` begins with the program's name and version. The values of options are
//! those that docs/COMMANDS.md gives.
use fc_config::command::{LINES, command};
use fc_config::options::{BadOption, ServeConfig};
use fc_front::Network;
use std::alloc::Global;
use std::net::{Ipv4Addr, SocketAddrV4};
use std::process::Abort;
use std::test::Fail;

// Returns the text that `fcd` with this word prints instead of running a command.
fn told(alloc: Global, word: &str) -> Result<String, Fail> {
    let mut text = String::new(alloc);
    let words = ["fcd", word];
    if let Err(error) = command(alloc)?.try_get_matches_from(&words) {
        write!(text, "{error}")?;
    }
    Ok(text)
}

// `--version` prints the version of the program and of the kit, and `--help` includes `LINES`.
#[test]
fn version_and_help_are_told(rt: HostRuntime) -> Result<(), Fail> {
    let version = told(rt.alloc(), "--version")?;
    assert!(rt;
        version.as_str()
            == "fcd 0.1.0, of sources that rattle-kit-13f logic dac8208d650f15bf proves\n"
    );
    let help = told(rt.alloc(), "--help")?;
    assert!(rt; help.as_str().contains(LINES));
    Ok(())
}

const EVERYONE: Network = Network {
    ip: [0, 0, 0, 0],
    bits: 0,
};

const EXAMPLES: Network = Network {
    ip: [192, 0, 2, 0],
    bits: 24,
};

// If only the port is given, each other option of `serve` has its default.
#[test]
fn serve_has_its_defaults(rt: HostRuntime) -> Result<(), Fail> {
    let words = ["fcd", "serve", "--port", "5683"];
    let matches = command(rt.alloc())?.try_get_matches_from(&words)?;
    let Some(Ok(config)) = matches
        .subcommand_matches("serve")
        .map(ServeConfig::from_matches)
    else {
        panic!(rt; "no `serve`")
    };
    let address = SocketAddrV4::new(Ipv4Addr::new(127, 0, 0, 1), 5683);
    assert!(rt; config.listening.address == address);
    assert!(rt; !config.listening.told);
    assert!(rt; config.extent.workers == 2);
    assert!(rt; config.extent.limit == 0);
    assert!(rt; config.readings == None);
    assert!(rt; config.store == None);
    assert!(rt; config.policy.managers == [EVERYONE; 4]);
    assert!(rt; config.policy.limits.exchanges == 1024);
    assert!(rt; config.policy.limits.share == 65_536);
    assert!(rt; config.policy.confirm_after == 86_400_000);
    Ok(())
}

// Each option of `serve` has the value that the command line gives.
#[test]
fn serve_has_the_options_that_it_is_given(rt: HostRuntime) -> Result<(), Fail> {
    let words = [
        "fcd",
        "serve",
        "--port",
        "61616",
        "--bind",
        "0.0.0.0",
        "--workers",
        "16",
        "--limit",
        "7",
        "--log",
        "info",
        "--log",
        "changes",
        "--readings",
        "sensors",
        "--store",
        "slots.db",
        "--managers",
        "192.0.2.0/24",
        "--exchanges",
        "16384",
        "--share",
        "32",
        "--confirm-after",
        "60",
    ];
    let matches = command(rt.alloc())?.try_get_matches_from(&words)?;
    let Some(Ok(config)) = matches
        .subcommand_matches("serve")
        .map(ServeConfig::from_matches)
    else {
        panic!(rt; "no `serve`")
    };
    let address = SocketAddrV4::new(Ipv4Addr::new(0, 0, 0, 0), 61_616);
    assert!(rt; config.listening.address == address);
    assert!(rt; config.listening.told);
    assert!(rt; config.logs.info && config.logs.changes);
    assert!(rt; config.extent.workers == 16);
    assert!(rt; config.extent.limit == 7);
    assert!(rt; config.readings == Some("sensors"));
    assert!(rt; config.store == Some("slots.db"));
    assert!(rt; config.policy.managers == [EXAMPLES; 4]);
    assert!(rt; config.policy.limits.exchanges == 16_384);
    assert!(rt; config.policy.limits.share == 32);
    assert!(rt; config.policy.confirm_after == 60_000);
    Ok(())
}

// `serve` refuses a `--bind` that is no IPv4 address, and a `--managers` that is no network.
#[test]
fn an_address_and_a_network_of_serve_are_checked(rt: HostRuntime) -> Result<(), Fail> {
    let no_address = ["fcd", "serve", "--port", "5683", "--bind", "localhost"];
    let matches = command(rt.alloc())?.try_get_matches_from(&no_address)?;
    let Some(result) = matches
        .subcommand_matches("serve")
        .map(ServeConfig::from_matches)
    else {
        panic!(rt; "no `serve`")
    };
    assert!(rt; matches!(result, Err(BadOption::Bind)));
    let no_network = ["fcd", "serve", "--port", "5683", "--managers", "192.0.2.0"];
    let matches = command(rt.alloc())?.try_get_matches_from(&no_network)?;
    let Some(result) = matches
        .subcommand_matches("serve")
        .map(ServeConfig::from_matches)
    else {
        panic!(rt; "no `serve`")
    };
    assert!(rt; matches!(result, Err(BadOption::Managers)));
    Ok(())
}

// `--exchanges` accepts 65,536, and refuses 65,537 and 0.
#[test]
fn exchanges_have_a_range(rt: HostRuntime) -> Result<(), Fail> {
    let most = ["fcd", "serve", "--port", "5683", "--exchanges", "65536"];
    let matches = command(rt.alloc())?.try_get_matches_from(&most)?;
    let Some(Ok(config)) = matches
        .subcommand_matches("serve")
        .map(ServeConfig::from_matches)
    else {
        panic!(rt; "no `serve`")
    };
    assert!(rt; config.policy.limits.exchanges == 65_536);
    let more = ["fcd", "serve", "--port", "5683", "--exchanges", "65537"];
    assert!(rt; command(rt.alloc())?.try_get_matches_from(&more).is_err());
    let none = ["fcd", "serve", "--port", "5683", "--exchanges", "0"];
    assert!(rt; command(rt.alloc())?.try_get_matches_from(&none).is_err());
    Ok(())
}
