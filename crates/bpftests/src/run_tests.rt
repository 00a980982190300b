//! The request of `fcasm run` to an image, and a report that can't be written.
//!
//! The cases of fcvectors test the output of runs.
use fc_cli::Status;
use fc_fixtures::faulty::Full;
use fc_help::Method;
use fc_tooling::assembled;
use fc_tools::run::run;
use fc_tools::run_options::{Asked, AskedError, RunPart};
use std::alloc::{AllocError, Global};
use std::test::Fail;

// If the report of a run can't be written completely, the status is `Failed`, and `err` says why.
#[test]
fn a_failed_report_is_status_3(rt: HostRuntime) -> Result<(), Fail> {
    let alloc = rt.alloc();
    let image = assembled(alloc, b"mov64 r0, 0\nexit", 0, 2)?;
    let asked = Asked::new(alloc, Method::Get, "", "", None)?;
    let mut err = Vec::new(alloc);
    let mut input = image.out.as_slice();
    assert!(rt; run(alloc, &mut input, &mut Full(40), &mut err, &asked) == Status::Failed);
    assert!(rt; err.as_slice() == b"standard output: no storage space\n".as_slice());
    Ok(())
}

// Readings of 64 bytes are accepted. Readings of 65 bytes, and an odd number of hex digits, are
// refused.
#[test]
fn readings_have_a_limit(rt: HostRuntime) -> Result<(), Fail> {
    let alloc = rt.alloc();
    let (most, more) = (zeros(alloc, 64)?, zeros(alloc, 65)?);
    let asked = Asked::new(alloc, Method::Get, "", "", None)?;
    let asked = asked.with_readings(alloc, &most)?;
    let told = fault(asked.with_readings(alloc, &more)).ok_or("asked")?;
    assert!(rt; told.to_string(alloc)?.as_str() == "the readings' bytes are more than 64");
    let asked = Asked::new(alloc, Method::Get, "", "", None)?;
    let told = fault(asked.with_readings(alloc, "0")).ok_or("asked")?;
    assert!(rt; told == AskedError::NoHex(RunPart::Readings));
    Ok(())
}

// Returns the hex digits of this many zero bytes.
fn zeros(alloc: Global, count: u16) -> Result<String, AllocError> {
    let mut digits = String::new(alloc);
    for _byte in 0..count {
        digits.push_str("00")?;
    }
    Ok(digits)
}

// Returns why a request is refused, or `None` if it is accepted.
fn fault(asked: Result<Asked, AskedError>) -> Option<AskedError> {
    asked.err()
}

// A payload, a query and variables are an even number of hex digits. The largest ones are accepted,
// and a payload of 1,025 bytes is refused.
#[test]
fn what_is_asked_is_hex_within_limits(rt: HostRuntime) -> Result<(), Fail> {
    let alloc = rt.alloc();
    let odd = fault(Asked::new(alloc, Method::Get, "0", "", None));
    assert!(rt; odd == Some(AskedError::NoHex(RunPart::Payload)));
    let no_digit = fault(Asked::new(alloc, Method::Get, "", "0g", None));
    assert!(rt; no_digit == Some(AskedError::NoHex(RunPart::Query)));
    let no_vars = fault(Asked::new(alloc, Method::Get, "", "", Some("0x")));
    assert!(rt; no_vars == Some(AskedError::NoHex(RunPart::Variables)));
    let (payload, query, vars) = (zeros(alloc, 1024)?, zeros(alloc, 64)?, zeros(alloc, 256)?);
    let most = Asked::new(alloc, Method::Get, &payload, &query, Some(&vars));
    assert!(rt; fault(most) == None);
    let long = zeros(alloc, 1025)?;
    let fault_is = fault(Asked::new(alloc, Method::Get, &long, "", None));
    assert!(rt;
        fault_is
            == Some(AskedError::TooLong {
                part: RunPart::Payload,
                most: 1024,
            })
    );
    Ok(())
}

// A query of 65 bytes and variables of 257 bytes are refused, each with a message.
#[test]
fn a_query_and_variables_have_limits(rt: HostRuntime) -> Result<(), Fail> {
    let alloc = rt.alloc();
    let (query, vars) = (zeros(alloc, 65)?, zeros(alloc, 257)?);
    let told = fault(Asked::new(alloc, Method::Get, "", &query, None)).ok_or("asked")?;
    assert!(rt; told.to_string(alloc)?.as_str() == "the query's bytes are more than 64");
    let told = fault(Asked::new(alloc, Method::Get, "", "", Some(&vars))).ok_or("asked")?;
    assert!(rt; told.to_string(alloc)?.as_str() == "the variables' bytes are more than 256");
    Ok(())
}
