//! Updates of a program that counts POSTs, with and without `keep`.
//!
//! The tests check which variables the new program finds. The datagrams are written by hand (RFC
//! 7252, section 3.1). Uri-Query is option 15, four above Uri-Path, and Block1 is option 27.
use fc_cli::Status;
use fc_server::DEFAULT_BEGIN;
use fc_service::play::play;
use fc_tooling::assembled;
use std::alloc::Global;
use std::process::Abort;
use std::test::Fail;

// The source of a program that counts POSTs in the first word of its variables.
static COUNTER: &[u8] =
    b"mov64 r1, 0\ncall 3\nadd64 r0, 1\nmov64 r2, r0\nmov64 r1, 0\ncall 4\nmov64 r0, 0\nexit";

// The source of a program that replies with the first eight bytes of its variables.
static SHOW_8: &[u8] = b"mov64 r1, r2\nmov64 r2, 8\ncall 5\nmov64 r0, 0\nexit";

// The source of a program that replies with the first 16 bytes of its variables.
static SHOW_16: &[u8] = b"mov64 r1, r2\nmov64 r2, 16\ncall 5\nmov64 r0, 0\nexit";

// Returns the image of a source with this size of the variables, in hex digits.
fn image<R: Abort + AllocGlobal>(rt: &R, text: &[u8], vars_size: u16) -> Result<String, Fail> {
    let image = assembled(rt.alloc(), text, vars_size, 100)?;
    assert!(rt; image.status == Status::Done);
    Ok(hex::encode(rt.alloc(), &image.out)?)
}

// Installs COUNTER in slot 1, sends two POSTs to the slot, and plays these lines. Returns the
// output.
fn printed<R: Abort + AllocGlobal>(rt: &R, lines: &str) -> Result<Vec<u8>, Fail> {
    let alloc = rt.alloc();
    let counter = image(rt, COUNTER, 8)?;
    let input = format!(in alloc;
        "0 1 40030001b1700131ff{counter}\n1 1 40020002b1720131\n1 1 40020003b1720131\n{lines}"
    )?;
    let mut out = Vec::new(alloc);
    let mut err = Vec::new(alloc);
    let status = play(alloc, input.as_bytes(), &mut out, &mut err, DEFAULT_BEGIN);
    assert!(rt; status == Status::Done && err.is_empty());
    Ok(out)
}

// Checks an update with these options, given in hex digits. The response is 2.04 with the receipt
// of version 4. The new program then finds these variables.
fn check_update<R: Abort + AllocGlobal>(
    rt: &R,
    options: &str,
    text: &[u8],
    vars_size: u16,
    vars: &str,
) -> Result<(), Fail> {
    let alloc = rt.alloc();
    let update = image(rt, text, vars_size)?;
    let lines = format!(in alloc;
        "2 1 40030004b1700131{options}ff{update}\n3 1 40010005b1720131\n"
    )?;
    let receipt = format!(in alloc; "version=4 cost=5 budget=100 vars={vars_size}")?;
    let receipt = hex::encode(alloc, receipt.as_bytes())?;
    let wanted = format!(in alloc;
        "\n1 60440004ff{receipt}\n1 60450005480000000000000004ff{vars}\n"
    )?;
    let printed = printed(rt, lines.as_str())?;
    assert!(rt; printed.ends_with(wanted.as_bytes()), "{options} {vars}");
    Ok(())
}

// The options of an update after its path, in hex digits, and the variables that the new program
// finds.
static QUERIES: [(&str, &str); 8] = [
    // keep
    ("446b656570", "0200000000000000"),
    // no query; an empty argument
    ("", "0000000000000000"),
    ("40", "0000000000000000"),
    // keep=1; keeps; KEEP
    ("466b6565703d31", "0000000000000000"),
    ("456b65657073", "0000000000000000"),
    ("444b454550", "0000000000000000"),
    // keep twice; keep and x
    ("446b656570046b656570", "0000000000000000"),
    ("446b6565700178", "0000000000000000"),
];

// The new program finds the old variables if the query is `keep` alone, and zeros otherwise.
#[test]
fn keep_alone_keeps_the_variables(rt: HostRuntime) -> Result<(), Fail> {
    for (options, vars) in QUERIES.iter().copied() {
        check_update(&rt, options, SHOW_8, 8, vars)?;
    }
    Ok(())
}

// With `keep`, a new program with another size of the variables finds zeros.
#[test]
fn another_size_is_zeroed(rt: HostRuntime) -> Result<(), Fail> {
    check_update(
        &rt,
        "446b656570",
        SHOW_16,
        16,
        "00000000000000000000000000000000",
    )
}

// Returns 16 bytes of an image from `start` on, or fewer at its end, in hex digits.
fn block(alloc: Global, image: &[u8], start: usize) -> Result<String, Fail> {
    let rest = image.get(start..).unwrap_or(&[]);
    Ok(hex::encode(alloc, rest.get(..16).unwrap_or(rest))?)
}

// Checks an update in three blocks of 16 bytes and one of 8. `first` and `last` are the options of
// the first three blocks and of the last one, in hex digits, up to the value of Block1. The new
// program then finds these variables.
fn check_blocks<R: Abort + AllocGlobal>(
    rt: &R,
    first: &str,
    last: &str,
    vars: &str,
) -> Result<(), Fail> {
    let alloc = rt.alloc();
    let update = assembled(alloc, SHOW_8, 8, 100)?;
    let one = block(alloc, &update.out, 0)?;
    let two = block(alloc, &update.out, 16)?;
    let three = block(alloc, &update.out, 32)?;
    let four = block(alloc, &update.out, 48)?;
    let lines = format!(in alloc;
        "2 1 40030004b1700131{first}08ff{one}\n2 1 40030005b1700131{first}18ff{two}\n2 1 40030006b1700131{first}28ff{three}\n2 1 40030007b1700131{last}30ff{four}\n3 1 40010008b1720131\n"
    )?;
    let wanted = format!(in alloc; "\n1 60450008480000000000000004ff{vars}\n")?;
    let printed = printed(rt, lines.as_str())?;
    assert!(rt;
        printed.ends_with(wanted.as_bytes()),
        "{first} {last} {vars}"
    );
    Ok(())
}

// The request with the last block of an update decides whether the variables are kept. With `keep`,
// Block1 is 12 above Uri-Query; without it, 16 above Uri-Path.
#[test]
fn the_last_block_says_whether_to_keep(rt: HostRuntime) -> Result<(), Fail> {
    check_blocks(&rt, "446b656570c1", "446b656570c1", "0200000000000000")?;
    check_blocks(&rt, "d103", "d103", "0000000000000000")?;
    check_blocks(&rt, "d103", "446b656570c1", "0200000000000000")?;
    check_blocks(&rt, "446b656570c1", "d103", "0000000000000000")
}

// `keep` keeps the variables of the slot's own program. In an empty slot it gives zeros, and the
// variables of another slot aren't used. A refused image leaves the variables as they are, and a
// duplicate of an update changes nothing.
#[test]
fn keep_is_for_the_own_slot_s_program(rt: HostRuntime) -> Result<(), Fail> {
    let alloc = rt.alloc();
    let (counter, show) = (image(&rt, COUNTER, 8)?, image(&rt, SHOW_8, 8)?);
    let lines = format!(in alloc;
        "2 1 40030004b1700132446b656570ff{show}\n3 1 40010005b1720132\n4 1 40030006b1700131446b656570ff00\n5 1 40020007b1720131\n6 1 40030008b1700131446b656570ff{counter}\n7 1 40020009b1720131\n8 1 40030008b1700131446b656570ff{counter}\n9 1 4003000ab1700131446b656570ff{show}\n9 1 4001000bb1720131\n9 1 4003000cb1700132446b656570ff{show}\n9 1 4001000db1720132\n"
    )?;
    let printed = printed(&rt, lines.as_str())?;
    let printed = str::from_utf8(&printed).ok().ok_or("digits")?;
    assert!(rt;
        printed.contains("\n1 60450005480000000000000001ff0000000000000000\n"),
        "empty"
    );
    assert!(rt; printed.contains("\n1 60800006ff"), "refused");
    assert!(rt;
        printed.contains("\n1 6045000b480000000000000007ff0400000000000000\n"),
        "counted on"
    );
    assert!(rt;
        printed.ends_with("\n1 6045000d480000000000000002ff0000000000000000\n"),
        "another slot"
    );
    Ok(())
}
