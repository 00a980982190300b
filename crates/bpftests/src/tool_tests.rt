//! The tools if reading or writing fails or doesn't end, and their command lines.
//!
//! The cases of fcvectors test the tools' output for sources and images.
use fc_cli::Status;
use fc_fixtures::faulty::{Full, Unflushed};
use fc_isa::ImageVersion;
use fc_tooling::{Done, with_memory};
use fc_tools::assemble::image;
use fc_tools::budget::Budget;
use fc_tools::check::check;
use fc_tools::digest::digest;
use fc_tools::list::list;
use fc_tools::version::version_named;
use std::alloc::Global;
use std::io;
use std::io::{ErrorKind, Read, Write};
use std::test::Fail;

// The image of `mov64 r0, 69` and `exit`, without variables and with a budget of 2 steps.
const IMAGE: &[u8] =
    b"FCB1\x00\x00\x02\x00\x02\x00\x00\x00\x00\x00\x00\x00\xb7\x00\x00\x00\x45\x00\x00\x00\x95\x00\x00\x00\x00\x00\x00\x00";

// Assembles `input` to an image without variables, with a budget of one step. Returns the status.
fn smallest_image<R: Read, W: Write, E: Write>(
    alloc: Global,
    input: &mut R,
    out: &mut W,
    err: &mut E,
) -> Status {
    image(
        alloc,
        input,
        out,
        err,
        0,
        Budget::Steps(1),
        ImageVersion::One,
    )
}

// A budget is `auto`, or a decimal number below 2^32.
#[test]
fn a_budget_is_a_number_or_auto(rt: HostRuntime) {
    assert!(rt; "auto".parse::<Budget>() == Ok(Budget::Auto));
    assert!(rt; "65537".parse::<Budget>() == Ok(Budget::Steps(65537)));
    for word in ["", "Auto", "4294967296", "0x10", "1 "] {
        assert!(rt; word.parse::<Budget>().is_err(), "{word}");
    }
}

// An image without end breaks V01. One byte more is read than the longest image has, and no number
// of slots fits this length.
#[test]
fn an_image_without_end_is_refused(rt: HostRuntime) -> Result<(), Fail> {
    let alloc = rt.alloc();
    let mut out = Vec::new(alloc);
    let mut err = Vec::new(alloc);
    let status = check(alloc, &mut io::repeat(b'F'), &mut out, &mut err);
    let done = with_memory(Done { status, out, err })?;
    assert!(rt;
        done.status == Status::Refused && done.out.as_slice() == b"V01 slot 0\n".as_slice()
    );
    Ok(())
}

// A text without end is refused, because it has more than 1,048,576 bytes.
#[test]
fn a_text_without_end_is_refused(rt: HostRuntime) -> Result<(), Fail> {
    let alloc = rt.alloc();
    let mut out = Vec::new(alloc);
    let mut err = Vec::new(alloc);
    let status = smallest_image(alloc, &mut io::repeat(b'\n'), &mut out, &mut err);
    let done = with_memory(Done { status, out, err })?;
    assert!(rt; done.status == Status::Refused && done.out.is_empty());
    assert!(rt; done.err.as_slice() == b"the text has more than 1048576 bytes\n".as_slice());
    Ok(())
}

// A reader that fails immediately.
#[derive(Drop)]
struct Torn;

impl Read for Torn {
    fn read(&mut self, _buf: &mut [u8]) -> io::Result<usize> {
        Err(io::Error::from(ErrorKind::BrokenPipe))
    }
}

// If reading fails, `image`, `list` and `check` print nothing. The status is `Failed`, and `err`
// says why.
#[test]
fn a_failed_reader_is_status_3(rt: HostRuntime) -> Result<(), Fail> {
    let alloc = rt.alloc();
    let mut out = Vec::new(alloc);
    let mut err = Vec::new(alloc);
    assert!(rt; smallest_image(alloc, &mut Torn, &mut out, &mut err) == Status::Failed);
    assert!(rt; list(alloc, &mut Torn, &mut out, &mut err, false) == Status::Failed);
    assert!(rt; check(alloc, &mut Torn, &mut out, &mut err) == Status::Failed);
    assert!(rt;
        out.is_empty()
            && err.as_slice()
                == b"standard input: broken pipe\nstandard input: broken pipe\nstandard input: broken pipe\n".as_slice()
    );
    Ok(())
}

// If the output of `image`, `list` or `check` can't be written completely, the status is `Failed`,
// and `err` says why.
#[test]
fn a_failed_writer_is_status_3(rt: HostRuntime) -> Result<(), Fail> {
    let alloc = rt.alloc();
    let mut err = Vec::new(alloc);
    let mut text: &[u8] = b"exit";
    assert!(rt; smallest_image(alloc, &mut text, &mut Full(23), &mut err) == Status::Failed);
    let mut input = IMAGE;
    assert!(rt; list(alloc, &mut input, &mut Full(17), &mut err, false) == Status::Failed);
    let mut input = IMAGE;
    assert!(rt; check(alloc, &mut input, &mut Full(3), &mut err) == Status::Failed);
    assert!(rt;
        err.as_slice()
            == b"standard output: no storage space\nstandard output: no storage space\nstandard output: no storage space\n".as_slice()
    );
    Ok(())
}

// If the output of `image`, `list` or `check` can't be flushed, the status is `Failed`.
#[test]
fn a_failed_flush_is_status_3(rt: HostRuntime) -> Result<(), Fail> {
    let alloc = rt.alloc();
    let mut err = Vec::new(alloc);
    let mut text: &[u8] = b"exit";
    assert!(rt; smallest_image(alloc, &mut text, &mut Unflushed, &mut err) == Status::Failed);
    let mut input = IMAGE;
    assert!(rt; list(alloc, &mut input, &mut Unflushed, &mut err, false) == Status::Failed);
    let mut input = IMAGE;
    assert!(rt; check(alloc, &mut input, &mut Unflushed, &mut err) == Status::Failed);
    Ok(())
}

// If the report of a mistake can't be written completely, the status is `Failed`, and there is no
// image.
#[test]
fn a_mistake_that_is_not_told_is_status_3(rt: HostRuntime) -> Result<(), Fail> {
    let alloc = rt.alloc();
    let mut out = Vec::new(alloc);
    let mut text: &[u8] = b"movq";
    assert!(rt; smallest_image(alloc, &mut text, &mut out, &mut Full(3)) == Status::Failed);
    assert!(rt; out.is_empty());
    Ok(())
}

// `--format` is 1 or 2. Without it the version is 1.
#[test]
fn words_name_versions(rt: HostRuntime) {
    assert!(rt; version_named(None) == Some(ImageVersion::One));
    assert!(rt; version_named(Some("1")) == Some(ImageVersion::One));
    assert!(rt; version_named(Some("2")) == Some(ImageVersion::Two));
    assert!(rt; version_named(Some("3")).is_none());
    assert!(rt; version_named(Some("")).is_none());
}

// Inputs, each with its SHA-256. The first three digests are from FIPS 180-2, appendix B, and
// NIST's examples. The digest of IMAGE is from `sha256sum`.
static DIGESTS: [(&[u8], &[u8]); 4] = [
    (
        b"abc",
        b"ba7816bf8f01cfea414140de5dae2223b00361a396177a9cb410ff61f20015ad\n",
    ),
    (
        b"abcdbcdecdefdefgefghfghighijhijkijkljklmklmnlmnomnopnopq",
        b"248d6a61d20638b8e5c026930c3e6039a33ce45964ff2167f6ecedd419db06c1\n",
    ),
    (
        b"",
        b"e3b0c44298fc1c149afbf4c8996fb92427ae41e4649b934ca495991b7852b855\n",
    ),
    (
        IMAGE,
        b"9c6c17580b84033e4ab90a6cf407e2353a0d02a4f8170442a75c4293aeffd151\n",
    ),
];

// `digest` prints the SHA-256 of its input in hex digits.
#[test]
fn digests_are_those_of_the_standard(rt: HostRuntime) -> Result<(), Fail> {
    let alloc = rt.alloc();
    for (input, line) in DIGESTS.iter().copied() {
        let mut input = input;
        let mut out = Vec::new(alloc);
        let mut err = Vec::new(alloc);
        let status = digest(alloc, &mut input, &mut out, &mut err);
        let done = with_memory(Done { status, out, err })?;
        assert!(rt; done.status == Status::Done && done.err.is_empty());
        assert!(rt; done.out.as_slice() == line);
    }
    Ok(())
}

// `digest` refuses an input that is longer than any image. The status is `Failed` if the input
// can't be read, or if the digest can't be written or flushed.
#[test]
fn a_digest_is_of_an_image(rt: HostRuntime) -> Result<(), Fail> {
    let alloc = rt.alloc();
    let mut out = Vec::new(alloc);
    let mut err = Vec::new(alloc);
    let status = digest(alloc, &mut io::repeat(b'F'), &mut out, &mut err);
    let done = with_memory(Done { status, out, err })?;
    assert!(rt; done.status == Status::Refused && done.out.is_empty());
    assert!(rt;
        done.err.as_slice()
            == b"the input has more than 524296 bytes: no image is longer\n".as_slice()
    );
    let (mut out, mut err) = (Vec::new(alloc), Vec::new(alloc));
    assert!(rt; digest(alloc, &mut Torn, &mut out, &mut err) == Status::Failed);
    let mut input = IMAGE;
    assert!(rt; digest(alloc, &mut input, &mut Full(3), &mut err) == Status::Failed);
    let mut input = IMAGE;
    assert!(rt; digest(alloc, &mut input, &mut Unflushed, &mut err) == Status::Failed);
    Ok(())
}
