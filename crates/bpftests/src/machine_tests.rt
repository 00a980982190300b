//! Runs of programs on a POST, and calls of numbers that no helper has.
//!
//! The expected results are worked out by hand from the tables of instructions, helpers and the
//! request.
use fc_cli::Status;
use fc_help::{Method, NO_READINGS, Request, Vars};
use fc_isa::{Fault, Rule};
use fc_machine::{Frame, run};
use fc_tooling::assembled;
use fc_verify::{Refusal, verify};
use std::process::Abort;
use std::test::Fail;

// The expected results of a run, apart from the code.
#[derive(Drop)]
struct Given<'a> {
    reply: &'a [u8],
    after: &'a [u8],
    notice: bool,
    steps: u32,
}

// Checks a run of the source's program on a POST of slot 5 without a payload. The response is 2.04
// with these results. `found` are the program's variables before the run.
fn check_post<R: Abort + AllocGlobal>(
    rt: &R,
    text: &[u8],
    found: &[u8],
    wanted: &Given<'_>,
) -> Result<(), Fail> {
    let alloc = rt.alloc();
    let size = u16::try_from(found.len()).ok().ok_or("too many bytes")?;
    let image = assembled(alloc, text, size, 100)?;
    assert!(rt; image.status == Status::Done);
    let program = verify(alloc, image.out.as_slice())?;
    assert!(rt; found.len() == usize::from(program.vars_size()));
    let request = Request::new(Method::Post, 5, None, b"", b"");
    let found = Vars::of(found);
    let mut frame = Frame::new(alloc)?;
    let outcome = run(&mut frame, &program, &request, &found, &NO_READINGS);
    assert!(rt; outcome.code() == 0x44);
    assert!(rt; outcome.reply() == wanted.reply);
    assert!(rt; outcome.after() == wanted.after);
    assert!(rt; outcome.notice() == wanted.notice);
    assert!(rt; outcome.steps() == wanted.steps);
    Ok(())
}

// The program stores the method, which is 2 for a POST, in the first of two words of variables. It
// notifies, and replies with `A`. On a GET it would take one step more.
#[test]
fn a_post_puts_a_word_replies_and_notifies(rt: HostRuntime) -> Result<(), Fail> {
    check_post(
        &rt,
        b"ldxb r6, r1, 0\nmov64 r1, 0\nmov64 r2, r6\ncall 4\ncall 7\nmov64 r1, 65\ncall 6\nmov64 r0, 0\njne r6, 1, 1\ncall 7\nexit",
        b"abcdefghijklmnop",
        &Given {
            reply: b"A",
            after: b"\x02\x00\x00\x00\x00\x00\x00\x00ijklmnop",
            notice: true,
            steps: 10,
        },
    )
}

// A reply to a POST has at most 1,024 bytes. The helper refuses 1,025 bytes, accepts 1,024, and
// then refuses one more: its results 0, 1 and 0 are stored in the variables. The bytes are the
// request's first ones: the method 2, the slot 5, and zeros.
#[test]
fn a_reply_to_a_post_has_1024_bytes(rt: HostRuntime) -> Result<(), Fail> {
    let mut reply = [0u8; 1024];
    reply[0] = 2;
    reply[1] = 5;
    check_post(
        &rt,
        b"mov64 r6, r1
          mov64 r2, 1025
          call 5
          mov64 r1, 0
          mov64 r2, r0
          call 4
          mov64 r1, r6
          mov64 r2, 1024
          call 5
          mov64 r1, 1
          mov64 r2, r0
          call 4
          mov64 r1, r6
          mov64 r2, 1
          call 5
          mov64 r1, 2
          mov64 r2, r0
          call 4
          mov64 r0, 0
          exit",
        b"abcdefghijklmnopqrstuvwx",
        &Given {
            reply: &reply,
            after: b"\x00\x00\x00\x00\x00\x00\x00\x00\x01\x00\x00\x00\x00\x00\x00\x00\x00\x00\x00\x00\x00\x00\x00\x00",
            notice: false,
            steps: 20,
        },
    )
}

// A second call of `notify` doesn't clear the flag.
#[test]
fn a_post_that_notifies_twice_notifies(rt: HostRuntime) -> Result<(), Fail> {
    check_post(
        &rt,
        b"call 7\ncall 7\nmov64 r0, 0\nexit",
        b"",
        &Given {
            reply: b"",
            after: b"",
            notice: true,
            steps: 4,
        },
    )
}

// A helper that adds no bytes to an empty reply returns 1, which is then the reply's only byte.
#[test]
fn no_bytes_are_added(rt: HostRuntime) -> Result<(), Fail> {
    check_post(
        &rt,
        b"mov64 r1, r10\nmov64 r2, 0\ncall 5\nmov64 r1, r0\ncall 6\nmov64 r0, 0\nexit",
        b"",
        &Given {
            reply: b"\x01",
            after: b"",
            notice: false,
            steps: 7,
        },
    )
}

// No bytes fit into a full reply. The helper's result, which is stored in the variables, is 1. The
// reply is the request's first 1,024 bytes: the method 2, the slot 5, and zeros.
#[test]
fn no_bytes_fit_into_a_full_reply(rt: HostRuntime) -> Result<(), Fail> {
    let mut reply = [0u8; 1024];
    reply[0] = 2;
    reply[1] = 5;
    check_post(
        &rt,
        b"mov64 r2, 1024
          call 5
          mov64 r1, r10
          mov64 r2, 0
          call 5
          mov64 r1, 0
          mov64 r2, r0
          call 4
          mov64 r0, 0
          exit",
        b"abcdefgh",
        &Given {
            reply: &reply,
            after: b"\x01\x00\x00\x00\x00\x00\x00\x00",
            notice: false,
            steps: 10,
        },
    )
}

// A call of a number that no helper has breaks V17 in its slot.
#[test]
fn no_other_numbers_are_called(rt: HostRuntime) -> Result<(), Fail> {
    let alloc = rt.alloc();
    for text in [
        b"call -1\nexit".as_slice(),
        b"call -2147483648\nexit",
        b"call 0\nexit",
        b"call 8\nexit",
        b"call 2147483647\nexit",
    ] {
        let image = assembled(alloc, text, 0, 2)?;
        assert!(rt; image.status == Status::Done);
        let refused = verify(alloc, image.out.as_slice()).err();
        let fault = Fault {
            rule: Rule::Helper,
            slot: 0,
        };
        assert!(rt; refused == Some(Refusal::Broken(fault)));
    }
    Ok(())
}
