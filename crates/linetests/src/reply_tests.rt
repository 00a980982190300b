//! Replies of programs that call functions and helpers.
//!
//! The expected replies are worked out by hand from the tables of instructions, helpers and
//! options.
use fc_cli::Status;
use fc_server::DEFAULT_BEGIN;
use fc_service::play::play;
use fc_tooling::assembled;
use std::alloc::Global;
use std::process::Abort;
use std::test::Fail;

// Installs the source's program in slot 0, with this size of the variables, and sends two GETs.
// Returns the output. `payload` is the end of each GET in hex digits: a payload's marker and bytes,
// or nothing.
fn printed<R: Abort + AllocGlobal>(
    rt: &R,
    text: &[u8],
    vars_size: u16,
    payload: &str,
) -> Result<Vec<u8>, Fail> {
    let alloc = rt.alloc();
    let image = assembled(alloc, text, vars_size, 100)?;
    assert!(rt; image.status == Status::Done);
    let digits = hex::encode(alloc, &image.out)?;
    let input = format!(in alloc;
        "0 1 40030001b1700130ff{digits}\n1 1 40010002b1720130{payload}\n1 1 40010003b1720130{payload}\n"
    )?;
    let mut out = Vec::new(alloc);
    let mut err = Vec::new(alloc);
    let status = play(alloc, input.as_bytes(), &mut out, &mut err, DEFAULT_BEGIN);
    assert!(rt; status == Status::Done && err.is_empty());
    Ok(out)
}

// Checks that slot 0 responds to each of two GETs with 2.05: the ETag of the first install, and
// then the hex digits of `reply`.
fn check_replied<R: Abort + AllocGlobal>(
    rt: &R,
    text: &[u8],
    vars_size: u16,
    payload: &str,
    reply: &str,
) -> Result<(), Fail> {
    let printed = printed(rt, text, vars_size, payload)?;
    let wanted = format!(in rt.alloc();
        "\n1 60450002480000000000000001{reply}\n1 60450003480000000000000001{reply}\n"
    )?;
    assert!(rt; printed.ends_with(wanted.as_bytes()), "{reply}");
    Ok(())
}

// Checks that slot 0 responds to each of two GETs with this code, without options and payload.
fn check_code<R: Abort + AllocGlobal>(rt: &R, text: &[u8], code: &str) -> Result<(), Fail> {
    let printed = printed(rt, text, 0, "")?;
    let wanted = format!(in rt.alloc(); "\n1 60{code}0002\n1 60{code}0003\n")?;
    assert!(rt; printed.ends_with(wanted.as_bytes()), "{code}");
    Ok(())
}

// Sources of programs without variables, each with the reply to a GET without a payload.
static REPLIES: [(&[u8], &str); 11] = [
    // One program replies with a byte of the frame, and the next one with no byte.
    (
        b"stb r10, -1, 7\nmov64 r1, r10\nadd64 r1, -1\nmov64 r2, 1\ncall 5\nmov64 r0, 0\nexit",
        "ff07",
    ),
    (b"mov64 r2, 0\ncall 5\nmov64 r0, 0\nexit", ""),
    // `call 6` adds the low byte of a number to the reply, and its result is 1.
    (
        b"mov64 r1, 321\ncall 6\nmov64 r1, r0\ncall 6\nmov64 r0, 0\nexit",
        "ff4101",
    ),
    // A function writes into its caller's frame: R0 is 69 at the end.
    (
        b"mov64 r1, r10\nadd64 r1, -8\ncallf 2\nldxdw r0, r10, -8\nexit\nstdw r1, 0, 69\nmov64 r0, 0\nexit",
        "",
    ),
    // A function reads the frame of its caller's caller.
    (
        b"stdw r10, -8, 65\nmov64 r1, r10\nadd64 r1, -8\ncallf 1\nexit\ncallf 1\nexit\nldxb r1, r1, 0\ncall 6\nmov64 r0, 0\nexit",
        "ff41",
    ),
    // Four frames: each function stores its number into its own frame, calls the next function, and
    // then adds the number to the reply.
    (
        b"stdw r10, -8, 1\ncallf 4\nldxb r1, r10, -8\ncall 6\nmov64 r0, 0\nexit\nstdw r10, -8, 2\ncallf 3\nldxb r1, r10, -8\ncall 6\nexit\nstdw r10, -8, 3\ncallf 3\nldxb r1, r10, -8\ncall 6\nexit\nstdw r10, -8, 4\nldxb r1, r10, -8\ncall 6\nexit",
        "ff04030201",
    ),
    // A function is called twice.
    (
        b"callf 2\ncallf 1\nexit\nmov64 r1, 120\ncall 6\nmov64 r0, 0\nexit",
        "ff7878",
    ),
    // The frame of each call is zero: the function adds a byte of the frame to the reply, and then
    // fills the frame.
    (
        b"stdw r10, -8, 65\ncallf 4\ncallf 3\nldxdw r0, r10, -8\nadd64 r0, 4\nexit\nldxb r1, r10, -8\nstdw r10, -8, 66\ncall 6\nmov64 r0, 0\nexit",
        "ff0000",
    ),
    // A function that sets R6 to R9 doesn't change those of its caller.
    (
        b"mov64 r6, 65\nmov64 r7, 66\nmov64 r8, 67\nmov64 r9, 68\ncallf 10\nmov64 r1, r6\ncall 6\nmov64 r1, r7\ncall 6\nmov64 r1, r8\ncall 6\nmov64 r1, r9\ncall 6\nmov64 r0, 0\nexit\nmov64 r6, 1\nmov64 r7, 1\nmov64 r8, 1\nmov64 r9, 1\nmov64 r0, 0\nexit",
        "ff41424344",
    ),
    // Arguments and results: 65, 66 and 67 are passed on, their sum is returned, and its low byte
    // is the reply.
    (
        b"mov64 r1, 65\nmov64 r2, 66\nmov64 r5, 67\ncallf 4\nmov64 r1, r0\ncall 6\nmov64 r0, 0\nexit\nmov64 r0, r1\nadd64 r0, r2\nadd64 r0, r5\nexit",
        "ffc6",
    ),
    // The result of `notify` is 0.
    (b"call 7\nmov64 r1, r0\ncall 6\nmov64 r0, 0\nexit", "ff00"),
];

// Each program replies with the bytes of its row.
#[test]
fn programs_with_calls_reply(rt: HostRuntime) -> Result<(), Fail> {
    for (text, reply) in REPLIES.iter().copied() {
        check_replied(&rt, text, 0, "", reply)?;
    }
    Ok(())
}

// Checks the reply of a program with 16 bytes of variables. The program stores 7 into the second
// word, makes these calls, and replies with the result of the last call.
fn check_answer<R: Abort + AllocGlobal>(
    rt: &R,
    calls: &str,
    payload: &str,
    reply: &str,
) -> Result<(), Fail> {
    let text = format!(in rt.alloc();
        "mov64 r1, 1\nmov64 r2, 7\ncall 4\n{calls}\nstxdw r10, -8, r0\nmov64 r1, r10\nadd64 r1, -8\nmov64 r2, 8\ncall 5\nmov64 r0, 0\nexit"
    )?;
    check_replied(rt, text.as_bytes(), 16, payload, reply)
}

// Calls of helpers, the end of a GET with its payload, and the result of the last call, the least
// byte first.
static HELPED: [(&str, &str, &str); 14] = [
    // The payload's length.
    ("call 1", "", "ff0000000000000000"),
    ("call 1", "ff0a0b0c", "ff0300000000000000"),
    // The payload's bytes, and the result past the payload's end.
    ("mov64 r1, 1\ncall 2", "ff0a0b", "ff0b00000000000000"),
    ("mov64 r1, 2\ncall 2", "ff0a0b", "ffffffffffffffffff"),
    ("mov64 r1, -1\ncall 2", "ff0a0b", "ffffffffffffffffff"),
    // The words of the variables, and the result past the last word.
    ("mov64 r1, 0\ncall 3", "", "ff0000000000000000"),
    ("mov64 r1, 1\ncall 3", "", "ff0700000000000000"),
    ("mov64 r1, 2\ncall 3", "", "ff0000000000000000"),
    // A word whose bytes would begin at 2^64 + 8; it isn't word 1.
    (
        "lddw r1, 2305843009213693953\ncall 3",
        "",
        "ff0000000000000000",
    ),
    // A stored word is read back; past the last word nothing is stored.
    (
        "mov64 r1, 0\nmov64 r2, -2\ncall 4\nmov64 r1, 0\ncall 3",
        "",
        "fffeffffffffffffff",
    ),
    ("mov64 r1, 0\nmov64 r2, 5\ncall 4", "", "ff0100000000000000"),
    ("mov64 r1, 2\nmov64 r2, 5\ncall 4", "", "ff0000000000000000"),
    (
        "lddw r1, 2305843009213693953\nmov64 r2, 5\ncall 4\nmov64 r1, 1\ncall 3",
        "",
        "ff0700000000000000",
    ),
    // The result of `notify`.
    ("call 7", "", "ff0000000000000000"),
];

// The result of each last call is that of its row.
#[test]
fn helpers_answer(rt: HostRuntime) -> Result<(), Fail> {
    for (calls, payload, reply) in HELPED.iter().copied() {
        check_answer(&rt, calls, payload, reply)?;
    }
    Ok(())
}

// The variables that a run on a GET writes are discarded, so that both replies count from zero.
#[test]
fn a_get_keeps_no_variables(rt: HostRuntime) -> Result<(), Fail> {
    check_replied(
        &rt,
        b"mov64 r6, r2\nmov64 r1, 0\ncall 3\nadd64 r0, 1\nmov64 r2, r0\nmov64 r1, 0\ncall 4\nmov64 r1, r6\nmov64 r2, 8\ncall 5\nmov64 r0, 0\nexit",
        8,
        "",
        "ff0100000000000000",
    )
}

// A counter that notifies, and adds nothing to its reply, is answered with the ETag alone.
#[test]
fn a_counter_is_asked(rt: HostRuntime) -> Result<(), Fail> {
    check_replied(
        &rt,
        b"mov64 r1, 0\ncall 3\nadd64 r0, 1\nmov64 r2, r0\nmov64 r1, 0\ncall 4\ncall 7\nmov64 r0, 0\nexit",
        8,
        "",
        "",
    )
}

// Checks a reply of `count` bytes, which are the request's first ones: the method 1, and zeros. The
// response has these hex digits of options, and then the first 1,024 bytes of the reply.
fn check_block<R: Abort + AllocGlobal>(rt: &R, count: u16, options: &str) -> Result<(), Fail> {
    let alloc = rt.alloc();
    let text = format!(in alloc; "mov64 r2, {count}\ncall 5\nmov64 r0, 0\nexit")?;
    let mut reply = Vec::new(alloc);
    reply.extend_from_slice(options.as_bytes())?;
    reply.extend_from_slice(b"ff01")?;
    reply.extend_from_slice(&[b'0'; 2046])?;
    let reply = str::from_utf8(&reply).ok().ok_or("digits")?;
    check_replied(rt, text.as_bytes(), 0, "", reply)
}

// A longer reply than 1,024 bytes is sent as block 0. Its Block2 is option 23, 19 above the ETag,
// with one byte: block 0 of 1,024 bytes, with more to follow (RFC 7959, section 2.2).
#[test]
fn a_reply_above_1024_bytes_is_block_0(rt: HostRuntime) -> Result<(), Fail> {
    check_block(&rt, 1024, "")?;
    check_block(&rt, 1025, "d1060e")?;
    check_block(&rt, 1100, "d1060e")
}

// A reply has at most 4,096 bytes. Three additions of 1,104 bytes fit; a fourth doesn't, and adds
// nothing. An addition of 784 bytes then fits, and one more byte doesn't. The results are the bits
// 111010 of a number. The program ends with 4.03 if the number is right, and discards its reply.
#[test]
fn what_does_not_fit_is_not_added(rt: HostRuntime) -> Result<(), Fail> {
    check_code(
        &rt,
        b"mov64 r6, r1
          mov64 r7, 0
          mov64 r2, 1104
          call 5
          or64 r7, r0
          lsh64 r7, 1
          mov64 r1, r6
          mov64 r2, 1104
          call 5
          or64 r7, r0
          lsh64 r7, 1
          mov64 r1, r6
          mov64 r2, 1104
          call 5
          or64 r7, r0
          lsh64 r7, 1
          mov64 r1, r6
          mov64 r2, 1104
          call 5
          or64 r7, r0
          lsh64 r7, 1
          mov64 r1, r6
          mov64 r2, 784
          call 5
          or64 r7, r0
          lsh64 r7, 1
          mov64 r1, 1
          call 6
          or64 r7, r0
          mov64 r0, 131
          jeq r7, 58, 1
          mov64 r0, 128
          exit",
        "83",
    )
}

// The code of the response is that of the program's own exit, and not of a function's exit.
#[test]
fn the_last_exit_answers(rt: HostRuntime) -> Result<(), Fail> {
    check_code(
        &rt,
        b"callf 2\nmov64 r0, 132\nexit\nmov64 r0, 131\nexit",
        "84",
    )?;
    // 1 isn't the code of a response, so the response is 5.00.
    check_code(&rt, b"callf 1\nexit\nmov64 r0, 1\nexit", "a0")
}
