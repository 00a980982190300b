//! Plays whose reading or writing fails or doesn't end, or that get no worker.
//!
//! The cases of fcvectors test the output for lines.
use clap::Error;
use fc_cli::Status;
use fc_cli::command_line::explain;
use fc_fixtures::faulty::{Full, Unflushed};
use fc_lines::LineLimit;
use fc_server::DEFAULT_BEGIN;
use fc_service::play::play;
use fc_service::workers::play_by_workers;
use std::alloc::{AllocError, Global};
use std::io;
use std::io::{BufRead, BufReader, ErrorKind, Read, Write};
use std::process::Abort;
use std::test::Fail;

// Returns whether a play ends with this status, with exactly these bytes on its output and on its
// error stream.
fn plays<R: BufRead + Drop>(
    alloc: Global,
    input: R,
    status: Status,
    printed: &str,
    told: &str,
) -> bool {
    let mut out = Vec::new(alloc);
    let mut err = Vec::new(alloc);
    play(alloc, input, &mut out, &mut err, DEFAULT_BEGIN) == status
        && out.as_slice() == printed.as_bytes()
        && err.as_slice() == told.as_bytes()
}

// A reader that returns these bytes, and then fails.
#[derive(Drop)]
struct Torn<'a>(&'a [u8]);

impl Read for Torn<'_> {
    fn read(&mut self, _buf: &mut [u8]) -> io::Result<usize> {
        Err(io::Error::from(ErrorKind::BrokenPipe))
    }
}

impl BufRead for Torn<'_> {
    fn fill_buf(&mut self) -> io::Result<&[u8]> {
        if self.0.is_empty() {
            Err(io::Error::from(ErrorKind::BrokenPipe))
        } else {
            Ok(self.0)
        }
    }

    fn consume(&mut self, amount: usize) {
        self.0 = self.0.get(amount..).unwrap_or(b"");
    }
}

// If reading fails, the complete lines before the failure are executed, and the status is `Failed`.
#[test]
fn failed_reading_is_status_3(rt: HostRuntime) {
    let input = Torn(b"0 1 4101123471b1720130\n0 1");
    assert!(rt;
        plays(
            rt.alloc(),
            input,
            Status::Failed,
            "1 6184123471\n",
            "standard input: broken pipe\n"
        )
    );
}

// The line before a line without end is executed. The line without end is bad as soon as it is too
// long.
#[test]
fn a_line_without_end_is_bad(rt: HostRuntime) -> Result<(), Fail> {
    let line = b"0 1 4101123471b1720130\n".as_slice();
    let endless = LineLimit::new(line.chain(io::repeat(b'0')));
    let input = BufReader::new(rt.alloc(), endless)?;
    assert!(rt;
        plays(
            rt.alloc(),
            input,
            Status::Bad,
            "1 6184123471\n",
            "line 2: bad\n"
        )
    );
    Ok(())
}

// Plays a line of these bytes and this many zeros, and returns the status.
fn status_of_line(alloc: Global, start: &[u8], zeros: u64) -> io::Result<Status> {
    let line = LineLimit::new(start.chain(io::repeat(b'0').take(zeros)));
    let input = BufReader::new(alloc, line)?;
    Ok(play(alloc, input, &mut Full(0), &mut Full(99), DEFAULT_BEGIN))
}

// The longest line has the greatest time, peer 255 and a datagram of 65,507 bytes, which the server
// ignores. A line with one more digit is bad.
#[test]
fn the_longest_line_is_read(rt: HostRuntime) -> Result<(), Fail> {
    let status = status_of_line(rt.alloc(), b"18446744073709551615 255 ", 131_014)?;
    assert!(rt; status == Status::Done);
    let status = status_of_line(rt.alloc(), b"018446744073709551615 255 ", 131_014)?;
    assert!(rt; status == Status::Bad);
    Ok(())
}

// Plays with space for `out_room` bytes of output and `err_room` bytes of errors. Returns the
// status.
fn status_in(alloc: Global, input: &[u8], out_room: usize, err_room: usize) -> Status {
    play(
        alloc,
        input,
        &mut Full(out_room),
        &mut Full(err_room),
        DEFAULT_BEGIN,
    )
}

// If the output or the error message can't be written completely, the status is `Failed`.
#[test]
fn failed_writing_is_status_3(rt: HostRuntime) {
    let line = b"0 1 4101123471b1720130\n";
    for room in 0..13usize {
        assert!(rt;
            status_in(rt.alloc(), line, room, 99) == Status::Failed,
            "at {room}"
        );
    }
    assert!(rt; status_in(rt.alloc(), line, 13, 99) == Status::Done);
    assert!(rt; status_in(rt.alloc(), b"bad", 99, 5) == Status::Failed);
}

// If the output can't be flushed, the status is `Failed`.
#[test]
fn failed_flushing_is_status_3(rt: HostRuntime) {
    let input: &[u8] = b"0 1 4101123471b1720130\n";
    assert!(rt;
        play(
            rt.alloc(),
            input,
            &mut Unflushed,
            &mut Full(99),
            DEFAULT_BEGIN
        ) == Status::Failed
    );
}

// If memory for the command line can't be allocated, the status is `Failed`, and not `Bad`.
#[test]
fn a_command_without_memory_is_status_3(rt: HostRuntime) {
    let status = explain(&rt, &Error::from(AllocError));
    assert!(rt; status.is_ok_and(|status| status == Status::Failed));
}

// If no worker could be started, the thread that reads the lines runs all jobs, and reports that.
#[test]
fn jobs_are_worked_off_without_workers(rt: HostRuntime) {
    let alloc = rt.alloc();
    let mut out = Vec::new(alloc);
    let mut err = Vec::new(alloc);
    let begin = DEFAULT_BEGIN;
    let input =
        b"0 1 4103123370b1700130ff46434231000002000200000000000000b7000000450000009500000000000000\n\
        1 1 4101123471b1720130\n"
            .as_slice();
    let status = play_by_workers(&rt, alloc, input, &mut out, &mut err, 0, begin);
    assert!(rt; status == Status::Done);
    assert!(rt;
        out.as_slice()
            == b"1 6141123370ff76657273696f6e3d3120636f73743d32206275646765743d3220766172733d30\n\
            1 6145123471480000000000000001\n"
                .as_slice()
    );
    assert!(rt;
        err.as_slice()
            == b"no worker could be started: the receiving thread works all jobs off\n".as_slice()
    );
}
