//! Hostile images: an accepted image in which one byte is changed.
use fc_help::{Method, NO_READINGS, Request, Vars};
use fc_machine::{Frame, run};
use fc_verify::{Refusal, Verified, verify};
use std::alloc::AllocError;
use std::process::Abort;
use std::test::Fail;

// `jgt r3, 1023, 4`, `mov64 r4, r1`, `add64 r4, r3`, `ldxb r0, r4, 80`, `exit`, `mov64 r0, 0`,
// `exit`. The program reads the byte after the last byte of the payload.
const BRANCHING: [u8; 72] = *b"FCB1\0\0\x07\0\x05\0\0\0\0\0\0\0\
    \x25\x03\x04\x00\xff\x03\0\0\
    \xbf\x14\0\0\0\0\0\0\
    \x0f\x34\0\0\0\0\0\0\
    \x71\x40\x50\0\0\0\0\0\
    \x95\0\0\0\0\0\0\0\
    \xb7\0\0\0\0\0\0\0\
    \x95\0\0\0\0\0\0\0";

// Returns whether a run on the first `size` bytes of a payload takes at most the program's budget
// of steps.
fn ends_in_time(frame: &mut Frame, program: &Verified, payload: &[u8; 1024], size: usize) -> bool {
    let request = Request::new(
        Method::Post,
        0,
        None,
        b"",
        payload.get(..size).unwrap_or(b""),
    );
    let found = Vars::zeros(program.vars_size());
    run(frame, program, &request, &found, &NO_READINGS).steps() <= program.budget()
}

// Returns whether an image is accepted. If it is, checks that its runs on no payload and on the
// largest payload end within the budget.
fn accepts<R: Abort + AllocGlobal>(rt: &R, frame: &mut Frame, image: &[u8]) -> Result<bool, Fail> {
    match verify(rt.alloc(), image) {
        Ok(program) => {
            assert!(rt; ends_in_time(frame, &program, &[0xff; 1024], 0));
            assert!(rt; ends_in_time(frame, &program, &[0xff; 1024], 1024));
            Ok(true)
        }
        Err(Refusal::Broken(_)) => Ok(false),
        Err(Refusal::NoMemory) => Err(Fail::from(AllocError)),
    }
}

// Returns how many images are accepted, of the 256 that differ from `BRANCHING` at most in the byte
// at `place`.
fn accepted_at<R: Abort + AllocGlobal>(
    rt: &R,
    frame: &mut Frame,
    place: usize,
) -> Result<u32, Fail> {
    let mut image = BRANCHING;
    let mut accepted = 0u32;
    for value in 0..=255u8 {
        *image.get_mut(place).ok_or("no byte")? = value;
        if accepts(rt, frame, &image)? {
            accepted = accepted.saturating_add(1);
        }
    }
    Ok(accepted)
}

// Each byte of the image is set to each value in turn, so that the unchanged image occurs 72 times.
// At least 72 images are accepted, and the runs of each of them end within the image's budget.
#[test]
fn each_byte_of_an_image_is_set(rt: HostRuntime) -> Result<(), Fail> {
    let mut frame = Frame::new(rt.alloc())?;
    let mut accepted = 0u32;
    for place in 0..BRANCHING.len() {
        accepted = accepted.saturating_add(accepted_at(&rt, &mut frame, place)?);
    }
    assert!(rt; accepted >= 72);
    Ok(())
}
