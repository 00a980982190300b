//! A frame: the registers and memory in which programs run, one at a time.
ghost use Rattle.std.specs.Prelude.{◌≡◌, ◌⊎◌, is_some, true, Option, Some, None};
ghost use Rattle.fc_machine.specs.declared.frame.Frame.{Frame as Machine};
ghost use Rattle.numzela.specs.Held.{boxed, loose_value};

use crate::loose::{Loose, Opaque};
use crate::status::{IN_USE, NO_MEMORY, OK};
use std::alloc::{AllocError, Global};
use std::marker::Model;
use std::mem::replace;

/// The handle of a frame, which owns a box with the frame, or nothing.
///
/// A handle of zeros is empty.
#[repr(C)]
#[derive(Drop)]
pub struct Frame {
    at: *mut Opaque,
    held: bool,
    ghost value: { Option Machine },
}

impl Model for Frame {
    ghost use Rattle.libc.specs.Heap.{chunk};
    ghost use Rattle.numzela.specs.Held.{owned};
    ghost use Rattle.fc_machine.specs.contracts.frame.Frame.{the_row as machine-row};

    ghost also_owns = { λ f. owned chunk machine-row f.at f.held f.value };
}

impl Frame {
    // Returns an empty handle, for `take` to leave.
    fn empty() -> Frame
        ensures { result.value ≡ None }
    {
        Frame {
            at: std::ptr::null_mut(),
            held: false,
        }
    }

    // Moves a box's pointer into a handle.
    fn hold(loose: Loose<fc_machine::Frame, Global>) -> Frame
        ensures { result.value ≡ Some loose.value }
    {
        let Loose { at, alloc: _ } = loose;
        Frame {
            at: at as *mut Opaque,
            held: true,
        }
    }

    // Moves a box's pointer out of a handle, or returns `None` if the handle is empty.
    fn release(self, alloc: Global) -> Option<Loose<fc_machine::Frame, Global>>
        ensures { loose_value result ≡ self.value }
    {
        let Frame { at, held } = self;
        if held {
            Some(Loose {
                at: at as *mut fc_machine::Frame,
                alloc,
            })
        } else {
            None
        }
    }

    // Makes the handle of a frame.
    fn of(machine: Box<fc_machine::Frame>) -> Frame
        ensures { result.value ≡ Some machine.value }
    {
        Frame::hold(Loose::of(machine))
    }

    // Returns the frame that the handle holds, or `None` if the handle is empty.
    fn into_box(self, alloc: Global) -> Option<Box<fc_machine::Frame>>
        ensures { boxed result ≡ self.value }
    {
        match self.release(alloc) {
            Some(loose) => Some(loose.into_box()),
            None => None,
        }
    }

    // Takes the frame out of the handle, which is then empty, or returns `None` if the handle was
    // empty. A call that uses the frame puts it back.
    pub(crate) fn take(&mut self, alloc: Global) -> Option<Box<fc_machine::Frame>>
        ensures held { boxed result ≡ self.old.value }
        ensures now { self.new.value ≡ None }
    {
        replace(self, Frame::empty()).into_box(alloc)
    }

    // Puts a frame into the handle, which `take` has left empty.
    pub(crate) fn put(&mut self, machine: Box<fc_machine::Frame>)
        ensures { self.new.value ≡ Some machine.value }
    {
        *self = Frame::of(machine);
    }
}

/// Makes a frame in an empty handle.
///
/// Returns `OK`, `NO_MEMORY` if memory can't be allocated, or `IN_USE` if the handle isn't empty.
/// Unless the result is `OK`, the handle is unchanged.
#[unsafe(no_mangle)]
pub extern "C" fn numzela_frame_new(alloc: Global, frame: &mut Frame) -> u32
    ensures ok { result ≡ OK → is_some frame.new.value ≡ true }
    ensures kept { (result ≡ OK → ⊥) → frame.new.value ≡ frame.old.value }
    ensures empty { (result ≡ IN_USE → ⊥) → frame.old.value ≡ None }
    ensures in_use { result ≡ IN_USE → is_some frame.old.value ≡ true }
    ensures status { (result ≡ OK) ⊎ (result ≡ NO_MEMORY) ⊎ (result ≡ IN_USE) }
{
    if let Some(machine) = frame.take(alloc) {
        frame.put(machine);
        return IN_USE;
    }
    match make_machine(alloc) {
        Ok(machine) => {
            frame.put(machine);
            OK
        }
        Err(AllocError) => NO_MEMORY,
    }
}

// Makes a frame in a box. Returns an error if memory can't be allocated.
fn make_machine(alloc: Global) -> Result<Box<fc_machine::Frame>, AllocError> {
    let machine = fc_machine::Frame::new(alloc)?;
    match Box::new(alloc, machine) {
        Ok(machine) => Ok(machine),
        Err(_) => Err(AllocError),
    }
}

/// Frees the frame of a handle, and leaves the handle empty.
///
/// An empty handle stays empty.
#[unsafe(no_mangle)]
pub extern "C" fn numzela_frame_free(alloc: Global, frame: &mut Frame)
    ensures { frame.new.value ≡ None }
{
    let _freed = frame.take(alloc);
}
