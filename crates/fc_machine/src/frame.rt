//! The memory in which programs run.
ghost use Rattle.std.specs.Prelude.{◌≤◌};
ghost use Rattle.crossbeam_utils.specs.Padded.{padded_value};
ghost use Rattle.fc_machine.specs.Kept.{IsZeroPast};

use crate::state::State;
use crossbeam_utils::CachePadded;
use std::alloc::{AllocError, Global};

/// The registers and the memory of the machine.
///
/// One frame is made at the start, and each run uses it again. The type guarantees that the bytes
/// after the last run's payload are zero. No other frame is on the frame's cache lines, so that the
/// workers' runs don't slow each other down.
#[derive(Drop)]
pub struct Frame {
    pub(crate) state: Box<CachePadded<State>>,
    ghost payload: { (padded_value state.value).sizes.payload ≤ 1024 },
    ghost zeros: { IsZeroPast (padded_value state.value).sizes.payload (padded_value state.value).memory },
}

impl Frame {
    /// Makes a frame. No run can observe the contents that an earlier run left.
    ///
    /// # Errors
    /// Returns `AllocError` if memory for the frame can't be allocated.
    pub fn new(alloc: Global) -> Result<Frame, AllocError> {
        Ok(Frame {
            state: Box::new(alloc, CachePadded::new(State::zeros()))?,
        })
    }
}
