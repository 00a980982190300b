//! The working state of a worker.
use coap_msg::Emission;
use fc_core::Stage;
use fc_front::front::blank_emission;
use fc_machine::Frame;

/// The working state of a worker.
///
/// It has a frame, in which the worker's programs run, the stage of the worker's job, and a buffer
/// for a reply.
#[derive(Drop)]
pub struct Scratch {
    pub frame: Frame,
    pub stage: Stage,
    pub reply: Emission,
}

impl Scratch {
    /// Makes a working state with this frame, before the first job.
    pub fn new(frame: Frame) -> Scratch {
        Scratch {
            frame,
            stage: Stage::blank(),
            reply: blank_emission(),
        }
    }
}
