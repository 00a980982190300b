//! The contents of a slot: a program, its version and its variables.
ghost use Rattle.std.specs.Prelude.{◌≡◌, length};

use fc_help::Vars;
use fc_verify::Verified;
use std::sync::Arc;

// A program in a slot, with its version, and with as many variables as the program declares.
#[derive(Drop)]
pub(crate) struct Body {
    pub(crate) program: Arc<Verified>,
    pub(crate) version: u64,
    pub(crate) vars: Vars,
    ghost size: { length vars ≡ program.value.vars_size },
}
