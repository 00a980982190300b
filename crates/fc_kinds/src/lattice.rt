//! Joins of abstract values.
ghost use Rattle.std.specs.Prelude.{◌≡◌};
ghost use Rattle.fc_kinds.specs.Lattice.{join_kind, joined};

use crate::kind::{Kind, Regs};

/// Returns the least abstract value that contains both.
///
/// It is `Unset` unless both are numbers, or both are pointers into the same region or stack frame.
fn join_kind(a: Kind, b: Kind) -> Kind
    ensures { result ≡ join_kind a b }
{
    match (a, b) {
        (
            Kind::Num { lo, hi },
            Kind::Num {
                lo: least,
                hi: most,
            },
        ) => Kind::Num {
            lo: lo.min(least),
            hi: hi.max(most),
        },
        (
            Kind::Stack { level, lo, hi },
            Kind::Stack {
                level: other,
                lo: low,
                hi: high,
            },
        ) if level == other => {
            Kind::Stack {
                level,
                lo: lo.min(low),
                hi: hi.max(high),
            }
        }
        (Kind::Req { lo, hi }, Kind::Req { lo: low, hi: high }) => Kind::Req {
            lo: lo.min(low),
            hi: hi.max(high),
        },
        (Kind::Vars { lo, hi }, Kind::Vars { lo: low, hi: high }) => Kind::Vars {
            lo: lo.min(low),
            hi: hi.max(high),
        },
        (Kind::Dev { lo, hi }, Kind::Dev { lo: low, hi: high }) => Kind::Dev {
            lo: lo.min(low),
            hi: hi.max(high),
        },
        _ => Kind::Unset,
    }
}

/// Joins another abstract state to `state`, register by register.
///
/// Each abstract value of the result is the least that contains both. The verifier joins the states
/// of the paths that meet at a slot.
pub fn join(state: &mut Regs, other: &Regs)
    ensures { state.new ≡ joined state.old other.now }
{
    for r in 0..11 {
        state[r] = join_kind(state[r], other[r]);
    }
}
