//! The sources of the jumps to each slot, by which jumps into a loop's body are found.
ghost use Rattle.std.specs.Prelude.{length, ◌<◌, ◌≡◌, ◌≤◌};
ghost use Rattle.fc_image.specs.Spans.{AreSpans, jumps_to, widened, span_with};

use crate::flow::{jump_offset, target};
use crate::table::MOST_SLOTS;
use fc_isa::Insn;

/// The first and the last slot with a jump to a given slot.
#[derive(Clone, Copy)]
pub(crate) struct Span {
    pub(crate) least: u16,
    pub(crate) greatest: u16,
}

/// Returns for each slot the span of the jumps to it, or `None` if there are none.
pub(crate) fn spans(code: &[Insn]) -> [Option<Span>; MOST_SLOTS]
    requires { length code.now ≤ 1024 }
    ensures { AreSpans code.now (length code.now) result }
{
    let mut spans = [None; MOST_SLOTS];
    for (slot, insn) in code.iter().enumerate() {
        widen(&mut spans, slot, jumps_to(slot, insn));
    }
    spans
}

/// Returns the slot to which an instruction jumps, or `None` without one.
///
/// Returns `None` if the instruction isn't a jump, or if the target is below slot 0.
fn jumps_to(slot: usize, insn: &Insn) -> Option<usize>
    requires { slot < 1024 }
    ensures { result ≡ jumps_to slot insn.now }
{
    match jump_offset(insn) {
        Some(offset) => target(slot, offset),
        None => None,
    }
}

/// Widens the span of `place`, the target of the jump at `slot`.
///
/// `slot` becomes the last slot of the span: the slots are visited in their order. If `place` is
/// `None` or isn't in the table, nothing changes.
fn widen(spans: &mut [Option<Span>; MOST_SLOTS], slot: usize, place: Option<usize>)
    requires { slot < 1024 }
    ensures { spans.new ≡ widened spans.old slot place }
{
    match place {
        Some(place) if place < MOST_SLOTS => spans[place] = Some(span_with(&spans[place], slot)),
        _ => {}
    }
}

/// Returns a span extended to `slot`, or the span of `slot` alone for `None`.
fn span_with(span: &Option<Span>, slot: usize) -> Span
    requires { slot < 1024 }
    ensures { result ≡ span_with span.now slot }
{
    match span {
        Some(span) => Span {
            least: span.least,
            greatest: slot as u16,
        },
        None => Span {
            least: slot as u16,
            greatest: slot as u16,
        },
    }
}
