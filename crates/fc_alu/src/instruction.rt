//! Arithmetic instructions.
ghost use Rattle.std.specs.Prelude.{true, ◌≡◌};
ghost use Rattle.fc_alu.specs.Instructions.{alu, is_computation};

use crate::operation::arithmetic;
use crate::sign_extension::sign_extend;
use crate::unary_operation::unary;
use fc_isa::Insn;

/// Computes an arithmetic instruction (RFC 9669, sections 4.1 and 4.2).
///
/// Returns the new value of the destination register, whose old value is `dst`. `operand` is the
/// value of the source register, or the immediate sign-extended to 64 bits. An operation on one
/// register uses no operand.
#[tactic(auto, unfolding(crate::specs::Instructions::alu))]
pub fn alu(insn: Insn, dst: u64, operand: u64) -> u64
    requires { is_computation insn ≡ true }
    ensures { result ≡ alu insn dst operand }
{
    match insn {
        Insn::Alu { op, width, .. } => arithmetic(op, width, dst, operand),
        Insn::Unary { op, .. } => unary(op, dst),
        Insn::SignExtend { extension, .. } => sign_extend(extension, operand),
        _ => unreachable!(),
    }
}
