//! Laws about programs, their bytes, and the table of forms.
//!
//! The crates above use these laws. Each law is the contract of an empty function.
ghost use Rattle.std.specs.Prelude.{All, List, None, Some, [], count_by, false, length, map, slice_index_or, true, ℕ, ◌*◌, ◌/◌, ◌<◌, ◌≡◌, ◌∷◌};
ghost use Rattle.fc_isa.specs.Encoding.{BreaksOpcodeFirst, IsFirstFault, Spells, encoded, fault_at, first_fault, decoded_program, slot_rules};
ghost use Rattle.fc_isa.specs.Program.{IsInsn, is_program};
ghost use Rattle.fc_isa.specs.Rules.{number_of};
ghost use Rattle.fc_isa.specs.declared.insn.Insn.{Insn};
ghost use Rattle.fc_isa.specs.Shapes.{is_known, opcode_of, shape_of, uses};
ghost use Rattle.fc_isa.specs.OpcodeFields.{opcode_uses_dst, opcode_uses_imm, opcode_uses_offset, opcode_uses_src};
ghost use Rattle.fc_isa.specs.declared.rule.Rule.{Rule};

use crate::insn::Insn;
use crate::rule::Rule;
use crate::shape::Shape;
use crate::table::SHAPES;

/// Bytes without a fault encode the program that `decode` returns.
///
/// That program has one element for each eight bytes.
pub fn faultless_bytes_spell(bytes: &[u8])
    ensures spells { first_fault bytes.now ≡ None → Spells bytes.now (decoded_program bytes.now) }
    ensures count { length (decoded_program bytes.now) ≡ length bytes.now / 8 }
{}

/// Bytes that encode a program have no fault, and encode no other program.
pub fn spelled_bytes_are_faultless(bytes: &[u8])
    ensures faultless { (p : List Insn) → Spells bytes.now p → first_fault bytes.now ≡ None }
    ensures one_program { (p : List Insn) → Spells bytes.now p → p ≡ decoded_program bytes.now }
{}

/// The fault of bytes is that of the first slot that has a fault.
///
/// The fault's rule is the least that this slot breaks. Each rule that a slot can break here has a
/// number below 20.
pub fn first_fault_is_first(bytes: &[u8])
    ensures is_first { (rule : Rule) (slot : ℕ) → first_fault bytes.now ≡ Some (slot, rule) → IsFirstFault bytes.now rule slot }
    ensures only_first { (rule : Rule) (slot : ℕ) → IsFirstFault bytes.now rule slot → first_fault bytes.now ≡ Some (slot, rule) }
    ensures low { (rule : Rule) (slot : ℕ) → fault_at bytes.now slot ≡ Some rule → number_of rule < 20 }
{}

/// Encoding and then decoding a program gives that program.
///
/// The encoding has eight bytes for each element of the program.
pub fn written_programs_are_read(program: &[Insn])
    ensures spells { All IsInsn program.now → is_program program.now ≡ true → Spells (encoded program.now) program.now }
    ensures read { All IsInsn program.now → is_program program.now ≡ true → decoded_program (encoded program.now) ≡ program.now }
    ensures count { All IsInsn program.now → is_program program.now ≡ true → length (encoded program.now) ≡ 8 * length program.now }
{}

/// The parts of an instruction are within the ranges of their types.
pub fn parts_are_within_their_types(insn: Insn)
    ensures { IsInsn insn }
{}

/// The table has a known form for 117 opcodes.
#[tactic(none)]
pub fn known_forms_are_117()
    ensures { count_by is_known SHAPES ≡ 117 }
{}

/// The table's row of an opcode has the opcode's form.
///
/// A known form in the row has this opcode. The form uses exactly the fields that the opcode's bits
/// determine.
#[tactic(none)]
pub fn rows_fix_the_used_fields(opcode: u8)
    ensures row { slice_index_or SHAPES opcode Shape.Unknown ≡ shape_of opcode }
    ensures opcode { is_known (shape_of opcode) ≡ true → opcode_of (shape_of opcode) ≡ opcode }
    ensures dst { is_known (shape_of opcode) ≡ true → (uses (shape_of opcode)).dst ≡ opcode_uses_dst opcode }
    ensures src { is_known (shape_of opcode) ≡ true → (uses (shape_of opcode)).src ≡ opcode_uses_src opcode }
    ensures offset { is_known (shape_of opcode) ≡ true → (uses (shape_of opcode)).offset ≡ opcode_uses_offset opcode }
    ensures imm { is_known (shape_of opcode) ≡ true → (uses (shape_of opcode)).imm ≡ opcode_uses_imm opcode }
{}

/// The rules of a slot, 6 to 10, are checked in the order of their numbers.
pub fn slot_rules_come_by_number()
    ensures { map number_of slot_rules ≡ 6 ∷ 7 ∷ 8 ∷ 9 ∷ 10 ∷ [] }
{}

/// A slot whose opcode has no known form breaks the opcode rule.
///
/// The opcode rule is reported first, whatever the other fields of the slot are.
pub fn unknown_opcodes_are_refused(opcode: u8)
    ensures { is_known (shape_of opcode) ≡ false → BreaksOpcodeFirst opcode }
{}
