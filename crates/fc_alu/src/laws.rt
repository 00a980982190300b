//! RFC 9669's arithmetic in literals.
//!
//! Each law is the contract of an empty function.
//!
//! The values follow from the sentences of the standard, and weren't computed from the definitions.
//! A negative number is written in two's complement: -7 is `2 ^ 64 - 7`, and `2 ^ 32 - 7` in a low
//! half.
ghost use Rattle.std.specs.Prelude.{[], ◌+◌, ◌-◌, ◌^◌, ◌∷◌, ◌≡◌, ℕ};
ghost use Rattle.fc_alu.specs.Arithmetic.{computed_at, negated, ordered, sign_extended};
ghost use Rattle.fc_alu.specs.Comparison.{compared, truth};
ghost use Rattle.fc_alu.specs.Instructions.{alu};
ghost use Rattle.fc_alu.specs.Relations.{relations_of};
ghost use Rattle.fc_isa.specs.declared.insn.AluOp.{AluOp};
ghost use Rattle.fc_isa.specs.declared.insn.AluOp.TheVariants.{Add, Sub, Mul, Div, Sdiv, Mod, Smod, Or, And, Xor, Lsh, Rsh, Arsh, Mov};
ghost use Rattle.fc_isa.specs.declared.insn.ByteOrder.{ByteOrder};
ghost use Rattle.fc_isa.specs.declared.insn.ByteOrder.TheVariants.{Little, Big, Swapped};
ghost use Rattle.fc_isa.specs.declared.insn.Insn.TheVariants.{Alu, Unary, SignExtend};
ghost use Rattle.fc_isa.specs.declared.insn.Jump.{Jump};
ghost use Rattle.fc_isa.specs.declared.insn.Operand.{Operand};
ghost use Rattle.fc_isa.specs.declared.insn.Relation.TheVariants.{Eq, Gt, Ge, Set, Ne, Sgt, Sge, Lt, Le, Slt, Sle};
ghost use Rattle.fc_isa.specs.declared.insn.SignExtension.{SignExtension};
ghost use Rattle.fc_isa.specs.declared.insn.SignExtension.TheVariants.{Byte, HalfWord, Word};
ghost use Rattle.fc_isa.specs.declared.insn.SwapWidth.{SwapWidth};
ghost use Rattle.fc_isa.specs.declared.insn.SwapWidth.TheVariants.{S16, S32, S64};
ghost use Rattle.fc_isa.specs.declared.insn.UnaryOp.TheVariants.{Neg, End};
ghost use Rattle.fc_isa.specs.declared.insn.Width.{Width};
ghost use Rattle.fc_isa.specs.declared.insn.Width.TheVariants.{W32, W64};

#[tactic(auto, unfolding(crate::specs::Arithmetic::computed_at, crate::specs::Arithmetic::computed))]
/// ADD, SUB and MUL wrap at the width of the operation.
///
/// "Underflow and overflow are allowed during arithmetic operations, meaning the 64-bit or 32-bit
/// value will wrap." At 32 bits only the low halves of the operands count, and the upper half of
/// the result is zero (RFC 9669, section 4.1).
pub fn sums_differences_and_products_wrap()
    ensures add { computed_at Add W64 0xffff_ffff 1 ≡ 0x1_0000_0000 }
    ensures add_wraps { computed_at Add W64 (2 ^ 64 - 1) 3 ≡ 2 }
    ensures add_into_bit_63 { computed_at Add W64 (2 ^ 63 - 1) 2 ≡ 2 ^ 63 + 1 }
    ensures add_halves { computed_at Add W32 0x5_0000_0001 0x6_0000_0002 ≡ 3 }
    ensures add_halves_wrap { computed_at Add W32 0xffff_ffff 1 ≡ 0 }
    ensures add_into_bit_31 { computed_at Add W32 0x7fff_ffff 2 ≡ 0x8000_0001 }
    ensures sub { computed_at Sub W64 0x1_0000_0005 3 ≡ 0x1_0000_0002 }
    ensures sub_wraps { computed_at Sub W64 3 5 ≡ 2 ^ 64 - 2 }
    ensures sub_halves { computed_at Sub W32 0x5_0000_0007 0x6_0000_0002 ≡ 5 }
    ensures sub_halves_wrap { computed_at Sub W32 3 5 ≡ 2 ^ 32 - 2 }
    ensures mul { computed_at Mul W64 0x1_0000 0x1_0001 ≡ 0x1_0001_0000 }
    ensures mul_wraps { computed_at Mul W64 (2 ^ 64 - 1) (2 ^ 64 - 3) ≡ 3 }
    ensures mul_of_a_negative { computed_at Mul W64 (2 ^ 64 - 3) 5 ≡ 2 ^ 64 - 15 }
    ensures mul_halves { computed_at Mul W32 0x5_0000_0003 0x6_0000_0007 ≡ 21 }
    ensures mul_halves_wrap { computed_at Mul W32 0x1_0000 0x1_0001 ≡ 0x1_0000 }
    ensures mul_of_a_negative_half { computed_at Mul W32 (2 ^ 32 - 3) 5 ≡ 2 ^ 32 - 15 }
{}

#[tactic(auto, unfolding(crate::specs::Arithmetic::computed_at, crate::specs::Arithmetic::computed))]
/// OR, AND and XOR combine the operands bit by bit.
///
/// They compute `dst |= src`, `dst &= src` and `dst ^= src`. From 1100 and 1010, OR gives 1110, AND
/// gives 1000, and XOR gives 0110 (RFC 9669, section 4.1).
pub fn bits_are_combined_one_by_one()
    ensures or { computed_at Or W64 0b1100 0b1010 ≡ 0b1110 }
    ensures or_high { computed_at Or W64 (2 ^ 63) 1 ≡ 2 ^ 63 + 1 }
    ensures or_halves { computed_at Or W32 0x5_0000_000c 0x6_8000_000a ≡ 0x8000_000e }
    ensures and { computed_at And W64 0b1100 0b1010 ≡ 0b1000 }
    ensures and_high { computed_at And W64 (2 ^ 64 - 1) (2 ^ 63 + 1) ≡ 2 ^ 63 + 1 }
    ensures and_halves { computed_at And W32 0x7_8000_000c 0x7_8000_000a ≡ 0x8000_0008 }
    ensures xor { computed_at Xor W64 0b1100 0b1010 ≡ 0b0110 }
    ensures xor_high { computed_at Xor W64 (2 ^ 64 - 1) (2 ^ 63) ≡ 2 ^ 63 - 1 }
    ensures xor_into_bit_63 { computed_at Xor W64 (2 ^ 63 + 5) 6 ≡ 2 ^ 63 + 3 }
    ensures xor_halves { computed_at Xor W32 0x5_0000_000c 0x6_8000_000a ≡ 0x8000_0006 }
{}

#[tactic(auto, unfolding(crate::specs::Arithmetic::computed_at, crate::specs::Arithmetic::computed, crate::specs::Arithmetic::negated))]
/// MOV copies the source, and NEG negates the destination.
///
/// They compute `dst = src` and `dst = -dst`. At 32 bits they use the low half, and the upper half
/// of the result is zero (RFC 9669, section 4.1).
pub fn moves_copy_and_negations_change_the_sign()
    ensures mov { computed_at Mov W64 1 (2 ^ 64 - 2) ≡ 2 ^ 64 - 2 }
    ensures mov_halves { computed_at Mov W32 0x5_0000_0001 0x6_0000_0007 ≡ 7 }
    ensures neg { negated W64 5 ≡ 2 ^ 64 - 5 }
    ensures neg_of_a_negative { negated W64 (2 ^ 64 - 5) ≡ 5 }
    ensures neg_of_zero { negated W64 0 ≡ 0 }
    ensures neg_of_the_least { negated W64 (2 ^ 63) ≡ 2 ^ 63 }
    ensures neg_half { negated W32 0x7_0000_0005 ≡ 2 ^ 32 - 5 }
    ensures neg_half_of_a_negative { negated W32 (2 ^ 32 - 5) ≡ 5 }
    ensures neg_half_of_zero { negated W32 0x7_0000_0000 ≡ 0 }
    ensures neg_half_of_the_least { negated W32 0x8000_0000 ≡ 0x8000_0000 }
{}

#[tactic(auto, unfolding(crate::specs::Arithmetic::computed_at, crate::specs::Arithmetic::computed))]
/// DIV and MOD read their operands as unsigned numbers.
///
/// They compute `dst / src`, rounded down, and `dst % src`. At 32 bits they use the low halves (RFC
/// 9669, section 4.1).
pub fn unsigned_divisions_round_down()
    ensures div { computed_at Div W64 0x7_0000_0000 0x2_0000_0000 ≡ 3 }
    ensures div_of_a_great_number { computed_at Div W64 (2 ^ 64 - 7) 2 ≡ 2 ^ 63 - 4 }
    ensures div_by_a_great_number { computed_at Div W64 7 (2 ^ 64 - 2) ≡ 0 }
    ensures div_by_one { computed_at Div W64 (2 ^ 64 - 7) 1 ≡ 2 ^ 64 - 7 }
    ensures div_halves { computed_at Div W32 0x5_0000_0007 0x6_0000_0002 ≡ 3 }
    ensures div_of_a_great_half { computed_at Div W32 (2 ^ 32 - 7) 2 ≡ 2 ^ 31 - 4 }
    ensures div_by_a_great_half { computed_at Div W32 7 (2 ^ 32 - 2) ≡ 0 }
    ensures div_halves_by_one { computed_at Div W32 (2 ^ 32 - 7) 1 ≡ 2 ^ 32 - 7 }
    ensures modulo { computed_at Mod W64 0x7_0000_0003 0x2_0000_0000 ≡ 0x1_0000_0003 }
    ensures modulo_of_a_great_number { computed_at Mod W64 (2 ^ 64 - 7) 10 ≡ 9 }
    ensures modulo_by_a_great_number { computed_at Mod W64 7 (2 ^ 64 - 2) ≡ 7 }
    ensures modulo_halves { computed_at Mod W32 0x5_0000_0011 0x6_0000_0005 ≡ 2 }
    ensures modulo_of_a_great_half { computed_at Mod W32 (2 ^ 32 - 7) 10 ≡ 9 }
    ensures modulo_by_a_great_half { computed_at Mod W32 7 (2 ^ 32 - 2) ≡ 7 }
{}

#[tactic(auto, unfolding(crate::specs::Arithmetic::computed_at, crate::specs::Arithmetic::computed))]
/// SDIV and SMOD read their operands as signed numbers and truncate toward zero.
///
/// -13 divided by 3 is -4, with the remainder -1. At 32 bits they use the low halves (RFC 9669,
/// section 4.1).
pub fn signed_divisions_truncate()
    ensures sdiv { computed_at Sdiv W64 13 3 ≡ 4 }
    ensures sdiv_of_a_negative { computed_at Sdiv W64 (2 ^ 64 - 13) 3 ≡ 2 ^ 64 - 4 }
    ensures sdiv_by_a_negative { computed_at Sdiv W64 13 (2 ^ 64 - 3) ≡ 2 ^ 64 - 4 }
    ensures sdiv_of_negatives { computed_at Sdiv W64 (2 ^ 64 - 13) (2 ^ 64 - 3) ≡ 4 }
    ensures sdiv_halves { computed_at Sdiv W32 0x5_0000_000d 0x6_0000_0003 ≡ 4 }
    ensures sdiv_of_a_negative_half { computed_at Sdiv W32 (2 ^ 32 - 13) 3 ≡ 2 ^ 32 - 4 }
    ensures sdiv_by_a_negative_half { computed_at Sdiv W32 13 (2 ^ 32 - 3) ≡ 2 ^ 32 - 4 }
    ensures sdiv_of_negative_halves { computed_at Sdiv W32 (2 ^ 32 - 13) (2 ^ 32 - 3) ≡ 4 }
    ensures smod { computed_at Smod W64 13 3 ≡ 1 }
    ensures smod_of_a_negative { computed_at Smod W64 (2 ^ 64 - 13) 3 ≡ 2 ^ 64 - 1 }
    ensures smod_by_a_negative { computed_at Smod W64 13 (2 ^ 64 - 3) ≡ 1 }
    ensures smod_of_negatives { computed_at Smod W64 (2 ^ 64 - 13) (2 ^ 64 - 3) ≡ 2 ^ 64 - 1 }
    ensures smod_halves { computed_at Smod W32 0x5_0000_000d 0x6_0000_0003 ≡ 1 }
    ensures smod_of_a_negative_half { computed_at Smod W32 (2 ^ 32 - 13) 3 ≡ 2 ^ 32 - 1 }
    ensures smod_by_a_negative_half { computed_at Smod W32 13 (2 ^ 32 - 3) ≡ 1 }
    ensures smod_of_negative_halves { computed_at Smod W32 (2 ^ 32 - 13) (2 ^ 32 - 3) ≡ 2 ^ 32 - 1 }
{}

#[tactic(auto, unfolding(crate::specs::Arithmetic::computed_at, crate::specs::Arithmetic::computed))]
/// A division by zero gives 0, and a modulo by zero keeps the destination.
///
/// At 32 bits the divisor is zero if its low half is zero. A modulo at 32 bits then leaves a zero
/// upper half: "the upper 32 bits of the destination register are zeroed" (RFC 9669, section 4.1).
pub fn divisions_by_zero_have_values()
    ensures div { computed_at Div W64 0x5_0000_0007 0 ≡ 0 }
    ensures div_halves { computed_at Div W32 0x5_0000_0007 0x6_0000_0000 ≡ 0 }
    ensures sdiv { computed_at Sdiv W64 7 0 ≡ 0 }
    ensures sdiv_of_a_negative { computed_at Sdiv W64 (2 ^ 64 - 7) 0 ≡ 0 }
    ensures sdiv_halves { computed_at Sdiv W32 0x5_0000_0007 0x6_0000_0000 ≡ 0 }
    ensures sdiv_of_a_negative_half { computed_at Sdiv W32 (2 ^ 32 - 7) 0 ≡ 0 }
    ensures modulo { computed_at Mod W64 0x5_0000_0007 0 ≡ 0x5_0000_0007 }
    ensures modulo_halves { computed_at Mod W32 0x5_0000_0007 0x6_0000_0000 ≡ 7 }
    ensures smod { computed_at Smod W64 0x5_0000_0007 0 ≡ 0x5_0000_0007 }
    ensures smod_of_a_negative { computed_at Smod W64 (2 ^ 64 - 7) 0 ≡ 2 ^ 64 - 7 }
    ensures smod_halves { computed_at Smod W32 0x5_0000_0007 0x6_0000_0000 ≡ 7 }
    ensures smod_of_a_negative_half { computed_at Smod W32 (2 ^ 32 - 7) 0 ≡ 2 ^ 32 - 7 }
{}

#[tactic(auto, unfolding(crate::specs::Arithmetic::computed_at, crate::specs::Arithmetic::computed))]
/// The least signed number divided by -1 is itself, and the remainder is 0.
///
/// The quotient wraps, as every result does (RFC 9669, section 4.1).
pub fn the_least_number_by_minus_one_is_itself()
    ensures sdiv { computed_at Sdiv W64 (2 ^ 63) (2 ^ 64 - 1) ≡ 2 ^ 63 }
    ensures sdiv_halves { computed_at Sdiv W32 0x8000_0000 0xffff_ffff ≡ 0x8000_0000 }
    ensures sdiv_of_the_least_half { computed_at Sdiv W64 0x8000_0000 (2 ^ 64 - 1) ≡ 2 ^ 64 - 2 ^ 31 }
    ensures smod { computed_at Smod W64 (2 ^ 63) (2 ^ 64 - 1) ≡ 0 }
    ensures smod_halves { computed_at Smod W32 0x8000_0000 0xffff_ffff ≡ 0 }
{}

#[tactic(auto, unfolding(crate::specs::Arithmetic::computed_at, crate::specs::Arithmetic::computed))]
/// A shift's count is taken modulo the width of the operation.
///
/// "Shift operations use a mask of 0x3F (63) for 64-bit operations and 0x1F (31) for 32-bit
/// operations" (RFC 9669, section 4.1): a shift by the width changes nothing. LSH and RSH shift
/// zeros in, and the bits shifted out of the width are lost.
pub fn shift_counts_are_masked()
    ensures lsh { computed_at Lsh W64 0x8000_0001 4 ≡ 0x8_0000_0010 }
    ensures lsh_loses { computed_at Lsh W64 (2 ^ 63 + 1) 1 ≡ 2 }
    ensures lsh_by_63 { computed_at Lsh W64 3 63 ≡ 2 ^ 63 }
    ensures lsh_by_64 { computed_at Lsh W64 3 64 ≡ 3 }
    ensures lsh_by_65 { computed_at Lsh W64 3 65 ≡ 6 }
    ensures lsh_by_minus_one { computed_at Lsh W64 3 (2 ^ 64 - 1) ≡ 2 ^ 63 }
    ensures lsh_halves { computed_at Lsh W32 0x5_8000_0001 4 ≡ 16 }
    ensures lsh_halves_by_31 { computed_at Lsh W32 3 31 ≡ 0x8000_0000 }
    ensures lsh_halves_by_32 { computed_at Lsh W32 3 32 ≡ 3 }
    ensures lsh_halves_by_63 { computed_at Lsh W32 3 63 ≡ 0x8000_0000 }
    ensures rsh { computed_at Rsh W64 0x8_0000_001f 4 ≡ 0x8000_0001 }
    ensures rsh_by_63 { computed_at Rsh W64 (2 ^ 64 - 1) 63 ≡ 1 }
    ensures rsh_by_64 { computed_at Rsh W64 (2 ^ 64 - 1) 64 ≡ 2 ^ 64 - 1 }
    ensures rsh_by_65 { computed_at Rsh W64 (2 ^ 64 - 1) 65 ≡ 2 ^ 63 - 1 }
    ensures rsh_by_minus_one { computed_at Rsh W64 (2 ^ 64 - 1) (2 ^ 64 - 1) ≡ 1 }
    ensures rsh_halves { computed_at Rsh W32 0x5_8000_001f 4 ≡ 0x0800_0001 }
    ensures rsh_halves_by_31 { computed_at Rsh W32 0xffff_ffff 31 ≡ 1 }
    ensures rsh_halves_by_32 { computed_at Rsh W32 0xffff_ffff 32 ≡ 0xffff_ffff }
    ensures rsh_halves_by_63 { computed_at Rsh W32 0xffff_ffff 63 ≡ 1 }
{}

#[tactic(auto, unfolding(crate::specs::Arithmetic::computed_at, crate::specs::Arithmetic::computed))]
/// ARSH shifts to the right and keeps the sign.
///
/// The bits that are shifted in are copies of bit 63, or of bit 31 at 32 bits. -7 shifted by one
/// bit is -4. The count is masked as in RSH (RFC 9669, section 4.1).
pub fn arithmetic_shifts_keep_the_sign()
    ensures arsh { computed_at Arsh W64 0x8_0000_001f 4 ≡ 0x8000_0001 }
    ensures arsh_of_a_negative { computed_at Arsh W64 (2 ^ 64 - 7) 1 ≡ 2 ^ 64 - 4 }
    ensures arsh_of_the_least { computed_at Arsh W64 (2 ^ 63) 62 ≡ 2 ^ 64 - 2 }
    ensures arsh_by_63 { computed_at Arsh W64 (2 ^ 63) 63 ≡ 2 ^ 64 - 1 }
    ensures arsh_by_64 { computed_at Arsh W64 (2 ^ 63) 64 ≡ 2 ^ 63 }
    ensures arsh_by_65 { computed_at Arsh W64 (2 ^ 63) 65 ≡ 2 ^ 63 + 2 ^ 62 }
    ensures arsh_by_minus_one { computed_at Arsh W64 (2 ^ 63 - 1) (2 ^ 64 - 1) ≡ 0 }
    ensures arsh_of_bit_31 { computed_at Arsh W64 0x8000_0000 4 ≡ 0x0800_0000 }
    ensures arsh_halves { computed_at Arsh W32 0xf_4000_001f 4 ≡ 0x0400_0001 }
    ensures arsh_of_a_negative_half { computed_at Arsh W32 (2 ^ 32 - 7) 1 ≡ 2 ^ 32 - 4 }
    ensures arsh_of_the_least_half { computed_at Arsh W32 0x5_8000_0000 4 ≡ 0xf800_0000 }
    ensures arsh_halves_by_31 { computed_at Arsh W32 0x8000_0000 31 ≡ 0xffff_ffff }
    ensures arsh_halves_by_32 { computed_at Arsh W32 0x8000_0000 32 ≡ 0x8000_0000 }
    ensures arsh_halves_by_63 { computed_at Arsh W32 0x8000_0000 63 ≡ 0xffff_ffff }
{}

#[tactic(auto, unfolding(crate::specs::Arithmetic::sign_extended))]
/// MOVSX copies the highest of 8, 16 or 32 bits to all bits above it.
///
/// 1000_0110 becomes 1111_1111_1000_0110, up to bit 31 or bit 63 (RFC 9669, sections 2.3 and 4.1).
/// At 32 bits the upper half of the result is zero.
pub fn sign_extensions_copy_the_highest_bit()
    ensures byte { sign_extended (Byte W64) 0b1000_0110 ≡ 0xffff_ffff_ffff_ff86 }
    ensures byte_of_the_greatest { sign_extended (Byte W64) 0x7f ≡ 0x7f }
    ensures byte_of_the_least { sign_extended (Byte W64) 0x80 ≡ 2 ^ 64 - 128 }
    ensures byte_alone { sign_extended (Byte W64) 0xffff_ffff_ffff_ff06 ≡ 6 }
    ensures byte_to_32 { sign_extended (Byte W32) 0x86 ≡ 0xffff_ff86 }
    ensures byte_to_32_of_the_greatest { sign_extended (Byte W32) 0x7f ≡ 0x7f }
    ensures byte_to_32_alone { sign_extended (Byte W32) 0xffff_ffff_ffff_ff06 ≡ 6 }
    ensures half_word { sign_extended (HalfWord W64) 0x8006 ≡ 0xffff_ffff_ffff_8006 }
    ensures half_word_of_the_greatest { sign_extended (HalfWord W64) 0x7fff ≡ 0x7fff }
    ensures half_word_alone { sign_extended (HalfWord W64) 0xffff_ffff_ffff_0086 ≡ 0x86 }
    ensures half_word_to_32 { sign_extended (HalfWord W32) 0x8006 ≡ 0xffff_8006 }
    ensures half_word_to_32_of_the_greatest { sign_extended (HalfWord W32) 0x7fff ≡ 0x7fff }
    ensures half_word_to_32_alone { sign_extended (HalfWord W32) 0xffff_ffff_ffff_0086 ≡ 0x86 }
    ensures word { sign_extended Word 0x8000_0006 ≡ 0xffff_ffff_8000_0006 }
    ensures word_of_the_greatest { sign_extended Word 0x7fff_ffff ≡ 0x7fff_ffff }
    ensures word_alone { sign_extended Word 0xffff_ffff_0000_8006 ≡ 0x8006 }
{}

#[tactic(auto, unfolding(crate::specs::Arithmetic::ordered))]
/// `le` keeps the order of the low bytes, and `be` and `bswap` reverse it.
///
/// The host is little-endian. The swaps read only the low 16, 32 or 64 bits, and all higher bits of
/// the result are zero (RFC 9669, sections 2.2 and 4.2).
pub fn byte_swaps_reverse_the_low_bytes()
    ensures le16 { ordered Little S16 0x8899_aabb_ccdd_eeff ≡ 0xeeff }
    ensures le32 { ordered Little S32 0x8899_aabb_ccdd_eeff ≡ 0xccdd_eeff }
    ensures le64 { ordered Little S64 0x8899_aabb_ccdd_eeff ≡ 0x8899_aabb_ccdd_eeff }
    ensures be16 { ordered Big S16 0x8899_aabb_ccdd_eeff ≡ 0xffee }
    ensures be32 { ordered Big S32 0x8899_aabb_ccdd_eeff ≡ 0xffee_ddcc }
    ensures be64 { ordered Big S64 0x8899_aabb_ccdd_eeff ≡ 0xffee_ddcc_bbaa_9988 }
    ensures bswap16 { ordered Swapped S16 0x8899_aabb_ccdd_eeff ≡ 0xffee }
    ensures bswap32 { ordered Swapped S32 0x8899_aabb_ccdd_eeff ≡ 0xffee_ddcc }
    ensures bswap64 { ordered Swapped S64 0x8899_aabb_ccdd_eeff ≡ 0xffee_ddcc_bbaa_9988 }
{}

#[tactic(auto, unfolding(crate::specs::Comparison::compared, crate::specs::Comparison::holds))]
/// Conditional jumps of class JMP compare all 64 bits of two registers.
///
/// Each clause lists all relations that hold for two numbers: a jump is taken exactly if its
/// relation is listed. JEQ and JNE compare for equality, and JSET tests for a common bit,
/// `dst & src`. JGT, JGE, JLT and JLE read unsigned numbers, and JSGT, JSGE, JSLT and JSLE signed
/// ones (RFC 9669, section 4.3).
pub fn comparisons_hold_at_these_numbers()
    ensures above { relations_of W64 7 5 ≡ Gt ∷ Ge ∷ Set ∷ Ne ∷ Sgt ∷ Sge ∷ [] }
    ensures below { relations_of W64 2 5 ≡ Ne ∷ Lt ∷ Le ∷ Slt ∷ Sle ∷ [] }
    ensures equal { relations_of W64 5 5 ≡ Eq ∷ Ge ∷ Set ∷ Sge ∷ Le ∷ Sle ∷ [] }
    ensures zeros { relations_of W64 0 0 ≡ Eq ∷ Ge ∷ Sge ∷ Le ∷ Sle ∷ [] }
    ensures negative { relations_of W64 (2 ^ 64 - 1) 1 ≡ Gt ∷ Ge ∷ Set ∷ Ne ∷ Slt ∷ Sle ∷ [] }
    ensures with_a_negative { relations_of W64 1 (2 ^ 64 - 1) ≡ Set ∷ Ne ∷ Sgt ∷ Sge ∷ Lt ∷ Le ∷ [] }
    ensures negatives { relations_of W64 (2 ^ 64 - 3) (2 ^ 64 - 1) ≡ Set ∷ Ne ∷ Lt ∷ Le ∷ Slt ∷ Sle ∷ [] }
    ensures least { relations_of W64 (2 ^ 63) (2 ^ 63 - 1) ≡ Gt ∷ Ge ∷ Ne ∷ Slt ∷ Sle ∷ [] }
    ensures greatest { relations_of W64 (2 ^ 63 - 1) (2 ^ 63) ≡ Ne ∷ Sgt ∷ Sge ∷ Lt ∷ Le ∷ [] }
    ensures bit_31 { relations_of W64 0x8000_0000 0x7fff_ffff ≡ Gt ∷ Ge ∷ Ne ∷ Sgt ∷ Sge ∷ [] }
    ensures upper_half { relations_of W64 0x1_0000_0005 5 ≡ Gt ∷ Ge ∷ Set ∷ Ne ∷ Sgt ∷ Sge ∷ [] }
    ensures upper_bit { relations_of W64 0x1_0000_0000 0x1_0000_0001 ≡ Set ∷ Ne ∷ Lt ∷ Le ∷ Slt ∷ Sle ∷ [] }
    ensures bit_63 { relations_of W64 (2 ^ 63) (2 ^ 63) ≡ Eq ∷ Ge ∷ Set ∷ Sge ∷ Le ∷ Sle ∷ [] }
    ensures bit_63_alone { relations_of W64 (2 ^ 63) 0 ≡ Gt ∷ Ge ∷ Ne ∷ Slt ∷ Sle ∷ [] }
{}

#[tactic(auto, unfolding(crate::specs::Comparison::compared, crate::specs::Comparison::holds))]
/// Conditional jumps of class JMP32 compare the low halves of two registers.
///
/// The upper halves are ignored, and bit 31 is the sign (RFC 9669, section 4.3).
pub fn comparisons_of_halves_hold_at_these_numbers()
    ensures above { relations_of W32 0x1_0000_0007 0x2_0000_0005 ≡ Gt ∷ Ge ∷ Set ∷ Ne ∷ Sgt ∷ Sge ∷ [] }
    ensures below { relations_of W32 0x2_0000_0002 0x1_0000_0005 ≡ Ne ∷ Lt ∷ Le ∷ Slt ∷ Sle ∷ [] }
    ensures equal { relations_of W32 0x1_0000_0005 0x2_0000_0005 ≡ Eq ∷ Ge ∷ Set ∷ Sge ∷ Le ∷ Sle ∷ [] }
    ensures zeros { relations_of W32 0x1_0000_0000 0x1_0000_0000 ≡ Eq ∷ Ge ∷ Sge ∷ Le ∷ Sle ∷ [] }
    ensures negative { relations_of W32 (2 ^ 32 - 1) 1 ≡ Gt ∷ Ge ∷ Set ∷ Ne ∷ Slt ∷ Sle ∷ [] }
    ensures with_a_negative { relations_of W32 1 (2 ^ 32 - 1) ≡ Set ∷ Ne ∷ Sgt ∷ Sge ∷ Lt ∷ Le ∷ [] }
    ensures negatives { relations_of W32 (2 ^ 32 - 3) (2 ^ 32 - 1) ≡ Set ∷ Ne ∷ Lt ∷ Le ∷ Slt ∷ Sle ∷ [] }
    ensures least { relations_of W32 0x8000_0000 0x7fff_ffff ≡ Gt ∷ Ge ∷ Ne ∷ Slt ∷ Sle ∷ [] }
    ensures greatest { relations_of W32 0x7fff_ffff 0x8000_0000 ≡ Ne ∷ Sgt ∷ Sge ∷ Lt ∷ Le ∷ [] }
    ensures bit_63 { relations_of W32 (2 ^ 63 + 2) 5 ≡ Ne ∷ Lt ∷ Le ∷ Slt ∷ Sle ∷ [] }
    ensures bit_31 { relations_of W32 0x8000_0000 0x8000_0000 ≡ Eq ∷ Ge ∷ Set ∷ Sge ∷ Le ∷ Sle ∷ [] }
    ensures bit_31_alone { relations_of W32 0x8000_0000 0 ≡ Gt ∷ Ge ∷ Ne ∷ Slt ∷ Sle ∷ [] }
{}

#[tactic(auto, unfolding(crate::specs::Instructions::alu, crate::specs::Arithmetic::unary_result))]
/// The destination is the left operand, and the source is the right one.
///
/// For example, the destination is on the left in `dst -= src`, and in the jump condition
/// `dst > src`. NEG and the byte swaps read only the destination, and MOVSX reads only the source
/// (RFC 9669, sections 4.1 to 4.3).
pub fn operands_have_their_places()
    ensures operation { (op : AluOp) (width : Width) (r dst src : ℕ) (operand : Operand)
        → alu (Alu op width r operand) dst src ≡ computed_at op width dst src }
    ensures negation { (width : Width) (r dst src : ℕ) → alu (Unary (Neg width) r) dst src ≡ negated width dst }
    ensures extension { (extension : SignExtension) (r s dst src : ℕ)
        → alu (SignExtend extension r s) dst src ≡ sign_extended extension src }
    ensures swap { (order : ByteOrder) (width : SwapWidth) (r dst src : ℕ)
        → alu (Unary (End order width) r) dst src ≡ ordered order width dst }
    ensures jump { (j : Jump) (dst src : ℕ) → truth j dst src ≡ compared j.relation j.width dst src }
{}
