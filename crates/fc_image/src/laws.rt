//! Laws about headers and the control flow of programs, for the crates above.
//!
//! Each law is the contract of an empty function.
ghost use Rattle.std.specs.Prelude.{List, None, Some, [], drop, false, length, map, suc, true, ℕ, ◌*◌, ◌++◌, ◌<◌, ◌≡◌, ◌≢◌, ◌↔◌, ◌∷◌};
ghost use Rattle.fc_isa.specs.declared.rule.Rule.TheVariants.{BackwardJump, Budget, Cost, FrameDepth, SlotCount, VarsSize};
ghost use Rattle.fc_isa.specs.Rules.{number_of};
ghost use Rattle.fc_isa.specs.declared.insn.Insn.{Insn};
ghost use Rattle.fc_isa.specs.declared.insn.Insn.TheVariants.{Exit, JumpIf};
ghost use Rattle.fc_isa.specs.declared.insn.Jump.{Jump};
ghost use Rattle.fc_isa.specs.Writes.{writes};
ghost use Rattle.fc_isa.specs.declared.version.ImageVersion.{ImageVersion};
ghost use Rattle.fc_isa.specs.declared.version.ImageVersion.TheVariants.{One, Two};
ghost use Rattle.fc_isa.specs.Program.{is_program};
ghost use Rattle.fc_image.specs.CountingLaws.{CountsUp, IsInBody, IsOutside, LeavesLoop};
ghost use Rattle.fc_image.specs.Head.{Head, has_magic, head_fault, head_rules, stated};
ghost use Rattle.fc_image.specs.Written.{IsHead, KeepsHead, head_bytes, head_of, limit_fault};
ghost use Rattle.fc_image.specs.Laws.{FirstShapeFaultIsFound, ShapeFaultIsFirst, ShapeFaultIsLow};
ghost use Rattle.fc_image.specs.LoopLaws.{LoopsHaveLongestPaths, ShapedLoopsAreLoops};
ghost use Rattle.fc_image.specs.Loops.{disturbs, loop_at};
ghost use Rattle.fc_image.specs.Uncounted.{crosses_by, disturbs_by};
ghost use Rattle.fc_image.specs.declared.loops.Loop.{Loop};
ghost use Rattle.fc_image.specs.declared.uncounted.Disturbance.TheVariants.{Enter, Leave, Skip, Exit as Ends, Write};
ghost use Rattle.fc_image.specs.Paths.{IsLongest, longest};
ghost use Rattle.fc_image.specs.ShapeRules.{IsShaped, flow_rules, shape_fault};
ghost use Rattle.fc_image.specs.Laws.{KeepsLimits};
ghost use Rattle.fc_image.specs.VersionLaws.{call_chain, counted_to};

/// An image whose header breaks no rule is the header and its slots.
///
/// The numbers that the header states are within their limits.
pub fn faultless_head_is_kept(image: &[u8])
    ensures { head_fault image.now ≡ None → KeepsHead image.now }
{}

/// An image whose header breaks no rule begins with that header's encoding.
pub fn read_head_is_written(image: &[u8])
    ensures { head_fault image.now ≡ None → image.now ≡ head_bytes (stated image.now) ++ drop 16 image.now }
{}

/// A program that passes the control-flow checks has a longest path.
///
/// `longest` is the number of steps on that path.
pub fn longest_is_longest()
    ensures { (version : ImageVersion) (code : List Insn) → 0 < length code → is_program code ≡ true → IsShaped version code
        → IsLongest version code (longest version code) }
{}

/// The loops of a program that passes the control-flow checks are well formed.
///
/// Two loops are nested or apart. A path enters a loop by the loop's head, and leaves it by its
/// back jump. Each loop counts up to its bound.
pub fn shaped_loops_are_loops()
    ensures { ShapedLoopsAreLoops }
{}

/// A program with counted loops that passes the checks has a longest path.
///
/// The longest path runs through each body as many times as its loop has iterations.
pub fn longest_path_turns()
    ensures { LoopsHaveLongestPaths }
{}

/// The fault of a program's control flow is the first broken rule.
///
/// The fault's slot is the first that breaks that rule. The rule has a number below 20.
pub fn shape_fault_is_first()
    ensures is_first { ShapeFaultIsFirst }
    ensures only_first { FirstShapeFaultIsFound }
    ensures low { ShapeFaultIsLow }
{}

/// There is no fault exactly if the rules hold and the limits are kept.
///
/// The frames and the longest path are within the limits of the header.
pub fn faultless_shape_is_kept()
    ensures kept { (head : Head) (code : List Insn) → 0 < length code → shape_fault head code ≡ None → KeepsLimits head code }
    ensures only_kept { (head : Head) (code : List Insn) → KeepsLimits head code → shape_fault head code ≡ None }
{}

/// The encoding of a header, followed by its slots, is parsed as that header.
pub fn written_head_is_read()
    ensures faultless { (h : Head) (slots : List ℕ) → IsHead h → length slots ≡ 8 * h.count → head_fault (head_bytes h ++ slots) ≡ None }
    ensures stated { (h : Head) (slots : List ℕ) → IsHead h → stated (head_bytes h ++ slots) ≡ h }
{}

/// Rules are checked in the order of their numbers.
///
/// The rules of a header are 1 to 5, and those of the control flow are 11 to 17.
pub fn rules_come_by_number()
    ensures head { map number_of head_rules ≡ 1 ∷ 2 ∷ 3 ∷ 4 ∷ 5 ∷ [] }
    ensures flow { map number_of flow_rules ≡ 11 ∷ 12 ∷ 13 ∷ 14 ∷ 15 ∷ 16 ∷ 17 ∷ [] }
{}

/// The exact form of a counted loop's back jump.
///
/// The jump is `jlt` of a register and a bound of 1 to 1,024, in 64 bits, and leads to an earlier
/// slot. An `add64` of 1 or more to the same register directly precedes it. No other instruction is
/// a back jump.
pub fn jumps_back_count_up()
    ensures counts { (code : List Insn) (slot : ℕ) (j : Jump) (l : Loop) → CountsUp code slot j l → loop_at code slot (JumpIf j) ≡ Some l }
    ensures only { (code : List Insn) (slot : ℕ) (insn : Insn) (l : Loop) → loop_at code slot insn ≡ Some l
        → (j : Jump) × (insn ≡ JumpIf j) × CountsUp code slot j l }
{}

/// The exact condition under which an instruction doesn't disturb a loop.
///
/// In the body it isn't an exit, and it writes the counter only if it is the addition. It doesn't
/// jump out of the body, into the body from outside, or to the back jump.
pub fn loops_are_left_as_they_are()
    ensures { (l : Loop) (k : ℕ) (insn : Insn) → ((disturbs l k insn ≡ false) ↔ LeavesLoop l k insn) }
{}

/// An instruction that is reported to disturb a loop does so as reported.
///
/// These are the ways in which an instruction disturbs a loop:
///
/// - It writes the counter in the body, and isn't the addition.
/// - It is an exit in the body.
/// - It jumps out of the body.
/// - It jumps into the body from outside.
/// - It jumps past the addition, to the back jump.
pub fn disturbances_are_what_they_say()
    ensures writes { (l : Loop) (k : ℕ) (insn : Insn) → disturbs_by Write l k insn ≡ true
        → IsInBody l k × (writes insn l.counter ≡ true) × (suc k ≢ l.last) }
    ensures exits { (l : Loop) (k : ℕ) (insn : Insn) → disturbs_by Ends l k insn ≡ true → IsInBody l k × (insn ≡ Exit) }
    ensures leaves { (l : Loop) (k t : ℕ) → crosses_by Leave l k (Some t) ≡ true → IsInBody l k × IsOutside l t }
    ensures enters { (l : Loop) (k t : ℕ) → crosses_by Enter l k (Some t) ≡ true → IsOutside l k × IsInBody l t }
    ensures skips { (l : Loop) (k t : ℕ) → crosses_by Skip l k (Some t) ≡ true → t ≡ l.last }
{}

/// The encoding of a header, with example numbers.
///
/// It is the magic, three numbers with the least significant byte first, and four zeros. The size
/// of the variables is in bytes 4 and 5, the number of slots in 6 and 7, and the budget in 8 to 11.
/// In the example these are 24, 258 and 65,536.
pub fn header_bytes_have_their_places()
    ensures written { head_bytes (head_of 24 258 65536 Two) ≡ 70 ∷ 67 ∷ 66 ∷ 50 ∷ 24 ∷ 0 ∷ 2 ∷ 1 ∷ 0 ∷ 0 ∷ 1 ∷ 0 ∷ 0 ∷ 0 ∷ 0 ∷ 0 ∷ [] }
    ensures read { stated (70 ∷ 67 ∷ 66 ∷ 50 ∷ 24 ∷ 0 ∷ 2 ∷ 1 ∷ 0 ∷ 0 ∷ 1 ∷ 0 ∷ 0 ∷ 0 ∷ 0 ∷ 0 ∷ []) ≡ head_of 24 258 65536 Two }
{}

/// The limits of a header's numbers, which rules 2, 3 and 4 check.
///
/// A program of version 1 has 1 to 512 slots, and one of version 2 has 1 to 1,024. The size of the
/// variables is a multiple of 8, and at most 256 bytes. The budget is 1 to 65,536 steps.
pub fn headers_have_limits()
    ensures slots_of_one { (limit_fault (head_of 0 1 1 One) ≡ None) × (limit_fault (head_of 0 512 1 One) ≡ None)
        × (limit_fault (head_of 0 0 1 One) ≡ Some SlotCount) × (limit_fault (head_of 0 513 1 One) ≡ Some SlotCount) }
    ensures slots_of_two { (limit_fault (head_of 0 1 1 Two) ≡ None) × (limit_fault (head_of 0 1024 1 Two) ≡ None)
        × (limit_fault (head_of 0 0 1 Two) ≡ Some SlotCount) × (limit_fault (head_of 0 1025 1 Two) ≡ Some SlotCount) }
    ensures variables { (limit_fault (head_of 8 1 1 One) ≡ None) × (limit_fault (head_of 256 1 1 One) ≡ None)
        × (limit_fault (head_of 12 1 1 One) ≡ Some VarsSize) × (limit_fault (head_of 264 1 1 One) ≡ Some VarsSize) }
    ensures budgets { (limit_fault (head_of 0 1 65536 One) ≡ None) × (limit_fault (head_of 0 1 0 One) ≡ Some Budget)
        × (limit_fault (head_of 0 1 65537 One) ≡ Some Budget) }
{}

#[tactic(auto, unfolding(crate::specs::ShapeRules::shape_fault, crate::specs::ShapeRules::breaks_shape, crate::specs::Paths::longest, crate::specs::Paths::cost_in, crate::specs::Paths::costs, crate::specs::Loops::loops_of, crate::specs::Functions::is_start, crate::specs::Functions::frames))]
/// The limits of the versions: stack frames and loops.
///
/// Version 1 (magic `FCB1`) allows 4 stack frames and no loops; version 2 (`FCB2`) allows 8, and
/// counted loops. Calls that need more frames break rule 15. In version 1 every jump back breaks
/// rule 12. In version 2 a counted loop has a bound of 1 to 1,024, and the steps of its body count
/// once for each iteration.
pub fn versions_have_frames_and_loops()
    ensures magic { ((stated (70 ∷ 67 ∷ 66 ∷ 49 ∷ [])).version ≡ One) × ((stated (70 ∷ 67 ∷ 66 ∷ 50 ∷ [])).version ≡ Two) }
    ensures magics { (has_magic (70 ∷ 67 ∷ 66 ∷ 49 ∷ []) ≡ true) × (has_magic (70 ∷ 67 ∷ 66 ∷ 50 ∷ []) ≡ true) }
    ensures no_other_magic { (has_magic (70 ∷ 67 ∷ 66 ∷ 48 ∷ []) ≡ false) × (has_magic (70 ∷ 67 ∷ 66 ∷ 51 ∷ []) ≡ false) }
    ensures frames_of_one { (shape_fault (head_of 0 8 64 One) (call_chain 4) ≡ None)
        × (shape_fault (head_of 0 10 64 One) (call_chain 5) ≡ Some (0, FrameDepth)) }
    ensures frames_of_two { (shape_fault (head_of 0 16 64 Two) (call_chain 8) ≡ None)
        × (shape_fault (head_of 0 18 64 Two) (call_chain 9) ≡ Some (0, FrameDepth)) }
    ensures no_loops_of_one { shape_fault (head_of 0 5 65536 One) (counted_to 10) ≡ Some (2, BackwardJump) }
    ensures loops_of_two { (shape_fault (head_of 0 5 65536 Two) (counted_to 1) ≡ None)
        × (shape_fault (head_of 0 5 65536 Two) (counted_to 1024) ≡ None) }
    ensures bounds_of_loops { (shape_fault (head_of 0 5 65536 Two) (counted_to 0) ≡ Some (2, BackwardJump))
        × (shape_fault (head_of 0 5 65536 Two) (counted_to 1025) ≡ Some (2, BackwardJump)) }
    ensures steps { (shape_fault (head_of 0 5 23 Two) (counted_to 10) ≡ None)
        × (shape_fault (head_of 0 5 22 Two) (counted_to 10) ≡ Some (0, Cost)) }
{}
