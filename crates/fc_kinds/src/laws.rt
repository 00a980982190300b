//! Laws about abstract values, for the crates above.
//!
//! Each law is the contract of an empty function.
ghost use Rattle.std.specs.List.{list_any};
ghost use Rattle.std.specs.Prelude.{List, None, Some, [], false, length, map, negsuc, pos, replicate, true, ℕ, ℤ, ◌*◌, ◌++◌, ◌+◌, ◌-◌, ◌<◌, ◌==◌, ◌^◌, ◌∷◌, ◌≡◌, ◌≤◌};
ghost use Rattle.fc_isa.specs.Program.{IsInsn};
ghost use Rattle.fc_isa.specs.declared.insn.Insn.{Insn};
ghost use Rattle.fc_isa.specs.declared.insn.Insn.TheVariants.{CallHelper};
ghost use Rattle.fc_isa.specs.declared.version.ImageVersion.TheVariants.{One, Two};
ghost use Rattle.fc_help.specs.Helpers.{helper_of, room_of, signature_of};
ghost use Rattle.fc_help.specs.declared.helper.Arguments.TheVariants.{Bytes, NoArgument, OneNumber, TwoNumbers};
ghost use Rattle.fc_help.specs.declared.helper.Helper.{Helper};
ghost use Rattle.fc_help.specs.declared.helper.Helper.TheVariants.{Notify, PayloadByte, PayloadLen, ReplyByte, ReplyPut, VarGet, VarPut};
ghost use Rattle.fc_help.specs.declared.request.Method.{Method};
ghost use Rattle.fc_help.specs.declared.request.Method.TheVariants.{Get, Post};
ghost use Rattle.fc_kinds.specs.Entry.{entry};
ghost use Rattle.fc_kinds.specs.Kinds.{Within};
ghost use Rattle.fc_kinds.specs.Containing.{Holds};
ghost use Rattle.fc_kinds.specs.Execution.{ArgumentValues, Config, HelperEffect, act, after_effect, argument_values, byte_values, helper_effect, returned_number};
ghost use Rattle.fc_kinds.specs.Lattice.{joined};
ghost use Rattle.fc_kinds.specs.Containing.{AreKinds};
ghost use Rattle.fc_kinds.specs.Laws.{CallsContainTheStep, EffectsAreMonotone, EffectsContainTheStep, ExitsContainTheStep, RefinementIsMonotone, RefinementKeepsWhatTakesTheWay, WaysRaiseByOne};
ghost use Rattle.fc_kinds.specs.Meaning.{Input, Meaning, Means, Program, meant, reply_code, start};
ghost use Rattle.fc_kinds.specs.Runnable.{is_reply_code};
ghost use Rattle.fc_kinds.specs.Transfer.{are_arguments, enter, transfer};
ghost use Rattle.fc_kinds.specs.Containing.{AreShallow};
ghost use Rattle.fc_kinds.specs.Values.{Asked, Frame, Number, Pointer, Readings, Unset as NoValue, Value, Variables, value_at};
ghost use Rattle.fc_kinds.specs.declared.kind.Kind.{Kind as What};
ghost use Rattle.fc_kinds.specs.declared.kind.Kind.TheVariants.{Dev, Num, Req, Stack, Unset, Vars};

/// Containment of abstract states is reflexive and transitive.
///
/// The values in a state are also in each wider state.
pub fn containment_is_an_order()
    ensures same { (ks : List What) → Within ks ks }
    ensures then { (a b c : List What) → Within a b → Within b c → Within a c }
    ensures values { (depth : ℕ) (ks wider : List What) (vs : List Value) → Within ks wider → Holds depth ks vs → Holds depth wider vs }
{}

/// A join is the least abstract state that contains both states.
///
/// If in both states each abstract value contains some value of its form, so does each abstract
/// value of the join.
pub fn joins_are_least()
    ensures left { (a b : List What) → Within a (joined a b) }
    ensures right { (a b : List What) → Within b (joined a b) }
    ensures least { (a b c : List What) → Within a c → Within b c → Within (joined a b) c }
    ensures kinds { (a b : List What) → AreKinds a → AreKinds b → AreKinds (joined a b) }
{}

/// Transfer functions are monotone.
///
/// If an instruction's preconditions hold in a wider state, they hold in a narrower one. The state
/// after the instruction is then narrower too.
pub fn effects_are_monotone()
    ensures { EffectsAreMonotone }
{}

/// The transfer function keeps abstract states well formed.
///
/// If each abstract value before an instruction contains some value of its form, so does each
/// abstract value after it.
pub fn effects_keep_kinds()
    ensures { (vars : ℕ) (insn : Insn) (ks ls : List What) → IsInsn insn → AreKinds ks → transfer vars insn ks ≡ Some ls → AreKinds ls }
{}

/// Branch refinement is monotone.
///
/// A branch that is possible in a narrower state is possible in a wider one, and has a wider state
/// there.
pub fn refinement_is_monotone()
    ensures { RefinementIsMonotone }
{}

/// The state at a callee's start is monotone in its caller's state.
pub fn entering_is_monotone()
    ensures { (ks wider : List What) → Within ks wider → Within (enter ks) (enter wider) }
{}

/// On an instruction's branches the levels of stack frames grow by at most one.
///
/// A join raises no level.
pub fn ways_raise_by_one()
    ensures ways { WaysRaiseByOne }
    ensures join { (top : ℕ) (a b : List What) → AreShallow top a → AreShallow top b → AreShallow top (joined a b) }
{}

/// The transfer function is sound for all instructions except calls and exits.
///
/// If the state contains the registers' values and the preconditions hold, the instruction has a
/// step. The step follows a branch whose state contains the new values, and the regions keep their
/// sizes. The law says nothing about local calls and exits.
pub fn effects_contain_the_step()
    ensures { EffectsContainTheStep }
{}

/// The abstract call entry is sound.
///
/// If the state contains the registers' values, and there are fewer than eight frames, a local call
/// has a step. The step enters the function with the state of `enter`, and the caller waits.
pub fn calls_contain_the_step()
    ensures { CallsContainTheStep }
{}

/// The transfer function is sound for exits to a caller.
///
/// If the state contains the registers' values, the exit's preconditions hold, and a caller waits,
/// the exit has a step. The step returns to the caller, and the state after the call contains the
/// registers' values.
pub fn exits_contain_the_step()
    ensures { ExitsContainTheStep }
{}

/// Branch refinement is sound.
///
/// If the state contains the values, the branch that a conditional jump takes is possible, and the
/// branch's state contains the values.
pub fn refinement_keeps_what_takes_the_way()
    ensures { RefinementKeepsWhatTakesTheWay }
{}

/// A run has at most one meaning.
pub fn runs_have_one_meaning()
    ensures { (p : Program) (input : Input) (m n : Meaning) → Means p input m → Means p input n → m ≡ n }
{}

/// A program's meaning is that of its run, if the run exits within the budget.
pub fn programs_mean_what_runs_show()
    ensures { (p : Program) (input : Input) (m : Meaning) (w : Means p input m) → w.count ≤ p.budget → meant p input ≡ m }
{}

/// The code of a reply is an allowed code, whatever R0 is at the exit.
///
/// The allowed codes are the success of the request's method (2.05 for a GET, 2.04 for a POST),
/// 4.00, 4.03, 4.04 and 5.00.
pub fn reply_codes_are_known()
    ensures { (method : Method) (n : ℕ) → is_reply_code method (reply_code method n) ≡ true }
{}

/// A program can return one of four codes, and every other number gives 5.00.
///
/// R0 at the exit is the code. It may be 69 (2.05 Content) for a GET, and 68 (2.04 Changed) for a
/// POST. For both it may be 128 (4.00 Bad Request), 131 (4.03 Forbidden) or 132 (4.04 Not Found). 0
/// means the method's success. Any other number gives 160 (5.00 Internal Server Error; RFC 7252,
/// section 12.1.2).
pub fn answers_are_let_through()
    ensures success { (reply_code Get 0 ≡ 69) × (reply_code Post 0 ≡ 68) }
    ensures to_a_get { map (reply_code Get) (69 ∷ 128 ∷ 131 ∷ 132 ∷ []) ≡ 69 ∷ 128 ∷ 131 ∷ 132 ∷ [] }
    ensures to_a_post { map (reply_code Post) (68 ∷ 128 ∷ 131 ∷ 132 ∷ []) ≡ 68 ∷ 128 ∷ 131 ∷ 132 ∷ [] }
    ensures no_others_to_a_get { (n : ℕ) → list_any (λ code. n == code) (0 ∷ 69 ∷ 128 ∷ 131 ∷ 132 ∷ []) ≡ false → reply_code Get n ≡ 160 }
    ensures no_others_to_a_post { (n : ℕ) → list_any (λ code. n == code) (0 ∷ 68 ∷ 128 ∷ 131 ∷ 132 ∷ []) ≡ false → reply_code Post n ≡ 160 }
{}

/// At the entry R1, R2, R3 and R10 are set, and in version 2 also R4.
///
/// R1 points to the request, R2 to the variables, R10 to the end of a stack frame of 256 bytes, and
/// R4 to the readings. R3 is the length of the payload, 0 to 1,024. All other registers are unset.
pub fn registers_are_known_at_the_entry()
    ensures one { entry One ≡ Unset ∷ Req (pos 0) (pos 0) ∷ Vars (pos 0) (pos 0) ∷ Num 0 1024 ∷ Unset ∷ Unset
        ∷ Unset ∷ Unset ∷ Unset ∷ Unset ∷ Stack 0 (pos 256) (pos 256) ∷ [] }
    ensures two { entry Two ≡ Unset ∷ Req (pos 0) (pos 0) ∷ Vars (pos 0) (pos 0) ∷ Num 0 1024 ∷ Dev (pos 0) (pos 0) ∷ Unset
        ∷ Unset ∷ Unset ∷ Unset ∷ Unset ∷ Stack 0 (pos 256) (pos 256) ∷ [] }
    ensures runs_of_one { (input : Input) → (start One input).regs ≡ NoValue ∷ Pointer Asked (pos 0) ∷ Pointer Variables (pos 0)
        ∷ Number (length input.request.payload) ∷ NoValue ∷ NoValue
        ∷ NoValue ∷ NoValue ∷ NoValue ∷ NoValue ∷ Pointer (Frame 0) (pos 256) ∷ [] }
    ensures runs_of_two { (input : Input) → (start Two input).regs ≡ NoValue ∷ Pointer Asked (pos 0) ∷ Pointer Variables (pos 0)
        ∷ Number (length input.request.payload) ∷ Pointer Readings (pos 0) ∷ NoValue
        ∷ NoValue ∷ NoValue ∷ NoValue ∷ NoValue ∷ Pointer (Frame 0) (pos 256) ∷ [] }
{}

/// The effects of the helpers, in literals.
///
/// `payload_len` returns the payload's length. `payload_byte` returns 200 for byte 1 of the bytes 7
/// and 200, and 2^64 - 1 past the payload's end. `var_get` returns 513 for word 1 of the variables
/// if their bytes 8 to 15 are 1, 2 and six zeros. `var_put` of 513 returns 1 and writes these
/// bytes. Past the last word both return 0 and change nothing. `reply_put` returns 1 and appends
/// its bytes. If the reply would then be too long, `reply_put` returns 0 and appends nothing. A
/// reply to a GET has at most 4,096 bytes, and a reply to a POST at most 1,024. A put of no bytes
/// returns 1 even if the reply is full. `reply_byte` of 321 appends the byte 65. `notify` returns 0
/// and sets the notify flag.
pub fn helpers_have_their_effects()
    ensures payload_len { (c : Config) (a : ArgumentValues)
        → helper_effect c PayloadLen a ≡ returned_number c (length c.request.payload) }
    ensures payload_byte { (c : Config) (a : ArgumentValues) → c.request.payload ≡ 7 ∷ 200 ∷ [] → a.first ≡ 1
        → helper_effect c PayloadByte a ≡ returned_number c 200 }
    ensures no_payload_byte { (c : Config) (a : ArgumentValues) → length c.request.payload ≤ a.first
        → helper_effect c PayloadByte a ≡ returned_number c (2 ^ 64 - 1) }
    ensures var_get { (c : Config) (a : ArgumentValues) → c.vars ≡ replicate 8 9 ++ (1 ∷ 2 ∷ replicate 6 0) → a.first ≡ 1
        → helper_effect c VarGet a ≡ returned_number c 513 }
    ensures no_word { (c : Config) (a : ArgumentValues) → length c.vars < 8 * a.first + 8
        → helper_effect c VarGet a ≡ returned_number c 0 }
    ensures var_put { (c : Config) (a : ArgumentValues) → c.vars ≡ replicate 16 9 → a.first ≡ 1 → a.second ≡ 513
        → helper_effect c VarPut a ≡ record (returned_number c 1) { vars = replicate 8 9 ++ (1 ∷ 2 ∷ replicate 6 0) } }
    ensures no_word_to_set { (c : Config) (a : ArgumentValues) → length c.vars < 8 * a.first + 8
        → helper_effect c VarPut a ≡ returned_number c 0 }
    ensures reply_to_get { (c : Config) (a : ArgumentValues) → c.request.method ≡ Get → length c.reply + length a.bytes ≤ 4096
        → helper_effect c ReplyPut a ≡ record (returned_number c 1) { reply = c.reply ++ a.bytes } }
    ensures no_room_for_get { (c : Config) (a : ArgumentValues) → c.request.method ≡ Get → 4096 < length c.reply + length a.bytes
        → helper_effect c ReplyPut a ≡ returned_number c 0 }
    ensures reply_to_post { (c : Config) (a : ArgumentValues) → c.request.method ≡ Post → length c.reply + length a.bytes ≤ 1024
        → helper_effect c ReplyPut a ≡ record (returned_number c 1) { reply = c.reply ++ a.bytes } }
    ensures no_room_for_post { (c : Config) (a : ArgumentValues) → c.request.method ≡ Post → 1024 < length c.reply + length a.bytes
        → helper_effect c ReplyPut a ≡ returned_number c 0 }
    ensures no_bytes { (c : Config) (a : ArgumentValues) → a.bytes ≡ [] → length c.reply ≤ room_of c.request.method
        → helper_effect c ReplyPut a ≡ returned_number c 1 }
    ensures reply_byte { (c : Config) (a : ArgumentValues) → a.first ≡ 321
        → helper_effect c ReplyByte a ≡ helper_effect c ReplyPut (byte_values (65 ∷ [])) }
    ensures notify { (c : Config) (a : ArgumentValues) → helper_effect c Notify a ≡ record (returned_number c 0) { notice = true } }
{}

/// A helper changes at most one of the variables, the reply and the notify flag.
///
/// `payload_len`, `payload_byte` and `var_get` change nothing, and `var_put` changes the variables
/// alone. `reply_put` and `reply_byte` change the reply alone, and `notify` the notify flag alone.
pub fn helpers_change_little()
    ensures number { (c : Config) (n : ℕ)
        → returned_number c n ≡ record { result = n; vars = c.vars; reply = c.reply; notice = c.notice } }
    ensures payload_len { (c : Config) (a : ArgumentValues) → let e = helper_effect c PayloadLen a in
        (e.vars ≡ c.vars) × (e.reply ≡ c.reply) × (e.notice ≡ c.notice) }
    ensures payload_byte { (c : Config) (a : ArgumentValues) → let e = helper_effect c PayloadByte a in
        (e.vars ≡ c.vars) × (e.reply ≡ c.reply) × (e.notice ≡ c.notice) }
    ensures var_get { (c : Config) (a : ArgumentValues) → let e = helper_effect c VarGet a in
        (e.vars ≡ c.vars) × (e.reply ≡ c.reply) × (e.notice ≡ c.notice) }
    ensures var_put { (c : Config) (a : ArgumentValues) → let e = helper_effect c VarPut a in
        (e.reply ≡ c.reply) × (e.notice ≡ c.notice) }
    ensures reply_put { (c : Config) (a : ArgumentValues) → let e = helper_effect c ReplyPut a in
        (e.vars ≡ c.vars) × (e.notice ≡ c.notice) }
    ensures reply_byte { (c : Config) (a : ArgumentValues) → let e = helper_effect c ReplyByte a in
        (e.vars ≡ c.vars) × (e.notice ≡ c.notice) }
    ensures notify { (c : Config) (a : ArgumentValues) → let e = helper_effect c Notify a in
        (e.vars ≡ c.vars) × (e.reply ≡ c.reply) }
{}

/// A helper's arguments are in R1, in R1 and R2, or at the pointer in R1.
///
/// A pointer's bytes are as many as R2 says, and all of them exist. A call sets R0 to the result
/// and unsets R1 to R5. R6 to R10, the callers, the frames, the request and the readings don't
/// change. The next slot follows, and a call is one step.
pub fn helper_calls_have_their_registers()
    ensures no_argument { (c : Config) → argument_values c NoArgument ≡ Some (record { first = 0; second = 0; bytes = [] }) }
    ensures one_number { (c : Config) (x : ℕ) → value_at c.regs 1 ≡ Number x
        → argument_values c OneNumber ≡ Some (record { first = x; second = 0; bytes = [] }) }
    ensures two_numbers { (c : Config) (x y : ℕ) → value_at c.regs 1 ≡ Number x → value_at c.regs 2 ≡ Number y
        → argument_values c TwoNumbers ≡ Some (record { first = x; second = y; bytes = [] }) }
    ensures bytes { (c : Config) → c.vars ≡ 1 ∷ 2 ∷ 3 ∷ 4 ∷ 5 ∷ []
        → value_at c.regs 1 ≡ Pointer Variables (pos 3) → value_at c.regs 2 ≡ Number 2
        → argument_values c Bytes ≡ Some (record { first = 0; second = 0; bytes = 4 ∷ 5 ∷ [] }) }
    ensures too_many_bytes { (c : Config) → c.vars ≡ 1 ∷ 2 ∷ 3 ∷ 4 ∷ 5 ∷ []
        → value_at c.regs 1 ≡ Pointer Variables (pos 3) → value_at c.regs 2 ≡ Number 3
        → argument_values c Bytes ≡ None }
    ensures unset { (c : Config) → value_at c.regs 1 ≡ NoValue
        → (argument_values c OneNumber ≡ None) × (argument_values c TwoNumbers ≡ None) }
    ensures no_count { (c : Config) → value_at c.regs 2 ≡ NoValue → argument_values c Bytes ≡ None }
    ensures call { (c : Config) (n : ℤ) (helper : Helper) (a : ArgumentValues) → helper_of n ≡ Some helper
        → argument_values c (signature_of helper).arguments ≡ Some a
        → act (CallHelper n) c ≡ Some (after_effect c (helper_effect c helper a)) }
    ensures registers { (c : Config) (e : HelperEffect) (r0 r1 r2 r3 r4 r5 r6 r7 r8 r9 r10 : Value)
        → c.regs ≡ r0 ∷ r1 ∷ r2 ∷ r3 ∷ r4 ∷ r5 ∷ r6 ∷ r7 ∷ r8 ∷ r9 ∷ r10 ∷ []
        → (after_effect c e).regs ≡ Number e.result ∷ NoValue ∷ NoValue ∷ NoValue ∷ NoValue ∷ NoValue
        ∷ r6 ∷ r7 ∷ r8 ∷ r9 ∷ r10 ∷ [] }
    ensures effect { (c : Config) (e : HelperEffect)
        → ((after_effect c e).vars ≡ e.vars) × ((after_effect c e).reply ≡ e.reply) × ((after_effect c e).notice ≡ e.notice) }
    ensures one_step { (c : Config) (e : HelperEffect) → ((after_effect c e).place ≡ c.place + 1)
        × ((after_effect c e).steps ≡ c.steps + 1) }
    ensures rest { (c : Config) (e : HelperEffect) → ((after_effect c e).callers ≡ c.callers) × ((after_effect c e).frames ≡ c.frames)
        × ((after_effect c e).request ≡ c.request) × ((after_effect c e).readings ≡ c.readings) }
{}

/// The bounds of helpers' arguments, in literals.
///
/// An argument that is a number must be known to be one. Bytes at a pointer must lie in its region
/// for each pointer and each number that R1 and R2 may be. The request has 1,104 bytes, a stack
/// frame 256, and the readings 64.
pub fn arguments_have_their_bounds()
    ensures request { map (λ hi. are_arguments 0 Bytes (Unset ∷ Req (pos 0) (pos 0) ∷ Num 0 hi ∷ []))
        (0 ∷ 1104 ∷ 1105 ∷ []) ≡ true ∷ true ∷ false ∷ [] }
    ensures variables { map (λ hi. are_arguments 16 Bytes (Unset ∷ Vars (pos 0) (pos 0) ∷ Num 0 hi ∷ []))
        (0 ∷ 16 ∷ 17 ∷ []) ≡ true ∷ true ∷ false ∷ [] }
    ensures no_variables { map (λ hi. are_arguments 0 Bytes (Unset ∷ Vars (pos 0) (pos 0) ∷ Num 0 hi ∷ []))
        (0 ∷ 1 ∷ []) ≡ true ∷ false ∷ [] }
    ensures readings { map (λ hi. are_arguments 0 Bytes (Unset ∷ Dev (pos 0) (pos 0) ∷ Num 0 hi ∷ []))
        (0 ∷ 64 ∷ 65 ∷ []) ≡ true ∷ true ∷ false ∷ [] }
    ensures frame { map (λ hi. are_arguments 0 Bytes (Unset ∷ Stack 0 (pos 0) (pos 0) ∷ Num 0 hi ∷ []))
        (0 ∷ 256 ∷ 257 ∷ []) ≡ true ∷ true ∷ false ∷ [] }
    ensures later { map (λ hi. are_arguments 0 Bytes (Unset ∷ Req (pos 0) (pos 4) ∷ Num 0 hi ∷ []))
        (1100 ∷ 1101 ∷ []) ≡ true ∷ false ∷ [] }
    ensures earlier { are_arguments 0 Bytes (Unset ∷ Req (negsuc 0) (pos 0) ∷ Num 0 0 ∷ []) ≡ false }
    ensures no_pointer { map (λ kind. are_arguments 0 Bytes (Unset ∷ kind ∷ Num 0 0 ∷ []))
        (Unset ∷ Num 0 0 ∷ []) ≡ false ∷ false ∷ [] }
    ensures no_count { map (λ kind. are_arguments 0 Bytes (Unset ∷ Req (pos 0) (pos 0) ∷ kind ∷ []))
        (Unset ∷ Req (pos 0) (pos 0) ∷ []) ≡ false ∷ false ∷ [] }
    ensures no_argument { are_arguments 0 NoArgument [] ≡ true }
    ensures one_number { map (λ kind. are_arguments 0 OneNumber (Unset ∷ kind ∷ Unset ∷ []))
        (Num 0 (2 ^ 64 - 1) ∷ Unset ∷ Req (pos 0) (pos 0) ∷ []) ≡ true ∷ false ∷ false ∷ [] }
    ensures first_of_two { map (λ kind. are_arguments 0 TwoNumbers (Unset ∷ kind ∷ Num 0 1 ∷ []))
        (Num 0 (2 ^ 64 - 1) ∷ Unset ∷ Req (pos 0) (pos 0) ∷ []) ≡ true ∷ false ∷ false ∷ [] }
    ensures second_of_two { map (λ kind. are_arguments 0 TwoNumbers (Unset ∷ Num 0 1 ∷ kind ∷ []))
        (Num 0 (2 ^ 64 - 1) ∷ Unset ∷ Req (pos 0) (pos 0) ∷ []) ≡ true ∷ false ∷ false ∷ [] }
{}
