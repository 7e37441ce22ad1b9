// What calls are opened to, worked by hand: the contract of a function that does nothing.
ghost use Rattle.std.specs.Prelude.{◌≡◌, ◌∷◌, [], None};
ghost use Rattle.c65_base.specs.declared.library.Library.TheVariants.{Memcpy, Memset, Strcmp, Strcpy, Strlen, Puts};
ghost use Rattle.c65_mach.specs.declared.rows.Op.TheVariants as ops;
ghost use Rattle.c65_mach.specs.declared.rows.Mode.TheVariants.{Accumulator, Immediate, ZeroPage, IndirectY};
ghost use Rattle.c65_code.specs.declared.line.Operand.TheVariants.{Nothing, Byte, Zero};
ghost use Rattle.c65_code.specs.declared.line.Line.TheVariants.{Do};
ghost use Rattle.c65_code.specs.declared.routine.Routine.TheVariants as routines;
ghost use Rattle.c65_code.specs.declared.routine.UnaryRoutine.TheVariants.{Neg, Shl1, Asr1, BNeg};
ghost use Rattle.c65_code.specs.declared.routine.Width.TheVariants.{Ax, Eax};
ghost use Rattle.c65_code.specs.Effects.{ax};
ghost use Rattle.c65_code.specs.Parts.{all_parts};
ghost use Rattle.c65_optlib.specs.Samples.{made_given, made_long, made_live, replacing, made_known, a_is, x_is, a_at, x_at, replacing_three};
ghost use Rattle.c65_pass.specs.Registers.{alone};
ghost use Rattle.c65_pass.specs.StackRules.{call_of};

/// Calls that are opened, and calls that stay.
pub fn worked_calls()
    ensures loaded { made_given routines.LdAxYSp ≡ replacing (Do ops.Lda IndirectY (Zero 0) ∷ alone ops.Tax ∷ alone ops.Dey ∷ Do ops.Lda IndirectY (Zero 0) ∷ []) }
    ensures index_that_is_read { made_live routines.LdAxYSp ≡ None }
    ensures stored { made_given routines.StAxYSp ≡ replacing (Do ops.Sta IndirectY (Zero 0) ∷ alone ops.Pha ∷ alone ops.Txa ∷ alone ops.Iny ∷ Do ops.Sta IndirectY (Zero 0) ∷ alone ops.Pla ∷ []) }
    ensures doubled { made_given (routines.Unary Shl1 Ax) ≡ replacing (Do ops.Stx ZeroPage (Zero 16) ∷ Do ops.Asl Accumulator Nothing ∷ Do ops.Rol ZeroPage (Zero 16) ∷ Do ops.Ldx ZeroPage (Zero 16) ∷ []) }
    ensures halved_signed { made_given (routines.Unary Asr1 Ax) ≡ replacing (Do ops.Cpx Immediate (Byte 128) ∷ Do ops.Stx ZeroPage (Zero 16) ∷ Do ops.Ror ZeroPage (Zero 16) ∷ Do ops.Ror Accumulator Nothing ∷ Do ops.Ldx ZeroPage (Zero 16) ∷ []) }
    ensures sreg_that_is_read { made_long (routines.Unary Shl1 Ax) ≡ None }
    ensures long_minus { made_given (routines.Unary Neg Eax) ≡ None }
    ensures tested { made_given (routines.Unary BNeg Ax) ≡ None }
    ensures pushed { made_given routines.PushAx ≡ None }
{}

/// Calls with literals, and calls that stay.
pub fn worked_texts()
    ensures measured { made_known ax (x_at 3 0) (a_at 3 0) Strlen ≡ replacing_three (x_is 0 ∷ a_is 3 ∷ []) }
    ensures measured_to_a_zero { made_known ax (a_at 7 0) (x_at 7 0) Strlen ≡ replacing_three (x_is 0 ∷ a_is 1 ∷ []) }
    ensures no_literal { made_known ax (x_at 4 0) (a_at 4 0) Strlen ≡ None }
    ensures within_a_literal { made_known ax (x_at 3 1) (a_at 3 1) Strlen ≡ None }
    ensures two_literals { made_known ax (x_at 3 0) (a_at 5 0) Strlen ≡ None }
    ensures swapped_halves { made_known ax (x_is 0) (a_at 3 0) Strlen ≡ None }
    ensures index_that_is_read { made_known all_parts (x_at 3 0) (a_at 3 0) Strlen ≡ None }
    ensures printed { made_known ax (x_at 3 0) (a_at 3 0) Puts ≡ None }
    ensures copied { made_known ax (x_at 7 0) (a_at 7 0) Strcpy ≡ replacing_three (x_at 7 0 ∷ a_at 7 0 ∷ Do ops.Sta ZeroPage (Zero 8) ∷ Do ops.Stx ZeroPage (Zero 9) ∷ call_of routines.PopAx ∷ Do ops.Sta ZeroPage (Zero 10) ∷ Do ops.Stx ZeroPage (Zero 11) ∷ Do ops.Ldy Immediate (Byte 0) ∷ Do ops.Lda IndirectY (Zero 8) ∷ Do ops.Sta IndirectY (Zero 10) ∷ alone ops.Iny ∷ Do ops.Lda IndirectY (Zero 8) ∷ Do ops.Sta IndirectY (Zero 10) ∷ Do ops.Lda ZeroPage (Zero 10) ∷ Do ops.Ldx ZeroPage (Zero 11) ∷ []) }
    ensures compared { made_known ax (x_at 5 0) (a_at 5 0) Strcmp ≡ replacing_three (call_of routines.PopAx ∷ Do ops.Sta ZeroPage (Zero 8) ∷ Do ops.Stx ZeroPage (Zero 9) ∷ Do ops.Ldy Immediate (Byte 0) ∷ Do ops.Lda IndirectY (Zero 8) ∷ Do ops.Ldx Immediate (Byte 0) ∷ []) }
    ensures compared_with_a_letter { made_known ax (x_at 3 0) (a_at 3 0) Strcmp ≡ None }
{}

/// Calls with numbers of bytes, and calls that stay.
pub fn worked_bytes()
    ensures copied { made_known ax (x_is 0) (a_is 2) Memcpy ≡ replacing_three (call_of routines.PopPtrs ∷ Do ops.Ldy Immediate (Byte 0) ∷ Do ops.Lda IndirectY (Zero 8) ∷ Do ops.Sta IndirectY (Zero 10) ∷ alone ops.Iny ∷ Do ops.Lda IndirectY (Zero 8) ∷ Do ops.Sta IndirectY (Zero 10) ∷ Do ops.Lda ZeroPage (Zero 10) ∷ Do ops.Ldx ZeroPage (Zero 11) ∷ []) }
    ensures filled { made_known ax (a_is 3) (x_is 0) Memset ≡ replacing_three (call_of routines.PopPtrs ∷ Do ops.Ldy Immediate (Byte 0) ∷ Do ops.Lda ZeroPage (Zero 8) ∷ Do ops.Sta IndirectY (Zero 10) ∷ alone ops.Iny ∷ Do ops.Sta IndirectY (Zero 10) ∷ alone ops.Iny ∷ Do ops.Sta IndirectY (Zero 10) ∷ Do ops.Lda ZeroPage (Zero 10) ∷ Do ops.Ldx ZeroPage (Zero 11) ∷ []) }
    ensures none { made_known ax (x_is 0) (a_is 0) Memcpy ≡ None }
    ensures nine { made_known ax (x_is 0) (a_is 9) Memcpy ≡ None }
    ensures many { made_known ax (x_is 1) (a_is 2) Memset ≡ None }
    ensures pointer_that_is_read { made_known all_parts (x_is 0) (a_is 2) Memset ≡ None }
{}
