// What the rules make of lines, worked by hand: the contract of a function that does nothing.
ghost use Rattle.std.specs.Prelude.{◌≡◌, ◌∷◌, [], None};
ghost use Rattle.c65_mach.specs.declared.rows.Op.TheVariants as ops;
ghost use Rattle.c65_code.specs.declared.routine.Count.TheVariants as counts;
ghost use Rattle.c65_code.specs.declared.routine.Routine.TheVariants as routines;
ghost use Rattle.c65_code.specs.declared.routine.TosOp.TheVariants as tos;
ghost use Rattle.c65_code.specs.declared.routine.Width.TheVariants.{Ax, Eax};
ghost use Rattle.c65_optstack.specs.Samples.{made_given, made_long, made_live, replacing, of_byte, stacked, by_bytes_of};
ghost use Rattle.c65_pass.specs.Registers.{alone};
ghost use Rattle.c65_pass.specs.StackRules.{call_of};

/// Each rule on lines where it matches and on lines where it does not.
pub fn worked_rules()
    ensures taken_back { made_given 33 (call_of routines.PushAx ∷ call_of routines.PopAx ∷ []) ≡ replacing 2 [] }
    ensures flags_that_are_read { made_live 33 (call_of routines.PushAx ∷ call_of routines.PopAx ∷ []) ≡ None }
    ensures byte_of_a_word { made_given 33 (call_of routines.PushAx ∷ call_of routines.PopA ∷ []) ≡ None }
    ensures moved_at_once { made_given 34 (call_of (routines.IncSp counts.Three) ∷ call_of (routines.IncSp counts.Five) ∷ []) ≡ replacing 2 (call_of (routines.IncSp counts.Eight) ∷ []) }
    ensures sum_of_nine { made_given 34 (call_of (routines.DecSp counts.Four) ∷ call_of (routines.DecSp counts.Five) ∷ []) ≡ None }
    ensures up_and_down { made_given 34 (call_of (routines.IncSp counts.One) ∷ call_of (routines.DecSp counts.One) ∷ []) ≡ None }
    ensures raised { made_given 35 (of_byte ops.Ldy 1 ∷ call_of routines.AddYSp ∷ []) ≡ replacing 2 (call_of (routines.IncSp counts.One) ∷ []) }
    ensures lowered { made_given 35 (of_byte ops.Ldy 8 ∷ call_of routines.SubYSp ∷ []) ≡ replacing 2 (call_of (routines.DecSp counts.Eight) ∷ []) }
    ensures not_moved { made_given 35 (of_byte ops.Ldy 0 ∷ call_of routines.AddYSp ∷ []) ≡ None }
    ensures moved_far { made_given 35 (of_byte ops.Ldy 9 ∷ call_of routines.AddYSp ∷ []) ≡ None }
    ensures zero_above { made_given 36 (of_byte ops.Ldx 0 ∷ call_of routines.PushAx ∷ []) ≡ replacing 2 (call_of routines.PushA0 ∷ []) }
    ensures one_above { made_given 36 (of_byte ops.Ldx 1 ∷ call_of routines.PushAx ∷ []) ≡ None }
    ensures zero_word { made_given 36 (of_byte ops.Lda 0 ∷ call_of routines.PushA0 ∷ []) ≡ replacing 2 (call_of routines.Push0 ∷ []) }
    ensures loaded_at_sp { made_given 37 (of_byte ops.Ldy 1 ∷ call_of routines.LdAxYSp ∷ []) ≡ replacing 2 (call_of routines.LdAx0Sp ∷ []) }
    ensures loaded_above { made_given 37 (of_byte ops.Ldy 2 ∷ call_of routines.LdAxYSp ∷ []) ≡ None }
    ensures stored_at_sp { made_given 37 (of_byte ops.Ldy 0 ∷ call_of routines.StAxYSp ∷ []) ≡ replacing 2 (call_of routines.StAx0Sp ∷ []) }
    ensures sum { made_given 38 (stacked tos.Add) ≡ replacing 4 (alone ops.Clc ∷ by_bytes_of ops.Adc) }
    ensures difference { made_given 38 (stacked tos.Sub) ≡ replacing 4 (alone ops.Sec ∷ by_bytes_of ops.Sbc) }
    ensures masked { made_given 38 (call_of routines.PushAx ∷ of_byte ops.Lda 2 ∷ of_byte ops.Ldx 1 ∷ call_of (routines.Tos tos.And Ax) ∷ []) ≡ replacing 4 (by_bytes_of ops.And) }
    ensures joined { made_given 38 (stacked tos.Or) ≡ replacing 4 (by_bytes_of ops.Ora) }
    ensures unlike { made_given 38 (stacked tos.Xor) ≡ replacing 4 (by_bytes_of ops.Eor) }
    ensures product { made_given 38 (stacked tos.Mul) ≡ None }
    ensures long_sum { made_given 38 (call_of routines.PushAx ∷ of_byte ops.Ldx 1 ∷ of_byte ops.Lda 2 ∷ call_of (routines.Tos tos.Add Eax) ∷ []) ≡ None }
    ensures sreg_that_is_read { made_long 38 (stacked tos.Add) ≡ None }
{}
