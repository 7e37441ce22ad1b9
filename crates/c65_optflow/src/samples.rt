// What the rules make of lines, worked by hand: the contract of a function that does nothing.
ghost use Rattle.std.specs.Prelude.{◌≡◌, ◌∷◌, [], None};
ghost use Rattle.c65_mach.specs.declared.rows.Op.TheVariants as ops;
ghost use Rattle.c65_mach.specs.declared.rows.Mode.TheVariants.{Immediate};
ghost use Rattle.c65_code.specs.declared.line.Operand.TheVariants.{Byte};
ghost use Rattle.c65_code.specs.declared.line.Line.TheVariants.{Label, Do};
ghost use Rattle.c65_optflow.specs.Samples.{made, replacing, step, jump, branch, load, ends, chain, passed_load};

/// Each rule at a place where it matches and at one where it does not, and a jump over a load that goes in three steps.
pub fn worked_rules()
    ensures idle_jump { made 1 (jump 1 ∷ Label 2 ∷ Label 1 ∷ ends ∷ []) 0 ≡ replacing 0 1 [] }
    ensures far_jump { made 1 (jump 1 ∷ load 1 ∷ Label 1 ∷ ends ∷ []) 0 ≡ None }
    ensures idle_branch { made 2 (branch ops.Bcs 1 ∷ Label 1 ∷ ends ∷ []) 0 ≡ replacing 0 1 [] }
    ensures far_branch { made 2 (branch ops.Bcs 1 ∷ load 1 ∷ Label 1 ∷ ends ∷ []) 0 ≡ None }
    ensures unreached { made 3 (ends ∷ load 1 ∷ ends ∷ []) 0 ≡ replacing 0 2 (ends ∷ []) }
    ensures reached { made 3 (ends ∷ Label 1 ∷ ends ∷ []) 0 ≡ None }
    ensures long_jump { made 4 (jump 1 ∷ chain) 0 ≡ replacing 0 1 (jump 4 ∷ []) }
    ensures turning_jump { made 4 (jump 1 ∷ Label 1 ∷ jump 1 ∷ []) 0 ≡ None }
    ensures long_branch { made 5 (branch ops.Bmi 3 ∷ chain) 0 ≡ replacing 0 1 (branch ops.Bmi 4 ∷ []) }
    ensures short_branch { made 5 (branch ops.Bmi 4 ∷ chain) 0 ≡ None }
    ensures round_branch { made 6 (branch ops.Bvc 1 ∷ jump 2 ∷ Label 1 ∷ load 1 ∷ Label 2 ∷ ends ∷ []) 0 ≡ replacing 0 2 (branch ops.Bvs 2 ∷ []) }
    ensures other_branch { made 6 (branch ops.Bvc 2 ∷ jump 2 ∷ Label 1 ∷ load 1 ∷ Label 2 ∷ ends ∷ []) 0 ≡ None }
    ensures unused_label { made 7 (Label 1 ∷ ends ∷ []) 0 ≡ replacing 0 1 [] }
    ensures used_label { made 7 (Label 1 ∷ branch ops.Bpl 1 ∷ ends ∷ []) 0 ≡ None }
    ensures passed_branch { made 8 (load 0 ∷ branch ops.Bne 1 ∷ load 1 ∷ Label 1 ∷ ends ∷ []) 1 ≡ replacing 1 1 [] }
    ensures unknown_branch { made 8 (load 0 ∷ branch ops.Bcc 1 ∷ load 1 ∷ Label 1 ∷ ends ∷ []) 1 ≡ None }
    ensures passed_over { made 9 (load 0 ∷ branch ops.Beq 1 ∷ load 1 ∷ Label 1 ∷ ends ∷ []) 1 ≡ replacing 1 2 (branch ops.Beq 1 ∷ []) }
    ensures last_line { made 9 (Label 1 ∷ load 0 ∷ branch ops.Beq 1 ∷ ends ∷ []) 2 ≡ None }
    ensures three_steps { step 7 (step 1 (step 3 passed_load)) ≡ load 2 ∷ Do ops.Ldx Immediate (Byte 0) ∷ ends ∷ [] }
{}
