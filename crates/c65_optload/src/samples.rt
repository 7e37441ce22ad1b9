// What the rules make of lines, worked by hand: the contract of a function that does nothing.
ghost use Rattle.std.specs.Prelude.{◌≡◌, ◌∷◌, [], None};
ghost use Rattle.c65_mach.specs.declared.rows.Op.TheVariants as ops;
ghost use Rattle.c65_code.specs.declared.line.Line.TheVariants.{Label};
ghost use Rattle.c65_optload.specs.Samples.{made_dead, made_live, replacing, of_byte, of_zero_page, by_itself, branch, ends};

/// Each rule at a place where it matches and at one where it does not.
pub fn worked_rules()
    ensures idle_load { made_live 10 (of_byte ops.Lda 1 ∷ of_byte ops.Lda 1 ∷ ends ∷ []) 1 ≡ replacing 1 1 [] }
    ensures other_load { made_live 10 (of_byte ops.Lda 1 ∷ of_byte ops.Lda 2 ∷ ends ∷ []) 1 ≡ None }
    ensures load_in_a_loop { made_live 10 (of_byte ops.Lda 1 ∷ Label 1 ∷ of_byte ops.Lda 1 ∷ by_itself ops.Tax ∷ branch ops.Bne 1 ∷ ends ∷ []) 2 ≡ None }
    ensures dead_load { made_dead 11 (of_byte ops.Ldy 1 ∷ ends ∷ []) 0 ≡ replacing 0 1 [] }
    ensures live_load { made_live 11 (of_byte ops.Ldy 1 ∷ ends ∷ []) 0 ≡ None }
    ensures dead_store { made_dead 12 (of_zero_page ops.Sta 16 ∷ ends ∷ []) 0 ≡ replacing 0 1 [] }
    ensures live_store { made_live 12 (of_zero_page ops.Sta 16 ∷ ends ∷ []) 0 ≡ None }
    ensures store_to_regbank { made_dead 12 (of_zero_page ops.Sta 20 ∷ ends ∷ []) 0 ≡ None }
    ensures reload { made_dead 13 (of_zero_page ops.Sta 20 ∷ of_zero_page ops.Lda 20 ∷ ends ∷ []) 0 ≡ replacing 0 2 (of_zero_page ops.Sta 20 ∷ []) }
    ensures reload_that_is_tested { made_live 13 (of_zero_page ops.Sta 20 ∷ of_zero_page ops.Lda 20 ∷ ends ∷ []) 0 ≡ None }
    ensures restore { made_live 14 (of_zero_page ops.Ldx 20 ∷ of_zero_page ops.Stx 20 ∷ ends ∷ []) 0 ≡ replacing 0 2 (of_zero_page ops.Ldx 20 ∷ []) }
    ensures store_elsewhere { made_live 14 (of_zero_page ops.Ldx 20 ∷ of_zero_page ops.Stx 21 ∷ ends ∷ []) 0 ≡ None }
    ensures overwritten { made_live 15 (of_zero_page ops.Sta 20 ∷ of_zero_page ops.Stx 20 ∷ ends ∷ []) 0 ≡ replacing 0 2 (of_zero_page ops.Stx 20 ∷ []) }
    ensures both_stores { made_live 15 (of_zero_page ops.Sta 20 ∷ of_zero_page ops.Stx 21 ∷ ends ∷ []) 0 ≡ None }
    ensures dead_transfer { made_dead 16 (by_itself ops.Tax ∷ ends ∷ []) 0 ≡ replacing 0 1 [] }
    ensures live_transfer { made_live 16 (by_itself ops.Tax ∷ ends ∷ []) 0 ≡ None }
    ensures idle_transfer { made_live 17 (of_byte ops.Lda 1 ∷ of_byte ops.Ldx 1 ∷ by_itself ops.Tax ∷ ends ∷ []) 2 ≡ replacing 2 1 [] }
    ensures real_transfer { made_live 17 (of_byte ops.Lda 1 ∷ of_byte ops.Ldx 2 ∷ by_itself ops.Tax ∷ ends ∷ []) 2 ≡ None }
    ensures back { made_live 18 (by_itself ops.Tax ∷ by_itself ops.Txa ∷ ends ∷ []) 0 ≡ replacing 0 2 (by_itself ops.Tax ∷ []) }
    ensures onward { made_live 18 (by_itself ops.Tay ∷ by_itself ops.Txa ∷ ends ∷ []) 0 ≡ None }
    ensures transferred { made_live 19 (of_byte ops.Lda 1 ∷ of_byte ops.Ldx 1 ∷ ends ∷ []) 1 ≡ replacing 1 1 (by_itself ops.Tax ∷ []) }
    ensures loaded { made_live 19 (of_byte ops.Lda 1 ∷ of_byte ops.Ldx 2 ∷ ends ∷ []) 1 ≡ None }
    ensures idle_byte_load { made_live 20 (of_byte ops.Lda 1 ∷ of_zero_page ops.Sta 16 ∷ of_zero_page ops.Lda 16 ∷ ends ∷ []) 2 ≡ replacing 2 1 [] }
    ensures other_byte_load { made_live 20 (of_byte ops.Lda 1 ∷ of_zero_page ops.Sta 16 ∷ of_zero_page ops.Lda 8 ∷ ends ∷ []) 2 ≡ None }
    ensures idle_store { made_live 21 (of_byte ops.Lda 1 ∷ of_zero_page ops.Sta 16 ∷ of_zero_page ops.Sta 16 ∷ ends ∷ []) 2 ≡ replacing 2 1 [] }
    ensures first_store { made_live 21 (of_byte ops.Lda 1 ∷ of_zero_page ops.Sta 16 ∷ of_zero_page ops.Sta 8 ∷ ends ∷ []) 2 ≡ None }
    ensures stepped { made_live 22 (of_byte ops.Ldx 255 ∷ of_byte ops.Ldx 0 ∷ ends ∷ []) 1 ≡ replacing 1 1 (by_itself ops.Inx ∷ []) }
    ensures two_steps { made_live 22 (of_byte ops.Ldx 255 ∷ of_byte ops.Ldx 1 ∷ ends ∷ []) 1 ≡ None }
    ensures moved_on { made_dead 23 (of_zero_page ops.Lda 20 ∷ by_itself ops.Tax ∷ ends ∷ []) 0 ≡ replacing 0 2 (of_zero_page ops.Ldx 20 ∷ []) }
    ensures copied { made_live 23 (of_zero_page ops.Lda 20 ∷ by_itself ops.Tax ∷ ends ∷ []) 0 ≡ None }
{}
