// What the rules make of lines, worked by hand: the contracts of functions that do nothing.
ghost use Rattle.std.specs.Prelude.{◌≡◌, ◌∷◌, [], None};
ghost use Rattle.c65_mach.specs.declared.rows.Op.TheVariants as ops;
ghost use Rattle.c65_mach.specs.declared.rows.Mode.TheVariants.{Immediate};
ghost use Rattle.c65_code.specs.declared.parts.Part.TheVariants.{A, X, Y, N, V, Z, C};
ghost use Rattle.c65_code.specs.declared.line.Operand.TheVariants.{Low};
ghost use Rattle.c65_code.specs.declared.line.Line.TheVariants.{Do};
ghost use Rattle.c65_code.specs.declared.line.Sym.{Sym};
ghost use Rattle.c65_optarith.specs.Samples.{made, made_next, next_gone, both_gone, both_are, byte, zero, on_a};
ghost use Rattle.c65_pass.specs.Registers.{alone};

/// The rules on CLC, SEC, comparisons, and sums with 0: each where it matches, and beside that where it does not.
pub fn worked_flags()
    ensures known_carry { made_next 24 (alone ops.Clc) (alone ops.Clc) (C ∷ []) ≡ next_gone }
    ensures other_carry { made_next 24 (alone ops.Sec) (alone ops.Clc) (C ∷ []) ≡ None }
    ensures dead_carry { made_next 25 (alone ops.Clc) (alone ops.Sec) (A ∷ N ∷ V ∷ Z ∷ []) ≡ next_gone }
    ensures live_carry { made_next 25 (alone ops.Clc) (alone ops.Sec) (C ∷ []) ≡ None }
    ensures loaded { made 26 (zero ops.Lda 16) (byte ops.Cmp 0) (A ∷ N ∷ Z ∷ []) ≡ both_are (zero ops.Lda 16) }
    ensures shifted { made 26 (on_a ops.Ror) (byte ops.Cmp 0) (Z ∷ []) ≡ both_are (on_a ops.Ror) }
    ensures stepped { made 26 (alone ops.Iny) (byte ops.Cpy 0) (Z ∷ []) ≡ both_are (alone ops.Iny) }
    ensures carried { made 26 (zero ops.Lda 16) (byte ops.Cmp 0) (Z ∷ C ∷ []) ≡ None }
    ensures other_register { made 26 (alone ops.Tax) (byte ops.Cmp 0) (Z ∷ []) ≡ None }
    ensures other_byte { made 26 (alone ops.Tax) (byte ops.Cpx 1) (Z ∷ []) ≡ None }
    ensures shifted_byte { made 26 (zero ops.Lsr 16) (byte ops.Cmp 0) (Z ∷ []) ≡ None }
    ensures added { made 26 (byte ops.Adc 1) (byte ops.Cmp 0) (Z ∷ []) ≡ None }
    ensures dead_compare { made_next 27 (alone ops.Tax) (zero ops.Cpx 16) (A ∷ X ∷ Y ∷ V ∷ []) ≡ next_gone }
    ensures live_compare { made_next 27 (alone ops.Tax) (zero ops.Cpx 16) (C ∷ []) ≡ None }
    ensures added_nothing { made_next 30 (alone ops.Clc) (byte ops.Adc 0) (A ∷ C ∷ []) ≡ next_gone }
    ensures taken_nothing { made_next 30 (alone ops.Sec) (byte ops.Sbc 0) (A ∷ C ∷ []) ≡ next_gone }
    ensures added_carry { made_next 30 (alone ops.Sec) (byte ops.Adc 0) (A ∷ []) ≡ None }
    ensures taken_borrow { made_next 30 (alone ops.Clc) (byte ops.Sbc 0) (A ∷ []) ≡ None }
    ensures overflow { made_next 30 (alone ops.Clc) (byte ops.Adc 0) (A ∷ V ∷ []) ≡ None }
{}

/// The rules on masks, steps, and results that nothing reads.
pub fn worked_bytes()
    ensures all_bits { made_next 28 (alone ops.Tya) (byte ops.And 255) (A ∷ C ∷ []) ≡ next_gone }
    ensures no_bits { made_next 28 (alone ops.Tya) (byte ops.Eor 0) (A ∷ C ∷ []) ≡ next_gone }
    ensures some_bits { made_next 28 (alone ops.Tya) (byte ops.And 254) (A ∷ []) ≡ None }
    ensures no_bits_stay { made_next 28 (alone ops.Tya) (byte ops.And 0) (A ∷ []) ≡ None }
    ensures sign { made_next 28 (alone ops.Tya) (byte ops.Ora 0) (A ∷ N ∷ []) ≡ None }
    ensures stepped_back { made 29 (alone ops.Dey) (alone ops.Iny) (A ∷ X ∷ Y ∷ V ∷ C ∷ []) ≡ both_gone }
    ensures stepped_on { made 29 (alone ops.Inx) (alone ops.Inx) (X ∷ []) ≡ None }
    ensures other_step { made 29 (alone ops.Inx) (alone ops.Dey) (X ∷ []) ≡ None }
    ensures step_read { made 29 (alone ops.Dey) (alone ops.Iny) (Y ∷ Z ∷ []) ≡ None }
    ensures ands { made 31 (byte ops.And 0x3C) (byte ops.And 0x0F) (A ∷ N ∷ []) ≡ both_are (byte ops.And 0x0C) }
    ensures ors { made 31 (byte ops.Ora 0x3C) (byte ops.Ora 0x0F) (A ∷ Z ∷ []) ≡ both_are (byte ops.Ora 0x3F) }
    ensures eors { made 31 (byte ops.Eor 0x3C) (byte ops.Eor 0x0F) (A ∷ []) ≡ both_are (byte ops.Eor 0x33) }
    ensures loaded_bits { made 31 (byte ops.Lda 0x3C) (byte ops.And 0x0F) (A ∷ []) ≡ both_are (byte ops.Lda 0x0C) }
    ensures two_kinds { made 31 (byte ops.And 0x3C) (byte ops.Ora 0x0F) (A ∷ []) ≡ None }
    ensures other_load { made 31 (byte ops.Ldx 0x3C) (byte ops.And 0x0F) (A ∷ []) ≡ None }
    ensures address { made 31 (Do ops.Lda Immediate (Low (record { 0 = 1 }) 0)) (byte ops.And 0x0F) (A ∷ []) ≡ None }
    ensures dead_sum { made_next 32 (alone ops.Clc) (byte ops.Adc 7) (X ∷ Y ∷ []) ≡ next_gone }
    ensures dead_shift { made_next 32 (alone ops.Clc) (on_a ops.Rol) (X ∷ Y ∷ V ∷ []) ≡ next_gone }
    ensures dead_step { made_next 32 (alone ops.Clc) (alone ops.Dex) (A ∷ Y ∷ V ∷ C ∷ []) ≡ next_gone }
    ensures carry_read { made_next 32 (alone ops.Clc) (byte ops.Adc 7) (C ∷ []) ≡ None }
    ensures overflow_read { made_next 32 (alone ops.Clc) (byte ops.Sbc 7) (V ∷ []) ≡ None }
    ensures register_read { made_next 32 (alone ops.Clc) (alone ops.Dex) (X ∷ []) ≡ None }
    ensures byte_written { made_next 32 (alone ops.Clc) (zero ops.Rol 16) [] ≡ None }
{}
