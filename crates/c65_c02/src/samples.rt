// What the rules make of lines, worked by hand: the contracts of functions that do nothing.
ghost use Rattle.std.specs.Prelude.{◌≡◌, ◌∷◌, [], None};
ghost use Rattle.c65_mach.specs.declared.rows.Op.TheVariants as ops;
ghost use Rattle.c65_mach.specs.declared.rows.Mode.TheVariants.{Immediate, ZeroPage, ZeroPageX, Absolute};
ghost use Rattle.c65_code.specs.declared.parts.Part.TheVariants.{A, X, Y, N, V, Z, C};
ghost use Rattle.c65_code.specs.declared.line.Operand.TheVariants.{Low, Zero, At};
ghost use Rattle.c65_code.specs.declared.line.Line.TheVariants.{Do};
ghost use Rattle.c65_code.specs.declared.line.Sym.{Sym};
ghost use Rattle.c65_c02.specs.Samples.{made, both_are, byte, on_a, indexed, through};
ghost use Rattle.c65_pass.specs.Registers.{alone};

/// The rule on zeros that are stored: where it matches, and beside that where it does not.
pub fn worked_zeros()
    ensures zero_page { made 41 (byte ops.Lda 0) (Do ops.Sta ZeroPage (Zero 16)) (X ∷ Y ∷ V ∷ C ∷ []) ≡ both_are (Do ops.Stz ZeroPage (Zero 16)) }
    ensures address { made 41 (byte ops.Lda 0) (Do ops.Sta Absolute (At (record { 0 = 3 }) 2)) (X ∷ []) ≡ both_are (Do ops.Stz Absolute (At (record { 0 = 3 }) 2)) }
    ensures indexed { made 41 (byte ops.Lda 0) (Do ops.Sta ZeroPageX (Zero 16)) (X ∷ []) ≡ None }
    ensures one { made 41 (byte ops.Lda 1) (Do ops.Sta ZeroPage (Zero 16)) (X ∷ []) ≡ None }
    ensures low_byte { made 41 (Do ops.Lda Immediate (Low (record { 0 = 3 }) 0)) (Do ops.Sta ZeroPage (Zero 16)) (X ∷ []) ≡ None }
    ensures other_register { made 41 (byte ops.Ldx 0) (Do ops.Stx ZeroPage (Zero 16)) (A ∷ []) ≡ None }
    ensures register_read { made 41 (byte ops.Lda 0) (Do ops.Sta ZeroPage (Zero 16)) (A ∷ []) ≡ None }
    ensures flag_read { made 41 (byte ops.Lda 0) (Do ops.Sta ZeroPage (Zero 16)) (Z ∷ []) ≡ None }
{}

/// The rules on steps of A.
pub fn worked_steps()
    ensures up { made 42 (alone ops.Clc) (byte ops.Adc 1) (A ∷ X ∷ Y ∷ N ∷ Z ∷ []) ≡ both_are (on_a ops.Inc) }
    ensures up_with_carry { made 42 (alone ops.Sec) (byte ops.Adc 1) (A ∷ []) ≡ None }
    ensures up_by_two { made 42 (alone ops.Clc) (byte ops.Adc 2) (A ∷ []) ≡ None }
    ensures overflow_read { made 42 (alone ops.Clc) (byte ops.Adc 1) (A ∷ V ∷ []) ≡ None }
    ensures carry_read { made 42 (alone ops.Clc) (byte ops.Adc 1) (A ∷ C ∷ []) ≡ None }
    ensures down { made 43 (alone ops.Sec) (byte ops.Sbc 1) (A ∷ X ∷ Y ∷ N ∷ Z ∷ []) ≡ both_are (on_a ops.Dec) }
    ensures down_with_borrow { made 43 (alone ops.Clc) (byte ops.Sbc 1) (A ∷ []) ≡ None }
    ensures borrow_read { made 43 (alone ops.Sec) (byte ops.Sbc 1) (A ∷ C ∷ []) ≡ None }
    ensures other_rule { made 43 (alone ops.Clc) (byte ops.Adc 1) (A ∷ []) ≡ None }
{}

/// The rules on bytes to which pointers point.
pub fn worked_pointers()
    ensures loaded { made 44 (byte ops.Ldy 0) (indexed ops.Lda 8) (A ∷ X ∷ N ∷ V ∷ Z ∷ C ∷ []) ≡ both_are (through ops.Lda 8) }
    ensures loaded_behind { made 44 (byte ops.Ldy 1) (indexed ops.Lda 8) (A ∷ []) ≡ None }
    ensures index_read { made 44 (byte ops.Ldy 0) (indexed ops.Lda 8) (A ∷ Y ∷ []) ≡ None }
    ensures masked { made 44 (byte ops.Ldy 0) (indexed ops.And 8) (A ∷ []) ≡ None }
    ensures stored { made 45 (byte ops.Ldy 0) (indexed ops.Sta 8) (A ∷ X ∷ V ∷ C ∷ []) ≡ both_are (through ops.Sta 8) }
    ensures stored_behind { made 45 (byte ops.Ldy 1) (indexed ops.Sta 8) (A ∷ []) ≡ None }
    ensures stored_index_read { made 45 (byte ops.Ldy 0) (indexed ops.Sta 8) (A ∷ Y ∷ []) ≡ None }
    ensures sign_read { made 45 (byte ops.Ldy 0) (indexed ops.Sta 8) (A ∷ N ∷ []) ≡ None }
{}
