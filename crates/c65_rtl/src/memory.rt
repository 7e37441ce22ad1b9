// Loads and stores through pointers, copies, and the register variables.
ghost use Rattle.std.specs.Prelude.{◌≡◌, ◌∷◌, [], OnOk};
ghost use Rattle.c65_rtl.specs.Assembly.{with_pieces};
ghost use Rattle.c65_rtl.specs.Memory.{copy, point, top_to_ptr1, top_to_ptr2, from_pieces, to_pieces, bank_pieces};

use crate::places::{PTR1, PTR2, PTR3, PTR4, REGBANK, SP, SREG, TMP1};
use crate::stack::{raise, top_word};
use crate::writing::{index, put};
use c65_code::Line::{Do, Label};
use c65_code::Operand::{Byte, Nothing, To, Zero};
use c65_code::{Count, Draft, Line, Routine};
use c65_mach::Mode::{Immediate, Implied, Indirect, IndirectY, Relative, ZeroPage};
use c65_mach::Op::{
    Bcs, Beq, Bne, Dec, Dex, Dey, Inc, Iny, Jmp, Lda, Ldx, Ldy, Pha, Pla, Rts, Sbc, Sec, Sta, Stx,
    Tax, Txa,
};
use std::alloc::AllocError;

// AX to ptr1.
const POINT: [Line; 2] = [
    Do(Sta, ZeroPage, Zero(PTR1)),
    Do(Stx, ZeroPage, Zero(PTR1 + 1)),
];

// A from ptr1, and X = 0.
const BYTE_FROM: [Line; 4] = [
    Do(Ldy, Immediate, Byte(0)),
    Do(Lda, IndirectY, Zero(PTR1)),
    Do(Ldx, Immediate, Byte(0)),
    Do(Rts, Implied, Nothing),
];

// The high half of the four bytes whose last one is at ptr1 + Y.
const SREG_FROM: [Line; 6] = [
    Do(Lda, IndirectY, Zero(PTR1)),
    Do(Sta, ZeroPage, Zero(SREG + 1)),
    Do(Dey, Implied, Nothing),
    Do(Lda, IndirectY, Zero(PTR1)),
    Do(Sta, ZeroPage, Zero(SREG)),
    Do(Dey, Implied, Nothing),
];

// AX from the word whose high byte is at ptr1 + Y.
const WORD_FROM: [Line; 5] = [
    Do(Lda, IndirectY, Zero(PTR1)),
    Do(Tax, Implied, Nothing),
    Do(Dey, Implied, Nothing),
    Do(Lda, IndirectY, Zero(PTR1)),
    Do(Rts, Implied, Nothing),
];

// A to tmp1.
const HOLD: [Line; 1] = [Do(Sta, ZeroPage, Zero(TMP1))];

// A from tmp1.
const HELD: [Line; 1] = [Do(Lda, ZeroPage, Zero(TMP1))];

// The word at sp to ptr1, and Y = 0.
const TOP_TO_PTR1: [Line; 6] = [
    Do(Ldy, Immediate, Byte(1)),
    Do(Lda, IndirectY, Zero(SP)),
    Do(Sta, ZeroPage, Zero(PTR1 + 1)),
    Do(Dey, Implied, Nothing),
    Do(Lda, IndirectY, Zero(SP)),
    Do(Sta, ZeroPage, Zero(PTR1)),
];

// The word at sp to ptr2, and Y = 0.
const TOP_TO_PTR2: [Line; 6] = [
    Do(Ldy, Immediate, Byte(1)),
    Do(Lda, IndirectY, Zero(SP)),
    Do(Sta, ZeroPage, Zero(PTR2 + 1)),
    Do(Dey, Implied, Nothing),
    Do(Lda, IndirectY, Zero(SP)),
    Do(Sta, ZeroPage, Zero(PTR2)),
];

// The byte held, to ptr1 + Y.
const BYTE_TO: [Line; 2] = [
    Do(Lda, ZeroPage, Zero(TMP1)),
    Do(Sta, IndirectY, Zero(PTR1)),
];

// X to the byte behind.
const HIGH_BYTE_TO: [Line; 3] = [
    Do(Iny, Implied, Nothing),
    Do(Txa, Implied, Nothing),
    Do(Sta, IndirectY, Zero(PTR1)),
];

// sreg to the two bytes behind.
const SREG_TO: [Line; 6] = [
    Do(Iny, Implied, Nothing),
    Do(Lda, ZeroPage, Zero(SREG)),
    Do(Sta, IndirectY, Zero(PTR1)),
    Do(Iny, Implied, Nothing),
    Do(Lda, ZeroPage, Zero(SREG + 1)),
    Do(Sta, IndirectY, Zero(PTR1)),
];

// Copies ptr3 bytes from ptr1 to ptr2, ascending: whole pages first, then the rest.
const COPY: [Line; 22] = [
    Do(Ldy, Immediate, Byte(0)),
    Do(Ldx, ZeroPage, Zero(PTR3 + 1)),
    Do(Beq, Relative, To(3)),
    Label(2),
    Do(Lda, IndirectY, Zero(PTR1)),
    Do(Sta, IndirectY, Zero(PTR2)),
    Do(Iny, Implied, Nothing),
    Do(Bne, Relative, To(2)),
    Do(Inc, ZeroPage, Zero(PTR1 + 1)),
    Do(Inc, ZeroPage, Zero(PTR2 + 1)),
    Do(Dex, Implied, Nothing),
    Do(Bne, Relative, To(2)),
    Label(3),
    Do(Ldx, ZeroPage, Zero(PTR3)),
    Do(Beq, Relative, To(5)),
    Label(4),
    Do(Lda, IndirectY, Zero(PTR1)),
    Do(Sta, IndirectY, Zero(PTR2)),
    Do(Iny, Implied, Nothing),
    Do(Dex, Implied, Nothing),
    Do(Bne, Relative, To(4)),
    Label(5),
];

// Pushes regbank, and keeps EAX.
const SAVE_BANK: [Line; 28] = [
    Do(Pha, Implied, Nothing),
    Do(Lda, ZeroPage, Zero(SP)),
    Do(Sec, Implied, Nothing),
    Do(Sbc, Immediate, Byte(6)),
    Do(Sta, ZeroPage, Zero(SP)),
    Do(Bcs, Relative, To(2)),
    Do(Dec, ZeroPage, Zero(SP + 1)),
    Label(2),
    Do(Ldy, Immediate, Byte(0)),
    Do(Lda, ZeroPage, Zero(REGBANK)),
    Do(Sta, IndirectY, Zero(SP)),
    Do(Iny, Implied, Nothing),
    Do(Lda, ZeroPage, Zero(REGBANK + 1)),
    Do(Sta, IndirectY, Zero(SP)),
    Do(Iny, Implied, Nothing),
    Do(Lda, ZeroPage, Zero(REGBANK + 2)),
    Do(Sta, IndirectY, Zero(SP)),
    Do(Iny, Implied, Nothing),
    Do(Lda, ZeroPage, Zero(REGBANK + 3)),
    Do(Sta, IndirectY, Zero(SP)),
    Do(Iny, Implied, Nothing),
    Do(Lda, ZeroPage, Zero(REGBANK + 4)),
    Do(Sta, IndirectY, Zero(SP)),
    Do(Iny, Implied, Nothing),
    Do(Lda, ZeroPage, Zero(REGBANK + 5)),
    Do(Sta, IndirectY, Zero(SP)),
    Do(Pla, Implied, Nothing),
    Do(Rts, Implied, Nothing),
];

// The six bytes at sp to regbank; A is held.
const RESTORE_BANK: [Line; 20] = [
    Do(Sta, ZeroPage, Zero(TMP1)),
    Do(Ldy, Immediate, Byte(0)),
    Do(Lda, IndirectY, Zero(SP)),
    Do(Sta, ZeroPage, Zero(REGBANK)),
    Do(Iny, Implied, Nothing),
    Do(Lda, IndirectY, Zero(SP)),
    Do(Sta, ZeroPage, Zero(REGBANK + 1)),
    Do(Iny, Implied, Nothing),
    Do(Lda, IndirectY, Zero(SP)),
    Do(Sta, ZeroPage, Zero(REGBANK + 2)),
    Do(Iny, Implied, Nothing),
    Do(Lda, IndirectY, Zero(SP)),
    Do(Sta, ZeroPage, Zero(REGBANK + 3)),
    Do(Iny, Implied, Nothing),
    Do(Lda, IndirectY, Zero(SP)),
    Do(Sta, ZeroPage, Zero(REGBANK + 4)),
    Do(Iny, Implied, Nothing),
    Do(Lda, IndirectY, Zero(SP)),
    Do(Sta, ZeroPage, Zero(REGBANK + 5)),
    Do(Lda, ZeroPage, Zero(TMP1)),
];

// To the address in ptr4.
const JUMP: [Line; 1] = [Do(Jmp, Indirect, Zero(PTR4))];

/// AX to ptr1.
pub fn point_ptr1(draft: &mut Draft) -> Result<(), AllocError>
    ensures { OnOk result (draft.new ≡ with_pieces draft.old (point ∷ [])) }
{
    put(draft, &POINT)
}

/// The word at sp to ptr1, and Y = 0.
pub fn take_ptr1(draft: &mut Draft) -> Result<(), AllocError>
    ensures { OnOk result (draft.new ≡ with_pieces draft.old (top_to_ptr1 ∷ [])) }
{
    put(draft, &TOP_TO_PTR1)
}

/// The word at sp to ptr2, and Y = 0.
pub fn take_ptr2(draft: &mut Draft) -> Result<(), AllocError>
    ensures { OnOk result (draft.new ≡ with_pieces draft.old (top_to_ptr2 ∷ [])) }
{
    put(draft, &TOP_TO_PTR2)
}

/// Copies ptr3 bytes from ptr1 to ptr2.
pub fn copy_bytes(draft: &mut Draft) -> Result<(), AllocError>
    ensures { OnOk result (draft.new ≡ with_pieces draft.old (copy ∷ [])) }
{
    put(draft, &COPY)
}

/// Loads from address AX.
pub fn load_from(draft: &mut Draft, which: Routine) -> Result<(), AllocError>
    ensures { OnOk result (draft.new ≡ with_pieces draft.old (from_pieces which)) }
{
    match which {
        Routine::LdAi => {
            put(draft, &POINT)?;
            put(draft, &BYTE_FROM)
        }
        Routine::LdAxi => {
            put(draft, &POINT)?;
            put(draft, &[index(1)])?;
            put(draft, &WORD_FROM)
        }
        Routine::LdEaxi => {
            put(draft, &POINT)?;
            put(draft, &[index(3)])?;
            put(draft, &SREG_FROM)?;
            put(draft, &WORD_FROM)
        }
        _ => Ok(()),
    }
}

/// Stores at address TOS.
pub fn store_to(draft: &mut Draft, which: Routine) -> Result<(), AllocError>
    ensures { OnOk result (draft.new ≡ with_pieces draft.old (to_pieces which)) }
{
    match which {
        Routine::StATos => {
            put(draft, &HOLD)?;
            put(draft, &TOP_TO_PTR1)?;
            put(draft, &BYTE_TO)?;
            raise(draft, Count::Two)
        }
        Routine::StAxTos => {
            put(draft, &HOLD)?;
            put(draft, &TOP_TO_PTR1)?;
            put(draft, &BYTE_TO)?;
            put(draft, &HIGH_BYTE_TO)?;
            put(draft, &HELD)?;
            raise(draft, Count::Two)
        }
        Routine::StEaxTos => {
            put(draft, &HOLD)?;
            put(draft, &TOP_TO_PTR1)?;
            put(draft, &BYTE_TO)?;
            put(draft, &HIGH_BYTE_TO)?;
            put(draft, &SREG_TO)?;
            put(draft, &HELD)?;
            raise(draft, Count::Two)
        }
        _ => Ok(()),
    }
}

/// Copies, the register variables, and the jump through ptr4.
pub fn bank(draft: &mut Draft, which: Routine) -> Result<(), AllocError>
    ensures { OnOk result (draft.new ≡ with_pieces draft.old (bank_pieces which)) }
{
    match which {
        Routine::CopyTos => {
            put(draft, &POINT)?;
            put(draft, &TOP_TO_PTR2)?;
            put(draft, &COPY)?;
            top_word(draft, 1, Count::Two)
        }
        Routine::SaveRegs => put(draft, &SAVE_BANK),
        Routine::RestRegs => {
            put(draft, &RESTORE_BANK)?;
            raise(draft, Count::Six)
        }
        Routine::CallPtr4 => put(draft, &JUMP),
        _ => Ok(()),
    }
}
