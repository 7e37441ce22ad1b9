// The software stack: pushes, pops, moves of its pointer, loads and stores.
ghost use Rattle.std.specs.Prelude.{◌≡◌, OnOk};
ghost use Rattle.c65_rtl.specs.Assembly.{with_lines, with_pieces};
ghost use Rattle.c65_rtl.specs.Stack.{raise_by_number, lower_by_number, raise_pieces, lower_pieces, push_pieces, pop_pieces, load_pieces, store_pieces, top_word_pieces};

use crate::places::{PTR1, PTR2, SP, SREG};
use crate::writing::{index, put};
use c65_code::Line::{Do, Label};
use c65_code::Operand::{Byte, Nothing, To, Zero};
use c65_code::{Count, Draft, Line, Routine};
use c65_mach::Mode::{Immediate, Implied, IndirectY, Relative, ZeroPage};
use c65_mach::Op::{
    Adc, Bcc, Bcs, Beq, Bne, Clc, Cpy, Dec, Dey, Eor, Inc, Iny, Lda, Ldx, Ldy, Pha, Pla, Rts, Sbc,
    Sec, Sta, Sty, Tax, Tay, Txa, Tya,
};
use std::alloc::AllocError;

// Pushes A.
const PUSH_BYTE: [Line; 8] = [
    Do(Ldy, ZeroPage, Zero(SP)),
    Do(Bne, Relative, To(2)),
    Do(Dec, ZeroPage, Zero(SP + 1)),
    Label(2),
    Do(Dec, ZeroPage, Zero(SP)),
    Do(Ldy, Immediate, Byte(0)),
    Do(Sta, IndirectY, Zero(SP)),
    Do(Rts, Implied, Nothing),
];

// Pushes AX.
const PUSH_WORD: [Line; 15] = [
    Do(Pha, Implied, Nothing),
    Do(Lda, ZeroPage, Zero(SP)),
    Do(Sec, Implied, Nothing),
    Do(Sbc, Immediate, Byte(2)),
    Do(Sta, ZeroPage, Zero(SP)),
    Do(Bcs, Relative, To(2)),
    Do(Dec, ZeroPage, Zero(SP + 1)),
    Label(2),
    Do(Ldy, Immediate, Byte(1)),
    Do(Txa, Implied, Nothing),
    Do(Sta, IndirectY, Zero(SP)),
    Do(Dey, Implied, Nothing),
    Do(Pla, Implied, Nothing),
    Do(Sta, IndirectY, Zero(SP)),
    Do(Rts, Implied, Nothing),
];

// Pushes EAX.
const PUSH_LONG: [Line; 21] = [
    Do(Pha, Implied, Nothing),
    Do(Lda, ZeroPage, Zero(SP)),
    Do(Sec, Implied, Nothing),
    Do(Sbc, Immediate, Byte(4)),
    Do(Sta, ZeroPage, Zero(SP)),
    Do(Bcs, Relative, To(2)),
    Do(Dec, ZeroPage, Zero(SP + 1)),
    Label(2),
    Do(Ldy, Immediate, Byte(3)),
    Do(Lda, ZeroPage, Zero(SREG + 1)),
    Do(Sta, IndirectY, Zero(SP)),
    Do(Dey, Implied, Nothing),
    Do(Lda, ZeroPage, Zero(SREG)),
    Do(Sta, IndirectY, Zero(SP)),
    Do(Dey, Implied, Nothing),
    Do(Txa, Implied, Nothing),
    Do(Sta, IndirectY, Zero(SP)),
    Do(Dey, Implied, Nothing),
    Do(Pla, Implied, Nothing),
    Do(Sta, IndirectY, Zero(SP)),
    Do(Rts, Implied, Nothing),
];

// X = 0.
const NO_HIGH_BYTE: [Line; 1] = [Do(Ldx, Immediate, Byte(0))];

// AX = 0.
const NO_WORD: [Line; 2] = [Do(Lda, Immediate, Byte(0)), Do(Tax, Implied, Nothing)];

// The byte at sp.
const TOP_BYTE: [Line; 2] = [Do(Ldy, Immediate, Byte(0)), Do(Lda, IndirectY, Zero(SP))];

// Raises sp by one.
const RAISE_ONE: [Line; 5] = [
    Do(Inc, ZeroPage, Zero(SP)),
    Do(Bne, Relative, To(0)),
    Do(Inc, ZeroPage, Zero(SP + 1)),
    Label(0),
    Do(Rts, Implied, Nothing),
];

// Raises sp by two, and keeps A and X.
const RAISE_TWO: [Line; 10] = [
    Do(Inc, ZeroPage, Zero(SP)),
    Do(Beq, Relative, To(0)),
    Do(Inc, ZeroPage, Zero(SP)),
    Do(Beq, Relative, To(1)),
    Do(Rts, Implied, Nothing),
    Label(0),
    Do(Inc, ZeroPage, Zero(SP)),
    Label(1),
    Do(Inc, ZeroPage, Zero(SP + 1)),
    Do(Rts, Implied, Nothing),
];

// Raises sp by Y, and keeps A and X.
const RAISE_BY_Y: [Line; 10] = [
    Do(Pha, Implied, Nothing),
    Do(Tya, Implied, Nothing),
    Do(Clc, Implied, Nothing),
    Do(Adc, ZeroPage, Zero(SP)),
    Do(Sta, ZeroPage, Zero(SP)),
    Do(Bcc, Relative, To(0)),
    Do(Inc, ZeroPage, Zero(SP + 1)),
    Label(0),
    Do(Pla, Implied, Nothing),
    Do(Rts, Implied, Nothing),
];

// Lowers sp by one.
const LOWER_ONE: [Line; 6] = [
    Do(Ldy, ZeroPage, Zero(SP)),
    Do(Bne, Relative, To(0)),
    Do(Dec, ZeroPage, Zero(SP + 1)),
    Label(0),
    Do(Dec, ZeroPage, Zero(SP)),
    Do(Rts, Implied, Nothing),
];

// Lowers sp by two: the low byte borrows where it comes to $FE or $FF.
const LOWER_TWO: [Line; 9] = [
    Do(Ldy, ZeroPage, Zero(SP)),
    Do(Dey, Implied, Nothing),
    Do(Dey, Implied, Nothing),
    Do(Sty, ZeroPage, Zero(SP)),
    Do(Cpy, Immediate, Byte(0xFE)),
    Do(Bcc, Relative, To(0)),
    Do(Dec, ZeroPage, Zero(SP + 1)),
    Label(0),
    Do(Rts, Implied, Nothing),
];

// Lowers sp by Y, and keeps A and X: the complement and one more are added.
const LOWER_BY_Y: [Line; 11] = [
    Do(Pha, Implied, Nothing),
    Do(Tya, Implied, Nothing),
    Do(Eor, Immediate, Byte(0xFF)),
    Do(Sec, Implied, Nothing),
    Do(Adc, ZeroPage, Zero(SP)),
    Do(Sta, ZeroPage, Zero(SP)),
    Do(Bcs, Relative, To(0)),
    Do(Dec, ZeroPage, Zero(SP + 1)),
    Label(0),
    Do(Pla, Implied, Nothing),
    Do(Rts, Implied, Nothing),
];

// The high half of four bytes whose last one is at sp + Y.
const LOAD_SREG: [Line; 6] = [
    Do(Lda, IndirectY, Zero(SP)),
    Do(Sta, ZeroPage, Zero(SREG + 1)),
    Do(Dey, Implied, Nothing),
    Do(Lda, IndirectY, Zero(SP)),
    Do(Sta, ZeroPage, Zero(SREG)),
    Do(Dey, Implied, Nothing),
];

// AX from the word whose high byte is at sp + Y.
const LOAD_WORD: [Line; 4] = [
    Do(Lda, IndirectY, Zero(SP)),
    Do(Tax, Implied, Nothing),
    Do(Dey, Implied, Nothing),
    Do(Lda, IndirectY, Zero(SP)),
];

// Stores AX at sp + Y.
const STORE_WORD: [Line; 7] = [
    Do(Sta, IndirectY, Zero(SP)),
    Do(Iny, Implied, Nothing),
    Do(Pha, Implied, Nothing),
    Do(Txa, Implied, Nothing),
    Do(Sta, IndirectY, Zero(SP)),
    Do(Pla, Implied, Nothing),
    Do(Rts, Implied, Nothing),
];

// Stores EAX at sp + Y.
const STORE_LONG: [Line; 13] = [
    Do(Sta, IndirectY, Zero(SP)),
    Do(Iny, Implied, Nothing),
    Do(Pha, Implied, Nothing),
    Do(Txa, Implied, Nothing),
    Do(Sta, IndirectY, Zero(SP)),
    Do(Iny, Implied, Nothing),
    Do(Lda, ZeroPage, Zero(SREG)),
    Do(Sta, IndirectY, Zero(SP)),
    Do(Iny, Implied, Nothing),
    Do(Lda, ZeroPage, Zero(SREG + 1)),
    Do(Sta, IndirectY, Zero(SP)),
    Do(Pla, Implied, Nothing),
    Do(Rts, Implied, Nothing),
];

// The words at sp go to ptr1 and ptr2.
const POINTERS: [Line; 12] = [
    Do(Ldy, Immediate, Byte(3)),
    Do(Lda, IndirectY, Zero(SP)),
    Do(Sta, ZeroPage, Zero(PTR2 + 1)),
    Do(Dey, Implied, Nothing),
    Do(Lda, IndirectY, Zero(SP)),
    Do(Sta, ZeroPage, Zero(PTR2)),
    Do(Dey, Implied, Nothing),
    Do(Lda, IndirectY, Zero(SP)),
    Do(Sta, ZeroPage, Zero(PTR1 + 1)),
    Do(Dey, Implied, Nothing),
    Do(Lda, IndirectY, Zero(SP)),
    Do(Sta, ZeroPage, Zero(PTR1)),
];

/// The way back.
pub const BACK: [Line; 1] = [Do(Rts, Implied, Nothing)];

// Raises sp by a number, and keeps A, which waits in Y, and X.
fn raise_by(draft: &mut Draft, number: u8) -> Result<(), AllocError>
    ensures { OnOk result (draft.new ≡ with_lines draft.old (raise_by_number number)) }
{
    put(
        draft,
        &[
            Do(Tay, Implied, Nothing),
            Do(Lda, ZeroPage, Zero(SP)),
            Do(Clc, Implied, Nothing),
            Do(Adc, Immediate, Byte(number)),
            Do(Sta, ZeroPage, Zero(SP)),
            Do(Bcc, Relative, To(0)),
            Do(Inc, ZeroPage, Zero(SP + 1)),
            Label(0),
            Do(Tya, Implied, Nothing),
            Do(Rts, Implied, Nothing),
        ],
    )
}

// Lowers sp by a number, and keeps A, which waits in Y, and X.
fn lower_by(draft: &mut Draft, number: u8) -> Result<(), AllocError>
    ensures { OnOk result (draft.new ≡ with_lines draft.old (lower_by_number number)) }
{
    put(
        draft,
        &[
            Do(Tay, Implied, Nothing),
            Do(Lda, ZeroPage, Zero(SP)),
            Do(Sec, Implied, Nothing),
            Do(Sbc, Immediate, Byte(number)),
            Do(Sta, ZeroPage, Zero(SP)),
            Do(Bcs, Relative, To(0)),
            Do(Dec, ZeroPage, Zero(SP + 1)),
            Label(0),
            Do(Tya, Implied, Nothing),
            Do(Rts, Implied, Nothing),
        ],
    )
}

/// Raises sp, keeps A and X, and goes back: the end of every routine that pops.
pub fn raise(draft: &mut Draft, count: Count) -> Result<(), AllocError>
    ensures { OnOk result (draft.new ≡ with_pieces draft.old (raise_pieces count)) }
{
    match count {
        Count::One => put(draft, &RAISE_ONE),
        Count::Two => put(draft, &RAISE_TWO),
        Count::Three => raise_by(draft, 3),
        Count::Four => raise_by(draft, 4),
        Count::Five => raise_by(draft, 5),
        Count::Six => raise_by(draft, 6),
        Count::Seven => raise_by(draft, 7),
        Count::Eight => raise_by(draft, 8),
    }
}

pub fn lower(draft: &mut Draft, count: Count) -> Result<(), AllocError>
    ensures { OnOk result (draft.new ≡ with_pieces draft.old (lower_pieces count)) }
{
    match count {
        Count::One => put(draft, &LOWER_ONE),
        Count::Two => put(draft, &LOWER_TWO),
        Count::Three => lower_by(draft, 3),
        Count::Four => lower_by(draft, 4),
        Count::Five => lower_by(draft, 5),
        Count::Six => lower_by(draft, 6),
        Count::Seven => lower_by(draft, 7),
        Count::Eight => lower_by(draft, 8),
    }
}

/// AX from the word at sp + Y, and sp raised.
pub fn top_word(draft: &mut Draft, y: u8, count: Count) -> Result<(), AllocError>
    ensures { OnOk result (draft.new ≡ with_pieces draft.old (top_word_pieces y count)) }
{
    put(draft, &[index(y)])?;
    put(draft, &LOAD_WORD)?;
    raise(draft, count)
}

pub fn push(draft: &mut Draft, which: Routine) -> Result<(), AllocError>
    ensures { OnOk result (draft.new ≡ with_pieces draft.old (push_pieces which)) }
{
    match which {
        Routine::PushA => put(draft, &PUSH_BYTE),
        Routine::PushAx => put(draft, &PUSH_WORD),
        Routine::PushA0 => {
            put(draft, &NO_HIGH_BYTE)?;
            put(draft, &PUSH_WORD)
        }
        Routine::Push0 => {
            put(draft, &NO_WORD)?;
            put(draft, &PUSH_WORD)
        }
        Routine::PushEax => put(draft, &PUSH_LONG),
        _ => Ok(()),
    }
}

pub fn pop(draft: &mut Draft, which: Routine) -> Result<(), AllocError>
    ensures { OnOk result (draft.new ≡ with_pieces draft.old (pop_pieces which)) }
{
    match which {
        Routine::PopA => {
            put(draft, &TOP_BYTE)?;
            raise(draft, Count::One)
        }
        Routine::PopAx => top_word(draft, 1, Count::Two),
        Routine::PopEax => {
            put(draft, &[index(3)])?;
            put(draft, &LOAD_SREG)?;
            put(draft, &LOAD_WORD)?;
            raise(draft, Count::Four)
        }
        Routine::PopPtrs => {
            put(draft, &POINTERS)?;
            raise(draft, Count::Four)
        }
        Routine::AddYSp => put(draft, &RAISE_BY_Y),
        Routine::SubYSp => put(draft, &LOWER_BY_Y),
        _ => Ok(()),
    }
}

pub fn load(draft: &mut Draft, which: Routine) -> Result<(), AllocError>
    ensures { OnOk result (draft.new ≡ with_pieces draft.old (load_pieces which)) }
{
    match which {
        Routine::LdAxYSp => {
            put(draft, &LOAD_WORD)?;
            put(draft, &BACK)
        }
        Routine::LdAx0Sp => {
            put(draft, &[index(1)])?;
            put(draft, &LOAD_WORD)?;
            put(draft, &BACK)
        }
        Routine::LdEaxYSp => {
            put(draft, &LOAD_SREG)?;
            put(draft, &LOAD_WORD)?;
            put(draft, &BACK)
        }
        _ => Ok(()),
    }
}

pub fn store(draft: &mut Draft, which: Routine) -> Result<(), AllocError>
    ensures { OnOk result (draft.new ≡ with_pieces draft.old (store_pieces which)) }
{
    match which {
        Routine::StAxYSp => put(draft, &STORE_WORD),
        Routine::StAx0Sp => {
            put(draft, &[index(0)])?;
            put(draft, &STORE_WORD)
        }
        Routine::StEaxYSp => put(draft, &STORE_LONG),
        _ => Ok(()),
    }
}
