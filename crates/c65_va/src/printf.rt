// The lines of `printf` (C90 7.9.6.1). All state is in the zero page: ptr1 is in the format, behind the byte that was read, ptr2
// is the end of the next argument, and ptr3 counts the bytes written. Each part of the format becomes a text at ptr4, with its
// length in tmp2 and tmp3 and its width in tmp1. sreg is a letter while the text lies on the software stack, and else 0.
ghost use Rattle.std.specs.Prelude.{◌≡◌, IfOk, IfErr};
ghost use Rattle.c65_base.specs.declared.refusal.Refusal.TheVariants.{OutOfMemory};
ghost use Rattle.c65_rtl.specs.Routines.{given_by};
ghost use Rattle.c65_va.specs.Printf.{is_printf, printf_lines};

use crate::places::{PTR1, PTR2, PTR3, PTR4, REGSAVE, SP, SREG, TMP1, TMP2, TMP3, TMP4};
use c65_base::{Library, Refusal};
use c65_code::Line::{Call, Do, Label};
use c65_code::Operand::{Byte, Nothing, To, Zero};
use c65_code::{Callee, Count, Draft, Line, Routine, Seg};
use c65_mach::Mode::{Absolute, Accumulator, Immediate, Implied, IndirectY, Relative, ZeroPage};
use c65_mach::Op::{
    Adc, Asl, Bcc, Bcs, Beq, Bne, Bpl, Clc, Cmp, Cpy, Dec, Dex, Inc, Inx, Iny, Jmp, Lda, Ldx, Ldy,
    Ora, Pha, Pla, Rol, Rts, Sbc, Sec, Sta, Stx, Sty, Tay, Tya,
};
use c65_rtl::given;
use std::alloc::Global;

// The labels that several pieces name.
const NEXT: u32 = 0;

const WIDTH: u32 = 1;

const LETTER: u32 = 2;

const LONG: u32 = 3;

const NUMBER: u32 = 4;

const DIGITS: u32 = 5;

const CHARACTER: u32 = 6;

const STRING: u32 = 7;

const PAD: u32 = 8;

const WRITE: u32 = 9;

const FINISH: u32 = 10;

// `%` less `0`, as a byte.
const PERCENT: u8 = 0xF5;

// Y waits on the hard stack. ptr2 is the end of the last argument before the format, whose address goes to ptr1; nothing
// is written yet.
const BEGIN: [Line; 24] = [
    Do(Tya, Implied, Nothing),
    Do(Pha, Implied, Nothing),
    Do(Clc, Implied, Nothing),
    Do(Adc, ZeroPage, Zero(SP)),
    Do(Sta, ZeroPage, Zero(PTR2)),
    Do(Lda, ZeroPage, Zero(SP + 1)),
    Do(Adc, Immediate, Byte(0)),
    Do(Sta, ZeroPage, Zero(PTR2 + 1)),
    Do(Sec, Implied, Nothing),
    Do(Lda, ZeroPage, Zero(PTR2)),
    Do(Sbc, Immediate, Byte(2)),
    Do(Sta, ZeroPage, Zero(PTR2)),
    Do(Bcs, Relative, To(11)),
    Do(Dec, ZeroPage, Zero(PTR2 + 1)),
    Label(11),
    Do(Ldy, Immediate, Byte(0)),
    Do(Lda, IndirectY, Zero(PTR2)),
    Do(Sta, ZeroPage, Zero(PTR1)),
    Do(Iny, Implied, Nothing),
    Do(Lda, IndirectY, Zero(PTR2)),
    Do(Sta, ZeroPage, Zero(PTR1 + 1)),
    Do(Lda, Immediate, Byte(0)),
    Do(Sta, ZeroPage, Zero(PTR3)),
    Do(Sta, ZeroPage, Zero(PTR3 + 1)),
];

// The format's next byte: the zero leads to the end, and a byte other than `%` is a text of its own, of length 1.
const HEAD: [Line; 20] = [
    Label(NEXT),
    Do(Ldy, Immediate, Byte(0)),
    Do(Lda, IndirectY, Zero(PTR1)),
    Do(Beq, Relative, To(FINISH)),
    Do(Ldx, ZeroPage, Zero(PTR1)),
    Do(Stx, ZeroPage, Zero(PTR4)),
    Do(Ldx, ZeroPage, Zero(PTR1 + 1)),
    Do(Stx, ZeroPage, Zero(PTR4 + 1)),
    Do(Ldx, Immediate, Byte(0)),
    Do(Stx, ZeroPage, Zero(TMP1)),
    Do(Stx, ZeroPage, Zero(TMP3)),
    Do(Stx, ZeroPage, Zero(SREG)),
    Do(Inx, Implied, Nothing),
    Do(Stx, ZeroPage, Zero(TMP2)),
    Do(Inc, ZeroPage, Zero(PTR1)),
    Do(Bne, Relative, To(12)),
    Do(Inc, ZeroPage, Zero(PTR1 + 1)),
    Label(12),
    Do(Cmp, Immediate, Byte(b'%')),
    Do(Bne, Relative, To(PAD)),
];

// Behind `%`: digits make up the width, and the byte behind them comes less `0`.
const READ_WIDTH: [Line; 19] = [
    Label(WIDTH),
    Do(Lda, IndirectY, Zero(PTR1)),
    Do(Inc, ZeroPage, Zero(PTR1)),
    Do(Bne, Relative, To(13)),
    Do(Inc, ZeroPage, Zero(PTR1 + 1)),
    Label(13),
    Do(Sec, Implied, Nothing),
    Do(Sbc, Immediate, Byte(b'0')),
    Do(Cmp, Immediate, Byte(10)),
    Do(Bcs, Relative, To(LETTER)),
    Do(Sta, ZeroPage, Zero(SREG + 1)),
    Do(Lda, ZeroPage, Zero(TMP1)),
    Do(Asl, Accumulator, Nothing),
    Do(Asl, Accumulator, Nothing),
    Do(Adc, ZeroPage, Zero(TMP1)),
    Do(Asl, Accumulator, Nothing),
    Do(Adc, ZeroPage, Zero(SREG + 1)),
    Do(Sta, ZeroPage, Zero(TMP1)),
    Do(Jmp, Absolute, To(WIDTH)),
];

// By that byte; `%` stands for itself, where ptr4 already is. For d, u and x a word is taken from the arguments, and for
// d its sign spreads over the upper half.
const CHOOSE: [Line; 40] = [
    Label(LETTER),
    Do(Cmp, Immediate, Byte(PERCENT)),
    Do(Beq, Relative, To(PAD)),
    Do(Cmp, Immediate, Byte(b'c' - b'0')),
    Do(Beq, Relative, To(CHARACTER)),
    Do(Cmp, Immediate, Byte(b's' - b'0')),
    Do(Beq, Relative, To(STRING)),
    Do(Ldx, Immediate, Byte(10)),
    Do(Stx, ZeroPage, Zero(TMP4)),
    Do(Cmp, Immediate, Byte(b'l' - b'0')),
    Do(Beq, Relative, To(LONG)),
    Do(Cmp, Immediate, Byte(b'x' - b'0')),
    Do(Bne, Relative, To(14)),
    Do(Ldx, Immediate, Byte(16)),
    Do(Stx, ZeroPage, Zero(TMP4)),
    Label(14),
    Do(Sta, ZeroPage, Zero(SREG)),
    Do(Sec, Implied, Nothing),
    Do(Lda, ZeroPage, Zero(PTR2)),
    Do(Sbc, Immediate, Byte(2)),
    Do(Sta, ZeroPage, Zero(PTR2)),
    Do(Bcs, Relative, To(15)),
    Do(Dec, ZeroPage, Zero(PTR2 + 1)),
    Label(15),
    Do(Lda, IndirectY, Zero(PTR2)),
    Do(Sta, ZeroPage, Zero(REGSAVE)),
    Do(Iny, Implied, Nothing),
    Do(Lda, IndirectY, Zero(PTR2)),
    Do(Sta, ZeroPage, Zero(REGSAVE + 1)),
    Do(Ldx, Immediate, Byte(0)),
    Do(Ldy, ZeroPage, Zero(SREG)),
    Do(Cpy, Immediate, Byte(b'd' - b'0')),
    Do(Bne, Relative, To(16)),
    Do(Cmp, Immediate, Byte(128)),
    Do(Bcc, Relative, To(16)),
    Do(Dex, Implied, Nothing),
    Label(16),
    Do(Stx, ZeroPage, Zero(REGSAVE + 2)),
    Do(Stx, ZeroPage, Zero(REGSAVE + 3)),
    Do(Jmp, Absolute, To(NUMBER)),
];

// Behind the letter l: a number of four bytes.
const LONG_NUMBER: [Line; 27] = [
    Label(LONG),
    Do(Lda, IndirectY, Zero(PTR1)),
    Do(Inc, ZeroPage, Zero(PTR1)),
    Do(Bne, Relative, To(17)),
    Do(Inc, ZeroPage, Zero(PTR1 + 1)),
    Label(17),
    Do(Sec, Implied, Nothing),
    Do(Sbc, Immediate, Byte(b'0')),
    Do(Sta, ZeroPage, Zero(SREG)),
    Do(Sec, Implied, Nothing),
    Do(Lda, ZeroPage, Zero(PTR2)),
    Do(Sbc, Immediate, Byte(4)),
    Do(Sta, ZeroPage, Zero(PTR2)),
    Do(Bcs, Relative, To(18)),
    Do(Dec, ZeroPage, Zero(PTR2 + 1)),
    Label(18),
    Do(Lda, IndirectY, Zero(PTR2)),
    Do(Sta, ZeroPage, Zero(REGSAVE)),
    Do(Iny, Implied, Nothing),
    Do(Lda, IndirectY, Zero(PTR2)),
    Do(Sta, ZeroPage, Zero(REGSAVE + 1)),
    Do(Iny, Implied, Nothing),
    Do(Lda, IndirectY, Zero(PTR2)),
    Do(Sta, ZeroPage, Zero(REGSAVE + 2)),
    Do(Iny, Implied, Nothing),
    Do(Lda, IndirectY, Zero(PTR2)),
    Do(Sta, ZeroPage, Zero(REGSAVE + 3)),
];

// Of a negative number the minus sign is kept, and the number is turned.
const TAKE_SIGN: [Line; 22] = [
    Label(NUMBER),
    Do(Lda, Immediate, Byte(0)),
    Do(Sta, ZeroPage, Zero(SREG + 1)),
    Do(Lda, ZeroPage, Zero(SREG)),
    Do(Cmp, Immediate, Byte(b'd' - b'0')),
    Do(Bne, Relative, To(DIGITS)),
    Do(Lda, ZeroPage, Zero(REGSAVE + 3)),
    Do(Bpl, Relative, To(DIGITS)),
    Do(Inc, ZeroPage, Zero(SREG + 1)),
    Do(Sec, Implied, Nothing),
    Do(Lda, Immediate, Byte(0)),
    Do(Sbc, ZeroPage, Zero(REGSAVE)),
    Do(Sta, ZeroPage, Zero(REGSAVE)),
    Do(Lda, Immediate, Byte(0)),
    Do(Sbc, ZeroPage, Zero(REGSAVE + 1)),
    Do(Sta, ZeroPage, Zero(REGSAVE + 1)),
    Do(Lda, Immediate, Byte(0)),
    Do(Sbc, ZeroPage, Zero(REGSAVE + 2)),
    Do(Sta, ZeroPage, Zero(REGSAVE + 2)),
    Do(Lda, Immediate, Byte(0)),
    Do(Sbc, ZeroPage, Zero(REGSAVE + 3)),
    Do(Sta, ZeroPage, Zero(REGSAVE + 3)),
];

// The digits are pushed, the lowest first, so that they stand in order from the sp on; each is the remainder by the base
// in tmp4. The sign comes last.
const PUSH_DIGITS: [Line; 42] = [
    Label(DIGITS),
    Do(Lda, Immediate, Byte(0)),
    Do(Sta, ZeroPage, Zero(TMP2)),
    Label(19),
    Do(Lda, Immediate, Byte(0)),
    Do(Ldx, Immediate, Byte(32)),
    Label(20),
    Do(Asl, ZeroPage, Zero(REGSAVE)),
    Do(Rol, ZeroPage, Zero(REGSAVE + 1)),
    Do(Rol, ZeroPage, Zero(REGSAVE + 2)),
    Do(Rol, ZeroPage, Zero(REGSAVE + 3)),
    Do(Rol, Accumulator, Nothing),
    Do(Cmp, ZeroPage, Zero(TMP4)),
    Do(Bcc, Relative, To(21)),
    Do(Sbc, ZeroPage, Zero(TMP4)),
    Do(Inc, ZeroPage, Zero(REGSAVE)),
    Label(21),
    Do(Dex, Implied, Nothing),
    Do(Bne, Relative, To(20)),
    Do(Cmp, Immediate, Byte(10)),
    Do(Bcc, Relative, To(22)),
    Do(Adc, Immediate, Byte(38)),
    Label(22),
    Do(Adc, Immediate, Byte(b'0')),
    Call(Callee::Routine(Routine::PushA)),
    Do(Inc, ZeroPage, Zero(TMP2)),
    Do(Lda, ZeroPage, Zero(REGSAVE)),
    Do(Ora, ZeroPage, Zero(REGSAVE + 1)),
    Do(Ora, ZeroPage, Zero(REGSAVE + 2)),
    Do(Ora, ZeroPage, Zero(REGSAVE + 3)),
    Do(Bne, Relative, To(19)),
    Do(Lda, ZeroPage, Zero(SREG + 1)),
    Do(Beq, Relative, To(23)),
    Do(Lda, Immediate, Byte(b'-')),
    Call(Callee::Routine(Routine::PushA)),
    Do(Inc, ZeroPage, Zero(TMP2)),
    Label(23),
    Do(Lda, ZeroPage, Zero(SP)),
    Do(Sta, ZeroPage, Zero(PTR4)),
    Do(Lda, ZeroPage, Zero(SP + 1)),
    Do(Sta, ZeroPage, Zero(PTR4 + 1)),
    Do(Jmp, Absolute, To(PAD)),
];

// The argument's own low byte is the text.
const TAKE_CHARACTER: [Line; 13] = [
    Label(CHARACTER),
    Do(Sec, Implied, Nothing),
    Do(Lda, ZeroPage, Zero(PTR2)),
    Do(Sbc, Immediate, Byte(2)),
    Do(Sta, ZeroPage, Zero(PTR2)),
    Do(Bcs, Relative, To(24)),
    Do(Dec, ZeroPage, Zero(PTR2 + 1)),
    Label(24),
    Do(Lda, ZeroPage, Zero(PTR2)),
    Do(Sta, ZeroPage, Zero(PTR4)),
    Do(Lda, ZeroPage, Zero(PTR2 + 1)),
    Do(Sta, ZeroPage, Zero(PTR4 + 1)),
    Do(Jmp, Absolute, To(PAD)),
];

// The text at the argument's address, up to its zero.
const TAKE_STRING: [Line; 30] = [
    Label(STRING),
    Do(Sec, Implied, Nothing),
    Do(Lda, ZeroPage, Zero(PTR2)),
    Do(Sbc, Immediate, Byte(2)),
    Do(Sta, ZeroPage, Zero(PTR2)),
    Do(Bcs, Relative, To(25)),
    Do(Dec, ZeroPage, Zero(PTR2 + 1)),
    Label(25),
    Do(Lda, IndirectY, Zero(PTR2)),
    Do(Sta, ZeroPage, Zero(PTR4)),
    Do(Iny, Implied, Nothing),
    Do(Lda, IndirectY, Zero(PTR2)),
    Do(Sta, ZeroPage, Zero(PTR4 + 1)),
    Do(Ldx, Immediate, Byte(0)),
    Do(Ldy, Immediate, Byte(0)),
    Label(26),
    Do(Lda, IndirectY, Zero(PTR4)),
    Do(Beq, Relative, To(27)),
    Do(Iny, Implied, Nothing),
    Do(Bne, Relative, To(26)),
    Do(Inx, Implied, Nothing),
    Do(Inc, ZeroPage, Zero(PTR4 + 1)),
    Do(Bne, Relative, To(26)),
    Label(27),
    Do(Sty, ZeroPage, Zero(TMP2)),
    Do(Stx, ZeroPage, Zero(TMP3)),
    Do(Sec, Implied, Nothing),
    Do(Lda, ZeroPage, Zero(PTR4 + 1)),
    Do(Sbc, ZeroPage, Zero(TMP3)),
    Do(Sta, ZeroPage, Zero(PTR4 + 1)),
];

// While the text is shorter than the width, a space is written from a place on the stack; then that place is given back.
const PUT_SPACES: [Line; 31] = [
    Label(PAD),
    Do(Lda, ZeroPage, Zero(TMP3)),
    Do(Bne, Relative, To(WRITE)),
    Do(Lda, ZeroPage, Zero(TMP2)),
    Do(Cmp, ZeroPage, Zero(TMP1)),
    Do(Bcs, Relative, To(WRITE)),
    Do(Lda, Immediate, Byte(b' ')),
    Call(Callee::Routine(Routine::PushA)),
    Do(Lda, ZeroPage, Zero(SP)),
    Do(Sta, ZeroPage, Zero(REGSAVE)),
    Do(Lda, ZeroPage, Zero(SP + 1)),
    Do(Sta, ZeroPage, Zero(REGSAVE + 1)),
    Label(28),
    Do(Lda, Immediate, Byte(1)),
    Do(Ldx, Immediate, Byte(0)),
    Call(Callee::Routine(Routine::PushAx)),
    Do(Lda, ZeroPage, Zero(REGSAVE)),
    Do(Ldx, ZeroPage, Zero(REGSAVE + 1)),
    Call(Callee::Routine(Routine::PushAx)),
    Do(Lda, Immediate, Byte(1)),
    Do(Ldx, Immediate, Byte(0)),
    Call(Callee::Routine(Routine::HookWrite)),
    Do(Inc, ZeroPage, Zero(PTR3)),
    Do(Bne, Relative, To(29)),
    Do(Inc, ZeroPage, Zero(PTR3 + 1)),
    Label(29),
    Do(Dec, ZeroPage, Zero(TMP1)),
    Do(Lda, ZeroPage, Zero(TMP2)),
    Do(Cmp, ZeroPage, Zero(TMP1)),
    Do(Bcc, Relative, To(28)),
    Call(Callee::Routine(Routine::IncSp(Count::One))),
];

// The text is written and counted, digits are taken off the stack, and the next byte of the format comes.
const PUT_TEXT: [Line; 23] = [
    Label(WRITE),
    Do(Lda, Immediate, Byte(1)),
    Do(Ldx, Immediate, Byte(0)),
    Call(Callee::Routine(Routine::PushAx)),
    Do(Lda, ZeroPage, Zero(PTR4)),
    Do(Ldx, ZeroPage, Zero(PTR4 + 1)),
    Call(Callee::Routine(Routine::PushAx)),
    Do(Lda, ZeroPage, Zero(TMP2)),
    Do(Ldx, ZeroPage, Zero(TMP3)),
    Call(Callee::Routine(Routine::HookWrite)),
    Do(Clc, Implied, Nothing),
    Do(Lda, ZeroPage, Zero(PTR3)),
    Do(Adc, ZeroPage, Zero(TMP2)),
    Do(Sta, ZeroPage, Zero(PTR3)),
    Do(Lda, ZeroPage, Zero(PTR3 + 1)),
    Do(Adc, ZeroPage, Zero(TMP3)),
    Do(Sta, ZeroPage, Zero(PTR3 + 1)),
    Do(Lda, ZeroPage, Zero(SREG)),
    Do(Beq, Relative, To(30)),
    Do(Ldy, ZeroPage, Zero(TMP2)),
    Call(Callee::Routine(Routine::AddYSp)),
    Label(30),
    Do(Jmp, Absolute, To(NEXT)),
];

// AX is the number of bytes written, and the arguments are taken off the stack by their number.
const END: [Line; 7] = [
    Label(FINISH),
    Do(Pla, Implied, Nothing),
    Do(Tay, Implied, Nothing),
    Do(Lda, ZeroPage, Zero(PTR3)),
    Do(Ldx, ZeroPage, Zero(PTR3 + 1)),
    Call(Callee::Routine(Routine::AddYSp)),
    Do(Rts, Implied, Nothing),
];

/// Whether the routine's lines stand here.
pub fn is_printf(which: Routine) -> bool
    ensures { result ≡ is_printf which }
{
    matches!(which, Routine::Library(Library::Printf))
}

/// The lines of `printf`, and what it gives: its result and what it keeps. It refuses for want of memory alone.
pub fn printf_routine(alloc: Global) -> Result<Seg, Refusal>
    ensures lines { IfOk result (λ seg. seg.lines ≡ printf_lines) }
    ensures out { IfOk result (λ seg. seg.out ≡ given_by (Routine.Library Library.Printf)) }
    ensures refused { IfErr result (λ refusal. refusal ≡ OutOfMemory) }
{
    let mut draft = Draft::new(alloc, given(Routine::Library(Library::Printf)));
    draft.extend(&BEGIN)?;
    draft.extend(&HEAD)?;
    draft.extend(&READ_WIDTH)?;
    draft.extend(&CHOOSE)?;
    draft.extend(&LONG_NUMBER)?;
    draft.extend(&TAKE_SIGN)?;
    draft.extend(&PUSH_DIGITS)?;
    draft.extend(&TAKE_CHARACTER)?;
    draft.extend(&TAKE_STRING)?;
    draft.extend(&PUT_SPACES)?;
    draft.extend(&PUT_TEXT)?;
    draft.extend(&END)?;
    Ok(draft.close())
}
