// The start of a program, and the functions of C's library (C90 7.9, 7.10, 7.11) over the simulator's hooks.
ghost use Rattle.std.specs.Prelude.{◌≡◌, OnOk};
ghost use Rattle.c65_rtl.specs.Assembly.{with_pieces};
ghost use Rattle.c65_rtl.specs.Library.{main_call, start_pieces, outside_pieces, memory_pieces, string_pieces, library_pieces};

use crate::memory::{copy_bytes, point_ptr1, take_ptr1, take_ptr2};
use crate::places::{PTR1, PTR2, PTR3, SP};
use crate::stack::{raise, top_word};
use crate::writing::{index, put};
use c65_base::{Library, Refusal};
use c65_code::Line::{Call, Do, Label};
use c65_code::Operand::{Byte, Nothing, To, Zero};
use c65_code::{Callee, Count, Draft, Line, Part, RegSet, Routine, Sym};
use c65_mach::Mode::{Immediate, Implied, IndirectY, Relative, ZeroPage};
use c65_mach::Op::{
    Bcs, Beq, Bne, Cmp, Dex, Dey, Inc, Inx, Iny, Lda, Ldx, Ldy, Rts, Sbc, Sec, Sta, Stx, Tax, Tya,
};
use std::alloc::AllocError;

// sp = $FFF0.
const STACK_TOP: [Line; 4] = [
    Do(Lda, Immediate, Byte(0xF0)),
    Do(Sta, ZeroPage, Zero(SP)),
    Do(Lda, Immediate, Byte(0xFF)),
    Do(Sta, ZeroPage, Zero(SP + 1)),
];

// The list's address goes to the stack's lowest word, which is free; argc is pushed, and AX = argv.
const ARGUMENTS: [Line; 11] = [
    Do(Lda, Immediate, Byte(0xF0)),
    Do(Sta, ZeroPage, Zero(PTR1)),
    Do(Ldx, Immediate, Byte(0xF7)),
    Do(Stx, ZeroPage, Zero(PTR1 + 1)),
    Call(Callee::Routine(Routine::HookArgs)),
    Call(Callee::Routine(Routine::PushAx)),
    Do(Ldy, Immediate, Byte(1)),
    Do(Lda, IndirectY, Zero(PTR1)),
    Do(Tax, Implied, Nothing),
    Do(Dey, Implied, Nothing),
    Do(Lda, IndirectY, Zero(PTR1)),
];

// Ends with status A.
pub const END: [Line; 2] = [
    Call(Callee::Routine(Routine::HookExit)),
    Do(Rts, Implied, Nothing),
];

// The word is pushed, and its low byte is written from there.
const PUT_CHAR: [Line; 17] = [
    Call(Callee::Routine(Routine::PushAx)),
    Do(Lda, ZeroPage, Zero(SP)),
    Do(Sta, ZeroPage, Zero(PTR1)),
    Do(Lda, ZeroPage, Zero(SP + 1)),
    Do(Sta, ZeroPage, Zero(PTR1 + 1)),
    Do(Lda, Immediate, Byte(1)),
    Do(Ldx, Immediate, Byte(0)),
    Call(Callee::Routine(Routine::PushAx)),
    Do(Lda, ZeroPage, Zero(PTR1)),
    Do(Ldx, ZeroPage, Zero(PTR1 + 1)),
    Call(Callee::Routine(Routine::PushAx)),
    Do(Lda, Immediate, Byte(1)),
    Do(Ldx, Immediate, Byte(0)),
    Call(Callee::Routine(Routine::HookWrite)),
    Call(Callee::Routine(Routine::PopAx)),
    Do(Ldx, Immediate, Byte(0)),
    Do(Rts, Implied, Nothing),
];

// A byte is read into a place on the stack.
const GET_CHAR: [Line; 22] = [
    Call(Callee::Routine(Routine::PushA)),
    Do(Lda, ZeroPage, Zero(SP)),
    Do(Sta, ZeroPage, Zero(PTR1)),
    Do(Lda, ZeroPage, Zero(SP + 1)),
    Do(Sta, ZeroPage, Zero(PTR1 + 1)),
    Call(Callee::Routine(Routine::Push0)),
    Do(Lda, ZeroPage, Zero(PTR1)),
    Do(Ldx, ZeroPage, Zero(PTR1 + 1)),
    Call(Callee::Routine(Routine::PushAx)),
    Do(Lda, Immediate, Byte(1)),
    Do(Ldx, Immediate, Byte(0)),
    Call(Callee::Routine(Routine::HookRead)),
    Do(Cmp, Immediate, Byte(1)),
    Do(Bne, Relative, To(0)),
    Call(Callee::Routine(Routine::PopA)),
    Do(Ldx, Immediate, Byte(0)),
    Do(Rts, Implied, Nothing),
    Label(0),
    Call(Callee::Routine(Routine::IncSp(Count::One))),
    Do(Lda, Immediate, Byte(0xFF)),
    Do(Tax, Implied, Nothing),
    Do(Rts, Implied, Nothing),
];

// The string and its length wait on the stack; after them a line feed is written.
const PUT_STRING: [Line; 19] = [
    Call(Callee::Routine(Routine::PushAx)),
    Call(Callee::Routine(Routine::Library(Library::Strlen))),
    Call(Callee::Routine(Routine::PushAx)),
    Do(Lda, Immediate, Byte(1)),
    Do(Ldx, Immediate, Byte(0)),
    Call(Callee::Routine(Routine::PushAx)),
    Do(Ldy, Immediate, Byte(5)),
    Call(Callee::Routine(Routine::LdAxYSp)),
    Call(Callee::Routine(Routine::PushAx)),
    Do(Ldy, Immediate, Byte(5)),
    Call(Callee::Routine(Routine::LdAxYSp)),
    Call(Callee::Routine(Routine::HookWrite)),
    Call(Callee::Routine(Routine::IncSp(Count::Four))),
    Do(Lda, Immediate, Byte(10)),
    Do(Ldx, Immediate, Byte(0)),
    Call(Callee::Routine(Routine::Library(Library::Putchar))),
    Do(Lda, Immediate, Byte(0)),
    Do(Tax, Implied, Nothing),
    Do(Rts, Implied, Nothing),
];

// The source to ptr1, the target to ptr2, the number of bytes to ptr3.
const COPIED: [Line; 14] = [
    Do(Sta, ZeroPage, Zero(PTR3)),
    Do(Stx, ZeroPage, Zero(PTR3 + 1)),
    Do(Ldy, Immediate, Byte(3)),
    Do(Lda, IndirectY, Zero(SP)),
    Do(Sta, ZeroPage, Zero(PTR2 + 1)),
    Do(Dey, Implied, Nothing),
    Do(Lda, IndirectY, Zero(SP)),
    Do(Sta, ZeroPage, Zero(PTR2)),
    Do(Dey, Implied, Nothing),
    Do(Lda, IndirectY, Zero(SP)),
    Do(Sta, ZeroPage, Zero(PTR1 + 1)),
    Do(Dey, Implied, Nothing),
    Do(Lda, IndirectY, Zero(SP)),
    Do(Sta, ZeroPage, Zero(PTR1)),
];

// A to ptr3 bytes from ptr2 on: whole pages first, then the rest.
const FILL: [Line; 28] = [
    Do(Sta, ZeroPage, Zero(PTR3)),
    Do(Stx, ZeroPage, Zero(PTR3 + 1)),
    Do(Ldy, Immediate, Byte(3)),
    Do(Lda, IndirectY, Zero(SP)),
    Do(Sta, ZeroPage, Zero(PTR2 + 1)),
    Do(Dey, Implied, Nothing),
    Do(Lda, IndirectY, Zero(SP)),
    Do(Sta, ZeroPage, Zero(PTR2)),
    Do(Ldy, Immediate, Byte(0)),
    Do(Lda, IndirectY, Zero(SP)),
    Do(Ldx, ZeroPage, Zero(PTR3 + 1)),
    Do(Beq, Relative, To(3)),
    Label(2),
    Do(Sta, IndirectY, Zero(PTR2)),
    Do(Iny, Implied, Nothing),
    Do(Bne, Relative, To(2)),
    Do(Inc, ZeroPage, Zero(PTR2 + 1)),
    Do(Dex, Implied, Nothing),
    Do(Bne, Relative, To(2)),
    Label(3),
    Do(Ldx, ZeroPage, Zero(PTR3)),
    Do(Beq, Relative, To(5)),
    Label(4),
    Do(Sta, IndirectY, Zero(PTR2)),
    Do(Iny, Implied, Nothing),
    Do(Dex, Implied, Nothing),
    Do(Bne, Relative, To(4)),
    Label(5),
];

// The number of bytes before a zero.
const STRING_LENGTH: [Line; 13] = [
    Do(Ldx, Immediate, Byte(0)),
    Do(Ldy, Immediate, Byte(0)),
    Label(2),
    Do(Lda, IndirectY, Zero(PTR1)),
    Do(Beq, Relative, To(3)),
    Do(Iny, Implied, Nothing),
    Do(Bne, Relative, To(2)),
    Do(Inc, ZeroPage, Zero(PTR1 + 1)),
    Do(Inx, Implied, Nothing),
    Do(Bne, Relative, To(2)),
    Label(3),
    Do(Tya, Implied, Nothing),
    Do(Rts, Implied, Nothing),
];

// Copies from ptr1 to ptr2, up to a zero byte; Y is 0.
const COPY_STRING: [Line; 10] = [
    Label(2),
    Do(Lda, IndirectY, Zero(PTR1)),
    Do(Sta, IndirectY, Zero(PTR2)),
    Do(Beq, Relative, To(3)),
    Do(Iny, Implied, Nothing),
    Do(Bne, Relative, To(2)),
    Do(Inc, ZeroPage, Zero(PTR1 + 1)),
    Do(Inc, ZeroPage, Zero(PTR2 + 1)),
    Do(Bne, Relative, To(2)),
    Label(3),
];

// The difference of the first unlike bytes of ptr1 and ptr2, or of the zero bytes; Y is 0.
const COMPARE_STRINGS: [Line; 18] = [
    Label(2),
    Do(Lda, IndirectY, Zero(PTR1)),
    Do(Beq, Relative, To(3)),
    Do(Cmp, IndirectY, Zero(PTR2)),
    Do(Bne, Relative, To(3)),
    Do(Iny, Implied, Nothing),
    Do(Bne, Relative, To(2)),
    Do(Inc, ZeroPage, Zero(PTR1 + 1)),
    Do(Inc, ZeroPage, Zero(PTR2 + 1)),
    Do(Bne, Relative, To(2)),
    Label(3),
    Do(Ldx, Immediate, Byte(0)),
    Do(Sec, Implied, Nothing),
    Do(Lda, IndirectY, Zero(PTR1)),
    Do(Sbc, IndirectY, Zero(PTR2)),
    Do(Bcs, Relative, To(4)),
    Do(Dex, Implied, Nothing),
    Label(4),
];

// AX to ptr2.
const OTHER_STRING: [Line; 2] = [
    Do(Sta, ZeroPage, Zero(PTR2)),
    Do(Stx, ZeroPage, Zero(PTR2 + 1)),
];

// Symbol 0 stands for main.
fn call_of_main() -> Line
    ensures { result ≡ main_call }
{
    let word = RegSet::of(&[Part::A, Part::X]);
    Call(Callee::Function(Sym(0), word, word))
}

pub fn start(draft: &mut Draft, which: Routine) -> Result<(), AllocError>
    ensures { OnOk result (draft.new ≡ with_pieces draft.old (start_pieces which)) }
{
    match which {
        Routine::Start => {
            put(draft, &STACK_TOP)?;
            put(draft, &[call_of_main()])?;
            put(draft, &END)
        }
        Routine::StartArgs => {
            put(draft, &STACK_TOP)?;
            put(draft, &ARGUMENTS)?;
            put(draft, &[call_of_main()])?;
            put(draft, &END)
        }
        _ => Ok(()),
    }
}

fn outside(draft: &mut Draft, function: Library) -> Result<(), AllocError>
    ensures { OnOk result (draft.new ≡ with_pieces draft.old (outside_pieces function)) }
{
    match function {
        Library::Putchar => put(draft, &PUT_CHAR),
        Library::Getchar => put(draft, &GET_CHAR),
        Library::Puts => put(draft, &PUT_STRING),
        Library::Exit => put(draft, &END),
        _ => Ok(()),
    }
}

// The first argument is the result.
fn memory_function(draft: &mut Draft, function: Library) -> Result<(), AllocError>
    ensures { OnOk result (draft.new ≡ with_pieces draft.old (memory_pieces function)) }
{
    match function {
        Library::Memcpy => {
            put(draft, &COPIED)?;
            copy_bytes(draft)?;
            top_word(draft, 3, Count::Four)
        }
        Library::Memset => {
            put(draft, &FILL)?;
            top_word(draft, 3, Count::Four)
        }
        _ => Ok(()),
    }
}

fn string_function(draft: &mut Draft, function: Library) -> Result<(), AllocError>
    ensures { OnOk result (draft.new ≡ with_pieces draft.old (string_pieces function)) }
{
    match function {
        Library::Strcmp => {
            put(draft, &OTHER_STRING)?;
            take_ptr1(draft)?;
            put(draft, &COMPARE_STRINGS)?;
            raise(draft, Count::Two)
        }
        Library::Strcpy => {
            point_ptr1(draft)?;
            take_ptr2(draft)?;
            put(draft, &COPY_STRING)?;
            top_word(draft, 1, Count::Two)
        }
        Library::Strlen => {
            point_ptr1(draft)?;
            put(draft, &STRING_LENGTH)
        }
        _ => Ok(()),
    }
}

pub fn library(draft: &mut Draft, function: Library) -> Result<(), AllocError>
    ensures { OnOk result (draft.new ≡ with_pieces draft.old (library_pieces function)) }
{
    match function {
        Library::Putchar => outside(draft, function),
        Library::Getchar => outside(draft, function),
        Library::Puts => outside(draft, function),
        Library::Exit => outside(draft, function),
        Library::Memcpy => memory_function(draft, function),
        Library::Memset => memory_function(draft, function),
        Library::Strcmp => string_function(draft, function),
        Library::Strcpy => string_function(draft, function),
        Library::Strlen => string_function(draft, function),
        Library::Printf => Ok(()),
    }
}
