// Numbers that are changed where they lie, where nothing needs their value then (C90 6.3.2.4, 6.3.3.1,
// 6.3.16).
ghost use Rattle.std.specs.Prelude.{◌≡◌, ◌∷◌, [], OnOk, OnErr};
ghost use Rattle.c65_genwide.specs.Lines.{with_lines, Keeps};
ghost use Rattle.c65_mach.specs.declared.rows.Op.TheVariants.{Bne};
ghost use Rattle.c65_genload.specs.Words.{branch};
ghost use Rattle.c65_gendirect.specs.Words.{instruction, carry_code};
ghost use Rattle.c65_code.specs.declared.line.Line.TheVariants.{Label};
ghost use Rattle.c65_genchange.specs.Changes.{up_code, down_code, byte_code, first_code, next_code, is_neutral, skip_code, low_code, high_code, is_one, carried_code, number_code, aside_code, taken_code, less_code, joined_code, more_code, operand_code, change_code, fill_code};

use crate::spots::{Spot, Target, put_again, put_beside, put_reach};
use c65_base::BinaryOp;
use c65_code::Draft;
use c65_code::Line::{Do, Label};
use c65_code::Operand::{Byte, Nothing, To, Zero};
use c65_genload::zero_page::{TMP1, TMP2};
use c65_genload::{first, second};
use c65_genwide::put;
use c65_mach::Mode::{Immediate, Implied, Relative, ZeroPage};
use c65_mach::Op;
use c65_mach::Op::{
    Adc, And, Bcc, Bcs, Bne, Clc, Dec, Eor, Inc, Lda, Ora, Sbc, Sec, Sta, Stx, Txa,
};
use std::alloc::AllocError;

/// What is done to a number where it lies.
#[derive(Clone, Copy, Debug, PartialEq, Eq)]
pub enum Change {
    /// One more, where instructions count.
    Up(Target),
    /// One less.
    Down(Target),
    /// `+`, `-`, `&`, `|` or `^` and a number.
    Number(BinaryOp, u32, Target),
    /// One of these operators, and the value in AX.
    Operand(BinaryOp, Target),
}

/// The instruction of an operator on bytes.
pub fn instruction(op: BinaryOp) -> Op
    ensures { result ≡ instruction op }
{
    match op {
        BinaryOp::Add => Adc,
        BinaryOp::Sub => Sbc,
        BinaryOp::BitAnd => And,
        BinaryOp::BitXor => Eor,
        _ => Ora,
    }
}

/// A sum begins with no carry, a difference with no borrow.
pub fn put_carry(op: BinaryOp, draft: &mut Draft) -> Result<(), AllocError>
    ensures lines { OnOk result (draft.new ≡ with_lines draft.old (carry_code op)) }
    ensures kept { OnErr result (Keeps draft.old draft.new) }
{
    match op {
        BinaryOp::Add => put(draft, &[Do(Clc, Implied, Nothing)]),
        BinaryOp::Sub => put(draft, &[Do(Sec, Implied, Nothing)]),
        _ => put(draft, &[]),
    }
}

/// Places a label.
pub fn put_label(label: u32, draft: &mut Draft) -> Result<(), AllocError>
    ensures lines { OnOk result (draft.new ≡ with_lines draft.old (Label label ∷ [])) }
    ensures kept { OnErr result (Keeps draft.old draft.new) }
{
    put(draft, &[Label(label)])
}

/// The high byte stays where the low one is not 0.
pub fn put_over(label: u32, draft: &mut Draft) -> Result<(), AllocError>
    ensures lines { OnOk result (draft.new ≡ with_lines draft.old (branch Bne label ∷ [])) }
    ensures kept { OnErr result (Keeps draft.old draft.new) }
{
    put(draft, &[Do(Bne, Relative, To(label))])
}

/// One more: the high byte goes up where the low one is 0 then.
pub fn put_up(target: Target, label: u32, draft: &mut Draft) -> Result<(), AllocError>
    ensures lines { OnOk result (draft.new ≡ with_lines draft.old (up_code target label)) }
    ensures kept { OnErr result (Keeps draft.old draft.new) }
{
    match target {
        Target::Byte(low) => {
            put_reach(Inc, low, draft)?;
            put_label(label, draft)
        }
        Target::Word(low, high) => {
            put_reach(Inc, low, draft)?;
            put_over(label, draft)?;
            put_reach(Inc, high, draft)?;
            put_label(label, draft)
        }
    }
}

/// One less: the high byte goes down where the low one is 0 before.
pub fn put_down(target: Target, label: u32, draft: &mut Draft) -> Result<(), AllocError>
    ensures lines { OnOk result (draft.new ≡ with_lines draft.old (down_code target label)) }
    ensures kept { OnErr result (Keeps draft.old draft.new) }
{
    match target {
        Target::Byte(low) => {
            put_reach(Dec, low, draft)?;
            put_label(label, draft)
        }
        Target::Word(low, high) => {
            put_reach(Lda, low, draft)?;
            put_over(label, draft)?;
            put_reach(Dec, high, draft)?;
            put_label(label, draft)?;
            put_reach(Dec, low, draft)
        }
    }
}

fn put_byte(op: BinaryOp, number: u8, spot: Spot, draft: &mut Draft) -> Result<(), AllocError>
    ensures lines { OnOk result (draft.new ≡ with_lines draft.old (byte_code op number spot)) }
    ensures kept { OnErr result (Keeps draft.old draft.new) }
{
    put(draft, &[Do(instruction(op), Immediate, Byte(number))])?;
    put_again(Sta, spot, draft)
}

// Whether a byte of this number changes none.
fn is_neutral(op: BinaryOp, number: u8) -> bool
    ensures { result ≡ is_neutral op number }
{
    match op {
        BinaryOp::BitAnd => number == 255,
        BinaryOp::BitXor | BinaryOp::BitOr => number == 0,
        _ => false,
    }
}

/// Reads the lower or only byte, and computes it.
pub fn put_first(op: BinaryOp, number: u8, spot: Spot, draft: &mut Draft) -> Result<(), AllocError>
    ensures lines { OnOk result (draft.new ≡ with_lines draft.old (first_code op number spot)) }
    ensures kept { OnErr result (Keeps draft.old draft.new) }
{
    put_reach(Lda, spot, draft)?;
    put_carry(op, draft)?;
    put_byte(op, number, spot, draft)
}

/// The same of the higher byte, with the carry that stands.
pub fn put_next(op: BinaryOp, number: u8, spot: Spot, draft: &mut Draft) -> Result<(), AllocError>
    ensures lines { OnOk result (draft.new ≡ with_lines draft.old (next_code op number spot)) }
    ensures kept { OnErr result (Keeps draft.old draft.new) }
{
    put_reach(Lda, spot, draft)?;
    put_byte(op, number, spot, draft)
}

fn put_low(op: BinaryOp, number: u8, spot: Spot, draft: &mut Draft) -> Result<(), AllocError>
    ensures lines { OnOk result (draft.new ≡ with_lines draft.old (low_code op number spot)) }
    ensures kept { OnErr result (Keeps draft.old draft.new) }
{
    if is_neutral(op, number) {
        return put(draft, &[]);
    }
    put_first(op, number, spot, draft)
}

// The high byte stays where its part of the number is 0 and nothing is carried.
fn put_skip(op: BinaryOp, number: u8, label: u32, draft: &mut Draft) -> Result<(), AllocError>
    ensures lines { OnOk result (draft.new ≡ with_lines draft.old (skip_code op number label)) }
    ensures kept { OnErr result (Keeps draft.old draft.new) }
{
    match (op, number) {
        (BinaryOp::Add, 0) => put(draft, &[Do(Bcc, Relative, To(label))]),
        (BinaryOp::Sub, 0) => put(draft, &[Do(Bcs, Relative, To(label))]),
        _ => put(draft, &[]),
    }
}

fn put_high(
    op: BinaryOp,
    number: u8,
    spot: Spot,
    label: u32,
    draft: &mut Draft,
) -> Result<(), AllocError>
    ensures lines { OnOk result (draft.new ≡ with_lines draft.old (high_code op number spot label)) }
    ensures kept { OnErr result (Keeps draft.old draft.new) }
{
    if is_neutral(op, number) {
        return put(draft, &[]);
    }
    put_skip(op, number, label, draft)?;
    put_next(op, number, spot, draft)
}

// A sum or a difference with one.
fn is_one(op: BinaryOp, number: u32) -> bool
    ensures { result ≡ is_one op number }
{
    match op {
        BinaryOp::Add | BinaryOp::Sub => number % 65_536 == 1,
        _ => false,
    }
}

// Behind a low byte to which one was added, or from which one was taken: where the high byte changes A is 0 with a
// carry, or 255 without one.
fn put_carried(
    op: BinaryOp,
    low: Spot,
    high: Spot,
    label: u32,
    draft: &mut Draft,
) -> Result<(), AllocError>
    ensures lines { OnOk result (draft.new ≡ with_lines draft.old (carried_code op low high label)) }
    ensures kept { OnErr result (Keeps draft.old draft.new) }
{
    put_skip(op, 0, label, draft)?;
    put_beside(Adc, low, high, draft)?;
    put_again(Sta, high, draft)
}

fn put_number(
    op: BinaryOp,
    number: u32,
    target: Target,
    label: u32,
    draft: &mut Draft,
) -> Result<(), AllocError>
    ensures lines { OnOk result (draft.new ≡ with_lines draft.old (number_code op number target label)) }
    ensures kept { OnErr result (Keeps draft.old draft.new) }
{
    match target {
        Target::Byte(low) => {
            put_low(op, first(number), low, draft)?;
            put_label(label, draft)
        }
        Target::Word(low, high) if is_one(op, number) => {
            put_first(op, 1, low, draft)?;
            put_carried(op, low, high, label, draft)?;
            put_label(label, draft)
        }
        Target::Word(low, high) => {
            put_low(op, first(number), low, draft)?;
            put_high(op, second(number), high, label, draft)?;
            put_label(label, draft)
        }
    }
}

// A byte of AX, which waits, is taken from one that lies there.
fn put_taken(at: u8, spot: Spot, draft: &mut Draft) -> Result<(), AllocError>
    ensures lines { OnOk result (draft.new ≡ with_lines draft.old (taken_code at spot)) }
    ensures kept { OnErr result (Keeps draft.old draft.new) }
{
    put(draft, &[Do(Sbc, ZeroPage, Zero(at))])?;
    put_again(Sta, spot, draft)
}

fn put_less(target: Target, draft: &mut Draft) -> Result<(), AllocError>
    ensures lines { OnOk result (draft.new ≡ with_lines draft.old (less_code target)) }
    ensures kept { OnErr result (Keeps draft.old draft.new) }
{
    match target {
        Target::Byte(low) => {
            put(draft, &[Do(Sta, ZeroPage, Zero(TMP1))])?;
            put_reach(Lda, low, draft)?;
            put(draft, &[Do(Sec, Implied, Nothing)])?;
            put_taken(TMP1, low, draft)
        }
        Target::Word(low, high) => {
            put(
                draft,
                &[Do(Sta, ZeroPage, Zero(TMP1)), Do(Stx, ZeroPage, Zero(TMP2))],
            )?;
            put_reach(Lda, low, draft)?;
            put(draft, &[Do(Sec, Implied, Nothing)])?;
            put_taken(TMP1, low, draft)?;
            put_reach(Lda, high, draft)?;
            put_taken(TMP2, high, draft)
        }
    }
}

fn put_joined(op: BinaryOp, spot: Spot, draft: &mut Draft) -> Result<(), AllocError>
    ensures lines { OnOk result (draft.new ≡ with_lines draft.old (joined_code op spot)) }
    ensures kept { OnErr result (Keeps draft.old draft.new) }
{
    put_reach(instruction(op), spot, draft)?;
    put_again(Sta, spot, draft)
}

fn put_more(op: BinaryOp, target: Target, draft: &mut Draft) -> Result<(), AllocError>
    ensures lines { OnOk result (draft.new ≡ with_lines draft.old (more_code op target)) }
    ensures kept { OnErr result (Keeps draft.old draft.new) }
{
    match target {
        Target::Byte(low) => {
            put_carry(op, draft)?;
            put_joined(op, low, draft)
        }
        Target::Word(low, high) => {
            put_carry(op, draft)?;
            put_joined(op, low, draft)?;
            put(draft, &[Do(Txa, Implied, Nothing)])?;
            put_joined(op, high, draft)
        }
    }
}

fn put_operand(op: BinaryOp, target: Target, draft: &mut Draft) -> Result<(), AllocError>
    ensures lines { OnOk result (draft.new ≡ with_lines draft.old (operand_code op target)) }
    ensures kept { OnErr result (Keeps draft.old draft.new) }
{
    match op {
        BinaryOp::Sub => put_less(target, draft),
        _ => put_more(op, target, draft),
    }
}

/// Puts the lines of a change. The label is placed.
pub fn put_change(change: Change, label: u32, draft: &mut Draft) -> Result<(), AllocError>
    ensures lines { OnOk result (draft.new ≡ with_lines draft.old (change_code change label)) }
    ensures kept { OnErr result (Keeps draft.old draft.new) }
{
    match change {
        Change::Up(target) => put_up(target, label, draft),
        Change::Down(target) => put_down(target, label, draft),
        Change::Number(op, number, target) => put_number(op, number, target, label, draft),
        Change::Operand(op, target) => {
            put_operand(op, target, draft)?;
            put_label(label, draft)
        }
    }
}

/// The same byte goes to both spots.
pub fn put_fill(byte: u8, low: Spot, high: Spot, draft: &mut Draft) -> Result<(), AllocError>
    ensures lines { OnOk result (draft.new ≡ with_lines draft.old (fill_code byte low high)) }
    ensures kept { OnErr result (Keeps draft.old draft.new) }
{
    put(draft, &[Do(Lda, Immediate, Byte(byte))])?;
    put_reach(Sta, low, draft)?;
    put_beside(Sta, low, high, draft)
}
