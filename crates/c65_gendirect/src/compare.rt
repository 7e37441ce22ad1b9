// Comparisons with a side that is read where it lies (C90 6.3.8, 6.3.9).
ghost use Rattle.std.specs.Prelude.{◌≡◌, OnOk, OnErr};
ghost use Rattle.c65_genwide.specs.Lines.{with_lines, Keeps};
ghost use Rattle.c65_gendirect.specs.Compare.{lowest_code, upper_code, difference_code, by_carry, by_sign, is_turned, turned, turned_code, turned_upper_code, turned_difference_code, order_code, is_zero_byte, are_zero, is_sign_test, highest_code, ordered_code, second_code, same_code, compare_code, compare_byte_code};

use crate::bytes::{OperandByte, put_op, takes_y};
use crate::relation::Relation;
use c65_code::Draft;
use c65_code::Line::{Do, Label};
use c65_code::Operand::{Byte, Nothing, To, Zero};
use c65_genload::zero_page::SREG;
use c65_genwide::put;
use c65_mach::Mode::{Immediate, Implied, Relative, ZeroPage};
use c65_mach::Op;
use c65_mach::Op::{Bcc, Bcs, Beq, Bmi, Bne, Bpl, Bvc, Clc, Cmp, Cpx, Eor, Lda, Sbc, Txa};
use std::alloc::AllocError;

/// The bytes of a side of a comparison, from the lowest on.
#[derive(Clone, Copy, Debug, PartialEq, Eq)]
pub enum Sides {
    Word(OperandByte, OperandByte),
    Long(OperandByte, OperandByte, OperandByte, OperandByte),
}

// The carry is that of the difference, or of what is one less than it.
fn put_lowest(relation: Relation, low: OperandByte, draft: &mut Draft) -> Result<(), AllocError>
    ensures lines { OnOk result (draft.new ≡ with_lines draft.old (lowest_code relation low)) }
    ensures kept { OnErr result (Keeps draft.old draft.new) }
{
    match relation {
        Relation::Greater | Relation::NotGreater => {
            put(draft, &[Do(Clc, Implied, Nothing)])?;
            put_op(Sbc, low, draft)
        }
        _ => put_op(Cmp, low, draft),
    }
}

// On from two bytes to the high half of EAX.
fn put_upper(third: OperandByte, fourth: OperandByte, draft: &mut Draft) -> Result<(), AllocError>
    ensures lines { OnOk result (draft.new ≡ with_lines draft.old (upper_code third fourth)) }
    ensures kept { OnErr result (Keeps draft.old draft.new) }
{
    put(draft, &[Do(Lda, ZeroPage, Zero(SREG))])?;
    put_op(Sbc, third, draft)?;
    put(draft, &[Do(Lda, ZeroPage, Zero(SREG + 1))])?;
    put_op(Sbc, fourth, draft)
}

// A is then the highest byte of the difference.
fn put_difference(relation: Relation, sides: Sides, draft: &mut Draft) -> Result<(), AllocError>
    ensures lines { OnOk result (draft.new ≡ with_lines draft.old (difference_code relation sides)) }
    ensures kept { OnErr result (Keeps draft.old draft.new) }
{
    match sides {
        Sides::Word(low, high) => {
            put_lowest(relation, low, draft)?;
            put(draft, &[Do(Txa, Implied, Nothing)])?;
            put_op(Sbc, high, draft)
        }
        Sides::Long(first, second, third, fourth) => {
            put_lowest(relation, first, draft)?;
            put(draft, &[Do(Txa, Implied, Nothing)])?;
            put_op(Sbc, second, draft)?;
            put_upper(third, fourth, draft)
        }
    }
}

fn by_carry(relation: Relation) -> Op
    ensures { result ≡ by_carry relation }
{
    match relation {
        Relation::Less | Relation::NotGreater => Bcc,
        _ => Bcs,
    }
}

fn by_sign(relation: Relation) -> Op
    ensures { result ≡ by_sign relation }
{
    match relation {
        Relation::Less | Relation::NotGreater => Bmi,
        _ => Bpl,
    }
}

// Whether the highest byte of the right side is a number: then the signs of both sides are turned, and the carry
// tells of signed values too.
fn is_turned(is_signed: bool, sides: Sides) -> bool
    ensures { result ≡ is_turned is_signed sides }
{
    let highest = match sides {
        Sides::Word(_, high) => high,
        Sides::Long(_, _, _, fourth) => fourth,
    };
    is_signed && matches!(highest, OperandByte::Number(_))
}

fn turned(byte: OperandByte) -> OperandByte
    ensures { result ≡ turned byte }
{
    match byte {
        OperandByte::Number(number) => OperandByte::Number(number ^ 128),
        _ => byte,
    }
}

fn put_turned(byte: OperandByte, draft: &mut Draft) -> Result<(), AllocError>
    ensures lines { OnOk result (draft.new ≡ with_lines draft.old (turned_code byte)) }
    ensures kept { OnErr result (Keeps draft.old draft.new) }
{
    put(draft, &[Do(Eor, Immediate, Byte(128))])?;
    put_op(Sbc, turned(byte), draft)
}

fn put_turned_upper(
    third: OperandByte,
    fourth: OperandByte,
    draft: &mut Draft,
) -> Result<(), AllocError>
    ensures lines { OnOk result (draft.new ≡ with_lines draft.old (turned_upper_code third fourth)) }
    ensures kept { OnErr result (Keeps draft.old draft.new) }
{
    put(draft, &[Do(Lda, ZeroPage, Zero(SREG))])?;
    put_op(Sbc, third, draft)?;
    put(draft, &[Do(Lda, ZeroPage, Zero(SREG + 1))])?;
    put_turned(fourth, draft)
}

// The carry is that of the difference of both sides, each with its sign turned.
fn put_turned_difference(
    relation: Relation,
    sides: Sides,
    draft: &mut Draft,
) -> Result<(), AllocError>
    ensures lines { OnOk result (draft.new ≡ with_lines draft.old (turned_difference_code relation sides)) }
    ensures kept { OnErr result (Keeps draft.old draft.new) }
{
    match sides {
        Sides::Word(low, high) => {
            put_lowest(relation, low, draft)?;
            put(draft, &[Do(Txa, Implied, Nothing)])?;
            put_turned(high, draft)
        }
        Sides::Long(first, second, third, fourth) => {
            put_lowest(relation, first, draft)?;
            put(draft, &[Do(Txa, Implied, Nothing)])?;
            put_op(Sbc, second, draft)?;
            put_turned_upper(third, fourth, draft)
        }
    }
}

// Behind the difference; where it overflows its sign is the other one.
fn put_order(
    relation: Relation,
    is_signed: bool,
    fresh: u32,
    to: u32,
    draft: &mut Draft,
) -> Result<(), AllocError>
    ensures lines { OnOk result (draft.new ≡ with_lines draft.old (order_code relation is_signed fresh to)) }
    ensures kept { OnErr result (Keeps draft.old draft.new) }
{
    if is_signed {
        put(
            draft,
            &[
                Do(Bvc, Relative, To(fresh)),
                Do(Eor, Immediate, Byte(128)),
                Label(fresh),
                Do(by_sign(relation), Relative, To(to)),
            ],
        )
    } else {
        put(
            draft,
            &[Label(fresh), Do(by_carry(relation), Relative, To(to))],
        )
    }
}

fn is_zero_byte(byte: OperandByte) -> bool
    ensures { result ≡ is_zero_byte byte }
{
    matches!(byte, OperandByte::Number(0))
}

fn are_zero(sides: Sides) -> bool
    ensures { result ≡ are_zero sides }
{
    match sides {
        Sides::Word(low, high) => is_zero_byte(low) && is_zero_byte(high),
        Sides::Long(first, second, third, fourth) => {
            is_zero_byte(first)
                && is_zero_byte(second)
                && is_zero_byte(third)
                && is_zero_byte(fourth)
        }
    }
}

// Whether the sign of the left side alone says whether it is less.
fn is_sign_test(relation: Relation, is_signed: bool, sides: Sides) -> bool
    ensures { result ≡ is_sign_test relation is_signed sides }
{
    match relation {
        Relation::Less | Relation::NotLess => is_signed && are_zero(sides),
        _ => false,
    }
}

// The highest byte comes to A.
fn put_highest(sides: Sides, draft: &mut Draft) -> Result<(), AllocError>
    ensures lines { OnOk result (draft.new ≡ with_lines draft.old (highest_code sides)) }
    ensures kept { OnErr result (Keeps draft.old draft.new) }
{
    match sides {
        Sides::Word(_, _) => put(draft, &[Do(Txa, Implied, Nothing)]),
        Sides::Long(_, _, _, _) => put(draft, &[Do(Lda, ZeroPage, Zero(SREG + 1))]),
    }
}

fn put_ordered(
    relation: Relation,
    is_signed: bool,
    sides: Sides,
    fresh: u32,
    to: u32,
    draft: &mut Draft,
) -> Result<(), AllocError>
    ensures lines { OnOk result (draft.new ≡ with_lines draft.old (ordered_code relation is_signed sides fresh to)) }
    ensures kept { OnErr result (Keeps draft.old draft.new) }
{
    if is_sign_test(relation, is_signed, sides) {
        put_highest(sides, draft)?;
        put(
            draft,
            &[Label(fresh), Do(by_sign(relation), Relative, To(to))],
        )
    } else if is_turned(is_signed, sides) {
        put_turned_difference(relation, sides, draft)?;
        put_order(relation, false, fresh, to, draft)
    } else {
        put_difference(relation, sides, draft)?;
        put_order(relation, is_signed, fresh, to, draft)
    }
}

// X and a byte.
fn put_second(byte: OperandByte, draft: &mut Draft) -> Result<(), AllocError>
    ensures lines { OnOk result (draft.new ≡ with_lines draft.old (second_code byte)) }
    ensures kept { OnErr result (Keeps draft.old draft.new) }
{
    if takes_y(byte) {
        put(draft, &[Do(Txa, Implied, Nothing)])?;
        put_op(Cmp, byte, draft)
    } else {
        put_op(Cpx, byte, draft)
    }
}

// Goes where an earlier byte is another; else Z says whether the last one is the same.
fn put_same(sides: Sides, other: u32, draft: &mut Draft) -> Result<(), AllocError>
    ensures lines { OnOk result (draft.new ≡ with_lines draft.old (same_code sides other)) }
    ensures kept { OnErr result (Keeps draft.old draft.new) }
{
    let leave = Do(Bne, Relative, To(other));
    match sides {
        Sides::Word(low, high) => {
            put_op(Cmp, low, draft)?;
            put(draft, &[leave])?;
            put_second(high, draft)
        }
        Sides::Long(first, second, third, fourth) => {
            put_op(Cmp, first, draft)?;
            put(draft, &[leave])?;
            put_second(second, draft)?;
            put(draft, &[leave, Do(Lda, ZeroPage, Zero(SREG))])?;
            put_op(Cmp, third, draft)?;
            put(draft, &[leave, Do(Lda, ZeroPage, Zero(SREG + 1))])?;
            put_op(Cmp, fourth, draft)
        }
    }
}

/// Puts the lines that go to a label where AX or EAX has a relation to a word or a long, and else on.
/// The first label is their own.
pub fn put_compare(
    relation: Relation,
    is_signed: bool,
    sides: Sides,
    fresh: u32,
    to: u32,
    draft: &mut Draft,
) -> Result<(), AllocError>
    ensures lines { OnOk result (draft.new ≡ with_lines draft.old (compare_code relation is_signed sides fresh to)) }
    ensures kept { OnErr result (Keeps draft.old draft.new) }
{
    match relation {
        Relation::Equal => {
            put_same(sides, fresh, draft)?;
            put(draft, &[Do(Beq, Relative, To(to)), Label(fresh)])
        }
        Relation::Unequal => {
            put_same(sides, to, draft)?;
            put(draft, &[Do(Bne, Relative, To(to)), Label(fresh)])
        }
        _ => put_ordered(relation, is_signed, sides, fresh, to, draft),
    }
}

/// Puts the lines that go to a label where A has a relation to a byte, both without sign, and else on.
pub fn put_compare_byte(
    relation: Relation,
    byte: OperandByte,
    to: u32,
    draft: &mut Draft,
) -> Result<(), AllocError>
    ensures lines { OnOk result (draft.new ≡ with_lines draft.old (compare_byte_code relation byte to)) }
    ensures kept { OnErr result (Keeps draft.old draft.new) }
{
    match relation {
        Relation::Equal => {
            put_op(Cmp, byte, draft)?;
            put(draft, &[Do(Beq, Relative, To(to))])
        }
        Relation::Unequal => {
            put_op(Cmp, byte, draft)?;
            put(draft, &[Do(Bne, Relative, To(to))])
        }
        _ => {
            put_lowest(relation, byte, draft)?;
            put(draft, &[Do(by_carry(relation), Relative, To(to))])
        }
    }
}
