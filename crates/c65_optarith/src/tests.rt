use crate::optimise_arith;
use c65_base::{Options, Refusal};
use c65_code::{Draft, Line, Operand, Part, RegSet, Seg, is_segment};
use c65_know::annotate;
use c65_mach::{Mode, Op};
use std::alloc::Global;
use std::test::Fail;

const BACK: Line = Line::Do(Op::Rts, Mode::Implied, Operand::Nothing);

const CLEAR_X: Line = Line::Do(Op::Ldx, Mode::Immediate, Operand::Byte(0));

fn byte(op: Op, value: u8) -> Line {
    Line::Do(op, Mode::Immediate, Operand::Byte(value))
}

fn zero(op: Op, at: u8) -> Line {
    Line::Do(op, Mode::ZeroPage, Operand::Zero(at))
}

fn alone(op: Op) -> Line {
    Line::Do(op, Mode::Implied, Operand::Nothing)
}

fn branch(op: Op, label: u32) -> Line {
    Line::Do(op, Mode::Relative, Operand::To(label))
}

fn segment(alloc: Global, lines: &[Line]) -> Result<Option<Seg>, Refusal> {
    let mut draft = Draft::new(alloc, RegSet::empty().with(Part::A).with(Part::X));
    draft.extend(lines)?;
    if !is_segment(draft.lines()) {
        return Ok(None);
    }
    Ok(Some(draft.close()))
}

// How many rewritings are made of lines, if they are a segment's and become these.
fn made(alloc: Global, old: &[Line], new: &[Line]) -> Result<Option<usize>, Refusal> {
    let Some(seg) = segment(alloc, old)? else {
        return Ok(None);
    };
    let mut code = annotate(alloc, seg)?;
    let made = optimise_arith(alloc, &mut code, &Options::none())?;
    if code.seg().lines() == new {
        Ok(Some(made))
    } else {
        Ok(None)
    }
}

#[test]
fn a_sum_with_nothing_goes_with_its_carry(rt: HostRuntime) -> Result<(), Fail> {
    let old = [
        zero(Op::Lda, 16),
        alone(Op::Clc),
        byte(Op::Adc, 0),
        CLEAR_X,
        BACK,
    ];
    let new = [zero(Op::Lda, 16), CLEAR_X, BACK];
    assert!(rt; made(rt.alloc(), &old, &new)? == Some(2));
    Ok(())
}

#[test]
fn a_comparison_of_what_was_loaded_goes(rt: HostRuntime) -> Result<(), Fail> {
    let old = [
        zero(Op::Lda, 16),
        byte(Op::Cmp, 0),
        branch(Op::Beq, 1),
        byte(Op::Lda, 1),
        Line::Label(1),
        CLEAR_X,
        BACK,
    ];
    let new = [
        zero(Op::Lda, 16),
        branch(Op::Beq, 1),
        byte(Op::Lda, 1),
        Line::Label(1),
        CLEAR_X,
        BACK,
    ];
    assert!(rt; made(rt.alloc(), &old, &new)? == Some(1));
    Ok(())
}

#[test]
fn a_comparison_that_gives_the_carry_stays(rt: HostRuntime) -> Result<(), Fail> {
    let lines = [
        zero(Op::Lda, 16),
        byte(Op::Cmp, 0),
        branch(Op::Bcc, 1),
        byte(Op::Lda, 1),
        Line::Label(1),
        CLEAR_X,
        BACK,
    ];
    assert!(rt; made(rt.alloc(), &lines, &lines)? == Some(0));
    Ok(())
}

#[test]
fn masks_become_one(rt: HostRuntime) -> Result<(), Fail> {
    let old = [
        byte(Op::Lda, 0xF0),
        byte(Op::Ora, 0x0C),
        byte(Op::And, 0x3F),
        byte(Op::Eor, 0xFF),
        CLEAR_X,
        BACK,
    ];
    let new = [byte(Op::Lda, 0xC3), CLEAR_X, BACK];
    assert!(rt; made(rt.alloc(), &old, &new)? == Some(3));
    Ok(())
}

#[test]
fn what_nothing_reads_goes(rt: HostRuntime) -> Result<(), Fail> {
    let old = [
        alone(Op::Iny),
        alone(Op::Sec),
        byte(Op::Sbc, 3),
        alone(Op::Dex),
        alone(Op::Inx),
        zero(Op::Cpy, 16),
        byte(Op::Lda, 2),
        byte(Op::And, 255),
        BACK,
    ];
    let new = [byte(Op::Lda, 2), BACK];
    assert!(rt; made(rt.alloc(), &old, &new)? == Some(6));
    Ok(())
}
