use crate::optimise_load;
use c65_base::{Options, Refusal};
use c65_code::{Draft, Line, Operand, Part, RegSet, Seg, is_segment};
use c65_know::annotate;
use c65_mach::{Mode, Op};
use std::alloc::Global;
use std::test::Fail;

const BACK: Line = Line::Do(Op::Rts, Mode::Implied, Operand::Nothing);

fn of_byte(op: Op, value: u8) -> Line {
    Line::Do(op, Mode::Immediate, Operand::Byte(value))
}

fn of_zero_page(op: Op, byte: u8) -> Line {
    Line::Do(op, Mode::ZeroPage, Operand::Zero(byte))
}

fn alone(op: Op) -> Line {
    Line::Do(op, Mode::Implied, Operand::Nothing)
}

fn branch(op: Op, label: u32) -> Line {
    Line::Do(op, Mode::Relative, Operand::To(label))
}

// A function that gives A and X.
fn segment(alloc: Global, lines: &[Line]) -> Result<Option<Seg>, Refusal> {
    let mut draft = Draft::new(alloc, RegSet::empty().with(Part::A).with(Part::X));
    draft.extend(lines)?;
    if !is_segment(draft.lines()) {
        return Ok(None);
    }
    Ok(Some(draft.close()))
}

// How many rewritings are made of lines, if they are a segment's and become these.
fn made(alloc: Global, old: &[Line], new: &[Line]) -> Result<Option<usize>, Refusal> {
    let Some(seg) = segment(alloc, old)? else {
        return Ok(None);
    };
    let mut code = annotate(alloc, seg)?;
    let made = optimise_load(alloc, &mut code, &Options::none())?;
    if code.seg().lines() == new {
        Ok(Some(made))
    } else {
        Ok(None)
    }
}

#[test]
fn a_store_that_is_read_round_a_loop_stays(rt: HostRuntime) -> Result<(), Fail> {
    let lines = [
        of_byte(Op::Ldx, 3),
        Line::Label(1),
        of_zero_page(Op::Lda, 18),
        alone(Op::Dex),
        of_zero_page(Op::Stx, 18),
        branch(Op::Bne, 1),
        BACK,
    ];
    assert!(rt; made(rt.alloc(), &lines, &lines)? == Some(0));
    Ok(())
}

#[test]
fn a_store_that_is_not_read_goes(rt: HostRuntime) -> Result<(), Fail> {
    let old = [
        of_byte(Op::Ldx, 3),
        Line::Label(1),
        alone(Op::Dex),
        of_zero_page(Op::Stx, 18),
        branch(Op::Bne, 1),
        of_byte(Op::Lda, 1),
        BACK,
    ];
    let new = [
        of_byte(Op::Ldx, 3),
        Line::Label(1),
        alone(Op::Dex),
        branch(Op::Bne, 1),
        of_byte(Op::Lda, 1),
        BACK,
    ];
    assert!(rt; made(rt.alloc(), &old, &new)? == Some(1));
    Ok(())
}

#[test]
fn what_is_known_before_a_loop_is_not_known_in_it(rt: HostRuntime) -> Result<(), Fail> {
    let lines = [
        of_byte(Op::Lda, 0),
        of_byte(Op::Ldx, 0),
        Line::Label(1),
        of_byte(Op::Lda, 0),
        alone(Op::Clc),
        of_byte(Op::Adc, 7),
        branch(Op::Bcc, 1),
        BACK,
    ];
    let new = [
        of_byte(Op::Ldx, 0),
        Line::Label(1),
        of_byte(Op::Lda, 0),
        alone(Op::Clc),
        of_byte(Op::Adc, 7),
        branch(Op::Bcc, 1),
        BACK,
    ];
    assert!(rt; made(rt.alloc(), &lines, &new)? == Some(1));
    Ok(())
}

#[test]
fn loads_of_what_registers_have_become_transfers_or_go(rt: HostRuntime) -> Result<(), Fail> {
    let old = [
        of_byte(Op::Lda, 5),
        of_byte(Op::Cmp, 7),
        of_byte(Op::Ldx, 5),
        of_byte(Op::Ldx, 6),
        of_byte(Op::Lda, 5),
        BACK,
    ];
    let new = [
        of_byte(Op::Lda, 5),
        of_byte(Op::Cmp, 7),
        of_byte(Op::Ldx, 6),
        BACK,
    ];
    assert!(rt; made(rt.alloc(), &old, &new)?.is_some());
    Ok(())
}
