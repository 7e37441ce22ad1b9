use crate::optimise_c02;
use c65_base::{Options, Refusal};
use c65_code::{Draft, Line, Operand, Part, RegSet, Seg, is_segment};
use c65_know::annotate;
use c65_mach::{Mode, Op};
use std::alloc::Global;
use std::test::Fail;

const BACK: Line = Line::Do(Op::Rts, Mode::Implied, Operand::Nothing);

fn segment(alloc: Global, lines: &[Line]) -> Result<Option<Seg>, Refusal> {
    let mut draft = Draft::new(alloc, RegSet::empty().with(Part::A).with(Part::X));
    draft.extend(lines)?;
    if !is_segment(draft.lines()) {
        return Ok(None);
    }
    Ok(Some(draft.close()))
}

// How many rewritings are made of lines, if they are a segment's and become these.
fn made(alloc: Global, old: &[Line], new: &[Line]) -> Result<Option<usize>, Refusal> {
    let Some(seg) = segment(alloc, old)? else {
        return Ok(None);
    };
    let mut code = annotate(alloc, seg)?;
    let made = optimise_c02(alloc, &mut code, &Options::none())?;
    if code.seg().lines() == new {
        Ok(Some(made))
    } else {
        Ok(None)
    }
}

#[test]
fn zeros_steps_and_pointers_are_shorter(rt: HostRuntime) -> Result<(), Fail> {
    let old = [
        Line::Do(Op::Lda, Mode::Immediate, Operand::Byte(0)),
        Line::Do(Op::Sta, Mode::ZeroPage, Operand::Zero(16)),
        Line::Do(Op::Ldy, Mode::Immediate, Operand::Byte(0)),
        Line::Do(Op::Lda, Mode::IndirectY, Operand::Zero(8)),
        Line::Do(Op::Clc, Mode::Implied, Operand::Nothing),
        Line::Do(Op::Adc, Mode::Immediate, Operand::Byte(1)),
        BACK,
    ];
    let new = [
        Line::Do(Op::Stz, Mode::ZeroPage, Operand::Zero(16)),
        Line::Do(Op::Lda, Mode::ZeroPageIndirect, Operand::Zero(8)),
        Line::Do(Op::Inc, Mode::Accumulator, Operand::Nothing),
        BACK,
    ];
    assert!(rt; made(rt.alloc(), &old, &new)? == Some(3));
    Ok(())
}
