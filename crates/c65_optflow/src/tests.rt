use crate::optimise_flow;
use c65_base::{Options, Refusal};
use c65_code::{Draft, Line, Operand, Part, RegSet, Seg, is_segment};
use c65_know::annotate;
use c65_mach::{Mode, Op};
use std::alloc::Global;
use std::test::Fail;

const BACK: Line = Line::Do(Op::Rts, Mode::Implied, Operand::Nothing);

const CLEAR_X: Line = Line::Do(Op::Ldx, Mode::Immediate, Operand::Byte(0));

fn load(value: u8) -> Line {
    Line::Do(Op::Lda, Mode::Immediate, Operand::Byte(value))
}

fn jump(label: u32) -> Line {
    Line::Do(Op::Jmp, Mode::Absolute, Operand::To(label))
}

fn branch(op: Op, label: u32) -> Line {
    Line::Do(op, Mode::Relative, Operand::To(label))
}

fn segment(alloc: Global, lines: &[Line]) -> Result<Option<Seg>, Refusal> {
    let mut draft = Draft::new(alloc, RegSet::empty().with(Part::A).with(Part::X));
    draft.extend(lines)?;
    if !is_segment(draft.lines()) {
        return Ok(None);
    }
    Ok(Some(draft.close()))
}

// How many rewritings are made of lines, if they are a segment's and become these.
fn made(alloc: Global, old: &[Line], new: &[Line]) -> Result<Option<usize>, Refusal> {
    let Some(seg) = segment(alloc, old)? else {
        return Ok(None);
    };
    let mut code = annotate(alloc, seg)?;
    let made = optimise_flow(alloc, &mut code, &Options::none())?;
    if code.seg().lines() == new {
        Ok(Some(made))
    } else {
        Ok(None)
    }
}

#[test]
fn a_jump_over_a_load_goes_with_its_label(rt: HostRuntime) -> Result<(), Fail> {
    let old = [jump(1), load(1), Line::Label(1), load(2), CLEAR_X, BACK];
    let new = [load(2), CLEAR_X, BACK];
    assert!(rt; made(rt.alloc(), &old, &new)? == Some(3));
    Ok(())
}

#[test]
fn what_no_rule_matches_stays(rt: HostRuntime) -> Result<(), Fail> {
    let lines = [Line::Label(1), load(2), branch(Op::Bcc, 1), BACK];
    assert!(rt; made(rt.alloc(), &lines, &lines)? == Some(0));
    Ok(())
}

#[test]
fn a_branch_round_a_jump_is_turned(rt: HostRuntime) -> Result<(), Fail> {
    let old = [
        branch(Op::Bvc, 1),
        jump(2),
        Line::Label(1),
        load(1),
        Line::Label(2),
        BACK,
    ];
    let new = [branch(Op::Bvs, 2), load(1), Line::Label(2), BACK];
    assert!(rt; made(rt.alloc(), &old, &new)? == Some(2));
    Ok(())
}

#[test]
fn a_branch_that_is_taken_passes_over_a_load(rt: HostRuntime) -> Result<(), Fail> {
    let old = [
        load(0),
        branch(Op::Beq, 1),
        load(1),
        Line::Label(1),
        CLEAR_X,
        BACK,
    ];
    let new = [load(0), CLEAR_X, BACK];
    assert!(rt; made(rt.alloc(), &old, &new)? == Some(3));
    Ok(())
}

#[test]
fn a_chain_of_jumps_is_left_out(rt: HostRuntime) -> Result<(), Fail> {
    let old = [
        Line::Label(4),
        load(1),
        branch(Op::Bcs, 1),
        BACK,
        Line::Label(1),
        jump(2),
        Line::Label(3),
        CLEAR_X,
        jump(4),
        Line::Label(2),
        jump(3),
    ];
    let new = [
        Line::Label(4),
        load(1),
        branch(Op::Bcs, 3),
        BACK,
        Line::Label(3),
        CLEAR_X,
        jump(4),
    ];
    assert!(rt; made(rt.alloc(), &old, &new)? == Some(6));
    Ok(())
}
