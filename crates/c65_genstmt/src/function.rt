// Functions (C90 6.7.1; MACHINE.md, "Calls").
ghost use Rattle.std.specs.Prelude.{◌≡◌, ◌≤◌, ◌^◌, IfOk, OnOk, Ok};
ghost use Rattle.c65_base.specs.Answers.{Gives};
ghost use Rattle.c65_csem.specs.Views.{func_of};
ghost use Rattle.c65_genframe.specs.Modes.{modes_of};
ghost use Rattle.c65_genwide.specs.Lines.{with_lines};
ghost use Rattle.c65_genstmt.specs.Functions.{body_returns, body_room, with_body, main_code, with_function, finished, drafted_of, gives_of, function_of, function_at};

use crate::cases::room_of;
use crate::jumps::Ways;
use crate::stmt::{put_last, returns_last};
use c65_base::{Options, Refusal};
use c65_code::Line::Do;
use c65_code::Operand::Byte;
use c65_code::{Draft, RegSet, Seg, is_segment};
use c65_csem::{Parts, TFunc, TProgram};
use c65_genentry::{fresh, label, put_end, put_entry, reserve};
use c65_genframe::{Frame, Modes, bytes_or, registers};
use c65_genwide::put;
use c65_mach::Mode::Immediate;
use c65_mach::Op::{Lda, Ldx};
use std::alloc::{AllocError, Global};

/// What a function gives, by the type of its result.
fn gives_of(parts: &Parts, function: &TFunc) -> RegSet
    ensures { result ≡ gives_of parts.now (func_of function.now) }
{
    registers(bytes_or(&parts.types, &function.ty.result.ty, 0))
}

/// Reaching the end of main returns 0 (C90 5.1.2.2.3).
fn put_zero(is_main: bool, draft: &mut Draft) -> Result<(), AllocError>
    ensures { OnOk result (draft.new ≡ with_lines draft.old (main_code is_main)) }
{
    if is_main {
        put(
            draft,
            &[Do(Ldx, Immediate, Byte(0)), Do(Lda, Immediate, Byte(0))],
        )
    } else {
        put(draft, &[])
    }
}

fn body_room(function: &TFunc) -> u64
    ensures exact { result ≡ body_room (func_of function.now).body }
    ensures few { result ≤ 2 ^ 32 }
{
    match &function.body {
        Some(body) => room_of(body),
        None => 0,
    }
}

fn put_body(
    alloc: Global,
    function: &TFunc,
    frame: &Frame<'_>,
    draft: &mut Draft,
) -> Result<(), AllocError>
    ensures { OnOk result (draft.new ≡ with_body frame.now (func_of function.now).body draft.old) }
{
    let ways = Ways {
        behind: 0,
        onward: 0,
        other: 0,
    };
    let mut case = 0;
    match &function.body {
        Some(body) => put_last(alloc, body, frame, ways, &mut case, draft),
        None => Ok(()),
    }
}

fn body_returns(function: &TFunc) -> bool
    ensures { result ≡ body_returns (func_of function.now).body }
{
    match &function.body {
        Some(body) => returns_last(body),
        None => false,
    }
}

/// The lines of a function. Label 0 is that of its end, and those of its statements follow.
fn put_function(
    alloc: Global,
    function: &TFunc,
    frame: &Frame<'_>,
    is_main: bool,
    draft: &mut Draft,
) -> Result<(), AllocError>
    ensures { OnOk result (draft.new ≡ with_function frame.now is_main (func_of function.now).body draft.old) }
{
    let end = fresh(draft)?;
    let _ = reserve(draft, body_room(function) as usize)?;
    put_entry(frame, draft)?;
    put_body(alloc, function, frame, draft)?;
    put_zero(is_main && !body_returns(function), draft)?;
    label(draft, end)?;
    put_end(frame, draft)?;
    Ok(())
}

/// The same as a draft.
#[tactic(auto, using(crate::proofs::Drafts::draft_is))]
fn drafted(
    alloc: Global,
    parts: &Parts,
    function: &TFunc,
    frame: &Frame<'_>,
    is_main: bool,
) -> Result<Draft, AllocError>
    ensures { IfOk result (λ d. d ≡ drafted_of parts.now is_main (func_of function.now) frame.now) }
{
    let mut draft = Draft::new(alloc, gives_of(parts, function));
    put_function(alloc, function, frame, is_main, &mut draft)?;
    Ok(draft)
}

/// A segment of the lines. Where they are none, that is refused as want of memory.
#[tactic(auto, using(crate::proofs::Drafts::finished_is))]
fn close(draft: Draft) -> Result<Seg, AllocError>
    ensures { IfOk result (λ s. finished draft ≡ Ok s) }
{
    let _few = draft.labels();
    if is_segment(draft.lines()) {
        Ok(draft.close())
    } else {
        Err(AllocError)
    }
}

/// The segment of a function of a program with these parts.
#[tactic(auto, using(crate::proofs::Answering::memory_fails, crate::proofs::Answering::fails_before, crate::proofs::Answering::goes_on), unfolding(crate::specs::Functions::function_of))]
pub fn segment_of(
    alloc: Global,
    parts: &Parts,
    function: &TFunc,
    is_main: bool,
    modes: Modes,
) -> Result<Seg, Refusal>
    ensures { Gives (λ s. s) result (function_of parts.now is_main modes (func_of function.now)) }
{
    let frame = Frame::of(alloc, parts, function, modes)?;
    let draft = drafted(alloc, parts, function, &frame, is_main)?;
    Ok(close(draft)?)
}

/// The lines of a function of the program, by its number. Refuses `Frame` where its parameters and
/// automatic objects have more than 1,024 bytes, and otherwise for want of memory alone: a number
/// that names no function, more labels than there are, and jumps that have no label are refused so
/// too.
pub fn gen_function(
    alloc: Global,
    program: &TProgram,
    func: u32,
    options: &Options,
) -> Result<Seg, Refusal>
    ensures { Gives (λ s. s) result (function_at program.now.0 program.now.1 (modes_of options.now) func) }
{
    let parts = program.unit().parts();
    match parts.funcs.get(func as usize) {
        Some(function) => {
            let is_main = func == program.main();
            segment_of(alloc, parts, function, is_main, Modes::of(options))
        }
        None => Err(Refusal::OutOfMemory),
    }
}
