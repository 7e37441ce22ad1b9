// The call behind its arguments (C90 6.3.2.2; docs/MACHINE.md, "Calls").
ghost use Rattle.std.specs.Prelude.{◌≡◌, OnOk, OnErr};
ghost use Rattle.c65_csem.specs.Views.{typed_of};
ghost use Rattle.c65_genwide.specs.Lines.{with_lines, Keeps};
ghost use Rattle.c65_genexpr.specs.Calls.{named, library_at, fetch_code, count_code, named_code, pointer_code, direct_code, result_code};

use crate::arguments::{Passed, reads_of};
use crate::types::{Outcome, given_bytes};
use c65_base::Library;
use c65_code::Line::{Call, Do};
use c65_code::Operand::{Byte, Nothing, Zero};
use c65_code::{Callee, Count, Draft, Routine};
use c65_csem::{TExpr, TKind};
use c65_genframe::{Frame, registers};
use c65_genwide::{narrow, put, run};
use c65_mach::Mode::{Immediate, Implied, IndirectY, ZeroPage};
use c65_mach::Op::{Iny, Lda, Ldy, Sta, Stx};
use std::alloc::AllocError;

const SP: u8 = 0;

const PTR4: u8 = 14;

const TMP1: u8 = 16;

/// The number of a function that is called by its name.
pub fn named(callee: &TExpr) -> Option<u32>
    ensures { result ≡ named (typed_of callee.now) }
{
    match &callee.kind {
        TKind::Decay(inner) => match &inner.kind {
            TKind::Func(function) => Some(*function),
            _ => None,
        },
        _ => None,
    }
}

fn library_at(frame: &Frame<'_>, function: u32) -> Option<Library>
    ensures { result ≡ library_at frame.now function }
{
    match frame.parts().funcs.get(function as usize) {
        Some(found) => found.library,
        None => None,
    }
}

// The number of bytes that were passed goes to Y.
fn put_count(counted: bool, passed: Passed, draft: &mut Draft) -> Result<(), AllocError>
    ensures lines { OnOk result (draft.new ≡ with_lines draft.old (count_code counted passed)) }
    ensures kept { OnErr result (Keeps draft.old draft.new) }
{
    if counted {
        put(draft, &[Do(Ldy, Immediate, Byte(passed.stacked))])
    } else {
        put(draft, &[])
    }
}

// The function's address, which waits below the arguments, goes to ptr4; A, X and sreg stay.
fn put_fetch(passed: Passed, draft: &mut Draft) -> Result<(), AllocError>
    ensures lines { OnOk result (draft.new ≡ with_lines draft.old (fetch_code passed)) }
    ensures kept { OnErr result (Keeps draft.old draft.new) }
{
    put(
        draft,
        &[
            Do(Sta, ZeroPage, Zero(TMP1)),
            Do(Ldy, Immediate, Byte(passed.stacked)),
            Do(Lda, IndirectY, Zero(SP)),
            Do(Sta, ZeroPage, Zero(PTR4)),
            Do(Iny, Implied, Nothing),
            Do(Lda, IndirectY, Zero(SP)),
            Do(Sta, ZeroPage, Zero(PTR4 + 1)),
            Do(Lda, ZeroPage, Zero(TMP1)),
        ],
    )
}

// A character comes back in A alone.
fn put_result(given: Outcome, draft: &mut Draft) -> Result<(), AllocError>
    ensures lines { OnOk result (draft.new ≡ with_lines draft.old (result_code given)) }
    ensures kept { OnErr result (Keeps draft.old draft.new) }
{
    match given {
        Outcome::Number(kind) => narrow(kind, draft),
        Outcome::Nothing | Outcome::Area(_) => put(draft, &[]),
    }
}

/// A call of a function by its name, behind its arguments.
pub fn put_named(
    frame: &Frame<'_>,
    function: u32,
    counted: bool,
    passed: Passed,
    given: Outcome,
    draft: &mut Draft,
) -> Result<(), AllocError>
    ensures lines { OnOk result (draft.new ≡ with_lines draft.old (named_code frame.now function counted passed given)) }
    ensures kept { OnErr result (Keeps draft.old draft.new) }
{
    match library_at(frame, function) {
        Some(library) => {
            put_count(counted, passed, draft)?;
            run(draft, Routine::Library(library))?;
            put_result(given, draft)
        }
        None => {
            put_count(counted, passed, draft)?;
            let symbol = frame.numbers().function(function);
            let reads = reads_of(counted, passed);
            let gives = registers(given_bytes(given));
            put(draft, &[Call(Callee::Function(symbol, reads, gives))])?;
            put_result(given, draft)
        }
    }
}

/// A call through a pointer, behind its arguments, below which the pointer waits.
pub fn put_pointer(
    counted: bool,
    passed: Passed,
    given: Outcome,
    draft: &mut Draft,
) -> Result<(), AllocError>
    ensures lines { OnOk result (draft.new ≡ with_lines draft.old (pointer_code counted passed given)) }
    ensures kept { OnErr result (Keeps draft.old draft.new) }
{
    put_fetch(passed, draft)?;
    put_count(counted, passed, draft)?;
    let reads = reads_of(counted, passed);
    let gives = registers(given_bytes(given));
    put(draft, &[Call(Callee::Pointer(reads, gives))])?;
    run(draft, Routine::IncSp(Count::Two))?;
    put_result(given, draft)
}

/// A call through the pointer in AX, without arguments: the pointer goes to ptr4 at once.
pub fn put_direct(
    counted: bool,
    passed: Passed,
    given: Outcome,
    draft: &mut Draft,
) -> Result<(), AllocError>
    ensures lines { OnOk result (draft.new ≡ with_lines draft.old (direct_code counted passed given)) }
    ensures kept { OnErr result (Keeps draft.old draft.new) }
{
    put(
        draft,
        &[
            Do(Sta, ZeroPage, Zero(PTR4)),
            Do(Stx, ZeroPage, Zero(PTR4 + 1)),
        ],
    )?;
    put_count(counted, passed, draft)?;
    let reads = reads_of(counted, passed);
    let gives = registers(given_bytes(given));
    put(draft, &[Call(Callee::Pointer(reads, gives))])?;
    put_result(given, draft)
}
