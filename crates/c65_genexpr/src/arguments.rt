// What a call passes (docs/MACHINE.md, "Calls").
ghost use Rattle.std.specs.Prelude.{◌≡◌, OnOk, OnErr};
ghost use Rattle.c65_ctype.specs.Views.{ty_of};
ghost use Rattle.c65_csem.specs.Views.{nodes_of, typed_of};
ghost use Rattle.c65_genwide.specs.Lines.{with_lines, Keeps};
ghost use Rattle.c65_genexpr.specs.Arguments.{is_fast, is_counted, stays, clamped, passed_size, joined, nothing_passed, reads_of, argument_code, argument_bytes};

use crate::types::kind_of;
use c65_code::{Draft, Part, RegSet};
use c65_csem::{TExpr, TKind};
use c65_ctype::CType;
use c65_genframe::{Frame, registers};
use c65_genload::bytes_of;
use c65_genwide::{pass, put};
use std::alloc::AllocError;

/// What was passed: how many bytes on the software stack, modulo 256, and how many in registers.
#[derive(Clone, Copy, Debug, PartialEq, Eq)]
pub struct Passed {
    pub stacked: u8,
    pub last: u16,
}

impl Passed {
    pub fn nothing() -> Passed
        ensures { result ≡ nothing_passed }
    {
        Passed {
            stacked: 0,
            last: 0,
        }
    }
}

/// Whether a call of a function to which this type points passes its last argument in registers.
pub fn is_fast(callee: &CType) -> bool
    ensures { result ≡ is_fast (ty_of callee.now) }
{
    match callee {
        CType::Pointer(target) => match &target.ty {
            CType::Function(function) => !(function.variadic || function.cdecl),
            _ => true,
        },
        _ => true,
    }
}

/// Whether it passes the number of bytes in Y.
pub fn is_counted(callee: &CType) -> bool
    ensures { result ≡ is_counted (ty_of callee.now) }
{
    match callee {
        CType::Pointer(target) => match &target.ty {
            CType::Function(function) => function.variadic,
            _ => false,
        },
        _ => false,
    }
}

/// Whether an argument before these stays in registers.
pub fn stays(fast: bool, rest: &[TExpr]) -> bool
    ensures { result ≡ stays fast (nodes_of rest.now) }
{
    match rest {
        [] => fast,
        [_first, _others @ ..] => false,
    }
}

fn clamped(bytes: u32) -> u16
    ensures { result ≡ clamped bytes }
{
    bytes.min(4).max(1) as u16
}

/// The bytes of an argument: those of a structure or union, or of a number; from 1 to 4.
pub fn passed_size(frame: &Frame<'_>, e: &TExpr) -> u16
    ensures { result ≡ passed_size frame.now (typed_of e.now) }
{
    match &e.kind {
        TKind::Pack(_) => clamped(frame.bytes(&e.ty.ty)),
        _ => bytes_of(kind_of(&e.ty.ty)),
    }
}

/// One argument more of so many bytes, before those that were passed.
pub fn joined(kept: bool, bytes: u16, passed: Passed) -> Passed
    ensures { result ≡ joined kept bytes passed }
{
    if kept {
        Passed {
            stacked: passed.stacked,
            last: bytes,
        }
    } else {
        Passed {
            stacked: ((bytes as u32 + passed.stacked as u32) % 256) as u8,
            last: passed.last,
        }
    }
}

/// An argument of so many bytes stays in registers, or goes onto the software stack.
pub fn put_argument(kept: bool, bytes: u16, draft: &mut Draft) -> Result<(), AllocError>
    ensures lines { OnOk result (draft.new ≡ with_lines draft.old (argument_code kept bytes)) }
    ensures kept { OnErr result (Keeps draft.old draft.new) }
{
    if kept {
        put(draft, &[])
    } else {
        pass(bytes as u32, draft)
    }
}

/// The bytes that it takes there.
pub fn argument_bytes(kept: bool, bytes: u16) -> u16
    ensures { result ≡ argument_bytes kept bytes }
{
    if kept { 0 } else { bytes }
}

/// What a call reads.
pub fn reads_of(counted: bool, passed: Passed) -> RegSet
    ensures { result ≡ reads_of counted passed }
{
    if counted {
        RegSet::of(&[Part::Y])
    } else {
        registers(passed.last as u32)
    }
}
