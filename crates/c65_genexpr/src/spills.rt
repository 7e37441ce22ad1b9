// The structure or union that a call gives, in the object that takes it (C90 6.3.2.2).
ghost use Rattle.std.specs.Prelude.{◌≡◌, OnOk, OnErr};
ghost use Rattle.c65_genwide.specs.Lines.{with_lines, Keeps};
ghost use Rattle.c65_genexpr.specs.Places.{object_code};
ghost use Rattle.c65_genexpr.specs.Spills.{kept_code, first_code, next_code, further_code, again_code, spill_code};

use crate::places::put_object;
use c65_code::Draft;
use c65_code::Line::Do;
use c65_code::Operand::{Byte, Nothing, Zero};
use c65_genframe::Frame;
use c65_genload::Extent;
use c65_genwide::put;
use c65_mach::Mode::{Immediate, Implied, IndirectY, ZeroPage};
use c65_mach::Op::{Iny, Lda, Ldx, Ldy, Sta, Stx};
use std::alloc::AllocError;

const SREG: u8 = 2;

const PTR1: u8 = 8;

const TMP1: u8 = 16;

const TMP2: u8 = 17;

// A and X wait while the address comes; sreg stays.
fn put_kept(draft: &mut Draft) -> Result<(), AllocError>
    ensures lines { OnOk result (draft.new ≡ with_lines draft.old kept_code) }
    ensures kept { OnErr result (Keeps draft.old draft.new) }
{
    put(
        draft,
        &[Do(Sta, ZeroPage, Zero(TMP1)), Do(Stx, ZeroPage, Zero(TMP2))],
    )
}

// The first byte goes to the address in AX.
fn put_first(draft: &mut Draft) -> Result<(), AllocError>
    ensures lines { OnOk result (draft.new ≡ with_lines draft.old first_code) }
    ensures kept { OnErr result (Keeps draft.old draft.new) }
{
    put(
        draft,
        &[
            Do(Sta, ZeroPage, Zero(PTR1)),
            Do(Stx, ZeroPage, Zero(PTR1 + 1)),
            Do(Ldy, Immediate, Byte(0)),
            Do(Lda, ZeroPage, Zero(TMP1)),
            Do(Sta, IndirectY, Zero(PTR1)),
        ],
    )
}

// A byte of the zero page behind it.
fn put_next(byte: u8, draft: &mut Draft) -> Result<(), AllocError>
    ensures lines { OnOk result (draft.new ≡ with_lines draft.old (next_code byte)) }
    ensures kept { OnErr result (Keeps draft.old draft.new) }
{
    put(
        draft,
        &[
            Do(Iny, Implied, Nothing),
            Do(Lda, ZeroPage, Zero(byte)),
            Do(Sta, IndirectY, Zero(PTR1)),
        ],
    )
}

// The bytes behind the first one.
fn put_further(extent: Extent, draft: &mut Draft) -> Result<(), AllocError>
    ensures lines { OnOk result (draft.new ≡ with_lines draft.old (further_code extent)) }
    ensures kept { OnErr result (Keeps draft.old draft.new) }
{
    match extent {
        Extent::One => put(draft, &[]),
        Extent::Two => put_next(TMP2, draft),
        Extent::Three => {
            put_next(TMP2, draft)?;
            put_next(SREG, draft)
        }
        Extent::Four => {
            put_next(TMP2, draft)?;
            put_next(SREG, draft)?;
            put_next(SREG + 1, draft)
        }
    }
}

// AX is the address again.
fn put_again(draft: &mut Draft) -> Result<(), AllocError>
    ensures lines { OnOk result (draft.new ≡ with_lines draft.old again_code) }
    ensures kept { OnErr result (Keeps draft.old draft.new) }
{
    put(
        draft,
        &[
            Do(Lda, ZeroPage, Zero(PTR1)),
            Do(Ldx, ZeroPage, Zero(PTR1 + 1)),
        ],
    )
}

/// So many bytes of the primary register go to an object, which is not in regbank and is no parameter
/// of a variadic function. AX is its address then.
pub fn put_spill(
    frame: &Frame<'_>,
    pushed: u16,
    object: u32,
    extent: Extent,
    draft: &mut Draft,
) -> Result<(), AllocError>
    ensures lines { OnOk result (draft.new ≡ with_lines draft.old (spill_code (object_code frame.now pushed object) extent)) }
    ensures kept { OnErr result (Keeps draft.old draft.new) }
{
    put_kept(draft)?;
    put_object(frame, pushed, object, draft)?;
    put_first(draft)?;
    put_further(extent, draft)?;
    put_again(draft)
}
