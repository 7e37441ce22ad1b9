// The pointer in ptr1: how it comes there, and what is read behind it (C90 6.2.2.1, 6.3.6).
ghost use Rattle.std.specs.Prelude.{◌≡◌, OnOk, OnErr};
ghost use Rattle.c65_genwide.specs.Lines.{with_lines, Keeps};
ghost use Rattle.c65_gendirect.specs.Pointed.{pointer_code, pointed_sum_code, behind_pointer_code};

use crate::bytes::{OperandByte, put_op};
use crate::words::put_first_byte;
use c65_base::BinaryOp;
use c65_code::Draft;
use c65_code::Line::Do;
use c65_code::Operand::{Byte, Nothing, Zero};
use c65_genload::Extent;
use c65_genload::zero_page::PTR1;
use c65_genwide::put;
use c65_mach::Mode::{Immediate, Implied, IndirectY, ZeroPage};
use c65_mach::Op::{Adc, Dey, Lda, Ldy, Sta, Stx, Tax, Txa};
use std::alloc::AllocError;

/// AX goes to ptr1.
pub fn put_pointer(draft: &mut Draft) -> Result<(), AllocError>
    ensures lines { OnOk result (draft.new ≡ with_lines draft.old pointer_code) }
    ensures kept { OnErr result (Keeps draft.old draft.new) }
{
    put(
        draft,
        &[
            Do(Sta, ZeroPage, Zero(PTR1)),
            Do(Stx, ZeroPage, Zero(PTR1 + 1)),
        ],
    )
}

/// The sum of AX and a word goes to ptr1 byte by byte. A and X are then anything.
pub fn put_pointed_sum(
    low: OperandByte,
    high: OperandByte,
    draft: &mut Draft,
) -> Result<(), AllocError>
    ensures lines { OnOk result (draft.new ≡ with_lines draft.old (pointed_sum_code low high)) }
    ensures kept { OnErr result (Keeps draft.old draft.new) }
{
    put_first_byte(BinaryOp::Add, low, draft)?;
    put(
        draft,
        &[Do(Sta, ZeroPage, Zero(PTR1)), Do(Txa, Implied, Nothing)],
    )?;
    put_op(Adc, high, draft)?;
    put(draft, &[Do(Sta, ZeroPage, Zero(PTR1 + 1))])
}

/// One byte so far behind ptr1, at most 250, comes to A, or two come to AX.
pub fn put_behind_pointer(at: u8, extent: Extent, draft: &mut Draft) -> Result<(), AllocError>
    ensures lines { OnOk result (draft.new ≡ with_lines draft.old (behind_pointer_code at extent)) }
    ensures kept { OnErr result (Keeps draft.old draft.new) }
{
    match extent {
        Extent::One => put(
            draft,
            &[Do(Ldy, Immediate, Byte(at)), Do(Lda, IndirectY, Zero(PTR1))],
        ),
        Extent::Two | Extent::Three | Extent::Four => put(
            draft,
            &[
                Do(Ldy, Immediate, Byte(at.wrapping_add(1))),
                Do(Lda, IndirectY, Zero(PTR1)),
                Do(Tax, Implied, Nothing),
                Do(Dey, Implied, Nothing),
                Do(Lda, IndirectY, Zero(PTR1)),
            ],
        ),
    }
}
