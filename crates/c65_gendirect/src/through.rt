// Values stored through a pointer, where the value or the pointer is read where it lies (C90 6.3.16.1).
ghost use Rattle.std.specs.Prelude.{◌≡◌, OnOk, OnErr};
ghost use Rattle.c65_genwide.specs.Lines.{with_lines, Keeps};
ghost use Rattle.c65_gendirect.specs.Through.{read_bytes_code, point_code, byte_through_code, word_through_code};

use crate::bytes::{OperandByte, put_op};
use c65_code::Draft;
use c65_code::Line::Do;
use c65_code::Operand::{Byte, Nothing, Zero};
use c65_genload::zero_page::PTR1;
use c65_genwide::put;
use c65_mach::Mode::{Immediate, Implied, IndirectY, ZeroPage};
use c65_mach::Op::{Dey, Lda, Ldy, Pha, Pla, Sta, Tax, Txa};
use std::alloc::AllocError;

/// The bytes of a value that is read where it lies, from the lowest on.
#[derive(Clone, Copy, Debug, PartialEq, Eq)]
pub enum Stored {
    Single(OperandByte),
    Word(OperandByte, OperandByte),
    /// A word that no store changes.
    Fixed(OperandByte, OperandByte),
}

/// A value that is read goes so far behind the pointer in ptr1, and is in A or in AX then. A word that lies
/// where it may change is read whole before a byte of it is stored, as the two may overlap.
pub fn put_read_bytes(at: u8, stored: Stored, draft: &mut Draft) -> Result<(), AllocError>
    ensures lines { OnOk result (draft.new ≡ with_lines draft.old (read_bytes_code at stored)) }
    ensures kept { OnErr result (Keeps draft.old draft.new) }
{
    let last = at.wrapping_add(1);
    match stored {
        Stored::Single(low) => {
            put_op(Lda, low, draft)?;
            put(
                draft,
                &[Do(Ldy, Immediate, Byte(at)), Do(Sta, IndirectY, Zero(PTR1))],
            )
        }
        Stored::Word(low, high) => {
            put_op(Lda, low, draft)?;
            put(draft, &[Do(Pha, Implied, Nothing)])?;
            put_op(Lda, high, draft)?;
            put(
                draft,
                &[
                    Do(Ldy, Immediate, Byte(last)),
                    Do(Sta, IndirectY, Zero(PTR1)),
                    Do(Tax, Implied, Nothing),
                    Do(Dey, Implied, Nothing),
                    Do(Pla, Implied, Nothing),
                    Do(Sta, IndirectY, Zero(PTR1)),
                ],
            )
        }
        Stored::Fixed(low, high) => {
            put_op(Lda, high, draft)?;
            put(
                draft,
                &[
                    Do(Ldy, Immediate, Byte(last)),
                    Do(Sta, IndirectY, Zero(PTR1)),
                    Do(Tax, Implied, Nothing),
                ],
            )?;
            put_op(Lda, low, draft)?;
            put(
                draft,
                &[Do(Ldy, Immediate, Byte(at)), Do(Sta, IndirectY, Zero(PTR1))],
            )
        }
    }
}

// ptr1 is a pointer that is read; X stays.
fn put_point(low: OperandByte, high: OperandByte, draft: &mut Draft) -> Result<(), AllocError>
    ensures lines { OnOk result (draft.new ≡ with_lines draft.old (point_code low high)) }
    ensures kept { OnErr result (Keeps draft.old draft.new) }
{
    put_op(Lda, low, draft)?;
    put(draft, &[Do(Sta, ZeroPage, Zero(PTR1))])?;
    put_op(Lda, high, draft)?;
    put(draft, &[Do(Sta, ZeroPage, Zero(PTR1 + 1))])
}

/// A goes so far behind a pointer whose bytes are read, and stays.
pub fn put_byte_through(
    at: u8,
    low: OperandByte,
    high: OperandByte,
    draft: &mut Draft,
) -> Result<(), AllocError>
    ensures lines { OnOk result (draft.new ≡ with_lines draft.old (byte_through_code at low high)) }
    ensures kept { OnErr result (Keeps draft.old draft.new) }
{
    put(draft, &[Do(Tax, Implied, Nothing)])?;
    put_point(low, high, draft)?;
    put(
        draft,
        &[
            Do(Txa, Implied, Nothing),
            Do(Ldy, Immediate, Byte(at)),
            Do(Sta, IndirectY, Zero(PTR1)),
        ],
    )
}

/// AX goes so far behind a pointer whose bytes are read, and stays.
pub fn put_word_through(
    at: u8,
    low: OperandByte,
    high: OperandByte,
    draft: &mut Draft,
) -> Result<(), AllocError>
    ensures lines { OnOk result (draft.new ≡ with_lines draft.old (word_through_code at low high)) }
    ensures kept { OnErr result (Keeps draft.old draft.new) }
{
    put(draft, &[Do(Pha, Implied, Nothing)])?;
    put_point(low, high, draft)?;
    put(
        draft,
        &[
            Do(Ldy, Immediate, Byte(at.wrapping_add(1))),
            Do(Txa, Implied, Nothing),
            Do(Sta, IndirectY, Zero(PTR1)),
            Do(Dey, Implied, Nothing),
            Do(Pla, Implied, Nothing),
            Do(Sta, IndirectY, Zero(PTR1)),
        ],
    )
}
