// A word that waits in ptr2 while the lines of another value come.
ghost use Rattle.std.specs.Prelude.{◌≡◌, OnOk, OnErr};
ghost use Rattle.c65_gendirect.specs.declared.compare.Sides.TheVariants.{Word};
ghost use Rattle.c65_genwide.specs.Lines.{with_lines, Keeps};
ghost use Rattle.c65_genexpr.specs.Held.{held_low, held_high, keep_code, keep_byte_code, byte_behind_code, word_behind_code};

use c65_code::Draft;
use c65_code::Line::Do;
use c65_code::Operand::{Byte, Nothing, Zero};
use c65_gendirect::{OperandByte, Sides};
use c65_genwide::put;
use c65_mach::Mode::{Immediate, Implied, IndirectY, ZeroPage};
use c65_mach::Op::{Ldy, Pha, Pla, Sta, Stx, Txa};
use std::alloc::AllocError;

/// Where the word waits.
pub const PTR2: u8 = 10;

/// The low byte of the word that waits.
pub fn held_low() -> OperandByte
    ensures { result ≡ held_low }
{
    OperandByte::Zero(PTR2)
}

/// Its high byte.
pub fn held_high() -> OperandByte
    ensures { result ≡ held_high }
{
    OperandByte::Zero(PTR2 + 1)
}

/// The word as a side of a comparison.
pub fn held_word() -> Sides
    ensures { result ≡ Word held_low held_high }
{
    Sides::Word(held_low(), held_high())
}

/// AX begins to wait.
pub fn put_keep(draft: &mut Draft) -> Result<(), AllocError>
    ensures lines { OnOk result (draft.new ≡ with_lines draft.old keep_code) }
    ensures kept { OnErr result (Keeps draft.old draft.new) }
{
    put(
        draft,
        &[
            Do(Sta, ZeroPage, Zero(PTR2)),
            Do(Stx, ZeroPage, Zero(PTR2 + 1)),
        ],
    )
}

/// A begins to wait.
pub fn put_keep_byte(draft: &mut Draft) -> Result<(), AllocError>
    ensures lines { OnOk result (draft.new ≡ with_lines draft.old keep_byte_code) }
    ensures kept { OnErr result (Keeps draft.old draft.new) }
{
    put(draft, &[Do(Sta, ZeroPage, Zero(PTR2))])
}

/// A goes so far behind the address that waits.
pub fn put_byte_behind(at: u8, draft: &mut Draft) -> Result<(), AllocError>
    ensures lines { OnOk result (draft.new ≡ with_lines draft.old (byte_behind_code at)) }
    ensures kept { OnErr result (Keeps draft.old draft.new) }
{
    put(
        draft,
        &[Do(Ldy, Immediate, Byte(at)), Do(Sta, IndirectY, Zero(PTR2))],
    )
}

/// AX goes so far behind the address that waits, and stays.
pub fn put_word_behind(at: u8, draft: &mut Draft) -> Result<(), AllocError>
    ensures lines { OnOk result (draft.new ≡ with_lines draft.old (word_behind_code at)) }
    ensures kept { OnErr result (Keeps draft.old draft.new) }
{
    put(
        draft,
        &[
            Do(Ldy, Immediate, Byte(at)),
            Do(Sta, IndirectY, Zero(PTR2)),
            Do(Pha, Implied, Nothing),
            Do(Txa, Implied, Nothing),
            Do(Ldy, Immediate, Byte(at.wrapping_add(1))),
            Do(Sta, IndirectY, Zero(PTR2)),
            Do(Pla, Implied, Nothing),
        ],
    )
}
