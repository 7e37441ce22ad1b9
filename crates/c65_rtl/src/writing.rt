// Lines put behind others.
ghost use Rattle.std.specs.Prelude.{◌≡◌, OnOk};
ghost use Rattle.c65_mach.specs.declared.rows.Op.TheVariants.{Ldy};
ghost use Rattle.c65_rtl.specs.Assembly.{value, with_lines};

use c65_code::{Draft, Line, Operand};
use c65_mach::{Mode, Op};
use std::alloc::AllocError;

/// Puts lines behind those of the draft.
pub fn put(draft: &mut Draft, lines: &[Line]) -> Result<(), AllocError>
    ensures { OnOk result (draft.new ≡ with_lines draft.old lines.now) }
{
    draft.extend(lines)
}

/// Y is a number.
pub fn index(y: u8) -> Line
    ensures { result ≡ value Ldy y }
{
    Line::Do(Op::Ldy, Mode::Immediate, Operand::Byte(y))
}
