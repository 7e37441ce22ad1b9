// The bits that a constant has (C90 6.3.10).
ghost use Rattle.std.specs.Prelude.{◌≡◌, OnOk, OnErr};
ghost use Rattle.c65_genwide.specs.Lines.{with_lines, Keeps};
ghost use Rattle.c65_genload.specs.Numbers.{first, second, third, fourth, mask_code};
ghost use Rattle.c65_genshift.specs.Quick.{mask_word_code, mask_high_code, mask_long_code, mask_by_width};

use crate::zero_page::SREG;
use c65_code::Line::Do;
use c65_code::Operand::{Byte, Nothing, Zero};
use c65_code::{Draft, Width};
use c65_genload::{first, fourth, second, third};
use c65_genwide::put;
use c65_mach::Mode::{Immediate, Implied, ZeroPage};
use c65_mach::Op::{And, Lda, Ldx, Ldy, Sta, Sty, Tax, Tay, Txa, Tya};
use std::alloc::AllocError;

fn mask_word(number: u32, draft: &mut Draft) -> Result<(), AllocError>
    ensures lines { OnOk result (draft.new ≡ with_lines draft.old (mask_word_code number)) }
    ensures kept { OnErr result (Keeps draft.old draft.new) }
{
    if second(number) == 0 {
        put(
            draft,
            &[
                Do(And, Immediate, Byte(first(number))),
                Do(Ldx, Immediate, Byte(0)),
            ],
        )
    } else {
        c65_genload::mask(number, draft)
    }
}

fn mask_high(number: u32, draft: &mut Draft) -> Result<(), AllocError>
    ensures lines { OnOk result (draft.new ≡ with_lines draft.old (mask_high_code number)) }
    ensures kept { OnErr result (Keeps draft.old draft.new) }
{
    put(
        draft,
        &[
            Do(Lda, ZeroPage, Zero(SREG)),
            Do(And, Immediate, Byte(third(number))),
            Do(Sta, ZeroPage, Zero(SREG)),
            Do(Lda, ZeroPage, Zero(SREG + 1)),
            Do(And, Immediate, Byte(fourth(number))),
            Do(Sta, ZeroPage, Zero(SREG + 1)),
        ],
    )
}

fn mask_long(number: u32, draft: &mut Draft) -> Result<(), AllocError>
    ensures lines { OnOk result (draft.new ≡ with_lines draft.old (mask_long_code number)) }
    ensures kept { OnErr result (Keeps draft.old draft.new) }
{
    if number < 65_536 {
        mask_word(number, draft)?;
        return put(
            draft,
            &[
                Do(Ldy, Immediate, Byte(0)),
                Do(Sty, ZeroPage, Zero(SREG)),
                Do(Sty, ZeroPage, Zero(SREG + 1)),
            ],
        );
    }
    put(
        draft,
        &[
            Do(And, Immediate, Byte(first(number))),
            Do(Tay, Implied, Nothing),
            Do(Txa, Implied, Nothing),
            Do(And, Immediate, Byte(second(number))),
            Do(Tax, Implied, Nothing),
        ],
    )?;
    mask_high(number, draft)?;
    put(draft, &[Do(Tya, Implied, Nothing)])
}

/// The bits of the primary register that a number has.
pub fn mask(width: Width, number: u32, draft: &mut Draft) -> Result<(), AllocError>
    ensures lines { OnOk result (draft.new ≡ with_lines draft.old (mask_by_width width number)) }
    ensures kept { OnErr result (Keeps draft.old draft.new) }
{
    match width {
        Width::Ax => mask_word(number, draft),
        Width::Eax => mask_long(number, draft),
    }
}
