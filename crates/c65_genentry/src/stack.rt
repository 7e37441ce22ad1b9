// The software stack's pointer raised and lowered.
ghost use Rattle.std.specs.Prelude.{◌≡◌, OnOk, OnErr};
ghost use Rattle.c65_mach.specs.declared.rows.Op.TheVariants.{Ldy};
ghost use Rattle.c65_genwide.specs.Lines.{value, with_lines, Keeps};
ghost use Rattle.c65_genentry.specs.Stack.{count_of, small_raise, small_lower, raise_code, lower_code};

use c65_code::{Count, Draft, Line, Operand, Routine};
use c65_genwide::{put, run};
use c65_mach::{Mode, Op};
use std::alloc::AllocError;

/// Y is a number.
fn index(y: u8) -> Line
    ensures { result ≡ value Ldy y }
{
    Line::Do(Op::Ldy, Mode::Immediate, Operand::Byte(y))
}

/// The count of a routine that takes no Y; none but of 1 and 2.
fn count_of(bytes: u8) -> Option<Count>
    ensures { result ≡ count_of bytes }
{
    match bytes {
        1 => Some(Count::One),
        2 => Some(Count::Two),
        _ => None,
    }
}

fn small_raise(bytes: u8, draft: &mut Draft) -> Result<(), AllocError>
    ensures lines { OnOk result (draft.new ≡ with_lines draft.old (small_raise bytes)) }
    ensures kept { OnErr result (Keeps draft.old draft.new) }
{
    if bytes == 0 {
        return put(draft, &[]);
    }
    match count_of(bytes) {
        Some(count) => run(draft, Routine::IncSp(count)),
        None => {
            put(draft, &[index(bytes)])?;
            run(draft, Routine::AddYSp)
        }
    }
}

fn small_lower(bytes: u8, draft: &mut Draft) -> Result<(), AllocError>
    ensures lines { OnOk result (draft.new ≡ with_lines draft.old (small_lower bytes)) }
    ensures kept { OnErr result (Keeps draft.old draft.new) }
{
    if bytes == 0 {
        return put(draft, &[]);
    }
    match count_of(bytes) {
        Some(count) => run(draft, Routine::DecSp(count)),
        None => {
            put(draft, &[index(bytes)])?;
            run(draft, Routine::SubYSp)
        }
    }
}

/// sp is raised by so many bytes; A, X and sreg stay.
#[tactic(auto, using(crate::proofs::Repeats::repeated_next))]
pub fn raise(bytes: u16, draft: &mut Draft) -> Result<(), AllocError>
    ensures lines { OnOk result (draft.new ≡ with_lines draft.old (raise_code bytes)) }
    ensures kept { OnErr result (Keeps draft.old draft.new) }
{
    for _round in 0..bytes / 255 {
        small_raise(255, draft)?;
    }
    small_raise((bytes % 255) as u8, draft)
}

/// sp is lowered by so many bytes; A, X and sreg stay.
#[tactic(auto, using(crate::proofs::Repeats::repeated_next))]
pub fn lower(bytes: u16, draft: &mut Draft) -> Result<(), AllocError>
    ensures lines { OnOk result (draft.new ≡ with_lines draft.old (lower_code bytes)) }
    ensures kept { OnErr result (Keeps draft.old draft.new) }
{
    for _round in 0..bytes / 255 {
        small_lower(255, draft)?;
    }
    small_lower((bytes % 255) as u8, draft)
}
