// Conversions, and values that are pushed and tested.
ghost use Rattle.std.specs.Prelude.{◌≡◌, OnOk, OnErr};
ghost use Rattle.c65_genwide.specs.Lines.{with_lines, Keeps};
ghost use Rattle.c65_genload.specs.Conversions.{widen_code, convert_code, push_code, test_code, size_of, waiting};

use crate::zero_page::{SREG, TMP1};
use c65_code::Line::Do;
use c65_code::Operand::Zero;
use c65_code::{Draft, Routine, Width};
use c65_genwide::{narrow, put, run, width_of};
use c65_ints::IntType;
use c65_mach::Mode::ZeroPage;
use c65_mach::Op::{Ora, Stx};
use std::alloc::AllocError;

/// EAX from a value of this type.
fn widen(from: IntType, draft: &mut Draft) -> Result<(), AllocError>
    ensures lines { OnOk result (draft.new ≡ with_lines draft.old (widen_code from)) }
    ensures kept { OnErr result (Keeps draft.old draft.new) }
{
    match from {
        IntType::Long | IntType::ULong => put(draft, &[]),
        IntType::SChar | IntType::Short | IntType::Int => run(draft, Routine::LongAx),
        IntType::UChar | IntType::UShort | IntType::UInt => run(draft, Routine::ULongAx),
    }
}

/// A value of one type becomes one of another (C90 6.2.1.2).
pub fn convert(from: IntType, to: IntType, draft: &mut Draft) -> Result<(), AllocError>
    ensures lines { OnOk result (draft.new ≡ with_lines draft.old (convert_code from to)) }
    ensures kept { OnErr result (Keeps draft.old draft.new) }
{
    match width_of(to) {
        Width::Ax => narrow(to, draft),
        Width::Eax => widen(from, draft),
    }
}

/// The bytes of a value that waits on the software stack.
pub fn waiting(width: Width) -> u16
    ensures { result ≡ waiting width }
{
    match width {
        Width::Ax => 2,
        Width::Eax => 4,
    }
}

/// The bytes of a value of a type.
pub fn bytes_of(kind: IntType) -> u16
    ensures { result ≡ size_of kind }
{
    match kind {
        IntType::SChar | IntType::UChar => 1,
        IntType::Short | IntType::UShort | IntType::Int | IntType::UInt => 2,
        IntType::Long | IntType::ULong => 4,
    }
}

/// The value goes onto the software stack, where it waits.
pub fn push(width: Width, draft: &mut Draft) -> Result<(), AllocError>
    ensures lines { OnOk result (draft.new ≡ with_lines draft.old (push_code width)) }
    ensures kept { OnErr result (Keeps draft.old draft.new) }
{
    match width {
        Width::Ax => run(draft, Routine::PushAx),
        Width::Eax => run(draft, Routine::PushEax),
    }
}

/// The flag Z says whether the value is zero, and A is zero then.
pub fn test(width: Width, draft: &mut Draft) -> Result<(), AllocError>
    ensures lines { OnOk result (draft.new ≡ with_lines draft.old (test_code width)) }
    ensures kept { OnErr result (Keeps draft.old draft.new) }
{
    match width {
        Width::Ax => put(
            draft,
            &[Do(Stx, ZeroPage, Zero(TMP1)), Do(Ora, ZeroPage, Zero(TMP1))],
        ),
        Width::Eax => put(
            draft,
            &[
                Do(Stx, ZeroPage, Zero(TMP1)),
                Do(Ora, ZeroPage, Zero(TMP1)),
                Do(Ora, ZeroPage, Zero(SREG)),
                Do(Ora, ZeroPage, Zero(SREG + 1)),
            ],
        ),
    }
}
