// Values that are tested where they lie, and truth values (C90 6.3.8, 6.3.9, 6.3.13, 6.3.14).
ghost use Rattle.std.specs.Prelude.{◌≡◌, ◌+◌, OnOk, OnErr};
ghost use Rattle.c65_genwide.specs.Lines.{with_lines, Keeps};
ghost use Rattle.c65_gendirect.specs.Tests.{or_code, all_zero_code, zero_test_code, truth_code};

use crate::bytes::{OperandByte, put_op};
use c65_code::Draft;
use c65_code::Line::{Do, Label};
use c65_code::Operand::{Byte, To};
use c65_genwide::put;
use c65_mach::Mode::{Immediate, Relative};
use c65_mach::Op::{Beq, Bne, Lda, Ldx, Ora};
use std::alloc::AllocError;

fn put_or(bytes: &[OperandByte], draft: &mut Draft) -> Result<(), AllocError>
    ensures lines { OnOk result (draft.new ≡ with_lines draft.old (or_code bytes.now)) }
    ensures kept { OnErr result (Keeps draft.old draft.new) }
{
    match bytes {
        [] => put(draft, &[]),
        [first, rest @ ..] => {
            put_op(Ora, *first, draft)?;
            put_or(rest, draft)
        }
    }
}

// Z says whether the bytes are all 0.
fn put_all_zero(bytes: &[OperandByte], draft: &mut Draft) -> Result<(), AllocError>
    ensures lines { OnOk result (draft.new ≡ with_lines draft.old (all_zero_code bytes.now)) }
    ensures kept { OnErr result (Keeps draft.old draft.new) }
{
    match bytes {
        [] => put(draft, &[Do(Lda, Immediate, Byte(0))]),
        [first, rest @ ..] => {
            put_op(Lda, *first, draft)?;
            put_or(rest, draft)
        }
    }
}

/// Puts the lines that go to a label where whether some of these bytes is not 0 is `sense`, and else on.
pub fn put_zero_test(
    bytes: &[OperandByte],
    sense: bool,
    to: u32,
    draft: &mut Draft,
) -> Result<(), AllocError>
    ensures lines { OnOk result (draft.new ≡ with_lines draft.old (zero_test_code bytes.now sense to)) }
    ensures kept { OnErr result (Keeps draft.old draft.new) }
{
    put_all_zero(bytes, draft)?;
    put(
        draft,
        &[Do(if sense { Bne } else { Beq }, Relative, To(to))],
    )
}

/// AX is 1; where lines before have gone to the first label it is 0.
pub fn put_truth(no: u32, end: u32, draft: &mut Draft) -> Result<(), AllocError>
    requires { end ≡ no + 1 }
    ensures lines { OnOk result (draft.new ≡ with_lines draft.old (truth_code no)) }
    ensures kept { OnErr result (Keeps draft.old draft.new) }
{
    put(
        draft,
        &[
            Do(Lda, Immediate, Byte(1)),
            Do(Bne, Relative, To(end)),
            Label(no),
            Do(Lda, Immediate, Byte(0)),
            Label(end),
            Do(Ldx, Immediate, Byte(0)),
        ],
    )
}
