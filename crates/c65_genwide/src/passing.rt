// Values that are pushed as parameters, by their bytes (docs/MACHINE.md, "Calls").
ghost use Rattle.std.specs.Prelude.{◌≡◌, OnOk, OnErr};
ghost use Rattle.c65_genwide.specs.Lines.{with_lines, Keeps};
ghost use Rattle.c65_genwide.specs.Passing.{three_code, pass_bytes};

use crate::writing::{put, run};
use c65_code::Line::{Call, Do};
use c65_code::Operand::{Byte, Nothing, Zero};
use c65_code::{Callee, Count, Draft, Routine};
use c65_mach::Mode::{Immediate, Implied, IndirectY, ZeroPage};
use c65_mach::Op::{Iny, Lda, Ldy, Sta, Txa};
use std::alloc::AllocError;

const SP: u8 = 0;

const SREG: u8 = 2;

// A, X and the low byte of sreg, which A then is.
fn pass_three(draft: &mut Draft) -> Result<(), AllocError>
    ensures lines { OnOk result (draft.new ≡ with_lines draft.old three_code) }
    ensures kept { OnErr result (Keeps draft.old draft.new) }
{
    put(
        draft,
        &[
            Call(Callee::Routine(Routine::DecSp(Count::Three))),
            Do(Ldy, Immediate, Byte(0)),
            Do(Sta, IndirectY, Zero(SP)),
            Do(Iny, Implied, Nothing),
            Do(Txa, Implied, Nothing),
            Do(Sta, IndirectY, Zero(SP)),
            Do(Iny, Implied, Nothing),
            Do(Lda, ZeroPage, Zero(SREG)),
            Do(Sta, IndirectY, Zero(SP)),
        ],
    )
}

/// Puts the lines that push so many bytes of the primary register, from 1 to 4: those of A, X and
/// sreg from the lowest on. The primary register is open then.
pub fn pass(bytes: u32, draft: &mut Draft) -> Result<(), AllocError>
    ensures lines { OnOk result (draft.new ≡ with_lines draft.old (pass_bytes bytes)) }
    ensures kept { OnErr result (Keeps draft.old draft.new) }
{
    if bytes < 2 {
        run(draft, Routine::PushA)
    } else if bytes < 3 {
        run(draft, Routine::PushAx)
    } else if bytes < 4 {
        pass_three(draft)
    } else {
        run(draft, Routine::PushEax)
    }
}
