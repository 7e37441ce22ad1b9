// The check of the stacks with which a function begins where it is asked for (docs/MACHINE.md, "Routines").
ghost use Rattle.std.specs.Prelude.{◌≡◌, OnOk};
ghost use Rattle.c65_rtl.specs.Assembly.{with_pieces};
ghost use Rattle.c65_rtl.specs.Check.{check_pieces};

use crate::library::END;
use crate::places::{SP, TMP1, TMP2, TMP3, TMP4};
use crate::writing::put;
use c65_code::Line::{Do, Label};
use c65_code::Operand::{Byte, Nothing, To, Zero};
use c65_code::{Draft, Line};
use c65_mach::Mode::{Immediate, Implied, Relative, ZeroPage};
use c65_mach::Op::{Bcc, Cmp, Lda, Ldx, Rts, Sbc, Sec, Sta, Stx, Tsx, Txa};
use std::alloc::AllocError;

// sp less the number in tmp3 and tmp4 against $F830, and S, two bytes lower than before the call, against 29.
const CHECK: [Line; 24] = [
    Do(Sta, ZeroPage, Zero(TMP1)),
    Do(Lda, ZeroPage, Zero(SP)),
    Do(Sec, Implied, Nothing),
    Do(Sbc, ZeroPage, Zero(TMP3)),
    Do(Sta, ZeroPage, Zero(TMP3)),
    Do(Lda, ZeroPage, Zero(SP + 1)),
    Do(Sbc, ZeroPage, Zero(TMP4)),
    Do(Bcc, Relative, To(0)),
    Do(Sta, ZeroPage, Zero(TMP4)),
    Do(Lda, ZeroPage, Zero(TMP3)),
    Do(Cmp, Immediate, Byte(0x30)),
    Do(Lda, ZeroPage, Zero(TMP4)),
    Do(Sbc, Immediate, Byte(0xF8)),
    Do(Bcc, Relative, To(0)),
    Do(Stx, ZeroPage, Zero(TMP2)),
    Do(Tsx, Implied, Nothing),
    Do(Txa, Implied, Nothing),
    Do(Ldx, ZeroPage, Zero(TMP2)),
    Do(Cmp, Immediate, Byte(29)),
    Do(Bcc, Relative, To(0)),
    Do(Lda, ZeroPage, Zero(TMP1)),
    Do(Rts, Implied, Nothing),
    Label(0),
    Do(Lda, Immediate, Byte(240)),
];

/// `stkchk`: it comes back with A, X, Y and sreg as they were, or ends the run with status 240.
pub fn check(draft: &mut Draft) -> Result<(), AllocError>
    ensures { OnOk result (draft.new ≡ with_pieces draft.old check_pieces) }
{
    put(draft, &CHECK)?;
    put(draft, &END)
}
