// The end of a function (MACHINE.md, "Calls").
ghost use Rattle.std.specs.Prelude.{◌≡◌, OnOk, OnErr};
ghost use Rattle.c65_genwide.specs.Lines.{with_lines, Keeps};
ghost use Rattle.c65_genentry.specs.Ends.{bank_loads, few_loads, few_restored, restored_code, plain_end, variadic_end, end_code};

use crate::places::{REGBANK, SP, TMP1};
use crate::stack::raise;
use c65_code::Line::Do;
use c65_code::Operand::{Byte, Nothing, Zero};
use c65_code::{Draft, Routine};
use c65_genframe::Frame;
use c65_genwide::{put, run};
use c65_mach::Mode::{Immediate, Implied, IndirectY, ZeroPage};
use c65_mach::Op::{Lda, Ldy, Pha, Pla, Rts, Sta, Tay};
use std::alloc::AllocError;

/// The bytes at sp go to the first ones of regbank.
#[tactic(auto, using(crate::proofs::Repeats::loads_next))]
fn put_bank_loads(bank: u8, draft: &mut Draft) -> Result<(), AllocError>
    ensures lines { OnOk result (draft.new ≡ with_lines draft.old (bank_loads bank)) }
    ensures kept { OnErr result (Keeps draft.old draft.new) }
{
    for byte in 0..bank {
        put(
            draft,
            &[
                Do(Ldy, Immediate, Byte(byte)),
                Do(Lda, IndirectY, Zero(SP)),
                Do(Sta, ZeroPage, Zero(REGBANK.wrapping_add(byte))),
            ],
        )?;
    }
    Ok(())
}

fn put_few_loads(bank: u8, draft: &mut Draft) -> Result<(), AllocError>
    ensures lines { OnOk result (draft.new ≡ with_lines draft.old (few_loads bank)) }
    ensures kept { OnErr result (Keeps draft.old draft.new) }
{
    put(draft, &[Do(Sta, ZeroPage, Zero(TMP1))])?;
    put_bank_loads(bank, draft)?;
    put(draft, &[Do(Lda, ZeroPage, Zero(TMP1))])
}

fn put_few_restored(bank: u8, draft: &mut Draft) -> Result<(), AllocError>
    ensures lines { OnOk result (draft.new ≡ with_lines draft.old (few_restored bank)) }
    ensures kept { OnErr result (Keeps draft.old draft.new) }
{
    put_few_loads(bank, draft)?;
    raise(u16::from(bank), draft)
}

/// The bytes of regbank that were taken are as they were; the primary register stays.
fn put_restored(bank: u8, draft: &mut Draft) -> Result<(), AllocError>
    ensures lines { OnOk result (draft.new ≡ with_lines draft.old (restored_code bank)) }
    ensures kept { OnErr result (Keeps draft.old draft.new) }
{
    if bank == 0 {
        put(draft, &[])
    } else if bank < 6 {
        put_few_restored(bank, draft)
    } else {
        run(draft, Routine::RestRegs)
    }
}

fn put_plain(soft: u16, bank: u8, stacked: u16, draft: &mut Draft) -> Result<(), AllocError>
    ensures lines { OnOk result (draft.new ≡ with_lines draft.old (plain_end soft bank stacked)) }
    ensures kept { OnErr result (Keeps draft.old draft.new) }
{
    raise(soft, draft)?;
    put_restored(bank, draft)?;
    raise(stacked, draft)?;
    put(draft, &[Do(Rts, Implied, Nothing)])
}

/// The number of bytes that the call pushed waits on the hard stack while the rest is removed.
fn put_variadic(soft: u16, bank: u8, draft: &mut Draft) -> Result<(), AllocError>
    ensures lines { OnOk result (draft.new ≡ with_lines draft.old (variadic_end soft bank)) }
    ensures kept { OnErr result (Keeps draft.old draft.new) }
{
    put(
        draft,
        &[
            Do(Sta, ZeroPage, Zero(TMP1)),
            Do(Ldy, Immediate, Byte(0)),
            Do(Lda, IndirectY, Zero(SP)),
            Do(Pha, Implied, Nothing),
            Do(Lda, ZeroPage, Zero(TMP1)),
        ],
    )?;
    raise(soft, draft)?;
    put_restored(bank, draft)?;
    put(
        draft,
        &[
            Do(Sta, ZeroPage, Zero(TMP1)),
            Do(Pla, Implied, Nothing),
            Do(Tay, Implied, Nothing),
            Do(Lda, ZeroPage, Zero(TMP1)),
        ],
    )?;
    run(draft, Routine::AddYSp)?;
    put(draft, &[Do(Rts, Implied, Nothing)])
}

/// Puts the lines at which a function ends: sp is as it was before its parameters were pushed,
/// regbank is as it was at the call, and the primary register stays.
pub fn put_end(frame: &Frame, draft: &mut Draft) -> Result<(), AllocError>
    ensures lines { OnOk result (draft.new ≡ with_lines draft.old (end_code frame.now)) }
    ensures kept { OnErr result (Keeps draft.old draft.new) }
{
    if frame.is_variadic() {
        put_variadic(frame.soft(), frame.bank(), draft)
    } else {
        put_plain(frame.soft(), frame.bank(), frame.stacked(), draft)
    }
}
