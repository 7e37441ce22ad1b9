// Pointers in the zero page, and what is stored through them.
ghost use Rattle.std.specs.Prelude.{◌≡◌, ◌<◌, OnOk, OnErr};
ghost use Rattle.c65_genwide.specs.Lines.{with_lines, Keeps};
ghost use Rattle.c65_genentry.specs.Pointers.{near_code, symbol_code, second_byte, upper_bytes, third_bytes, further_bytes, far_store, clear_code};

use crate::places::{PTR1, REGBANK, SP, SREG, TMP1, TMP2};
use c65_code::Line::Do;
use c65_code::Operand::{Byte, High, Low, Nothing, Zero};
use c65_code::{Draft, Sym};
use c65_genwide::put;
use c65_mach::Mode::{Immediate, Implied, IndirectY, ZeroPage};
use c65_mach::Op::{Adc, Clc, Iny, Lda, Ldy, Sta, Stx};
use std::alloc::AllocError;

/// A pointer in the zero page becomes the address so many bytes above sp. X stays.
pub fn point_near(pointer: u8, at: u16, draft: &mut Draft) -> Result<(), AllocError>
    requires { pointer < 255 }
    ensures lines { OnOk result (draft.new ≡ with_lines draft.old (near_code pointer at)) }
    ensures kept { OnErr result (Keeps draft.old draft.new) }
{
    put(
        draft,
        &[
            Do(Clc, Implied, Nothing),
            Do(Lda, ZeroPage, Zero(SP)),
            Do(Adc, Immediate, Byte((at % 256) as u8)),
            Do(Sta, ZeroPage, Zero(pointer)),
            Do(Lda, ZeroPage, Zero(SP + 1)),
            Do(Adc, Immediate, Byte((at / 256) as u8)),
            Do(Sta, ZeroPage, Zero(pointer + 1)),
        ],
    )
}

/// A pointer in the zero page becomes the address so far behind a symbol. X stays.
pub fn point_symbol(pointer: u8, sym: Sym, at: u16, draft: &mut Draft) -> Result<(), AllocError>
    requires { pointer < 255 }
    ensures lines { OnOk result (draft.new ≡ with_lines draft.old (symbol_code pointer sym at)) }
    ensures kept { OnErr result (Keeps draft.old draft.new) }
{
    put(
        draft,
        &[
            Do(Lda, Immediate, Low(sym, at)),
            Do(Sta, ZeroPage, Zero(pointer)),
            Do(Lda, Immediate, High(sym, at)),
            Do(Sta, ZeroPage, Zero(pointer + 1)),
        ],
    )
}

fn store_second(draft: &mut Draft) -> Result<(), AllocError>
    ensures lines { OnOk result (draft.new ≡ with_lines draft.old second_byte) }
    ensures kept { OnErr result (Keeps draft.old draft.new) }
{
    put(
        draft,
        &[
            Do(Iny, Implied, Nothing),
            Do(Lda, ZeroPage, Zero(TMP2)),
            Do(Sta, IndirectY, Zero(PTR1)),
        ],
    )
}

fn store_upper(draft: &mut Draft) -> Result<(), AllocError>
    ensures lines { OnOk result (draft.new ≡ with_lines draft.old upper_bytes) }
    ensures kept { OnErr result (Keeps draft.old draft.new) }
{
    put(
        draft,
        &[
            Do(Iny, Implied, Nothing),
            Do(Lda, ZeroPage, Zero(SREG)),
            Do(Sta, IndirectY, Zero(PTR1)),
            Do(Iny, Implied, Nothing),
            Do(Lda, ZeroPage, Zero(SREG + 1)),
            Do(Sta, IndirectY, Zero(PTR1)),
        ],
    )
}

fn store_third(bytes: u32, draft: &mut Draft) -> Result<(), AllocError>
    ensures lines { OnOk result (draft.new ≡ with_lines draft.old (third_bytes bytes)) }
    ensures kept { OnErr result (Keeps draft.old draft.new) }
{
    if bytes < 3 {
        put(draft, &[])
    } else {
        store_upper(draft)
    }
}

/// The bytes behind the first one.
fn store_further(bytes: u32, draft: &mut Draft) -> Result<(), AllocError>
    ensures lines { OnOk result (draft.new ≡ with_lines draft.old (further_bytes bytes)) }
    ensures kept { OnErr result (Keeps draft.old draft.new) }
{
    if bytes < 2 {
        put(draft, &[])
    } else {
        store_second(draft)?;
        store_third(bytes, draft)?;
        Ok(())
    }
}

/// So many bytes of the primary register, 1, 2 or 4, go to the place so many bytes above sp. The
/// primary register is open then.
pub fn store_far(at: u16, bytes: u32, draft: &mut Draft) -> Result<(), AllocError>
    ensures lines { OnOk result (draft.new ≡ with_lines draft.old (far_store at bytes)) }
    ensures kept { OnErr result (Keeps draft.old draft.new) }
{
    put(
        draft,
        &[Do(Sta, ZeroPage, Zero(TMP1)), Do(Stx, ZeroPage, Zero(TMP2))],
    )?;
    point_near(PTR1, at, draft)?;
    put(
        draft,
        &[
            Do(Ldy, Immediate, Byte(0)),
            Do(Lda, ZeroPage, Zero(TMP1)),
            Do(Sta, IndirectY, Zero(PTR1)),
        ],
    )?;
    store_further(bytes, draft)?;
    Ok(())
}

/// So many bytes of regbank, 1 or 2, become zero.
pub fn clear_bank(bank: u8, bytes: u32, draft: &mut Draft) -> Result<(), AllocError>
    ensures lines { OnOk result (draft.new ≡ with_lines draft.old (clear_code bank bytes)) }
    ensures kept { OnErr result (Keeps draft.old draft.new) }
{
    let byte = REGBANK.wrapping_add(bank);
    put(
        draft,
        &[Do(Lda, Immediate, Byte(0)), Do(Sta, ZeroPage, Zero(byte))],
    )?;
    if bytes < 2 {
        put(draft, &[])
    } else {
        put(draft, &[Do(Sta, ZeroPage, Zero(byte.wrapping_add(1)))])
    }
}
