// Addresses (C90 6.3.3.2).
ghost use Rattle.std.specs.Prelude.{◌≡◌, OnOk, OnErr};
ghost use Rattle.c65_genwide.specs.Lines.{with_lines, Keeps};
ghost use Rattle.c65_genload.specs.Addresses.{symbol_code, address_code, raised_code, offset_code};

use crate::numbers::add;
use crate::zero_page::SP;
use c65_code::Line::Do;
use c65_code::Operand::{Byte, High, Low, Nothing, Zero};
use c65_code::{Draft, Routine, Sym};
use c65_genwide::{put, run};
use c65_ints::IntType;
use c65_mach::Mode::{Immediate, Implied, ZeroPage};
use c65_mach::Op::{Adc, Clc, Lda, Ldx, Tax, Tay, Tya};
use std::alloc::AllocError;

/// AX is an address behind a symbol.
pub fn put_symbol(sym: Sym, at: u16, draft: &mut Draft) -> Result<(), AllocError>
    ensures lines { OnOk result (draft.new ≡ with_lines draft.old (symbol_code sym at)) }
    ensures kept { OnErr result (Keeps draft.old draft.new) }
{
    put(
        draft,
        &[
            Do(Ldx, Immediate, High(sym, at)),
            Do(Lda, Immediate, Low(sym, at)),
        ],
    )
}

/// AX is the address so many bytes above sp.
pub fn put_address(at: u16, draft: &mut Draft) -> Result<(), AllocError>
    ensures lines { OnOk result (draft.new ≡ with_lines draft.old (address_code at)) }
    ensures kept { OnErr result (Keeps draft.old draft.new) }
{
    put(
        draft,
        &[
            Do(Clc, Implied, Nothing),
            Do(Lda, ZeroPage, Zero(SP)),
            Do(Adc, Immediate, Byte((at % 256) as u8)),
            Do(Tay, Implied, Nothing),
            Do(Lda, ZeroPage, Zero(SP + 1)),
            Do(Adc, Immediate, Byte((at / 256) as u8)),
            Do(Tax, Implied, Nothing),
            Do(Tya, Implied, Nothing),
        ],
    )
}

/// AX is the address so many bytes above sp, and higher by the number in the byte so many bytes
/// above sp.
pub fn put_raised(counter: u16, at: u16, draft: &mut Draft) -> Result<(), AllocError>
    ensures lines { OnOk result (draft.new ≡ with_lines draft.old (raised_code counter at)) }
    ensures kept { OnErr result (Keeps draft.old draft.new) }
{
    put_address(counter, draft)?;
    run(draft, Routine::LdAi)?;
    put(
        draft,
        &[
            Do(Clc, Implied, Nothing),
            Do(Adc, ZeroPage, Zero(SP)),
            Do(Tay, Implied, Nothing),
            Do(Lda, Immediate, Byte(0)),
            Do(Adc, ZeroPage, Zero(SP + 1)),
            Do(Tax, Implied, Nothing),
            Do(Tya, Implied, Nothing),
        ],
    )?;
    add(IntType::UInt, at as u32, draft)
}

/// The address in AX goes on by so many bytes.
pub fn put_offset(offset: u32, draft: &mut Draft) -> Result<(), AllocError>
    ensures lines { OnOk result (draft.new ≡ with_lines draft.old (offset_code offset)) }
    ensures kept { OnErr result (Keeps draft.old draft.new) }
{
    if offset == 0 {
        put(draft, &[])
    } else {
        add(IntType::UInt, offset, draft)
    }
}
