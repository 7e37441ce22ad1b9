// The entry of a function (MACHINE.md, "Calls").
ghost use Rattle.std.specs.Prelude.{◌≡◌, ◌<◌, OnOk, OnErr};
ghost use Rattle.c65_genwide.specs.Lines.{with_lines, Keeps};
ghost use Rattle.c65_genentry.specs.Entry.{pushed_code, counted_code, bank_saves, few_saved, saved_code, kept_code, bank_store, near_load, far_load, load_code, moved_code, all_moved, counted_at, counted_store, counted_move, all_counted, raised_moves, early_moves, late_moves, taken_bytes, count_code, checked_code, taking_code, entry_code};

use crate::places::{REGBANK, SP, TMP1, TMP2, TMP3, TMP4};
use crate::stack::lower;
use c65_code::Line::Do;
use c65_code::Operand::{Byte, Nothing, Zero};
use c65_code::{Draft, Routine};
use c65_genframe::{Arrival, Frame, Moved};
use c65_genwide::{pass, put, run};
use c65_mach::Mode::{Immediate, Implied, IndirectY, ZeroPage};
use c65_mach::Op::{Adc, Clc, Iny, Lda, Ldy, Sta, Stx, Tax, Tay, Txa, Tya};
use std::alloc::AllocError;

/// The last parameter goes from the registers onto the software stack.
fn put_pushed(last: Arrival, draft: &mut Draft) -> Result<(), AllocError>
    ensures lines { OnOk result (draft.new ≡ with_lines draft.old (pushed_code last)) }
    ensures kept { OnErr result (Keeps draft.old draft.new) }
{
    match last {
        Arrival::Pushed(bytes) => pass(bytes, draft),
        Arrival::Passed | Arrival::Kept(_, _) => put(draft, &[]),
    }
}

fn store_bank(bank: u8, bytes: u8, draft: &mut Draft) -> Result<(), AllocError>
    ensures lines { OnOk result (draft.new ≡ with_lines draft.old (bank_store bank bytes)) }
    ensures kept { OnErr result (Keeps draft.old draft.new) }
{
    let byte = REGBANK.wrapping_add(bank);
    if bytes < 2 {
        put(draft, &[Do(Sta, ZeroPage, Zero(byte))])
    } else {
        put(
            draft,
            &[
                Do(Sta, ZeroPage, Zero(byte)),
                Do(Stx, ZeroPage, Zero(byte.wrapping_add(1))),
            ],
        )
    }
}

/// The last parameter goes from the registers to regbank.
fn put_kept(last: Arrival, draft: &mut Draft) -> Result<(), AllocError>
    ensures lines { OnOk result (draft.new ≡ with_lines draft.old (kept_code last)) }
    ensures kept { OnErr result (Keeps draft.old draft.new) }
{
    match last {
        Arrival::Kept(bank, bytes) => store_bank(bank, bytes, draft),
        Arrival::Passed | Arrival::Pushed(_) => put(draft, &[]),
    }
}

/// The first bytes of regbank go to those at sp.
#[tactic(auto, using(crate::proofs::Repeats::saves_next))]
fn put_bank_saves(bank: u8, draft: &mut Draft) -> Result<(), AllocError>
    ensures lines { OnOk result (draft.new ≡ with_lines draft.old (bank_saves bank)) }
    ensures kept { OnErr result (Keeps draft.old draft.new) }
{
    for byte in 0..bank {
        put(
            draft,
            &[
                Do(Ldy, Immediate, Byte(byte)),
                Do(Lda, ZeroPage, Zero(REGBANK.wrapping_add(byte))),
                Do(Sta, IndirectY, Zero(SP)),
            ],
        )?;
    }
    Ok(())
}

fn put_few_saved(bank: u8, draft: &mut Draft) -> Result<(), AllocError>
    ensures lines { OnOk result (draft.new ≡ with_lines draft.old (few_saved bank)) }
    ensures kept { OnErr result (Keeps draft.old draft.new) }
{
    lower(u16::from(bank), draft)?;
    put(draft, &[Do(Sta, ZeroPage, Zero(TMP1))])?;
    put_bank_saves(bank, draft)?;
    put(draft, &[Do(Lda, ZeroPage, Zero(TMP1))])
}

/// The bytes of regbank that are taken are saved; the primary register stays.
fn put_saved(bank: u8, draft: &mut Draft) -> Result<(), AllocError>
    ensures lines { OnOk result (draft.new ≡ with_lines draft.old (saved_code bank)) }
    ensures kept { OnErr result (Keeps draft.old draft.new) }
{
    if bank == 0 {
        put(draft, &[])
    } else if bank < 6 {
        put_few_saved(bank, draft)
    } else {
        run(draft, Routine::SaveRegs)
    }
}

/// The number of bytes that the call pushed goes from Y to A.
fn put_counted(variadic: bool, draft: &mut Draft) -> Result<(), AllocError>
    ensures lines { OnOk result (draft.new ≡ with_lines draft.old (counted_code variadic)) }
    ensures kept { OnErr result (Keeps draft.old draft.new) }
{
    if variadic {
        put(draft, &[Do(Tya, Implied, Nothing)])
    } else {
        put(draft, &[])
    }
}

/// That number goes from A to the byte at sp.
fn put_count(variadic: bool, draft: &mut Draft) -> Result<(), AllocError>
    ensures lines { OnOk result (draft.new ≡ with_lines draft.old (count_code variadic)) }
    ensures kept { OnErr result (Keeps draft.old draft.new) }
{
    if variadic {
        run(draft, Routine::PushA)
    } else {
        put(draft, &[])
    }
}

fn load_near(at: u8, bytes: u8, draft: &mut Draft) -> Result<(), AllocError>
    requires { at < 255 }
    ensures lines { OnOk result (draft.new ≡ with_lines draft.old (near_load at bytes)) }
    ensures kept { OnErr result (Keeps draft.old draft.new) }
{
    if bytes < 2 {
        put(
            draft,
            &[Do(Ldy, Immediate, Byte(at)), Do(Lda, IndirectY, Zero(SP))],
        )
    } else {
        put(draft, &[Do(Ldy, Immediate, Byte(at + 1))])?;
        run(draft, Routine::LdAxYSp)
    }
}

fn load_far(at: u16, bytes: u8, draft: &mut Draft) -> Result<(), AllocError>
    ensures lines { OnOk result (draft.new ≡ with_lines draft.old (far_load at bytes)) }
    ensures kept { OnErr result (Keeps draft.old draft.new) }
{
    put(
        draft,
        &[
            Do(Clc, Implied, Nothing),
            Do(Lda, ZeroPage, Zero(SP)),
            Do(Adc, Immediate, Byte((at % 256) as u8)),
            Do(Tay, Implied, Nothing),
            Do(Lda, ZeroPage, Zero(SP + 1)),
            Do(Adc, Immediate, Byte((at / 256) as u8)),
            Do(Tax, Implied, Nothing),
            Do(Tya, Implied, Nothing),
        ],
    )?;
    if bytes < 2 {
        run(draft, Routine::LdAi)
    } else {
        run(draft, Routine::LdAxi)
    }
}

fn load_at(at: u16, bytes: u8, draft: &mut Draft) -> Result<(), AllocError>
    ensures lines { OnOk result (draft.new ≡ with_lines draft.old (load_code at bytes)) }
    ensures kept { OnErr result (Keeps draft.old draft.new) }
{
    if at < 255 {
        load_near(at as u8, bytes, draft)
    } else {
        load_far(at, bytes, draft)
    }
}

/// A parameter goes from the software stack to regbank.
fn put_moved(moved: Moved, draft: &mut Draft) -> Result<(), AllocError>
    ensures lines { OnOk result (draft.new ≡ with_lines draft.old (moved_code moved)) }
    ensures kept { OnErr result (Keeps draft.old draft.new) }
{
    load_at(moved.from, moved.bytes, draft)?;
    store_bank(moved.bank, moved.bytes, draft)
}

#[tactic(auto, using(c65_genwide::proofs::Kept::kept_same, crate::proofs::Kept::kept_lines, crate::proofs::Kept::kept_on))]
fn put_all_moved(all: &[Moved], draft: &mut Draft) -> Result<(), AllocError>
    ensures lines { OnOk result (draft.new ≡ with_lines draft.old (all_moved all.now)) }
    ensures kept { OnErr result (Keeps draft.old draft.new) }
{
    for moved in all {
        put_moved(*moved, draft)?;
    }
    Ok(())
}

/// How much farther than the number of bytes that a variadic call pushed a parameter lies, once regbank is saved.
fn counted_at(soft: u16, stacked: u16, from: u16) -> u8
    ensures { result ≡ counted_at soft stacked from }
{
    ((u32::from(from) + 131_072 - u32::from(soft) - u32::from(stacked)) % 256) as u8
}

/// The byte in A goes to regbank, and the one behind it where there are two.
fn store_counted(bank: u8, bytes: u8, draft: &mut Draft) -> Result<(), AllocError>
    ensures lines { OnOk result (draft.new ≡ with_lines draft.old (counted_store bank bytes)) }
    ensures kept { OnErr result (Keeps draft.old draft.new) }
{
    let byte = REGBANK.wrapping_add(bank);
    if bytes < 2 {
        put(draft, &[Do(Sta, ZeroPage, Zero(byte))])
    } else {
        put(
            draft,
            &[
                Do(Sta, ZeroPage, Zero(byte)),
                Do(Iny, Implied, Nothing),
                Do(Lda, IndirectY, Zero(SP)),
                Do(Sta, ZeroPage, Zero(byte.wrapping_add(1))),
            ],
        )
    }
}

/// A parameter of a variadic function goes to regbank; X holds the number of bytes that the call pushed.
fn put_counted_move(
    soft: u16,
    stacked: u16,
    moved: Moved,
    draft: &mut Draft,
) -> Result<(), AllocError>
    ensures lines { OnOk result (draft.new ≡ with_lines draft.old (counted_move soft stacked moved)) }
    ensures kept { OnErr result (Keeps draft.old draft.new) }
{
    put(
        draft,
        &[
            Do(Txa, Implied, Nothing),
            Do(Clc, Implied, Nothing),
            Do(Adc, Immediate, Byte(counted_at(soft, stacked, moved.from))),
            Do(Tay, Implied, Nothing),
            Do(Lda, IndirectY, Zero(SP)),
        ],
    )?;
    store_counted(moved.bank, moved.bytes, draft)
}

#[tactic(auto, using(c65_genwide::proofs::Kept::kept_same, crate::proofs::Kept::kept_lines, crate::proofs::Kept::kept_on))]
fn put_all_counted(
    soft: u16,
    stacked: u16,
    all: &[Moved],
    draft: &mut Draft,
) -> Result<(), AllocError>
    ensures lines { OnOk result (draft.new ≡ with_lines draft.old (all_counted soft stacked all.now)) }
    ensures kept { OnErr result (Keeps draft.old draft.new) }
{
    for moved in all {
        put_counted_move(soft, stacked, *moved, draft)?;
    }
    Ok(())
}

/// The parameters of a variadic function go to regbank; A holds the number of bytes that the call pushed before and behind.
fn put_raised(soft: u16, stacked: u16, all: &[Moved], draft: &mut Draft) -> Result<(), AllocError>
    ensures lines { OnOk result (draft.new ≡ with_lines draft.old (raised_moves soft stacked all.now)) }
    ensures kept { OnErr result (Keeps draft.old draft.new) }
{
    if all.is_empty() {
        return put(draft, &[]);
    }
    put(draft, &[Do(Tax, Implied, Nothing)])?;
    put_all_counted(soft, stacked, all, draft)?;
    put(draft, &[Do(Txa, Implied, Nothing)])
}

fn put_early(frame: &Frame, draft: &mut Draft) -> Result<(), AllocError>
    ensures lines { OnOk result (draft.new ≡ with_lines draft.old (early_moves frame.now)) }
    ensures kept { OnErr result (Keeps draft.old draft.new) }
{
    if frame.is_variadic() {
        put_raised(frame.soft(), frame.stacked(), frame.moved(), draft)
    } else {
        put(draft, &[])
    }
}

fn put_late(frame: &Frame, draft: &mut Draft) -> Result<(), AllocError>
    ensures lines { OnOk result (draft.new ≡ with_lines draft.old (late_moves frame.now)) }
    ensures kept { OnErr result (Keeps draft.old draft.new) }
{
    if frame.is_variadic() {
        put(draft, &[])
    } else {
        put_all_moved(frame.moved(), draft)
    }
}

/// How many bytes the entry takes before it pushes the number of a variadic call.
fn taken_bytes(variadic: bool, soft: u16) -> u16
    ensures { result ≡ taken_bytes variadic soft }
{
    if variadic {
        soft.saturating_sub(1)
    } else {
        soft
    }
}

/// Both stacks are checked for so many bytes, where they are; A, X and Y stay.
fn put_checked(check: Option<u16>, draft: &mut Draft) -> Result<(), AllocError>
    ensures lines { OnOk result (draft.new ≡ with_lines draft.old (checked_code check)) }
    ensures kept { OnErr result (Keeps draft.old draft.new) }
{
    match check {
        Some(bytes) => {
            put(
                draft,
                &[
                    Do(Sta, ZeroPage, Zero(TMP2)),
                    Do(Lda, Immediate, Byte((bytes % 256) as u8)),
                    Do(Sta, ZeroPage, Zero(TMP3)),
                    Do(Lda, Immediate, Byte((bytes / 256 % 256) as u8)),
                    Do(Sta, ZeroPage, Zero(TMP4)),
                    Do(Lda, ZeroPage, Zero(TMP2)),
                ],
            )?;
            run(draft, Routine::StkChk)
        }
        None => put(draft, &[]),
    }
}

/// The parameter that arrives in registers, and the objects, come to their homes.
fn put_taking(frame: &Frame, draft: &mut Draft) -> Result<(), AllocError>
    ensures lines { OnOk result (draft.new ≡ with_lines draft.old (taking_code frame.now)) }
    ensures kept { OnErr result (Keeps draft.old draft.new) }
{
    put_pushed(frame.last(), draft)?;
    put_counted(frame.is_variadic(), draft)?;
    put_saved(frame.bank(), draft)?;
    put_early(frame, draft)?;
    put_kept(frame.last(), draft)?;
    lower(taken_bytes(frame.is_variadic(), frame.soft()), draft)?;
    put_count(frame.is_variadic(), draft)?;
    put_late(frame, draft)
}

/// Puts the lines at which a function begins. Its objects then have their homes.
pub fn put_entry(frame: &Frame, draft: &mut Draft) -> Result<(), AllocError>
    ensures lines { OnOk result (draft.new ≡ with_lines draft.old (entry_code frame.now)) }
    ensures kept { OnErr result (Keeps draft.old draft.new) }
{
    put_checked(frame.check(), draft)?;
    put_taking(frame, draft)
}
