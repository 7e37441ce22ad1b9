//! Prints what the routines of the runtime take, for measuring: `c65_bench_runtime` of each that calls nothing, `c65_bench_runtime NAME ..`
//! of these. A line has the name, the bytes, the cycles on one state, the call's six and those of RTS counted, and that
//! state's EAX, Y and four bytes at sp.
#![tactic(auto)]

mod cases;
mod placing;

use c65_base::Refusal;
use c65_code::{Routine, Seg};
use c65_mach::{Machine, Regs, step};
use c65_rtl::{is_narrow, routine};
use c65_rtlwide::{is_wide, wide_routine};
use cases::{Case, case_of, routines};
use placing::put_lines;
use std::alloc::Global;
use std::env;

// Where a routine stands, where it comes back to, and what sp is.
const FIRST: u16 = 0x0200;

const BACK: u16 = 0xFE00;

const SP: u16 = 0xFA10;

fn segment(alloc: Global, which: Routine) -> Result<Option<Seg>, Refusal> {
    if is_narrow(which) {
        return Ok(Some(routine(alloc, which)?));
    }
    if is_wide(which) {
        return Ok(Some(wide_routine(alloc, which)?));
    }
    Ok(None)
}

fn prepare(machine: &mut Machine, case: &Case) {
    let [a, x, low, high] = case.eax.to_le_bytes();
    let [p, q, r, s] = case.tos.to_le_bytes();
    machine.put_word(0x00, SP);
    machine.put_word(0x02, u16::from_le_bytes([low, high]));
    machine.put_word(SP, u16::from_le_bytes([p, q]));
    machine.put_word(SP.wrapping_add(2), u16::from_le_bytes([r, s]));
    machine.put_word(0x01FE, BACK.wrapping_sub(1));
    machine.set_regs(Regs {
        a,
        x,
        y: case.y,
        s: 0xFD,
        p: 0,
        pc: FIRST,
    });
}

// The cycles up to the return, after at most 200,000 rows.
fn cycles(machine: &mut Machine) -> Result<u64, Refusal> {
    let mut sum = 6_u64;
    for _ in 0..200_000_u32 {
        if machine.pc() == BACK {
            break;
        }
        sum = sum.wrapping_add(u64::from(step(machine)?));
    }
    Ok(sum)
}

// Prints a routine's name, bytes and cycles, and the state.
fn report(rt: &HostRuntime, which: Routine) -> Result<(), anyhow::Error> {
    let alloc = rt.alloc();
    let Some(seg) = segment(alloc, which)? else {
        return Ok(());
    };
    let case = case_of(which);
    let mut machine = Machine::new(alloc)?;
    let bytes = put_lines(&mut machine, seg.lines(), FIRST).wrapping_sub(FIRST);
    prepare(&mut machine, &case);
    let taken = cycles(&mut machine)?;
    for byte in which.name() {
        print!(rt; "{}", char::from(*byte))?;
    }
    println!(rt; " {bytes} {taken} {} {} {}", case.eax, case.y, case.tos)?;
    Ok(())
}

fn main(rt: HostRuntime) -> Result<(), anyhow::Error> {
    let mut all = true;
    for word in env::args(&rt)?.skip(1) {
        all = false;
        if let Some(which) = Routine::by_name(word.as_bytes()) {
            report(&rt, which)?;
        }
    }
    if all {
        for which in routines(rt.alloc())?.iter() {
            report(&rt, *which)?;
        }
    }
    Ok(())
}
