// The check of the stacks, at their edges.
use crate::placing::{Runtime, start_of};
use c65_base::Refusal;
use c65_code::Routine;
use c65_mach::{Machine, Regs, step};

// Where the routine comes back to.
const BACK: u16 = 0xFE00;

/// Where a call of `stkchk` went.
#[derive(Clone, Copy, Debug)]
pub enum Way {
    /// Back, with sp, S, A, X, Y and sreg as they were.
    Back,
    /// To the exit hook, with this status.
    Ended(u8),
    /// Neither.
    Lost,
}

// `hard` is S before the call.
fn prepare(machine: &mut Machine, start: u16, sp: u16, asked: u16, hard: u8) {
    let inside = hard.wrapping_sub(2);
    machine.put_word(0x00, sp);
    machine.put_word(0x02, 0x4433);
    machine.put_word(0x12, asked);
    machine.put_word(0x0101_u16.wrapping_add(inside as u16), BACK.wrapping_sub(1));
    machine.set_regs(Regs {
        a: 0x5A,
        x: 0xC3,
        y: 0x3C,
        s: inside,
        p: 0,
        pc: start,
    });
}

fn is_kept(machine: &Machine, sp: u16, hard: u8) -> bool {
    let registers = machine.a() == 0x5A && machine.x() == 0xC3 && machine.y() == 0x3C;
    registers && machine.s() == hard && machine.word(0x00) == sp && machine.word(0x02) == 0x4433
}

/// Checks the stacks with this sp and this S for so many bytes.
pub fn check(runtime: &mut Runtime, sp: u16, asked: u16, hard: u8) -> Result<Way, Refusal> {
    let start = start_of(&runtime.starts, Routine::StkChk);
    let exit = start_of(&runtime.starts, Routine::HookExit);
    let machine = &mut runtime.machine;
    prepare(machine, start, sp, asked, hard);
    for _ in 0..40_u32 {
        if machine.pc() == exit {
            return Ok(Way::Ended(machine.a()));
        }
        if machine.pc() == BACK {
            return Ok(if is_kept(machine, sp, hard) {
                Way::Back
            } else {
                Way::Lost
            });
        }
        step(machine)?;
    }
    Ok(Way::Lost)
}
