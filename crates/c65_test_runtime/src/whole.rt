// That calls leave memory alone: the runtime, program space and the stack, outside the zero page, page 1, what lies round sp
// and what they are told to write.
use crate::calls::{Given, call};
use crate::placing::Runtime;
use c65_base::Refusal;
use c65_code::Routine;
use c65_mach::Machine;

const SP: u16 = 0xFA10;

// The bytes that a call may change, or whose change `call` tells: copies go to 256 bytes at $A000.
fn is_told(at: u16) -> bool {
    (0xF9A0..0xFA30).contains(&at) || (0xA000..0xA100).contains(&at)
}

/// Fills memory with made bytes, and a string's end.
pub fn fill(runtime: &mut Runtime) {
    for at in runtime.end..0xF000_u16 {
        let [low, high] = at.wrapping_mul(167).wrapping_add(13).to_le_bytes();
        runtime.machine.write(at, low ^ high);
    }
    runtime.machine.write(0x9010, 0);
}

/// A number that tells the bytes from $0200 to $FFFE.
pub fn digest(machine: &Machine) -> u32 {
    let mut digest = 0_u32;
    for at in 0x0200_u16..0xFFFF {
        if !is_told(at) {
            digest = digest
                .wrapping_mul(31)
                .wrapping_add(u32::from(machine.read(at)));
        }
    }
    digest
}

/// Whether the routine leaves the other bytes; a copy is of 200 bytes.
pub fn leaves_others(
    runtime: &mut Runtime,
    which: Routine,
    eax: u32,
    tos: u32,
) -> Result<bool, Refusal> {
    let before = digest(&runtime.machine);
    runtime.machine.put_word(0x0C, 200);
    let given = Given {
        eax,
        y: 0,
        sp: SP,
        tos,
    };
    call(runtime, which, given)?;
    Ok(digest(&runtime.machine) == before)
}
