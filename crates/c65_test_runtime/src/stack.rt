// The routines of the software stack, of pointers and of the register variables.
use crate::calls::{Given, call, long_at, put_long};
use crate::placing::Runtime;
use crate::words::Words;
use c65_base::Refusal;
use c65_code::Routine;

const EAX: u32 = 0x4433_2211;

const TOS: u32 = 0x8877_6655;

/// Y before; how far sp moves; EAX after, as far as the mask says; bytes, the first one lowest, at a distance from the old sp.
#[derive(Drop)]
struct Row {
    which: Routine,
    y: u8,
    moves: u16,
    eax: u32,
    mask: u32,
    at: u16,
    bytes: u32,
    count: u16,
}

// EAX is $44332211, and $88776655 lies at sp.
fn is_right(runtime: &mut Runtime, row: &Row, sp: u16) -> Result<u32, Refusal> {
    let given = Given {
        eax: EAX,
        y: row.y,
        sp,
        tos: TOS,
    };
    let after = call(runtime, row.which, given)?;
    let moved = after.sp == sp.wrapping_add(row.moves);
    let gives = after.eax & row.mask == row.eax & row.mask;
    let mut lies = true;
    let bytes = row.bytes.to_le_bytes();
    for index in 0..row.count {
        let at = sp.wrapping_add(row.at).wrapping_add(index);
        lies = lies && bytes.get(index as usize) == Some(&runtime.machine.read(at));
    }
    let fits = after.keeps && after.rows <= 32;
    Ok(if moved && gives && lies && fits { 1 } else { 0 })
}

/// How many calls of a routine are right, of one at each low byte of sp.
pub fn right_places(
    runtime: &mut Runtime,
    which: Routine,
    words: &mut Words,
) -> Result<u32, Refusal> {
    let row = Row {
        which,
        y: words.byte(),
        moves: words.word(),
        eax: words.long(),
        mask: words.long(),
        at: words.word(),
        count: words.word(),
        bytes: words.long(),
    };
    let mut right = 0_u32;
    for low in 0..=255_u8 {
        let sp = u16::from_le_bytes([low, 0xFA]);
        right = right.wrapping_add(is_right(runtime, &row, sp)?);
    }
    Ok(right)
}

const BYTES: u32 = 0x0D0C_0B0A;

/// Whether a routine with EAX and TOS moves sp so far, leaves EAX as far as the mask says, and the four bytes at $9000.
pub fn is_right_far(
    runtime: &mut Runtime,
    which: Routine,
    words: &mut Words,
) -> Result<bool, Refusal> {
    put_long(&mut runtime.machine, 0x9000, BYTES);
    let given = Given {
        eax: words.long(),
        y: 0,
        sp: 0xFA80,
        tos: words.long(),
    };
    let moves = words.word();
    let (left, mask) = (words.long(), words.long());
    let after = call(runtime, which, given)?;
    let moved = after.sp == given.sp.wrapping_add(moves);
    let gives = after.eax & mask == left & mask;
    let lies = long_at(&runtime.machine, 0x9000) == words.long();
    let fits = after.rows <= 256 && (after.keeps || which == Routine::RestRegs);
    Ok(moved && gives && lies && fits)
}

/// Whether regbank goes to the stack as it is.
pub fn saves_bank(runtime: &mut Runtime) -> Result<bool, Refusal> {
    let given = Given {
        eax: EAX,
        y: 0,
        sp: 0xFA03,
        tos: TOS,
    };
    let saved = call(runtime, Routine::SaveRegs, given)?;
    let machine = &runtime.machine;
    let bank = (long_at(machine, 0x14), machine.word(0x18));
    let lain = (long_at(machine, 0xF9FD), machine.word(0xFA01));
    Ok(saved.eax == EAX && saved.sp == 0xF9FD && saved.keeps && bank == lain)
}

/// Whether regbank comes back from the stack.
pub fn restores_bank(runtime: &mut Runtime) -> Result<bool, Refusal> {
    put_long(&mut runtime.machine, 0xFA07, 0x7654_3210);
    let given = Given {
        eax: EAX,
        y: 0,
        sp: 0xFA03,
        tos: TOS,
    };
    let back = call(runtime, Routine::RestRegs, given)?;
    Ok(back.eax == EAX && back.sp == 0xFA09 && long_at(&runtime.machine, 0x14) == TOS)
}
