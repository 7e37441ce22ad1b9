// Bytes without a row, the answer of a hook, and images against their form.
use c65_base::{Cpu, Refusal, Text};
use c65_mach::{Image, Machine, Op, Regs, step};
use std::alloc::Global;
use std::test::Fail;

const fn regs(a: u8, x: u8, y: u8, s: u8, p: u8, pc: u16) -> Regs {
    Regs { a, x, y, s, p, pc }
}

// The rest of memory and the registers stay where a byte has no row.
fn stays(alloc: Global, cpu: Cpu, opcode: u8) -> Result<bool, Refusal> {
    let mut machine = Machine::new(alloc)?;
    machine.set_cpu(cpu);
    let before = regs(1, 2, 3, 4, 0xCF, 0xFFFF);
    machine.set_regs(before);
    machine.write(0xFFFF, opcode);
    machine.write(0, 0x34);
    let refused = matches!(step(&mut machine), Err(Refusal::Illegal { pc: 0xFFFF }));
    Ok(refused && machine.regs() == before && machine.word(0xFFFF) == 0x3400 + u16::from(opcode))
}

#[test]
fn no_row(rt: HostRuntime) -> Result<(), Fail> {
    let alloc = rt.alloc();
    assert!(rt;
        stays(alloc, Cpu::Nmos, 0x02)?
            && stays(alloc, Cpu::Nmos, 0x1A)?
            && stays(alloc, Cpu::Cmos, 0x02)?
    );
    Ok(())
}

#[test]
fn hook_answers(rt: HostRuntime) -> Result<(), Fail> {
    let mut machine = Machine::new(rt.alloc())?;
    machine.set_regs(regs(1, 2, 3, 0xFD, 0, 0xFFF4));
    machine.put_word(0x01FE, 0x02FF);
    machine.answer_hook(0xFFFE);
    assert!(rt; machine.regs() == regs(0xFE, 0xFF, 3, 0xFF, 0, 0x0300));
    let ops = [
        Op::Brk,
        Op::Jsr,
        Op::Pha,
        Op::Php,
        Op::Phx,
        Op::Phy,
        Op::Rts,
    ];
    assert!(rt; ops.map(|op| op.pushes()) == [3, 2, 1, 1, 1, 1, 0]);
    Ok(())
}

fn offset(read: &Result<Image, Refusal>) -> Option<u32> {
    match read {
        Err(Refusal::BadImage { offset }) => Some(*offset),
        _ => None,
    }
}

const FILE: [u8; 14] = [
    0x73, 0x69, 0x6D, 0x36, 0x35, 2, 1, 0x10, 0xFE, 0xFF, 0x03, 0x02, 0xEA, 0x60,
];

#[test]
fn images(rt: HostRuntime) -> Result<(), Fail> {
    let alloc = rt.alloc();
    let image = Image {
        cpu: Cpu::Cmos,
        sp: 0x10,
        load: 0xFFFE,
        reset: 0x0203,
        payload: Text::copy_of(alloc, &[0xEA, 0x60])?,
    };
    let bytes = image.bytes(alloc)?;
    assert!(rt; bytes.as_slice() == FILE.as_slice());
    let again = Image::parse(alloc, &bytes)?;
    assert!(rt;
        (again.cpu, again.sp, again.load, again.reset) == (Cpu::Cmos, 0x10, 0xFFFE, 0x0203)
    );
    assert!(rt; again.payload.as_slice() == [0xEA, 0x60].as_slice());
    let mut machine = Machine::new(alloc)?;
    machine.write(0x0000, 1);
    machine.load(&again);
    assert!(rt; machine.cpu() == Cpu::Cmos && machine.regs() == regs(0, 0, 0, 255, 0, 0x0203));
    assert!(rt; (machine.read(0xFFFD), machine.word(0xFFFE), machine.read(0)) == (0, 0x60EA, 0));
    Ok(())
}

// A file that is cut at any length below 12 breaks its form there.
fn is_cut_right(alloc: Global, cpu: u8) -> bool {
    let mut bytes = FILE;
    bytes[6] = cpu;
    let mut right = true;
    for (k, _) in bytes.iter().enumerate() {
        let at = if k < 12 { Some(k as u32) } else { None };
        right = right && offset(&Image::parse(alloc, &bytes[..k])) == at;
    }
    right
}

// Where a file breaks its form that has this byte at this place.
fn broken_at(alloc: Global, at: usize, byte: u8) -> Option<u32> {
    let mut bytes = FILE;
    if let Some(old) = bytes.get_mut(at) {
        *old = byte;
    }
    offset(&Image::parse(alloc, &bytes))
}

#[test]
fn bad_images(rt: HostRuntime) -> Result<(), Fail> {
    let alloc = rt.alloc();
    assert!(rt; is_cut_right(alloc, 0) && is_cut_right(alloc, 1));
    let broken = [(0, 0x53), (4, 0x36), (5, 3), (6, 2), (6, 0xFF), (8, 0xFF)].map(|(
        at,
        byte,
    )| broken_at(alloc, at, byte));
    assert!(rt; broken == [Some(0), Some(4), Some(5), Some(6), Some(6), Some(13)]);
    Ok(())
}
