// The machine: registers, flags and memory.
ghost use Rattle.std.specs.Prelude.{◌≡◌, ◌+◌, ◌-◌, ◌≤◌, ◌++◌, length, take, drop, IfOk, IfErr};
ghost use Rattle.c65_mach.specs.State.{read, write, zero_state, loaded};
ghost use Rattle.c65_mach.specs.Hooks.{put_word, hooked};
ghost use Rattle.c65_mach.specs.Registers.{regs_of, with_regs, flags_of};
ghost use Rattle.c65_mach.specs.Step.{word_at, bit, returned, unpacked};

mod advance;
mod arithmetic;
mod row;

use crate::image::Image;
use crate::registers::Regs;
use c65_base::{Cpu, Refusal};
pub use row::step;
use std::alloc::Global;
use std::marker::Model;

/// A processor of either kind with its registers and flags, and 65,536 bytes of memory.
#[derive(Drop)]
pub struct Machine {
    cpu: Cpu,
    a: u8,
    x: u8,
    y: u8,
    s: u8,
    pc: u16,
    n: bool,
    v: bool,
    d: bool,
    i: bool,
    z: bool,
    c: bool,
    memory: Vec<u8>,
}

impl Model for Machine {
    ghost use Rattle.std.specs.Prelude.{◌≡◌, length};
    ghost use Rattle.c65_mach.specs.State.{State};

    ghost Value = { State };

    ghost view = { λ m. record { cpu = m.cpu; regs = record { a = m.a; x = m.x; y = m.y; n = m.n; v = m.v; z = m.z; c = m.c }; s = m.s; d = m.d; i = m.i; pc = m.pc; mem = m.memory.items } };

    ghost invariant = { λ m. length m.memory.items ≡ 65536 };
}

fn bit(value: bool) -> u8
    ensures value { result ≡ bit value }
    ensures small { result ≤ 1 }
{
    if value { 1 } else { 0 }
}

// Puts as many of the bytes as there is room for from an index on.
fn lay(memory: &mut [u8], at: usize, bytes: &[u8])
    requires { at ≤ length memory.old }
    ensures { memory.new ≡ take at memory.old ++ (take (length memory.old - at) bytes.now ++ drop (at + length bytes.now) memory.old) }
{
    let room = memory.len() - at;
    let count = bytes.len().min(room);
    let (_, rest) = memory.split_at_mut(at);
    let (place, _) = rest.split_at_mut(count);
    place.copy_from_slice(&bytes[..count]);
}

impl Machine {
    /// A 6502 with no memory, registers and flags set but S, which is $FF. It refuses for want of memory alone.
    pub fn new(alloc: Global) -> Result<Machine, Refusal>
        ensures ok { IfOk result (λ machine. machine ≡ zero_state) }
        ensures refused { IfErr result (λ refusal. refusal ≡ Refusal.OutOfMemory) }
    {
        let memory = vec![in alloc; 0; 65536]?;
        Ok(Machine {
            cpu: Cpu::Nmos,
            a: 0,
            x: 0,
            y: 0,
            s: 255,
            pc: 0,
            n: false,
            v: false,
            d: false,
            i: false,
            z: false,
            c: false,
            memory,
        })
    }

    /// The processor whose rows the machine does.
    pub fn cpu(&self) -> Cpu
        ensures { result ≡ self.now.cpu }
    {
        self.cpu
    }

    /// Makes the machine one with this processor, and changes nothing else.
    pub fn set_cpu(&mut self, cpu: Cpu)
        ensures { self.new ≡ record self.old { cpu = cpu } }
    {
        self.cpu = cpu;
    }

    /// Makes the machine ready to run an image from its beginning on the image's processor, whatever it did before.
    /// Payload bytes that would pass $FFFF are left out.
    pub fn load(&mut self, image: &Image)
        ensures { self.new ≡ loaded image.now }
    {
        self.set_regs(Regs {
            a: 0,
            x: 0,
            y: 0,
            s: 255,
            p: 0,
            pc: image.reset,
        });
        self.memory.fill(0);
        lay(
            &mut self.memory,
            usize::from(image.load),
            image.payload.as_slice(),
        );
        self.cpu = image.cpu;
    }

    /// The accumulator.
    pub fn a(&self) -> u8
        ensures { result ≡ self.now.regs.a }
    {
        self.a
    }

    /// The index register X.
    pub fn x(&self) -> u8
        ensures { result ≡ self.now.regs.x }
    {
        self.x
    }

    /// The index register Y.
    pub fn y(&self) -> u8
        ensures { result ≡ self.now.regs.y }
    {
        self.y
    }

    /// The stack pointer. The next byte that is pushed goes to $0100 + S.
    pub fn s(&self) -> u8
        ensures { result ≡ self.now.s }
    {
        self.s
    }

    /// The program counter: the address of the next row.
    pub fn pc(&self) -> u16
        ensures { result ≡ self.now.pc }
    {
        self.pc
    }

    /// The registers, with the flags in one byte.
    pub fn regs(&self) -> Regs
        ensures { result ≡ regs_of self.now }
    {
        Regs {
            a: self.a,
            x: self.x,
            y: self.y,
            s: self.s,
            p: self.flags(),
            pc: self.pc,
        }
    }

    /// Sets the registers and flags, and leaves memory as it is. Bits 4 and 5 of `p` name no flag.
    pub fn set_regs(&mut self, regs: Regs)
        ensures { self.new ≡ with_regs regs self.old }
    {
        self.a = regs.a;
        self.x = regs.x;
        self.y = regs.y;
        self.s = regs.s;
        self.pc = regs.pc;
        self.unpack(regs.p);
    }

    /// The byte at an address.
    pub fn read(&self, at: u16) -> u8
        ensures { result ≡ read self.now.mem at }
    {
        self.memory[usize::from(at)]
    }

    /// Puts a byte at an address.
    pub fn write(&mut self, at: u16, value: u8)
        ensures { self.new ≡ record self.old { mem = write self.old.mem at value } }
    {
        self.memory[usize::from(at)] = value;
    }

    /// The word at an address, low byte first. Behind $FFFF comes $0000.
    pub fn word(&self, at: u16) -> u16
        ensures { result ≡ word_at self.now.mem at }
    {
        u16::from_le_bytes([self.read(at), self.read(at.wrapping_add(1))])
    }

    /// Puts a word at an address, low byte first. Behind $FFFF comes $0000.
    pub fn put_word(&mut self, at: u16, value: u16)
        ensures { self.new ≡ record self.old { mem = put_word self.old.mem at value } }
    {
        let [low, high] = value.to_le_bytes();
        self.write(at, low);
        self.write(at.wrapping_add(1), high);
    }

    /// Answers a hook's caller: the word goes to A and X, and control returns as by RTS.
    pub fn answer_hook(&mut self, answer: u16)
        ensures { self.new ≡ hooked answer self.old }
    {
        let [low, high] = answer.to_le_bytes();
        self.a = low;
        self.x = high;
        self.return_to(1);
    }

    // RTS and RTI, and the return from a hook: the word on the stack and so many more.
    fn return_to(&mut self, more: u16)
        ensures { self.new ≡ returned more self.old }
    {
        let low = self.read(256 + u16::from(self.s.wrapping_add(1)));
        let high = self.read(256 + u16::from(self.s.wrapping_add(2)));
        self.s = self.s.wrapping_add(2);
        self.pc = u16::from_le_bytes([low, high]).wrapping_add(more);
    }

    // The flags at their bits, with bits 4 and 5 clear.
    fn flags(&self) -> u8
        ensures value { result ≡ flags_of self.now }
        ensures small { result ≤ 207 }
    {
        128 * bit(self.n)
            + 64 * bit(self.v)
            + 8 * bit(self.d)
            + 4 * bit(self.i)
            + 2 * bit(self.z)
            + bit(self.c)
    }

    // The flags from their bits.
    fn unpack(&mut self, flags: u8)
        ensures { self.new ≡ unpacked flags self.old }
    {
        self.n = flags > 127;
        self.v = flags / 64 % 2 == 1;
        self.d = flags / 8 % 2 == 1;
        self.i = flags / 4 % 2 == 1;
        self.z = flags / 2 % 2 == 1;
        self.c = flags % 2 == 1;
    }
}
