// The hooks: what a program is given beside its own rows, at addresses $FFF4 to $FFF9.
ghost use Rattle.std.specs.Prelude.{◌≡◌, ℕ, ◌+◌, ◌*◌, ◌<◌, ◌≤◌, ◌&&◌, Bool, true, false, List, [], length, take, IfOk, IfErr, OnErr};
ghost use Rattle.c65_io.specs.Causes.{HasCause};
ghost use Rattle.c65_io.specs.Told.{append_told};
ghost use Rattle.c65_mach.specs.Hooks.{ax, popped, opened, closed, not_served, put_bytes, bytes_from, given_args, buffer_of, descriptor_of};
ghost use Rattle.c65_mach.specs.Run.{is_hook, setting_of};
ghost use Rattle.c65_mach.specs.State.{loaded};
ghost use Rattle.c65_mach.specs.Step.{row_at};
ghost use Rattle.c65_sim.specs.Budgets.{is_too_deep};
ghost use Rattle.c65_sim.specs.Differing.{jumps_at_page_end};
ghost use Rattle.c65_sim.specs.Turns.{EndIsTold, Fills, TakesUpTo, Reads, Writes, Turns, ReadStops, WriteStops, StopsAtFault, IfReadStops};
ghost use Rattle.c65_sim.specs.View.{ComputerView, arguments_size};

use crate::stop::Stop;
use c65_base::{Refusal, Text};
use c65_io::{Failed, Sink, Source, write_all};
use c65_mach::{Image, Machine, decode_for, step};
use std::alloc::Global;
use std::marker::Model;

const OPEN: u16 = 0xFFF4;

const CLOSE: u16 = 0xFFF5;

const READ: u16 = 0xFFF6;

const WRITE: u16 = 0xFFF7;

const ARGS: u16 = 0xFFF8;

const EXIT: u16 = 0xFFF9;

/// The cycles of a hook.
const HOOK_CYCLES: u8 = 6;

/// The greatest count of bytes of one `read` or `write`.
const ROOM: usize = 65_535;

/// The opcode of `JMP (abs)`.
const JUMP_INDIRECT: u8 = 0x6C;

/// What a hook answers that refuses: -1.
const REFUSED: u16 = u16::MAX;

/// The word in A and X.
fn ax(machine: &Machine) -> u16
    ensures { result ≡ ax machine.now }
{
    u16::from_le_bytes([machine.a(), machine.x()])
}

/// The buffer on the software stack, as `read` and `write` take it.
fn buffer(machine: &Machine, sp: u8) -> u16
    ensures { result ≡ buffer_of sp machine.now }
{
    machine.word(machine.word(u16::from(sp)))
}

/// The descriptor on the software stack, behind the buffer.
fn descriptor(machine: &Machine, sp: u8) -> u16
    ensures { result ≡ descriptor_of sp machine.now }
{
    machine.word(machine.word(u16::from(sp)).wrapping_add(2))
}

/// Removes bytes from the software stack.
fn pop(machine: &mut Machine, sp: u8, count: u16)
    ensures { machine.new ≡ popped sp count machine.old }
{
    let at = u16::from(sp);
    let top = machine.word(at).wrapping_add(count);
    machine.put_word(at, top);
}

fn open(machine: &mut Machine, sp: u8)
    ensures { machine.new ≡ opened sp machine.old }
{
    pop(machine, sp, u16::from(machine.y()));
    machine.answer_hook(REFUSED);
}

fn close(machine: &mut Machine)
    ensures { machine.new ≡ closed machine.old }
{
    machine.answer_hook(REFUSED);
}

/// `read` and `write` of another descriptor than theirs.
fn refuse(machine: &mut Machine, sp: u8)
    ensures { machine.new ≡ not_served sp machine.old }
{
    pop(machine, sp, 4);
    machine.answer_hook(REFUSED);
}

/// Puts bytes into memory, from an address on.
fn put_bytes(machine: &mut Machine, at: u16, bytes: &[u8])
    ensures { machine.new ≡ record machine.old { mem = put_bytes machine.old.mem at bytes.now } }
{
    let mut place = at;
    for byte in bytes {
        machine.write(place, *byte);
        place = place.wrapping_add(1);
    }
}

/// Copies bytes out of memory, from an address on.
fn copy_bytes(machine: &Machine, at: u16, into: &mut [u8])
    ensures { into.new ≡ bytes_from machine.now.mem at (length into.old) }
{
    let mut place = at;
    for byte in into.iter_mut() {
        *byte = machine.read(place);
        place = place.wrapping_add(1);
    }
}

/// Lays the arguments and the list of their addresses on the software stack, and answers how many there are.
fn give_args(machine: &mut Machine, sp: u8, args: &[Text])
    requires { arguments_size args.now ≤ 1024 }
    ensures { machine.new ≡ given_args sp args.now machine.old }
{
    let argc = args.len() as u16;
    let pointer = ax(machine);
    let list = machine.word(u16::from(sp)).wrapping_sub(2 * (argc + 1));
    let mut at = list;
    let mut lowest = list;
    for arg in args {
        let text = arg.as_slice();
        lowest = lowest.wrapping_sub(text.len() as u16 + 1);
        put_bytes(machine, lowest, text);
        machine.write(lowest.wrapping_add(text.len() as u16), 0);
        machine.put_word(at, lowest);
        at = at.wrapping_add(2);
    }
    machine.put_word(at, 0);
    machine.put_word(u16::from(sp), lowest);
    machine.put_word(pointer, list);
    machine.answer_hook(argc);
}

/// Reads until the bytes are full or the input ends, and answers how many were read.
fn fill<I: Source>(input: &mut I, into: &mut [u8]) -> Result<usize, Failed>
    ensures bytes { Fills (I.left input.old) (I.left input.new) into.new result }
    ensures cause { HasCause (I.faults input.old) (I.faults input.new) result }
    ensures last { OnErr result (StopsAtFault I.left I.faults input.old input.new) }
{
    let mut at = 0;
    while at < into.len() {
        let count = input.read(&mut into[at..])?;
        if count == 0 {
            return Ok(at);
        }
        at += count;
    }
    Ok(at)
}

/// Reads as `fill` does, but nothing once the input has ended.
fn take<I: Source>(input: &mut I, is_at_end: &mut bool, into: &mut [u8]) -> Result<usize, Failed>
    requires { EndIsTold is_at_end.old (I.left input.old) }
    ensures bytes { TakesUpTo is_at_end.old is_at_end.new (I.left input.old) (I.left input.new) into.new result }
    ensures cause { HasCause (I.faults input.old) (I.faults input.new) result }
    ensures last { OnErr result (StopsAtFault I.left I.faults input.old input.new) }
{
    if *is_at_end {
        return Ok(0);
    }
    let taken = fill(input, into)?;
    *is_at_end = taken < into.len();
    Ok(taken)
}

fn is_hook(pc: u16) -> bool
    ensures { result ≡ is_hook pc }
{
    OPEN <= pc && pc <= EXIT
}

/// The next row is `JMP (abs)` whose operand has the low byte $FF.
#[inline(always)]
fn jumps_at_page_end(machine: &Machine) -> bool
    ensures { result ≡ jumps_at_page_end machine.now }
{
    let pc = machine.pc();
    // Asked before each row: the byte at pc tells it of nearly all.
    machine.read(pc) == JUMP_INDIRECT
        && !is_hook(pc)
        && machine.word(pc.wrapping_add(1)) % 256 == 255
}

/// The next row would push a byte while S is 0.
fn is_too_deep(machine: &Machine) -> bool
    requires { is_hook machine.now.pc ≡ false }
    ensures { result ≡ is_too_deep machine.now }
{
    match decode_for(machine.cpu(), machine.read(machine.pc())) {
        Some(row) => machine.s() < row.op.pushes(),
        None => false,
    }
}

/// The guard, where it is on, refuses the next row.
fn is_refused(machine: &Machine, guard: bool) -> bool
    requires { is_hook machine.now.pc ≡ false }
    ensures { result ≡ (guard && is_too_deep machine.now) }
{
    guard && machine.s() < 3 && is_too_deep(machine)
}

/// The hook `read`. Where the input fails the machine is unchanged. The room is for the bytes.
fn read<I: Source>(
    machine: &mut Machine,
    sp: u8,
    room: &mut [u8],
    is_at_end: &mut bool,
    input: &mut I,
) -> Result<(), Failed>
    requires at { machine.old.pc ≡ 0xFFF6 }
    requires room { length room.old ≡ 65535 }
    requires told { EndIsTold is_at_end.old (I.left input.old) }
    ensures turn { Reads sp machine.old machine.new is_at_end.old is_at_end.new (I.left input.old) (I.left input.new) result }
    ensures cause { HasCause (I.faults input.old) (I.faults input.new) result }
    ensures last { OnErr result (StopsAtFault I.left I.faults input.old input.new) }
{
    if descriptor(machine, sp) != 0 {
        refuse(machine, sp);
        return Ok(());
    }
    let to = buffer(machine, sp);
    let bytes = &mut room[..usize::from(ax(machine))];
    let taken = take(input, is_at_end, bytes)?;
    pop(machine, sp, 4);
    put_bytes(machine, to, &bytes[..taken]);
    machine.answer_hook(taken as u16);
    Ok(())
}

/// The hook `write`. Where the output fails the machine is unchanged. The room is for the bytes.
fn write<O: Sink>(machine: &mut Machine, sp: u8, room: &mut [u8], out: &mut O) -> Result<(), Failed>
    requires at { machine.old.pc ≡ 0xFFF7 }
    requires room { length room.old ≡ 65535 }
    ensures turn { Writes sp machine.old machine.new (O.written out.old) (O.written out.new) result }
    ensures cause { HasCause (O.faults out.old) (O.faults out.new) result }
{
    if descriptor(machine, sp) != 1 {
        refuse(machine, sp);
        return Ok(());
    }
    let from = buffer(machine, sp);
    let count = ax(machine);
    let bytes = &mut room[..usize::from(count)];
    let at = u16::from(sp);
    let low = machine.read(at);
    let high = machine.read(at + 1);
    pop(machine, sp, 4);
    copy_bytes(machine, from, bytes);
    if let Err(failed) = write_all(out, bytes) {
        machine.write(at, low);
        machine.write(at + 1, high);
        return Err(failed);
    }
    machine.answer_hook(count);
    Ok(())
}

/// The machine with what its hooks need: the zero-page address of the software stack's pointer, the program's arguments,
/// and room for the bytes of one `read` or `write`. It knows whether the input has ended.
#[derive(Drop)]
pub struct Computer {
    sp: u8,
    args: Vec<Text>,
    machine: Machine,
    room: Vec<u8>,
    is_at_end: bool,
}

impl Model for Computer {
    ghost use Rattle.std.specs.Prelude.{◌≡◌, ◌≤◌, length};
    ghost use Rattle.c65_sim.specs.View.{ComputerView, arguments_size};

    ghost Value = { ComputerView };

    ghost view = { λ c. record { setting = record { sp = c.sp; args = c.args.items }; machine = c.machine; is_at_end = c.is_at_end } };

    ghost invariant = { λ c. (length c.room.items ≡ 65535) × (arguments_size c.args.items ≤ 1024) };
}

impl Computer {
    /// A computer that stands before an image's first row. It takes all the memory that a run needs.
    pub fn new(alloc: Global, image: &Image, args: Vec<Text>) -> Result<Computer, Refusal>
        requires { arguments_size args.items ≤ 1024 }
        ensures ok { IfOk result (λ computer. computer ≡ record { setting = setting_of image.now args.items; machine = loaded image.now; is_at_end = false }) }
        ensures refused { IfErr result (λ refusal. refusal ≡ Refusal.OutOfMemory) }
    {
        let mut machine = Machine::new(alloc)?;
        machine.load(image);
        let room = vec![in alloc; 0; ROOM]?;
        Ok(Computer {
            sp: image.sp,
            args,
            machine,
            room,
            is_at_end: false,
        })
    }

    /// The address of the next row or hook.
    pub fn pc(&self) -> u16
        ensures { result ≡ self.now.machine.pc }
    {
        self.machine.pc()
    }

    /// The next row is a jump that the 65C02 does differently from the 6502.
    #[inline(always)]
    pub fn jumps_at_page_end(&self) -> bool
        ensures { result ≡ jumps_at_page_end self.now.machine }
    {
        jumps_at_page_end(&self.machine)
    }

    /// Forgets that the input has ended.
    pub fn reopen(&mut self)
        ensures { self.new ≡ record self.old { is_at_end = false } }
    {
        self.is_at_end = false;
    }

    /// The hook at this address.
    fn hook<I: Source, O: Sink>(&mut self, pc: u16, input: &mut I, out: &mut O) -> Result<u8, Stop>
        requires at { pc ≡ self.old.machine.pc }
        requires hook { is_hook pc ≡ true }
        requires told { EndIsTold self.old.is_at_end (I.left input.old) }
        ensures turn { Turns false self.old self.new (I.left input.old) (I.left input.new) (O.written out.old) (O.written out.new) result }
        ensures reads { ReadStops (I.faults input.old) (I.faults input.new) result }
        ensures writes { WriteStops (O.faults out.old) (O.faults out.new) result }
        ensures last { IfReadStops result (StopsAtFault I.left I.faults input.old input.new) }
    {
        match pc {
            OPEN => open(&mut self.machine, self.sp),
            CLOSE => close(&mut self.machine),
            READ => {
                let Ok(()) = read(
                    &mut self.machine,
                    self.sp,
                    &mut self.room,
                    &mut self.is_at_end,
                    input,
                ) else {
                    return Err(Stop::ReadFault);
                };
            }
            WRITE => {
                let Ok(()) = write(&mut self.machine, self.sp, &mut self.room, out) else {
                    return Err(Stop::WriteFault);
                };
            }
            ARGS => give_args(&mut self.machine, self.sp, &self.args),
            _ => return Err(Stop::Exit(self.machine.a())),
        }
        Ok(HOOK_CYCLES)
    }

    /// One row, or the hook at pc, and its cycles. Where it is not done the machine is unchanged.
    pub fn turn<I: Source, O: Sink>(
        &mut self,
        input: &mut I,
        out: &mut O,
        guard: bool,
    ) -> Result<u8, Stop>
        requires { EndIsTold self.old.is_at_end (I.left input.old) }
        ensures turn { Turns guard self.old self.new (I.left input.old) (I.left input.new) (O.written out.old) (O.written out.new) result }
        ensures reads { ReadStops (I.faults input.old) (I.faults input.new) result }
        ensures writes { WriteStops (O.faults out.old) (O.faults out.new) result }
        ensures last { IfReadStops result (StopsAtFault I.left I.faults input.old input.new) }
    {
        let pc = self.machine.pc();
        if is_hook(pc) {
            return self.hook(pc, input, out);
        }
        if is_refused(&self.machine, guard) {
            return Err(Stop::HardStack);
        }
        let Ok(cycles) = step(&mut self.machine) else {
            return Err(Stop::Illegal);
        };
        Ok(cycles)
    }
}
