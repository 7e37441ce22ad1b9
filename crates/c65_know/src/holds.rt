// Whether what is known holds of a machine.
ghost use Rattle.std.specs.Prelude.{◌≡◌};
ghost use Rattle.c65_know.specs.Notes.{is_so, is_set_so, are_bytes_so, are_flags_so, holds};

use crate::note::Note;
use c65_mach::Machine;

fn is_so(known: Option<u8>, value: u8) -> bool
    ensures { result ≡ is_so known value }
{
    match known {
        Some(known) => known == value,
        None => true,
    }
}

fn is_set_so(known: Option<bool>, value: bool) -> bool
    ensures { result ≡ is_set_so known value }
{
    match known {
        Some(known) => known == value,
        None => true,
    }
}

// The flags from their bits: N 7, V 6, Z 1, C 0.
fn is_negative(machine: &Machine) -> bool
    ensures { result ≡ machine.now.regs.n }
{
    machine.regs().p > 127
}

fn is_overflown(machine: &Machine) -> bool
    ensures { result ≡ machine.now.regs.v }
{
    machine.regs().p / 64 % 2 == 1
}

fn is_zero(machine: &Machine) -> bool
    ensures { result ≡ machine.now.regs.z }
{
    machine.regs().p / 2 % 2 == 1
}

fn is_carried(machine: &Machine) -> bool
    ensures { result ≡ machine.now.regs.c }
{
    machine.regs().p % 2 == 1
}

impl Note {
    fn are_bytes_so(&self, machine: &Machine) -> bool
        ensures { result ≡ are_bytes_so self.now machine.now }
    {
        is_so(self.a, machine.a())
            && is_so(self.x, machine.x())
            && is_so(self.y, machine.y())
            && is_so(self.s0, machine.read(2))
            && is_so(self.s1, machine.read(3))
            && is_so(self.p0, machine.read(8))
            && is_so(self.p1, machine.read(9))
            && is_so(self.t1, machine.read(16))
    }

    fn are_flags_so(&self, machine: &Machine) -> bool
        ensures { result ≡ are_flags_so self.now machine.now }
    {
        is_set_so(self.n, is_negative(machine))
            && is_set_so(self.v, is_overflown(machine))
            && is_set_so(self.z, is_zero(machine))
            && is_set_so(self.c, is_carried(machine))
    }

    /// Whether each value that is known is the machine's.
    pub fn holds(&self, machine: &Machine) -> bool
        ensures { result ≡ holds self.now machine.now }
    {
        self.are_bytes_so(machine) && self.are_flags_so(machine)
    }
}
