// Sets of the registers, flags and zero-page bytes that lines read and set.
ghost use Rattle.std.specs.Prelude.{◌≡◌, ◌⊎◌, ◌↔◌, ◌<◌, ◌≤◌, IsTrue};
ghost use Rattle.std.specs.List.{list_all};
ghost use Rattle.c65_code.specs.Parts.{IsPart, is_part, has_part, with_part, with_parts, no_parts, all_parts, zero_bytes, union_of, minus_of, IsWithin, set_of};

/// A register, a flag, or one of the 26 zero-page bytes that programs use (MACHINE.md, "Zero page").
#[derive(Clone, Copy, Debug, PartialEq, Eq)]
pub enum Part {
    A,
    X,
    Y,
    /// The byte at this address, which is below 26.
    Zp(u8),
    N,
    V,
    Z,
    C,
}

/// A set of parts.
#[derive(Clone, Copy, Debug, PartialEq, Eq)]
pub struct RegSet {
    a: bool,
    x: bool,
    y: bool,
    n: bool,
    v: bool,
    z: bool,
    c: bool,
    // a bit for each byte
    zero_page: u32,
}

impl RegSet {
    /// The set without a part.
    pub fn empty() -> RegSet
        ensures set { result ≡ no_parts }
        ensures parts { (part : _) → IsTrue (has_part result part) → ⊥ }
    {
        RegSet {
            a: false,
            x: false,
            y: false,
            n: false,
            v: false,
            z: false,
            c: false,
            zero_page: 0,
        }
    }

    /// The set of all parts.
    pub fn all() -> RegSet
        ensures set { result ≡ all_parts }
        ensures parts { (part : _) → IsTrue (has_part result part) ↔ IsPart part }
    {
        RegSet {
            a: true,
            x: true,
            y: true,
            n: true,
            v: true,
            z: true,
            c: true,
            zero_page: 0x3FF_FFFF,
        }
    }

    /// This set and one part more.
    pub fn with(self, part: Part) -> RegSet
        requires { IsPart part }
        ensures set { result ≡ with_part part self }
        ensures parts { (other : _) → IsTrue (has_part result other) ↔ ((other ≡ part) ⊎ IsTrue (has_part self other)) }
    {
        let mut set = self;
        match part {
            Part::A => set.a = true,
            Part::X => set.x = true,
            Part::Y => set.y = true,
            Part::Zp(byte) => set.zero_page |= 1 << byte,
            Part::N => set.n = true,
            Part::V => set.v = true,
            Part::Z => set.z = true,
            Part::C => set.c = true,
        }
        set
    }

    /// Whether the part is in the set.
    pub fn has(self, part: Part) -> bool
        requires { IsPart part }
        ensures { result ≡ has_part self part }
    {
        match part {
            Part::A => self.a,
            Part::X => self.x,
            Part::Y => self.y,
            Part::Zp(byte) => (self.zero_page >> byte) & 1 == 1,
            Part::N => self.n,
            Part::V => self.v,
            Part::Z => self.z,
            Part::C => self.c,
        }
    }

    /// The zero-page bytes from one address up to another.
    pub fn zero_bytes(from: u8, to: u8) -> RegSet
        requires order { from ≤ to }
        requires last { to ≤ 26 }
        ensures set { result ≡ zero_bytes from to }
    {
        let mut set = RegSet::empty();
        set.zero_page = (1 << to) - (1 << from);
        set
    }

    /// The parts that either set has.
    pub fn union(self, other: RegSet) -> RegSet
        ensures set { result ≡ union_of self other }
        ensures parts { (part : _) → IsTrue (has_part result part) ↔ (IsTrue (has_part self part) ⊎ IsTrue (has_part other part)) }
    {
        RegSet {
            a: self.a | other.a,
            x: self.x | other.x,
            y: self.y | other.y,
            n: self.n | other.n,
            v: self.v | other.v,
            z: self.z | other.z,
            c: self.c | other.c,
            zero_page: self.zero_page | other.zero_page,
        }
    }

    /// The parts of this set that the other one has not.
    pub fn minus(self, other: RegSet) -> RegSet
        ensures set { result ≡ minus_of self other }
        ensures parts { (part : _) → IsTrue (has_part result part) ↔ (IsTrue (has_part self part) × ¬ (IsTrue (has_part other part))) }
    {
        RegSet {
            a: self.a & !other.a,
            x: self.x & !other.x,
            y: self.y & !other.y,
            n: self.n & !other.n,
            v: self.v & !other.v,
            z: self.z & !other.z,
            c: self.c & !other.c,
            zero_page: self.zero_page ^ (self.zero_page & other.zero_page),
        }
    }

    /// Whether the other set has all parts of this one.
    pub fn is_within(self, other: RegSet) -> bool
        ensures { IsTrue result ↔ IsWithin self other }
    {
        self.minus(other) == RegSet::empty()
    }

    /// The set of these parts.
    pub fn of(parts: &[Part]) -> RegSet
        requires { IsTrue (list_all is_part parts.now) }
        ensures { result ≡ set_of parts.now }
    {
        let mut set = RegSet::empty();
        for part in parts {
            set = set.with(*part);
        }
        set
    }
}
