// Images made from a seed: bytes, rows of the table, sums in decimal mode, hooks, and a stack near its end.
ghost use Rattle.std.specs.Prelude.{◌<◌};

use c65_base::Text;
use c65_mach::{Mode, decode};
use c65_sim::Budget;
use std::alloc::{AllocError, Global};

/// Random numbers that a seed determines, by the generator SplitMix64.
#[derive(Clone, Copy)]
pub struct Dice {
    state: u64,
}

impl Dice {
    pub fn new(seed: u64) -> Dice {
        Dice { state: seed }
    }

    fn roll(&mut self) -> u64 {
        self.state = self.state.wrapping_add(0x9E37_79B9_7F4A_7C15);
        let mut number = self.state;
        number = (number ^ (number >> 30)).wrapping_mul(0xBF58_476D_1CE4_E5B9);
        number = (number ^ (number >> 27)).wrapping_mul(0x94D0_49BB_1331_11EB);
        number ^ (number >> 31)
    }

    pub fn byte(&mut self) -> u8 {
        let [byte, _, _, _, _, _, _, _] = self.roll().to_le_bytes();
        byte
    }

    pub fn word(&mut self) -> u16 {
        let [low, high, _, _, _, _, _, _] = self.roll().to_le_bytes();
        u16::from_le_bytes([low, high])
    }

    pub fn below(&mut self, sides: u16) -> u16
        requires { 0 < sides }
        ensures { result < sides }
    {
        self.word() % sides
    }

    /// A byte that is often at an edge of its range.
    pub fn edge(&mut self) -> u8 {
        match self.below(12) {
            0 => 0,
            1 => 1,
            2 => 0x7F,
            3 => 0x80,
            4 => 0xFF,
            _ => self.byte(),
        }
    }

    fn bytes(&mut self, alloc: Global, count: u16) -> Result<Vec<u8>, AllocError> {
        let mut bytes = Vec::new(alloc);
        for _ in 0..count {
            bytes.push(self.byte())?;
        }
        Ok(bytes)
    }
}

/// What a made program is of.
#[derive(Clone, Copy)]
enum Kind {
    Bytes,
    Rows,
    Decimal,
    Hooks,
    Stack,
    Loops,
}

fn size(mode: Mode) -> usize {
    match mode {
        Mode::Implied | Mode::Accumulator => 1,
        Mode::Absolute | Mode::AbsoluteX | Mode::AbsoluteY | Mode::Indirect => 3,
        _ => 2,
    }
}

/// A program on its way.
#[derive(Drop)]
struct Maker {
    dice: Dice,
    code: Vec<u8>,
    /// The address of the software stack's pointer.
    sp: u8,
    load: u16,
}

impl Maker {
    fn put(&mut self, bytes: &[u8]) -> Result<(), AllocError> {
        self.code.extend_from_slice(bytes)
    }

    /// A row of the table. Those that go elsewhere are rare, and most addresses are in the first pages.
    fn row(&mut self) -> Result<(), AllocError> {
        let mut code = self.dice.byte();
        for _ in 0..100 {
            let leaves = matches!(code, 0x00 | 0x20 | 0x40 | 0x4C | 0x60 | 0x6C);
            if decode(code).is_some() && (!leaves || self.dice.below(8) == 0) {
                break;
            }
            code = self.dice.byte();
        }
        let [low, high] = self.dice.word().to_le_bytes();
        let high = if self.dice.below(4) == 0 {
            high
        } else {
            high % 6
        };
        let length = decode(code).map_or(1, |row| size(row.mode));
        self.put([code, low, high].get(..length).unwrap_or(&[]))
    }

    /// A sum or a difference, mostly in decimal mode, whose flags and accumulator stay on the stack.
    fn sum(&mut self) -> Result<(), AllocError> {
        let mode = if self.dice.below(8) == 0 { 0xD8 } else { 0xF8 };
        let carry = if self.dice.below(2) == 0 { 0x18 } else { 0x38 };
        let op = if self.dice.below(2) == 0 { 0x69 } else { 0xE9 };
        let left = self.dice.edge();
        let right = self.dice.edge();
        self.put(&[mode, carry, 0xA9, left, op, right, 0x08, 0x48])
    }

    /// Loads a value and stores it at an address.
    fn set(&mut self, at: u16, value: u8) -> Result<(), AllocError> {
        let [low, high] = at.to_le_bytes();
        self.put(&[0xA9, value, 0x8D, low, high])
    }

    fn set_word(&mut self, at: u16, value: u16) -> Result<(), AllocError> {
        let [low, high] = value.to_le_bytes();
        self.set(at, low)?;
        self.set(at.wrapping_add(1), high)
    }

    /// Puts a buffer and a descriptor on the software stack, which begins at $05E0.
    fn stack_up(&mut self, buffer: u16, descriptor: u16) -> Result<(), AllocError> {
        self.set_word(u16::from(self.sp), 0x05E0)?;
        self.set_word(0x05E0, buffer)?;
        self.set_word(0x05E2, descriptor)
    }

    /// An address at which a hook could disturb itself, or another one.
    fn place(&mut self) -> u16 {
        match self.dice.below(6) {
            0 => u16::from(self.sp),
            1 => 0x05DC_u16.wrapping_add(self.dice.below(8)),
            2 => 0xFFF8,
            3 => self.dice.word(),
            _ => self.dice.below(0x0600),
        }
    }

    /// A call of a hook. Sometimes the software stack is what the last one left.
    fn hook(&mut self) -> Result<(), AllocError> {
        if self.dice.below(4) != 0 {
            let buffer = self.place();
            let descriptor = self.dice.below(3);
            self.stack_up(buffer, descriptor)?;
        }
        let [low, high] = if self.dice.below(2) == 0 {
            self.place().to_le_bytes()
        } else {
            self.dice.below(40).to_le_bytes()
        };
        let y = self.dice.byte();
        let [hook, _] = self.dice.below(5).to_le_bytes();
        let hook = hook.wrapping_add(0xF4);
        self.put(&[0xA9, low, 0xA2, high, 0xA0, y, 0x20, hook, 0xFF])
    }

    /// A push or a pull near the end of the stack.
    fn push(&mut self) -> Result<(), AllocError> {
        if self.dice.below(2) == 0 {
            let [s, _] = self.dice.below(6).to_le_bytes();
            self.put(&[0xA2, s.wrapping_sub(1), 0x9A])?;
        }
        let [length, more, ..] = self.code.len().to_le_bytes();
        let next = self
            .load
            .wrapping_add(u16::from_le_bytes([length, more]))
            .wrapping_add(3);
        let [low, high] = next.to_le_bytes();
        match self.dice.below(12) {
            0 | 1 => self.put(&[0x48]),
            2 | 3 => self.put(&[0x08]),
            4 | 5 | 6 => self.put(&[0x20, low, high]),
            7 => self.put(&[0x68]),
            8 => self.put(&[0x28]),
            9 => self.put(&[0x00]),
            10 => self.put(&[0x60]),
            _ => self.put(&[0x40]),
        }
    }

    /// Two rows that are done some times.
    fn again(&mut self) -> Result<(), AllocError> {
        let [times, _] = self.dice.below(9).to_le_bytes();
        self.put(&[0xA2, times])?;
        let start = self.code.len();
        self.row()?;
        self.row()?;
        let [back, ..] = start
            .wrapping_sub(self.code.len())
            .wrapping_sub(3)
            .to_le_bytes();
        self.put(&[0xCA, 0xD0, back])
    }

    fn piece(&mut self, kind: Kind) -> Result<(), AllocError> {
        match kind {
            Kind::Bytes => {
                let byte = self.dice.byte();
                self.put(&[byte])
            }
            Kind::Rows => self.row(),
            Kind::Decimal => self.sum(),
            Kind::Hooks => self.hook(),
            Kind::Stack => self.push(),
            Kind::Loops => self.again(),
        }
    }

    /// Pushes the registers, writes the first six pages and ends.
    fn last(&mut self) -> Result<(), AllocError> {
        self.put(&[0x08, 0x48, 0x8A, 0x48, 0x98, 0x48])?;
        self.stack_up(0x0000, 1)?;
        self.put(&[0xA2, 0x06, 0xA9, 0x00, 0x20, 0xF7, 0xFF])?;
        self.put(&[0xAD, 0x80, 0x00, 0x4C, 0xF9, 0xFF])
    }

    /// Pieces of one kind, and sometimes of every kind, with an end behind most.
    fn program(&mut self) -> Result<(), AllocError> {
        let kinds = [
            Kind::Bytes,
            Kind::Rows,
            Kind::Rows,
            Kind::Decimal,
            Kind::Hooks,
            Kind::Hooks,
            Kind::Stack,
            Kind::Loops,
        ];
        let choice = self.dice.below(9);
        for _ in 0..200 {
            let any = self.dice.below(8);
            let place = if choice < 8 { choice } else { any };
            let kind = kinds.get(usize::from(place)).copied().unwrap_or(Kind::Rows);
            self.piece(kind)?;
            if self.code.len() > 400 || self.dice.below(24) == 0 {
                break;
            }
        }
        if self.dice.below(8) != 0 {
            self.last()?;
        }
        Ok(())
    }
}

/// What a run is given.
#[derive(Drop)]
pub struct Case {
    pub file: Vec<u8>,
    pub args: Vec<Text>,
    pub input: Vec<u8>,
    pub guard: bool,
    /// The budgets of two calls.
    pub budgets: [Budget; 2],
}

fn load_address(dice: &mut Dice) -> u16 {
    match dice.below(8) {
        0 => dice.word(),
        1 => dice.below(0x0200),
        2 => 0xFFFF_u16.wrapping_sub(dice.below(600)),
        _ => 0x0200,
    }
}

fn reset_address(dice: &mut Dice, load: u16) -> u16 {
    match dice.below(32) {
        0 => dice.word(),
        1 => 0xFFF4_u16.wrapping_add(dice.below(7)),
        2 | 3 => load.wrapping_add(dice.below(32)),
        _ => load,
    }
}

fn budget(dice: &mut Dice) -> Budget {
    if dice.below(4) == 0 {
        Budget::Cycles(u64::from(dice.below(1200)))
    } else {
        Budget::Instructions(u64::from(dice.below(320)))
    }
}

fn arguments(alloc: Global, dice: &mut Dice) -> Result<Vec<Text>, AllocError> {
    let mut args = Vec::new(alloc);
    for _ in 0..dice.below(3) {
        let length = dice.below(12);
        args.push(Text::from_vec(dice.bytes(alloc, length)?))?;
    }
    Ok(args)
}

/// The file of an image.
fn file(alloc: Global, dice: Dice) -> Result<Vec<u8>, AllocError> {
    let mut dice = dice;
    let sp = dice.edge();
    let load = load_address(&mut dice);
    let reset = reset_address(&mut dice, load);
    let mut maker = Maker {
        dice,
        code: Vec::new(alloc),
        sp,
        load,
    };
    maker.program()?;
    let room = 65536 - usize::from(load);
    let payload = maker.code.get(..room).unwrap_or(&maker.code);
    let mut file = Vec::from_slice(alloc, b"sim65\x02\x00")?;
    file.push(sp)?;
    file.extend_from_slice(&load.to_le_bytes())?;
    file.extend_from_slice(&reset.to_le_bytes())?;
    file.extend_from_slice(payload)?;
    Ok(file)
}

/// The case of a seed.
pub fn made(alloc: Global, seed: u64) -> Result<Case, AllocError> {
    let mut dice = Dice::new(seed);
    let count = dice.below(24);
    Ok(Case {
        args: arguments(alloc, &mut dice)?,
        input: dice.bytes(alloc, count)?,
        guard: dice.below(2) == 0,
        budgets: [budget(&mut dice), budget(&mut dice)],
        file: file(alloc, dice)?,
    })
}
