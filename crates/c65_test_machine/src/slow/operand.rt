// Operands by their addressing modes (MCS6500 Programming Manual, chapters 5 and 6), with what they cost.

/// What an operation does with its operand. It decides what an index costs.
#[derive(Clone, Copy)]
pub enum Access {
    Load,
    Store,
    Modify,
}

/// Where an operand is, how long its instruction is, and the cycles of a load from there.
#[derive(Clone, Copy)]
pub struct Operand {
    pub at: u16,
    pub size: u16,
    cycles: u8,
    /// An index was added to a whole address,
    indexed: bool,
    /// and led into another page.
    crossed: bool,
}

impl Operand {
    pub fn near(at: u16, size: u16, cycles: u8) -> Operand {
        Operand {
            at,
            size,
            cycles,
            indexed: false,
            crossed: false,
        }
    }

    pub fn far(base: u16, index: u8, size: u16, cycles: u8) -> Operand {
        let at = base.wrapping_add(u16::from(index));
        Operand {
            at,
            size,
            cycles,
            indexed: true,
            crossed: base / 256 != at / 256,
        }
    }

    pub fn price(&self, access: Access) -> u8 {
        let more = match access {
            Access::Load => u8::from(self.crossed),
            Access::Store => u8::from(self.indexed),
            Access::Modify => u8::from(self.indexed).wrapping_add(2),
        };
        self.cycles.wrapping_add(more)
    }
}

/// Whether the table has a row at this place of the pattern aaabbbcc.
pub fn has_row(code: u8) -> bool {
    let place = code / 4 % 8;
    match (code % 4, code / 32) {
        (1, 4) => place != 2,
        (1, _) => true,
        (2, 4) | (0, 4) => matches!(place, 1 | 3 | 5),
        (2, 5) | (0, 5) => matches!(place, 0 | 1 | 3 | 5 | 7),
        (2, _) => matches!(place, 1 | 3 | 5 | 7),
        (0, 1) => matches!(place, 1 | 3),
        (0, 6 | 7) => matches!(place, 0 | 1 | 3),
        _ => false,
    }
}
