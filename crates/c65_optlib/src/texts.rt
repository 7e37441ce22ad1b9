// What two loads show of the arguments of a call: the length of a literal, or a number of bytes.
ghost use Rattle.std.specs.Prelude.{◌≡◌, ◌==◌};
ghost use Rattle.std.specs.List.{position};
ghost use Rattle.c65_pass.specs.KnownCalls.{literal_length, text_loaded, at_most, count_loaded};

use c65_code::{Bytes, Literals, Operand, Sym};

// How many bytes stand before the first zero.
fn text_length(bytes: &[u8]) -> Option<usize>
    ensures { result ≡ position (λ byte. byte == 0) bytes.now }
{
    bytes.iter().position(|byte| *byte == 0)
}

fn literal_length(literals: &[(Sym, Bytes)], sym: Sym) -> Option<usize>
    ensures { result ≡ literal_length literals.now sym }
{
    for (name, bytes) in literals {
        if name.0 == sym.0 {
            return text_length(bytes.as_slice());
        }
    }
    None
}

/// The length of the literal whose address is loaded, high byte and low byte.
pub fn text_loaded(literals: &Literals, word: Option<(Operand, Operand)>) -> Option<usize>
    ensures { result ≡ text_loaded literals.now.items word }
{
    match word {
        Some((Operand::High(high, above), Operand::Low(low, behind)))
            if high.0 == low.0 && above == 0 && behind == 0 => {
            literal_length(literals.items.as_slice(), high)
        }
        _ => None,
    }
}

/// A length that is not too great.
pub fn at_most(most: u16, length: Option<usize>) -> Option<u16>
    ensures { result ≡ at_most most length }
{
    match length {
        Some(length) if length <= most as usize => Some(length as u16),
        _ => None,
    }
}

/// The number from 1 to 8 that is loaded.
pub fn count_loaded(word: Option<(Operand, Operand)>) -> Option<u16>
    ensures { result ≡ count_loaded word }
{
    match word {
        Some((Operand::Byte(high), Operand::Byte(low))) if high == 0 && 1 <= low && low <= 8 => {
            Some(low as u16)
        }
        _ => None,
    }
}
