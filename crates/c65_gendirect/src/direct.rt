// Values whose bytes are read where they lie.
ghost use Rattle.std.specs.Prelude.{◌≡◌};
ghost use Rattle.c65_gendirect.specs.Bytes.{number_byte, address_byte, place_byte, byte_above, byte_of, converted};

use crate::bytes::OperandByte;
use c65_code::Sym;
use c65_genload::zero_page::REGBANK;
use c65_genload::{Place, bytes_of, first, fourth, second, third};
use c65_ints::IntType;

/// A value whose bytes are read where they lie.
#[derive(Clone, Copy, Debug, PartialEq, Eq)]
pub enum Direct {
    /// A number modulo 2 to the 32.
    Number(u32),
    /// The address so far behind a symbol.
    Address(Sym, u16),
    /// What is kept at a place that is known.
    Kept(Place, IntType),
}

fn number_byte(number: u32, index: u8) -> u8
    ensures { result ≡ number_byte number index }
{
    if index == 0 {
        first(number)
    } else if index == 1 {
        second(number)
    } else if index == 2 {
        third(number)
    } else {
        fourth(number)
    }
}

// An address has two bytes.
fn address_byte(low: OperandByte, high: OperandByte, index: u8) -> Option<OperandByte>
    ensures { result ≡ address_byte low high index }
{
    if index == 0 {
        Some(low)
    } else if index == 1 {
        Some(high)
    } else {
        None
    }
}

fn place_byte(place: Place, index: u8) -> Option<OperandByte>
    ensures { result ≡ place_byte place index }
{
    match place {
        Place::Bank(at) => {
            let byte = REGBANK.wrapping_add(at).wrapping_add(index);
            Some(OperandByte::Zero(byte))
        }
        Place::Near(at) => Some(OperandByte::Near(at.wrapping_add(index))),
        Place::Data(sym, at) => Some(OperandByte::Data(sym, at.wrapping_add(index as u16))),
        Place::Far(_) => None,
    }
}

// Above its own bytes a value has zeros, or its sign, which lies nowhere.
fn byte_above(kind: IntType) -> Option<OperandByte>
    ensures { result ≡ byte_above kind }
{
    if kind.is_signed() {
        None
    } else {
        Some(OperandByte::Number(0))
    }
}

/// A byte of a value by its number, the lowest first, where it can be read.
pub fn byte_of(direct: Direct, index: u8) -> Option<OperandByte>
    ensures { result ≡ byte_of direct index }
{
    match direct {
        Direct::Number(number) => Some(OperandByte::Number(number_byte(number, index))),
        Direct::Address(sym, at) => {
            address_byte(OperandByte::Low(sym, at), OperandByte::High(sym, at), index)
        }
        Direct::Kept(place, kind) => {
            if (index as u16) < bytes_of(kind) {
                place_byte(place, index)
            } else {
                byte_above(kind)
            }
        }
    }
}

/// A value as one of a type (C90 6.2.1.2), where its bytes still lie: of a narrower type the low
/// bytes, of a wider one the value itself. An address fills a type of its own size alone.
pub fn converted(to: IntType, direct: Direct) -> Option<Direct>
    ensures { result ≡ converted to direct }
{
    match direct {
        Direct::Number(_) => None,
        Direct::Address(sym, at) => {
            if bytes_of(to) == 2 {
                Some(Direct::Address(sym, at))
            } else {
                None
            }
        }
        Direct::Kept(place, from) => {
            let kind = if bytes_of(to) <= bytes_of(from) {
                to
            } else {
                from
            };
            Some(Direct::Kept(place, kind))
        }
    }
}
