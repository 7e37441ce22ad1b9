// The eight integer types and their ranges (C90 6.1.2.5).
ghost use Rattle.std.specs.Prelude.{◌≡◌, ◌*◌, ◌<◌, ◌↔◌, pos, IsTrue};
ghost use Rattle.c65_ints.specs.Ranges.{width_of, is_signed_of, modulus_of, least_of, greatest_of, number_of, InRange};

/// An integer type. Plain char is one of the two character types.
#[derive(Clone, Copy, Debug, PartialEq, Eq)]
pub enum IntType {
    SChar,
    UChar,
    Short,
    UShort,
    Int,
    UInt,
    Long,
    ULong,
}

impl IntType {
    /// The number of bits: 8, 16 or 32.
    pub fn width(self) -> u32
        ensures { result ≡ width_of self }
    {
        match self {
            IntType::SChar | IntType::UChar => 8,
            IntType::Short | IntType::UShort | IntType::Int | IntType::UInt => 16,
            IntType::Long | IntType::ULong => 32,
        }
    }

    /// The number of bytes: 1, 2 or 4.
    pub fn size(self) -> u32
        ensures { 8 * result ≡ width_of self }
    {
        match self {
            IntType::SChar | IntType::UChar => 1,
            IntType::Short | IntType::UShort | IntType::Int | IntType::UInt => 2,
            IntType::Long | IntType::ULong => 4,
        }
    }

    pub fn is_signed(self) -> bool
        ensures { result ≡ is_signed_of self }
    {
        match self {
            IntType::SChar | IntType::Short | IntType::Int | IntType::Long => true,
            IntType::UChar | IntType::UShort | IntType::UInt | IntType::ULong => false,
        }
    }

    /// 2 to the width.
    pub fn modulus(self) -> i64
        ensures { result ≡ pos (modulus_of self) }
    {
        match self {
            IntType::SChar | IntType::UChar => 256,
            IntType::Short | IntType::UShort | IntType::Int | IntType::UInt => 65_536,
            IntType::Long | IntType::ULong => 4_294_967_296,
        }
    }

    /// The least value.
    pub fn least(self) -> i64
        ensures { result ≡ least_of self }
    {
        match self {
            IntType::SChar => -128,
            IntType::Short | IntType::Int => -32_768,
            IntType::Long => -2_147_483_648,
            IntType::UChar | IntType::UShort | IntType::UInt | IntType::ULong => 0,
        }
    }

    /// The greatest value.
    pub fn greatest(self) -> i64
        ensures { result ≡ greatest_of self }
    {
        match self {
            IntType::SChar => 127,
            IntType::UChar => 255,
            IntType::Short | IntType::Int => 32_767,
            IntType::UShort | IntType::UInt => 65_535,
            IntType::Long => 2_147_483_647,
            IntType::ULong => 4_294_967_295,
        }
    }

    /// The type's place among the eight, from 0: two types are the same where their places are.
    pub fn number(self) -> u8
        ensures { result ≡ number_of self }
    {
        match self {
            IntType::SChar => 0,
            IntType::UChar => 1,
            IntType::Short => 2,
            IntType::UShort => 3,
            IntType::Int => 4,
            IntType::UInt => 5,
            IntType::Long => 6,
            IntType::ULong => 7,
        }
    }

    /// Whether the type has this value.
    pub fn holds(self, value: i64) -> bool
        ensures { IsTrue result ↔ InRange self value }
    {
        self.least() <= value && value <= self.greatest()
    }
}
