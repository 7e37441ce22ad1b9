// Which type a list of keywords names (C90 6.5.2).
ghost use Rattle.std.specs.Prelude.{◌≡◌};
ghost use Rattle.c65_ctype.specs.Views.{ty_of};
ghost use Rattle.c65_elab_declare.specs.Words.{a_base, first_with, int_with, with_base, with_sign, signed_type, char_type, type_of_words, no_words, is_empty};

use c65_ctype::CType;
use c65_ints::IntType;

/// The keywords of a type, but for `signed` and `unsigned`.
#[derive(Clone, Copy)]
pub enum Base {
    Nothing,
    Void,
    Char,
    Int,
    Short,
    ShortInt,
    Long,
    LongInt,
}

/// One keyword of a type, but for `signed` and `unsigned`.
#[derive(Clone, Copy)]
pub enum Keyword {
    Void,
    Char,
    Int,
    Short,
    Long,
}

/// The keywords that were read: the flag says `signed` or, where it is false, `unsigned`.
#[derive(Clone, Copy)]
pub struct Words {
    pub base: Base,
    pub sign: Option<bool>,
}

impl Words {
    pub fn new() -> Words
        ensures { result ≡ no_words }
    {
        Words {
            base: Base::Nothing,
            sign: None,
        }
    }

    pub fn is_empty(self) -> bool
        ensures { result ≡ is_empty self }
    {
        match self.base {
            Base::Nothing => self.sign.is_none(),
            _ => false,
        }
    }

    /// One more keyword; none where no type has them all.
    pub fn with(self, keyword: Keyword) -> Option<Words>
        ensures { result ≡ with_base self keyword }
    {
        match self.base {
            Base::Nothing => self.first(keyword),
            Base::Int => self.behind_int(keyword),
            Base::Short => match keyword {
                Keyword::Int => self.of(Base::ShortInt),
                Keyword::Void | Keyword::Char | Keyword::Short | Keyword::Long => None,
            },
            Base::Long => match keyword {
                Keyword::Int => self.of(Base::LongInt),
                Keyword::Void | Keyword::Char | Keyword::Short | Keyword::Long => None,
            },
            Base::Void | Base::Char | Base::ShortInt | Base::LongInt => None,
        }
    }

    fn of(self, base: Base) -> Option<Words>
        ensures { result ≡ a_base base self.sign }
    {
        Some(Words {
            base,
            sign: self.sign,
        })
    }

    /// The first keyword.
    fn first(self, keyword: Keyword) -> Option<Words>
        ensures { result ≡ first_with keyword self.sign }
    {
        match keyword {
            Keyword::Void => match self.sign {
                None => self.of(Base::Void),
                Some(_) => None,
            },
            Keyword::Char => self.of(Base::Char),
            Keyword::Int => self.of(Base::Int),
            Keyword::Short => self.of(Base::Short),
            Keyword::Long => self.of(Base::Long),
        }
    }

    /// A keyword behind `int`.
    fn behind_int(self, keyword: Keyword) -> Option<Words>
        ensures { result ≡ int_with keyword self.sign }
    {
        match keyword {
            Keyword::Short => self.of(Base::ShortInt),
            Keyword::Long => self.of(Base::LongInt),
            Keyword::Void | Keyword::Char | Keyword::Int => None,
        }
    }

    /// `signed` or `unsigned`; none where no type has them all.
    pub fn with_sign(self, signed: bool) -> Option<Words>
        ensures { result ≡ with_sign self signed }
    {
        if self.sign.is_some() {
            return None;
        }
        match self.base {
            Base::Void => None,
            Base::Nothing
            | Base::Char
            | Base::Int
            | Base::Short
            | Base::ShortInt
            | Base::Long
            | Base::LongInt => Some(Words {
                base: self.base,
                sign: Some(signed),
            }),
        }
    }

    /// The type, where plain char is this one. No keyword is `int`.
    pub fn type_of(self, plain_char: IntType) -> CType
        ensures { ty_of result ≡ type_of_words self plain_char }
    {
        match self.base {
            Base::Void => CType::Void,
            Base::Char => self.char_type(plain_char),
            Base::Nothing | Base::Int => self.signed(IntType::Int, IntType::UInt),
            Base::Short | Base::ShortInt => self.signed(IntType::Short, IntType::UShort),
            Base::Long | Base::LongInt => self.signed(IntType::Long, IntType::ULong),
        }
    }

    fn char_type(self, plain_char: IntType) -> CType
        ensures { ty_of result ≡ char_type self.sign plain_char }
    {
        match self.sign {
            None => CType::Int(plain_char),
            Some(true) => CType::Int(IntType::SChar),
            Some(false) => CType::Int(IntType::UChar),
        }
    }

    /// The first type, or the second where `unsigned` was read.
    fn signed(self, signed: IntType, unsigned: IntType) -> CType
        ensures { ty_of result ≡ signed_type self signed unsigned }
    {
        match self.sign {
            Some(false) => CType::Int(unsigned),
            Some(true) | None => CType::Int(signed),
        }
    }
}
