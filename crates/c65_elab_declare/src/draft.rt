// What the specifiers of a declaration say so far (C90 6.5.1 to 6.5.3).
ghost use Rattle.std.specs.Prelude.{◌≡◌, option_map};
ghost use Rattle.c65_base.specs.Answers.{Gives};
ghost use Rattle.c65_ctype.specs.Views.{qty_of};
ghost use Rattle.c65_elab_declare.specs.Drafts.{draft_of, no_draft, storage_in, const_in, volatile_in, words_in, keyword_in, sign_in, type_in_draft, base_of, draft_finished};

use crate::parts::fault;
use crate::qualify::qualify;
use crate::words::{Keyword, Words};
use c65_base::{Code, Pos, Refusal};
use c65_ctype::{CType, QType};
use c65_ints::IntType;
use c65_tree::Storage;

/// The storage class, the qualifiers and the type that specifiers gave, and whether they declare a
/// tag or enumeration constants.
#[derive(Drop)]
pub struct Draft {
    pub storage: Option<Storage>,
    pub is_const: bool,
    pub is_volatile: bool,
    pub words: Words,
    pub named: Option<QType>,
    pub declares: bool,
}

impl Draft {
    pub fn new() -> Draft
        ensures { draft_of result ≡ no_draft }
    {
        Draft {
            storage: None,
            is_const: false,
            is_volatile: false,
            words: Words::new(),
            named: None,
            declares: false,
        }
    }

    /// A storage class, which may stand once.
    pub fn with_storage(self, storage: Storage, pos: Pos) -> Result<Draft, Refusal>
        ensures { Gives draft_of result (storage_in (draft_of self) storage pos) }
    {
        if self.storage.is_some() {
            return Err(fault(Code::StorageClass, pos));
        }
        let mut draft = self;
        draft.storage = Some(storage);
        Ok(draft)
    }

    /// `const`, which may stand once.
    pub fn with_const(self, pos: Pos) -> Result<Draft, Refusal>
        ensures { Gives draft_of result (const_in (draft_of self) pos) }
    {
        if self.is_const {
            return Err(fault(Code::Specifiers, pos));
        }
        let mut draft = self;
        draft.is_const = true;
        Ok(draft)
    }

    /// `volatile`, which may stand once.
    pub fn with_volatile(self, pos: Pos) -> Result<Draft, Refusal>
        ensures { Gives draft_of result (volatile_in (draft_of self) pos) }
    {
        if self.is_volatile {
            return Err(fault(Code::Specifiers, pos));
        }
        let mut draft = self;
        draft.is_volatile = true;
        Ok(draft)
    }

    /// The keywords with one more, where there is a type of them.
    fn with_words(self, words: Option<Words>, pos: Pos) -> Result<Draft, Refusal>
        ensures { Gives draft_of result (words_in (draft_of self) words pos) }
    {
        if self.named.is_some() {
            return Err(fault(Code::Specifiers, pos));
        }
        match words {
            Some(words) => {
                let mut draft = self;
                draft.words = words;
                Ok(draft)
            }
            None => Err(fault(Code::Specifiers, pos)),
        }
    }

    /// One more keyword of a type.
    pub fn with_keyword(self, keyword: Keyword, pos: Pos) -> Result<Draft, Refusal>
        ensures { Gives draft_of result (keyword_in (draft_of self) keyword pos) }
    {
        let words = self.words.with(keyword);
        self.with_words(words, pos)
    }

    /// `signed` or `unsigned`.
    pub fn with_sign(self, signed: bool, pos: Pos) -> Result<Draft, Refusal>
        ensures { Gives draft_of result (sign_in (draft_of self) signed pos) }
    {
        let words = self.words.with_sign(signed);
        self.with_words(words, pos)
    }

    /// A type by itself: a typedef name, a structure or union, or an enumeration; the flag says that
    /// it declares something.
    pub fn with_type(self, ty: QType, declares: bool, pos: Pos) -> Result<Draft, Refusal>
        ensures { Gives draft_of result (type_in_draft (draft_of self) (qty_of ty) declares pos) }
    {
        if self.named.is_some() || !self.words.is_empty() {
            return Err(fault(Code::Specifiers, pos));
        }
        let mut draft = self;
        draft.named = Some(ty);
        draft.declares = declares;
        Ok(draft)
    }

    /// The storage class and the type. Where no declarator follows, something has to be declared.
    pub fn finish(
        self,
        plain_char: IntType,
        alone: bool,
        pos: Pos,
    ) -> Result<(Option<Storage>, QType), Refusal>
        ensures { Gives (λ x. (x.0, qty_of x.1)) result (draft_finished (draft_of self) plain_char alone pos) }
    {
        if alone && !self.declares {
            return Err(fault(Code::Specifiers, pos));
        }
        let mut ty = base_type(self.named, self.words, plain_char);
        qualify(&mut ty, self.is_const, self.is_volatile);
        Ok((self.storage, ty))
    }
}

/// The type that stands by itself, or that of the keywords.
fn base_type(named: Option<QType>, words: Words, plain_char: IntType) -> QType
    ensures { qty_of result ≡ base_of (option_map qty_of named) words plain_char }
{
    match named {
        Some(ty) => ty,
        None => QType {
            ty: words.type_of(plain_char),
            is_const: false,
            is_volatile: false,
        },
    }
}
