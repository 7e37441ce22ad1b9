// The table of macros.
ghost use Rattle.std.specs.Prelude.{◌≡◌, ◌≤◌, ◌≤ℤ◌, pos, negsuc, is_some, IsTrue, OnOk, OnErr, IfErr, IfOk, option_copied, Ok, None};
ghost use Rattle.c65_base.specs.Answers.{Fails};
ghost use Rattle.c65_macro.specs.Definitions;

use crate::definition::{body_fault, same_macro};
use crate::item::{Macro, Words};
use c65_base::{Code, Name, Pos, Refusal, Size};
use indexmap::IndexMap;
use std::alloc::Global;
use std::marker::Model;

/// The macros that may be defined at once.
const MACROS: usize = 16_384;

/// The macros that are defined, which contracts see as the lists of their names and definitions.
#[derive(Drop)]
pub struct Macros {
    pub(crate) predefined: IndexMap<Name, Macro>,
    pub(crate) defined: IndexMap<Name, Macro>,
    pub(crate) words: Words,
    pub(crate) file: Name,
    pub(crate) offset: i64,
    pub(crate) alloc: Global,
}

impl Model for Macros {
    ghost use Rattle.std.specs.Prelude.{◌≤◌, length};
    ghost use Rattle.c65_base.specs.Limits.{limit_of};
    ghost use Rattle.c65_base.specs.declared.refusal.Size.TheVariants as sizes;
    ghost use Rattle.c65_macro.specs.Table.{Table};

    ghost Value = { Table };

    ghost view = { λ m. record { predefined = m.predefined.entries; defined = m.defined.entries; words = m.words; file = m.file; offset = m.offset } };

    ghost invariant = { λ m. length m.defined.entries ≤ limit_of sizes.Macros };
}

impl Macros {
    ghost use Rattle.c65_macro.specs.Table;

    /// From here on `__FILE__` is the string literal whose spelling is `file`, and `__LINE__` the line of its place
    /// plus the offset (C90 6.8.4). The offset is from -4,294,967,295 to 4,294,967,295.
    pub fn set_line(&mut self, file: Name, offset: i64)
        requires low { negsuc 4294967294 ≤ℤ offset }
        requires high { offset ≤ℤ pos 4294967295 }
        ensures { self.new ≡ record self.old { file = file; offset = offset } }
    {
        self.file = file;
        self.offset = offset;
    }

    /// Whether a name is that of a predefined macro, which is neither defined nor removed.
    pub fn is_predefined(&self, name: Name) -> bool
        ensures { result ≡ Table.is_predefined self.now name }
    {
        self.predefined.contains_key(&name)
    }

    /// The macro of a name.
    pub fn get(&self, name: Name) -> Option<&Macro>
        ensures { option_copied result ≡ Table.lookup self.now name }
    {
        match self.predefined.get(&name) {
            Some(item) => Some(item),
            None => self.defined.get(&name),
        }
    }

    /// Removes a macro, and says whether its name was there. A predefined one stays.
    pub fn undef(&mut self, name: Name) -> bool
        ensures there { result ≡ is_some (Table.lookup self.old name) }
        ensures gone { self.new ≡ Table.removed self.old name }
    {
        if self.is_predefined(name) {
            return true;
        }
        let removed = self.defined.shift_remove(&name);
        removed.is_some()
    }

    /// Why a macro can not be defined, unless it is for another one of its name or for want of room.
    fn form(&self, item: &Macro, pos: Pos) -> Result<(), Refusal>
        ensures ok { OnOk result (Definitions.form self.now item.now pos ≡ Ok tt) }
        ensures refused { IfErr result (λ e. Fails e (Definitions.form self.now item.now pos)) }
    {
        if self.is_predefined(item.name) || item.name == self.words.defined {
            return Err(Refusal::At {
                code: Code::PredefinedName,
                pos,
            });
        }
        if let Some(params) = &item.params
            && params.as_slice().len() > 127
        {
            return Err(Refusal::TooLarge {
                limit: Size::MacroArguments,
                value: 128,
            });
        }
        match body_fault(self.words, &item.params, item.body.as_slice()) {
            Some((code, pos)) => Err(Refusal::At { code, pos }),
            None => Ok(()),
        }
    }

    /// Whether a macro of this name is defined, and is the same.
    fn known(&self, item: &Macro) -> Option<bool>
        ensures { result ≡ Definitions.known self.now item.now }
    {
        match self.defined.get(&item.name) {
            Some(old) => Some(same_macro(old, item)),
            None => None,
        }
    }

    /// Adds a macro of a name that has none.
    fn add(&mut self, item: Macro, pos: Pos) -> Result<(), Refusal>
        requires { Definitions.known self.old item ≡ None }
        ensures ok { OnOk result (Definitions.added self.old item pos None ≡ Ok self.new) }
        ensures refused { IfErr result (λ e. Fails e (Definitions.added self.old item pos None)) }
        ensures kept { OnErr result (self.new ≡ self.old) }
    {
        if self.defined.len() == MACROS {
            return Err(Refusal::TooLarge {
                limit: Size::Macros,
                value: MACROS as u64 + 1,
            });
        }
        self.defined.insert(item.name, item)?;
        Ok(())
    }

    /// Defines a macro, whose name stands at `pos`. A second definition has to be the same.
    pub fn define(&mut self, item: Macro, pos: Pos) -> Result<(), Refusal>
        ensures ok { OnOk result (Definitions.define self.old item pos ≡ Ok self.new) }
        ensures refused { IfErr result (λ e. Fails e (Definitions.define self.old item pos)) }
        ensures kept { OnErr result (self.new ≡ self.old) }
    {
        self.form(&item, pos)?;
        match self.known(&item) {
            Some(true) => Ok(()),
            Some(false) => Err(Refusal::At {
                code: Code::MacroRedefined,
                pos,
            }),
            None => self.add(item, pos),
        }
    }
}
