// Names for spellings: equal names for equal spellings, and for no others.
ghost use Rattle.std.specs.Prelude.{◌≡◌, ◌==◌, ◌≤◌, ◌<◌, ℕ, List, [], map, length, Some, slice_get, IfOk, IfErr, OnOk, OnErr, option_map};
ghost use Rattle.c65_base.specs.Limits.{limit_of};
ghost use Rattle.c65_base.specs.Names.{name_of, with_spelling, IsDistinct, Lacks, RefusesName};
ghost use Rattle.c65_base.specs.declared.refusal.Size.TheVariants as sizes;

use crate::refusal::{Refusal, Size};
use indexmap::IndexSet;
use std::alloc::Global;
use std::marker::Model;

/// A spelling's number in its table.
#[derive(Clone, Copy, Debug, PartialEq, Eq, PartialOrd, Ord, Hash)]
pub struct Name(pub u32);

/// The spellings that have names, each once, in the order in which they came: at most 65,535.
#[derive(Drop)]
pub struct Names {
    spellings: IndexSet<Vec<u8>>,
    alloc: Global,
}

impl Model for Names {
    ghost use Rattle.std.specs.Prelude.{◌≤◌, ℕ, List, map, length};
    ghost use Rattle.c65_base.specs.Limits.{limit_of};
    ghost use Rattle.c65_base.specs.Names.{IsDistinct};
    ghost use Rattle.c65_base.specs.declared.refusal.Size.TheVariants as sizes;

    ghost Value = { List (List ℕ) };

    ghost view = { λ n. map (λ v. v.items) n.spellings.keys };

    ghost invariant = { λ n. (length n.spellings.keys ≤ limit_of sizes.Names) × IsDistinct (map (λ v. v.items) n.spellings.keys) };
}

impl Names {
    /// No names. It takes no memory.
    pub fn new(alloc: Global) -> Names
        ensures { result ≡ [] }
    {
        Names {
            spellings: IndexSet::new(alloc),
            alloc,
        }
    }

    /// How many names the table gave.
    pub fn len(&self) -> usize
        ensures len { result ≡ length self.now }
        ensures few { length self.now ≤ limit_of sizes.Names }
        ensures distinct { IsDistinct self.now }
    {
        self.spellings.len()
    }

    pub fn is_empty(&self) -> bool
        ensures { result ≡ (length self.now == 0) }
    {
        self.spellings.is_empty()
    }

    /// The name of a spelling: its own, or the next one. Refuses the 65,536th distinct spelling.
    pub fn intern(&mut self, spelling: &[u8]) -> Result<Name, Refusal>
        ensures name { IfOk result (λ n. name_of self.new spelling.now ≡ Some n.0) }
        ensures known { IfOk result (λ n. slice_get self.new n.0 ≡ Some spelling.now) }
        ensures table { OnOk result (self.new ≡ with_spelling self.old spelling.now) }
        ensures room { OnOk result (Lacks self.old spelling.now → length self.old < limit_of sizes.Names) }
        ensures refused { IfErr result (λ refusal. RefusesName self.old spelling.now refusal) }
        ensures kept { OnErr result (self.new ≡ self.old) }
    {
        if let Some(at) = self.spellings.get_index_of(spelling) {
            return Ok(Name(at as u32));
        }
        let count = self.spellings.len() as u64;
        if count == Size::Names.number() {
            return Err(Refusal::TooLarge {
                limit: Size::Names,
                value: count + 1,
            });
        }
        let owned = Vec::from_slice(self.alloc, spelling)?;
        let (at, _) = self.spellings.insert_full(owned)?;
        Ok(Name(at as u32))
    }

    /// The spelling of a name, where the table gave it.
    pub fn spelling(&self, name: Name) -> Option<&[u8]>
        ensures { option_map (λ s. s.now) result ≡ slice_get self.now name.0 }
    {
        let spelling = self.spellings.get_index(name.0 as usize)?;
        Some(spelling.as_slice())
    }
}
