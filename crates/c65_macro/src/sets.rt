// Hide sets: which macros may no longer replace a token. Sets share their tails.
ghost use Rattle.std.specs.Prelude.{◌≡◌, ◌<◌, List, IfOk, IfSome, MatchOption, if◌then◌else◌};
ghost use Rattle.c65_macro.specs.declared.sets.Node.{Node};
ghost use Rattle.c65_macro.specs.Sets.{Extends, none, set_of, with_name, both, either};

use c65_base::Name;
use indexmap::IndexSet;
use std::alloc::{AllocError, Global};
use std::marker::Model;

/// A set by its number: 0 has no names, and each other one has a name more than the set that it goes on with.
#[derive(Clone, Copy, Debug, PartialEq, Eq)]
pub struct Hide(u32);

/// A set's name that comes before the rest of it.
#[derive(Clone, Copy, Debug, PartialEq, Eq)]
pub struct Node {
    name: Name,
    rest: Hide,
}

/// The sets of one expansion, which contracts see as the list of their nodes.
#[derive(Drop)]
pub struct Sets {
    nodes: Vec<Node>,
    seen: IndexSet<Name>,
}

impl Model for Sets {
    ghost use Rattle.std.specs.Prelude.{List};
    ghost use Rattle.c65_macro.specs.declared.sets.Node.{Node};
    ghost use Rattle.c65_macro.specs.Sets.{IsLinked, IsSeen};

    ghost Value = { List Node };

    ghost view = { λ s. s.nodes.items };

    ghost invariant = { λ s. IsLinked s.nodes.items × IsSeen s.seen.keys s.nodes.items };
}

impl Hide {
    /// No names.
    pub const EMPTY: Hide = Hide(0);
}

impl Sets {
    pub fn new(alloc: Global) -> Sets {
        Sets {
            nodes: Vec::new(alloc),
            seen: IndexSet::new(alloc),
        }
    }

    /// The name that a set has before the rest of it. The set is one of these; for any other number the answer is that
    /// for want of memory.
    fn node(&self, set: Hide) -> Result<Option<Node>, AllocError>
        ensures falls { IfOk result (λ o. IfSome o (λ node. node.rest.0 < set.0)) }
        ensures value { IfOk result (λ o. (table : List Node) → Extends self.now table → MatchOption o (set_of table set.0 ≡ none) (λ node. set_of table set.0 ≡ with_name node.name.0 (set_of table node.rest.0))) }
    {
        if set.0 == 0 {
            return Ok(None);
        }
        match self.nodes.get(set.0 as usize - 1) {
            Some(node) => Ok(Some(*node)),
            None => Err(AllocError),
        }
    }

    /// Whether a name is in a set.
    pub fn has(&self, set: Hide, name: Name) -> Result<bool, AllocError>
        ensures value { IfOk result (λ b. (table : List Node) → Extends self.now table → set_of table set.0 name.0 ≡ b) }
    {
        if set.0 as usize > self.nodes.len() {
            return Err(AllocError);
        }
        if !self.seen.contains(&name) {
            return Ok(false);
        }
        let mut at = set;
        while let Some(node) = self.node(at)? {
            if node.name == name {
                return Ok(true);
            }
            at = node.rest;
        }
        Ok(false)
    }

    /// A set with one more name.
    pub fn with(&mut self, name: Name, rest: Hide) -> Result<Hide, AllocError>
        ensures grows { Extends self.old self.new }
        ensures value { IfOk result (λ h. (table : List Node) → Extends self.new table → set_of table h.0 ≡ with_name name.0 (set_of table rest.0)) }
    {
        let count = self.nodes.len();
        if rest.0 as usize > count {
            return Err(AllocError);
        }
        let Ok(number) = u32::try_from(count + 1) else {
            return Err(AllocError);
        };
        self.seen.insert(name)?;
        self.nodes.push(Node { name, rest })?;
        Ok(Hide(number))
    }

    /// A set with one more name, where another one has it too.
    fn with_shared(&mut self, name: Name, rest: Hide, other: Hide) -> Result<Hide, AllocError>
        ensures grows { Extends self.old self.new }
        ensures value { IfOk result (λ h. (table : List Node) → Extends self.new table → set_of table h.0 ≡ (if set_of table other.0 name.0 then with_name name.0 (set_of table rest.0) else set_of table rest.0)) }
    {
        if !self.has(other, name)? {
            return Ok(rest);
        }
        Ok(self.with(name, rest)?)
    }

    /// A set with one more name, where another one lacks it.
    fn with_lacking(&mut self, name: Name, rest: Hide, other: Hide) -> Result<Hide, AllocError>
        ensures grows { Extends self.old self.new }
        ensures value { IfOk result (λ h. (table : List Node) → Extends self.new table → set_of table h.0 ≡ (if set_of table other.0 name.0 then set_of table rest.0 else with_name name.0 (set_of table rest.0))) }
    {
        if self.has(other, name)? {
            return Ok(rest);
        }
        Ok(self.with(name, rest)?)
    }

    /// The names that are in both sets.
    pub fn both(&mut self, set: Hide, other: Hide) -> Result<Hide, AllocError>
        ensures grows { Extends self.old self.new }
        ensures value { IfOk result (λ h. (table : List Node) → Extends self.new table → set_of table h.0 ≡ both (set_of table set.0) (set_of table other.0)) }
    {
        if set == other {
            return Ok(set);
        }
        let mut common = Hide::EMPTY;
        let mut at = set;
        while let Some(node) = self.node(at)? {
            common = self.with_shared(node.name, common, other)?;
            at = node.rest;
        }
        Ok(common)
    }

    /// The names that are in one of the sets. What the first has at its end of the second is not gone over.
    pub fn joined(&mut self, set: Hide, other: Hide) -> Result<Hide, AllocError>
        ensures grows { Extends self.old self.new }
        ensures value { IfOk result (λ h. (table : List Node) → Extends self.new table → set_of table h.0 ≡ either (set_of table set.0) (set_of table other.0)) }
    {
        if other == Hide::EMPTY {
            return Ok(set);
        }
        let mut all = other;
        let mut at = set;
        while at != other {
            let Some(node) = self.node(at)? else {
                return Ok(all);
            };
            all = self.with_lacking(node.name, all, other)?;
            at = node.rest;
        }
        Ok(all)
    }
}
