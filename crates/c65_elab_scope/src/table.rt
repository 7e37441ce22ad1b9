// The declarations of one name space that are in force.
ghost use Rattle.std.specs.Prelude.{◌≡◌, ◌∷◌, ◌<◌, [], length, reverse, OnOk, true};
ghost use Rattle.c65_elab_scope.specs.Tables.{table_of, no_names, found, found_in, bound, bound_in, closed_table, grown, replaced, ends_in, undone};

use crate::meaning::{Bound, Meaning};
use c65_base::Name;
use std::alloc::{AllocError, Global};

/// A declaration that may be taken back: its name, its block, and what it hides.
#[derive(Clone, Copy)]
pub struct Hidden {
    pub name: Name,
    pub block: u32,
    pub hides: Option<Bound>,
}

/// What each name means now, by the name's number, and what each declaration hides, the latest last.
/// A name is found in constant time, and a block is closed in the time of its declarations.
#[derive(Drop)]
pub struct Table {
    pub current: Vec<Option<Bound>>,
    pub hidden: Vec<Hidden>,
}

impl Table {
    /// No declarations. It takes no memory.
    pub fn new(alloc: Global) -> Table
        ensures { table_of result ≡ no_names }
    {
        Table {
            current: Vec::new(alloc),
            hidden: Vec::new(alloc),
        }
    }

    /// What the nearest declaration of a name made of it.
    pub fn find(&self, name: Name) -> Option<Bound>
        ensures { result ≡ found (table_of self.now) name }
    {
        match self.current.get(name.0 as usize) {
            Some(bound) => *bound,
            None => None,
        }
    }

    /// What a declaration in this very block made of a name.
    pub fn find_in(&self, name: Name, block: u32) -> Option<Meaning>
        ensures { result ≡ found_in (table_of self.now) name block }
    {
        match self.find(name) {
            Some(bound) => {
                if bound.block == block {
                    Some(bound.meaning)
                } else {
                    None
                }
            }
            None => None,
        }
    }

    /// Declares a name in a block.
    pub fn bind(&mut self, name: Name, meaning: Meaning, block: u32) -> Result<(), AllocError>
        ensures { OnOk result (table_of self.new ≡ bound (table_of self.old) name meaning block) }
    {
        let hides = self.find(name);
        put(&mut self.current, name, Bound { meaning, block })?;
        self.hidden.push(Hidden { name, block, hides })?;
        Ok(())
    }

    /// Takes back the declarations of a block, whose declarations are the latest.
    pub fn close(&mut self, block: u32)
        ensures { table_of self.new ≡ closed_table block (table_of self.old) }
    {
        while self.ends_in(block) {
            self.undo();
        }
    }

    /// Whether the latest declaration is of this block.
    fn ends_in(&self, block: u32) -> bool
        ensures { result ≡ ends_in block (table_of self.now).hidden }
    {
        match self.hidden.last() {
            Some(last) => last.block == block,
            None => false,
        }
    }

    /// Takes back the latest declaration.
    fn undo(&mut self)
        requires { 0 < length self.old.hidden.items }
        ensures exact { table_of self.new ≡ undone (table_of self.old) }
        ensures shorter { length self.new.hidden.items < length self.old.hidden.items }
    {
        if let Some(last) = self.hidden.pop() {
            restore(&mut self.current, last.name, last.hides);
        }
    }
}

/// Room for the names up to this one.
#[tactic(auto, using(crate::proofs::TableLaws::grown_push, crate::proofs::TableLaws::grown_done))]
fn grow(current: &mut Vec<Option<Bound>>, at: usize) -> Result<(), AllocError>
    ensures { OnOk result (current.new.items ≡ grown current.old.items at) }
{
    while current.len() <= at {
        current.push(None)?;
    }
    Ok(())
}

/// What a name means from now on, where there is room for it.
#[tactic(auto, using(crate::proofs::TableLaws::set_replaced, crate::proofs::TableLaws::replaced_past))]
fn restore(current: &mut Vec<Option<Bound>>, name: Name, bound: Option<Bound>)
    ensures { current.new.items ≡ replaced current.old.items name.0 bound }
{
    if let Some(place) = current.get_mut(name.0 as usize) {
        *place = bound;
    }
}

fn put(current: &mut Vec<Option<Bound>>, name: Name, bound: Bound) -> Result<(), AllocError>
    ensures { OnOk result (current.new.items ≡ bound_in current.old.items name bound) }
{
    grow(current, name.0 as usize)?;
    restore(current, name, Some(bound));
    Ok(())
}
