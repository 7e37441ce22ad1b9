// Which names are types.
ghost use Rattle.std.specs.Prelude.{◌≡◌, ◌<◌, ◌∷◌, [], length, reverse, OnOk, false};
ghost use Rattle.c65_parse_names.specs.Scopes.{is_type_in, opened, closed, with_declared};
ghost use Rattle.c65_parse_names.specs.Blocks.{scope_of, no_types, head_or, tail_of, stacks_of, with_kind_of, without_kind_of, without_block};

use c65_base::Name;
use std::alloc::{AllocError, Global};

/// Which names are types, block by block. Each step takes constant time, and what it makes a block
/// forget.
#[derive(Drop)]
pub struct Scope {
    /// What the declarations in force made each name, the nearest last.
    kinds: Vec<Vec<bool>>,
    /// The names that each open block declared.
    blocks: Vec<Vec<Name>>,
    alloc: Global,
}

impl Scope {
    /// One block without types. It takes no memory.
    pub fn new(alloc: Global) -> Scope
        ensures { scope_of result ≡ no_types ∷ [] }
    {
        Scope {
            kinds: Vec::new(alloc),
            blocks: Vec::new(alloc),
            alloc,
        }
    }

    /// Whether the nearest declaration of a name made it a type's.
    #[tactic(auto, using(crate::proofs::Blocks::stack_get, crate::proofs::Blocks::stack_none))]
    pub fn is_type(&self, name: Name) -> bool
        ensures { result ≡ is_type_in (scope_of self.now) name }
    {
        match self.kinds.get(name.0 as usize) {
            Some(kinds) => nearest(kinds),
            None => false,
        }
    }

    /// Begins a block.
    pub fn open(&mut self) -> Result<(), AllocError>
        ensures { OnOk result (scope_of self.new ≡ opened (scope_of self.old)) }
    {
        let block = Vec::new(self.alloc);
        self.blocks.push(block)?;
        Ok(())
    }

    /// Ends the innermost block, if one was begun.
    pub fn close(&mut self)
        ensures { scope_of self.new ≡ closed (scope_of self.old) }
    {
        if let Some(block) = self.blocks.pop() {
            forget_block(&mut self.kinds, block);
        }
    }

    /// Declares a name in the innermost block.
    #[tactic(auto, using(crate::proofs::Blocks::declared_scope, crate::proofs::Blocks::declared_outside))]
    pub fn declare(&mut self, name: Name, is_type: bool) -> Result<(), AllocError>
        ensures { OnOk result (scope_of self.new ≡ with_declared name is_type (scope_of self.old)) }
    {
        learn(self.alloc, &mut self.kinds, name, is_type)?;
        if let Some(block) = self.blocks.pop() {
            let mut block = block;
            block.push(name)?;
            self.blocks.push(block)?;
        }
        Ok(())
    }
}

/// What the nearest of the declarations made their name.
fn nearest(kinds: &[bool]) -> bool
    ensures { result ≡ head_or false (reverse kinds.now) }
{
    kinds.last().copied().unwrap_or(false)
}

/// Takes the nearest declaration off.
fn leave(kinds: &mut Vec<bool>)
    ensures { reverse kinds.new.items ≡ tail_of (reverse kinds.old.items) }
{
    let _ = kinds.pop();
}

/// Stacks for the names up to this one.
#[tactic(auto, using(crate::proofs::Blocks::grown))]
fn grow(alloc: Global, kinds: &mut Vec<Vec<bool>>, at: usize) -> Result<(), AllocError>
    ensures stacks { OnOk result (stacks_of kinds.new.items ≡ stacks_of kinds.old.items) }
    ensures room { OnOk result (at < length kinds.new.items) }
{
    while kinds.len() <= at {
        let none = Vec::new(alloc);
        kinds.push(none)?;
    }
    Ok(())
}

#[tactic(auto, using(crate::proofs::Blocks::pushed_on))]
fn learn(
    alloc: Global,
    kinds: &mut Vec<Vec<bool>>,
    name: Name,
    is_type: bool,
) -> Result<(), AllocError>
    ensures { OnOk result (stacks_of kinds.new.items ≡ with_kind_of (stacks_of kinds.old.items) name is_type) }
{
    let at = name.0 as usize;
    grow(alloc, kinds, at)?;
    if let Some(stack) = kinds.get_mut(at) {
        stack.push(is_type)?;
    }
    Ok(())
}

#[tactic(auto, using(crate::proofs::Blocks::popped_off, crate::proofs::Blocks::forgets_nothing))]
fn forget(kinds: &mut Vec<Vec<bool>>, name: Name)
    ensures { stacks_of kinds.new.items ≡ without_kind_of (stacks_of kinds.old.items) name }
{
    if let Some(stack) = kinds.get_mut(name.0 as usize) {
        leave(stack);
    }
}

/// Forgets what a block declared.
#[tactic(auto, using(crate::proofs::Blocks::block_push))]
fn forget_block(kinds: &mut Vec<Vec<bool>>, block: Vec<Name>)
    ensures { stacks_of kinds.new.items ≡ without_block block.items (stacks_of kinds.old.items) }
{
    let mut block = block;
    while let Some(name) = block.pop() {
        forget(kinds, name);
    }
}
