// The arguments of a use of a function-like macro (C90 6.8.3).
ghost use Rattle.std.specs.Prelude.{◌≡◌, ℕ, List, [], false, ◌∷◌, ◌++◌, IfErr, IfOk};
ghost use Rattle.c65_macro.specs.Refusals.{StopsExpansion};
ghost use Rattle.c65_macro.specs.declared.sets.Node.{Node};
ghost use Rattle.c65_macro.specs.declared.item.Words.{Words};
ghost use Rattle.c65_macro.specs.Items.{Item, put_count};
ghost use Rattle.c65_macro.specs.Uses;
ghost use Rattle.c65_macro.specs.Views.{item_of, items_of};
ghost use Rattle.c65_macro.specs.Machine.{IsGathered, IsTaken, IsAdded, IsSeparated, gather_in};

use crate::item::Words;
use crate::marked::{Argument, Marked, plus};
use crate::rest::Rest;
use crate::uses::{Role, role_of};
use c65_base::{Refusal, Size};
use std::alloc::{AllocError, Global};
use std::mem;

/// How many tokens may wait, and how many an expansion may have.
pub const LIMIT: u64 = 500_000;

/// How many arguments a use may have.
const ARGUMENTS: usize = 127;

/// Too many tokens wait, or an expansion has too many.
pub fn too_many_tokens() -> Refusal
    ensures { result ≡ Refusal.TooLarge Size.Tokens 500001 }
{
    Refusal::TooLarge {
        limit: Size::Tokens,
        value: 500_001,
    }
}

/// The arguments of a use: how many tokens they have together, and the closing parenthesis.
#[derive(Drop)]
pub struct Arguments {
    pub lists: Vec<Argument>,
    pub size: u64,
    pub close: Marked,
}

/// The arguments that were gathered so far: those that are whole, the next one, how many tokens they have together, how
/// many parentheses are open in it, and whether a line ended just before.
#[derive(Drop)]
pub struct Gathered {
    lists: Vec<Argument>,
    list: Vec<Marked>,
    size: u64,
    depth: u64,
    gap: bool,
}

/// What the tokens behind an opening parenthesis come to: a whole use, or one whose closing parenthesis is not there.
#[derive(Drop)]
pub enum Inside {
    Closed(Arguments),
    Unclosed(Gathered),
}

impl Gathered {
    /// Nothing behind the opening parenthesis.
    pub fn new(alloc: Global) -> Gathered
        ensures { (result.lists.items ≡ []) × (result.list.items ≡ []) × (result.size ≡ 0) × (result.depth ≡ 0) × (result.gap ≡ false) }
    {
        Gathered {
            lists: Vec::new(alloc),
            list: Vec::new(alloc),
            size: 0,
            depth: 0,
            gap: false,
        }
    }

    /// One more token of the argument, with so many tokens waiting outside of the use and behind it.
    fn add(&mut self, item: Marked, depth: u64, outside: u64, put: u64) -> Result<bool, Refusal>
        ensures refused { IfErr result StopsExpansion }
        ensures value { (nodes : List Node) (w : Words) (is : List Item) → put_count is ≡ put → IsAdded nodes w outside self.old depth (item_of nodes item) is result self.new }
    {
        let size = plus(self.size, 1)?;
        let inside = plus(outside, size)?;
        let waiting = plus(inside, put)?;
        if waiting > LIMIT {
            return Err(too_many_tokens());
        }
        let mut item = item;
        item.token.space = item.token.space || self.gap;
        item.put = false;
        self.list.push(item)?;
        self.size = size;
        self.depth = depth;
        self.gap = false;
        Ok(false)
    }

    /// One more argument begins.
    fn separate(&mut self, alloc: Global) -> Result<bool, Refusal>
        ensures refused { IfErr result StopsExpansion }
        ensures value { (nodes : List Node) (w : Words) (outside : ℕ) (is : List Item) → IsSeparated nodes w outside self.old is result self.new }
    {
        if self.lists.len() + 1 >= ARGUMENTS {
            return Err(Refusal::TooLarge {
                limit: Size::MacroArguments,
                value: 128,
            });
        }
        let list = mem::replace(&mut self.list, Vec::new(alloc));
        self.lists.push(Argument::from_vec(list))?;
        self.gap = false;
        Ok(false)
    }

    /// Takes a token behind the opening parenthesis, and says whether the use ends with it.
    fn take(
        &mut self,
        alloc: Global,
        item: Marked,
        role: Role,
        outside: u64,
        put: u64,
    ) -> Result<bool, Refusal>
        ensures refused { IfErr result StopsExpansion }
        ensures value { (nodes : List Node) (w : Words) (is : List Item) → Uses.role w item.token ≡ role → put_count is ≡ put → IsTaken nodes w outside self.old (item_of nodes item) is result self.new }
    {
        match role {
            Role::LineEnd => {
                self.gap = true;
                Ok(false)
            }
            Role::Opening => {
                let depth = plus(self.depth, 1)?;
                self.add(item, depth, outside, put)
            }
            Role::Closing if self.depth == 0 => Ok(true),
            Role::Closing => self.add(item, self.depth - 1, outside, put),
            Role::Comma if self.depth == 0 => self.separate(alloc),
            Role::Comma => self.add(item, self.depth, outside, put),
            Role::Other => self.add(item, self.depth, outside, put),
        }
    }

    /// All arguments.
    fn close(self, close: Marked) -> Result<Arguments, AllocError>
        ensures { IfOk result (λ a. (a.lists.items ≡ self.lists.items ++ self.list.items ∷ []) × (a.size ≡ self.size) × (a.close ≡ close)) }
    {
        let Gathered {
            lists,
            list,
            size,
            ..
        } = self;
        let mut lists = lists;
        lists.push(Argument::from_vec(list))?;
        Ok(Arguments { lists, size, close })
    }
}

impl Rest {
    /// Takes what follows of a use some of whose arguments are gathered. So many tokens wait outside of the list, and
    /// those that may come behind it were put there by no replacement.
    pub fn gather(
        &mut self,
        alloc: Global,
        words: Words,
        outside: u64,
        gathered: Gathered,
    ) -> Result<Inside, Refusal>
        ensures refused { IfErr result StopsExpansion }
        ensures value { (nodes : List Node) (tail : List Item) → put_count tail ≡ 0 → IsGathered nodes words outside tail result self.new (gather_in nodes words outside gathered (items_of nodes self.old ++ tail)) }
    {
        let mut gathered = gathered;
        while let Some(item) = self.pop() {
            let role = role_of(words, &item.token);
            if gathered.take(alloc, item, role, outside, self.put())? {
                return Ok(Inside::Closed(gathered.close(item)?));
            }
        }
        Ok(Inside::Unclosed(gathered))
    }
}
