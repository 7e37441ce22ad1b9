// What is left of a list that is being expanded.
ghost use Rattle.std.specs.Prelude.{◌≡◌, ◌∷◌, ◌++◌, ◌<◌, List, [], Some, length, is_some, IsTrue, IfOk, OnOk, IfSome, IfNone};
ghost use Rattle.std.specs.Option.{option_to_list};
ghost use Rattle.c65_macro.specs.declared.sets.Node.{Node};
ghost use Rattle.c65_macro.specs.Items.{Item};
ghost use Rattle.c65_macro.specs.Uses.{behind, only_ends};
ghost use Rattle.c65_macro.specs.Views.{items_of, put_of};

use crate::item::Words;
use crate::marked::{Marked, is_line_end, plus, weight};
use crate::uses::{Role, role_of};
use std::alloc::{AllocError, Global};
use std::marker::Model;

/// The tokens that are left, the next one last, and how many of them replacements have put there. Contracts see the
/// tokens from the next one on.
#[derive(Drop)]
pub struct Rest {
    stack: Vec<Marked>,
    put: u64,
}

impl Model for Rest {
    ghost use Rattle.std.specs.Prelude.{◌≡◌, List, reverse};
    ghost use Rattle.c65_macro.specs.declared.marked.Marked.{Marked};
    ghost use Rattle.c65_macro.specs.Views.{put_of};

    ghost Value = { List Marked };

    ghost view = { λ r. reverse r.stack.items };

    ghost invariant = { λ r. r.put ≡ put_of (reverse r.stack.items) };
}

impl Rest {
    pub fn new(alloc: Global) -> Rest
        ensures { result ≡ [] }
    {
        Rest {
            stack: Vec::new(alloc),
            put: 0,
        }
    }

    /// How many tokens replacements have put there.
    pub fn put(&self) -> u64
        ensures { result ≡ put_of self.now }
    {
        self.put
    }

    pub fn is_empty(&self) -> bool
        ensures { IsTrue result → self.now ≡ [] }
    {
        self.stack.is_empty()
    }

    /// Takes the next token.
    pub fn pop(&mut self) -> Option<Marked>
        ensures taken { self.old ≡ option_to_list result ++ self.new }
        ensures ended { IfNone result (self.old ≡ []) }
        ensures shorter { IfSome result (λ _. length self.new < length self.old) }
    {
        let item = self.stack.pop()?;
        if item.put {
            self.put -= weight(&item.token);
        }
        Some(item)
    }

    /// Puts a token before the others.
    pub fn push(&mut self, item: Marked) -> Result<(), AllocError>
        ensures { OnOk result (self.new ≡ item ∷ self.old) }
    {
        let more = if item.put { weight(&item.token) } else { 0 };
        let put = plus(self.put, more)?;
        self.stack.push(item)?;
        self.put = put;
        Ok(())
    }

    /// Puts tokens before the others.
    pub fn push_all(&mut self, tokens: Vec<Marked>) -> Result<(), AllocError>
        ensures { OnOk result (self.new ≡ tokens.items ++ self.old) }
    {
        let mut items = tokens;
        while let Some(item) = items.pop() {
            self.push(item)?;
        }
        Ok(())
    }

    /// Whether a parenthesis opens next, behind line ends or none.
    pub fn is_use(&self, words: Words) -> bool
        ensures { (nodes : List Node) → is_some (behind words (items_of nodes self.now)) ≡ result }
    {
        let mut rest = self.stack.as_slice();
        while let Some((item, others)) = rest.split_last() {
            match role_of(words, &item.token) {
                Role::LineEnd => rest = others,
                Role::Opening => return true,
                _ => return false,
            }
        }
        false
    }

    /// Whether nothing but line ends is left.
    pub fn has_ends_alone(&self) -> bool
        ensures { (nodes : List Node) → only_ends (items_of nodes self.now) ≡ result }
    {
        let mut rest = self.stack.as_slice();
        while let Some((item, others)) = rest.split_last() {
            if !is_line_end(&item.token) {
                return false;
            }
            rest = others;
        }
        true
    }

    /// All tokens, from the next one on.
    pub fn into_items(self, alloc: Global) -> Result<Vec<Marked>, AllocError>
        ensures { IfOk result (λ v. v.items ≡ self) }
    {
        let mut rest = self;
        let mut items = Vec::new(alloc);
        while let Some(item) = rest.pop() {
            items.push(item)?;
        }
        Ok(items)
    }

    /// Goes over line ends and the opening parenthesis, where a use stands there.
    pub fn enter(&mut self, words: Words)
        ensures { (nodes : List Node) (is : List Item) → behind words (items_of nodes self.old) ≡ Some is → items_of nodes self.new ≡ is }
    {
        while let Some(item) = self.pop() {
            match role_of(words, &item.token) {
                Role::LineEnd => {}
                _ => return,
            }
        }
    }
}
