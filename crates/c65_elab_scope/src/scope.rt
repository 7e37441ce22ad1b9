// What names mean at a place of a unit, and what the unit has declared up to there.
ghost use Rattle.std.specs.Prelude.{◌≡◌, OnOk, IfOk, option_map, option_copied, slice_get, Some, None};
ghost use Rattle.c65_base.specs.Answers.{Gives};
ghost use Rattle.c65_ctype.specs.Views.{qty_of, types_of};
ghost use Rattle.c65_csem.specs.Views.{unit_of};
ghost use Rattle.c65_elab_scope.specs.Tables.{found, found_in};
ghost use Rattle.c65_elab_scope.specs.Scopes.{scope_of, nothing, variadic_in, variadic_behind, opened, closed, char_of, tag_bound};

use crate::meaning::{Bound, Meaning};
use crate::table::Table;
use c65_base::{Name, Options, Refusal};
use c65_csem::Parts;
use c65_ctype::{QType, Types};
use c65_ints::IntType;
use std::alloc::Global;

/// The names that are visible at a place of a unit, and what was declared before it (C90 6.1.2).
#[derive(Drop)]
pub struct Scope {
    /// What was declared, by number.
    pub parts: Parts,
    /// The ordinary identifiers.
    pub names: Table,
    pub tags: Table,
    /// The names that have linkage, whether they are visible or not.
    pub links: Table,
    /// The types of typedef names, by number.
    pub typedefs: Vec<QType>,
    /// How many blocks are open.
    pub block: u32,
    /// Plain char is signed.
    pub signed_chars: bool,
    /// The objects without a name of the function that is gone through, by number.
    pub spills: Vec<u32>,
    /// The name of the place behind the further arguments.
    pub rest: Name,
    /// The block at which the body of a variadic function began.
    pub variadic: Option<u32>,
    pub alloc: Global,
}

/// The block at which the body of a variadic function begins, if it did or does with this block.
fn variadic_in(begins: bool, block: u32, held: Option<u32>) -> Option<u32>
    ensures { result ≡ variadic_in begins block held }
{
    match held {
        Some(number) => Some(number),
        None => { if begins { Some(block) } else { None } }
    }
}

/// The same behind the end of this block.
fn variadic_behind(block: u32, held: Option<u32>) -> Option<u32>
    ensures { result ≡ variadic_behind block held }
{
    match held {
        None => None,
        Some(number) => { if number == block { None } else { Some(number) } }
    }
}

impl Scope {
    /// The scope in which a unit begins, and the name of the place behind the further arguments. It
    /// refuses for memory alone.
    pub fn new(alloc: Global, options: &Options, rest: Name) -> Result<Scope, Refusal>
        ensures { Gives scope_of result (nothing options.now.signed_chars rest) }
    {
        Ok(Scope {
            parts: Parts {
                types: Types::new(alloc),
                objects: Vec::new(alloc),
                literals: Vec::new(alloc),
                funcs: Vec::new(alloc),
            },
            names: Table::new(alloc),
            tags: Table::new(alloc),
            links: Table::new(alloc),
            typedefs: Vec::new(alloc),
            block: 0,
            signed_chars: options.signed_chars,
            spills: Vec::new(alloc),
            rest,
            variadic: None,
            alloc,
        })
    }

    /// Begins a block; the flag says that it is the body of a variadic function. It refuses for
    /// memory alone.
    pub fn open(&mut self, variadic: bool) -> Result<(), Refusal>
        ensures { Gives (λ x. scope_of self.new) result (opened variadic (scope_of self.old)) }
    {
        if self.block == 0xffff_ffff {
            return Err(Refusal::OutOfMemory);
        }
        self.block += 1;
        self.variadic = variadic_in(variadic, self.block, self.variadic);
        Ok(())
    }

    /// Ends the innermost block, if one is open: its names mean what they meant before it.
    pub fn close(&mut self)
        ensures { scope_of self.new ≡ closed (scope_of self.old) }
    {
        if self.block > 0 {
            self.names.close(self.block);
            self.tags.close(self.block);
            self.variadic = variadic_behind(self.block, self.variadic);
            self.block -= 1;
        }
    }

    /// The structures and unions that were declared.
    pub fn types(&self) -> &Types
        ensures { result.now ≡ self.now.parts.types }
    {
        &self.parts.types
    }

    /// What was declared.
    pub fn parts(&self) -> &Parts
        ensures { result.now ≡ self.now.parts }
    {
        &self.parts
    }

    /// What was declared, with functions that have no body yet.
    pub fn into_parts(self) -> Parts
        ensures { result ≡ self.parts }
    {
        self.parts
    }

    /// The type of plain char.
    pub fn plain_char(&self) -> IntType
        ensures { result ≡ char_of self.now.signed_chars }
    {
        if self.signed_chars {
            IntType::SChar
        } else {
            IntType::UChar
        }
    }

    /// What an ordinary identifier means.
    pub fn find(&self, name: Name) -> Option<Bound>
        ensures { result ≡ found (scope_of self.now).names name }
    {
        self.names.find(name)
    }

    /// The type of a typedef name, by its number.
    pub fn typedef(&self, number: u32) -> Option<&QType>
        ensures { option_map qty_of (option_copied result) ≡ slice_get (scope_of self.now).typedefs number }
    {
        self.typedefs.get(number as usize)
    }

    /// What a tag means.
    pub fn find_tag(&self, name: Name) -> Option<Bound>
        ensures { result ≡ found (scope_of self.now).tags name }
    {
        self.tags.find(name)
    }

    /// What a declaration in the innermost block made of a tag.
    pub fn own_tag(&self, name: Name) -> Option<Meaning>
        ensures { result ≡ found_in (scope_of self.now).tags name (scope_of self.now).block }
    {
        self.tags.find_in(name, self.block)
    }

    /// Declares a tag in the innermost block.
    pub fn bind_tag(&mut self, name: Name, meaning: Meaning) -> Result<(), Refusal>
        ensures { Gives (λ x. scope_of self.new) result (tag_bound (scope_of self.old) name meaning) }
    {
        self.tags.bind(name, meaning, self.block)?;
        Ok(())
    }
}
