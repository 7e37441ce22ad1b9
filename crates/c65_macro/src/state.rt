// An expansion as far as it has come: a stack of lists that are being expanded, each but the first an argument of a
// use in the list below.
ghost use Rattle.std.specs.Prelude.{◌≡◌, ◌++◌, ℕ, List, [], false, IfErr, IfOk};
ghost use Rattle.c65_macro.specs.Refusals.{StopsExpansion};
ghost use Rattle.c65_macro.specs.declared.sets.Node.{Node};
ghost use Rattle.c65_macro.specs.Table.{Table};
ghost use Rattle.c65_macro.specs.Items;
ghost use Rattle.c65_macro.specs.Expand;
ghost use Rattle.c65_macro.specs.Views.{item_of, items_of, tokens_of};
ghost use Rattle.c65_macro.specs.Machine.{Frame, Steps, rest_in, stage_of, went_on, went_into};

use crate::gather::{Gathered, LIMIT, too_many_tokens};
use crate::marked::{Argument, Marked, is_line_end, plus, weight};
use crate::rest::Rest;
use crate::sets::Sets;
use c65_base::Refusal;
use c65_lex::PpToken;
use std::alloc::{AllocError, Global};

/// A list that is being expanded: what is left, what came out, how many tokens more may, how many wait outside of it,
/// and whether more may come behind what is left.
#[derive(Drop)]
pub struct Level {
    pub rest: Rest,
    pub out: Vec<Marked>,
    pub room: u64,
    pub outside: u64,
    pub is_open: bool,
}

/// A use whose closing parenthesis has not come yet: the macro's name, and what was gathered.
#[derive(Drop)]
pub struct Begun {
    pub name: Marked,
    pub gathered: Gathered,
}

/// What the next token came to.
#[derive(Drop)]
pub enum Went {
    /// The expansion goes on.
    On,
    /// It is before the others again: whether a use begins there is told by tokens that are to come.
    Back,
    /// A use has begun that ends among tokens that are to come.
    Into(Begun),
}

/// A use whose arguments are being replaced: the list behind it, its name and closing parenthesis, its arguments, and
/// how many tokens wait outside of each.
#[derive(Drop)]
pub struct Pending {
    pub level: Level,
    pub name: Marked,
    pub close: Marked,
    pub raw: Vec<Argument>,
    pub full: Vec<Argument>,
    pub inside: u64,
}

/// An expansion: the list on top and the uses below it.
#[derive(Drop)]
pub struct State {
    pub level: Level,
    pub pending: Vec<Pending>,
    pub sets: Sets,
}

/// A step with which the expansion goes on.
pub fn went_on(step: Result<(), Refusal>) -> Result<Went, Refusal>
    ensures { result ≡ went_on step }
{
    match step {
        Ok(()) => Ok(Went::On),
        Err(refusal) => Err(refusal),
    }
}

/// A step that may have come into a use.
pub fn went_into(step: Result<Option<Begun>, Refusal>) -> Result<Went, Refusal>
    ensures { result ≡ went_into step }
{
    match step {
        Ok(None) => Ok(Went::On),
        Ok(Some(begun)) => Ok(Went::Into(begun)),
        Err(refusal) => Err(refusal),
    }
}

/// How many of these tokens are no line ends.
fn count(items: &[Marked]) -> Result<u64, AllocError>
    ensures { IfOk result (λ n. (nodes : List Node) → n ≡ Items.count (items_of nodes items.now)) }
{
    let mut total = 0;
    let mut rest = items;
    while let Some((item, more)) = rest.split_first() {
        total = plus(total, weight(&item.token))?;
        rest = more;
    }
    Ok(total)
}

/// The tokens without their marks.
pub fn unmarked(alloc: Global, items: &[Marked]) -> Result<Vec<PpToken>, AllocError>
    ensures { IfOk result (λ v. v.items ≡ tokens_of items.now) }
{
    let mut tokens = Vec::new(alloc);
    let mut rest = items;
    while let Some((item, more)) = rest.split_first() {
        tokens.push(item.token)?;
        rest = more;
    }
    Ok(tokens)
}

impl Level {
    /// Nothing is left, nothing came out, and no more tokens come.
    pub fn new(alloc: Global, outside: u64) -> Level
        ensures { (result.rest ≡ []) × (result.out.items ≡ []) × (result.room ≡ 500000) × (result.outside ≡ outside) × (result.is_open ≡ false) }
    {
        Level {
            rest: Rest::new(alloc),
            out: Vec::new(alloc),
            room: LIMIT,
            outside,
            is_open: false,
        }
    }

    /// A token stays.
    pub fn keep(&mut self, item: Marked) -> Result<(), Refusal>
        ensures refused { IfErr result StopsExpansion }
        ensures value { (nodes : List Node) (more : List PpToken) (table : Table) (known : List (List ℕ)) (frames : List Frame) → Steps table (items_of nodes self.old.out.items) frames (λ go. Expand.keep go known self.old.outside self.old.room (item_of nodes item) (rest_in nodes more self.old)) result known (stage_of nodes more self.new) frames }
    {
        if is_line_end(&item.token) {
            self.out.push(item)?;
            return Ok(());
        }
        if self.room == 0 {
            return Err(too_many_tokens());
        }
        self.out.push(item)?;
        self.room -= 1;
        Ok(())
    }

    /// Puts a replacement before the rest of the list.
    pub fn put(&mut self, replacement: Vec<Marked>) -> Result<(), Refusal>
        ensures refused { IfErr result StopsExpansion }
        ensures value { (nodes : List Node) (more : List PpToken) (table : Table) (known : List (List ℕ)) (frames : List Frame) → Steps table (items_of nodes self.old.out.items) frames (λ go. Expand.put_before go known self.old.outside self.old.room (items_of nodes replacement.items) (rest_in nodes more self.old)) result known (stage_of nodes more self.new) frames }
    {
        let size = count(&replacement)?;
        let more = plus(self.outside, size)?;
        let waiting = plus(more, self.rest.put())?;
        if waiting > LIMIT {
            return Err(too_many_tokens());
        }
        self.rest.push_all(replacement)?;
        Ok(())
    }
}

/// These tokens and those of a line as it stands.
pub fn marked(items: Vec<Marked>, line: &[PpToken]) -> Result<Vec<Marked>, AllocError>
    ensures { IfOk result (λ v. (nodes : List Node) → items_of nodes v.items ≡ items_of nodes items.items ++ Items.items line.now) }
{
    let mut items = items;
    let mut rest = line;
    while let Some((token, more)) = rest.split_first() {
        items.push(Marked::of(*token))?;
        rest = more;
    }
    Ok(items)
}
