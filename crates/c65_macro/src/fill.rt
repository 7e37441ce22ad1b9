// A replacement list with its arguments, # and ## (C90 6.8.3.1 to 6.8.3.3).
ghost use Rattle.std.specs.Prelude.{◌≡◌, ◌++◌, ◌∷◌, [], List, IfErr, IfOk, IfNone, option_map, ◌||◌};
ghost use Rattle.std.specs.Option.{option_to_list};
ghost use Rattle.c65_macro.specs.Refusals.{StopsExpansion};
ghost use Rattle.c65_macro.specs.declared.sets.Node.{Node};
ghost use Rattle.c65_macro.specs.Sets.{Extends, set_of, either};
ghost use Rattle.c65_macro.specs.Items;
ghost use Rattle.c65_macro.specs.Items.{with_space, hide_all};
ghost use Rattle.c65_macro.specs.Fill;
ghost use Rattle.c65_macro.specs.Answered.{Gives};
ghost use Rattle.c65_macro.specs.Views.{item_of, items_of, use_of, filling_of};

use crate::definition::is_mark;
use crate::item::{Params, Words};
use crate::marked::{Argument, Marked};
use crate::sets::{Hide, Sets};
use crate::text::{glue, string_of};
use c65_base::{Name, Names, Pos, Refusal};
use c65_lex::{PpKind, PpToken};
use std::alloc::{AllocError, Global};

/// What a replacement is made from: the arguments as they were written and fully replaced, and the place of the name
/// that is replaced.
#[derive(Drop)]
pub struct Used {
    pub words: Words,
    pub raw: Vec<Argument>,
    pub full: Vec<Argument>,
    pub place: Pos,
}

/// A body so far: what is finished, what a ## would take up, and whether a ## stands just before, or a #, with its
/// white space.
#[derive(Drop)]
pub struct Filled {
    ready: Vec<Marked>,
    chain: Vec<Marked>,
    glued: bool,
    hash: Option<bool>,
}

/// Whether a ## stands in front.
pub fn begins_paste(words: Words, tokens: &[PpToken]) -> bool
    ensures { result ≡ Fill.begins_paste words tokens.now }
{
    match tokens.first() {
        Some(token) => is_mark(words.paste, token),
        None => false,
    }
}

/// The argument of a parameter.
fn argument<'a>(params: &[Name], arguments: &'a [Argument], name: Name) -> Option<&'a [Marked]>
    ensures { option_map (λ a. a.now) result ≡ Fill.argument params.now arguments.now name }
{
    let mut names = params;
    let mut rest = arguments;
    while let Some((param, others)) = names.split_first() {
        let Some((argument, more)) = rest.split_first() else {
            return None;
        };
        if *param == name {
            return Some(argument.as_slice());
        }
        names = others;
        rest = more;
    }
    None
}

/// The argument for a token, if it is the name of a parameter.
fn argument_of<'a>(
    params: &Option<Params>,
    arguments: &'a [Argument],
    token: &PpToken,
) -> Option<&'a [Marked]>
    ensures { option_map (λ a. a.now) result ≡ Fill.argument_of params.now arguments.now token.now }
{
    match (params, token.kind) {
        (Some(params), PpKind::Name) => argument(params.as_slice(), arguments, token.spelling),
        _ => None,
    }
}

/// Whether a # is an operator here.
fn is_hash(words: Words, params: &Option<Params>, token: &PpToken) -> bool
    ensures { result ≡ Fill.is_hash words params.now token.now }
{
    match params {
        Some(_) => is_mark(words.hash, token),
        None => false,
    }
}

/// The tokens with this white space before the first.
fn with_space(alloc: Global, tokens: &[Marked], space: bool) -> Result<Vec<Marked>, AllocError>
    ensures { IfOk result (λ v. (nodes : List Node) → items_of nodes v.items ≡ with_space space (items_of nodes tokens.now)) }
{
    let mut items = Vec::new(alloc);
    let Some((first, more)) = tokens.split_first() else {
        return Ok(items);
    };
    let mut first = *first;
    first.token.space = space;
    items.push(first)?;
    items.extend_from_slice(more)?;
    Ok(items)
}

/// One token.
pub fn single(alloc: Global, item: Marked) -> Result<Vec<Marked>, AllocError>
    ensures { IfOk result (λ v. v.items ≡ item ∷ []) }
{
    let mut items = Vec::new(alloc);
    items.push(item)?;
    Ok(items)
}

/// A token of the body in the place of the name.
fn own(place: Pos, token: &PpToken) -> Marked
    ensures { (nodes : List Node) → item_of nodes result ≡ Fill.own place token.now }
{
    Marked {
        token: PpToken {
            pos: place,
            ..*token
        },
        hide: Hide::EMPTY,
        put: true,
    }
}

/// What stands for a token of the body: an argument, or the token itself.
fn stands(
    alloc: Global,
    place: Pos,
    token: &PpToken,
    argument: Option<&[Marked]>,
) -> Result<Vec<Marked>, AllocError>
    ensures { IfOk result (λ v. (nodes : List Node) → items_of nodes v.items ≡ Fill.stands place token.now (option_map (λ a. items_of nodes a.now) argument.entry)) }
{
    match argument {
        Some(argument) => Ok(with_space(alloc, argument, token.space)?),
        None => Ok(single(alloc, own(place, token))?),
    }
}

/// Whether a ## stands at a side.
fn is_beside(words: Words, glued: bool, more: &[PpToken]) -> bool
    ensures { result ≡ (glued || Fill.begins_paste words more.now) }
{
    glued || begins_paste(words, more)
}

/// What stands for a token of the body that is behind no #.
fn plain(
    alloc: Global,
    params: &Option<Params>,
    used: &Used,
    glued: bool,
    token: &PpToken,
    more: &[PpToken],
) -> Result<Vec<Marked>, AllocError>
    ensures { IfOk result (λ v. (nodes : List Node) → items_of nodes v.items ≡ Fill.plain (use_of nodes params.now used.now) glued token.now more.now) }
{
    if is_beside(used.words, glued, more) {
        let raw = argument_of(params, &used.raw, token);
        let tokens = stands(alloc, used.place, token, raw)?;
        return Ok(tokens);
    }
    let full = argument_of(params, &used.full, token);
    let items = stands(alloc, used.place, token, full)?;
    Ok(items)
}

/// What stands for a token of the body, behind a # with its white space or none.
fn operand(
    alloc: Global,
    names: &mut Names,
    params: &Option<Params>,
    used: &Used,
    filled: &Filled,
    token: &PpToken,
    more: &[PpToken],
) -> Result<Vec<Marked>, Refusal>
    ensures refused { IfErr result StopsExpansion }
    ensures grows { Extends names.old names.new }
    ensures value { (nodes : List Node) → Gives (λ v. items_of nodes v.items) result names.new (Fill.operand (use_of nodes params.now used.now) names.old filled.now.glued filled.now.hash token.now more.now) }
{
    let Some(space) = filled.hash else {
        let tokens = plain(alloc, params, used, filled.glued, token, more)?;
        return Ok(tokens);
    };
    let Some(argument) = argument_of(params, &used.raw, token) else {
        return Ok(Vec::new(alloc));
    };
    let text = string_of(alloc, names, argument, used.place, space)?;
    let items = single(alloc, text)?;
    Ok(items)
}

/// Takes the last token.
fn pop_last(items: &mut Vec<Marked>) -> Option<Marked>
    ensures taken { items.old.items ≡ items.new.items ++ option_to_list result }
    ensures ended { IfNone result (items.old.items ≡ []) }
{
    items.pop()
}

/// The last token of a list with the first of another one.
fn join(
    alloc: Global,
    names: &mut Names,
    sets: &mut Sets,
    place: Pos,
    left: Vec<Marked>,
    right: &[Marked],
) -> Result<Vec<Marked>, Refusal>
    ensures refused { IfErr result StopsExpansion }
    ensures grows { Extends names.old names.new }
    ensures kept { Extends sets.old sets.new }
    ensures value { (nodes : List Node) → Extends sets.new nodes → Gives (λ v. items_of nodes v.items) result names.new (Fill.join names.old place (items_of nodes left.items) (items_of nodes right.now)) }
{
    let mut items = left;
    let Some((first, more)) = right.split_first() else {
        return Ok(items);
    };
    let Some(last) = pop_last(&mut items) else {
        let whole = Vec::from_slice(alloc, right)?;
        return Ok(whole);
    };
    let glued = glue(alloc, names, sets, place, last, *first)?;
    items.push(glued)?;
    items.extend_from_slice(more)?;
    Ok(items)
}

impl Filled {
    /// Adds what stands for a token.
    fn attach(
        self,
        alloc: Global,
        names: &mut Names,
        sets: &mut Sets,
        place: Pos,
        operand: Vec<Marked>,
    ) -> Result<Filled, Refusal>
        ensures refused { IfErr result StopsExpansion }
        ensures grows { Extends names.old names.new }
        ensures kept { Extends sets.old sets.new }
        ensures value { (nodes : List Node) → Extends sets.new nodes → Gives (filling_of nodes) result names.new (Fill.attach names.old place (filling_of nodes self) (items_of nodes operand.items)) }
    {
        let Filled {
            ready,
            chain,
            glued,
            ..
        } = self;
        if glued {
            let chain = join(alloc, names, sets, place, chain, &operand)?;
            return Ok(Filled {
                ready,
                chain,
                glued: false,
                hash: None,
            });
        }
        let mut ready = ready;
        ready.extend_from_slice(&chain)?;
        Ok(Filled {
            ready,
            chain: operand,
            glued: false,
            hash: None,
        })
    }

    /// All tokens.
    fn whole(self) -> Result<Vec<Marked>, AllocError>
        ensures { IfOk result (λ v. v.items ≡ self.ready.items ++ self.chain.items) }
    {
        let Filled { ready, chain, .. } = self;
        let mut ready = ready;
        ready.extend_from_slice(&chain)?;
        Ok(ready)
    }
}

/// Does the next token of a body.
fn add(
    alloc: Global,
    names: &mut Names,
    sets: &mut Sets,
    params: &Option<Params>,
    used: &Used,
    filled: Filled,
    token: &PpToken,
    more: &[PpToken],
) -> Result<Filled, Refusal>
    ensures refused { IfErr result StopsExpansion }
    ensures grows { Extends names.old names.new }
    ensures kept { Extends sets.old sets.new }
    ensures value { (nodes : List Node) → Extends sets.new nodes → Gives (filling_of nodes) result names.new (Fill.next (use_of nodes params.now used.now) names.old (filling_of nodes filled) token.now more.now) }
{
    if is_mark(used.words.paste, token) {
        return Ok(Filled {
            glued: true,
            ..filled
        });
    }
    if is_hash(used.words, params, token) {
        return Ok(Filled {
            hash: Some(token.space),
            ..filled
        });
    }
    let tokens = operand(alloc, names, params, used, &filled, token, more)?;
    filled.attach(alloc, names, sets, used.place, tokens)
}

/// The tokens of a body with the arguments in their places.
fn fill(
    alloc: Global,
    names: &mut Names,
    sets: &mut Sets,
    params: &Option<Params>,
    used: &Used,
    body: &[PpToken],
) -> Result<Vec<Marked>, Refusal>
    ensures refused { IfErr result StopsExpansion }
    ensures grows { Extends names.old names.new }
    ensures kept { Extends sets.old sets.new }
    ensures value { (nodes : List Node) → Extends sets.new nodes → Gives (λ v. items_of nodes v.items) result names.new (Fill.fill (use_of nodes params.now used.now) names.old Fill.start body.now) }
{
    let mut filled = Filled {
        ready: Vec::new(alloc),
        chain: Vec::new(alloc),
        glued: false,
        hash: None,
    };
    let mut rest = body;
    while let Some((token, more)) = rest.split_first() {
        filled = add(alloc, names, sets, params, used, filled, token, more)?;
        rest = more;
    }
    let items = filled.whole()?;
    Ok(items)
}

/// The names of one set and of the next token's, where those of the first and of the token's before are joined.
fn joined_after(
    sets: &mut Sets,
    hide: Hide,
    before: Hide,
    joined: Hide,
    next: Hide,
) -> Result<Hide, AllocError>
    ensures kept { Extends sets.old sets.new }
    ensures value { IfOk result (λ h. (nodes : List Node) → Extends sets.new nodes → set_of nodes joined.0 ≡ either (set_of nodes hide.0) (set_of nodes before.0) → set_of nodes h.0 ≡ either (set_of nodes hide.0) (set_of nodes next.0)) }
{
    if next == before {
        return Ok(joined);
    }
    Ok(sets.joined(hide, next)?)
}

/// The tokens as they are put before the rest of a list: these macros may not replace them.
fn hidden(
    alloc: Global,
    sets: &mut Sets,
    hide: Hide,
    items: &[Marked],
) -> Result<Vec<Marked>, AllocError>
    ensures kept { Extends sets.old sets.new }
    ensures value { IfOk result (λ v. (nodes : List Node) → Extends sets.new nodes → items_of nodes v.items ≡ hide_all (set_of nodes hide.0) (items_of nodes items.now)) }
{
    let mut out = Vec::new(alloc);
    let mut before = Hide::EMPTY;
    let mut joined = hide;
    let mut rest = items;
    while let Some((item, more)) = rest.split_first() {
        joined = joined_after(sets, hide, before, joined, item.hide)?;
        before = item.hide;
        out.push(Marked {
            token: item.token,
            hide: joined,
            put: true,
        })?;
        rest = more;
    }
    Ok(out)
}

/// The replacement of a use: these macros may not replace it, and it has the white space of the name.
pub fn replacement(
    alloc: Global,
    names: &mut Names,
    sets: &mut Sets,
    params: &Option<Params>,
    used: &Used,
    hide: Hide,
    space: bool,
    body: &[PpToken],
) -> Result<Vec<Marked>, Refusal>
    ensures refused { IfErr result StopsExpansion }
    ensures grows { Extends names.old names.new }
    ensures kept { Extends sets.old sets.new }
    ensures value { (nodes : List Node) → Extends sets.new nodes → Gives (λ v. items_of nodes v.items) result names.new (Fill.replacement (use_of nodes params.now used.now) names.old (set_of nodes hide.0) space body.now) }
{
    let filled = fill(alloc, names, sets, params, used, body)?;
    let items = hidden(alloc, sets, hide, &filled)?;
    let spaced = with_space(alloc, &items, space)?;
    Ok(spaced)
}
