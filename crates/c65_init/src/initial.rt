// Initialisers (C90 6.5.7): the values of a list go to the members and elements in their order.
ghost use Rattle.std.specs.Prelude.{◌≡◌, ◌<◌, ◌-◌, Some, length, map, slice_get, option_map, option_copied};
ghost use Rattle.c65_base.specs.Answers.{Gives};
ghost use Rattle.c65_ctype.specs.Trees.{type_in};
ghost use Rattle.c65_ctype.specs.Views.{ty_of, qty_of};
ghost use Rattle.c65_elab_scope.specs.Scopes.{scope_of};
ghost use Rattle.c65_tree.specs.View.{expr_of, init_of};
ghost use Rattle.c65_init_cells.specs.Parts.{part_of};
ghost use Rattle.c65_init_cells.specs.Sinks.{sink_of};
ghost use Rattle.c65_init.specs.Initials.{scalar_of, elements_of, members_of, parts_of, all_taken, list_of, braced_of, whole_of, from_item, one_of, part_by_part, whole_value, initial_of, deepest};

use crate::values::{leaf, set_whole};
use c65_base::{Code, Pos, Refusal};
use c65_ctype::{CType, QType};
use c65_elab_scope::Scope;
use c65_init_cells::{
    Part, Sink, element_part, first_pos, is_below, member_part, put_text, scalar_value,
    takes_whole, text_for, whole,
};
use c65_tree::{Expr, InitKind, Initialiser};
use std::alloc::Global;

/// How deep parts may lie in parts. No unit has so many types.
#[tactic(auto, unfolding(crate::specs::Initials::deepest))]
fn deepest() -> u32
    ensures { result ≡ deepest }
{
    0xffff_ffff
}

/// Refuses a list of which an item is left.
#[tactic(auto, using(crate::proofs::Filling::left_over, crate::proofs::Filling::none_left_over))]
fn all_taken(items: &[Initialiser], at: usize) -> Result<(), Refusal>
    ensures { Gives (λ x. tt) result (all_taken (slice_get (map init_of items.now) at)) }
{
    if at >= items.len() {
        return Ok(());
    }
    let item = &items[at];
    Err(Refusal::fault(Code::Initialiser, item.pos))
}

/// A part that is a scalar.
#[tactic(auto, using(crate::proofs::Places::item_place))]
fn scalar(
    alloc: Global,
    scope: &mut Scope,
    sink: &mut Sink,
    part: &Part,
    init: &Initialiser,
) -> Result<u32, Refusal>
    ensures { Gives (λ n. (n, (sink_of sink.new, scope_of scope.new))) result (scalar_of (part_of part.now) (init_of init.now) (sink_of sink.old, scope_of scope.old)) }
{
    let e = scalar_value(init)?;
    leaf(alloc, scope, sink, part, e, init.pos)?;
    Ok(0)
}

/// A part from an initialiser of its own; the number of elements of an array.
#[cycle(initial)]
#[tactic(auto, using(crate::proofs::Places::item_place))]
fn whole_part(
    alloc: Global,
    scope: &mut Scope,
    sink: &mut Sink,
    part: &Part,
    init: &Initialiser,
    left: u32,
) -> Result<u32, Refusal>
    ensures { Gives (λ n. (n, (sink_of sink.new, scope_of scope.new))) result (whole_of (one_of left) (part_of part.now) (type_in (qty_of part.now.ty)) (init_of init.now) (sink_of sink.old, scope_of scope.old)) }
{
    match &part.ty.ty {
        CType::Array(element, count) => match text_for(&part.ty.ty, init) {
            Some(text) => put_text(sink, &element.ty, *count, part.offset, text, init.pos),
            None => braced(alloc, scope, sink, part, init, left),
        },
        CType::Struct(_) => braced(alloc, scope, sink, part, init, left),
        CType::Void | CType::Int(_) | CType::Pointer(_) | CType::Function(_) => {
            scalar(alloc, scope, sink, part, init)
        }
    }
}

/// A part from a list in braces.
#[cycle(initial)]
#[tactic(auto, using(crate::proofs::Places::item_place))]
fn braced(
    alloc: Global,
    scope: &mut Scope,
    sink: &mut Sink,
    part: &Part,
    init: &Initialiser,
    left: u32,
) -> Result<u32, Refusal>
    ensures { Gives (λ n. (n, (sink_of sink.new, scope_of scope.new))) result (braced_of (one_of left) (part_of part.now) (init_of init.now) (sink_of sink.old, scope_of scope.old)) }
{
    match &init.kind {
        InitKind::List(items) => {
            let count = listed(alloc, scope, sink, part, items, left)?;
            Ok(count)
        }
        InitKind::Value(_) => Err(Refusal::fault(Code::Initialiser, init.pos)),
    }
}

/// A part from the items of a list, of which it takes all.
#[cycle(initial)]
fn listed(
    alloc: Global,
    scope: &mut Scope,
    sink: &mut Sink,
    part: &Part,
    items: &[Initialiser],
    left: u32,
) -> Result<u32, Refusal>
    ensures { Gives (λ n. (n, (sink_of sink.new, scope_of scope.new))) result (list_of (one_of left) (part_of part.now) (map init_of items.now) (sink_of sink.old, scope_of scope.old)) }
{
    let (at, count) = parts(alloc, scope, sink, part, items, 0, left)?;
    all_taken(items, at)?;
    Ok(count)
}

/// The parts of an array, a structure or a union from the items of a list, from one of them on. It
/// answers the item behind the last that was taken, and how many elements there are.
#[cycle(initial)]
fn parts(
    alloc: Global,
    scope: &mut Scope,
    sink: &mut Sink,
    part: &Part,
    items: &[Initialiser],
    from: usize,
    left: u32,
) -> Result<(usize, u32), Refusal>
    ensures { Gives (λ x. (x, (sink_of sink.new, scope_of scope.new))) result (parts_of (one_of left) (part_of part.now) (type_in (qty_of part.now.ty)) (map init_of items.now) from (sink_of sink.old, scope_of scope.old)) }
{
    match &part.ty.ty {
        CType::Array(element, count) => {
            let base = part.offset;
            let size = scope.types().size(&element.ty, first_pos(items))?;
            elements(
                alloc, scope, sink, element, base, size, *count, items, from, left,
            )
        }
        CType::Struct(tag) => {
            let at = members(alloc, scope, sink, *tag, part.offset, items, from, left)?;
            Ok((at, 0))
        }
        CType::Void | CType::Int(_) | CType::Pointer(_) | CType::Function(_) => Ok((from, 0)),
    }
}

/// The elements of an array.
#[cycle(initial)]
#[tactic(auto, using(crate::proofs::Filling::elements_taken, crate::proofs::Filling::elements_full))]
fn elements(
    alloc: Global,
    scope: &mut Scope,
    sink: &mut Sink,
    element: &QType,
    base: u32,
    size: u32,
    count: Option<u32>,
    items: &[Initialiser],
    from: usize,
    left: u32,
) -> Result<(usize, u32), Refusal>
    ensures { Gives (λ x. (x, (sink_of sink.new, scope_of scope.new))) result (elements_of (one_of left) (qty_of element.now) base size count (map init_of items.now) (length items.now - from) from 0 (sink_of sink.old, scope_of scope.old)) }
{
    let mut at = from;
    let mut taken: u32 = 0;
    for turn in from..items.len() {
        if at >= items.len() {
            return Ok((at, taken));
        }
        if !is_below(taken, count) {
            return Ok((at, taken));
        }
        let inner = element_part(alloc, element, base, size, taken)?;
        at = one_part(alloc, scope, sink, &inner, items, at, left)?;
        taken = taken.saturating_add(1);
    }
    Ok((at, taken))
}

/// The members of a structure or union.
#[cycle(initial)]
#[tactic(auto, using(crate::proofs::Filling::member_next, crate::proofs::Filling::member_refused, crate::proofs::Filling::members_over, crate::proofs::Filling::members_taken))]
fn members(
    alloc: Global,
    scope: &mut Scope,
    sink: &mut Sink,
    tag: u32,
    base: u32,
    items: &[Initialiser],
    from: usize,
    left: u32,
) -> Result<usize, Refusal>
    ensures { Gives (λ j. (j, (sink_of sink.new, scope_of scope.new))) result (members_of (one_of left) tag base (map init_of items.now) (length items.now - from) from 0 (sink_of sink.old, scope_of scope.old)) }
{
    let mut at = from;
    let mut next = 0;
    for turn in from..items.len() {
        if at >= items.len() {
            return Ok(at);
        }
        let found = member_part(alloc, scope.types(), tag, base, next)?;
        let Some((inner, behind)) = found else {
            return Ok(at);
        };
        at = one_part(alloc, scope, sink, &inner, items, at, left)?;
        next = behind;
    }
    Ok(at)
}

/// One part from the items of a list. Where no brace begins it, it takes as many as it has parts.
#[cycle(initial)]
#[tactic(auto, using(crate::proofs::Filling::one_past, crate::proofs::Filling::one_is))]
fn one_part(
    alloc: Global,
    scope: &mut Scope,
    sink: &mut Sink,
    part: &Part,
    items: &[Initialiser],
    at: usize,
    left: u32,
) -> Result<usize, Refusal>
    ensures { Gives (λ j. (j, (sink_of sink.new, scope_of scope.new))) result (one_of left (part_of part.now) (map init_of items.now) at (sink_of sink.old, scope_of scope.old)) }
{
    if at >= items.len() {
        return Ok(at);
    }
    let item = &items[at];
    if left == 0 {
        return Err(Refusal::OutOfMemory);
    }
    from_item(alloc, scope, sink, part, items, item, at, left - 1)
}

/// One part from an item and those behind it.
#[cycle(initial)]
#[tactic(auto, using(crate::proofs::Places::item_place))]
fn from_item(
    alloc: Global,
    scope: &mut Scope,
    sink: &mut Sink,
    part: &Part,
    items: &[Initialiser],
    item: &Initialiser,
    at: usize,
    left: u32,
) -> Result<usize, Refusal>
    requires { at < length items.now }
    ensures { Gives (λ j. (j, (sink_of sink.new, scope_of scope.new))) result (from_item (one_of left) (part_of part.now) (map init_of items.now) at (Some (init_of item.now)) (sink_of sink.old, scope_of scope.old)) }
{
    if takes_whole(&part.ty.ty, item) {
        whole_part(alloc, scope, sink, part, item, left)?;
        return Ok(at + 1);
    }
    let (behind, _) = parts(alloc, scope, sink, part, items, at, left)?;
    if behind == at {
        return Err(Refusal::fault(Code::Initialiser, item.pos));
    }
    Ok(behind)
}

/// The value that begins an object as a whole, if one does: of an automatic scalar, or of an
/// automatic structure or union that is copied.
fn whole_value<'a>(ty: &CType, init: &'a Initialiser) -> Result<Option<&'a Expr>, Refusal>
    ensures { Gives (λ x. option_map expr_of (option_copied x)) result (whole_value (ty_of ty.now) (init_of init.now)) }
{
    match ty {
        CType::Int(_) | CType::Pointer(_) => Ok(Some(scalar_value(init)?)),
        CType::Struct(_) => match &init.kind {
            InitKind::Value(e) => Ok(Some(e)),
            InitKind::List(_) => Ok(None),
        },
        CType::Void | CType::Array(_, _) | CType::Function(_) => Ok(None),
    }
}

/// What an initialiser makes of an object part by part.
fn by_parts(
    alloc: Global,
    scope: &mut Scope,
    sink: &mut Sink,
    ty: &QType,
    init: &Initialiser,
) -> Result<u32, Refusal>
    ensures { Gives (λ n. (n, (sink_of sink.new, scope_of scope.new))) result (part_by_part (qty_of ty.now) (init_of init.now) (sink_of sink.old, scope_of scope.old)) }
{
    let part = whole(alloc, ty)?;
    let count = whole_part(alloc, scope, sink, &part, init, deepest())?;
    Ok(count)
}

/// What an initialiser makes of an object of this type: its first bytes, or the statements that
/// begin it. It answers the number of elements that an array has by it.
#[tactic(auto, using(crate::proofs::Places::item_place))]
pub fn initial(
    alloc: Global,
    scope: &mut Scope,
    sink: &mut Sink,
    ty: &QType,
    init: &Initialiser,
) -> Result<u32, Refusal>
    ensures { Gives (λ n. (n, (sink_of sink.new, scope_of scope.new))) result (initial_of (qty_of ty.now) (init_of init.now) (sink_of sink.old, scope_of scope.old)) }
{
    if !sink.is_automatic {
        return by_parts(alloc, scope, sink, ty, init);
    }
    match whole_value(&ty.ty, init)? {
        Some(e) => {
            set_whole(alloc, scope, sink, &ty.ty, e, init.pos)?;
            Ok(0)
        }
        None => by_parts(alloc, scope, sink, ty, init),
    }
}
