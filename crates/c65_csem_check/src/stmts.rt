// Whether a statement is well typed (C90 6.6).
ghost use Rattle.std.specs.Prelude.{◌≡◌, ◌&&◌, option_map, option_copied, slice_get, IfOk};
ghost use Rattle.c65_ctype.specs.Views.{qty_of, types_of};
ghost use Rattle.c65_csem.specs.Places;
ghost use Rattle.c65_csem.specs.Views.{typed_of, maybe_of, stmt_of, stmts_of, object_of, unit_of};
ghost use Rattle.c65_csem_check.specs.Contexts;
ghost use Rattle.c65_csem_check.specs.Contexts.{context};
ghost use Rattle.c65_csem_check.specs.Kinds;
ghost use Rattle.c65_csem_check.specs.Statements;

use crate::exprs::{is_given, is_typed};
use crate::labels::are_cases;
use crate::lists::has_number;
use crate::nodes::{holds, is_value, object};
use crate::sizes::{flat_bytes, is_inside, measured, same_size};
use crate::types::{are_alike, int_of, is_promoted_int};
use c65_csem::{Class, Parts, TExpr, TObject, TStmt, is_tag};
use c65_ctype::{QType, Types};
use c65_ints::IntType;
use std::alloc::{AllocError, Global};

/// What stands around a statement: whether a loop does, and the type of the switch.
#[derive(Clone, Copy, Debug, PartialEq, Eq)]
pub struct Around {
    pub in_loop: bool,
    pub in_switch: Option<IntType>,
}

pub fn is_automatic(class: Class) -> bool
    ensures { result ≡ Places.is_automatic class }
{
    match class {
        Class::Auto | Class::Register | Class::Fixed => true,
        _ => false,
    }
}

fn is_automatic_object(object: Option<&TObject>) -> bool
    ensures { result ≡ Statements.is_automatic_at (option_map object_of (option_copied object.entry)) }
{
    match object {
        Some(object) => is_automatic(object.class),
        None => false,
    }
}

fn are_automatic(parts: &Parts, numbers: &[u32]) -> bool
    ensures { result ≡ Statements.are_automatic (unit_of parts.now) numbers.now }
{
    for number in numbers {
        if !is_automatic_object(object(parts, *number)) {
            return false;
        }
    }
    true
}

fn is_initial(e: &TExpr) -> bool
    ensures { result ≡ Statements.is_initial (typed_of e.now) }
{
    is_value(e) || is_tag(&e.ty.ty)
}

fn set_by(types: &Types, object: Option<&TObject>, offset: u32, e: &TExpr) -> bool
    ensures { result ≡ Statements.set_by (types_of types.now) (option_map object_of (option_copied object.entry)) offset (typed_of e.now) }
{
    match object {
        Some(object) => {
            is_automatic(object.class)
                && is_initial(e)
                && is_inside(
                    offset,
                    flat_bytes(types, &e.ty.ty),
                    measured(types, &object.ty.ty),
                )
        }
        None => false,
    }
}

fn is_set(parts: &Parts, number: u32, offset: u32, e: &TExpr) -> bool
    ensures { result ≡ Statements.set_by (unit_of parts.now).types (slice_get (unit_of parts.now).objects number) offset (typed_of e.now) }
{
    set_by(&parts.types, object(parts, number), offset, e)
}

fn is_maybe(parts: &Parts, e: &Option<TExpr>) -> bool
    ensures { result ≡ Statements.is_maybe (unit_of parts.now) (maybe_of e.now) }
{
    match e {
        Some(e) => is_typed(parts, e),
        None => true,
    }
}

fn is_condition(parts: &Parts, e: &TExpr) -> bool
    ensures { result ≡ Statements.is_condition (unit_of parts.now) (typed_of e.now) }
{
    is_typed(parts, e) && is_value(e)
}

fn is_maybe_condition(parts: &Parts, e: &Option<TExpr>) -> bool
    ensures { result ≡ Statements.is_maybe_condition (unit_of parts.now) (maybe_of e.now) }
{
    match e {
        Some(e) => is_condition(parts, e),
        None => true,
    }
}

fn is_return(parts: &Parts, gives: &QType, e: &Option<TExpr>) -> bool
    ensures { result ≡ Statements.is_return (unit_of parts.now) (Places.plain_of (qty_of gives.now)) (maybe_of e.now) }
{
    match e {
        Some(e) => {
            is_given(parts, e) && are_alike(&e.ty, gives) && same_size(&parts.types, &e.ty, gives)
        }
        None => true,
    }
}

fn is_selector(parts: &Parts, e: &TExpr) -> bool
    ensures { result ≡ Statements.is_selector (unit_of parts.now) (typed_of e.now) }
{
    is_typed(parts, e) && !e.is_place() && is_promoted_int(&e.ty)
}

fn kind_in(kind: Option<IntType>) -> IntType
    ensures { result ≡ Statements.kind_in kind }
{
    match kind {
        Some(kind) => kind,
        None => IntType::Int,
    }
}

fn are_both(a: bool, b: bool) -> bool
    ensures { result ≡ (a && b) }
{
    a && b
}

/// The same, with a loop around.
fn looping(at: Around) -> Around
    ensures { result ≡ Contexts.looped at }
{
    Around {
        in_loop: true,
        in_switch: at.in_switch,
    }
}

/// The same, with a switch around.
fn switching(e: &TExpr, at: Around) -> Around
    ensures { result ≡ Contexts.switched (Kinds.int_of (qty_of e.now.ty)) at }
{
    Around {
        in_loop: at.in_loop,
        in_switch: Some(kind_in(int_of(&e.ty))),
    }
}

/// Whether a statement is well typed in a function with these labels that gives this type.
#[cycle(stmts)]
pub fn is_stmt(
    alloc: Global,
    parts: &Parts,
    stmt: &TStmt,
    labels: &[u32],
    gives: &QType,
    at: Around,
) -> Result<bool, AllocError>
    ensures { IfOk result (λ so. so ≡ Statements.is_stmt (unit_of parts.now) (context labels.now (qty_of gives.now) at) (stmt_of stmt.now)) }
{
    match stmt {
        TStmt::Empty => Ok(true),
        TStmt::Eval(e) => Ok(is_typed(parts, e)),
        TStmt::Set(number, offset, e) => {
            Ok(is_typed(parts, e) && is_set(parts, *number, *offset, e))
        }
        TStmt::Clear(number) => Ok(is_automatic_object(object(parts, *number))),
        TStmt::Block(objects, stmts) => {
            let numbers: &[u32] = objects;
            let inner: &[TStmt] = stmts;
            let own = are_automatic(parts, numbers);
            let rest = are_stmts(alloc, parts, inner, labels, gives, at)?;
            Ok(are_both(own, rest))
        }
        TStmt::If(e, a, b) => {
            if !is_condition(parts, e) || !is_stmt(alloc, parts, a, labels, gives, at)? {
                return Ok(false);
            }
            is_stmt(alloc, parts, b, labels, gives, at)
        }
        TStmt::While(e, body) => {
            if !is_condition(parts, e) {
                return Ok(false);
            }
            is_stmt(alloc, parts, body, labels, gives, looping(at))
        }
        TStmt::DoWhile(body, e) => {
            if !is_stmt(alloc, parts, body, labels, gives, looping(at))? {
                return Ok(false);
            }
            Ok(is_condition(parts, e))
        }
        TStmt::For(first, test, next, body) => {
            if !is_maybe(parts, first)
                || !is_maybe_condition(parts, test)
                || !is_maybe(parts, next)
            {
                return Ok(false);
            }
            is_stmt(alloc, parts, body, labels, gives, looping(at))
        }
        TStmt::Switch(e, body) => {
            if !is_selector(parts, e) || !are_cases(alloc, body)? {
                return Ok(false);
            }
            is_stmt(alloc, parts, body, labels, gives, switching(e, at))
        }
        TStmt::Case(value, body) => {
            if !holds(at.in_switch, *value) {
                return Ok(false);
            }
            is_stmt(alloc, parts, body, labels, gives, at)
        }
        TStmt::Default(body) => {
            if at.in_switch.is_none() {
                return Ok(false);
            }
            is_stmt(alloc, parts, body, labels, gives, at)
        }
        TStmt::Label(_, body) => is_stmt(alloc, parts, body, labels, gives, at),
        TStmt::Goto(label) => Ok(has_number(labels, *label)),
        TStmt::Break => Ok(at.in_loop || at.in_switch.is_some()),
        TStmt::Continue => Ok(at.in_loop),
        TStmt::Return(e) => Ok(is_return(parts, gives, e)),
    }
}

#[cycle(stmts)]
fn are_stmts(
    alloc: Global,
    parts: &Parts,
    stmts: &[TStmt],
    labels: &[u32],
    gives: &QType,
    at: Around,
) -> Result<bool, AllocError>
    ensures { IfOk result (λ so. so ≡ Statements.are_stmts (unit_of parts.now) (context labels.now (qty_of gives.now) at) (stmts_of stmts.now)) }
{
    for stmt in stmts {
        if !is_stmt(alloc, parts, stmt, labels, gives, at)? {
            return Ok(false);
        }
    }
    Ok(true)
}
