// The numbers and tags of a unit's trees become those of the program.
ghost use Rattle.std.specs.Prelude.{◌≡◌, IfOk, OnOk, map};
ghost use Rattle.c65_csem.specs.Views.{typed_of, node_of, maybe_of, stmt_of};
ghost use Rattle.c65_init_join.specs.Numbers.{numbers_of};
ghost use Rattle.c65_init_join.specs.Renumbered.{object_number, renumbered, renumbered_node, renumbered_maybe, renumbered_stmt, renumbered_target, renumbered_cell};

use crate::numbers::Numbers;
use crate::unit::raise_type;
use c65_csem::{Cell, TExpr, TKind, TStmt, Target};
use std::alloc::{AllocError, Global};

/// The numbers of an expression.
#[cycle(exprs)]
pub fn renumber_expr(alloc: Global, numbers: &Numbers, e: &mut TExpr) -> Result<(), AllocError>
    ensures { OnOk result (typed_of e.new ≡ renumbered (numbers_of numbers.now) (typed_of e.old)) }
{
    raise_type(alloc, &mut e.ty, numbers.tags)?;
    renumber_kind(alloc, numbers, &mut e.kind)
}

#[cycle(exprs)]
fn renumber_kind(alloc: Global, numbers: &Numbers, kind: &mut TKind) -> Result<(), AllocError>
    ensures { OnOk result (node_of kind.new ≡ renumbered_node (numbers_of numbers.now) (node_of kind.old)) }
{
    match kind {
        TKind::Const(_) | TKind::Null | TKind::Rest => Ok(()),
        TKind::Literal(number) => {
            let found = numbers.literal(*number)?;
            *number = found;
            Ok(())
        }
        TKind::Object(number) => {
            let found = numbers.object(*number)?;
            *number = found;
            Ok(())
        }
        TKind::Func(number) => {
            let found = numbers.func(*number)?;
            *number = found;
            Ok(())
        }
        TKind::Deref(a) => renumber_expr(alloc, numbers, a),
        TKind::Member(a, _) => renumber_expr(alloc, numbers, a),
        TKind::Load(a) => renumber_expr(alloc, numbers, a),
        TKind::Address(a) => renumber_expr(alloc, numbers, a),
        TKind::Decay(a) => renumber_expr(alloc, numbers, a),
        TKind::Convert(a) => renumber_expr(alloc, numbers, a),
        TKind::Unary(_, a) => renumber_expr(alloc, numbers, a),
        TKind::Step(_, a) => renumber_expr(alloc, numbers, a),
        TKind::Pack(a) => renumber_expr(alloc, numbers, a),
        TKind::Spill(number, a) => {
            let found = numbers.object(*number)?;
            *number = found;
            renumber_expr(alloc, numbers, a)
        }
        TKind::Binary(_, a, b) => {
            renumber_expr(alloc, numbers, a)?;
            renumber_expr(alloc, numbers, b)
        }
        TKind::And(a, b) => {
            renumber_expr(alloc, numbers, a)?;
            renumber_expr(alloc, numbers, b)
        }
        TKind::Or(a, b) => {
            renumber_expr(alloc, numbers, a)?;
            renumber_expr(alloc, numbers, b)
        }
        TKind::Comma(a, b) => {
            renumber_expr(alloc, numbers, a)?;
            renumber_expr(alloc, numbers, b)
        }
        TKind::Assign(a, b) => {
            renumber_expr(alloc, numbers, a)?;
            renumber_expr(alloc, numbers, b)
        }
        TKind::AssignOp(_, _, a, b) => {
            renumber_expr(alloc, numbers, a)?;
            renumber_expr(alloc, numbers, b)
        }
        TKind::AssignStep(_, a, b) => {
            renumber_expr(alloc, numbers, a)?;
            renumber_expr(alloc, numbers, b)
        }
        TKind::Copy(a, b) => {
            renumber_expr(alloc, numbers, a)?;
            renumber_expr(alloc, numbers, b)
        }
        TKind::Cond(x, a, b) => {
            renumber_expr(alloc, numbers, x)?;
            renumber_expr(alloc, numbers, a)?;
            renumber_expr(alloc, numbers, b)
        }
        TKind::Call(function, arguments) => {
            renumber_expr(alloc, numbers, function)?;
            for i in 0..arguments.len() {
                renumber_expr(alloc, numbers, &mut arguments[i])?;
            }
            Ok(())
        }
    }
}

fn renumber_maybe(alloc: Global, numbers: &Numbers, e: &mut Option<TExpr>) -> Result<(), AllocError>
    ensures { OnOk result (maybe_of e.new ≡ renumbered_maybe (numbers_of numbers.now) (maybe_of e.old)) }
{
    match e {
        Some(e) => renumber_expr(alloc, numbers, e),
        None => Ok(()),
    }
}

/// The numbers of objects.
pub fn renumber_objects(numbers: &Numbers, objects: &mut Vec<u32>) -> Result<(), AllocError>
    ensures { OnOk result (objects.new.items ≡ map (object_number (numbers_of numbers.now)) objects.old.items) }
{
    for i in 0..objects.len() {
        let found = numbers.object(objects[i])?;
        objects[i] = found;
    }
    Ok(())
}

/// The numbers of a statement.
#[cycle(stmts)]
pub fn renumber_stmt(alloc: Global, numbers: &Numbers, stmt: &mut TStmt) -> Result<(), AllocError>
    ensures { OnOk result (stmt_of stmt.new ≡ renumbered_stmt (numbers_of numbers.now) (stmt_of stmt.old)) }
{
    match stmt {
        TStmt::Empty | TStmt::Goto(_) | TStmt::Break | TStmt::Continue => Ok(()),
        TStmt::Eval(e) => renumber_expr(alloc, numbers, e),
        TStmt::Set(object, _, e) => {
            let found = numbers.object(*object)?;
            *object = found;
            renumber_expr(alloc, numbers, e)
        }
        TStmt::Clear(object) => {
            let found = numbers.object(*object)?;
            *object = found;
            Ok(())
        }
        TStmt::Block(objects, stmts) => {
            renumber_objects(numbers, objects)?;
            for i in 0..stmts.len() {
                renumber_stmt(alloc, numbers, &mut stmts[i])?;
            }
            Ok(())
        }
        TStmt::If(e, a, b) => {
            renumber_expr(alloc, numbers, e)?;
            renumber_stmt(alloc, numbers, a)?;
            renumber_stmt(alloc, numbers, b)
        }
        TStmt::While(e, body) => {
            renumber_expr(alloc, numbers, e)?;
            renumber_stmt(alloc, numbers, body)
        }
        TStmt::DoWhile(body, e) => {
            renumber_expr(alloc, numbers, e)?;
            renumber_stmt(alloc, numbers, body)
        }
        TStmt::For(first, test, next, body) => {
            renumber_maybe(alloc, numbers, first)?;
            renumber_maybe(alloc, numbers, test)?;
            renumber_maybe(alloc, numbers, next)?;
            renumber_stmt(alloc, numbers, body)
        }
        TStmt::Switch(e, body) => {
            renumber_expr(alloc, numbers, e)?;
            renumber_stmt(alloc, numbers, body)
        }
        TStmt::Case(_, body) => renumber_stmt(alloc, numbers, body),
        TStmt::Default(body) => renumber_stmt(alloc, numbers, body),
        TStmt::Label(_, body) => renumber_stmt(alloc, numbers, body),
        TStmt::Return(e) => renumber_maybe(alloc, numbers, e),
    }
}

fn renumbered_target(numbers: &Numbers, target: Target) -> Result<Target, AllocError>
    ensures { IfOk result (λ t. t ≡ renumbered_target (numbers_of numbers.now) target) }
{
    match target {
        Target::Object(number) => Ok(Target::Object(numbers.object(number)?)),
        Target::Literal(number) => Ok(Target::Literal(numbers.literal(number)?)),
        Target::Func(number) => Ok(Target::Func(numbers.func(number)?)),
    }
}

fn renumbered_cell(numbers: &Numbers, cell: Cell) -> Result<Cell, AllocError>
    ensures { IfOk result (λ c. c ≡ renumbered_cell (numbers_of numbers.now) cell) }
{
    match cell {
        Cell::Byte(byte) => Ok(Cell::Byte(byte)),
        Cell::Piece(target, offset, part) => {
            let found = renumbered_target(numbers, target)?;
            Ok(Cell::Piece(found, offset, part))
        }
    }
}

/// The numbers of an initial value.
pub fn renumber_cells(numbers: &Numbers, cells: &mut Vec<Cell>) -> Result<(), AllocError>
    ensures { OnOk result (cells.new.items ≡ map (renumbered_cell (numbers_of numbers.now)) cells.old.items) }
{
    for i in 0..cells.len() {
        let found = renumbered_cell(numbers, cells[i])?;
        cells[i] = found;
    }
    Ok(())
}
