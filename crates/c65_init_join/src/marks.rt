// Which objects and functions of a unit its trees use.
ghost use Rattle.std.specs.Prelude.{◌≡◌, IfOk, replicate, slice_set, true, false, map};
ghost use Rattle.c65_csem.specs.Views.{typed_of, node_of, nodes_of, maybe_of, stmt_of, stmts_of, object_of, func_of};
ghost use Rattle.c65_init_join.specs.Items.{items_of};
ghost use Rattle.c65_init_join.specs.Uses.{marks_of, is_marked, named, named_by, named_in, maybe_named, stmt_named, stmts_named, target_named, cell_named, cells_named, inits_named, bodies_named, uses_of};

use crate::unit::Unit;
use c65_csem::{Cell, TExpr, TFunc, TKind, TObject, TStmt, Target};
use std::alloc::{AllocError, Global};

/// For each object and function of a unit, whether it is used.
#[derive(Drop)]
pub struct Marks {
    pub objects: Vec<bool>,
    pub funcs: Vec<bool>,
}

#[tactic(auto, using(std::proofs::lemmas::List::set_past))]
fn mark(marks: &mut Vec<bool>, number: u32)
    ensures { marks.new.items ≡ slice_set marks.old.items number true }
{
    let at = number as usize;
    if at < marks.len() {
        marks[at] = true;
    }
}

pub fn is_marked(marks: &[bool], number: usize) -> bool
    ensures { result ≡ is_marked marks.now number }
{
    match marks.get(number) {
        Some(used) => *used,
        None => false,
    }
}

fn unmarked(alloc: Global, count: usize) -> Result<Vec<bool>, AllocError>
    ensures { IfOk result (λ v. v.items ≡ replicate count false) }
{
    let mut marks = Vec::new(alloc);
    marks.resize(count, false)?;
    Ok(marks)
}

/// Marks what an initial pointer names.
fn mark_target(marks: &mut Marks, target: Target)
    ensures { marks_of marks.new ≡ target_named target (marks_of marks.old) }
{
    match target {
        Target::Object(number) => mark(&mut marks.objects, number),
        Target::Func(number) => mark(&mut marks.funcs, number),
        Target::Literal(_) => {}
    }
}

fn mark_cell(marks: &mut Marks, cell: Cell)
    ensures { marks_of marks.new ≡ cell_named cell (marks_of marks.old) }
{
    if let Cell::Piece(target, _, _) = cell {
        mark_target(marks, target);
    }
}

/// Marks what an initial value names.
fn mark_cells(marks: &mut Marks, cells: &[Cell])
    ensures { marks_of marks.new ≡ cells_named cells.now (marks_of marks.old) }
{
    for cell in cells {
        mark_cell(marks, *cell);
    }
}

/// Marks what an expression names.
#[cycle(exprs)]
fn mark_expr(marks: &mut Marks, e: &TExpr)
    ensures { marks_of marks.new ≡ named (typed_of e.now) (marks_of marks.old) }
{
    mark_kind(marks, &e.kind);
}

#[cycle(exprs)]
fn mark_kind(marks: &mut Marks, kind: &TKind)
    ensures { marks_of marks.new ≡ named_by (node_of kind.now) (marks_of marks.old) }
{
    match kind {
        TKind::Const(_) | TKind::Null | TKind::Literal(_) | TKind::Rest => {}
        TKind::Object(number) => mark(&mut marks.objects, *number),
        TKind::Func(number) => mark(&mut marks.funcs, *number),
        TKind::Deref(a)
        | TKind::Member(a, _)
        | TKind::Load(a)
        | TKind::Address(a)
        | TKind::Decay(a)
        | TKind::Convert(a)
        | TKind::Unary(_, a)
        | TKind::Step(_, a)
        | TKind::Pack(a) => mark_expr(marks, a),
        TKind::Spill(number, a) => {
            mark_expr(marks, a);
            mark(&mut marks.objects, *number);
        }
        TKind::Binary(_, a, b)
        | TKind::And(a, b)
        | TKind::Or(a, b)
        | TKind::Comma(a, b)
        | TKind::Assign(a, b)
        | TKind::AssignOp(_, _, a, b)
        | TKind::AssignStep(_, a, b)
        | TKind::Copy(a, b) => {
            mark_expr(marks, a);
            mark_expr(marks, b);
        }
        TKind::Cond(x, a, b) => {
            mark_expr(marks, x);
            mark_expr(marks, a);
            mark_expr(marks, b);
        }
        TKind::Call(function, arguments) => {
            let callee: &TExpr = function;
            let given: &[TExpr] = arguments;
            mark_expr(marks, callee);
            mark_exprs(marks, given);
        }
    }
}

#[cycle(exprs)]
fn mark_exprs(marks: &mut Marks, es: &[TExpr])
    ensures { marks_of marks.new ≡ named_in (nodes_of es.now) (marks_of marks.old) }
{
    for e in es {
        mark_expr(marks, e);
    }
}

fn mark_maybe(marks: &mut Marks, e: &Option<TExpr>)
    ensures { marks_of marks.new ≡ maybe_named (maybe_of e.now) (marks_of marks.old) }
{
    if let Some(e) = e {
        mark_expr(marks, e);
    }
}

/// Marks what a statement names.
#[cycle(stmts)]
fn mark_stmt(marks: &mut Marks, stmt: &TStmt)
    ensures { marks_of marks.new ≡ stmt_named (stmt_of stmt.now) (marks_of marks.old) }
{
    match stmt {
        TStmt::Empty | TStmt::Clear(_) | TStmt::Goto(_) | TStmt::Break | TStmt::Continue => {}
        TStmt::Eval(e) | TStmt::Set(_, _, e) => mark_expr(marks, e),
        TStmt::Block(_, stmts) => {
            let inner: &[TStmt] = stmts;
            mark_stmts(marks, inner);
        }
        TStmt::If(e, a, b) => {
            mark_expr(marks, e);
            mark_stmt(marks, a);
            mark_stmt(marks, b);
        }
        TStmt::While(e, body) | TStmt::Switch(e, body) => {
            mark_expr(marks, e);
            mark_stmt(marks, body);
        }
        TStmt::DoWhile(body, e) => {
            mark_stmt(marks, body);
            mark_expr(marks, e);
        }
        TStmt::For(first, test, next, body) => {
            mark_maybe(marks, first);
            mark_maybe(marks, test);
            mark_maybe(marks, next);
            mark_stmt(marks, body);
        }
        TStmt::Case(_, body) | TStmt::Default(body) | TStmt::Label(_, body) => {
            mark_stmt(marks, body);
        }
        TStmt::Return(e) => mark_maybe(marks, e),
    }
}

#[cycle(stmts)]
fn mark_stmts(marks: &mut Marks, stmts: &[TStmt])
    ensures { marks_of marks.new ≡ stmts_named (stmts_of stmts.now) (marks_of marks.old) }
{
    for stmt in stmts {
        mark_stmt(marks, stmt);
    }
}

/// Marks what the initial values of objects name.
fn mark_inits(marks: &mut Marks, objects: &[TObject])
    ensures { marks_of marks.new ≡ inits_named (map object_of objects.now) (marks_of marks.old) }
{
    for object in objects {
        if let Some(cells) = &object.init {
            mark_cells(marks, cells);
        }
    }
}

/// Marks what the bodies of functions name.
fn mark_bodies(marks: &mut Marks, funcs: &[TFunc])
    ensures { marks_of marks.new ≡ bodies_named (map func_of funcs.now) (marks_of marks.old) }
{
    for func in funcs {
        if let Some(body) = &func.body {
            mark_stmt(marks, body);
        }
    }
}

/// What the trees of a unit use.
pub fn uses_of(alloc: Global, unit: &Unit) -> Result<Marks, AllocError>
    ensures { IfOk result (λ m. marks_of m ≡ uses_of (items_of unit.now)) }
{
    let mut marks = Marks {
        objects: unmarked(alloc, unit.objects.len())?,
        funcs: unmarked(alloc, unit.funcs.len())?,
    };
    mark_inits(&mut marks, &unit.objects);
    mark_bodies(&mut marks, &unit.funcs);
    Ok(marks)
}
