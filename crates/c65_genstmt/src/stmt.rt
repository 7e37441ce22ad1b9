// Statements (C90 6.6).
ghost use Rattle.std.specs.Prelude.{◌≡◌, ◌+◌, IfOk, OnOk};
ghost use Rattle.c65_csem.specs.Statements.{cases_of};
ghost use Rattle.c65_csem.specs.Views.{typed_of, maybe_of, stmt_of, stmts_of};
ghost use Rattle.c65_genstmt.specs.Stmts.{is_empty, with_last, with_lasts, returns_last, any_last, case_behind, case_behind_all, with_maybe, with_effects, with_guard, default_way, with_choice, with_label, three_given, with_bottom, with_stmt, with_stmts, with_if, with_while, with_do, with_for, with_switch};

use crate::cases::{add_cases, has_default};
use crate::jumps::{Ways, following, kind_of, put_effect, put_jump, put_truth, put_value};
use crate::objects::{put_clear, put_set};
use c65_code::Draft;
use c65_csem::{TExpr, TStmt};
use c65_genentry::{choose, fresh, label, reserve};
use c65_genframe::Frame;
use c65_genwide::width_of;
use std::alloc::{AllocError, Global};

fn put_maybe(expr: &Option<TExpr>, frame: &Frame<'_>, draft: &mut Draft) -> Result<(), AllocError>
    ensures { OnOk result (draft.new ≡ with_maybe frame.now (maybe_of expr.now) draft.old) }
{
    match expr {
        Some(expr) => put_value(expr, frame, draft),
        None => Ok(()),
    }
}

fn put_effects(expr: &Option<TExpr>, frame: &Frame<'_>, draft: &mut Draft) -> Result<(), AllocError>
    ensures { OnOk result (draft.new ≡ with_effects frame.now (maybe_of expr.now) draft.old) }
{
    match expr {
        Some(expr) => put_effect(expr, frame, draft),
        None => Ok(()),
    }
}

/// The test of a loop, where there is one, which leaves it where it fails.
fn put_guard(
    test: &Option<TExpr>,
    frame: &Frame<'_>,
    end: u32,
    draft: &mut Draft,
) -> Result<(), AllocError>
    ensures { OnOk result (draft.new ≡ with_guard frame.now end (maybe_of test.now) draft.old) }
{
    match test {
        Some(test) => put_truth(test, frame, end, false, draft),
        None => Ok(()),
    }
}

fn case_values(alloc: Global, body: &TStmt) -> Result<Vec<i64>, AllocError>
    ensures { IfOk result (λ v. v.items ≡ cases_of (stmt_of body.now)) }
{
    let mut values = Vec::new(alloc);
    add_cases(body, &mut values)?;
    Ok(values)
}

/// Where a switch goes if no case has its value.
fn default_way(body: &TStmt, end: u32, other: u32) -> u32
    requires { other ≡ end + 1 }
    ensures { result ≡ default_way (stmt_of body.now) end }
{
    if has_default(body) { other } else { end }
}

/// The labels of a switch.
#[derive(Clone, Copy)]
struct Exits {
    end: u32,
    other: u32,
    case: u32,
}

/// The head of a switch: it goes to the case that has the value.
fn put_choice(
    alloc: Global,
    value: &TExpr,
    body: &TStmt,
    frame: &Frame<'_>,
    draft: &mut Draft,
) -> Result<Exits, AllocError>
    ensures lines { OnOk result (draft.new ≡ with_choice frame.now (typed_of value.now) (stmt_of body.now) draft.old) }
    ensures end { IfOk result (λ x. x.end ≡ draft.old.labels) }
    ensures other { IfOk result (λ x. x.other ≡ draft.old.labels + 1) }
    ensures case { IfOk result (λ x. x.case ≡ draft.old.labels + 1 + 1) }
{
    let end = fresh(draft)?;
    let other = fresh(draft)?;
    let values = case_values(alloc, body)?;
    let case = reserve(draft, values.len())?;
    put_value(value, frame, draft)?;
    let way = default_way(body, end, other);
    choose(width_of(kind_of(&value.ty.ty)), way, case, &values, draft)?;
    put_jump(way, draft)?;
    Ok(Exits { end, other, case })
}

/// The labels of a loop.
#[derive(Clone, Copy)]
struct Turns {
    head: u32,
    onward: u32,
    end: u32,
}

/// The head of a loop.
fn open_loop(draft: &mut Draft) -> Result<Turns, AllocError>
    ensures lines { OnOk result (draft.new ≡ with_label draft.old.labels (three_given draft.old)) }
    ensures head { IfOk result (λ t. t.head ≡ draft.old.labels) }
    ensures onward { IfOk result (λ t. t.onward ≡ draft.old.labels + 1) }
    ensures end { IfOk result (λ t. t.end ≡ draft.old.labels + 1 + 1) }
{
    let head = fresh(draft)?;
    let onward = fresh(draft)?;
    let end = fresh(draft)?;
    label(draft, head)?;
    Ok(Turns { head, onward, end })
}

/// The end of a loop that tests behind its body.
fn close_loop(
    test: &TExpr,
    frame: &Frame<'_>,
    turns: Turns,
    draft: &mut Draft,
) -> Result<(), AllocError>
    ensures { OnOk result (draft.new ≡ with_bottom frame.now turns.head turns.onward turns.end (typed_of test.now) draft.old) }
{
    label(draft, turns.onward)?;
    put_truth(test, frame, turns.head, true, draft)?;
    label(draft, turns.end)?;
    Ok(())
}

fn is_empty(stmt: &TStmt) -> bool
    ensures { result ≡ is_empty (stmt_of stmt.now) }
{
    matches!(stmt, TStmt::Empty)
}

/// Puts the lines of a statement. `case` is the label of the next case of the innermost switch.
#[cycle(statements)]
pub fn put_stmt(
    alloc: Global,
    stmt: &TStmt,
    frame: &Frame<'_>,
    ways: Ways,
    case: &mut u32,
    draft: &mut Draft,
) -> Result<(), AllocError>
    ensures lines { OnOk result (draft.new ≡ with_stmt frame.now ways case.old (stmt_of stmt.now) draft.old) }
    ensures cases { OnOk result (case.new ≡ case_behind case.old (stmt_of stmt.now)) }
{
    match stmt {
        TStmt::Empty => Ok(()),
        TStmt::Eval(expr) => {
            put_effect(expr, frame, draft)?;
            Ok(())
        }
        TStmt::Set(object, offset, expr) => {
            put_set(expr, *object, *offset, frame, draft)?;
            Ok(())
        }
        TStmt::Clear(object) => {
            put_clear(*object, frame, draft)?;
            Ok(())
        }
        TStmt::Block(_, stmts) => put_stmts(alloc, stmts, frame, ways, case, draft),
        TStmt::If(test, then, other) => put_if(alloc, test, then, other, frame, ways, case, draft),
        TStmt::While(test, body) => put_while(alloc, test, body, frame, ways, case, draft),
        TStmt::DoWhile(body, test) => put_do(alloc, body, test, frame, ways, case, draft),
        TStmt::For(first, test, next, body) => {
            put_effects(first, frame, draft)?;
            put_for(alloc, test, next, body, frame, ways, case, draft)?;
            Ok(())
        }
        TStmt::Switch(value, body) => {
            put_switch(alloc, value, body, frame, ways, draft)?;
            Ok(())
        }
        TStmt::Case(_, body) => {
            label(draft, *case)?;
            *case = following(*case);
            put_stmt(alloc, body, frame, ways, case, draft)?;
            Ok(())
        }
        TStmt::Default(body) => {
            label(draft, ways.other)?;
            put_stmt(alloc, body, frame, ways, case, draft)?;
            Ok(())
        }
        TStmt::Label(number, body) => {
            label(draft, following(*number))?;
            put_stmt(alloc, body, frame, ways, case, draft)?;
            Ok(())
        }
        TStmt::Goto(number) => {
            put_jump(following(*number), draft)?;
            Ok(())
        }
        TStmt::Break => {
            put_jump(ways.behind, draft)?;
            Ok(())
        }
        TStmt::Continue => {
            put_jump(ways.onward, draft)?;
            Ok(())
        }
        TStmt::Return(value) => {
            put_maybe(value, frame, draft)?;
            put_jump(0, draft)?;
            Ok(())
        }
    }
}

#[cycle(statements)]
fn put_stmts(
    alloc: Global,
    stmts: &[TStmt],
    frame: &Frame<'_>,
    ways: Ways,
    case: &mut u32,
    draft: &mut Draft,
) -> Result<(), AllocError>
    ensures lines { OnOk result (draft.new ≡ with_stmts frame.now ways case.old (stmts_of stmts.now) draft.old) }
    ensures cases { OnOk result (case.new ≡ case_behind_all case.old (stmts_of stmts.now)) }
{
    for stmt in stmts {
        put_stmt(alloc, stmt, frame, ways, case, draft)?;
    }
    Ok(())
}

#[cycle(statements)]
fn put_if(
    alloc: Global,
    test: &TExpr,
    body: &TStmt,
    other: &TStmt,
    frame: &Frame<'_>,
    ways: Ways,
    case: &mut u32,
    draft: &mut Draft,
) -> Result<(), AllocError>
    ensures lines { OnOk result (draft.new ≡ with_if frame.now ways case.old (typed_of test.now) (stmt_of body.now) (stmt_of other.now) draft.old) }
    ensures cases { OnOk result (case.new ≡ case_behind (case_behind case.old (stmt_of body.now)) (stmt_of other.now)) }
{
    let no = fresh(draft)?;
    let end = fresh(draft)?;
    put_truth(test, frame, no, false, draft)?;
    put_stmt(alloc, body, frame, ways, case, draft)?;
    if is_empty(other) {
        label(draft, no)?;
    } else {
        put_jump(end, draft)?;
        label(draft, no)?;
        put_stmt(alloc, other, frame, ways, case, draft)?;
    }
    label(draft, end)?;
    Ok(())
}

#[cycle(statements)]
fn put_while(
    alloc: Global,
    test: &TExpr,
    body: &TStmt,
    frame: &Frame<'_>,
    ways: Ways,
    case: &mut u32,
    draft: &mut Draft,
) -> Result<(), AllocError>
    ensures lines { OnOk result (draft.new ≡ with_while frame.now ways case.old (typed_of test.now) (stmt_of body.now) draft.old) }
    ensures cases { OnOk result (case.new ≡ case_behind case.old (stmt_of body.now)) }
{
    let head = fresh(draft)?;
    let end = fresh(draft)?;
    label(draft, head)?;
    put_truth(test, frame, end, false, draft)?;
    let inner = Ways {
        behind: end,
        onward: head,
        other: ways.other,
    };
    put_stmt(alloc, body, frame, inner, case, draft)?;
    put_jump(head, draft)?;
    label(draft, end)?;
    Ok(())
}

#[cycle(statements)]
fn put_do(
    alloc: Global,
    body: &TStmt,
    test: &TExpr,
    frame: &Frame<'_>,
    ways: Ways,
    case: &mut u32,
    draft: &mut Draft,
) -> Result<(), AllocError>
    ensures lines { OnOk result (draft.new ≡ with_do frame.now ways case.old (stmt_of body.now) (typed_of test.now) draft.old) }
    ensures cases { OnOk result (case.new ≡ case_behind case.old (stmt_of body.now)) }
{
    let turns = open_loop(draft)?;
    let inner = Ways {
        behind: turns.end,
        onward: turns.onward,
        other: ways.other,
    };
    put_stmt(alloc, body, frame, inner, case, draft)?;
    close_loop(test, frame, turns, draft)?;
    Ok(())
}

/// A loop from its head on.
#[cycle(statements)]
fn put_for(
    alloc: Global,
    test: &Option<TExpr>,
    next: &Option<TExpr>,
    body: &TStmt,
    frame: &Frame<'_>,
    ways: Ways,
    case: &mut u32,
    draft: &mut Draft,
) -> Result<(), AllocError>
    ensures lines { OnOk result (draft.new ≡ with_for frame.now ways case.old (maybe_of test.now) (maybe_of next.now) (stmt_of body.now) draft.old) }
    ensures cases { OnOk result (case.new ≡ case_behind case.old (stmt_of body.now)) }
{
    let head = fresh(draft)?;
    let onward = fresh(draft)?;
    let end = fresh(draft)?;
    label(draft, head)?;
    put_guard(test, frame, end, draft)?;
    let inner = Ways {
        behind: end,
        onward,
        other: ways.other,
    };
    put_stmt(alloc, body, frame, inner, case, draft)?;
    label(draft, onward)?;
    put_effects(next, frame, draft)?;
    put_jump(head, draft)?;
    label(draft, end)?;
    Ok(())
}

#[cycle(statements)]
fn put_switch(
    alloc: Global,
    value: &TExpr,
    body: &TStmt,
    frame: &Frame<'_>,
    ways: Ways,
    draft: &mut Draft,
) -> Result<(), AllocError>
    ensures { OnOk result (draft.new ≡ with_switch frame.now ways (typed_of value.now) (stmt_of body.now) draft.old) }
{
    let exits = put_choice(alloc, value, body, frame, draft)?;
    let inner = Ways {
        behind: exits.end,
        onward: ways.onward,
        other: exits.other,
    };
    let mut case = exits.case;
    put_stmt(alloc, body, frame, inner, &mut case, draft)?;
    label(draft, exits.end)?;
    Ok(())
}

/// Whether a statement returns at its end, which then needs no jump: it stands last in its function.
#[cycle(returns)]
pub fn returns_last(stmt: &TStmt) -> bool
    ensures { result ≡ returns_last (stmt_of stmt.now) }
{
    match stmt {
        TStmt::Return(_) => true,
        TStmt::Block(_, stmts) => any_last(stmts),
        _ => false,
    }
}

#[cycle(returns)]
fn any_last(stmts: &[TStmt]) -> bool
    ensures { result ≡ any_last (stmts_of stmts.now) }
{
    match stmts.split_last() {
        Some((last, _)) => returns_last(last),
        None => false,
    }
}

/// Puts the lines of a statement that stands last in its function: a return there needs no jump.
#[cycle(lasts)]
pub fn put_last(
    alloc: Global,
    stmt: &TStmt,
    frame: &Frame<'_>,
    ways: Ways,
    case: &mut u32,
    draft: &mut Draft,
) -> Result<(), AllocError>
    ensures lines { OnOk result (draft.new ≡ with_last frame.now ways case.old (stmt_of stmt.now) draft.old) }
{
    match stmt {
        TStmt::Return(value) => put_maybe(value, frame, draft),
        TStmt::Block(_, stmts) => put_lasts(alloc, stmts, frame, ways, case, draft),
        _ => put_stmt(alloc, stmt, frame, ways, case, draft),
    }
}

#[cycle(lasts)]
fn put_lasts(
    alloc: Global,
    stmts: &[TStmt],
    frame: &Frame<'_>,
    ways: Ways,
    case: &mut u32,
    draft: &mut Draft,
) -> Result<(), AllocError>
    ensures lines { OnOk result (draft.new ≡ with_lasts frame.now ways case.old (stmts_of stmts.now) draft.old) }
{
    match stmts.split_last() {
        Some((last, before)) => {
            put_stmts(alloc, before, frame, ways, case, draft)?;
            put_last(alloc, last, frame, ways, case, draft)
        }
        None => Ok(()),
    }
}
