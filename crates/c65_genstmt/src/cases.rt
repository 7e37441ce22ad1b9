// The labels in a statement.
ghost use Rattle.std.specs.Prelude.{◌≡◌, ◌≤◌, ◌^◌, ◌++◌, OnOk};
ghost use Rattle.c65_csem.specs.Statements.{cases_of, cases_in};
ghost use Rattle.c65_csem.specs.Views.{stmt_of, stmts_of};
ghost use Rattle.c65_genstmt.specs.Cases.{has_default, have_default, room_of, room_in};

use c65_csem::TStmt;
use std::alloc::AllocError;

/// Adds the values of the case labels that belong to a switch with this body.
#[cycle(cases)]
pub fn add_cases(stmt: &TStmt, into: &mut Vec<i64>) -> Result<(), AllocError>
    ensures { OnOk result (into.new.items ≡ into.old.items ++ cases_of (stmt_of stmt.now)) }
{
    match stmt {
        TStmt::Block(_, stmts) => add_cases_in(stmts, into),
        TStmt::If(_, then, other) => {
            add_cases(then, into)?;
            add_cases(other, into)
        }
        TStmt::While(_, body) | TStmt::DoWhile(body, _) | TStmt::For(_, _, _, body) => {
            add_cases(body, into)
        }
        TStmt::Case(value, body) => {
            into.push(*value)?;
            add_cases(body, into)
        }
        TStmt::Default(body) | TStmt::Label(_, body) => add_cases(body, into),
        TStmt::Empty | TStmt::Eval(_) | TStmt::Set(_, _, _) | TStmt::Clear(_) => Ok(()),
        TStmt::Switch(_, _) | TStmt::Goto(_) => Ok(()),
        TStmt::Break | TStmt::Continue | TStmt::Return(_) => Ok(()),
    }
}

#[cycle(cases)]
fn add_cases_in(stmts: &[TStmt], into: &mut Vec<i64>) -> Result<(), AllocError>
    ensures { OnOk result (into.new.items ≡ into.old.items ++ cases_in (stmts_of stmts.now)) }
{
    for stmt in stmts {
        add_cases(stmt, into)?;
    }
    Ok(())
}

/// Whether a switch with this body has a default label.
#[cycle(defaults)]
pub fn has_default(stmt: &TStmt) -> bool
    ensures { result ≡ has_default (stmt_of stmt.now) }
{
    match stmt {
        TStmt::Default(_) => true,
        TStmt::Block(_, stmts) => have_default(stmts),
        TStmt::If(_, then, other) => has_default(then) || has_default(other),
        TStmt::While(_, body) | TStmt::DoWhile(body, _) | TStmt::For(_, _, _, body) => {
            has_default(body)
        }
        TStmt::Case(_, body) | TStmt::Label(_, body) => has_default(body),
        TStmt::Empty | TStmt::Eval(_) | TStmt::Set(_, _, _) | TStmt::Clear(_) => false,
        TStmt::Switch(_, _) | TStmt::Goto(_) => false,
        TStmt::Break | TStmt::Continue | TStmt::Return(_) => false,
    }
}

#[cycle(defaults)]
fn have_default(stmts: &[TStmt]) -> bool
    ensures { result ≡ have_default (stmts_of stmts.now) }
{
    for stmt in stmts {
        if has_default(stmt) {
            return true;
        }
    }
    false
}

/// One more than the greatest number of a label in a statement, or 0.
#[cycle(rooms)]
pub fn room_of(stmt: &TStmt) -> u64
    ensures exact { result ≡ room_of (stmt_of stmt.now) }
    ensures few { result ≤ 2 ^ 32 }
{
    match stmt {
        TStmt::Block(_, stmts) => room_in(stmts),
        TStmt::If(_, then, other) => room_of(then).max(room_of(other)),
        TStmt::While(_, body) | TStmt::DoWhile(body, _) | TStmt::For(_, _, _, body) => {
            room_of(body)
        }
        TStmt::Switch(_, body) | TStmt::Case(_, body) | TStmt::Default(body) => room_of(body),
        TStmt::Label(label, body) => room_of(body).max(*label as u64 + 1),
        TStmt::Empty | TStmt::Eval(_) | TStmt::Set(_, _, _) | TStmt::Clear(_) => 0,
        TStmt::Goto(_) | TStmt::Break | TStmt::Continue | TStmt::Return(_) => 0,
    }
}

#[cycle(rooms)]
fn room_in(stmts: &[TStmt]) -> u64
    ensures exact { result ≡ room_in (stmts_of stmts.now) }
    ensures few { result ≤ 2 ^ 32 }
{
    let mut room = 0;
    for stmt in stmts {
        room = room_of(stmt).max(room);
    }
    room
}
