// The labels of statements, and those that belong to a switch (C90 6.6.1, 6.6.4.2).
ghost use Rattle.std.specs.Prelude.{◌≡◌, ◌+◌, ◌++◌, min, OnOk, IfOk};
ghost use Rattle.c65_csem.specs.Statements;
ghost use Rattle.c65_csem.specs.Views.{stmt_of, stmts_of};
ghost use Rattle.c65_csem_check.specs.Statements as tests;

use crate::lists::are_distinct_values;
use c65_csem::TStmt;
use std::alloc::{AllocError, Global};

/// Adds the labels of a statement in their order.
#[cycle(labels)]
pub fn add_labels(stmt: &TStmt, labels: &mut Vec<u32>) -> Result<(), AllocError>
    ensures { OnOk result (labels.new.items ≡ labels.old.items ++ Statements.labels_of (stmt_of stmt.now)) }
{
    match stmt {
        TStmt::Block(_, stmts) => add_labels_in(stmts, labels),
        TStmt::If(_, a, b) => {
            add_labels(a, labels)?;
            add_labels(b, labels)
        }
        TStmt::Label(label, body) => {
            labels.push(*label)?;
            add_labels(body, labels)
        }
        TStmt::While(_, body)
        | TStmt::DoWhile(body, _)
        | TStmt::For(_, _, _, body)
        | TStmt::Switch(_, body)
        | TStmt::Case(_, body)
        | TStmt::Default(body) => add_labels(body, labels),
        TStmt::Empty
        | TStmt::Eval(_)
        | TStmt::Set(_, _, _)
        | TStmt::Clear(_)
        | TStmt::Goto(_)
        | TStmt::Break
        | TStmt::Continue
        | TStmt::Return(_) => Ok(()),
    }
}

#[cycle(labels)]
fn add_labels_in(stmts: &[TStmt], labels: &mut Vec<u32>) -> Result<(), AllocError>
    ensures { OnOk result (labels.new.items ≡ labels.old.items ++ Statements.labels_in (stmts_of stmts.now)) }
{
    for stmt in stmts {
        add_labels(stmt, labels)?;
    }
    Ok(())
}

/// Adds the values of the case labels that belong to a switch with this body.
#[cycle(cases)]
fn add_cases(stmt: &TStmt, cases: &mut Vec<i64>) -> Result<(), AllocError>
    ensures { OnOk result (cases.new.items ≡ cases.old.items ++ Statements.cases_of (stmt_of stmt.now)) }
{
    match stmt {
        TStmt::Block(_, stmts) => add_cases_in(stmts, cases),
        TStmt::If(_, a, b) => {
            add_cases(a, cases)?;
            add_cases(b, cases)
        }
        TStmt::Case(value, body) => {
            cases.push(*value)?;
            add_cases(body, cases)
        }
        TStmt::While(_, body)
        | TStmt::DoWhile(body, _)
        | TStmt::For(_, _, _, body)
        | TStmt::Default(body)
        | TStmt::Label(_, body) => add_cases(body, cases),
        _ => Ok(()),
    }
}

#[cycle(cases)]
fn add_cases_in(stmts: &[TStmt], cases: &mut Vec<i64>) -> Result<(), AllocError>
    ensures { OnOk result (cases.new.items ≡ cases.old.items ++ Statements.cases_in (stmts_of stmts.now)) }
{
    for stmt in stmts {
        add_cases(stmt, cases)?;
    }
    Ok(())
}

/// How many default labels belong to a switch with this body beside so many before; two stand for
/// any greater number.
#[cycle(defaults)]
fn defaults_after(stmt: &TStmt, before: u8) -> u8
    ensures { result ≡ min (before + Statements.defaults_of (stmt_of stmt.now)) 2 }
{
    match stmt {
        TStmt::Block(_, stmts) => defaults_in(stmts, before),
        TStmt::If(_, a, b) => defaults_after(b, defaults_after(a, before)),
        TStmt::Default(body) => {
            let seen = defaults_after(body, before);
            if seen < 2 { seen + 1 } else { 2 }
        }
        TStmt::While(_, body)
        | TStmt::DoWhile(body, _)
        | TStmt::For(_, _, _, body)
        | TStmt::Case(_, body)
        | TStmt::Label(_, body) => defaults_after(body, before),
        _ => { if before < 2 { before } else { 2 } }
    }
}

#[cycle(defaults)]
fn defaults_in(stmts: &[TStmt], before: u8) -> u8
    ensures { result ≡ min (before + Statements.defaults_in (stmts_of stmts.now)) 2 }
{
    let mut seen = if before < 2 { before } else { 2 };
    for stmt in stmts {
        seen = defaults_after(stmt, seen);
    }
    seen
}

/// Whether a switch may have this body: at most 1,024 case labels, all distinct, and one default.
pub fn are_cases(alloc: Global, body: &TStmt) -> Result<bool, AllocError>
    ensures { IfOk result (λ so. so ≡ tests.are_cases (stmt_of body.now)) }
{
    let mut cases = Vec::new(alloc);
    add_cases(body, &mut cases)?;
    let values = cases.as_slice();
    Ok(values.len() <= 1024 && are_distinct_values(values) && defaults_after(body, 0) <= 1)
}
