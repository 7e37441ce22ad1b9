// The calls in bodies (C90 6.3.2.2).
ghost use Rattle.std.specs.Prelude.{◌≡◌, ◌++◌, min, OnOk};
ghost use Rattle.c65_csem.specs.Views.{typed_of, nodes_of, maybe_of, stmt_of, stmts_of, unit_of};
ghost use Rattle.c65_meaning.specs.Shapes.{types_of};
ghost use Rattle.c65_meaning.specs.Costs.{argument_bytes};
ghost use Rattle.c65_depth.specs.Calls.{most, named, call_to, calls_in, calls_in_all, calls_if, calls_of, calls_of_all};

use crate::sizes::type_bytes;
use c65_csem::{Parts, TExpr, TKind, TStmt};
use std::alloc::AllocError;
use std::marker::Model;

/// A call: the number of the function that it names, none where it goes through a pointer, and the
/// bytes that it passes.
#[derive(Clone, Copy, Debug, PartialEq, Eq)]
pub struct Call {
    pub callee: Option<u32>,
    pub bytes: u64,
}

/// The calls of one body, which contracts see as a list.
#[derive(Drop)]
pub struct Calls {
    calls: Vec<Call>,
}

impl Model for Calls {
    ghost use Rattle.std.specs.Prelude.{List};
    ghost use Rattle.c65_depth.specs.declared.calls.Call.{Call};

    ghost Value = { List Call };

    ghost view = { λ c. c.calls.items };
}

impl Calls {
    /// Takes over the calls of a `Vec`.
    pub fn from_vec(calls: Vec<Call>) -> Calls
        ensures { result ≡ calls.items }
    {
        Calls { calls }
    }

    pub fn as_slice(&self) -> &[Call]
        ensures { result.now ≡ self.now }
    {
        &self.calls
    }
}

/// The number of a function that is called by its name.
fn named(callee: &TExpr) -> Option<u32>
    ensures { result ≡ named (typed_of callee.now) }
{
    match &callee.kind {
        TKind::Decay(inner) => match &inner.kind {
            TKind::Func(function) => Some(*function),
            _ => None,
        },
        _ => None,
    }
}

fn argument_bytes(parts: &Parts, given: &[TExpr]) -> u64
    ensures { result ≡ min (argument_bytes (unit_of parts.now) (types_of (nodes_of given.now))) most }
{
    let mut bytes: u64 = 0;
    for argument in given {
        bytes = bytes.saturating_add(type_bytes(&parts.types, &argument.ty.ty));
    }
    bytes
}

fn call_to(parts: &Parts, callee: &TExpr, given: &[TExpr]) -> Call
    ensures { result ≡ call_to (unit_of parts.now) (typed_of callee.now) (nodes_of given.now) }
{
    Call {
        callee: named(callee),
        bytes: argument_bytes(parts, given),
    }
}

#[cycle(exprs)]
fn add_calls_in(parts: &Parts, e: &TExpr, calls: &mut Vec<Call>) -> Result<(), AllocError>
    ensures { OnOk result (calls.new.items ≡ calls.old.items ++ calls_in (unit_of parts.now) (typed_of e.now)) }
{
    match &e.kind {
        TKind::Const(_) | TKind::Null | TKind::Literal(_) => Ok(()),
        TKind::Object(_) | TKind::Func(_) | TKind::Rest => Ok(()),
        TKind::Deref(a)
        | TKind::Member(a, _)
        | TKind::Load(a)
        | TKind::Address(a)
        | TKind::Decay(a)
        | TKind::Convert(a)
        | TKind::Unary(_, a)
        | TKind::Step(_, a)
        | TKind::Pack(a)
        | TKind::Spill(_, a) => add_calls_in(parts, a, calls),
        TKind::Binary(_, a, b)
        | TKind::And(a, b)
        | TKind::Or(a, b)
        | TKind::Comma(a, b)
        | TKind::Assign(a, b)
        | TKind::AssignOp(_, _, a, b)
        | TKind::AssignStep(_, a, b)
        | TKind::Copy(a, b) => {
            add_calls_in(parts, a, calls)?;
            add_calls_in(parts, b, calls)
        }
        TKind::Cond(x, a, b) => {
            add_calls_in(parts, x, calls)?;
            add_calls_in(parts, a, calls)?;
            add_calls_in(parts, b, calls)
        }
        TKind::Call(function, arguments) => {
            let callee: &TExpr = function;
            let given: &[TExpr] = arguments;
            calls.push(call_to(parts, callee, given))?;
            add_calls_in(parts, callee, calls)?;
            add_calls_in_all(parts, given, calls)
        }
    }
}

#[cycle(exprs)]
fn add_calls_in_all(parts: &Parts, given: &[TExpr], calls: &mut Vec<Call>) -> Result<(), AllocError>
    ensures { OnOk result (calls.new.items ≡ calls.old.items ++ calls_in_all (unit_of parts.now) (nodes_of given.now)) }
{
    for argument in given {
        add_calls_in(parts, argument, calls)?;
    }
    Ok(())
}

fn add_calls_if(parts: &Parts, e: &Option<TExpr>, calls: &mut Vec<Call>) -> Result<(), AllocError>
    ensures { OnOk result (calls.new.items ≡ calls.old.items ++ calls_if (unit_of parts.now) (maybe_of e.now)) }
{
    match e {
        Some(e) => add_calls_in(parts, e, calls),
        None => Ok(()),
    }
}

/// Adds the calls in a statement.
#[cycle(statements)]
pub fn add_calls(parts: &Parts, stmt: &TStmt, calls: &mut Vec<Call>) -> Result<(), AllocError>
    ensures { OnOk result (calls.new.items ≡ calls.old.items ++ calls_of (unit_of parts.now) (stmt_of stmt.now)) }
{
    match stmt {
        TStmt::Empty | TStmt::Clear(_) | TStmt::Goto(_) => Ok(()),
        TStmt::Break | TStmt::Continue => Ok(()),
        TStmt::Eval(e) | TStmt::Set(_, _, e) => add_calls_in(parts, e, calls),
        TStmt::Block(_, stmts) => {
            let inner: &[TStmt] = stmts;
            add_calls_of_all(parts, inner, calls)
        }
        TStmt::If(e, then, other) => {
            add_calls_in(parts, e, calls)?;
            add_calls(parts, then, calls)?;
            add_calls(parts, other, calls)
        }
        TStmt::While(e, body) | TStmt::Switch(e, body) => {
            add_calls_in(parts, e, calls)?;
            add_calls(parts, body, calls)
        }
        TStmt::DoWhile(body, e) => {
            add_calls(parts, body, calls)?;
            add_calls_in(parts, e, calls)
        }
        TStmt::For(first, test, next, body) => {
            add_calls_if(parts, first, calls)?;
            add_calls_if(parts, test, calls)?;
            add_calls_if(parts, next, calls)?;
            add_calls(parts, body, calls)
        }
        TStmt::Case(_, body) | TStmt::Default(body) | TStmt::Label(_, body) => {
            add_calls(parts, body, calls)
        }
        TStmt::Return(e) => add_calls_if(parts, e, calls),
    }
}

#[cycle(statements)]
fn add_calls_of_all(parts: &Parts, stmts: &[TStmt], calls: &mut Vec<Call>) -> Result<(), AllocError>
    ensures { OnOk result (calls.new.items ≡ calls.old.items ++ calls_of_all (unit_of parts.now) (stmts_of stmts.now)) }
{
    for stmt in stmts {
        add_calls(parts, stmt, calls)?;
    }
    Ok(())
}
