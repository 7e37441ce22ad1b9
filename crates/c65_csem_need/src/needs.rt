// How many values wait while an expression is evaluated.
ghost use Rattle.std.specs.Prelude.{◌≡◌, ◌+◌, min, max};
ghost use Rattle.c65_csem.specs.Views.{typed_of, nodes_of, maybe_of, stmt_of, stmts_of};
ghost use Rattle.c65_csem_need.specs.Needs.{need, need_of_all, need_if, greatest_need, greatest_need_of_all};

use c65_csem::{TExpr, TKind, TStmt};

/// The greatest number of values that wait while an expression is evaluated. It takes no memory.
#[cycle(need)]
pub fn need(e: &TExpr) -> u32
    ensures { result ≡ min (need (typed_of e.now)) 4294967295 }
{
    match &e.kind {
        TKind::Const(_) | TKind::Null | TKind::Literal(_) => 0,
        TKind::Object(_) | TKind::Func(_) | TKind::Rest => 0,
        TKind::Deref(a)
        | TKind::Member(a, _)
        | TKind::Load(a)
        | TKind::Address(a)
        | TKind::Decay(a)
        | TKind::Convert(a)
        | TKind::Unary(_, a)
        | TKind::Step(_, a)
        | TKind::Pack(a)
        | TKind::Spill(_, a) => need(a),
        TKind::Binary(_, a, b)
        | TKind::And(a, b)
        | TKind::Or(a, b)
        | TKind::Comma(a, b)
        | TKind::Assign(a, b)
        | TKind::AssignOp(_, _, a, b)
        | TKind::AssignStep(_, a, b)
        | TKind::Copy(a, b) => beside(need(a), need(b)),
        TKind::Cond(x, a, b) => need(x).max(need(a).max(need(b))),
        TKind::Call(function, arguments) => {
            let callee: &TExpr = function;
            let given: &[TExpr] = arguments;
            let a = need(callee);
            let b = need_of_all(given);
            a.max(b)
        }
    }
}

// The first value waits while the second is evaluated.
fn beside(first: u32, second: u32) -> u32
    ensures { result ≡ min (max first (1 + second)) 4294967295 }
{
    first.max(second.saturating_add(1))
}

// The function's address may wait below the arguments, and each waits while the later ones are evaluated.
#[cycle(need)]
fn need_of_all(es: &[TExpr]) -> u32
    ensures { result ≡ min (need_of_all (nodes_of es.now)) 4294967295 }
{
    let mut most: u32 = 0;
    let mut waiting: u32 = 0;
    for e in es {
        waiting = waiting.saturating_add(1);
        most = most.max(waiting.saturating_add(need(e)));
    }
    most
}

fn need_if(e: &Option<TExpr>) -> u32
    ensures { result ≡ min (need_if (maybe_of e.now)) 4294967295 }
{
    match e {
        Some(e) => need(e),
        None => 0,
    }
}

/// The greatest need of the expressions in a statement. It takes no memory.
#[cycle(statements)]
pub fn greatest_need(stmt: &TStmt) -> u32
    ensures { result ≡ min (greatest_need (stmt_of stmt.now)) 4294967295 }
{
    match stmt {
        TStmt::Empty | TStmt::Clear(_) | TStmt::Goto(_) => 0,
        TStmt::Break | TStmt::Continue => 0,
        TStmt::Eval(e) | TStmt::Set(_, _, e) => need(e),
        TStmt::Block(_, stmts) => {
            let inner: &[TStmt] = stmts;
            greatest_need_of_all(inner)
        }
        TStmt::If(e, then, other) => { need(e).max(greatest_need(then).max(greatest_need(other))) }
        TStmt::While(e, body) | TStmt::Switch(e, body) => need(e).max(greatest_need(body)),
        TStmt::DoWhile(body, e) => greatest_need(body).max(need(e)),
        TStmt::For(first, test, next, body) => {
            let head = need_if(first).max(need_if(test));
            head.max(need_if(next).max(greatest_need(body)))
        }
        TStmt::Case(_, body) | TStmt::Default(body) | TStmt::Label(_, body) => {
            greatest_need(body)
        }
        TStmt::Return(e) => need_if(e),
    }
}

#[cycle(statements)]
fn greatest_need_of_all(stmts: &[TStmt]) -> u32
    ensures { result ≡ min (greatest_need_of_all (stmts_of stmts.now)) 4294967295 }
{
    let mut most: u32 = 0;
    for stmt in stmts {
        most = most.max(greatest_need(stmt));
    }
    most
}
