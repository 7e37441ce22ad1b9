// In how many first arms of `if`s, one within the other, the statements of a body stand.
ghost use Rattle.std.specs.Prelude.{◌≡◌};
ghost use Rattle.c65_csem.specs.Views.{stmt_of, stmts_of};
ghost use Rattle.c65_csem_plain.specs.Arms;

use c65_csem::TStmt;

/// The most first arms of `if`s, one within the other, in the body of a function.
const MOST_ARMS: u32 = 2_000;

/// Whether a statement that stands in so many first arms has no more than the most within.
#[cycle(arms)]
pub fn has_few_arms(outside: u32, stmt: &TStmt) -> bool
    ensures { result ≡ Arms.has_few_arms outside (stmt_of stmt.now) }
{
    match stmt {
        TStmt::Block(_, stmts) => have_few_arms(outside, stmts),
        TStmt::If(_, a, b) => {
            outside < MOST_ARMS && has_few_arms(outside + 1, a) && has_few_arms(outside, b)
        }
        TStmt::While(_, body)
        | TStmt::DoWhile(body, _)
        | TStmt::For(_, _, _, body)
        | TStmt::Switch(_, body)
        | TStmt::Case(_, body)
        | TStmt::Default(body)
        | TStmt::Label(_, body) => has_few_arms(outside, body),
        TStmt::Empty
        | TStmt::Eval(_)
        | TStmt::Set(_, _, _)
        | TStmt::Clear(_)
        | TStmt::Goto(_)
        | TStmt::Break
        | TStmt::Continue
        | TStmt::Return(_) => true,
    }
}

#[cycle(arms)]
fn have_few_arms(outside: u32, stmts: &[TStmt]) -> bool
    ensures { result ≡ Arms.have_few_arms outside (stmts_of stmts.now) }
{
    for stmt in stmts {
        if !has_few_arms(outside, stmt) {
            return false;
        }
    }
    true
}
