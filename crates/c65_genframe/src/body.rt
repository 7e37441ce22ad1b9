// The objects of the blocks of a function.
ghost use Rattle.std.specs.Prelude.{◌≡◌, ◌++◌, OnOk, IfOk};
ghost use Rattle.c65_csem.specs.Views.{stmt_of, func_of};
ghost use Rattle.c65_genframe.specs.Objects.{objects_in, locals_of};

use c65_csem::{TFunc, TStmt};
use std::alloc::{AllocError, Global};

/// Adds the objects of all blocks of a statement.
fn add_objects(stmt: &TStmt, into: &mut Vec<u32>) -> Result<(), AllocError>
    ensures { OnOk result (into.new.items ≡ into.old.items ++ objects_in (stmt_of stmt.now)) }
{
    match stmt {
        TStmt::Block(objects, stmts) => {
            into.extend_from_slice(objects)?;
            for inner in stmts {
                add_objects(inner, into)?;
            }
            Ok(())
        }
        TStmt::If(_, then, other) => {
            add_objects(then, into)?;
            add_objects(other, into)
        }
        TStmt::While(_, body) | TStmt::DoWhile(body, _) | TStmt::For(_, _, _, body) => {
            add_objects(body, into)
        }
        TStmt::Switch(_, body) | TStmt::Case(_, body) => add_objects(body, into),
        TStmt::Default(body) | TStmt::Label(_, body) => add_objects(body, into),
        TStmt::Empty | TStmt::Eval(_) | TStmt::Set(_, _, _) | TStmt::Clear(_) => Ok(()),
        TStmt::Goto(_) | TStmt::Break | TStmt::Continue | TStmt::Return(_) => Ok(()),
    }
}

/// The objects of the blocks of a function.
pub fn locals_of(alloc: Global, function: &TFunc) -> Result<Vec<u32>, AllocError>
    ensures { IfOk result (λ v. v.items ≡ locals_of (func_of function.now)) }
{
    let mut objects = Vec::new(alloc);
    if let Some(body) = &function.body {
        add_objects(body, &mut objects)?;
    }
    Ok(objects)
}
