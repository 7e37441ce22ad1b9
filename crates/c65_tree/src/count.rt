// How many expressions and statements a unit has. Each count stands still at its type's end.
ghost use Rattle.std.specs.Prelude.{◌≡◌, ◌+◌, ◌≤◌, min};
ghost use Rattle.c65_base.specs.Limits.{limit_of};
ghost use Rattle.c65_base.specs.declared.refusal.Size.TheVariants.{Depth};
ghost use Rattle.c65_tree.specs.Lists.{total, of_option};
ghost use Rattle.c65_tree.specs.Depth.{unit_depth};
ghost use Rattle.c65_tree.specs.Nodes.{expr_nodes, init_nodes, init_declarator_nodes, decl_nodes, stmt_nodes, function_nodes, item_nodes, unit_nodes};
ghost use Rattle.c65_tree.specs.View.{expr_of, init_of, init_declarator_of, decl_of, stmt_of, function_of, item_of, unit_of, maybe};

use crate::expr::Expr;
use crate::extent::{declarator_extent, expr_extent, specifiers_extent};
use crate::stmt::{
    Decl, Function, InitDeclarator, InitKind, Initialiser, Item, Stmt, StmtKind, Unit,
};

/// The number of expressions and statements of a unit, or the greatest u64 where there are more.
pub fn nodes(unit: &Unit) -> u64
    requires { unit_depth (unit_of unit.now) ≤ limit_of Depth }
    ensures { result ≡ min (unit_nodes (unit_of unit.now)) 18446744073709551615 }
{
    items_count(&unit.items)
}

fn items_count(items: &[Item]) -> u64
    ensures { result ≡ min (total (λ i. item_nodes (item_of i)) items.now) 18446744073709551615 }
{
    let mut count: u64 = 0;
    for item in items {
        count = count.saturating_add(item_count(item));
    }
    count
}

fn item_count(item: &Item) -> u64
    ensures { result ≡ min (item_nodes (item_of item.now)) 18446744073709551615 }
{
    match item {
        Item::Decl(decl) => decl_count(decl),
        Item::Function(function) => function_count(function),
    }
}

fn function_count(function: &Function) -> u64
    ensures { result ≡ min (function_nodes (function_of function.now)) 18446744073709551615 }
{
    let head = specifiers_extent(&function.specifiers).beside(declarator_extent(
        &function.declarator,
    ));
    let rest = decls_count(&function.declarations).saturating_add(stmt_count(&function.body));
    head.nodes.saturating_add(rest)
}

fn decls_count(items: &[Decl]) -> u64
    ensures { result ≡ min (total (λ d. decl_nodes (decl_of d)) items.now) 18446744073709551615 }
{
    let mut count: u64 = 0;
    for decl in items {
        count = count.saturating_add(decl_count(decl));
    }
    count
}

fn decl_count(decl: &Decl) -> u64
    ensures { result ≡ min (decl_nodes (decl_of decl.now)) 18446744073709551615 }
{
    specifiers_extent(&decl.specifiers)
        .nodes
        .saturating_add(declarators_count(&decl.declarators))
}

fn declarators_count(items: &[InitDeclarator]) -> u64
    ensures { result ≡ min (total (λ d. init_declarator_nodes (init_declarator_of d)) items.now) 18446744073709551615 }
{
    let mut count: u64 = 0;
    for declarator in items {
        count = count.saturating_add(init_declarator_count(declarator));
    }
    count
}

fn init_declarator_count(declarator: &InitDeclarator) -> u64
    ensures { result ≡ min (init_declarator_nodes (init_declarator_of declarator.now)) 18446744073709551615 }
{
    let count = declarator_extent(&declarator.declarator).nodes;
    match &declarator.init {
        Some(init) => count.saturating_add(init_count(init)),
        None => count,
    }
}

#[cycle(init_count)]
pub fn init_count(init: &Initialiser) -> u64
    ensures { result ≡ min (init_nodes (init_of init.now)) 18446744073709551615 }
{
    match &init.kind {
        InitKind::Value(e) => expr_extent(e).nodes,
        InitKind::List(inits) => inits_count(inits),
    }
}

#[cycle(init_count)]
fn inits_count(items: &[Initialiser]) -> u64
    ensures { result ≡ min (total (λ i. init_nodes (init_of i)) items.now) 18446744073709551615 }
{
    let mut count: u64 = 0;
    for init in items {
        count = count.saturating_add(init_count(init));
    }
    count
}

fn optional_count(expr: &Option<Expr>) -> u64
    ensures { result ≡ min (of_option expr_nodes (maybe expr_of expr.now)) 18446744073709551615 }
{
    match expr {
        Some(e) => expr_extent(e).nodes,
        None => 0,
    }
}

fn three_count(first: &Option<Expr>, second: &Option<Expr>, third: &Option<Expr>) -> u64
    ensures { result ≡ min (of_option expr_nodes (maybe expr_of first.now) + (of_option expr_nodes (maybe expr_of second.now) + of_option expr_nodes (maybe expr_of third.now))) 18446744073709551615 }
{
    let rest = optional_count(second).saturating_add(optional_count(third));
    optional_count(first).saturating_add(rest)
}

#[cycle(stmt_count)]
pub fn stmt_count(stmt: &Stmt) -> u64
    ensures { result ≡ min (stmt_nodes (stmt_of stmt.now)) 18446744073709551615 }
{
    match &stmt.kind {
        StmtKind::Goto(_) | StmtKind::Continue | StmtKind::Break => 1,
        StmtKind::Eval(e) | StmtKind::Return(e) => optional_count(e).saturating_add(1),
        StmtKind::Label(_, s) | StmtKind::Default(s) => stmt_count(s).saturating_add(1),
        StmtKind::Case(e, s)
        | StmtKind::Switch(e, s)
        | StmtKind::While(e, s)
        | StmtKind::DoWhile(s, e) => {
            let count = expr_extent(e).nodes.saturating_add(stmt_count(s));
            count.saturating_add(1)
        }
        StmtKind::If(e, s, other) => {
            let count = expr_extent(e)
                .nodes
                .saturating_add(stmt_count(s))
                .saturating_add(1);
            match other {
                Some(r) => count.saturating_add(stmt_count(r)),
                None => count,
            }
        }
        StmtKind::For(first, test, step, s) => {
            let count = three_count(first, test, step).saturating_add(stmt_count(s));
            count.saturating_add(1)
        }
        StmtKind::Block(decls, stmts) => {
            let count = decls_count(decls).saturating_add(stmts_count(stmts));
            count.saturating_add(1)
        }
    }
}

#[cycle(stmt_count)]
fn stmts_count(items: &[Stmt]) -> u64
    ensures { result ≡ min (total (λ s. stmt_nodes (stmt_of s)) items.now) 18446744073709551615 }
{
    let mut count: u64 = 0;
    for stmt in items {
        count = count.saturating_add(stmt_count(stmt));
    }
    count
}
