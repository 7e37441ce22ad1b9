// The labels of a function (C90 6.6.1).
ghost use Rattle.std.specs.Prelude.{◌≡◌, ◌≤◌, ◌<◌, ◌++◌, IfOk, IfErr, IfSome, OnOk, length, drop};
ghost use Rattle.c65_base.specs.Answers.{Gives};
ghost use Rattle.c65_tree.specs.Trees.{no_stmts};
ghost use Rattle.c65_tree.specs.View as v;
ghost use Rattle.c65_init.specs.Bodies.{place_from, label_in, label_first};
ghost use Rattle.c65_init.specs.Causes.{IsLabelFault};
ghost use Rattle.c65_init.specs.Labels.{labels_of, labels_in};

use c65_base::{Code, Name, Pos, Refusal};
use c65_tree::{Stmt, StmtKind};
use std::alloc::AllocError;

/// Adds the labels of a statement in their order.
#[cycle(labels)]
#[tactic(auto, using(crate::proofs::LabelLaws::block_labels, crate::proofs::LabelLaws::none_more, crate::proofs::LabelLaws::one_more, crate::proofs::LabelLaws::both_more))]
pub fn add_labels(stmt: &Stmt, labels: &mut Vec<Name>) -> Result<(), AllocError>
    ensures { OnOk result (labels.new.items ≡ labels.old.items ++ labels_of (v.stmt_of stmt.now)) }
{
    match &stmt.kind {
        StmtKind::Label(name, body) => {
            labels.push(*name)?;
            add_labels(body, labels)
        }
        StmtKind::Block(_, stmts) => add_labels_in(stmts, labels),
        StmtKind::If(_, a, b) => {
            add_labels(a, labels)?;
            match b {
                Some(b) => add_labels(b, labels),
                None => Ok(()),
            }
        }
        StmtKind::Case(_, body)
        | StmtKind::Default(body)
        | StmtKind::Switch(_, body)
        | StmtKind::While(_, body)
        | StmtKind::DoWhile(body, _)
        | StmtKind::For(_, _, _, body) => add_labels(body, labels),
        StmtKind::Eval(_)
        | StmtKind::Goto(_)
        | StmtKind::Continue
        | StmtKind::Break
        | StmtKind::Return(_) => Ok(()),
    }
}

#[cycle(labels)]
fn add_labels_in(stmts: &[Stmt], labels: &mut Vec<Name>) -> Result<(), AllocError>
    ensures { OnOk result (labels.new.items ≡ labels.old.items ++ labels_in (v.stmts_from no_stmts stmts.now)) }
{
    for stmt in stmts {
        add_labels(stmt, labels)?;
    }
    Ok(())
}

/// The first place of a label.
fn place_of(labels: &[Name], name: Name) -> Option<usize>
    ensures exact { result ≡ place_from labels.now name 0 }
    ensures inside { IfSome result (λ n. n < length labels.now) }
{
    let mut at: usize = 0;
    for label in labels {
        if label.0 == name.0 {
            return Some(at);
        }
        at += 1;
    }
    None
}

/// The number of a label: its place among the labels of its function.
pub fn number_of(labels: &[Name], name: Name) -> Option<u32>
    ensures exact { result ≡ label_in labels.now name }
    ensures inside { IfSome result (λ n. n < length labels.now) }
{
    match place_of(labels, name) {
        Some(at) => {
            if at < 0x1_0000_0000 {
                Some(at as u32)
            } else {
                None
            }
        }
        None => None,
    }
}

/// The number of a label that stands here; so many were met before. Refuses `LabelTwice` where it
/// was met.
pub fn first_number(labels: &[Name], met: usize, name: Name, pos: Pos) -> Result<u32, Refusal>
    ensures exact { Gives (λ n. n) result (label_first labels.now met name pos) }
    ensures first { IfOk result (λ n. met ≤ n) }
    ensures known { IfOk result (λ n. n < length labels.now) }
    ensures refused { IfErr result (IsLabelFault pos) }
{
    match number_of(labels, name) {
        Some(number) => {
            if (number as usize) < met {
                Err(Refusal::fault(Code::LabelTwice, pos))
            } else {
                Ok(number)
            }
        }
        None => Err(Refusal::fault(Code::LabelUnknown, pos)),
    }
}
