// Operators on integer constants are replaced by their values (C90 6.4).
ghost use Rattle.std.specs.Prelude.{◌≡◌};
ghost use Rattle.c65_ctype.specs.Views.{qty_of};
ghost use Rattle.c65_csem.specs.Trees.{type_of, UnitTy};
ghost use Rattle.c65_csem.specs.Typed.{IsTyped, IsGiven};
ghost use Rattle.c65_csem.specs.Views.{typed_of, node_of};
ghost use Rattle.c65_fold.specs.Folded.{known, now_value, settled, folded, folded_node, IsFolded};

use crate::compute::{binary_value, truth, unary_value};
use crate::values::number_type;
use c65_csem::{TExpr, TKind};
use c65_ints::{IntType, wrap};

/// The value of an integer constant.
fn known(e: &TExpr) -> Option<i64>
    ensures { result ≡ known (typed_of e.now) }
{
    match &e.kind {
        TKind::Const(z) => Some(*z),
        _ => None,
    }
}

/// The value of an operator whose operands are all integer constants, where it is defined.
fn now_value(kind: &TKind, ty: IntType) -> Option<i64>
    ensures { result ≡ now_value (node_of kind.now) ty }
{
    match kind {
        TKind::Convert(a) => Some(wrap(ty, known(a)?)),
        TKind::Unary(op, a) => unary_value(*op, ty, known(a)?),
        TKind::Binary(op, a, b) => {
            let x = known(a)?;
            let y = known(b)?;
            binary_value(*op, ty, x, y)
        }
        TKind::And(a, b) => {
            let x = known(a)?;
            let y = known(b)?;
            if x == 0 {
                Some(truth(false))
            } else {
                Some(truth(y != 0))
            }
        }
        TKind::Or(a, b) => {
            let x = known(a)?;
            let y = known(b)?;
            if x == 0 {
                Some(truth(y != 0))
            } else {
                Some(truth(true))
            }
        }
        TKind::Cond(x, a, b) => {
            let x = known(x)?;
            let y = known(a)?;
            let z = known(b)?;
            if x == 0 { Some(z) } else { Some(y) }
        }
        TKind::Comma(a, b) => {
            known(a)?;
            known(b)
        }
        _ => None,
    }
}

/// Replaces an operator by its value, where its operands are all integer constants.
fn settle(e: &mut TExpr)
    ensures { typed_of e.new ≡ settled (qty_of e.old.ty) (node_of e.old.kind) }
{
    if let Some(ty) = number_type(&e.ty.ty) {
        if let Some(value) = now_value(&e.kind, ty) {
            e.kind = TKind::Const(value);
        }
    }
}

#[cycle(fold)]
fn fold_tree(e: &mut TExpr)
    ensures { typed_of e.new ≡ folded (typed_of e.old) }
{
    fold_parts(&mut e.kind);
    settle(e);
}

#[cycle(fold)]
fn fold_parts(kind: &mut TKind)
    ensures { node_of kind.new ≡ folded_node (node_of kind.old) }
{
    match kind {
        TKind::Const(_)
        | TKind::Null
        | TKind::Literal(_)
        | TKind::Object(_)
        | TKind::Func(_)
        | TKind::Rest => {}
        TKind::Deref(a) => fold_tree(a),
        TKind::Member(a, _) => fold_tree(a),
        TKind::Load(a) => fold_tree(a),
        TKind::Address(a) => fold_tree(a),
        TKind::Decay(a) => fold_tree(a),
        TKind::Convert(a) => fold_tree(a),
        TKind::Unary(_, a) => fold_tree(a),
        TKind::Step(_, a) => fold_tree(a),
        TKind::Pack(a) => fold_tree(a),
        TKind::Spill(_, a) => fold_tree(a),
        TKind::Binary(_, a, b) => {
            fold_tree(a);
            fold_tree(b);
        }
        TKind::And(a, b) => {
            fold_tree(a);
            fold_tree(b);
        }
        TKind::Or(a, b) => {
            fold_tree(a);
            fold_tree(b);
        }
        TKind::Comma(a, b) => {
            fold_tree(a);
            fold_tree(b);
        }
        TKind::Assign(a, b) => {
            fold_tree(a);
            fold_tree(b);
        }
        TKind::AssignOp(_, _, a, b) => {
            fold_tree(a);
            fold_tree(b);
        }
        TKind::AssignStep(_, a, b) => {
            fold_tree(a);
            fold_tree(b);
        }
        TKind::Copy(a, b) => {
            fold_tree(a);
            fold_tree(b);
        }
        TKind::Cond(x, a, b) => {
            fold_tree(x);
            fold_tree(a);
            fold_tree(b);
        }
        TKind::Call(function, arguments) => {
            fold_tree(function);
            for i in 0..arguments.len() {
                fold_tree(&mut arguments[i]);
            }
        }
    }
}

/// Replaces, from the leaves up, each operator whose operands are all integer constants and whose
/// value is defined by that value, as a constant of the operator's type. A division by zero stays,
/// and so does a shift by too much. It takes no memory. Whether an expression is an integer
/// constant expression is to be asked before: folding leaves no comma between constants.
#[tactic(auto, using(crate::proofs::FoldLaws::done, crate::proofs::FoldLaws::kept_type, crate::proofs::TypedLaws::typed, crate::proofs::TypedLaws::given))]
pub fn fold(expr: &mut TExpr)
    ensures exact { typed_of expr.new ≡ folded (typed_of expr.old) }
    ensures done { IsFolded (typed_of expr.new) }
    ensures type_kept { type_of (typed_of expr.new) ≡ type_of (typed_of expr.old) }
    ensures well_typed { (u : UnitTy) → IsTyped u (typed_of expr.old) → IsTyped u (typed_of expr.new) }
    ensures well_given { (u : UnitTy) → IsGiven u (typed_of expr.old) → IsGiven u (typed_of expr.new) }
{
    fold_tree(expr);
}
