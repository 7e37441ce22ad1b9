// Calls (C90 6.3.2.2).
ghost use Rattle.std.specs.Prelude.{◌≡◌, ◌≤◌, IfOk, drop, length, map, option_map, option_copied, slice_get};
ghost use Rattle.c65_base.specs.Answers.{Gives};
ghost use Rattle.c65_base.specs.Limits.{limit_of};
ghost use Rattle.c65_base.specs.declared.refusal.Size.TheVariants as sizes;
ghost use Rattle.c65_ctype.specs.Views.{ty_of, qty_of, fn_of, qtys_of, params_in, types_of};
ghost use Rattle.c65_csem.specs.Views.{typed_of, nodes_of};
ghost use Rattle.c65_ctype.specs.Trees.{type_in};
ghost use Rattle.c65_elab_convert.specs.Categories.{category_of};
ghost use Rattle.c65_elab_convert.specs.Calls as calls;

use crate::changes::assigned;
use crate::classes::{Category, classify, unfit_operand};
use crate::structures::{packed_in, structure_size};
use crate::values::{as_int, promotion, value};
use crate::waiting::beside;
use c65_base::{Code, Pos, Refusal, Size};
use c65_csem::{TExpr, unqualified};
use c65_ctype::{CType, FnType, QType, Types};
use std::alloc::Global;

/// The function to which a pointer points.
fn callee(ty: &CType) -> Option<&FnType>
    ensures { option_map fn_of (option_copied result) ≡ calls.callee (ty_of ty.now) }
{
    let CType::Pointer(target) = ty else {
        return None;
    };
    if target.is_const || target.is_volatile {
        return None;
    }
    match &target.ty {
        CType::Function(function) => Some(function),
        _ => None,
    }
}

/// A value as it is passed without a prototype (C90 6.3.2.2). A structure or union that is too large
/// is refused where the argument begins.
fn passed(alloc: Global, types: &Types, pos: Pos, first: Pos, e: TExpr) -> Result<TExpr, Refusal>
    ensures { Gives typed_of result (calls.passed (types_of types.now) pos first (typed_of e)) }
{
    let e = value(alloc, e)?;
    match classify(&e.ty.ty) {
        Category::Int(kind) => {
            let kind = promotion(types, &e, kind);
            Ok(as_int(alloc, kind, e)?)
        }
        Category::Pointer => Ok(e),
        Category::Tag => packed_in(alloc, types, first, e),
        Category::Void | Category::Other => Err(unfit_operand(Code::Operands, pos, e)),
    }
}

/// An argument as a parameter of this type takes it.
fn taken(
    alloc: Global,
    types: &Types,
    pos: Pos,
    first: Pos,
    q: &QType,
    e: TExpr,
) -> Result<TExpr, Refusal>
    ensures { Gives typed_of result (calls.taken_by (types_of types.now) pos first (category_of (type_in (qty_of q.now))) (qty_of q.now) (typed_of e)) }
{
    match classify(&q.ty) {
        Category::Tag => {
            let e = assigned(alloc, types, pos, &q.ty, e)?;
            packed_in(alloc, types, first, e)
        }
        Category::Int(_) | Category::Pointer | Category::Void | Category::Other => {
            assigned(alloc, types, pos, &q.ty, e)
        }
    }
}

/// An argument as its parameter takes it, where there is one.
fn argument(
    alloc: Global,
    types: &Types,
    pos: Pos,
    first: Pos,
    parameters: &[QType],
    i: usize,
    e: TExpr,
) -> Result<TExpr, Refusal>
    ensures { Gives typed_of result (calls.argument (types_of types.now) pos first (option_map qty_of (slice_get parameters.now i)) (typed_of e)) }
{
    match parameters.get(i) {
        Some(q) => taken(alloc, types, pos, first, q, e),
        None => passed(alloc, types, pos, first, e),
    }
}

/// The place where an argument begins, or else that of the call.
#[tactic(auto, using(crate::proofs::ArgumentLaws::place_at))]
fn first_place(pos: Pos, firsts: &[Pos], i: usize) -> Pos
    ensures { result ≡ calls.first_place pos (drop i firsts.now) }
{
    match firsts.get(i) {
        Some(first) => *first,
        None => pos,
    }
}

/// The bytes of arguments with one more.
fn counted(types: &Types, pos: Pos, total: u32, e: &TExpr) -> Result<u32, Refusal>
    requires { total ≤ limit_of sizes.ArgumentBytes }
    ensures exact { Gives (λ n. n) result (calls.counted (types_of types.now) pos total (typed_of e.now)) }
    ensures small { IfOk result (λ n. n ≤ limit_of sizes.ArgumentBytes) }
{
    let size = types.size(&e.ty.ty, pos)?;
    let sum = total + size;
    let limit = Size::ArgumentBytes;
    if u64::from(sum) > limit.number() {
        let value = limit.number() + 1;
        return Err(Refusal::TooLarge { limit, value });
    }
    Ok(sum)
}

/// Arguments as these parameters take them. Those behind the parameters are passed as without a
/// prototype.
fn given(
    alloc: Global,
    types: &Types,
    pos: Pos,
    firsts: &[Pos],
    parameters: &[QType],
    arguments: Vec<TExpr>,
) -> Result<Vec<TExpr>, Refusal>
    ensures { Gives (λ v. nodes_of v.items) result (calls.given (types_of types.now) pos firsts.now 0 (qtys_of parameters.now) (nodes_of arguments.items)) }
{
    let mut total: u32 = 0;
    let mut given = Vec::new(alloc);
    for e in arguments {
        let i = given.len();
        let first = first_place(pos, firsts, i);
        let e = argument(alloc, types, pos, first, parameters, i, e)?;
        total = counted(types, pos, total, &e)?;
        given.push(e)?;
    }
    Ok(given)
}

/// Whether so many arguments fit so many parameters.
fn is_count(variadic: bool, parameters: usize, arguments: usize) -> bool
    ensures { result ≡ calls.is_count variadic parameters arguments }
{
    if variadic {
        parameters <= arguments
    } else {
        parameters == arguments
    }
}

/// Arguments of a function with a prototype.
#[tactic(auto, using(crate::proofs::ArgumentLaws::count_types, crate::proofs::ArgumentLaws::count_nodes))]
fn known(
    alloc: Global,
    types: &Types,
    pos: Pos,
    firsts: &[Pos],
    variadic: bool,
    parameters: &[QType],
    arguments: Vec<TExpr>,
) -> Result<Vec<TExpr>, Refusal>
    ensures { Gives (λ v. nodes_of v.items) result (calls.known_for (types_of types.now) pos firsts.now variadic (qtys_of parameters.now) (nodes_of arguments.items)) }
{
    if is_count(variadic, parameters.len(), arguments.len()) {
        given(alloc, types, pos, firsts, parameters, arguments)
    } else {
        drop(arguments);
        Err(Refusal::fault(Code::ArgumentCount, pos))
    }
}

/// The arguments of a call of such a function.
fn arguments_for(
    alloc: Global,
    types: &Types,
    pos: Pos,
    firsts: &[Pos],
    function: &FnType,
    arguments: Vec<TExpr>,
) -> Result<Vec<TExpr>, Refusal>
    ensures { Gives (λ v. nodes_of v.items) result (calls.arguments_for (types_of types.now) pos firsts.now (fn_of function.now) (nodes_of arguments.items)) }
{
    match &function.params {
        None => given(alloc, types, pos, firsts, &[], arguments),
        Some(parameters) => known(
            alloc,
            types,
            pos,
            firsts,
            function.variadic,
            parameters,
            arguments,
        ),
    }
}

/// The type of what a function gives: nothing, a scalar, or a structure or union of at most four
/// bytes.
fn result_type(alloc: Global, types: &Types, pos: Pos, function: &FnType) -> Result<QType, Refusal>
    ensures { Gives qty_of result (calls.result_type (types_of types.now) pos (fn_of function.now)) }
{
    match classify(&function.result.ty) {
        Category::Void | Category::Int(_) | Category::Pointer => {
            Ok(unqualified(alloc, &function.result)?)
        }
        Category::Tag => {
            structure_size(types, pos, &function.result.ty)?;
            Ok(unqualified(alloc, &function.result)?)
        }
        Category::Other => Err(Refusal::fault(Code::Operands, pos)),
    }
}

/// The type and the arguments of a call of such a function.
fn parts_for(
    alloc: Global,
    types: &Types,
    pos: Pos,
    firsts: &[Pos],
    function: &FnType,
    arguments: Vec<TExpr>,
) -> Result<(QType, Vec<TExpr>), Refusal>
    ensures { Gives (λ x. (qty_of x.0, nodes_of x.1.items)) result (calls.parts_for (types_of types.now) pos firsts.now (fn_of function.now) (nodes_of arguments.items)) }
{
    let (ty, arguments) = beside(result_type(alloc, types, pos, function), arguments)?;
    let given = arguments_for(alloc, types, pos, firsts, function, arguments);
    let (given, ty) = beside(given, ty)?;
    Ok((ty, given))
}

/// A call (C90 6.3.2.2), whose arguments begin at these places. Refuses `NotCallable`, `StructSize`
/// and `IncompleteType` where an argument for which there is no parameter begins, `ArgumentCount`,
/// `Assignment`, `VoidValue`, and `ArgumentBytes` where the arguments have more than 250 bytes.
pub fn call(
    alloc: Global,
    types: &Types,
    pos: Pos,
    firsts: &[Pos],
    function: TExpr,
    arguments: Vec<TExpr>,
) -> Result<TExpr, Refusal>
    ensures { Gives typed_of result (calls.call_of (types_of types.now) pos firsts.now (typed_of function) (nodes_of arguments.items)) }
{
    let (function, arguments) = beside(value(alloc, function), arguments)?;
    let Some(callee) = callee(&function.ty.ty) else {
        drop(arguments);
        return Err(unfit_operand(Code::NotCallable, pos, function));
    };
    let parts = parts_for(alloc, types, pos, firsts, callee, arguments);
    let ((ty, given), function) = beside(parts, function)?;
    Ok(TExpr::call(alloc, ty, function, given)?)
}
