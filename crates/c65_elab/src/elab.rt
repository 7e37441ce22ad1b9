// From syntax trees to types and typed trees: the walk, part by part in the order of the source.
ghost use Rattle.std.specs.Prelude.{map};
ghost use Rattle.c65_base.specs.Answers.{Gives};
ghost use Rattle.c65_ctype.specs.Views.{qty_of, field_of};
ghost use Rattle.c65_csem.specs.Views.{typed_of, nodes_of};
ghost use Rattle.c65_elab_declare.specs.Declarators.{part_of, formal_of, formals_of};
ghost use Rattle.c65_elab_declare.specs.Drafts.{draft_of};
ghost use Rattle.c65_elab_scope.specs.Scopes.{scope_of};
ghost use Rattle.c65_tree.specs.Optional.{maybe_expr, maybe_declarator};
ghost use Rattle.c65_tree.specs.Trees.{no_exprs, no_specifiers, no_more_enumerators, no_member_decls, no_more_members, no_more_params};
ghost use Rattle.c65_tree.specs.View.{expr_of, exprs_from, type_of, specifiers_of, specifier_of, specifiers_from, enumerators_from, member_decls_from, members_from, declarator_of, params_of, params_from};
ghost use Rattle.c65_elab.specs.Items.{enumerator_of, fields_of, a_member_of, parameter_of};
ghost use Rattle.c65_elab.specs.Typing.{typed, typed_list, value_in, type_named, specified, drafted, specifier_in, enumerators_in, fields_in, members_in, member_in, parts_in, formals_in, prototype_in};

use crate::blocks::{leave, object_count};
use crate::constants::{value_at, value_of};
use crate::lists::{is_first, is_single, is_sole};
use crate::names::{declare_first, literal, named, typedef_type};
use crate::operators::{assigning, called, on_place};
use c65_base::{Code, Name, Refusal};
use c65_csem::{TExpr, TKind, int_type};
use c65_ctype::{Field, QType};
use c65_elab_convert::{
    binary, both, cast, choice, comma, either, index, member, size_of_expr, size_of_type, step,
};
use c65_elab_declare::{
    Draft, Formal, Formals, Keyword, Part, array_count, begin_enumeration, begun_tag,
    enumerator_value, field, formal, is_signed, more_bytes, name_place, named_enumeration,
    named_tag, param_storage, shaped, tag_type, with_part, without_void,
};
use c65_elab_scope::Scope;
use c65_ints::IntType;
use c65_tree::{
    Declarator, DeclaratorKind, Enumerator, Expr, ExprKind, MemberDecl, MemberDeclarator, Param,
    Params, Specifier, SpecifierKind, Specifiers, Storage, TypeName,
};
use std::alloc::Global;

/// The typed tree of an expression (C90 6.3).
#[cycle(elab)]
pub fn expression(alloc: Global, scope: &mut Scope, expr: &Expr) -> Result<TExpr, Refusal>
    ensures { Gives (λ e. (typed_of e, scope_of scope.new)) result (typed (expr_of expr.now) (scope_of scope.old)) }
{
    let pos = expr.pos;
    match &expr.kind {
        ExprKind::Name(name) => named(alloc, scope, *name, pos),
        ExprKind::Number(kind, value) => Ok(TExpr {
            ty: int_type(*kind),
            kind: TKind::Const(*value as i64),
        }),
        ExprKind::Text(bytes) => literal(alloc, scope, bytes),
        ExprKind::Paren(e) => expression(alloc, scope, e),
        ExprKind::Index(a, b) => {
            let a = expression(alloc, scope, a)?;
            let b = expression(alloc, scope, b)?;
            index(alloc, scope.types(), pos, a, b)
        }
        ExprKind::Call(f, arguments) => {
            declare_first(scope, f)?;
            let f = expression(alloc, scope, f)?;
            let given = expressions(alloc, scope, arguments)?;
            called(alloc, scope, pos, arguments, f, given)
        }
        ExprKind::Member(e, arrow, name) => {
            let e = expression(alloc, scope, e)?;
            member(alloc, scope.types(), pos, *arrow, e, *name)
        }
        ExprKind::Step(how, e) => {
            let e = expression(alloc, scope, e)?;
            step(alloc, scope.types(), pos, *how, e)
        }
        ExprKind::Unary(op, e) => {
            let e = expression(alloc, scope, e)?;
            on_place(alloc, scope, pos, *op, e)
        }
        ExprKind::SizeofExpr(e) => {
            let objects = object_count(scope);
            let e = expression(alloc, scope, e)?;
            scope.keep_objects(objects);
            size_of_expr(scope.types(), pos, &e)
        }
        ExprKind::SizeofType(name) => {
            let ty = type_name(alloc, scope, name)?;
            size_of_type(scope.types(), pos, &ty.ty)
        }
        ExprKind::Cast(name, e) => {
            let ty = type_name(alloc, scope, name)?;
            let e = expression(alloc, scope, e)?;
            cast(alloc, scope.types(), pos, &ty, e)
        }
        ExprKind::Binary(op, a, b) => {
            let a = expression(alloc, scope, a)?;
            let b = expression(alloc, scope, b)?;
            binary(alloc, scope.types(), pos, *op, a, b)
        }
        ExprKind::And(a, b) => {
            let a = expression(alloc, scope, a)?;
            let b = expression(alloc, scope, b)?;
            both(alloc, pos, a, b)
        }
        ExprKind::Or(a, b) => {
            let a = expression(alloc, scope, a)?;
            let b = expression(alloc, scope, b)?;
            either(alloc, pos, a, b)
        }
        ExprKind::Cond(x, a, b) => {
            let x = expression(alloc, scope, x)?;
            let a = expression(alloc, scope, a)?;
            let b = expression(alloc, scope, b)?;
            choice(alloc, scope.types(), pos, x, a, b)
        }
        ExprKind::Assign(op, a, b) => {
            let a = expression(alloc, scope, a)?;
            let b = expression(alloc, scope, b)?;
            assigning(alloc, scope.types(), pos, *op, a, b)
        }
        ExprKind::Comma(a, b) => {
            let a = expression(alloc, scope, a)?;
            let b = expression(alloc, scope, b)?;
            Ok(comma(alloc, a, b)?)
        }
    }
}

/// The typed trees of arguments.
#[cycle(elab)]
fn expressions(alloc: Global, scope: &mut Scope, list: &[Expr]) -> Result<Vec<TExpr>, Refusal>
    ensures { Gives (λ v. (nodes_of v.items, scope_of scope.new)) result (typed_list (exprs_from no_exprs list.now) (scope_of scope.old)) }
{
    let mut typed = Vec::new(alloc);
    for expr in list {
        let e = expression(alloc, scope, expr)?;
        typed.push(e)?;
    }
    Ok(typed)
}

/// The value of a constant expression, if there is one (C90 6.4).
#[cycle(elab)]
fn value_in(alloc: Global, scope: &mut Scope, expr: &Option<Expr>) -> Result<Option<i64>, Refusal>
    ensures { Gives (λ z. (z, scope_of scope.new)) result (value_in (maybe_expr expr.now) (scope_of scope.old)) }
{
    match expr {
        None => Ok(None),
        Some(expr) => {
            let e = expression(alloc, scope, expr)?;
            Ok(Some(value_at(&e, expr.pos)?))
        }
    }
}

/// The type of a type name (C90 6.5.5).
#[cycle(elab)]
fn type_name(alloc: Global, scope: &mut Scope, name: &TypeName) -> Result<QType, Refusal>
    ensures { Gives (λ q. (qty_of q, scope_of scope.new)) result (type_named (type_of name.now) (scope_of scope.old)) }
{
    let (_, base) = specifiers(alloc, scope, &name.specifiers, false)?;
    let (_, list) = parts(alloc, scope, &name.declarator, false)?;
    shaped(alloc, scope.types(), &base, &name.declarator, &list)
}

/// The storage class and the type of specifiers (C90 6.5.1 to 6.5.3).
#[cycle(elab)]
pub fn specifiers(
    alloc: Global,
    scope: &mut Scope,
    list: &Specifiers,
    alone: bool,
) -> Result<(Option<Storage>, QType), Refusal>
    ensures { Gives (λ x. ((x.0, qty_of x.1), scope_of scope.new)) result (specified (specifiers_of list.now) alone (scope_of scope.old)) }
{
    let sole = is_sole(alone, &list.items);
    let draft = drafted(alloc, scope, &list.items, sole)?;
    draft.finish(scope.plain_char(), alone, list.pos)
}

/// What specifiers say; the flag says that there is one, and no declarator.
#[cycle(elab)]
fn drafted(
    alloc: Global,
    scope: &mut Scope,
    items: &[Specifier],
    sole: bool,
) -> Result<Draft, Refusal>
    ensures { Gives (λ d. (draft_of d, scope_of scope.new)) result (drafted (specifiers_from no_specifiers items.now) sole (scope_of scope.old)) }
{
    let mut draft = Draft::new();
    for item in items {
        draft = specifier(alloc, scope, item, draft, sole)?;
    }
    Ok(draft)
}

/// What is said with one more specifier.
#[cycle(elab)]
fn specifier(
    alloc: Global,
    scope: &mut Scope,
    item: &Specifier,
    draft: Draft,
    sole: bool,
) -> Result<Draft, Refusal>
    ensures { Gives (λ d. (draft_of d, scope_of scope.new)) result (specifier_in (specifier_of item.now) (draft_of draft) sole (scope_of scope.old)) }
{
    let pos = item.pos;
    match &item.kind {
        SpecifierKind::Storage(storage) => draft.with_storage(*storage, pos),
        SpecifierKind::Const => draft.with_const(pos),
        SpecifierKind::Volatile => draft.with_volatile(pos),
        SpecifierKind::Void => draft.with_keyword(Keyword::Void, pos),
        SpecifierKind::Char => draft.with_keyword(Keyword::Char, pos),
        SpecifierKind::Short => draft.with_keyword(Keyword::Short, pos),
        SpecifierKind::Int => draft.with_keyword(Keyword::Int, pos),
        SpecifierKind::Long => draft.with_keyword(Keyword::Long, pos),
        SpecifierKind::Float | SpecifierKind::Double => Err(Refusal::At {
            code: Code::Float,
            pos,
        }),
        SpecifierKind::Signed => draft.with_sign(true, pos),
        SpecifierKind::Unsigned => draft.with_sign(false, pos),
        SpecifierKind::Typedef(name) => {
            let ty = typedef_type(alloc, scope, *name, pos)?;
            draft.with_type(ty, false, pos)
        }
        SpecifierKind::Tagged(is_union, name, members) => match members {
            None => {
                let tag = named_tag(scope, *is_union, *name, sole, pos)?;
                draft.with_type(tag_type(tag), name.is_some(), pos)
            }
            Some(list) => {
                let tag = begun_tag(scope, *is_union, *name, pos)?;
                let fields = fields(alloc, scope, list)?;
                scope.finish_tag(tag, fields, pos)?;
                draft.with_type(tag_type(tag), name.is_some(), pos)
            }
        },
        SpecifierKind::Enum(name, given) => match given {
            None => {
                let ty = named_enumeration(scope, *name, pos)?;
                draft.with_type(ty, true, pos)
            }
            Some(list) => {
                begin_enumeration(scope, *name, pos)?;
                enumerators(alloc, scope, list)?;
                draft.with_type(int_type(IntType::Int), true, pos)
            }
        },
    }
}

/// Declares enumeration constants, each one more than that before it where it has no value of its
/// own (C90 6.5.2.2), and gives one more than the last.
#[cycle(elab)]
fn enumerators(alloc: Global, scope: &mut Scope, list: &[Enumerator]) -> Result<i64, Refusal>
    ensures { Gives (λ z. (z, scope_of scope.new)) result (enumerators_in (enumerators_from no_more_enumerators list.now) (scope_of scope.old)) }
{
    let mut next: i64 = 0;
    for item in list {
        next = enumerator(alloc, scope, item, next)?;
    }
    Ok(next)
}

/// Declares an enumeration constant whose value is `next` where it has none of its own, and gives
/// one more.
#[cycle(elab)]
fn enumerator(
    alloc: Global,
    scope: &mut Scope,
    item: &Enumerator,
    next: i64,
) -> Result<i64, Refusal>
    ensures { Gives (λ z. (z, scope_of scope.new)) result (enumerator_of item.now next (scope_of scope.old)) }
{
    let given = value_in(alloc, scope, &item.value)?;
    let value = enumerator_value(given.unwrap_or(next), item.pos)?;
    scope.declare_enumerator(item.name, value, item.pos)?;
    Ok(value + 1)
}

/// The members of a structure or union (C90 6.5.2.1).
#[cycle(elab)]
fn fields(alloc: Global, scope: &mut Scope, list: &[MemberDecl]) -> Result<Vec<Field>, Refusal>
    ensures { Gives (λ v. (map field_of v.items, scope_of scope.new)) result (fields_in (member_decls_from no_member_decls list.now) (scope_of scope.old)) }
{
    let mut all = Vec::new(alloc);
    for item in list {
        all = and_fields(alloc, scope, item, all)?;
    }
    Ok(all)
}

/// Fields, and behind them those of one declaration.
#[cycle(elab)]
fn and_fields(
    alloc: Global,
    scope: &mut Scope,
    item: &MemberDecl,
    fields: Vec<Field>,
) -> Result<Vec<Field>, Refusal>
    ensures { Gives (λ v. (map field_of v.items, scope_of scope.new)) result (fields_of item.now (map field_of fields.items) (scope_of scope.old)) }
{
    let (_, base) = specifiers(alloc, scope, &item.specifiers, false)?;
    let signed = is_signed(&item.specifiers);
    members(alloc, scope, &item.declarators, fields, &base, signed)
}

/// Fields, and behind them members of this type; the flag says that it is written with `signed`.
#[cycle(elab)]
fn members(
    alloc: Global,
    scope: &mut Scope,
    list: &[MemberDeclarator],
    fields: Vec<Field>,
    base: &QType,
    signed: bool,
) -> Result<Vec<Field>, Refusal>
    ensures { Gives (λ v. (map field_of v.items, scope_of scope.new)) result (members_in (members_from no_more_members list.now) (map field_of fields.items) (qty_of base.now) signed (scope_of scope.old)) }
{
    let mut all = fields;
    for item in list {
        let field = a_member(alloc, scope, item, base, signed)?;
        all.push(field)?;
    }
    Ok(all)
}

/// One member.
#[cycle(elab)]
fn a_member(
    alloc: Global,
    scope: &mut Scope,
    item: &MemberDeclarator,
    base: &QType,
    signed: bool,
) -> Result<Field, Refusal>
    ensures { Gives (λ f. (field_of f, scope_of scope.new)) result (a_member_of item.now (qty_of base.now) signed (scope_of scope.old)) }
{
    let (name, ty) = member_type(alloc, scope, &item.declarator, base)?;
    let width = value_in(alloc, scope, &item.width)?;
    field(name, ty, signed, width, item.pos)
}

/// The name and the type of a member, which has no name where it is a bit-field without one.
#[cycle(elab)]
fn member_type(
    alloc: Global,
    scope: &mut Scope,
    item: &Option<Declarator>,
    base: &QType,
) -> Result<(Option<Name>, QType), Refusal>
    ensures { Gives (λ x. ((x.0, qty_of x.1), scope_of scope.new)) result (member_in (maybe_declarator item.now) (qty_of base.now) (scope_of scope.old)) }
{
    match item {
        None => Ok((None, base.copy(alloc)?)),
        Some(item) => {
            let (name, list) = parts(alloc, scope, item, false)?;
            let ty = shaped(alloc, scope.types(), base, item, &list)?;
            Ok((name, ty))
        }
    }
}

/// The name of a declarator, and its parts from the name outward. The flag says that it is of a
/// function definition: the block of the parameters next to the name then stays open.
#[cycle(elab)]
pub fn parts(
    alloc: Global,
    scope: &mut Scope,
    item: &Declarator,
    defines: bool,
) -> Result<(Option<Name>, Vec<Part>), Refusal>
    ensures { Gives (λ x. ((x.0, map part_of x.1.items), scope_of scope.new)) result (parts_in (declarator_of item.now) defines (scope_of scope.old)) }
{
    let pos = item.pos;
    match &item.kind {
        DeclaratorKind::Abstract => Ok((None, Vec::new(alloc))),
        DeclaratorKind::Name(name) => Ok((Some(*name), Vec::new(alloc))),
        DeclaratorKind::Paren(inner) | DeclaratorKind::Calling(_, inner) => {
            parts(alloc, scope, inner, defines)
        }
        DeclaratorKind::Pointer(is_const, is_volatile, inner) => {
            let (name, before) = parts(alloc, scope, inner, defines)?;
            let all = with_part(before, Part::Pointer(*is_const, *is_volatile))?;
            Ok((name, all))
        }
        DeclaratorKind::Array(inner, None) => {
            let (name, before) = parts(alloc, scope, inner, defines)?;
            let all = with_part(before, Part::Array(None, pos))?;
            Ok((name, all))
        }
        DeclaratorKind::Array(inner, Some(size)) => {
            let (name, before) = parts(alloc, scope, inner, defines)?;
            let e = expression(alloc, scope, size)?;
            let value = value_of(&e, size)?;
            let size = array_count(value, pos)?;
            let all = with_part(before, Part::Array(Some(size), pos))?;
            Ok((name, all))
        }
        DeclaratorKind::Function(inner, params) => {
            let (name, before) = parts(alloc, scope, inner, defines)?;
            let stays = defines && is_first(&before);
            let formals = formals(alloc, scope, params, stays)?;
            let all = with_part(before, Part::Function(formals, pos))?;
            Ok((name, all))
        }
    }
}

/// What stands between the parentheses of a function declarator. The names of a prototype's
/// parameters are of a block of their own (C90 6.1.2.1), which the flag leaves open.
#[cycle(elab)]
fn formals(
    alloc: Global,
    scope: &mut Scope,
    params: &Params,
    stays: bool,
) -> Result<Formals, Refusal>
    ensures { Gives (λ x. (formals_of x, scope_of scope.new)) result (formals_in (params_of params.now) stays (scope_of scope.old)) }
{
    match params {
        Params::Empty => Ok(Formals::Unknown),
        Params::Names(names) => Ok(Formals::Names(Vec::from_slice(alloc, names)?)),
        Params::Types(list, variadic) => {
            let objects = object_count(scope);
            scope.open(false)?;
            let sole = is_single(list, *variadic);
            let (formals, _) = prototype(alloc, scope, list, sole)?;
            leave(scope, stays, objects);
            Ok(Formals::Types(without_void(alloc, formals), *variadic))
        }
    }
}

/// The parameters of a prototype, and their bytes; the flag says that there is one alone.
#[cycle(elab)]
fn prototype(
    alloc: Global,
    scope: &mut Scope,
    params: &[Param],
    sole: bool,
) -> Result<(Vec<Formal>, u32), Refusal>
    ensures { Gives (λ x. ((map formal_of x.0.items, x.1), scope_of scope.new)) result (prototype_in (params_from no_more_params params.now) sole (scope_of scope.old)) }
{
    let mut formals = Vec::new(alloc);
    let mut bytes: u32 = 0;
    for param in params {
        let formal = parameter(alloc, scope, param, sole)?;
        bytes = more_bytes(scope.types(), bytes, &formal)?;
        formals.push(formal)?;
    }
    Ok((formals, bytes))
}

/// One parameter.
#[cycle(elab)]
fn parameter(alloc: Global, scope: &mut Scope, param: &Param, sole: bool) -> Result<Formal, Refusal>
    ensures { Gives (λ f. (formal_of f, scope_of scope.new)) result (parameter_of param.now sole (scope_of scope.old)) }
{
    let item = &param.declarator;
    let (storage, base) = specifiers(alloc, scope, &param.specifiers, false)?;
    let is_register = param_storage(storage, &param.specifiers)?;
    let (name, list) = parts(alloc, scope, item, false)?;
    let ty = shaped(alloc, scope.types(), &base, item, &list)?;
    formal(alloc, scope, name, ty, is_register, sole, name_place(item))
}
