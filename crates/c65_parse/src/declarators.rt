// What a token does where a declarator is begun or goes on (C90 6.5.4, 6.5.5).
ghost use Rattle.std.specs.Prelude.{◌≡◌, IfOk};
ghost use Rattle.c65_tree.specs.View.{type_of, declarator_of, specifiers_of};
ghost use Rattle.c65_parse_trees.specs.Lists.{listed_of};
ghost use Rattle.c65_parse.specs.Declarators;
ghost use Rattle.c65_parse.specs.Declarators.{close_group, with_type, open_group, declares, with_param, with_params, close_param, close_member_declarator, close_declarator, declarator_end, without_name, declarator_step};
ghost use Rattle.c65_parse.specs.Views.{frame_of, stack_of, held_of, next_of, members_part_of, params_part_of};

use crate::frame::{
    Change, Derivation, Done, Frame, Held, MembersPart, Open, Operation, ParamsPart, Sort, Step,
    TypeUse,
};
use crate::operands::{after_member, enter, go, has_room};
use c65_base::{Name, Pos};
use c65_parse_trees::{MeasuredDeclarator, MeasuredExpr, MeasuredSpecifiers, MeasuredType, Sign};
use c65_tree::push_last;
use std::alloc::{AllocError, Global};

/// The declarator behind its suffixes. What stands before it is taken off.
fn reduce_declarator(
    alloc: Global,
    d: MeasuredDeclarator,
    frames: &mut Vec<Frame>,
) -> Result<MeasuredDeclarator, AllocError>
    ensures { IfOk result (λ x. Declarators.reduce_declarator (declarator_of d.declarator) (stack_of frames.old.items) ≡ (declarator_of x.declarator, stack_of frames.new.items)) }
{
    let mut d = d;
    while let Some(frame) = frames.pop() {
        if !frame.is_derived() {
            return match push_last(frames, frame) {
                Ok(()) => Ok(d),
                Err(error) => {
                    drop(d);
                    Err(error)
                }
            };
        }
        d = frame.plug_declarator(alloc, d)?;
    }
    Ok(d)
}

fn after_group(
    alloc: Global,
    frames: Vec<Frame>,
    pos: Pos,
    d: MeasuredDeclarator,
    sign: Sign,
) -> Result<Step, AllocError>
    ensures { IfOk result (λ n. next_of n ≡ close_group pos (declarator_of d.declarator) (stack_of frames.items) sign) }
{
    match sign {
        Sign::Close => {
            let d = MeasuredDeclarator::grouped(alloc, pos, d)?;
            Ok(go(frames, Held::Declared(d)))
        }
        _ => Ok(Step::fail((frames, d))),
    }
}

fn with_type(
    alloc: Global,
    frames: Vec<Frame>,
    pos: Pos,
    purpose: TypeUse,
    t: MeasuredType,
) -> Result<Step, AllocError>
    ensures { IfOk result (λ n. next_of n ≡ with_type pos purpose (type_of t.name) (stack_of frames.items)) }
{
    match purpose {
        TypeUse::Cast => {
            let frame = Frame::Operation(Operation::Cast(pos, t));
            enter(frames, frame, Held::Operand)
        }
        TypeUse::Sizeof => {
            let e = MeasuredExpr::sizeof_type(alloc, pos, t)?;
            Ok(go(frames, Held::Expr(e)))
        }
    }
}

fn declaration(name: Option<Name>, is_typedef: bool) -> Change
    ensures { result ≡ declares name is_typedef }
{
    match name {
        Some(name) => Change::Declare(name, is_typedef),
        None => Change::Nothing,
    }
}

impl ParamsPart {
    /// With one more parameter.
    pub fn with(
        self,
        specifiers: MeasuredSpecifiers,
        declarator: MeasuredDeclarator,
    ) -> Result<ParamsPart, AllocError>
        ensures { IfOk result (λ r. params_part_of r ≡ with_param (params_part_of self) (specifiers_of specifiers.specifiers) (declarator_of declarator.declarator)) }
    {
        match self.params.with(specifiers, declarator) {
            Ok(params) => Ok(ParamsPart {
                pos: self.pos,
                declarator: self.declarator,
                params,
            }),
            Err(error) => {
                drop(self.declarator);
                Err(error)
            }
        }
    }

    /// The function declarator at the end of its parameters; the flag says that `...` ends them.
    pub fn end(self, alloc: Global, more: bool) -> Result<MeasuredDeclarator, AllocError>
        ensures { IfOk result (λ r. declarator_of r.declarator ≡ with_params (params_part_of self) more) }
    {
        let params = self.params.end(more);
        MeasuredDeclarator::function(alloc, self.pos, self.declarator, params)
    }
}

/// Behind a parameter, which is declared there.
#[tactic(auto, unfolding(crate::specs::Declarators::close_param))]
fn after_param(
    alloc: Global,
    frames: Vec<Frame>,
    part: ParamsPart,
    specifiers: MeasuredSpecifiers,
    d: MeasuredDeclarator,
    sign: Sign,
) -> Result<Step, AllocError>
    ensures { IfOk result (λ n. next_of n ≡ close_param (params_part_of part) (listed_of specifiers) (declarator_of d.declarator) (stack_of frames.items) sign) }
{
    match sign {
        Sign::Comma => {
            let change = declaration(d.name, specifiers.is_typedef);
            let held = Held::MoreParams(part.with(specifiers, d)?);
            Ok(Step::Go(Open { frames, held }, change))
        }
        Sign::Close => {
            let part = part.with(specifiers, d)?;
            let held = Held::Declared(part.end(alloc, false)?);
            Ok(Step::Go(Open { frames, held }, Change::Close))
        }
        _ => Ok(Step::fail((frames, part, (specifiers, d)))),
    }
}

/// Behind a member's declarator.
#[tactic(auto, unfolding(crate::specs::Declarators::close_member_declarator))]
fn after_member_declarator(
    frames: Vec<Frame>,
    part: MembersPart,
    first: Pos,
    d: MeasuredDeclarator,
    sign: Sign,
) -> Result<Step, AllocError>
    ensures { IfOk result (λ n. next_of n ≡ close_member_declarator (members_part_of part) first (declarator_of d.declarator) (stack_of frames.items) sign) }
{
    match sign {
        Sign::Colon => enter(frames, Frame::Width(part, first, Some(d)), Held::Operand),
        _ => {
            let part = part.with_declarator(first, d)?;
            after_member(frames, part, sign)
        }
    }
}

/// Behind a whole declarator.
#[tactic(auto, unfolding(crate::specs::Declarators::close_declarator))]
fn close(
    alloc: Global,
    frames: Vec<Frame>,
    d: MeasuredDeclarator,
    sign: Sign,
) -> Result<Step, AllocError>
    ensures { IfOk result (λ n. next_of n ≡ close_declarator (declarator_of d.declarator) (stack_of frames.items) sign) }
{
    let mut frames = frames;
    let innermost = frames.pop();
    match innermost {
        None => Ok(Step::Stop(Done::Declarator(d))),
        Some(Frame::Group(pos)) => after_group(alloc, frames, pos, d, sign),
        Some(Frame::TypeDeclarator(pos, purpose, specifiers)) => match sign {
            Sign::Close => with_type(
                alloc,
                frames,
                pos,
                purpose,
                MeasuredType::new(specifiers, d),
            ),
            _ => Ok(Step::fail((frames, specifiers, d))),
        },
        Some(Frame::Param(part, specifiers)) => {
            after_param(alloc, frames, part, specifiers, d, sign)
        }
        Some(Frame::Member(part, first)) => {
            after_member_declarator(frames, part, first, d, sign)
        }
        Some(Frame::Operation(_))
        | Some(Frame::Paren(_))
        | Some(Frame::Index(_, _))
        | Some(Frame::Call(_, _, _))
        | Some(Frame::Then(_, _))
        | Some(Frame::Bound(_, _))
        | Some(Frame::Width(_, _, _))
        | Some(Frame::Value(_, _, _))
        | Some(Frame::Type(_, _))
        | Some(Frame::Members(_))
        | Some(Frame::Params(_))
        | Some(Frame::Derived(_, _)) => Ok(Step::fail((frames, innermost, d))),
    }
}

/// Behind a direct declarator.
#[tactic(auto, unfolding(crate::specs::Declarators::declarator_end))]
pub fn after_declarator(
    alloc: Global,
    limit: u16,
    frames: Vec<Frame>,
    d: MeasuredDeclarator,
    pos: Pos,
    sign: Sign,
) -> Result<Step, AllocError>
    ensures { IfOk result (λ n. next_of n ≡ declarator_end limit (declarator_of d.declarator) (stack_of frames.items) pos sign) }
{
    let fits = d.fits(frames.len(), limit);
    match sign {
        Sign::OpenBracket => {
            if fits {
                Ok(go(frames, Held::OpenedBound(pos, d)))
            } else {
                Ok(Step::deep((frames, d)))
            }
        }
        Sign::Open => {
            if fits {
                Ok(go(frames, Held::OpenedParams(pos, d)))
            } else {
                Ok(Step::deep((frames, d)))
            }
        }
        _ => {
            let mut frames = frames;
            let d = reduce_declarator(alloc, d, &mut frames)?;
            close(alloc, frames, d, sign)
        }
    }
}

#[tactic(auto, unfolding(crate::specs::Declarators::without_name))]
fn unnamed(
    alloc: Global,
    limit: u16,
    frames: Vec<Frame>,
    is_optional: bool,
    pos: Pos,
    sign: Sign,
) -> Result<Step, AllocError>
    ensures { IfOk result (λ n. next_of n ≡ without_name limit is_optional (stack_of frames.items) pos sign) }
{
    if is_optional {
        after_declarator(
            alloc,
            limit,
            frames,
            MeasuredDeclarator::nameless(pos),
            pos,
            sign,
        )
    } else {
        Ok(Step::Fail)
    }
}

fn group(frames: Vec<Frame>, sort: Sort, pos: Pos) -> Result<Step, AllocError>
    ensures { IfOk result (λ n. next_of n ≡ open_group sort (stack_of frames.items) pos) }
{
    if sort.is_optional() {
        Ok(go(frames, Held::OpenedDeclarator(pos, sort)))
    } else {
        enter(frames, Frame::Group(pos), Held::Declarator(sort))
    }
}

/// A declarator is needed.
#[tactic(auto, unfolding(crate::specs::Declarators::declarator_step))]
pub fn declarator(
    alloc: Global,
    limit: u16,
    frames: Vec<Frame>,
    sort: Sort,
    pos: Pos,
    sign: Sign,
) -> Result<Step, AllocError>
    ensures { IfOk result (λ n. next_of n ≡ declarator_step limit sort (stack_of frames.items) pos sign) }
{
    let fits = has_room(limit, &frames, 2);
    match sign {
        Sign::Star | Sign::Calling(_) | Sign::Open if !fits => Ok(Step::Deep),
        Sign::Star => Ok(go(frames, Held::Qualifiers(pos, false, false, sort))),
        Sign::Calling(cdecl) => {
            let frame = Frame::Derived(pos, Derivation::Calling(cdecl));
            enter(frames, frame, Held::Declarator(sort))
        }
        Sign::Open => group(frames, sort, pos),
        Sign::Name(name, is_type) if sort.takes_name(is_type) => {
            let d = MeasuredDeclarator::named(pos, name);
            Ok(go(frames, Held::Declared(d)))
        }
        _ => unnamed(alloc, limit, frames, sort.is_optional(), pos, sign),
    }
}
