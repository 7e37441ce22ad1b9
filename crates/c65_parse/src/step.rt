// One step of a reading for each token.
ghost use Rattle.std.specs.Prelude.{◌≡◌, ◌++◌, ◌∷◌, [], IfOk};
ghost use Rattle.c65_tree.specs.View.{expr_of, declarator_of};
ghost use Rattle.c65_parse.specs.Machine;
ghost use Rattle.c65_parse.specs.Machine.{opened_step, sizeof_step, sizeof_opened_step, called_step, dotted_step, qualifiers_step, params_step, opened_declarator_step, opened_bound_step, opened_params_step, more_params_step, ellipsis_step, names_step, names_end_step, in_block};
ghost use Rattle.c65_parse_names.specs.Scopes.{is_type_in};
ghost use Rattle.c65_parse_names.specs.Blocks.{scope_of};
ghost use Rattle.c65_parse.specs.Views.{stack_of, held_of, next_of, params_part_of, names_part_of};

use crate::declarators::{after_declarator, declarator};
use crate::frame::{
    Change, Derivation, Frame, Held, NamesPart, Open, Operation, ParamsPart, Sort, Step, TypeUse,
    with_frame,
};
use crate::operands::{after_expr, go, hole, operand};
use crate::specifiers::{
    enumerator, enumerator_name, member, more_members, specifiers, tag, tag_name,
};
use c65_base::{Name, Pos};
use c65_parse_names::Scope;
use c65_parse_trees::{
    Listing, MeasuredDeclarator, MeasuredExpr, MeasuredExprs, MeasuredParams, ParamList, Prefix,
    Sign, Word,
};
use c65_scan::Token;
use c65_tree::push_last;
use std::alloc::{AllocError, Global};

/// Behind a parenthesis where an operand is needed.
#[tactic(auto, unfolding(crate::specs::Machine::opened_step))]
fn opened(
    alloc: Global,
    limit: u16,
    frames: Vec<Frame>,
    pos: Pos,
    token: &Token,
    sign: Sign,
) -> Result<Step, AllocError>
    ensures { IfOk result (λ n. next_of n ≡ opened_step limit pos (stack_of frames.items) token.now sign) }
{
    if !sign.begins_type() {
        let frames = with_frame(frames, Frame::Paren(pos))?;
        return operand(alloc, limit, frames, token, sign);
    }
    if hole(&frames, 0) > 13 {
        return Ok(Step::Fail);
    }
    let frames = with_frame(frames, Frame::Type(pos, TypeUse::Cast))?;
    specifiers(
        alloc,
        limit,
        frames,
        Listing::new(alloc, false),
        token.pos,
        sign,
    )
}

/// Behind `sizeof`.
#[tactic(auto, unfolding(crate::specs::Machine::sizeof_step))]
fn sizeof_word(
    alloc: Global,
    limit: u16,
    frames: Vec<Frame>,
    pos: Pos,
    token: &Token,
    sign: Sign,
) -> Result<Step, AllocError>
    ensures { IfOk result (λ n. next_of n ≡ sizeof_step limit pos (stack_of frames.items) token.now sign) }
{
    match sign {
        Sign::Open => Ok(go(frames, Held::SizeofOpened(pos, token.pos))),
        _ => {
            let operation = Operation::Prefix(pos, Prefix::Sizeof);
            let frames = with_frame(frames, Frame::Operation(operation))?;
            operand(alloc, limit, frames, token, sign)
        }
    }
}

/// Behind `sizeof` and a parenthesis.
#[tactic(auto, unfolding(crate::specs::Machine::sizeof_opened_step))]
fn sizeof_opened(
    alloc: Global,
    limit: u16,
    frames: Vec<Frame>,
    pos: Pos,
    paren: Pos,
    token: &Token,
    sign: Sign,
) -> Result<Step, AllocError>
    ensures { IfOk result (λ n. next_of n ≡ sizeof_opened_step limit pos paren (stack_of frames.items) token.now sign) }
{
    if sign.begins_type() {
        let frames = with_frame(frames, Frame::Type(pos, TypeUse::Sizeof))?;
        return specifiers(
            alloc,
            limit,
            frames,
            Listing::new(alloc, false),
            token.pos,
            sign,
        );
    }
    let operation = Operation::Prefix(pos, Prefix::Sizeof);
    let frames = with_frame(frames, Frame::Operation(operation))?;
    let frames = with_frame(frames, Frame::Paren(paren))?;
    operand(alloc, limit, frames, token, sign)
}

/// Behind the parenthesis of a call.
#[tactic(auto, unfolding(crate::specs::Machine::called_step))]
fn called(
    alloc: Global,
    limit: u16,
    frames: Vec<Frame>,
    pos: Pos,
    f: MeasuredExpr,
    token: &Token,
    sign: Sign,
) -> Result<Step, AllocError>
    ensures { IfOk result (λ n. next_of n ≡ called_step limit pos (expr_of f.expr) (stack_of frames.items) token.now sign) }
{
    let arguments = MeasuredExprs::new(alloc);
    match sign {
        Sign::Close => {
            let e = MeasuredExpr::call(alloc, pos, f, arguments)?;
            Ok(go(frames, Held::Expr(e)))
        }
        _ => {
            let frames = with_frame(frames, Frame::Call(pos, f, arguments))?;
            operand(alloc, limit, frames, token, sign)
        }
    }
}

/// Behind a dot or an arrow.
#[tactic(auto, unfolding(crate::specs::Machine::dotted_step))]
fn dotted(
    alloc: Global,
    frames: Vec<Frame>,
    pos: Pos,
    arrow: bool,
    e: MeasuredExpr,
    sign: Sign,
) -> Result<Step, AllocError>
    ensures { IfOk result (λ n. next_of n ≡ dotted_step pos arrow (expr_of e.expr) (stack_of frames.items) sign) }
{
    match sign {
        Sign::Name(name, _) => {
            let e = MeasuredExpr::member(alloc, pos, e, arrow, name)?;
            Ok(go(frames, Held::Expr(e)))
        }
        _ => Ok(Step::fail((frames, e))),
    }
}

/// A pointer's star, with its flags for `const` and `volatile`, before a declarator.
#[derive(Clone, Copy)]
struct Star {
    pos: Pos,
    constant: bool,
    volatile: bool,
}

/// Behind a star and qualifiers.
#[tactic(auto, unfolding(crate::specs::Machine::qualifiers_step))]
fn qualifiers(
    alloc: Global,
    limit: u16,
    frames: Vec<Frame>,
    star: Star,
    sort: Sort,
    pos: Pos,
    sign: Sign,
) -> Result<Step, AllocError>
    ensures { IfOk result (λ n. next_of n ≡ qualifiers_step limit star.pos star.constant star.volatile sort (stack_of frames.items) pos sign) }
{
    match sign {
        Sign::Word(Word::Const) => {
            let held = Held::Qualifiers(star.pos, true, star.volatile, sort);
            Ok(go(frames, held))
        }
        Sign::Word(Word::Volatile) => {
            let held = Held::Qualifiers(star.pos, star.constant, true, sort);
            Ok(go(frames, held))
        }
        _ => {
            let how = Derivation::Pointer(star.constant, star.volatile);
            let frames = with_frame(frames, Frame::Derived(star.pos, how))?;
            declarator(alloc, limit, frames, sort, pos, sign)
        }
    }
}

/// The step of the first parameter, in a block of its own.
fn with_block(step: Step) -> Step
    ensures { next_of result ≡ in_block (next_of step) }
{
    match step {
        Step::Go(next, _) => Step::Go(next, Change::Open),
        Step::Stop(done) => Step::Stop(done),
        Step::Deep => Step::Deep,
        Step::Fail => Step::Fail,
    }
}

/// Parameters begin.
#[tactic(auto, unfolding(crate::specs::Machine::params_step))]
fn params(
    alloc: Global,
    limit: u16,
    frames: Vec<Frame>,
    at: Pos,
    d: MeasuredDeclarator,
    pos: Pos,
    sign: Sign,
) -> Result<Step, AllocError>
    ensures { IfOk result (λ n. next_of n ≡ params_step limit at (declarator_of d.declarator) (stack_of frames.items) pos sign) }
{
    let part = ParamsPart {
        pos: at,
        declarator: d,
        params: ParamList::new(alloc),
    };
    let frames = with_frame(frames, Frame::Params(part))?;
    let step = specifiers(alloc, limit, frames, Listing::new(alloc, true), pos, sign)?;
    Ok(with_block(step))
}

/// Behind a parenthesis where a declarator is needed whose name may lack.
#[tactic(auto, unfolding(crate::specs::Machine::opened_declarator_step))]
fn opened_declarator(
    alloc: Global,
    limit: u16,
    frames: Vec<Frame>,
    at: Pos,
    sort: Sort,
    pos: Pos,
    sign: Sign,
) -> Result<Step, AllocError>
    ensures { IfOk result (λ n. next_of n ≡ opened_declarator_step limit at sort (stack_of frames.items) pos sign) }
{
    if matches!(sign, Sign::Close) {
        let nameless = MeasuredDeclarator::nameless(at);
        let d = MeasuredDeclarator::function(alloc, at, nameless, MeasuredParams::empty())?;
        return Ok(go(frames, Held::Declared(d)));
    }
    if sign.begins_specifiers() {
        return params(
            alloc,
            limit,
            frames,
            at,
            MeasuredDeclarator::nameless(at),
            pos,
            sign,
        );
    }
    let frames = with_frame(frames, Frame::Group(at))?;
    declarator(alloc, limit, frames, sort, pos, sign)
}

/// Behind the bracket of a bound.
#[tactic(auto, unfolding(crate::specs::Machine::opened_bound_step))]
fn opened_bound(
    alloc: Global,
    limit: u16,
    frames: Vec<Frame>,
    at: Pos,
    d: MeasuredDeclarator,
    token: &Token,
    sign: Sign,
) -> Result<Step, AllocError>
    ensures { IfOk result (λ n. next_of n ≡ opened_bound_step limit at (declarator_of d.declarator) (stack_of frames.items) token.now sign) }
{
    match sign {
        Sign::CloseBracket => {
            let d = MeasuredDeclarator::open_array(alloc, at, d)?;
            Ok(go(frames, Held::Declared(d)))
        }
        _ => {
            let frames = with_frame(frames, Frame::Bound(at, d))?;
            operand(alloc, limit, frames, token, sign)
        }
    }
}

/// The first name of an identifier list.
fn first_name(
    alloc: Global,
    at: Pos,
    d: MeasuredDeclarator,
    name: Name,
    pos: Pos,
) -> Result<NamesPart, AllocError>
    ensures { IfOk result (λ r. names_part_of r ≡ record { pos = at; declarator = declarator_of d.declarator; names = (name, pos) ∷ [] }) }
{
    let mut names = Vec::new(alloc);
    match push_last(&mut names, (name, pos)) {
        Ok(()) => Ok(NamesPart {
            pos: at,
            declarator: d,
            names,
        }),
        Err(error) => {
            drop(d);
            Err(error)
        }
    }
}

/// Behind the parenthesis of a function declarator.
#[tactic(auto, unfolding(crate::specs::Machine::opened_params_step))]
fn opened_params(
    alloc: Global,
    limit: u16,
    frames: Vec<Frame>,
    at: Pos,
    d: MeasuredDeclarator,
    pos: Pos,
    sign: Sign,
) -> Result<Step, AllocError>
    ensures { IfOk result (λ n. next_of n ≡ opened_params_step limit at (declarator_of d.declarator) (stack_of frames.items) pos sign) }
{
    match sign {
        Sign::Close => {
            let d = MeasuredDeclarator::function(alloc, at, d, MeasuredParams::empty())?;
            Ok(go(frames, Held::Declared(d)))
        }
        Sign::Name(name, false) => {
            if d.name.is_none() {
                return Ok(Step::fail((frames, d)));
            }
            let part = first_name(alloc, at, d, name, pos)?;
            Ok(go(frames, Held::NamesEnd(part)))
        }
        _ => {
            if sign.begins_specifiers() {
                params(alloc, limit, frames, at, d, pos, sign)
            } else {
                Ok(Step::fail((frames, d)))
            }
        }
    }
}

/// Behind a comma among parameters.
#[tactic(auto, unfolding(crate::specs::Machine::more_params_step))]
fn more_params(
    alloc: Global,
    limit: u16,
    frames: Vec<Frame>,
    part: ParamsPart,
    pos: Pos,
    sign: Sign,
) -> Result<Step, AllocError>
    ensures { IfOk result (λ n. next_of n ≡ more_params_step limit (params_part_of part) (stack_of frames.items) pos sign) }
{
    match sign {
        Sign::Ellipsis => Ok(go(frames, Held::Ellipsis(part))),
        _ => {
            let frames = with_frame(frames, Frame::Params(part))?;
            specifiers(alloc, limit, frames, Listing::new(alloc, true), pos, sign)
        }
    }
}

/// Behind `...`.
#[tactic(auto, unfolding(crate::specs::Machine::ellipsis_step))]
fn ellipsis(
    alloc: Global,
    frames: Vec<Frame>,
    part: ParamsPart,
    sign: Sign,
) -> Result<Step, AllocError>
    ensures { IfOk result (λ n. next_of n ≡ ellipsis_step (params_part_of part) (stack_of frames.items) sign) }
{
    match sign {
        Sign::Close => {
            let held = Held::Declared(part.end(alloc, true)?);
            Ok(Step::Go(Open { frames, held }, Change::Close))
        }
        _ => Ok(Step::fail((frames, part))),
    }
}

impl NamesPart {
    /// With one more name.
    fn with(self, name: Name, pos: Pos) -> Result<NamesPart, AllocError>
        ensures { IfOk result (λ r. names_part_of r ≡ record { pos = self.pos; declarator = declarator_of self.declarator.declarator; names = self.names.items ++ (name, pos) ∷ [] }) }
    {
        let mut names = self.names;
        match push_last(&mut names, (name, pos)) {
            Ok(()) => Ok(NamesPart {
                pos: self.pos,
                declarator: self.declarator,
                names,
            }),
            Err(error) => {
                drop(self.declarator);
                Err(error)
            }
        }
    }
}

/// A name of an identifier list is needed.
#[tactic(auto, unfolding(crate::specs::Machine::names_step))]
fn names(frames: Vec<Frame>, part: NamesPart, pos: Pos, sign: Sign) -> Result<Step, AllocError>
    ensures { IfOk result (λ n. next_of n ≡ names_step (names_part_of part) (stack_of frames.items) pos sign) }
{
    match sign {
        Sign::Name(name, false) => {
            let part = part.with(name, pos)?;
            Ok(go(frames, Held::NamesEnd(part)))
        }
        _ => Ok(Step::fail((frames, part))),
    }
}

/// Behind a name of an identifier list.
#[tactic(auto, unfolding(crate::specs::Machine::names_end_step))]
fn names_end(
    alloc: Global,
    frames: Vec<Frame>,
    part: NamesPart,
    sign: Sign,
) -> Result<Step, AllocError>
    ensures { IfOk result (λ n. next_of n ≡ names_end_step (names_part_of part) (stack_of frames.items) sign) }
{
    match sign {
        Sign::Comma => Ok(go(frames, Held::Names(part))),
        Sign::Close => {
            let params = MeasuredParams::names(part.names);
            let d = MeasuredDeclarator::function(alloc, part.pos, part.declarator, params)?;
            Ok(go(frames, Held::Declared(d)))
        }
        _ => Ok(Step::fail((frames, part))),
    }
}

/// What a token does to a reading of a tree. An expression that is read as a whole has at least the
/// level `least`.
#[tactic(auto, unfolding(crate::specs::Machine::step))]
pub fn take(
    alloc: Global,
    scope: &Scope,
    limit: u16,
    least: u32,
    reading: Open,
    token: &Token,
) -> Result<Step, AllocError>
    ensures { IfOk result (λ n. next_of n ≡ Machine.step limit least (scope_of scope.now) (stack_of reading.frames.items) (held_of reading.held) token.now) }
{
    let sign = Sign::of(scope, token);
    let pos = token.pos;
    let frames = reading.frames;
    match reading.held {
        Held::Operand => operand(alloc, limit, frames, token, sign),
        Held::Opened(at) => opened(alloc, limit, frames, at, token, sign),
        Held::Sizeof(at) => sizeof_word(alloc, limit, frames, at, token, sign),
        Held::SizeofOpened(at, paren) => sizeof_opened(
            alloc, limit, frames, at, paren, token, sign,
        ),
        Held::Called(at, f) => called(alloc, limit, frames, at, f, token, sign),
        Held::Dotted(at, arrow, e) => dotted(alloc, frames, at, arrow, e, sign),
        Held::Expr(e) => after_expr(alloc, least, limit, frames, e, pos, sign),
        Held::Specifiers(listing) => specifiers(alloc, limit, frames, listing, pos, sign),
        Held::Tag(part) => tag(alloc, limit, frames, part, sign),
        Held::TagName(part, name) => tag_name(alloc, limit, frames, part, name, pos, sign),
        Held::MoreMembers(body) => more_members(alloc, limit, frames, body, pos, sign),
        Held::Member(part) => member(alloc, limit, frames, part, pos, sign),
        Held::Enumerator(part) => Ok(enumerator(frames, part, pos, sign)),
        Held::EnumeratorName(part, name, at) => enumerator_name(
            limit, frames, part, name, at, sign,
        ),
        Held::Declarator(sort) => declarator(alloc, limit, frames, sort, pos, sign),
        Held::Qualifiers(at, constant, volatile, sort) => {
            let star = Star {
                pos: at,
                constant,
                volatile,
            };
            qualifiers(alloc, limit, frames, star, sort, pos, sign)
        }
        Held::OpenedDeclarator(at, sort) => {
            opened_declarator(alloc, limit, frames, at, sort, pos, sign)
        }
        Held::Declared(d) => after_declarator(alloc, limit, frames, d, pos, sign),
        Held::OpenedBound(at, d) => opened_bound(alloc, limit, frames, at, d, token, sign),
        Held::OpenedParams(at, d) => opened_params(alloc, limit, frames, at, d, pos, sign),
        Held::MoreParams(part) => more_params(alloc, limit, frames, part, pos, sign),
        Held::Ellipsis(part) => ellipsis(alloc, frames, part, sign),
        Held::Names(part) => names(frames, part, pos, sign),
        Held::NamesEnd(part) => names_end(alloc, frames, part, sign),
    }
}
