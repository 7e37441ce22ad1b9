// What a token does where an expression is begun or goes on (C90 6.3).
ghost use Rattle.std.specs.Prelude.{◌≡◌, ◌≤◌, ◌∷◌, IfOk};
ghost use Rattle.c65_tree.specs.Trees.{no_exprs, an_expr, no_expr, a_declarator};
ghost use Rattle.c65_tree.specs.View.{expr_of, declarator_of, exprs_from};
ghost use Rattle.c65_parse_trees.specs.Optional.{option_declarator};
ghost use Rattle.c65_parse.specs.Leaves.{leaf_tree};
ghost use Rattle.c65_parse_trees.specs.Signs.{prefix_of, infix_of};
ghost use Rattle.c65_parse_trees.specs.Listings.{with_enum};
ghost use Rattle.c65_parse_trees.specs.Lists.{listing_of};
ghost use Rattle.c65_parse.specs.Expressions;
ghost use Rattle.c65_parse.specs.Expressions.{goes, has_room, leaf_of, names_type, begin_by, operand_step, extend_by, expr_step, close_paren, close_index, close_call, close_then, close_bound, close_member, close_enumerator, with_member, with_decl, with_enumerator};
ghost use Rattle.c65_parse.specs.Views.{frame_of, stack_of, held_of, next_of, members_part_of, body_of, enum_part_of};

use crate::frame::{
    Body, Change, Done, EnumPart, Frame, Held, MembersPart, Open, Operation, Step, with_frame,
};
use c65_base::{Name, Pos, StepKind};
use c65_parse_trees::{Listing, MeasuredDeclarator, MeasuredExpr, MeasuredExprs, Sign};
use c65_scan::{Token, TokenKind};
use c65_tree::{Specifier, push_last};
use std::alloc::{AllocError, Global};

/// The reading goes on.
pub fn go(frames: Vec<Frame>, held: Held) -> Step
    ensures { next_of result ≡ goes (stack_of frames.items) (held_of held) }
{
    Step::Go(Open { frames, held }, Change::Nothing)
}

/// The reading goes on with one more construct open.
pub fn enter(frames: Vec<Frame>, frame: Frame, held: Held) -> Result<Step, AllocError>
    ensures { IfOk result (λ n. next_of n ≡ goes (frame_of frame ∷ stack_of frames.items) (held_of held)) }
{
    match with_frame(frames, frame) {
        Ok(frames) => Ok(go(frames, held)),
        Err(error) => {
            drop(held);
            Err(error)
        }
    }
}

/// Whether a tree of this depth has room in what is open.
pub fn has_room(limit: u16, frames: &[Frame], depth: usize) -> bool
    ensures { result ≡ Expressions.has_room limit (stack_of frames.now) depth }
{
    let limit = limit as usize;
    depth <= limit && frames.len() <= limit - depth
}

fn is_type_name(sign: Sign) -> bool
    ensures { result ≡ names_type sign }
{
    matches!(sign, Sign::Name(_, true))
}

/// The token as a whole expression.
fn leaf(alloc: Global, token: &Token, is_type: bool) -> Result<Option<MeasuredExpr>, AllocError>
    ensures { IfOk result (λ r. leaf_tree r ≡ leaf_of token.now is_type) }
{
    match &token.kind {
        TokenKind::Name(name) => {
            if is_type {
                Ok(None)
            } else {
                Ok(Some(MeasuredExpr::name(token.pos, *name)))
            }
        }
        TokenKind::Number(ty, value) => Ok(Some(MeasuredExpr::number(token.pos, *ty, *value))),
        TokenKind::Text(bytes) => {
            let text = MeasuredExpr::text(alloc, token.pos, bytes)?;
            Ok(Some(text))
        }
        TokenKind::Keyword(_) | TokenKind::Punct(_) | TokenKind::End => Ok(None),
    }
}

fn begin(limit: u16, frames: Vec<Frame>, pos: Pos, sign: Sign) -> Result<Step, AllocError>
    ensures { IfOk result (λ n. next_of n ≡ begin_by limit (stack_of frames.items) pos sign (prefix_of sign)) }
{
    let fits = has_room(limit, &frames, 2);
    if let Some(op) = sign.before() {
        if !fits {
            return Ok(Step::Deep);
        }
        let frame = Frame::Operation(Operation::Prefix(pos, op));
        return enter(frames, frame, Held::Operand);
    }
    Ok(match sign {
        Sign::Sizeof if fits => go(frames, Held::Sizeof(pos)),
        Sign::Open if fits => go(frames, Held::Opened(pos)),
        Sign::Sizeof | Sign::Open => Step::Deep,
        _ => Step::Fail,
    })
}

/// An operand is needed.
#[tactic(auto, unfolding(crate::specs::Expressions::operand_step))]
pub fn operand(
    alloc: Global,
    limit: u16,
    frames: Vec<Frame>,
    token: &Token,
    sign: Sign,
) -> Result<Step, AllocError>
    ensures { IfOk result (λ n. next_of n ≡ operand_step limit (stack_of frames.items) token.now sign) }
{
    match leaf(alloc, token, is_type_name(sign))? {
        Some(e) => {
            if has_room(limit, &frames, 1) {
                Ok(go(frames, Held::Expr(e)))
            } else {
                Ok(Step::deep((frames, e)))
            }
        }
        None => begin(limit, frames, token.pos, sign),
    }
}

/// The least level that the innermost place takes.
pub fn hole(frames: &[Frame], least: u32) -> u32
    ensures { result ≡ Expressions.hole least (stack_of frames.now) }
{
    match frames.last() {
        Some(frame) => frame.hole(),
        None => least,
    }
}

/// The expression before a token that goes on to this level. The operations that it ends are taken off.
fn reduce(
    alloc: Global,
    rank: u32,
    e: MeasuredExpr,
    frames: &mut Vec<Frame>,
) -> Result<MeasuredExpr, AllocError>
    ensures { IfOk result (λ x. Expressions.reduce rank (expr_of e.expr) (stack_of frames.old.items) ≡ (expr_of x.expr, stack_of frames.new.items)) }
{
    let mut e = e;
    while let Some(frame) = frames.pop() {
        if !frame.ends(rank) {
            return match push_last(frames, frame) {
                Ok(()) => Ok(e),
                Err(error) => {
                    drop(e);
                    Err(error)
                }
            };
        }
        e = frame.plug(alloc, e)?;
    }
    Ok(e)
}

#[tactic(auto, unfolding(crate::specs::Expressions::extend_by))]
fn extend(
    alloc: Global,
    frames: Vec<Frame>,
    e: MeasuredExpr,
    pos: Pos,
    sign: Sign,
) -> Result<Step, AllocError>
    ensures { IfOk result (λ n. next_of n ≡ extend_by (infix_of sign) (expr_of e.expr) (stack_of frames.items) pos sign) }
{
    if let Some(op) = sign.between() {
        let frame = Frame::Operation(Operation::Right(pos, op, e));
        return enter(frames, frame, Held::Operand);
    }
    match sign {
        Sign::Open => Ok(go(frames, Held::Called(pos, e))),
        Sign::OpenBracket => enter(frames, Frame::Index(pos, e), Held::Operand),
        Sign::Member(arrow) => Ok(go(frames, Held::Dotted(pos, arrow, e))),
        Sign::Step(down) => {
            let how = if down {
                StepKind::PostDec
            } else {
                StepKind::PostInc
            };
            let e = MeasuredExpr::step(alloc, pos, how, e)?;
            Ok(go(frames, Held::Expr(e)))
        }
        Sign::Question => enter(frames, Frame::Then(pos, e), Held::Operand),
        _ => Ok(Step::fail((frames, e))),
    }
}

fn after_paren(
    alloc: Global,
    frames: Vec<Frame>,
    pos: Pos,
    e: MeasuredExpr,
    sign: Sign,
) -> Result<Step, AllocError>
    ensures { IfOk result (λ n. next_of n ≡ close_paren pos (expr_of e.expr) (stack_of frames.items) sign) }
{
    match sign {
        Sign::Close => {
            let e = MeasuredExpr::paren(alloc, pos, e)?;
            Ok(go(frames, Held::Expr(e)))
        }
        _ => Ok(Step::fail((frames, e))),
    }
}

fn after_index(
    alloc: Global,
    frames: Vec<Frame>,
    pos: Pos,
    a: MeasuredExpr,
    e: MeasuredExpr,
    sign: Sign,
) -> Result<Step, AllocError>
    ensures { IfOk result (λ n. next_of n ≡ close_index pos (expr_of a.expr) (expr_of e.expr) (stack_of frames.items) sign) }
{
    match sign {
        Sign::CloseBracket => {
            let e = MeasuredExpr::index(alloc, pos, a, e)?;
            Ok(go(frames, Held::Expr(e)))
        }
        _ => Ok(Step::fail((frames, a, e))),
    }
}

fn after_argument(
    alloc: Global,
    frames: Vec<Frame>,
    pos: Pos,
    f: MeasuredExpr,
    arguments: MeasuredExprs,
    sign: Sign,
) -> Result<Step, AllocError>
    ensures { IfOk result (λ n. next_of n ≡ close_call pos (expr_of f.expr) (exprs_from no_exprs arguments.exprs.items) (stack_of frames.items) sign) }
{
    match sign {
        Sign::Close => {
            let e = MeasuredExpr::call(alloc, pos, f, arguments)?;
            Ok(go(frames, Held::Expr(e)))
        }
        Sign::Comma => enter(frames, Frame::Call(pos, f, arguments), Held::Operand),
        _ => Ok(Step::fail((frames, f, arguments))),
    }
}

fn after_then(
    frames: Vec<Frame>,
    pos: Pos,
    c: MeasuredExpr,
    e: MeasuredExpr,
    sign: Sign,
) -> Result<Step, AllocError>
    ensures { IfOk result (λ n. next_of n ≡ close_then pos (expr_of c.expr) (expr_of e.expr) (stack_of frames.items) sign) }
{
    match sign {
        Sign::Colon => {
            let frame = Frame::Operation(Operation::Else(pos, c, e));
            enter(frames, frame, Held::Operand)
        }
        _ => Ok(Step::fail((frames, c, e))),
    }
}

fn after_bound(
    alloc: Global,
    frames: Vec<Frame>,
    pos: Pos,
    d: MeasuredDeclarator,
    e: MeasuredExpr,
    sign: Sign,
) -> Result<Step, AllocError>
    ensures { IfOk result (λ n. next_of n ≡ close_bound pos (declarator_of d.declarator) (expr_of e.expr) (stack_of frames.items) sign) }
{
    match sign {
        Sign::CloseBracket => {
            let d = MeasuredDeclarator::array(alloc, pos, d, e)?;
            Ok(go(frames, Held::Declared(d)))
        }
        _ => Ok(Step::fail((frames, d, e))),
    }
}

impl MembersPart {
    /// With one more member, which has a width.
    pub fn with_width(
        self,
        pos: Pos,
        declarator: Option<MeasuredDeclarator>,
        width: MeasuredExpr,
    ) -> Result<MembersPart, AllocError>
        ensures { IfOk result (λ r. members_part_of r ≡ with_member (members_part_of self) pos (option_declarator declarator) (an_expr (expr_of width.expr))) }
    {
        match self.members.with(pos, declarator, Some(width)) {
            Ok(members) => Ok(MembersPart {
                body: self.body,
                specifiers: self.specifiers,
                members,
            }),
            Err(error) => {
                drop((self.body, self.specifiers));
                Err(error)
            }
        }
    }

    /// With one more member, which has no width.
    pub fn with_declarator(
        self,
        pos: Pos,
        declarator: MeasuredDeclarator,
    ) -> Result<MembersPart, AllocError>
        ensures { IfOk result (λ r. members_part_of r ≡ with_member (members_part_of self) pos (a_declarator (declarator_of declarator.declarator)) no_expr) }
    {
        match self.members.with(pos, Some(declarator), None) {
            Ok(members) => Ok(MembersPart {
                body: self.body,
                specifiers: self.specifiers,
                members,
            }),
            Err(error) => {
                drop((self.body, self.specifiers));
                Err(error)
            }
        }
    }

    /// The body with this declaration.
    pub fn end(self) -> Result<Body, AllocError>
        ensures { IfOk result (λ r. body_of r ≡ with_decl (members_part_of self)) }
    {
        let body = self.body;
        match body.decls.with(self.specifiers, self.members) {
            Ok(decls) => Ok(Body {
                outer: body.outer,
                pos: body.pos,
                is_union: body.is_union,
                tag: body.tag,
                decls,
            }),
            Err(error) => {
                drop(body.outer);
                Err(error)
            }
        }
    }
}

impl EnumPart {
    /// With one more enumerator, which has a value.
    pub fn with_value(
        self,
        name: Name,
        pos: Pos,
        value: MeasuredExpr,
    ) -> Result<EnumPart, AllocError>
        ensures { IfOk result (λ r. enum_part_of r ≡ with_enumerator (enum_part_of self) name pos (an_expr (expr_of value.expr))) }
    {
        match self.enumerators.with(pos, name, Some(value)) {
            Ok(enumerators) => Ok(EnumPart {
                outer: self.outer,
                pos: self.pos,
                tag: self.tag,
                enumerators,
            }),
            Err(error) => {
                drop(self.outer);
                Err(error)
            }
        }
    }

    /// With one more enumerator, which has no value.
    pub fn with_name(self, name: Name, pos: Pos) -> Result<EnumPart, AllocError>
        ensures { IfOk result (λ r. enum_part_of r ≡ with_enumerator (enum_part_of self) name pos no_expr) }
    {
        match self.enumerators.with(pos, name, None) {
            Ok(enumerators) => Ok(EnumPart {
                outer: self.outer,
                pos: self.pos,
                tag: self.tag,
                enumerators,
            }),
            Err(error) => {
                drop(self.outer);
                Err(error)
            }
        }
    }

    /// The specifiers with this enumeration.
    pub fn end(self) -> Result<Listing, AllocError>
        ensures { IfOk result (λ r. listing_of r ≡ with_enum (enum_part_of self)) }
    {
        let depth = self.enumerators.depth.saturating_add(1);
        let specifier = Specifier::enumeration(self.pos, self.tag, self.enumerators.enumerators);
        self.outer.with(self.pos, specifier, depth, true, false)
    }
}

/// Behind a member.
#[tactic(auto, unfolding(crate::specs::Expressions::close_member))]
pub fn after_member(frames: Vec<Frame>, part: MembersPart, sign: Sign) -> Result<Step, AllocError>
    ensures { IfOk result (λ n. next_of n ≡ close_member (members_part_of part) (stack_of frames.items) sign) }
{
    match sign {
        Sign::Comma => Ok(go(frames, Held::Member(part))),
        Sign::Semicolon => {
            let body = part.end()?;
            Ok(go(frames, Held::MoreMembers(body)))
        }
        _ => Ok(Step::fail((frames, part))),
    }
}

/// Behind an enumerator, which is declared there.
#[tactic(auto, unfolding(crate::specs::Expressions::close_enumerator))]
pub fn after_enumerator(
    frames: Vec<Frame>,
    part: EnumPart,
    name: Name,
    sign: Sign,
) -> Result<Step, AllocError>
    ensures { IfOk result (λ n. next_of n ≡ close_enumerator (enum_part_of part) name (stack_of frames.items) sign) }
{
    let change = Change::Declare(name, false);
    let held = match sign {
        Sign::Comma => Held::Enumerator(part),
        Sign::CloseBrace => Held::Specifiers(part.end()?),
        _ => return Ok(Step::fail((frames, part))),
    };
    Ok(Step::Go(Open { frames, held }, change))
}

/// Behind a whole expression.
#[tactic(auto, unfolding(crate::specs::Expressions::close))]
fn close(alloc: Global, frames: Vec<Frame>, e: MeasuredExpr, sign: Sign) -> Result<Step, AllocError>
    ensures { IfOk result (λ n. next_of n ≡ Expressions.close (expr_of e.expr) (stack_of frames.items) sign) }
{
    let mut frames = frames;
    let innermost = frames.pop();
    match innermost {
        None => Ok(Step::Stop(Done::Expr(e))),
        Some(Frame::Paren(pos)) => after_paren(alloc, frames, pos, e, sign),
        Some(Frame::Index(pos, a)) => after_index(alloc, frames, pos, a, e, sign),
        Some(Frame::Call(pos, f, arguments)) => match arguments.with(e) {
            Ok(arguments) => after_argument(alloc, frames, pos, f, arguments, sign),
            Err(error) => {
                drop(f);
                Err(error)
            }
        },
        Some(Frame::Then(pos, c)) => after_then(frames, pos, c, e, sign),
        Some(Frame::Bound(pos, d)) => after_bound(alloc, frames, pos, d, e, sign),
        Some(Frame::Width(part, first, d)) => {
            let part = part.with_width(first, d, e)?;
            after_member(frames, part, sign)
        }
        Some(Frame::Value(part, name, pos)) => {
            let part = part.with_value(name, pos, e)?;
            after_enumerator(frames, part, name, sign)
        }
        Some(Frame::Operation(_))
        | Some(Frame::Type(_, _))
        | Some(Frame::TypeDeclarator(_, _, _))
        | Some(Frame::Members(_))
        | Some(Frame::Member(_, _))
        | Some(Frame::Params(_))
        | Some(Frame::Param(_, _))
        | Some(Frame::Group(_))
        | Some(Frame::Derived(_, _)) => Ok(Step::fail((frames, innermost, e))),
    }
}

/// Behind an expression.
#[tactic(auto, unfolding(crate::specs::Expressions::expr_step))]
pub fn after_expr(
    alloc: Global,
    least: u32,
    limit: u16,
    frames: Vec<Frame>,
    e: MeasuredExpr,
    pos: Pos,
    sign: Sign,
) -> Result<Step, AllocError>
    ensures { IfOk result (λ n. next_of n ≡ expr_step limit least (expr_of e.expr) (stack_of frames.items) pos sign) }
{
    let mut frames = frames;
    let e = reduce(alloc, sign.rank(), e, &mut frames)?;
    if e.level() < sign.left() || sign.rank() < hole(&frames, least) {
        return close(alloc, frames, e, sign);
    }
    if !e.fits(frames.len(), limit) {
        return Ok(Step::deep((frames, e)));
    }
    extend(alloc, frames, e, pos, sign)
}
