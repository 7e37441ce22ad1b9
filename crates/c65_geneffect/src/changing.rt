// How a number is changed where it lies, where its value is not used (C90 6.3.2.4, 6.3.3.1, 6.3.16).
ghost use Rattle.std.specs.Prelude.{◌≡◌};
ghost use Rattle.c65_csem.specs.Views.{typed_of};
ghost use Rattle.c65_genexpr.specs.Direct.{is_pure};
ghost use Rattle.c65_genexpr.specs.Operating.{takes_bytes};
ghost use Rattle.c65_genexpr.specs.Places.{place_of};
ghost use Rattle.c65_geneffect.specs.Changing.{in_front, step_by, stepping_of, counting, loaded_by, computed_by, changing_of, number_in, fill_by, filling_of, ChangesFree, FillsFree};

use c65_base::{BinaryOp, StepKind};
use c65_csem::{TExpr, TKind};
use c65_genchange::{Change, Spot, Target, all_counted, step_op, target_of};
use c65_genexpr::{Form, Operands, constant_in, constant_right, is_pure, place_of, residue_of};
use c65_genframe::Frame;
use c65_genload::{Access, Place, first, second};

/// How an assignment with an operator changes its left side.
#[derive(Clone, Copy)]
pub enum Changing {
    /// By a constant.
    Fixed(Change),
    /// By the right side, whose value comes to AX before.
    Loaded(Change),
    /// By a constant: the value comes to the primary register, and back.
    Computed(Form),
    /// As where the value is used.
    Otherwise,
}

/// A number whose two bytes are the same, and where they go.
#[derive(Clone, Copy, Debug, PartialEq, Eq)]
pub struct Fill {
    pub byte: u8,
    pub low: Spot,
    pub high: Spot,
}

/// The step in front that changes a number as a step does.
pub fn in_front(how: StepKind) -> StepKind
    ensures { result ≡ in_front how }
{
    match how {
        StepKind::PreInc | StepKind::PostInc => StepKind::PreInc,
        StepKind::PreDec | StepKind::PostDec => StepKind::PreDec,
    }
}

fn counting(how: StepKind, target: Target) -> Change
    ensures { result ≡ counting how target }
{
    match how {
        StepKind::PreInc | StepKind::PostInc => Change::Up(target),
        StepKind::PreDec | StepKind::PostDec => Change::Down(target),
    }
}

/// How a step by so many bytes changes what is kept at a place, if it has one or two bytes.
pub fn stepping_of(how: StepKind, size: u32, place: Place, access: Access) -> Option<Change>
    ensures { result ≡ stepping_of how size place access }
{
    let target = target_of(place, access)?;
    Some(if size == 1 && all_counted(target) {
        counting(how, target)
    } else {
        Change::Number(step_op(how), size, target)
    })
}

fn takes_bytes(op: BinaryOp) -> bool
    ensures { result ≡ takes_bytes op }
{
    match op {
        BinaryOp::Add | BinaryOp::Sub | BinaryOp::BitAnd | BinaryOp::BitXor | BinaryOp::BitOr =>
            true,
        _ => false,
    }
}

// The right side comes to AX first: it changes nothing, and the place needs no address.
fn loaded_by(op: BinaryOp, size: u32, place: Place, b: &TExpr, target: Target) -> Changing
    ensures { result ≡ loaded_by (is_pure (typed_of b.now)) op size place target }
{
    match place {
        Place::Far(_) => Changing::Otherwise,
        Place::Bank(_) | Place::Near(_) | Place::Data(_, _) => {
            if is_pure(b) && size == 1 {
                Changing::Loaded(Change::Operand(op, target))
            } else {
                Changing::Otherwise
            }
        }
    }
}

// By a constant, where the place needs no address and the operator takes it as it is.
fn computed_by(
    op: BinaryOp,
    operands: Operands,
    place: Place,
    access: Access,
    b: &TExpr,
) -> Changing
    ensures { result ≡ computed_by op operands place access (typed_of b.now) }
{
    match (place, access) {
        (Place::Far(_), _) | (_, Access::Part(_)) => Changing::Otherwise,
        (_, Access::Whole(_)) => match constant_right(op, operands, b) {
            Some(form) => Changing::Computed(form),
            None => Changing::Otherwise,
        },
    }
}

fn form_of(
    op: BinaryOp,
    operands: Operands,
    size: u32,
    frame: &Frame<'_>,
    pushed: u16,
    access: Access,
    a: &TExpr,
    b: &TExpr,
) -> Changing
    ensures { result ≡ changing_of op operands size (place_of frame.now pushed (typed_of a.now)) access (typed_of b.now) }
{
    let place = place_of(frame, pushed, a);
    if !takes_bytes(op) {
        return computed_by(op, operands, place, access, b);
    }
    match target_of(place, access) {
        None => computed_by(op, operands, place, access, b),
        Some(target) => match constant_in(b) {
            Some(z) => {
                let number = residue_of(z) as u64 * size as u64 % 0x1_0000_0000;
                Changing::Fixed(Change::Number(op, number as u32, target))
            }
            None => loaded_by(op, size, place, b, target),
        },
    }
}

/// How an assignment with an operator changes what is kept at the place of its left side, where so many
/// bytes wait and an element has so many. A right side that is left out has no labels.
pub fn changing_of(
    op: BinaryOp,
    operands: Operands,
    size: u32,
    frame: &Frame<'_>,
    pushed: u16,
    access: Access,
    a: &TExpr,
    b: &TExpr,
) -> Changing
    ensures exact { result ≡ changing_of op operands size (place_of frame.now pushed (typed_of a.now)) access (typed_of b.now) }
    ensures free { ChangesFree result (typed_of b.now) }
{
    form_of(op, operands, size, frame, pushed, access, a, b)
}

/// A constant, or Null.
pub fn number_in(e: &TExpr) -> Option<u32>
    ensures { result ≡ number_in (typed_of e.now) }
{
    match &e.kind {
        TKind::Const(z) => Some(residue_of(*z)),
        TKind::Null => Some(0),
        _ => None,
    }
}

fn fill_by(number: u32, target: Target) -> Option<Fill>
    ensures { result ≡ fill_by number target }
{
    match target {
        Target::Byte(_) => None,
        Target::Word(low, high) => {
            if first(number) == second(number) {
                let byte = first(number);
                Some(Fill { byte, low, high })
            } else {
                None
            }
        }
    }
}

fn filling_by(frame: &Frame<'_>, pushed: u16, access: Access, a: &TExpr, b: &TExpr) -> Option<Fill>
    ensures { result ≡ filling_of (place_of frame.now pushed (typed_of a.now)) access (typed_of b.now) }
{
    let place = place_of(frame, pushed, a);
    match place {
        Place::Far(_) => None,
        Place::Bank(_) | Place::Near(_) | Place::Data(_, _) => {
            fill_by(number_in(b)?, target_of(place, access)?)
        }
    }
}

/// What an assignment of a number fills with one byte, if it does. Its right side has no labels then.
pub fn filling_of(
    frame: &Frame<'_>,
    pushed: u16,
    access: Access,
    a: &TExpr,
    b: &TExpr,
) -> Option<Fill>
    ensures exact { result ≡ filling_of (place_of frame.now pushed (typed_of a.now)) access (typed_of b.now) }
    ensures free { FillsFree result (typed_of b.now) }
{
    filling_by(frame, pushed, access, a, b)
}
