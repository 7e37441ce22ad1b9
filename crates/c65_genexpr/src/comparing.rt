// The form of a comparison (C90 6.3.8, 6.3.9).
ghost use Rattle.std.specs.Prelude.{◌≡◌, ◌&&◌};
ghost use Rattle.c65_csem.specs.Views.{typed_of};
ghost use Rattle.c65_genexpr.specs.Leaving.{ComparesFree, LowsPlain};
ghost use Rattle.c65_genexpr.specs.Direct.{direct_of, is_pure, is_byte};
ghost use Rattle.c65_genexpr.specs.Comparing.{relation_by, is_zero, tested_by, lowest, is_raised, raised, one_more, range_of, meeting, beside, is_read, compared_by, held_by, comparing_of};
ghost use Rattle.c65_genexpr.specs.Operating.{is_light};
ghost use Rattle.c65_genwide.specs.Wide.{width_of};

use crate::constants::residue_of;
use crate::direct::{direct_of, is_byte, is_fixed, is_pure, sides_of};
use crate::light::is_light;
use c65_code::Width;
use c65_csem::{TExpr, TKind};
use c65_gendirect::{Direct, OperandByte, Relation, Sides, byte_of};
use c65_genframe::Frame;
use c65_genwide::width_of;
use c65_ints::IntType;

/// One of the two sides.
#[derive(Clone, Copy)]
pub enum Side {
    Left,
    Right,
}

/// How two sides are compared.
#[derive(Clone, Copy)]
pub enum Comparing {
    /// The truth of a side, as the other one is 0.
    Truth(Side),
    /// The low byte of a side, which may be read where it lies, with such a byte.
    Byte(Side, Option<OperandByte>, Relation, OperandByte),
    /// A side in the primary register, signed or not, with bytes that are read where they lie.
    Whole(Side, Relation, bool, Sides),
    /// The left side waits in ptr2: how the right one, signed or not, stands to it.
    Held(Relation, bool),
    /// The same of the low bytes of both.
    HeldByte(Relation),
    /// The left side waits on the software stack.
    Stacked,
}

/// The relation that holds where a comparison has this truth.
pub fn relation_by(sense: bool, relation: Relation) -> Relation
    ensures { result ≡ relation_by sense relation }
{
    if sense { relation } else { relation.negated() }
}

fn is_zero(e: &TExpr) -> bool
    ensures { result ≡ is_zero (typed_of e.now) }
{
    match &e.kind {
        TKind::Const(z) => residue_of(*z) == 0,
        TKind::Null => true,
        _ => false,
    }
}

/// The sense in which the other side is tested, where this one is 0: what is equal to 0 is false.
pub fn tested_by(relation: Relation, e: &TExpr) -> Option<bool>
    ensures { result ≡ tested_by relation (typed_of e.now) }
{
    match relation {
        Relation::Equal if is_zero(e) => Some(false),
        Relation::Unequal if is_zero(e) => Some(true),
        _ => None,
    }
}

fn lowest(sides: Sides) -> OperandByte
    ensures { result ≡ lowest sides }
{
    match sides {
        Sides::Word(low, _) | Sides::Long(low, _, _, _) => low,
    }
}

// Whether a comparison with a number is made as one with the number behind it.
fn is_raised(relation: Relation, kind: IntType, direct: Direct) -> bool
    ensures { result ≡ is_raised relation kind direct }
{
    match (relation, direct) {
        (Relation::Greater | Relation::NotGreater, Direct::Number(number)) => {
            number != residue_of(kind.greatest())
        }
        (_, _) => false,
    }
}

fn raised(relation: Relation) -> Relation
    ensures { result ≡ raised relation }
{
    match relation {
        Relation::Greater => Relation::NotLess,
        Relation::NotGreater => Relation::Less,
        _ => relation,
    }
}

fn one_more(direct: Direct) -> Direct
    ensures { result ≡ one_more direct }
{
    match direct {
        Direct::Number(number) => Direct::Number(number.wrapping_add(1)),
        _ => direct,
    }
}

// The values of a side: a byte is compared as an unsigned char.
fn range_of(bytes: bool, kind: IntType) -> IntType
    ensures { result ≡ range_of bytes kind }
{
    if bytes { IntType::UChar } else { kind }
}

// A side, and the bytes of the other one.
fn meeting(
    side: Side,
    relation: Relation,
    bytes: bool,
    kind: IntType,
    first: Option<Direct>,
    sides: Option<Sides>,
) -> Comparing
    ensures { result ≡ meeting side relation bytes kind first sides }
{
    let Some(sides) = sides else {
        return Comparing::Stacked;
    };
    if bytes {
        let low = match first {
            Some(direct) => byte_of(direct, 0),
            None => None,
        };
        Comparing::Byte(side, low, relation, lowest(sides))
    } else {
        Comparing::Whole(side, relation, kind.is_signed(), sides)
    }
}

// A side, and the other one.
fn beside(
    side: Side,
    relation: Relation,
    bytes: bool,
    kind: IntType,
    first: Option<Direct>,
    other: Option<Direct>,
) -> Comparing
    ensures { result ≡ beside side relation bytes kind first other }
{
    let Some(other) = other else {
        return Comparing::Stacked;
    };
    let width = width_of(kind);
    if is_raised(relation, range_of(bytes, kind), other) {
        let sides = sides_of(width, one_more(other));
        meeting(side, raised(relation), bytes, kind, first, sides)
    } else {
        meeting(side, relation, bytes, kind, first, sides_of(width, other))
    }
}

fn is_read(kind: IntType, direct: Option<Direct>) -> bool
    ensures { result ≡ is_read kind direct }
{
    match direct {
        Some(direct) => sides_of(width_of(kind), direct).is_some(),
        None => false,
    }
}

// How two sides are compared in a type, none of which is 0: the sides change where the left one is read
// where it lies, and the right one leaves it as it is.
fn compared_by(
    frame: &Frame<'_>,
    pushed: u16,
    relation: Relation,
    kind: IntType,
    a: &TExpr,
    b: &TExpr,
) -> Comparing
    ensures { result ≡ compared_by relation (is_byte (typed_of a.now) && is_byte (typed_of b.now)) kind (is_pure (typed_of b.now)) (direct_of frame.now pushed (typed_of a.now)) (direct_of frame.now pushed (typed_of b.now)) }
{
    let left = direct_of(frame, pushed, a);
    let right = direct_of(frame, pushed, b);
    let bytes = is_byte(a) && is_byte(b);
    if is_fixed(left) || is_read(kind, left) && !is_read(kind, right) && is_pure(b) {
        beside(Side::Right, relation.mirrored(), bytes, kind, right, left)
    } else {
        beside(Side::Left, relation, bytes, kind, left, right)
    }
}

// No side is read: the left one waits in ptr2 where the right one is light.
fn held_by(
    frame: &Frame<'_>,
    pushed: u16,
    relation: Relation,
    kind: IntType,
    a: &TExpr,
    b: &TExpr,
) -> Comparing
    ensures { result ≡ held_by (is_light frame.now pushed (typed_of b.now)) (is_byte (typed_of a.now) && is_byte (typed_of b.now)) (width_of kind) relation kind }
{
    match width_of(kind) {
        Width::Ax if is_light(frame, pushed, b) => {
            if is_byte(a) && is_byte(b) {
                Comparing::HeldByte(relation.mirrored())
            } else {
                Comparing::Held(relation.mirrored(), kind.is_signed())
            }
        }
        _ => Comparing::Stacked,
    }
}

fn form_of(
    frame: &Frame<'_>,
    pushed: u16,
    relation: Relation,
    kind: IntType,
    a: &TExpr,
    b: &TExpr,
) -> Comparing
    ensures { result ≡ comparing_of frame.now pushed relation kind (typed_of a.now) (typed_of b.now) }
{
    if tested_by(relation, b).is_some() {
        Comparing::Truth(Side::Left)
    } else if tested_by(relation, a).is_some() {
        Comparing::Truth(Side::Right)
    } else {
        match compared_by(frame, pushed, relation, kind, a, b) {
            Comparing::Stacked => held_by(frame, pushed, relation, kind, a, b),
            how => how,
        }
    }
}

/// How two sides are compared in a type. A side that is left out has no labels; none is tested of which the low byte
/// alone is had.
pub fn comparing_of(
    frame: &Frame<'_>,
    pushed: u16,
    relation: Relation,
    kind: IntType,
    a: &TExpr,
    b: &TExpr,
) -> Comparing
    ensures exact { result ≡ comparing_of frame.now pushed relation kind (typed_of a.now) (typed_of b.now) }
    ensures free { ComparesFree result (tested_by relation (typed_of b.now)) (typed_of a.now) (tested_by relation (typed_of a.now)) (typed_of b.now) }
    ensures plain { LowsPlain result (tested_by relation (typed_of b.now)) (tested_by relation (typed_of a.now)) }
{
    form_of(frame, pushed, relation, kind, a, b)
}
