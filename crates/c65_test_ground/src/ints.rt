// Values at the edges of the eight types, by arithmetic on whole numbers.
ghost use Rattle.c65_ints.specs.Ranges.{InRange};

use IntType::{Int, Long, SChar, Short, UChar, UInt, ULong, UShort};
use c65_ints::{IntType, add, convert, div, mul, rem, shl, shr, sub, wrap};

#[test]
fn types_have_their_ranges(rt: HostRuntime) {
    let rows: [(IntType, u32, i64, i64); 8] = [
        (SChar, 1, -128, 127),
        (UChar, 1, 0, 255),
        (Short, 2, -32_768, 32_767),
        (UShort, 2, 0, 65_535),
        (Int, 2, -32_768, 32_767),
        (UInt, 2, 0, 65_535),
        (Long, 4, -2_147_483_648, 2_147_483_647),
        (ULong, 4, 0, 4_294_967_295),
    ];
    for (ty, size, least, greatest) in rows {
        assert!(rt; has_range(ty, size, least, greatest), "range of {ty:?}");
        assert!(rt; wraps_at_ends(ty, least, greatest), "ends of {ty:?}");
    }
    assert_eq!(rt; wrap(ULong, -1), 4_294_967_295);
    assert_eq!(rt; wrap(SChar, i64::MIN + 200), -56);
}

fn has_range(ty: IntType, size: u32, least: i64, greatest: i64) -> bool {
    ty.size() == size
        && ty.width() == 8 * size
        && ty.is_signed() == (least < 0)
        && ty.modulus() == greatest.saturating_sub(least).saturating_add(1)
        && ty.least() == least
        && ty.greatest() == greatest
}

fn wraps_at_ends(ty: IntType, least: i64, greatest: i64) -> bool {
    let above = greatest.saturating_add(1);
    let below = least.saturating_sub(1);
    ty.holds(least)
        && !ty.holds(below)
        && ty.holds(greatest)
        && !ty.holds(above)
        && wrap(ty, above) == least
        && wrap(ty, below) == greatest
}

#[test]
fn sums_wrap(rt: HostRuntime) {
    let rows = [
        (Int, 32_767, 1, -32_768, 32_766, 32_767),
        (UInt, 65_535, 1, 0, 65_534, 65_535),
        (SChar, -128, -1, 127, -127, -128),
        (UChar, 0, 255, 255, 1, 0),
        (Long, -2_147_483_648, -2_147_483_648, 0, 0, 0),
        (ULong, 4_294_967_295, 4_294_967_295, 4_294_967_294, 0, 1),
        (Short, 300, 300, 600, 0, 24_464),
        (UShort, 300, 300, 600, 0, 24_464),
    ];
    for (ty, a, b, sum, difference, product) in rows {
        assert!(rt; ty.holds(a) && ty.holds(b), "{ty:?} {a} {b}");
        let made = results(ty, a, b);
        assert!(rt;
            made == (sum, difference, product, wrap(SChar, a)),
            "{ty:?} {a} {b}"
        );
    }
}

fn results(ty: IntType, a: i64, b: i64) -> (i64, i64, i64, i64)
    requires a { InRange ty a }
    requires b { InRange ty b }
{
    (
        add(ty, a, b),
        sub(ty, a, b),
        mul(ty, a, b),
        convert(ty, SChar, a),
    )
}

#[test]
fn quotients_are_cut(rt: HostRuntime) {
    let rows = [
        (Int, -7, 2, Some(-3), Some(-1)),
        (Int, 7, -2, Some(-3), Some(1)),
        (Int, -32_768, -1, Some(-32_768), Some(0)),
        (Long, -2_147_483_648, -1, Some(-2_147_483_648), Some(0)),
        (SChar, -128, -1, Some(-128), Some(0)),
        (UChar, 255, 16, Some(15), Some(15)),
        (UShort, 65_535, 65_535, Some(1), Some(0)),
        (Short, -1, 32_767, Some(0), Some(-1)),
        (UInt, 1, 0, None, None),
        (ULong, 4_294_967_295, 7, Some(613_566_756), Some(3)),
    ];
    for (ty, a, b, quotient, remainder) in rows {
        assert!(rt; ty.holds(a) && ty.holds(b), "{ty:?} {a} {b}");
        let made = div(ty, a, b) == quotient && rem(ty, a, b) == remainder;
        assert!(rt; made, "{ty:?} {a} / {b}");
    }
}

#[test]
fn shifts_move_bits(rt: HostRuntime) {
    let rows = [
        (Int, 1, 15, Some(-32_768), Some(0)),
        (Int, -3, 1, Some(-6), Some(-2)),
        (Int, 1, 16, None, None),
        (UInt, 65_535, 15, Some(32_768), Some(1)),
        (Short, -32_768, 15, Some(0), Some(-1)),
        (UShort, 1, -1, None, None),
        (SChar, -128, 7, Some(0), Some(-1)),
        (UChar, 255, 8, None, None),
        (Long, -1, 31, Some(-2_147_483_648), Some(-1)),
        (ULong, 4_294_967_295, 31, Some(2_147_483_648), Some(1)),
        (ULong, 1, 32, None, None),
    ];
    for (ty, a, count, left, right) in rows {
        assert!(rt; ty.holds(a), "{ty:?} {a}");
        let made = shl(ty, a, count) == left && shr(ty, a, count) == right;
        assert!(rt; made, "{ty:?} {a} shifted by {count}");
    }
}
