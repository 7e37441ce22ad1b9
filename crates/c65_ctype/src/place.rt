// Where one member lies (C90 6.5.2.1).
ghost use Rattle.std.specs.Prelude.{◌≡◌, ◌≤◌, IfOk};
ghost use Rattle.c65_base.specs.Answers.{Gives};
ghost use Rattle.c65_base.specs.Limits.{limit_of};
ghost use Rattle.c65_base.specs.declared.refusal.Size.TheVariants as sizes;
ghost use Rattle.c65_ctype.specs.Places.{room, new_unit, structure_spot, union_spot, spot_for};

use c65_base::{Refusal, Size};

/// The byte where a member begins, and a bit-field's lowest bit and width.
#[derive(Clone, Copy)]
pub struct Spot {
    pub offset: u32,
    pub bits: Option<(u8, u8)>,
}

/// A unit of two bytes that holds bit-fields: where it begins, and how many of its bits are taken.
#[derive(Clone, Copy)]
pub struct BitUnit {
    pub offset: u32,
    pub used: u8,
}

/// The bytes so far, and the unit that is open.
#[derive(Clone, Copy)]
pub struct Cursor {
    pub end: u32,
    pub unit: Option<BitUnit>,
}

/// The spot of a member of so many more bytes at the end.
fn more_room(
    cursor: Cursor,
    more: u32,
    unit: Option<BitUnit>,
    spot: Spot,
) -> Result<(Spot, Cursor), Refusal>
    ensures exact { Gives (λ x. x) result (room cursor more unit spot) }
    ensures small { IfOk result (λ x. x.1.end ≤ limit_of sizes.Object) }
{
    let total = cursor.end as u64 + more as u64;
    if total > Size::Object.number() {
        return Err(Refusal::TooLarge {
            limit: Size::Object,
            value: total,
        });
    }
    let end = total as u32;
    Ok((spot, Cursor { end, unit }))
}

/// The first bit-field of a new unit.
fn in_new_unit(cursor: Cursor, width: u8) -> Result<(Spot, Cursor), Refusal>
    ensures exact { Gives (λ x. x) result (new_unit cursor width) }
    ensures small { IfOk result (λ x. x.1.end ≤ limit_of sizes.Object) }
{
    let offset = cursor.end;
    let unit = Some(BitUnit {
        offset,
        used: width,
    });
    let bits = Some((0, width));
    more_room(cursor, 2, unit, Spot { offset, bits })
}

/// The next member of a structure. Bit-fields fill a unit of 16 bits from its lowest bit; one that
/// does not fit begins the next unit, one of width 0 closes the unit, and so does any other member.
fn in_structure(cursor: Cursor, size: u32, width: Option<u8>) -> Result<(Spot, Cursor), Refusal>
    ensures exact { Gives (λ x. x) result (structure_spot cursor size width) }
    ensures small { IfOk result (λ x. x.1.end ≤ limit_of sizes.Object) }
{
    let offset = cursor.end;
    let Some(width) = width else {
        return more_room(cursor, size, None, Spot { offset, bits: None });
    };
    if width == 0 {
        let bits = Some((0, 0));
        return more_room(cursor, 0, None, Spot { offset, bits });
    }
    let Some(unit) = cursor.unit else {
        return in_new_unit(cursor, width);
    };
    let used = unit.used as u32 + width as u32;
    if used > 16 {
        return in_new_unit(cursor, width);
    }
    let open = Some(BitUnit {
        offset: unit.offset,
        used: used as u8,
    });
    let spot = Spot {
        offset: unit.offset,
        bits: Some((unit.used, width)),
    };
    more_room(cursor, 0, open, spot)
}

/// A member of a union: at its first byte, or in the lowest bits of its first unit.
fn in_union(cursor: Cursor, size: u32, width: Option<u8>) -> (Spot, Cursor)
    requires end { cursor.end ≤ limit_of sizes.Object }
    requires size { size ≤ limit_of sizes.Object }
    ensures exact { result ≡ union_spot cursor size width }
    ensures small { result.1.end ≤ limit_of sizes.Object }
{
    let bits = match width {
        None => None,
        Some(width) => Some((0, width)),
    };
    let own = match width {
        None => size,
        Some(0) => 0,
        Some(_) => 2,
    };
    let end = cursor.end.max(own);
    (Spot { offset: 0, bits }, Cursor { end, unit: None })
}

/// The next member of a structure or union.
pub fn next_spot(
    is_union: bool,
    cursor: Cursor,
    size: u32,
    width: Option<u8>,
) -> Result<(Spot, Cursor), Refusal>
    requires end { cursor.end ≤ limit_of sizes.Object }
    requires size { size ≤ limit_of sizes.Object }
    ensures exact { Gives (λ x. x) result (spot_for is_union cursor size width) }
    ensures small { IfOk result (λ x. x.1.end ≤ limit_of sizes.Object) }
{
    if is_union {
        Ok(in_union(cursor, size, width))
    } else {
        in_structure(cursor, size, width)
    }
}
