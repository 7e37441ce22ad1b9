// The layout of a structure or union (C90 6.5.2.1).
ghost use Rattle.std.specs.Prelude.{◌≡◌, ◌≤◌, IfOk, map, option_map};
ghost use Rattle.c65_base.specs.Answers.{Gives};
ghost use Rattle.c65_base.specs.Limits.{limit_of};
ghost use Rattle.c65_base.specs.declared.refusal.Size.TheVariants as sizes;
ghost use Rattle.c65_ctype.specs.Views.{ty_of, layout_of, member_of, field_of, types_of};
ghost use Rattle.c65_ctype.specs.Layouts.{is_bit_type, is_bit_width, bits_form, is_named, has_name, fresh, own_size, few, next_member, any_named, unnamed_at, layout_for};

use crate::place::{Cursor, next_spot};
use crate::table::Types;
use crate::types::{CType, Field, Layout, Member};
use c65_base::{Code, Name, Pos, Refusal, Size};
use c65_ints::IntType;

/// Whether bit-fields lie in this type.
fn is_bit_type(ty: &CType) -> bool
    ensures { result ≡ is_bit_type (ty_of ty.now) }
{
    match ty {
        CType::Int(IntType::Int) | CType::Int(IntType::UInt) => true,
        _ => false,
    }
}

/// Whether a bit-field may have this width.
fn is_bit_width(name: Option<Name>, width: u8) -> bool
    ensures { result ≡ is_bit_width name width }
{
    match name {
        None => width <= 16,
        Some(_) => 0 < width && width <= 16,
    }
}

/// Whether a member that is a bit-field may be one.
fn bits_form(field: &Field) -> Result<(), Refusal>
    ensures { Gives (λ x. tt) result (bits_form (field_of field.now) field.now.width) }
{
    match field.width {
        None => Ok(()),
        Some(width) => {
            if is_bit_type(&field.ty.ty) && is_bit_width(field.name, width) {
                Ok(())
            } else {
                Err(Refusal::fault(Code::BitField, field.pos))
            }
        }
    }
}

fn is_named(name: Name, member: &Member) -> bool
    ensures { result ≡ is_named name (member_of member.now).name }
{
    match member.name {
        None => false,
        Some(other) => other.0 == name.0,
    }
}

/// Whether one of the members has this name.
fn has_name(members: &[Member], name: Name) -> bool
    ensures { result ≡ has_name (map member_of members.now) name }
{
    for member in members {
        if is_named(name, member) {
            return true;
        }
    }
    false
}

/// No earlier member has the name of this one.
fn fresh(members: &[Member], pos: Pos, name: Option<Name>) -> Result<(), Refusal>
    ensures { Gives (λ x. tt) result (fresh (map member_of members.now) pos name) }
{
    match name {
        None => Ok(()),
        Some(name) => {
            if has_name(members, name) {
                Err(Refusal::fault(Code::MemberTwice, pos))
            } else {
                Ok(())
            }
        }
    }
}

/// There is room for one more member.
fn few(members: &[Member]) -> Result<(), Refusal>
    ensures { Gives (λ x. tt) result (few (map member_of members.now)) }
{
    if (members.len() as u64) < Size::Members.number() {
        Ok(())
    } else {
        Err(Refusal::TooLarge {
            limit: Size::Members,
            value: Size::Members.number() + 1,
        })
    }
}

fn any_named(fields: &[Field]) -> bool
    ensures { result ≡ any_named (map field_of fields.now) }
{
    for field in fields {
        if field.name.is_some() {
            return true;
        }
    }
    false
}

/// The place of the first member where none has a name.
fn unnamed_at(fields: &[Field]) -> Option<Pos>
    ensures { result ≡ unnamed_at (map field_of fields.now) }
{
    match fields.first() {
        None => None,
        Some(first) => {
            if any_named(fields) {
                None
            } else {
                Some(first.pos)
            }
        }
    }
}

impl Types {
    /// The bytes of a member's own type.
    fn own_size(&self, field: &Field) -> Result<u32, Refusal>
        ensures exact { Gives (λ n. n) result (own_size (types_of self.now) (field_of field.now) field.now.width) }
        ensures small { IfOk result (λ n. n ≤ limit_of sizes.Object) }
    {
        match field.width {
            None => self.size(&field.ty.ty, field.pos),
            Some(_) => Ok(2),
        }
    }

    /// The next member, behind these.
    fn next_member(
        &self,
        is_union: bool,
        members: &[Member],
        cursor: Cursor,
        field: Field,
    ) -> Result<(Member, Cursor), Refusal>
        requires { cursor.end ≤ limit_of sizes.Object }
        ensures exact { Gives (λ x. (member_of x.0, x.1)) result (next_member (types_of self.now) is_union (map member_of members.now) cursor (field_of field)) }
        ensures small { IfOk result (λ x. x.1.end ≤ limit_of sizes.Object) }
    {
        bits_form(&field)?;
        fresh(members, field.pos, field.name)?;
        let size = self.own_size(&field)?;
        few(members)?;
        let (spot, after) = next_spot(is_union, cursor, size, field.width)?;
        let member = Member {
            name: field.name,
            ty: field.ty,
            offset: spot.offset,
            bits: spot.bits,
        };
        Ok((member, after))
    }

    /// The layout of a structure or union of these members.
    pub(crate) fn layout_for(&self, is_union: bool, fields: Vec<Field>) -> Result<Layout, Refusal>
        ensures exact { Gives layout_of result (layout_for (types_of self.now) is_union (map field_of fields.items)) }
        ensures small { IfOk result (λ l. l.size ≤ limit_of sizes.Object) }
    {
        let unnamed = unnamed_at(&fields);
        let mut cursor = Cursor { end: 0, unit: None };
        let mut members = Vec::new(self.alloc);
        for field in fields {
            let (member, after) = self.next_member(is_union, &members, cursor, field)?;
            members.push(member)?;
            cursor = after;
        }
        match unnamed {
            Some(pos) => Err(Refusal::fault(Code::BitField, pos)),
            None => Ok(Layout {
                is_union,
                members,
                size: cursor.end,
            }),
        }
    }
}
