// Sizes of types.
ghost use Rattle.std.specs.Prelude.{◌≡◌, ◌≤◌, IfOk};
ghost use Rattle.c65_base.specs.Answers.{Gives};
ghost use Rattle.c65_base.specs.Limits.{limit_of};
ghost use Rattle.c65_base.specs.declared.refusal.Size.TheVariants as sizes;
ghost use Rattle.c65_ctype.specs.Views.{ty_of, types_of};
ghost use Rattle.c65_ctype.specs.Sizes.{size_at, elements, bytes_of};

use crate::table::Types;
use crate::types::CType;
use c65_base::{Code, Pos, Refusal, Size};
use c65_ints::IntType;

/// The bytes of an integer type.
fn bytes(ty: IntType) -> u32
    ensures exact { result ≡ bytes_of ty }
    ensures small { result ≤ 4 }
{
    match ty {
        IntType::SChar | IntType::UChar => 1,
        IntType::Short | IntType::UShort | IntType::Int | IntType::UInt => 2,
        IntType::Long | IntType::ULong => 4,
    }
}

/// The bytes of so many elements.
fn array_size(pos: Pos, count: Option<u32>, size: u32) -> Result<u32, Refusal>
    ensures exact { Gives (λ n. n) result (elements pos count size) }
    ensures small { IfOk result (λ n. n ≤ limit_of sizes.Object) }
{
    let Some(count) = count else {
        return Err(Refusal::fault(Code::IncompleteType, pos));
    };
    let total = size as u64 * count as u64;
    if total > Size::Object.number() {
        return Err(Refusal::TooLarge {
            limit: Size::Object,
            value: total,
        });
    }
    Ok(total as u32)
}

impl Types {
    /// The bytes of a type whose size is needed at `pos` (C90 6.3.3.4). Refuses `IncompleteType`
    /// where it has none, and `Object` where it, or a type that it is an array of, has more than
    /// 65,535 bytes. It takes no memory.
    pub fn size(&self, ty: &CType, pos: Pos) -> Result<u32, Refusal>
        ensures exact { Gives (λ n. n) result (size_at (types_of self.now) pos (ty_of ty.now)) }
        ensures small { IfOk result (λ n. n ≤ limit_of sizes.Object) }
    {
        let _ = &self.table;
        match ty {
            CType::Void | CType::Function(_) => Err(Refusal::fault(Code::IncompleteType, pos)),
            CType::Int(int) => Ok(bytes(*int)),
            CType::Pointer(_) => Ok(2),
            CType::Array(element, count) => {
                let size = self.size(&element.ty, pos)?;
                array_size(pos, *count, size)
            }
            CType::Struct(tag) => match self.get(*tag) {
                Some(layout) => Ok(layout.size),
                None => Err(Refusal::fault(Code::IncompleteType, pos)),
            },
        }
    }
}
