// Whether two types are compatible (C90 6.1.2.6): no pair of tags that they lead to differs.
ghost use Rattle.std.specs.Prelude.{◌≡◌, ◌<◌, ◌^◌, ℕ, true, length, map, option_map, option_copied, slice_get, IfOk, IfErr, OnOk};
ghost use Rattle.c65_base.specs.declared.refusal.Refusal.TheVariants.{OutOfMemory};
ghost use Rattle.c65_ctype.specs.Views.{qty_of, member_of, layout_of, tag_of, types_of};
ghost use Rattle.c65_ctype.specs.Compatible.{met, members_meet, layouts_meet, tags_meet, next_pairs, each, agrees, are_compatible, AreCompatible};
ghost use Rattle.c65_ctype.specs.Visited.{has_pair, with_one, with_new};

use crate::compat::{Pairs, one_meets, qualified_meet};
use crate::table::Types;
use crate::types::{Layout, Member, QType, Tag};
use c65_base::Refusal;
use std::alloc::AllocError;

/// Adds the pairs of tags in which members meet. False where they differ.
fn members_meet(a: &[Member], b: &[Member], pairs: &mut Pairs) -> Result<bool, AllocError>
    ensures { IfOk result (λ same. met same pairs.new.items ≡ members_meet pairs.old.items (map member_of a.now) (map member_of b.now)) }
{
    for (i, member) in a.iter().enumerate() {
        let Some(other) = b.get(i) else {
            return Ok(false);
        };
        if !one_meets(member, other, pairs)? {
            return Ok(false);
        }
    }
    Ok(a.len() == b.len())
}

/// Adds the pairs of tags in which layouts meet. One that is not there differs from none.
fn layouts_meet(
    a: &Option<Layout>,
    b: &Option<Layout>,
    pairs: &mut Pairs,
) -> Result<bool, AllocError>
    ensures { IfOk result (λ same. met same pairs.new.items ≡ layouts_meet pairs.old.items (option_map layout_of a.now) (option_map layout_of b.now)) }
{
    match (a, b) {
        (Some(a), Some(b)) => {
            if a.is_union == b.is_union && a.size == b.size {
                members_meet(&a.members, &b.members, pairs)
            } else {
                Ok(false)
            }
        }
        _ => Ok(true),
    }
}

/// Adds the pairs of tags in which tags of two units meet. Two tags of one unit differ.
fn tags_meet(a: Option<&Tag>, b: Option<&Tag>, pairs: &mut Pairs) -> Result<bool, AllocError>
    ensures { IfOk result (λ same. met same pairs.new.items ≡ tags_meet pairs.old.items (option_map tag_of (option_copied a.entry)) (option_map tag_of (option_copied b.entry))) }
{
    match (a, b) {
        (Some(a), Some(b)) => {
            if a.unit == b.unit {
                Ok(false)
            } else {
                layouts_meet(&a.layout, &b.layout, pairs)
            }
        }
        _ => Ok(false),
    }
}

fn has_pair(pairs: &[(u32, u32)], pair: (u32, u32)) -> bool
    ensures { result ≡ has_pair pairs.now pair }
{
    for other in pairs {
        if other.0 == pair.0 && other.1 == pair.1 {
            return true;
        }
    }
    false
}

fn pair_at(pairs: &[(u32, u32)], i: usize) -> (u32, u32)
    requires { i < length pairs.now }
    ensures { slice_get pairs.now i ≡ Some result }
{
    pairs[i]
}

fn add_one(seen: &mut Pairs, pair: (u32, u32)) -> Result<(), AllocError>
    ensures { OnOk result (seen.new.items ≡ with_one seen.old.items pair) }
{
    if !has_pair(seen, pair) {
        seen.push(pair)?;
    }
    Ok(())
}

/// Adds the pairs that are not there yet.
fn add_new(seen: &mut Pairs, found: &[(u32, u32)]) -> Result<(), AllocError>
    ensures { OnOk result (seen.new.items ≡ with_new seen.old.items found.now) }
{
    for pair in found {
        add_one(seen, *pair)?;
    }
    Ok(())
}

impl Types {
    fn tag_at(&self, tag: u32) -> Option<&Tag>
        ensures { option_map tag_of (option_copied result) ≡ slice_get (types_of self.now).tags tag }
    {
        self.table.tags.get(tag as usize)
    }

    /// The pairs of tags to which a pair leads; none where it differs.
    fn next_pairs(&self, s: u32, t: u32) -> Result<Option<Pairs>, AllocError>
        ensures { IfOk result (λ o. option_map (λ v. v.items) o ≡ next_pairs (types_of self.now) (s, t)) }
    {
        let mut pairs = Vec::new(self.alloc);
        if s == t {
            return Ok(Some(pairs));
        }
        if tags_meet(self.tag_at(s), self.tag_at(t), &mut pairs)? {
            Ok(Some(pairs))
        } else {
            Ok(None)
        }
    }

    /// Whether no pair to which these lead differs.
    fn all_agree(&self, first: Pairs) -> Result<bool, AllocError>
        ensures exact { IfOk result (λ same. same ≡ each (agrees (types_of self.now) (2 ^ 64)) first.items) }
        ensures always { IfOk result (λ same. same ≡ true → (n : ℕ) → each (agrees (types_of self.now) n) first.items ≡ true) }
    {
        let mut seen = first;
        let mut i: usize = 0;
        while i < seen.as_slice().len() {
            let known = seen.as_slice();
            let (s, t) = pair_at(known, i);
            let Some(found) = self.next_pairs(s, t)? else {
                return Ok(false);
            };
            let new = found.as_slice();
            add_new(&mut seen, new)?;
            i += 1;
        }
        Ok(true)
    }

    /// Whether two types are compatible. Refuses for want of memory alone.
    pub fn compatible(&self, a: &QType, b: &QType) -> Result<bool, Refusal>
        ensures exact { IfOk result (λ same. same ≡ are_compatible (types_of self.now) (qty_of a.now) (qty_of b.now)) }
        ensures always { IfOk result (λ same. same ≡ true → AreCompatible (types_of self.now) (qty_of a.now) (qty_of b.now)) }
        ensures refused { IfErr result (λ e. e ≡ OutOfMemory) }
    {
        let mut pairs = Vec::new(self.alloc);
        if !qualified_meet(a, b, &mut pairs)? {
            return Ok(false);
        }
        Ok(self.all_agree(pairs)?)
    }
}
