// The tags of a unit, or of the units of a program.
ghost use Rattle.std.specs.Prelude.{◌≡◌, ◌≤◌, length, map, option_map, option_copied, Ok, None, Some, IfOk, IfErr, OnOk, OnErr};
ghost use Rattle.c65_base.specs.declared.refusal.Refusal.TheVariants.{OutOfMemory};
ghost use Rattle.c65_base.specs.Answers.{Fails};
ghost use Rattle.c65_ctype.specs.Views.{layout_of, field_of, types_of};
ghost use Rattle.c65_ctype.specs.Tables.{layout_at, no_tags, IsLaid};
ghost use Rattle.c65_ctype.specs.Tags.{with_tag, kind_of, finished, laid_out, IsUnfinished};
ghost use Rattle.c65_ctype.specs.Raised.{appended};

use crate::raise::raised_tags;
use crate::types::{Field, Layout, Tag, TagTable};
use c65_base::Refusal;
use std::alloc::Global;
use std::marker::Model;

/// The structures and unions of a unit, or of the units of a program that were put together.
#[derive(Drop)]
pub struct Types {
    pub(crate) table: TagTable,
    pub(crate) alloc: Global,
}

impl Model for Types {
    ghost use Rattle.c65_ctype.specs.declared.types.TagTable.{TagTable};

    ghost Value = { TagTable };

    ghost use Rattle.c65_ctype.specs.contracts.types.CType as ty;
    ghost use Rattle.std.specs.Coded.{codes};

    ghost coded = { Prim.hlevel (codes, ty.the_row.coded) };

    ghost use Rattle.c65_ctype.specs.Views.{types_of};
    ghost use Rattle.c65_ctype.specs.Tables.{IsTable};

    ghost view = { λ t. t.table };

    ghost invariant = { λ t. IsTable (types_of t.table) };
}

impl Types {
    /// No tags, for a first unit. It takes no memory.
    pub fn new(alloc: Global) -> Types
        ensures { types_of result ≡ no_tags }
    {
        let table = TagTable {
            tags: Vec::new(alloc),
            units: 1,
        };
        Types { table, alloc }
    }

    /// The layout of a tag; none where the tag is unfinished or is not there.
    pub fn get(&self, tag: u32) -> Option<&Layout>
        ensures { option_map layout_of (option_copied result) ≡ layout_at (types_of self.now) tag }
    {
        match self.table.tags.get(tag as usize) {
            Some(found) => found.layout.as_ref(),
            None => None,
        }
    }

    /// Whether a tag is that of a union; none where it is not there.
    pub fn kind(&self, tag: u32) -> Option<bool>
        ensures { result ≡ kind_of (types_of self.now) tag }
    {
        match self.table.tags.get(tag as usize) {
            Some(found) => Some(found.is_union),
            None => None,
        }
    }

    /// Adds a tag of the newest unit.
    fn add(&mut self, is_union: bool, layout: Option<Layout>) -> Result<u32, Refusal>
        requires { IsLaid (option_map layout_of layout) }
        ensures tag { IfOk result (λ tag. tag ≡ length (types_of self.old).tags) }
        ensures ok { OnOk result (types_of self.new ≡ with_tag (types_of self.old) is_union (option_map layout_of layout)) }
        ensures refused { IfErr result (λ e. e ≡ OutOfMemory) }
        ensures kept { OnErr result (types_of self.new ≡ types_of self.old) }
    {
        let number = self.table.tags.len();
        if number > 0xffff_ffff {
            return Err(Refusal::OutOfMemory);
        }
        self.table.tags.push(Tag {
            unit: self.table.units - 1,
            is_union,
            layout,
        })?;
        Ok(number as u32)
    }

    /// A new tag of the newest unit, which is not finished.
    pub fn open_tag(&mut self, is_union: bool) -> Result<u32, Refusal>
        ensures tag { IfOk result (λ tag. tag ≡ length (types_of self.old).tags) }
        ensures ok { OnOk result (types_of self.new ≡ with_tag (types_of self.old) is_union None) }
        ensures unfinished { IfOk result (λ tag. IsUnfinished (types_of self.new) tag) }
        ensures refused { IfErr result (λ e. e ≡ OutOfMemory) }
        ensures kept { OnErr result (types_of self.new ≡ types_of self.old) }
    {
        let tag = self.add(is_union, None)?;
        Ok(tag)
    }

    /// Gives an unfinished tag of this table its layout (C90 6.5.2.1). Refuses `BitField`,
    /// `MemberTwice` and `IncompleteType` at the place of their member, and `Members` and
    /// `Object`; the tag then stays unfinished.
    pub fn finish(&mut self, tag: u32, fields: Vec<Field>) -> Result<(), Refusal>
        requires { IsUnfinished (types_of self.old) tag }
        ensures ok { OnOk result (finished (types_of self.old) tag (map field_of fields.items) ≡ Ok (types_of self.new)) }
        ensures refused { IfErr result (λ e. Fails e (finished (types_of self.old) tag (map field_of fields.items))) }
        ensures kept { OnErr result (types_of self.new ≡ types_of self.old) }
    {
        let is_union = self.table.tags[tag as usize].is_union;
        let layout = self.layout_for(is_union, fields)?;
        let found = &mut self.table.tags[tag as usize];
        found.layout = Some(layout);
        Ok(())
    }

    /// A new tag of the newest unit, finished at once. Refuses as `finish` does.
    pub fn layout(&mut self, is_union: bool, fields: Vec<Field>) -> Result<u32, Refusal>
        ensures tag { IfOk result (λ tag. tag ≡ length (types_of self.old).tags) }
        ensures ok { OnOk result (laid_out (types_of self.old) is_union (map field_of fields.items) ≡ Ok (types_of self.new)) }
        ensures refused { IfErr result (λ e. Fails e (laid_out (types_of self.old) is_union (map field_of fields.items))) }
        ensures kept { OnErr result (types_of self.new ≡ types_of self.old) }
    {
        let layout = self.layout_for(is_union, fields)?;
        self.add(is_union, Some(layout))
    }

    /// Puts the tags of a later table behind those that are there, as tags of later units, and
    /// answers the number by which each of them is raised, also inside types.
    pub fn append(&mut self, later: Types) -> Result<u32, Refusal>
        ensures by { IfOk result (λ by. by ≡ length (types_of self.old).tags) }
        ensures ok { OnOk result (types_of self.new ≡ appended (types_of self.old) (types_of later)) }
        ensures refused { IfErr result (λ e. e ≡ OutOfMemory) }
        ensures kept { OnErr result (types_of self.new ≡ types_of self.old) }
    {
        let number = self.table.tags.len();
        let Some(units) = self.table.units.checked_add(later.table.units) else {
            return Err(Refusal::OutOfMemory);
        };
        if number > 0xffff_ffff {
            return Err(Refusal::OutOfMemory);
        }
        let by = number as u32;
        let mut tags = raised_tags(self.alloc, &later.table.tags, by, self.table.units)?;
        self.table.tags.append(&mut tags)?;
        self.table.units = units;
        Ok(by)
    }
}
