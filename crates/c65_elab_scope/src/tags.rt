// Structures and unions of a scope.
ghost use Rattle.std.specs.Prelude.{◌≡◌, IfErr, OnErr, OnOk, map};
ghost use Rattle.c65_base.specs.Answers.{Gives};
ghost use Rattle.c65_ctype.specs.Views.{field_of, types_of};
ghost use Rattle.c65_elab_scope.specs.Scopes.{scope_of};
ghost use Rattle.c65_elab_scope.specs.Declaring.{tag_opened, tag_finished};

use crate::scope::Scope;
use c65_base::{Code, Pos, Refusal};
use c65_ctype::Field;

impl Scope {
    /// A new structure or union without members yet, and its number. It refuses for memory alone.
    pub fn open_tag(&mut self, is_union: bool) -> Result<u32, Refusal>
        ensures { Gives (λ n. (n, scope_of self.new)) result (tag_opened (scope_of self.old) is_union) }
    {
        self.parts.types.open_tag(is_union)
    }

    /// Gives a structure or union its members (C90 6.5.2.1). Refuses `TagKind` at `pos` where it has
    /// some already, and as the layout of the members does.
    pub fn finish_tag(&mut self, tag: u32, fields: Vec<Field>, pos: Pos) -> Result<(), Refusal>
        ensures { Gives (λ x. scope_of self.new) result (tag_finished (scope_of self.old) tag (map field_of fields.items) pos) }
    {
        let types = &mut self.parts.types;
        if types.kind(tag).is_none() || types.get(tag).is_some() {
            return Err(Refusal::At {
                code: Code::TagKind,
                pos,
            });
        }
        types.finish(tag, fields)
    }
}
