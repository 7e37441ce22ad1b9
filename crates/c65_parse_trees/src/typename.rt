// Specifiers and type names with their depth beside them.
ghost use Rattle.std.specs.Prelude.{◌≡◌, min};
ghost use Rattle.c65_tree.specs.Trees;
ghost use Rattle.c65_tree.specs.Depth.{specifiers_depth, type_depth};
ghost use Rattle.c65_tree.specs.View.{specifiers_of, declarator_of, type_of};

use crate::measured::{MeasuredDeclarator, MeasuredSpecifiers, MeasuredType};
use c65_tree::{Specifiers, TypeName};

impl MeasuredType {
    pub fn new(specifiers: MeasuredSpecifiers, declarator: MeasuredDeclarator) -> MeasuredType
        ensures { type_of result.name ≡ Trees.type_name (specifiers_of specifiers.specifiers) (declarator_of declarator.declarator) }
    {
        let depth = specifiers.depth.max(declarator.depth);
        MeasuredType {
            name: TypeName::new(specifiers.specifiers, declarator.declarator),
            depth,
        }
    }
}
