// Parameters with their depth beside them.
ghost use Rattle.std.specs.Prelude.{◌≡◌, ◌++◌, ◌∷◌, [], IfOk, min};
ghost use Rattle.c65_tree.specs.Trees;
ghost use Rattle.c65_tree.specs.Trees.{no_more_params, and_param, no_params, param_names, param_types};
ghost use Rattle.c65_tree.specs.Depth.{params_depth, param_list_depth};
ghost use Rattle.c65_tree.specs.View.{specifiers_of, declarator_of, params_of, params_from};

use crate::measured::{MeasuredDeclarator, MeasuredParams, MeasuredSpecifiers, ParamList};
use c65_base::{Name, Pos};
use c65_tree::{Param, Params, with_param};
use std::alloc::{AllocError, Global};

impl ParamList {
    pub fn new(alloc: Global) -> ParamList
        ensures { params_from no_more_params result.params.items ≡ no_more_params }
    {
        ParamList {
            params: Vec::new(alloc),
            depth: 0,
        }
    }

    pub fn with(
        self,
        specifiers: MeasuredSpecifiers,
        declarator: MeasuredDeclarator,
    ) -> Result<ParamList, AllocError>
        ensures { IfOk result (λ r. params_from no_more_params r.params.items ≡ and_param (params_from no_more_params self.params.items) (specifiers_of specifiers.specifiers) (declarator_of declarator.declarator)) }
    {
        let depth = self.depth.max(specifiers.depth.max(declarator.depth));
        let param = Param::new(specifiers.specifiers, declarator.declarator);
        let params = with_param(self.params, param)?;
        Ok(ParamList { params, depth })
    }

    /// The list as a whole; the flag says that `...` ends it.
    pub fn end(self, more: bool) -> MeasuredParams
        ensures { params_of result.params ≡ param_types (params_from no_more_params self.params.items) more }
    {
        MeasuredParams {
            params: Params::types(self.params, more),
            depth: self.depth,
        }
    }
}

impl MeasuredParams {
    pub fn empty() -> MeasuredParams
        ensures { params_of result.params ≡ no_params }
    {
        MeasuredParams {
            params: Params::empty(),
            depth: 0,
        }
    }

    /// An identifier list.
    pub fn names(names: Vec<(Name, Pos)>) -> MeasuredParams
        ensures { params_of result.params ≡ param_names names.items }
    {
        MeasuredParams {
            params: Params::names(names),
            depth: 0,
        }
    }
}
