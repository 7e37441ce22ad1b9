// Declarators with their depth and their name beside them.
ghost use Rattle.std.specs.Prelude.{◌≡◌, ◌+◌, IfOk, min, nat_le};
ghost use Rattle.c65_tree.specs.Trees;
ghost use Rattle.c65_tree.specs.Trees.{no_expr, an_expr};
ghost use Rattle.c65_tree.specs.Depth.{declarator_depth, params_depth};
ghost use Rattle.c65_tree.specs.View.{expr_of, declarator_of, params_of};
ghost use Rattle.c65_parse_trees.specs.Names.{declared_name};

use crate::measured::{MeasuredDeclarator, MeasuredExpr, MeasuredParams};
use c65_base::{Name, Pos};
use c65_tree::Declarator;
use std::alloc::{AllocError, Global};

impl MeasuredDeclarator {
    /// Whether a node over this declarator, with so many constructs open round it, keeps the limit.
    pub fn fits(&self, around: usize, limit: u16) -> bool
        ensures { result ≡ nat_le (declarator_depth (declarator_of self.now.declarator) + (around + 1)) limit }
    {
        let limit = limit as usize;
        around < limit && (self.depth as usize) < limit - around
    }

    pub fn nameless(pos: Pos) -> MeasuredDeclarator
        ensures { declarator_of result.declarator ≡ Trees.nameless pos }
    {
        MeasuredDeclarator {
            declarator: Declarator::nameless(pos),
            depth: 1,
            name: None,
        }
    }

    pub fn named(pos: Pos, name: Name) -> MeasuredDeclarator
        ensures { declarator_of result.declarator ≡ Trees.named pos name }
    {
        MeasuredDeclarator {
            declarator: Declarator::named(pos, name),
            depth: 1,
            name: Some(name),
        }
    }

    pub fn grouped(
        alloc: Global,
        pos: Pos,
        d: MeasuredDeclarator,
    ) -> Result<MeasuredDeclarator, AllocError>
        ensures { IfOk result (λ r. declarator_of r.declarator ≡ Trees.grouped pos (declarator_of d.declarator)) }
    {
        let depth = d.depth.saturating_add(1);
        let name = d.name;
        let declarator = Declarator::grouped(alloc, pos, d.declarator)?;
        Ok(MeasuredDeclarator {
            declarator,
            depth,
            name,
        })
    }

    /// `__fastcall__`, or where the flag says so `__cdecl__`.
    pub fn calling(
        alloc: Global,
        pos: Pos,
        cdecl: bool,
        d: MeasuredDeclarator,
    ) -> Result<MeasuredDeclarator, AllocError>
        ensures { IfOk result (λ r. declarator_of r.declarator ≡ Trees.calling pos cdecl (declarator_of d.declarator)) }
    {
        let depth = d.depth.saturating_add(1);
        let name = d.name;
        let declarator = Declarator::calling(alloc, pos, cdecl, d.declarator)?;
        Ok(MeasuredDeclarator {
            declarator,
            depth,
            name,
        })
    }

    /// A pointer; the flags say `const` and `volatile`.
    pub fn pointer(
        alloc: Global,
        pos: Pos,
        constant: bool,
        volatile: bool,
        d: MeasuredDeclarator,
    ) -> Result<MeasuredDeclarator, AllocError>
        ensures { IfOk result (λ r. declarator_of r.declarator ≡ Trees.pointer pos constant volatile (declarator_of d.declarator)) }
    {
        let depth = d.depth.saturating_add(1);
        let name = d.name;
        let declarator = Declarator::pointer(alloc, pos, constant, volatile, d.declarator)?;
        Ok(MeasuredDeclarator {
            declarator,
            depth,
            name,
        })
    }

    /// An array without a bound.
    pub fn open_array(
        alloc: Global,
        pos: Pos,
        d: MeasuredDeclarator,
    ) -> Result<MeasuredDeclarator, AllocError>
        ensures { IfOk result (λ r. declarator_of r.declarator ≡ Trees.array pos (declarator_of d.declarator) no_expr) }
    {
        let depth = d.depth.saturating_add(1);
        let name = d.name;
        let declarator = Declarator::open_array(alloc, pos, d.declarator)?;
        Ok(MeasuredDeclarator {
            declarator,
            depth,
            name,
        })
    }

    pub fn array(
        alloc: Global,
        pos: Pos,
        d: MeasuredDeclarator,
        bound: MeasuredExpr,
    ) -> Result<MeasuredDeclarator, AllocError>
        ensures { IfOk result (λ r. declarator_of r.declarator ≡ Trees.array pos (declarator_of d.declarator) (an_expr (expr_of bound.expr))) }
    {
        let depth = d.depth.max(bound.depth).saturating_add(1);
        let name = d.name;
        let declarator = Declarator::array(alloc, pos, d.declarator, bound.expr)?;
        Ok(MeasuredDeclarator {
            declarator,
            depth,
            name,
        })
    }

    pub fn function(
        alloc: Global,
        pos: Pos,
        d: MeasuredDeclarator,
        params: MeasuredParams,
    ) -> Result<MeasuredDeclarator, AllocError>
        ensures { IfOk result (λ r. declarator_of r.declarator ≡ Trees.function pos (declarator_of d.declarator) (params_of params.params)) }
    {
        let depth = d.depth.max(params.depth).saturating_add(1);
        let name = d.name;
        let declarator = Declarator::function(alloc, pos, d.declarator, params.params)?;
        Ok(MeasuredDeclarator {
            declarator,
            depth,
            name,
        })
    }
}
