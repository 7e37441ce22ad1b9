// Opening calls of routines, as the options ask for it.
ghost use Rattle.std.specs.Prelude.{true};
ghost use Rattle.c65_optlib.specs.Library.{IsWalked, AreOpened};
ghost use Rattle.c65_know.specs.Known.{annotated};
ghost use Rattle.c65_pass.specs.Passes.{Answers};
ghost use Rattle.c65_pass.specs.Rules.{match_at};

use crate::known::find_known;
use crate::opened::find_call;
use c65_base::{Options, Refusal};
use c65_code::{Literals, Seg};
use c65_know::Noted;
use c65_live::LiveTable;
use c65_pass::{Pass, run_once};
use std::alloc::Global;

// Rule 39 in one walk.
fn walk_calls(alloc: Global, code: &mut Noted, literals: &Literals) -> Result<usize, Refusal>
    ensures { IsWalked true 39 literals.now.items code.old code.new result }
{
    let pass = Pass::once(
        39,
        literals,
        |s: &Seg, l: &LiveTable, at: usize|
            ensures { (literals : _) → Answers (match_at 39 literals (annotated s.now.lines s.now.out) l.now at) result }
        { find_call(alloc, s, l, at) },
    );
    run_once(alloc, code, &pass)
}

// Rule 40 in one walk.
fn walk_known(alloc: Global, code: &mut Noted, literals: &Literals) -> Result<usize, Refusal>
    ensures { IsWalked true 40 literals.now.items code.old code.new result }
{
    let pass = Pass::once(
        40,
        literals,
        |s: &Seg, l: &LiveTable, at: usize|
            ensures { Answers (match_at 40 literals.entry.now.items (annotated s.now.lines s.now.out) l.now at) result }
        { find_known(alloc, s, l, literals, at) },
    );
    run_once(alloc, code, &pass)
}

// Calls of routines that a few lines stand for.
fn open_calls(
    alloc: Global,
    code: &mut Noted,
    literals: &Literals,
    options: &Options,
) -> Result<usize, Refusal>
    ensures { IsWalked options.now.inline_more 39 literals.now.items code.old code.new result }
{
    if !options.inline_more {
        return Ok(0);
    }
    walk_calls(alloc, code, literals)
}

// Calls of functions of the library with arguments that are known.
fn open_known(
    alloc: Global,
    code: &mut Noted,
    literals: &Literals,
    options: &Options,
) -> Result<usize, Refusal>
    ensures { IsWalked options.now.known_functions 40 literals.now.items code.old code.new result }
{
    if !options.known_functions {
        return Ok(0);
    }
    walk_known(alloc, code, literals)
}

/// Puts lines in place of calls that few lines stand for, and answers how often: first, where the options ask for it with `i`,
/// of calls of routines, in one walk, and then, where they ask for it with `s`, of calls of functions of the library with
/// arguments that are known, in another. After a refusal some of the rewritings are made.
pub fn inline_calls(
    alloc: Global,
    code: &mut Noted,
    literals: &Literals,
    options: &Options,
) -> Result<usize, Refusal>
    ensures { AreOpened options.now.inline_more options.now.known_functions literals.now.items code.old code.new result }
{
    let opened = open_calls(alloc, code, literals, options)?;
    let known = open_known(alloc, code, literals, options)?;
    Ok(opened.saturating_add(known))
}
