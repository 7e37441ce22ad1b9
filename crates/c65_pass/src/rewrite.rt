// Lines that stand for others, and a rule with the function that finds them.
ghost use Rattle.std.specs.Prelude.{◌≡◌, ℕ, ◌∷◌, [], None, Some, IfOk, IfErr};
ghost use Rattle.c65_base.specs.declared.refusal.Refusal.TheVariants.{OutOfMemory};
ghost use Rattle.c65_pass.specs.Passes.{Answers, IsGood};
ghost use Rattle.c65_pass.specs.Rules.{match_at};

use c65_base::Refusal;
use c65_code::{Line, Literals};
use c65_know::Noted;
use c65_live::LiveTable;
use smallvec::SmallVec;
use std::alloc::Global;
use std::marker::Model;

/// Lines, mostly one or none, that are to stand for `count` lines from line `at` on.
#[derive(Drop)]
pub struct Rewrite {
    pub at: usize,
    pub count: usize,
    pub lines: SmallVec<Line, 1, Global>,
}

impl Model for Rewrite {
    ghost use Rattle.c65_pass.specs.Rewriting.{Rewriting};

    ghost Value = { Rewriting };

    ghost view = { λ r. record { at = r.at; count = r.count; lines = r.lines.items } };
}

impl Rewrite {
    /// A rewriting to these lines.
    pub fn new(alloc: Global, at: usize, count: usize, lines: &[Line]) -> Result<Rewrite, Refusal>
        ensures ok { IfOk result (λ w. w ≡ record { at = at; count = count; lines = lines.now }) }
        ensures refused { IfErr result (λ refusal. refusal ≡ OutOfMemory) }
    {
        Ok(Rewrite {
            at,
            count,
            lines: SmallVec::from_slice(alloc, lines)?,
        })
    }

    /// The number of the first line that goes.
    pub fn at(&self) -> usize
        ensures { result ≡ self.now.at }
    {
        self.at
    }

    /// How many lines go.
    pub fn count(&self) -> usize
        ensures { result ≡ self.now.count }
    {
        self.count
    }

    /// The lines that come in their place.
    pub fn lines(&self) -> &[Line]
        ensures { result.now ≡ self.now.lines }
    {
        self.lines.as_slice()
    }
}

/// A rule by its number, the literals of the code, and the function that answers what the rule makes at a place.
#[derive(Drop)]
pub struct Pass<'a, F> {
    pub rule: u8,
    pub literals: &'a Literals,
    pub find: F,
}

impl<'a, F: Fn(&Noted, &LiveTable, usize) -> Result<Option<Rewrite>, Refusal>> Pass<'a, F> {
    /// The pass of a rule. Its function answers exactly what the rule makes there, or that memory is wanted.
    pub fn new(rule: u8, literals: &'a Literals, find: F) -> Pass<'a, F>
        requires callable { (n : _) (l : _) (at : ℕ) → F.pre find n l at }
        requires exact { (n : _) (l : _) (at : ℕ) (r : _) → F.post find n l at r → Answers (match_at rule literals.now.items n.now l.now at) r }
        requires good { IsGood rule literals.now.items }
        ensures rule { result.rule ≡ rule }
        ensures literals { result.literals.now ≡ literals.now }
        ensures find { result.find ≡ find }
    {
        Pass {
            rule,
            literals,
            find,
        }
    }
}
