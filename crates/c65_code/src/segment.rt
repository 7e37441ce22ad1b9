// The lines of a function: being written, and closed.
ghost use Rattle.std.specs.Prelude.{◌≡◌, ◌+◌, ◌<◌, ◌≤◌, ◌^◌, ◌∷◌, [], ◌++◌, OnOk, OnErr, IfOk, IfErr, length, insert};
ghost use Rattle.c65_base.specs.declared.refusal.Refusal.TheVariants.{OutOfMemory};
ghost use Rattle.c65_code.specs.Segments.{IsSegment, replaced};

use crate::line::Line;
use crate::parts::RegSet;
use c65_base::Refusal;
use std::alloc::{AllocError, Global};
use std::marker::Model;

/// The lines of a function that is being written.
#[derive(Drop)]
pub struct Draft {
    alloc: Global,
    body: Vec<Line>,
    given: u32,
    gives: RegSet,
}

impl Model for Draft {
    ghost use Rattle.c65_code.specs.Segments.{Drafted};

    ghost Value = { Drafted };

    ghost view = { λ d. record { lines = d.body.items; labels = d.given; out = d.gives } };
}

impl Draft {
    /// No lines yet; the function is to give `out`.
    pub fn new(alloc: Global, out: RegSet) -> Draft
        ensures lines { result.lines ≡ [] }
        ensures labels { result.labels ≡ 0 }
        ensures out { result.out ≡ out }
    {
        Draft {
            alloc,
            body: Vec::new(alloc),
            given: 0,
            gives: out,
        }
    }

    /// One line more. After a refusal the draft is as before.
    pub fn push(&mut self, line: Line) -> Result<(), Refusal>
        ensures ok { OnOk result (self.new ≡ record self.old { lines = self.old.lines ++ line ∷ [] }) }
        ensures err { OnErr result (self.new ≡ self.old) }
        ensures refused { IfErr result (λ refusal. refusal ≡ OutOfMemory) }
    {
        self.body.push(line)?;
        Ok(())
    }

    /// Several lines more. After a refusal the draft is as before.
    pub fn extend(&mut self, lines: &[Line]) -> Result<(), AllocError>
        ensures ok { OnOk result (self.new ≡ record self.old { lines = self.old.lines ++ lines.now }) }
        ensures err { OnErr result (self.new ≡ self.old) }
    {
        self.body.extend_from_slice(lines)
    }

    /// A label that was not given before.
    pub fn fresh(&mut self) -> u32
        requires { self.old.labels < 2 ^ 31 }
        ensures value { result ≡ self.old.labels }
        ensures draft { self.new ≡ record self.old { labels = self.old.labels + 1 } }
    {
        let label = self.given;
        self.given = label + 1;
        label
    }

    /// How many labels were given.
    pub fn labels(&self) -> u32
        ensures { result ≡ self.now.labels }
    {
        self.given
    }

    /// The lines so far.
    pub fn lines(&self) -> &[Line]
        ensures { result.now ≡ self.now.lines }
    {
        &self.body
    }

    /// The finished lines.
    pub fn close(self) -> Seg
        requires { IsSegment self.lines }
        ensures lines { result.lines ≡ self.lines }
        ensures out { result.out ≡ self.out }
    {
        let Draft {
            alloc,
            body,
            gives,
            ..
        } = self;
        Seg { alloc, body, gives }
    }
}

/// The lines of a function. Its first line is its only entry.
#[derive(Drop)]
pub struct Seg {
    alloc: Global,
    body: Vec<Line>,
    gives: RegSet,
}

impl Model for Seg {
    ghost use Rattle.c65_code.specs.Segments.{Segment, IsSegment};

    ghost Value = { Segment };

    ghost view = { λ s. record { lines = s.body.items; out = s.gives } };

    ghost invariant = { λ s. IsSegment s.body.items };
}

impl Seg {
    /// The lines, which keep what a segment's lines keep.
    pub fn lines(&self) -> &[Line]
        ensures lines { result.now ≡ self.now.lines }
        ensures kept { IsSegment self.now.lines }
    {
        &self.body
    }

    /// What the function gives.
    pub fn out(&self) -> RegSet
        ensures { result ≡ self.now.out }
    {
        self.gives
    }

    /// One line more, before the line at a place. After a refusal the segment is as before.
    pub fn insert(&mut self, at: usize, line: Line) -> Result<(), Refusal>
        requires place { at ≤ length self.old.lines }
        requires kept { IsSegment (insert self.old.lines at line) }
        ensures ok { OnOk result (self.new ≡ record self.old { lines = insert self.old.lines at line }) }
        ensures err { OnErr result (self.new ≡ self.old) }
        ensures refused { IfErr result (λ refusal. refusal ≡ OutOfMemory) }
    {
        self.body.insert(at, line)?;
        Ok(())
    }

    /// Other lines in place of some. After a refusal the segment is as before.
    pub fn replace(&mut self, at: usize, count: usize, lines: &[Line]) -> Result<(), Refusal>
        requires place { at + count ≤ length self.old.lines }
        requires kept { IsSegment (replaced self.old.lines at count lines.now) }
        ensures ok { OnOk result (self.new ≡ record self.old { lines = replaced self.old.lines at count lines.now }) }
        ensures err { OnErr result (self.new ≡ self.old) }
        ensures refused { IfErr result (λ refusal. refusal ≡ OutOfMemory) }
    {
        if lines.len() <= count {
            overwrite(&mut self.body, at, count, lines);
        } else {
            self.body = spliced(self.alloc, &self.body, at, count, lines)?;
        }
        Ok(())
    }
}

// No more new lines than old ones: they stand in place of those, and what is left of them goes.
fn overwrite(body: &mut Vec<Line>, at: usize, count: usize, lines: &[Line])
    requires place { at + count ≤ length body.old.items }
    requires fewer { length lines.now ≤ count }
    ensures { body.new.items ≡ replaced body.old.items at count lines.now }
{
    let end = at + lines.len();
    body[at..end].copy_from_slice(lines);
    body.drain(end..at + count);
}

fn spliced(
    alloc: Global,
    old: &[Line],
    at: usize,
    count: usize,
    new: &[Line],
) -> Result<Vec<Line>, AllocError>
    requires { at + count ≤ length old.now }
    ensures { IfOk result (λ lines. lines.items ≡ replaced old.now at count new.now) }
{
    let mut lines = Vec::with_capacity(alloc, old.len() + new.len())?;
    lines.extend_from_slice(&old[..at])?;
    lines.extend_from_slice(new)?;
    lines.extend_from_slice(&old[at + count..])?;
    Ok(lines)
}
