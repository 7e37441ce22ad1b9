// How many bytes lines take, and where their labels stand.
ghost use Rattle.std.specs.Prelude.{◌≡◌, [], OnOk, IfOk};
ghost use Rattle.c65_code.specs.Weights.{mode_size as longest_size};
ghost use Rattle.c65_link.specs.Bodies.{with_label, offset_of, far_size, far_labels, reaches, target_of, branch_size, size_in, line_size, with_line, body_of};

use crate::opcode::mode_size;
use c65_code::{Line, Operand};
use c65_mach::Mode;
use indexmap::IndexMap;
use std::alloc::{AllocError, Global};
use std::marker::Model;

// Labels, each with the number of bytes before it.
type Labels = IndexMap<u32, u64>;

fn mark(labels: &mut Labels, line: &Line, at: u64) -> Result<(), AllocError>
    ensures { OnOk result (labels.new.entries ≡ with_label line.now at labels.old.entries) }
{
    if let Line::Label(label) = line {
        labels.insert(*label, at)?;
    }
    Ok(())
}

fn offset(labels: &Labels, label: u32) -> u64
    ensures { result ≡ offset_of labels.now.entries label }
{
    match labels.get(&label) {
        Some(at) => *at,
        None => 0,
    }
}

/// The bytes of a line if each branch is the opposite one round a jump.
pub fn longest(line: &Line) -> u64
    ensures { result ≡ far_size line.now }
{
    match line {
        Line::Label(_) => 0,
        Line::Do(_, Mode::Relative, _) => 5,
        Line::Do(_, mode, _) => mode_size(*mode),
        Line::Call(_) => 3,
    }
}

fn mark_far(alloc: Global, lines: &[Line]) -> Result<Labels, AllocError>
    ensures { IfOk result (λ labels. labels.entries ≡ far_labels [] 0 lines.now) }
{
    let mut labels = IndexMap::new(alloc);
    let mut at = 0_u64;
    for line in lines {
        mark(&mut labels, line, at)?;
        at = at.saturating_add(longest(line));
    }
    Ok(labels)
}

// The branch is short itself where it reaches: then it has 3 bytes less.
fn is_near(from: u64, to: u64) -> bool
    ensures { result ≡ reaches from to }
{
    to < from.saturating_add(133) && from < to.saturating_add(127)
}

/// The label that a branch or jump goes to.
pub fn target(operand: Operand) -> u32
    ensures { result ≡ target_of operand }
{
    match operand {
        Operand::To(label) => label,
        _ => 0,
    }
}

/// The labels of lines, and how many bytes these take. Branches that surely reach are short.
#[derive(Drop)]
pub struct Body {
    far: Labels,
    near: Labels,
    size: u64,
}

impl Model for Body {
    ghost use Rattle.c65_link.specs.Bodies.{Body};

    ghost Value = { Body };

    ghost view = { λ b. record { far = b.far.entries; near = b.near.entries; size = b.size } };
}

impl Body {
    /// How many bytes the lines take.
    pub fn size(&self) -> u64
        ensures { result ≡ self.now.size }
    {
        self.size
    }

    /// How many bytes are before a label.
    pub fn label(&self, label: u32) -> u64
        ensures { result ≡ offset_of self.now.near label }
    {
        offset(&self.near, label)
    }

    /// Whether a branch is short, by how many bytes are before it if all branches are long.
    pub fn reaches(&self, at: u64, operand: Operand) -> bool
        ensures { result ≡ reaches at (offset_of self.now.far (target_of operand)) }
    {
        is_near(at, offset(&self.far, target(operand)))
    }

    /// The bytes of a line, by how many bytes are before it if all branches are long.
    pub fn line_size(&self, at: u64, line: &Line) -> u64
        ensures { result ≡ line_size self.now.far at line.now }
    {
        match line {
            Line::Label(_) => 0,
            Line::Do(_, Mode::Relative, operand) => {
                if self.reaches(at, *operand) { 2 } else { 5 }
            }
            Line::Do(_, mode, _) => mode_size(*mode),
            Line::Call(_) => 3,
        }
    }

    fn add(&mut self, line: &Line, at: u64) -> Result<(), AllocError>
        ensures { OnOk result (self.new ≡ with_line self.old at line.now) }
    {
        let size = self.line_size(at, line);
        mark(&mut self.near, line, self.size)?;
        self.size = self.size.saturating_add(size);
        Ok(())
    }

    /// The labels and the size of these lines.
    pub fn of(alloc: Global, lines: &[Line]) -> Result<Body, AllocError>
        ensures { IfOk result (λ body. body ≡ body_of lines.now) }
    {
        let far = mark_far(alloc, lines)?;
        let mut body = Body {
            far,
            near: IndexMap::new(alloc),
            size: 0,
        };
        let mut at = 0_u64;
        for line in lines {
            body.add(line, at)?;
            at = at.saturating_add(longest(line));
        }
        Ok(body)
    }
}
