// What each line does to the parts, and which lines may come behind it.
ghost use Rattle.std.specs.Prelude.{◌≡◌, [], map, Some, OnOk, IfOk};
ghost use Rattle.c65_code.specs.Effects.{kept_at_calls};
ghost use Rattle.c65_code.specs.Segments.{IsSegment, is_closing, target_of};
ghost use Rattle.c65_live.specs.Live.{left_parts};
ghost use Rattle.c65_live.specs.Flows.{with_label, labels_from, found, flow_in, flows_of, before_of};

use c65_code::{Line, Operand, RegSet};
use c65_mach::{Mode, Op};
use indexmap::IndexMap;
use std::alloc::{AllocError, Global};

// Labels, each with its line.
pub(crate) type Labels = IndexMap<u32, usize>;

/// What a line does to the parts, and which lines may come behind it.
#[derive(Clone, Copy)]
pub(crate) struct Flow {
    pub(crate) reads: RegSet,
    pub(crate) sets: RegSet,
    /// What may be read once the line has left the function.
    pub(crate) left: RegSet,
    /// Whether the next line may come.
    pub(crate) onward: bool,
    /// The line to which it jumps or branches.
    pub(crate) to: Option<usize>,
}

impl Flow {
    /// What is live before the line, by what is live after it.
    pub(crate) fn before(&self, after: RegSet) -> RegSet
        ensures { result ≡ before_of (Some self.now) after }
    {
        self.reads.union(after.minus(self.sets))
    }
}

fn kept() -> RegSet
    ensures { result ≡ kept_at_calls }
{
    RegSet::zero_bytes(0, 2).union(RegSet::zero_bytes(20, 26))
}

pub(crate) fn left(out: RegSet, line: &Line) -> RegSet
    ensures { result ≡ left_parts out line.now }
{
    match line {
        Line::Do(Op::Rts, _, _) => out.union(kept()),
        Line::Do(Op::Jmp, Mode::Indirect, _) => RegSet::all(),
        _ => RegSet::empty(),
    }
}

pub(crate) fn closes(line: &Line) -> bool
    ensures { result ≡ is_closing line.now }
{
    matches!(line, Line::Do(Op::Rts | Op::Jmp, _, _))
}

fn mark(labels: &mut Labels, line: &Line, at: usize) -> Result<(), AllocError>
    ensures { OnOk result (labels.new.entries ≡ with_label line.now at labels.old.entries) }
{
    if let Line::Label(label) = line {
        labels.insert(*label, at)?;
    }
    Ok(())
}

pub(crate) fn marked(alloc: Global, lines: &[Line]) -> Result<Labels, AllocError>
    ensures { IfOk result (λ labels. labels.entries ≡ labels_from [] 0 lines.now) }
{
    let mut labels = IndexMap::new(alloc);
    for (at, line) in lines.iter().enumerate() {
        mark(&mut labels, line, at)?;
    }
    Ok(labels)
}

pub(crate) fn place(labels: &Labels, line: &Line) -> Option<usize>
    ensures { result ≡ found labels.now.entries (target_of line.now) }
{
    match line {
        Line::Do(_, _, Operand::To(label)) => labels.get(label).copied(),
        _ => None,
    }
}

fn flow_in(out: RegSet, labels: &Labels, line: &Line) -> Flow
    ensures { result ≡ flow_in out labels.now.entries line.now }
{
    Flow {
        reads: line.reads(out),
        sets: line.sets(),
        left: left(out, line),
        onward: !closes(line),
        to: place(labels, line),
    }
}

fn flows_in(
    alloc: Global,
    out: RegSet,
    labels: &Labels,
    lines: &[Line],
) -> Result<Vec<Flow>, AllocError>
    ensures { IfOk result (λ flows. flows.items ≡ map (flow_in out labels.now.entries) lines.now) }
{
    let mut flows = Vec::new(alloc);
    for line in lines {
        flows.push(flow_in(out, labels, line))?;
    }
    Ok(flows)
}

/// The flow of each line.
#[tactic(auto, using(crate::proofs::Labels::flows_found))]
pub(crate) fn flows(alloc: Global, out: RegSet, lines: &[Line]) -> Result<Vec<Flow>, AllocError>
    requires { IsSegment lines.now }
    ensures { IfOk result (λ flows. flows.items ≡ flows_of lines.now out) }
{
    let labels = marked(alloc, lines)?;
    flows_in(alloc, out, &labels, lines)
}
