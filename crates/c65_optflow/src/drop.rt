// Labels to which no line refers, in one walk over the lines.
ghost use Rattle.std.specs.Prelude.{◌≡◌, OnOk, IfOk};
ghost use Rattle.c65_know.specs.Index.{with_reference, AreReferences};
ghost use Rattle.c65_optflow.specs.Unused.{used_lines};
ghost use Rattle.c65_pass.specs.FlowRules.{is_unused};
ghost use Rattle.c65_pass.specs.Rounds.{Only, IsPassed};

use c65_base::Refusal;
use c65_code::{Line, Operand};
use c65_know::Noted;
use indexmap::IndexMap;
use std::alloc::{AllocError, Global};

// Labels, each with a line that refers to it.
type References = IndexMap<u32, usize>;

fn refer(labels: &mut References, line: &Line, at: usize) -> Result<(), AllocError>
    ensures { OnOk result (labels.new.entries ≡ with_reference line.now at labels.old.entries) }
{
    if let Line::Do(_, _, Operand::To(label)) = line {
        labels.insert(*label, at)?;
    }
    Ok(())
}

// The labels to which lines refer.
fn references(alloc: Global, lines: &[Line]) -> Result<References, AllocError>
    ensures { IfOk result (λ labels. AreReferences labels.entries lines.now) }
{
    let mut labels = IndexMap::new(alloc);
    for at in (0..lines.len()).rev() {
        refer(&mut labels, &lines[at], at)?;
    }
    Ok(labels)
}

fn is_unused(labels: &References, line: &Line) -> bool
    ensures { (lines : _) → AreReferences labels.now.entries lines → result ≡ is_unused lines line.now }
{
    match line {
        Line::Label(label) => labels.get(label).is_none(),
        Line::Do(_, _, _) | Line::Call(_) => false,
    }
}

// The lines without the labels to which none of them refers.
fn used(alloc: Global, lines: &[Line]) -> Result<Vec<Line>, AllocError>
    ensures { IfOk result (λ used. used.items ≡ used_lines lines.now lines.now) }
{
    let labels = references(alloc, lines)?;
    let mut used = Vec::new(alloc);
    for at in 0..lines.len() {
        if !is_unused(&labels, &lines[at]) {
            used.push(lines[at])?;
        }
    }
    Ok(used)
}

/// Rewrites by the rule on labels to which no line refers, 7, until it matches nowhere, and answers how often. After a refusal
/// the lines are as before.
pub fn drop_unused_labels(alloc: Global, code: &mut Noted) -> Result<usize, Refusal>
    ensures { IsPassed (Only 7) code.old code.new result }
{
    let lines = code.seg().lines();
    let count = lines.len();
    let used = used(alloc, lines)?;
    let dropped = count - used.len();
    if dropped == 0 {
        return Ok(0);
    }
    code.replace(0, count, &used)?;
    Ok(dropped)
}
