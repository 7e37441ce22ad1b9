// Where jumps and branches go: labels that follow at once, and chains of jumps.
ghost use Rattle.std.specs.Prelude.{◌≡◌};
ghost use Rattle.c65_pass.specs.FlowRules.{threaded};
ghost use Rattle.c65_pass.specs.Labels.{jump_target, branch_target, retargeted, is_label, begins_with, behind, first_jump, hop, has_hop, chain_from, chain_end};

use c65_code::{Line, Operand};
use c65_mach::{Mode, Op};

/// The label that JMP goes to.
pub fn jump_target(line: &Line) -> Option<u32>
    ensures { result ≡ jump_target line.now }
{
    match line {
        Line::Do(Op::Jmp, Mode::Absolute, Operand::To(label)) => Some(*label),
        _ => None,
    }
}

/// The label that a branch goes to.
pub fn branch_target(line: &Line) -> Option<u32>
    ensures { result ≡ branch_target line.now }
{
    match line {
        Line::Do(_, Mode::Relative, Operand::To(label)) => Some(*label),
        _ => None,
    }
}

/// The jump or branch with another label.
pub fn retargeted(line: &Line, label: u32) -> Line
    ensures { result ≡ retargeted line.now label }
{
    match line {
        Line::Do(op, mode, _) => Line::Do(*op, *mode, Operand::To(label)),
        Line::Label(_) | Line::Call(_) => *line,
    }
}

pub fn is_label(line: &Line) -> bool
    ensures { result ≡ is_label line.now }
{
    matches!(line, Line::Label(_))
}

/// Whether the label is among those that the lines begin with.
pub fn begins_with(label: u32, lines: &[Line]) -> bool
    ensures { result ≡ begins_with label lines.now }
{
    for line in lines {
        match line {
            Line::Label(other) => {
                if label == *other {
                    return true;
                }
            }
            _ => return false,
        }
    }
    false
}

fn behind(label: u32, lines: &[Line]) -> &[Line]
    ensures { result.now ≡ behind label lines.now }
{
    for (at, line) in lines.iter().enumerate() {
        if let Line::Label(other) = line {
            if label == *other {
                return &lines[at + 1..];
            }
        }
    }
    &[]
}

fn first_jump(lines: &[Line]) -> Option<u32>
    ensures { result ≡ first_jump lines.now }
{
    for line in lines {
        if !is_label(line) {
            return jump_target(line);
        }
    }
    None
}

/// Where the JMP goes that stands at a label.
pub fn hop(lines: &[Line], label: u32) -> Option<u32>
    ensures { result ≡ hop lines.now label }
{
    first_jump(behind(label, lines))
}

/// Whether a JMP stands at any label.
pub fn has_hop(lines: &[Line]) -> bool
    ensures { result ≡ has_hop lines.now }
{
    for (at, line) in lines.iter().enumerate() {
        if is_label(line) && first_jump(&lines[at + 1..]).is_some() {
            return true;
        }
    }
    false
}

/// The label at which the chain of JMPs ends whose first goes to a label. None where the chain comes back to itself.
#[tactic(auto, using(crate::proofs::Hops::chain_done, crate::proofs::Hops::chain_on))]
pub fn chain_end(lines: &[Line], first: u32) -> Option<u32>
    ensures { result ≡ chain_end lines.now (Some first) }
{
    let mut label = first;
    let mut left = lines.len();
    while let Some(next) = hop(lines, label) {
        if left == 0 {
            return None;
        }
        left -= 1;
        label = next;
    }
    Some(label)
}

/// The label at which the chain of JMPs ends that begins at the target of a line.
pub fn threaded(lines: &[Line], target: Option<u32>) -> Option<u32>
    ensures { result ≡ threaded lines.now target }
{
    let first = hop(lines, target?)?;
    chain_end(lines, first)
}
