// What is known at each line: the ways on which a line comes, and the pass over the lines.
ghost use Rattle.std.specs.Prelude.{◌≡◌, ◌+◌, ◌-◌, ◌≤◌, [], false, true, Some, length, take, drop};
ghost use Rattle.c65_code.specs.Segments.{is_among, target_of, targets_of};
ghost use Rattle.c65_know.specs.Notes.{nothing_known};
ghost use Rattle.c65_know.specs.Known.{flow_of, after_flow, after_line, ways_of, all_ways, way_after, met, joined, note_at, known_of, IsNotedTo, IsPassed};

use crate::note::Note;
use crate::rows::{after_call, after_row, leap, passed};
use c65_code::{Line, Operand, Seg};
use c65_mach::{Mode, Op};

// Where a line leads.
#[derive(Clone, Copy)]
enum Flow {
    // To the next line.
    Goes,
    // To the next line or elsewhere: a branch.
    Splits,
    // Elsewhere: RTS and JMP.
    Ends,
}

fn flow_of(op: Op) -> Flow
    ensures { result ≡ flow_of op }
{
    match op {
        Op::Jmp | Op::Rts => Flow::Ends,
        Op::Bcc | Op::Bcs | Op::Beq | Op::Bmi | Op::Bne => Flow::Splits,
        Op::Bpl | Op::Bra | Op::Bvc | Op::Bvs => Flow::Splits,
        _ => Flow::Goes,
    }
}

fn after_op(note: Note, op: Op, mode: Mode, operand: Operand) -> Option<Note>
    ensures { result ≡ after_flow (flow_of op) op mode operand note }
{
    match flow_of(op) {
        Flow::Goes => Some(after_row(note, op, mode, operand)),
        Flow::Splits => passed(note, op),
        Flow::Ends => None,
    }
}

// On the way from a line to the next one; none where none leads there.
pub(crate) fn after_line(line: &Line, note: Note) -> Option<Note>
    ensures { result ≡ after_line line.now note }
{
    match line {
        Line::Label(_) => Some(note),
        Line::Do(op, mode, operand) => after_op(note, *op, *mode, *operand),
        Line::Call(callee) => Some(after_call(&note, callee)),
    }
}

// What is known on all ways to a label: on this one, if any, and on that from a line, if it leads there.
fn met_with(label: u32, way: Option<Note>, line: &Line, note: &Note) -> Option<Note>
    ensures { result ≡ met label way (ways_of line.now note.now) }
{
    match line {
        Line::Do(op, _, Operand::To(to)) if *to == label => Some(joined(way, leap(*note, *op))),
        _ => way,
    }
}

// The same with those from several lines.
fn met(label: u32, way: Option<Note>, lines: &[Line], notes: &[Note]) -> Option<Note>
    requires { length lines.now ≡ length notes.now }
    ensures { result ≡ met label way (all_ways lines.now notes.now) }
{
    let mut known = way;
    for at in 0..lines.len() {
        known = met_with(label, known, &lines[at], &notes[at]);
    }
    known
}

pub(crate) fn joined(known: Option<Note>, note: Note) -> Note
    ensures { result ≡ joined known note }
{
    match known {
        Some(known) => known.meet(&note),
        None => note,
    }
}

fn is_referred(lines: &[Line], label: u32) -> bool
    ensures { result ≡ is_among (targets_of lines.now) label }
{
    for line in lines {
        if let Line::Do(_, _, Operand::To(to)) = line {
            if label == *to {
                return true;
            }
        }
    }
    false
}

// At a line, from the lines before it with their notes, and the way on from the last of them.
fn note_at(way: Option<Note>, before: &[Line], notes: &[Note], line: &Line, later: &[Line]) -> Note
    requires { length before.now ≡ length notes.now }
    ensures { result ≡ note_at way (all_ways before.now notes.now) line.now later.now }
{
    match line {
        Line::Label(label) if is_referred(later, *label) => Note::nothing(),
        Line::Label(label) => match met(*label, way, before, notes) {
            Some(note) => note,
            None => Note::nothing(),
        },
        Line::Do(_, _, _) | Line::Call(_) => match way {
            Some(note) => note,
            None => Note::nothing(),
        },
    }
}

// On the way to a line.
fn way_to(lines: &[Line], notes: &[Note], at: usize) -> Option<Note>
    requires place { at ≤ length lines.now }
    requires lengths { length lines.now ≡ length notes.now }
    ensures { result ≡ way_after (Some nothing_known) (take at lines.now) (take at notes.now) }
{
    if at == 0 {
        return Some(Note::nothing());
    }
    after_line(&lines[at - 1], notes[at - 1])
}

// Makes the notes from one line up to another right, and answers what is known on the way on.
pub(crate) fn renew_to(lines: &[Line], notes: &mut [Note], from: usize, to: usize) -> Option<Note>
    requires order { from ≤ to }
    requires place { to ≤ length lines.now }
    requires lengths { length lines.now ≡ length notes.old }
    requires before { take from notes.old ≡ take from (known_of lines.now) }
    ensures right { IsNotedTo lines.now notes.new result to }
    ensures first { take from notes.new ≡ take from notes.old }
    ensures rest { drop to notes.new ≡ drop to notes.old }
{
    let mut way = way_to(lines, notes, from);
    for at in from..to {
        let note = note_at(
            way,
            &lines[..at],
            &notes[..at],
            &lines[at],
            &lines[at + 1..],
        );
        notes[at] = note;
        way = after_line(&lines[at], note);
    }
    way
}

fn renew(lines: &[Line], notes: &mut [Note], from: usize)
    requires place { from ≤ length lines.now }
    requires lengths { length lines.now ≡ length notes.old }
    requires before { take from notes.old ≡ take from (known_of lines.now) }
    ensures { notes.new ≡ known_of lines.now }
{
    let end = lines.len();
    let _ = renew_to(lines, notes, from, end);
}

pub(crate) fn refers(line: &Line) -> bool
    ensures { result ≡ false → target_of line.now ≡ [] }
{
    matches!(line, Line::Do(_, _, Operand::To(_)))
}

// Whether some lines refer to no label.
fn is_straight(lines: &[Line]) -> bool
    ensures { result ≡ true → targets_of lines.now ≡ [] }
{
    for line in lines {
        if refers(line) {
            return false;
        }
    }
    true
}

/// Whether neither of some lines refer to a label.
pub(crate) fn are_straight(some: &[Line], others: &[Line]) -> bool
    ensures { result ≡ true → (targets_of some.now ≡ []) × (targets_of others.now ≡ []) }
{
    if !is_straight(some) {
        return false;
    }
    is_straight(others)
}

// On the way on from some lines; none where none leads there.
fn way_behind(way: Option<Note>, lines: &[Line]) -> Option<Note> {
    let mut way = way;
    for line in lines {
        way = after_line(line, way?);
    }
    way
}

// Whether the notes of lines stand again, on another way there, before one of them is a label or refers to one.
fn stand_soon(way: Option<Note>, lines: &[Line], notes: &[Note]) -> bool {
    let mut way = way;
    for (line, old) in lines.iter().zip(notes) {
        let Some(note) = way else {
            return false;
        };
        if matches!(line, Line::Label(_)) {
            return false;
        }
        if note.is_same(old) {
            return true;
        }
        if refers(line) {
            return false;
        }
        way = after_line(line, note);
    }
    true
}

/// Whether other lines in place of some leave the notes of all labels and the ways to them: neither refer to a label, and the notes
/// behind them stand again before a line does or is one.
pub(crate) fn stays_near(
    lines: &[Line],
    notes: &[Note],
    at: usize,
    count: usize,
    new: &[Line],
) -> bool
    requires place { at + count ≤ length lines.now }
    requires lengths { length lines.now ≡ length notes.now }
    ensures { result ≡ true → (targets_of (take (at + count - at) (drop at lines.now)) ≡ []) × (targets_of new.now ≡ []) }
{
    if !are_straight(&lines[at..at + count], new) {
        return false;
    }
    let way = way_behind(way_to(lines, notes, at), new);
    let rest = at + count;
    stand_soon(way, &lines[rest..], &notes[rest..])
}

// Makes the notes from a line on right, which are those of a pass that came there with the same ways to labels: from the
// first one that stands on, all do.
fn settle(lines: &[Line], notes: &mut [Note], way: Option<Note>, from: usize)
    requires place { from ≤ length lines.now }
    requires lengths { length lines.now ≡ length notes.old }
    requires right { IsNotedTo lines.now notes.old way from }
    requires passed { IsPassed lines.now notes.old (all_ways (take from lines.now) (take from notes.old)) from }
    ensures { notes.new ≡ known_of lines.now }
{
    let mut way = way;
    for at in from..lines.len() {
        let note = note_at(
            way,
            &lines[..at],
            &notes[..at],
            &lines[at],
            &lines[at + 1..],
        );
        if note.is_same(&notes[at]) {
            return;
        }
        if refers(&lines[at]) {
            renew(lines, notes, at);
            return;
        }
        notes[at] = note;
        way = after_line(&lines[at], note);
    }
}

/// Makes the notes from one line on right where no line from there up to another refers to a label, and those behind are
/// those of a pass that had the same ways to labels.
pub(crate) fn renew_straight(lines: &[Line], notes: &mut [Note], from: usize, to: usize)
    requires order { from ≤ to }
    requires place { to ≤ length lines.now }
    requires lengths { length lines.now ≡ length notes.old }
    requires before { take from notes.old ≡ take from (known_of lines.now) }
    requires straight { targets_of (take (to - from) (drop from lines.now)) ≡ [] }
    requires passed { IsPassed lines.now notes.old (all_ways (take from lines.now) (take from notes.old)) to }
    ensures { notes.new ≡ known_of lines.now }
{
    let way = renew_to(lines, notes, from, to);
    settle(lines, notes, way, to);
}

/// Makes the notes of a segment right from a line on, where they are right before it.
pub fn update(seg: &Seg, notes: &mut [Note], from: usize)
    requires lengths { length notes.old ≡ length seg.now.lines }
    requires before { take from notes.old ≡ take from (known_of seg.now.lines) }
    ensures { notes.new ≡ known_of seg.now.lines }
{
    let lines = seg.lines();
    if from < lines.len() {
        renew(lines, notes, from);
    }
}
