// The pass over all lines, with an index of labels, so that no label is looked for among the lines.
ghost use Rattle.std.specs.Prelude.{◌≡◌, ◌-◌, ◌≤◌, [], true, length, take, drop, OnOk, IfOk};
ghost use Rattle.c65_code.specs.Segments.{target_of, targets_of};
ghost use Rattle.c65_know.specs.Known.{all_ways, known_of, IsNotedTo, IsPassed};
ghost use Rattle.c65_know.specs.Index.{with_reference, AreReferences, is_back, backs_of, with_way, known_at, noted_at, IsIndex};

use crate::note::Note;
use crate::rows::leap;
use crate::ways::{after_line, joined, refers, renew_to};
use c65_code::{Line, Operand};
use indexmap::IndexMap;
use std::alloc::{AllocError, Global};

// Labels, each with a line that refers to it.
type References = IndexMap<u32, usize>;

// Labels, each with what is known on all ways to it so far.
type Ways = IndexMap<u32, Note>;

fn refer(labels: &mut References, line: &Line, at: usize) -> Result<(), AllocError>
    ensures { OnOk result (labels.new.entries ≡ with_reference line.now at labels.old.entries) }
{
    if let Line::Do(_, _, Operand::To(label)) = line {
        labels.insert(*label, at)?;
    }
    Ok(())
}

// Whether a line is a label to which some of these lines refer.
fn is_back(labels: &References, line: &Line) -> bool
    ensures { (later : _) → AreReferences labels.now.entries later → result ≡ is_back line.now later }
{
    match line {
        Line::Label(label) => labels.get(label).is_some(),
        Line::Do(_, _, _) | Line::Call(_) => false,
    }
}

// For each line, whether it is a label to which lines behind it refer.
fn backs(alloc: Global, lines: &[Line]) -> Result<Vec<bool>, AllocError>
    ensures each { IfOk result (λ backs. backs.items ≡ backs_of lines.now) }
    ensures long { IfOk result (λ backs. length backs.items ≡ length lines.now) }
{
    let mut backs = vec![in alloc; false; lines.len()]?;
    let mut labels = IndexMap::new(alloc);
    for at in (0..lines.len()).rev() {
        backs[at] = is_back(&labels, &lines[at]);
        refer(&mut labels, &lines[at], at)?;
    }
    Ok(backs)
}

fn lead(ways: &mut Ways, line: &Line, note: Note) -> Result<(), AllocError>
    ensures { OnOk result (ways.new.entries ≡ with_way line.now note ways.old.entries) }
{
    if let Line::Do(op, _, Operand::To(label)) = line {
        let known = joined(ways.get(label).copied(), leap(note, *op));
        ways.insert(*label, known)?;
    }
    Ok(())
}

// What the way on and the ways to a label both know.
fn known_at(way: Option<Note>, known: Option<Note>) -> Note
    ensures { result ≡ known_at way known }
{
    match (way, known) {
        (None, None) => Note::nothing(),
        (None, Some(note)) | (Some(note), None) => note,
        (Some(way), Some(known)) => way.meet(&known),
    }
}

fn note_at(way: Option<Note>, ways: &Ways, line: &Line, back: bool) -> Note
    ensures { result ≡ noted_at way ways.now.entries line.now back }
{
    match line {
        Line::Label(_) if back => Note::nothing(),
        Line::Label(label) => known_at(way, ways.get(label).copied()),
        Line::Do(_, _, _) | Line::Call(_) => match way {
            Some(note) => note,
            None => Note::nothing(),
        },
    }
}

// Makes the notes of all lines right.
fn pass(alloc: Global, lines: &[Line], notes: &mut [Note]) -> Result<(), AllocError>
    requires { length notes.old ≡ length lines.now }
    ensures { OnOk result (notes.new ≡ known_of lines.now) }
{
    let backs = backs(alloc, lines)?;
    let mut ways = IndexMap::new(alloc);
    let mut way = Some(Note::nothing());
    for at in 0..lines.len() {
        let note = note_at(way, &ways, &lines[at], backs[at]);
        lead(&mut ways, &lines[at], note)?;
        notes[at] = note;
        way = after_line(&lines[at], note);
    }
    Ok(())
}

/// What is known at each of some lines.
pub(crate) fn noted(alloc: Global, lines: &[Line]) -> Result<Vec<Note>, AllocError>
    ensures { IfOk result (λ notes. notes.items ≡ known_of lines.now) }
{
    let mut notes = vec![in alloc; Note::nothing(); lines.len()]?;
    pass(alloc, lines, &mut notes)?;
    Ok(notes)
}

// What is known on the ways to labels from the lines before one.
fn ways_before(
    alloc: Global,
    lines: &[Line],
    notes: &[Note],
    end: usize,
) -> Result<Ways, AllocError>
    requires place { end ≤ length lines.now }
    requires lengths { length lines.now ≡ length notes.now }
    ensures { IfOk result (λ ways. IsIndex ways.entries (all_ways (take end lines.now) (take end notes.now))) }
{
    let mut ways = IndexMap::new(alloc);
    for at in 0..end {
        lead(&mut ways, &lines[at], notes[at])?;
    }
    Ok(ways)
}

// Whether a note is the one that stands there, where the ways to labels are as they were.
fn stands(as_before: bool, note: &Note, old: &Note) -> bool
    ensures before { result ≡ true → as_before ≡ true }
    ensures same { result ≡ true → note.now ≡ old.now }
{
    as_before && note.is_same(old)
}

// Whether the ways to labels are as they were, one line on.
fn stays(as_before: bool, line: &Line) -> bool
    ensures before { result ≡ true → as_before ≡ true }
    ensures straight { result ≡ true → target_of line.now ≡ [] }
{
    as_before && !refers(line)
}

// Makes the notes from a line on right, which are those of a pass that came there with the same ways to labels: from the
// first one that stands on, all do, unless a line before it refers to a label.
fn settle(
    alloc: Global,
    lines: &[Line],
    notes: &mut [Note],
    way: Option<Note>,
    from: usize,
) -> Result<(), AllocError>
    requires place { from ≤ length lines.now }
    requires lengths { length lines.now ≡ length notes.old }
    requires right { IsNotedTo lines.now notes.old way from }
    requires passed { IsPassed lines.now notes.old (all_ways (take from lines.now) (take from notes.old)) from }
    ensures { OnOk result (notes.new ≡ known_of lines.now) }
{
    let backs = backs(alloc, lines)?;
    let mut ways = ways_before(alloc, lines, notes, from)?;
    let mut way = way;
    let mut as_before = true;
    for at in from..lines.len() {
        let note = note_at(way, &ways, &lines[at], backs[at]);
        if stands(as_before, &note, &notes[at]) {
            return Ok(());
        }
        as_before = stays(as_before, &lines[at]);
        lead(&mut ways, &lines[at], note)?;
        notes[at] = note;
        way = after_line(&lines[at], note);
    }
    Ok(())
}

/// The same as `renew_straight`, with an index of labels, for which memory may be wanted.
pub(crate) fn renew_by_index(
    alloc: Global,
    lines: &[Line],
    notes: &mut [Note],
    from: usize,
    to: usize,
) -> Result<(), AllocError>
    requires order { from ≤ to }
    requires place { to ≤ length lines.now }
    requires lengths { length lines.now ≡ length notes.old }
    requires before { take from notes.old ≡ take from (known_of lines.now) }
    requires straight { targets_of (take (to - from) (drop from lines.now)) ≡ [] }
    requires passed { IsPassed lines.now notes.old (all_ways (take from lines.now) (take from notes.old)) to }
    ensures { OnOk result (notes.new ≡ known_of lines.now) }
{
    let way = renew_to(lines, notes, from, to);
    settle(alloc, lines, notes, way, to)
}
