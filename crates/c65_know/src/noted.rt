// A segment with what is known at each of its lines.
ghost use Rattle.std.specs.Prelude.{◌≡◌, ◌+◌, ◌-◌, ◌≤◌, [], ◌++◌, length, take, drop, replicate, slice_get, option_map, OnOk, OnErr, IfOk, IfErr};
ghost use Rattle.c65_base.specs.declared.refusal.Refusal.TheVariants.{OutOfMemory};
ghost use Rattle.c65_code.specs.Segments.{IsSegment, replaced, targets_of};
ghost use Rattle.c65_know.specs.Notes.{nothing_known, holds_of};
ghost use Rattle.c65_know.specs.Known.{known_of, annotated};

use crate::index::{noted, renew_by_index};
use crate::note::Note;
use crate::ways::{are_straight, renew_straight, stays_near};
use c65_base::Refusal;
use c65_code::{Line, Seg};
use c65_mach::Machine;
use std::alloc::{AllocError, Global};
use std::marker::Model;

/// The lines of a function, and for each line what is known before it.
#[derive(Drop)]
pub struct Noted {
    alloc: Global,
    seg: Seg,
    notes: Vec<Note>,
}

impl Model for Noted {
    ghost use Rattle.std.specs.Prelude.{◌≡◌};
    ghost use Rattle.c65_code.specs.Segments.{IsSegment};
    ghost use Rattle.c65_know.specs.Known.{Annotated, known_of};

    ghost Value = { Annotated };

    ghost view = { λ n. record { lines = n.seg.lines; out = n.seg.out; notes = n.notes.items } };

    ghost invariant = { λ n. IsSegment n.seg.lines × (n.notes.items ≡ known_of n.seg.lines) };
}

/// Notes what is known at each line of a segment. It refuses for want of memory alone.
pub fn annotate(alloc: Global, seg: Seg) -> Result<Noted, Refusal>
    ensures notes { IfOk result (λ noted. noted ≡ annotated seg.lines seg.out) }
    ensures refused { IfErr result (λ refusal. refusal ≡ OutOfMemory) }
{
    let notes = noted(alloc, seg.lines())?;
    Ok(Noted { alloc, seg, notes })
}

// The notes with others in place of some, which are still to be made.
fn with_gap(
    alloc: Global,
    notes: &[Note],
    at: usize,
    count: usize,
    new: usize,
) -> Result<Vec<Note>, AllocError>
    requires { at + count ≤ length notes.now }
    ensures { IfOk result (λ gap. gap.items ≡ take at notes.now ++ (replicate new nothing_known ++ drop (at + count) notes.now)) }
{
    let fill = vec![in alloc; Note::nothing(); new]?;
    let mut gap = Vec::new(alloc);
    gap.extend_from_slice(&notes[..at])?;
    gap.extend_from_slice(&fill)?;
    gap.extend_from_slice(&notes[at + count..])?;
    Ok(gap)
}

// Notes in place of no fewer others.
fn overwrite(notes: &mut Vec<Note>, at: usize, count: usize, new: &[Note])
    requires place { at + count ≤ length notes.old.items }
    requires fewer { length new.now ≤ count }
    ensures { notes.new.items ≡ take at notes.old.items ++ (new.now ++ drop (at + count) notes.old.items) }
{
    let end = at + new.len();
    notes[at..end].copy_from_slice(new);
    notes.drain(end..at + count);
}

// Other lines in place of some.
fn joined(
    alloc: Global,
    old: &[Line],
    at: usize,
    count: usize,
    new: &[Line],
) -> Result<Vec<Line>, AllocError>
    requires { at + count ≤ length old.now }
    ensures { IfOk result (λ lines. lines.items ≡ replaced old.now at count new.now) }
{
    let mut lines = Vec::new(alloc);
    lines.extend_from_slice(&old[..at])?;
    lines.extend_from_slice(new)?;
    lines.extend_from_slice(&old[at + count..])?;
    Ok(lines)
}

// What is known with other lines in place of some: from there on, where neither refer to a label, else all anew.
fn noted_after(
    alloc: Global,
    old: &[Line],
    notes: &[Note],
    at: usize,
    count: usize,
    new: &[Line],
) -> Result<Vec<Note>, AllocError>
    requires place { at + count ≤ length old.now }
    requires right { notes.now ≡ known_of old.now }
    ensures { IfOk result (λ notes. notes.items ≡ known_of (replaced old.now at count new.now)) }
{
    let lines = joined(alloc, old, at, count, new)?;
    let straight = are_straight(&old[at..at + count], new);
    if !straight {
        return noted(alloc, &lines);
    }
    let mut gap = with_gap(alloc, notes, at, count, new.len())?;
    let rest = old.len() - (at + count);
    renew_by_index(alloc, &lines, &mut gap, at, lines.len() - rest)?;
    Ok(gap)
}

impl Noted {
    /// The segment, whose lines keep what a segment's lines keep, with what is known at them.
    pub fn seg(&self) -> &Seg
        ensures lines { result.now.lines ≡ self.now.lines }
        ensures out { result.now.out ≡ self.now.out }
        ensures kept { IsSegment self.now.lines }
        ensures noted { self.now.notes ≡ known_of self.now.lines }
    {
        &self.seg
    }

    /// What is known before a line; none exactly past the end.
    pub fn note(&self, at: usize) -> Option<&Note>
        ensures { option_map (λ note. note.now) result ≡ slice_get self.now.notes at }
    {
        self.notes.get(at)
    }

    /// Whether each value that is known before a line is the machine's. Past the end nothing is known.
    pub fn holds_at(&self, at: usize, machine: &Machine) -> bool
        ensures { result ≡ holds_of (slice_get self.now.notes at) machine.now }
    {
        match self.notes.get(at) {
            Some(note) => note.holds(machine),
            None => true,
        }
    }

    /// Other lines in place of some, and what is known then. After a refusal all is as before.
    pub fn replace(&mut self, at: usize, count: usize, lines: &[Line]) -> Result<(), Refusal>
        requires place { at + count ≤ length self.old.lines }
        requires kept { IsSegment (replaced self.old.lines at count lines.now) }
        ensures ok { OnOk result (self.new ≡ annotated (replaced self.old.lines at count lines.now) self.old.out) }
        ensures err { OnErr result (self.new ≡ self.old) }
        ensures refused { IfErr result (λ refusal. refusal ≡ OutOfMemory) }
    {
        let old = self.seg.lines();
        let near = stays_near(old, &self.notes, at, count, lines);
        if near {
            if lines.len() <= count {
                return self.replace_fewer(at, count, lines);
            }
            let rest = old.len() - (at + count);
            let mut notes = with_gap(self.alloc, &self.notes, at, count, lines.len())?;
            self.seg.replace(at, count, lines)?;
            let now = self.seg.lines();
            renew_straight(now, &mut notes, at, now.len() - rest);
            self.notes = notes;
            return Ok(());
        }
        let all = noted_after(self.alloc, old, &self.notes, at, count, lines)?;
        self.seg.replace(at, count, lines)?;
        self.notes = all;
        Ok(())
    }

    // No more new lines than old ones, where neither refer to a label: the notes stay in place.
    fn replace_fewer(&mut self, at: usize, count: usize, lines: &[Line]) -> Result<(), Refusal>
        requires place { at + count ≤ length self.old.lines }
        requires fewer { length lines.now ≤ count }
        requires kept { IsSegment (replaced self.old.lines at count lines.now) }
        requires old_straight { targets_of (take (at + count - at) (drop at self.old.lines)) ≡ [] }
        requires new_straight { targets_of lines.now ≡ [] }
        ensures ok { OnOk result (self.new ≡ annotated (replaced self.old.lines at count lines.now) self.old.out) }
        ensures err { OnErr result (self.new ≡ self.old) }
        ensures refused { IfErr result (λ refusal. refusal ≡ OutOfMemory) }
    {
        let rest = self.seg.lines().len() - (at + count);
        let unknown = vec![in self.alloc; Note::nothing(); lines.len()]?;
        self.seg.replace(at, count, lines)?;
        overwrite(&mut self.notes, at, count, &unknown);
        let now = self.seg.lines();
        renew_straight(now, &mut self.notes, at, now.len() - rest);
        Ok(())
    }

    /// The segment alone.
    pub fn into_seg(self) -> Seg
        ensures lines { result.lines ≡ self.lines }
        ensures out { result.out ≡ self.out }
    {
        self.seg
    }
}
