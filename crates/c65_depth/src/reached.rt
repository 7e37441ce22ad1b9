// Which functions can be called from `main`, and which lie on a call cycle.
ghost use Rattle.std.specs.Prelude.{◌≡◌, slice_get, IfOk};
ghost use Rattle.c65_depth.specs.Reached as reached;

use crate::calls::Call;
use crate::facts::{Facts, calls_at};
use std::alloc::{AllocError, Global};

/// One more than the greatest number of a function.
pub const NUMBERS: usize = 0x1_0000_0000;

/// Whether a function can be called from `main`, and whether it lies on a call cycle.
#[derive(Clone, Copy, Debug, PartialEq, Eq)]
pub struct Standing {
    pub reachable: bool,
    pub on_cycle: bool,
}

fn is_marked(marks: &[bool], func: usize) -> bool
    ensures { result ≡ reached.is_marked (slice_get marks.now func) }
{
    match marks.get(func) {
        Some(mark) => *mark,
        None => false,
    }
}

fn leads_by(to: usize, marks: &[bool], callee: Option<u32>) -> bool
    ensures { result ≡ reached.leads_by to marks.now callee }
{
    match callee {
        Some(func) => func as usize == to || is_marked(marks, func as usize),
        None => false,
    }
}

fn any_leads(to: usize, marks: &[bool], calls: &[Call]) -> bool
    ensures { result ≡ reached.any_leads to marks.now calls.now }
{
    for call in calls {
        if leads_by(to, marks, call.callee) {
            return true;
        }
    }
    false
}

/// One more call in a row.
fn next_leads(
    alloc: Global,
    graph: &[Facts],
    to: usize,
    marks: &[bool],
) -> Result<Vec<bool>, AllocError>
    ensures { IfOk result (λ next. next.items ≡ reached.next_leads graph.now to marks.now) }
{
    let mut next = Vec::new(alloc);
    for func in 0..graph.len() {
        next.push(any_leads(to, marks, calls_at(graph, func)))?;
    }
    Ok(next)
}

fn no_leads(alloc: Global, graph: &[Facts], to: usize) -> Result<Vec<bool>, AllocError>
    ensures { IfOk result (λ marks. marks.items ≡ reached.leads_after graph.now to 0) }
{
    let mut marks = Vec::new(alloc);
    for _round in 0..graph.len() {
        marks.push(false)?;
    }
    Ok(marks)
}

/// The functions from which calls lead to one. A round that marks no more is the last.
fn leads(alloc: Global, graph: &[Facts], to: usize) -> Result<Vec<bool>, AllocError>
    ensures { IfOk result (λ marks. marks.items ≡ reached.leads graph.now to) }
{
    let mut marks = no_leads(alloc, graph, to)?;
    for _round in 0..graph.len() {
        let next = next_leads(alloc, graph, to, &marks)?;
        if next == marks {
            return Ok(marks);
        }
        marks = next;
    }
    Ok(marks)
}

fn standing_of(
    alloc: Global,
    graph: &[Facts],
    main: usize,
    func: usize,
) -> Result<Standing, AllocError>
    ensures { IfOk result (λ s. s ≡ reached.standing graph.now main func) }
{
    let marks = leads(alloc, graph, func)?;
    Ok(Standing {
        reachable: func == main || is_marked(&marks, main),
        on_cycle: is_marked(&marks, func),
    })
}

/// The standing of each function.
pub fn standings(alloc: Global, graph: &[Facts], main: usize) -> Result<Vec<Standing>, AllocError>
    ensures { IfOk result (λ all. all.items ≡ reached.standings graph.now main) }
{
    let mut standings = Vec::new(alloc);
    for func in 0..graph.len() {
        standings.push(standing_of(alloc, graph, main, func)?)?;
    }
    Ok(standings)
}

pub fn reachable_at(standings: &[Standing], func: usize) -> bool
    ensures { result ≡ reached.reachable_at standings.now func }
{
    match standings.get(func) {
        Some(standing) => standing.reachable,
        None => false,
    }
}

fn cycle_at(standings: &[Standing], func: usize) -> bool
    ensures { result ≡ reached.cycle_at standings.now func }
{
    match standings.get(func) {
        Some(standing) => standing.on_cycle,
        None => false,
    }
}

/// Whether one of these calls goes through a pointer.
fn any_pointer(calls: &[Call]) -> bool
    ensures { result ≡ reached.any_pointer calls.now }
{
    for call in calls {
        if call.callee.is_none() {
            return true;
        }
    }
    false
}

fn is_unbounded(graph: &[Facts], standings: &[Standing], func: usize) -> bool
    ensures { result ≡ reached.is_unbounded graph.now standings.now func }
{
    reachable_at(standings, func)
        && (cycle_at(standings, func) || any_pointer(calls_at(graph, func)))
}

/// The first function that can be called from `main` and lies on a call cycle or calls through a pointer.
pub fn first_unbounded(graph: &[Facts], standings: &[Standing]) -> Option<u32>
    ensures { result ≡ reached.first_unbounded graph.now standings.now }
{
    let mut first = None;
    for func in 0..graph.len() {
        if first.is_none() && func < NUMBERS && is_unbounded(graph, standings, func) {
            first = Some(func as u32);
        }
    }
    first
}
