// The numbers of functions.
ghost use Rattle.std.specs.Prelude.{◌≡◌, slice_get, IfOk};
ghost use Rattle.c65_depth.specs.Numbers as numbers;

use crate::calls::Call;
use crate::facts::{Facts, calls_at, cost_at};
use crate::reached::{Standing, reachable_at};
use std::alloc::{AllocError, Global};

/// What a function and those that it calls take of the two stacks, in bytes.
#[derive(Clone, Copy, Debug, PartialEq, Eq)]
pub struct Numbers {
    pub soft: u64,
    pub hard: u64,
}

pub const ZERO: Numbers = Numbers { soft: 0, hard: 0 };

fn bytes_to(func: usize, call: &Call) -> u64
    ensures { result ≡ numbers.bytes_to func call.now }
{
    match call.callee {
        Some(callee) if callee as usize == func => call.bytes,
        _ => 0,
    }
}

/// The bytes of the largest of these calls to a function.
fn largest_to(func: usize, calls: &[Call]) -> u64
    ensures { result ≡ numbers.largest_to func calls.now }
{
    let mut largest: u64 = 0;
    for call in calls {
        largest = largest.max(bytes_to(func, call));
    }
    largest
}

fn largest_from(graph: &[Facts], standings: &[Standing], to: usize, func: usize) -> u64
    ensures { result ≡ numbers.largest_from graph.now standings.now to func }
{
    if reachable_at(standings, func) {
        largest_to(to, calls_at(graph, func))
    } else {
        0
    }
}

/// The bytes of the largest call to a function, in functions that can be called from `main`; the start
/// passes `first` to `main`.
fn passed(graph: &[Facts], standings: &[Standing], main: usize, first: u64, func: usize) -> u64
    ensures { result ≡ numbers.passed graph.now standings.now main first func }
{
    let mut largest: u64 = 0;
    for caller in 0..graph.len() {
        largest = largest.max(largest_from(graph, standings, func, caller));
    }
    if func == main {
        first.max(largest)
    } else {
        largest
    }
}

fn with_passed(bytes: u64, cost: Option<u64>) -> Option<u64>
    ensures { result ≡ numbers.with_passed bytes cost }
{
    match cost {
        Some(cost) => Some(bytes.saturating_add(cost)),
        None => None,
    }
}

/// What a call of each function costs on the software stack with what it is passed.
pub fn costs(
    alloc: Global,
    graph: &[Facts],
    standings: &[Standing],
    main: usize,
    first: u64,
) -> Result<Vec<Option<u64>>, AllocError>
    ensures { IfOk result (λ all. all.items ≡ numbers.costs graph.now standings.now main first) }
{
    let mut costs = Vec::new(alloc);
    for func in 0..graph.len() {
        let bytes = passed(graph, standings, main, first, func);
        costs.push(with_passed(bytes, cost_at(graph, func)))?;
    }
    Ok(costs)
}

pub fn numbers_at(all: &[Numbers], func: usize) -> Numbers
    ensures { result ≡ numbers.or_zero (slice_get all.now func) }
{
    match all.get(func) {
        Some(found) => *found,
        None => ZERO,
    }
}

fn numbers_of(all: &[Numbers], callee: Option<u32>) -> Numbers
    ensures { result ≡ numbers.numbers_of all.now callee }
{
    match callee {
        Some(func) => numbers_at(all, func as usize),
        None => ZERO,
    }
}

/// The greatest numbers of the functions that these calls name.
fn greatest(all: &[Numbers], calls: &[Call]) -> Numbers
    ensures soft { result.soft ≡ numbers.greatest_soft all.now calls.now }
    ensures hard { result.hard ≡ numbers.greatest_hard all.now calls.now }
{
    let mut most = ZERO;
    for call in calls {
        let found = numbers_of(all, call.callee);
        most.soft = most.soft.max(found.soft);
        most.hard = most.hard.max(found.hard);
    }
    most
}

fn raised(all: &[Numbers], calls: &[Call], cost: Option<u64>) -> Numbers
    ensures { result ≡ numbers.raised all.now calls.now cost }
{
    match cost {
        Some(cost) => {
            let most = greatest(all, calls);
            Numbers {
                soft: cost.saturating_add(most.soft),
                hard: most.hard.saturating_add(2),
            }
        }
        None => ZERO,
    }
}

pub fn cost_in(costs: &[Option<u64>], func: usize) -> Option<u64>
    ensures { result ≡ numbers.flat (slice_get costs.now func) }
{
    match costs.get(func) {
        Some(cost) => *cost,
        None => None,
    }
}

/// One more call in a row.
fn next_numbers(
    alloc: Global,
    graph: &[Facts],
    costs: &[Option<u64>],
    all: &[Numbers],
) -> Result<Vec<Numbers>, AllocError>
    ensures { IfOk result (λ next. next.items ≡ numbers.next_numbers graph.now costs.now all.now) }
{
    let mut next = Vec::new(alloc);
    for func in 0..graph.len() {
        next.push(raised(all, calls_at(graph, func), cost_in(costs, func)))?;
    }
    Ok(next)
}

fn no_numbers(
    alloc: Global,
    graph: &[Facts],
    costs: &[Option<u64>],
) -> Result<Vec<Numbers>, AllocError>
    ensures { IfOk result (λ all. all.items ≡ numbers.numbers_after graph.now costs.now 0) }
{
    let mut all = Vec::new(alloc);
    for _round in 0..graph.len() {
        all.push(ZERO)?;
    }
    Ok(all)
}

/// The numbers of each function. A round that raises none is the last.
pub fn all_numbers(
    alloc: Global,
    graph: &[Facts],
    costs: &[Option<u64>],
) -> Result<Vec<Numbers>, AllocError>
    ensures { IfOk result (λ all. all.items ≡ numbers.all_numbers graph.now costs.now) }
{
    let mut all = no_numbers(alloc, graph, costs)?;
    for _round in 0..graph.len() {
        let next = next_numbers(alloc, graph, costs, &all)?;
        if next == all {
            return Ok(all);
        }
        all = next;
    }
    Ok(all)
}
