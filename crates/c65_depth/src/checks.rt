// Whether a certificate covers each function that can be called from `main`, and the stacks have room.
ghost use Rattle.std.specs.Prelude.{◌≡◌, ◌==◌, find, slice_get, IfOk};
ghost use Rattle.c65_depth.specs.Checks as checks;

use crate::calls::Call;
use crate::facts::{Facts, calls_at, cost_at};
use crate::numbers::{Numbers, ZERO, cost_in};
use crate::program::CertRow;
use crate::reached::{Standing, reachable_at};
use std::alloc::{AllocError, Global};

/// The bytes of the software stack that calls and arguments may take together.
const SOFT_LIMIT: u64 = 1_984;

/// The bytes of the hard stack that calls may take.
const HARD_LIMIT: u64 = 224;

/// The first row of a function.
fn first_row(rows: &[CertRow], func: usize) -> Option<CertRow>
    ensures { result ≡ find (λ r. r.func == func) rows.now }
{
    for row in rows {
        if row.func as usize == func {
            return Some(*row);
        }
    }
    None
}

fn given_by(rows: &[CertRow], func: usize) -> Option<Numbers>
    ensures { result ≡ checks.given_by rows.now func }
{
    match first_row(rows, func) {
        Some(row) => Some(Numbers {
            soft: row.soft,
            hard: row.hard,
        }),
        None => None,
    }
}

fn given_to(rows: &[CertRow], func: usize, cost: Option<u64>) -> Option<Numbers>
    ensures { result ≡ checks.given_to rows.now func cost }
{
    match cost {
        Some(_) => given_by(rows, func),
        None => Some(ZERO),
    }
}

/// The numbers that a certificate gives to each function.
pub fn given_all(
    alloc: Global,
    graph: &[Facts],
    rows: &[CertRow],
) -> Result<Vec<Option<Numbers>>, AllocError>
    ensures { IfOk result (λ given. given.items ≡ checks.given_all graph.now rows.now) }
{
    let mut given = Vec::new(alloc);
    for func in 0..graph.len() {
        given.push(given_to(rows, func, cost_at(graph, func)))?;
    }
    Ok(given)
}

fn given_in(given: &[Option<Numbers>], func: usize) -> Option<Numbers>
    ensures { result ≡ checks.flat_numbers (slice_get given.now func) }
{
    match given.get(func) {
        Some(found) => *found,
        None => None,
    }
}

fn given_at(given: &[Option<Numbers>], callee: Option<u32>) -> Option<Numbers>
    ensures { result ≡ checks.given_at given.now callee }
{
    match callee {
        Some(func) => given_in(given, func as usize),
        None => None,
    }
}

fn covers(cost: u64, numbers: Numbers, callee: Numbers) -> bool
    ensures { result ≡ checks.covers cost numbers callee }
{
    let soft = cost as u128 + callee.soft as u128;
    let hard = callee.hard as u128 + 2;
    soft <= numbers.soft as u128 && hard <= numbers.hard as u128
}

fn covers_if(cost: u64, numbers: Numbers, callee: Option<Numbers>) -> bool
    ensures { result ≡ checks.covers_if cost numbers callee }
{
    match callee {
        Some(callee) => covers(cost, numbers, callee),
        None => false,
    }
}

fn covers_all(cost: u64, numbers: Numbers, given: &[Option<Numbers>], calls: &[Call]) -> bool
    ensures { result ≡ checks.covers_all cost numbers given.now calls.now }
{
    for call in calls {
        if !covers_if(cost, numbers, given_at(given, call.callee)) {
            return false;
        }
    }
    true
}

fn is_covered(
    cost: u64,
    calls: &[Call],
    given: &[Option<Numbers>],
    numbers: Option<Numbers>,
) -> bool
    ensures { result ≡ checks.is_covered cost calls.now given.now numbers }
{
    match numbers {
        Some(numbers) => {
            numbers.soft <= SOFT_LIMIT
                && covers(cost, numbers, ZERO)
                && covers_all(cost, numbers, given, calls)
        }
        None => false,
    }
}

fn meets(
    calls: &[Call],
    given: &[Option<Numbers>],
    numbers: Option<Numbers>,
    cost: Option<u64>,
) -> bool
    ensures { result ≡ checks.meets calls.now given.now numbers cost }
{
    match cost {
        Some(cost) => is_covered(cost, calls, given, numbers),
        None => true,
    }
}

fn fits(args: u32, numbers: Option<Numbers>) -> bool
    ensures { result ≡ checks.fits args numbers }
{
    match numbers {
        Some(numbers) => {
            numbers.soft as u128 + args as u128 <= SOFT_LIMIT as u128 && numbers.hard <= HARD_LIMIT
        }
        None => false,
    }
}

fn is_met(
    graph: &[Facts],
    costs: &[Option<u64>],
    standings: &[Standing],
    given: &[Option<Numbers>],
    func: usize,
) -> bool
    ensures { result ≡ checks.is_met graph.now costs.now standings.now given.now func }
{
    !reachable_at(standings, func)
        || meets(
            calls_at(graph, func),
            given,
            given_in(given, func),
            cost_in(costs, func),
        )
}

/// Whether each function that can be called from `main` has numbers that cover it, and those of `main` fit.
pub fn are_met(
    graph: &[Facts],
    costs: &[Option<u64>],
    standings: &[Standing],
    given: &[Option<Numbers>],
    main: usize,
    args: u32,
) -> bool
    ensures { result ≡ checks.are_met graph.now costs.now standings.now given.now main args }
{
    let mut met = true;
    for func in 0..graph.len() {
        met = met && is_met(graph, costs, standings, given, func);
    }
    met && fits(args, given_in(given, main))
}
