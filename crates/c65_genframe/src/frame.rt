// The frame of a function.
ghost use Rattle.std.specs.Prelude.{◌≡◌, ◌<◌, ◌≤◌, ◌^◌, length, option_map, option_copied, slice_get, IfOk};
ghost use Rattle.c65_base.specs.Answers.{Gives};
ghost use Rattle.c65_ctype.specs.Views.{ty_of, fn_of, types_of};
ghost use Rattle.c65_csem.specs.Views.{func_of};
ghost use Rattle.c65_genframe.specs.Frames.{is_variadic, takes_stack, has_prototype, register_param, home_at, arrival, is_kept, last_bytes, without_last, bytes_without, saved_bytes, check_of, settled, frame_of, frame_at, home_of, is_raised, type_bytes};
ghost use Rattle.c65_genframe.specs.Modes.{modes_of};
ghost use Rattle.c65_genframe.specs.Objects.{locals_of};
ghost use Rattle.c65_genframe.specs.Symbols.{numbers_of};

use crate::arrive::{Arrived, slots};
use crate::body::locals_of;
use crate::check::asked_bytes;
use crate::home::{Arrival, Home, Moved};
use crate::mark::{all_marks, lowest};
use crate::modes::Modes;
use crate::place::Placed;
use crate::sizes::{bank_bytes, bytes_or, slot_bytes};
use crate::symbols::Numbers;
use c65_base::{Options, Refusal, Size};
use c65_csem::{Parts, TFunc, TProgram};
use c65_ctype::{CType, FnType};
use std::alloc::{AllocError, Global};
use std::marker::Model;

/// Where the parameters and automatic objects of a function stand, and what its entry and its end
/// do about them.
#[derive(Drop)]
pub struct Frame<'a> {
    parts: &'a Parts,
    numbers: Numbers,
    low: u32,
    homes: Vec<Option<Home>>,
    moved: Vec<Moved>,
    variadic: bool,
    bank: u8,
    soft: u16,
    stacked: u16,
    last: Arrival,
    check: Option<u16>,
}

impl<'a> Model for Frame<'a> {
    ghost use Rattle.std.specs.Prelude.{◌≡◌};
    ghost use Rattle.c65_genframe.specs.Frames.{Framed};
    ghost use Rattle.c65_genframe.specs.Symbols.{numbers_of};

    ghost Value = { Framed };

    ghost use Rattle.c65_csem.specs.contracts.stmt.TStmt as s;
    ghost use Rattle.c65_csem.specs.contracts.expr.TExpr as e;
    ghost use Rattle.c65_ctype.specs.contracts.types.CType as ty;
    ghost use Rattle.c65_ctype.specs.contracts.types.FnType as f;
    ghost use Rattle.c65_ctype.specs.contracts.types.QType as q;
    ghost use Rattle.std.specs.Coded.{codes};

    ghost coded = { Prim.hlevel (codes, s.the_row.coded, e.the_row.coded, ty.the_row.coded, f.the_row.coded, q.the_row.coded) };

    ghost view = { λ f. record { parts = f.parts.now; low = f.low; homes = f.homes.items; moved = f.moved.items; variadic = f.variadic; bank = f.bank; soft = f.soft; stacked = f.stacked; last = f.last; check = f.check } };

    ghost invariant = { λ f. f.numbers ≡ numbers_of f.parts.now };
}

fn is_variadic(ty: &FnType) -> bool
    ensures { result ≡ is_variadic (fn_of ty.now) }
{
    ty.variadic
}

fn takes_stack(ty: &FnType) -> bool
    ensures { result ≡ takes_stack (fn_of ty.now) }
{
    ty.variadic || ty.cdecl
}

fn has_prototype(ty: &FnType) -> bool
    ensures { result ≡ has_prototype (fn_of ty.now) }
{
    ty.params.is_some()
}

/// The parameter that arrives in registers.
fn register_param(function: &TFunc) -> Option<u32>
    ensures { result ≡ register_param (func_of function.now) }
{
    if takes_stack(&function.ty) {
        return None;
    }
    function.params.last().copied()
}

fn home_at(homes: &[Option<Home>], low: u32, object: u32) -> Option<Home>
    ensures { result ≡ home_at low homes.now object }
{
    if object < low {
        return None;
    }
    match homes.get((object - low) as usize) {
        Some(home) => *home,
        None => None,
    }
}

/// How the last parameter arrives: its number is given where it arrives in registers.
fn arrival(
    parts: &Parts,
    prototype: bool,
    homes: &[Option<Home>],
    low: u32,
    last: Option<u32>,
) -> Arrival
    ensures { result ≡ arrival parts.now prototype low homes.now last }
{
    match last {
        Some(object) => match home_at(homes, low, object) {
            Some(Home::Bank(bank)) => Arrival::Kept(bank, bank_bytes(parts, true, object as usize)),
            Some(Home::Soft(_)) | None => Arrival::Pushed(slot_bytes(parts, prototype, object)),
        },
        None => Arrival::Passed,
    }
}

fn is_kept(last: Arrival) -> bool
    ensures { result ≡ is_kept last }
{
    match last {
        Arrival::Kept(_, _) => true,
        Arrival::Passed | Arrival::Pushed(_) => false,
    }
}

fn last_bytes(parts: &Parts, prototype: bool, last: Option<u32>) -> u32
    ensures { result ≡ last_bytes parts.now prototype last }
{
    match last {
        Some(object) => slot_bytes(parts, prototype, object),
        None => 0,
    }
}

fn stacked_params(params: &[u32], kept: bool) -> &[u32]
    ensures { result.now ≡ without_last kept params.now }
{
    match params {
        [rest @ .., _] if kept => rest,
        _ => params,
    }
}

fn stacked_bytes(passed: u16, last: u32, kept: bool) -> u16
    ensures exact { result ≡ bytes_without kept passed last }
    ensures small { result ≤ passed }
{
    if kept {
        (passed as u32).saturating_sub(last) as u16
    } else {
        passed
    }
}

fn saved_bytes(bank: u8) -> u16
    ensures exact { result ≡ saved_bytes bank }
    ensures small { result ≤ 6 }
{
    if bank < 6 { u16::from(bank) } else { 6 }
}

/// For how many bytes the entry asks, where it checks the stacks.
fn check_of(parts: &Parts, function: &TFunc, locals: &[u32], modes: Modes) -> Option<u16>
    requires { locals.now ≡ locals_of (func_of function.now) }
    ensures { result ≡ check_of parts.now modes (func_of function.now) }
{
    if !modes.checked {
        return None;
    }
    let last = last_bytes(parts, has_prototype(&function.ty), register_param(function));
    Some(asked_bytes(parts, function, locals, last))
}

/// The frame once each object has its home, but for parameters on the software stack.
fn arranged<'a>(
    alloc: Global,
    parts: &'a Parts,
    numbers: Numbers,
    function: &TFunc,
    low: u32,
    passed: u16,
    placed: Placed,
    check: Option<u16>,
) -> Result<Frame<'a>, AllocError>
    requires numbers { numbers ≡ numbers_of parts.now }
    requires passed { passed ≤ 1024 }
    ensures { IfOk result (λ f. f ≡ settled parts.entry.now check (func_of function.now) low passed placed) }
{
    let prototype = has_prototype(&function.ty);
    let param = register_param(function);
    let bank = placed.bank();
    let soft = placed.soft();
    let homes = placed.into_homes();
    let last = arrival(parts, prototype, &homes, low, param);
    let kept = is_kept(last);
    let stacked = stacked_bytes(passed, last_bytes(parts, prototype, param), kept);
    let mut arrived = Arrived::new(alloc, homes, stacked);
    let params = stacked_params(&function.params, kept);
    arrived.add_all(parts, prototype, low, soft + saved_bytes(bank), params)?;
    let (homes, moved) = arrived.into_parts();
    Ok(Frame {
        parts,
        numbers,
        low,
        homes,
        moved,
        variadic: is_variadic(&function.ty),
        bank,
        soft,
        stacked,
        last,
        check,
    })
}

impl<'a> Frame<'a> {
    /// The frame of a function of a program with these parts, by what the options ask for.
    /// Refuses as `new` does.
    pub fn of(
        alloc: Global,
        parts: &'a Parts,
        function: &TFunc,
        modes: Modes,
    ) -> Result<Frame<'a>, Refusal>
        ensures { Gives (λ f. f) result (frame_of parts.entry.now modes (func_of function.now)) }
    {
        let numbers = Numbers::of(parts)?;
        let params = function.params.as_slice();
        let locals = locals_of(alloc, function)?;
        let low = lowest(&locals, params);
        let passed = slots(parts, has_prototype(&function.ty), params);
        let marks = all_marks(alloc, &locals, params)?;
        let mut placed = Placed::new(alloc, is_variadic(&function.ty), passed);
        placed.add_all(parts, modes, low, &marks)?;
        if placed.total() > 1024 {
            return Err(Refusal::TooLarge {
                limit: Size::Frame,
                value: placed.total(),
            });
        }
        let check = check_of(parts, function, &locals, modes);
        let frame = arranged(
            alloc,
            parts,
            numbers,
            function,
            low,
            passed as u16,
            placed,
            check,
        )?;
        Ok(frame)
    }

    /// The frame of a function of the program, by its number; `register` is honoured where the
    /// options say so. Refuses `Frame` where its parameters and automatic objects have more than
    /// 1,024 bytes. A number that names no function is refused as want of memory.
    pub fn new(
        alloc: Global,
        program: &'a TProgram,
        func: u32,
        options: &Options,
    ) -> Result<Frame<'a>, Refusal>
        ensures { Gives (λ f. f) result (frame_at program.entry.now.0 (modes_of options.now) func) }
    {
        let parts = program.unit().parts();
        match parts.funcs.get(func as usize) {
            Some(function) => Frame::of(alloc, parts, function, Modes::of(options)),
            None => Err(Refusal::OutOfMemory),
        }
    }

    /// What the program declares.
    pub fn parts(&self) -> &'a Parts
        ensures { result.now ≡ self.now.parts }
    {
        self.parts
    }

    /// Where an object of the function stands; none for an object that is neither a parameter nor
    /// an automatic object of its body. It takes no memory.
    pub fn home(&self, object: u32) -> Option<Home>
        ensures { result ≡ home_of self.now object }
    {
        home_at(&self.homes, self.low, object)
    }

    /// Whether an object lies higher than its home says, by the bytes of the call's further
    /// arguments: a parameter of a variadic function. The byte at sp then holds the number of all
    /// bytes that the call pushed, and `stacked` of them are not of further arguments.
    pub fn is_raised(&self, object: u32) -> bool
        ensures { result ≡ is_raised self.now object }
    {
        match self.home(object) {
            Some(Home::Soft(offset)) => self.variadic && self.soft <= offset,
            _ => false,
        }
    }

    /// The parameters that move from the software stack to regbank at entry.
    pub fn moved(&self) -> &[Moved]
        ensures { result.now ≡ self.now.moved }
    {
        &self.moved
    }

    /// Whether the byte at sp holds the number of bytes that the call pushed.
    pub fn is_variadic(&self) -> bool
        ensures { result ≡ self.now.variadic }
    {
        self.variadic
    }

    /// How many bytes of regbank are taken, lowest first. They are saved above the
    /// bytes of `soft`.
    pub fn bank(&self) -> u8
        ensures { result ≡ self.now.bank }
    {
        self.bank
    }

    /// How many bytes at sp the entry takes for objects, and for the number of bytes of a variadic
    /// call.
    pub fn soft(&self) -> u16
        ensures { result ≡ self.now.soft }
    {
        self.soft
    }

    /// In how many bytes above those regbank is saved.
    pub fn saved(&self) -> u16
        ensures exact { result ≡ saved_bytes self.now.bank }
        ensures small { result ≤ 6 }
    {
        saved_bytes(self.bank)
    }

    /// How many bytes of parameters stand on the software stack, one that the entry pushed among
    /// them and further arguments not.
    pub fn stacked(&self) -> u16
        ensures { result ≡ self.now.stacked }
    {
        self.stacked
    }

    /// How the last parameter arrives.
    pub fn last(&self) -> Arrival
        ensures { result ≡ self.now.last }
    {
        self.last
    }

    /// For how many bytes of the software stack the entry asks; none where it does not check the stacks.
    pub fn check(&self) -> Option<u16>
        ensures { result ≡ self.now.check }
    {
        self.check
    }

    /// The bytes of a type; 0 where it has no size, or more than 65,535 bytes. It takes no memory.
    pub fn bytes(&self, ty: &CType) -> u32
        ensures exact { result ≡ type_bytes self.now (ty_of ty.now) }
        ensures small { result ≤ 65536 }
    {
        bytes_or(&self.parts.types, ty, 0)
    }

    /// How the symbols of the program are numbered.
    pub fn numbers(&self) -> Numbers
        ensures { result ≡ numbers_of self.now.parts }
    {
        self.numbers
    }
}
