// What a statement needs to know of its function (C90 6.6.1, 6.6.4.2, 6.6.6).
ghost use Rattle.std.specs.Prelude.{◌≡◌, ◌≤◌, ◌<◌, ◌++◌, ◌∷◌, [], IfOk, IfErr, OnOk, length, false};
ghost use Rattle.c65_base.specs.declared.code.Code.TheVariants.{CaseTwice, LooseStatement};
ghost use Rattle.c65_base.specs.declared.refusal.Refusal.TheVariants.{At};
ghost use Rattle.c65_ints.specs.Ranges.{wrap_of};
ghost use Rattle.c65_csem_check.specs.Statements.{same_value, has_value};
ghost use Rattle.c65_base.specs.Answers.{Gives};
ghost use Rattle.c65_init.specs.Bodies.{switch_of, body_of, label_met, label_named, value_added, default_added, case_met, default_met, in_switch, behind_switch, in_loop, behind_loop, may_continue, may_break};
ghost use Rattle.c65_init.specs.Causes.{IsLabelFault, IsCaseFault};

use crate::labels::{first_number, number_of};
use c65_base::{Code, Name, Pos, Refusal, Size};
use c65_ctype::QType;
use c65_ints::{IntType, wrap};
use std::alloc::{AllocError, Global};

/// A switch that is around: the type of its values, and the labels that it has so far.
#[derive(Drop)]
pub struct Switch {
    pub kind: IntType,
    pub values: Vec<i64>,
    pub has_default: bool,
}

/// The labels of a function and how many of them were met, what it gives, in how many loops the
/// statement stands, and the switches around.
#[derive(Drop)]
pub struct Body {
    pub labels: Vec<Name>,
    pub met: usize,
    pub gives: QType,
    pub loops: u32,
    pub switches: Vec<Switch>,
}

fn same_value(x: i64, y: i64) -> bool
    ensures { result ≡ same_value x y }
{
    x <= y && y <= x
}

fn has_value(values: &[i64], value: i64) -> bool
    ensures { result ≡ has_value values.now value }
{
    for other in values {
        if same_value(*other, value) {
            return true;
        }
    }
    false
}

/// One more value of a switch. Refuses `CaseTwice`, and `Cases` where it has 1,024.
fn add_value(switch: &mut Switch, known: i64, pos: Pos) -> Result<i64, Refusal>
    ensures exact { Gives (λ z. (z, switch_of switch.new)) result (value_added (switch_of switch.old) (wrap_of switch.old.kind known) pos) }
    ensures few { OnOk result (length switch.new.values.items ≤ 1024) }
    ensures added { OnOk result (switch.new.values.items ≡ switch.old.values.items ++ wrap_of switch.old.kind known ∷ []) }
    ensures once { OnOk result (has_value switch.old.values.items (wrap_of switch.old.kind known) ≡ false) }
    ensures value { IfOk result (λ z. z ≡ wrap_of switch.old.kind known) }
    ensures refused { IfErr result (IsCaseFault pos) }
{
    let known = wrap(switch.kind, known);
    if has_value(switch.values.as_slice(), known) {
        return Err(Refusal::fault(Code::CaseTwice, pos));
    }
    if switch.values.len() >= 1024 {
        return Err(Refusal::TooLarge {
            limit: Size::Cases,
            value: 1025,
        });
    }
    switch.values.push(known)?;
    Ok(known)
}

fn add_default(switch: &mut Switch, pos: Pos) -> Result<(), Refusal>
    ensures exact { Gives (λ x. switch_of switch.new) result (default_added (switch_of switch.old) pos) }
    ensures refused { IfErr result (λ e. e ≡ At CaseTwice pos) }
{
    if switch.has_default {
        return Err(Refusal::fault(Code::CaseTwice, pos));
    }
    switch.has_default = true;
    Ok(())
}

/// The value of a case label, converted to the type of its switch. Refuses `LooseStatement` outside
/// a switch.
#[tactic(auto, using(crate::proofs::BodyLaws::last_switch, crate::proofs::BodyLaws::no_switch, crate::proofs::BodyLaws::last_set))]
pub fn case_value(body: &mut Body, known: i64, pos: Pos) -> Result<i64, Refusal>
    ensures exact { Gives (λ z. (z, body_of body.new)) result (case_met (body_of body.old) known pos) }
    ensures refused { IfErr result (IsCaseFault pos) }
{
    match body.switches.last_mut() {
        Some(switch) => add_value(switch, known, pos),
        None => Err(Refusal::fault(Code::LooseStatement, pos)),
    }
}

/// A default label. Refuses `LooseStatement` outside a switch.
#[tactic(auto, using(crate::proofs::BodyLaws::last_switch, crate::proofs::BodyLaws::no_switch, crate::proofs::BodyLaws::last_set))]
pub fn default_label(body: &mut Body, pos: Pos) -> Result<(), Refusal>
    ensures exact { Gives (λ x. body_of body.new) result (default_met (body_of body.old) pos) }
    ensures refused { IfErr result (IsCaseFault pos) }
{
    match body.switches.last_mut() {
        Some(switch) => add_default(switch, pos),
        None => Err(Refusal::fault(Code::LooseStatement, pos)),
    }
}

/// The number of a label, which is met now.
pub fn label_number(body: &mut Body, name: Name, pos: Pos) -> Result<u32, Refusal>
    ensures exact { Gives (λ n. (n, body_of body.new)) result (label_met (body_of body.old) name pos) }
    ensures first { IfOk result (λ n. body.old.met ≤ n) }
    ensures refused { IfErr result (IsLabelFault pos) }
{
    let number = first_number(body.labels.as_slice(), body.met, name, pos)?;
    body.met = body.met.saturating_add(1);
    Ok(number)
}

/// The number of a label that a goto names. Refuses `LabelUnknown`.
pub fn named_label(body: &Body, name: Name, pos: Pos) -> Result<u32, Refusal>
    ensures exact { Gives (λ n. n) result (label_named (body_of body.now) name pos) }
    ensures known { IfOk result (λ n. n < length body.now.labels.items) }
    ensures refused { IfErr result (IsLabelFault pos) }
{
    match number_of(body.labels.as_slice(), name) {
        Some(number) => Ok(number),
        None => Err(Refusal::fault(Code::LabelUnknown, pos)),
    }
}

/// Refuses `LooseStatement` for a continue outside a loop.
pub fn within_loop(body: &Body, pos: Pos) -> Result<(), Refusal>
    ensures exact { Gives (λ x. tt) result (may_continue (body_of body.now) pos) }
    ensures inside { IfOk result (λ x. 0 < body.now.loops) }
    ensures refused { IfErr result (λ e. e ≡ At LooseStatement pos) }
{
    if body.loops > 0 {
        Ok(())
    } else {
        Err(Refusal::fault(Code::LooseStatement, pos))
    }
}

/// Refuses `LooseStatement` for a break outside a loop and a switch.
pub fn within_any(body: &Body, pos: Pos) -> Result<(), Refusal>
    ensures exact { Gives (λ x. tt) result (may_break (body_of body.now) pos) }
    ensures refused { IfErr result (λ e. e ≡ At LooseStatement pos) }
{
    if body.loops > 0 || !body.switches.is_empty() {
        Ok(())
    } else {
        Err(Refusal::fault(Code::LooseStatement, pos))
    }
}

pub fn open_loop(body: &mut Body)
    ensures { body_of body.new ≡ in_loop (body_of body.old) }
{
    body.loops = body.loops.saturating_add(1);
}

pub fn close_loop(body: &mut Body)
    ensures { body_of body.new ≡ behind_loop (body_of body.old) }
{
    body.loops = body.loops.saturating_sub(1);
}

/// Begins a switch over values of this type.
pub fn open_switch(alloc: Global, body: &mut Body, kind: IntType) -> Result<(), AllocError>
    ensures { OnOk result (body_of body.new ≡ in_switch (body_of body.old) kind) }
{
    body.switches.push(Switch {
        kind,
        values: Vec::new(alloc),
        has_default: false,
    })?;
    Ok(())
}

pub fn close_switch(body: &mut Body)
    ensures { body_of body.new ≡ behind_switch (body_of body.old) }
{
    body.switches.pop();
}
