// Expansion line by line (C90 6.8.3).
ghost use Rattle.std.specs.Prelude.{◌≡◌, List, [], ◌++◌, true, None, is_some, IsTrue, IfErr, OnErr, IfOk, OnOk};
ghost use Rattle.c65_base.specs.declared.refusal.Refusal.TheVariants.{OutOfMemory};
ghost use Rattle.c65_macro.specs.Refusals.{StopsExpansion, StopsFeeding};
ghost use Rattle.c65_macro.specs.Sets.{Extends};
ghost use Rattle.c65_macro.specs.Expand;
ghost use Rattle.c65_macro.specs.Feeding.{Adds, Ends, EndsIn, Feeds, IsNew, Rejects, open_place};
ghost use Rattle.c65_macro.specs.declared.sets.Node.{Node};
ghost use Rattle.c65_macro.specs.Items.{items};
ghost use Rattle.c65_macro.specs.Views.{items_of, tokens_of};
ghost use Rattle.c65_macro.specs.Machine.{stage_of, tail_of};

use crate::gather::LIMIT;
use crate::marked::{Marked, is_line_end};
use crate::sets::Sets;
use crate::state::{Begun, Level, State, marked, unmarked};
use crate::table::Macros;
use c65_base::{Code, Names, Pos, Refusal};
use c65_lex::PpToken;
use std::alloc::{AllocError, Global};
use std::mem;

/// The expansion of a list of tokens that comes line by line (C90 6.8.3). Between two lines it holds what waits for
/// tokens to come, and nothing else: a macro's name with the line ends behind it, or the arguments of a use as far as
/// they are there.
#[derive(Drop)]
pub struct Expander {
    held: Vec<Marked>,
    room: u64,
    sets: Sets,
    begun: Option<Begun>,
    /// The place of a macro's name whose use can not end: all that follows changes nothing.
    fault: Option<Pos>,
    alloc: Global,
}

/// The place that a refusal tells of a use that is open at the end.
fn open_place(refusal: &Refusal) -> Option<Pos>
    ensures { result ≡ open_place refusal.now }
{
    match refusal {
        Refusal::At {
            code: Code::OpenArguments,
            pos,
        } => Some(*pos),
        _ => None,
    }
}

/// Whether these are line ends alone.
fn are_line_ends(line: &[PpToken]) -> bool {
    line.iter().all(|token| is_line_end(token))
}

impl Expander {
    /// Nothing is fed.
    pub fn new(alloc: Global) -> Expander
        ensures { IsNew result }
    {
        Expander {
            held: Vec::new(alloc),
            room: LIMIT,
            sets: Sets::new(alloc),
            begun: None,
            fault: None,
            alloc,
        }
    }

    /// Takes the next tokens of the list, up to the end of a line or not, and adds to `out` what they and those before
    /// expand to as far as that does not depend on tokens to come. The macros are the same from the first call to
    /// `finish`. It refuses MacroArguments and BadPaste, and too many arguments, tokens or names. After a refusal `out`
    /// is as before the call, and the expander is not used again.
    pub fn feed(
        &mut self,
        macros: &Macros,
        line: Vec<PpToken>,
        names: &mut Names,
        out: &mut Vec<PpToken>,
    ) -> Result<(), Refusal>
        ensures refused { IfErr result StopsFeeding }
        ensures grows { Extends names.old names.new }
        ensures kept { OnErr result (out.new.items ≡ out.old.items) }
        ensures fed { OnOk result (Adds out.old.items out.new.items (λ came. Feeds macros.now names.old self.old line.items came names.new self.new)) }
        ensures faults { IfErr result (λ e. Rejects macros.now names.old self.old line.items e) }
    {
        if self.fault.is_some() {
            return Ok(());
        }
        let is_waiting = !self.held.is_empty() && are_line_ends(&line);
        self.hold(line)?;
        if is_waiting {
            return Ok(());
        }
        self.go_on(macros, names, out)
    }

    /// Ends the list, and adds to `out` what is left of its expansion. From then on the expander is as new. The
    /// macros and the refusals are those of `feed`, and OpenArguments. After a refusal `out` is as before the call, and
    /// the expander is not used again.
    pub fn finish(
        &mut self,
        macros: &Macros,
        names: &mut Names,
        out: &mut Vec<PpToken>,
    ) -> Result<(), Refusal>
        ensures refused { IfErr result StopsExpansion }
        ensures grows { Extends names.old names.new }
        ensures kept { OnErr result (out.new.items ≡ out.old.items) }
        ensures renewed { OnOk result (IsNew self.new) }
        ensures ended { OnOk result (Adds out.old.items out.new.items (λ came. Ends macros.now names.old self.old came names.new)) }
        ensures faults { IfErr result (λ e. EndsIn macros.now names.old self.old e) }
    {
        if let Some(pos) = self.fault {
            return Err(Refusal::At {
                code: Code::OpenArguments,
                pos,
            });
        }
        let mut state = self.state(false)?;
        let begun = mem::replace(&mut self.begun, None);
        match macros.go_on(&mut state, begun, names) {
            Ok(begun) => self.end(state, begun, out),
            Err(refusal) => Err(refusal),
        }
    }

    /// Adds a line to what is held.
    fn hold(&mut self, line: Vec<PpToken>) -> Result<(), AllocError>
        ensures held { OnOk result ((nodes : List Node) → items_of nodes self.new.held.items ≡ items_of nodes self.old.held.items ++ items line.items) }
        ensures same { (self.new.room ≡ self.old.room) × (self.new.sets ≡ self.old.sets) × (self.new.begun ≡ self.old.begun) × (self.new.fault ≡ self.old.fault) }
    {
        let held = mem::replace(&mut self.held, Vec::new(self.alloc));
        self.held = marked(held, &line)?;
        Ok(())
    }

    /// The expansion of what is held, behind which more may come or not.
    fn state(&mut self, is_open: bool) -> Result<State, AllocError>
        ensures stage { IfOk result (λ s. (nodes : List Node) (more : List PpToken) → stage_of nodes more s.level ≡ record { rest = items_of nodes self.old.held.items ++ tail_of more is_open; out = []; room = self.old.room; outside = 0 }) }
        ensures pending { IfOk result (λ s. s.pending.items ≡ []) }
        ensures sets { IfOk result (λ s. s.sets ≡ self.old.sets) }
        ensures same { (self.new.begun ≡ self.old.begun) × (self.new.fault ≡ self.old.fault) }
    {
        let held = mem::replace(&mut self.held, Vec::new(self.alloc));
        let sets = mem::replace(&mut self.sets, Sets::new(self.alloc));
        let mut level = Level::new(self.alloc, 0);
        level.rest.push_all(held)?;
        level.room = self.room;
        level.is_open = is_open;
        Ok(State {
            level,
            pending: Vec::new(self.alloc),
            sets,
        })
    }

    /// Expands what is held as far as that does not depend on tokens to come.
    fn go_on(
        &mut self,
        macros: &Macros,
        names: &mut Names,
        out: &mut Vec<PpToken>,
    ) -> Result<(), Refusal>
        requires { self.old.fault ≡ None }
        ensures refused { IfErr result StopsFeeding }
        ensures grows { Extends names.old names.new }
        ensures kept { OnErr result (out.new.items ≡ out.old.items) }
        ensures fed { OnOk result (Adds out.old.items out.new.items (λ came. Feeds macros.now names.old self.old [] came names.new self.new)) }
        ensures faults { IfErr result (λ e. Rejects macros.now names.old self.old [] e) }
    {
        let mut state = self.state(true)?;
        let begun = mem::replace(&mut self.begun, None);
        match macros.go_on(&mut state, begun, names) {
            Ok(begun) => self.keep(state, begun, out),
            Err(refusal) => self.stop(state.sets, refusal),
        }
    }

    /// Gives what came out, and holds what waits. It is the lowest list that waits; otherwise nothing is promised but the
    /// answer for want of memory.
    fn keep(
        &mut self,
        state: State,
        begun: Option<Begun>,
        out: &mut Vec<PpToken>,
    ) -> Result<(), Refusal>
        ensures refused { IfErr result (λ e. e ≡ OutOfMemory) }
        ensures kept { OnErr result (out.new.items ≡ out.old.items) }
        ensures given { OnOk result (out.new.items ≡ out.old.items ++ tokens_of state.level.out.items) }
        ensures lowest { OnOk result ((state.pending.items ≡ []) × (state.level.outside ≡ 0) × (state.level.is_open ≡ true)) }
        ensures holds { OnOk result ((self.new.held.items ≡ state.level.rest) × (self.new.room ≡ state.level.room) × (self.new.sets ≡ state.sets) × (self.new.begun ≡ begun) × (self.new.fault ≡ self.old.fault)) }
    {
        let is_lowest = state.pending.is_empty() && state.level.outside == 0;
        if !is_lowest || !state.level.is_open {
            return Err(Refusal::OutOfMemory);
        }
        let State { level, sets, .. } = state;
        let Level {
            rest,
            out: came,
            room,
            ..
        } = level;
        let held = rest.into_items(self.alloc)?;
        let tokens = unmarked(self.alloc, &came)?;
        out.extend_from_slice(&tokens)?;
        self.held = held;
        self.room = room;
        self.sets = sets;
        self.begun = begun;
        Ok(())
    }

    /// What a refusal is told as before the end.
    fn stop(&mut self, sets: Sets, refusal: Refusal) -> Result<(), Refusal>
        ensures told { IfErr result (λ e. (e ≡ refusal) × (open_place refusal ≡ None)) }
        ensures fault { OnOk result ((self.new.fault ≡ open_place refusal) × IsTrue (is_some (open_place refusal))) }
        ensures sets { OnOk result (self.new.sets ≡ sets) }
    {
        match open_place(&refusal) {
            Some(pos) => {
                self.fault = Some(pos);
                self.sets = sets;
                Ok(())
            }
            None => Err(refusal),
        }
    }

    /// Gives what came out at the end. All is expanded then; otherwise nothing is promised but the answer for want of
    /// memory.
    fn end(
        &mut self,
        state: State,
        begun: Option<Begun>,
        out: &mut Vec<PpToken>,
    ) -> Result<(), Refusal>
        ensures refused { IfErr result (λ e. e ≡ OutOfMemory) }
        ensures kept { OnErr result (out.new.items ≡ out.old.items) }
        ensures given { OnOk result (out.new.items ≡ out.old.items ++ tokens_of state.level.out.items) }
        ensures done { OnOk result ((state.pending.items ≡ []) × (state.level.rest ≡ []) × (begun ≡ None)) }
        ensures renewed { OnOk result (IsNew self.new) }
    {
        if !state.pending.is_empty() || !state.level.rest.is_empty() || begun.is_some() {
            return Err(Refusal::OutOfMemory);
        }
        let tokens = unmarked(self.alloc, &state.level.out)?;
        out.extend_from_slice(&tokens)?;
        *self = Expander::new(self.alloc);
        Ok(())
    }
}

impl Macros {
    /// The expansion of a list of tokens (C90 6.8.3): one that is fed at once.
    pub fn expand(&self, line: &[PpToken], names: &mut Names) -> Result<Vec<PpToken>, Refusal>
        ensures refused { IfErr result StopsExpansion }
        ensures grows { Extends names.old names.new }
        ensures expands { IfOk result (λ out. Expand.Expands self.now names.old line.now out.items names.new) }
        ensures faults { IfErr result (λ e. Expand.Refuses e self.now names.old line.now) }
    {
        let alloc = self.alloc();
        let mut expander = Expander::new(alloc);
        let mut out = Vec::new(alloc);
        expander.feed(self, Vec::from_slice(alloc, line)?, names, &mut out)?;
        expander.finish(self, names, &mut out)?;
        Ok(out)
    }
}
