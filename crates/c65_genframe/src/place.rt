// Each object gets its home, in the order of their numbers.
ghost use Rattle.std.specs.Prelude.{◌≡◌, ◌+◌, ◌≤◌, [], IsTrue, OnOk, IfOk};
ghost use Rattle.c65_genframe.specs.Places.{more, fits, none_placed, with_none, with_banked, with_soft, with_later, with_local, with_parameter, with_object, with_marked, placed_all};

use crate::home::Home;
use crate::mark::Mark;
use crate::modes::Modes;
use crate::sizes::{bank_bytes, is_fixed, object_bytes};
use c65_csem::Parts;
use std::alloc::{AllocError, Global};
use std::marker::Model;

/// The homes so far, from the lowest number on: how many bytes of regbank are taken, how many bytes
/// above sp, and how many bytes parameters and objects have in all. Once these are more than 1,024,
/// no object of a block gets a home any more.
#[derive(Drop)]
pub struct Placed {
    homes: Vec<Option<Home>>,
    bank: u8,
    soft: u16,
    total: u64,
}

impl Model for Placed {
    ghost use Rattle.std.specs.Prelude.{◌≤◌, ◌+◌};
    ghost use Rattle.c65_genframe.specs.Places.{Places};

    ghost Value = { Places };

    ghost view = { λ p. record { homes = p.homes.items; bank = p.bank; soft = p.soft; total = p.total } };

    ghost invariant = { λ p. (p.bank ≤ 6) × (p.soft ≤ 1025) × (p.soft ≤ p.total + 1) };
}

/// A sum that stands still at the greatest u64.
pub fn more(total: u64, bytes: u32) -> u64
    ensures sum { result ≡ more total bytes }
    ensures grows { total ≤ result }
{
    total.saturating_add(bytes as u64)
}

impl Placed {
    /// No homes yet. The byte at sp may be taken, and so many bytes are known.
    pub fn new(alloc: Global, first: bool, total: u64) -> Placed
        ensures { result ≡ none_placed first total }
    {
        Placed {
            homes: Vec::new(alloc),
            bank: 0,
            soft: if first { 1 } else { 0 },
            total,
        }
    }

    pub fn bank(&self) -> u8
        ensures same { result ≡ self.now.bank }
        ensures small { result ≤ 6 }
    {
        self.bank
    }

    pub fn soft(&self) -> u16
        ensures same { result ≡ self.now.soft }
        ensures small { result ≤ 1025 }
    {
        self.soft
    }

    pub fn total(&self) -> u64
        ensures { result ≡ self.now.total }
    {
        self.total
    }

    pub fn into_homes(self) -> Vec<Option<Home>>
        ensures { result.items ≡ self.homes }
    {
        let Placed { homes, .. } = self;
        homes
    }

    fn fits(&self, bank: u8) -> bool
        requires { bank ≤ 2 }
        ensures { result ≡ fits bank self.now }
    {
        bank > 0 && self.bank + bank <= 6
    }

    fn add_none(&mut self, total: u64) -> Result<(), AllocError>
        requires { self.old.total ≤ total }
        ensures { OnOk result (self.new ≡ with_none total self.old) }
    {
        self.homes.push(None)?;
        self.total = total;
        Ok(())
    }

    fn add_banked(&mut self, bank: u8, total: u64) -> Result<(), AllocError>
        requires room { self.old.bank + bank ≤ 6 }
        requires grows { self.old.total ≤ total }
        ensures { OnOk result (self.new ≡ with_banked bank total self.old) }
    {
        self.homes.push(Some(Home::Bank(self.bank)))?;
        self.bank += bank;
        self.total = total;
        Ok(())
    }

    fn add_soft(&mut self, bytes: u32, total: u64) -> Result<(), AllocError>
        requires sum { self.old.total + bytes ≤ total }
        requires few { total ≤ 1024 }
        ensures { OnOk result (self.new ≡ with_soft bytes total self.old) }
    {
        self.homes.push(Some(Home::Soft(self.soft)))?;
        self.soft += bytes as u16;
        self.total = total;
        Ok(())
    }

    fn add_later(&mut self) -> Result<(), AllocError>
        ensures { OnOk result (self.new ≡ with_later self.old) }
    {
        self.homes.push(Some(Home::Soft(0)))?;
        Ok(())
    }

    /// An object of a block of so many bytes, which takes so many in regbank if it may stand there.
    fn add_local(&mut self, bank: u8, bytes: u32) -> Result<(), AllocError>
        requires { bank ≤ 2 }
        ensures same { OnOk result (self.new ≡ with_local bank bytes self.old) }
        ensures grows { OnOk result (self.old.total ≤ self.new.total) }
    {
        let total = more(self.total, bytes);
        if total > 1024 {
            self.add_none(total)
        } else if self.fits(bank) {
            self.add_banked(bank, total)
        } else {
            self.add_soft(bytes, total)
        }
    }

    /// A parameter, whose place above sp comes later.
    fn add_parameter(&mut self, bank: u8) -> Result<(), AllocError>
        requires { bank ≤ 2 }
        ensures same { OnOk result (self.new ≡ with_parameter bank self.old) }
        ensures grows { OnOk result (self.old.total ≤ self.new.total) }
    {
        if self.fits(bank) {
            self.add_banked(bank, self.total)
        } else {
            self.add_later()
        }
    }

    /// An object of a block. One that has one place for the whole run has no home.
    fn add_object(&mut self, parts: &Parts, modes: Modes, object: usize) -> Result<(), AllocError>
        ensures same { OnOk result (self.new ≡ with_object parts.now modes object self.old) }
        ensures grows { OnOk result (self.old.total ≤ self.new.total) }
    {
        if is_fixed(parts, object) {
            return self.add_none(self.total);
        }
        let bank = bank_bytes(parts, modes.honoured, object);
        self.add_local(bank, object_bytes(parts, object))
    }

    fn add(
        &mut self,
        parts: &Parts,
        modes: Modes,
        object: usize,
        mark: Mark,
    ) -> Result<(), AllocError>
        ensures same { OnOk result (self.new ≡ with_marked parts.now modes object mark self.old) }
        ensures grows { OnOk result (self.old.total ≤ self.new.total) }
    {
        match mark {
            Mark::Other => self.add_none(self.total),
            Mark::Local => self.add_object(parts, modes, object),
            Mark::Parameter => self.add_parameter(bank_bytes(parts, modes.honoured, object)),
        }
    }

    /// All objects with these marks, the first of which is that of the object with number `low`.
    pub fn add_all(
        &mut self,
        parts: &Parts,
        modes: Modes,
        low: u32,
        marks: &[Mark],
    ) -> Result<(), AllocError>
        ensures same { OnOk result (self.new ≡ placed_all parts.now modes low marks.now self.old) }
        ensures grows { OnOk result (self.old.total ≤ self.new.total) }
    {
        for (index, mark) in marks.iter().enumerate() {
            self.add(parts, modes, low as usize + index, *mark)?;
        }
        Ok(())
    }
}
