// How parameters are passed, and where those on the software stack stand.
ghost use Rattle.std.specs.Prelude.{◌≡◌, ◌≤◌, [], OnOk};
ghost use Rattle.c65_genframe.specs.Arrivals.{slots, with_slot, arrived};

use crate::home::{Home, Moved};
use crate::place::more;
use crate::sizes::{bank_bytes, slot_bytes};
use c65_csem::Parts;
use std::alloc::{AllocError, Global};
use std::marker::Model;

/// The bytes in which these objects are passed.
pub fn slots(parts: &Parts, prototype: bool, params: &[u32]) -> u64
    ensures { result ≡ slots parts.now prototype params.now 0 }
{
    let mut total = 0;
    for object in params {
        total = more(total, slot_bytes(parts, prototype, *object));
    }
    total
}

/// The parameters on the software stack, from the first one on, which lies highest: the homes so
/// far, those that move to regbank, and how many bytes lie below the parameter before.
#[derive(Drop)]
pub struct Arrived {
    homes: Vec<Option<Home>>,
    moved: Vec<Moved>,
    left: u16,
}

impl Model for Arrived {
    ghost use Rattle.std.specs.Prelude.{◌≤◌};
    ghost use Rattle.c65_genframe.specs.Arrivals.{Arrivals};

    ghost Value = { Arrivals };

    ghost view = { λ a. record { homes = a.homes.items; moved = a.moved.items; left = a.left } };

    ghost invariant = { λ a. a.left ≤ 1024 };
}

impl Arrived {
    /// None of so many bytes yet.
    pub fn new(alloc: Global, homes: Vec<Option<Home>>, bytes: u16) -> Arrived
        requires { bytes ≤ 1024 }
        ensures { result ≡ record { homes = homes.items; moved = []; left = bytes } }
    {
        Arrived {
            homes,
            moved: Vec::new(alloc),
            left: bytes,
        }
    }

    /// One parameter of so many bytes, whose home is at this place of the list; the parameters begin
    /// so many bytes above sp.
    fn add(&mut self, base: u16, at: usize, slot: u32, bank: u8) -> Result<(), AllocError>
        requires { base ≤ 2048 }
        ensures { OnOk result (self.new ≡ with_slot base at slot bank self.old) }
    {
        let left = (self.left as u32).saturating_sub(slot) as u16;
        match self.homes.get(at) {
            Some(Some(Home::Bank(byte))) => {
                let moved = Moved {
                    bank: *byte,
                    from: base + left,
                    bytes: bank,
                };
                self.moved.push(moved)?;
            }
            Some(Some(Home::Soft(_))) => self.homes[at] = Some(Home::Soft(base + left)),
            _ => {}
        }
        self.left = left;
        Ok(())
    }

    /// All these parameters.
    pub fn add_all(
        &mut self,
        parts: &Parts,
        prototype: bool,
        low: u32,
        base: u16,
        params: &[u32],
    ) -> Result<(), AllocError>
        requires { base ≤ 2048 }
        ensures { OnOk result (self.new ≡ arrived parts.now prototype low base params.now self.old) }
    {
        for object in params {
            let at = object.saturating_sub(low) as usize;
            let slot = slot_bytes(parts, prototype, *object);
            self.add(base, at, slot, bank_bytes(parts, true, *object as usize))?;
        }
        Ok(())
    }

    pub fn into_parts(self) -> (Vec<Option<Home>>, Vec<Moved>)
        ensures homes { result.0.items ≡ self.homes }
        ensures moved { result.1.items ≡ self.moved }
    {
        let Arrived { homes, moved, .. } = self;
        (homes, moved)
    }
}
