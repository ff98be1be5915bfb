ghost use Rattle.std.specs.Prelude.{◌≡◌, ◌*◌, ◌^◌, ◌≤◌, ◌↔◌, IsTrue, IfOk, OnOk};

use crate::limbs::{is_no_more, multiply};
use std::alloc::Global;
use std::marker::Model;
use vx_base::OutOfMemory;

/// A whole number of any size: its limbs of 64 bits, the least first. Contracts see the number.
#[derive(Debug, Drop)]
pub(crate) struct Natural {
    limbs: Vec<u64>,
}

impl Model for Natural {
    ghost use Rattle.std.specs.Prelude.{ℕ};
    ghost use Rattle.vx_risk.specs.Limbs.{number_of};

    ghost Value = { ℕ };

    ghost view = { λ natural. number_of natural.limbs.items };
}

impl Natural {
    pub(crate) fn from_number(alloc: Global, number: u64) -> Result<Self, OutOfMemory>
        ensures { IfOk result (λ natural. natural ≡ number) }
    {
        let mut limbs = Vec::new(alloc);
        limbs.push(number)?;
        Ok(Natural { limbs })
    }

    pub(crate) fn copy(&self, alloc: Global) -> Result<Self, OutOfMemory>
        ensures { IfOk result (λ natural. natural ≡ self.now) }
    {
        Ok(Natural {
            limbs: Vec::from_slice(alloc, self.limbs.as_slice())?,
        })
    }

    /// Multiplies by a factor.
    pub(crate) fn times(&mut self, factor: u64) -> Result<(), OutOfMemory>
        ensures { OnOk result (self.new ≡ factor * self.old) }
    {
        multiply(&mut self.limbs, factor)?;
        Ok(())
    }

    /// Multiplies by a factor so many times.
    pub(crate) fn times_power(&mut self, factor: u64, count: u32) -> Result<(), OutOfMemory>
        ensures { OnOk result (self.new ≡ factor ^ count * self.old) }
    {
        for _time in 0..count {
            self.times(factor)?;
        }
        Ok(())
    }

    pub(crate) fn is_at_most(&self, other: &Natural) -> bool
        ensures { IsTrue result ↔ (self.now ≤ other.now) }
    {
        is_no_more(self.limbs.as_slice(), other.limbs.as_slice())
    }
}
