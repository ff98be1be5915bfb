//! Sums by texts.

ghost use Rattle.std.specs.Prelude.{◌≡◌, ◌<◌, [], OnOk, Some, length, slice_get};
ghost use Rattle.vx_results.specs.Sums as spec;

use indexmap::IndexMap;
use std::alloc::Global;
use std::marker::Model;
use vx_base::OutOfMemory;

/// Sums of numbers by texts, in the order in which the texts came first.
#[derive(Drop)]
pub(crate) struct Sums {
    entries: IndexMap<String, u64>,
}

impl Model for Sums {
    ghost use Rattle.std.specs.Prelude.{List, map, string_bytes};
    ghost use Rattle.vx_results.specs.Firsts.{Numbered};

    ghost Value = { List Numbered };

    ghost view = { λ sums. map (λ entry. (string_bytes entry.0, entry.1)) sums.entries.entries };
}

impl Sums {
    /// No sums; takes no memory.
    pub(crate) fn new(alloc: Global) -> Sums
        ensures { result ≡ [] }
    {
        Sums {
            entries: IndexMap::new(alloc),
        }
    }

    /// The sum for a text.
    pub(crate) fn sum(&self, text: &str) -> u64
        ensures { result ≡ spec.sum_at self.now text.now }
    {
        self.entries.get(text).copied().unwrap_or(0)
    }

    /// Adds a number to the sum for a text. A sum of 2^64 is told as want of memory, too.
    pub(crate) fn add(&mut self, alloc: Global, text: &str, number: u32) -> Result<(), OutOfMemory>
        ensures { OnOk result (self.new ≡ spec.raised self.old text.now number) }
    {
        let sum = self.sum(text);
        let more = sum.checked_add(u64::from(number)).ok_or(OutOfMemory)?;
        self.entries.insert(String::from_str(alloc, text)?, more)?;
        Ok(())
    }

    /// How many texts there are.
    pub(crate) fn len(&self) -> usize
        ensures { result ≡ length self.now }
    {
        self.entries.len()
    }

    /// The text at a place.
    pub(crate) fn text_at(&self, place: usize) -> &str
        requires { place < length self.now }
        ensures { slice_get (spec.kept_texts self.now) place ≡ Some result.now }
    {
        let (text, _) = self.entries.get_index(place).unwrap();
        text.as_str()
    }
}
