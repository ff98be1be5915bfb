ghost use Rattle.std.specs.Prelude.{◌≡◌, ◌++◌, ◌∷◌, ◌<◌, [], Some, length, map, option_map, slice_get, string_bytes, if◌then◌else◌, is_ok, drop, IsSomeAnd};
ghost use Rattle.vx_io.specs.Fakes.{files_of, is_among, kept_at};

use std::alloc::{AllocError, Global};
use std::marker::Model;
use vx_base::{Bytes, ListOf};

/// A list of names and the bytes under each; the first pair with a name counts.
#[derive(Drop)]
pub struct NamedBytes {
    items: Vec<(String, Bytes)>,
}

impl Model for NamedBytes {
    ghost use Rattle.std.specs.Prelude.{List, ℕ, map, string_bytes};

    ghost Value = { List (List ℕ × List ℕ) };

    ghost view = { λ files. map (λ file. (string_bytes file.0, file.1)) files.items.items };
}

impl NamedBytes {
    /// No files; takes no memory.
    pub fn new(alloc: Global) -> Self
        ensures { result ≡ [] }
    {
        NamedBytes {
            items: Vec::new(alloc),
        }
    }

    /// The pairs of a `Vec`; takes no memory.
    pub fn from_vec(items: Vec<(String, Bytes)>) -> Self
        ensures { result ≡ map (λ file. (string_bytes file.0, file.1)) items.items }
    {
        NamedBytes { items }
    }

    /// The `Vec` that holds the pairs; takes no memory.
    pub fn into_vec(self) -> Vec<(String, Bytes)>
        ensures { map (λ file. (string_bytes file.0, file.1)) result.items ≡ self }
    {
        let NamedBytes { items } = self;
        items
    }

    /// Adds a pair at the end. After want of memory the list is as before.
    pub fn push(&mut self, name: &str, bytes: Bytes) -> Result<(), AllocError>
        ensures { self.new ≡ (if is_ok result then self.old ++ (name.now, bytes) ∷ [] else self.old) }
    {
        let name = String::from_str(*self.items.allocator(), name)?;
        self.items.push((name, bytes))?;
        Ok(())
    }

    /// The bytes under a name.
    pub(crate) fn find(&self, name: &str) -> Option<&Bytes>
        ensures { option_map (λ bytes. bytes.now) result ≡ files_of self.now name.now }
    {
        for (other, bytes) in &self.items {
            if other.as_str() == name {
                return Some(bytes);
            }
        }
        None
    }

    /// The bytes under a name from an offset inside them on.
    pub(crate) fn rest(&self, name: &str, at: u64) -> &[u8]
        requires { IsSomeAnd (files_of self.now name.now) (λ bytes. at < length bytes) }
        ensures some { 0 < length result.now }
        ensures rest { IsSomeAnd (files_of self.now name.now) (λ bytes. result.now ≡ drop at bytes) }
    {
        let bytes = self.find(name).unwrap();
        &bytes.as_slice()[at as usize..]
    }
}

/// A list of call numbers, from 1 on.
pub type Calls = ListOf<u64>;

/// Whether a number, where there is one, is in the list.
pub(crate) fn is_among(calls: &Calls, number: Option<u64>) -> bool
    ensures { result ≡ is_among calls.now number }
{
    match number {
        Some(number) => calls.as_slice().contains(&number),
        None => false,
    }
}

/// A list of call numbers, from 1 on, each with whether an append of this number keeps its record.
pub type KeeperCalls = ListOf<(u64, bool)>;

/// What the first pair with a number says, where there is one.
pub(crate) fn kept_at(calls: &KeeperCalls, number: Option<u64>) -> Option<bool>
    ensures { result ≡ kept_at calls.now number }
{
    let number = number?;
    for (call, kept) in calls.as_slice() {
        if *call == number {
            return Some(*kept);
        }
    }
    None
}

/// A list of byte records.
#[derive(Drop)]
pub struct Records {
    items: Vec<Bytes>,
}

impl Model for Records {
    ghost use Rattle.std.specs.Prelude.{List, ℕ};

    ghost Value = { List (List ℕ) };

    ghost view = { λ records. records.items.items };
}

impl Records {
    /// No records; takes no memory.
    pub fn new(alloc: Global) -> Self
        ensures { result ≡ [] }
    {
        Records {
            items: Vec::new(alloc),
        }
    }

    /// The records of a `Vec`; takes no memory.
    pub fn from_vec(items: Vec<Bytes>) -> Self
        ensures { result ≡ items.items }
    {
        Records { items }
    }

    /// The `Vec` that holds the records; takes no memory.
    pub fn into_vec(self) -> Vec<Bytes>
        ensures { result.items ≡ self }
    {
        let Records { items } = self;
        items
    }

    pub fn len(&self) -> usize
        ensures { result ≡ length self.now }
    {
        self.items.len()
    }

    /// The record at an index, counted from 0.
    pub fn record(&self, index: usize) -> &Bytes
        requires { index < length self.now }
        ensures { slice_get self.now index ≡ Some result.now }
    {
        &self.items[index]
    }

    /// Adds a copy of a slice as a record at the end. After want of memory the list is as before.
    pub fn push(&mut self, body: &[u8]) -> Result<(), AllocError>
        ensures { self.new ≡ (if is_ok result then self.old ++ body.now ∷ [] else self.old) }
    {
        let record = Bytes::from_slice(*self.items.allocator(), body)?;
        self.items.push(record)?;
        Ok(())
    }
}
