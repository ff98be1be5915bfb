ghost use Rattle.std.specs.Prelude.{◌≡◌, ◌<◌, ◌++◌, ◌∷◌, [], Some, length, slice_get, if◌then◌else◌, is_ok};

use std::alloc::{AllocError, Global};
use std::marker::Model;

/// The words of a command, in order.
#[derive(Drop)]
pub struct Words {
    texts: Vec<String>,
}

impl Model for Words {
    ghost use Rattle.std.specs.Prelude.{List, ℕ, ◌≤◌, length, map, string_bytes};

    ghost Value = { List (List ℕ) };

    ghost view = { λ words. map (λ text. string_bytes text) words.texts.items };

    ghost invariant = { λ words. length words.texts.items ≤ 1000000 };
}

impl Words {
    /// No words; takes no memory.
    pub fn new(alloc: Global) -> Self
        ensures { result ≡ [] }
    {
        Words {
            texts: Vec::new(alloc),
        }
    }

    /// Adds a word at the end. After want of memory the words are as before.
    pub fn push(&mut self, word: &str) -> Result<(), AllocError>
        requires { length self.old < 1000000 }
        ensures { self.new ≡ (if is_ok result then self.old ++ word.now ∷ [] else self.old) }
    {
        let text = String::from_str(*self.texts.allocator(), word)?;
        self.texts.push(text)?;
        Ok(())
    }

    /// How many words there are: at most a million.
    pub fn count(&self) -> u32
        ensures { result ≡ length self.now }
    {
        self.texts.len() as u32
    }

    /// The word at an index, counted from 0.
    pub fn word(&self, index: u32) -> &str
        requires { index < length self.now }
        ensures { slice_get self.now index ≡ Some result.now }
    {
        self.texts[index as usize].as_str()
    }
}
