ghost use Rattle.std.specs.Prelude.{◌≡◌, ◌++◌, [], length, chars, IfOk, is_ok, if◌then◌else◌, string_bytes};

use std::alloc::Global;
use std::marker::Model;
use vx_base::{ListOf, OutOfMemory};

/// A text. Contracts see the list of its bytes in UTF-8.
#[derive(Debug, Drop)]
pub struct Text {
    text: String,
}

impl Model for Text {
    ghost use Rattle.std.specs.Prelude.{List, ℕ, string_bytes};

    ghost Value = { List ℕ };

    ghost view = { λ text. string_bytes text.text };
}

impl Text {
    /// The empty text; takes no memory.
    pub fn new(alloc: Global) -> Self
        ensures { result ≡ [] }
    {
        Text {
            text: String::new(alloc),
        }
    }

    /// A copy of a borrowed text.
    pub fn from_str(alloc: Global, text: &str) -> Result<Text, OutOfMemory>
        ensures { IfOk result (λ copy. copy ≡ text.now) }
    {
        Ok(Text {
            text: String::from_str(alloc, text)?,
        })
    }

    /// The text of a `String`; takes no memory.
    pub fn from_string(text: String) -> Self
        ensures { result ≡ string_bytes text }
    {
        Text { text }
    }

    /// The `String` that holds the text; takes no memory.
    pub fn into_string(self) -> String
        ensures { string_bytes result ≡ self }
    {
        let Text { text } = self;
        text
    }

    /// An equal text.
    pub fn copy(&self, alloc: Global) -> Result<Text, OutOfMemory>
        ensures { IfOk result (λ copy. copy ≡ self.now) }
    {
        Text::from_str(alloc, self.text.as_str())
    }

    /// The text, lent.
    pub fn as_str(&self) -> &str
        ensures { result.now ≡ self.now }
    {
        self.text.as_str()
    }

    /// The number of characters, which are Unicode scalar values.
    pub fn characters(&self) -> usize
        ensures { result ≡ length (chars self.now) }
    {
        characters_of(self.text.as_str())
    }

    /// Adds a text at the end. After want of memory the text is as before.
    pub fn push_str(&mut self, more: &str) -> Result<(), OutOfMemory>
        ensures { self.new ≡ (if is_ok result then self.old ++ more.now else self.old) }
    {
        self.text.push_str(more)
    }
}

/// A list of texts.
pub type Texts = ListOf<Text>;

/// The number of characters of a text, which are Unicode scalar values.
pub fn characters_of(text: &str) -> usize
    ensures { result ≡ length (chars text.now) }
{
    text.chars().count()
}
