//! Items among the words.

ghost use Rattle.std.specs.Prelude.{◌≡◌, ◌≢◌, ◌<◌, ◌≤◌, ◌↔◌, All, ℕ, List, IsTrue, MatchOption, drop, length, map};
ghost use Rattle.vx_words.specs.Items.{IsItem, IsItemWord, ReadsItem, ReadsItems, item_word};
ghost use Rattle.vx_words.specs.declared.command.ItemWord.TheVariants.{Scan, Script};

use crate::command::{ItemWord, ItemWords};
use crate::fault::UsageFault;
use std::alloc::Global;
use vx_events::is_batch;
use vx_io::Words;
use vx_json::Text;

/// The name of a script that a word names: what stands behind `script:`, unless it is empty.
fn script_name(word: &str) -> Option<&str>
    ensures { MatchOption result
        ((name : List ℕ) → IsItem (Script name) → word.now ≢ item_word (Script name))
        (λ name. IsItem (Script name.now) × (word.now ≡ item_word (Script name.now))) }
{
    let name = word.strip_prefix("script:")?;
    if name.is_empty() { None } else { Some(name) }
}

/// The batch and the name of a scan that a word names: what stands behind `scan:` before and behind its
/// first colon, unless the one is no batch or the other is empty.
fn scan_parts(word: &str) -> Option<(&str, &str)>
    ensures { MatchOption result
        ((batch name : List ℕ) → IsItem (Scan batch name) → word.now ≢ item_word (Scan batch name))
        (λ parts. IsItem (Scan parts.0.now parts.1.now)
        × (word.now ≡ item_word (Scan parts.0.now parts.1.now))) }
{
    let rest = word.strip_prefix("scan:")?;
    let (batch, name) = rest.split_once(':')?;
    if !is_batch(batch.as_bytes()) {
        return None;
    }
    if name.is_empty() {
        None
    } else {
        Some((batch, name))
    }
}

/// Whether a word names an item.
fn is_item(word: &str) -> bool
    ensures { IsTrue result ↔ IsItemWord word.now }
{
    let Some(_name) = script_name(word) else {
        return match scan_parts(word) {
            Some(_parts) => true,
            None => false,
        };
    };
    true
}

/// Whether all words from one on name items.
pub fn are_items(words: &Words, from: u32) -> bool
    requires { from ≤ length words.now }
    ensures { IsTrue result ↔ All IsItemWord (drop from words.now) }
{
    for index in from..words.count() {
        if !is_item(words.word(index)) {
            return false;
        }
    }
    true
}

/// The item that a word names.
fn item_of(alloc: Global, word: &str) -> Result<ItemWord, UsageFault>
    ensures { ReadsItem word.now result }
{
    if let Some(name) = script_name(word) {
        let name = Text::from_str(alloc, name)?;
        return Ok(ItemWord::Script { name });
    }
    let Some((batch, name)) = scan_parts(word) else {
        return Err(UsageFault::Usage);
    };
    let batch = Text::from_str(alloc, batch)?;
    let name = Text::from_str(alloc, name)?;
    Ok(ItemWord::Scan { batch, name })
}

/// The items that the words from one on name.
pub fn items_from(alloc: Global, words: &[&str], from: usize) -> Result<ItemWords, UsageFault>
    requires { from ≤ length words.now }
    ensures { ReadsItems (drop from (map (λ word. word.now) words.now)) result }
{
    let mut items = ItemWords::new(alloc);
    for index in from..words.len() {
        items.push(item_of(alloc, words[index])?)?;
    }
    Ok(items)
}
