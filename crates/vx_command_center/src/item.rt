ghost use Rattle.std.specs.Prelude.{◌≡◌};
ghost use Rattle.vx_command_center.specs.Items.{possible_of};
ghost use Rattle.vx_command_center.specs.Outcome.{limit_of, name_in};

use vx_base::{Bytes, ListOf};
use vx_center::Events;
use vx_command::INPUT_LIMIT;
use vx_json::Text;
use vx_script::SCRIPT_LIMIT;
use vx_words::ItemWord;

/// A piece of work at a shared center, which a thread of its own does.
#[derive(Debug, Drop)]
pub enum Item {
    /// The events of a station's script, in the order of its lines.
    Script {
        events: Events,
    },
    /// The sheets of a scan, as a batch: of two images each, numbered from 1.
    Scan {
        batch: Text,
        /// Bitmaps, as a scan input holds them.
        bytes: Bytes,
        /// How many sheets of two images they have.
        sheets: u32,
    },
}

/// Items, in order.
pub type Items = ListOf<Item>;

fn shared<T: Send + Sync>() {}

/// Threads may share an item and hand it over.
pub fn item_is_shared() {
    shared::<Item>();
}

/// How many events an item may have.
pub(crate) fn possible_in(item: &Item) -> u64
    ensures { result ≡ possible_of item.now }
{
    match item {
        Item::Script { events } => events.len() as u64,
        Item::Scan { sheets, .. } => *sheets as u64,
    }
}

/// The name of an item's input, and the most bytes that it may have.
pub(crate) fn input_for(item: &ItemWord) -> (&str, u64)
    ensures name { result.0.now ≡ name_in item.now }
    ensures limit { result.1 ≡ limit_of item.now }
{
    match item {
        ItemWord::Script { name } => (name.as_str(), SCRIPT_LIMIT),
        ItemWord::Scan { name, .. } => (name.as_str(), INPUT_LIMIT),
    }
}
