//! The items of a command, taken one after another.
ghost use Rattle.std.specs.Prelude.{◌≡◌, ◌+◌, ◌≤◌, ◌∷◌, [], All, IfOk, is_ok, length};
ghost use Rattle.std.specs.Option.{ForSome};
ghost use Rattle.vx_base.specs.Refusals.{Gives};
ghost use Rattle.vx_election_model.specs.Valid.{IsValid};
ghost use Rattle.vx_command.specs.Asking.{Asks};
ghost use Rattle.vx_command.specs.Devices.{TouchesInputs, TouchesNothing};
ghost use Rattle.vx_command.specs.Steps.{GivesTaking, is_no_memory};
ghost use Rattle.vx_words.specs.Items.{AreItemWords, IsItem};
ghost use Rattle.vx_command_center.specs.Asking.{AsksItems, names_of};
ghost use Rattle.vx_command_center.specs.Items.{FitsItem, possible_in_all, possible_of};
ghost use Rattle.vx_command_center.specs.Outcome as outcome;
ghost use Rattle.vx_command_center.specs.Outcome.{item_in, limit_of, name_in, taken_item};
ghost use Rattle.vx_command_center.specs.Taking.{TakesItems};

use crate::item::{Item, Items, input_for, possible_in};
use crate::lines::{scan_item, script_events};
use crate::rooms::{Room, leave_rooms, next_room, rooms_for};
use std::alloc::Global;
use std::thread::Threads;
use vx_base::Bytes;
use vx_command::{Halt, acts_in_order, asks_in_order, steps_in_order, take_input};
use vx_election_model::Election;
use vx_io::{Inputs, questions_asked};
use vx_words::ItemWord;

/// The most events that a shared center takes.
const EVENT_LIMIT: u64 = 1_000_000;

/// An item by the bytes of its input.
fn item_of(
    alloc: Global,
    election: &Election,
    word: u32,
    item: &ItemWord,
    bytes: Bytes,
) -> Result<Item, Halt>
    requires valid { IsValid election.now }
    requires item { IsItem item.now }
    requires few { length bytes ≤ limit_of item.now }
    ensures exact { Gives is_no_memory result (item_in election.now word item.now bytes) }
    ensures fits { IfOk result (FitsItem election.now) }
    ensures devices { TouchesNothing result }
{
    match item {
        ItemWord::Script { .. } => {
            let events = script_events(alloc, election, bytes.as_slice())?;
            Ok(Item::Script { events })
        }
        ItemWord::Scan { batch, .. } => scan_item(alloc, word, batch.as_str(), bytes),
    }
}

/// An item, unless the items up to it may have too many events.
fn within_limit(word: u32, before: u64, item: Item) -> Result<Item, Halt>
    requires { before ≤ 1000000 }
    ensures exact { result ≡ outcome.within_limit word before item }
    ensures within { IfOk result (λ taken. before + possible_of taken ≤ 1000000) }
    ensures devices { TouchesNothing result }
{
    let count = before + possible_in(&item);
    if count > EVENT_LIMIT {
        return Err(Halt::TooManyEvents(word, count));
    }
    Ok(item)
}

/// Takes the item of a word, behind others that may have so many events, into the memory of `room`.
fn take_item<I: Inputs>(
    alloc: Global,
    room: Bytes,
    election: &Election,
    word: u32,
    before: u64,
    item: &ItemWord,
    inputs: &mut I,
) -> Result<Item, Halt>
    requires valid { IsValid election.now }
    requires item { IsItem item.now }
    requires few { before ≤ 1000000 }
    ensures told { ForSome (I.held inputs.old) (λ files. GivesTaking word result
        (taken_item election.now word before item.now (files (name_in item.now)))) }
    ensures fits { IfOk result (FitsItem election.now) }
    ensures within { IfOk result (λ taken. before + possible_of taken ≤ 1000000) }
    ensures inputs { TouchesInputs I.Inputs inputs.old inputs.new result }
    ensures asked { Asks I.Inputs (name_in item.now ∷ []) inputs.old inputs.new (is_ok result) }
{
    asks_in_order::<I>();
    let (name, limit) = input_for(item);
    let bytes = take_input(room, inputs, name, word, limit)?;
    let taken = item_of(alloc, election, word, item, bytes)?;
    within_limit(word, before, taken)
}

/// Takes the items that the words from 4 on name, each into the memory that stands last of what is left.
fn take_into<R: Threads, I: Inputs>(
    rt: &R,
    alloc: Global,
    election: &Election,
    rooms: &mut Vec<Room>,
    words: &[ItemWord],
    inputs: &mut I,
) -> Result<Items, Halt>
    requires valid { IsValid election.now }
    requires words { AreItemWords words.now }
    ensures told { ForSome (I.held inputs.old) (λ files. TakesItems election.now files words.now result) }
    ensures fits { IfOk result (All (FitsItem election.now)) }
    ensures as_many { IfOk result (λ items. length items ≡ length words.now) }
    ensures within { IfOk result (λ items. possible_in_all items ≤ 1000000) }
    ensures inputs { TouchesInputs I.Inputs inputs.old inputs.new result }
    ensures asked { Asks I.Inputs (names_of words.now) inputs.old inputs.new (is_ok result) }
{
    acts_in_order();
    asks_in_order::<I>();
    steps_in_order::<Item>();
    let mut items = Items::new(alloc);
    let mut word = 4;
    let mut before = 0;
    for item in words {
        let room = next_room(rt, alloc, rooms);
        let taken = take_item(alloc, room, election, word, before, item, inputs)?;
        before += possible_in(&taken);
        items.push(taken)?;
        word += 1;
    }
    Ok(items)
}

/// Takes the items that the words from 4 on name. It asks for the sizes of all their inputs first.
pub(crate) fn take_items<R: Threads, I: Inputs>(
    rt: &R,
    alloc: Global,
    election: &Election,
    words: &[ItemWord],
    inputs: &mut I,
) -> Result<Items, Halt>
    requires valid { IsValid election.now }
    requires words { AreItemWords words.now }
    ensures told { ForSome (I.held inputs.old) (λ files. TakesItems election.now files words.now result) }
    ensures fits { IfOk result (All (FitsItem election.now)) }
    ensures as_many { IfOk result (λ items. length items ≡ length words.now) }
    ensures within { IfOk result (λ items. possible_in_all items ≤ 1000000) }
    ensures inputs { TouchesInputs I.Inputs inputs.old inputs.new result }
    ensures asked { AsksItems I.Inputs words.now inputs.old inputs.new (is_ok result) }
{
    questions_asked();
    steps_in_order::<Item>();
    let mut rooms = rooms_for(rt, alloc, words, inputs)?;
    let taken = take_into(rt, alloc, election, &mut rooms, words, inputs);
    leave_rooms(rt, rooms);
    taken
}
