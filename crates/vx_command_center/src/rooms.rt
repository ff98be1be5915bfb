//! Memory for what the items' inputs hold. New memory takes longer to be had than a scan takes to be read into
//! it, so threads make that of the items behind the first ready, while the inputs before are read.
ghost use Rattle.std.specs.Prelude.{◌≡◌, ◌∷◌, [], IfErr, IfOk, is_ok, length};
ghost use Rattle.vx_command.specs.Devices.{TouchesInputs};
ghost use Rattle.vx_command_center.specs.Asking.{AsksSizes, names_of};
ghost use Rattle.vx_command_center.specs.Outcome.{name_in};
ghost use Rattle.vx_command_center.specs.Taking.{BreaksBefore};

use crate::item::input_for;
use std::alloc::Global;
use std::thread::{JoinHandle, Threads, spawn};
use vx_base::{Bytes, ListOf, OutOfMemory};
use vx_command::Halt;
use vx_io::{Inputs, questions_asked};
use vx_words::ItemWord;

/// A thread that makes memory ready for an input; none where the memory is had when the input is read.
pub(crate) type Room = Option<JoinHandle<Result<Bytes, OutOfMemory>>>;

/// How many bytes the input of an item has; 0 where there is none, or more than it may have.
#[tactic(auto, using(crate::proofs::Asking::one_sized))]
fn length_for<I: Inputs>(item: &ItemWord, inputs: &mut I) -> Result<usize, Halt>
    ensures broke { IfErr result BreaksBefore }
    ensures inputs { TouchesInputs I.Inputs inputs.old inputs.new result }
    ensures asked { AsksSizes I.Inputs (name_in item.now ∷ []) inputs.old inputs.new (is_ok result) }
{
    let (name, limit) = input_for(item);
    match inputs.size(name) {
        Ok(Some(size)) if size <= limit => Ok(size as usize),
        Ok(_) => Ok(0),
        Err(_failed) => Err(Halt::ReadFault),
    }
}

/// How many bytes the inputs of all items have, in order.
fn lengths_for<I: Inputs>(
    alloc: Global,
    words: &[ItemWord],
    inputs: &mut I,
) -> Result<ListOf<usize>, Halt>
    ensures as_many { IfOk result (λ lengths. length lengths ≡ length words.now) }
    ensures broke { IfErr result BreaksBefore }
    ensures inputs { TouchesInputs I.Inputs inputs.old inputs.new result }
    ensures asked { AsksSizes I.Inputs (names_of words.now) inputs.old inputs.new (is_ok result) }
{
    questions_asked();
    let mut lengths = ListOf::new(alloc);
    for item in words {
        let length = length_for(item, inputs)?;
        lengths.push(length)?;
    }
    Ok(lengths)
}

/// So many zeros in new memory.
fn zeros(alloc: Global, length: usize) -> Result<Bytes, OutOfMemory> {
    let mut bytes = Vec::new(alloc);
    bytes.resize(length, 0)?;
    Ok(Bytes::from_vec(bytes))
}

/// Begins to make memory of these lengths ready but for the first, by a thread for each, that of the last first.
fn begin_rooms<R: Threads>(
    rt: &R,
    alloc: Global,
    lengths: &[usize],
) -> Result<Vec<Room>, OutOfMemory> {
    let mut rooms = Vec::new(alloc);
    for length in lengths {
        let length = *length;
        let room = if rooms.is_empty() {
            None
        } else {
            spawn(rt, move || -> Result<Bytes, OutOfMemory> {
                zeros(alloc, length)
            })
            .ok()
        };
        rooms.push(room)?;
    }
    rooms.reverse();
    Ok(rooms)
}

/// Begins to make memory of the length of each item's input ready, that of the last item first. It asks for the
/// sizes alone.
pub(crate) fn rooms_for<R: Threads, I: Inputs>(
    rt: &R,
    alloc: Global,
    words: &[ItemWord],
    inputs: &mut I,
) -> Result<Vec<Room>, Halt>
    ensures broke { IfErr result BreaksBefore }
    ensures inputs { TouchesInputs I.Inputs inputs.old inputs.new result }
    ensures asked { AsksSizes I.Inputs (names_of words.now) inputs.old inputs.new (is_ok result) }
{
    let lengths = lengths_for(alloc, words, inputs)?;
    let rooms = begin_rooms(rt, alloc, lengths.as_slice())?;
    Ok(rooms)
}

/// The memory that stands last of what is left, when it is ready, whatever is in it.
pub(crate) fn next_room<R: Threads>(rt: &R, alloc: Global, rooms: &mut Vec<Room>) -> Bytes {
    match rooms.pop() {
        Some(Some(thread)) => thread.join(rt).unwrap_or(Bytes::new(alloc)),
        Some(None) | None => Bytes::new(alloc),
    }
}

/// Waits for the threads that are left, and gives their memory back.
pub(crate) fn leave_rooms<R: Threads>(rt: &R, rooms: Vec<Room>) {
    for room in rooms {
        if let Some(thread) = room {
            let _unused = thread.join(rt);
        }
    }
}
