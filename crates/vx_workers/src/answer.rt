ghost use Rattle.std.specs.Prelude.{◌≡◌, ◌<◌, ◌^◌, length, slice_get, All, IfOk, Some};
ghost use Rattle.vx_workers.specs.Answers.{MayTake, IsAnswer, IsAnswerOf};

use crate::gate::Gate;
use vx_base::OutOfMemory;

/// The task of the item at a place.
pub fn answer_at<T, U, G: Gate, F: Fn(&T) -> Result<U, OutOfMemory>>(
    items: &[T],
    place: usize,
    gate: &G,
    task: &F,
) -> Result<U, OutOfMemory>
    requires few_items { length items.now < 2 ^ 32 }
    requires within { place < length items.now }
    requires takes_each { All (MayTake F.Fn task.now) items.now }
    ensures { IfOk result (IsAnswerOf F.Fn task.now items.now place) }
{
    answer_of(item_at(items, place), place as u32 + 1, gate, task)
}

fn item_at<T>(items: &[T], place: usize) -> &T
    requires { place < length items.now }
    ensures { slice_get items.now place ≡ Some result.now }
{
    &items[place]
}

/// The task of an item, begun with its gate.
fn answer_of<T, U, G: Gate, F: Fn(&T) -> Result<U, OutOfMemory>>(
    item: &T,
    number: u32,
    gate: &G,
    task: &F,
) -> Result<U, OutOfMemory>
    requires { MayTake F.Fn task.now item.now }
    ensures { IfOk result (IsAnswer F.Fn task.now item.now) }
{
    let _ = gate.enter(number);
    task(item)
}
