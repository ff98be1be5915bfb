ghost use Rattle.std.specs.Prelude.{◌≡◌, ◌<◌, ◌^◌, length, All, IfOk, IfSome, Some, vec_len, slice_set};
ghost use Rattle.vx_workers.specs.Answers.{MayTake, IsAnswerOf, IsAnswerAt, IsShare, ArePlaces, AnswersInOrder};

use crate::answer::answer_at;
use crate::gate::Gate;
use std::alloc::Global;
use vx_base::OutOfMemory;

/// A task's answer and the place of its item, counted from 0.
#[derive(Drop)]
pub struct Answered<U> {
    pub place: usize,
    pub answer: U,
}

/// The workers' answers in the order of their items. An item that none of them has is left to the
/// caller.
pub fn put_in_order<T, U: Drop, G: Gate, F: Fn(&T) -> Result<U, OutOfMemory>>(
    alloc: Global,
    items: &[T],
    mut shares: Vec<Result<Vec<Answered<U>>, OutOfMemory>>,
    gate: &G,
    task: &F,
) -> Result<Vec<U>, OutOfMemory>
    requires few_items { length items.now < 2 ^ 32 }
    requires takes_each { All (MayTake F.Fn task.now) items.now }
    requires shares { All (IsShare F.Fn task.now items.now) shares.items }
    ensures { IfOk result (λ given. AnswersInOrder F.Fn task.now items.now given.items) }
{
    let mut places = empty_places(alloc, items, task)?;
    while let Some(share) = shares.pop() {
        keep_all(items, &mut places, share?, task);
    }
    take_answers(alloc, items, places, gate, task)
}

/// An empty place for each item.
fn empty_places<T, U: Drop, F: Fn(&T) -> Result<U, OutOfMemory>>(
    alloc: Global,
    items: &[T],
    _task: &F,
) -> Result<Vec<Option<U>>, OutOfMemory>
    ensures { IfOk result (λ places. ArePlaces F.Fn _task.now items.now places.items) }
{
    let mut places = Vec::with_capacity(alloc, items.len())?;
    for _ in items {
        places.push(None)?;
    }
    Ok(places)
}

/// Puts the answers of one worker into their places.
fn keep_all<T, U: Drop, F: Fn(&T) -> Result<U, OutOfMemory>>(
    _items: &[T],
    places: &mut Vec<Option<U>>,
    mut share: Vec<Answered<U>>,
    _task: &F,
)
    requires places { ArePlaces F.Fn _task.now _items.now places.old.items }
    requires share { All (IsAnswerAt F.Fn _task.now _items.now) share.items }
    ensures { ArePlaces F.Fn _task.now _items.now places.new.items }
{
    while let Some(done) = share.pop() {
        keep(places, done);
    }
}

/// Puts an answer into its place.
fn keep<U: Drop>(places: &mut Vec<Option<U>>, done: Answered<U>)
    requires { done.place < vec_len places.old }
    ensures { places.new.items ≡ slice_set places.old.items done.place (Some done.answer) }
{
    let Answered { place, answer } = done;
    places[place] = Some(answer);
}

/// The answers of the places in order. The caller does the items whose places are empty.
fn take_answers<T, U: Drop, G: Gate, F: Fn(&T) -> Result<U, OutOfMemory>>(
    alloc: Global,
    items: &[T],
    mut places: Vec<Option<U>>,
    gate: &G,
    task: &F,
) -> Result<Vec<U>, OutOfMemory>
    requires few_items { length items.now < 2 ^ 32 }
    requires takes_each { All (MayTake F.Fn task.now) items.now }
    requires places { ArePlaces F.Fn task.now items.now places.items }
    ensures { IfOk result (λ given. AnswersInOrder F.Fn task.now items.now given.items) }
{
    let mut answers = Vec::with_capacity(alloc, items.len())?;
    for place in 0..items.len() {
        let kept = places[place].take();
        answers.push(answer_from(kept, items, place, gate, task)?)?;
    }
    Ok(answers)
}

/// The answer that was kept, or else the caller's.
fn answer_from<T, U: Drop, G: Gate, F: Fn(&T) -> Result<U, OutOfMemory>>(
    kept: Option<U>,
    items: &[T],
    place: usize,
    gate: &G,
    task: &F,
) -> Result<U, OutOfMemory>
    requires few_items { length items.now < 2 ^ 32 }
    requires within { place < length items.now }
    requires takes_each { All (MayTake F.Fn task.now) items.now }
    requires kept { IfSome kept (IsAnswerOf F.Fn task.now items.now place) }
    ensures { IfOk result (IsAnswerOf F.Fn task.now items.now place) }
{
    match kept {
        Some(answer) => Ok(answer),
        None => answer_at(items, place, gate, task),
    }
}
