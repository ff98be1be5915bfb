ghost use Rattle.std.specs.Prelude.{◌≡◌, ◌<◌, ◌^◌, length, IfOk};
ghost use Rattle.std.specs.List.{AllZip};
ghost use Rattle.vx_sheet.specs.Reads.{IsReadOf};
ghost use Rattle.vx_command_count.specs.Setting.{IsSet};

use crate::setting::Setting;
use std::alloc::Global;
use std::sync::Mutex;
use std::thread::Threads;
use vx_base::OutOfMemory;
use vx_count::CounterMemory;
use vx_pbm::Image;
use vx_sheet::{PageRead, read_image};
use vx_workers::{Gate, map_tasks};

/// The memory of a counter for each worker; fewer where there is none.
fn memories_of(alloc: Global, workers: u32) -> Vec<Mutex<CounterMemory>> {
    let mut memories = Vec::new(alloc);
    for _ in 0..workers {
        if memories
            .push(Mutex::new(CounterMemory::new(alloc)))
            .is_err()
        {
            break;
        }
    }
    memories
}

/// What an image is read as, or its first fault, in the first memory that no other worker uses, or
/// else in one of its own.
fn read_in_turn(
    alloc: Global,
    setting: &Setting<'_>,
    memories: &[Mutex<CounterMemory>],
    image: &Image<'_>,
) -> Result<PageRead, OutOfMemory>
    requires { IsSet setting.now }
    ensures { IfOk result (IsReadOf setting.now.election.now image.now) }
{
    let (election, plans) = (setting.election, setting.plans);
    for memory in memories {
        if let Some(mut held) = memory.try_lock() {
            return read_image(alloc, &mut held, election, plans, &image.view());
        }
    }
    let mut memory = CounterMemory::new(alloc);
    read_image(alloc, &mut memory, election, plans, &image.view())
}

/// What images are read as, in their order, by the workers of the setting.
pub(crate) fn read_images<R: Threads + Sync, G: Gate>(
    rt: &R,
    alloc: Global,
    setting: &Setting<'_>,
    images: &[Image<'_>],
    gate: &G,
) -> Result<Vec<PageRead>, OutOfMemory>
    requires set { IsSet setting.now }
    requires few { length images.now < 2 ^ 32 }
    ensures { IfOk result (λ reads. AllZip (IsReadOf setting.now.election.now) images.now reads.items) }
{
    let memories = memories_of(alloc, setting.workers);
    let task = |image: &Image<'_>| -> Result<PageRead, OutOfMemory>
        requires { IsSet setting.now }
        ensures { IfOk result (IsReadOf setting.entry.now.election.now image.now) }
    { read_in_turn(alloc, setting, &memories, image) };
    map_tasks(rt, alloc, images, setting.workers, gate, &task)
}
