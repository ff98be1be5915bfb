ghost use Rattle.std.specs.Prelude.{◌≡◌};

use crate::setting::Setting;
use crate::sheets::{end_try, try_images};
use std::alloc::Global;
use std::marker::Model;
use vx_bits::BitView;
use vx_command::Halt;
use vx_count::CounterMemory;
use vx_io::Sink;
use vx_walk::SheetWork;

/// What a `try` does: its setting, and the memory of the last counter, so that no image takes memory anew. Contracts
/// see the setting.
#[derive(Drop)]
pub(crate) struct Trying<'a> {
    setting: Setting<'a>,
    counter: CounterMemory,
}

impl<'a> Model for Trying<'a> {
    ghost use Rattle.vx_command_try.specs.declared.setting.Setting.{Setting};

    ghost Value = { Setting };

    ghost view = { λ trying. trying.setting };
}

impl<'a> Trying<'a> {
    /// Nothing is tried yet; takes no memory.
    pub(crate) fn new(alloc: Global, setting: Setting<'a>) -> Trying<'a>
        ensures { result ≡ setting.entry }
    {
        Trying {
            setting,
            counter: CounterMemory::new(alloc),
        }
    }
}

/// The line of each sheet is written, up to the first images that are none, and at the end how many there are.
impl<'a> SheetWork for Trying<'a> {
    ghost use Rattle.vx_command_try.specs.Setting.{IsSet, ending_of, step_of};

    ghost step = { step_of };

    ghost ending = { ending_of };

    ghost may = { IsSet };

    fn sheet<S: Sink>(
        &mut self,
        alloc: Global,
        _scan: &str,
        number: u64,
        first: &BitView<'_>,
        second: &BitView<'_>,
        out: &mut S,
    ) -> Result<(), Halt> {
        let counter = &mut self.counter;
        try_images(alloc, counter, &self.setting, number, first, second, out)
    }

    fn end<S: Sink>(
        &self,
        alloc: Global,
        sheets: u64,
        left: Option<BitView<'_>>,
        out: &mut S,
    ) -> Result<(), Halt> {
        end_try(alloc, sheets, left, out)
    }
}
