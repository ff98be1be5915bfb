use crate::page::close_page;
use crate::setting::Setting;
use crate::sheets::write_sheet;
use std::alloc::Global;
use vx_bits::BitView;
use vx_command::Halt;
use vx_io::Sink;
use vx_walk::SheetWork;

/// The text of each sheet is written, and at the end the page is closed.
impl<'a> SheetWork for Setting<'a> {
    ghost use Rattle.vx_command_desk.specs.Setting.{IsSet, ending_of, step_of};

    ghost step = { step_of };

    ghost ending = { ending_of };

    ghost may = { IsSet };

    fn sheet<S: Sink>(
        &mut self,
        alloc: Global,
        scan: &str,
        number: u64,
        first: &BitView<'_>,
        second: &BitView<'_>,
        out: &mut S,
    ) -> Result<(), Halt> {
        write_sheet(alloc, self, scan, number, first, second, out)
    }

    fn end<S: Sink>(
        &self,
        alloc: Global,
        sheets: u64,
        _left: Option<BitView<'_>>,
        out: &mut S,
    ) -> Result<(), Halt> {
        close_page(alloc, self, sheets, out)
    }
}
