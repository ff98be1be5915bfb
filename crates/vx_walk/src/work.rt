use std::alloc::Global;
use vx_bits::BitView;
use vx_command::Halt;
use vx_io::Sink;

/// What a command does with the sheets of its scans, and at their end.
pub trait SheetWork {
    ghost use Rattle.std.specs.Prelude.{◌≡◌, ◌<◌, ◌^◌, ℕ, List, false};
    ghost use Rattle.vx_plane.specs.Plane.{Page};
    ghost use Rattle.vx_command.specs.Acts.{Outcome};
    ghost use Rattle.vx_command.specs.Devices.{TouchesSink, writes_nothing};
    ghost use Rattle.vx_command.specs.Done.{IsWritten};
    ghost use Rattle.vx_walk.specs.Walk.{SheetStep};
    ghost use Rattle.vx_walk.specs.Steps.{WalksSheet};
    ghost use Rattle.vx_walk.specs.Walked.{waits};

    /// What a sheet does, of a scan with a name.
    ghost step: { Self → List ℕ → SheetStep };
    /// What is done behind so many sheets, with the image that is left over, if one is.
    ghost ending: { Self → ℕ → List Page → Outcome };
    /// What holds of work that may be done.
    ghost may: { Self → Type 0 };

    /// Does the sheet with a number, of two images of the scan with a name. What the work keeps beside its meaning, as
    /// memory, may change.
    fn sheet<S: Sink>(
        &mut self,
        alloc: Global,
        scan: &str,
        number: u64,
        first: &BitView<'_>,
        second: &BitView<'_>,
        out: &mut S,
    ) -> Result<(), Halt>
        requires may { may self.old }
        requires some { 0 < number }
        requires few { number < 2 ^ 62 }
        ensures done { WalksSheet (step self.old scan.now number first.now second.now)
            (S.taken out.old) (S.taken out.new) result }
        ensures same { self.new ≡ self.old }
        ensures sink { TouchesSink S.Sink out.old out.new result }
        ensures late { writes_nothing false result ≡ false };

    /// Does what is done at the end, behind so many sheets, where an image may be left over.
    fn end<S: Sink>(
        &self,
        alloc: Global,
        sheets: u64,
        left: Option<BitView<'_>>,
        out: &mut S,
    ) -> Result<(), Halt>
        requires may { may self.now }
        requires few { sheets < 2 ^ 62 }
        ensures done { IsWritten (ending self.now sheets (waits left.entry)) (S.taken out.old) (S.taken out.new) result }
        ensures sink { TouchesSink S.Sink out.old out.new result }
        ensures late { writes_nothing false result ≡ false };
}
