ghost use Rattle.std.specs.Prelude.{◌≡◌, if◌then◌else◌};
ghost use Rattle.vx_io.specs.Fakes.{counted, number_of_next, raised};
ghost use Rattle.vx_io.specs.Outside.{CountsFaults};

/// How often the outside in memory was called, and how many faults it counted. Both stand still at
/// their last value.
#[derive(Clone, Copy)]
pub struct Tally {
    pub calls: u64,
    pub faults: u64,
}

impl Tally {
    pub(crate) fn new() -> Tally
        ensures { result ≡ record { calls = 0; faults = 0 } }
    {
        Tally {
            calls: 0,
            faults: 0,
        }
    }

    /// The number of the call that comes, from 1 on; None once the count of calls stands still.
    pub(crate) fn number_of_next(&self) -> Option<u64>
        ensures { result ≡ number_of_next self.now }
    {
        self.calls.checked_add(1)
    }

    /// Counts a call, and a fault where it failed.
    pub(crate) fn count(&mut self, failed: bool)
        ensures counted { self.new ≡ counted self.old failed }
        ensures cause { CountsFaults failed self.old.faults self.new.faults }
    {
        self.calls = self.calls.saturating_add(1);
        if failed {
            self.faults = self.faults.saturating_add(1);
        }
    }
}

/// Counts a fault, where a call failed.
pub fn count_fault(faults: &mut u64, failed: bool)
    ensures counted { faults.new ≡ (if failed then raised faults.old else faults.old) }
    ensures cause { CountsFaults failed faults.old faults.new }
{
    if failed {
        *faults = faults.saturating_add(1);
    }
}
