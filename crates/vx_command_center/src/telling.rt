//! The report of a center whose items have ended, as what a thread of its own can make.
ghost use Rattle.std.specs.Prelude.{◌≡◌};
ghost use Rattle.vx_election_model.specs.Valid.{IsValid};
ghost use Rattle.vx_cvr.specs.Report.{report_of};

use std::alloc::Global;
use vx_base::{Bytes, OutOfMemory};
use vx_center::Center;
use vx_cvr::report;
use vx_election_model::Election;

/// What makes a report. A thread knows it by this trait, as a thread's clauses tell nothing of what refers to a
/// center.
pub(crate) trait Reporter: Sync {
    ghost use Rattle.std.specs.Prelude.{◌≡◌, ℕ, List, IfOk};

    // The bytes of the report.
    ghost line: { Self → List ℕ };

    // It can be made.
    ghost may: { Self → Type 0 };

    /// Makes the report, or there is no memory.
    fn report(&self, alloc: Global) -> Result<Bytes, OutOfMemory>
        requires { may self.now }
        ensures { IfOk result (λ told. told ≡ line self.now) };
}

/// The report of the kept events of a center, with a moment and a device.
#[derive(Drop)]
pub(crate) struct ReportOf<'r, 'e> {
    pub(crate) election: &'r Election,
    pub(crate) center: &'r Center<'e>,
    pub(crate) moment: &'r str,
    pub(crate) device: &'r str,
}

impl<'r, 'e> Reporter for ReportOf<'r, 'e> {
    ghost use Rattle.std.specs.Prelude.{◌≡◌};
    ghost use Rattle.vx_election_model.specs.Valid.{IsValid};
    ghost use Rattle.vx_cvr.specs.Report.{report_of};

    ghost line = { λ of. report_of of.election.now of.center.now.events of.moment.now of.device.now };

    ghost may = { λ of. IsValid of.election.now × (of.center.now.election ≡ of.election.now) };

    fn report(&self, alloc: Global) -> Result<Bytes, OutOfMemory> {
        report(alloc, self.election, self.center, self.moment, self.device)
    }
}
