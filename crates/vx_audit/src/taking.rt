ghost use Rattle.std.specs.Prelude.{◌∷◌, [], IfOk, is_ok};
ghost use Rattle.std.specs.Option.{ForSome};
ghost use Rattle.vx_audit.specs.Sized.{IsSized};
ghost use Rattle.vx_command.specs.Asking.{Asks};
ghost use Rattle.vx_command.specs.Done.{Taken};
ghost use Rattle.vx_audit.specs.Done.{LeavesReading, TakesHand, TakesReport};

use crate::hand::Hand;
use crate::lines::read_hand;
use crate::reading::read_sized;
use crate::status::{AuditStatus, status_of_halt, status_of_hand, status_of_report};
use std::alloc::Global;
use vx_base::Bytes;
use vx_command::{INPUT_LIMIT, acts_in_order, asks_in_order, steps_in_order, take_input};
use vx_io::Inputs;
use vx_tally::Report;

/// Takes the report under its name, which is word 1, and reads it.
pub(crate) fn take_report<I: Inputs>(
    alloc: Global,
    name: &str,
    inputs: &mut I,
) -> Result<Report, AuditStatus>
    ensures done { ForSome (I.held inputs.old) (λ files.
        (taken : Taken) → TakesReport (files name.now) taken result) }
    ensures inputs { LeavesReading I.Inputs inputs.old inputs.new result }
    ensures asked { Asks I.Inputs (name.now ∷ []) inputs.old inputs.new (is_ok result) }
    ensures sized { IfOk result IsSized }
{
    asks_in_order::<I>();
    acts_in_order();
    steps_in_order::<Bytes>();
    let bytes = match take_input(Bytes::new(alloc), inputs, name, 1, INPUT_LIMIT) {
        Ok(bytes) => bytes,
        Err(cause) => return Err(status_of_halt(cause)),
    };
    match read_sized(alloc, bytes.as_slice()) {
        Ok(report) => Ok(report),
        Err(fault) => Err(status_of_report(fault)),
    }
}

/// Takes what hands read of a report under its name, which is word 4, and reads it.
pub(crate) fn take_hand<I: Inputs>(
    alloc: Global,
    report: &Report,
    name: &str,
    inputs: &mut I,
) -> Result<Hand, AuditStatus>
    requires { IsSized report.now }
    ensures done { ForSome (I.held inputs.old) (λ files.
        (taken : Taken) → TakesHand report.now (files name.now) taken result) }
    ensures inputs { LeavesReading I.Inputs inputs.old inputs.new result }
    ensures asked { Asks I.Inputs (name.now ∷ []) inputs.old inputs.new (is_ok result) }
{
    asks_in_order::<I>();
    acts_in_order();
    steps_in_order::<Bytes>();
    let bytes = match take_input(Bytes::new(alloc), inputs, name, 4, INPUT_LIMIT) {
        Ok(bytes) => bytes,
        Err(cause) => return Err(status_of_halt(cause)),
    };
    match read_hand(alloc, report, bytes.as_slice()) {
        Ok(hand) => Ok(hand),
        Err(fault) => Err(status_of_hand(fault)),
    }
}
