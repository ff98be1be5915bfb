ghost use Rattle.std.specs.Prelude.{◌≡◌, ◌≢◌, ◌↔◌, ◌∷◌, [], true, false, Some};
ghost use Rattle.std.specs.Option.{ForSome};
ghost use Rattle.vx_io.specs.Outside.{Files};
ghost use Rattle.vx_command.specs.Asking as asking;
ghost use Rattle.vx_command.specs.Devices.{TouchesInputsAndSink};
ghost use Rattle.vx_audit.specs.Done.{IsAuditDone};
ghost use Rattle.vx_audit.specs.Sized.{IsSized};
ghost use Rattle.vx_audit.specs.Outcome.{asked_outcome, audited, with_hand};
ghost use Rattle.vx_audit.specs.Status.{answer_of, is_done, may_have_written};
ghost use Rattle.vx_audit.specs.Words.{Asked, Audit, Totals, Asks, AsksNothing, names_of};

use crate::asking::{is_audit_form, totals_in};
use crate::hand::drop_hand;
use crate::status::AuditStatus;
use crate::taking::{take_hand, take_report};
use crate::writing::{write_audit, write_totals};
use std::alloc::Global;
use vx_command::asks_in_order;
use vx_io::{Inputs, Sink, Words};
use vx_tally::{Report, drop_report};
use vx_words::{sample_seed, sample_size};

/// Does the command `totals` of the report under a name.
fn totals<I: Inputs, S: Sink>(alloc: Global, name: &str, inputs: &mut I, out: &mut S) -> AuditStatus
    ensures done { ForSome (I.held inputs.old) (λ files.
        IsAuditDone (asked_outcome (Totals name.now) files) (S.taken out.old) (S.taken out.new) result) }
    ensures nothing_written { may_have_written result ≡ false → S.taken out.new ≡ S.taken out.old }
    ensures devices { TouchesInputsAndSink I.Inputs S.Sink inputs.old inputs.new out.old out.new (answer_of result) }
    ensures asked { asking.Asks I.Inputs (name.now ∷ []) inputs.old inputs.new (is_done result) }
    ensures no_usage { result ≢ AuditStatus.Usage }
{
    asks_in_order::<I>();
    match take_report(alloc, name, inputs) {
        Ok(report) => {
            let done = write_totals(alloc, &report, out);
            drop_report(report);
            done
        }
        Err(status) => status,
    }
}

/// Takes what hands read of a report under its name, and writes the audit.
fn audit_report<I: Inputs, S: Sink>(
    alloc: Global,
    report: &Report,
    seed: [u8; 32],
    size: u32,
    hand: &str,
    inputs: &mut I,
    out: &mut S,
) -> AuditStatus
    requires { IsSized report.now }
    ensures done { ForSome (I.held inputs.old) (λ files.
        IsAuditDone (with_hand report.now (files hand.now) (audited seed size report.now))
        (S.taken out.old) (S.taken out.new) result) }
    ensures nothing_written { may_have_written result ≡ false → S.taken out.new ≡ S.taken out.old }
    ensures devices { TouchesInputsAndSink I.Inputs S.Sink inputs.old inputs.new out.old out.new (answer_of result) }
    ensures asked { asking.Asks I.Inputs (hand.now ∷ []) inputs.old inputs.new (is_done result) }
    ensures no_usage { result ≢ AuditStatus.Usage }
{
    asks_in_order::<I>();
    match take_hand(alloc, report, hand, inputs) {
        Ok(hand) => {
            let done = write_audit(alloc, report, &hand, seed, size, out);
            drop_hand(hand);
            done
        }
        Err(status) => status,
    }
}

/// Does the command `audit` of the report and what hands read, under their names.
fn audit<I: Inputs, S: Sink>(
    alloc: Global,
    name: &str,
    seed: [u8; 32],
    size: u32,
    hand: &str,
    inputs: &mut I,
    out: &mut S,
) -> AuditStatus
    ensures done { ForSome (I.held inputs.old) (λ files.
        IsAuditDone (asked_outcome (Audit name.now seed size hand.now) files)
        (S.taken out.old) (S.taken out.new) result) }
    ensures nothing_written { may_have_written result ≡ false → S.taken out.new ≡ S.taken out.old }
    ensures devices { TouchesInputsAndSink I.Inputs S.Sink inputs.old inputs.new out.old out.new (answer_of result) }
    ensures asked { asking.Asks I.Inputs (name.now ∷ hand.now ∷ []) inputs.old inputs.new (is_done result) }
    ensures no_usage { result ≢ AuditStatus.Usage }
{
    asks_in_order::<I>();
    let report = match take_report(alloc, name, inputs) {
        Ok(report) => report,
        Err(status) => return status,
    };
    let done = audit_report(alloc, &report, seed, size, hand, inputs, out);
    drop_report(report);
    done
}

/// Does the command `totals` or `audit`, whole: reads its words, takes and reads its inputs in their order, each
/// before the next, and then writes its text.
///
/// Where the inputs tell what they hold, the acts of the outcome are done in order: all of them, and the
/// status is the outcome's; or up to one at which a device failed, with that device's fault as the status, or
/// before which memory ran out. A device's count of faults rises where the status is its fault, and stands
/// still otherwise. Nothing is written before the last input is accepted, so where the words or an input are
/// refused nothing was written.
pub fn run_audit<I: Inputs, S: Sink>(
    alloc: Global,
    words: &Words,
    inputs: &mut I,
    out: &mut S,
) -> AuditStatus
    ensures usage { (result ≡ AuditStatus.Usage) ↔ AsksNothing words.now }
    ensures done { (files : Files) → I.held inputs.old ≡ Some files →
        (asked : Asked) → Asks words.now asked →
        IsAuditDone (asked_outcome asked files) (S.taken out.old) (S.taken out.new) result }
    // Of inputs that don't tell, too.
    ensures nothing_written { may_have_written result ≡ false → S.taken out.new ≡ S.taken out.old }
    ensures devices { TouchesInputsAndSink I.Inputs S.Sink inputs.old inputs.new out.old out.new (answer_of result) }
    ensures asked { (asked : Asked) → Asks words.now asked →
        asking.Asks I.Inputs (names_of asked) inputs.old inputs.new (is_done result) }
    ensures usage_asks_nothing { result ≡ AuditStatus.Usage → asking.Asks I.Inputs [] inputs.old inputs.new true }
{
    asks_in_order::<I>();
    if let Some(report) = totals_in(words) {
        return totals(alloc, report, inputs, out);
    }
    if !is_audit_form(words) {
        return AuditStatus::Usage;
    }
    let Some(seed) = sample_seed(words.word(2)) else {
        return AuditStatus::Usage;
    };
    let Some(size) = sample_size(words.word(3)) else {
        return AuditStatus::Usage;
    };
    audit(alloc, words.word(1), seed, size, words.word(4), inputs, out)
}
