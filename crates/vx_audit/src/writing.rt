ghost use Rattle.std.specs.Prelude.{◌≡◌, ◌≢◌, true, IfOk, length, string_bytes};
ghost use Rattle.vx_audit.specs.Audit as lines;
ghost use Rattle.vx_audit.specs.Sample.{sample_of};
ghost use Rattle.vx_audit.specs.Sized.{IsSized};
ghost use Rattle.vx_audit.specs.Totals as texts;
ghost use Rattle.vx_command.specs.Devices.{TouchesSink};
ghost use Rattle.vx_audit.specs.Done.{IsAuditDone};
ghost use Rattle.vx_audit.specs.Outcome.{audited, writes};
ghost use Rattle.vx_audit.specs.Status.{answer_of, may_have_written};

use crate::comparing::audit_text;
use crate::hand::Hand;
use crate::sample::draw_sample;
use crate::status::{AuditStatus, status_of_halt};
use crate::totals::totals_text;
use std::alloc::Global;
use vx_base::OutOfMemory;
use vx_command::{acts_in_order, write_text};
use vx_io::Sink;
use vx_tally::Report;

/// Writes a text whole.
fn write_whole<S: Sink>(text: &str, out: &mut S) -> AuditStatus
    ensures done { IsAuditDone (writes text.now) (S.taken out.old) (S.taken out.new) result }
    ensures sink { TouchesSink S.Sink out.old out.new (answer_of result) }
    ensures late { may_have_written result ≡ true }
    ensures no_usage { result ≢ AuditStatus.Usage }
{
    match write_text(out, text.as_bytes()) {
        Ok(()) => AuditStatus::Ok,
        Err(cause) => status_of_halt(cause),
    }
}

/// Writes the totals of a report.
pub(crate) fn write_totals<S: Sink>(alloc: Global, report: &Report, out: &mut S) -> AuditStatus
    requires { IsSized report.now }
    ensures done { IsAuditDone (writes (texts.totals_text report.now)) (S.taken out.old) (S.taken out.new) result }
    ensures sink { TouchesSink S.Sink out.old out.new (answer_of result) }
    ensures late { may_have_written result ≡ true }
    ensures no_usage { result ≢ AuditStatus.Usage }
{
    acts_in_order();
    match totals_text(alloc, report) {
        Ok(text) => write_whole(text.as_str(), out),
        Err(_refused) => AuditStatus::NoMemory,
    }
}

/// The text of an audit by the words of a generator with a seed.
fn text_of(
    alloc: Global,
    report: &Report,
    hand: &Hand,
    seed: [u8; 32],
    size: u32,
) -> Result<String, OutOfMemory>
    requires { IsSized report.now }
    ensures { IfOk result (λ text. string_bytes text
        ≡ lines.audit_text report.now hand.now (sample_of seed size (length report.now.records))) }
{
    let sample = draw_sample(alloc, seed, size, report.records.len())?;
    let text = audit_text(alloc, report, hand, sample.as_slice())?;
    Ok(text)
}

/// Writes the audit of a report.
pub(crate) fn write_audit<S: Sink>(
    alloc: Global,
    report: &Report,
    hand: &Hand,
    seed: [u8; 32],
    size: u32,
    out: &mut S,
) -> AuditStatus
    requires { IsSized report.now }
    ensures done { IsAuditDone (audited seed size report.now hand.now)
        (S.taken out.old) (S.taken out.new) result }
    ensures sink { TouchesSink S.Sink out.old out.new (answer_of result) }
    ensures late { may_have_written result ≡ true }
    ensures no_usage { result ≢ AuditStatus.Usage }
{
    acts_in_order();
    match text_of(alloc, report, hand, seed, size) {
        Ok(text) => write_whole(text.as_str(), out),
        Err(_refused) => AuditStatus::NoMemory,
    }
}
