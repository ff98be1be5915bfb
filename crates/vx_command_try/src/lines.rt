ghost use Rattle.std.specs.Prelude.{◌≡◌, ◌++◌, ◌<◌, ◌^◌, OnOk, string_bytes};
ghost use Rattle.vx_command_try.specs.Lines as spec;

use vx_base::OutOfMemory;
use vx_command::SheetCause;
use vx_rules::SheetMarks;
use vx_sheet::Came;

/// Adds the line of a sheet: its card, and its front's page and its back's.
#[tactic(auto, unfolding(crate::specs::Lines::sheet_line))]
pub(crate) fn push_sheet(
    text: &mut String,
    number: u64,
    sheet: &SheetMarks,
) -> Result<(), OutOfMemory>
    ensures { OnOk result (string_bytes text.new ≡ string_bytes text.old ++ spec.sheet_line number sheet.now) }
{
    let (card, front) = (sheet.card, u64::from(sheet.front));
    write!(
        text,
        "sheet {number} card {card} pages {front} {}\n",
        front + 1
    )
}

/// Adds the line of images that are no sheet.
#[tactic(auto, unfolding(crate::specs::Lines::no_sheet_line))]
pub(crate) fn push_no_sheet(text: &mut String, number: u64, came: &Came) -> Result<(), OutOfMemory>
    ensures { OnOk result (string_bytes text.new ≡ string_bytes text.old ++ spec.no_sheet_line number came.now) }
{
    match came {
        Came::Unread(image, fault) => write!(text, "sheet {number} unread {image} {fault}\n"),
        Came::Unpaired(fault) => write!(text, "sheet {number} unpaired {fault}\n"),
        _ => write!(text, "sheet {number} single\n"),
    }
}

/// Adds the last line of a `try`.
#[tactic(auto, unfolding(crate::specs::Lines::tried_line))]
pub(crate) fn push_tried(text: &mut String, sheets: u64) -> Result<(), OutOfMemory>
    requires { sheets < 2 ^ 62 }
    ensures { OnOk result (string_bytes text.new ≡ string_bytes text.old ++ spec.tried_line sheets) }
{
    write!(text, "tried {sheets} sheets {} images\n", 2 * sheets)
}

/// Why images that came to this are no sheet.
pub(crate) fn cause_of(came: &Came) -> SheetCause
    ensures { result ≡ spec.cause_of came.now }
{
    match came {
        Came::Unread(_, _) => SheetCause::Unread,
        Came::Unpaired(_) => SheetCause::Unpaired,
        _ => SheetCause::Single,
    }
}
