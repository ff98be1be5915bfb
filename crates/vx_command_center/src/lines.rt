//! Scripts and scans as they are taken.
ghost use Rattle.std.specs.Prelude.{◌≡◌, ◌≤◌, true, All, IfOk, OnOk, length};
ghost use Rattle.vx_base.specs.Refusals.{Gives};
ghost use Rattle.vx_election_model.specs.Valid.{IsValid};
ghost use Rattle.vx_events.specs.Fits.{Fits, is_batch};
ghost use Rattle.vx_pbm.specs.Images.{images_of};
ghost use Rattle.vx_script.specs.Script.{lines_of};
ghost use Rattle.vx_command.specs.Devices.{TouchesNothing};
ghost use Rattle.vx_command.specs.Steps.{is_no_memory};
ghost use Rattle.vx_command_center.specs.Outcome.{events_in_lines, scan_unless};
ghost use Rattle.vx_command_center.specs.Taking.{AddsLine, images_counted};

use crate::item::Item;
use std::alloc::Global;
use vx_base::Bytes;
use vx_center::Events;
use vx_command::{Halt, halt_of_bitmap};
use vx_election_model::Election;
use vx_json::Text;
use vx_pbm::PbmReader;
use vx_refusals::DecisionFault;
use vx_script::{event_of, first_line};

/// Adds the event of a line with a number; an empty line has none.
fn push_event(
    alloc: Global,
    election: &Election,
    number: u32,
    line: &[u8],
    events: &mut Events,
) -> Result<(), Halt>
    requires valid { IsValid election.now }
    requires fits { All (Fits election.now) events.old }
    ensures added { AddsLine election.now number line.now events.old events.new result }
    ensures fits { OnOk result (All (Fits election.now) events.new) }
    ensures devices { TouchesNothing result }
{
    if line.is_empty() {
        return Ok(());
    }
    match event_of(alloc, election, line)? {
        None => Err(Halt::Decision(number, DecisionFault::Bad)),
        Some(event) => {
            events.push(event)?;
            Ok(())
        }
    }
}

/// The events of a script's lines, or why a command halts at the first that is none.
pub(crate) fn script_events(
    alloc: Global,
    election: &Election,
    script: &[u8],
) -> Result<Events, Halt>
    requires valid { IsValid election.now }
    requires few { length script.now ≤ 1048576 }
    ensures exact { Gives is_no_memory result (events_in_lines election.now 1 (lines_of script.now)) }
    ensures fits { IfOk result (All (Fits election.now)) }
    ensures devices { TouchesNothing result }
{
    let mut events = Events::new(alloc);
    let mut text = script;
    let mut number = 1;
    'lines: loop {
        let (line, behind) = first_line(text);
        push_event(alloc, election, number, line, &mut events)?;
        match behind {
            None => return Ok(events),
            Some(more) => {
                text = more;
                number += 1;
            }
        }
    }
}

/// How many images the bytes of a word's scan have, or why a command halts where they leave the grammar.
fn count_images(alloc: Global, word: u32, bytes: &[u8]) -> Result<u32, Halt>
    requires { length bytes.now ≤ 67108864 }
    ensures exact { Gives is_no_memory result
        (images_counted word (images_of bytes.now).pages (images_of bytes.now).fault) }
    ensures devices { TouchesNothing result }
{
    let mut reader = PbmReader::new(alloc, bytes);
    let mut count = 0;
    'images: loop {
        match reader.next() {
            Err(fault) => return Err(halt_of_bitmap(word, fault)),
            Ok(None) => return Ok(count),
            Ok(Some(_)) => count += 1,
        }
    }
}

/// The scan of a word.
pub(crate) fn scan_item(alloc: Global, word: u32, batch: &str, bytes: Bytes) -> Result<Item, Halt>
    requires batch { is_batch batch.now ≡ true }
    requires few { length bytes ≤ 67108864 }
    ensures exact { Gives is_no_memory result
        (scan_unless word batch.now bytes (images_of bytes).pages (images_of bytes).fault) }
    ensures devices { TouchesNothing result }
{
    let images = count_images(alloc, word, bytes.as_slice())?;
    let batch = Text::from_str(alloc, batch)?;
    Ok(Item::Scan {
        batch,
        bytes,
        sheets: images / 2,
    })
}
