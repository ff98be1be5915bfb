//! The sheets of a scan, by one thread.
ghost use Rattle.std.specs.Prelude.{◌≡◌, ◌<◌, ◌≤◌, ◌++◌, ◌/◌, ◌^◌, true, None, IfErr, IfOk, OnErr, OnOk, length, string_bytes};
ghost use Rattle.vx_events.specs.Fits.{Fits, is_batch};
ghost use Rattle.vx_pbm.specs.Images.{images_of};
ghost use Rattle.vx_sheet.specs.Shows.{IsReadAll};
ghost use Rattle.vx_shared.specs.Gained.{HasMade, HasMadeFront, MakesAlso};
ghost use Rattle.vx_command_center.specs.Setting.{IsSet};
ghost use Rattle.vx_command_center.specs.Sheets as spec;

use crate::hands::{Hands, read_two};
use crate::two::{Two, drop_image, next_two};
use std::alloc::Global;
use std::sync::Wait;
use vx_base::{Bytes, OutOfMemory};
use vx_count::CounterMemory;
use vx_events::Event;
use vx_pbm::{Image, PbmReader};
use vx_shared::{Desk, Pass, make, passes_gain_their_calls};
use vx_sheet::{Came, push_lines};

/// Calls the center with the event of a sheet, or adds its lines where it makes none.
fn tell_sheet<R: Wait, S: Desk>(
    rt: &R,
    alloc: Global,
    shared: &S,
    pass: Pass,
    hands: &Hands<'_>,
    batch: &str,
    number: u64,
    sheet: Result<Event, Came>,
    text: &mut String,
) -> (Pass, Result<(), OutOfMemory>)
    requires belongs { pass.of ≡ S.id shared.now }
    requires election { pass.origin.election ≡ hands.now.election.now }
    requires calls { length (spec.events_made sheet) ≤ pass.calls }
    requires fits { IfOk sheet (Fits hands.now.election.now) }
    requires told { IfErr sheet (IsReadAll hands.now.election.now) }
    ensures made { OnOk result.1 (MakesAlso pass (spec.events_made sheet) result.0) }
    ensures told { OnOk result.1 (string_bytes text.new
        ≡ string_bytes text.old ++ spec.lines_told hands.now.election.now batch.now number sheet) }
    ensures refused { OnErr result.1 (result.0 ≡ pass) }
{
    match sheet {
        Ok(event) => make(rt, alloc, shared, pass, event),
        Err(came) => {
            let told = push_lines(text, hands.election, batch, number, &came);
            (pass, told)
        }
    }
}

/// The sheet of a batch with a number, by its two images.
fn do_images<R: Wait, S: Desk>(
    rt: &R,
    alloc: Global,
    shared: &S,
    pass: Pass,
    hands: &Hands<'_>,
    memory: &mut CounterMemory,
    batch: &str,
    number: u64,
    first: &Image<'_>,
    second: &Image<'_>,
    text: &mut String,
) -> (Pass, Result<(), OutOfMemory>)
    requires set { IsSet hands.now }
    requires belongs { pass.of ≡ S.id shared.now }
    requires election { pass.origin.election ≡ hands.now.election.now }
    requires batch { is_batch batch.now ≡ true }
    requires some { 0 < number }
    requires few { number < 2 ^ 63 }
    requires calls { length (spec.event_if batch.now number
        (spec.read_of hands.now.election.now number first.now second.now)) ≤ pass.calls }
    ensures made { OnOk result.1 (MakesAlso pass (spec.event_if batch.now number
        (spec.read_of hands.now.election.now number first.now second.now)) result.0) }
    ensures told { OnOk result.1 (string_bytes text.new ≡ string_bytes text.old
        ++ spec.lines_unless hands.now.election.now batch.now number
        (spec.read_of hands.now.election.now number first.now second.now)) }
    ensures refused { OnErr result.1 (result.0 ≡ pass) }
{
    match read_two(alloc, hands, memory, batch, number, first, second) {
        Ok(sheet) => tell_sheet(rt, alloc, shared, pass, hands, batch, number, sheet, text),
        Err(no_memory) => (pass, Err(no_memory)),
    }
}

/// The sheet of a batch with a number, of its two images, which are let go then.
fn do_sheet<R: Wait, S: Desk>(
    rt: &R,
    alloc: Global,
    shared: &S,
    pass: Pass,
    hands: &Hands<'_>,
    memory: &mut CounterMemory,
    batch: &str,
    number: u64,
    first: Image<'_>,
    second: Image<'_>,
    text: &mut String,
) -> (Pass, Result<(), OutOfMemory>)
    requires set { IsSet hands.now }
    requires belongs { pass.of ≡ S.id shared.now }
    requires election { pass.origin.election ≡ hands.now.election.now }
    requires batch { is_batch batch.now ≡ true }
    requires some { 0 < number }
    requires few { number < 2 ^ 63 }
    requires calls { length (spec.event_if batch.now number
        (spec.read_of hands.now.election.now number first second)) ≤ pass.calls }
    ensures made { OnOk result.1 (MakesAlso pass (spec.event_if batch.now number
        (spec.read_of hands.now.election.now number first.entry second.entry)) result.0) }
    ensures told { OnOk result.1 (string_bytes text.new ≡ string_bytes text.old
        ++ spec.lines_unless hands.now.election.now batch.now number
        (spec.read_of hands.now.election.now number first.entry second.entry)) }
    ensures refused { OnErr result.1 (result.0 ≡ pass) }
{
    let done = do_images(
        rt, alloc, shared, pass, hands, memory, batch, number, &first, &second, text,
    );
    drop_image(first);
    drop_image(second);
    done
}

/// The sheets of a scan, which is taken as a batch: each that reads and pairs is added, and the lines of the
/// others are written behind a text.
fn do_sheets<R: Wait, S: Desk>(
    rt: &R,
    alloc: Global,
    shared: &S,
    pass: Pass,
    hands: &Hands<'_>,
    batch: &str,
    bytes: &[u8],
    text: &mut String,
) -> (Pass, Result<(), OutOfMemory>)
    requires set { IsSet hands.now }
    requires belongs { pass.of ≡ S.id shared.now }
    requires election { pass.origin.election ≡ hands.now.election.now }
    requires batch { is_batch batch.now ≡ true }
    requires whole { (images_of bytes.now).fault ≡ None }
    requires calls { length (images_of bytes.now).pages / 2 ≤ pass.calls }
    ensures made { OnOk result.1 (HasMade pass (spec.events_in
        hands.now.election.now batch.now (images_of bytes.now).pages) result.0) }
    ensures told { OnOk result.1 (string_bytes text.new ≡ string_bytes text.old
        ++ spec.lines_in hands.now.election.now batch.now (images_of bytes.now).pages) }
    ensures front { OnErr result.1 (HasMadeFront pass (spec.events_in
        hands.now.election.now batch.now (images_of bytes.now).pages) result.0) }
{
    passes_gain_their_calls();
    let mut reader = PbmReader::new(alloc, bytes);
    let mut memory = CounterMemory::new(alloc);
    let mut now = pass;
    let mut number = 1;
    'sheets: loop {
        match next_two(&mut reader) {
            Err(no_memory) => return (now, Err(no_memory)),
            Ok(Two::AtEnd) => return (now, Ok(())),
            Ok(Two::Single) => {
                let told = push_lines(text, hands.election, batch, number, &Came::Single);
                return (now, told);
            }
            Ok(Two::Both(first, second)) => {
                let (after, answer) = do_sheet(
                    rt,
                    alloc,
                    shared,
                    now,
                    hands,
                    &mut memory,
                    batch,
                    number,
                    first,
                    second,
                    text,
                );
                match answer {
                    Ok(()) => {
                        now = after;
                        number += 1;
                    }
                    Err(no_memory) => return (after, Err(no_memory)),
                }
            }
        }
    }
}

/// Calls the center with the events of a scan, and answers the lines of its other sheets.
pub(crate) fn do_scan<R: Wait, S: Desk>(
    rt: &R,
    alloc: Global,
    shared: &S,
    pass: Pass,
    hands: &Hands<'_>,
    batch: &str,
    bytes: &[u8],
) -> (Pass, Result<Bytes, OutOfMemory>)
    requires set { IsSet hands.now }
    requires belongs { pass.of ≡ S.id shared.now }
    requires election { pass.origin.election ≡ hands.now.election.now }
    requires batch { is_batch batch.now ≡ true }
    requires whole { (images_of bytes.now).fault ≡ None }
    requires calls { length (images_of bytes.now).pages / 2 ≤ pass.calls }
    ensures made { IfOk result.1 (λ _. HasMade pass
        (spec.events_in hands.now.election.now batch.now (images_of bytes.now).pages) result.0) }
    ensures told { IfOk result.1 (λ told.
        told ≡ spec.lines_in hands.now.election.now batch.now (images_of bytes.now).pages) }
    ensures front { OnErr result.1 (HasMadeFront pass
        (spec.events_in hands.now.election.now batch.now (images_of bytes.now).pages) result.0) }
{
    let mut text = String::new(alloc);
    let (pass, answer) = do_sheets(rt, alloc, shared, pass, hands, batch, bytes, &mut text);
    match answer {
        Ok(()) => (pass, Ok(Bytes::from_vec(text.into_bytes()))),
        Err(no_memory) => (pass, Err(no_memory)),
    }
}
