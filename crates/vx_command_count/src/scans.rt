ghost use Rattle.std.specs.Prelude.{◌≡◌, ◌≤◌, ◌<◌, ◌+◌, ◌*◌, ◌^◌, [], ◌∷◌, false, length, is_ok, IfOk, OnOk};
ghost use Rattle.std.specs.Option.{ForSome};
ghost use Rattle.vx_pbm.specs.Images.{images_of};
ghost use Rattle.vx_command.specs.Asking.{Asks};
ghost use Rattle.vx_command.specs.Devices.{LeavesDevices, TouchesSinkAndKeeper, writes_nothing};
ghost use Rattle.vx_command.specs.Done.{IsDone};
ghost use Rattle.vx_command_count.specs.Outcome.{scans_outcome};
ghost use Rattle.vx_command_count.specs.Setting.{IsSet};
ghost use Rattle.vx_command_count.specs.Steps.{CountsFirst, CountsScan};
ghost use Rattle.vx_command_count.specs.Tally.{sheets_in};

use crate::counting::Counting;
use crate::ending::end_count;
use crate::gathering::Ended;
use crate::pieces::{Piece, count_piece, drop_last};
use crate::setting::Setting;
use crate::waiting::Waiting;
use std::alloc::Global;
use std::mem::replace;
use std::thread::Threads;
use vx_base::Bytes;
use vx_command::{
    Halt, INPUT_LIMIT, acts_in_order, asks_in_order, halt_of_bitmap, steps_in_order, take_input,
};
use vx_io::{Inputs, Keeper, Sink};
use vx_json::Text;
use vx_pbm::{PbmReader, images_are_whole};
use vx_workers::Gate;

/// Counts the scan of a word, behind an image that may wait. Answers the image that is left over.
fn count_scan<'b, R: Threads + Sync, S: Sink, K: Keeper, G: Gate>(
    rt: &R,
    alloc: Global,
    setting: &Setting<'_>,
    counting: &mut Counting<'_>,
    word: u32,
    waiting: &'b Waiting,
    bytes: &'b [u8],
    gate: &G,
    keeper: &mut K,
    out: &mut S,
) -> Result<Waiting, Halt>
    requires set { IsSet setting.now }
    requires election { counting.old.journal.center.election ≡ setting.now.election.now }
    requires few { 2 * sheets_in counting.old.tally + length waiting.now + length bytes.now < 2 ^ 61 }
    ensures counts { CountsScan setting.now.election.now setting.now.batch.now word counting.old counting.new
        waiting.now (images_of bytes.now)
        (S.taken out.old) (S.taken out.new) (K.held keeper.old) (K.held keeper.new) result }
    ensures election { OnOk result (counting.new.journal.center.election ≡ setting.now.election.now) }
    ensures room { IfOk result (λ left. 2 * sheets_in counting.new.tally + length left
        ≤ 2 * sheets_in counting.old.tally + length waiting.now + length bytes.now) }
    ensures devices { TouchesSinkAndKeeper S.Sink K.Keeper out.old out.new keeper.old keeper.new result }
    ensures late { writes_nothing false result ≡ false }
{
    acts_in_order();
    images_are_whole();
    let mut reader = PbmReader::new(alloc, bytes);
    let mut first = waiting.image(alloc)?;
    'pieces: loop {
        let piece = count_piece(
            rt,
            alloc,
            setting,
            counting,
            first,
            &mut reader,
            gate,
            keeper,
            out,
        )?;
        let Piece { ended, last } = piece;
        match ended {
            Ended::NotYet => first = last,
            Ended::AtEnd => return Ok(Waiting::of(alloc, last)?),
            Ended::AtFault(fault) => {
                drop_last(last);
                return Err(halt_of_bitmap(word, fault));
            }
        }
    }
}

/// Takes the scan of a word under its name into the memory of the one before, and counts it behind an
/// image that may wait. Answers the image that is left over.
fn count_input<R: Threads + Sync, I: Inputs, S: Sink, K: Keeper, G: Gate>(
    rt: &R,
    alloc: Global,
    setting: &Setting<'_>,
    counting: &mut Counting<'_>,
    name: &str,
    word: u32,
    memory: &mut Bytes,
    waiting: &Waiting,
    gate: &G,
    inputs: &mut I,
    keeper: &mut K,
    out: &mut S,
) -> Result<Waiting, Halt>
    requires set { IsSet setting.now }
    requires election { counting.old.journal.center.election ≡ setting.now.election.now }
    requires few { 2 * sheets_in counting.old.tally + length waiting.now < 2 ^ 60 }
    requires later_word { 1 < word }
    ensures done { ForSome (I.held inputs.old) (λ files. CountsFirst setting.now.election.now setting.now.batch.now
        files word counting.old counting.new waiting.now name.now
        (S.taken out.old) (S.taken out.new) (K.held keeper.old) (K.held keeper.new) result) }
    ensures election { OnOk result (counting.new.journal.center.election ≡ setting.now.election.now) }
    ensures room { IfOk result (λ left. 2 * sheets_in counting.new.tally + length left
        ≤ 2 * sheets_in counting.old.tally + length waiting.now + 67108864) }
    ensures devices { LeavesDevices I.Inputs S.Sink K.Keeper inputs.old inputs.new out.old out.new
        keeper.old keeper.new result }
    ensures asked { Asks I.Inputs (name.now ∷ []) inputs.old inputs.new (is_ok result) }
    ensures late { writes_nothing false result ≡ false }
{
    asks_in_order::<I>();
    steps_in_order::<Bytes>();
    let last = replace(memory, Bytes::new(alloc));
    let bytes = take_input(last, inputs, name, word, INPUT_LIMIT)?;
    let scan = bytes.as_slice();
    let left = count_scan(
        rt, alloc, setting, counting, word, waiting, scan, gate, keeper, out,
    );
    *memory = bytes;
    left
}

/// Counts scans one after the other, the first of which is word 4, and ends the count. One input is held
/// at a time, and all are held in the memory of the greatest.
pub(crate) fn count_scans<R: Threads + Sync, I: Inputs, S: Sink, K: Keeper, G: Gate>(
    rt: &R,
    alloc: Global,
    setting: &Setting<'_>,
    counting: &mut Counting<'_>,
    scans: &[Text],
    gate: &G,
    inputs: &mut I,
    keeper: &mut K,
    out: &mut S,
) -> Result<(), Halt>
    requires set { IsSet setting.now }
    requires election { counting.old.journal.center.election ≡ setting.now.election.now }
    requires begun { sheets_in counting.old.tally ≡ 0 }
    requires few { length scans.now ≤ 64 }
    ensures done { ForSome (I.held inputs.old) (λ files. IsDone
        (scans_outcome setting.now.election.now setting.now.batch.now files 4 counting.old [] scans.now)
        (S.taken out.old) (S.taken out.new) (K.held keeper.old) (K.held keeper.new) result) }
    ensures devices { LeavesDevices I.Inputs S.Sink K.Keeper inputs.old inputs.new out.old out.new
        keeper.old keeper.new result }
    ensures asked { Asks I.Inputs scans.now inputs.old inputs.new (is_ok result) }
    ensures late { writes_nothing false result ≡ false }
{
    asks_in_order::<I>();
    acts_in_order();
    let mut memory = Bytes::new(alloc);
    let mut waiting = Waiting::none(alloc);
    let mut word = 4;
    for scan in scans {
        waiting = count_input(
            rt,
            alloc,
            setting,
            counting,
            scan.as_str(),
            word,
            &mut memory,
            &waiting,
            gate,
            inputs,
            keeper,
            out,
        )?;
        word += 1;
    }
    end_count(alloc, setting, counting.tally, &waiting, out)
}
