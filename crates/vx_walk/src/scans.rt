ghost use Rattle.std.specs.Prelude.{◌≡◌, ◌≤◌, ◌<◌, ◌+◌, ◌^◌, [], ◌∷◌, false, length, is_ok, IfOk};
ghost use Rattle.std.specs.Option.{ForSome};
ghost use Rattle.vx_command.specs.Asking.{Asks};
ghost use Rattle.vx_command.specs.Devices.{TouchesInputsAndSink, writes_nothing};
ghost use Rattle.vx_command.specs.Done.{IsWritten};
ghost use Rattle.vx_walk.specs.Steps.{WalksFirst};
ghost use Rattle.vx_walk.specs.Walk.{scans_outcome};
ghost use Rattle.vx_walk.specs.Walked.{images_in};

use crate::images::walk_scan;
use crate::walked::Walked;
use crate::work::SheetWork;
use std::alloc::Global;
use std::mem::replace;
use vx_base::Bytes;
use vx_command::{Halt, INPUT_LIMIT, asks_in_order, steps_in_order, take_input};
use vx_io::{Inputs, Sink};
use vx_json::Text;

/// Takes the scan of a word under its name, in the memory of the last one, and goes through its images, behind
/// those of the scans before.
fn walk_input<'n, W: SheetWork, I: Inputs, S: Sink>(
    alloc: Global,
    memory: &mut Bytes,
    work: &mut W,
    name: &str,
    word: u32,
    walked: Walked<'_>,
    inputs: &mut I,
    out: &mut S,
) -> Result<Walked<'n>, Halt>
    requires may { W.may work.old }
    requires few { images_in walked < 2 ^ 61 }
    requires later_word { 1 < word }
    ensures done { ForSome (I.held inputs.old) (λ files.
        WalksFirst (W.step work.old) (W.ending work.old) files word walked.entry name.now
        (S.taken out.old) (S.taken out.new) result) }
    ensures same { work.new ≡ work.old }
    ensures bound { IfOk result (λ now. images_in now ≤ images_in walked.entry + 67108864) }
    ensures devices { TouchesInputsAndSink I.Inputs S.Sink inputs.old inputs.new out.old out.new result }
    ensures asked { Asks I.Inputs (name.now ∷ []) inputs.old inputs.new (is_ok result) }
    ensures late { writes_nothing false result ≡ false }
{
    asks_in_order::<I>();
    steps_in_order::<Bytes>();
    let last = replace(memory, Bytes::new(alloc));
    let bytes = take_input(last, inputs, name, word, INPUT_LIMIT)?;
    let now = walk_scan(alloc, work, name, word, walked, bytes.as_slice(), out);
    *memory = bytes;
    now
}

/// Goes through scans one after the other, the first of which is the input of a word, does their sheets, and then
/// what is done at the end. One input is held at a time, and all are held in the memory of the greatest; an image that
/// waits at the end of its scan is copied. It halts as `take_input`, a bitmap that can't be read and the work do, and
/// at want of memory.
pub fn walk_scans<W: SheetWork, I: Inputs, S: Sink>(
    alloc: Global,
    work: &mut W,
    scans: &[Text],
    first_word: u32,
    inputs: &mut I,
    out: &mut S,
) -> Result<(), Halt>
    requires may { W.may work.old }
    requires few { length scans.now ≤ 64 }
    requires later_word { 1 < first_word }
    requires small { first_word < 2 ^ 31 }
    ensures done { ForSome (I.held inputs.old) (λ files.
        IsWritten (scans_outcome (W.step work.old) (W.ending work.old) files first_word 0 [] scans.now)
        (S.taken out.old) (S.taken out.new) result) }
    ensures devices { TouchesInputsAndSink I.Inputs S.Sink inputs.old inputs.new out.old out.new result }
    ensures asked { Asks I.Inputs scans.now inputs.old inputs.new (is_ok result) }
    ensures late { writes_nothing false result ≡ false }
{
    asks_in_order::<I>();
    let mut memory = Bytes::new(alloc);
    let mut walked = Walked {
        sheets: 0,
        waiting: None,
    };
    let mut word = first_word;
    for scan in scans {
        let name = scan.as_str();
        walked = walk_input(alloc, &mut memory, work, name, word, walked, inputs, out)?;
        word += 1;
    }
    let left = walked.left();
    work.end(alloc, walked.sheets, left, out)
}
