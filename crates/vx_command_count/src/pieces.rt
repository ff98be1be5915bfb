ghost use Rattle.std.specs.Prelude.{◌≡◌, ◌<◌, ◌≤◌, ◌+◌, ◌*◌, ◌%◌, ◌^◌, ◌++◌, IfOk, OnOk, false, length};
ghost use Rattle.vx_command.specs.Devices.{TouchesSinkAndKeeper, writes_nothing};
ghost use Rattle.vx_command_count.specs.Gathering.{LeavesPiece, waits};
ghost use Rattle.vx_command_count.specs.Setting.{IsSet};
ghost use Rattle.vx_command_count.specs.Steps.{CountsPiece};
ghost use Rattle.vx_command_count.specs.Tally.{sheets_in};

use crate::counting::Counting;
use crate::gathering::{Ended, gather};
use crate::pairs::count_images;
use crate::setting::Setting;
use std::alloc::Global;
use std::thread::Threads;
use vx_base::OutOfMemory;
use vx_command::{Halt, acts_in_order};
use vx_io::{Keeper, Sink};
use vx_pbm::{Image, PbmReader};
use vx_workers::Gate;

/// A piece of a scan that was counted: how it ended, and the image that is left over, if one is.
#[derive(Drop)]
pub(crate) struct Piece<'b> {
    pub(crate) ended: Ended,
    pub(crate) last: Option<Image<'b>>,
}

/// Lets images go.
fn drop_images(_images: Vec<Image<'_>>) {}

/// Lets an image that may be left over go.
pub(crate) fn drop_last(_last: Option<Image<'_>>) {}

/// The image that waited, if one did, as the first of a list.
fn list_of<'b>(alloc: Global, first: Option<Image<'b>>) -> Result<Vec<Image<'b>>, OutOfMemory>
    ensures { IfOk result (λ images. images.items ≡ waits first.entry) }
{
    let mut images = Vec::new(alloc);
    if let Some(image) = first {
        images.push(image)?;
    }
    Ok(images)
}

/// Takes the last image away where their number is odd.
fn take_odd<'b>(images: &mut Vec<Image<'b>>) -> Option<Image<'b>>
    ensures parts { images.new.items ++ waits result ≡ images.old.items }
    ensures even { length images.new.items % 2 ≡ 0 }
{
    if images.len() % 2 == 1 {
        images.pop()
    } else {
        None
    }
}

/// Counts the sheets of the next images of a scan, of at most 128 with the one that waited, if one did.
/// An odd last image is left over, where the scan has no more.
pub(crate) fn count_piece<'b, R: Threads + Sync, S: Sink, K: Keeper, G: Gate>(
    rt: &R,
    alloc: Global,
    setting: &Setting<'_>,
    counting: &mut Counting<'_>,
    first: Option<Image<'b>>,
    reader: &mut PbmReader<'b>,
    gate: &G,
    keeper: &mut K,
    out: &mut S,
) -> Result<Piece<'b>, Halt>
    requires set { IsSet setting.now }
    requires election { counting.old.journal.center.election ≡ setting.now.election.now }
    requires few { sheets_in counting.old.tally < 2 ^ 61 }
    ensures counts { CountsPiece setting.now.election.now setting.now.batch.now counting.old counting.new
        first.entry reader.old reader.new
        (S.taken out.old) (S.taken out.new) (K.held keeper.old) (K.held keeper.new) result }
    ensures leaves { IfOk result (λ piece. LeavesPiece first.entry reader.old piece.last reader.new piece.ended) }
    ensures election { OnOk result (counting.new.journal.center.election ≡ setting.now.election.now) }
    ensures room { IfOk result (λ piece.
        2 * sheets_in counting.new.tally + length (waits piece.last) + length reader.new.text
        ≤ 2 * sheets_in counting.old.tally + length (waits first.entry) + length reader.old.text) }
    ensures devices { TouchesSinkAndKeeper S.Sink K.Keeper out.old out.new keeper.old keeper.new result }
    ensures late { writes_nothing false result ≡ false }
{
    acts_in_order();
    let mut images = list_of(alloc, first)?;
    let ended = gather(&mut images, reader)?;
    let last = take_odd(&mut images);
    let held = images.as_slice();
    match count_images(rt, alloc, setting, counting, held, gate, keeper, out) {
        Ok(()) => {
            drop_images(images);
            Ok(Piece { ended, last })
        }
        Err(halt) => {
            drop_images(images);
            drop_last(last);
            Err(halt)
        }
    }
}
