ghost use Rattle.std.specs.Prelude.{◌≡◌, ◌<◌, ◌+◌, ◌*◌, ◌%◌, ◌^◌, ◌++◌, List, OnOk, Some, false, length, slice_get};
ghost use Rattle.std.specs.List.{AllZip};
ghost use Rattle.vx_command.specs.Devices.{TouchesSinkAndKeeper, writes_nothing};
ghost use Rattle.vx_plane.specs.Plane.{Page};
ghost use Rattle.vx_sheet.specs.Reads.{IsReadOf};
ghost use Rattle.vx_command_count.specs.Setting.{IsSet};
ghost use Rattle.vx_command_count.specs.Steps.{CountsTo};
ghost use Rattle.vx_command_count.specs.Tally.{sheets_in};

use crate::counting::Counting;
use crate::reads::read_images;
use crate::setting::Setting;
use crate::sheets::count_pair;
use std::alloc::Global;
use std::thread::Threads;
use vx_command::{Halt, acts_in_order};
use vx_io::{Keeper, Sink};
use vx_pbm::Image;
use vx_sheet::PageRead;
use vx_workers::Gate;

fn read_at(reads: &[PageRead], place: usize) -> &PageRead
    requires { place < length reads.now }
    ensures { slice_get reads.now place ≡ Some result.now }
{
    &reads[place]
}

/// Counts the sheets of an even number of images, in order, by what the images are read as.
fn count_pairs<S: Sink, K: Keeper>(
    alloc: Global,
    setting: &Setting<'_>,
    counting: &mut Counting<'_>,
    _images: &[Image<'_>],
    reads: &[PageRead],
    keeper: &mut K,
    out: &mut S,
) -> Result<(), Halt>
    requires set { IsSet setting.now }
    requires election { counting.old.journal.center.election ≡ setting.now.election.now }
    requires few { sheets_in counting.old.tally + length _images.now < 2 ^ 62 }
    requires even { length _images.now % 2 ≡ 0 }
    requires reads { AllZip (IsReadOf setting.now.election.now) _images.now reads.now }
    ensures counts { (more : List Page) → CountsTo setting.now.election.now setting.now.batch.now
        counting.old counting.new (_images.now ++ more) more
        (S.taken out.old) (S.taken out.new) (K.held keeper.old) (K.held keeper.new) result }
    ensures election { OnOk result (counting.new.journal.center.election ≡ setting.now.election.now) }
    ensures more { OnOk result
        (2 * sheets_in counting.new.tally ≡ 2 * sheets_in counting.old.tally + length _images.now) }
    ensures devices { TouchesSinkAndKeeper S.Sink K.Keeper out.old out.new keeper.old keeper.new result }
    ensures late { writes_nothing false result ≡ false }
{
    acts_in_order();
    for pair in 0..reads.len() / 2 {
        let first = read_at(reads, 2 * pair);
        let second = read_at(reads, 2 * pair + 1);
        count_pair(alloc, setting, counting, first, second, keeper, out)?;
    }
    Ok(())
}

/// Reads an even number of images by workers, and counts their sheets in order.
pub(crate) fn count_images<R: Threads + Sync, S: Sink, K: Keeper, G: Gate>(
    rt: &R,
    alloc: Global,
    setting: &Setting<'_>,
    counting: &mut Counting<'_>,
    images: &[Image<'_>],
    gate: &G,
    keeper: &mut K,
    out: &mut S,
) -> Result<(), Halt>
    requires set { IsSet setting.now }
    requires election { counting.old.journal.center.election ≡ setting.now.election.now }
    requires few { sheets_in counting.old.tally + length images.now < 2 ^ 62 }
    requires held { length images.now < 2 ^ 32 }
    requires even { length images.now % 2 ≡ 0 }
    ensures counts { (more : List Page) → CountsTo setting.now.election.now setting.now.batch.now
        counting.old counting.new (images.now ++ more) more
        (S.taken out.old) (S.taken out.new) (K.held keeper.old) (K.held keeper.new) result }
    ensures election { OnOk result (counting.new.journal.center.election ≡ setting.now.election.now) }
    ensures more { OnOk result
        (2 * sheets_in counting.new.tally ≡ 2 * sheets_in counting.old.tally + length images.now) }
    ensures devices { TouchesSinkAndKeeper S.Sink K.Keeper out.old out.new keeper.old keeper.new result }
    ensures late { writes_nothing false result ≡ false }
{
    acts_in_order();
    let reads = read_images(rt, alloc, setting, images, gate)?;
    count_pairs(
        alloc,
        setting,
        counting,
        images,
        reads.as_slice(),
        keeper,
        out,
    )
}
