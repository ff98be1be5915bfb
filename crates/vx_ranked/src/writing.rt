ghost use Rattle.std.specs.Prelude.{◌≡◌, false, All, Ok, IfErr};
ghost use Rattle.vx_base.specs.Refusals.{Gives};
ghost use Rattle.vx_election_model.specs.Valid.{IsValid};
ghost use Rattle.vx_layout.specs.Plans.{ArePlansOf};
ghost use Rattle.vx_command.specs.Acts.{writing};
ghost use Rattle.vx_command.specs.Devices.{TouchesNothing, TouchesSink};
ghost use Rattle.vx_command.specs.Done.{IsWritten};
ghost use Rattle.vx_command.specs.Steps.{is_no_memory};
ghost use Rattle.vx_ranked.specs.Groups.{IsGroup};
ghost use Rattle.vx_ranked.specs.Texts.{ranked_text};
ghost use Rattle.vx_ranked.specs.Done.{IsRankedWritten};
ghost use Rattle.vx_ranked.specs.Outcome.{groups_outcome};
ghost use Rattle.vx_ranked.specs.Status.{may_have_written, IsStop};

use crate::fault::RankedFault;
use crate::groups::{Group, drop_groups};
use crate::laws::read_groups_are_groups;
use crate::reading::read_ranked;
use crate::telling::ranked_text;
use std::alloc::Global;
use vx_base::Bytes;
use vx_center::Center;
use vx_command::{Halt, acts_in_order, write_text};
use vx_election_model::Election;
use vx_io::Sink;
use vx_layout::CardPlans;

/// What is written of groups.
fn text_of(
    alloc: Global,
    election: &Election,
    center: &Center<'_>,
    groups: &[Group],
) -> Result<Bytes, Halt>
    requires valid { IsValid election.now }
    requires same { center.now.election ≡ election.now }
    requires groups { All (IsGroup election.now) groups.now }
    ensures exact { Gives is_no_memory result
        (Ok (ranked_text election.now center.now.events groups.now)) }
    ensures devices { TouchesNothing result }
{
    let text = ranked_text(alloc, election, center, groups)?;
    Ok(Bytes::from_vec(text.into_bytes()))
}

/// Writes the rounds of groups.
fn write_groups<S: Sink>(
    alloc: Global,
    election: &Election,
    center: &Center<'_>,
    groups: &[Group],
    out: &mut S,
) -> Result<(), Halt>
    requires valid { IsValid election.now }
    requires same { center.now.election ≡ election.now }
    requires groups { All (IsGroup election.now) groups.now }
    ensures done { IsWritten (writing (ranked_text election.now center.now.events groups.now))
        (S.taken out.old) (S.taken out.new) result }
    ensures sink { TouchesSink S.Sink out.old out.new result }
{
    acts_in_order();
    let text = text_of(alloc, election, center, groups)?;
    write_text(out, text.as_slice())
}

/// Reads the file of ranked contests, and writes the rounds of its groups. Answers the fault that refuses
/// the file, if any.
pub(crate) fn write_rounds<S: Sink>(
    alloc: Global,
    election: &Election,
    plans: &CardPlans,
    center: &Center<'_>,
    bytes: &[u8],
    out: &mut S,
) -> Result<Option<RankedFault>, Halt>
    requires valid { IsValid election.now }
    requires plans { ArePlansOf election.now plans.now }
    requires same { center.now.election ≡ election.now }
    ensures done { IsRankedWritten (groups_outcome election.now plans.now center.now.events bytes.now)
        (S.taken out.old) (S.taken out.new) result }
    ensures stops { IfErr result IsStop }
    ensures nothing_written { may_have_written result ≡ false → S.taken out.new ≡ S.taken out.old }
    ensures sink { TouchesSink S.Sink out.old out.new result }
{
    acts_in_order();
    read_groups_are_groups();
    match read_ranked(alloc, election, plans, bytes) {
        Ok(groups) => {
            let done = write_groups(alloc, election, center, groups.as_slice(), out);
            drop_groups(groups);
            done?;
            Ok(None)
        }
        Err(RankedFault::OutOfMemory) => Err(Halt::NoMemory),
        Err(fault) => Ok(Some(fault)),
    }
}
