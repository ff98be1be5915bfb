ghost use Rattle.std.specs.Prelude.{◌≡◌};
ghost use Rattle.vx_events.specs.Ascending.{is_ascending};
ghost use Rattle.vx_events.specs.Fits.{contests_of};

use vx_rules::ContestMarks;

/// Whether the contests that were read ascend.
pub(crate) fn contests_ascend(contests: &[ContestMarks]) -> bool
    ensures { result ≡ is_ascending (contests_of contests.now) }
{
    let mut least = 0u64;
    for marks in contests {
        let contest = u64::from(marks.contest);
        if contest < least {
            return false;
        }
        least = contest + 1;
    }
    true
}
