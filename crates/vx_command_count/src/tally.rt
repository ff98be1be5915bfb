ghost use Rattle.std.specs.Prelude.{◌≡◌, ◌<◌, ◌+◌, ◌^◌};
ghost use Rattle.vx_command_count.specs.Tally as spec;
ghost use Rattle.vx_command_count.specs.Tally.{sheets_in};

use vx_sheet::Came;

/// How many sheets were added, were there before, and all others.
#[derive(Clone, Copy, Debug)]
pub(crate) struct Tally {
    pub(crate) added: u64,
    pub(crate) repeated: u64,
    pub(crate) unread: u64,
}

impl Tally {
    /// No sheet yet.
    pub(crate) const NONE: Tally = Tally {
        added: 0,
        repeated: 0,
        unread: 0,
    };
}

/// The number of the sheet that comes next, from 1.
pub(crate) fn next_number(tally: Tally) -> u64
    requires { sheets_in tally < 2 ^ 62 }
    ensures { result ≡ spec.next_number tally }
{
    tally.added + tally.repeated + tally.unread + 1
}

/// The tally with one sheet more.
pub(crate) fn tally_with(tally: Tally, came: &Came) -> Tally
    requires { sheets_in tally < 2 ^ 62 }
    ensures exact { result ≡ spec.tally_with tally came.now }
    ensures more { sheets_in result ≡ sheets_in tally + 1 }
{
    let Tally {
        added,
        repeated,
        unread,
    } = tally;
    match came {
        Came::Added(_) => Tally {
            added: added + 1,
            repeated,
            unread,
        },
        Came::Repeated => Tally {
            added,
            repeated: repeated + 1,
            unread,
        },
        _ => Tally {
            added,
            repeated,
            unread: unread + 1,
        },
    }
}
