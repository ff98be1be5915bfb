ghost use Rattle.std.specs.Prelude.{◌≡◌, [], ◌∷◌, ◌<◌, true, IfOk, MatchResult};
ghost use Rattle.vx_records.specs.Parts.{behind, each_in, first_is, found};
ghost use Rattle.vx_records.specs.Reading.{next_option, no_options_in, option_in, options_in, some_options_in};
ghost use Rattle.vx_records.specs.Stops.{Stops};

use crate::numbers::{Numbers, number};
use crate::parts::{Stop, end, is_first, word};
use std::alloc::Global;
use vx_events::Options;

/// An option from `least` on, behind a comma.
#[tactic(auto, unfolding(crate::specs::Reading::option_in))]
fn option(text: &[u8], least: u32) -> Result<(u32, &[u8]), Stop>
    ensures exact { MatchResult result
        (λ x. option_in least text.now ≡ found x.0 x.1.now) (λ stop. Stops stop (option_in least text.now)) }
    ensures small { IfOk result (λ x. x.0 < 1000) }
{
    if 1_000 <= least {
        return Err(Stop::Left(text.len()));
    }
    let rest = word(text, b",")?;
    number(rest, Numbers::Between(least, 999))
}

/// Adds the options from `least` on that stand behind the first.
fn further_options(options: &mut Vec<u32>, text: &[u8], least: u32) -> Result<(), Stop>
    ensures { MatchResult result
        (λ _. behind options.old.items (each_in option_in next_option 1000 least text.now) ≡ found options.new.items [])
        (λ stop. Stops stop (behind options.old.items (each_in option_in next_option 1000 least text.now))) }
{
    let mut rest = text;
    let mut next = least;
    for _left in 0..1000u32 {
        if rest.is_empty() {
            return Ok(());
        }
        let (option, further) = option(rest, next)?;
        options.push(option)?;
        next = option + 1;
        rest = further;
    }
    end(rest)
}

/// Options that ascend, with commas between.
#[tactic(auto, unfolding(crate::specs::Reading::some_options_in))]
fn some_options(alloc: Global, text: &[u8]) -> Result<Options, Stop>
    ensures { MatchResult result
        (λ x. some_options_in text.now ≡ found x []) (λ stop. Stops stop (some_options_in text.now)) }
{
    let (first, rest) = number(text, Numbers::Between(0, 999))?;
    let mut options = vec![in alloc; first]?;
    further_options(&mut options, rest, first + 1)?;
    Ok(Options::from_ascending(options))
}

/// `-` for no options.
#[tactic(auto, unfolding(crate::specs::Reading::no_options_in))]
fn no_options(alloc: Global, text: &[u8]) -> Result<Options, Stop>
    ensures { MatchResult result
        (λ x. no_options_in text.now ≡ found x []) (λ stop. Stops stop (no_options_in text.now)) }
{
    let rest = word(text, b"-")?;
    end(rest)?;
    Ok(Options::new(alloc))
}

/// Options, and nothing more.
#[tactic(auto, unfolding(crate::specs::Reading::options_in))]
pub(crate) fn options(alloc: Global, text: &[u8]) -> Result<Options, Stop>
    ensures { MatchResult result
        (λ x. options_in text.now ≡ found x []) (λ stop. Stops stop (options_in text.now)) }
{
    if is_first(text, b'-') {
        no_options(alloc, text)
    } else {
        some_options(alloc, text)
    }
}
