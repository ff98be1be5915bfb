//! The commands of an audit's board, made of the words behind their names.

ghost use Rattle.std.specs.Prelude.{◌≡◌, ◌∷◌, All, map};
ghost use Rattle.vx_words.specs.Names.{name_word};
ghost use Rattle.vx_words.specs.Words.{IsArgument, Reads};

use crate::command::Command;
use crate::fault::UsageFault;
use crate::name::Name;
use crate::sample::{risk_limit, sample_seed, sample_size};
use std::alloc::Global;
use vx_json::Text;

/// `board ELECTION SEED SIZE`.
pub fn board_of(alloc: Global, arguments: &[&str]) -> Result<Command, UsageFault>
    requires { All IsArgument (map (λ word. word.now) arguments.now) }
    ensures { Reads (name_word Name.Board ∷ map (λ word. word.now) arguments.now) result }
{
    let [election, seed, size] = arguments else {
        return Err(UsageFault::Usage);
    };
    let Some(_bytes) = sample_seed(seed) else {
        return Err(UsageFault::Usage);
    };
    let Some(size) = sample_size(size) else {
        return Err(UsageFault::Usage);
    };
    let election = Text::from_str(alloc, election)?;
    let seed = Text::from_str(alloc, seed)?;
    Ok(Command::Board {
        election,
        seed,
        size,
    })
}

/// `risk ELECTION SEED SIZE HAND LIMIT`.
pub fn risk_of(alloc: Global, arguments: &[&str]) -> Result<Command, UsageFault>
    requires { All IsArgument (map (λ word. word.now) arguments.now) }
    ensures { Reads (name_word Name.Risk ∷ map (λ word. word.now) arguments.now) result }
{
    let [election, seed, size, hand, limit] = arguments else {
        return Err(UsageFault::Usage);
    };
    let Some(_bytes) = sample_seed(seed) else {
        return Err(UsageFault::Usage);
    };
    let Some(size) = sample_size(size) else {
        return Err(UsageFault::Usage);
    };
    let Some(limit) = risk_limit(limit) else {
        return Err(UsageFault::Usage);
    };
    let election = Text::from_str(alloc, election)?;
    let seed = Text::from_str(alloc, seed)?;
    let hand = Text::from_str(alloc, hand)?;
    Ok(Command::Risk {
        election,
        seed,
        size,
        hand,
        limit,
    })
}
