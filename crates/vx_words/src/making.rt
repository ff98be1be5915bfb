//! The commands, made of the words behind their names.

ghost use Rattle.std.specs.Prelude.{◌≡◌, ◌∷◌, All, map};
ghost use Rattle.vx_words.specs.Names.{name_word};
ghost use Rattle.vx_words.specs.Words.{IsArgument, Reads};

use crate::arguments::texts_from;
use crate::auditing::{board_of, risk_of};
use crate::command::Command;
use crate::fault::UsageFault;
use crate::items::items_from;
use crate::kinds::kind_and_test;
use crate::moment::{device_of, is_moment};
use crate::name::{Name, name_in};
use crate::sample::{sample_seed, sample_size};
use crate::seed::read_seed;
use std::alloc::Global;
use vx_base::read_number;
use vx_events::is_batch;
use vx_json::Text;

/// `print ELECTION CARD KIND`.
fn print_of(alloc: Global, arguments: &[&str]) -> Result<Command, UsageFault>
    requires { All IsArgument (map (λ word. word.now) arguments.now) }
    ensures { Reads (name_word Name.Print ∷ map (λ word. word.now) arguments.now) result }
{
    let [election, card, kind] = arguments else {
        return Err(UsageFault::Usage);
    };
    let Some(card) = read_number(card, 1023) else {
        return Err(UsageFault::Usage);
    };
    let Some((kind, test)) = kind_and_test(kind) else {
        return Err(UsageFault::Usage);
    };
    let election = Text::from_str(alloc, election)?;
    Ok(Command::Print {
        election,
        card,
        kind,
        test,
    })
}

/// `read ELECTION SCANS`.
fn read_of(alloc: Global, arguments: &[&str]) -> Result<Command, UsageFault>
    requires { All IsArgument (map (λ word. word.now) arguments.now) }
    ensures { Reads (name_word Name.Read ∷ map (λ word. word.now) arguments.now) result }
{
    if arguments.len() < 2 || arguments.len() > 65 {
        return Err(UsageFault::Usage);
    }
    let election = Text::from_str(alloc, arguments[0])?;
    let scans = texts_from(alloc, arguments, 1)?;
    Ok(Command::Read { election, scans })
}

/// `check ELECTION SCANS READINGS`.
fn check_of(alloc: Global, arguments: &[&str]) -> Result<Command, UsageFault>
    requires { All IsArgument (map (λ word. word.now) arguments.now) }
    ensures { Reads (name_word Name.Check ∷ map (λ word. word.now) arguments.now) result }
{
    let [election, scans, readings] = arguments else {
        return Err(UsageFault::Usage);
    };
    let election = Text::from_str(alloc, election)?;
    let scans = Text::from_str(alloc, scans)?;
    let readings = Text::from_str(alloc, readings)?;
    Ok(Command::Check {
        election,
        scans,
        readings,
    })
}

/// `count ELECTION BATCH WORKERS SCANS`.
fn count_of(alloc: Global, arguments: &[&str]) -> Result<Command, UsageFault>
    requires { All IsArgument (map (λ word. word.now) arguments.now) }
    ensures { Reads (name_word Name.Count ∷ map (λ word. word.now) arguments.now) result }
{
    if arguments.len() < 4 || arguments.len() > 67 {
        return Err(UsageFault::Usage);
    }
    if !is_batch(arguments[1].as_bytes()) {
        return Err(UsageFault::Usage);
    }
    let Some(workers) = read_number(arguments[2], 64) else {
        return Err(UsageFault::Usage);
    };
    if workers == 0 {
        return Err(UsageFault::Usage);
    }
    let election = Text::from_str(alloc, arguments[0])?;
    let batch = Text::from_str(alloc, arguments[1])?;
    let scans = texts_from(alloc, arguments, 3)?;
    Ok(Command::Count {
        election,
        batch,
        workers,
        scans,
    })
}

/// `decide ELECTION SCRIPT`.
fn decide_of(alloc: Global, arguments: &[&str]) -> Result<Command, UsageFault>
    requires { All IsArgument (map (λ word. word.now) arguments.now) }
    ensures { Reads (name_word Name.Decide ∷ map (λ word. word.now) arguments.now) result }
{
    let [election, script] = arguments else {
        return Err(UsageFault::Usage);
    };
    let election = Text::from_str(alloc, election)?;
    let script = Text::from_str(alloc, script)?;
    Ok(Command::Decide { election, script })
}

/// `queue ELECTION`.
fn queue_of(alloc: Global, arguments: &[&str]) -> Result<Command, UsageFault>
    requires { All IsArgument (map (λ word. word.now) arguments.now) }
    ensures { Reads (name_word Name.Queue ∷ map (λ word. word.now) arguments.now) result }
{
    let [election] = arguments else {
        return Err(UsageFault::Usage);
    };
    let election = Text::from_str(alloc, election)?;
    Ok(Command::Queue { election })
}

/// `export ELECTION MOMENT DEVICE`.
fn export_of(alloc: Global, arguments: &[&str]) -> Result<Command, UsageFault>
    requires { All IsArgument (map (λ word. word.now) arguments.now) }
    ensures { Reads (name_word Name.Export ∷ map (λ word. word.now) arguments.now) result }
{
    if arguments.len() != 3 {
        return Err(UsageFault::Usage);
    }
    if !is_moment(arguments[1]) {
        return Err(UsageFault::Usage);
    }
    let Some(device) = device_of(alloc, arguments[2])? else {
        return Err(UsageFault::Usage);
    };
    let election = Text::from_str(alloc, arguments[0])?;
    let moment = Text::from_str(alloc, arguments[1])?;
    Ok(Command::Export {
        election,
        moment,
        device,
    })
}

/// `demo SEED SHEETS`.
fn demo_of(arguments: &[&str]) -> Result<Command, UsageFault>
    requires { All IsArgument (map (λ word. word.now) arguments.now) }
    ensures { Reads (name_word Name.Demo ∷ map (λ word. word.now) arguments.now) result }
{
    let [seed, sheets] = arguments else {
        return Err(UsageFault::Usage);
    };
    let Some(seed) = read_seed(seed) else {
        return Err(UsageFault::Usage);
    };
    let Some(sheets) = read_number(sheets, 1000) else {
        return Err(UsageFault::Usage);
    };
    if sheets == 0 {
        return Err(UsageFault::Usage);
    }
    Ok(Command::Demo { seed, sheets })
}

/// `center ELECTION MOMENT DEVICE ITEMS`.
fn center_of(alloc: Global, arguments: &[&str]) -> Result<Command, UsageFault>
    requires { All IsArgument (map (λ word. word.now) arguments.now) }
    ensures { Reads (name_word Name.Center ∷ map (λ word. word.now) arguments.now) result }
{
    if arguments.len() < 4 || arguments.len() > 19 {
        return Err(UsageFault::Usage);
    }
    if !is_moment(arguments[1]) {
        return Err(UsageFault::Usage);
    }
    let Some(device) = device_of(alloc, arguments[2])? else {
        return Err(UsageFault::Usage);
    };
    let items = items_from(alloc, arguments, 3)?;
    let election = Text::from_str(alloc, arguments[0])?;
    let moment = Text::from_str(alloc, arguments[1])?;
    Ok(Command::Center {
        election,
        moment,
        device,
        items,
    })
}

/// `try ELECTION SCANS`.
fn try_of(alloc: Global, arguments: &[&str]) -> Result<Command, UsageFault>
    requires { All IsArgument (map (λ word. word.now) arguments.now) }
    ensures { Reads (name_word Name.Try ∷ map (λ word. word.now) arguments.now) result }
{
    if arguments.len() < 2 || arguments.len() > 65 {
        return Err(UsageFault::Usage);
    }
    let election = Text::from_str(alloc, arguments[0])?;
    let scans = texts_from(alloc, arguments, 1)?;
    Ok(Command::Try { election, scans })
}

/// `cards ELECTION`.
fn cards_of(alloc: Global, arguments: &[&str]) -> Result<Command, UsageFault>
    requires { All IsArgument (map (λ word. word.now) arguments.now) }
    ensures { Reads (name_word Name.Cards ∷ map (λ word. word.now) arguments.now) result }
{
    let [election] = arguments else {
        return Err(UsageFault::Usage);
    };
    let election = Text::from_str(alloc, election)?;
    Ok(Command::Cards { election })
}

/// `results ELECTION`.
fn results_of(alloc: Global, arguments: &[&str]) -> Result<Command, UsageFault>
    requires { All IsArgument (map (λ word. word.now) arguments.now) }
    ensures { Reads (name_word Name.Results ∷ map (λ word. word.now) arguments.now) result }
{
    let [election] = arguments else {
        return Err(UsageFault::Usage);
    };
    let election = Text::from_str(alloc, election)?;
    Ok(Command::Results { election })
}

/// `sample ELECTION SEED SIZE HAND`.
fn sample_of(alloc: Global, arguments: &[&str]) -> Result<Command, UsageFault>
    requires { All IsArgument (map (λ word. word.now) arguments.now) }
    ensures { Reads (name_word Name.Sample ∷ map (λ word. word.now) arguments.now) result }
{
    let [election, seed, size, hand] = arguments else {
        return Err(UsageFault::Usage);
    };
    let Some(_bytes) = sample_seed(seed) else {
        return Err(UsageFault::Usage);
    };
    let Some(size) = sample_size(size) else {
        return Err(UsageFault::Usage);
    };
    let election = Text::from_str(alloc, election)?;
    let seed = Text::from_str(alloc, seed)?;
    let hand = Text::from_str(alloc, hand)?;
    Ok(Command::Sample {
        election,
        seed,
        size,
        hand,
    })
}

/// `desk ELECTION BATCH SCANS`.
fn desk_of(alloc: Global, arguments: &[&str]) -> Result<Command, UsageFault>
    requires { All IsArgument (map (λ word. word.now) arguments.now) }
    ensures { Reads (name_word Name.Desk ∷ map (λ word. word.now) arguments.now) result }
{
    if arguments.len() < 3 || arguments.len() > 66 {
        return Err(UsageFault::Usage);
    }
    let named = is_batch(arguments[1].as_bytes());
    if !named {
        return Err(UsageFault::Usage);
    }
    let election = Text::from_str(alloc, arguments[0])?;
    let batch = Text::from_str(alloc, arguments[1])?;
    let scans = texts_from(alloc, arguments, 2)?;
    Ok(Command::Desk {
        election,
        batch,
        scans,
    })
}

/// `summary ELECTION`.
fn summary_of(alloc: Global, arguments: &[&str]) -> Result<Command, UsageFault>
    requires { All IsArgument (map (λ word. word.now) arguments.now) }
    ensures { Reads (name_word Name.Summary ∷ map (λ word. word.now) arguments.now) result }
{
    let [election] = arguments else {
        return Err(UsageFault::Usage);
    };
    let election = Text::from_str(alloc, election)?;
    Ok(Command::Summary { election })
}

/// The command of a row of the table, of the words behind its name.
fn command_named(alloc: Global, name: Name, arguments: &[&str]) -> Result<Command, UsageFault>
    requires { All IsArgument (map (λ word. word.now) arguments.now) }
    ensures { Reads (name_word name ∷ map (λ word. word.now) arguments.now) result }
{
    match name {
        Name::Print => print_of(alloc, arguments),
        Name::Read => read_of(alloc, arguments),
        Name::Check => check_of(alloc, arguments),
        Name::Count => count_of(alloc, arguments),
        Name::Decide => decide_of(alloc, arguments),
        Name::Queue => queue_of(alloc, arguments),
        Name::Export => export_of(alloc, arguments),
        Name::Demo => demo_of(arguments),
        Name::Center => center_of(alloc, arguments),
        Name::Try => try_of(alloc, arguments),
        Name::Cards => cards_of(alloc, arguments),
        Name::Results => results_of(alloc, arguments),
        Name::Sample => sample_of(alloc, arguments),
        Name::Desk => desk_of(alloc, arguments),
        Name::Summary => summary_of(alloc, arguments),
        Name::Board => board_of(alloc, arguments),
        Name::Risk => risk_of(alloc, arguments),
    }
}

/// The command with a name, of the words behind it.
pub fn command_of(alloc: Global, name: &str, arguments: &[&str]) -> Result<Command, UsageFault>
    requires { All IsArgument (map (λ word. word.now) arguments.now) }
    ensures { Reads (name.now ∷ map (λ word. word.now) arguments.now) result }
{
    match name_in(name) {
        Some(known) => command_named(alloc, known, arguments),
        None => Err(UsageFault::Usage),
    }
}
