//! Whether words spell a command, decided without memory.

ghost use Rattle.std.specs.Prelude.{MatchOption};
ghost use Rattle.vx_words.specs.declared.name.Name.{Name as NameOf};
ghost use Rattle.vx_words.specs.Words.{Decides, HasName};

use crate::arguments::are_arguments;
use crate::items::are_items;
use crate::kinds::kind_and_test;
use crate::moment::{is_device, is_moment};
use crate::name::{Name, Row, name_in, row_in_table};
use crate::sample::{risk_limit, sample_seed, sample_size};
use crate::seed::read_seed;
use vx_base::read_number;
use vx_events::is_batch;
use vx_io::Words;

fn is_print(words: &Words) -> bool
    requires { HasName words.now Name.Print }
    ensures { Decides words.now result }
{
    let Some(_card) = read_number(words.word(2), 1023) else {
        return false;
    };
    let Some(_kind) = kind_and_test(words.word(3)) else {
        return false;
    };
    true
}

fn is_count(words: &Words) -> bool
    requires { HasName words.now Name.Count }
    ensures { Decides words.now result }
{
    if !is_batch(words.word(2).as_bytes()) {
        return false;
    }
    let Some(workers) = read_number(words.word(3), 64) else {
        return false;
    };
    if workers == 0 {
        return false;
    }
    true
}

fn is_export(words: &Words) -> bool
    requires { HasName words.now Name.Export }
    ensures { Decides words.now result }
{
    if !is_moment(words.word(2)) {
        return false;
    }
    if !is_device(words.word(3)) {
        return false;
    }
    true
}

fn is_demo(words: &Words) -> bool
    requires { HasName words.now Name.Demo }
    ensures { Decides words.now result }
{
    let Some(_seed) = read_seed(words.word(1)) else {
        return false;
    };
    let Some(sheets) = read_number(words.word(2), 1000) else {
        return false;
    };
    if sheets == 0 {
        return false;
    }
    true
}

fn is_center(words: &Words) -> bool
    requires { HasName words.now Name.Center }
    ensures { Decides words.now result }
{
    if !is_moment(words.word(2)) {
        return false;
    }
    if !is_device(words.word(3)) {
        return false;
    }
    are_items(words, 4)
}

fn is_sample(words: &Words) -> bool
    requires { HasName words.now Name.Sample }
    ensures { Decides words.now result }
{
    let Some(_seed) = sample_seed(words.word(2)) else {
        return false;
    };
    let Some(_size) = sample_size(words.word(3)) else {
        return false;
    };
    true
}

fn is_desk(words: &Words) -> bool
    requires { HasName words.now Name.Desk }
    ensures { Decides words.now result }
{
    if !is_batch(words.word(2).as_bytes()) {
        return false;
    }
    true
}

fn is_board(words: &Words) -> bool
    requires { HasName words.now Name.Board }
    ensures { Decides words.now result }
{
    let Some(_seed) = sample_seed(words.word(2)) else {
        return false;
    };
    let Some(_size) = sample_size(words.word(3)) else {
        return false;
    };
    true
}

fn is_risk(words: &Words) -> bool
    requires { HasName words.now Name.Risk }
    ensures { Decides words.now result }
{
    let Some(_seed) = sample_seed(words.word(2)) else {
        return false;
    };
    let Some(_size) = sample_size(words.word(3)) else {
        return false;
    };
    let Some(_limit) = risk_limit(words.word(5)) else {
        return false;
    };
    true
}

/// The command whose name the words begin with, if they are as many as it has.
fn called(words: &Words) -> Option<Name>
    ensures { MatchOption result
        ((name : NameOf) → HasName words.now name → ⊥) (λ name. HasName words.now name) }
{
    if words.count() == 0 {
        return None;
    }
    let name = name_in(words.word(0))?;
    let Row { least, most, .. } = row_in_table(name);
    if words.count() < least || words.count() > most {
        return None;
    }
    if are_arguments(words, 1) {
        Some(name)
    } else {
        None
    }
}

/// Whether the words spell a command. It takes no memory.
pub fn is_command(words: &Words) -> bool
    ensures { Decides words.now result }
{
    let Some(name) = called(words) else {
        return false;
    };
    match name {
        Name::Print => is_print(words),
        Name::Read => true,
        Name::Check => true,
        Name::Count => is_count(words),
        Name::Decide => true,
        Name::Queue => true,
        Name::Export => is_export(words),
        Name::Demo => is_demo(words),
        Name::Center => is_center(words),
        Name::Try => true,
        Name::Cards => true,
        Name::Results => true,
        Name::Sample => is_sample(words),
        Name::Desk => is_desk(words),
        Name::Summary => true,
        Name::Board => is_board(words),
        Name::Risk => is_risk(words),
    }
}
