ghost use Rattle.std.specs.Prelude.{◌≡◌, ◌++◌, ◌∷◌, true, false, [], Bool, IfOk, Ok, string_bytes, is_ok};
ghost use Rattle.std.specs.Option.{ForSome};
ghost use Rattle.vx_base.specs.Refusals.{Gives};
ghost use Rattle.vx_election_model.specs.Valid.{IsValid};
ghost use Rattle.vx_command.specs.Acts.{writing};
ghost use Rattle.vx_command.specs.Asking.{Asks};
ghost use Rattle.vx_command.specs.Devices.{TouchesInputsAndSink, TouchesNothing, TouchesSink, writes_nothing};
ghost use Rattle.vx_command.specs.Done.{IsWritten};
ghost use Rattle.vx_command.specs.Steps.{is_no_memory};
ghost use Rattle.vx_command_cards.specs.declared.flaw.Flaw.TheVariants as flaw;
ghost use Rattle.vx_command_cards.specs.Alike.{alike_lines};
ghost use Rattle.vx_command_cards.specs.Cards.{card_lines};
ghost use Rattle.vx_command_cards.specs.Lines.{GotLines, ended};
ghost use Rattle.vx_command_cards.specs.Outcome as outcome;
ghost use Rattle.vx_command_cards.specs.Outcome.{cards_outcome, cards_text};
ghost use Rattle.vx_command_cards.specs.Texts.{flaw_lines};

use crate::alike::list_alike;
use crate::flaw::Flaw;
use crate::lines::Lines;
use crate::listing::list_cards;
use crate::texts::list_flaws;
use std::alloc::Global;
use vx_base::{Bytes, OutOfMemory};
use vx_command::{Halt, acts_in_order, asks_in_order, steps_in_order, take_election, write_text};
use vx_election_model::{Election, drop_election};
use vx_io::{Inputs, Sink};

/// The lines of all kinds.
#[derive(Drop)]
struct Told {
    cards: Lines,
    hollow: Lines,
    blank: Lines,
    cut: Lines,
    alike: Lines,
}

/// The lines of all kinds for an election.
fn tell_all(alloc: Global, election: &Election) -> Result<Told, OutOfMemory>
    requires { IsValid election.now }
    ensures cards { IfOk result (λ told. GotLines (card_lines election.now)
        [] (string_bytes told.cards.text) 0 told.cards.count) }
    ensures hollow { IfOk result (λ told. GotLines (flaw_lines flaw.Hollow election.now)
        [] (string_bytes told.hollow.text) 0 told.hollow.count) }
    ensures blank { IfOk result (λ told. GotLines (flaw_lines flaw.Blank election.now)
        [] (string_bytes told.blank.text) 0 told.blank.count) }
    ensures cut { IfOk result (λ told. GotLines (flaw_lines flaw.Cut election.now)
        [] (string_bytes told.cut.text) 0 told.cut.count) }
    ensures alike { IfOk result (λ told. GotLines (alike_lines election.now)
        [] (string_bytes told.alike.text) 0 told.alike.count) }
{
    Ok(Told {
        cards: list_cards(alloc, election)?,
        hollow: list_flaws(alloc, election, Flaw::Hollow)?,
        blank: list_flaws(alloc, election, Flaw::Blank)?,
        cut: list_flaws(alloc, election, Flaw::Cut)?,
        alike: list_alike(alloc, election)?,
    })
}

/// How many lines of each kind there are.
fn sums_line(alloc: Global, told: &Told) -> Result<String, OutOfMemory>
    ensures { IfOk result (λ line. string_bytes line ≡ outcome.sums_line
        told.now.cards.count told.now.hollow.count told.now.blank.count told.now.cut.count
        told.now.alike.count) }
{
    let cards = told.cards.count;
    let hollow = told.hollow.count;
    let blank = told.blank.count;
    let cut = told.cut.count;
    let alike = told.alike.count;
    format!(in alloc; "cards {cards} hollow {hollow} blank {blank} cut {cut} alike {alike}")
}

/// The lines of all kinds, and then a line.
fn join_all(alloc: Global, told: &Told, last: &str) -> Result<String, OutOfMemory>
    ensures { IfOk result (λ text. string_bytes text ≡ string_bytes told.now.cards.text
        ++ string_bytes told.now.hollow.text ++ string_bytes told.now.blank.text
        ++ string_bytes told.now.cut.text ++ string_bytes told.now.alike.text ++ ended last.now) }
{
    let cards = told.cards.text.as_str();
    let hollow = told.hollow.text.as_str();
    let blank = told.blank.text.as_str();
    let cut = told.cut.text.as_str();
    let alike = told.alike.text.as_str();
    let text = format!(in alloc; "{cards}{hollow}{blank}{cut}{alike}{last}\n")?;
    Ok(text)
}

/// What `cards` writes of an election.
fn text_of(alloc: Global, election: &Election) -> Result<Bytes, Halt>
    requires { IsValid election.now }
    ensures exact { Gives is_no_memory result (Ok (cards_text election.now)) }
    ensures devices { TouchesNothing result }
{
    let told = tell_all(alloc, election)?;
    let sums = sums_line(alloc, &told)?;
    let text = join_all(alloc, &told, sums.as_str())?;
    Ok(Bytes::from_vec(text.into_bytes()))
}

/// Writes what an election's cards are, and what shows on them.
fn write_cards<S: Sink>(alloc: Global, election: &Election, out: &mut S) -> Result<(), Halt>
    requires { IsValid election.now }
    ensures done { IsWritten (writing (cards_text election.now))
        (S.taken out.old) (S.taken out.new) result }
    ensures sink { TouchesSink S.Sink out.old out.new result }
    ensures late { (first : Bool) → writes_nothing first result ≡ false }
{
    acts_in_order();
    let text = text_of(alloc, election)?;
    write_text(out, text.as_slice())
}

/// Does the command `cards`: takes the election under its name, which is word 1, and writes a line for
/// each of its cards, then the texts with hollow boxes, those that show nothing, the lines of text that
/// end within a word, the choices that look alike, and how many lines of each there are. A card that
/// can't be planned has a line that says why, so the answer is no `Layout`: it is that of an election
/// that can't be taken or read, or a device's fault, or want of memory.
pub fn cards<I: Inputs, S: Sink>(
    alloc: Global,
    election: &str,
    inputs: &mut I,
    out: &mut S,
) -> Result<(), Halt>
    ensures done { ForSome (I.held inputs.old) (λ files.
        IsWritten (cards_outcome election.now files)
        (S.taken out.old) (S.taken out.new) result) }
    ensures nothing_written { writes_nothing true result ≡ true → S.taken out.new ≡ S.taken out.old }
    ensures devices { TouchesInputsAndSink I.Inputs S.Sink inputs.old inputs.new out.old out.new result }
    ensures asked { Asks I.Inputs (election.now ∷ []) inputs.old inputs.new (is_ok result) }
{
    asks_in_order::<I>();
    steps_in_order::<Election>();
    let given = take_election(alloc, inputs, election)?;
    let done = write_cards(alloc, &given, out);
    drop_election(given);
    done
}
