//! The election that a definition's bytes give.

ghost use Rattle.std.specs.Prelude.{◌≡◌, IfOk};
ghost use Rattle.serde_json.specs.View.{view};
ghost use Rattle.sha2.specs.Sha256.{sha256};
ghost use Rattle.vx_base.specs.Refusals.{Gives, GivesAs};
ghost use Rattle.vx_election.specs.Faults.{is_no_memory};
ghost use Rattle.vx_election_model.specs.Valid.{IsValid};
ghost use Rattle.vx_election.specs.Reading.{date_member, parties_in, named_member, contests_member, styles_member, opening_in, directories_in, rules_in, election_in, value_of, election_of};

use crate::contests::contests_of;
use crate::date::date_of;
use crate::directory::{Directory, directory_of};
use crate::fault::ElectionFault;
use crate::members::{list_member, optional_list, optional_text, text_member};
use crate::names;
use crate::paper::paper_of;
use crate::settings::{reasons_of, thresholds_of};
use crate::styles::{card_count, styles_of};
use serde_json::Value;
use sha2::{Digest, Sha256};
use std::alloc::Global;
use vx_election_model::{Contests, Election, ReasonSet, Styles};
use vx_grid::{Paper, Thresholds};
use vx_json::{Path, Text, need};

/// How many cards an election may have.
const CARD_LIMIT: u64 = 1024;

/// What a definition begins with.
#[derive(Drop)]
struct Opening {
    title: Text,
    date: Text,
}

/// The lists that others refer to.
#[derive(Drop)]
struct Directories {
    parties: Directory,
    districts: Directory,
    precincts: Directory,
}

/// How ballots are read, and their paper.
#[derive(Clone, Copy)]
struct Rules {
    thresholds: Thresholds,
    reasons: ReasonSet,
    paper: Paper,
}

#[tactic(auto, unfolding(crate::specs::Reading::date_member))]
fn date_member(alloc: Global, value: &Value) -> Result<Text, ElectionFault>
    ensures { Gives is_no_memory result (date_member (view value.now)) }
{
    let top = Path::root(alloc);
    let member = need(alloc, value, &top, "date")?;
    let at = top.member(alloc, "date")?;
    date_of(alloc, member, &at)
}

#[tactic(auto, unfolding(crate::specs::Reading::parties_in))]
fn parties_of(alloc: Global, value: &Value) -> Result<Directory, ElectionFault>
    ensures { Gives is_no_memory result (parties_in (view value.now)) }
{
    let top = Path::root(alloc);
    let list = optional_list(alloc, value, &top, "parties", 200)?;
    let at = top.member(alloc, "parties")?;
    directory_of(alloc, list, &at)
}

/// The districts or the precincts.
#[tactic(auto, unfolding(crate::specs::Reading::named_member))]
fn directory_member(alloc: Global, value: &Value, name: &str) -> Result<Directory, ElectionFault>
    ensures { Gives is_no_memory result (named_member (view value.now) name.now) }
{
    let top = Path::root(alloc);
    let list = list_member(alloc, value, &top, name, 2000)?;
    let at = top.member(alloc, name)?;
    directory_of(alloc, list, &at)
}

#[tactic(auto, unfolding(crate::specs::Reading::contests_member))]
fn contests_member(
    alloc: Global,
    parties: &Directory,
    districts: &Directory,
    value: &Value,
) -> Result<Contests, ElectionFault>
    ensures { Gives is_no_memory result
        (contests_member parties.now districts.now (view value.now)) }
{
    let top = Path::root(alloc);
    let list = list_member(alloc, value, &top, "contests", 500)?;
    let at = top.member(alloc, "contests")?;
    contests_of(alloc, parties, districts, list, &at)
}

/// The ballot styles, which make few enough cards.
#[tactic(auto, unfolding(crate::specs::Reading::styles_member))]
fn styles_member(
    alloc: Global,
    parties: &Directory,
    districts: &Directory,
    precincts: &Directory,
    value: &Value,
) -> Result<Styles, ElectionFault>
    ensures { Gives is_no_memory result
        (styles_member parties.now districts.now precincts.now (view value.now)) }
{
    let top = Path::root(alloc);
    let list = list_member(alloc, value, &top, names::ballot_styles(), 1000)?;
    let at = top.member(alloc, names::ballot_styles())?;
    let styles = styles_of(alloc, parties, districts, precincts, list, &at)?;
    let count = card_count(styles.as_slice());
    if CARD_LIMIT < count {
        return Err(ElectionFault::TooManyCards(count));
    }
    Ok(styles)
}

/// The title and the day; the state is read and let go.
#[tactic(auto, unfolding(crate::specs::Reading::opening_in))]
fn opening_of(alloc: Global, value: &Value) -> Result<Opening, ElectionFault>
    ensures { Gives is_no_memory result (opening_in (view value.now)) }
{
    let top = Path::root(alloc);
    let title = text_member(alloc, value, &top, "title", 1, 256)?;
    let date = date_member(alloc, value)?;
    let _state = optional_text(alloc, value, &top, "state", 0, 256, "")?;
    Ok(Opening { title, date })
}

#[tactic(auto, unfolding(crate::specs::Reading::directories_in))]
fn directories_of(alloc: Global, value: &Value) -> Result<Directories, ElectionFault>
    ensures { Gives is_no_memory result (directories_in (view value.now)) }
{
    let parties = parties_of(alloc, value)?;
    let districts = directory_member(alloc, value, "districts")?;
    let precincts = directory_member(alloc, value, "precincts")?;
    Ok(Directories {
        parties,
        districts,
        precincts,
    })
}

#[tactic(auto, unfolding(crate::specs::Reading::rules_in))]
fn rules_of(alloc: Global, value: &Value) -> Result<Rules, ElectionFault>
    ensures { Gives is_no_memory result (rules_in (view value.now)) }
{
    let thresholds = thresholds_of(alloc, value)?;
    let reasons = reasons_of(alloc, value)?;
    let paper = paper_of(alloc, value)?;
    Ok(Rules {
        thresholds,
        reasons,
        paper,
    })
}

/// The members of the definition in their order.
#[tactic(auto, unfolding(crate::specs::Reading::election_in))]
fn election_in(alloc: Global, digest: [u8; 32], value: &Value) -> Result<Election, ElectionFault>
    ensures { Gives is_no_memory result (election_in digest (view value.now)) }
{
    let opening = opening_of(alloc, value)?;
    let lists = directories_of(alloc, value)?;
    let contests = contests_member(alloc, &lists.parties, &lists.districts, value)?;
    let styles = styles_member(
        alloc,
        &lists.parties,
        &lists.districts,
        &lists.precincts,
        value,
    )?;
    let rules = rules_of(alloc, value)?;
    Ok(Election {
        title: opening.title,
        date: opening.date,
        parties: lists.parties.into_list(),
        districts: lists.districts.into_list(),
        precincts: lists.precincts.into_list(),
        contests,
        styles,
        thresholds: rules.thresholds,
        reasons: rules.reasons,
        paper: rules.paper,
        digest,
    })
}

fn digest_of(bytes: &[u8]) -> [u8; 32]
    ensures { result ≡ sha256 bytes.now }
{
    Sha256::digest(bytes)
}

/// The value that the bytes are.
#[tactic(auto, unfolding(crate::specs::Reading::value_of))]
fn value_of(alloc: Global, bytes: &[u8]) -> Result<Value, ElectionFault>
    ensures { GivesAs (λ value. view value) is_no_memory result (value_of bytes.now) }
{
    let Ok(text) = str::from_utf8(bytes) else {
        return Err(ElectionFault::NotJson);
    };
    match Value::from_str(alloc, text) {
        Ok(value) => Ok(value),
        Err(error) if error.is_memory() => Err(ElectionFault::OutOfMemory),
        Err(_) => Err(ElectionFault::NotJson),
    }
}

/// The election that the bytes define, or their first fault.
#[tactic(auto, unfolding(crate::specs::Reading::election_of))]
pub fn read_election(alloc: Global, bytes: &[u8]) -> Result<Election, ElectionFault>
    ensures exact { Gives is_no_memory result (election_of bytes.now) }
    ensures valid { IfOk result (λ election. IsValid election) }
{
    let value = value_of(alloc, bytes)?;
    election_in(alloc, digest_of(bytes), &value)
}
