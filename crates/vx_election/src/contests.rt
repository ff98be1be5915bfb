//! The contests of an election.

ghost use Rattle.std.specs.Prelude.{◌≡◌, ◌≤◌, ◌∷◌, [], codes, None, map, length, IfOk};
ghost use Rattle.serde_json.specs.View.{view};
ghost use Rattle.vx_base.specs.Refusals.{Gives};
ghost use Rattle.vx_election.specs.Faults.{is_no_memory};
ghost use Rattle.vx_election.specs.Ids.{place_in};
ghost use Rattle.vx_election.specs.Members.{whole_member};
ghost use Rattle.vx_election.specs.Contests.{kind_of, kind_in, heading_in, leave_in, voting_in, candidate_contest, label_in, answer_label_in, answer_in, answers_in, question_in, yes_no_contest, contest_at, contests_in};
ghost use Rattle.vx_election_model.specs.Labels.{answer_of};

use crate::candidates::candidates_of;
use crate::directory::Directory;
use crate::fault::ElectionFault;
use crate::ids::Ids;
use crate::members::{
    id_member, optional_flag, optional_reference, optional_text, reference_member, text_member,
    whole_member,
};
use crate::names::{self, is_word};
use serde_json::Value;
use std::alloc::Global;
use vx_base::OutOfMemory;
use vx_election_model::{Choice, Choices, Contest, Contests};
use vx_json::{Path, Text, need, string_of};

/// The members that each contest begins with.
#[derive(Drop)]
struct Heading {
    id: Text,
    is_yes_no: bool,
    district: u32,
    title: Text,
}

/// Whether a contest of that type is answered by yes or no; None where there is no such type.
fn kind_of(text: &str) -> Option<bool>
    ensures { result ≡ kind_of text.now }
{
    if is_word(text, "candidate") {
        Some(false)
    } else if is_word(text, "yesno") {
        Some(true)
    } else {
        None
    }
}

/// Whether a contest is answered by yes or no.
#[tactic(auto, unfolding(crate::specs::Contests::kind_in))]
fn kind_member(alloc: Global, value: &Value, path: &Path) -> Result<bool, ElectionFault>
    ensures { Gives is_no_memory result (kind_in (view value.now) path.now) }
{
    let member = need(alloc, value, path, "type")?;
    let at = path.member(alloc, "type")?;
    let text = string_of(alloc, member, &at)?;
    match kind_of(text) {
        Some(kind) => Ok(kind),
        None => Err(ElectionFault::OutOfRange(at)),
    }
}

/// The members that a contest begins with, with an id that none of those has.
#[tactic(auto, unfolding(crate::specs::Contests::heading_in))]
fn heading_of(
    alloc: Global,
    districts: &Directory,
    value: &Value,
    path: &Path,
    ids: &Ids,
) -> Result<Heading, ElectionFault>
    ensures exact { Gives is_no_memory result
        (heading_in districts.now ids.now (view value.now) path.now) }
    ensures is_new { IfOk result (λ heading. place_in heading.id ids.now ≡ None) }
{
    let id = id_member(alloc, value, path, ids)?;
    let is_yes_no = kind_member(alloc, value, path)?;
    let district = reference_member(alloc, value, path, "districtId", districts.ids())?;
    let title = text_member(alloc, value, path, "title", 1, 256)?;
    let id = Text::from_str(alloc, id)?;
    Ok(Heading {
        id,
        is_yes_no,
        district,
        title,
    })
}

/// Whether write-ins are allowed, and the party.
#[derive(Clone, Copy)]
struct Leave {
    write_ins: bool,
    party: Option<u32>,
}

/// The members that a contest of candidates goes on with.
#[derive(Drop)]
struct Voting {
    seats: u32,
    choices: Choices,
    leave: Leave,
}

#[tactic(auto, unfolding(crate::specs::Contests::leave_in))]
fn leave_of(
    alloc: Global,
    parties: &Directory,
    value: &Value,
    path: &Path,
) -> Result<Leave, ElectionFault>
    ensures { Gives is_no_memory result (leave_in parties.now (view value.now) path.now) }
{
    let write_ins = optional_flag(alloc, value, path, names::allow_write_ins())?;
    let party = optional_reference(alloc, value, path, "partyId", parties.ids())?;
    Ok(Leave { write_ins, party })
}

fn seats_of(alloc: Global, value: &Value, path: &Path) -> Result<u32, ElectionFault>
    ensures { Gives is_no_memory result
        (whole_member (view value.now) path.now (codes "seats") 1 50) }
{
    let seats = whole_member(alloc, value, path, "seats", 1, 50)?;
    Ok(seats as u32)
}

#[tactic(auto, unfolding(crate::specs::Contests::voting_in))]
fn voting_of(
    alloc: Global,
    parties: &Directory,
    value: &Value,
    path: &Path,
) -> Result<Voting, ElectionFault>
    ensures { Gives is_no_memory result (voting_in parties.now (view value.now) path.now) }
{
    let seats = seats_of(alloc, value, path)?;
    let choices = candidates_of(alloc, parties, value, path)?;
    let leave = leave_of(alloc, parties, value, path)?;
    Ok(Voting {
        seats,
        choices,
        leave,
    })
}

/// A contest of candidates.
fn candidate_contest(alloc: Global, heading: Heading, voting: Voting) -> Contest
    ensures { result ≡ candidate_contest heading voting }
{
    Contest {
        id: heading.id,
        title: heading.title,
        description: Text::new(alloc),
        district: heading.district,
        party: voting.leave.party,
        seats: voting.seats,
        choices: voting.choices,
        write_ins: voting.leave.write_ins,
        is_yes_no: false,
    }
}

/// The label in an object, else a text that stands for it.
#[tactic(auto, unfolding(crate::specs::Contests::label_in))]
fn label_of(
    alloc: Global,
    value: &Value,
    path: &Path,
    otherwise: &str,
) -> Result<Text, ElectionFault>
    ensures { Gives is_no_memory result (label_in otherwise.now (view value.now) path.now) }
{
    if !value.is_object() {
        return Err(ElectionFault::WrongKind(path.copy(alloc)?));
    }
    optional_text(alloc, value, path, "label", 1, 256, otherwise)
}

/// The label of an answer, else a text that stands for it.
#[tactic(auto, unfolding(crate::specs::Contests::answer_label_in))]
fn answer_label_of(
    alloc: Global,
    value: &Value,
    path: &Path,
    name: &str,
    otherwise: &str,
) -> Result<Text, ElectionFault>
    ensures { Gives is_no_memory result
        (answer_label_in (view value.now) path.now name.now otherwise.now) }
{
    match value.get(name) {
        None => Ok(Text::from_str(alloc, otherwise)?),
        Some(member) => {
            let at = path.member(alloc, name)?;
            label_of(alloc, member, &at, otherwise)
        }
    }
}

fn answer_of(alloc: Global, id: &str, label: Text) -> Result<Choice, OutOfMemory>
    ensures { IfOk result (λ choice. choice ≡ answer_of id.now label) }
{
    let id = Text::from_str(alloc, id)?;
    let name = label.copy(alloc)?;
    Ok(Choice { id, label, name })
}

#[tactic(auto, unfolding(crate::specs::Contests::answer_in))]
fn answer_member(
    alloc: Global,
    value: &Value,
    path: &Path,
    name: &str,
    id: &str,
    otherwise: &str,
) -> Result<Choice, ElectionFault>
    ensures { Gives is_no_memory result
        (answer_in (view value.now) path.now name.now id.now otherwise.now) }
{
    let label = answer_label_of(alloc, value, path, name, otherwise)?;
    Ok(answer_of(alloc, id, label)?)
}

fn pair_of(alloc: Global, yes: Choice, no: Choice) -> Result<Choices, OutOfMemory>
    ensures { IfOk result (λ choices. choices ≡ yes ∷ no ∷ []) }
{
    let mut choices = Vec::with_capacity(alloc, 2)?;
    choices.push(yes)?;
    choices.push(no)?;
    Ok(Choices::from_vec(choices))
}

/// The two answers, yes before no.
#[tactic(auto, unfolding(crate::specs::Contests::answers_in))]
fn answers_of(alloc: Global, value: &Value, path: &Path) -> Result<Choices, ElectionFault>
    ensures { Gives is_no_memory result (answers_in (view value.now) path.now) }
{
    let yes = answer_member(alloc, value, path, "yesOption", "yes", "Yes")?;
    let no = answer_member(alloc, value, path, "noOption", "no", "No")?;
    Ok(pair_of(alloc, yes, no)?)
}

/// The members that a yes/no contest goes on with.
#[derive(Drop)]
struct Question {
    description: Text,
    answers: Choices,
}

#[tactic(auto, unfolding(crate::specs::Contests::question_in))]
fn question_of(alloc: Global, value: &Value, path: &Path) -> Result<Question, ElectionFault>
    ensures { Gives is_no_memory result (question_in (view value.now) path.now) }
{
    let description = optional_text(alloc, value, path, names::description(), 0, 10_000, "")?;
    let answers = answers_of(alloc, value, path)?;
    Ok(Question {
        description,
        answers,
    })
}

/// A contest that is answered by yes or no.
fn yes_no_contest(heading: Heading, question: Question) -> Contest
    ensures { result ≡ yes_no_contest heading question }
{
    Contest {
        id: heading.id,
        title: heading.title,
        description: question.description,
        district: heading.district,
        party: None,
        seats: 1,
        choices: question.answers,
        write_ins: false,
        is_yes_no: true,
    }
}

/// A contest with an id that none of those has.
#[tactic(auto, unfolding(crate::specs::Contests::contest_at))]
fn contest_of(
    alloc: Global,
    parties: &Directory,
    districts: &Directory,
    value: &Value,
    path: &Path,
    ids: &Ids,
) -> Result<Contest, ElectionFault>
    ensures exact { Gives is_no_memory result
        (contest_at parties.now districts.now path.now ids.now (view value.now)) }
    ensures is_new { IfOk result (λ contest. place_in contest.id ids.now ≡ None) }
{
    let heading = heading_of(alloc, districts, value, path, ids)?;
    if heading.is_yes_no {
        let question = question_of(alloc, value, path)?;
        return Ok(yes_no_contest(heading, question));
    }
    let voting = voting_of(alloc, parties, value, path)?;
    Ok(candidate_contest(alloc, heading, voting))
}

/// The elements of the list of contests.
#[tactic(auto, unfolding(crate::specs::Contests::contests_in))]
pub(crate) fn contests_of(
    alloc: Global,
    parties: &Directory,
    districts: &Directory,
    values: &[Value],
    path: &Path,
) -> Result<Contests, ElectionFault>
    requires { length values.now ≤ 500 }
    ensures { Gives is_no_memory result
        (contests_in parties.now districts.now path.now (map view values.now)) }
{
    let mut contests = Vec::new(alloc);
    let mut ids = Ids::new(alloc);
    for value in values {
        let at = path.element(alloc, contests.len())?;
        let contest = contest_of(alloc, parties, districts, value, &at, &ids)?;
        ids.push(alloc, contest.id.as_str())?;
        contests.push(contest)?;
    }
    Ok(Contests::from_vec(contests))
}
