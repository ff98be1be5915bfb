// Definitions of elections from outside: which fault comes first, and which cards there are.
ghost use Rattle.std.specs.Prelude.{◌<◌, length};
ghost use Rattle.vx_election_model.specs.Valid.{IsValid};
ghost use Rattle.vx_styles.specs.Cards.{cards_of};

use crate::outside;
use std::alloc::{AllocError, Global};
use std::test::*;
use vx_election::{Election, read_election};
use vx_styles::{Card, cards, contests_of};
use vx_town::TOWN;

// A valid definition with a part of each kind.
const VALID: &str = r#"{"title":"Town","date":"2024-11-05","state":"S","county":7,
"parties":[{"id":"red","name":"Red"},{"id":"blue","name":"Blue"}],
"districts":[{"id":"d1","name":"D1"},{"id":"d2","name":"D2"}],
"precincts":[{"id":"p1","name":"P1"},{"id":"p2","name":"P2"}],
"contests":[{"id":"mayor","type":"candidate","districtId":"d1","title":"Mayor","seats":2,"candidates":[{"id":"a","name":"Ada","partyIds":["red","blue"]},{"id":"b","name":"Bo"}],"allowWriteIns":true,"partyId":"red"},{"id":"school","type":"yesno","districtId":"d2","title":"School","description":"Build?","yesOption":{"label":"For"},"noOption":{"label":"Against"}}],
"ballotStyles":[{"id":"s1","precincts":["p1","p2"],"districts":["d1"],"partyId":"blue"},{"id":"s2","precincts":["p2"],"districts":["d1","d2"]}],
"vxMarkThousandths":{"definite":120,"marginal":50},
"vxReasons":["Overvote","WriteIn"]}"#;

// One row a line: a part of the valid definition, what stands there instead, and what is then
// answered. Members named `was` are passed over. `~a257~` stands for 257 times `a`.
const ROWS: &str = r#""title":"Town", ->  -> 2 title
"title":"Town" -> "title":7 -> 3 title
"title":"Town" -> "title":"" -> 4 title
"title":"Town" -> "title":"~a256~" -> ok
"title":"Town" -> "title":"~a257~" -> 4 title
"title":"Town" -> "title":"\ud83d\ude00" -> ok
"date":"2024-11-05" -> "date":"2024-11-5" -> 4 date
"date":"2024-11-05" -> "date":"+024-11-05" -> 4 date
"date":"2024-11-05" -> "date":"2024-13-01" -> 4 date
"date":"2024-11-05" -> "date":"1900-02-29" -> 4 date
"date":"2024-11-05" -> "date":"2024-02-29" -> ok
"date":"2024-11-05" -> "date":"0000-01-01" -> ok
"date":"2024-11-05" -> "date":"9999-12-31" -> ok
"state":"S", ->  -> ok
"state":"S" -> "state":5 -> 3 state
"state":"S" -> "state":"~a257~" -> 4 state
"county":7 -> "county":["x",{}] -> ok
"parties":[ -> "parties":[~z201~],"was":[ -> 8 parties 201
"parties":[ -> "was":[ -> 6 contests[0].candidates[0].partyIds[0] red
{"id":"red","name":"Red"} -> {"id":"r/d","name":"Red"} -> 4 parties[0].id
{"id":"red","name":"Red"} -> {"id":"~a65~","name":"Red"} -> 4 parties[0].id
{"id":"blue","name":"Blue"} -> {"id":"red","name":7} -> 5 parties[1].id red
{"id":"blue","name":"Blue"} -> {"id":"blue"} -> 2 parties[1].name
"name":"Blue" -> "name":"~a257~" -> 4 parties[1].name
"districts":[ -> "was":[ -> 2 districts
"districts":[ -> "districts":[~z2001~],"was":[ -> 8 districts 2001
{"id":"d1","name":"D1"} -> {"id":"d2","name":"x"} -> 5 districts[1].id d2
"precincts":[ -> "precincts":"x","was":[ -> 3 precincts
"precincts":[ -> "precincts":[~z2001~],"was":[ -> 8 precincts 2001
{"id":"p1","name":"P1"} -> {"id":"p2","name":"x"} -> 5 precincts[1].id p2
"contests":[ -> "contests":[~z501~],"was":[ -> 8 contests 501
"id":"school" -> "id":"mayor" -> 5 contests[1].id mayor
"id":"mayor" -> "id":"A-z_0.9" -> ok
"type":"candidate", ->  -> 2 contests[0].type
"type":"candidate" -> "type":"ranked" -> 4 contests[0].type
"districtId":"d1" -> "districtId":"d 1" -> 4 contests[0].districtId
"districtId":"d1" -> "districtId":"d3" -> 6 contests[0].districtId d3
"title":"Mayor" -> "title":"~a257~" -> 4 contests[0].title
"seats":2 -> "seats":1.0 -> 3 contests[0].seats
"seats":2 -> "seats":-0 -> 3 contests[0].seats
"seats":2 -> "seats":0 -> 4 contests[0].seats
"seats":2 -> "seats":51 -> 4 contests[0].seats
"seats":2 -> "seats":50 -> ok
"seats":2 -> "seats":18446744073709551616 -> 3 contests[0].seats
"candidates":[ -> "candidates":[~z101~],"was":[ -> 8 contests[0].candidates 101
"contests":[ -> "contests":[],"was":[ -> ok
{"id":"b", -> {"id":"a", -> 5 contests[0].candidates[1].id a
"name":"Bo" -> "name":"~a257~" -> 4 contests[0].candidates[1].name
"partyIds":["red","blue"] -> "partyIds":[~z11~] -> 8 contests[0].candidates[0].partyIds 11
"partyIds":["red","blue"] -> "partyIds":["red","red","red","red","red","red","red","red","red","red"] -> ok
"partyIds":["red","blue"] -> "partyIds":["blue","green"] -> 6 contests[0].candidates[0].partyIds[1] green
"allowWriteIns":true -> "allowWriteIns":"true" -> 3 contests[0].allowWriteIns
"partyId":"red" -> "partyId":null -> 3 contests[0].partyId
"description":"Build?" -> "description":"~a10000~" -> ok
"description":"Build?" -> "description":"~a10001~" -> 4 contests[1].description
"yesOption":{"label":"For"} -> "yesOption":"x" -> 3 contests[1].yesOption
"yesOption":{"label":"For"} -> "yesOption":{"label":""} -> 4 contests[1].yesOption.label
"noOption":{"label":"Against"} -> "noOption":{} -> ok
"noOption":{"label":"Against"} -> "noOption":{"label":"~a257~"} -> 4 contests[1].noOption.label
"type":"yesno", -> "type":"yesno","seats":"many","candidates":0,"partyId":7, -> ok
"type":"candidate", -> "type":"candidate","description":7,"yesOption":7, -> ok
"ballotStyles":[ -> "ballotStyles":[~z1001~],"was":[ -> 8 ballotStyles 1001
{"id":"s2", -> {"id":"s1", -> 5 ballotStyles[1].id s1
"precincts":["p1","p2"] -> "precincts":[~z2001~] -> 8 ballotStyles[0].precincts 2001
"precincts":["p1","p2"] -> "precincts":["p1","p2","p1"] -> 5 ballotStyles[0].precincts[2] p1
"precincts":["p1","p2"] -> "precincts":["p2","x"] -> 6 ballotStyles[0].precincts[1] x
"districts":["d1","d2"] -> "districts":["d1","d2","d1"] -> 5 ballotStyles[1].districts[2] d1
"partyId":"blue" -> "partyId":"green" -> 6 ballotStyles[0].partyId green
"ballotStyles":[ -> "ballotStyles":[~s512~],"was":[ -> ok
"ballotStyles":[ -> "ballotStyles":[~s513~],"was":[ -> 9 1026
"ballotStyles":[ -> "ballotStyles":[~s512~,{"id":"x","precincts":["p1"],"districts":[]}],"was":[ -> 9 1025
"vxMarkThousandths":{ -> "vxMarkThousandths":{"marginal":50},"was":{ -> 2 vxMarkThousandths.definite
"definite":120 -> "definite":1001 -> 4 vxMarkThousandths.definite
"marginal":50 -> "marginal":0 -> 4 vxMarkThousandths.marginal
"vxMarkThousandths":{ -> "vxMarkThousandths":{"definite":20,"marginal":20},"was":{ -> 7 13 13
"vxMarkThousandths":{ -> "vxMarkThousandths":{"definite":21,"marginal":20},"was":{ -> ok
"vxMarkThousandths":{ -> "vxMarkThousandths":{"definite":120,"marginal":19},"was":{ -> 7 12 75
"vxMarkThousandths":{ -> "vxMarkThousandths":{"definite":50,"marginal":120},"was":{ -> 7 75 32
"vxMarkThousandths":{ -> "vxMarkThousandths":{"definite":1,"marginal":1000},"was":{ -> 7 624 1
"vxReasons":[ -> "vxReasons":["Overvote","Overvote","Undervote","MarginalMark","BlankBallot","WriteIn"],"was":[ -> 8 vxReasons 6
"vxReasons":["Overvote","WriteIn"] -> "vxReasons":[7] -> 3 vxReasons[0]
"vxReasons":["Overvote","WriteIn"] -> "vxReasons":["Overvote","overvote"] -> 4 vxReasons[1]
"vxReasons":[ -> "vxReasons":["Overvote","Overvote","Undervote","MarginalMark","BlankBallot"],"was":[ -> ok
"vxReasons":[ -> "vxPaper":"letter","vxReasons":[ -> ok
"vxReasons":[ -> "vxPaper":"legal","vxReasons":[ -> ok
"vxReasons":[ -> "vxPaper":"a4","vxReasons":[ -> 4 vxPaper
"vxReasons":[ -> "vxPaper":"Legal","vxReasons":[ -> 4 vxPaper
"vxReasons":[ -> "vxPaper":14,"vxReasons":[ -> 3 vxPaper
"vxReasons":[ -> "vxPaper":null,"vxReasons":[ -> 3 vxPaper
"vxReasons":[ -> "vxPaper":"a4","vxReasons":["none"],"was":[ -> 4 vxReasons[0]
"title":"Town","date":"2024-11-05" -> "title":7 -> 3 title
"vxReasons":[ -> "vxReasons":7,"vxMarkThousandths":{"definite":20,"marginal":20},"was":[ -> 7 13 13
"Town" -> "\ud800" -> 1
"county":7 -> "county":~[200~7~]200~ -> 1
"county":7 -> "county":~[100~7~]100~ -> ok
"county":7 -> "county":07 -> 1
"county":7 -> "county":1e999 -> 1
"county":7 -> "county":7, -> 1"#;

// One row a line: a definition's name, its cards as `style:precinct`, and the contests of each.
const CARDS: &str = "town -> 0:0 -> 0
valid -> 0:0 0:1 1:1 -> ;;1
first -> 0:0 1:0 1:1 -> 1,2,3,4,7;0,1,2,3,4,5,6,7;0,1,2,3,4,5,6,7
second -> 0:2 1:2 1:1 1:0 -> 0,2;0,1,2;0,1,2;0,1,2";

fn answer(alloc: Global, bytes: &[u8]) -> Result<String, AllocError> {
    match read_election(alloc, bytes) {
        Ok(_) => String::from_str(alloc, "ok"),
        Err(fault) => format!(in alloc; "{fault}"),
    }
}

// One of many elements of a list, or of many characters.
fn piece(alloc: Global, kind: char, index: u32) -> Result<String, AllocError> {
    let comma = if index == 0 { "" } else { "," };
    match kind {
        'z' => format!(in alloc; "{comma}0"),
        's' => format!(in alloc;
            "{comma}{{\"id\":\"s{index}\",\"precincts\":[\"p1\",\"p2\"],\"districts\":[]}}"
        ),
        _ => format!(in alloc; "{kind}"),
    }
}

fn push_many(alloc: Global, text: &mut String, token: &str) -> Result<(), AllocError> {
    let mut letters = token.chars();
    let Some(kind) = letters.next() else {
        return Ok(());
    };
    let count = letters.as_str().parse::<u32>().unwrap_or(0);
    for index in 0..count {
        text.push_str(piece(alloc, kind, index)?.as_str())?;
    }
    Ok(())
}

// The text, with `~a257~` for 257 times `a` and the like.
fn push_expanded(alloc: Global, text: &mut String, from: &str) -> Result<(), AllocError> {
    let mut is_token = false;
    for part in from.split('~') {
        if is_token {
            push_many(alloc, text, part)?;
        } else {
            text.push_str(part)?;
        }
        is_token = !is_token;
    }
    Ok(())
}

// The valid definition with another part in the place of one.
fn with_part(alloc: Global, old: &str, new: &str) -> Result<String, Fail> {
    let (front, back) = VALID.split_once(old).ok_or("the part is there")?;
    let mut text = String::from_str(alloc, front)?;
    push_expanded(alloc, &mut text, new)?;
    text.push_str(back)?;
    Ok(text)
}

// Whether a row's answer is the one that it names.
fn holds(alloc: Global, row: &str) -> Result<bool, Fail> {
    let (old, rest) = row.split_once(" -> ").ok_or("a row")?;
    let (new, wanted) = rest.split_once(" -> ").ok_or("a row")?;
    let text = with_part(alloc, old, new)?;
    Ok(answer(alloc, text.as_bytes())?.as_str() == wanted)
}

#[test]
fn each_rule_of_each_member(rt: HostRuntime) -> Result<(), Fail> {
    let mut count = 0u32;
    for row in ROWS.lines() {
        assert!(rt; holds(rt.alloc(), row)?, "{row}");
        count = count.saturating_add(1);
    }
    assert_eq!(rt; count, 98);
    Ok(())
}

#[test]
fn what_is_no_definition(rt: HostRuntime) -> Result<(), Fail> {
    for (short, wanted) in [
        ("{\"title\":\"T\"}", "2 date"),
        ("[]", "3 "),
        ("{", "1"),
        ("", "1"),
        // Lists within lists: 100 are read, 200 aren't.
        ("~[100~~]100~", "3 "),
        ("~[200~~]200~", "1"),
    ] {
        let mut text = String::new(rt.alloc());
        push_expanded(rt.alloc(), &mut text, short)?;
        assert_eq!(rt; answer(rt.alloc(), text.as_bytes())?.as_str(), wanted);
    }
    assert_eq!(rt; answer(rt.alloc(), &[34, 255, 34])?.as_str(), "1");
    Ok(())
}

fn push_contests(
    alloc: Global,
    text: &mut String,
    election: &Election,
    card: u32,
) -> Result<(), AllocError>
    requires valid { IsValid election.now }
    requires there { card < length (cards_of election.now) }
{
    let contests = contests_of(alloc, election, card)?;
    let mut comma = "";
    for contest in contests.as_slice() {
        text.push_str(comma)?;
        write!(text, "{contest}")?;
        comma = ",";
    }
    Ok(())
}

// The cards, as `style:precinct`.
fn push_cards(text: &mut String, cards: &[Card]) -> Result<(), AllocError> {
    let mut blank = "";
    for card in cards {
        write!(text, "{blank}{}:{}", card.style, card.precinct)?;
        blank = " ";
    }
    Ok(())
}

// The cards, as `style:precinct`, and the contests of each.
fn description(alloc: Global, bytes: &[u8]) -> Result<String, Fail> {
    let election = read_election(alloc, bytes)?;
    let cards = cards(alloc, &election)?;
    let mut text = String::new(alloc);
    push_cards(&mut text, cards.as_slice())?;
    let mut between = " -> ";
    for card in 0..cards.len() as u32 {
        text.push_str(between)?;
        push_contests(alloc, &mut text, &election, card)?;
        between = ";";
    }
    Ok(text)
}

// The definition of a name.
fn definition(name: &str) -> &'static str {
    match name {
        "valid" => VALID,
        "first" => outside::first(),
        "second" => outside::second(),
        _ => TOWN,
    }
}

#[test]
fn cards_and_their_contests(rt: HostRuntime) -> Result<(), Fail> {
    for row in CARDS.lines() {
        let (name, wanted) = row.split_once(" -> ").ok_or("a row")?;
        let found = description(rt.alloc(), definition(name).as_bytes())?;
        assert_eq!(rt; found.as_str(), wanted, "{name}");
    }
    Ok(())
}

#[test]
fn the_digest_is_that_of_all_bytes(rt: HostRuntime) -> Result<(), Fail> {
    let election = read_election(rt.alloc(), TOWN.as_bytes())?;
    let mut text = String::new(rt.alloc());
    for byte in &election.digest {
        write!(text, "{byte:02x}")?;
    }
    let wanted = "16cbf4c3a45dae96ed01a82ac6d66a24812b6309d97421e2dc4282725ade6e70";
    assert_eq!(rt; text.as_str(), wanted);
    Ok(())
}
