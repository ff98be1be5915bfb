//! Each refusal at each member of a definition. The rows are made of a list of members and a list of what is
//! refused of each kind of member, so none is left out. What is expected was worked out by hand from the rules of
//! a definition.

use std::alloc::{AllocError, Global};
use std::process::Abort;
use std::test::*;
use vx_election::read_election;

/// A valid definition with each member that there is. `^` stands before each member that has a row; of elements
/// that are alike, the first alone has rows.
const DEFINITION: &str = r#"{^"title":"Town",^"date":"2024-11-05",^"state":"S",^"county":7,
^"parties":[{^"id":"red",^"name":"Red"},{"id":"blue","name":"Blue"}],
^"districts":[{^"id":"d1",^"name":"D1"},{"id":"d2","name":"D2"}],
^"precincts":[{^"id":"p1",^"name":"P1"},{"id":"p2","name":"P2"}],
^"contests":[{^"id":"mayor",^"type":"candidate",^"districtId":"d1",^"title":"Mayor",^"seats":2,
^"candidates":[{^"id":"a",^"name":"Ada",^"partyIds":["red","blue"]},{"id":"b","name":"Bo"}],
^"allowWriteIns":true,^"partyId":"red"},
{^"id":"school",^"type":"yesno",^"districtId":"d2",^"title":"School",^"description":"Build?",
^"yesOption":{^"label":"For"},^"noOption":{^"label":"Against"}}],
^"ballotStyles":[{^"id":"s1",^"precincts":["p1","p2"],^"districts":["d1"],^"partyId":"blue"},
{"id":"s2","precincts":["p2"],"districts":["d1","d2"]}],
^"vxMarkThousandths":{^"definite":120,^"marginal":50},
^"vxReasons":["Overvote","WriteIn"],^"vxPaper":"letter"}"#;

/// The members of the definition in its order: the path, the kind, the kind's limit, and what is answered where the
/// member isn't there. `@` stands for the path.
const MEMBERS: &str = "title text 256 2 @
date date 0 2 @
state free 256 ok
county any 0 ok
parties objects 200 6 contests[0].candidates[0].partyIds[0] red
parties[0].id id 64 2 @
parties[0].name text 256 2 @
districts objects 2000 2 @
districts[0].id id 64 2 @
districts[0].name text 256 2 @
precincts objects 2000 2 @
precincts[0].id id 64 2 @
precincts[0].name text 256 2 @
contests objects 500 2 @
contests[0].id id 64 2 @
contests[0].type word 0 2 @
contests[0].districtId reference 64 2 @
contests[0].title text 256 2 @
contests[0].seats whole 50 2 @
contests[0].candidates objects 100 2 @
contests[0].candidates[0].id id 64 2 @
contests[0].candidates[0].name text 256 2 @
contests[0].candidates[0].partyIds references 10 ok
contests[0].allowWriteIns flag 0 ok
contests[0].partyId reference 64 ok
contests[1].id id 64 2 @
contests[1].type word 0 2 @
contests[1].districtId reference 64 2 @
contests[1].title text 256 2 @
contests[1].description free 10000 ok
contests[1].yesOption object 0 ok
contests[1].yesOption.label text 256 ok
contests[1].noOption object 0 ok
contests[1].noOption.label text 256 ok
ballotStyles objects 1000 2 @
ballotStyles[0].id id 64 2 @
ballotStyles[0].precincts references 2000 2 @
ballotStyles[0].districts references 2000 2 @
ballotStyles[0].partyId reference 64 ok
vxMarkThousandths object 0 ok
vxMarkThousandths.definite whole 1000 2 @
vxMarkThousandths.marginal whole 1000 2 @
vxReasons words 5 ok
vxPaper word 0 ok";

/// What is refused of each kind of member: the kind, the value that stands there, and what is answered. `@` stands
/// for the member's path and `#` for one more than its limit; `long` for a text of so many letters, and `many` for
/// a list of so many numbers.
const VALUES: &str = r##"any null ok
any [{}] ok
text 7 3 @
text null 3 @
text "" 4 @
text long 4 @
free 7 3 @
free [] 3 @
free long 4 @
date 20241105 3 @
date "" 4 @
date "2024-02-30" 4 @
id 7 3 @
id null 3 @
id "" 4 @
id "a/b" 4 @
id long 4 @
word 7 3 @
word null 3 @
word "other" 4 @
reference 7 3 @
reference null 3 @
reference "" 4 @
reference "a/b" 4 @
reference long 4 @
reference "nobody" 6 @ nobody
whole "1" 3 @
whole 1.5 3 @
whole -1 3 @
whole 0 4 @
whole # 4 @
flag 1 3 @
flag "true" 3 @
objects 7 3 @
objects {} 3 @
objects many 8 @ #
objects [7] 3 @[0]
objects [[]] 3 @[0]
objects [{}] 2 @[0].id
references "p1" 3 @
references {} 3 @
references many 8 @ #
references [7] 3 @[0]
references [""] 4 @[0]
references ["a/b"] 4 @[0]
references ["nobody"] 6 @[0] nobody
words "WriteIn" 3 @
words {} 3 @
words many 8 @ #
words [7] 3 @[0]
words ["other"] 4 @[0]
object 7 3 @
object [] 3 @"##;

/// A member of the definition: which one from 1 on, its path, and its kind's limit.
#[derive(Clone, Copy)]
struct Member<'a> {
    number: u32,
    path: &'a str,
    limit: u32,
}

/// What is answered of a text.
fn answer(alloc: Global, text: &str) -> Result<String, AllocError> {
    match read_election(alloc, text.as_bytes()) {
        Ok(_) => String::from_str(alloc, "ok"),
        Err(fault) => format!(in alloc; "{fault}"),
    }
}

/// Adds a text of so many letters, in quotes.
fn push_long(text: &mut String, count: u32) -> Result<(), AllocError> {
    text.push('"')?;
    for _ in 0..count {
        text.push('a')?;
    }
    text.push('"')
}

/// Adds a list of so many numbers.
fn push_list(text: &mut String, count: u32) -> Result<(), AllocError> {
    text.push_str("[0")?;
    for _ in 1..count {
        text.push_str(",0")?;
    }
    text.push(']')
}

/// Adds a value, where `more` is one more than the limit.
fn push_value(text: &mut String, value: &str, more: u32) -> Result<(), AllocError> {
    match value {
        "long" => push_long(text, more),
        "many" => push_list(text, more),
        "#" => write!(text, "{more}"),
        _ => text.push_str(value),
    }
}

/// Adds a member with another value, or under another name where there is none. What stood there is passed over.
fn push_member(text: &mut String, piece: &str, value: &str, more: u32) -> Result<(), Fail> {
    let (name, rest) = piece.split_once(":").ok_or("a member")?;
    if value != "" {
        write!(text, "{name}:")?;
        push_value(text, value, more)?;
        text.push(',')?;
    }
    write!(text, "\"was\":{rest}")?;
    Ok(())
}

/// The definition with another value for a member.
fn with_value(alloc: Global, member: Member<'_>, value: &str) -> Result<String, Fail> {
    let mut text = String::new(alloc);
    let mut number = 0u32;
    for piece in DEFINITION.split('^') {
        if number == member.number {
            push_member(&mut text, piece, value, member.limit.saturating_add(1))?;
        } else {
            text.push_str(piece)?;
        }
        number = number.saturating_add(1);
    }
    Ok(text)
}

/// What is to be answered.
fn wanted_of(alloc: Global, member: Member<'_>, form: &str) -> Result<String, AllocError> {
    let mut wanted = String::new(alloc);
    for letter in form.chars() {
        match letter {
            '@' => wanted.push_str(member.path)?,
            '#' => write!(wanted, "{}", member.limit.saturating_add(1))?,
            _ => wanted.push(letter)?,
        }
    }
    Ok(wanted)
}

/// The definition with another value for a member is answered so.
fn assert_answer<R: AllocGlobal + Abort>(
    rt: &R,
    member: Member<'_>,
    value: &str,
    form: &str,
) -> Result<(), Fail> {
    let text = with_value(rt.alloc(), member, value)?;
    let wanted = wanted_of(rt.alloc(), member, form)?;
    let found = answer(rt.alloc(), text.as_str())?;
    assert_eq!(rt; found.as_str(), wanted.as_str());
    Ok(())
}

/// A row of the values is answered as it says, where it is of this kind. Answers how many rows were tried.
fn assert_value<R: AllocGlobal + Abort>(
    rt: &R,
    member: Member<'_>,
    kind: &str,
    row: &str,
) -> Result<u32, Fail> {
    let (of, rest) = row.split_once(" ").ok_or("a kind")?;
    let (value, form) = rest.split_once(" ").ok_or("a value")?;
    if of != kind {
        return Ok(0);
    }
    assert_answer(rt, member, value, form)?;
    Ok(1)
}

/// Each row of a kind is answered as it says, and that the member isn't there. Answers how many were tried.
fn assert_kind<R: AllocGlobal + Abort>(
    rt: &R,
    member: Member<'_>,
    kind: &str,
    left_out: &str,
) -> Result<u32, Fail> {
    assert_answer(rt, member, "", left_out)?;
    let mut count = 1u32;
    for row in VALUES.lines() {
        count = count.saturating_add(assert_value(rt, member, kind, row)?);
    }
    Ok(count)
}

/// The refusals of a member's row are answered. Answers how many were tried.
fn assert_member<R: AllocGlobal + Abort>(rt: &R, number: u32, row: &str) -> Result<u32, Fail> {
    let (path, rest) = row.split_once(" ").ok_or("a path")?;
    let (kind, rest) = rest.split_once(" ").ok_or("a kind")?;
    let (limit, left_out) = rest.split_once(" ").ok_or("a limit")?;
    let member = Member {
        number,
        path,
        limit: limit.parse::<u32>().unwrap_or(0),
    };
    assert_kind(rt, member, kind, left_out)
}

/// The name of a piece's member is the last part of its row's path.
fn is_named(piece: &str, row: &str) -> Result<bool, Fail> {
    let (name, _) = piece.split_once("\":").ok_or("a member")?;
    let (path, _) = row.split_once(" ").ok_or("a path")?;
    let name = name.strip_prefix("\"").ok_or("a name")?;
    Ok(path.ends_with(name))
}

#[test]
fn each_member_has_its_row(rt: HostRuntime) -> Result<(), Fail> {
    let mut pieces = DEFINITION.split('^');
    let _ = pieces.next();
    for row in MEMBERS.lines() {
        let piece = pieces.next().ok_or("too few members")?;
        assert!(rt; is_named(piece, row)?, "{row}");
    }
    assert!(rt; pieces.next().is_none());
    Ok(())
}

#[test]
fn the_definition_is_valid(rt: HostRuntime) -> Result<(), Fail> {
    let none = Member {
        number: 100,
        path: "",
        limit: 0,
    };
    let text = with_value(rt.alloc(), none, "")?;
    assert_eq!(rt; answer(rt.alloc(), text.as_str())?.as_str(), "ok");
    Ok(())
}

#[test]
fn each_refusal_of_each_member(rt: HostRuntime) -> Result<(), Fail> {
    let mut number = 0u32;
    let mut count = 0u32;
    for row in MEMBERS.lines() {
        number = number.saturating_add(1);
        count = count.saturating_add(assert_member(&rt, number, row)?);
    }
    assert_eq!(rt; (number, count), (44, 244));
    Ok(())
}
