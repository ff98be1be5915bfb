//! Histories that are drawn, answered by the center and by the second machine.

ghost use Rattle.vx_election_model.specs.Valid.{IsValid};

use crate::alike::{Met, compare_all, compare_answers};
use crate::drawing::event_of;
use rand_pcg::Pcg32;
use std::process::Abort;
use std::test::Fail;
use vx_center::Center;
use vx_election::read_election;
use vx_election_model::Election;

/// Two cards; a contest of two candidates, one of two seats with write-ins, a question, one of a write-in
/// slot alone and one without options. What is behind it names the reasons.
const CONTESTS: &str =
    r#"{"title":"T","date":"2024-11-05","districts":[{"id":"d","name":"D"}],"precincts":[{"id":"p","name":"P"},{"id":"q","name":"Q"}],"ballotStyles":[{"id":"s","precincts":["p","q"],"districts":["d"]}],"contests":[{"id":"a","type":"candidate","districtId":"d","title":"A","seats":1,"candidates":[{"id":"a","name":"A"},{"id":"b","name":"B"}]},{"id":"b","type":"candidate","districtId":"d","title":"B","seats":2,"allowWriteIns":true,"candidates":[{"id":"a","name":"A"},{"id":"b","name":"B"},{"id":"c","name":"C"}]},{"id":"c","type":"yesno","districtId":"d","title":"C","description":"C","yesOption":{"id":"y","label":"Y"},"noOption":{"id":"n","label":"N"}},{"id":"d","type":"candidate","districtId":"d","title":"D","seats":1,"allowWriteIns":true,"candidates":[]},{"id":"e","type":"candidate","districtId":"d","title":"E","seats":1,"candidates":[]}]"#;

/// Draws so many events from a seed, and hands both each.
fn draw<R: Abort + AllocGlobal>(
    rt: &R,
    election: &Election,
    seed: u64,
    count: u32,
) -> Result<Met, Fail>
    requires { IsValid election.now }
{
    let alloc = rt.alloc();
    let mut rng = Pcg32::new(seed, 54);
    let mut center = Center::new(alloc, election);
    let mut kept = Vec::new(alloc);
    let mut met = Met::new();
    for step in 0..count {
        let event = event_of(alloc, &mut rng, election, kept.as_slice(), step)?;
        compare_answers(rt, &mut center, election, &mut kept, &event, &mut met)?;
        if step % 500 == 499 {
            compare_all(rt, &center, election, kept.as_slice(), &mut met)?;
        }
    }
    Ok(met)
}

/// Each reply but Full was given, each kind of event was kept, and something was waiting and exported.
fn assert_met<R: Abort>(rt: &R, met: &Met) {
    for times in met.replies.iter().take(10) {
        assert!(rt; *times > 0, "{met:?}");
    }
    for times in met.kept.iter() {
        assert!(rt; *times > 0, "{met:?}");
    }
    assert!(rt; met.waiting > 0 && met.exported > 0, "{met:?}");
}

/// Draws so many events from a seed, for the election with such an end.
fn run<R: Abort + AllocGlobal>(rt: &R, end: &str, seed: u64, count: u32) -> Result<(), Fail> {
    let alloc = rt.alloc();
    let text = format!(in alloc; "{CONTESTS}{end}")?;
    let election = read_election(alloc, text.as_bytes())?;
    let met = draw(rt, &election, seed, count)?;
    assert_met(rt, &met);
    Ok(())
}

#[test]
fn drawn_histories_are_answered_alike(rt: HostRuntime) -> Result<(), Fail> {
    run(&rt, "}", 1, 6000)?;
    run(&rt, "}", 2, 1500)?;
    run(&rt, ",\"vxReasons\":[]}", 3, 3000)?;
    run(&rt, ",\"vxReasons\":[\"Undervote\",\"WriteIn\"]}", 4, 3000)
}
