//! Two scripts of a `center` run side by side, as a gate shows.

use crate::centers::{DEVICE, MOMENT, center};
use crate::devices::Failing;
use crate::trial_gates::TrialGate;
use std::test::Fail;
use vx_town::{TOWN, TOWN_HEADER};

#[test]
fn two_scripts_of_a_center_run_side_by_side(rt: HostRuntime) -> Result<(), Fail> {
    let files: [(&str, &[u8]); 3] = [
        ("e", TOWN.as_bytes()),
        ("a", b"claim 1 b1 1\nrelease 1 b1 1\n"),
        ("b", b"claim 2 b1 1\nrelease 2 b1 1\n"),
    ];
    let gate = TrialGate::crossing();
    let words = ["center", "e", MOMENT, DEVICE, "script:a", "script:b"];
    let answer = center(&rt, &files, &[], &words, Failing::NONE, &gate)?;
    assert_eq!(rt; answer.status.as_str(), "ok");
    assert!(rt; gate.is_met());
    // No sheet was added, so the header alone is kept.
    assert_eq!(rt; answer.records.len(), 1);
    for index in 0..answer.records.len() {
        let record = answer.records.record(index).as_slice();
        assert_eq!(rt; record, TOWN_HEADER.as_bytes());
    }
    Ok(())
}
