//! Elections and records.

/// Two ranks over candidates a, b and c.
pub const ABC: &str =
    r#"{"title":"Town","date":"2026-11-03","districts":[{"id":"d","name":"d"}],"precincts":[{"id":"p","name":"North"}],"contests":[{"id":"m1","type":"candidate","districtId":"d","title":"M1","seats":1,"candidates":[{"id":"a","name":"A"},{"id":"b","name":"B"},{"id":"c","name":"C"}]},{"id":"m2","type":"candidate","districtId":"d","title":"M2","seats":1,"candidates":[{"id":"a","name":"A"},{"id":"b","name":"B"},{"id":"c","name":"C"}]}],"ballotStyles":[{"id":"s","precincts":["p"],"districts":["d"]}]}"#;

/// Its journal's header.
pub const ABC_HEADER: &str =
    r#"1 election e4cfec4bded059c8b90356136dc97beee1e2b4d31a5fdc0b1c946f0866538fc9"#;

/// Two ranks over candidates a and b.
pub const AB: &str =
    r#"{"title":"Town","date":"2026-11-03","districts":[{"id":"d","name":"d"}],"precincts":[{"id":"p","name":"North"}],"contests":[{"id":"m1","type":"candidate","districtId":"d","title":"M1","seats":1,"candidates":[{"id":"a","name":"A"},{"id":"b","name":"B"}]},{"id":"m2","type":"candidate","districtId":"d","title":"M2","seats":1,"candidates":[{"id":"a","name":"A"},{"id":"b","name":"B"}]}],"ballotStyles":[{"id":"s","precincts":["p"],"districts":["d"]}]}"#;

/// Its journal's header.
pub const AB_HEADER: &str =
    r#"1 election 8434be1f04707c08359ee9ea1bcef9a780454b0d91baed806e9118ab9baee5a5"#;

/// Three ranks over four candidates.
pub const MAYOR: &str =
    r#"{"title":"Town","date":"2026-11-03","districts":[{"id":"d","name":"d"}],"precincts":[{"id":"p","name":"North"}],"contests":[{"id":"mayor-1","type":"candidate","districtId":"d","title":"MAYOR-1","seats":1,"candidates":[{"id":"okafor","name":"Okafor"},{"id":"lindqvist","name":"Lindqvist"},{"id":"reyes","name":"Reyes"},{"id":"novak","name":"Novak"}]},{"id":"mayor-2","type":"candidate","districtId":"d","title":"MAYOR-2","seats":1,"candidates":[{"id":"okafor","name":"Okafor"},{"id":"lindqvist","name":"Lindqvist"},{"id":"reyes","name":"Reyes"},{"id":"novak","name":"Novak"}]},{"id":"mayor-3","type":"candidate","districtId":"d","title":"MAYOR-3","seats":1,"candidates":[{"id":"okafor","name":"Okafor"},{"id":"lindqvist","name":"Lindqvist"},{"id":"reyes","name":"Reyes"},{"id":"novak","name":"Novak"}]}],"ballotStyles":[{"id":"s","precincts":["p"],"districts":["d"]}]}"#;

/// Its journal's header.
pub const MAYOR_HEADER: &str =
    r#"1 election d08d6551414a032356e75344d90069ad8ed20c5ad7089c697dd3dc55e0c6d9ab"#;

/// Contests of which only the first two can be ranked together.
pub const MIXED: &str =
    r#"{"title":"Town","date":"2026-11-03","districts":[{"id":"d","name":"d"},{"id":"e","name":"e"}],"precincts":[{"id":"p","name":"North"}],"contests":[{"id":"m1","type":"candidate","districtId":"d","title":"M1","seats":1,"candidates":[{"id":"a","name":"A"},{"id":"b","name":"B"},{"id":"c","name":"C"}]},{"id":"m2","type":"candidate","districtId":"d","title":"M2","seats":1,"candidates":[{"id":"a","name":"A"},{"id":"b","name":"B"},{"id":"c","name":"C"}]},{"id":"two","type":"candidate","districtId":"d","title":"TWO","seats":2,"candidates":[{"id":"a","name":"A"},{"id":"b","name":"B"},{"id":"c","name":"C"}]},{"id":"write","type":"candidate","districtId":"d","title":"WRITE","seats":1,"candidates":[{"id":"a","name":"A"},{"id":"b","name":"B"},{"id":"c","name":"C"}],"allowWriteIns":true},{"id":"yes","type":"yesno","districtId":"d","title":"Yes"},{"id":"other","type":"candidate","districtId":"d","title":"OTHER","seats":1,"candidates":[{"id":"a","name":"A"},{"id":"c","name":"C"},{"id":"b","name":"B"}]},{"id":"fewer","type":"candidate","districtId":"d","title":"FEWER","seats":1,"candidates":[{"id":"a","name":"A"},{"id":"b","name":"B"}]},{"id":"party","type":"candidate","districtId":"d","title":"PARTY","seats":1,"candidates":[{"id":"a","name":"A"},{"id":"b","name":"B"},{"id":"c","name":"C"}],"partyId":"x"},{"id":"far","type":"candidate","districtId":"e","title":"FAR","seats":1,"candidates":[{"id":"a","name":"A"},{"id":"b","name":"B"},{"id":"c","name":"C"}]},{"id":"none","type":"candidate","districtId":"d","title":"NONE","seats":1,"candidates":[]}],"ballotStyles":[{"id":"s","precincts":["p"],"districts":["d","e"]}],"parties":[{"id":"x","name":"x"}]}"#;
