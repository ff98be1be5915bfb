//! Reports that the trials read.

/// The export of a day with one sheet, on which Bo was marked for mayor.
pub const WORKED: &[u8] =
    br#"{"@type":"CVR.CastVoteRecordReport","CVR":[{"@type":"CVR.CVR","BallotSheetId":"1","BallotStyleId":"s","BallotStyleUnitId":"precinct-p","BatchId":"b1","CVRSnapshot":[{"@id":"snapshot-b1-1","@type":"CVR.CVRSnapshot","CVRContest":[{"@type":"CVR.CVRContest","CVRContestSelection":[{"@type":"CVR.CVRContestSelection","ContestSelectionId":"selection-mayor-1","SelectionPosition":[{"@type":"CVR.SelectionPosition","HasIndication":"yes","IsAllocable":"yes","NumberVotes":1}]}],"ContestId":"contest-mayor","Overvotes":0,"Status":[],"Undervotes":0,"WriteIns":0}],"Type":"modified"}],"CurrentSnapshotId":"snapshot-b1-1","ElectionId":"election","UniqueId":"b1-1"}],"Election":[{"@id":"election","@type":"CVR.Election","Candidate":[{"@id":"candidate-mayor-0","@type":"CVR.Candidate","Name":"Ada"},{"@id":"candidate-mayor-1","@type":"CVR.Candidate","Name":"Bo"}],"Contest":[{"@id":"contest-mayor","@type":"CVR.CandidateContest","ContestSelection":[{"@id":"selection-mayor-0","@type":"CVR.CandidateSelection","CandidateIds":["candidate-mayor-0"]},{"@id":"selection-mayor-1","@type":"CVR.CandidateSelection","CandidateIds":["candidate-mayor-1"]}],"Name":"Mayor","VotesAllowed":1}],"ElectionScopeId":"scope","Name":"Town"}],"GeneratedDate":"2024-11-06T08:00:00Z","GpUnit":[{"@id":"scope","@type":"CVR.GpUnit","Name":"Town","Type":"other"},{"@id":"precinct-p","@type":"CVR.GpUnit","Name":"North","Type":"precinct"}],"ReportGeneratingDeviceIds":["device-00000000-0000-4000-8000-000000000001"],"ReportingDevice":[{"@id":"device-00000000-0000-4000-8000-000000000001","@type":"CVR.ReportingDevice"}],"Version":"1.0.0"}
"#;

/// Three records, two contests, and two units that don't stand in the order of their names.
pub const THREE: &[u8] = br#"{"CVR":[
{"UniqueId":"b1-1","BallotStyleUnitId":"z","CVRSnapshot":[{"CVRContest":[{"ContestId":"c1","Overvotes":0,"Undervotes":0,"CVRContestSelection":[{"ContestSelectionId":"s2","SelectionPosition":[{"NumberVotes":1}]},{"ContestSelectionId":"s1","SelectionPosition":[{"NumberVotes":1}]}]}]}]},
{"UniqueId":"b1-2","BallotStyleUnitId":"a","CVRSnapshot":[{"CVRContest":[{"ContestId":"c2","Overvotes":1,"Undervotes":0,"CVRContestSelection":[{"ContestSelectionId":"t1","SelectionPosition":[{"NumberVotes":0}]}]},{"ContestId":"c1","Overvotes":0,"Undervotes":2,"CVRContestSelection":[]}]}]},
{"UniqueId":"b1-3","BallotStyleUnitId":"z","CVRSnapshot":[{"CVRContest":[{"ContestId":"c1","Overvotes":0,"Undervotes":1,"CVRContestSelection":[{"ContestSelectionId":"s2","SelectionPosition":[{"NumberVotes":1}]}]}]}]}],
"Election":[{"Contest":[{"@id":"c1","ContestSelection":[{"@id":"s1"},{"@id":"s2"}]},{"@id":"c2","ContestSelection":[{"@id":"t1"}]}]}],
"GpUnit":[{"@id":"z"},{"@id":"a"}]}"#;

/// The seed of 32 bytes 0. The first words of ChaCha20 by it are 2917185654, 2419978656, 3848953152 and 683509331,
/// which draw the records 0, 0, 0 and 2 of three.
pub const NOUGHT: &str = "0000000000000000000000000000000000000000000000000000000000000000";
