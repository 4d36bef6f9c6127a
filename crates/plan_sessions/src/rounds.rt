use crate::calls::{columns, expect_lines, expect_refused};

/// Two edits that are refused behind one that is accepted, without lanes; then a lane without edits.
const EDITS_AND_THEN_A_LANE: &str =
    r#"[{"edits":[{"add":1,"shape":[[9,-5],[11,-5],[11,10],[9,10]]},{"add":1,"shape":[[9,-5],[11,-5],[11,10],[9,10]]},{"remove":7}],"lanes":[]},
{"edits":[],"lanes":[[[2,2,15,2]]]}]"#;

const THEIR_LINES: &str = r#"round 1
edit 1 version 1
edit 2 refused duplicate 1
edit 3 refused unknown 7
round 2
lane 1 query 1 version 1 {"path":[[2,2,1],[8,19,2],[16,29,2],[17,29,2],[18,29,2],[20,29,2],[22,29,2],[30,19,2],[15,2,1]]}
end version 1
status 0
"#;

#[test]
fn edits_are_accepted_or_refused_and_a_later_lane_sees_the_last_version(rt: HostRuntime) {
    expect_lines(&rt, rt.alloc(), EDITS_AND_THEN_A_LANE, THEIR_LINES);
}

#[test]
fn a_session_without_rounds_ends_with_the_first_version(rt: HostRuntime) {
    expect_lines(&rt, rt.alloc(), "[]", "end version 0\nstatus 0\n");
}

/// A round of nothing; one of lanes alone, of which one asks nothing; one of edits alone.
const SPARSE: &str = r#"[{"edits":[],"lanes":[]},
{"edits":[],"lanes":[[[2,2,5,5],[0,2,5,5]],[],[[2,2,20,5]]]},
{"edits":[{"add":65535,"shape":[[1,1],[4,1],[1,4]]}],"lanes":[]},
{"edits":[],"lanes":[[],[[2,2,5,5]]]}]"#;

const SPARSE_LINES: &str = r#"round 1
round 2
lane 1 query 1 version 0 {"path":[[2,2,1],[5,5,1]]}
lane 1 query 2 version 0 {"start":0}
lane 3 query 1 version 0 {"goal":0}
round 3
edit 1 version 1
round 4
lane 2 query 1 version 1 {"start":65535}
end version 1
status 0
"#;

#[test]
fn rounds_may_have_no_edits_no_lanes_or_neither(rt: HostRuntime) {
    expect_lines(&rt, rt.alloc(), SPARSE, SPARSE_LINES);
}

/// An id is removed and added again, in one round and across rounds, each time with another shape.
const AGAIN: &str =
    r#"[{"edits":[{"add":1,"shape":[[9,-5],[11,-5],[11,25],[9,25]]},{"remove":1},{"add":1,"shape":[[9,-5],[11,-5],[11,10],[9,10]]},{"remove":1},{"remove":1},{"add":1,"shape":[[9,-5],[11,-5],[11,25],[9,25]]}],"lanes":[]},
{"edits":[],"lanes":[[[2,2,15,2]]]},
{"edits":[{"remove":1}],"lanes":[]},
{"edits":[],"lanes":[[[2,2,15,2]]]},
{"edits":[{"add":1,"shape":[[1,1],[4,1],[1,4]]},{"add":1,"shape":[[1,1],[4,1],[1,4]]}],"lanes":[]},
{"edits":[],"lanes":[[[2,2,15,2]]]}]"#;

const AGAIN_LINES: &str = r#"round 1
edit 1 version 1
edit 2 version 2
edit 3 version 3
edit 4 version 4
edit 5 refused unknown 1
edit 6 version 5
round 2
lane 1 query 1 version 5 {"chain":[[0,0,1,8,0,1],[8,0,1,8,19,1],[0,19,1,8,19,1],[0,0,1,0,19,1]]}
round 3
edit 1 version 6
round 4
lane 1 query 1 version 6 {"path":[[2,2,1],[15,2,1]]}
round 5
edit 1 version 7
edit 2 refused duplicate 1
round 6
lane 1 query 1 version 7 {"start":1}
end version 7
status 0
"#;

#[test]
fn an_id_is_removed_and_added_again(rt: HostRuntime) {
    expect_lines(&rt, rt.alloc(), AGAIN, AGAIN_LINES);
}

/// Rounds that no document may have, and why it is refused.
const REFUSED: &str = r#"form $.rounds={}
form $.rounds[0].edits=[{}]
form $.rounds[0].lanes=[{"edits":[]}]
form $.rounds[0].edits[0]=[{"edits":[{"add":1,"remove":1}],"lanes":[]}]
range $.rounds[0].edits[0].remove=[{"edits":[{"remove":0}],"lanes":[]}]
form $.rounds[1].lanes[0][0]=[{"edits":[],"lanes":[]},{"edits":[],"lanes":[[[2,2,5]]]}]
range $.rounds[0].lanes[0][0][2]=[{"edits":[],"lanes":[[[2,2,2047,5]]]}]
range $.rounds[0].lanes=[{"edits":[],"lanes":[[],[],[],[],[],[],[],[],[]]}]"#;

#[test]
fn a_document_that_is_refused_has_one_line(rt: HostRuntime) {
    let alloc = rt.alloc();
    for row in REFUSED.lines() {
        let (why, rounds) = columns(&rt, row, "=");
        expect_refused(&rt, alloc, rounds, why);
    }
}
