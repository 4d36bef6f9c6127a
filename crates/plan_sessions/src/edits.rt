use crate::calls::{columns, expect_of, put, put_item, text_of};
use std::alloc::Global;
use std::process::Abort;

// Combs of fifteen teeth that point to the right, one above the other, and one whose teeth point up, across all others. A
// map of the first three is small, and that of all four is too large. The corner robot makes 30 sums of each.
const LOW_COMB: &str =
    "[[-1000,-300],[1000,-296],[-990,-290],[1000,-286],[-990,-280],[1000,-276],[-990,-270],[1000,-266],[-990,-260],[1000,-256],[-990,-250],[1000,-246],[-990,-240],[1000,-236],[-990,-230],[1000,-226],[-990,-220],[1000,-216],[-990,-210],[1000,-206],[-990,-200],[1000,-196],[-990,-190],[1000,-186],[-990,-180],[1000,-176],[-990,-170],[1000,-166],[-990,-160],[1000,-156],[-990,-150],[-1000,-150]]";

const MIDDLE_COMB: &str =
    "[[-1000,-100],[1000,-96],[-990,-90],[1000,-86],[-990,-80],[1000,-76],[-990,-70],[1000,-66],[-990,-60],[1000,-56],[-990,-50],[1000,-46],[-990,-40],[1000,-36],[-990,-30],[1000,-26],[-990,-20],[1000,-16],[-990,-10],[1000,-6],[-990,0],[1000,4],[-990,10],[1000,14],[-990,20],[1000,24],[-990,30],[1000,34],[-990,40],[1000,44],[-990,50],[-1000,50]]";

const HIGH_COMB: &str =
    "[[-1000,100],[1000,104],[-990,110],[1000,114],[-990,120],[1000,124],[-990,130],[1000,134],[-990,140],[1000,144],[-990,150],[1000,154],[-990,160],[1000,164],[-990,170],[1000,174],[-990,180],[1000,184],[-990,190],[1000,194],[-990,200],[1000,204],[-990,210],[1000,214],[-990,220],[1000,224],[-990,230],[1000,234],[-990,240],[1000,244],[-990,250],[-1000,250]]";

const UPRIGHT_COMB: &str =
    "[[0,-1000],[150,-1000],[154,1000],[140,-990],[144,1000],[130,-990],[134,1000],[120,-990],[124,1000],[110,-990],[114,1000],[100,-990],[104,1000],[90,-990],[94,1000],[80,-990],[84,1000],[70,-990],[74,1000],[60,-990],[64,1000],[50,-990],[54,1000],[40,-990],[44,1000],[30,-990],[34,1000],[20,-990],[24,1000],[10,-990],[14,1000],[0,-990]]";

// A house, of 3 sums; a triangle; a bow, whose edges 0 and 2 cross.
const HOUSE: &str = "[[0,0],[2,0],[3,1],[2,2],[0,2]]";

const TRIANGLE: &str = "[[0,0],[2,0],[0,2]]";

const BOW: &str = "[[0,0],[2,2],[2,0],[0,2]]";

// Appends the first obstacles: the combs 1 to 14, of which all but two are the same, and the triangles 15 to 63, all the
// same. They make 469 sums.
fn put_obstacles(rt: &impl Abort, alloc: Global, all: &mut String) {
    put(rt, all, obstacle(rt, alloc, 1, MIDDLE_COMB).as_str());
    put_item(rt, all, obstacle(rt, alloc, 2, HIGH_COMB).as_str());
    for id in 3..15 {
        put_item(rt, all, obstacle(rt, alloc, id, LOW_COMB).as_str());
    }
    for id in 15..64 {
        put_item(rt, all, obstacle(rt, alloc, id, TRIANGLE).as_str());
    }
}

// An obstacle of a document.
fn obstacle(rt: &impl Abort, alloc: Global, id: u32, shape: &str) -> String {
    let made = format!(in alloc; "{{\"id\":{id},\"shape\":{shape}}}");
    made.ok().expect(rt, "memory")
}

/// Edits, an id and a shape or an id alone, with their lines: each cause of a refusal, and causes that come
/// before others.
const EDITS: &str = r#"1 triangle: edit 2 refused duplicate 1
1 bow: edit 3 refused duplicate 1
64 bow: edit 4 refused not simple 0 2
99: edit 5 refused unknown 99
64 upright: edit 6 refused too many regions
64 comb: edit 7 version 1
65 triangle: edit 8 refused too many obstacles
65 comb: edit 9 refused too many obstacles
65 bow: edit 10 refused not simple 0 2
20: edit 11 version 2
20: edit 12 refused unknown 20
20 comb: edit 13 refused too many sums 528
20 house: edit 14 version 3
20 house: edit 15 refused duplicate 20
20: edit 16 version 4
20 triangle: edit 17 version 5"#;

// The shape of this name.
fn shape_of(name: &str) -> &'static str {
    match name {
        "bow" => BOW,
        "house" => HOUSE,
        "triangle" => TRIANGLE,
        "comb" => LOW_COMB,
        _ => UPRIGHT_COMB,
    }
}

// Appends the edit that a row tells.
fn put_edit(rt: &impl Abort, all: &mut String, text: &str) {
    match text.split_once(' ') {
        Some((id, name)) => put_added(rt, all, id, shape_of(name)),
        None => put_removed(rt, all, text),
    }
}

fn put_added(rt: &impl Abort, all: &mut String, id: &str, shape: &str) {
    put(rt, all, "{\"add\":");
    put(rt, all, id);
    put(rt, all, ",\"shape\":");
    put(rt, all, shape);
    put(rt, all, "}");
}

fn put_removed(rt: &impl Abort, all: &mut String, id: &str) {
    put(rt, all, "{\"remove\":");
    put(rt, all, id);
    put(rt, all, "}");
}

// Appends all edits behind one that is refused, so that each row stands behind a comma.
fn put_edits(rt: &impl Abort, all: &mut String) {
    put_removed(rt, all, "100");
    for row in EDITS.lines() {
        let (text, _) = columns(rt, row, ": ");
        put(rt, all, ",");
        put_edit(rt, all, text);
    }
}

// The lines of all edits, and those of the lane behind them.
fn all_lines(rt: &impl Abort, alloc: Global) -> String {
    let mut lines = text_of(rt, alloc, "round 1\nedit 1 refused unknown 100\n");
    for row in EDITS.lines() {
        let (_, answer) = columns(rt, row, ": ");
        put(rt, &mut lines, answer);
        put(rt, &mut lines, "\n");
    }
    put(
        rt,
        &mut lines,
        "round 2\nlane 1 query 1 version 5 {\"start\":15}\nend version 5\nstatus 0\n",
    );
    lines
}

// The document of the edits among the first obstacles, and of a lane behind them.
fn session(rt: &impl Abort, alloc: Global) -> String {
    let mut all = text_of(
        rt,
        alloc,
        r#"{"format":1,"frame":[-1023,-1023,1023,1023],"robot":[[0,0],[1,0],[0,1]],"obstacles":["#,
    );
    put_obstacles(rt, alloc, &mut all);
    put(rt, &mut all, r#"],"rounds":[{"edits":["#);
    put_edits(rt, &mut all);
    put(
        rt,
        &mut all,
        r#"],"lanes":[]},{"edits":[],"lanes":[[[0,0,1,1]]]}]}"#,
    );
    all
}

#[test]
fn each_cause_of_a_refusal_comes_in_one_session_and_changes_nothing(rt: HostRuntime) {
    let alloc = rt.alloc();
    let text = session(&rt, alloc);
    let lines = all_lines(&rt, alloc);
    expect_of(&rt, alloc, text.as_str(), lines.as_str());
}
