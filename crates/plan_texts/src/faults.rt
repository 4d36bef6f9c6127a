// The first refusal of a document, with its place, in the words of the line that tells it.
use plan_wire::{NoMemory, Want, WireFault, read_document};
use std::alloc::{AllocError, Global};
use std::process::Abort;
use std::test::Fail;

// The members of lawful documents: those of every scene, and those of each command.
const SCENE: &str =
    r#"format=1|frame=[0,0,20,20]|robot=[[0,0],[1,0],[0,1]]|obstacles=[{"id":1,"shape":[[9,-5],[11,-5],[9,10]]}]"#;

const PLAN: &str = "queries=[[2,2,5,5]]";

const SESSION: &str =
    r#"rounds=[{"edits":[{"add":2,"shape":[[1,1],[2,1],[1,2]]},{"remove":1}],"lanes":[[[2,2,5,5]]]}]"#;

const CHECK: &str = r#"query=[2,2,15,2]|certificate={"path":[[2,2,1],[15,2,1]]}"#;

fn members(want: Want) -> &'static str {
    match want {
        Want::Plan => PLAN,
        Want::Session => SESSION,
        Want::Check => CHECK,
    }
}

// What is before the mark, and what is behind it.
fn before(text: &str, mark: char) -> Result<(&str, &str), Fail> {
    match text.split_once(mark) {
        Some(parts) => Ok(parts),
        None => Err(Fail::from("a mark is missing")),
    }
}

// The text of a member: what the changes give it, and else the lawful one.
fn text_of<'a>(name: &str, lawful: &'a str, changes: &'a str) -> &'a str {
    for change in changes.split('|') {
        match change.split_once('=') {
            Some((changed, text)) if changed == name => return text,
            _ => {}
        }
    }
    lawful
}

// Puts a member, and none where its text is empty.
fn push_member(all: &mut String, name: &str, text: &str) -> Result<(), AllocError> {
    if text.is_empty() {
        return Ok(());
    }
    all.push_str(if all.len() == 1 { "\"" } else { ",\"" })?;
    all.push_str(name)?;
    all.push_str("\":")?;
    all.push_str(text)
}

fn push_members(all: &mut String, lawful: &str, changes: &str) -> Result<(), Fail> {
    for member in lawful.split('|') {
        let (name, text) = before(member, '=')?;
        push_member(all, name, text_of(name, text, changes))?;
    }
    Ok(())
}

// A lawful document with other texts for some members, and without a member where its text is empty: `name=text`, with
// bars between.
fn document(alloc: Global, want: Want, changes: &str) -> Result<String, Fail> {
    let mut all = String::from_str(alloc, "{")?;
    push_members(&mut all, SCENE, changes)?;
    push_members(&mut all, members(want), changes)?;
    all.push_str("}")?;
    Ok(all)
}

// What follows `refused: `.
fn told(alloc: Global, fault: &WireFault) -> Result<String, AllocError> {
    match fault {
        WireFault::TooLong => String::from_str(alloc, "too long"),
        WireFault::Json => String::from_str(alloc, "json"),
        WireFault::Form(path) => format!(in alloc; "form {path}"),
        WireFault::Range(path) => format!(in alloc; "range {path}"),
        WireFault::NoMemory => String::from_str(alloc, "no memory"),
    }
}

// The same, and nothing where the document is read; want of memory fails the test.
fn line(alloc: Global, bytes: &[u8], want: Want) -> Result<String, AllocError> {
    match read_document(alloc, bytes, want) {
        Ok(_) => Ok(String::new(alloc)),
        Err(fault) => told(alloc, &fault),
    }
}

// Compares what is told of the bytes with what is wanted.
fn expect(
    rt: &impl Abort,
    alloc: Global,
    want: Want,
    bytes: &[u8],
    wanted: &str,
    row: &str,
) -> Result<(), AllocError> {
    let found = line(alloc, bytes, want)?;
    assert_eq!(rt; found.as_str(), wanted, "{row}");
    Ok(())
}

// Rows of what is told of a document, and its changes.
fn each_is_told(rt: &impl Abort, alloc: Global, want: Want, table: &str) -> Result<(), Fail> {
    for row in table.lines() {
        let (wanted, changes) = before(row, '|')?;
        let all = document(alloc, want, changes)?;
        expect(rt, alloc, want, all.as_bytes(), wanted, row)?;
    }
    Ok(())
}

// The format, the frame and the robot.
const OF_THE_SCENE: &str = r#"form $.format|format=
form $.format|format="1"
range $.format|format=3
form $.frame|frame=
form $.frame|frame={}
range $.frame[3]|frame=[0,0,20,1024]
range $.frame|frame=[20,0,0,20]
form $.frame|frame=[0,0,20]
form $.frame[2]|frame=[0,0,null,20]
form $.robot|robot=
form $.robot|robot=7
range $.robot|robot=[[0,0],[1,0]]
form $.robot[2]|robot=[[0,0],[1,0],[0]]
form $.robot[2][1]|robot=[[0,0],[1,0],[0,"1"]]
range $.robot[2][1]|robot=[[0,0],[1,0],[0,-1024]]"#;

#[test]
fn a_member_of_the_scene_is_told_by_its_place(rt: HostRuntime) -> Result<(), Fail> {
    for want in [Want::Plan, Want::Session, Want::Check] {
        each_is_told(&rt, rt.alloc(), want, OF_THE_SCENE)?;
    }
    Ok(())
}

// Their ids and their shapes.
const OF_OBSTACLES: &str = r#"form $.obstacles|obstacles=
form $.obstacles|obstacles={}
form $.obstacles[0]|obstacles=[[]]
form $.obstacles[0].id|obstacles=[{"shape":[]}]
form $.obstacles[0].id|obstacles=[{"id":true}]
range $.obstacles[0].id|obstacles=[{"id":0}]
range $.obstacles[0].id|obstacles=[{"id":65536}]
form $.obstacles[0].shape|obstacles=[{"id":65535}]
form $.obstacles[0].shape|obstacles=[{"id":1,"shape":{}}]
range $.obstacles[0].shape|obstacles=[{"id":1,"shape":[]}]
range $.obstacles[0].shape[0][0]|obstacles=[{"id":1,"shape":[[-1024,0],[0,0],[0,1]]}]"#;

#[test]
fn an_obstacle_is_told_by_its_place(rt: HostRuntime) -> Result<(), Fail> {
    each_is_told(&rt, rt.alloc(), Want::Plan, OF_OBSTACLES)
}

// None, too few numbers, another kind of value, and the range.
const OF_QUERIES: &str = "form $.queries|queries=
form $.queries|queries=1
|queries=[]
form $.queries[0]|queries=[[2,2,5]]
form $.queries[1][3]|queries=[[2,2,5,5],[2,2,5,[]]]
range $.queries[0][0]|queries=[[2047,2,5,5]]
|queries=[[-2046,2046,2046,-2046]]";

#[test]
fn a_query_is_told_by_its_place(rt: HostRuntime) -> Result<(), Fail> {
    each_is_told(&rt, rt.alloc(), Want::Plan, OF_QUERIES)
}

// Rounds, their edits and their lanes.
const OF_ROUNDS: &str = r#"form $.rounds|rounds=
form $.rounds|rounds=null
|rounds=[]
form $.rounds[0]|rounds=[1]
form $.rounds[0].edits|rounds=[{"lanes":[]}]
form $.rounds[0].edits|rounds=[{"edits":1}]
form $.rounds[0].lanes|rounds=[{"edits":[]}]
form $.rounds[0].edits[0]|rounds=[{"edits":[1]}]
form $.rounds[0].edits[0]|rounds=[{"edits":[{}]}]
form $.rounds[0].edits[0]|rounds=[{"edits":[{"add":null,"remove":1}]}]
form $.rounds[0].edits[0].add|rounds=[{"edits":[{"add":""}]}]
range $.rounds[0].edits[0].add|rounds=[{"edits":[{"add":0}]}]
form $.rounds[0].edits[0].shape|rounds=[{"edits":[{"add":1}]}]
range $.rounds[0].edits[2].shape[1][0]|rounds=[{"edits":[{"remove":1},{"remove":1},{"add":1,"shape":[[0,0],[1024,0],[0,1]]}]}]
form $.rounds[0].edits[0].remove|rounds=[{"edits":[{"remove":1.5}]}]
range $.rounds[0].edits[0].remove|rounds=[{"edits":[{"remove":65536}]}]
|rounds=[{"edits":[{"remove":65535,"shape":7}],"lanes":[]}]
form $.rounds[0].lanes|rounds=[{"edits":[],"lanes":{}}]
form $.rounds[0].lanes[1]|rounds=[{"edits":[],"lanes":[[],7]}]
range $.rounds[1].lanes[0][0][3]|rounds=[{"edits":[],"lanes":[]},{"edits":[],"lanes":[[[0,0,0,2047]]]}]"#;

#[test]
fn an_edit_and_a_lane_are_told_by_their_place(rt: HostRuntime) -> Result<(), Fail> {
    each_is_told(&rt, rt.alloc(), Want::Session, OF_ROUNDS)
}

// The one query of a check.
const OF_A_QUERY: &str = r#"form $.query|query=
form $.query|query=""
range $.query[3]|query=[2,2,15,-2047]"#;

#[test]
fn the_query_of_a_check_is_told_by_its_place(rt: HostRuntime) -> Result<(), Fail> {
    each_is_told(&rt, rt.alloc(), Want::Check, OF_A_QUERY)
}

// Both members or none, points and segments.
const OF_A_CERTIFICATE: &str = r#"form $.certificate|certificate=
form $.certificate|certificate=[]
form $.certificate|certificate={}
form $.certificate|certificate={"path":[],"chain":[]}
form $.certificate|certificate={"path":null,"chain":[]}
form $.certificate.path|certificate={"path":null}
|certificate={"path":[]}
|certificate={"chain":[]}
form $.certificate.path[0]|certificate={"path":[7]}
range $.certificate.path[1]|certificate={"path":[[2,2,1],[2,15,0],[15,2,1]]}
form $.certificate.path[1]|certificate={"path":[[2,2,1],[2,15],[15,2,1]]}
form $.certificate.path[1][2]|certificate={"path":[[2,2,1],[2,15,1.0],[15,2,1]]}
|certificate={"path":[[4,4,2],[17,19,2],[15,2,1]]}
range $.certificate.path[0]|certificate={"path":[[2,2,4503599627370496]]}
range $.certificate.path[0]|certificate={"path":[[-9223372036854775808,0,1]]}
form $.certificate.chain|certificate={"chain":{}}
form $.certificate.chain[1]|certificate={"chain":[[0,0,1,8,0,1],[8,0,1,8,10]]}
form $.certificate.chain[0][5]|certificate={"chain":[[0,0,1,8,0,null]]}
range $.certificate.chain[0]|certificate={"chain":[[0,0,1,8,2047,1]]}"#;

#[test]
fn a_certificate_is_told_by_its_place(rt: HostRuntime) -> Result<(), Fail> {
    each_is_told(&rt, rt.alloc(), Want::Check, OF_A_CERTIFICATE)
}

// In two members, and in one.
const FIRST_OF_A_PLAN: &str = r#"range $.format|format=2|frame=7
form $.format|robot=|format=
range $.obstacles[0].id|obstacles=[{"id":0}]|queries=
form $.obstacles[0]|queries=7|obstacles=[[]]
range $.frame[0]|frame=[1024,0,0,null]
form $.frame[0]|frame=[null,0,0,1024]
range $.robot|robot=[[],[]]
range $.robot[1][1]|robot=[[0,0],[0,1024],[]]
range $.obstacles[0].id|obstacles=[{"shape":7,"id":0}]"#;

// In two members, and in one.
const FIRST_OF_A_SESSION: &str = r#"range $.robot|robot=[]|obstacles=7
form $.robot[0]|obstacles=[{}]|robot=[[],[],[]]
form $.obstacles|rounds=7|obstacles=
range $.rounds[0].edits[0].remove|rounds=[{"lanes":7,"edits":[{"remove":0}]}]
range $.rounds[0].edits[0].add|rounds=[{"edits":[{"shape":7,"add":0}],"lanes":[]}]"#;

// In two members, and in one.
const FIRST_OF_A_CHECK: &str = r#"range $.frame|frame=[20,0,0,20]|robot=
range $.frame[3]|robot=7|frame=[0,0,0,1024]
range $.query[3]|certificate=7|query=[0,0,0,2047]
form $.query|query=[]|certificate={}
form $.certificate.path[0][2]|certificate={"path":[[2047,0,null]]}
range $.certificate.path[0]|certificate={"path":[[0,0,0],[0]]}
form $.certificate.chain[0][5]|certificate={"chain":[[0,0,0,0,0,null]]}"#;

#[test]
fn of_two_faults_the_first_is_told(rt: HostRuntime) -> Result<(), Fail> {
    each_is_told(&rt, rt.alloc(), Want::Plan, FIRST_OF_A_PLAN)?;
    each_is_told(&rt, rt.alloc(), Want::Session, FIRST_OF_A_SESSION)?;
    each_is_told(&rt, rt.alloc(), Want::Check, FIRST_OF_A_CHECK)
}

// A name that stands twice, as it is and escaped; numbers and texts that are none.
const OF_NUMBERS: &str = r#"range $.format|format=1,"format":2
|format=2,"format":1
range $.format|format=1,"for\u006dat":2
form $.format|format=-0
form $.format|format=1.0
form $.format|format=1e3
form $.format|format=9223372036854775808
range $.format|format=9223372036854775807
|format=1,"other":1e9
json|format=1,"other":1e999
json|format=1,"other":"\ud800"
|format=1,"other":"\ud83d\ude00"
json|format=01"#;

#[test]
fn numbers_are_whole_and_the_last_of_a_name_counts(rt: HostRuntime) -> Result<(), Fail> {
    each_is_told(&rt, rt.alloc(), Want::Plan, OF_NUMBERS)
}

// A list of so many elements.
fn list(alloc: Global, count: u32, element: &str) -> Result<String, AllocError> {
    let mut text = String::from_str(alloc, "[")?;
    for place in 0..count {
        if place > 0 {
            text.push_str(",")?;
        }
        text.push_str(element)?;
    }
    text.push_str("]")?;
    Ok(text)
}

// A document with a list of so many elements between two parts of a member.
fn document_of_list(
    alloc: Global,
    want: Want,
    around: &str,
    element: &str,
    count: u32,
) -> Result<String, Fail> {
    let (start, end) = before(around, '*')?;
    let elements = list(alloc, count, element)?;
    let change = format!(in alloc; "{start}{elements}{end}")?;
    document(alloc, want, change.as_str())
}

// Rows of the most elements of a list and of what is told of one more, of an element, and of what is around the list.
fn each_has_a_most(rt: &impl Abort, alloc: Global, want: Want, table: &str) -> Result<(), Fail> {
    for row in table.lines() {
        let (most, rest) = before(row, '|')?;
        let (wanted, rest) = before(rest, '|')?;
        let (element, around) = before(rest, '|')?;
        let most = most.parse::<u16>()?;
        for (count, wanted) in [(u32::from(most), ""), (u32::from(most) + 1, wanted)] {
            let all = document_of_list(alloc, want, around, element, count)?;
            expect(rt, alloc, want, all.as_bytes(), wanted, row)?;
        }
    }
    Ok(())
}

const LISTS_OF_A_PLAN: &str = r#"16|range $.robot|[0,0]|robot=*
32|range $.obstacles[0].shape|[0,0]|obstacles=[{"id":1,"shape":*}]
64|range $.queries|[0,0,0,0]|queries=*"#;

#[test]
fn lists_of_a_scene_are_as_long_as_their_range_says(rt: HostRuntime) -> Result<(), Fail> {
    let obstacle = r#"{"id":1,"shape":[[0,0],[1,0],[0,1]]}"#;
    let all = document_of_list(rt.alloc(), Want::Plan, "obstacles=*", obstacle, 100)?;
    expect(&rt, rt.alloc(), Want::Plan, all.as_bytes(), "", obstacle)?;
    each_has_a_most(&rt, rt.alloc(), Want::Plan, LISTS_OF_A_PLAN)
}

const LISTS_OF_A_SESSION: &str = r#"64|range $.rounds|{"edits":[],"lanes":[]}|rounds=*
32|range $.rounds[0].edits|{"remove":1}|rounds=[{"lanes":[],"edits":*}]
8|range $.rounds[0].lanes|[]|rounds=[{"edits":[],"lanes":*}]
16|range $.rounds[0].lanes[0]|[0,0,0,0]|rounds=[{"edits":[],"lanes":[*]}]"#;

#[test]
fn lists_of_a_round_are_as_long_as_their_range_says(rt: HostRuntime) -> Result<(), Fail> {
    each_has_a_most(&rt, rt.alloc(), Want::Session, LISTS_OF_A_SESSION)
}

// A member that is a list in a list, and so on; with the document around it the nesting is one deeper.
fn nested(alloc: Global, depth: u32) -> Result<String, AllocError> {
    let mut text = String::from_str(alloc, "format=1,\"nested\":")?;
    for _ in 0..depth {
        text.push_str("[")?;
    }
    for _ in 0..depth {
        text.push_str("]")?;
    }
    Ok(text)
}

#[test]
fn json_nests_to_127_and_no_deeper(rt: HostRuntime) -> Result<(), Fail> {
    for (depth, wanted) in [(126, ""), (127, "json")] {
        let change = nested(rt.alloc(), depth)?;
        let all = document(rt.alloc(), Want::Plan, change.as_str())?;
        expect(
            &rt,
            rt.alloc(),
            Want::Plan,
            all.as_bytes(),
            wanted,
            "nested",
        )?;
    }
    Ok(())
}

#[test]
fn a_part_of_a_document_is_no_json(rt: HostRuntime) -> Result<(), Fail> {
    let all = document(rt.alloc(), Want::Plan, "")?;
    let bytes = all.as_bytes();
    expect(&rt, rt.alloc(), Want::Plan, bytes, "", "the whole")?;
    for length in 0..bytes.len() {
        expect(
            &rt,
            rt.alloc(),
            Want::Plan,
            &bytes[..length],
            "json",
            "a part",
        )?;
    }
    Ok(())
}

#[test]
fn bytes_of_no_document_are_refused(rt: HostRuntime) -> Result<(), Fail> {
    let cases: [&[u8]; 3] = [
        b"\xef\xbb\xbf{}",
        b"{\"note\":\"\xff\"}",
        b"{\"note\":\"\n\"}",
    ];
    for bytes in cases {
        expect(&rt, rt.alloc(), Want::Plan, bytes, "json", "no JSON")?;
    }
    expect(&rt, rt.alloc(), Want::Check, b"null", "form $", "no object")?;
    Ok(())
}

// A document that is followed by spaces, so that it has so many bytes.
fn long(alloc: Global, length: usize) -> Result<Vec<u8>, Fail> {
    let all = document(alloc, Want::Check, "")?;
    let mut bytes = Vec::from_slice(alloc, all.as_bytes())?;
    for _ in bytes.len()..length {
        bytes.push(b' ')?;
    }
    Ok(bytes)
}

#[test]
fn a_document_has_at_most_4194304_bytes(rt: HostRuntime) -> Result<(), Fail> {
    for (length, wanted) in [(4_194_304, ""), (4_194_305, "too long")] {
        let bytes = long(rt.alloc(), length)?;
        expect(
            &rt,
            rt.alloc(),
            Want::Check,
            bytes.as_slice(),
            wanted,
            "long",
        )?;
    }
    Ok(())
}
