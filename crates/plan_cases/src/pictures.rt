use crate::documents::CORNER;
use plan_picture::run;
use plan_wire::{SteadySink, SteadySource};
use std::alloc::Global;
use std::process::Abort;
use std::test::Fail;
use std::thread::Threads;

// A robot as wide as the frame.
const WIDE: &str = "[[0,0],[20,0],[0,1]]";

// A robot wider than the frame.
const TOO_WIDE: &str = "[[0,0],[21,0],[0,1]]";

// A bar from below the room to above it.
const TALL_BAR: &str = r#"[{"id":65535,"shape":[[9,-5],[11,-5],[11,25],[9,25]]}]"#;

// The code of a call and what it wrote, behind a blank.
fn answer_to<R: Threads + Sync>(
    rt: &R,
    alloc: Global,
    word: &str,
    text: &str,
) -> Result<String, Fail> {
    let mut words = Vec::new(alloc);
    words.push(String::from_str(alloc, word)?)?;
    let mut source = SteadySource::new(text.as_bytes().to_vec(alloc)?);
    let mut sink = SteadySink::new(alloc, 1_000_000)?;
    let code = run(rt, alloc, words.as_slice(), &mut source, &mut sink).code();
    let written = str::from_utf8(sink.bytes())?;
    Ok(format!(in alloc; "{code} {written}")?)
}

// The same, for a robot, obstacles, and what is asked.
fn drawn<R: Threads + Sync>(
    rt: &R,
    alloc: Global,
    word: &str,
    robot: &str,
    obstacles: &str,
    asked: &str,
) -> Result<String, Fail> {
    let text = format!(in alloc;
        "{{\"format\":1,\"frame\":[0,0,20,20],\"robot\":{robot},\"obstacles\":{obstacles},{asked}}}"
    )?;
    answer_to(rt, alloc, word, text.as_str())
}

// Whether each element is closed, in order, and each attribute has its value in quotes.
fn is_balanced(alloc: Global, text: &str) -> Result<bool, Fail> {
    let mut open: Vec<&str> = Vec::new(alloc);
    for part in text.split('<').skip(1) {
        let Some((tag, _)) = part.split_once('>') else {
            return Ok(false);
        };
        if let Some(name) = tag.strip_prefix('/') {
            if open.pop() != Some(name) {
                return Ok(false);
            }
        } else if !has_quotes(tag) {
            return Ok(false);
        } else if !tag.ends_with('/') {
            let name = match tag.split_once(' ') {
                Some((name, _)) => name,
                None => tag,
            };
            open.push(name)?;
        }
    }
    Ok(open.is_empty())
}

// Whether each value of a tag is in quotes.
fn has_quotes(tag: &str) -> bool {
    let mut quote = None;
    let mut is_value = false;
    for c in tag.chars() {
        match quote {
            Some(mark) if mark == c => quote = None,
            Some(_) => {}
            None if c == '"' || c == '\'' => {
                quote = Some(c);
                is_value = false;
            }
            None if is_value => return false,
            None => is_value = c == '=',
        }
    }
    quote.is_none() && !is_value
}

// Whether there is no byte but line feeds and those from the blank to the tilde.
fn is_plain(text: &str) -> bool {
    for byte in text.as_bytes() {
        if *byte != 10 && (*byte < 32 || 126 < *byte) {
            return false;
        }
    }
    true
}

// Compares the code and a part of what was written, and looks at all of it.
fn expect(
    rt: &impl Abort,
    alloc: Global,
    told: &String,
    code: &str,
    part: &str,
) -> Result<(), Fail> {
    let text = told.as_str();
    assert!(rt; text.starts_with(code), "{code}: {text}");
    assert!(rt; text.contains(part), "{part}: {text}");
    assert!(rt;
        is_balanced(alloc, text)?,
        "an element or an attribute is open: {text}"
    );
    assert!(rt; is_plain(text), "a byte is not plain: {text}");
    Ok(())
}

/// Queries by the bar, and the words for their replies.
const REPLIES: &str = "[2,2,5,5]|query 1: a path of 2 points, clear all along
[2,2,15,2]|query 1: odd at the start, even at the goal: no way out
[9,2,2,2]|query 1: the start touches obstacle 65535
[0,2,2,2]|query 1: the start touches the frame
[2,2,9,2]|query 1: the goal touches obstacle 65535
[2,2,0,2]|query 1: the goal touches the frame";

#[test]
fn each_kind_of_reply_is_drawn(rt: HostRuntime) -> Result<(), Fail> {
    let alloc = rt.alloc();
    for row in REPLIES.lines() {
        let Some((query, words)) = row.split_once('|') else {
            return Err(Fail::from("a column is missing"));
        };
        let asked = format!(in alloc; "\"queries\":[{query}]")?;
        let told = drawn(&rt, alloc, "1", CORNER, TALL_BAR, asked.as_str())?;
        let part = format!(in alloc; "<title>{words}</title>")?;
        expect(&rt, alloc, &told, "0 ", part.as_str())?;
        expect(&rt, alloc, &told, "0 ", ">65535</text>")?;
    }
    Ok(())
}

/// Certificates by the bar, the code, and the words for the verdict.
const VERDICTS: &str =
    r#"[2,2,5,5]|{"path":[[2,2,1],[5,5,1]]}|0 |valid: a path of 2 points, clear all along
[2,2,15,2]|{"path":[[2,2,1],[15,2,1]]}|6 |invalid: touches 0
[2,2,15,2]|{"chain":[[0,0,1,8,0,1]]}|6 |invalid: "#;

#[test]
fn a_certificate_is_drawn_with_its_verdict(rt: HostRuntime) -> Result<(), Fail> {
    let alloc = rt.alloc();
    for row in VERDICTS.lines() {
        let Some((query, rest)) = row.split_once('|') else {
            return Err(Fail::from("a column is missing"));
        };
        let Some((certificate, rest)) = rest.split_once('|') else {
            return Err(Fail::from("a column is missing"));
        };
        let Some((code, words)) = rest.split_once('|') else {
            return Err(Fail::from("a column is missing"));
        };
        let asked = format!(in alloc; "\"query\":{query},\"certificate\":{certificate}")?;
        let told = drawn(&rt, alloc, "check", CORNER, TALL_BAR, asked.as_str())?;
        let part = format!(in alloc; "<title>{words}")?;
        expect(&rt, alloc, &told, code, part.as_str())?;
    }
    Ok(())
}

#[test]
fn a_room_without_width_is_a_line_and_one_without_points_is_left_out(
    rt: HostRuntime,
) -> Result<(), Fail> {
    let alloc = rt.alloc();
    let touched = "<title>query 1: the start touches the frame</title>";
    let asked = "\"queries\":[[5,5,6,6]]";
    let told = drawn(&rt, alloc, "1", WIDE, "[]", asked)?;
    expect(&rt, alloc, &told, "0 ", touched)?;
    expect(&rt, alloc, &told, "0 ", "class=\"room\"")?;
    let told = drawn(&rt, alloc, "1", TOO_WIDE, "[]", asked)?;
    expect(&rt, alloc, &told, "0 ", touched)?;
    assert!(rt; !told.as_str().contains("class=\"room\""));
    Ok(())
}

#[test]
fn words_and_numbers_without_a_picture_have_a_line(rt: HostRuntime) -> Result<(), Fail> {
    let alloc = rt.alloc();
    for word in ["0", "2", "65", "01", "plan"] {
        let told = drawn(&rt, alloc, word, CORNER, "[]", "\"queries\":[[2,2,5,5]]")?;
        expect(&rt, alloc, &told, "1 usage: ", "picture K")?;
    }
    let told = answer_to(&rt, alloc, "1", "{")?;
    expect(&rt, alloc, &told, "2 ", "refused: json")
}

/// The digit of a row or of a column, where it begins, and where its obstacle ends.
const LINES: &str = "0 2 3
1 4 5
2 6 7
3 8 9
4 10 11
5 12 13
6 14 15
7 16 17";

// A line of the table.
fn parts(line: &str) -> Result<(&str, &str, &str), Fail> {
    let Some((digit, rest)) = line.split_once(' ') else {
        return Err(Fail::from("a column is missing"));
    };
    let Some((first, last)) = rest.split_once(' ') else {
        return Err(Fail::from("a column is missing"));
    };
    Ok((digit, first, last))
}

// Eight rows of eight triangles, with ids of five digits.
fn triangles(alloc: Global) -> Result<String, Fail> {
    let mut all = String::from_str(alloc, "[")?;
    for row in LINES.lines() {
        let (digit, low, high) = parts(row)?;
        for column in LINES.lines() {
            let (other, left, right) = parts(column)?;
            let one = format!(in alloc;
                "{{\"id\":400{digit}{other},\"shape\":[[{left},{low}],[{right},{low}],[{left},{high}]]}}"
            )?;
            if all.len() > 1 {
                all.push(',')?;
            }
            all.push_str(one.as_str())?;
        }
    }
    all.push(']')?;
    Ok(all)
}

#[test]
fn each_of_64_obstacles_has_its_id(rt: HostRuntime) -> Result<(), Fail> {
    let alloc = rt.alloc();
    let obstacles = triangles(alloc)?;
    let asked = "\"queries\":[[1,1,18,18]]";
    let told = drawn(&rt, alloc, "1", CORNER, obstacles.as_str(), asked)?;
    expect(&rt, alloc, &told, "0 ", "<title>query 1: a path of ")?;
    for row in LINES.lines() {
        let (digit, _, _) = parts(row)?;
        for column in LINES.lines() {
            let (other, _, _) = parts(column)?;
            let id = format!(in alloc; ">400{digit}{other}</text>")?;
            assert!(&rt; told.as_str().contains(id.as_str()), "{id}");
        }
    }
    Ok(())
}

#[test]
fn a_chain_of_thousands_of_segments_is_drawn_in_less_than_a_megabyte(
    rt: HostRuntime,
) -> Result<(), Fail> {
    let alloc = rt.alloc();
    let mut asked = String::from_str(alloc, "\"query\":[2,2,15,2],\"certificate\":{\"chain\":[")?;
    for _ in 0..5_000 {
        asked.push_str("[0,1,17,8,123,17],[0,1,17,8,123,17],")?;
    }
    asked.push_str("[0,0,1,8,0,1]]}")?;
    let told = drawn(&rt, alloc, "check", CORNER, TALL_BAR, asked.as_str())?;
    expect(&rt, alloc, &told, "6 ", "<title>invalid: ")?;
    assert!(&rt; told.len() < 1_000_000);
    Ok(())
}
