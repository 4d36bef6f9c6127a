use crate::calls::is_told;
use crate::documents::{CORNER, SPIKE, document, one_point};
use std::alloc::Global;
use std::process::Abort;
use std::sync::Wait;
use std::thread::Threads;

// A path that goes to and fro between two points so many times, and then to the last.
fn to_and_fro(rt: &impl Abort, alloc: Global, times: usize, last: &str) -> String {
    let middle = ",[2,3,1],[2,2,1]".repeat(alloc, times).expect(rt, "memory");
    format!(in alloc; "{{\"path\":[[2,2,1]{middle}{last}]}}").expect(rt, "memory")
}

// Compares what is told of such a path.
fn is_checked<R: Threads + Wait + Sync + Abort>(
    rt: &R,
    alloc: Global,
    times: usize,
    query: &str,
    last: &str,
    expected: &str,
) {
    let certificate = to_and_fro(rt, alloc, times, last);
    let text = document(rt, alloc, CORNER, SPIKE, query, certificate.as_str());
    is_told(rt, alloc, "check", text.as_bytes(), expected, last);
}

// Such a path to a point that is clear, and one to a point behind the spike.
fn are_checked<R: Threads + Wait + Sync + Abort>(
    rt: &R,
    alloc: Global,
    times: usize,
    touches: &str,
) {
    is_checked(
        rt,
        alloc,
        times,
        "[2,2,2,15]",
        ",[2,15,1]",
        r#"0 "valid\n""#,
    );
    is_checked(rt, alloc, times, "[2,2,15,2]", ",[15,2,1]", touches);
}

#[test]
fn paths_of_200_and_of_100_002_points_are_checked_to_the_last_segment(rt: HostRuntime) {
    are_checked(&rt, rt.alloc(), 99, r#"6 "invalid: touches 198\n""#);
    are_checked(&rt, rt.alloc(), 50_000, r#"6 "invalid: touches 100000\n""#);
}

// So many small obstacles on the floor, each with a number of its own.
fn row_of_obstacles(rt: &impl Abort, alloc: Global, count: u32) -> String {
    let mut obstacles = String::from_str(alloc, "[").expect(rt, "memory");
    for id in 1..=count {
        let comma = if id > 1 { "," } else { "" };
        let obstacle = obstacle_of(rt, alloc, comma, id);
        obstacles.push_str(obstacle.as_str()).expect(rt, "memory");
    }
    obstacles.push_str("]").expect(rt, "memory");
    obstacles
}

// A small obstacle, behind a comma or not.
fn obstacle_of(rt: &impl Abort, alloc: Global, comma: &str, id: u32) -> String {
    format!(in alloc; "{comma}{{\"id\":{id},\"shape\":[[{id},0],[{id},1],[0,0]]}}").expect(
        rt, "memory",
    )
}

// Compares what is told of a path among so many obstacles.
fn is_among<R: Threads + Wait + Sync + Abort>(rt: &R, alloc: Global, count: u32, expected: &str) {
    let obstacles = row_of_obstacles(rt, alloc, count);
    let certificate = "{\"path\":[[2,2,1]]}";
    let text = document(
        rt,
        alloc,
        CORNER,
        obstacles.as_str(),
        "[2,2,2,2]",
        certificate,
    );
    is_told(rt, alloc, "check", text.as_bytes(), expected, "obstacles");
}

#[test]
fn a_path_is_checked_among_sixty_four_obstacles(rt: HostRuntime) {
    let alloc = rt.alloc();
    is_among(&rt, alloc, 64, r#"0 "valid\n""#);
    is_among(
        &rt,
        alloc,
        65,
        r#"2 "refused: obstacles[64] too many obstacles\n""#,
    );
}

// Compares what is told of a document of so many bytes. Spaces behind a document count as bytes of it.
fn is_long<R: Threads + Wait + Sync + Abort>(rt: &R, alloc: Global, size: usize, expected: &str) {
    let text = one_point(rt, alloc);
    let mut bytes = text.as_bytes().to_vec(alloc).expect(rt, "memory");
    bytes.resize(size, b' ').expect(rt, "memory");
    is_told(rt, alloc, "check", bytes.as_slice(), expected, "bytes");
}

#[test]
fn a_document_of_the_greatest_length_is_checked(rt: HostRuntime) {
    is_long(&rt, rt.alloc(), 4_194_304, r#"0 "valid\n""#);
    is_long(&rt, rt.alloc(), 4_194_305, r#"2 "refused: too long\n""#);
}
