use crate::calls::column;
use crate::documents::{CORNER, SPIKE, certificate_of, document};
use plan_top::{CheckFault, Refusal, Status, run_check};
use plan_wire::{SteadySink, SteadySource};
use std::alloc::Global;
use std::process::Abort;
use std::thread::Threads;

// Checks this path by the spike.
fn checked<R: Threads + Sync + Abort>(
    rt: &R,
    alloc: Global,
    query: &str,
    path: &str,
    sink: &mut SteadySink,
) -> Status {
    let certificate = certificate_of(rt, alloc, "path", path);
    let text = document(rt, alloc, CORNER, SPIKE, query, certificate.as_str());
    let bytes = text.as_bytes().to_vec(alloc).expect(rt, "memory");
    run_check(rt, alloc, &mut SteadySource::new(bytes), sink)
}

fn is_status(rt: &impl Abort, told: Status, status: Status, row: &str) {
    assert!(rt; told == status, "{row}");
}

// Compares how the check of a row's query and path ends, and the line behind them.
fn ends<R: Threads + Sync + Abort>(rt: &R, alloc: Global, row: &str, status: Status) {
    let (query, rest) = column(rt, row);
    let (path, line) = column(rt, rest);
    let mut sink = SteadySink::new(alloc, 100).expect(rt, "memory");
    let told = checked(rt, alloc, query, path, &mut sink);
    is_status(rt, told, status, row);
    assert!(rt; sink.bytes() == line.as_bytes(), "{row}");
}

// The same of a path that has this fault.
fn is_invalid<R: Threads + Sync + Abort>(rt: &R, alloc: Global, row: &str, fault: CheckFault) {
    ends(rt, alloc, row, Status::Invalid(fault));
}

const VALID: &str = "[2,2,2,15] [[2,2,1],[2,15,1]] valid\n";

const EMPTY: &str = "[2,2,15,2] [] invalid: empty path\n";

const WRONG_START: &str = "[2,2,15,2] [[2,3,1],[15,2,1]] invalid: wrong start\n";

const WRONG_GOAL: &str = "[2,2,15,2] [[2,2,1],[15,3,1]] invalid: wrong goal\n";

const TOUCHES: &str = "[2,2,15,2] [[2,2,1],[2,15,1],[15,2,1]] invalid: touches 1\n";

#[test]
fn run_check_tells_a_path_by_its_status_and_its_line(rt: HostRuntime) {
    let alloc = rt.alloc();
    ends(&rt, alloc, VALID, Status::Done);
    is_invalid(&rt, alloc, EMPTY, CheckFault::EmptyPath);
    is_invalid(&rt, alloc, WRONG_START, CheckFault::WrongStart);
    is_invalid(&rt, alloc, WRONG_GOAL, CheckFault::WrongGoal);
    is_invalid(&rt, alloc, TOUCHES, CheckFault::Touches(1));
}

const OUT_OF_RANGE: &str = "[2,2,15,2] [[2,2,0]] refused: range $.certificate.path[0]\n";

#[test]
fn run_check_tells_a_refusal_by_its_status_and_its_line(rt: HostRuntime) {
    let alloc = rt.alloc();
    let place = String::from_str(alloc, "$.certificate.path[0]").expect(&rt, "memory");
    ends(
        &rt,
        alloc,
        OUT_OF_RANGE,
        Status::Refused(Refusal::Range(place)),
    );
}
