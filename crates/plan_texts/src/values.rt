// What documents are read as: all their numbers, in the order of the types.
use plan_cross::{Certificate, Query};
use plan_grid::{Point, Spot};
use plan_wire::{Change, Document, Shape, Task, Turn, Want, read_document};
use std::alloc::{AllocError, Global};
use std::process::Abort;
use std::test::Fail;

const SCENE: &str =
    r#""other":[],"format":1,"frame":[-3,-2,20,30],"robot":[[0,0],[1,0],[0,-1],[-1,0]],"obstacles":[{"id":65535,"shape":[[9,-5],[11,-5],[9,1023]]},{"id":7,"shape":[[1,2],[3,4],[5,6]]}]"#;

fn push_spot(all: &mut Vec<i64>, spot: Spot) -> Result<(), AllocError> {
    all.push(i64::from(spot.x))?;
    all.push(i64::from(spot.y))?;
    Ok(())
}

fn push_shape(all: &mut Vec<i64>, shape: &Shape) -> Result<(), AllocError> {
    all.push(i64::from(shape.id))?;
    for spot in &shape.spots {
        push_spot(all, *spot)?;
    }
    Ok(())
}

fn push_queries(all: &mut Vec<i64>, queries: &[Query]) -> Result<(), AllocError> {
    for query in queries {
        push_spot(all, query.start)?;
        push_spot(all, query.goal)?;
    }
    Ok(())
}

fn push_change(all: &mut Vec<i64>, change: &Change) -> Result<(), AllocError> {
    match change {
        Change::Add(shape) => push_shape(all, shape)?,
        Change::Remove(id) => all.push(-i64::from(*id))?,
    }
    Ok(())
}

fn push_turn(all: &mut Vec<i64>, turn: &Turn) -> Result<(), AllocError> {
    for change in &turn.edits {
        push_change(all, change)?;
    }
    for lane in &turn.lanes {
        push_queries(all, lane)?;
    }
    Ok(())
}

fn push_point(all: &mut Vec<i64>, point: &Point) -> Result<(), AllocError> {
    all.push(point.x())?;
    all.push(point.y())?;
    all.push(point.w())?;
    Ok(())
}

fn push_certificate(all: &mut Vec<i64>, certificate: &Certificate) -> Result<(), AllocError> {
    match certificate {
        Certificate::Path(path) => {
            for point in &path.points {
                push_point(all, point)?;
            }
        }
        Certificate::Blocked(chain) => {
            for segment in &chain.segments {
                push_point(all, &segment.a)?;
                push_point(all, &segment.b)?;
            }
        }
    }
    Ok(())
}

fn push_task(all: &mut Vec<i64>, task: &Task) -> Result<(), AllocError> {
    match task {
        Task::Queries(queries) => push_queries(all, queries)?,
        Task::Rounds(rounds) => {
            for turn in rounds {
                push_turn(all, turn)?;
            }
        }
        Task::Proof { query, certificate } => {
            push_spot(all, query.start)?;
            push_spot(all, query.goal)?;
            push_certificate(all, certificate)?;
        }
    }
    Ok(())
}

fn push_frame_and_robot(all: &mut Vec<i64>, document: &Document) -> Result<(), AllocError> {
    push_spot(all, document.frame.low)?;
    push_spot(all, document.frame.high)?;
    for spot in &document.robot {
        push_spot(all, *spot)?;
    }
    Ok(())
}

fn push_obstacles(all: &mut Vec<i64>, document: &Document) -> Result<(), AllocError> {
    for shape in &document.obstacles {
        push_shape(all, shape)?;
    }
    Ok(())
}

// The document of the scene and these members.
fn read(alloc: Global, want: Want, members: &str) -> Result<Document, Fail> {
    let text = format!(in alloc; "{{{SCENE},{members}}}")?;
    Ok(read_document(alloc, text.as_bytes(), want)?)
}

fn expect(rt: &impl Abort, all: &[i64], wanted: &[i64], row: &str) {
    assert_eq!(rt; all, wanted, "{row}");
}

const FRAME_AND_ROBOT: &[i64] = &[-3, -2, 20, 30, 0, 0, 1, 0, 0, -1, -1, 0];

const OBSTACLES: &[i64] = &[65_535, 9, -5, 11, -5, 9, 1023, 7, 1, 2, 3, 4, 5, 6];

#[test]
fn the_scene_is_read_member_by_member(rt: HostRuntime) -> Result<(), Fail> {
    let document = read(rt.alloc(), Want::Plan, "\"queries\":[]")?;
    let mut all = Vec::new(rt.alloc());
    push_frame_and_robot(&mut all, &document)?;
    expect(&rt, all.as_slice(), FRAME_AND_ROBOT, "frame and robot");
    let mut all = Vec::new(rt.alloc());
    push_obstacles(&mut all, &document)?;
    expect(&rt, all.as_slice(), OBSTACLES, "obstacles");
    Ok(())
}

// The numbers of what is asked.
fn asked(alloc: Global, want: Want, members: &str) -> Result<Vec<i64>, Fail> {
    let document = read(alloc, want, members)?;
    let mut all = Vec::new(alloc);
    push_task(&mut all, &document.task)?;
    Ok(all)
}

const ROUNDS: &str =
    r#""rounds":[{"edits":[{"remove":7},{"add":8,"shape":[[1,1],[2,1],[1,2]]}],"lanes":[[],[[2,3,5,6]]]},{"edits":[],"lanes":[[[9,9,9,9]]]}]"#;

const ASKED: [(Want, &str, &[i64]); 4] = [
    (
        Want::Plan,
        r#""queries":[[2,3,5,-2046],[1,1,1,1]]"#,
        &[2, 3, 5, -2046, 1, 1, 1, 1],
    ),
    (
        Want::Session,
        ROUNDS,
        &[-7, 8, 1, 1, 2, 1, 1, 2, 2, 3, 5, 6, 9, 9, 9, 9],
    ),
    (
        Want::Check,
        r#""query":[2,3,5,6],"certificate":{"path":[[2,4,6],[-9,0,3]]}"#,
        &[2, 3, 5, 6, 1, 2, 3, -3, 0, 1],
    ),
    (
        Want::Check,
        r#""query":[2,3,5,6],"certificate":{"chain":[[5,5,1,2,4,4]]}"#,
        &[2, 3, 5, 6, 5, 5, 1, 1, 2, 2],
    ),
];

#[test]
fn what_is_asked_is_read_and_points_in_lowest_terms(rt: HostRuntime) -> Result<(), Fail> {
    for (want, members, wanted) in &ASKED {
        let all = asked(rt.alloc(), *want, *members)?;
        expect(&rt, all.as_slice(), *wanted, *members);
    }
    Ok(())
}
