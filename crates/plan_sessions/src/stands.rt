ghost use Rattle.std.specs.Prelude.{◌↔◌, All, IsTrue};
ghost use Rattle.plan_grid.specs.Spot.{IsWithin};
ghost use Rattle.plan_scene.specs.Edits.{IsEdit};

use crate::calls::{columns, expect_number};
use plan_grid::{Frame, MOST_CORNER, Spot};
use plan_poly::Polygon;
use plan_reply::{Stand, StepFault};
use plan_scene::{Edit, EditFault, Scene, SceneFault};
use plan_watch::OpenGate;
use std::alloc::Global;
use std::process::Abort;
use std::thread::Threads;

// The spots of a text, as `0 0,1 0,0 1`.
fn spots_of(rt: &impl Abort, alloc: Global, text: &str) -> Vec<Spot> {
    let mut spots = Vec::new(alloc);
    for pair in text.split(',') {
        spots.push(spot_of(rt, pair)).ok().expect(rt, "memory");
    }
    spots
}

// The spot of two numbers.
fn spot_of(rt: &impl Abort, pair: &str) -> Spot {
    let (x, y) = columns(rt, pair, " ");
    Spot {
        x: number(rt, x),
        y: number(rt, y),
    }
}

// The number that a text is.
fn number(rt: &impl Abort, text: &str) -> i32 {
    text.parse::<i32>().ok().expect(rt, "a number")
}

// The scene of a robot in a frame of 20 by 20, without obstacles.
fn empty(rt: &impl Abort, alloc: Global, robot: &str) -> Result<Scene, SceneFault> {
    let list = spots_of(rt, alloc, robot);
    assert!(rt; list.len() < 100);
    let robot = Polygon::read(list).ok().expect(rt, "simple");
    let frame = Frame {
        low: Spot { x: 0, y: 0 },
        high: Spot { x: 20, y: 20 },
    };
    Scene::new(alloc, robot, frame)
}

// Whether both coordinates are in range.
fn is_in_range(spot: Spot) -> bool
    ensures { IsTrue result ↔ IsWithin MOST_CORNER spot }
{
    spot.x.unsigned_abs() <= MOST_CORNER && spot.y.unsigned_abs() <= MOST_CORNER
}

// Stops the program where a coordinate is out of range.
fn check_range(rt: &impl Abort, spots: &[Spot])
    ensures { All (IsWithin MOST_CORNER) spots.now }
{
    for i in 0..spots.len() {
        assert!(rt; is_in_range(spots[i]));
    }
}

// The edit that adds an obstacle, which is in range.
fn added(rt: &impl Abort, alloc: Global, id: u32, shape: &str) -> Edit
    ensures { IsEdit result }
{
    let spots = spots_of(rt, alloc, shape);
    assert!(rt; 1 <= id && id <= 65535);
    assert!(rt; 3 <= spots.len() && spots.len() <= 32);
    check_range(rt, spots.as_slice());
    Edit::Add { id, spots }
}

// The stand with an obstacle, or the fault.
fn add<R: Threads + Sync + Abort>(
    rt: &R,
    alloc: Global,
    stand: &Stand,
    id: u32,
    shape: &str,
) -> Result<Stand, StepFault> {
    let edit = added(rt, alloc, id, shape);
    stand.step(rt, alloc, &edit, 2, &OpenGate)
}

// The stand of the robot of width and height 1, without obstacles.
fn first_stand<R: Threads + Sync + Abort>(rt: &R, alloc: Global) -> Stand {
    let scene = empty(rt, alloc, "0 0,1 0,0 1").ok().expect(rt, "a scene");
    let stand = Stand::build(rt, alloc, scene, 2, &OpenGate);
    stand.ok().expect(rt, "a stand")
}

// Compares the number of obstacles with what is expected.
fn expect_count(rt: &impl Abort, stand: &Stand, expected: u64) {
    expect_number(rt, u64::from(stand.scene().count()), expected);
}

// Whether the edit is refused since an obstacle of the id 1 is there.
fn is_duplicate(edited: &Result<Stand, StepFault>) -> bool {
    matches!(edited, Err(StepFault::Edit(EditFault::Duplicate(1))))
}

const BAR: &str = "9 -5,11 -5,11 10,9 10";

// Puts the bar into a stand without obstacles, and once more into the stand that comes of it.
fn check_edits<R: Threads + Sync + Abort>(rt: &R, alloc: Global, first: &Stand) {
    let second = add(rt, alloc, first, 1, BAR).ok().expect(rt, "a stand");
    expect_count(rt, &second, 1);
    let again = add(rt, alloc, &second, 1, BAR);
    assert!(rt; is_duplicate(&again));
}

#[test]
fn a_stand_is_built_and_edited_or_the_edit_is_refused(rt: HostRuntime) {
    let alloc = rt.alloc();
    let first = first_stand(&rt, alloc);
    expect_count(&rt, &first, 0);
    check_edits(&rt, alloc, &first);
    expect_count(&rt, &first, 0);
}

// A robot of 17 vertices.
const SAW: &str = "0 0,15 0,14 2,13 1,12 2,11 1,10 2,9 1,8 2,7 1,6 2,5 1,4 2,3 1,2 2,1 1,0 2";

#[test]
fn a_robot_of_17_vertices_has_no_scene(rt: HostRuntime) {
    let refused = empty(&rt, rt.alloc(), SAW);
    assert!(&rt; matches!(refused, Err(SceneFault::RobotMany(17))));
}
