ghost use Rattle.std.specs.Prelude.{◌↔◌, All, IsTrue};
ghost use Rattle.plan_grid.specs.Spot.{IsWithin};

use crate::given::numbers;
use plan_grid::{Frame, MOST_CORNER, Point, Spot};
use plan_poly::Polygon;
use plan_scene::{Edit, EditFault, Scene, SceneFault};
use std::alloc::{AllocError, Global};
use std::process::Abort;

fn at(x: i32, y: i32) -> Spot {
    Spot { x, y }
}

// The floor of 20 by 20 for a robot, without obstacles.
fn empty(rt: &impl Abort, alloc: Global, robot: &[Spot]) -> Result<Scene, SceneFault> {
    assert!(rt; robot.len() < 100);
    let list = Vec::from_slice(alloc, robot).ok().expect(rt, "memory");
    let robot = Polygon::read(list).ok().expect(rt, "simple");
    let frame = Frame {
        low: Spot { x: 0, y: 0 },
        high: Spot { x: 20, y: 20 },
    };
    Scene::new(alloc, robot, frame)
}

/// The floor of 20 by 20 for a robot that fits, without obstacles.
pub fn start(rt: &impl Abort, alloc: Global, robot: &[Spot]) -> Scene {
    empty(rt, alloc, robot).ok().expect(rt, "a scene")
}

// Whether both coordinates are in range.
fn is_in_range(spot: Spot) -> bool
    ensures { IsTrue result ↔ IsWithin MOST_CORNER spot }
{
    spot.x.unsigned_abs() <= MOST_CORNER && spot.y.unsigned_abs() <= MOST_CORNER
}

// Stops the program where a coordinate is out of range.
fn check_range(rt: &impl Abort, spots: &[Spot])
    ensures { All (IsWithin MOST_CORNER) spots.now }
{
    for i in 0..spots.len() {
        assert!(rt; is_in_range(spots[i]));
    }
}

/// The scene with an obstacle, or the fault.
pub fn add(
    rt: &impl Abort,
    alloc: Global,
    scene: &Scene,
    id: u32,
    spots: &[Spot],
) -> Result<Scene, EditFault> {
    assert!(rt; 1 <= id && id <= 65535);
    assert!(rt; 3 <= spots.len() && spots.len() <= 32);
    check_range(rt, spots);
    let spots = Vec::from_slice(alloc, spots).ok().expect(rt, "memory");
    scene.apply(alloc, &Edit::Add { id, spots })
}

// The scene without an obstacle, or the fault.
fn remove(rt: &impl Abort, alloc: Global, scene: &Scene, id: u32) -> Result<Scene, EditFault> {
    assert!(rt; 1 <= id && id <= 65535);
    scene.apply(alloc, &Edit::Remove { id })
}

// The ids of the sums' obstacles.
fn owners(alloc: Global, scene: &Scene) -> Result<Vec<u32>, AllocError> {
    let mut owners = Vec::new(alloc);
    let count = scene.sums().len() as u32;
    for sum in 0..count {
        owners.push(scene.owner(sum))?;
    }
    Ok(owners)
}

// What the scene's placement (x / w, y / w) touches.
fn touched(rt: &impl Abort, scene: &Scene, x: i64, y: i64, w: i64) -> Option<u32> {
    let z = Point::new(x, y, w).expect(rt, "a point in range");
    scene.touches(&z)
}

fn small() -> [Spot; 3] {
    [at(0, 0), at(1, 0), at(0, 1)]
}

fn bar() -> [Spot; 4] {
    [at(9, -5), at(11, -5), at(11, 10), at(9, 10)]
}

// A list of spots that is no simple polygon.
fn bow() -> [Spot; 4] {
    [at(0, 0), at(2, 2), at(2, 0), at(0, 2)]
}

// A comb of 32 vertices.
fn comb(alloc: Global) -> Result<Vec<Spot>, AllocError> {
    let mut comb = Vec::from_slice(alloc, &[at(0, 0), at(30, 0)])?;
    let mut x = 30_i32;
    for _tooth in 0..15 {
        comb.push(at(x, 10))?;
        comb.push(at(x.wrapping_sub(1), 5))?;
        x = x.wrapping_sub(2);
    }
    Ok(comb)
}

// The edit must be refused with this fault.
fn refused(rt: &impl Abort, edited: Result<Scene, EditFault>, want: EditFault) {
    assert!(rt; edited.err() == Some(want));
}

// The scene must have so many obstacles and sums.
fn has(rt: &impl Abort, scene: &Scene, obstacles: u32, sums: usize) {
    assert!(rt; scene.count() == obstacles);
    assert!(rt; scene.sums().len() == sums);
}

// The ids of the sums' obstacles must be these.
fn owned(rt: &impl Abort, alloc: Global, scene: &Scene, want: &[u32]) {
    let found = owners(alloc, scene).ok().expect(rt, "memory");
    assert!(rt; found.as_slice() == want);
}

// What placements touch, a row for each: x, y and weight, and the number that must be told, which is -1 for none.
fn touches(rt: &impl Abort, scene: &Scene, rows: &str) {
    for row in rows.lines() {
        let [x, y, w, want] = numbers::<4>(rt, row);
        let found = touched(rt, scene, x, y, w).map_or(-1, |id: u32| i64::from(id));
        assert!(rt; found == want, "{row}");
    }
}

#[test]
fn edits_are_accepted(rt: HostRuntime) -> Result<(), EditFault> {
    let alloc = rt.alloc();
    let none = start(&rt, alloc, &small());
    has(&rt, &none, 0, 0);
    let one = add(&rt, alloc, &none, 1, &bar())?;
    has(&rt, &one, 1, 2);
    let gone = remove(&rt, alloc, &one, 1)?;
    has(&rt, &gone, 0, 0);
    has(&rt, &one, 1, 2);
    Ok(())
}

#[test]
fn edits_are_refused_in_order(rt: HostRuntime) -> Result<(), EditFault> {
    let alloc = rt.alloc();
    let none = start(&rt, alloc, &small());
    let one = add(&rt, alloc, &none, 1, &bar())?;
    let again = add(&rt, alloc, &one, 1, &bar());
    refused(&rt, again, EditFault::Duplicate(1));
    let bow_again = add(&rt, alloc, &one, 1, &bow());
    refused(&rt, bow_again, EditFault::Duplicate(1));
    let crossing = add(&rt, alloc, &one, 2, &bow());
    refused(&rt, crossing, EditFault::NotSimple(0, 2));
    refused(&rt, remove(&rt, alloc, &one, 7), EditFault::Unknown(7));
    Ok(())
}

// The scene with the obstacles 3, 5 and 9, which come in another order; 5 has two sums.
fn three(rt: &impl Abort, alloc: Global) -> Result<Scene, EditFault> {
    let corner = [at(1, 1), at(3, 1), at(1, 3)];
    let scene = add(rt, alloc, &start(rt, alloc, &small()), 5, &bar())?;
    let scene = add(rt, alloc, &scene, 9, &corner)?;
    add(rt, alloc, &scene, 3, &corner)
}

#[test]
fn sums_stand_by_rising_id(rt: HostRuntime) -> Result<(), EditFault> {
    let alloc = rt.alloc();
    owned(&rt, alloc, &three(&rt, alloc)?, &[3, 5, 5, 9]);
    Ok(())
}

#[test]
fn sums_stand_by_rising_id_after_edits(rt: HostRuntime) -> Result<(), EditFault> {
    let alloc = rt.alloc();
    let scene = remove(&rt, alloc, &three(&rt, alloc)?, 5)?;
    let scene = add(&rt, alloc, &scene, 4, &bar())?;
    owned(&rt, alloc, &scene, &[3, 4, 4, 9]);
    Ok(())
}

// The scene with obstacles of ids from 1 up to this one, all of one form.
fn filled(rt: &impl Abort, alloc: Global, last: u32, form: &[Spot]) -> Result<Scene, EditFault> {
    let mut scene = start(rt, alloc, &small());
    for id in 0..last {
        scene = add(rt, alloc, &scene, id + 1, form)?;
    }
    Ok(scene)
}

#[test]
fn at_most_64_obstacles_are_taken(rt: HostRuntime) -> Result<(), EditFault> {
    let alloc = rt.alloc();
    let scene = filled(&rt, alloc, 64, &small())?;
    has(&rt, &scene, 64, 64);
    let one_more = add(&rt, alloc, &scene, 65, &small());
    refused(&rt, one_more, EditFault::TooManyObstacles);
    let crossing = add(&rt, alloc, &scene, 65, &bow());
    refused(&rt, crossing, EditFault::NotSimple(0, 2));
    let again = add(&rt, alloc, &scene, 64, &bow());
    refused(&rt, again, EditFault::Duplicate(64));
    Ok(())
}

#[test]
fn at_most_512_sums_are_made(rt: HostRuntime) -> Result<(), EditFault> {
    let alloc = rt.alloc();
    let house = [at(0, 0), at(4, 0), at(4, 2), at(2, 4), at(0, 2)];
    let comb = comb(alloc).ok().expect(&rt, "memory");
    let scene = filled(&rt, alloc, 17, &comb)?;
    has(&rt, &scene, 17, 510);
    let one_more = add(&rt, alloc, &scene, 18, &house);
    refused(&rt, one_more, EditFault::TooManySums(513));
    let full = add(&rt, alloc, &scene, 18, &bar())?;
    has(&rt, &full, 18, 512);
    Ok(())
}

#[test]
fn robots_of_more_than_16_vertices_are_refused(rt: HostRuntime) {
    let alloc = rt.alloc();
    let comb = comb(alloc).ok().expect(&rt, "memory");
    assert!(rt; comb.len() == 32);
    assert!(rt; empty(&rt, alloc, &comb[..17]).err() == Some(SceneFault::RobotMany(17)));
    assert!(rt; empty(&rt, alloc, &comb[..16]).is_ok());
}

// The room is the frame from (0, 0) to (20, 20) less the robot's box.
#[test]
fn rooms_are_frames_moved_by_the_robot(rt: HostRuntime) {
    let alloc = rt.alloc();
    let robot = [at(-1, 2), at(3, 2), at(3, 7)];
    let scene = start(&rt, alloc, &robot);
    assert!(rt; scene.room().low == at(1, -2));
    assert!(rt; scene.room().high == at(17, 13));
}

const OF_ANY_FORM: &str = "6 7 1 2
9 13 2 -1
13 13 2 2
1 1 1 -1
0 1 1 0
1 16 1 0
1 15 1 -1
21 4 2 -1
21 8 2 -1
9 1 1 2
7 5 2 -1
8 13 2 -1
10 13 2 2
9 3 2 2
19 4 2 2
16 10 2 2";

// An L and another one, turned round: where their boxes overlap they may stand in each other's notch.
#[test]
fn shapes_of_any_form_meet(rt: HostRuntime) -> Result<(), EditFault> {
    let alloc = rt.alloc();
    let ell = [at(0, 0), at(4, 0), at(4, 1), at(1, 1), at(1, 4), at(0, 4)];
    let turned = [
        at(5, 5),
        at(10, 5),
        at(10, 10),
        at(9, 10),
        at(9, 6),
        at(5, 6),
    ];
    let scene = start(&rt, alloc, &ell);
    let scene = add(&rt, alloc, &scene, 2, &turned)?;
    touches(&rt, &scene, OF_ANY_FORM);
    Ok(())
}

const LEAST: &str = "8 5 1 7
15 10 2 -1
8 0 1 0
21 19 2 3
9 6 1 7
9 10 1 3
28 21 2 3
29 21 2 -1
19 5 1 0";

// A point of a common boundary is enough, the frame is told before an obstacle, and of two obstacles the lesser id.
#[test]
fn the_least_number_is_told(rt: HostRuntime) -> Result<(), EditFault> {
    let alloc = rt.alloc();
    let scene = start(&rt, alloc, &small());
    let scene = add(&rt, alloc, &scene, 7, &bar())?;
    let scene = add(
        &rt,
        alloc,
        &scene,
        3,
        &[at(10, 8), at(14, 8), at(14, 12), at(10, 12)],
    )?;
    touches(&rt, &scene, LEAST);
    Ok(())
}
