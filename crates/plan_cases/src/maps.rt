ghost use Rattle.std.specs.Prelude.{◌≡◌, ◌<◌, IfOk, length};
ghost use Rattle.plan_grid.specs.Spot.{IsWithin};
ghost use Rattle.plan_slab.specs.Subdivision.{regions_of};

use crate::calls::{column, expect, number, push};
use crate::scenes::{BAR, FRAME, GAP, RING, SPIKES, TALL_BAR, scene_of, slabs_of};
use plan_cross::Segment;
use plan_grid::{MOST_COORDINATE, Point, Spot};
use plan_map::{Map, Region};
use plan_ring::ring;
use plan_slab::{Lot, Slabs};
use std::alloc::Global;
use std::process::Abort;
use std::thread::Threads;

// The map of the corner robot among obstacles.
fn map_of<R: Threads + Sync + Abort>(rt: &R, alloc: Global, obstacles: &str) -> Map {
    let scene = scene_of(rt, alloc, FRAME, obstacles);
    Map::of(slabs_of(rt, alloc, &scene, 4))
}

// The region of that number, of which the map has so many.
fn region_of(rt: &impl Abort, map: &Map, number: u32) -> Region
    ensures { result.number < length (regions_of map.now) }
{
    assert!(rt; number < map.slabs().regions());
    Region { number }
}

fn spot(x: i8, y: i8) -> Spot
    ensures { IsWithin MOST_COORDINATE result }
{
    Spot {
        x: i32::from(x),
        y: i32::from(y),
    }
}

/// Each region with its neighbours: a cell by its slab and its lower span, a wall by its line and its lower mark.
const REGIONS_BY_THE_BAR: &str = "cell 0 0: 1
wall 1 1: 0 2
cell 1 0: 1 3
wall 2 0: 2 4
cell 2 0: 3 5
wall 3 1: 4 6
cell 3 0: 5
";

const REGIONS_BY_THE_GAP: &str = "cell 0 0: 1
wall 1 1: 0 2
cell 1 0: 1
cell 3 0:
";

const REGIONS_BY_THE_RING: &str = "cell 0 0: 1 2
wall 1 0: 0 3
wall 1 4: 0 4
cell 1 0: 1 5
cell 1 2: 2 6
wall 2 0: 3 7
wall 2 2: 4 8
cell 2 0: 5 9
cell 2 2: 6 10
wall 3 0: 7 11
wall 3 4: 8 13
cell 3 0: 9 14
cell 3 2:
cell 3 4: 10 15
wall 4 0: 11 16
wall 4 4: 13 17
cell 4 0: 14 18
cell 4 2: 15 19
wall 5 0: 16 20
wall 5 2: 17 21
cell 5 0: 18 22
cell 5 2: 19 23
wall 6 0: 20 24
wall 6 6: 21 24
cell 6 0: 22 23
";

#[test]
fn cells_and_walls_beside_each_other_are_neighbours(rt: HostRuntime) {
    let alloc = rt.alloc();
    are_beside(&rt, alloc, "[]", "cell 0 0:\n");
    are_beside(&rt, alloc, BAR, REGIONS_BY_THE_BAR);
    are_beside(&rt, alloc, TALL_BAR, "cell 0 0:\ncell 2 0:\n");
    are_beside(&rt, alloc, GAP, REGIONS_BY_THE_GAP);
    are_beside(&rt, alloc, RING, REGIONS_BY_THE_RING);
}

// Compares the regions, each with its neighbours.
fn are_beside<R: Threads + Sync + Abort>(rt: &R, alloc: Global, obstacles: &str, expected: &str) {
    let map = map_of(rt, alloc, obstacles);
    let told = neighbours(rt, alloc, map.slabs());
    expect(rt, told, expected, obstacles);
}

// The regions by number, each with its neighbours.
fn neighbours(rt: &impl Abort, alloc: Global, slabs: &Slabs) -> String {
    let mut text = String::new(alloc);
    for region in 0..slabs.regions() {
        push_name(rt, alloc, &mut text, slabs.lot_of(region));
        for neighbour in slabs.left_of(region) {
            push_number(rt, alloc, &mut text, neighbour);
        }
        for neighbour in slabs.right_of(region) {
            push_number(rt, alloc, &mut text, neighbour);
        }
        push(rt, &mut text, "\n");
    }
    text
}

fn push_number(rt: &impl Abort, alloc: Global, text: &mut String, number: u32) {
    let more = format!(in alloc; " {number}").expect(rt, "memory");
    push(rt, text, more.as_str());
}

fn push_name(rt: &impl Abort, alloc: Global, text: &mut String, lot: Lot) {
    let name = name_of(rt, alloc, lot);
    push(rt, text, name.as_str());
}

fn name_of(rt: &impl Abort, alloc: Global, lot: Lot) -> String {
    match lot {
        Lot::Cell { slab, at } => format!(in alloc; "cell {slab} {at}:").expect(rt, "memory"),
        Lot::Wall { line, at } => format!(in alloc; "wall {line} {at}:").expect(rt, "memory"),
    }
}

/// Rows of x, y and the region: in cells; on event lines, in walls and not; on marks and spans; in the bar; on the room's
/// sides and outside.
const SPOTS_BY_THE_BAR: &str = "4 5 0
1 18 0
10 11 4
18 1 6
8 15 1
8 11 1
9 15 3
11 18 5
8 5 none
11 5 none
8 10 none
9 10 none
11 10 none
8 19 none
10 10 none
10 19 none
9 5 none
10 5 none
5 0 none
5 19 none
0 5 none
19 5 none
0 0 none
19 19 none
-3 5 none
25 5 none
5 -1 none
5 20 none
8 -5 none
10 -5 none
100 100 none
-100 8 none";

/// Beside the crossing of the spikes, at (44/5, 7/5), and on their sides.
const SPOTS_BY_THE_SPIKES: &str = "9 3 6
8 4 4
8 3 none
10 6 6
10 5 none
4 12 3
12 12 7
3 11 none";

#[test]
fn a_spot_is_located_in_its_region(rt: HostRuntime) {
    let alloc = rt.alloc();
    are_located(&rt, alloc, BAR, SPOTS_BY_THE_BAR);
    are_located(&rt, alloc, SPIKES, SPOTS_BY_THE_SPIKES);
}

// Compares the region of each row's spot.
fn are_located<R: Threads + Sync + Abort>(rt: &R, alloc: Global, obstacles: &str, table: &str) {
    let map = map_of(rt, alloc, obstacles);
    for row in table.lines() {
        is_located(rt, alloc, &map, row);
    }
}

fn is_located(rt: &impl Abort, alloc: Global, map: &Map, row: &str) {
    let (x, rest) = coordinate(rt, row);
    let (y, expected) = coordinate(rt, rest);
    expect(rt, located(rt, alloc, map, spot(x, y)), expected, row);
}

// The coordinate in the first column of a row, and what is behind it.
fn coordinate<'a>(rt: &impl Abort, row: &'a str) -> (i8, &'a str) {
    let (text, rest) = column(rt, row);
    (text.parse::<i8>().ok().expect(rt, "a coordinate"), rest)
}

// The number of the region of a spot.
fn located(rt: &impl Abort, alloc: Global, map: &Map, spot: Spot) -> String
    requires { IsWithin MOST_COORDINATE spot }
{
    match map.locate(spot) {
        Some(Region { number }) => format!(in alloc; "{number}").expect(rt, "memory"),
        None => String::from_str(alloc, "none").expect(rt, "memory"),
    }
}

const WALKS_BY_THE_BAR: &str = "0 6 [0, 1, 2, 3, 4, 5, 6]
6 0 [6, 5, 4, 3, 2, 1, 0]
3 3 [3]";

const WALKS_BY_THE_GAP: &str = "0 2 [0, 1, 2]
0 3 none
3 0 none";

const WALKS_BY_THE_RING: &str = "0 24 [0, 1, 3, 5, 7, 9, 11, 14, 16, 18, 20, 22, 24]
24 0 [24, 22, 20, 18, 16, 14, 11, 9, 7, 5, 3, 1, 0]
10 9 [10, 8, 6, 4, 2, 0, 1, 3, 5, 7, 9]
12 12 [12]
0 12 none";

#[test]
fn a_walk_is_the_first_of_the_shortest(rt: HostRuntime) {
    let alloc = rt.alloc();
    are_walks(&rt, alloc, "[]", "0 0 [0]");
    are_walks(&rt, alloc, BAR, WALKS_BY_THE_BAR);
    are_walks(&rt, alloc, TALL_BAR, "0 1 none");
    are_walks(&rt, alloc, GAP, WALKS_BY_THE_GAP);
    are_walks(&rt, alloc, RING, WALKS_BY_THE_RING);
}

// Compares the walk of each row, from one region to another.
fn are_walks<R: Threads + Sync + Abort>(rt: &R, alloc: Global, obstacles: &str, table: &str) {
    let map = map_of(rt, alloc, obstacles);
    for row in table.lines() {
        is_walk(rt, alloc, &map, row);
    }
}

fn is_walk(rt: &impl Abort, alloc: Global, map: &Map, row: &str) {
    let (from, rest) = number(rt, row);
    let (to, expected) = number(rt, rest);
    expect(rt, walk(rt, alloc, map, from, to), expected, row);
}

// The walk from one region to another.
fn walk(rt: &impl Abort, alloc: Global, map: &Map, from: u32, to: u32) -> String {
    let from = region_of(rt, map, from);
    let to = region_of(rt, map, to);
    match map.walk(alloc, from, to).ok().expect(rt, "memory") {
        Some(walk) => list(rt, alloc, walk.regions.as_slice()),
        None => String::from_str(alloc, "none").expect(rt, "memory"),
    }
}

// Numbers as [0, 1, 2].
fn list(rt: &impl Abort, alloc: Global, numbers: &[u32]) -> String {
    format!(in alloc; "{numbers:?}").expect(rt, "memory")
}

const COMPONENTS_BY_THE_GAP: &str = "0 [0, 1, 2]
2 [0, 1, 2]
3 [3]";

#[test]
fn a_component_has_all_that_walks_join(rt: HostRuntime) {
    let alloc = rt.alloc();
    are_components(&rt, alloc, "[]", "0 [0]");
    are_components(&rt, alloc, BAR, "5 [0, 1, 2, 3, 4, 5, 6]");
    are_components(&rt, alloc, TALL_BAR, "1 [1]");
    are_components(&rt, alloc, GAP, COMPONENTS_BY_THE_GAP);
    are_components(&rt, alloc, RING, "12 [12]");
}

// Compares the component of each row's region.
fn are_components<R: Threads + Sync + Abort>(rt: &R, alloc: Global, obstacles: &str, table: &str) {
    let map = map_of(rt, alloc, obstacles);
    for row in table.lines() {
        is_component(rt, alloc, &map, row);
    }
}

fn is_component(rt: &impl Abort, alloc: Global, map: &Map, row: &str) {
    let (region, expected) = number(rt, row);
    let start = region_of(rt, map, region);
    let found = map.component(alloc, start).ok().expect(rt, "memory");
    expect(rt, list(rt, alloc, &found), expected, row);
}

/// The region in the ring has a label of its own.
const LABELS_BY_THE_RING: &str =
    "[0, 0, 0, 0, 0, 0, 0, 0, 0, 0, 0, 0, 12, 0, 0, 0, 0, 0, 0, 0, 0, 0, 0, 0, 0]";

#[test]
fn a_label_is_the_least_region_of_a_component(rt: HostRuntime) {
    let alloc = rt.alloc();
    are_labels(&rt, alloc, "[]", "[0]");
    are_labels(&rt, alloc, BAR, "[0, 0, 0, 0, 0, 0, 0]");
    are_labels(&rt, alloc, TALL_BAR, "[0, 1]");
    are_labels(&rt, alloc, GAP, "[0, 0, 0, 3]");
    are_labels(&rt, alloc, RING, LABELS_BY_THE_RING);
}

// Compares the labels of all regions.
fn are_labels<R: Threads + Sync + Abort>(rt: &R, alloc: Global, obstacles: &str, expected: &str) {
    let map = map_of(rt, alloc, obstacles);
    let found = map.labels(alloc).ok().expect(rt, "memory");
    expect(rt, list(rt, alloc, &found), expected, obstacles);
}

/// Rows of a region and the segments of its ring.
const RINGS_BY_THE_BAR: &str =
    "0 [0,0,1,8,0,1] [8,0,1,8,10,1] [0,19,1,8,19,1] [0,0,1,0,19,1] [8,10,1,9,10,1] [8,19,1,9,19,1] [9,10,1,11,10,1] [9,19,1,11,19,1] [11,0,1,19,0,1] [19,0,1,19,19,1] [11,19,1,19,19,1] [11,0,1,11,10,1]
3 [0,0,1,8,0,1] [8,0,1,8,10,1] [0,19,1,8,19,1] [0,0,1,0,19,1] [8,10,1,9,10,1] [8,19,1,9,19,1] [9,10,1,11,10,1] [9,19,1,11,19,1] [11,0,1,19,0,1] [19,0,1,19,19,1] [11,19,1,19,19,1] [11,0,1,11,10,1]";

const RINGS_BY_THE_TALL_BAR: &str = "0 [0,0,1,8,0,1] [8,0,1,8,19,1] [0,19,1,8,19,1] [0,0,1,0,19,1]
1 [11,0,1,19,0,1] [19,0,1,19,19,1] [11,19,1,19,19,1] [11,0,1,11,19,1]";

const RINGS_BY_THE_GAP: &str =
    "0 [0,0,1,8,0,1] [8,0,1,8,10,1] [8,11,1,8,19,1] [0,19,1,8,19,1] [0,0,1,0,19,1] [8,10,1,9,10,1] [8,11,1,9,10,1]
2 [0,0,1,8,0,1] [8,0,1,8,10,1] [8,11,1,8,19,1] [0,19,1,8,19,1] [0,0,1,0,19,1] [8,10,1,9,10,1] [8,11,1,9,10,1]
3 [11,0,1,19,0,1] [19,0,1,19,19,1] [11,19,1,19,19,1] [11,0,1,11,10,1] [11,10,1,11,11,1] [11,11,1,11,19,1]";

const RINGS_BY_THE_RING: &str =
    "12 [6,6,1,13,6,1] [13,6,1,13,13,1] [6,13,1,13,13,1] [6,6,1,6,13,1]";

const RINGS_BY_THE_SPIKES: &str =
    "4 [0,0,1,3,0,1] [3,0,1,3,11,1] [0,19,1,3,19,1] [0,0,1,0,19,1] [3,11,1,4,11,1] [3,19,1,4,19,1] [4,11,1,44,7,5] [4,19,1,44,95,5] [44,7,5,12,11,1] [44,95,5,12,19,1] [12,11,1,13,11,1] [12,19,1,13,19,1] [13,0,1,19,0,1] [19,0,1,19,19,1] [13,19,1,19,19,1] [13,0,1,13,11,1]";

#[test]
fn a_ring_has_the_sides_of_a_component(rt: HostRuntime) {
    let alloc = rt.alloc();
    are_rings(&rt, alloc, BAR, RINGS_BY_THE_BAR);
    are_rings(&rt, alloc, TALL_BAR, RINGS_BY_THE_TALL_BAR);
    are_rings(&rt, alloc, GAP, RINGS_BY_THE_GAP);
    are_rings(&rt, alloc, RING, RINGS_BY_THE_RING);
    are_rings(&rt, alloc, SPIKES, RINGS_BY_THE_SPIKES);
}

// Compares the ring of each row's region.
fn are_rings<R: Threads + Sync + Abort>(rt: &R, alloc: Global, obstacles: &str, table: &str) {
    let map = map_of(rt, alloc, obstacles);
    for row in table.lines() {
        is_ring(rt, alloc, &map, row);
    }
}

fn is_ring(rt: &impl Abort, alloc: Global, map: &Map, row: &str) {
    let (region, expected) = number(rt, row);
    let start = region_of(rt, map, region);
    let chain = ring(alloc, map, start).ok().expect(rt, "memory");
    expect(rt, segments(rt, alloc, &chain.segments), expected, row);
}

// Segments as a document has them, in one line.
fn segments(rt: &impl Abort, alloc: Global, chain: &[Segment]) -> String {
    let mut text = String::new(alloc);
    for segment in chain {
        if !text.is_empty() {
            push(rt, &mut text, " ");
        }
        push_segment(rt, alloc, &mut text, segment.a, segment.b);
    }
    text
}

fn push_segment(rt: &impl Abort, alloc: Global, text: &mut String, a: Point, b: Point) {
    push(rt, text, "[");
    push_point(rt, alloc, text, a);
    push(rt, text, ",");
    push_point(rt, alloc, text, b);
    push(rt, text, "]");
}

fn push_point(rt: &impl Abort, alloc: Global, text: &mut String, point: Point) {
    let (x, y, w) = (point.x(), point.y(), point.w());
    let numbers = format!(in alloc; "{x},{y},{w}").expect(rt, "memory");
    push(rt, text, numbers.as_str());
}
