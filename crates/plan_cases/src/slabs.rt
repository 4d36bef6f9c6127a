ghost use Rattle.std.specs.Prelude.{◌<◌, ◌≤◌, length};

use crate::calls::{expect, push};
use crate::scenes::{BAR, FRAME, GAP, RING, SPIKES, TALL_BAR, scene_of, slabs_of};
use plan_grid::{Ratio, Spot};
use plan_scene::Scene;
use plan_slab::{Slabs, Strand};
use std::alloc::Global;
use std::process::Abort;
use std::thread::Threads;

/// The bar ends at two lines; below it the floor is covered.
const BY_THE_BAR: &str = "size 20, regions 7
at 0: 0 19
between: (0,0)-(19,0) (0,19)-(19,19)
at 8: 0 10 19
between: (8,10)-(9,10) (0,19)-(19,19)
at 9: 10 19
between: (8,10)-(11,10) (0,19)-(19,19)
at 11: 0 10 19
between: (0,0)-(19,0) (0,19)-(19,19)
at 19: 0 19
";

/// Without obstacles the room is one region.
const BY_NOTHING: &str = "size 6, regions 1
at 0: 0 19
between: (0,0)-(19,0) (0,19)-(19,19)
at 19: 0 19
";

/// Between the lines of the tall bar nothing is uncovered.
const BY_THE_TALL_BAR: &str = "size 12, regions 2
at 0: 0 19
between: (0,0)-(19,0) (0,19)-(19,19)
at 8: 0 19
between:
at 11: 0 19
between: (0,0)-(19,0) (0,19)-(19,19)
at 19: 0 19
";

/// In the gap the sums meet along a line, which is no region.
const BY_THE_GAP: &str = "size 20, regions 4
at 0: 0 19
between: (0,0)-(19,0) (0,19)-(19,19)
at 8: 0 10 11 19
between: (8,10)-(9,10) (8,11)-(9,10)
at 9: 10
between: (8,10)-(11,10)
at 11: 0 10 11 19
between: (0,0)-(19,0) (0,19)-(19,19)
at 19: 0 19
";

/// Two shelves, one from the left and one from the right, whose sums have but one point in common.
const SHELVES: &str =
    r#"[{"id":1,"shape":[[-5,11],[9,11],[9,13],[-5,13]]},{"id":2,"shape":[[10,8],[25,8],[25,10],[10,10]]}]"#;

/// The mark 10 on the line 10 is that point.
const BY_THE_SHELVES: &str = "size 30, regions 10
at 0: 0 10 13 19
between: (0,0)-(19,0) (-5,10)-(9,10) (-6,13)-(9,13) (0,19)-(19,19)
at 9: 0 8 10 11 13 19
between: (0,0)-(19,0) (9,8)-(10,7) (9,10)-(10,10) (0,19)-(19,19)
at 10: 0 7 10 19
between: (0,0)-(19,0) (10,7)-(25,7) (9,10)-(25,10) (0,19)-(19,19)
at 19: 0 7 10 19
";

/// The line at which the spikes cross has a mark at 7/5.
const BY_THE_SPIKES: &str = "size 28, regions 11
at 0: 0 19
between: (0,0)-(19,0) (0,19)-(19,19)
at 3: 0 11 19
between: (3,11)-(4,11) (0,19)-(19,19)
at 4: 11 19
between: (4,11)-(12,-5) (0,19)-(19,19)
at 44/5: 7/5 19
between: (6,-7)-(12,11) (0,19)-(19,19)
at 12: 11 19
between: (12,11)-(13,11) (0,19)-(19,19)
at 13: 0 11 19
between: (0,0)-(19,0) (0,19)-(19,19)
at 19: 0 19
";

/// There is a region in the ring, and edges of several bars in one line.
const BY_THE_RING: &str = "size 64, regions 25
at 0: 0 19
between: (0,0)-(19,0) (0,19)-(19,19)
at 3: 0 4 6 14 16 19
between: (0,0)-(19,0) (3,4)-(4,3) (3,16)-(4,16) (0,19)-(19,19)
at 4: 0 3 16 19
between: (0,0)-(19,0) (4,3)-(6,3) (3,16)-(6,16) (0,19)-(19,19)
at 6: 0 3 6 13 16 19
between: (0,0)-(19,0) (4,3)-(16,3) (3,6)-(16,6) (4,13)-(16,13) (3,16)-(16,16) (0,19)-(19,19)
at 13: 0 3 6 13 16 19
between: (0,0)-(19,0) (4,3)-(16,3) (13,16)-(14,16) (0,19)-(19,19)
at 14: 0 3 16 19
between: (0,0)-(19,0) (14,3)-(16,3) (13,16)-(16,16) (0,19)-(19,19)
at 16: 0 3 4 6 13 14 16 19
between: (0,0)-(19,0) (0,19)-(19,19)
at 19: 0 19
";

/// Two bars that overlap, with their upper edges in one line; the right side of one is on a line inside the other.
const BARS_IN_LINE: &str =
    r#"[{"id":1,"shape":[[9,-5],[11,-5],[11,10],[9,10]]},{"id":2,"shape":[[10,-5],[14,-5],[14,10],[10,10]]}]"#;

/// A span that lies on several edges has the first of them, and what the other bar covers of a side is no mark.
const BY_THE_BARS_IN_LINE: &str = "size 28, regions 11
at 0: 0 19
between: (0,0)-(19,0) (0,19)-(19,19)
at 8: 0 10 19
between: (8,10)-(9,10) (0,19)-(19,19)
at 9: 10 19
between: (8,10)-(11,10) (0,19)-(19,19)
at 10: 10 19
between: (8,10)-(11,10) (0,19)-(19,19)
at 11: 10 19
between: (9,10)-(14,10) (0,19)-(19,19)
at 14: 0 10 19
between: (0,0)-(19,0) (0,19)-(19,19)
at 19: 0 19
";

/// Three obstacles whose sums cover all round (10, 10) but the point itself.
const ROUND_A_POINT: &str =
    r#"[{"id":1,"shape":[[5,5],[15,5],[15,10],[5,10]]},{"id":2,"shape":[[6,15],[15,6],[15,15]]},{"id":3,"shape":[[5,6],[14,15],[5,15]]}]"#;

/// The line 10 is there for that point alone.
const BY_THE_POINT: &str = "size 49, regions 20
at 0: 0 19
between: (0,0)-(19,0) (0,19)-(19,19)
at 4: 0 5 6 10 15 19
between: (0,0)-(19,0) (4,5)-(5,4) (4,15)-(14,15) (0,19)-(19,19)
at 5: 0 4 15 19
between: (0,0)-(19,0) (5,4)-(15,4) (5,15)-(15,15) (0,19)-(19,19)
at 10: 0 4 10 15 19
between: (0,0)-(19,0) (5,4)-(15,4) (5,15)-(15,15) (0,19)-(19,19)
at 14: 0 4 15 19
between: (0,0)-(19,0) (5,4)-(15,4) (5,15)-(15,15) (0,19)-(19,19)
at 15: 0 4 5 10 15 19
between: (0,0)-(19,0) (0,19)-(19,19)
at 19: 0 19
";

#[test]
fn slabs_are_those_of_their_definition(rt: HostRuntime) {
    let alloc = rt.alloc();
    are_shown(&rt, alloc, BAR, BY_THE_BAR);
    are_shown(&rt, alloc, "[]", BY_NOTHING);
    are_shown(&rt, alloc, TALL_BAR, BY_THE_TALL_BAR);
    are_shown(&rt, alloc, GAP, BY_THE_GAP);
    are_shown(&rt, alloc, SHELVES, BY_THE_SHELVES);
    are_shown(&rt, alloc, SPIKES, BY_THE_SPIKES);
    are_shown(&rt, alloc, RING, BY_THE_RING);
    are_shown(&rt, alloc, BARS_IN_LINE, BY_THE_BARS_IN_LINE);
    are_shown(&rt, alloc, ROUND_A_POINT, BY_THE_POINT);
}

// Compares the slabs of these obstacles, by any number of workers.
fn are_shown<R: Threads + Sync + Abort>(rt: &R, alloc: Global, obstacles: &str, expected: &str) {
    let scene = scene_of(rt, alloc, FRAME, obstacles);
    is_shown(rt, alloc, &scene, 1, expected);
    is_shown(rt, alloc, &scene, 3, expected);
    is_shown(rt, alloc, &scene, 16, expected);
}

// Compares the slabs of a scene, by this number of workers.
fn is_shown<R: Threads + Sync + Abort>(
    rt: &R,
    alloc: Global,
    scene: &Scene,
    workers: u8,
    expected: &str,
)
    requires least { 1 ≤ workers }
    requires most { workers ≤ 16 }
{
    let slabs = slabs_of(rt, alloc, scene, workers);
    expect(rt, shown(rt, alloc, &slabs), expected, "slabs");
}

#[test]
fn a_room_without_width_has_no_slabs(rt: HostRuntime) {
    let alloc = rt.alloc();
    let scene = scene_of(&rt, alloc, "[0,0,1,1]", "[]");
    is_shown(&rt, alloc, &scene, 1, "size 0, regions 0\n");
}

// The size of slabs and the number of their regions; then each line with its marks, and below it the spans on its
// right.
fn shown(rt: &impl Abort, alloc: Global, slabs: &Slabs) -> String {
    let size = slabs.size();
    let regions = slabs.regions();
    let mut text = format!(in alloc; "size {size}, regions {regions}\n").expect(rt, "memory");
    let count = slabs.lines().len();
    for k in 0..count {
        push_line(rt, alloc, &mut text, slabs, k);
        if k + 1 < count {
            push_spans(rt, alloc, &mut text, slabs.spans(k as u32));
        }
    }
    text
}

// Adds a line with its marks.
fn push_line(rt: &impl Abort, alloc: Global, text: &mut String, slabs: &Slabs, k: usize)
    requires { k < length slabs.now.lines }
{
    push(rt, text, "at ");
    push_ratio(rt, alloc, text, slabs.lines()[k]);
    push(rt, text, ":");
    for mark in slabs.marks(k as u32) {
        push(rt, text, " ");
        push_ratio(rt, alloc, text, *mark);
    }
    push(rt, text, "\n");
}

// Adds spans.
fn push_spans(rt: &impl Abort, alloc: Global, text: &mut String, spans: &[Strand]) {
    push(rt, text, "between:");
    for span in spans {
        push_span(rt, alloc, text, span.a, span.b);
    }
    push(rt, text, "\n");
}

// Adds the span between two spots.
fn push_span(rt: &impl Abort, alloc: Global, text: &mut String, a: Spot, b: Spot) {
    let Spot { x: ax, y: ay } = a;
    let Spot { x: bx, y: by } = b;
    let span = format!(in alloc; " ({ax},{ay})-({bx},{by})").expect(rt, "memory");
    push(rt, text, span.as_str());
}

// Adds a ratio, as 5 or 7/5.
fn push_ratio(rt: &impl Abort, alloc: Global, text: &mut String, ratio: Ratio) {
    let value = value(rt, alloc, ratio);
    push(rt, text, value.as_str());
}

// A ratio as 5 or 7/5.
fn value(rt: &impl Abort, alloc: Global, ratio: Ratio) -> String {
    let num = ratio.num();
    let den = ratio.den();
    if den == 1 {
        return format!(in alloc; "{num}").expect(rt, "memory");
    }
    format!(in alloc; "{num}/{den}").expect(rt, "memory")
}
