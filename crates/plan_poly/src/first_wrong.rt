ghost use Rattle.std.specs.Prelude.{◌≡◌, ◌+◌, ◌<◌, ◌≤◌, ◌↔◌, length, IsTrue, MatchOption};
ghost use Rattle.plan_spec.specs.Vector.{Same};
ghost use Rattle.plan_spec.specs.SimplePolygon.{AreThreeEqual, ShareAnother, MeetWrongly, IsSimple, IsFirstWrongPair};
ghost use Rattle.plan_grid.specs.Spot.{spot_seen, spots_seen};
ghost use Rattle.plan_poly.specs.Edge.{FoldsBack, Beyond};
ghost use Rattle.plan_poly.specs.FirstWrong.{MeetsNone, IsFirstAfter};

use crate::edge::Edge;
use plan_grid::Spot;

/// The first two edges that meet wrongly, by the first one's number, then by the second one's, in a list of at least
/// three spots; none where the list is simple. Takes up to n² tests of two edges for n spots.
pub fn first_wrong(spots: &[Spot]) -> Option<(usize, usize)>
    requires { 3 ≤ length spots.now }
    ensures { MatchOption result (IsSimple (spots_seen spots.now))
        (λ p. IsFirstWrongPair (spots_seen spots.now) p.0 p.1) }
{
    for i in 0..spots.len() {
        if let Some(j) = first_after(spots, i) {
            return Some((i, j));
        }
    }
    None
}

// The first edge after edge `i` that meets it wrongly.
fn first_after(spots: &[Spot], i: usize) -> Option<usize>
    requires three { 3 ≤ length spots.now }
    requires within { i < length spots.now }
    ensures { MatchOption result (MeetsNone (spots_seen spots.now) i) (IsFirstAfter (spots_seen spots.now) i) }
{
    for j in i + 1..spots.len() {
        if meet_wrongly(spots, i, j) {
            return Some(j);
        }
    }
    None
}

// Whether edges `i` and `j` meet wrongly.
fn meet_wrongly(spots: &[Spot], i: usize, j: usize) -> bool
    requires three { 3 ≤ length spots.now }
    requires ordered { i < j }
    requires within { j < length spots.now }
    ensures { IsTrue result ↔ MeetWrongly (spots_seen spots.now) i j }
{
    share_another(spots, i, j) || (i == 0 && j == 1 && are_three_equal(spots))
}

// Whether edges `i` and `j` share a point other than the vertex that they have in common as neighbours.
fn share_another(spots: &[Spot], i: usize, j: usize) -> bool
    requires three { 3 ≤ length spots.now }
    requires ordered { i < j }
    requires within { j < length spots.now }
    ensures { IsTrue result ↔ ShareAnother (spots_seen spots.now) i j }
{
    let first = Edge::of(spots, i);
    let second = Edge::of(spots, j);
    if j == i + 1 {
        folds_back(first.b, first.a, second.b)
    } else if i == 0 && j + 1 == spots.len() {
        folds_back(first.a, first.b, second.a)
    } else {
        first.meets(second)
    }
}

// Whether two edges that begin at `m` and end at `a` and `b` have another common point.
fn folds_back(m: Spot, a: Spot, b: Spot) -> bool
    ensures { IsTrue result ↔ FoldsBack (spot_seen m) (spot_seen a) (spot_seen b) }
{
    is_beyond(m, a, b) || is_beyond(m, b, a)
}

// Whether `a` is on the segment from `m` to `b`, and is not `m`.
fn is_beyond(m: Spot, a: Spot, b: Spot) -> bool
    ensures { IsTrue result ↔ Beyond (spot_seen m) (spot_seen a) (spot_seen b) }
{
    Edge { a: m, b }.has(a) && !is_same(a, m)
}

// Whether these are three spots, all equal.
fn are_three_equal(spots: &[Spot]) -> bool
    ensures { IsTrue result ↔ AreThreeEqual (spots_seen spots.now) }
{
    if let [a, b, c] = spots {
        is_same(*a, *b) && is_same(*b, *c)
    } else {
        false
    }
}

// Whether the spots are equal.
fn is_same(a: Spot, b: Spot) -> bool
    ensures { IsTrue result ↔ Same (spot_seen a) (spot_seen b) }
{
    a == b
}
