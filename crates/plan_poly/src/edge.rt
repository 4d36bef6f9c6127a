ghost use Rattle.std.specs.Prelude.{◌≡◌, pos, ◌*ℤ◌, ◌<ℤ◌, ◌<◌, ◌↔◌, IsTrue, length, slice_get};
ghost use Rattle.plan_spec.specs.Vector.{LtX, turn};
ghost use Rattle.plan_spec.specs.Segment.{On, Common};
ghost use Rattle.plan_spec.specs.Parity.{over, over_from};
ghost use Rattle.plan_spec.specs.Polygon.{edges};
ghost use Rattle.plan_grid.specs.Segment.{IsBetween, IsInBox};
ghost use Rattle.plan_grid.specs.Spot.{spot_seen, spots_seen};
ghost use Rattle.plan_poly.specs.Edge.{segment_seen, PartEachOther, Parts, AreOnSides, HaveEndOnOther, HasEnd};

use plan_exact::Whole;
use plan_grid::{Point, Spot, on_segment, orientation, orientation_at};

/// An edge of a polygon, from one vertex to the next. Its ends may be any spots, and one spot.
#[derive(Clone, Copy)]
pub struct Edge {
    pub a: Spot,
    pub b: Spot,
}

impl Edge {
    /// Edge `i` of the polygon.
    pub fn of(spots: &[Spot], i: usize) -> Edge
        requires { i < length spots.now }
        ensures { slice_get (edges (spots_seen spots.now)) i ≡ Some (segment_seen result) }
    {
        Edge {
            a: spots[i],
            b: spots[(i + 1) % spots.len()],
        }
    }

    /// Whether the spot is on the edge, its ends included.
    pub fn has(self, spot: Spot) -> bool
        ensures { IsTrue result ↔ On (segment_seen self) (spot_seen spot) }
    {
        orientation(self.a, self.b, spot).is_eq() && is_in_box(self, spot)
    }

    /// Whether some rational point is on both edges: each parts the ends of the other, or an end is on the other.
    pub fn meets(self, other: Edge) -> bool
        ensures { IsTrue result ↔ Common (segment_seen self) (segment_seen other) }
    {
        part_each_other(self, other) || have_end_on_other(self, other)
    }

    /// Whether a point is on the edge.
    pub fn has_point(self, z: &Point) -> bool
        ensures { IsTrue result ↔ On (segment_seen self) z.now }
    {
        on_segment(self.a, self.b, z)
    }

    /// Whether the edge stands over `z`: strictly above it, from the left end's x to before the right end's. A vertical
    /// edge stands over nothing.
    pub fn stands_over(self, z: &Point) -> bool
        ensures { result ≡ over (segment_seen self) z.now }
    {
        stands_over_from(self.a, self.b, z) || stands_over_from(self.b, self.a, z)
    }
}

// Whether each edge has its ends strictly on the two sides of the other one's line.
fn part_each_other(s: Edge, t: Edge) -> bool
    ensures { IsTrue result ↔ PartEachOther (segment_seen s) (segment_seen t) }
{
    parts(s, t) && parts(t, s)
}

// Whether the ends of the second edge are strictly on the two sides of the first one's line.
fn parts(s: Edge, t: Edge) -> bool
    ensures { IsTrue result ↔ Parts (segment_seen s) (segment_seen t) }
{
    are_on_sides(s, t.a, t.b) || are_on_sides(s, t.b, t.a)
}

// Whether the edge's line has `left` strictly on its left and `right` strictly on its right.
fn are_on_sides(s: Edge, left: Spot, right: Spot) -> bool
    ensures { IsTrue result ↔ AreOnSides (segment_seen s) (spot_seen left) (spot_seen right) }
{
    is_left(s, left) && is_right(s, right)
}

// Whether the spot is strictly left of the edge's line.
fn is_left(s: Edge, spot: Spot) -> bool
    ensures { IsTrue result ↔ (pos 0 <ℤ turn (spot_seen s.a) (spot_seen s.b) (spot_seen spot)) }
{
    orientation(s.a, s.b, spot).is_gt()
}

// Whether the spot is strictly right of the edge's line.
fn is_right(s: Edge, spot: Spot) -> bool
    ensures { IsTrue result ↔ (turn (spot_seen s.a) (spot_seen s.b) (spot_seen spot) <ℤ pos 0) }
{
    orientation(s.a, s.b, spot).is_lt()
}

// Whether an end of one edge is on the other.
fn have_end_on_other(s: Edge, t: Edge) -> bool
    ensures { IsTrue result ↔ HaveEndOnOther (segment_seen s) (segment_seen t) }
{
    has_end(s, t) || has_end(t, s)
}

// Whether an end of the second edge is on the first.
fn has_end(s: Edge, t: Edge) -> bool
    ensures { IsTrue result ↔ HasEnd (segment_seen s) (segment_seen t) }
{
    s.has(t.a) || s.has(t.b)
}

// Whether the spot is in the box of the edge, its sides included.
fn is_in_box(s: Edge, spot: Spot) -> bool
    ensures { IsTrue result ↔ IsInBox (spot_seen s.a) (spot_seen s.b) (spot_seen spot) }
{
    is_within_x(s, spot) && is_within_y(s, spot)
}

fn is_within_x(s: Edge, spot: Spot) -> bool
    ensures { IsTrue result ↔ IsBetween (s.a.x *ℤ pos 1) (s.b.x *ℤ pos 1) (spot.x *ℤ pos 1) }
{
    is_between(s.a.x, s.b.x, spot.x)
}

fn is_within_y(s: Edge, spot: Spot) -> bool
    ensures { IsTrue result ↔ IsBetween (s.a.y *ℤ pos 1) (s.b.y *ℤ pos 1) (spot.y *ℤ pos 1) }
{
    is_between(s.a.y, s.b.y, spot.y)
}

// Whether `z` is between `a` and `b`, which may come in either order.
fn is_between(a: i32, b: i32, z: i32) -> bool
    ensures { IsTrue result ↔ IsBetween a b z }
{
    (a <= z && z <= b) || (b <= z && z <= a)
}

// Whether the edge from its left end `a` to `b` stands over `z`.
fn stands_over_from(a: Spot, b: Spot, z: &Point) -> bool
    ensures { result ≡ over_from (spot_seen a) (spot_seen b) z.now }
{
    !is_past(a, z) && is_past(b, z) && is_above(a, b, z)
}

// Whether the spot is right of `z`.
fn is_past(spot: Spot, z: &Point) -> bool
    ensures { IsTrue result ↔ LtX z.now (spot_seen spot) }
{
    Whole::from(z.x()).is_below(Whole::from(spot.x).times(Whole::from(z.w())))
}

// Whether the line from `a` to its right end `b` is above `z`.
fn is_above(a: Spot, b: Spot, z: &Point) -> bool
    ensures { IsTrue result ↔ (turn (spot_seen a) (spot_seen b) z.now <ℤ pos 0) }
{
    orientation_at(a, b, z).is_lt()
}
