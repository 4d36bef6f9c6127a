ghost use Rattle.std.specs.Prelude.{◌≡◌, pos, ◌<ℤ◌, ◌≤◌, ◌^◌, ◌↔◌, length, All, Any, IsTrue};
ghost use Rattle.plan_spec.specs.Vector.{turn};
ghost use Rattle.plan_spec.specs.Segment.{AnyOn, segment};
ghost use Rattle.plan_spec.specs.Polygon.{AreRight, IsConvex, Inside, edges};
ghost use Rattle.plan_grid.specs.Bounds.{IsBounded};
ghost use Rattle.plan_grid.specs.Order.{IsSign};
ghost use Rattle.plan_grid.specs.Spot.{spot_seen, spots_seen, edge_seen, IsWithin};
ghost use Rattle.plan_convex.specs.Convex.{IsPolygon};

use crate::triple::Triple;
use crate::vertices::Vertices;
use plan_grid::{MOST_COORDINATE, Point, Spot, orientation_at, side_of};
use std::cmp::Ordering;
use std::marker::Model;

/// A strictly convex polygon of three to six spots, counterclockwise from the least one (by x, then by y), with
/// coordinates of at most 2046 in absolute value. Its boundary belongs to it.
#[derive(Clone, Debug, Drop)]
pub struct Convex {
    vertices: Vertices,
}

impl Model for Convex {
    ghost use Rattle.std.specs.Prelude.{List};
    ghost use Rattle.plan_grid.specs.declared.spot.Spot.{Spot};
    ghost use Rattle.plan_convex.specs.Convex.{IsPolygon};

    ghost Value = { List Spot };

    ghost view = { λ c. c.vertices };

    ghost invariant = { λ c. IsPolygon c.vertices };
}

impl Convex {
    pub(crate) fn of(vertices: Vertices) -> Convex
        requires { IsPolygon vertices }
        ensures { result ≡ vertices }
    {
        Convex { vertices }
    }

    /// The three to six vertices, counterclockwise from the least one on.
    pub fn spots(&self) -> &[Spot]
        ensures value { result.now ≡ self.now }
        ensures at_least_three { 3 ≤ length self.now }
        ensures at_most_six { length self.now ≤ 6 }
        ensures convex { IsConvex (spots_seen self.now) }
        ensures bounded { All (IsWithin MOST_COORDINATE) self.now }
    {
        self.vertices.as_slice()
    }

    /// Whether `z` is in the polygon or on its boundary: on or left of every edge.
    pub fn holds(&self, z: &Point) -> bool
        ensures { IsTrue result ↔ Inside (spots_seen self.now) z.now }
    {
        let spots = self.vertices.as_slice();
        for i in 0..spots.len() {
            if is_right(spots[i], spots[(i + 1) % spots.len()], z) {
                return false;
            }
        }
        true
    }

    /// The same of a point that need not be in lowest terms, of a weight of at most 2^100 and coordinates of at most
    /// 2046 in absolute value.
    pub fn holds_at(&self, z: Triple) -> bool
        requires { IsBounded (2 ^ 100) z }
        ensures { IsTrue result ↔ Inside (spots_seen self.now) z }
    {
        let spots = self.spots();
        for i in 0..spots.len() {
            if z.is_right(spots[i], spots[(i + 1) % spots.len()]) {
                return false;
            }
        }
        true
    }

    /// Whether some rational point of the segment from `p` to `q` is in the polygon or on its boundary: no edge has
    /// both ends strictly right of it, and the vertices are not all strictly on one side of the segment's line. Two
    /// convex sets without a common point have a line between them, here one along a side of either (de Berg et al.,
    /// Computational Geometry, 3rd ed.).
    pub fn meets(&self, p: &Point, q: &Point) -> bool
        ensures { IsTrue result ↔ AnyOn (Inside (spots_seen self.now)) (segment p.now q.now) }
    {
        prove!(p.w() > 0);
        prove!(q.w() > 0);
        let spots = self.spots();
        if is_right_of_edge(spots, p, q) {
            return false;
        }
        if are_all(Ordering::Greater, spots, p, q) {
            return false;
        }
        !are_all(Ordering::Less, spots, p, q)
    }
}

// Whether `z` is strictly right of the line from `a` to `b`.
fn is_right(a: Spot, b: Spot, z: &Point) -> bool
    ensures { IsTrue result ↔ (turn (spot_seen a) (spot_seen b) z.now <ℤ pos 0) }
{
    orientation_at(a, b, z).is_lt()
}

// Whether some edge has `p` and `q` both strictly right of it.
fn is_right_of_edge(spots: &[Spot], p: &Point, q: &Point) -> bool
    ensures { IsTrue result ↔ Any (AreRight p.now q.now) (edges (spots_seen spots.now)) }
{
    for i in 0..spots.len() {
        if are_right(spots[i], spots[(i + 1) % spots.len()], p, q) {
            return true;
        }
    }
    false
}

// Whether `p` and `q` are both strictly right of the line from `a` to `b`.
fn are_right(a: Spot, b: Spot, p: &Point, q: &Point) -> bool
    ensures { IsTrue result ↔ AreRight p.now q.now (edge_seen a b) }
{
    is_right(a, b, p) && is_right(a, b, q)
}

// Whether all spots are on this side of the line from `p` to `q`.
fn are_all(side: Ordering, spots: &[Spot], p: &Point, q: &Point) -> bool
    requires { All (IsWithin MOST_COORDINATE) spots.now }
    ensures { IsTrue result ↔ All (λ v. IsSign side (turn p.now q.now (spot_seen v))) spots.now }
{
    for v in spots {
        if side_of(p, q, *v) != side {
            return false;
        }
    }
    true
}
