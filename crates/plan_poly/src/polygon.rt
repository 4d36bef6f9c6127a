ghost use Rattle.std.specs.Prelude.{◌≡◌, ◌<◌, ◌≤◌, ◌^◌, ◌↔◌, length, All, IsTrue, MatchOption, MatchResult};
ghost use Rattle.plan_spec.specs.SimplePolygon.{InPolygon};
ghost use Rattle.plan_grid.specs.Spot.{spots_seen, IsWithin};
ghost use Rattle.plan_poly.specs.Polygon.{IsPolygon, IsSimpleList, IsRead, IsFault, IsFirstOut};

use crate::edge::Edge;
use crate::fault::PolyFault;
use crate::first_wrong::first_wrong;
use crate::least::turn_to_least;
use plan_grid::{MOST_CORNER, Point, Spot, orientation};
use std::marker::Model;

/// A simple polygon of 3 to 32 vertices with coordinates of at most 1023 in absolute value, counterclockwise from its
/// least vertex (by x, then by y). Its boundary belongs to it. Vertices at a straight angle are allowed.
#[derive(Debug, Drop)]
pub struct Polygon {
    spots: Vec<Spot>,
}

impl Model for Polygon {
    ghost use Rattle.std.specs.Prelude.{List};
    ghost use Rattle.plan_grid.specs.declared.spot.Spot.{Spot};
    ghost use Rattle.plan_poly.specs.Polygon.{IsPolygon};

    ghost Value = { List Spot };

    ghost view = { λ p. p.spots.items };

    ghost invariant = { λ p. IsPolygon p.spots.items };
}

impl Polygon {
    /// The polygon with these vertices in this cyclic order, in either direction of turning; or the first fault. Takes no
    /// memory.
    pub fn read(spots: Vec<Spot>) -> Result<Polygon, PolyFault>
        requires { length spots.items < 2 ^ 32 }
        ensures { MatchResult result (IsRead spots.items) (IsFault spots.items) }
    {
        let count = spots.len() as u32;
        if count < 3 {
            return Err(PolyFault::Few(count));
        }
        if 32 < count {
            return Err(PolyFault::Many(count));
        }
        if let Some(i) = first_out(&spots) {
            return Err(PolyFault::Range(i as u32));
        }
        if let Some((i, j)) = first_wrong(&spots) {
            return Err(PolyFault::NotSimple(i as u32, j as u32));
        }
        Ok(Polygon::of(spots))
    }

    /// The vertices.
    pub fn spots(&self) -> &[Spot]
        ensures value { result.now ≡ self.now }
        ensures polygon { IsPolygon self.now }
    {
        &self.spots
    }

    /// Whether `z` is in the polygon or on its boundary: on an edge, or under an odd number of edges.
    pub fn holds(&self, z: &Point) -> bool
        ensures { IsTrue result ↔ InPolygon (spots_seen self.now) z.now }
    {
        let spots = self.spots();
        let mut odd = false;
        for i in 0..spots.len() {
            let edge = Edge::of(spots, i);
            if edge.has_point(z) {
                return true;
            }
            odd ^= edge.stands_over(z);
        }
        odd
    }

    // The polygon of a simple list.
    fn of(mut spots: Vec<Spot>) -> Polygon
        requires { IsSimpleList spots.items }
        ensures { IsRead spots.items result }
    {
        arrange(&mut spots);
        Polygon { spots }
    }
}

// Lists a simple polygon counterclockwise from its least vertex.
fn arrange(spots: &mut [Spot])
    requires { IsSimpleList spots.old }
    ensures { IsRead spots.old spots.new }
{
    turn_to_least(spots);
    if orientation(spots[spots.len() - 1], spots[0], spots[1]).is_lt() {
        spots.reverse();
        spots.rotate_right(1);
    }
}

// The number of the first spot with a coordinate above 1023 in absolute value.
fn first_out(spots: &[Spot]) -> Option<usize>
    ensures { MatchOption result (All (IsWithin MOST_CORNER) spots.now) (IsFirstOut spots.now) }
{
    for i in 0..spots.len() {
        if !is_in_range(spots[i]) {
            return Some(i);
        }
    }
    None
}

// Whether both coordinates are at most 1023 in absolute value.
fn is_in_range(spot: Spot) -> bool
    ensures { IsTrue result ↔ IsWithin MOST_CORNER spot }
{
    spot.x.unsigned_abs() <= MOST_CORNER && spot.y.unsigned_abs() <= MOST_CORNER
}
