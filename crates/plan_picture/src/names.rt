// Where the ids of obstacles stand.
ghost use Rattle.std.specs.Prelude.{◌≡◌, pos, neg_ℤ, ◌+ℤ◌, ◌*ℤ◌, ◌≤ℤ◌, ◌^◌, map, length, All, IfOk};
ghost use Rattle.std.specs.List.{AllZip};
ghost use Rattle.plan_poly.specs.Polygon.{IsSimpleList};
ghost use Rattle.plan_tri.specs.Triangle.{triangle_seen};
ghost use Rattle.plan_top.specs.First.{obstacle_of};
ghost use Rattle.plan_picture.specs.Floor.{IsNamePlace, inner};

use plan_grid::Spot;
use plan_poly::Polygon;
use plan_svg::Place;
use plan_tri::{Triangle, triangulate};
use plan_wire::{NoMemory, Shape as Obstacle};
use std::alloc::Global;

/// A place inside each obstacle.
pub fn name_places(alloc: Global, obstacles: &[Obstacle]) -> Result<Vec<Place>, NoMemory>
    requires { All (λ o. IsSimpleList o.spots.items) obstacles.now }
    ensures { IfOk result (λ places. AllZip IsNamePlace (map obstacle_of obstacles.now) places.items) }
{
    let mut places = Vec::with_capacity(alloc, obstacles.len())?;
    for obstacle in obstacles {
        let place = name_place(alloc, obstacle)?;
        places.push(place).map_err(|_| NoMemory)?;
    }
    Ok(places)
}

fn name_place(alloc: Global, obstacle: &Obstacle) -> Result<Place, NoMemory>
    requires { IsSimpleList obstacle.now.spots.items }
    ensures { IfOk result (IsNamePlace (obstacle_of obstacle.now)) }
{
    let spots = Vec::from_slice(alloc, obstacle.spots.as_slice())?;
    let Ok(polygon) = Polygon::read(spots) else {
        unreachable!()
    };
    let Ok(triangles) = triangulate(alloc, &polygon) else {
        return Err(NoMemory);
    };
    match triangles.list.as_slice() {
        [first, ..] => Ok(inner(*first)),
        [] => unreachable!(),
    }
}

// A place in the triangle, near the middle of the side that faces its first corner.
fn inner(triangle: Triangle) -> Place
    ensures { result ≡ inner (triangle_seen triangle) }
{
    Place::new(inner_x(triangle), inner_y(triangle), 5)
}

fn inner_x(t: Triangle) -> i64
    ensures { result ≡ t.a.x +ℤ pos 2 *ℤ (t.b.x +ℤ t.c.x) }
{
    i64::from(t.a.x) + 2 * sum_of_x(t)
}

fn inner_y(t: Triangle) -> i64
    ensures { result ≡ t.a.y +ℤ pos 2 *ℤ (t.b.y +ℤ t.c.y) }
{
    i64::from(t.a.y) + 2 * sum_of_y(t)
}

fn sum_of_x(t: Triangle) -> i64
    ensures value { result ≡ t.b.x +ℤ t.c.x }
    ensures least { neg_ℤ (pos (2 ^ 32)) ≤ℤ result }
    ensures most { result ≤ℤ pos (2 ^ 32) }
{
    i64::from(t.b.x) + i64::from(t.c.x)
}

fn sum_of_y(t: Triangle) -> i64
    ensures value { result ≡ t.b.y +ℤ t.c.y }
    ensures least { neg_ℤ (pos (2 ^ 32)) ≤ℤ result }
    ensures most { result ≤ℤ pos (2 ^ 32) }
{
    i64::from(t.b.y) + i64::from(t.c.y)
}
