//! The path along a walk.

ghost use Rattle.std.specs.Prelude.{◌<◌, ◌++◌, ◌∷◌, [], All, IfOk, OnOk, length};
ghost use Rattle.std.specs.List.{AllZip};
ghost use Rattle.plan_spec.specs.Paths.{path_along, stops};
ghost use Rattle.plan_spec.specs.Regions.{region_at, spot_of};
ghost use Rattle.plan_spec.specs.Vector.{IsPoint, Same};
ghost use Rattle.plan_grid.specs.Bounds.{IsInRange};
ghost use Rattle.plan_grid.specs.Spot.{spot_seen, IsWithin};
ghost use Rattle.plan_slab.specs.Subdivision.{slabs_of, regions_of};
ghost use Rattle.plan_reply.specs.Path.{AreLonger};

use crate::no_memory::NoMemory;
use plan_cross::{Polyline, Query};
use plan_grid::{MOST_COORDINATE, Point};
use plan_map::{Map, Region, Walk};
use std::alloc::{AllocError, Global};

/// The path along a walk: the start, the spots of its regions where there are at least two, and the goal, without a point
/// that is at the place of the one before.
pub fn path_along(alloc: Global, map: &Map, query: Query, walk: &Walk) -> Result<Polyline, NoMemory>
    requires start { IsWithin MOST_COORDINATE query.start }
    requires goal { IsWithin MOST_COORDINATE query.goal }
    requires regions { All (λ n. n < length (regions_of map.now)) walk.now.regions.items }
    requires spots { All (λ n. IsPoint (spot_of (slabs_of map.now) (region_at (regions_of map.now) n))) walk.now.regions.items }
    ensures along { IfOk result (λ path. AllZip Same path (path_along (slabs_of map.now) (regions_of map.now) (spot_seen query.start) (spot_seen query.goal) walk.now.regions.items)) }
    ensures in_range { IfOk result (λ path. All IsInRange path) }
{
    let mut points = way(alloc, map, query, &walk.regions)?;
    points.dedup();
    Ok(Polyline { points })
}

// The start, the spots of the regions where there are at least two, and the goal.
fn way(alloc: Global, map: &Map, query: Query, regions: &[u32]) -> Result<Vec<Point>, AllocError>
    requires start { IsWithin MOST_COORDINATE query.start }
    requires goal { IsWithin MOST_COORDINATE query.goal }
    requires regions { All (λ n. n < length (regions_of map.now)) regions.now }
    ensures same { IfOk result (λ points. AllZip Same points.items
        (spot_seen query.start ∷ (stops (λ n. spot_of (slabs_of map.now) (region_at (regions_of map.now) n)) regions.now ++ spot_seen query.goal ∷ []))) }
    ensures in_range { IfOk result (λ points. All IsInRange points.items) }
{
    let mut points = Vec::new(alloc);
    points.push(Point::of(query.start))?;
    push_stops(&mut points, map, regions)?;
    points.push(Point::of(query.goal))?;
    Ok(points)
}

// Puts the spots of the regions behind the points, where there are at least two.
fn push_stops(points: &mut Vec<Point>, map: &Map, regions: &[u32]) -> Result<(), AllocError>
    requires { All (λ n. n < length (regions_of map.now)) regions.now }
    ensures { OnOk result (AreLonger (stops (λ n. spot_of (slabs_of map.now) (region_at (regions_of map.now) n)) regions.now) points.old.items points.new.items) }
{
    if regions.len() < 2 {
        return Ok(());
    }
    for &number in regions {
        points.push(map.spot_of(Region { number }))?;
    }
    Ok(())
}
