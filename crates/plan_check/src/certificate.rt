ghost use Rattle.std.specs.Prelude.{IfOk};
ghost use Rattle.plan_grid.specs.Spot.{spot_seen, IsWithin};
ghost use Rattle.plan_scene.specs.Scene.{scene_seen};
ghost use Rattle.plan_check.specs.Verdict.{IsShort, IsVerdict, BlocksWhereAccepted};

use crate::boxes::boxes_of;
use crate::chain::check_chain;
use crate::no_memory::NoMemory;
use crate::path::check_path;
use crate::verdict::Verdict;
use plan_cross::{Certificate, Query};
use plan_grid::MOST_COORDINATE;
use plan_scene::Scene;
use std::alloc::Global;

/// Whether the certificate shows what it claims, or its first fault.
///
/// A path is valid exactly where it is a clear polyline from start to goal. A chain is valid exactly where it is closed,
/// odd at the start and even at the goal, and each of its segments has two different ends in one of the scene's sums, or
/// on or beyond one side of its room. A valid chain blocks the start from the goal: every route between them has a point
/// of it. Start and goal have coordinates of at most 2046 in absolute value, and the certificate has fewer than 2^32
/// points or segments. Beside the sums it takes n log n steps for n of them.
pub fn check(
    alloc: Global,
    scene: &Scene,
    query: Query,
    certificate: &Certificate,
) -> Result<Verdict, NoMemory>
    requires start { IsWithin MOST_COORDINATE query.start }
    requires goal { IsWithin MOST_COORDINATE query.goal }
    requires few { IsShort certificate.now }
    ensures verdict { IfOk result (IsVerdict (scene_seen scene.now) (spot_seen query.start) (spot_seen query.goal) certificate.now) }
    ensures blocks { IfOk result (BlocksWhereAccepted (scene_seen scene.now) (spot_seen query.start) (spot_seen query.goal) certificate.now) }
{
    prove!(scene.count() <= 64);
    let sums = scene.sums();
    let room = scene.room();
    let boxes = boxes_of(alloc, sums)?;
    match certificate {
        Certificate::Path(path) => Ok(check_path(sums, &boxes, room, query, path)),
        Certificate::Blocked(chain) => check_chain(alloc, sums, &boxes, room, query, chain),
    }
}
