ghost use Rattle.std.specs.Prelude.{◌≡◌, ◌<◌, length};
ghost use Rattle.plan_spec.specs.Triangulation.{part_at_best, comes_before, every, from_least};
ghost use Rattle.plan_grid.specs.Spot.{spots_seen};
ghost use Rattle.plan_poly.specs.Part.{part_at};
ghost use Rattle.plan_poly.specs.Polygon.{IsRotation};

use plan_grid::Spot;

/// Turns the list round so that it begins with its least spot, by x, then by y; with the first of them where several
/// are least.
pub fn turn_to_least(spots: &mut [Spot])
    ensures least { spots_seen spots.new ≡ from_least (spots_seen spots.old) }
    ensures order { IsRotation spots.old spots.new }
{
    if spots.is_empty() {
        return;
    }
    let least = least(spots);
    spots.rotate_left(least);
}

// The number of the least spot, the first of them where several are least.
fn least(spots: &[Spot]) -> usize
    requires { 0 < length spots.now }
    ensures within { result < length spots.now }
    ensures best { part_at_best every comes_before (spots_seen spots.now) ≡ Some (part_at (spots_seen spots.now) result) }
{
    let mut least = spots.len() - 1;
    for i in (0..spots.len() - 1).rev() {
        if !spots[least].is_before(spots[i]) {
            least = i;
        }
    }
    least
}
