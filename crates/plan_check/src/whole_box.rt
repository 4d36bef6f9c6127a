ghost use Rattle.std.specs.Prelude.{pos, ◌*ℤ◌, ◌≤ℤ◌, ◌≤◌, ◌<◌, ◌*◌, ◌^◌, ◌↔◌, ℤ, unsigned_abs};
ghost use Rattle.plan_check.specs.Boxes.{IsWholeBox, IsRoundedDown, IsRoundedUp};

use plan_grid::{Frame, MOST_COORDINATE, Point, Spot};

/// The least box with whole-number corners that has both ends of the segment from `p` to `q`.
pub fn whole_box(p: &Point, q: &Point) -> Frame
    ensures { IsWholeBox p.now q.now result }
{
    Frame {
        low: rounded_down(p).least(rounded_down(q)),
        high: rounded_up(p).greatest(rounded_up(q)),
    }
}

// The spot whose coordinates are those of `p`, rounded down.
fn rounded_down(p: &Point) -> Spot
    ensures { IsRoundedDown p.now result }
{
    Spot {
        x: floor(p.x(), p.w()),
        y: floor(p.y(), p.w()),
    }
}

// The spot whose coordinates are those of `p`, rounded up.
fn rounded_up(p: &Point) -> Spot
    ensures { IsRoundedUp p.now result }
{
    Spot {
        x: ceiling(p.x(), p.w()),
        y: ceiling(p.y(), p.w()),
    }
}

// The greatest whole number that is at most `n / w`.
fn floor(n: i64, w: i64) -> i32
    requires positive { pos 1 ≤ℤ w }
    requires bounded { unsigned_abs n ≤ MOST_COORDINATE * unsigned_abs w }
    ensures value { (m : ℤ) → (m ≤ℤ result) ↔ ((m *ℤ w) ≤ℤ n) }
    ensures size { unsigned_abs result ≤ MOST_COORDINATE }
{
    n.div_euclid(w) as i32
}

// The least whole number that is at least `n / w`.
fn ceiling(n: i64, w: i64) -> i32
    requires positive { pos 1 ≤ℤ w }
    requires bounded { unsigned_abs n ≤ MOST_COORDINATE * unsigned_abs w }
    requires least { unsigned_abs n < 2 ^ 63 }
    ensures value { (m : ℤ) → (result ≤ℤ m) ↔ (n ≤ℤ (m *ℤ w)) }
    ensures size { unsigned_abs result ≤ MOST_COORDINATE }
{
    -floor(-n, w)
}
