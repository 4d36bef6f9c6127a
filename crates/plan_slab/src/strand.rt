ghost use Rattle.std.specs.Prelude.{◌≡◌};
ghost use Rattle.plan_spec.specs.Slabs as spec;
ghost use Rattle.plan_grid.specs.Spot.{edge_seen, IsWithin};
ghost use Rattle.plan_slab.specs.Seen.{strand_seen};

use plan_grid::{MOST_COORDINATE, Spot};

/// The edge on which a span lies, from left to right.
#[derive(Clone, Copy, Debug, PartialEq, Eq)]
pub struct Strand {
    pub a: Spot,
    pub b: Spot,
}

/// The edge from `p` to `q`, from left to right.
pub fn rightward(p: Spot, q: Spot) -> Strand
    requires p_bounded { IsWithin MOST_COORDINATE p }
    requires q_bounded { IsWithin MOST_COORDINATE q }
    ensures value { strand_seen result ≡ spec.rightward (edge_seen p q) }
    ensures a_bounded { IsWithin MOST_COORDINATE result.a }
    ensures b_bounded { IsWithin MOST_COORDINATE result.b }
{
    if q.x < p.x {
        Strand { a: q, b: p }
    } else {
        Strand { a: p, b: q }
    }
}
