ghost use Rattle.std.specs.Prelude.{◌≡◌, ◌<◌, ◌≤◌, List, [], ◌∷◌, ◌++◌, length, take};

use plan_grid::Spot;
use std::marker::Model;

/// Up to six spots in a row, kept in place.
#[derive(Clone, Debug, Drop)]
pub struct Vertices {
    spots: [Spot; 6],
    count: usize,
}

impl Model for Vertices {
    ghost use Rattle.std.specs.Prelude.{◌≤◌, List, take};
    ghost use Rattle.plan_grid.specs.declared.spot.Spot.{Spot};

    ghost Value = { List Spot };

    ghost view = { λ v. take v.count v.spots };

    ghost invariant = { λ v. v.count ≤ 6 };
}

impl Vertices {
    /// None.
    pub fn new() -> Self
        ensures { result ≡ [] }
    {
        Vertices {
            spots: [Spot { x: 0, y: 0 }; 6],
            count: 0,
        }
    }

    /// One more, behind the others; there must be fewer than six.
    pub fn push(&mut self, spot: Spot)
        requires { length self.old < 6 }
        ensures { self.new ≡ self.old ++ spot ∷ [] }
    {
        self.spots[self.count] = spot;
        self.count += 1;
    }

    /// All of them, in order.
    pub fn as_slice(&self) -> &[Spot]
        ensures { result.now ≡ self.now }
    {
        &self.spots[..self.count]
    }
}
