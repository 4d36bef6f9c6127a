// What the tests are given: numbers in rows, spots and points.
ghost use Rattle.std.specs.Prelude.{◌≡◌};
ghost use Rattle.plan_grid.specs.Spot.{IsWithin};

use plan_grid::{MOST_COORDINATE, Point, Spot};
use std::alloc::{AllocError, Global};
use std::process::Abort;

/// The numbers of a row, which has N of them.
pub fn numbers<const N: usize>(rt: &impl Abort, row: &str) -> [i64; N] {
    let mut found = [0; N];
    let mut count = 0;
    for word in row.split(' ') {
        assert!(rt; count < N, "{row}");
        found[count] = word.parse::<i64>().ok().expect(rt, "a number");
        count += 1;
    }
    assert!(rt; count == N, "{row}");
    found
}

/// A spot near the origin.
pub fn near(x: i8, y: i8) -> Spot
    ensures within { IsWithin MOST_COORDINATE result }
    ensures value { result ≡ record { x = x; y = y } }
{
    Spot {
        x: i32::from(x),
        y: i32::from(y),
    }
}

/// The spots with these coordinates, x and y in turn.
pub fn spots(alloc: Global, coordinates: &[i32]) -> Result<Vec<Spot>, AllocError> {
    let mut spots = Vec::new(alloc);
    for k in 0..coordinates.len() / 2 {
        spots.push(Spot {
            x: coordinates[2 * k],
            y: coordinates[2 * k + 1],
        })?;
    }
    Ok(spots)
}

/// The point at (`x / w`, `y / w`), which is in range.
pub fn point(rt: &impl Abort, x: i64, y: i64, w: i64) -> Point {
    Point::new(x, y, w).expect(rt, "a point in range")
}
