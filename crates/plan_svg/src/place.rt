// Points as decimal numbers, and as exact triples.
ghost use Rattle.std.specs.Prelude.{◌≡◌, ◌++◌, ◌∷◌, [], pos, ◌<ℤ◌, ℕ, List, OnOk, codes};
ghost use Rattle.std.specs.List.{join_by, flat_map};
ghost use Rattle.plan_spec.specs.Vector.{Vector};
ghost use Rattle.plan_grid.specs.Spot.{spot_seen};
ghost use Rattle.plan_cross.specs.Segment.{segment_seen};
ghost use Rattle.plan_svg.specs.Decimal.{decimal_text};
ghost use Rattle.plan_svg.specs.Shapes.{pair_text, place_text, stroke_text, triple_text};

use crate::decimal::put_decimal;
use crate::text::{put, put_signed};
use plan_cross::Segment;
use plan_grid::{Point, Spot};
use plan_wire::NoMemory;
use std::marker::Model;

/// What has a place in a picture.
pub trait Placed {
    ghost at: { Self → Vector };

    /// Puts the place.
    fn put_place(&self, out: &mut Vec<u8>) -> Result<(), NoMemory>
        ensures { OnOk result (out.new.items ≡ out.old.items ++ place_text (at self.now)) };
}

impl Placed for Spot {
    ghost at = { spot_seen };

    #[tactic(auto, unfolding(crate::specs::Shapes::place_text))]
    fn put_place(&self, out: &mut Vec<u8>) -> Result<(), NoMemory> {
        put_decimal(out, i64::from(self.x), 1)?;
        put(out, ",")?;
        put_decimal(out, i64::from(self.y), 1)
    }
}

impl Placed for Point {
    ghost at = { λ p. p };

    #[tactic(auto, unfolding(crate::specs::Shapes::place_text))]
    fn put_place(&self, out: &mut Vec<u8>) -> Result<(), NoMemory> {
        put_x(out, self)?;
        put(out, ",")?;
        put_y(out, self)
    }
}

/// Puts the x of a point.
pub fn put_x(out: &mut Vec<u8>, point: &Point) -> Result<(), NoMemory>
    ensures { OnOk result (out.new.items ≡ out.old.items ++ decimal_text point.now.x point.now.w) }
{
    put_decimal(out, point.x(), point.w())
}

/// Puts the y of a point.
pub fn put_y(out: &mut Vec<u8>, point: &Point) -> Result<(), NoMemory>
    ensures { OnOk result (out.new.items ≡ out.old.items ++ decimal_text point.now.y point.now.w) }
{
    put_decimal(out, point.y(), point.w())
}

/// A place that need be no `Point`: at `(x / w, y / w)`, where `w` is positive.
#[derive(Clone, Copy, Debug)]
pub struct Place {
    x: i64,
    y: i64,
    w: i64,
}

impl Model for Place {
    ghost use Rattle.std.specs.Prelude.{pos, ◌<ℤ◌};
    ghost use Rattle.plan_spec.specs.Vector.{Vector};

    ghost Value = { Vector };

    ghost view = { λ p. record { x = p.x; y = p.y; w = p.w } };

    ghost invariant = { λ p. pos 0 <ℤ p.w };

    ghost inverse = { λ v. record { x = v.x; y = v.y; w = v.w } };
}

impl Place {
    /// The place at `(x / w, y / w)`. The weight must be positive.
    pub fn new(x: i64, y: i64, w: i64) -> Place
        requires { pos 0 <ℤ w }
        ensures { result ≡ record { x = x; y = y; w = w } }
    {
        Place { x, y, w }
    }

    /// The place of a spot.
    pub fn of(spot: Spot) -> Place
        ensures { result ≡ spot_seen spot }
    {
        Place {
            x: i64::from(spot.x),
            y: i64::from(spot.y),
            w: 1,
        }
    }
}

impl Placed for Place {
    ghost at = { λ p. p };

    #[tactic(auto, unfolding(crate::specs::Shapes::place_text))]
    fn put_place(&self, out: &mut Vec<u8>) -> Result<(), NoMemory> {
        put_decimal(out, self.x, self.w)?;
        put(out, ",")?;
        put_decimal(out, self.y, self.w)
    }
}

/// Puts the places with a space between each and the next.
pub fn put_places<T: Placed>(out: &mut Vec<u8>, items: &[T]) -> Result<(), NoMemory>
    ensures { OnOk result (out.new.items ≡ out.old.items ++ join_by (λ p. place_text (T.at p)) (codes " ") items.now) }
{
    let [first, rest @ ..] = items else {
        return Ok(());
    };
    first.put_place(out)?;
    for item in rest {
        put(out, " ")?;
        item.put_place(out)?;
    }
    Ok(())
}

/// Puts each segment as a line from one end to the other.
pub fn put_strokes(out: &mut Vec<u8>, segments: &[Segment]) -> Result<(), NoMemory>
    ensures { OnOk result (out.new.items ≡ out.old.items ++ flat_map (λ s. stroke_text (segment_seen s)) segments.now) }
{
    for segment in segments {
        put_stroke(out, segment)?;
    }
    Ok(())
}

#[tactic(auto, unfolding(crate::specs::Shapes::stroke_text))]
fn put_stroke(out: &mut Vec<u8>, segment: &Segment) -> Result<(), NoMemory>
    ensures { OnOk result (out.new.items ≡ out.old.items ++ stroke_text (segment_seen segment.now)) }
{
    put(out, "M")?;
    segment.a.put_place(out)?;
    put(out, " ")?;
    segment.b.put_place(out)
}

/// Puts the exact triple of a point.
#[tactic(auto, unfolding(crate::specs::Shapes::triple_text))]
pub fn put_point(out: &mut Vec<u8>, point: &Point) -> Result<(), NoMemory>
    ensures { OnOk result (out.new.items ≡ out.old.items ++ triple_text point.now) }
{
    put_pair(out, point.x(), point.y())?;
    put(out, ",")?;
    put_signed(out, point.w())?;
    put(out, "]")
}

#[tactic(auto, unfolding(crate::specs::Shapes::pair_text))]
fn put_pair(out: &mut Vec<u8>, x: i64, y: i64) -> Result<(), NoMemory>
    ensures { OnOk result (out.new.items ≡ out.old.items ++ pair_text x y) }
{
    put(out, "[")?;
    put_signed(out, x)?;
    put(out, ",")?;
    put_signed(out, y)
}
