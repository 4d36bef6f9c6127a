// Certificates.
ghost use Rattle.std.specs.Prelude.{◌≡◌, option_map};
ghost use Rattle.plan_spec.specs.Vector.{Vector};
ghost use Rattle.plan_spec.specs.Segment as placement;
ghost use Rattle.plan_cross.specs.Segment.{segment_seen};
ghost use Rattle.plan_wire.specs.Documents as definition;
ghost use Rattle.serde_json.specs.View.{view};
ghost use Rattle.plan_wire.specs.Place.{path_of};
ghost use Rattle.plan_wire.specs.Reading.{integer, list_of_exactly};
ghost use Rattle.plan_wire.specs.Seen.{certificate_seen, ReadsAs};

use super::fault::WireFault;
use super::forms::{AnyNumber, Form, elements, member, one_of};
use super::numbers::integer_at;
use super::place::Place;
use plan_cross::{Certificate, Chain, Polyline, Segment};
use plan_grid::Point;
use serde_json::Value;
use std::alloc::Global;

fn three(alloc: Global, place: &Place, v: &Value) -> Result<[i64; 3], WireFault>
    ensures { ReadsAs (λ z. z) (list_of_exactly 3 integer (path_of place.now) (view v.now)) result }
{
    let [a, b, c] = elements(alloc, place, v)? else {
        return Err(WireFault::form(alloc, place));
    };
    let a = integer_at(alloc, place, 0, a)?;
    let b = integer_at(alloc, place, 1, b)?;
    let c = integer_at(alloc, place, 2, c)?;
    Ok([a, b, c])
}

fn six(alloc: Global, place: &Place, v: &Value) -> Result<[i64; 6], WireFault>
    ensures { ReadsAs (λ z. z) (list_of_exactly 6 integer (path_of place.now) (view v.now)) result }
{
    let [a, b, c, d, e, f] = elements(alloc, place, v)? else {
        return Err(WireFault::form(alloc, place));
    };
    let a = integer_at(alloc, place, 0, a)?;
    let b = integer_at(alloc, place, 1, b)?;
    let c = integer_at(alloc, place, 2, c)?;
    let d = integer_at(alloc, place, 3, d)?;
    let e = integer_at(alloc, place, 4, e)?;
    let f = integer_at(alloc, place, 5, f)?;
    Ok([a, b, c, d, e, f])
}

// The point of three numbers, where they are in range.
fn point(x: i64, y: i64, w: i64) -> Option<Point>
    ensures { result ≡ definition.point_at x y w }
{
    Point::new(x, y, w)
}

/// Three whole numbers x, y, w, which need not be in lowest terms.
pub(crate) struct PointForm;

impl Form for PointForm {
    type Read = Point;

    ghost Seen = { Vector };

    ghost seen = { λ p. p };

    ghost reads = { definition.point_of };

    #[tactic(auto, unfolding(crate::specs::Documents::point_of))]
    fn read(alloc: Global, place: &Place, v: &Value) -> Result<Point, WireFault> {
        let [x, y, w] = three(alloc, place, v)?;
        match point(x, y, w) {
            Some(p) => Ok(p),
            None => Err(WireFault::range(alloc, place)),
        }
    }
}

// The segment of two points, where both are in range.
fn segment(a: Option<Point>, b: Option<Point>) -> Option<Segment>
    ensures { option_map segment_seen result ≡ definition.segment_at a b }
{
    let a = a?;
    let b = b?;
    Some(Segment { a, b })
}

/// Six whole numbers: x, y, w of one end and then of the other.
pub(crate) struct SegmentForm;

impl Form for SegmentForm {
    type Read = Segment;

    ghost Seen = { placement.Segment };

    ghost seen = { segment_seen };

    ghost reads = { definition.segment_of };

    #[tactic(auto, unfolding(crate::specs::Documents::segment_of))]
    fn read(alloc: Global, place: &Place, v: &Value) -> Result<Segment, WireFault> {
        let [x1, y1, w1, x2, y2, w2] = six(alloc, place, v)?;
        match segment(point(x1, y1, w1), point(x2, y2, w2)) {
            Some(s) => Ok(s),
            None => Err(WireFault::range(alloc, place)),
        }
    }
}

/// An object with exactly one of `path` and `chain`.
pub(crate) struct CertificateForm;

impl Form for CertificateForm {
    type Read = Certificate;

    ghost Seen = { definition.Certificate };

    ghost seen = { certificate_seen };

    ghost reads = { definition.certificate_of };

    #[tactic(auto, unfolding(crate::specs::Documents::certificate_of))]
    fn read(alloc: Global, place: &Place, v: &Value) -> Result<Certificate, WireFault> {
        if one_of(alloc, place, "path", "chain", v)? {
            let points = member::<AnyNumber<PointForm>>(alloc, place, "path", v)?;
            Ok(Certificate::Path(Polyline { points }))
        } else {
            let segments = member::<AnyNumber<SegmentForm>>(alloc, place, "chain", v)?;
            Ok(Certificate::Blocked(Chain { segments }))
        }
    }
}
