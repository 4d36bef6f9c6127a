// The elements of shapes.
ghost use Rattle.std.specs.Prelude.{◌≡◌, ◌++◌, OnOk};
ghost use Rattle.plan_grid.specs.Spot.{spots_seen};
ghost use Rattle.plan_wire.specs.Documents.{path};
ghost use Rattle.plan_wire.specs.Seen.{certificate_seen};
ghost use Rattle.plan_svg.specs.Shapes.{at_text, drawn_text, exact_at_text, exact_text, opening_text, places_text, points_text, shape_text, strokes_text, upright_text, polygon, line, robot, label};

use crate::class::Class;
use crate::place::{Place, Placed, put_places, put_point, put_strokes, put_x, put_y};
use crate::text::{put, put_escaped};
use plan_cross::Certificate;
use plan_grid::{Point, Spot};
use plan_wire::{NoMemory, put_certificate};

// Puts the name of an element and its class.
#[tactic(auto, unfolding(crate::specs::Shapes::opening_text))]
fn put_opening(out: &mut Vec<u8>, element: &str, class: Class) -> Result<(), NoMemory>
    ensures { OnOk result (out.new.items ≡ out.old.items ++ opening_text element.now class) }
{
    put(out, "<")?;
    put(out, element)?;
    put(out, " class=\"")?;
    put(out, class.name())?;
    put(out, "\"")
}

/// Puts a filled polygon.
#[tactic(auto, unfolding(crate::specs::Shapes::shape_text))]
pub fn put_polygon(out: &mut Vec<u8>, class: Class, spots: &[Spot]) -> Result<(), NoMemory>
    ensures { OnOk result (out.new.items ≡ out.old.items ++ shape_text (polygon class (spots_seen spots.now))) }
{
    put_opening(out, "polygon", class)?;
    put_points(out, spots)?;
    put(out, "/>\n")
}

/// Puts the vertices of a polygon.
#[tactic(auto, unfolding(crate::specs::Shapes::points_text))]
pub fn put_points(out: &mut Vec<u8>, spots: &[Spot]) -> Result<(), NoMemory>
    ensures { OnOk result (out.new.items ≡ out.old.items ++ points_text (spots_seen spots.now)) }
{
    put(out, " points=\"")?;
    put_spots(out, spots)?;
    put(out, "\"")
}

fn put_spots(out: &mut Vec<u8>, spots: &[Spot]) -> Result<(), NoMemory>
    ensures { OnOk result (out.new.items ≡ out.old.items ++ places_text (spots_seen spots.now)) }
{
    put_places(out, spots)
}

/// Puts the line of a path, or the segments of a chain.
#[tactic(auto, unfolding(crate::specs::Shapes::shape_text))]
pub fn put_line(out: &mut Vec<u8>, class: Class, certificate: &Certificate) -> Result<(), NoMemory>
    ensures { OnOk result (out.new.items ≡ out.old.items ++ shape_text (line class (certificate_seen certificate.now))) }
{
    put_opening(out, "path", class)?;
    put_drawn(out, certificate)?;
    put_exact(out, certificate)?;
    put(out, "/>\n")
}

#[tactic(auto, unfolding(crate::specs::Shapes::drawn_text))]
fn put_drawn(out: &mut Vec<u8>, certificate: &Certificate) -> Result<(), NoMemory>
    ensures { OnOk result (out.new.items ≡ out.old.items ++ drawn_text (certificate_seen certificate.now)) }
{
    put(out, " d=\"")?;
    put_certificate_strokes(out, certificate)?;
    put(out, "\"")
}

#[tactic(auto, unfolding(crate::specs::Shapes::exact_text))]
fn put_exact(out: &mut Vec<u8>, certificate: &Certificate) -> Result<(), NoMemory>
    ensures { OnOk result (out.new.items ≡ out.old.items ++ exact_text (certificate_seen certificate.now)) }
{
    put(out, " data-certificate='")?;
    put_certificate(out, certificate)?;
    put(out, "'")
}

// Puts the strokes of a path, from point to point, or of a chain, each by itself.
#[tactic(auto, unfolding(crate::specs::Shapes::strokes_text))]
fn put_certificate_strokes(out: &mut Vec<u8>, certificate: &Certificate) -> Result<(), NoMemory>
    ensures { OnOk result (out.new.items ≡ out.old.items ++ strokes_text (certificate_seen certificate.now)) }
{
    match certificate {
        Certificate::Path(path) => put_way(out, &path.points),
        Certificate::Blocked(chain) => put_strokes(out, &chain.segments),
    }
}

#[tactic(auto, unfolding(crate::specs::Shapes::strokes_text))]
fn put_way(out: &mut Vec<u8>, points: &[Point]) -> Result<(), NoMemory>
    ensures { OnOk result (out.new.items ≡ out.old.items ++ strokes_text (path points.now)) }
{
    if points.is_empty() {
        return Ok(());
    }
    put(out, "M")?;
    put_places(out, points)
}

/// Puts the robot, placed at a point.
#[tactic(auto, unfolding(crate::specs::Shapes::shape_text))]
pub fn put_robot(out: &mut Vec<u8>, class: Class, at: &Point) -> Result<(), NoMemory>
    ensures { OnOk result (out.new.items ≡ out.old.items ++ shape_text (robot class at.now)) }
{
    put_opening(out, "use", class)?;
    put_at(out, at)?;
    put_exact_at(out, at)?;
    put(out, "/>\n")
}

#[tactic(auto, unfolding(crate::specs::Shapes::at_text))]
fn put_at(out: &mut Vec<u8>, at: &Point) -> Result<(), NoMemory>
    ensures { OnOk result (out.new.items ≡ out.old.items ++ at_text at.now) }
{
    put(out, " href=\"#robot\" x=\"")?;
    put_x(out, at)?;
    put(out, "\" y=\"")?;
    put_y(out, at)
}

#[tactic(auto, unfolding(crate::specs::Shapes::exact_at_text))]
fn put_exact_at(out: &mut Vec<u8>, at: &Point) -> Result<(), NoMemory>
    ensures { OnOk result (out.new.items ≡ out.old.items ++ exact_at_text at.now) }
{
    put(out, "\" data-at=\"")?;
    put_point(out, at)?;
    put(out, "\"")
}

/// Puts a text, in the middle of a place.
#[tactic(auto, unfolding(crate::specs::Shapes::shape_text))]
pub fn put_label(out: &mut Vec<u8>, class: Class, at: Place, text: &str) -> Result<(), NoMemory>
    ensures { OnOk result (out.new.items ≡ out.old.items ++ shape_text (label class at text.now)) }
{
    put_opening(out, "text", class)?;
    put_upright(out, at)?;
    put_escaped(out, text)?;
    put(out, "</text>\n")
}

// Puts where a text stands, upright although the y axis is turned up.
#[tactic(auto, unfolding(crate::specs::Shapes::upright_text))]
fn put_upright(out: &mut Vec<u8>, at: Place) -> Result<(), NoMemory>
    ensures { OnOk result (out.new.items ≡ out.old.items ++ upright_text at) }
{
    put(out, " dy=\".35em\" transform=\"translate(")?;
    at.put_place(out)?;
    put(out, ") scale(1,-1)\">")
}
