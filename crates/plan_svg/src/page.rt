// The page: its box, its head and its tail.
ghost use Rattle.std.specs.Prelude.{◌≡◌, ◌++◌, pos, neg_ℤ, ◌+ℤ◌, ◌<ℤ◌, ◌≤ℤ◌, All, OnOk};
ghost use Rattle.plan_grid.specs.Spot.{IsWithin};
ghost use Rattle.plan_svg.specs.Page as spec;
ghost use Rattle.plan_svg.specs.Page.{IsPageBox, caption_at, corner_text, extent_text, front_text, head_text, mark_at, measures_text, robot_text, size, title_text, view_text, with_spot, with_spots};

use crate::decimal::put_decimal;
use crate::place::Place;
use crate::shape::put_points;
use crate::text::{put, put_escaped};
use plan_grid::{Frame, MOST_COORDINATE, MOST_CORNER, Spot};
use plan_wire::NoMemory;

// How shapes look, by their class.
const STYLE: &str = "<style>
svg{background:#fff;font-family:sans-serif}
polygon,path{stroke-linejoin:round;stroke-linecap:round}
.floor,.sum{fill:#e2e2e2}
.room{fill:#fff;stroke:#999;stroke-width:.06em}
.obstacle{fill:#777}
.frame{fill:none;stroke:#333;stroke-width:.15em}
.obstacle.fault{fill:#d55e00}
.frame.fault{stroke:#d55e00;stroke-width:.4em}
.path{fill:none;stroke:#0072b2;stroke-width:.18em}
.chain{fill:none;stroke:#aa3377;stroke-width:.35em}
.wrong{fill:none;stroke:#d55e00;stroke-width:.6em}
.step{fill:#0072b2;fill-opacity:.08;stroke:#0072b2;stroke-opacity:.3;stroke-width:.06em}
.start{fill:#0072b2;fill-opacity:.7}
.goal{fill:#0072b2;fill-opacity:.25;stroke:#0072b2;stroke-width:.1em}
circle{fill:#0072b2;fill-opacity:1;stroke:none}
text{text-anchor:middle;fill:#222;stroke:#fff;stroke-width:.25em;stroke-linejoin:round;paint-order:stroke}
.caption{font-size:1.4em}
.mark{font-style:italic}
@supports (vector-effect:non-scaling-stroke){
polygon,path{vector-effect:non-scaling-stroke}
.room,.step{stroke-width:1px}
.goal{stroke-width:2px}
.frame{stroke-width:3px}
.path{stroke-width:4px}
.chain{stroke-width:7px}
.wrong{stroke-width:12px}
.frame.fault{stroke-width:8px}
}
</style>
";

/// The least box round the box and the spots, moved by `at`. The coordinates of `at` are at most 2046 in absolute value,
/// those of the spots 1023.
pub fn with_spots(frame: Frame, at: Spot, spots: &[Spot]) -> Frame
    requires at { IsWithin MOST_COORDINATE at }
    requires spots { All (IsWithin MOST_CORNER) spots.now }
    ensures value { result ≡ with_spots frame at spots.now }
    ensures fits { IsPageBox frame → IsPageBox result }
{
    let mut frame = frame;
    for spot in spots {
        frame = with_spot(frame, spot.plus(at));
    }
    frame
}

// The least box round the box and the spot.
fn with_spot(frame: Frame, spot: Spot) -> Frame
    ensures { result ≡ with_spot frame spot }
{
    Frame {
        low: frame.low.least(spot),
        high: frame.high.greatest(spot),
    }
}

/// The middle of the caption: above the middle of the box.
pub fn caption_at(frame: Frame) -> Place
    requires { IsPageBox frame }
    ensures { result ≡ caption_at frame }
{
    Place::new(20 * across(frame), caption_y(frame), 40)
}

/// A little below a spot with coordinates of at most 2046 in absolute value.
pub fn mark_at(frame: Frame, spot: Spot) -> Place
    requires frame { IsPageBox frame }
    requires spot { IsWithin MOST_COORDINATE spot }
    ensures { result ≡ mark_at frame spot }
{
    Place::new(32 * i64::from(spot.x), mark_y(frame, spot), 32)
}

/// Puts all before the shapes: the box, the title, the style, and the robot.
#[tactic(auto, unfolding(crate::specs::Page::head_text))]
pub fn put_head(
    out: &mut Vec<u8>,
    frame: Frame,
    robot: &[Spot],
    title: &str,
) -> Result<(), NoMemory>
    requires { IsPageBox frame }
    ensures { OnOk result (out.new.items ≡ out.old.items ++ head_text frame robot.now title.now) }
{
    put_front(out, frame, title)?;
    put(out, STYLE)?;
    put_defined(out, robot)?;
    put(out, "<g transform=\"scale(1,-1)\">\n")
}

#[tactic(auto, unfolding(crate::specs::Page::front_text))]
fn put_front(out: &mut Vec<u8>, frame: Frame, title: &str) -> Result<(), NoMemory>
    requires { IsPageBox frame }
    ensures { OnOk result (out.new.items ≡ out.old.items ++ front_text frame title.now) }
{
    put_view(out, frame)?;
    put_measures(out, frame)?;
    put_title(out, title)
}

#[tactic(auto, unfolding(crate::specs::Page::view_text))]
fn put_view(out: &mut Vec<u8>, frame: Frame) -> Result<(), NoMemory>
    requires { IsPageBox frame }
    ensures { OnOk result (out.new.items ≡ out.old.items ++ view_text frame) }
{
    put(out, "<svg xmlns=\"http://www.w3.org/2000/svg\" viewBox=\"")?;
    put_corner(out, frame)?;
    put(out, " ")?;
    put_extent(out, frame)
}

// Puts the left and the upper side of the view.
#[tactic(auto, unfolding(crate::specs::Page::corner_text))]
fn put_corner(out: &mut Vec<u8>, frame: Frame) -> Result<(), NoMemory>
    requires { IsPageBox frame }
    ensures { OnOk result (out.new.items ≡ out.old.items ++ corner_text frame) }
{
    put_decimal(out, left(frame), 40)?;
    put(out, " ")?;
    put_decimal(out, upper(frame), 40)
}

// Puts its width and its height.
#[tactic(auto, unfolding(crate::specs::Page::extent_text))]
fn put_extent(out: &mut Vec<u8>, frame: Frame) -> Result<(), NoMemory>
    requires { IsPageBox frame }
    ensures { OnOk result (out.new.items ≡ out.old.items ++ extent_text frame) }
{
    put_decimal(out, view_width(frame), 40)?;
    put(out, " ")?;
    put_decimal(out, view_height(frame), 40)
}

// Puts the width and the height on a screen, and the height of letters.
#[tactic(auto, unfolding(crate::specs::Page::measures_text))]
fn put_measures(out: &mut Vec<u8>, frame: Frame) -> Result<(), NoMemory>
    requires { IsPageBox frame }
    ensures { OnOk result (out.new.items ≡ out.old.items ++ measures_text frame) }
{
    put(out, "\" width=\"880\" height=\"")?;
    put_decimal(out, 20 * view_height(frame), size(frame))?;
    put(out, "\" font-size=\"")?;
    put_decimal(out, size(frame), 40)
}

#[tactic(auto, unfolding(crate::specs::Page::title_text))]
fn put_title(out: &mut Vec<u8>, title: &str) -> Result<(), NoMemory>
    ensures { OnOk result (out.new.items ≡ out.old.items ++ title_text title.now) }
{
    put(out, "\">\n<title>")?;
    put_escaped(out, title)?;
    put(out, "</title>\n")
}

// Puts the robot's polygon with its point of reference, which shapes name.
#[tactic(auto, unfolding(crate::specs::Page::robot_text))]
fn put_defined(out: &mut Vec<u8>, robot: &[Spot]) -> Result<(), NoMemory>
    ensures { OnOk result (out.new.items ≡ out.old.items ++ robot_text robot.now) }
{
    put(out, "<defs><g id=\"robot\"><polygon")?;
    put_points(out, robot)?;
    put(out, "/><circle r=\".2em\"/></g></defs>\n")
}

// The left side of the view, in fortieths.
#[tactic(auto, unfolding(crate::specs::Page::left))]
fn left(frame: Frame) -> i64
    requires { IsPageBox frame }
    ensures value { result ≡ spec.left frame }
    ensures least { neg_ℤ (pos 1000000) ≤ℤ result }
    ensures most { result ≤ℤ pos 1000000 }
{
    20 * across(frame) - 22 * size(frame)
}

// Its upper side, with y downwards.
#[tactic(auto, unfolding(crate::specs::Page::upper))]
fn upper(frame: Frame) -> i64
    requires { IsPageBox frame }
    ensures value { result ≡ spec.upper frame }
    ensures least { neg_ℤ (pos 1000000) ≤ℤ result }
    ensures most { result ≤ℤ pos 1000000 }
{
    0 - (40 * top(frame) + 3 * size(frame))
}

// Its width.
#[tactic(auto, unfolding(crate::specs::Page::view_width))]
fn view_width(frame: Frame) -> i64
    requires { IsPageBox frame }
    ensures value { result ≡ spec.view_width frame }
    ensures least { neg_ℤ (pos 1000000) ≤ℤ result }
    ensures most { result ≤ℤ pos 1000000 }
{
    44 * size(frame)
}

// Its height.
#[tactic(auto, unfolding(crate::specs::Page::view_height))]
fn view_height(frame: Frame) -> i64
    requires { IsPageBox frame }
    ensures value { result ≡ spec.view_height frame }
    ensures least { neg_ℤ (pos 1000000) ≤ℤ result }
    ensures most { result ≤ℤ pos 1000000 }
{
    40 * height(frame) + 5 * size(frame)
}

#[tactic(auto, unfolding(crate::specs::Page::caption_y))]
fn caption_y(frame: Frame) -> i64
    requires { IsPageBox frame }
    ensures value { result ≡ spec.caption_y frame }
    ensures least { neg_ℤ (pos 1000000) ≤ℤ result }
    ensures most { result ≤ℤ pos 1000000 }
{
    40 * top(frame) + 2 * size(frame)
}

#[tactic(auto, unfolding(crate::specs::Page::mark_y))]
fn mark_y(frame: Frame, spot: Spot) -> i64
    requires frame { IsPageBox frame }
    requires spot { IsWithin MOST_COORDINATE spot }
    ensures value { result ≡ spec.mark_y frame spot }
    ensures least { neg_ℤ (pos 1000000) ≤ℤ result }
    ensures most { result ≤ℤ pos 1000000 }
{
    32 * i64::from(spot.y) - size(frame)
}

// The longer side of the box.
fn size(frame: Frame) -> i64
    requires { IsPageBox frame }
    ensures value { result ≡ size frame }
    ensures least { pos 0 <ℤ result }
    ensures most { result ≤ℤ pos 6138 }
{
    width(frame).max(height(frame))
}

fn width(frame: Frame) -> i64
    requires { IsPageBox frame }
    ensures value { result ≡ spec.width frame }
    ensures least { pos 0 <ℤ result }
    ensures most { result ≤ℤ pos 6138 }
{
    i64::from(frame.high.x) - i64::from(frame.low.x)
}

fn height(frame: Frame) -> i64
    requires { IsPageBox frame }
    ensures value { result ≡ spec.height frame }
    ensures least { pos 0 <ℤ result }
    ensures most { result ≤ℤ pos 6138 }
{
    i64::from(frame.high.y) - i64::from(frame.low.y)
}

// Twice the x of its middle.
fn across(frame: Frame) -> i64
    requires { IsPageBox frame }
    ensures value { result ≡ frame.low.x +ℤ frame.high.x }
    ensures least { neg_ℤ (pos 6138) ≤ℤ result }
    ensures most { result ≤ℤ pos 6138 }
{
    i64::from(frame.low.x) + i64::from(frame.high.x)
}

// The y of its upper side.
fn top(frame: Frame) -> i64
    requires { IsPageBox frame }
    ensures value { result ≡ frame.high.y }
    ensures least { neg_ℤ (pos 3069) ≤ℤ result }
    ensures most { result ≤ℤ pos 3069 }
{
    i64::from(frame.high.y)
}

/// Puts all behind the shapes.
pub fn put_tail(out: &mut Vec<u8>) -> Result<(), NoMemory>
    ensures { OnOk result (out.new.items ≡ out.old.items ++ spec.tail_text) }
{
    put(out, "</g>\n</svg>\n")
}
