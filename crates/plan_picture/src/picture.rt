// The picture of a floor, with what is shown on it.
ghost use Rattle.std.specs.Prelude.{◌≡◌, ◌++◌, All, IfOk, OnOk, map};
ghost use Rattle.plan_grid.specs.Spot.{IsWithin};
ghost use Rattle.plan_wire.specs.Bounds.{QueryFits, ShapeFits};
ghost use Rattle.plan_top.specs.First.{obstacle_of};
ghost use Rattle.plan_svg.specs.Page.{IsPageBox};
ghost use Rattle.plan_picture.specs.Picture.{box_of, caption_shape, end_shapes, with_obstacles};
ghost use Rattle.plan_picture.specs.Seen.{IsFloor, IsFloorPut, IsPictureOf, given_seen, shown_seen};
ghost use Rattle.plan_svg.specs.Shapes.{shape_text, shapes_text};

use crate::floor::Floor;
use crate::ground::{put_frame, put_ground, put_names, put_obstacles};
use crate::shown::{Shown, put_shown};
use plan_cross::Query;
use plan_grid::{Frame, Point, Spot};
use plan_svg::{Class, caption_at, mark_at, put_head, put_label, put_robot, put_tail, with_spots};
use plan_wire::{NoMemory, Shape as Obstacle};
use std::alloc::Global;

/// The picture of a floor and a query, with what is shown.
pub fn picture(
    alloc: Global,
    floor: &Floor,
    query: Query,
    shown: &Shown,
) -> Result<Vec<u8>, NoMemory>
    requires floor { IsFloor floor.now }
    requires query { QueryFits query }
    ensures { IfOk result (λ text. IsPictureOf floor.now query (shown_seen shown.now) text.items) }
{
    let page = box_of(floor, query);
    let mut out = Vec::new(alloc);
    put_head(&mut out, page, floor.robot.as_slice(), shown.words.as_str())?;
    put_floor(&mut out, floor, shown.touched)?;
    put_shown(&mut out, shown)?;
    put_ends(&mut out, page, query)?;
    put_names(
        alloc,
        &mut out,
        floor.obstacles.as_slice(),
        floor.names.as_slice(),
    )?;
    put_caption(&mut out, page, shown.words.as_str())?;
    put_tail(&mut out)?;
    Ok(out)
}

// The least box round the frame, the obstacles, and the robot at start and goal.
fn box_of(floor: &Floor, query: Query) -> Frame
    requires floor { IsFloor floor.now }
    requires query { QueryFits query }
    ensures value { result ≡ box_of (given_seen floor.now) query }
    ensures fits { IsPageBox result }
{
    let standing = with_obstacles(floor.frame, floor.obstacles.as_slice());
    let started = with_spots(standing, query.start, floor.robot.as_slice());
    with_spots(started, query.goal, floor.robot.as_slice())
}

fn with_obstacles(frame: Frame, obstacles: &[Obstacle]) -> Frame
    requires { All ShapeFits obstacles.now }
    ensures value { result ≡ with_obstacles frame (map obstacle_of obstacles.now) }
    ensures fits { IsPageBox frame → IsPageBox result }
{
    let mut frame = frame;
    for obstacle in obstacles {
        frame = with_spots(frame, Spot { x: 0, y: 0 }, obstacle.spots.as_slice());
    }
    frame
}

fn put_floor(out: &mut Vec<u8>, floor: &Floor, touched: Option<u32>) -> Result<(), NoMemory>
    requires { IsFloor floor.now }
    ensures { OnOk result (IsFloorPut floor.now touched out.old.items out.new.items) }
{
    let scene = floor.stand.scene();
    put_ground(out, floor.frame, scene.room(), scene.sums())?;
    put_obstacles(out, touched, floor.obstacles.as_slice())?;
    put_frame(out, touched, floor.frame)
}

// Puts the robot at the goal and at the start, and their names.
fn put_ends(out: &mut Vec<u8>, page: Frame, query: Query) -> Result<(), NoMemory>
    requires page { IsPageBox page }
    requires query { QueryFits query }
    ensures { OnOk result (out.new.items ≡ out.old.items ++ shapes_text (end_shapes page query)) }
{
    put_robot(out, Class::Goal, &Point::of(query.goal))?;
    put_robot(out, Class::Start, &Point::of(query.start))?;
    put_label(out, Class::Mark, mark_at(page, query.goal), "goal")?;
    put_label(out, Class::Mark, mark_at(page, query.start), "start")
}

fn put_caption(out: &mut Vec<u8>, page: Frame, words: &str) -> Result<(), NoMemory>
    requires { IsPageBox page }
    ensures { OnOk result (out.new.items ≡ out.old.items ++ shape_text (caption_shape page words.now)) }
{
    put_label(out, Class::Caption, caption_at(page), words)
}
