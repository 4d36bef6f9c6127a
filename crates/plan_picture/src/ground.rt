// The shapes of a floor and of what stands on it.
ghost use Rattle.std.specs.Prelude.{◌≡◌, ◌++◌, map, length, OnOk};
ghost use Rattle.plan_top.specs.First.{obstacle_of};
ghost use Rattle.plan_picture.specs.Floor as spec;
ghost use Rattle.plan_picture.specs.Floor.{frame_shape, ground_shapes, obstacle_shape, rectangle, name_shapes};
ghost use Rattle.plan_svg.specs.Shapes.{polygon, shape_text, shapes_text};

use plan_convex::Convex;
use plan_grid::{Frame, Spot};
use plan_svg::{Class, Place, put_label, put_polygon};
use plan_wire::{NoMemory, Shape as Obstacle};
use std::alloc::Global;

/// Puts the floor, the room, and the sums.
pub fn put_ground(
    out: &mut Vec<u8>,
    frame: Frame,
    room: Frame,
    sums: &[Convex],
) -> Result<(), NoMemory>
    ensures { OnOk result (out.new.items ≡ out.old.items ++ shapes_text (ground_shapes frame room sums.now)) }
{
    put_rectangle(out, Class::Floor, frame)?;
    put_room(out, room)?;
    for sum in sums {
        put_polygon(out, Class::Sum, sum.spots())?;
    }
    Ok(())
}

// Puts the room, where it has points.
fn put_room(out: &mut Vec<u8>, room: Frame) -> Result<(), NoMemory>
    ensures { OnOk result (out.new.items ≡ out.old.items ++ shapes_text (spec.room_shapes room)) }
{
    if room.low.x > room.high.x || room.low.y > room.high.y {
        return Ok(());
    }
    put_rectangle(out, Class::Room, room)
}

/// Puts the obstacles, where the number `touched` is that of one which is touched.
pub fn put_obstacles(
    out: &mut Vec<u8>,
    touched: Option<u32>,
    obstacles: &[Obstacle],
) -> Result<(), NoMemory>
    ensures { OnOk result (out.new.items ≡ out.old.items
        ++ shapes_text (map (obstacle_shape touched) (map obstacle_of obstacles.now))) }
{
    for obstacle in obstacles {
        put_obstacle(out, touched, obstacle)?;
    }
    Ok(())
}

fn put_obstacle(
    out: &mut Vec<u8>,
    touched: Option<u32>,
    obstacle: &Obstacle,
) -> Result<(), NoMemory>
    ensures { OnOk result (out.new.items ≡ out.old.items ++ shape_text (obstacle_shape touched (obstacle_of obstacle.now))) }
{
    let class = either(
        touched,
        obstacle.id,
        Class::TouchedObstacle,
        Class::Obstacle,
    );
    put_polygon(out, class, obstacle.spots.as_slice())
}

/// Puts the frame, which is touched where the number `touched` is 0.
pub fn put_frame(out: &mut Vec<u8>, touched: Option<u32>, frame: Frame) -> Result<(), NoMemory>
    ensures { OnOk result (out.new.items ≡ out.old.items ++ shape_text (frame_shape touched frame)) }
{
    let class = either(touched, 0, Class::TouchedFrame, Class::Frame);
    put_rectangle(out, class, frame)
}

// The class of what has the number, by whether it is touched.
fn either(touched: Option<u32>, number: u32, yes: Class, no: Class) -> Class
    ensures { result ≡ spec.either touched number yes no }
{
    match touched {
        Some(who) if who == number => yes,
        _ => no,
    }
}

fn put_rectangle(out: &mut Vec<u8>, class: Class, frame: Frame) -> Result<(), NoMemory>
    ensures { OnOk result (out.new.items ≡ out.old.items ++ shape_text (rectangle class frame)) }
{
    let (low, high) = (frame.low, frame.high);
    let corners = [
        low,
        Spot {
            x: high.x,
            y: low.y,
        },
        high,
        Spot {
            x: low.x,
            y: high.y,
        },
    ];
    put_polygon(out, class, &corners)
}

/// Puts the ids of the obstacles, each in its place.
pub fn put_names(
    alloc: Global,
    out: &mut Vec<u8>,
    obstacles: &[Obstacle],
    places: &[Place],
) -> Result<(), NoMemory>
    requires { length obstacles.now ≡ length places.now }
    ensures { OnOk result (out.new.items ≡ out.old.items
        ++ shapes_text (name_shapes (map obstacle_of obstacles.now) places.now)) }
{
    for at in 0..obstacles.len() {
        put_name(alloc, out, obstacles[at].id, places[at])?;
    }
    Ok(())
}

fn put_name(alloc: Global, out: &mut Vec<u8>, id: u32, place: Place) -> Result<(), NoMemory>
    ensures { OnOk result (out.new.items ≡ out.old.items ++ shape_text (spec.name_shape id place)) }
{
    let text = format!(in alloc; "{id}")?;
    put_label(out, Class::Id, place, text.as_str())
}
