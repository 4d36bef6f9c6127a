// The floor.
ghost use Rattle.std.specs.Prelude.{◌≡◌, ◌≤◌, ◌<◌, ◌+◌, pos, map, IfOk, OnOk};
ghost use Rattle.plan_grid.specs.Frame.{frame_seen};
ghost use Rattle.plan_grid.specs.Spot.{spot_seen, spots_seen};
ghost use Rattle.plan_wire.specs.Bounds.{FrameFits, SpotsFit, ShapeFits, AtMost};
ghost use Rattle.plan_wire.specs.Documents.{most_bytes};
ghost use Rattle.plan_wire.specs.Seen.{shape_seen};
ghost use Rattle.plan_demo.specs.Demo as demo;
ghost use Rattle.plan_demo.specs.Demo.{box, corner, rectangle, obstacles, after_obstacles};
ghost use Rattle.plan_demo.specs.Draws.{after};

use crate::draws::Draws;
use crate::no_memory::NoMemory;
use plan_grid::{Frame, Spot};
use plan_wire::Shape;
use std::alloc::{AllocError, Global};

/// The frame of every demonstration.
pub fn frame() -> Frame
    ensures fits { FrameFits result }
    ensures seen { frame_seen result ≡ demo.frame }
{
    Frame {
        low: corner(0, 0),
        high: corner(1000, 1000),
    }
}

/// The robot of every demonstration.
pub fn robot(alloc: Global) -> Result<Vec<Spot>, NoMemory>
    ensures fits { IfOk result (λ robot. SpotsFit 16 robot.items) }
    ensures seen { IfOk result (λ robot. spots_seen robot.items ≡ demo.robot) }
{
    let robot = rectangle(alloc, 0, 0, 8, 8)?;
    Ok(robot)
}

impl Draws {
    /// So many obstacles, with ids from 1 on.
    pub fn obstacles(&mut self, alloc: Global, count: u32) -> Result<Vec<Shape>, NoMemory>
        requires { count ≤ 64 }
        ensures fits { IfOk result (λ shapes. AtMost most_bytes ShapeFits shapes.items) }
        ensures seen { IfOk result (λ shapes. map shape_seen shapes.items ≡ obstacles count 1 self.old) }
        ensures state { OnOk result (self.new ≡ after_obstacles count self.old) }
    {
        let mut shapes = Vec::with_capacity(alloc, count as usize)?;
        for at in 0..count {
            let spots = self.rectangle(alloc)?;
            shapes
                .push(Shape { id: at + 1, spots })
                .map_err(|_| NoMemory)?;
        }
        Ok(shapes)
    }

    /// A rectangle.
    #[tactic(auto, unfolding(crate::specs::Demo::rectangle))]
    pub(crate) fn rectangle(&mut self, alloc: Global) -> Result<Vec<Spot>, AllocError>
        ensures fits { IfOk result (λ spots. SpotsFit 32 spots.items) }
        ensures seen { IfOk result (λ spots. spots_seen spots.items ≡ rectangle self.old) }
        ensures state { self.new ≡ after 4 self.old }
    {
        let x = 20 + self.below(900);
        let y = 20 + self.below(900);
        let width = 10 + self.below(60);
        let height = 10 + self.below(60);
        rectangle(alloc, x, y, width, height)
    }
}

// The rectangle with its lower left corner there.
fn rectangle(
    alloc: Global,
    x: u32,
    y: u32,
    width: u32,
    height: u32,
) -> Result<Vec<Spot>, AllocError>
    requires right { x + width ≤ 1023 }
    requires top { y + height ≤ 1023 }
    ensures fits { IfOk result (λ spots. SpotsFit 16 spots.items) }
    ensures seen { IfOk result (λ spots. spots_seen spots.items ≡ box x y width height) }
{
    let corners = [
        corner(x, y),
        corner(x + width, y),
        corner(x + width, y + height),
        corner(x, y + height),
    ];
    Vec::from_slice(alloc, &corners)
}

/// A corner or a spot in the frame.
pub(crate) fn corner(x: u32, y: u32) -> Spot
    requires x { x ≤ 1023 }
    requires y { y ≤ 1023 }
    ensures { result ≡ record { x = pos x; y = pos y } }
{
    Spot {
        x: x as i32,
        y: y as i32,
    }
}
