ghost use Rattle.std.specs.Prelude.{◌≡◌, ◌++◌, IfOk, OnOk};
ghost use Rattle.std.specs.List.{filter};
ghost use Rattle.plan_scene.specs.Scene.{obstacle, with_obstacle, without, is_lesser, is_greater};

use crate::shape::Shape;
use std::alloc::{AllocError, Global};
use std::marker::Model;
use std::sync::Arc;

/// An obstacle: its id, and its shape, which scenes share.
#[derive(Drop)]
pub struct Obstacle {
    id: u32,
    shape: Arc<Shape>,
}

impl Model for Obstacle {
    ghost use Rattle.std.specs.Arc.{arc_value};
    ghost use Rattle.plan_scene.specs.Scene.{Obstacle};

    ghost Value = { Obstacle };

    ghost view = { λ o. record { id = o.id; spots = arc_value o.shape } };
}

impl Obstacle {
    /// The obstacle of this id and this shape.
    pub fn of(alloc: Global, id: u32, shape: Shape) -> Result<Obstacle, AllocError>
        ensures { IfOk result (λ o. o ≡ obstacle id shape) }
    {
        let shape = Arc::new(alloc, shape)?;
        Ok(Obstacle { id, shape })
    }

    /// The id.
    pub fn id(&self) -> u32
        ensures { result ≡ self.now.id }
    {
        self.id
    }

    /// The shape.
    pub fn shape(&self) -> &Shape
        ensures { result.now ≡ self.now.spots }
    {
        &self.shape
    }

    /// The same obstacle, for another scene.
    pub fn share(&self) -> Result<Obstacle, AllocError>
        ensures { IfOk result (λ o. o ≡ self.now) }
    {
        let shape = Arc::try_clone(&self.shape)?;
        Ok(Obstacle { id: self.id, shape })
    }
}

/// The obstacles of lesser ids, the added one, and those of greater ids.
pub fn with_added(
    alloc: Global,
    obstacles: &[Obstacle],
    added: Obstacle,
) -> Result<Vec<Obstacle>, AllocError>
    ensures { IfOk result (λ v. v.items ≡ with_obstacle added obstacles.now) }
{
    let id = added.id();
    let mut list = Vec::with_capacity(alloc, obstacles.len() + 1)?;
    push_lesser(&mut list, obstacles, id)?;
    list.push(added)?;
    push_greater(&mut list, obstacles, id)?;
    Ok(list)
}

/// The obstacles of other ids.
pub fn without_id(
    alloc: Global,
    obstacles: &[Obstacle],
    id: u32,
) -> Result<Vec<Obstacle>, AllocError>
    ensures { IfOk result (λ v. v.items ≡ without id obstacles.now) }
{
    let mut list = Vec::with_capacity(alloc, obstacles.len())?;
    push_lesser(&mut list, obstacles, id)?;
    push_greater(&mut list, obstacles, id)?;
    Ok(list)
}

// Puts the obstacles of lesser ids behind those of the list.
fn push_lesser(list: &mut Vec<Obstacle>, obstacles: &[Obstacle], id: u32) -> Result<(), AllocError>
    ensures { OnOk result (list.new.items ≡ list.old.items ++ filter (is_lesser id) obstacles.now) }
{
    for obstacle in obstacles {
        if obstacle.id() < id {
            list.push(obstacle.share()?)?;
        }
    }
    Ok(())
}

// Puts the obstacles of greater ids behind those of the list.
fn push_greater(list: &mut Vec<Obstacle>, obstacles: &[Obstacle], id: u32) -> Result<(), AllocError>
    ensures { OnOk result (list.new.items ≡ list.old.items ++ filter (is_greater id) obstacles.now) }
{
    for obstacle in obstacles {
        if id < obstacle.id() {
            list.push(obstacle.share()?)?;
        }
    }
    Ok(())
}
