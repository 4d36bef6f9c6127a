ghost use Rattle.std.specs.Prelude.{◌≡◌, IfOk};
ghost use Rattle.plan_poly.specs.Polygon.{IsPolygon};
ghost use Rattle.plan_scene.specs.Shape.{IsCut};

use plan_grid::Spot;
use plan_poly::Polygon;
use plan_tri::{NoMemory, Triangle, Triangles, triangulate};
use std::alloc::Global;
use std::marker::Model;

/// A simple polygon with its triangles. Contracts see its vertices.
#[derive(Drop)]
pub struct Shape {
    polygon: Polygon,
    triangles: Triangles,
}

impl Model for Shape {
    ghost use Rattle.std.specs.Prelude.{List};
    ghost use Rattle.plan_grid.specs.declared.spot.Spot.{Spot};
    ghost use Rattle.plan_scene.specs.Shape.{IsCut};

    ghost Value = { List Spot };

    ghost view = { λ s. s.polygon };

    ghost invariant = { λ s. IsCut s.polygon s.triangles };
}

impl Shape {
    /// The polygon, cut into its triangles.
    pub fn of(alloc: Global, polygon: Polygon) -> Result<Shape, NoMemory>
        ensures { IfOk result (λ s. s ≡ polygon) }
    {
        let triangles = triangulate(alloc, &polygon)?;
        Ok(Shape { polygon, triangles })
    }

    /// The vertices.
    pub fn spots(&self) -> &[Spot]
        ensures value { result.now ≡ self.now }
        ensures polygon { IsPolygon self.now }
    {
        self.polygon.spots()
    }

    /// The triangles.
    pub fn triangles(&self) -> &[Triangle]
        ensures { IsCut self.now result.now }
    {
        &self.triangles.list
    }
}
