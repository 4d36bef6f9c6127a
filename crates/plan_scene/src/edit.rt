use plan_grid::Spot;

/// A change of a scene. Obstacles are known by ids from 1 to 65,535.
#[derive(Debug, Drop)]
pub enum Edit {
    /// An obstacle of 3 to 32 spots, with coordinates of at most 1023 in absolute value, in either direction of turning.
    Add { id: u32, spots: Vec<Spot> },
    /// The obstacle of this id goes.
    Remove { id: u32 },
}
