use plan_grid::Point;

/// A segment by its two ends, in the order in which they were given.
#[derive(Clone, Copy, Debug, PartialEq, Eq)]
pub struct Segment {
    pub a: Point,
    pub b: Point,
}
