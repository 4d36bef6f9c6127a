use plan_cross::{Chain, Polyline};

/// The answer to a query.
#[derive(Debug, Drop)]
pub enum Reply {
    /// A clear polyline from start to goal.
    Path(Polyline),
    /// A chain that blocks the start from the goal.
    Blocked(Chain),
    /// The start touches: the frame, for 0, or the obstacle of this id.
    StartTouches(u32),
    /// The start is clear and the goal touches.
    GoalTouches(u32),
}
