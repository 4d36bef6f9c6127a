use std::fmt;

/// The first fault of a certificate that is not accepted. Segments are counted from 0.
#[derive(Clone, Copy, Debug, PartialEq, Eq)]
pub enum CheckFault {
    /// The path has no points.
    EmptyPath,
    /// The path's first point is not the start.
    WrongStart,
    /// The path's last point is not the goal.
    WrongGoal,
    /// This segment of the path is the first on which the robot touches something.
    Touches(u32),
    /// This segment of the chain is the first that has a fault, and its ends are one point.
    Flat(u32),
    /// This segment of the chain is the first that has a fault: no one sum has both its ends, and they are not both on or
    /// beyond one and the same side of the room.
    Loose(u32),
    /// This segment of the chain is the first with an end that is an end an odd number of times.
    Unclosed(u32),
    /// The start is under an even number of the chain's segments.
    StartEven,
    /// The goal is under an odd number of the chain's segments.
    GoalOdd,
}

impl fmt::Display for CheckFault {
    ghost use Rattle.std.specs.Prelude.{Some};
    ghost use Rattle.plan_check.specs.Fault.{fault_text};

    ghost output = { λ fault. Some (fault_text fault) };

    fn fmt<W: fmt::Write>(&self, f: &mut fmt::Formatter<W>) -> fmt::Result {
        match self {
            CheckFault::EmptyPath => f.write_str("empty path"),
            CheckFault::WrongStart => f.write_str("wrong start"),
            CheckFault::WrongGoal => f.write_str("wrong goal"),
            CheckFault::Touches(segment) => write!(f, "touches {segment}"),
            CheckFault::Flat(segment) => write!(f, "flat {segment}"),
            CheckFault::Loose(segment) => write!(f, "loose {segment}"),
            CheckFault::Unclosed(segment) => write!(f, "unclosed {segment}"),
            CheckFault::StartEven => f.write_str("start even"),
            CheckFault::GoalOdd => f.write_str("goal odd"),
        }
    }
}
