ghost use Rattle.std.specs.Prelude.{◌≡◌};
ghost use Rattle.plan_top.specs.Status.{code_of};

use plan_check::CheckFault;
use plan_scene::EditFault;

/// How a call ended.
#[derive(Debug, Drop, PartialEq, Eq)]
pub enum Status {
    /// The answer was written.
    Done,
    /// The words have none of the four forms.
    Usage,
    /// The input is refused.
    Refused(Refusal),
    /// The source failed.
    ReadFault,
    /// The sink failed.
    WriteFault,
    /// There was no memory left.
    NoMemory,
    /// The certificate has this fault first.
    Invalid(CheckFault),
}

/// Why an input is refused.
#[derive(Debug, Drop, PartialEq, Eq)]
pub enum Refusal {
    /// There are more than 4,194,304 bytes.
    TooLong,
    /// The bytes are not UTF-8, or no JSON with nesting to 127.
    Json,
    /// The place of this path is the first that is refused: it is missing, or another kind of value than it must be.
    Form(String),
    /// The place of this path is the first that is refused: its number, or its length, is out of range.
    Range(String),
    /// Edges of these numbers are the first two of the robot that meet wrongly.
    RobotNotSimple(u32, u32),
    /// The obstacle of this place in the list, counted from 0, is the first that is refused, for this fault, which is
    /// never want of memory.
    Obstacle { at: u32, fault: EditFault },
    /// The map of the first scene has more than 131,072 spans and marks.
    TooManyRegions,
}

impl Status {
    /// The exit code of the program.
    pub fn code(&self) -> u8
        ensures { result ≡ code_of self.now }
    {
        match self {
            Status::Done => 0,
            Status::Usage => 1,
            Status::Refused(_) => 2,
            Status::ReadFault => 3,
            Status::WriteFault => 4,
            Status::NoMemory => 5,
            Status::Invalid(_) => 6,
        }
    }
}
