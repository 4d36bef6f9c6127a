ghost use Rattle.std.specs.Prelude.{◌≡◌, IfOk, string_bytes};
ghost use Rattle.plan_top.specs.Lines.{line_of, refusal_line, obstacle_line, edit_text};

use crate::status::{Refusal, Status};
use plan_scene::EditFault;
use std::alloc::{AllocError, Global};

// The line of a certificate that is accepted.
const VALID: &str = "valid\n";

/// The line of too many bytes.
pub const TOO_LONG: &str = "refused: too long\n";

/// The last line of `plan`.
pub const END: &str = "end\n";

/// The line of words that have none of the four forms.
pub const USAGE: &str = "usage: planner plan N | session N | check | demo K N\n";

/// The line that comes with a status of `check`, or of words that are not answered; none where nothing is answered.
pub fn line_of(alloc: Global, status: &Status) -> Result<String, AllocError>
    ensures { IfOk result (λ line. string_bytes line ≡ line_of status.now) }
{
    match status {
        Status::Done => String::from_str(alloc, VALID),
        Status::Usage => String::from_str(alloc, USAGE),
        Status::Refused(refusal) => refusal_line(alloc, refusal),
        Status::Invalid(fault) => format!(in alloc; "invalid: {fault}\n"),
        Status::ReadFault | Status::WriteFault | Status::NoMemory => Ok(String::new(alloc)),
    }
}

// The line of a refusal.
fn refusal_line(alloc: Global, refusal: &Refusal) -> Result<String, AllocError>
    ensures { IfOk result (λ line. string_bytes line ≡ refusal_line refusal.now) }
{
    match refusal {
        Refusal::TooLong => String::from_str(alloc, TOO_LONG),
        Refusal::Json => String::from_str(alloc, "refused: json\n"),
        Refusal::Form(place) => format!(in alloc; "refused: form {place}\n"),
        Refusal::Range(place) => format!(in alloc; "refused: range {place}\n"),
        Refusal::RobotNotSimple(i, j) => {
            format!(in alloc; "refused: robot not simple {i} {j}\n")
        }
        Refusal::Obstacle { at, fault } => obstacle_line(alloc, *at, *fault),
        Refusal::TooManyRegions => String::from_str(alloc, "refused: too many regions\n"),
    }
}

// The line of an obstacle that is refused.
fn obstacle_line(alloc: Global, at: u32, fault: EditFault) -> Result<String, AllocError>
    ensures { IfOk result (λ line. string_bytes line ≡ obstacle_line at fault) }
{
    let text = edit_text(alloc, fault)?;
    format!(in alloc; "refused: obstacles[{at}] {text}\n")
}

/// Why an edit is refused.
pub fn edit_text(alloc: Global, fault: EditFault) -> Result<String, AllocError>
    ensures { IfOk result (λ text. string_bytes text ≡ edit_text fault) }
{
    match fault {
        EditFault::Duplicate(id) => format!(in alloc; "duplicate {id}"),
        EditFault::Unknown(id) => format!(in alloc; "unknown {id}"),
        EditFault::NotSimple(i, j) => format!(in alloc; "not simple {i} {j}"),
        EditFault::TooManyObstacles => String::from_str(alloc, "too many obstacles"),
        EditFault::TooManySums(n) => format!(in alloc; "too many sums {n}"),
        EditFault::NoMemory => String::from_str(alloc, "no memory"),
    }
}
