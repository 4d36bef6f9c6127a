// The document of bytes.
ghost use Rattle.std.specs.Prelude.{IfOk, ℤ};
ghost use Rattle.serde_json.specs.View.{view};
ghost use Rattle.plan_wire.specs.Bounds.{DocumentFits};
ghost use Rattle.plan_wire.specs.Documents as definition;
ghost use Rattle.plan_wire.specs.Place.{path_of};
ghost use Rattle.plan_wire.specs.Reading as reading;
ghost use Rattle.plan_wire.specs.Seen.{document_seen, task_seen, ReadsAs};

use super::certificates::CertificateForm;
use super::fault::WireFault;
use super::forms::{Form, member, object};
use super::numbers::VersionForm;
use super::obstacles::ObstaclesForm;
use super::place::Place;
use super::queries::{QueriesForm, QueryForm};
use super::rounds::RoundsForm;
use super::spots::{FrameForm, RobotForm};
use super::{Document, Task, Want};
use crate::stream::MOST_BYTES;
use serde_json::Value;
use std::alloc::Global;

// The member or the members of the wanted command.
#[tactic(auto, unfolding(crate::specs::Documents::task_of))]
fn task_of(alloc: Global, place: &Place, v: &Value, want: Want) -> Result<Task, WireFault>
    ensures { ReadsAs task_seen (definition.task_of want (path_of place.now) (view v.now)) result }
{
    match want {
        Want::Plan => {
            let queries = member::<QueriesForm>(alloc, place, "queries", v)?;
            Ok(Task::Queries(queries))
        }
        Want::Session => {
            let rounds = member::<RoundsForm>(alloc, place, "rounds", v)?;
            Ok(Task::Rounds(rounds))
        }
        Want::Check => {
            let query = member::<QueryForm>(alloc, place, "query", v)?;
            let certificate = member::<CertificateForm>(alloc, place, "certificate", v)?;
            Ok(Task::Proof { query, certificate })
        }
    }
}

// By its members, in this order; all others are passed over.
#[tactic(auto, unfolding(crate::specs::Documents::value_of))]
fn value_of(alloc: Global, place: &Place, v: &Value, want: Want) -> Result<Document, WireFault>
    ensures { ReadsAs document_seen (definition.value_of want (path_of place.now) (view v.now)) result }
{
    object(alloc, place, v)?;
    member::<VersionForm>(alloc, place, "format", v)?;
    let frame = member::<FrameForm>(alloc, place, "frame", v)?;
    let robot = member::<RobotForm>(alloc, place, "robot", v)?;
    let obstacles = member::<ObstaclesForm>(alloc, place, "obstacles", v)?;
    let task = task_of(alloc, place, v, want)?;
    Ok(Document {
        frame,
        robot,
        obstacles,
        task,
    })
}

// The JSON that the bytes are.
fn json_of(alloc: Global, bytes: &[u8]) -> Result<Value, WireFault>
    ensures { ReadsAs view (definition.json_of bytes.now) result }
{
    let Ok(text) = str::from_utf8(bytes) else {
        return Err(WireFault::Json);
    };
    match Value::from_str(alloc, text) {
        Ok(v) => Ok(v),
        Err(e) if e.is_memory() => Err(WireFault::NoMemory),
        Err(_) => Err(WireFault::Json),
    }
}

/// Reads the document that the bytes are, for the command that it is wanted for.
///
/// Members that the form does not name are passed over, and of a member that is repeated the last counts.
pub fn read_document(alloc: Global, bytes: &[u8], want: Want) -> Result<Document, WireFault>
    ensures read { ReadsAs document_seen (definition.document_of bytes.now want) result }
    ensures fits { IfOk result DocumentFits }
{
    if bytes.len() > MOST_BYTES {
        return Err(WireFault::TooLong);
    }
    let v = json_of(alloc, bytes)?;
    value_of(alloc, &Place::Root, &v, want)
}
