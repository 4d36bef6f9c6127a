// The lines of replies.
ghost use Rattle.std.specs.Prelude.{◌≡◌, ◌++◌, IfOk, OnOk, codes, decimal};
ghost use Rattle.plan_grid.specs.Spot.{spot_seen};
ghost use Rattle.plan_scene.specs.Scene.{scene_seen};
ghost use Rattle.plan_reply.specs.Rings.{IsClosedPart};
ghost use Rattle.plan_reply.specs.Seen.{answer_seen};
ghost use Rattle.plan_wire.specs.Bounds.{QueryFits};
ghost use Rattle.plan_wire.specs.CertificateText.{certificate_text};
ghost use Rattle.plan_wire.specs.Seen.{certificate_seen, query_seen};
ghost use Rattle.plan_top.specs.Plan.{AreKept, IsLineOf, IsPut, answer_text};

use crate::kept::{KeptRing, kept_at};
use crate::no_memory::NoMemory;
use plan_cross::{Certificate, Query};
use plan_reply::laws::same_ring;
use plan_reply::{Reply, Stand};
use plan_wire::put_certificate;
use std::alloc::Global;

/// The line of the reply to a query that has this number. The texts of chains that are kept serve all later queries.
pub fn query_line(
    alloc: Global,
    stand: &Stand,
    number: u32,
    query: Query,
    kept: &mut Vec<KeptRing>,
) -> Result<Vec<u8>, NoMemory>
    requires query { QueryFits query }
    requires kept { AreKept stand.now kept.old.items }
    ensures line { IfOk result (λ line. IsLineOf stand.now (query_seen query) number line.items) }
    ensures kept { OnOk result (AreKept stand.now kept.new.items) }
{
    let head = format!(in alloc; "query {number} ")?;
    let mut line = Vec::from_slice(alloc, head.as_bytes())?;
    put_text(alloc, &mut line, stand, query, kept)?;
    line.push(b'\n').map_err(|_| NoMemory)?;
    Ok(line)
}

// Appends the text of the reply to a query. Where memory runs out, a part of it may stand there.
fn put_text(
    alloc: Global,
    line: &mut Vec<u8>,
    stand: &Stand,
    query: Query,
    kept: &mut Vec<KeptRing>,
) -> Result<(), NoMemory>
    requires query { QueryFits query }
    requires kept { AreKept stand.now kept.old.items }
    ensures line { OnOk result (IsPut stand.now (query_seen query) line.old.items line.new.items) }
    ensures kept { OnOk result (AreKept stand.now kept.new.items) }
{
    if let Some(part) = stand.closed_part(query) {
        return put_ring(alloc, line, stand, query, part, kept);
    }
    let Ok(reply) = stand.answer(alloc, query) else {
        return Err(NoMemory);
    };
    put_reply(alloc, line, reply)
}

// Appends the text of the reply to a query whose goal is in another part than its start: the text that is kept of the
// start's part, or a new one, which is kept.
fn put_ring(
    alloc: Global,
    line: &mut Vec<u8>,
    stand: &Stand,
    query: Query,
    part: u32,
    kept: &mut Vec<KeptRing>,
) -> Result<(), NoMemory>
    requires query { QueryFits query }
    requires part { IsClosedPart (scene_seen stand.now) (spot_seen query.start) (spot_seen query.goal) part }
    requires kept { AreKept stand.now kept.old.items }
    ensures line { OnOk result (IsPut stand.now (query_seen query) line.old.items line.new.items) }
    ensures kept { OnOk result (AreKept stand.now kept.new.items) }
{
    if let Some(at) = kept_at(kept.as_slice(), part) {
        prove!(stand.scene().count() <= 64);
        same_ring();
        line.extend_from_slice(kept[at].text.as_slice())?;
        return Ok(());
    }
    let Ok(reply) = stand.answer(alloc, query) else {
        return Err(NoMemory);
    };
    match reply {
        Reply::Blocked(chain) => {
            let mut text = Vec::new(alloc);
            put_answer(&mut text, &Certificate::Blocked(chain))?;
            line.extend_from_slice(text.as_slice())?;
            kept.push(KeptRing { part, text }).map_err(|_| NoMemory)?;
            Ok(())
        }
        reply => put_reply(alloc, line, reply),
    }
}

/// Appends the text of a reply. Where memory runs out, a part of it may stand there.
pub fn put_reply(alloc: Global, text: &mut Vec<u8>, reply: Reply) -> Result<(), NoMemory>
    ensures { OnOk result (text.new.items ≡ text.old.items ++ answer_text (answer_seen reply)) }
{
    match reply {
        Reply::Path(path) => put_answer(text, &Certificate::Path(path)),
        Reply::Blocked(chain) => put_answer(text, &Certificate::Blocked(chain)),
        Reply::StartTouches(who) => put_number(alloc, text, "start", who),
        Reply::GoalTouches(who) => put_number(alloc, text, "goal", who),
    }
}

// Appends the text of a path or a chain.
fn put_answer(text: &mut Vec<u8>, certificate: &Certificate) -> Result<(), NoMemory>
    ensures { OnOk result (text.new.items ≡ text.old.items ++ certificate_text (certificate_seen certificate.now)) }
{
    match put_certificate(text, certificate) {
        Ok(()) => Ok(()),
        Err(_) => Err(NoMemory),
    }
}

// Appends an object with one member, a number.
fn put_number(alloc: Global, text: &mut Vec<u8>, name: &str, number: u32) -> Result<(), NoMemory>
    ensures { OnOk result (text.new.items ≡ text.old.items ++ (codes "{\"" ++ name.now ++ codes "\":" ++ decimal number ++ codes "}")) }
{
    let object = format!(in alloc; "{{\"{name}\":{number}}}")?;
    text.extend_from_slice(object.as_bytes())?;
    Ok(())
}
