// The words of pictures.
ghost use Rattle.std.specs.Prelude.{◌≡◌, IfOk, string_bytes};
ghost use Rattle.plan_reply.specs.Seen.{answer_seen};
ghost use Rattle.plan_wire.specs.Documents as documents;
ghost use Rattle.plan_wire.specs.Seen.{certificate_seen};
ghost use Rattle.plan_picture.specs.Words as spec;
ghost use Rattle.plan_picture.specs.Words.{answer_words, query_words, shown_words, touched_words, verdict_words};

use plan_check::Verdict;
use plan_cross::{Certificate, Polyline};
use plan_reply::Reply;
use std::alloc::{AllocError, Global};

// What a chain shows.
const NO_WAY: &str = "odd at the start, even at the goal: no way out";

/// The words of the reply to the query of this number.
pub fn reply_words(alloc: Global, number: u16, reply: &Reply) -> Result<String, AllocError>
    ensures { IfOk result (λ words. string_bytes words ≡ query_words number (answer_seen reply.now)) }
{
    let words = answer_words(alloc, reply)?;
    format!(in alloc; "query {number}: {words}")
}

fn answer_words(alloc: Global, reply: &Reply) -> Result<String, AllocError>
    ensures { IfOk result (λ words. string_bytes words ≡ answer_words (answer_seen reply.now)) }
{
    match reply {
        Reply::Path(path) => path_words(alloc, path),
        Reply::Blocked(_) => String::from_str(alloc, NO_WAY),
        Reply::StartTouches(who) => {
            let words = touched_words(alloc, *who)?;
            format!(in alloc; "the start touches {words}")
        }
        Reply::GoalTouches(who) => {
            let words = touched_words(alloc, *who)?;
            format!(in alloc; "the goal touches {words}")
        }
    }
}

fn path_words(alloc: Global, path: &Polyline) -> Result<String, AllocError>
    ensures { IfOk result (λ words. string_bytes words ≡ shown_words (documents.path path.now)) }
{
    let count = path.points.len();
    format!(in alloc; "a path of {count} points, clear all along")
}

fn touched_words(alloc: Global, who: u32) -> Result<String, AllocError>
    ensures { IfOk result (λ words. string_bytes words ≡ touched_words who) }
{
    if who == 0 {
        String::from_str(alloc, "the frame")
    } else {
        format!(in alloc; "obstacle {who}")
    }
}

/// The words of a certificate with its verdict.
pub fn verdict_words(
    alloc: Global,
    certificate: &Certificate,
    verdict: Verdict,
) -> Result<String, AllocError>
    ensures { IfOk result (λ words. string_bytes words ≡ verdict_words (certificate_seen certificate.now) verdict) }
{
    match verdict {
        Verdict::Valid => {
            let words = shown_words(alloc, certificate)?;
            format!(in alloc; "valid: {words}")
        }
        Verdict::Invalid(fault) => format!(in alloc; "invalid: {fault}"),
    }
}

fn shown_words(alloc: Global, certificate: &Certificate) -> Result<String, AllocError>
    ensures { IfOk result (λ words. string_bytes words ≡ shown_words (certificate_seen certificate.now)) }
{
    match certificate {
        Certificate::Path(path) => path_words(alloc, path),
        Certificate::Blocked(_) => String::from_str(alloc, NO_WAY),
    }
}
