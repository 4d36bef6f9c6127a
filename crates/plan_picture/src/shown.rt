ghost use Rattle.std.specs.Prelude.{◌≡◌, ◌++◌, ◌≤◌, take, drop, map, option_map, OnOk, IfOk};
ghost use Rattle.plan_reply.specs.Seen.{answer_seen};
ghost use Rattle.plan_wire.specs.Seen.{certificate_seen};
ghost use Rattle.plan_picture.specs.Seen.{shown_seen};
ghost use Rattle.plan_svg.specs.Shapes.{robot, shapes_text};
ghost use Rattle.plan_picture.specs.Shown as spec;
ghost use Rattle.plan_picture.specs.Shown.{of_some, reply_shown, verdict_shown, shown_shapes, way_shapes, wrong_shapes, wrong_by, wrong_of, segment_of};
ghost use Rattle.plan_svg.specs.declared.class.Class.TheVariants as class;

use crate::words::{reply_words, verdict_words};
use plan_check::{CheckFault, Verdict};
use plan_cross::{Certificate, Chain, Polyline};
use plan_grid::Point;
use plan_reply::Reply;
use plan_svg::{Class, put_line, put_robot};
use plan_wire::NoMemory;
use std::alloc::Global;

/// What is shown on a floor.
#[derive(Drop)]
pub struct Shown {
    /// A path or a chain.
    pub way: Option<Certificate>,
    /// What of it is wrong.
    pub wrong: Option<Certificate>,
    /// What start or goal touches: the frame, for 0, or the obstacle of this id.
    pub touched: Option<u32>,
    /// The words for it all.
    pub words: String,
}

/// What is shown of the reply to the query of this number.
pub fn reply_shown(alloc: Global, number: u16, reply: Reply) -> Result<Shown, NoMemory>
    ensures { IfOk result (λ shown. shown_seen shown ≡ reply_shown number (answer_seen reply)) }
{
    let words = reply_words(alloc, number, &reply)?;
    let (way, touched) = match reply {
        Reply::Path(path) => (Some(Certificate::Path(path)), None),
        Reply::Blocked(chain) => (Some(Certificate::Blocked(chain)), None),
        Reply::StartTouches(who) | Reply::GoalTouches(who) => (None, Some(who)),
    };
    Ok(Shown {
        way,
        wrong: None,
        touched,
        words,
    })
}

/// What is shown of a certificate with its verdict.
pub fn verdict_shown(
    alloc: Global,
    certificate: Certificate,
    verdict: Verdict,
) -> Result<Shown, NoMemory>
    ensures { IfOk result (λ shown. shown_seen shown ≡ verdict_shown (certificate_seen certificate) verdict) }
{
    let words = verdict_words(alloc, &certificate, verdict)?;
    let wrong = match verdict {
        Verdict::Valid => None,
        Verdict::Invalid(fault) => wrong_by(alloc, &certificate, fault)?,
    };
    Ok(Shown {
        way: Some(certificate),
        wrong,
        touched: None,
        words,
    })
}

// The segment that the fault names, if it names one.
fn wrong_by(
    alloc: Global,
    certificate: &Certificate,
    fault: CheckFault,
) -> Result<Option<Certificate>, NoMemory>
    ensures { IfOk result (λ wrong. option_map certificate_seen wrong ≡ wrong_by (certificate_seen certificate.now) fault) }
{
    match fault {
        CheckFault::Touches(k) => Ok(Some(segment_of(alloc, certificate, k)?)),
        CheckFault::Flat(k) => Ok(Some(segment_of(alloc, certificate, k)?)),
        CheckFault::Loose(k) => Ok(Some(segment_of(alloc, certificate, k)?)),
        CheckFault::Unclosed(k) => Ok(Some(segment_of(alloc, certificate, k)?)),
        CheckFault::EmptyPath
        | CheckFault::WrongStart
        | CheckFault::WrongGoal
        | CheckFault::StartEven
        | CheckFault::GoalOdd => Ok(None),
    }
}

// The segment of this number by itself.
fn segment_of(alloc: Global, certificate: &Certificate, k: u32) -> Result<Certificate, NoMemory>
    ensures { IfOk result (λ segment. certificate_seen segment ≡ segment_of (certificate_seen certificate.now) k) }
{
    match certificate {
        Certificate::Path(path) => {
            let points = part(alloc, &path.points, k as usize, 2)?;
            Ok(Certificate::Path(Polyline { points }))
        }
        Certificate::Blocked(chain) => {
            let segments = part(alloc, &chain.segments, k as usize, 1)?;
            Ok(Certificate::Blocked(Chain { segments }))
        }
    }
}

// At most `count` of the items, from number `k` on.
fn part<T: Copy>(alloc: Global, items: &[T], k: usize, count: usize) -> Result<Vec<T>, NoMemory>
    requires { count ≤ 2 }
    ensures { IfOk result (λ v. v.items ≡ take count (drop k items.now)) }
{
    let from = k.min(items.len());
    let to = from + count.min(items.len() - from);
    Ok(Vec::from_slice(alloc, &items[from..to])?)
}

/// Puts the way, with the robot at each vertex of a path, and what of it is wrong.
pub fn put_shown(out: &mut Vec<u8>, shown: &Shown) -> Result<(), NoMemory>
    ensures { OnOk result (out.new.items ≡ out.old.items ++ shapes_text (shown_shapes (shown_seen shown.now))) }
{
    if let Some(way) = &shown.way {
        put_way(out, way)?;
    }
    if let Some(wrong) = &shown.wrong {
        put_line(out, Class::Fault, wrong)?;
    }
    Ok(())
}

fn put_way(out: &mut Vec<u8>, way: &Certificate) -> Result<(), NoMemory>
    ensures { OnOk result (out.new.items ≡ out.old.items ++ shapes_text (way_shapes (certificate_seen way.now))) }
{
    match way {
        Certificate::Path(path) => {
            put_robots(out, &path.points)?;
            put_line(out, Class::Path, way)
        }
        Certificate::Blocked(_) => put_line(out, Class::Chain, way),
    }
}

// Puts the robot at each point.
fn put_robots(out: &mut Vec<u8>, points: &[Point]) -> Result<(), NoMemory>
    ensures { OnOk result (out.new.items ≡ out.old.items ++ shapes_text (map (robot class.Step) points.now)) }
{
    for point in points {
        put_robot(out, Class::Step, point)?;
    }
    Ok(())
}
