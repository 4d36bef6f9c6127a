ghost use Rattle.std.specs.Prelude.{◌^◌, All, IfOk};
ghost use Rattle.plan_grid.specs.Bounds.{IsBounded};
ghost use Rattle.plan_slab.specs.Heights.{IsLevel, IsOver};
ghost use Rattle.plan_slab.specs.Rungs.{IsRungOf, AreLeastOf, AreFirstOf};

use crate::bar::Bar;
use crate::feet::foot;
use crate::level::Level;
use crate::strand::Strand;
use plan_convex::Triple;
use std::alloc::{AllocError, Global};

/// A bar that goes across a slab, with its height at one x.
#[derive(Clone, Copy, Debug)]
pub struct Rung {
    pub level: Level,
    pub number: u32,
    pub strand: Strand,
}

/// Of the bars the one of the least number of each height at the x of `z`, from below.
pub fn rungs_at(alloc: Global, bars: &[Bar], z: Triple) -> Result<Vec<Rung>, AllocError>
    requires bounded { IsBounded (2 ^ 26) z }
    requires over { All (λ b. IsOver b.strand z) bars.now }
    ensures { IfOk result (λ v. AreFirstOf z bars.now v.items) }
{
    let mut rungs = Vec::new(alloc);
    for bar in bars {
        rungs.push(rung_of(*bar, z))?;
    }
    keep_least(&mut rungs);
    Ok(rungs)
}

fn rung_of(bar: Bar, z: Triple) -> Rung
    requires bounded { IsBounded (2 ^ 26) z }
    requires over { IsOver bar.strand z }
    ensures { IsRungOf z result bar }
{
    let foot = foot(bar.strand, z);
    Rung {
        level: Level::of(foot.y, foot.w),
        number: bar.number,
        strand: bar.strand,
    }
}

// Puts the rungs in the order of their levels, and leaves of each level the one of the least number.
fn keep_least(rungs: &mut Vec<Rung>)
    requires { All (λ g. IsLevel g.level) rungs.old.items }
    ensures { AreLeastOf rungs.old.items rungs.new.items }
{
    rungs.sort_unstable_by_key(|rung: &Rung| (rung.level, rung.number));
    rungs.dedup_by_key(|rung: &mut Rung| rung.level);
}
