ghost use Rattle.std.specs.Prelude.{◌≡◌, ◌++◌, IfOk};
ghost use Rattle.plan_grid.specs.Fraction.{Fraction};
ghost use Rattle.plan_bound.specs.Gaps.{gaps, last_gap};

use plan_convex::{Parameter, Part};
use std::alloc::{AllocError, Global};

/// What the open parts, in the order of where they begin, leave of the closed part.
pub fn gaps(alloc: Global, within: Part, parts: &[Part]) -> Result<Vec<Part>, AllocError>
    ensures { IfOk result (λ v. v.items ≡ gaps within.from within.to parts.now) }
{
    let mut found = Vec::new(alloc);
    let mut from = within.from;
    for part in parts {
        if !part.from.is_at_most(within.to) {
            return with_last(found, from, within.to);
        }
        if !part.to.is_at_most(from) {
            if from.is_at_most(part.from) {
                found.push(Part {
                    from,
                    to: part.from,
                })?;
            }
            from = part.to;
        }
    }
    with_last(found, from, within.to)
}

// The gaps with the last one, if there is anything in it.
fn with_last(mut found: Vec<Part>, from: Parameter, to: Parameter) -> Result<Vec<Part>, AllocError>
    ensures { IfOk result (λ v. v.items ≡ found.items ++ last_gap from to) }
{
    if from.is_at_most(to) {
        found.push(Part { from, to })?;
    }
    Ok(found)
}
