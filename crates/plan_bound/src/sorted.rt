ghost use Rattle.std.specs.List.Sorted.{IsPermutation, IsSortedByKey};
ghost use Rattle.plan_grid.specs.Fraction.{Fraction, fraction_cmp};
ghost use Rattle.plan_bound.specs.Gaps.{start_of};

use plan_convex::Part;

/// Puts the parts in the order of where they begin.
pub fn sort_by_start(parts: &mut Vec<Part>)
    ensures permutation { IsPermutation parts.old.items parts.new.items }
    ensures sorted { IsSortedByKey start_of fraction_cmp parts.new.items }
{
    parts.sort_unstable_by_key(|part: &Part| part.from);
}
