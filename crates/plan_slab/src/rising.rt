ghost use Rattle.std.specs.Prelude.{All};
ghost use Rattle.plan_grid.specs.Fraction.{IsRatio};
ghost use Rattle.plan_slab.specs.RisingValues.{IsRisingOf};

use plan_grid::Ratio;

/// Puts the values in their order, and leaves one of each.
pub fn make_rising(values: &mut Vec<Ratio>)
    requires { All IsRatio values.old.items }
    ensures { IsRisingOf values.old.items values.new.items }
{
    values.sort_unstable();
    values.dedup();
}
