ghost use Rattle.std.specs.Prelude.{◌*ℤ◌};
ghost use Rattle.plan_grid.specs.Order.{IsSign, IsOrder};

use plan_exact::Whole;
use std::cmp::Ordering;

/// How `a` stands to 0: Less where it is negative, Greater where it is positive.
pub fn sign(a: Whole) -> Ordering
    ensures { IsSign result a }
{
    order(a, Whole::from(0_i32))
}

/// How `a` stands to `b`.
pub fn order(a: Whole, b: Whole) -> Ordering
    ensures { IsOrder result a b }
{
    a.cmp(&b)
}

/// How `a / p` stands to `b / q`, whose denominators are positive, by the cross products.
pub fn fraction_order(a: i64, p: i64, b: i64, q: i64) -> Ordering
    ensures { IsOrder result (a *ℤ q) (b *ℤ p) }
{
    order(
        Whole::from(a).times(Whole::from(q)),
        Whole::from(b).times(Whole::from(p)),
    )
}
