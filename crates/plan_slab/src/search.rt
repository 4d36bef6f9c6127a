ghost use Rattle.std.specs.Prelude.{◌≤◌, length, map, IsTrue};
ghost use Rattle.std.specs.List.Sorted.{IsNonDecreasingBy};
ghost use Rattle.plan_slab.specs.LotKeys.{key, AreBelow, IsFirstFrom, AreBetween};
ghost use Rattle.plan_slab.specs.Seen.{lot_seen};

use crate::lot::Lot;
use std::ops::Range;

/// The number of the first lot of that key or a greater one; the number of lots where there is none. The lots are in
/// their order.
pub fn first_from(lots: &[Lot], least: u64) -> usize
    requires { IsNonDecreasingBy (λ lot. key (lot_seen lot)) lots.now }
    ensures { IsFirstFrom (map lot_seen lots.now) least result }
{
    lots.partition_point(|lot: &Lot| lot.key() < least)
}

/// The same by a walk from `near` on, where the lots before it have lesser keys.
pub fn first_from_near(lots: &[Lot], near: u32, least: u64) -> usize
    requires { IsNonDecreasingBy (λ lot. key (lot_seen lot)) lots.now }
    ensures { IsFirstFrom (map lot_seen lots.now) least result }
{
    if !are_below(lots, near, least) {
        return first_from(lots, least);
    }
    for at in near as usize..lots.len() {
        if least <= lots[at].key() {
            return at;
        }
    }
    lots.len()
}

// Whether the lots before that number are there and have lesser keys.
fn are_below(lots: &[Lot], number: u32, least: u64) -> bool
    requires { IsNonDecreasingBy (λ lot. key (lot_seen lot)) lots.now }
    ensures { IsTrue result → AreBelow (map lot_seen lots.now) least number }
{
    if number == 0 {
        return true;
    }
    let last = number as usize - 1;
    last < lots.len() && lots[last].key() < least
}

/// The numbers of the lots from `from` on and before `to`: by a search for the first one, which is perhaps at `near` or
/// soon after it, and then one after another, since there are few.
pub fn between(lots: &[Lot], near: u32, from: Lot, to: Lot) -> Range<u32>
    requires few { length lots.now ≤ 131072 }
    requires rising { IsNonDecreasingBy (λ lot. key (lot_seen lot)) lots.now }
    ensures { AreBetween (map lot_seen lots.now) (key (lot_seen from)) (key (lot_seen to)) result.start result.end }
{
    let start = first_from_near(lots, near, from.key());
    let limit = to.key();
    for end in start..lots.len() {
        if limit <= lots[end].key() {
            return start as u32..end as u32;
        }
    }
    start as u32..lots.len() as u32
}
