ghost use Rattle.std.specs.Prelude.{◌≡◌, ◌↔◌, IsTrue};
ghost use Rattle.plan_slab.specs.LotKeys.{key};
ghost use Rattle.plan_slab.specs.Seen.{lot_seen};

/// A cell, above the span `at` of its slab, or a wall, above the mark `at` of its line.
#[derive(Clone, Copy, Debug, PartialEq, Eq)]
pub enum Lot {
    Cell { slab: u32, at: u32 },
    Wall { line: u32, at: u32 },
}

impl Lot {
    // Lots are ordered by it: from left to right, and in a slab or on a line from below. No row has more than 131,072.
    pub(crate) fn key(self) -> u64
        ensures { result ≡ key (lot_seen self) }
    {
        match self {
            Lot::Cell { slab, at } => (2 * u64::from(slab) + 1) * 131_072 + u64::from(at),
            Lot::Wall { line, at } => 2 * u64::from(line) * 131_072 + u64::from(at),
        }
    }

    // Whether they are one.
    pub(crate) fn is(self, other: Lot) -> bool
        ensures { IsTrue result ↔ (self ≡ other) }
    {
        self == other
    }
}
