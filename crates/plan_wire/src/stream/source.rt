ghost use Rattle.std.specs.Prelude.{◌≡◌, ℕ, ◌≤◌, List, Option, length, OnOk, OnErr, IfOk};
ghost use Rattle.plan_wire.specs.Stream.{Rose, TakesNext};

use super::failed::Failed;

/// Where bytes come from.
///
/// It means the bytes that are left, where it tells them, and a count of faults, which rises where a
/// read fails and nowhere else.
pub trait Source {
    ghost remaining: { Self → Option (List ℕ) };

    ghost faults: { Self → ℕ };

    // What one failure may do to the count.
    ghost rises: { ℕ → ℕ → Type 0 };

    /// Puts the next bytes into the room, and says how many. None for a room that is not empty means
    /// the end.
    fn read(&mut self, room: &mut [u8]) -> Result<usize, Failed>
        ensures count { faults self.old ≤ faults self.new }
        ensures within { IfOk result (λ n. n ≤ length room.new) }
        ensures taken { IfOk result (TakesNext (remaining self.old) (remaining self.new) room.new) }
        ensures still { OnOk result (faults self.new ≡ faults self.old) }
        ensures rose { OnErr result (rises (faults self.old) (faults self.new)) }
        ensures kept { OnErr result (remaining self.new ≡ remaining self.old) };

    ghost rises_at_least: { (before now : ℕ) → rises before now → Rose before now };
}
