ghost use Rattle.std.specs.Prelude.{◌≡◌, ℕ, ◌<◌, ◌≤◌, List, Option, length, take, OnOk, OnErr, IfOk};
ghost use Rattle.plan_wire.specs.Stream.{Rose, Appends};

use super::failed::Failed;

/// Where bytes go.
///
/// It means the bytes written, where it tells them, and a count of faults, which rises where a write
/// fails and nowhere else.
pub trait Sink {
    ghost written: { Self → Option (List ℕ) };

    ghost faults: { Self → ℕ };

    // What one failure may do to the count.
    ghost rises: { ℕ → ℕ → Type 0 };

    /// Takes the first bytes of the piece, and says how many; of a piece that is not empty, at least
    /// one.
    fn write(&mut self, piece: &[u8]) -> Result<usize, Failed>
        ensures count { faults self.old ≤ faults self.new }
        ensures within { IfOk result (λ n. n ≤ length piece.now) }
        ensures some { IfOk result (λ n. 0 < length piece.now → 0 < n) }
        ensures taken { IfOk result
            (λ n. Appends (written self.old) (written self.new) (take n piece.now)) }
        ensures still { OnOk result (faults self.new ≡ faults self.old) }
        ensures rose { OnErr result (rises (faults self.old) (faults self.new)) }
        ensures kept { OnErr result (written self.new ≡ written self.old) };

    ghost rises_at_least: { (before now : ℕ) → rises before now → Rose before now };
}
