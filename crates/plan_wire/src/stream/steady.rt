ghost use Rattle.std.specs.Prelude.{◌≡◌, ℕ, ◌+◌, ◌-◌, ◌<◌, ◌≤◌, List, [], ◌++◌, length, take, drop, Some, vec_len, min, IfOk, OnOk, OnErr, IsErr, ◌↔◌};
ghost use Rattle.std.specs.Vec.{vec_capacity};
ghost use Rattle.std.proofs.Common.{rules};
ghost use Rattle.plan_wire.specs.Stream.{RoseByOne};
ghost use Rattle.plan_wire.specs.Memory.{Held};

use super::failed::Failed;
use super::sink::Sink;
use super::source::Source;
use crate::no_memory::NoMemory;
use std::alloc::Global;
use std::marker::Model;

/// A source over bytes in memory, which never fails.
#[derive(Drop)]
pub struct SteadySource {
    bytes: Vec<u8>,
    taken: usize,
}

impl Model for SteadySource {
    ghost Value = { List ℕ };

    ghost view = { λ s. drop s.taken s.bytes.items };

    ghost invariant = { λ s. s.taken ≤ vec_len s.bytes };
}

impl SteadySource {
    /// A source of these bytes.
    pub fn new(bytes: Vec<u8>) -> SteadySource
        ensures { result ≡ bytes.items }
    {
        SteadySource { bytes, taken: 0 }
    }
}

impl Source for SteadySource {
    ghost remaining = { λ s. Some s };

    ghost faults = { λ _. 0 };

    ghost rises = { λ _ _. ⊥ };

    ghost rises_at_least = { λ _ _ never. absurd never };

    fn read(&mut self, room: &mut [u8]) -> Result<usize, Failed> {
        let n = room.len().min(self.bytes.len() - self.taken);
        room[..n].copy_from_slice(&self.bytes[self.taken..self.taken + n]);
        self.taken += n;
        Ok(n)
    }
}

/// A sink in memory, which fails only where it has no room left.
#[derive(Drop)]
pub struct SteadySink {
    bytes: Vec<u8>,
    room: usize,
    faults: u64,
}

impl Model for SteadySink {
    ghost Value = { Held };

    ghost view = { λ s. record { bytes = s.bytes.items; room = s.room; faults = s.faults } };

    ghost invariant = { λ s. (vec_len s.bytes ≤ s.room) × (s.room ≤ vec_capacity s.bytes) };
}

impl SteadySink {
    /// A sink with room for so many bytes. All its memory is taken here.
    pub fn new(alloc: Global, room: u32) -> Result<SteadySink, NoMemory>
        ensures { IfOk result (λ sink. sink ≡ record { bytes = []; room = room; faults = 0 }) }
    {
        let room = room as usize;
        let bytes = Vec::with_capacity(alloc, room)?;
        Ok(SteadySink {
            bytes,
            room,
            faults: 0,
        })
    }

    /// What has been written.
    pub fn bytes(&self) -> &[u8]
        ensures { result.now ≡ self.now.bytes }
    {
        self.bytes.as_slice()
    }

    // Counts a fault; at its type's end the count stands still.
    pub(crate) fn fail(&mut self) -> Failed
        ensures count { self.old.faults ≤ self.new.faults }
        ensures rose { RoseByOne self.old.faults self.new.faults }
        ensures bytes { self.new.bytes ≡ self.old.bytes }
        ensures room { self.new.room ≡ self.old.room }
    {
        self.faults = self.faults.saturating_add(1);
        Failed
    }
}

impl Sink for SteadySink {
    ghost written = { λ s. Some s.bytes };

    ghost faults = { λ s. s.faults };

    ghost rises = { RoseByOne };

    ghost rises_at_least = { λ _ _ rose. Prim.search rules };

    fn write(&mut self, piece: &[u8]) -> Result<usize, Failed>
        ensures count { self.old.faults ≤ self.new.faults }
        ensures within { IfOk result (λ n. n ≤ length piece.now) }
        ensures some { IfOk result (λ n. 0 < length piece.now → 0 < n) }
        ensures most { IfOk result
            (λ n. n ≡ min (length piece.now) (self.old.room - length self.old.bytes)) }
        ensures taken { IfOk result (λ n. self.new.bytes ≡ self.old.bytes ++ take n piece.now) }
        ensures room { self.new.room ≡ self.old.room }
        ensures full { IsErr result
            ↔ ((0 < length piece.now) × (length self.old.bytes ≡ self.old.room)) }
        ensures still { OnOk result (self.new.faults ≡ self.old.faults) }
        ensures rose { OnErr result (RoseByOne self.old.faults self.new.faults) }
        ensures kept { OnErr result (self.new.bytes ≡ self.old.bytes) }
    {
        let free = self.room - self.bytes.len();
        if free == 0 && !piece.is_empty() {
            return Err(self.fail());
        }
        let n = piece.len().min(free);
        self.bytes.extend_from_slice(&piece[..n]).unwrap();
        Ok(n)
    }
}
