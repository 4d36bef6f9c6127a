ghost use Rattle.std.specs.Prelude.{◌≡◌, ◌+◌, ◌-◌, ◌^◌, ◌⊎◌, ◌<◌, ◌≤◌, ◌↔◌, [], ◌++◌, length, take, Some, min, Contains, IfOk, OnOk, OnErr, IsErr, IsTrue};
ghost use Rattle.std.proofs.Common.{rules};
ghost use Rattle.plan_wire.specs.Stream.{RoseByOne, TakesNext};
ghost use Rattle.plan_wire.specs.Memory.{Calls, Left, HeldInPieces};

use super::failed::Failed;
use super::sink::Sink;
use super::source::Source;
use super::steady::{SteadySink, SteadySource};
use crate::no_memory::NoMemory;
use std::alloc::Global;
use std::marker::Model;

// Which calls are to fail, counted from 1.
#[derive(Drop)]
struct Script {
    fails: Vec<u32>,
    made: u32,
}

impl Model for Script {
    ghost Value = { Calls };

    ghost view = { λ s. record { fails = s.fails.items; made = s.made } };
}

impl Script {
    fn new(fails: Vec<u32>) -> Script
        ensures { result ≡ record { fails = fails.items; made = 0 } }
    {
        Script { fails, made: 0 }
    }

    // Counts a call, and says whether it is to fail.
    fn fails_next(&mut self) -> bool
        ensures made { self.new.made ≡ min (self.old.made + 1) (2 ^ 32 - 1) }
        ensures same { self.new.fails ≡ self.old.fails }
        ensures listed { IsTrue result ↔ Contains self.new.fails self.new.made }
    {
        self.made = self.made.saturating_add(1);
        self.fails.contains(&self.made)
    }
}

/// A source over bytes in memory, which gives few bytes a call, and fails where it is told to.
#[derive(Drop)]
pub struct MemorySource {
    bytes: SteadySource,
    piece: usize,
    script: Script,
    faults: u64,
}

impl Model for MemorySource {
    ghost Value = { Left };

    ghost view = { λ s. record {
      bytes = s.bytes;
      piece = s.piece;
      calls = s.script;
      faults = s.faults;
    } };

    ghost invariant = { λ s. 0 < s.piece };
}

impl MemorySource {
    /// A source of these bytes, at most `piece` of them a call; the calls that `fails` lists, counted
    /// from 1, fail.
    pub fn new(bytes: Vec<u8>, piece: u32, fails: Vec<u32>) -> MemorySource
        requires { 1 ≤ piece }
        ensures { result ≡ record {
          bytes = bytes.items;
          piece = piece;
          calls = record { fails = fails.items; made = 0 };
          faults = 0;
        } }
    {
        MemorySource {
            bytes: SteadySource::new(bytes),
            piece: piece as usize,
            script: Script::new(fails),
            faults: 0,
        }
    }
}

impl Source for MemorySource {
    ghost remaining = { λ s. Some s.bytes };

    ghost faults = { λ s. s.faults };

    ghost rises = { RoseByOne };

    ghost rises_at_least = { λ _ _ rose. Prim.search rules };

    fn read(&mut self, room: &mut [u8]) -> Result<usize, Failed>
        ensures count { self.old.faults ≤ self.new.faults }
        ensures within { IfOk result (λ n. n ≤ length room.new) }
        ensures few { IfOk result (λ n. n ≤ self.old.piece) }
        ensures piece { self.new.piece ≡ self.old.piece }
        ensures taken { IfOk result
            (TakesNext (Some self.old.bytes) (Some self.new.bytes) room.new) }
        ensures fails { IsErr result ↔ Contains self.new.calls.fails self.new.calls.made }
        ensures made { self.new.calls.made ≡ min (self.old.calls.made + 1) (2 ^ 32 - 1) }
        ensures same { self.new.calls.fails ≡ self.old.calls.fails }
        ensures still { OnOk result (self.new.faults ≡ self.old.faults) }
        ensures rose { OnErr result (RoseByOne self.old.faults self.new.faults) }
        ensures kept { OnErr result (self.new.bytes ≡ self.old.bytes) }
    {
        if self.script.fails_next() {
            self.faults = self.faults.saturating_add(1);
            return Err(Failed);
        }
        let size = room.len().min(self.piece);
        self.bytes.read(&mut room[..size])
    }
}

/// A sink in memory, which takes few bytes a call, and fails where it is told to and where it has no
/// room left.
#[derive(Drop)]
pub struct MemorySink {
    held: SteadySink,
    piece: usize,
    script: Script,
}

impl Model for MemorySink {
    ghost Value = { HeldInPieces };

    ghost view = { λ s. record { held = s.held; piece = s.piece; calls = s.script } };

    ghost invariant = { λ s. 0 < s.piece };
}

impl MemorySink {
    /// A sink with room for so many bytes, which takes at most `piece` of them a call; the calls that
    /// `fails` lists, counted from 1, fail. All its memory is taken here.
    pub fn new(
        alloc: Global,
        room: u32,
        piece: u32,
        fails: Vec<u32>,
    ) -> Result<MemorySink, NoMemory>
        requires { 1 ≤ piece }
        ensures { IfOk result (λ sink. sink ≡ record {
          held = record { bytes = []; room = room; faults = 0 };
          piece = piece;
          calls = record { fails = fails.items; made = 0 };
        }) }
    {
        Ok(MemorySink {
            held: SteadySink::new(alloc, room)?,
            piece: piece as usize,
            script: Script::new(fails),
        })
    }

    /// What has been written.
    pub fn bytes(&self) -> &[u8]
        ensures { result.now ≡ self.now.held.bytes }
    {
        self.held.bytes()
    }
}

impl Sink for MemorySink {
    ghost written = { λ s. Some s.held.bytes };

    ghost faults = { λ s. s.held.faults };

    ghost rises = { RoseByOne };

    ghost rises_at_least = { λ _ _ rose. Prim.search rules };

    fn write(&mut self, piece: &[u8]) -> Result<usize, Failed>
        ensures count { self.old.held.faults ≤ self.new.held.faults }
        ensures within { IfOk result (λ n. n ≤ length piece.now) }
        ensures some { IfOk result (λ n. 0 < length piece.now → 0 < n) }
        ensures few { IfOk result (λ n. n ≤ self.old.piece) }
        ensures piece { self.new.piece ≡ self.old.piece }
        ensures taken { IfOk result
            (λ n. self.new.held.bytes ≡ self.old.held.bytes ++ take n piece.now) }
        ensures room { self.new.held.room ≡ self.old.held.room }
        ensures fails { IsErr result ↔ (Contains self.new.calls.fails self.new.calls.made
            ⊎ ((0 < length piece.now) × (length self.old.held.bytes ≡ self.old.held.room))) }
        ensures made { self.new.calls.made ≡ min (self.old.calls.made + 1) (2 ^ 32 - 1) }
        ensures same { self.new.calls.fails ≡ self.old.calls.fails }
        ensures still { OnOk result (self.new.held.faults ≡ self.old.held.faults) }
        ensures rose { OnErr result (RoseByOne self.old.held.faults self.new.held.faults) }
        ensures kept { OnErr result (self.new.held.bytes ≡ self.old.held.bytes) }
    {
        if self.script.fails_next() {
            return Err(self.held.fail());
        }
        let size = piece.len().min(self.piece);
        self.held.write(&piece[..size])
    }
}
