// The rounds of a session, one after another.
ghost use Rattle.std.specs.Prelude.{◌≡◌, ◌≤◌, [], ◌∷◌, All, length, map};
ghost use Rattle.plan_shelf.specs.Tied.{IsTied};
ghost use Rattle.plan_wire.specs.Bounds.{AtMost};
ghost use Rattle.plan_scene.specs.Scene.{IsScene};
ghost use Rattle.plan_top.specs.Outcome.{SinkCount};
ghost use Rattle.plan_top.specs.Played.{RoundFits, RoundsOutcome, round_seen};
ghost use Rattle.plan_top.specs.Watching.{AreTold};

use crate::halt::Halt;
use crate::planning::{Planning, Version};
use crate::round_lines::{write_end, write_round};
use crate::session::Round;
use crate::status::Status;
use crate::tell::tell_round;
use plan_crew::round;
use plan_reply::{RingedStand, Stand};
use plan_shelf::{Editor, Reader, Shelf};
use plan_watch::{Gate, Watcher};
use plan_wire::Sink;
use std::alloc::Global;
use std::sync::{Arc, Wait};
use std::thread::Threads;

// The most readers of a shelf, one for each lane.
const READERS: u8 = 8;

/// Plays the rounds from the first stand on, and writes their lines, each round's once it has ended; then the last line.
/// It may wait.
pub fn play<R: Threads + Wait + Sync, K: Sink, G: Gate>(
    rt: &R,
    alloc: Global,
    stand: Stand,
    rounds: &[Round],
    workers: u8,
    sink: &mut K,
    gate: &G,
    watchers: &mut Vec<Box<dyn Watcher>>,
) -> Status
    requires least { 1 ≤ workers }
    requires most { workers ≤ 16 }
    requires fits { AtMost 64 RoundFits rounds.now }
    requires room { All (λ w. 2048 ≤ room w) watchers.old.items }
    ensures outcome { RoundsOutcome stand (map round_seen rounds.now) (K.written sink.old) (K.written sink.new)
        (AreTold (map (λ w. (heard w, steady w)) watchers.old.items) (map (λ w. (heard w, steady w)) watchers.new.items)) result }
    ensures count { SinkCount K.rises (K.faults sink.old) (K.faults sink.new) result }
    ensures monotone { K.faults sink.old ≤ K.faults sink.new }
{
    let obstacles = stand.scene().count();
    let Ok(stand) = RingedStand::of(alloc, stand) else {
        return Status::NoMemory;
    };
    let Ok(first) = Arc::new(alloc, Version { number: 0, stand }) else {
        return Status::NoMemory;
    };
    let planning = Planning { workers };
    match Shelf::start(rt, alloc, first, READERS) {
        Ok((mut editor, mut readers)) => {
            let status = play_all(
                rt,
                alloc,
                &planning,
                gate,
                &mut editor,
                &mut readers,
                rounds,
                obstacles,
                sink,
                watchers,
            );
            editor.finish(rt);
            status
        }
        Err(_) => Status::NoMemory,
    }
}

// Plays all rounds, with an editor that has published the first version alone, which has so many obstacles.
fn play_all<R: Threads + Wait + Sync, K: Sink, G: Gate>(
    rt: &R,
    alloc: Global,
    planning: &Planning,
    gate: &G,
    editor: &mut Editor<Version>,
    readers: &mut Vec<Reader<Version>>,
    rounds: &[Round],
    obstacles: u32,
    sink: &mut K,
    watchers: &mut Vec<Box<dyn Watcher>>,
) -> Status
    requires least { 1 ≤ planning.now.workers }
    requires most { planning.now.workers ≤ 16 }
    requires fits { AtMost 64 RoundFits rounds.now }
    requires tied { IsTied editor.old }
    requires readers { All (λ r. r.shelf ≡ editor.old.shelf) readers.old.items }
    requires one { length editor.old.list ≡ 1 }
    requires first { All (λ v. (v.number ≡ 0) × IsScene v.stand × (obstacles ≡ length v.stand.obstacles)) editor.old.list }
    requires room { All (λ w. 2048 ≤ room w) watchers.old.items }
    ensures outcome { (v : _) → editor.old.list ≡ v ∷ [] → RoundsOutcome v.stand (map round_seen rounds.now) (K.written sink.old) (K.written sink.new)
        (AreTold (map (λ w. (heard w, steady w)) watchers.old.items) (map (λ w. (heard w, steady w)) watchers.new.items)) result }
    ensures count { SinkCount K.rises (K.faults sink.old) (K.faults sink.new) result }
    ensures monotone { K.faults sink.old ≤ K.faults sink.new }
{
    let mut count = obstacles;
    for at in 0..rounds.len() {
        let number = at as u32 + 1;
        let turn = &rounds[at];
        let edits = turn.edits.as_slice();
        let lanes = turn.lanes.as_slice();
        let end = match round(
            rt, alloc, planning, gate, number, editor, readers, edits, lanes,
        ) {
            Ok(end) => end,
            Err(_) => return Status::NoMemory,
        };
        count = tell_round(watchers, edits, end.edits.as_slice(), count);
        match write_round(alloc, sink, number, end) {
            Ok(()) => {}
            Err(Halt::WriteFault) => return Status::WriteFault,
            Err(Halt::NoMemory) => return Status::NoMemory,
        }
    }
    match editor.told() {
        Ok(last) => write_end(alloc, sink, last.place),
        Err(_) => Status::NoMemory,
    }
}
