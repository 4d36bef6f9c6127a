ghost use Rattle.std.specs.Prelude.{◌≡◌, ◌+◌, ◌≤◌, [], ◌∷◌, All, length};
ghost use Rattle.plan_shelf.specs.Tied.{IsTied};

use plan_crew::{EditEnd, Job, MOST_QUESTIONS, NoMemory, Outcome, Said, answer_lane, round};
use plan_shelf::{Editor, Reader, Shelf};
use plan_watch::{Gate, OpenGate, Place};
use std::alloc::Global;
use std::process::Abort;
use std::sync::atomic::{AtomicBool, Ordering};
use std::sync::{Arc, Wait};
use std::test::Fail;
use std::thread::Threads;

// Entries are numbers, and their own versions. A change of 0 is refused, and any other leads to the
// next number. A question is answered by its sum with the entry.
struct Numbers;

impl Job for Numbers {
    ghost use Rattle.std.specs.Prelude.{◌≡◌, ◌+◌};
    ghost use Rattle.plan_crew.specs.Numbers.{counted, counted_rises};

    type Entry = u32;

    type Change = u32;

    type Question = u32;

    type Refused = u32;

    type Answer = u64;

    ghost version_of = { λ e. e };

    ghost takes = { λ job c. Unit {0} };

    ghost asks = { λ job q. Unit {0} };

    ghost makes = { λ job e c o. o ≡ counted e c };

    ghost gives = { λ job e q a. a ≡ e + q };

    ghost rises = { λ job e c next is. counted_rises e c next is };

    fn version(&self, entry: &u32) -> u32 {
        *entry
    }

    fn apply<R: Threads + Sync>(
        &self,
        _rt: &R,
        _alloc: Global,
        entry: &u32,
        change: &u32,
    ) -> Result<Outcome<u32, u32>, NoMemory> {
        if *change == 0 {
            Ok(Outcome::Refused(*entry))
        } else {
            Ok(Outcome::Taken(*entry + 1))
        }
    }

    fn answer<R: Threads + Sync>(
        &self,
        _rt: &R,
        _alloc: Global,
        entry: &u32,
        question: &u32,
    ) -> Result<u64, NoMemory> {
        Ok(u64::from(*entry) + u64::from(*question))
    }
}

#[test]
fn a_lane_answers_for_the_entry_that_its_reader_was_told_of(rt: HostRuntime) -> Result<(), Fail> {
    let alloc = rt.alloc();
    let (mut editor, mut readers) = Shelf::start(&rt, alloc, Arc::new(alloc, 0)?, 1)?;
    let answer = learns_and_answers(&rt, alloc, &mut editor, &mut readers);
    editor.finish(&rt);
    answer
}

fn learns_and_answers<R: Threads + Wait + Abort + Sync>(
    rt: &R,
    alloc: Global,
    editor: &mut Editor<u32>,
    readers: &mut Vec<Reader<u32>>,
) -> Result<(), Fail>
    requires tied { IsTied editor.old }
    requires room { length editor.old.list ≤ 1 }
    requires readers { All (λ r. r.shelf ≡ editor.old.shelf) readers.old.items }
{
    let Some(mut reader) = readers.pop() else {
        return Err(Fail::from("a reader"));
    };
    editor.publish(rt, Arc::new(alloc, 1)?)?;
    let told = editor.told()?;
    assert!(rt; reader.learn(told));
    let questions = [5, 7];
    let said = answer_lane(
        rt,
        alloc,
        &Numbers,
        &OpenGate,
        1,
        1,
        &mut reader,
        questions.as_slice(),
    )?;
    assert_eq!(rt; said.len(), 2);
    assert_eq!(rt; (said[0].version, said[0].answer), (1, 6));
    assert_eq!(rt; (said[1].version, said[1].answer), (1, 8));
    Ok(())
}

// Adds a lane of these questions.
fn add(alloc: Global, lanes: &mut Vec<Vec<u32>>, questions: &[u32]) -> Result<(), Fail>
    requires few { length questions.now ≤ MOST_QUESTIONS }
    requires lanes { All (λ v. length v.items ≤ MOST_QUESTIONS) lanes.old.items }
    ensures lanes { All (λ v. length v.items ≤ MOST_QUESTIONS) lanes.new.items }
    ensures count { length lanes.new.items ≤ length lanes.old.items + 1 }
{
    lanes.push(questions.to_vec(alloc)?)?;
    Ok(())
}

// Whether the edits ended so, each accepted with a version or refused at an entry.
fn ended(ends: &[EditEnd<Numbers>], expected: &[Result<u32, u32>]) -> bool {
    if ends.len() != expected.len() {
        return false;
    }
    for k in 0..ends.len() {
        let end = match &ends[k] {
            EditEnd::Accepted { version } => Ok(*version),
            EditEnd::Refused(why) => Err(*why),
        };
        if end != expected[k] {
            return false;
        }
    }
    true
}

// Whether the questions are answered, for entries that never fall and lie between these.
fn replied(said: &[Said<Numbers>], questions: &[u32], least: u32, most: u32) -> bool {
    if said.len() != questions.len() {
        return false;
    }
    let mut version = least;
    for k in 0..said.len() {
        let one = &said[k];
        let right = u64::from(one.version) + u64::from(questions[k]);
        if one.version < version || most < one.version || one.answer != right {
            return false;
        }
        version = one.version;
    }
    true
}

#[test]
fn two_lanes_ask_beside_an_edit(rt: HostRuntime) -> Result<(), Fail> {
    let alloc = rt.alloc();
    let (mut editor, mut readers) = Shelf::start(&rt, alloc, Arc::new(alloc, 0)?, 2)?;
    let answer = ask_beside_an_edit(&rt, alloc, &mut editor, &mut readers);
    editor.finish(&rt);
    answer
}

fn ask_beside_an_edit<R: Threads + Wait + Abort + Sync>(
    rt: &R,
    alloc: Global,
    editor: &mut Editor<u32>,
    readers: &mut Vec<Reader<u32>>,
) -> Result<(), Fail>
    requires tied { IsTied editor.old }
    requires first { editor.old.list ≡ 0 ∷ [] }
    requires readers { All (λ r. r.shelf ≡ editor.old.shelf) readers.old.items }
{
    let mut lanes = Vec::new(alloc);
    add(alloc, &mut lanes, &[5, 7])?;
    add(alloc, &mut lanes, &[9])?;
    let end = round(
        rt,
        alloc,
        &Numbers,
        &OpenGate,
        1,
        editor,
        readers,
        &[1],
        &lanes,
    )?;
    assert!(rt; ended(&end.edits, &[Ok(1)]));
    assert_eq!(rt; end.lanes.len(), 2);
    assert!(rt; replied(&end.lanes[0], &[5, 7], 0, 1));
    assert!(rt; replied(&end.lanes[1], &[9], 0, 1));
    assert_eq!(rt; readers.len(), 2);
    assert!(rt; readers.iter().all(|reader| reader.place() == 1));
    Ok(())
}

#[test]
fn a_lane_asks_and_nothing_is_edited(rt: HostRuntime) -> Result<(), Fail> {
    let alloc = rt.alloc();
    let (mut editor, mut readers) = Shelf::start(&rt, alloc, Arc::new(alloc, 0)?, 1)?;
    let answer = ask_alone(&rt, alloc, &mut editor, &mut readers);
    editor.finish(&rt);
    answer
}

fn ask_alone<R: Threads + Wait + Abort + Sync>(
    rt: &R,
    alloc: Global,
    editor: &mut Editor<u32>,
    readers: &mut Vec<Reader<u32>>,
) -> Result<(), Fail>
    requires tied { IsTied editor.old }
    requires first { editor.old.list ≡ 0 ∷ [] }
    requires readers { All (λ r. r.shelf ≡ editor.old.shelf) readers.old.items }
{
    let mut lanes = Vec::new(alloc);
    add(alloc, &mut lanes, &[5, 7])?;
    let end = round(
        rt,
        alloc,
        &Numbers,
        &OpenGate,
        1,
        editor,
        readers,
        &[],
        &lanes,
    )?;
    assert!(rt; end.edits.is_empty());
    assert_eq!(rt; end.lanes.len(), 1);
    assert!(rt; replied(&end.lanes[0], &[5, 7], 0, 0));
    Ok(())
}

#[test]
fn a_refused_edit_keeps_the_entry_and_no_lane_asks(rt: HostRuntime) -> Result<(), Fail> {
    let alloc = rt.alloc();
    let (mut editor, mut readers) = Shelf::start(&rt, alloc, Arc::new(alloc, 0)?, 1)?;
    let answer = edit_alone(&rt, alloc, &mut editor, &mut readers);
    editor.finish(&rt);
    answer
}

fn edit_alone<R: Threads + Wait + Abort + Sync>(
    rt: &R,
    alloc: Global,
    editor: &mut Editor<u32>,
    readers: &mut Vec<Reader<u32>>,
) -> Result<(), Fail>
    requires tied { IsTied editor.old }
    requires first { editor.old.list ≡ 0 ∷ [] }
    requires readers { All (λ r. r.shelf ≡ editor.old.shelf) readers.old.items }
{
    let end = round(
        rt,
        alloc,
        &Numbers,
        &OpenGate,
        1,
        editor,
        readers,
        &[1, 0, 1],
        &[],
    )?;
    assert!(rt; ended(&end.edits, &[Ok(1), Err(1), Ok(2)]));
    assert!(rt; end.lanes.is_empty());
    assert!(rt; readers.iter().all(|reader| reader.place() == 2));
    Ok(())
}

#[test]
fn lanes_without_readers_are_answered_at_the_last_version(rt: HostRuntime) -> Result<(), Fail> {
    let alloc = rt.alloc();
    let (mut editor, readers) = Shelf::start(&rt, alloc, Arc::new(alloc, 0)?, 1)?;
    drop(readers);
    let answer = ask_without_readers(&rt, alloc, &mut editor);
    editor.finish(&rt);
    answer
}

fn ask_without_readers<R: Threads + Wait + Abort + Sync>(
    rt: &R,
    alloc: Global,
    editor: &mut Editor<u32>,
) -> Result<(), Fail>
    requires tied { IsTied editor.old }
    requires first { editor.old.list ≡ 0 ∷ [] }
{
    let mut readers = Vec::new(alloc);
    let mut lanes = Vec::new(alloc);
    add(alloc, &mut lanes, &[5, 7])?;
    add(alloc, &mut lanes, &[9])?;
    let end = round(
        rt,
        alloc,
        &Numbers,
        &OpenGate,
        1,
        editor,
        &mut readers,
        &[1, 1],
        &lanes,
    )?;
    assert_eq!(rt; end.lanes.len(), 2);
    assert!(rt; replied(&end.lanes[0], &[5, 7], 2, 2));
    assert!(rt; replied(&end.lanes[1], &[9], 2, 2));
    Ok(())
}

// A gate that holds the editor at its first two edits until the first lane is at its second
// question, and that lane there until the editor is at its second edit.
#[derive(Drop)]
struct Holding {
    asked: AtomicBool,
    edited: AtomicBool,
    failed: AtomicBool,
}

impl Holding {
    fn new() -> Holding {
        Holding {
            asked: AtomicBool::new(false),
            edited: AtomicBool::new(false),
            failed: AtomicBool::new(false),
        }
    }

    // Waits for the other, and notes a failure where it does not come.
    fn hold(&self, other: &AtomicBool) {
        for _ in 0..100_000_000 {
            if other.load(Ordering::SeqCst) {
                return;
            }
        }
        self.failed.store(true, Ordering::SeqCst);
    }
}

impl Gate for Holding {
    fn pass(&self, place: Place) {
        match place {
            Place::Edit { edit: 1, .. } => self.hold(&self.asked),
            Place::Edit { edit: 2, .. } => {
                self.edited.store(true, Ordering::SeqCst);
                self.hold(&self.asked);
            }
            Place::Question {
                lane: 1,
                query: 2,
                ..
            } => {
                self.asked.store(true, Ordering::SeqCst);
                self.hold(&self.edited);
            }
            _ => (),
        }
    }
}

// It needs a machine that gives threads: on one that gives none it fails.
#[test]
fn a_lane_asks_before_and_after_an_edit(rt: HostRuntime) -> Result<(), Fail> {
    let alloc = rt.alloc();
    let (mut editor, mut readers) = Shelf::start(&rt, alloc, Arc::new(alloc, 0)?, 1)?;
    let answer = ask_before_and_after(&rt, alloc, &mut editor, &mut readers);
    editor.finish(&rt);
    answer
}

fn ask_before_and_after<R: Threads + Wait + Abort + Sync>(
    rt: &R,
    alloc: Global,
    editor: &mut Editor<u32>,
    readers: &mut Vec<Reader<u32>>,
) -> Result<(), Fail>
    requires tied { IsTied editor.old }
    requires first { editor.old.list ≡ 0 ∷ [] }
    requires readers { All (λ r. r.shelf ≡ editor.old.shelf) readers.old.items }
{
    let gate = Holding::new();
    let mut lanes = Vec::new(alloc);
    add(alloc, &mut lanes, &[5, 7])?;
    let end = round(
        rt,
        alloc,
        &Numbers,
        &gate,
        1,
        editor,
        readers,
        &[1, 1],
        &lanes,
    )?;
    assert!(rt; !gate.failed.load(Ordering::SeqCst));
    assert!(rt; ended(&end.edits, &[Ok(1), Ok(2)]));
    assert_eq!(rt; end.lanes.len(), 1);
    let said = &end.lanes[0];
    assert_eq!(rt; said.len(), 2);
    assert!(rt; replied(said, &[5, 7], 0, 2));
    assert!(rt; said[0].version == 0 && said[1].version >= 1);
    Ok(())
}
