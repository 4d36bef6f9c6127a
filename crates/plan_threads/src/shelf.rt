ghost use Rattle.std.specs.Prelude.{◌≡◌, ◌+◌, ◌≤◌, All, IfOk, length};
ghost use Rattle.std.specs.Thread.{IsSync};
ghost use Rattle.plan_shelf.specs.Tied.{IsTied};

use plan_shelf::{Editor, MOST_PUBLISHED, NoMemory, Reader, Shelf};
use std::alloc::Global;
use std::process::Abort;
use std::sync::{Arc, Wait};
use std::test::Fail;
use std::thread;
use std::thread::{Threads, join_mut};

// Takes out a reader of the editor's shelf.
fn pop<T: Drop>(editor: &Editor<T>, readers: &mut Vec<Reader<T>>) -> Result<Reader<T>, Fail>
    requires { All (λ r. r.shelf ≡ editor.now.shelf) readers.old.items }
    ensures others { All (λ r. r.shelf ≡ editor.now.shelf) readers.new.items }
    ensures one { IfOk result (λ r. r.shelf ≡ editor.now.shelf) }
{
    match readers.pop() {
        Some(reader) => Ok(reader),
        None => Err(Fail::from("a reader")),
    }
}

// Publishes one entry more.
fn publish<R: Wait>(
    rt: &R,
    alloc: Global,
    editor: &mut Editor<char>,
    entry: char,
) -> Result<(), Fail>
    requires tied { IsTied editor.old }
    requires room { length editor.old.list ≤ MOST_PUBLISHED }
    ensures tied { IsTied editor.new }
    ensures shelf { editor.new.shelf ≡ editor.old.shelf }
    ensures list { length editor.new.list ≤ length editor.old.list + 1 }
{
    editor.publish(rt, Arc::new(alloc, entry)?)?;
    Ok(())
}

// The reader looks, and finds this entry at this place.
fn finds<R: Abort>(rt: &R, reader: &mut Reader<char>, entry: char, place: u32)
    ensures { reader.new.shelf ≡ reader.old.shelf }
{
    assert_eq!(rt; *reader.look(), entry);
    is_at(rt, reader, place);
}

fn is_at<R: Abort>(rt: &R, reader: &Reader<char>, place: u32) {
    assert_eq!(rt; reader.place(), place);
}

// The reader learns what the editor tells, which is this entry at this place.
fn learns<R: Abort>(
    rt: &R,
    editor: &mut Editor<char>,
    reader: &mut Reader<char>,
    entry: char,
    place: u32,
) -> Result<(), Fail>
    requires { reader.old.shelf ≡ editor.old.shelf }
    ensures editor { editor.new ≡ editor.old }
    ensures reader { reader.new.shelf ≡ reader.old.shelf }
{
    let told = editor.told()?;
    assert_eq!(rt; (told.place, *told.entry), (place, entry));
    assert!(rt; reader.learn(told));
    Ok(())
}

// The reader settles with what the editor tells.
fn settles<R: Abort>(
    rt: &R,
    editor: &mut Editor<char>,
    reader: &mut Reader<char>,
) -> Result<(), Fail>
    requires { reader.old.shelf ≡ editor.old.shelf }
    ensures editor { editor.new ≡ editor.old }
    ensures reader { reader.new.shelf ≡ reader.old.shelf }
{
    let told = editor.told()?;
    assert!(rt; reader.settle(told));
    Ok(())
}

#[test]
fn a_reader_learns_looks_and_settles(rt: HostRuntime) -> Result<(), Fail> {
    let alloc = rt.alloc();
    let (mut editor, mut readers) = Shelf::start(&rt, alloc, Arc::new(alloc, 'A')?, 2)?;
    let answer = learns_looks_and_settles(&rt, alloc, &mut editor, &mut readers);
    editor.finish(&rt);
    answer
}

fn learns_looks_and_settles<R: Wait + Abort>(
    rt: &R,
    alloc: Global,
    editor: &mut Editor<char>,
    readers: &mut Vec<Reader<char>>,
) -> Result<(), Fail>
    requires tied { IsTied editor.old }
    requires room { length editor.old.list ≤ 1 }
    requires readers { All (λ r. r.shelf ≡ editor.old.shelf) readers.old.items }
{
    let mut reader = pop(editor, readers)?;
    learns_and_settles(rt, alloc, editor, &mut reader)
}

fn learns_and_settles<R: Wait + Abort>(
    rt: &R,
    alloc: Global,
    editor: &mut Editor<char>,
    reader: &mut Reader<char>,
) -> Result<(), Fail>
    requires tied { IsTied editor.old }
    requires room { length editor.old.list ≤ 1 }
    requires reader { reader.old.shelf ≡ editor.old.shelf }
{
    finds(rt, reader, 'A', 0);
    publish(rt, alloc, editor, 'B')?;
    learns(rt, editor, reader, 'B', 1)?;
    finds(rt, reader, 'B', 1);
    settles(rt, editor, reader)?;
    is_at(rt, reader, 1);
    Ok(())
}

#[test]
fn a_reader_that_knows_more_does_not_settle(rt: HostRuntime) -> Result<(), Fail> {
    let alloc = rt.alloc();
    let (mut editor, mut readers) = Shelf::start(&rt, alloc, Arc::new(alloc, 'A')?, 2)?;
    let answer = settles_or_knows_more(&rt, alloc, &mut editor, &mut readers);
    editor.finish(&rt);
    answer
}

fn settles_or_knows_more<R: Wait + Abort>(
    rt: &R,
    alloc: Global,
    editor: &mut Editor<char>,
    readers: &mut Vec<Reader<char>>,
) -> Result<(), Fail>
    requires tied { IsTied editor.old }
    requires room { length editor.old.list ≤ 1 }
    requires readers { All (λ r. r.shelf ≡ editor.old.shelf) readers.old.items }
{
    let mut one = pop(editor, readers)?;
    let mut two = pop(editor, readers)?;
    finds(rt, &mut one, 'A', 0);
    let early = editor.told()?;
    both_settle(rt, alloc, editor, &mut one, &mut two)?;
    assert!(rt; !two.settle(early));
    is_at(rt, &two, 1);
    finds(rt, &mut two, 'B', 1);
    Ok(())
}

fn both_settle<R: Wait + Abort>(
    rt: &R,
    alloc: Global,
    editor: &mut Editor<char>,
    one: &mut Reader<char>,
    two: &mut Reader<char>,
) -> Result<(), Fail>
    requires tied { IsTied editor.old }
    requires room { length editor.old.list ≤ 1 }
    requires readers { (one.old.shelf ≡ editor.old.shelf) × (two.old.shelf ≡ editor.old.shelf) }
    ensures { two.new.shelf ≡ two.old.shelf }
{
    publish(rt, alloc, editor, 'B')?;
    finds(rt, two, 'B', 1);
    settles(rt, editor, one)?;
    settles(rt, editor, two)?;
    is_at(rt, one, 1);
    is_at(rt, two, 1);
    Ok(())
}

#[test]
fn a_reader_looks_between_two_publishes(rt: HostRuntime) -> Result<(), Fail> {
    let alloc = rt.alloc();
    let (mut editor, mut readers) = Shelf::start(&rt, alloc, Arc::new(alloc, 'A')?, 1)?;
    let answer = looks_between(&rt, alloc, &mut editor, &mut readers);
    editor.finish(&rt);
    answer
}

fn looks_between<R: Wait + Abort>(
    rt: &R,
    alloc: Global,
    editor: &mut Editor<char>,
    readers: &mut Vec<Reader<char>>,
) -> Result<(), Fail>
    requires tied { IsTied editor.old }
    requires room { length editor.old.list ≤ 1 }
    requires readers { All (λ r. r.shelf ≡ editor.old.shelf) readers.old.items }
{
    let mut reader = pop(editor, readers)?;
    publish(rt, alloc, editor, 'B')?;
    let told = editor.told()?;
    finds_the_next(rt, alloc, editor, &mut reader)?;
    assert!(rt; reader.learn(told));
    finds(rt, &mut reader, 'C', 2);
    Ok(())
}

// It looks before and after the second publish, and keeps its entry until the second look.
fn finds_the_next<R: Wait + Abort>(
    rt: &R,
    alloc: Global,
    editor: &mut Editor<char>,
    reader: &mut Reader<char>,
) -> Result<(), Fail>
    requires tied { IsTied editor.old }
    requires room { length editor.old.list ≤ 2 }
    ensures { reader.new.shelf ≡ reader.old.shelf }
{
    finds(rt, reader, 'B', 1);
    publish(rt, alloc, editor, 'C')?;
    is_at(rt, reader, 1);
    finds(rt, reader, 'C', 2);
    Ok(())
}

#[test]
fn a_reader_keeps_its_entry_when_the_editor_is_gone(rt: HostRuntime) -> Result<(), Fail> {
    let alloc = rt.alloc();
    let (mut editor, mut readers) = Shelf::start(&rt, alloc, Arc::new(alloc, 'A')?, 2)?;
    let answer = one_looks(&rt, alloc, &mut editor, &mut readers);
    editor.finish(&rt);
    let mut late = answer?;
    both_keep(&rt, &mut late, &mut readers)
}

// One has looked after the publish, and the other never.
fn both_keep<R: Abort>(
    rt: &R,
    late: &mut Reader<char>,
    readers: &mut Vec<Reader<char>>,
) -> Result<(), Fail> {
    let mut early = readers.pop().ok_or("a reader")?;
    finds(rt, late, 'B', 1);
    finds(rt, &mut early, 'A', 0);
    Ok(())
}

// The reader that looked after the publish.
fn one_looks<R: Wait + Abort>(
    rt: &R,
    alloc: Global,
    editor: &mut Editor<char>,
    readers: &mut Vec<Reader<char>>,
) -> Result<Reader<char>, Fail>
    requires tied { IsTied editor.old }
    requires room { length editor.old.list ≤ 1 }
{
    let mut reader = readers.pop().ok_or("a reader")?;
    publish(rt, alloc, editor, 'B')?;
    finds(rt, &mut reader, 'B', 1);
    Ok(reader)
}

#[test]
fn eight_readers_see_each_entry(rt: HostRuntime) -> Result<(), Fail> {
    let alloc = rt.alloc();
    let (mut editor, mut readers) = Shelf::start(&rt, alloc, Arc::new(alloc, 0)?, 8)?;
    let answer = all_see(&rt, alloc, &mut editor, &mut readers);
    editor.finish(&rt);
    answer
}

fn all_see<R: Wait + Abort>(
    rt: &R,
    alloc: Global,
    editor: &mut Editor<u32>,
    readers: &mut Vec<Reader<u32>>,
) -> Result<(), Fail>
    requires tied { IsTied editor.old }
    requires room { length editor.old.list ≤ 1 }
{
    assert_eq!(rt; readers.len(), 8);
    assert!(rt; readers.iter_mut().all(|r| *r.look() == 0 && r.place() == 0));
    publish_numbers(rt, alloc, editor, 2)?;
    assert!(rt; readers.iter_mut().all(|r| *r.look() == 2 && r.place() == 2));
    Ok(())
}

// Publishes the numbers from 1 to the last.
fn publish_numbers<R: Wait>(
    rt: &R,
    alloc: Global,
    editor: &mut Editor<u32>,
    last: u32,
) -> Result<(), NoMemory>
    requires tied { IsTied editor.old }
    requires room { length editor.old.list + last ≤ MOST_PUBLISHED + 1 }
    ensures { IsTied editor.new }
{
    for k in 0..last {
        let entry = Arc::new(alloc, k + 1).map_err(|_| NoMemory)?;
        editor.publish(rt, entry)?;
    }
    Ok(())
}

#[test]
fn as_many_entries_as_may_be_are_published_while_eight_threads_look(
    rt: HostRuntime,
) -> Result<(), Fail> {
    let alloc = rt.alloc();
    let (mut editor, mut readers) = Shelf::start(&rt, alloc, Arc::new(alloc, 0)?, 8)?;
    let published = looked_at(&rt, alloc, &mut editor, &mut readers);
    editor.finish(&rt);
    assert!(&rt; published);
    assert!(&rt; readers.iter_mut().all(|r| *r.look() == r.place()));
    Ok(())
}

// The editor publishes beside the readers that look, each in a thread of its own.
fn looked_at<R: Threads + Wait + Abort + Sync>(
    rt: &R,
    alloc: Global,
    editor: &mut Editor<u32>,
    readers: &mut [Reader<u32>],
) -> bool
    requires tied { IsTied editor.old }
    requires room { length editor.old.list ≤ 1 }
{
    let (published, ()) = join_mut(
        rt,
        &mut || -> bool
            requires { IsTied editor.now × (length editor.now.list ≤ 1) }
        { publish_numbers(rt, alloc, editor, MOST_PUBLISHED).is_ok() },
        &mut ||
            requires { IsSync R.row }
        { thread::for_each_mut(rt, readers, 8, &|_, reader| look_often(rt, reader)) },
    );
    published
}

// Places never fall, and each entry is that of its place.
fn look_often<R: Abort>(rt: &R, reader: &mut Reader<u32>) {
    let mut place = reader.place();
    for _ in 0..1000 {
        let entry = *reader.look();
        assert_eq!(rt; entry, reader.place());
        assert!(rt; place <= entry);
        place = entry;
    }
}
