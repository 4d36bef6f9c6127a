//! How a shelf begins.
ghost use Rattle.std.specs.Prelude.{◌≡◌, ◌≤◌, [], ◌∷◌, All, IfOk, length};
ghost use Rattle.std.specs.Arc.{arc_value};
ghost use Rattle.plan_shelf.specs.History.{head_of};
ghost use Rattle.plan_shelf.specs.Tied.{Shows, IsTied};

use crate::copies::{Copies, copies, hand_out};
use crate::editor::{Editor, Publisher};
use crate::history::{History, add, open};
use crate::no_memory::NoMemory;
use crate::reader::Reader;
use crate::told::Told;
use logbook::Word;
use std::alloc::Global;
use std::sync::{Arc, Wait};

/// The published entries.
pub struct Shelf;

impl Shelf {
    /// A shelf with one entry: its editor, and at most so many readers, from 1 to 8. There may be
    /// fewer, which is no fault.
    pub fn start<T: Drop, R: Wait>(
        rt: &R,
        alloc: Global,
        first: Arc<T>,
        readers: u8,
    ) -> Result<(Editor<T>, Vec<Reader<T>>), NoMemory>
        requires { (1 ≤ readers) × (readers ≤ 8) }
        ensures editor { IfOk result (λ r. IsTied r.0 × (r.0.list ≡ arc_value first ∷ [])) }
        ensures readers { IfOk result (λ r.
            All (λ x. (x.shelf ≡ r.0.shelf) × (x.list ≡ arc_value first ∷ [])) r.1.items) }
        ensures most { IfOk result (λ r. length r.1.items ≤ readers) }
    {
        let (head, last) = begin(first)?;
        let mut writer = copies(rt, alloc, &last, readers)?;
        match hand_out_all(alloc, &mut writer, &last, readers) {
            Ok(all) => {
                let editor = Publisher {
                    writer: Some(writer),
                    head,
                    last,
                };
                Ok((editor, all))
            }
            Err(refused) => {
                drop(writer.take(rt));
                Err(refused)
            }
        }
    }
}

// A history with this entry, and the word that has its length.
fn begin<T: Drop>(entry: Arc<T>) -> Result<(Word<T, u64, History>, Told<T>), NoMemory>
    ensures head { IfOk result (λ r. r.0 ≡ head_of r.1.seen.book) }
    ensures list { IfOk result (λ r. r.1.seen.log ≡ arc_value entry ∷ []) }
{
    let (empty, head) = open();
    let seen = add(&head, &empty, 0, &entry).ok_or(NoMemory)?;
    let first = Told {
        place: 0,
        entry,
        seen,
    };
    Ok((head, first))
}

// At most so many readers, each with the list that is shown.
fn hand_out_all<T: Drop>(
    alloc: Global,
    writer: &mut Copies<T>,
    last: &Told<T>,
    readers: u8,
) -> Result<Vec<Reader<T>>, NoMemory>
    requires { Shows last.now.seen.book last.now.seen.log writer.old }
    ensures writer { Shows last.now.seen.book last.now.seen.log writer.new }
    ensures readers { IfOk result (λ v.
        All (λ r. (r.shelf ≡ last.now.seen.book) × (r.list ≡ last.now.seen.log)) v.items) }
    ensures most { IfOk result (λ v. length v.items ≤ readers) }
{
    let mut all = Vec::new(alloc);
    for _place in 0..readers {
        if let Ok(reader) = hand_out(writer, last) {
            all.push(reader).map_err(|_| NoMemory)?;
        }
    }
    Ok(all)
}
