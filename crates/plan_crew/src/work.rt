//! A lane's reader and what it said, and readers moved in and back.
ghost use Rattle.std.specs.Prelude.{◌≡◌, ◌≤◌, [], map, length};
ghost use Rattle.std.specs.Vec.{vec_capacity};

use crate::ends::Said;
use crate::job::Job;
use crate::no_memory::NoMemory;
use plan_shelf::Reader;

// A reader, and what its lane said, once it has.
#[derive(Drop)]
pub(crate) struct Work<J: Job> {
    pub reader: Reader<J::Entry>,
    pub said: Option<Result<Vec<Said<J>>, NoMemory>>,
}

// Moves all readers, in order, each into a lane that has said nothing.
pub(crate) fn move_in<J: Job>(readers: &mut Vec<Reader<J::Entry>>, works: &mut Vec<Work<J>>)
    requires empty { works.old.items ≡ [] }
    requires room { length readers.old.items ≤ vec_capacity works.old }
    ensures moved { map (λ w. w.reader) works.new.items ≡ readers.old.items }
    ensures left { readers.new.items ≡ [] }
    ensures capacity { vec_capacity readers.new ≡ vec_capacity readers.old }
{
    while readers.len() > 0 {
        let reader = readers.remove(0);
        works.push_reserved(Work { reader, said: None });
    }
}

// Moves the readers back, in order.
pub(crate) fn move_out<J: Job>(works: &mut Vec<Work<J>>, readers: &mut Vec<Reader<J::Entry>>)
    requires empty { readers.old.items ≡ [] }
    requires room { length works.old.items ≤ vec_capacity readers.old }
    ensures readers { readers.new.items ≡ map (λ w. w.reader) works.old.items }
{
    while works.len() > 0 {
        let Work {
            reader,
            said: _said,
        } = works.remove(0);
        readers.push_reserved(reader);
    }
}
