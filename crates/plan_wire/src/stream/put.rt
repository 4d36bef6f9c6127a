ghost use Rattle.std.specs.Prelude.{◌≡◌, ◌≤◌, OnOk, OnErr};
ghost use Rattle.plan_wire.specs.Stream.{Appends, AppendsPart};

use super::failed::Failed;
use super::sink::Sink;

/// Writes the whole line. What the sink does not take at once is offered again.
pub fn put_line<K: Sink>(sink: &mut K, line: &[u8]) -> Result<(), Failed>
    ensures count { K.faults sink.old ≤ K.faults sink.new }
    ensures put { OnOk result (Appends (K.written sink.old) (K.written sink.new) line.now) }
    ensures still { OnOk result (K.faults sink.new ≡ K.faults sink.old) }
    ensures rose { OnErr result (K.rises (K.faults sink.old) (K.faults sink.new)) }
    ensures part { OnErr result (AppendsPart (K.written sink.old) (K.written sink.new) line.now) }
{
    let mut done = 0;
    while done < line.len() {
        let n = sink.write(&line[done..])?;
        done += n;
    }
    Ok(())
}
