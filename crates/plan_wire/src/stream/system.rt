ghost use Rattle.std.specs.Prelude.{◌≡◌, None};
ghost use Rattle.std.proofs.Common.{rules};
ghost use Rattle.plan_wire.specs.Stream.{RoseByOne};

use super::failed::Failed;
use super::sink::Sink;
use super::source::Source;
use std::io;

/// A source over a reader of the system, as standard input. It does not tell its bytes.
#[derive(Drop)]
pub struct StreamSource<I> {
    input: I,
    faults: u64,
}

impl<I: io::Read> StreamSource<I> {
    /// A source of what the reader gives.
    pub fn new(input: I) -> StreamSource<I>
        ensures input { result.input ≡ input }
        ensures faults { result.faults ≡ 0 }
    {
        StreamSource { input, faults: 0 }
    }
}

impl<I: io::Read> Source for StreamSource<I> {
    ghost remaining = { λ _. None };

    ghost faults = { λ s. s.faults };

    ghost rises = { RoseByOne };

    ghost rises_at_least = { λ _ _ rose. Prim.search rules };

    fn read(&mut self, room: &mut [u8]) -> Result<usize, Failed> {
        let n = self.input.read(room);
        if n.is_err() {
            self.faults = self.faults.saturating_add(1);
        }
        n.map_err(|_| Failed)
    }
}

/// A sink over a writer of the system, as standard output. It does not tell its bytes.
#[derive(Drop)]
pub struct StreamSink<O> {
    output: O,
    faults: u64,
}

impl<O: io::Write> StreamSink<O> {
    /// A sink that gives everything to the writer.
    pub fn new(output: O) -> StreamSink<O>
        ensures output { result.output ≡ output }
        ensures faults { result.faults ≡ 0 }
    {
        StreamSink { output, faults: 0 }
    }
}

impl<O: io::Write> Sink for StreamSink<O> {
    ghost written = { λ _. None };

    ghost faults = { λ s. s.faults };

    ghost rises = { RoseByOne };

    ghost rises_at_least = { λ _ _ rose. Prim.search rules };

    fn write(&mut self, piece: &[u8]) -> Result<usize, Failed> {
        match self.output.write(piece) {
            Ok(n) if n > 0 || piece.is_empty() => Ok(n),
            _ => {
                self.faults = self.faults.saturating_add(1);
                Err(Failed)
            }
        }
    }
}
