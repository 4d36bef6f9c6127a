//! The edge of the planner: sources and sinks of bytes, the document that bytes are, and the text of a certificate.
#![tactic(auto)]

mod documents;
pub mod laws;
mod no_memory;
mod print;
mod stream;

pub use documents::{Change, Document, Shape, Task, Turn, Want, WireFault, read_document};
pub use no_memory::NoMemory;
pub use print::{print_certificate, put_certificate};
pub use stream::{
    Failed, MOST_BYTES, MemorySink, MemorySource, Sink, Source, SteadySink, SteadySource,
    StreamSink, StreamSource, TakeFault, put_line, take_all,
};
