mod failed;
mod memory;
mod put;
mod sink;
mod source;
mod steady;
mod system;
mod take;

pub use failed::Failed;
pub use memory::{MemorySink, MemorySource};
pub use put::put_line;
pub use sink::Sink;
pub use source::Source;
pub use steady::{SteadySink, SteadySource};
pub use system::{StreamSink, StreamSource};
pub use take::{MOST_BYTES, TakeFault, take_all};
