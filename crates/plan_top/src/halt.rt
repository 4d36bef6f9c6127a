/// Why lines are not all written.
#[derive(Clone, Copy, Debug, PartialEq, Eq)]
pub enum Halt {
    /// The sink failed.
    WriteFault,
    /// There was no memory for a line.
    NoMemory,
}
