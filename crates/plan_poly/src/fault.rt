/// Why a list of spots is no polygon here. The first of these that holds, in this order, is the fault.
#[derive(Clone, Copy, Debug, PartialEq, Eq)]
pub enum PolyFault {
    /// There are fewer than 3 spots: this many.
    Few(u32),
    /// There are more than 32 spots: this many.
    Many(u32),
    /// The spot of this number, counted from 0, is the first with a coordinate above 1023 in absolute value.
    Range(u32),
    /// The edges of these numbers are the first two that meet wrongly, by the first number, then by the second. Edge i
    /// runs from spot i to the next, the last edge to spot 0, counted from 0. Two edges meet wrongly where they share a
    /// point other than the vertex that they have in common as neighbours; in a list of three equal spots edges 0 and 1
    /// do too.
    NotSimple(u32, u32),
}
