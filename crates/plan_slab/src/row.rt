use std::ops::Range;

/// The neighbours of a region: the numbers of those on its left, and of those on its right.
#[derive(Debug, Drop)]
pub struct Row {
    pub left: Range<u32>,
    pub right: Range<u32>,
}
