//! Instances in a row.

/// Instances in a row at that depth: from one to the next the counted argument is greater by one, and they are at most so many. The
/// record of the first may lie at that place, where it is looked for first. What they have read is asked for where it is kept.
#[derive(Clone, Copy)]
pub struct Series {
    pub counted: usize,
    pub most: u32,
    pub depth: u32,
    pub near: usize,
    pub keeps: bool,
}
