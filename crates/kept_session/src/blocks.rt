// When blocks of records are made.

/// When blocks are made of the records that a run leaves, which answer together in later runs: as they are put in, or by
/// `Session::gather` alone, so that a run behind which there is none doesn't pay for them.
#[derive(Clone, Copy)]
pub enum Blocks {
    AtOnce,
    Later,
}

impl Blocks {
    /// Whether they are made as records are put in.
    pub(crate) fn are_at_once(self) -> bool {
        match self {
            Blocks::AtOnce => true,
            Blocks::Later => false,
        }
    }
}
