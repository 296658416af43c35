//! Where a strand begins.
ghost use Rattle.std.specs.Prelude.{◌≡◌};
ghost use Rattle.positions.specs.Strands.{entry_by};

/// A strand begins at the run's beginning, or behind the child of that number of the instance whose name is the first `depth`
/// numbers of the topmost instance's name.
#[derive(Clone, Copy, PartialEq, Eq)]
pub enum Start {
    Root,
    Behind { depth: usize, child: usize },
}

impl Start {
    /// Whether a strand that begins here begins in the instance of that name, so that it may not pass that one's syncs.
    pub fn is_in(self, name: &[usize]) -> bool
        ensures entry { result ≡ entry_by self name.now }
    {
        match self {
            Start::Root => false,
            Start::Behind { depth, child: _ } => name.len() == depth,
        }
    }
}
