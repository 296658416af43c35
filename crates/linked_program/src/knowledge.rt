//! What is known of a procedure's variables at a statement.

/// A statement by where it stands: how deep its block lies, counted from 0, and which of the block's statements it is, counted from 1.
#[derive(Clone, Copy)]
pub struct Moment {
    pub depth: usize,
    pub place: usize,
}

/// What is known of a variable.
#[derive(Clone, Copy)]
pub enum Knowledge {
    /// Bound by no statement before.
    Unbound,
    /// Bound in a block that has ended.
    Ended,
    /// Bound at a statement of this block or of one round it, by a spawn or otherwise.
    Known { since: Moment, spawned: bool },
}
