//! Kinds of reducers, their values, and the laws that hold of them.
#![tactic(auto)]

ghost use Rattle.std.specs.Prelude.{◌≡◌, ℕ, ◌≤◌, ◌<◌, ◌-◌, ◌*◌, drop, replicate, slice_index};

mod kind_laws;

pub use kind_laws::laws_of;
use thiserror::Error;

/// An operation on the numbers below `size`, row by row: `a op b` stands at `a * size + b`. Cells behind the last row are 0.
#[derive(Clone, Copy, Debug, PartialEq, Eq)]
pub struct Table {
    pub size: u8,
    pub unit: u8,
    pub cells: [u8; 256],
    ghost unit_in: { unit < size },
    ghost few: { size ≤ 16 },
    ghost cells_in: { (i : ℕ) → i < size * size → slice_index cells i < size },
    // So equal tables are those with the same entries.
    ghost rest_zero: { drop (size * size) cells ≡ replicate (256 - size * size) 0 },
}

/// What a reducer's operation is.
#[derive(Clone, Copy, PartialEq, Eq)]
pub enum Kind {
    Add,
    Mul,
    Min,
    Max,
    And,
    Or,
    Xor,
    List,
    First(u16),
    Last(u16),
    Argmax,
    Affine,
    Hist,
    Table(Table),
}

/// A value of a reducer. Pieces are worth what they are joined, or merged by key.
#[derive(Debug, Drop, PartialEq, Eq)]
pub enum Val {
    Int(i64),
    List(Vec<i64>),
    Pieces(Vec<Vec<i64>>),
    Arg(Option<(i64, i64)>),
    Pair(i64, i64),
    Hist(Vec<(i64, i64)>),
    HistPieces(Vec<Vec<(i64, i64)>>),
    Elem(u8),
}

/// Why an update is refused.
#[derive(Clone, Copy, Debug, PartialEq, Eq, Error)]
pub enum InjectError {
    #[error("out of memory")]
    NoMemory,
    /// A table has no element of this number.
    #[error("bad element")]
    BadElement,
}

/// What a look at a table finds: its operation is a monoid, or the first failure of a law.
#[derive(Clone, Copy, PartialEq, Eq)]
pub enum TableAnswer {
    Monoid,
    NotIdentity(u8),
    NotAssociative(u8, u8, u8),
}
