//! What readers of a program's tokens share: the tokens in front, the limits, and what a text is refused with.
#![tactic(auto)]

mod bounds;
mod expression_limits;
mod fault;
mod front;
mod lines;
mod rooms;

pub use bounds::{
    MOST_INITIAL, MOST_NESTED, MOST_NUMBER, MOST_PARAMETERS, MOST_PROCEDURES, MOST_REDUCERS,
};
pub use expression_limits::Limits;
pub use fault::{ParseError, TextError};
pub use front::{
    additive, comparison, ended, front_name, front_number, left, line_of, mark, multiplicative,
    name, rest_of, starts, starts_name, way_of, within, word,
};
pub use lines::fault_line;
pub use rooms::{Room, room_behind, room_of, turns_of};
