//! Programs, each on one strand or on several, and kits that are missed; hypermaps of views that refuse; deques.

mod answers;
mod deques;
mod driving;
mod folds;
mod kits;
mod names;
mod owner;
mod pieces;
mod statements;
mod thefts;
