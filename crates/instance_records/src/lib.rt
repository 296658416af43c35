//! The record of one memo instance: what it came to, and what it has read.
#![tactic(auto)]

pub mod arguments;
mod below;
mod called;
pub mod entries;
mod few_spans;
mod full;
pub mod gift;
pub mod hull;
pub mod key;
mod lines;
pub mod narrowing;
mod own;
mod pairs;
pub mod readings;
pub mod record;
pub mod several;
pub mod short_list;
pub mod spans;
mod touching;
mod walks;
pub mod ways;
