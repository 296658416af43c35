//! Runs and sessions by steps that are given. What is wanted was found by hand.

mod given_up;
mod histories;
mod playing;
mod refused;
mod refused_reports;
mod replays;
mod rows;
mod sessions;
mod words;
