//! Whole runs of sessions. What is wanted was worked out by hand; gates hold workers so that they do at the same time what is tested.

mod beginning;
mod comparing;
mod counting;
mod deques;
mod floors;
mod meeting;
mod programs;
mod refusals;
mod refused_folds;
mod reruns;
mod sessions;
mod steps;
mod strands;
