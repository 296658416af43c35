//! Instances that are over, for those that are called next.
use crate::activation::Activation;

/// An instance that is over, for the next one that is called, and some more, for one that it calls, for one that this calls, and so
/// on. What they held doesn't matter.
#[derive(Drop)]
pub struct Nest {
    pub child: Activation,
    pub above: Vec<Activation>,
}
