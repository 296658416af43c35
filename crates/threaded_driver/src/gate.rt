//! Who watches the workers.

/// Where a worker has come.
#[derive(Clone, Copy, PartialEq, Eq)]
pub enum Point {
    Pushed,
    Popped,
    Stole,
    Laid,
    Folded,
    Update,
}

/// Watches the workers, and may hold them. It changes nothing of the run. One that isn't told of updates may not hold the first worker
/// for another: that one may be alone at first, and the others are started later.
pub trait Gate: Sync {
    /// The worker of that number has come to that point.
    fn at(&self, worker: usize, point: Point);

    /// Whether it is told of updates; where it isn't, no worker looks for them.
    fn watches_updates(&self) -> bool {
        true
    }
}

/// Nobody watches.
pub struct NoGate;

impl Gate for NoGate {
    fn at(&self, _worker: usize, _point: Point) {}

    fn watches_updates(&self) -> bool {
        false
    }
}
