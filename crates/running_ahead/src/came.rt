// What came of a called instance.

/// What came of an instance that was to be called: nothing was done; it is over, and its value went to the one that called it; or
/// it stands on the strand and has more to do.
#[derive(Clone, Copy)]
pub enum Came {
    Nowhere,
    Back,
    Stays,
}

/// What came of the iterations that a loop has left: nothing could be done, or no more; some of them are over; or the last one stands above
/// the loop's instance and has more to do, with so many above it, each of which was called by the one below it.
#[derive(Clone, Copy)]
pub enum Gone {
    Nowhere,
    Back,
    Stays(usize),
}

/// What came of so many iterations, one after another: all of them are over; or so many are, and the next one can't be called so; or
/// so many are, and the next one has begun and has more to do, with so many above it.
#[derive(Clone, Copy)]
pub enum Chained {
    Whole,
    Before(u32),
    Within(u32, usize),
}
