//! Numbers that are drawn.
ghost use Rattle.std.specs.Prelude.{◌<◌};

/// A source of numbers, the same in each run.
#[derive(Drop)]
pub struct Dice {
    /// What the next number hangs on.
    pub state: u64,
}

impl Dice {
    /// The next number below this one.
    pub fn below(&mut self, limit: usize) -> usize
        requires { 0 < limit }
        ensures { result < limit }
    {
        self.state = self
            .state
            .wrapping_mul(6364136223846793005)
            .wrapping_add(1442695040888963407);
        (self.state >> 33) as usize % limit
    }
}
