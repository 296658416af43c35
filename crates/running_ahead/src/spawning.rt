//! What becomes of a spawned child.
ghost use Rattle.std.specs.Prelude.{◌≡◌};

/// Says what becomes of the children that a strand spawns.
pub trait Spawning {
    /// Whether the child that is spawned now is called: what waits for it is then left to nobody else.
    fn is_called(&mut self) -> bool
        ensures same { self.new ≡ self.old };
}
