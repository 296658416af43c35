//! What a deque holds.

/// A continuation, which waits for a child. Contracts speak of the child's name and of where its strand begins.
pub trait Continuation: Send + Drop {
    ghost use Rattle.std.specs.Prelude.{List, ℕ};

    // The name of the child that it waits for.
    ghost place: { Self → List ℕ };

    // The name of its own lowest instance: once that has returned, the continuation that waits for it goes on.
    ghost bottom: { Self → List ℕ };

    // Where the strand begins that pushed it.
    ghost since: { Self → List ℕ };
}
