//! Programs as text.

/// A spawned procedure that spawns.
pub const NESTED: &str = "reducer total : add;
proc leaf(v) { update total v; return v; }
proc two(v) { x = spawn leaf(v); sync; return x; }
proc main() { x = spawn two(1); y = spawn leaf(2); sync; return x + y; }
";

/// Sixteen numbers, added up.
pub const ONES: &str = "reducer total : add;
proc one(i) { update total i; }
proc main() { cilk_for i in 0 .. 16 : one(i); t = read total; return t; }
";

/// Each level is a loop whose first iteration enters the next level, so that all that is behind it waits: eight continuations for each
/// of 255 levels.
pub const LEVELS: &str = "reducer total : add;
proc level(i, n) {
  if i == 0 { if n > 0 { cilk_for j in 0 .. 256 : level(j, n - 1); } } else { update total 1; }
}
proc main() { cilk_for i in 0 .. 256 : level(i, 254); t = read total; return t; }
";

/// Sixteen continuations a level; on the deepest one the thousandth iteration behind the first ends by a fault.
pub const LEVELS_TO_A_FAULT: &str = "reducer total : add;
proc level(i, n) {
  if i == 0 {
    if n > 0 { cilk_for j in 0 .. 65536 : level(j, n - 1); }
  } else {
    update total 1 / (1000 - i);
  }
}
proc main() { cilk_for i in 0 .. 65536 : level(i, 254); t = read total; return t; }
";
