//! Programs and tables as text.

/// The table that most programs read.
pub const SALES: &str =
    "[sales]\ncolumns = [\"qty\", \"price\"]\nrows = [[1, 2, 5], [2, 3, 7], [3, 1, 100]]\n";

/// Two spawned children, and what follows them.
pub const FIRST: &str = "reducer total : add;
proc leaf(v) { update total v; return v; }
proc main() { x = spawn leaf(1); y = spawn leaf(2); update total 9; sync; return x + y; }
";

/// Two spawned children, and what follows them, with a list in place of the sum.
pub const FIRST_LIST: &str = "reducer seen : list;
proc leaf(v) { update seen v; return v; }
proc main() { x = spawn leaf(1); y = spawn leaf(2); update seen 9; sync; return x + y; }
";

/// As the list, with recorded leaves.
pub const MEMO_LIST: &str = "reducer seen : list;
memo proc leaf(v) { update seen v; return v; }
proc main() { x = spawn leaf(1); y = spawn leaf(2); update seen 9; sync; return x + y; }
";

/// A recorded instance for each row.
pub const LINES: &str = "reducer total : add;
reducer top : argmax;
memo proc line(r) { v = sales[r].qty * sales[r].price; update total v; update top v, r; return v; }
proc main() { cilk_for r in 1 .. limit sales : line(r); t = read total; return t; }
";

/// A recorded instance reads what those that it enters read.
pub const NESTED_READS: &str = "reducer total : add;
memo proc line(r) { if has sales[r] { v = sales[r].qty * sales[r].price; update total v; } }
memo proc all() { cilk_for r in 1 .. limit sales : line(r); }
proc main() { call all(); t = read total; return t; }
";

/// A recorded instance for each row reads its own row and a sum over all rows.
pub const SHARES: &str = "reducer total : add;
memo proc share(r) { v = sales[r].qty * 100 / sum sales.qty; update total v; return v; }
proc main() { cilk_for r in 1 .. limit sales : share(r); t = read total; return t; }
";

/// The fault of the first child stands before that of `main`.
pub const TWO_FAULTS: &str = "proc bad(n) { return 1 / n; }
proc main() { spawn bad(0); x = sales[9].qty; sync; return x; }
";

/// A loop of four.
pub const LOOP: &str = "reducer seen : list;
proc one(i) { update seen i; }
proc main() { cilk_for i in 0 .. 4 : one(i); return 0; }
";

/// The first two numbers.
pub const FIRST_TWO: &str = "reducer seen : first 2;
proc leaf(v) { update seen v; return v; }
proc main() { x = spawn leaf(1); y = spawn leaf(2); update seen 9; sync; return x + y; }
";

/// The last two numbers.
pub const LAST_TWO: &str = "reducer seen : last 2;
proc leaf(v) { update seen v; return v; }
proc main() { x = spawn leaf(1); y = spawn leaf(2); update seen 9; sync; return x + y; }
";

/// Affine maps, whose order counts.
pub const AFFINE: &str = "reducer f : affine;
proc one(a, b) { update f a, b; }
proc main() { spawn one(2, 1); update f 3, 4; sync; return 0; }
";

/// A sum that wraps.
pub const WRAPPING: &str = "reducer total : add;
proc one(v) { update total v; }
proc main() { spawn one(9223372036854775807); update total 1; sync; return 0; }
";

/// The right one of two elements that are no units.
pub const TABLE: &str = "reducer m : table 3 unit 0 [0, 1, 2, 1, 1, 2, 2, 1, 2];
proc one(v) { update m v; }
proc main() { spawn one(1); update m 2; sync; return 0; }
";

/// The arguments of the first iteration end by a fault.
pub const LOOP_FAULT: &str = "reducer seen : list;
proc one(i) { update seen i; }
proc main() { cilk_for i in 0 .. 4 : one(1 / i); return 0; }
";
