//! Programs of any steps, as text.

use test_kit::texts::{
    AFFINE, FIRST_LIST, FIRST_TWO, LAST_TWO, LINES, LOOP, LOOP_FAULT, NESTED_READS, SHARES, TABLE,
    TWO_FAULTS, WRAPPING,
};

/// Spawns and calls under one another, in each branch of an `if`.
const TREE: &str = "reducer seen : list;
reducer best : argmax;
proc leaf(v) { update seen v; return v; }
proc pair(v) {
    x = spawn leaf(v);
    update best v % 7, v;
    y = call leaf(v + 2);
    sync;
    update seen x;
    return x + y;
}
proc tree(n) {
    update seen n;
    if n > 0 {
        x = spawn tree(n - 1);
        y = spawn pair(n * 10);
        update seen 0 - n;
        sync;
        z = call pair(x);
        return x + y + z;
    } else {
        spawn leaf(5);
        update best 3, n;
    }
    return 1;
}
proc main() { a = spawn tree(3); b = call tree(2); spawn leaf(b); sync; return a + b; }
";

/// Loops in loops, in parts of two, over the rows of a table.
const LOOPS: &str = "reducer total : add;
reducer f : affine;
reducer last : last 3;
proc cell(i, j) { update total i * j; update f 2, i; update last i * 10 + j; }
proc row(i) {
    if has sales[i] { update total sales[i].qty * sales[i].price; }
    cilk_for j in 0 .. i grain 2 : cell(i, j);
    update total 1;
}
proc main() { cilk_for i in 0 .. limit sales + 2 : row(i); sync; t = read total; return t; }
";

/// The fault of one strand stands behind those of others.
const TREE_FAULT: &str = "reducer seen : list;
proc tree(n) {
    update seen n;
    if n > 0 {
        x = spawn tree(n - 1);
        y = spawn tree(n - 2);
        update seen 10 / (n - 3);
        sync;
        return x + y;
    }
    return 1;
}
proc main() { a = spawn tree(2); b = spawn tree(4); c = spawn tree(3); sync; return a; }
";

const TOO_DEEP: &str = "reducer total : add;
proc down(n) { spawn down(n + 1); update total n; }
proc main() { spawn down(2); update total 1; return 0; }
";

const BAD_ELEMENT: &str = "reducer parity : table 2 unit 0 [0, 1, 1, 0];
proc one(v) { update parity v; }
proc main() { cilk_for i in 0 .. 5 grain 2 : one(i - 2 * (i / 2)); spawn one(2); update parity 3; return 0; }
";

/// Recorded instances within recorded ones.
const PAIRS: &str = "reducer seen : list;
memo proc leaf(v) { update seen v; return v; }
memo proc pair(v) {
  x = spawn leaf(v);
  y = spawn leaf(v + 1);
  update seen 0 - v;
  sync;
  return x + y;
}
proc main() {
  a = spawn pair(1);
  b = spawn pair(3);
  update seen 9;
  sync;
  c = call pair(5);
  return a + b + c;
}
";

/// The second of three recorded children ends by a fault, and so does the third.
const FAULTS_IN_RECORDS: &str = "reducer seen : list;
memo proc bad(n) { update seen n; if n > 1 { return 1 / 0; } return n; }
proc main() { x = spawn bad(1); y = spawn bad(2); z = spawn bad(3); sync; return x + y + z; }
";

/// All of them.
pub const ALL: [&str; 19] = [
    FIRST_LIST,
    FIRST_TWO,
    LAST_TWO,
    AFFINE,
    WRAPPING,
    TABLE,
    TWO_FAULTS,
    LOOP,
    LOOP_FAULT,
    TREE,
    LOOPS,
    TREE_FAULT,
    TOO_DEEP,
    BAD_ELEMENT,
    LINES,
    NESTED_READS,
    SHARES,
    PAIRS,
    FAULTS_IN_RECORDS,
];
