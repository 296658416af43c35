//! What a session is compared with: the rows of its table, and the text that each of its procedures has, edited by themselves.

use meaning::tree::Program;
use procedure_parser::parse;
use serial_oracle::{Row, TableRows};
use std::alloc::Global;
use std::process::Abort;
use test_kit::drawn::Dice;

const REDUCERS: &str = "reducer total : add;
reducer top : argmax;
reducer order : affine;
";

const LINES: [&str; 4] = [
    "memo proc line(r) {
  if has sales[r] { v = sales[r].qty * sales[r].price; update total v; update top v, r; }
  update order 3, r;
  return r;
}
",
    // A fault where there is a row of no quantity.
    "memo proc line(r) {
  if has sales[r] { update total 60 / sales[r].qty; update order 5, sales[r].price; }
  return limit sales;
}
",
    // A fault behind the fourth row.
    "proc line(r) { update order 7, r; update total 12 / (r - 6); return 0 - r; }
",
    // What reads a sum rests on all rows.
    "memo proc line(r) {
  if r % 2 { update total sum sales.qty; } else { update total r; }
  update order 17, r;
  return sum sales.price % 5;
}
",
];

const PAIRS: [&str; 3] = [
    "memo proc pair(r) {
  x = spawn line(r);
  y = spawn line(r + 1);
  update order 9, r;
  sync;
  return x + y;
}
",
    "memo proc pair(r) { x = call line(r); spawn line(r - 1); update order 11, x; return x; }
",
    // A fault where there is no second row.
    "proc pair(r) {
  cilk_for i in r .. r + 3 grain 2 : line(i);
  update order 13, sales[2].qty;
  return r;
}
",
];

const ALLS: [&str; 3] = [
    "memo proc all(n) { cilk_for r in 0 .. limit sales : pair(r); return n; }
",
    "memo proc all(n) {
  if n > 0 { spawn all(n - 1); update order 15, n; call pair(n); }
  return n;
}
",
    "proc all(n) { if n > 1 { call all(n - 1); } spawn pair(n); spawn pair(n + 1); return n; }
",
];

const MAINS: [&str; 2] = [
    "proc main() {
  spawn all(2);
  x = call all(3);
  spawn pair(1);
  sync;
  t = read total;
  return t + x;
}
",
    "proc main() { cilk_for r in 1 .. limit sales : pair(r); x = call all(2); return x; }
",
];

/// Edits that are refused wherever they stand.
const REFUSED: [(&str, &str); 14] = [
    ("put stock 1 2 3\n", "refused E4\n"),
    ("put sales 1 2\n", "refused E5\n"),
    ("put sales 1 2 3 4\n", "refused E5\n"),
    ("put sales 2147483648 1 1\n", "refused E6\n"),
    ("del sales -1\n", "refused E6\n"),
    ("del sales 2147483647\n", "refused E7\n"),
    ("put sales 1\n", "refused E19 1\n"),
    ("define\nproc all(n) {\nend\n", "refused E8 2\n"),
    (
        "define\nproc line(r) { return y; }\nend\n",
        "refused E9 C1 line 1\n",
    ),
    (
        "define\n\nproc pair(r) { x = spawn line(r); return x; }\nend\n",
        "refused E9 C3 pair 2\n",
    ),
    (
        "define\nproc all(n) { call line(n, n); }\nend\n",
        "refused E9 C4 all 1\n",
    ),
    (
        "define\nproc all(n) { update top n; }\nend\n",
        "refused E9 C6 all 1\n",
    ),
    (
        "define\nproc all(n) { return stock[n].qty; }\nend\n",
        "refused E9 C8 all 1\n",
    ),
    (
        "define\nproc all(n) {\nreturn sum sales.cost; }\nend\n",
        "refused E9 C8 all 2\n",
    ),
];

/// A script that edits, and what it is answered.
#[derive(Drop)]
pub struct DrawnEdit {
    pub script: String,
    pub answer: &'static str,
}

/// An edit that is done.
fn accepted(script: String) -> DrawnEdit {
    DrawnEdit {
        script,
        answer: "ok\n",
    }
}

/// One of the edits that are refused, drawn.
fn drawn_refusal(rt: &impl Abort, alloc: Global, dice: &mut Dice) -> DrawnEdit {
    let edits = &REFUSED;
    let (script, answer) = edits[dice.below(14)];
    DrawnEdit {
        script: text_of(rt, alloc, script),
        answer,
    }
}

/// A text of the procedure of that number, drawn.
fn drawn_text(number: usize, dice: &mut Dice) -> &'static str {
    let (lines, pairs, alls, mains) = (&LINES, &PAIRS, &ALLS, &MAINS);
    match number {
        0 => lines[dice.below(4)],
        1 => pairs[dice.below(3)],
        2 => alls[dice.below(3)],
        _ => mains[dice.below(2)],
    }
}

/// The rows of the table, and the texts of `line`, `pair`, `all` and `main`.
#[derive(Drop)]
pub struct Model {
    pub rows: Vec<Row>,
    texts: [&'static str; 4],
}

/// A text of one's own.
pub fn text_of(rt: &impl Abort, alloc: Global, text: &str) -> String {
    String::from_str(alloc, text).expect(rt, "memory")
}

impl Model {
    /// A model of the first texts, with the sales.
    pub fn new(rt: &impl Abort, alloc: Global) -> Model {
        let mut model = Model {
            rows: Vec::new(alloc),
            texts: [LINES[0], PAIRS[0], ALLS[0], MAINS[0]],
        };
        for (number, qty, price) in [(1, 2, 5), (2, 3, 7), (3, 1, 100)] {
            model.put_row(rt, alloc, number, qty, price);
        }
        model
    }

    fn drop_row(&mut self, number: i64) {
        self.rows.retain(|row| row.number != number);
    }

    fn put_row(&mut self, rt: &impl Abort, alloc: Global, number: i64, qty: i64, price: i64) {
        let values = vec![in alloc; qty, price].expect(rt, "memory");
        self.drop_row(number);
        self.rows.push(Row { number, values }).expect(rt, "memory");
    }

    /// Puts a row that is drawn.
    fn put(&mut self, rt: &impl Abort, alloc: Global, dice: &mut Dice) -> DrawnEdit {
        let row = dice.below(6) as i64;
        let qty = dice.below(4) as i64;
        let price = dice.below(20) as i64;
        self.put_row(rt, alloc, row, qty, price);
        let script = format!(in alloc; "put sales {row} {qty} {price}\n").expect(rt, "memory");
        accepted(script)
    }

    /// Deletes a row that is drawn, where there is one of its number.
    fn delete(&mut self, rt: &impl Abort, alloc: Global, dice: &mut Dice) -> DrawnEdit {
        let number = dice.below(6) as i64;
        let before = self.rows.len();
        self.drop_row(number);
        let answer = if self.rows.len() < before {
            "ok\n"
        } else {
            "refused E7\n"
        };
        let script = format!(in alloc; "del sales {number}\n").expect(rt, "memory");
        DrawnEdit { script, answer }
    }

    /// Gives a procedure a text that is drawn.
    fn define(&mut self, rt: &impl Abort, alloc: Global, dice: &mut Dice) -> DrawnEdit {
        let number = dice.below(4);
        let text = drawn_text(number, dice);
        self.texts[number] = text;
        let script = format!(in alloc; "define\n{text}end\n").expect(rt, "memory");
        accepted(script)
    }

    /// An edit that is drawn.
    pub fn edit(&mut self, rt: &impl Abort, alloc: Global, dice: &mut Dice) -> DrawnEdit {
        match dice.below(8) {
            0..=2 => self.put(rt, alloc, dice),
            3 => self.delete(rt, alloc, dice),
            4 | 5 => self.define(rt, alloc, dice),
            _ => drawn_refusal(rt, alloc, dice),
        }
    }

    /// The program's text.
    pub fn text(&self, rt: &impl Abort, alloc: Global) -> String {
        let mut text = text_of(rt, alloc, REDUCERS);
        for procedure in &self.texts {
            text.push_str(procedure).expect(rt, "memory");
        }
        text
    }

    /// The program, read anew.
    pub fn program(&self, rt: &impl Abort, alloc: Global) -> Program {
        let text = self.text(rt, alloc);
        parse(alloc, text.as_bytes()).expect(rt, "a program")
    }

    /// Its rows once more.
    fn copied_rows(&self, rt: &impl Abort, alloc: Global) -> Vec<Row> {
        let mut rows = Vec::new(alloc);
        for row in &self.rows {
            let values = row.values.clone().expect(rt, "memory");
            let number = row.number;
            rows.push(Row { number, values }).expect(rt, "memory");
        }
        rows
    }

    /// The tables as the slow program has them.
    pub fn tables(&self, rt: &impl Abort, alloc: Global) -> TableRows {
        let qty = text_of(rt, alloc, "qty");
        let price = text_of(rt, alloc, "price");
        TableRows {
            name: text_of(rt, alloc, "sales"),
            columns: vec![in alloc; qty, price].expect(rt, "memory"),
            rows: self.copied_rows(rt, alloc),
        }
    }
}
