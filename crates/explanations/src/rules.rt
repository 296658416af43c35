//! The rules of the language in a sentence each, and how to keep them.

use crate::habits::binds_itself;
use linked_program::violation::Rule;
use std::alloc::{AllocError, Global};
use text_page::Page;

/// Puts what a broken rule asks for, and how to mend what breaks it, at the end of the text: two lines.
pub(crate) fn push_rule(text: &mut Page, rule: Rule) {
    push_line(text, asked_by(rule));
    push_line(text, mended_by(rule))
}

/// Puts that at the end of the text for a rule that a line is known to break, whose words it may name.
pub(crate) fn push_rule_on(
    alloc: Global,
    text: &mut Page,
    rule: Rule,
    line: &[u8],
) -> Result<(), AllocError> {
    if matches!(rule, Rule::Twice) && binds_itself(alloc, line)? {
        push_line(text, asked_by(rule));
        push_line(
            text,
            "Bind another name, as `y = x + 1;`; what adds up over rows or calls is a reducer of kind `add`: `update total v;`.",
        );
        return Ok(());
    }
    push_rule(text, rule);
    Ok(())
}

/// Puts a line, a little to the right, at the end of the text.
pub fn push_line(text: &mut Page, words: &str) {
    text.put("  ");
    text.put(words);
    text.put("\n")
}

// What a rule asks for.
fn asked_by(rule: Rule) -> &'static str {
    match rule {
        Rule::Unknown =>
            "A name is known from after its bind to the end of that block, and a procedure must be in the program.",
        Rule::Twice =>
            "A procedure binds a name once (parameters and loop variables count), and a name is declared once.",
        Rule::Waiting => "A name that a `spawn` binds has its value only after a `sync`.",
        Rule::Arguments => "A procedure is entered with as many arguments as it has parameters.",
        Rule::Read =>
            "A reducer is read at the end of the outermost block of `main`, where no spawned child can be running.",
        Rule::Update =>
            "An update names a reducer of the program, with as many values as its kind takes.",
        Rule::Main =>
            "There is one procedure `main`, without `memo` and parameters, and nothing enters it.",
        Rule::Table => "A table and its columns must be in the tables' file.",
        Rule::Monoid =>
            "A table reducer is associative, and its unit changes nothing on either side.",
        Rule::Initial =>
            "Behind `from` stand as many numbers for each element as an update of the kind takes, and a table reducer begins with its elements.",
    }
}

// How to mend what breaks a rule.
fn mended_by(rule: Rule) -> &'static str {
    match rule {
        Rule::Unknown =>
            "Bind the name before this line, outside any inner block, or see how it is spelled.",
        Rule::Twice => "Give one of the two another name.",
        Rule::Waiting =>
            "Put `sync;` in front of this line, outside any `if`, or use `call` in place of `spawn`.",
        Rule::Arguments => "Compare the call with the procedure's parameters.",
        Rule::Read =>
            "Put `sync;` before the read, and only binds, reads, returns and ifs of these after it; lists, histograms, \
                       best rows and affine maps aren't read, but printed.",
        Rule::Update => "`argmax`, `affine` and `hist` take two values, the other kinds one.",
        Rule::Main =>
            "Write `proc main() { .. }`, and let another procedure do what is to be called.",
        Rule::Table => "See how the table and its columns are spelled in the tables' file.",
        Rule::Monoid =>
            "Check for all a, b, c that (a op b) op c is a op (b op c); `a op b` is the entry at a * n + b.",
        Rule::Initial =>
            "Write two numbers for each element of `argmax`, `affine` and `hist`; the elements of a table of size n are 0 to n - 1.",
    }
}
