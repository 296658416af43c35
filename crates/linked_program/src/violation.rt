//! The rules of the language, and the places where a program breaks them.
ghost use Rattle.std.specs.Prelude.{◌≡◌};
ghost use Rattle.linked_program.specs.Violations.{number_of, comes_before};

use std::fmt;

/// A rule of the language.
#[derive(Clone, Copy, Debug, PartialEq, Eq)]
pub enum Rule {
    /// A name or a procedure that isn't known there.
    Unknown,
    /// A name bound twice in a procedure; a reducer, a procedure or a parameter declared twice.
    Twice,
    /// A name bound by a spawn, used before a sync.
    Waiting,
    /// A wrong number of arguments.
    Arguments,
    /// A `read` where none is allowed, or a statement after one that isn't allowed there.
    Read,
    /// An unknown reducer, or an update with a wrong number of values.
    Update,
    /// `main` missing, recorded, with parameters, or entered by a statement.
    Main,
    /// An unknown table or column.
    Table,
    /// A table reducer that isn't a monoid.
    Monoid,
    /// An initial value of numbers that don't come in whole groups, or of which one names no element.
    Initial,
}

impl Rule {
    /// The rule's number, from 1.
    pub fn number(self) -> u8
        ensures number { result ≡ number_of self }
    {
        match self {
            Rule::Unknown => 1,
            Rule::Twice => 2,
            Rule::Waiting => 3,
            Rule::Arguments => 4,
            Rule::Read => 5,
            Rule::Update => 6,
            Rule::Main => 7,
            Rule::Table => 8,
            Rule::Monoid => 9,
            Rule::Initial => 10,
        }
    }
}

impl fmt::Display for Rule {
    ghost use Rattle.std.specs.Prelude.{Some};
    ghost use Rattle.linked_program.specs.Printed.{printed};

    ghost output = { λ rule. Some (printed rule) };

    fn fmt<W: fmt::Write>(&self, f: &mut fmt::Formatter<W>) -> fmt::Result {
        write!(f, "C{}", self.number())
    }
}

/// A rule broken at a line of a declaration. Declarations are counted from 1; 0 is the whole program.
#[derive(Clone, Copy)]
pub struct Violation {
    pub declaration: usize,
    pub line: u32,
    pub rule: Rule,
}

impl Violation {
    /// Whether this one is reported rather than the other.
    pub fn comes_before(self, other: Violation) -> bool
        ensures { result ≡ comes_before self other }
    {
        if self.declaration != other.declaration {
            return self.declaration < other.declaration;
        }
        if self.line != other.line {
            return self.line < other.line;
        }
        self.rule.number() < other.rule.number()
    }
}
