//! The lines of a procedure's statements, by their numbers.
ghost use Rattle.std.specs.Prelude.{◌≡◌, ◌++◌, IfOk, OnOk};
ghost use Rattle.meaning.specs.TreeView.{block_lines, statement_lines};
ghost use Rattle.linked_program.specs.Bodies.{line_of};
ghost use Rattle.single_rules.specs.Filled.{with_line, indexed};

use meaning::tree::{Block, Statement};
use std::alloc::{AllocError, Global};
use std::marker::Model;

/// The lines of statements, by their numbers.
#[derive(Drop)]
pub struct LineTable {
    pairs: Vec<(u32, u32)>,
    by_number: Vec<Option<u32>>,
}

impl Model for LineTable {
    ghost use Rattle.std.specs.Prelude.{◌≡◌, ℕ, List};
    ghost use Rattle.single_rules.specs.Filled.{indexed};

    ghost Value = { List (ℕ × ℕ) };

    ghost view = { λ t. t.pairs.items };

    ghost invariant = { λ t. t.by_number.items ≡ indexed t.pairs.items };
}

impl LineTable {
    /// The lines of the statements of these blocks.
    pub fn new(alloc: Global, blocks: &[Block]) -> Result<LineTable, AllocError>
        ensures lines { IfOk result (λ table. table ≡ block_lines blocks.now) }
    {
        let mut pairs = Vec::new(alloc);
        for block in blocks {
            push_lines(&mut pairs, &block.statements)?;
        }
        let by_number = lines_by_number(alloc, &pairs)?;
        Ok(LineTable { pairs, by_number })
    }

    /// The line of the statement of that number; 0 where there is none.
    pub fn line_of(&self, number: u32) -> u32
        ensures line { result ≡ line_of self.now number }
    {
        match self.by_number.get(number as usize) {
            Some(Some(line)) => *line,
            _ => search(&self.pairs, number),
        }
    }
}

// Puts the statements' numbers and lines last.
fn push_lines(pairs: &mut Vec<(u32, u32)>, statements: &[Statement]) -> Result<(), AllocError>
    ensures { OnOk result (pairs.new.items ≡ pairs.old.items ++ statement_lines statements.now) }
{
    for statement in statements {
        pairs.push((statement.number, statement.line))?;
    }
    Ok(())
}

// Keeps the line of a number that has none yet.
fn keep(lines: &mut Vec<Option<u32>>, number: u32, line: u32)
    ensures { lines.new.items ≡ with_line lines.old.items number line }
{
    let place = number as usize;
    if place < lines.len() && lines[place].is_none() {
        lines[place] = Some(line);
    }
}

// The lines of the numbers below as many as there are.
fn lines_by_number(alloc: Global, pairs: &[(u32, u32)]) -> Result<Vec<Option<u32>>, AllocError>
    ensures { IfOk result (λ lines. lines.items ≡ indexed pairs.now) }
{
    let mut lines = Vec::new(alloc);
    lines.resize(pairs.len(), None)?;
    for &(number, line) in pairs {
        keep(&mut lines, number, line);
    }
    Ok(lines)
}

// The line of the first of that number, one after another.
fn search(pairs: &[(u32, u32)], number: u32) -> u32
    ensures { result ≡ line_of pairs.now number }
{
    for &(other, line) in pairs {
        if other == number {
            return line;
        }
    }
    0
}
