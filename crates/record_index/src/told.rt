// What was told of the procedures: their names with their revision numbers, in the program's order.
ghost use Rattle.std.specs.Prelude.{◌≡◌, ◌≤◌, ◌<◌, ◌∷◌, [], List, false, take, length, IfOk, OnOk, IfSome, IfNone};
ghost use Rattle.meaning.specs.Tables.{index_of};
ghost use Rattle.meaning.specs.declared.tree.Declaration.{Declaration as PlainDeclaration};
ghost use Rattle.linked_program.specs.Checked.{names_in, numbers_in};
ghost use Rattle.record_theory.specs.Validity.{has_revision};
ghost use Rattle.record_theory.specs.Counts.{is_among};
ghost use Rattle.record_index.specs.Counts.{outdated_count, same_revision};
ghost use Rattle.record_index.specs.Indexed.{IsLonger};
ghost use Rattle.record_index.specs.Told.{AreFirst};

use linked_program::checked::Checked;
use meaning::tree::Declaration;
use record_theory::validity::revision_of;
use std::alloc::{AllocError, Global};
use std::marker::Model;

/// Procedures' names, each with its revision number as it was told last.
#[derive(Drop)]
pub(crate) struct Told {
    names: Vec<(String, u64)>,
}

impl Model for Told {
    ghost use Rattle.std.specs.Prelude.{ℕ, List};
    ghost use Rattle.meaning.specs.Tree.{Name};
    ghost use Rattle.linked_program.specs.Checked.{numbers_in};

    ghost Value = { List (Name × ℕ) };

    ghost view = { λ t. numbers_in t.names.items };
}

impl Told {
    /// Nothing; it takes no memory.
    pub(crate) fn new(alloc: Global) -> Told
        ensures none { result ≡ [] }
    {
        Told {
            names: Vec::new(alloc),
        }
    }

    /// The program's procedures with their revision numbers.
    pub(crate) fn of(alloc: Global, program: &Checked) -> Result<Told, AllocError>
        ensures all { IfOk result (λ told. told ≡ program.now.revisions) }
    {
        // What the program's type keeps: so the procedures stand in the order of their revision numbers.
        program.revised();
        let mut names: Vec<(String, u64)> = Vec::new(alloc);
        for declaration in &program.program().declarations {
            put_name(&mut names, alloc, declaration, program)?;
        }
        Ok(Told { names })
    }

    /// Whether the program has more procedures than these.
    pub(crate) fn lacks(&self, program: &Checked) -> bool
        ensures lacks { result ≡ false → length program.now.revisions ≤ length self.now }
    {
        program.revision_at(self.names.len()).is_some()
    }

    /// Takes over the revision numbers that the procedures have now; they keep their places. It takes no memory.
    pub(crate) fn tell(&mut self, program: &Checked)
        requires longer { IsLonger self.old program.now.revisions }
        ensures first { self.new ≡ take (length self.old) program.now.revisions }
    {
        tell_each(&mut self.names, program);
    }

    /// The number of the first procedure of that name.
    pub(crate) fn number(&self, name: &str) -> Option<usize>
        ensures there { IfSome result (λ n. n < length self.now) }
        ensures first { IfSome result (λ n. n ≡ index_of (names_in self.now) name.now) }
        ensures none { IfNone result (index_of (names_in self.now) name.now ≡ length self.now) }
    {
        number_of(&self.names, name)
    }

    /// How many different ones of these revisions aren't those of the procedures.
    pub(crate) fn outdated(&self, entered: &[(usize, u64)]) -> usize
        ensures outdated { result ≡ outdated_count self.now entered.now }
        ensures few { result ≤ length entered.now }
    {
        let mut count = 0;
        for place in 0..entered.len() {
            if !self.has(&entered[place]) && !is_among(&entered[place + 1..], &entered[place]) {
                count += 1;
            }
        }
        count
    }

    // Whether the procedure has that revision number.
    fn has(&self, entry: &(usize, u64)) -> bool
        ensures has { result ≡ has_revision self.now entry.now }
    {
        match self.names.get(entry.0) {
            Some(told) => told.1 == entry.1,
            None => false,
        }
    }
}

// Puts the name of a declared procedure behind those that there are, with its revision number.
fn put_name(
    names: &mut Vec<(String, u64)>,
    alloc: Global,
    declaration: &Declaration,
    program: &Checked,
) -> Result<(), AllocError>
    ensures put { OnOk result ((rest : List PlainDeclaration)
        → AreFirst program.now.revisions (numbers_in names.old.items) (declaration.now ∷ rest)
        → AreFirst program.now.revisions (numbers_in names.new.items) rest) }
{
    match declaration {
        Declaration::Procedure(procedure) => {
            let name = String::from_str(alloc, procedure.name.as_str())?;
            names.push((name, revision_of(program, names.len())))?;
            Ok(())
        }
        Declaration::Reducer(_) => Ok(()),
    }
}

// Gives each name the revision number that the program's procedure of that place has.
fn tell_each(names: &mut [(String, u64)], program: &Checked)
    requires longer { IsLonger (numbers_in names.old) program.now.revisions }
    ensures told { numbers_in names.new ≡ take (length names.old) program.now.revisions }
{
    for number in 0..names.len() {
        names[number].1 = revision_of(program, number);
    }
}

// The number of the first of that name.
fn number_of(names: &[(String, u64)], name: &str) -> Option<usize>
    ensures there { IfSome result (λ n. n < length names.now) }
    ensures first { IfSome result (λ n. n ≡ index_of (names_in (numbers_in names.now)) name.now) }
    ensures none { IfNone result (index_of (names_in (numbers_in names.now)) name.now ≡ length names.now) }
{
    for number in 0..names.len() {
        if names[number].0.as_str() == name {
            return Some(number);
        }
    }
    None
}

// Whether the revision is one of these.
fn is_among(entered: &[(usize, u64)], entry: &(usize, u64)) -> bool
    ensures among { result ≡ is_among same_revision entered.now entry.now }
{
    for other in entered {
        if entry.0 == other.0 && entry.1 == other.1 {
            return true;
        }
    }
    false
}
