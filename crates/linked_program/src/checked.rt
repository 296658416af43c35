//! The type of a checked program.
ghost use Rattle.std.specs.Prelude.{◌≡◌, ◌+◌, ◌<◌, ◌^◌, ℕ, [], map, All, option_copied, option_map, slice_get, is_some, IfSome, OnSome};
ghost use Rattle.meaning.specs.Edits.{revision_of};
ghost use Rattle.meaning.specs.Fitting.{ProgramFits};
ghost use Rattle.meaning.specs.Statements.{procedure_of, beginning};
ghost use Rattle.meaning.specs.Tables.{is_there};
ghost use Rattle.meaning.specs.TreeView.{tree, lines};
ghost use Rattle.linked_program.specs.TableNames.{columned};
ghost use Rattle.linked_program.specs.Declarations.{violations};
ghost use Rattle.linked_program.specs.Procedures.{procedures};
ghost use Rattle.linked_program.specs.Initials.{plain_initial, initials_of, AreUpdatesBy};
ghost use Rattle.linked_program.specs.Linked.{kinds_of, main_number, procedure_number};
ghost use Rattle.linked_program.specs.CodeView.{AreCodesOf, HasShort, memo_of, slots_of, instruction_at};
ghost use Rattle.linked_program.specs.Checked.{IsChecked, numbers_in, names_in, number_in};

use crate::code::{Code, Hints, Instruction, NO_HINTS};
use crate::fitting::numbers_fit;
use crate::initial::Initial;
use crate::linking::{procedure_number, procedure_place};
use crate::tables::TableNames;
use meaning::tree::Program;
use monoid_laws::Kind;
use std::marker::Model;

// The number that stands beside a name in a list.
fn number_of(numbers: &[(String, u64)], name: &str) -> Option<u64>
    ensures { result ≡ number_in (numbers_in numbers.now) name.now }
{
    for entry in numbers {
        if name == entry.0.as_str() {
            return Some(entry.1);
        }
    }
    None
}

/// A program in which no rule is broken and whose numbers fit 64 bits, the names of the tables that it was checked against, its
/// code, and its procedures in their order, each name with its revision number.
#[derive(Drop)]
pub struct Checked {
    program: Program,
    tables: Vec<TableNames>,
    codes: Vec<Code>,
    kinds: Vec<Kind>,
    initials: Vec<Initial>,
    main: usize,
    revisions: Vec<(String, u64)>,
    counter: u64,
}

impl Model for Checked {
    ghost use Rattle.linked_program.specs.Checked.{PlainChecked};

    ghost Value = { PlainChecked };

    ghost use Rattle.linked_program.specs.contracts.code.Expression as e;
    ghost use Rattle.meaning.specs.contracts.tree.Expr as t;
    ghost use Rattle.std.specs.Coded.{codes as coded_rules};

    ghost coded = { Prim.hlevel (coded_rules, e.the_row.coded, t.the_row.coded) };

    ghost use Rattle.std.specs.Prelude.{map};
    ghost use Rattle.meaning.specs.Fitting.{ProgramFits};
    ghost use Rattle.meaning.specs.TreeView.{tree};
    ghost use Rattle.linked_program.specs.TableNames.{columned};
    ghost use Rattle.linked_program.specs.Initials.{plain_initial};
    ghost use Rattle.linked_program.specs.Checked.{IsChecked, numbers_in};

    ghost view = { λ c. record {
      program = c.program;
      tables = map columned c.tables.items;
      codes = c.codes.items;
      kinds = c.kinds.items;
      initials = map plain_initial c.initials.items;
      main = c.main;
      revisions = numbers_in c.revisions.items;
      counter = c.counter;
    } };

    ghost invariant = { λ c. IsChecked (record {
      program = c.program;
      tables = map columned c.tables.items;
      codes = c.codes.items;
      kinds = c.kinds.items;
      initials = map plain_initial c.initials.items;
      main =
          c.main;
      revisions = numbers_in c.revisions.items;
      counter = c.counter;
    }) × ProgramFits (tree c.program) };
}

impl Checked {
    /// The program with these tables' names, its code, its reducers' kinds and what they begin with, its procedures' names with
    /// their revision numbers and the least number that was never used. That its numbers fit is found out here, in time
    /// proportional to the tree.
    pub fn new(
        program: Program,
        tables: Vec<TableNames>,
        codes: Vec<Code>,
        kinds: Vec<Kind>,
        initials: Vec<Initial>,
        revisions: Vec<(String, u64)>,
        counter: u64,
    ) -> Checked
        requires checked { IsChecked (record {
          program = program;
          tables = map columned tables.items;
          codes = codes.items;
          kinds = kinds.items;
          initials = map plain_initial initials.items;
          main = main_number (tree program);
          revisions = numbers_in revisions.items;
          counter = counter;
        }) }
        ensures checked { result ≡ record {
          program = program;
          tables = map columned tables.items;
          codes = codes.items;
          kinds = kinds.items;
          initials = map plain_initial initials.items;
          main = main_number (tree program);
          revisions = numbers_in revisions.items;
          counter = counter;
        } }
    {
        numbers_fit(&program);
        let main = procedure_number(&program.declarations, "main");
        Checked {
            program,
            tables,
            codes,
            kinds,
            initials,
            main,
            revisions,
            counter,
        }
    }

    /// Lends the program's tree.
    pub fn program(&self) -> &Program
        ensures program { result.now ≡ self.now.program }
    {
        &self.program
    }

    /// Lends the names of the tables that the program was checked against.
    pub fn tables(&self) -> &[TableNames]
        ensures tables { map columned result.now ≡ self.now.tables }
    {
        &self.tables
    }

    /// Lends the procedures' codes, in the order of the program.
    pub fn codes(&self) -> &[Code]
        ensures codes { result.now ≡ self.now.codes }
    {
        &self.codes
    }

    /// How many slots an instance of the procedure of that number has; 0 where there is no such procedure.
    pub fn slots(&self, procedure: usize) -> usize
        ensures slots { result ≡ slots_of self.now.codes procedure }
    {
        match self.codes.get(procedure) {
            None => 0,
            Some(code) => code.slots,
        }
    }

    /// Whether the procedure of that number is marked `memo`; none is where there is no such procedure.
    pub fn is_memo(&self, procedure: usize) -> bool
        ensures memo { result ≡ memo_of self.now.codes procedure }
    {
        match self.codes.get(procedure) {
            None => false,
            Some(code) => code.memo,
        }
    }

    /// What may be tried with the instances of the procedure of that number. Nothing is claimed of it.
    #[inline(always)]
    pub fn hints(&self, procedure: usize) -> Hints {
        match self.codes.get(procedure) {
            None => NO_HINTS,
            Some(code) => code.hints,
        }
    }

    /// The statement at that place of a block of a procedure, each counted from 0; none where there is no such place.
    pub fn instruction(&self, procedure: usize, block: usize, index: usize) -> Option<&Instruction>
        ensures found { option_copied result ≡ instruction_at self.now.codes procedure block index }
        ensures small { OnSome result (index + 1 < 2 ^ 64) }
    {
        match self.codes.get(procedure) {
            None => None,
            Some(code) => match code.blocks.get(block) {
                None => None,
                Some(block) => block.instructions.get(index),
            },
        }
    }

    /// Lends the kinds of the reducers, in the order of the program.
    pub fn kinds(&self) -> &[Kind]
        ensures kinds { result.now ≡ self.now.kinds }
    {
        &self.kinds
    }

    /// Lends what the reducers begin with, in the order in which a run does so.
    pub fn initials(&self) -> &[Initial]
        ensures initials { map plain_initial result.now ≡ self.now.initials }
    {
        &self.initials
    }

    /// The number of `main` among the procedures.
    pub fn main(&self) -> usize
        ensures main { result ≡ self.now.main }
    {
        self.main
    }

    /// The number of the procedure of a name among the procedures; none where there is no such procedure.
    pub fn procedure(&self, name: &str) -> Option<usize>
        ensures number { IfSome result (λ n. n ≡ procedure_number
            (procedures (tree self.now.program)) name.now) }
        ensures known { is_some result ≡ is_there (procedure_of (tree self.now.program) name.now) }
    {
        procedure_place(&self.program.declarations, name)
    }

    /// The revision number of the procedure of a name; none where there is no such procedure.
    pub fn revision(&self, name: &str) -> Option<u64>
        ensures number { result ≡ number_in self.now.revisions name.now }
        ensures revision { IfSome result (λ n. n ≡ revision_of self.now.revisions name.now) }
    {
        number_of(&self.revisions, name)
    }

    /// The revision number of the procedure of a number; none where there is no such procedure.
    pub fn revision_at(&self, procedure: usize) -> Option<u64>
        ensures revision { result ≡ option_map (λ e. e.1) (slice_get self.now.revisions procedure) }
    {
        match self.revisions.get(procedure) {
            Some(entry) => Some(entry.1),
            None => None,
        }
    }

    /// The least revision number that was never used.
    pub fn counter(&self) -> u64
        ensures counter { result ≡ self.now.counter }
    {
        self.counter
    }

    /// What the type keeps: no rule is broken.
    pub fn clean(&self)
        ensures clean { violations self.now.tables (tree self.now.program) (lines self.now.program)
            ≡ [] }
    {
        let _ = &self.program;
    }

    /// What the type keeps: the program's numbers fit 64 bits.
    pub fn fitting(&self)
        ensures numbers { ProgramFits (tree self.now.program) }
    {
        let _ = &self.program;
    }

    /// What the type keeps: the codes, the kinds, the initial values and the number of `main` are those of the tree.
    pub fn linked(&self)
        ensures codes { AreCodesOf self.now.tables (tree self.now.program) self.now.codes
            (procedures (tree self.now.program)) }
        ensures kinds { self.now.kinds ≡ kinds_of (tree self.now.program) }
        ensures initials { self.now.initials ≡ initials_of (tree self.now.program) }
        ensures main { self.now.main ≡ main_number (tree self.now.program) }
    {
        let _ = &self.program;
    }

    /// What the type keeps: the short form of a statement says what that does.
    pub fn short(&self)
        ensures short { (procedure block index : ℕ)
            → IfSome (instruction_at self.now.codes procedure block index) (HasShort self.now.kinds) }
    {
        let _ = &self.program;
    }

    /// What the type keeps: a run begins with the updates by the initial values, one after another, each of an element of its kind.
    pub fn beginning(&self)
        ensures updates { AreUpdatesBy self.now.kinds self.now.initials
            (beginning (tree self.now.program)) }
    {
        let _ = &self.program;
    }

    /// What the type keeps: the procedures, in the program's order, have revision numbers, all below the counter.
    pub fn revised(&self)
        ensures each { names_in self.now.revisions
            ≡ map (λ p. p.called) (procedures (tree self.now.program)) }
        ensures below { All (λ e. e.1 < self.now.counter) self.now.revisions }
    {
        let _ = &self.program;
    }
}
