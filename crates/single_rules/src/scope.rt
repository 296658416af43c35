//! What is known of a procedure's variables at a statement.
ghost use Rattle.std.specs.Prelude.{◌≡◌, slice_get, IfOk};
ghost use Rattle.linked_program.specs.Scope.{scope_of, told, bound, after_spawn, has_read, passed, forgotten, returned, joined};
ghost use Rattle.linked_program.specs.Scope.{is_known, is_bound, is_of};
ghost use Rattle.linked_program.specs.Rules.{use_rules};
ghost use Rattle.linked_program.specs.declared.knowledge.Knowledge.TheVariants.{Ended};
ghost use Rattle.linked_program.specs.Violations.{noted, at};

use crate::location::{Location, note, note_if};
use linked_program::knowledge::{Knowledge, Moment};
use linked_program::violation::{Rule, Violation};
use rule_parts::known;
use std::alloc::{AllocError, Global};
use std::marker::Model;

/// What is known of each variable, the last sync passed on every way here, and whether a spawn and a read stand before.
#[derive(Drop)]
pub struct Scope {
    names: Vec<Knowledge>,
    synced: Moment,
    spawned: bool,
    read: bool,
}

impl Model for Scope {
    ghost use Rattle.linked_program.specs.Scope.{Scope as PlainScope};

    ghost Value = { PlainScope };

    ghost view = { λ s. record { names = s.names.items; synced = s.synced; spawned = s.spawned; read = s.read } };
}

impl Scope {
    /// The scope of the first statement, where of so many names the first are parameters.
    pub fn new(alloc: Global, parameters: usize, names: usize) -> Result<Scope, AllocError>
        ensures scope { IfOk result (λ scope. scope ≡ scope_of parameters names) }
    {
        let start = Moment { depth: 0, place: 0 };
        let known = Knowledge::Known {
            since: start,
            spawned: false,
        };
        let mut all = Vec::new(alloc);
        all.resize(parameters.min(names), known)?;
        all.resize(names, Knowledge::Unbound)?;
        Ok(Scope {
            names: all,
            synced: start,
            spawned: false,
            read: false,
        })
    }

    /// The last sync that is passed on every way here.
    pub fn synced(&self) -> Moment
        ensures synced { result ≡ self.now.synced }
    {
        self.synced
    }

    /// Whether a spawn stands before, with no sync of the outermost block since.
    pub fn has_spawned(&self) -> bool
        ensures spawned { result ≡ self.now.spawned }
    {
        self.spawned
    }

    /// Whether the outermost block has a read before.
    pub fn has_read(&self) -> bool
        ensures read { result ≡ self.now.read }
    {
        self.read
    }

    /// Whether the name may be used here, waiting or not.
    pub fn is_known(&self, name: usize) -> bool
        ensures known { result ≡ is_known (slice_get self.now.names name) }
    {
        match self.names.get(name) {
            Some(Knowledge::Known { .. }) => true,
            _ => false,
        }
    }

    /// Whether a statement before binds the name.
    pub fn is_bound(&self, name: usize) -> bool
        ensures bound { result ≡ is_bound (slice_get self.now.names name) }
    {
        known::is_bound(&self.names, name)
    }

    // Whether the name was bound in the block of that depth, and is known.
    fn is_of(&self, depth: usize, name: usize) -> bool
        ensures { result ≡ is_of depth (slice_get self.now.names name) }
    {
        known::is_of(&self.names, depth, name)
    }

    /// The first violation so far or that of the name's use in an expression.
    pub fn note_use(
        &self,
        first: Option<Violation>,
        location: Location,
        name: usize,
    ) -> Option<Violation>
        ensures noted { result ≡ noted first (at location.declaration location.line
            (use_rules self.now.synced (slice_get self.now.names name))) }
    {
        match self.names.get(name) {
            Some(Knowledge::Known { since, spawned }) => {
                let waits = known::waits(*spawned, self.synced, *since);
                note_if(first, waits, location, Rule::Waiting)
            }
            _ => note(first, location, Rule::Unknown),
        }
    }

    /// The name is bound; one that is known stays as it is.
    pub fn bind(&mut self, now: Moment, spawned: bool, name: usize)
        ensures bound { self.new ≡ bound now spawned self.old name }
    {
        if !self.is_known(name) && name < self.names.len() {
            self.names[name] = Knowledge::Known {
                since: now,
                spawned,
            };
        }
    }

    /// The name isn't seen any more.
    pub fn end(&mut self, name: usize)
        ensures ended { self.new ≡ told self.old name Ended }
    {
        if name < self.names.len() {
            self.names[name] = Knowledge::Ended;
        }
    }

    /// The block of that depth has ended; the name isn't seen any more where it was bound there.
    pub fn forget(&mut self, depth: usize, name: usize)
        ensures forgotten { self.new ≡ forgotten depth self.old name }
    {
        if self.is_of(depth, name) && name < self.names.len() {
            self.names[name] = Knowledge::Ended;
        }
    }

    /// A child was spawned.
    pub fn spawn(&mut self)
        ensures spawned { self.new ≡ after_spawn self.old }
    {
        self.spawned = true;
    }

    /// A sync: no name waits any more.
    pub fn sync(&mut self, now: Moment)
        ensures synced { self.new ≡ passed now self.old }
    {
        self.synced = now;
        self.spawned = known::stays_spawned(self.spawned, now);
    }

    /// A reducer was read.
    pub fn read(&mut self, now: Moment)
        ensures read { self.new ≡ has_read now self.old }
    {
        self.read = self.read || now.depth == 0;
    }

    /// The last sync passed is this one again, as a second branch begins.
    pub fn return_to(&mut self, synced: Moment)
        ensures returned { self.new ≡ returned synced self.old }
    {
        self.synced = synced;
    }

    /// The end of the second branch, where the first one ended with this last sync.
    pub fn join(&mut self, now: Moment, before: Moment, first: Moment)
        ensures joined { self.new ≡ joined now before first self.old }
    {
        if known::precedes(before, first) && known::precedes(before, self.synced) {
            self.synced = now;
        } else {
            self.synced = before;
        }
    }
}
