//! The names of a procedure's variables, each numbered by its first place.

use crate::places::Places;
use std::alloc::{AllocError, Global};
use std::marker::Model;

/// A pool of names: the parameters as they are written, and then each further name once.
#[derive(Drop)]
pub struct Pool {
    names: Vec<String>,
    places: Places,
}

impl Model for Pool {
    ghost use Rattle.std.specs.Prelude.{◌≡◌, ℕ, List};
    ghost use Rattle.source_tree.specs.Source.{texts};
    ghost use Rattle.source_tree.specs.Lowering.{found_index};
    ghost use Rattle.source_tree.specs.Packing.{place_in};

    ghost Value = { List (List ℕ) };

    ghost view = { λ p. texts p.names.items };

    ghost invariant = { λ p. (x : List ℕ) → place_in p.places x ≡ found_index x (texts p.names.items) };
}

impl Pool {
    ghost use Rattle.std.specs.Prelude.{◌≡◌, ◌++◌, ◌∷◌, [], IfOk, None, OnErr, OnOk};
    ghost use Rattle.source_tree.specs.Source.{texts};
    ghost use Rattle.source_tree.specs.Lowering.{found_index, numbered};

    /// A pool of no names.
    pub(crate) fn new(alloc: Global) -> Self
        ensures { result ≡ [] }
    {
        Pool {
            names: Vec::new(alloc),
            places: Places::new(alloc),
        }
    }

    /// Puts a name last, unless memory runs out.
    fn put(&mut self, alloc: Global, name: &str) -> Result<(), AllocError>
        ensures added { OnOk result (self.new ≡ self.old ++ name.now ∷ []) }
        ensures same { OnErr result (self.new ≡ self.old) }
    {
        self.names.reserve(1)?;
        let stored = String::from_str(alloc, name)?;
        self.places.keep(alloc, name, self.names.len())?;
        self.names.push(stored).unwrap();
        Ok(())
    }

    /// Puts a new name last, unless memory runs out.
    fn put_new(&mut self, alloc: Global, name: &str) -> Result<(), AllocError>
        requires { found_index name.now self.old ≡ None }
        ensures added { OnOk result (self.new ≡ self.old ++ name.now ∷ []) }
        ensures same { OnErr result (self.new ≡ self.old) }
    {
        self.names.reserve(1)?;
        let stored = String::from_str(alloc, name)?;
        self.places.keep_new(alloc, name, self.names.len())?;
        self.names.push(stored).unwrap();
        Ok(())
    }

    /// The number of a name, which is put last where it is new.
    pub(crate) fn number_of(&mut self, alloc: Global, name: &str) -> Result<usize, AllocError>
        ensures number { IfOk result (λ n. (self.new, n) ≡ numbered self.old name.now) }
        ensures same { OnErr result (self.new ≡ self.old) }
    {
        if let Some(number) = self.places.place_of(name) {
            return Ok(number);
        }
        let number = self.names.len();
        self.put_new(alloc, name)?;
        Ok(number)
    }

    /// Puts the parameters in, a doubled one too.
    pub(crate) fn with_parameters(alloc: Global, parameters: &[String]) -> Result<Self, AllocError>
        ensures { IfOk result (λ p. p ≡ texts parameters.now) }
    {
        let mut pool = Pool::new(alloc);
        for parameter in parameters {
            pool.put(alloc, parameter)?;
        }
        Ok(pool)
    }

    /// The names.
    pub(crate) fn into_names(self) -> Vec<String>
        ensures { texts result.items ≡ self }
    {
        self.names
    }
}
