//! By what a record is looked up.
ghost use Rattle.std.specs.Prelude.{◌≡◌, string_bytes};

use std::marker::Model;

/// A procedure's name and its arguments.
#[derive(Drop)]
pub struct Key {
    procedure: String,
    arguments: Vec<i64>,
}

impl Model for Key {
    ghost use Rattle.std.specs.Prelude.{string_bytes};
    ghost use Rattle.meaning.specs.Records.{Key as NamedKey};

    ghost Value = { NamedKey };

    ghost view = { λ k. (string_bytes k.procedure, k.arguments.items) };
}

impl Key {
    /// The key of a procedure's name and arguments.
    pub fn new(procedure: String, arguments: Vec<i64>) -> Key
        ensures key { result ≡ (string_bytes procedure, arguments.items) }
    {
        Key {
            procedure,
            arguments,
        }
    }

    /// Lends the procedure's name.
    pub fn procedure(&self) -> &str
        ensures procedure { result.now ≡ self.now.0 }
    {
        self.procedure.as_str()
    }

    /// Lends the arguments.
    pub fn arguments(&self) -> &[i64]
        ensures arguments { result.now ≡ self.now.1 }
    {
        &self.arguments
    }
}
