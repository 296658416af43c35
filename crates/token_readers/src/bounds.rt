//! How many there may be of what a program has.

ghost use Rattle.std.specs.Prelude.{◌≡◌};
ghost use Rattle.token_readers.specs.Limits.{most_nested, most_parameters, most_reducers, most_initial, most_number, most_procedures};

/// How many blocks may be nested in one another.
pub const MOST_NESTED: usize = 32;

/// How many parameters a procedure has at most.
pub const MOST_PARAMETERS: usize = 8;

/// How many reducers a program has at most.
pub const MOST_REDUCERS: usize = 16;

/// How many numbers an initial value has at most.
pub const MOST_INITIAL: usize = 4096;

/// The greatest number of a text.
pub const MOST_NUMBER: u64 = 9223372036854775807;

/// How many procedures a program has at most.
pub const MOST_PROCEDURES: usize = 256;

/// The limits in code are those of the definitions.
pub fn limits()
    ensures nested { MOST_NESTED ≡ most_nested }
    ensures parameters { MOST_PARAMETERS ≡ most_parameters }
    ensures reducers { MOST_REDUCERS ≡ most_reducers }
    ensures initial { MOST_INITIAL ≡ most_initial }
    ensures number { MOST_NUMBER ≡ most_number }
    ensures procedures { MOST_PROCEDURES ≡ most_procedures }
{}
