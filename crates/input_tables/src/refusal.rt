// Why a document of tables, a table that is added or a put is refused.

ghost use Rattle.std.specs.Prelude.{◌≡◌};
ghost use Rattle.input_tables.specs.declared.refusal.Fault.TheVariants.{NoMemory};
ghost use Rattle.input_tables.specs.declared.refusal.TablesError.TheVariants as tables;
ghost use Rattle.input_tables.specs.declared.refusal.AddError.TheVariants as add;
ghost use Rattle.input_tables.specs.declared.refusal.PutError.TheVariants as put;

use std::alloc::{AllocError, AllocFailed};
use table_parts::refusals::RowError;
use thiserror::Error;

/// Why a text is refused as a document of tables.
#[derive(Debug, Drop, Error)]
pub enum TablesError {
    #[error("out of memory")]
    NoMemory,
    #[error("refused E2")]
    NotToml,
    #[error("refused E3 {table}")]
    Shape { table: String },
}

/// Why a table is not added.
#[derive(Debug, Drop, Error)]
pub enum AddError {
    #[error("out of memory")]
    NoMemory,
    /// There are 64 tables.
    #[error("there are 64 tables")]
    TooManyTables,
    /// There is a table of the name.
    #[error("there is a table of that name")]
    TableTwice,
    /// The table's name hasn't the form of a name in a program.
    #[error("the table's name is no name")]
    TableName,
    /// There is no column, or there are more than 8.
    #[error("a table has 1 to 8 columns")]
    ColumnCount,
    /// A column's name hasn't the form of a name in a program.
    #[error("a column's name is no name")]
    ColumnName,
    /// Two columns have one name.
    #[error("two columns have one name")]
    ColumnTwice,
}

/// Why a row is not put.
#[derive(Debug, Drop, Error)]
pub enum PutError {
    #[error("out of memory")]
    NoMemory,
    #[error("{0}")]
    Refused(RowError),
}

/// Why a part of a table could not be read.
#[derive(Drop)]
pub enum Fault {
    NoMemory,
    Shape,
}

impl From<AllocError> for Fault {
    ghost from_gives = { λ _ e. e ≡ NoMemory };

    fn from(_e: AllocError) -> Fault {
        Fault::NoMemory
    }
}

impl<T: Drop> From<AllocFailed<T>> for Fault {
    ghost from_gives = { λ _ e. e ≡ NoMemory };

    fn from(_e: AllocFailed<T>) -> Fault {
        Fault::NoMemory
    }
}

impl From<AllocError> for TablesError {
    ghost from_gives = { λ _ e. e ≡ tables.NoMemory };

    fn from(_e: AllocError) -> TablesError {
        TablesError::NoMemory
    }
}

impl<T: Drop> From<AllocFailed<T>> for TablesError {
    ghost from_gives = { λ _ e. e ≡ tables.NoMemory };

    fn from(_e: AllocFailed<T>) -> TablesError {
        TablesError::NoMemory
    }
}

impl From<AllocError> for AddError {
    ghost from_gives = { λ _ e. e ≡ add.NoMemory };

    fn from(_e: AllocError) -> AddError {
        AddError::NoMemory
    }
}

impl<T: Drop> From<AllocFailed<T>> for AddError {
    ghost from_gives = { λ _ e. e ≡ add.NoMemory };

    fn from(_e: AllocFailed<T>) -> AddError {
        AddError::NoMemory
    }
}

impl From<AllocError> for PutError {
    ghost from_gives = { λ _ e. e ≡ put.NoMemory };

    fn from(_e: AllocError) -> PutError {
        PutError::NoMemory
    }
}
