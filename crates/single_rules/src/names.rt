//! Declarations, tables and columns by their names.
ghost use Rattle.std.specs.Prelude.{◌≡◌, map, option_map, option_copied};
ghost use Rattle.meaning.specs.TreeView.{decl, proc};
ghost use Rattle.meaning.specs.Statements.{procedure_of};
ghost use Rattle.linked_program.specs.Rules.{kind_of};
ghost use Rattle.linked_program.specs.Monoids.{is_readable};
ghost use Rattle.linked_program.specs.TableNames.{columned, table_of};

use linked_program::tables::TableNames;
use meaning::tree::{Declaration, Procedure};
use monoid_laws::Kind;

/// The procedure of that name.
pub fn find_procedure<'a>(declarations: &'a [Declaration], name: &str) -> Option<&'a Procedure>
    ensures found { option_map (λ p. proc p.now) result
        ≡ procedure_of (map decl declarations.now) name.now }
{
    for declaration in declarations {
        if let Declaration::Procedure(procedure) = declaration {
            if procedure.name.as_str() == name {
                return Some(procedure);
            }
        }
    }
    None
}

/// How many parameters the procedure of that name has.
pub fn parameters_of(declarations: &[Declaration], name: &str) -> Option<usize>
    ensures { result ≡ option_map (λ p. p.parameters)
        (procedure_of (map decl declarations.now) name.now) }
{
    match find_procedure(declarations, name) {
        Some(procedure) => Some(procedure.parameters),
        None => None,
    }
}

/// The kind of the reducer of that name.
pub fn kind_of<'a>(declarations: &'a [Declaration], name: &str) -> Option<&'a Kind>
    ensures { option_copied result ≡ kind_of (map decl declarations.now) name.now }
{
    for declaration in declarations {
        if let Declaration::Reducer(reducer) = declaration {
            if reducer.name.as_str() == name {
                return Some(&reducer.kind);
            }
        }
    }
    None
}

/// Whether a program can read reducers of that kind.
pub fn is_readable(kind: &Kind) -> bool
    ensures { result ≡ is_readable kind.now }
{
    match kind {
        Kind::List | Kind::First(_) | Kind::Last(_) | Kind::Argmax | Kind::Affine | Kind::Hist =>
            false,
        _ => true,
    }
}

/// The table of that name.
pub fn table_of<'a>(tables: &'a [TableNames], name: &str) -> Option<&'a TableNames>
    ensures { option_map columned (option_copied result)
        ≡ table_of (map columned tables.now) name.now }
{
    for table in tables {
        if table.name.as_str() == name {
            return Some(table);
        }
    }
    None
}
