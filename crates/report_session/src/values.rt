// The values that a run's reducers came to, by their names.
ghost use Rattle.std.specs.Prelude.{◌≡◌, map, slice_get, option_copied};
ghost use Rattle.meaning.specs.TreeView.{tree, decl};
ghost use Rattle.meaning.specs.Statements.{reducers};
ghost use Rattle.linked_program.specs.Linked.{reducer_number as number_of_reducer};

use linked_program::checked::Checked;
use meaning::tree::Declaration;
use monoid_laws::Val;

/// The value of the reducer of a name, of those that a run of the program came to, which are in the order of its text; none
/// where the program has no such reducer.
pub fn value<'a>(checked: &Checked, values: &'a [Val], name: &str) -> Option<&'a Val>
    ensures found { option_copied result
        ≡ slice_get values.now (number_of_reducer (reducers (tree checked.now.program)) name.now) }
{
    values.get(reducer_number(&checked.program().declarations, name))
}

// The number of the first reducer of a name; how many there are where there is no such reducer.
fn reducer_number(declarations: &[Declaration], name: &str) -> usize
    ensures { result ≡ number_of_reducer (reducers (map decl declarations.now)) name.now }
{
    let mut number = 0;
    for declaration in declarations {
        if let Declaration::Reducer(reducer) = declaration {
            if reducer.name.as_str() == name {
                return number;
            }
            number += 1;
        }
    }
    number
}
