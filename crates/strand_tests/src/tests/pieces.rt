//! A plain view's list: its pieces.
ghost use Rattle.std.specs.Prelude.{◌≡◌};
ghost use Rattle.monoid_laws.specs.declared.Kind.TheVariants.{List as ListKind};

use monoid_laws::{Kind, Val};
use view_pool::{PlainView, View};

/// Whether these are the numbers from the first on, so many.
fn are_from(numbers: &[i64], first: i64, count: usize) -> bool {
    let mut next = first;
    for number in numbers {
        if *number != next {
            return false;
        }
        next = next.wrapping_add(1);
    }
    numbers.len() == count
}

/// Whether a value is a list in two pieces, of the numbers from 0 to 63, and of 64.
fn is_65_in_pieces(value: &Val) -> bool {
    match value {
        Val::Pieces(pieces) => {
            pieces.len() == 2 && are_from(&pieces[0], 0, 64) && are_from(&pieces[1], 64, 1)
        }
        _ => false,
    }
}

/// Whether a list takes the numbers from 0 to 64.
fn takes_65<V: View>(view: &mut V) -> bool
    requires { V.kind_of view.old ≡ ListKind }
{
    for number in 0..65 {
        if view.update(&[number]).is_err() {
            return false;
        }
    }
    true
}

/// Whether a view gives those numbers as two pieces.
fn gives_65(view: &PlainView) -> bool {
    match view.export() {
        Ok(value) => is_65_in_pieces(&value),
        Err(_) => false,
    }
}

#[test]
fn another_piece_begins_behind_64_numbers(rt: HostRuntime) {
    let mut view = PlainView::new(rt.alloc(), Kind::List);
    assert!(&rt; takes_65(&mut view) && gives_65(&view));
}
