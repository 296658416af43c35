//! Programs and tables of texts, and kits of views.
ghost use Rattle.std.specs.Prelude.{◌≡◌, All, IfOk, IfSome, true};
ghost use Rattle.linked_program.specs.TableNames.{columned_of};

use input_tables::Tables;
use linked_program::checked::Checked;
use monoid_laws::Kind;
use procedure_parser::parse;
use spawn_checker::check;
use std::alloc::{AllocError, Global};
use view_pool::{Kit, PlainView, View};

/// The tables that a text is; none where it is none, or memory is refused.
pub fn tables(alloc: Global, text: &str) -> Option<Tables> {
    Tables::from_toml(alloc, text).ok()
}

/// The program that a text is, checked against tables; none where it is refused, or memory is.
pub fn checked(alloc: Global, text: &str, tables: &Tables) -> Option<Checked>
    ensures tables { IfSome result (λ program. program.tables ≡ columned_of tables.now.tables) }
{
    let program = parse(alloc, text.as_bytes()).ok()?;
    check(alloc, program, tables).ok()
}

/// A kit of plain views of these kinds.
fn kit(alloc: Global, kinds: &[Kind]) -> Result<Kit<PlainView>, AllocError>
    ensures { IfOk result (λ kit. kit ≡ kinds.now) }
{
    let mut views = Vec::new(alloc);
    for kind in kinds {
        views.push(PlainView::new(alloc, *kind))?;
    }
    Ok(Kit::reset(views))
}

/// So many kits of plain views of these kinds.
pub fn kits(alloc: Global, kinds: &[Kind], count: usize) -> Result<Vec<Kit<PlainView>>, AllocError>
    ensures kinds { IfOk result (λ kits. All (λ k. k ≡ kinds.now) kits.items) }
{
    let mut kits = Vec::new(alloc);
    for _ in 0..count {
        kits.push(kit(alloc, kinds)?)?;
    }
    Ok(kits)
}

/// Whether both are sums, or lists.
fn are_alike(left: Kind, right: Kind) -> bool
    ensures { result ≡ true → left ≡ right }
{
    match (left, right) {
        (Kind::Add, Kind::Add) => true,
        (Kind::List, Kind::List) => true,
        _ => false,
    }
}

/// A view that is made for a kind; none where it is of another one, or memory is refused.
fn view_by<V: View, F: Fn(Kind) -> Result<V, AllocError>>(kind: Kind, make: &F) -> Option<V>
    requires { F.IsAlwaysCallable make.now }
    ensures { IfSome result (λ view. V.kind_of view ≡ kind) }
{
    let view = make(kind).ok()?;
    if are_alike(view.kind(), kind) {
        return Some(view);
    }
    None
}

/// A kit of such views.
fn kit_by<V: View, F: Fn(Kind) -> Result<V, AllocError>>(
    alloc: Global,
    kinds: &[Kind],
    make: &F,
) -> Option<Kit<V>>
    requires { F.IsAlwaysCallable make.now }
    ensures { IfSome result (λ kit. kit ≡ kinds.now) }
{
    let mut views = Vec::new(alloc);
    for kind in kinds {
        views.push(view_by(*kind, make)?).ok()?;
    }
    Some(Kit::reset(views))
}

/// So many kits of views that are made for these kinds, which are sums and lists; none where a view is of another kind, or memory
/// is refused.
pub fn kits_by<V: View, F: Fn(Kind) -> Result<V, AllocError>>(
    alloc: Global,
    kinds: &[Kind],
    count: usize,
    make: &F,
) -> Option<Vec<Kit<V>>>
    requires { F.IsAlwaysCallable make.now }
    ensures kinds { IfSome result (λ kits. All (λ k. k ≡ kinds.now) kits.items) }
{
    let mut kits = Vec::new(alloc);
    for _ in 0..count {
        kits.push(kit_by(alloc, kinds, make)?).ok()?;
    }
    Some(kits)
}
