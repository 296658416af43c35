//! Names of instances that are the same.
ghost use Rattle.std.specs.Prelude.{◌≡◌};
ghost use Rattle.meaning.specs.SmallStep.{same_name};
ghost use Rattle.meaning.specs.Trail.{child_of};

/// Whether two names are the same.
#[tactic(auto, using(crate::proofs::SameNames::pointwise_same))]
fn is_same(left: &[usize], right: &[usize]) -> bool
    ensures same { result ≡ same_name left.now right.now }
{
    left == right
}

/// Whether a name is that of the child of that number of the instance of that name.
#[tactic(auto, using(crate::proofs::SameNames::no_child, crate::proofs::SameNames::child_is))]
pub fn is_child(name: &[usize], parent: &[usize], child: usize) -> bool
    ensures child { result ≡ same_name (child_of parent.now child) name.now }
{
    match name.split_last() {
        None => false,
        Some((last, front)) => child == *last && is_same(parent, front),
    }
}
