//! A kit: one view for each reducer, each at its identity.
ghost use Rattle.std.specs.Prelude.{◌≡◌, length, List, map, All};
ghost use Rattle.monoid_laws.specs.declared.Kind.{Kind};
ghost use Rattle.monoid_laws.specs.Kinds.{identity_of};

use crate::View;
use std::marker::Model;

/// One view for each reducer in order, each at its identity.
#[derive(Drop)]
pub struct Kit<V: View = Box<dyn View>> {
    views: Vec<V>,
}

impl<V: View> Model for Kit<V> {
    ghost Value = { List Kind };

    ghost view = { λ s. map V.kind_of s.views.items };

    ghost invariant = { λ s. All (λ v. V.worth_of v ≡ identity_of (V.kind_of v)) s.views.items };
}

/// Puts each view at its identity.
fn reset_all<V: View>(views: &mut Vec<V>)
    ensures kinds { map V.kind_of views.new.items ≡ map V.kind_of views.old.items }
    ensures at_identity { All (λ v. V.worth_of v ≡ identity_of (V.kind_of v)) views.new.items }
{
    for i in 0..views.len() {
        let view = &mut views[i];
        view.reset();
    }
}

impl<V: View> Kit<V> {
    /// A kit of views that all stand at their identity.
    pub fn new(views: Vec<V>) -> Self
        requires { All (λ v. V.worth_of v ≡ identity_of (V.kind_of v)) views.items }
        ensures { result ≡ map V.kind_of views.items }
    {
        Kit { views }
    }

    /// A kit of views, each put at its identity. It takes no memory.
    pub fn reset(mut views: Vec<V>) -> Self
        ensures { result ≡ map V.kind_of views.items }
    {
        reset_all(&mut views);
        Kit::new(views)
    }

    /// The views, each at its identity.
    pub fn into_views(self) -> Vec<V>
        ensures at_identity { All (λ v. V.worth_of v ≡ identity_of (V.kind_of v)) result.items }
        ensures kinds { self ≡ map V.kind_of result.items }
    {
        let Kit { views } = self;
        views
    }

    /// How many reducers the kit is for.
    pub fn len(&self) -> usize
        ensures { result ≡ length self.now }
    {
        self.views.len()
    }
}
