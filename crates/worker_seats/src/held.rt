//! A strand that a worker holds.
ghost use Rattle.std.specs.Prelude.{◌≡◌, ◌+◌, IfSome};
ghost use Rattle.sync_fold.specs.Counts.{kits_of};
ghost use Rattle.worker_seats.specs.Balances.{spare_count};

use crate::kits::{KitsOf, Stocked};
use right_strands::run::Run;
use right_strands::strand::RightStrand;
use std::marker::Model;
use std::sync::ledger::Share;
use view_pool::{Kit, View};

/// A strand that a worker holds, its share of the count of kits, and a kit that lies ready for it, or none. Contracts see the strand.
#[derive(Drop)]
pub struct Held<J: Run + Stocked, V: View> {
    strand: RightStrand<J, V>,
    share: Share<KitsOf<J>>,
    ready: Option<Kit<V>>,
}

impl<J: Run + Stocked, V: View> Model for Held<J, V> {
    ghost use Rattle.std.specs.Prelude.{◌≡◌, ◌+◌, IfSome};
    ghost use Rattle.right_strands.specs.Rightness.{PlainRight};
    ghost use Rattle.sync_fold.specs.Counts.{kits_of};
    ghost use Rattle.worker_seats.specs.Balances.{spare_count};

    ghost Value = { PlainRight };

    ghost view = { λ h. h.strand };

    ghost invariant = { λ h. (h.share.parts ≡ 1) × (h.share.amount ≡ spare_count h.ready + kits_of h.strand.strand)
        × IfSome h.ready (λ k. k ≡ J.setting.kinds) };
}

impl<J: Run + Stocked, V: View> Held<J, V> {
    /// A strand with that share.
    pub fn new(strand: RightStrand<J, V>, share: Share<KitsOf<J>>) -> Held<J, V>
        requires one { share.parts ≡ 1 }
        requires counted { share.amount ≡ kits_of strand.strand }
        ensures strand { result ≡ strand }
    {
        Held {
            strand,
            share,
            ready: None,
        }
    }

    /// A strand with that share, and with that kit, which counts for it too.
    pub fn with_kit(
        strand: RightStrand<J, V>,
        share: Share<KitsOf<J>>,
        ready: Option<Kit<V>>,
    ) -> Held<J, V>
        requires one { share.parts ≡ 1 }
        requires counted { share.amount ≡ spare_count ready + kits_of strand.strand }
        requires fits { IfSome ready (λ k. k ≡ J.setting.kinds) }
        ensures strand { result ≡ strand }
    {
        Held {
            strand,
            share,
            ready,
        }
    }

    /// The strand, its share, and the kit that lies ready.
    pub fn into_parts(self) -> (RightStrand<J, V>, Share<KitsOf<J>>, Option<Kit<V>>)
        ensures strand { result.0 ≡ self }
        ensures one { result.1.parts ≡ 1 }
        ensures counted { result.1.amount ≡ spare_count result.2 + kits_of self.strand }
        ensures fits { IfSome result.2 (λ k. k ≡ J.setting.kinds) }
    {
        let Held {
            strand,
            share,
            ready,
        } = self;
        (strand, share, ready)
    }
}
