// How a run ends: its answer, the pool with all kits, and the new records.
ghost use Rattle.std.specs.Prelude.{◌≡◌, ◌+◌, ◌<◌, ◌≤◌, ◌++◌, ◌∷◌, [], All, List, IfOk, IfErr, length};
ghost use Rattle.monoid_laws.specs.declared.Kind.{Kind};
ghost use Rattle.record_theory.specs.Named.{HaveValues};
ghost use Rattle.worker_core.specs.Cores.{IsEnd, IsEndOf, are_over, made_in, kept_of};
ghost use Rattle.worker_core.specs.Moves.{IsFit};
ghost use Rattle.worker_core.specs.Strands.{layers_of, layers_in, kits_in, AreFit};

use crate::piece::Piece;
use crate::strands::Strands;
use instance_records::record::Record;
use positions::answer::RunAnswer;
use std::alloc::Global;
use strand_lines::states::is_last;
use view_pool::{Kit, Pool, View};

/// The records that are kept of a run with that answer: those that were made, where it has finished.
fn kept_of(alloc: Global, answer: &RunAnswer, made: Vec<Record>) -> Vec<Record>
    ensures kept { result.items ≡ kept_of answer.now made.items }
{
    match answer {
        RunAnswer::Finished { .. } => made,
        _ => Vec::new(alloc),
    }
}

impl<V: View> Piece<V> {
    /// The answer where the strand is laid down as finished or faulted, else Unfinished, and the records that are kept. All kits of
    /// the strand go home.
    fn end(self, alloc: Global, pool: &mut Pool<Kit<V>>) -> (RunAnswer, Vec<Record>)
        requires room { length pool.old.kits + layers_of self ≤ pool.old.total }
        ensures end { IsEndOf self.state self result.0 }
        ensures made { result.1.items ≡ kept_of result.0 self.strand.tally.made }
        ensures values { HaveValues self.strand.layer.kinds result.1.items }
        ensures home { length pool.new.kits ≡ length pool.old.kits + layers_of self }
        ensures kinds { (kinds : List Kind) → IsFit kinds self → All (λ k. k ≡ kinds) pool.old.kits → All (λ k. k ≡ kinds) pool.new.kits }
        ensures total { pool.new.total ≡ pool.old.total }
    {
        let Piece {
            strand,
            deque: _,
            state,
        } = self;
        strand.layered();
        let (answer, made) = strand.end(alloc, pool);
        if is_last(state) {
            let kept = kept_of(alloc, &answer, made);
            (answer, kept)
        } else {
            (RunAnswer::Unfinished, Vec::new(alloc))
        }
    }
}

impl<V: View> Strands<V> {
    /// Whether one strand is left, and it is laid down as finished or faulted.
    pub(crate) fn are_over(&self) -> bool
        ensures over { result ≡ are_over self.now.pieces }
    {
        self.pieces.len() == 1 && is_last(self.pieces[0].state)
    }

    /// The answer of the run where it has come to its end, else Unfinished, NoMemory where it has failed; the pool, with all
    /// strands' kits given back; and the new records of a run that has finished.
    pub(crate) fn end(self, alloc: Global, failed: bool) -> (RunAnswer, Pool<Kit<V>>, Vec<Record>)
        ensures end { IsEnd failed self.pieces result.0 }
        ensures made { result.2.items ≡ kept_of result.0 (made_in self.pieces) }
        ensures values { (kinds : List Kind) → AreFit kinds self → HaveValues kinds result.2.items }
        ensures kinds { (kinds : List Kind) → AreFit kinds self → All (λ k. k ≡ kinds) result.1.kits }
        ensures free { length result.1.kits ≡ kits_in self }
        ensures total { result.1.total ≡ self.total }
    {
        let Strands {
            pieces,
            mut pool,
            history: _,
        } = self;
        if failed {
            send_home(alloc, pieces, &mut pool);
            return (RunAnswer::NoMemory, pool, Vec::new(alloc));
        }
        match only_one(pieces) {
            Ok(piece) => {
                let (answer, made) = piece.end(alloc, &mut pool);
                (answer, pool, made)
            }
            Err(pieces) => {
                send_home(alloc, pieces, &mut pool);
                (RunAnswer::Unfinished, pool, Vec::new(alloc))
            }
        }
    }
}

/// The one strand, or all that there are.
fn only_one<V: View>(mut pieces: Vec<Piece<V>>) -> Result<Piece<V>, Vec<Piece<V>>>
    ensures one { IfOk result (λ piece. pieces.items ≡ piece ∷ []) }
    ensures handed_back { IfErr result (λ all. all.items ≡ pieces.items) }
    ensures several { IfErr result (λ all. ¬ (length all.items ≡ 1)) }
{
    if pieces.len() != 1 {
        return Err(pieces);
    }
    match pieces.pop() {
        Some(piece) => Ok(piece),
        None => unreachable!(),
    }
}

/// Lets strands go, and puts the kits of each among the free ones.
fn send_home<V: View>(alloc: Global, mut pieces: Vec<Piece<V>>, pool: &mut Pool<Kit<V>>)
    requires room { length pool.old.kits + layers_in pieces.items ≤ pool.old.total }
    ensures free { length pool.new.kits ≡ length pool.old.kits + layers_in pieces.items }
    ensures kinds { (kinds : List Kind) → All (IsFit kinds) pieces.items → All (λ k. k ≡ kinds) pool.old.kits → All (λ k. k ≡ kinds) pool.new.kits }
    ensures total { pool.new.total ≡ pool.old.total }
{
    while let Some(piece) = pieces.pop() {
        let _ = piece.end(alloc, pool);
    }
}
