// The strands of a run, the pool of kits, and the history.
ghost use Rattle.std.specs.Prelude.{◌≡◌, All, IfErr, IfOk, OnErr, OnOk, Ok, [], length, map};
ghost use Rattle.monoid_laws.specs.Kinds.{IsMonoid};
ghost use Rattle.record_theory.specs.Named.{HaveValues};
ghost use Rattle.activations.specs.Given.{lent};
ghost use Rattle.numbered_runs.specs.Named.{line};
ghost use Rattle.stepped_runs.specs.Runs.{changed, first_run, line_of};
ghost use Rattle.numbered_runs.specs.Starts.{CannotStart};
ghost use Rattle.worker_core.specs.Moves.{moved, takes_memory, RefusedAs};
ghost use Rattle.worker_core.specs.Folds.{LeavesMoved};
ghost use Rattle.worker_core.specs.Strands.{held_at, behind_from, run_of, kits_in, AreFit};

use crate::piece::{Move, Piece};
use activations::setting::Setting;
use frames::strand::Strand;
use linked_program::checked::Checked;
use numbered_runs::refusal::{Refusal, StartError};
use numbered_runs::step::{BookStep, StrandLine};
use std::alloc::{AllocError, Global};
use std::marker::Model;
use view_pool::{Kit, Pool, View};

/// The strands in serial order, the free kits, and what was noted so far.
#[derive(Drop)]
pub struct Strands<V: View = Box<dyn View>> {
    pub(crate) pieces: Vec<Piece<V>>,
    pub(crate) pool: Pool<Kit<V>>,
    pub(crate) history: Vec<BookStep>,
}

impl<V: View> Model for Strands<V> {
    ghost use Rattle.std.specs.Prelude.{◌+◌, ◌≤◌, length, map};
    ghost use Rattle.numbered_runs.specs.Named.{book_step};
    ghost use Rattle.worker_core.specs.Strands.{PlainStrands, layers_in};

    ghost Value = { PlainStrands };

    ghost view = { λ s. record { pieces = s.pieces.items; kits = s.pool.kits; total = s.pool.total; history = map book_step s.history.items } };

    ghost invariant = { λ s. length s.pool.kits + layers_in s.pieces.items ≤ s.pool.total };
}

/// The number of the strand that a worker holds.
pub(crate) fn held_at<V: View>(pieces: &[Piece<V>], worker: usize) -> Option<usize>
    ensures held { result ≡ held_at worker pieces.now }
{
    for (number, piece) in pieces.iter().enumerate() {
        if piece.is_held_by(worker) {
            return Some(number);
        }
    }
    None
}

/// The number of the first strand that begins behind the child of that name.
pub(crate) fn behind<V: View>(pieces: &[Piece<V>], name: &[usize]) -> Option<usize>
    ensures behind { result ≡ behind_from name.now 0 pieces.now }
{
    for (number, piece) in pieces.iter().enumerate() {
        if piece.strand.is_behind(name) {
            return Some(number);
        }
    }
    None
}

impl<V: View> Strands<V> {
    /// Does what a worker does with the strand that it holds, or refuses it. A refusal changes nothing, but where memory is
    /// refused for a small step the topmost layers of the worker's strand may have other values.
    pub(crate) fn go(
        &mut self,
        alloc: Global,
        setting: Setting<'_>,
        step: Move,
        worker: usize,
    ) -> Result<(), Refusal>
        requires values { HaveValues setting.program.now.kinds setting.records.now }
        requires monoids { All IsMonoid setting.program.now.kinds }
        requires fit { AreFit setting.program.now.kinds self.old }
        ensures taken { OnOk result (changed Refusal.NotThere worker
            (moved (lent setting.entry) step (length self.old.kits)) [] self.old.pieces self.old.history ≡ Ok (run_of self.new)) }
        ensures refused { IfErr result (RefusedAs (takes_memory step)
            (changed Refusal.NotThere worker (moved (lent setting.entry) step (length self.old.kits))
            [] self.old.pieces self.old.history)) }
        ensures left { IfErr result (λ e. LeavesMoved step e self.old self.new) }
        ensures fit { AreFit setting.entry.program.now.kinds self.new }
        ensures total { self.new.total ≡ self.old.total }
        ensures kits { kits_in self.new ≡ kits_in self.old }
    {
        match held_at(&self.pieces, worker) {
            None => Err(Refusal::NotThere),
            Some(number) => self.pieces[number].go(alloc, setting, step, &mut self.pool),
        }
    }
}

impl<V: View> Strands<V> {
    /// The strand of a run's beginning, held by worker 0, with a kit of the pool. Refused where no kit is free, or for want of
    /// memory; the pool is handed back.
    pub(crate) fn first(
        alloc: Global,
        program: &Checked,
        mut pool: Pool<Kit<V>>,
    ) -> Result<Strands<V>, (StartError, Pool<Kit<V>>)>
        requires kits { All (λ k. k ≡ program.now.kinds) pool.kits }
        ensures first { IfOk result (λ s. run_of s ≡ first_run program.now.codes program.now.kinds program.now.initials program.now.main (length pool.kits)) }
        ensures total { IfOk result (λ s. s.total ≡ pool.total) }
        ensures fit { IfOk result (AreFit program.now.kinds) }
        ensures kits { IfOk result (λ s. kits_in s ≡ length pool.kits) }
        ensures refused { IfErr result (λ e. CannotStart pool e.0) }
        ensures handed_back { IfErr result (λ e. e.1 ≡ pool) }
    {
        let mut pieces = Vec::new(alloc);
        let room = pieces.reserve(1).is_ok();
        let Some(kit) = pool.take() else {
            return Err((StartError::NoKit, pool));
        };
        if !room {
            let _ = pool.give(kit);
            return Err((StartError::NoMemory, pool));
        }
        match Strand::first(alloc, program, kit) {
            Ok(strand) => {
                pieces.push_reserved(Piece::held(alloc, strand, 0));
                Ok(Strands {
                    pieces,
                    pool,
                    history: Vec::new(alloc),
                })
            }
            Err((_, kit)) => {
                let _ = pool.give(kit);
                Err((StartError::NoMemory, pool))
            }
        }
    }

    /// The strands in serial order; want of memory is the only error.
    pub(crate) fn lines(&self, alloc: Global) -> Result<Vec<StrandLine>, AllocError>
        ensures lines { IfOk result (λ lines. map line lines.items ≡ map line_of self.now.pieces) }
    {
        lines_of(alloc, &self.pieces)
    }
}

/// The lines of strands.
fn lines_of<V: View>(alloc: Global, pieces: &[Piece<V>]) -> Result<Vec<StrandLine>, AllocError>
    ensures lines { IfOk result (λ lines. map line lines.items ≡ map line_of pieces.now) }
{
    let mut lines = Vec::new(alloc);
    for i in 0..pieces.len() {
        lines.push(pieces[i].line(alloc)?)?;
    }
    Ok(lines)
}
