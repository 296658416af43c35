// A strand with its holder's deque.
ghost use Rattle.std.specs.Prelude.{◌≡◌, ◌+◌, ◌≤◌, ℕ, List, All, IfErr, IfOk, OnErr, OnOk, [], true, false, length};
ghost use Rattle.monoid_laws.specs.Kinds.{IsMonoid};
ghost use Rattle.record_theory.specs.Named.{HaveValues};
ghost use Rattle.activations.specs.Given.{lent};
ghost use Rattle.numbered_runs.specs.Named.{named_state, line};
ghost use Rattle.stepped_runs.specs.Runs.{line_of};
ghost use Rattle.stepped_runs.specs.Pieces.{worked, pushed, inlined, popped, alone, place_of, is_held_by};
ghost use Rattle.worker_core.specs.Moves.{moved, takes_memory, RefusedAs, LeavesPiece, LeavesPool};
ghost use Rattle.worker_core.specs.Strands.{layers_of};

use activations::setting::Setting;
use frames::strand::Strand;
use numbered_runs::refusal::Refusal;
use numbered_runs::step::{Place, State, StrandLine};
use positions::phase::{Paused, Phase};
use std::alloc::{AllocError, Global};
use std::collections::VecDeque;
use std::marker::Model;
use strand_lines::states::is_held_by;
use strand_moves::task::Task;
use view_pool::{Kit, Pool, View};

/// What a worker does with the strand that it holds.
#[derive(Clone, Copy, PartialEq, Eq)]
pub(crate) enum Move {
    Work,
    Push,
    Inline,
    Pop,
}

/// A strand, the continuations that its holder pushed, the oldest first, and who has it.
#[derive(Drop)]
pub struct Piece<V: View = Box<dyn View>> {
    pub(crate) strand: Strand<V>,
    pub(crate) deque: VecDeque<Task>,
    pub(crate) state: State,
}

impl<V: View> Model for Piece<V> {
    ghost use Rattle.std.specs.Prelude.{reverse};
    ghost use Rattle.stepped_runs.specs.Pieces.{PlainPiece};
    ghost use Rattle.numbered_runs.specs.Named.{named_state};

    ghost Value = { PlainPiece };

    ghost view = { λ p. record { strand = p.strand; deque = reverse p.deque.items; state = named_state p.state } };
}

impl<V: View> Piece<V> {
    /// A strand held by a worker, with an empty deque.
    pub(crate) fn held(alloc: Global, strand: Strand<V>, worker: usize) -> Piece<V>
        ensures held { result ≡ record { strand = strand; deque = []; state = named_state (State.Held worker) } }
    {
        Piece {
            strand,
            deque: VecDeque::new(alloc),
            state: State::Held(worker),
        }
    }

    /// Whether the worker holds the strand.
    pub(crate) fn is_held_by(&self, worker: usize) -> bool
        ensures held { result ≡ is_held_by worker self.now }
    {
        is_held_by(self.state, worker)
    }

    /// The place after which the strand begins; want of memory is the only error.
    pub(crate) fn place(&self, alloc: Global) -> Result<Place, AllocError>
        ensures place { IfOk result (λ place. place.items ≡ place_of self.now) }
    {
        self.strand.begins_behind(alloc)
    }

    /// Does one small step. A layer that it opens takes a kit of the pool, and one that it closes gives it back.
    fn work(
        &mut self,
        alloc: Global,
        setting: Setting<'_>,
        pool: &mut Pool<Kit<V>>,
    ) -> Result<(), Refusal>
        requires values { HaveValues setting.program.now.kinds setting.records.now }
        requires monoids { All IsMonoid setting.program.now.kinds }
        requires kinds { self.old.strand.layer.kinds ≡ setting.program.now.kinds }
        requires free { All (λ k. k ≡ setting.program.now.kinds) pool.old.kits }
        requires room { length pool.old.kits + layers_of self.old ≤ pool.old.total }
        ensures taken { OnOk result (worked (lent setting.entry) (length pool.old.kits) self.old ≡ alone (length pool.new.kits) self.new) }
        ensures refused { IfErr result (RefusedAs true (worked (lent setting.entry) (length pool.old.kits) self.old)) }
        ensures left { IfErr result (λ e. LeavesPiece Move.Work e self.old self.new) }
        ensures pool_left { IfErr result (λ e. LeavesPool Move.Work e pool.old pool.new) }
        ensures kinds { self.new.strand.layer.kinds ≡ self.old.strand.layer.kinds }
        ensures free { All (λ k. k ≡ setting.entry.program.now.kinds) pool.new.kits }
        ensures kits { length pool.new.kits + layers_of self.new ≡ length pool.old.kits + layers_of self.old }
        ensures total { pool.new.total ≡ pool.old.total }
    {
        match self.strand.pause(setting.program) {
            Paused::Working => match self.strand.advance(
                alloc,
                setting.program,
                setting.tables,
                setting.records,
                pool,
            ) {
                Err(_) => Err(Refusal::NoMemory),
                Ok(_) => Ok(()),
            },
            _ => Err(Refusal::NotThere),
        }
    }

    /// At a spawn: puts the continuation on the deque and goes on with the child.
    fn push(&mut self, alloc: Global) -> Result<(), Refusal>
        ensures taken { OnOk result ((kits : ℕ) → pushed kits self.old ≡ alone kits self.new) }
        ensures refused { IfErr result (λ e. (kits : ℕ) → RefusedAs true (pushed kits self.old) e) }
        ensures unchanged { OnErr result (self.new ≡ self.old) }
        ensures kinds { self.new.strand.layer.kinds ≡ self.old.strand.layer.kinds }
        ensures lower { self.new.strand.lower ≡ self.old.strand.lower }
    {
        match self.strand.phase() {
            Phase::AtSpawn => {
                self.strand.ready();
                if self.deque.reserve(1).is_err() {
                    return Err(Refusal::NoMemory);
                }
                let task = self.strand.detach(alloc);
                self.deque.push_back_reserved(task);
                Ok(())
            }
            _ => Err(Refusal::NotThere),
        }
    }

    /// At a spawn: runs the child as a call.
    fn inline(&mut self) -> Result<(), Refusal>
        ensures taken { OnOk result ((kits : ℕ) → inlined kits self.old ≡ alone kits self.new) }
        ensures refused { IfErr result (λ e. (kits : ℕ) → RefusedAs false (inlined kits self.old) e) }
        ensures unchanged { OnErr result (self.new ≡ self.old) }
        ensures kinds { self.new.strand.layer.kinds ≡ self.old.strand.layer.kinds }
        ensures lower { self.new.strand.lower ≡ self.old.strand.lower }
    {
        match self.strand.phase() {
            Phase::AtSpawn => {
                self.strand.inline();
                Ok(())
            }
            _ => Err(Refusal::NotThere),
        }
    }

    /// Where the spawned child has returned: goes on with the newest continuation.
    fn pop(&mut self) -> Result<(), Refusal>
        ensures taken { OnOk result ((kits : ℕ) → popped kits self.old ≡ alone kits self.new) }
        ensures refused { IfErr result (λ e. (kits : ℕ) → RefusedAs false (popped kits self.old) e) }
        ensures unchanged { OnErr result (self.new ≡ self.old) }
        ensures kinds { self.new.strand.layer.kinds ≡ self.old.strand.layer.kinds }
        ensures lower { self.new.strand.lower ≡ self.old.strand.lower }
    {
        match self.strand.returned() {
            Some(_) => match self.deque.pop_back() {
                None => Err(Refusal::Nothing),
                Some(task) => {
                    self.strand.resume(task);
                    Ok(())
                }
            },
            None => Err(Refusal::NotThere),
        }
    }

    /// Does what its holder does, or refuses it. A refusal changes nothing, but where memory is refused for a small step the
    /// strand's topmost layers may have other values.
    pub(crate) fn go(
        &mut self,
        alloc: Global,
        setting: Setting<'_>,
        step: Move,
        pool: &mut Pool<Kit<V>>,
    ) -> Result<(), Refusal>
        requires values { HaveValues setting.program.now.kinds setting.records.now }
        requires monoids { All IsMonoid setting.program.now.kinds }
        requires kinds { self.old.strand.layer.kinds ≡ setting.program.now.kinds }
        requires free { All (λ k. k ≡ setting.program.now.kinds) pool.old.kits }
        requires room { length pool.old.kits + layers_of self.old ≤ pool.old.total }
        ensures taken { OnOk result (moved (lent setting.entry) step (length pool.old.kits) self.old ≡ alone (length pool.new.kits) self.new) }
        ensures refused { IfErr result (RefusedAs (takes_memory step) (moved (lent setting.entry) step (length pool.old.kits) self.old)) }
        ensures left { IfErr result (λ e. LeavesPiece step e self.old self.new) }
        ensures pool_left { IfErr result (λ e. LeavesPool step e pool.old pool.new) }
        ensures kinds { self.new.strand.layer.kinds ≡ self.old.strand.layer.kinds }
        ensures free { All (λ k. k ≡ setting.entry.program.now.kinds) pool.new.kits }
        ensures kits { length pool.new.kits + layers_of self.new ≡ length pool.old.kits + layers_of self.old }
        ensures total { pool.new.total ≡ pool.old.total }
    {
        match step {
            Move::Work => self.work(alloc, setting, pool),
            Move::Push => self.push(alloc),
            Move::Inline => self.inline(),
            Move::Pop => self.pop(),
        }
    }
}

impl<V: View> Piece<V> {
    /// The strand's place and state; want of memory is the only error.
    pub(crate) fn line(&self, alloc: Global) -> Result<StrandLine, AllocError>
        ensures line { IfOk result (λ l. line l ≡ line_of self.now) }
    {
        Ok(StrandLine {
            place: self.place(alloc)?,
            state: self.state,
        })
    }
}
