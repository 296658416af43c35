// A strand is laid down.
ghost use Rattle.std.specs.Prelude.{◌≡◌, ◌+◌, ◌≤◌, List, All, slice_index_or, ◌<◌, true, IfOk, IfSome, IfErr, OnErr, OnOk, Ok, [], length};
ghost use Rattle.monoid_laws.specs.declared.Kind.{Kind};
ghost use Rattle.record_theory.specs.Record.{PlainRecord};
ghost use Rattle.input_tables.specs.Edited.{Edited};
ghost use Rattle.activations.specs.Given.{setting_over};
ghost use Rattle.positions.specs.Advance.{pause_of};
ghost use Rattle.numbered_runs.specs.Named.{named_state, book_step};
ghost use Rattle.stepped_runs.specs.Pieces.{PlainPiece, stalled};
ghost use Rattle.stepped_runs.specs.Runs.{changed};
ghost use Rattle.worker_core.specs.Moves.{RefusedAs, MayLay, laid_at, laying_noted};
ghost use Rattle.worker_core.specs.Strands.{run_of, kits_in, AreFit, laid_down, freed, layers_of, IsLaidDown, IsLaid, IsLayingRefused};

use crate::piece::Piece;
use crate::strands::{Strands, held_at};
use linked_program::checked::Checked;
use numbered_runs::refusal::Refusal;
use numbered_runs::step::{BookStep, Place, State};
use positions::phase::Paused;
use std::alloc::Global;
use view_pool::{Kit, Pool, View};

/// What the history notes where the strand of that place is laid down so.
fn noted(state: State, place: Place) -> BookStep
    ensures noted { book_step result ≡ laying_noted state place.items }
{
    match state {
        State::Held(_) | State::Stalled => BookStep::Stall(place),
        State::Ended => BookStep::End(place),
        State::Faulted => BookStep::Fault(place),
        State::Finished => BookStep::Finish(place),
    }
}

impl<V: View> Piece<V> {
    /// As what the strand is laid down; none where its holder has something to do with it.
    fn laid_state(&self, program: &Checked) -> Option<State>
        ensures laid { result ≡ laid_at (pause_of program.now.codes self.now.strand) self.now.deque }
        ensures phase { IfSome result (λ state. MayLay state self.now.strand.phase) }
    {
        match self.strand.pause(program) {
            Paused::Faulted => Some(State::Faulted),
            Paused::AtSync if self.deque.is_empty() => Some(State::Stalled),
            Paused::Returned if self.deque.is_empty() => Some(State::Ended),
            Paused::Finished if self.deque.is_empty() => Some(State::Finished),
            _ => None,
        }
    }

    /// Lays the strand down, and gives up its deque; the kits of a faulted one's upper layers go home. It takes no memory.
    fn lay(&mut self, state: State, pool: &mut Pool<Kit<V>>)
        requires faulted { MayLay state self.old.strand.phase }
        requires room { length pool.old.kits + layers_of self.old ≤ pool.old.total }
        ensures laid { self.new ≡ laid_down state self.old }
        ensures kinds { self.new.strand.layer.kinds ≡ self.old.strand.layer.kinds }
        ensures free { (kinds : List Kind) → self.old.strand.layer.kinds ≡ kinds → All (λ k. k ≡ kinds) pool.old.kits → All (λ k. k ≡ kinds) pool.new.kits }
        ensures home { length pool.new.kits ≡ length pool.old.kits + freed state self.old }
        ensures total { pool.new.total ≡ pool.old.total }
    {
        self.deque.clear();
        self.state = state;
        if let State::Faulted = state {
            self.strand.close_upper(pool);
        }
    }
}

impl<V: View> Strands<V> {
    /// Lays a worker's strand down where its holder has nothing to do with it, or refuses that and changes nothing.
    pub(crate) fn stall(
        &mut self,
        alloc: Global,
        program: &Checked,
        worker: usize,
    ) -> Result<(), Refusal>
        requires fit { AreFit program.now.kinds self.old }
        ensures taken { OnOk result ((tables : Edited) (records : List PlainRecord)
            → changed Refusal.NotThere worker (stalled (setting_over program.now tables records) (length self.old.kits))
            [] self.old.pieces self.old.history ≡ Ok (run_of self.new)) }
        ensures refused { IfErr result (λ e. (tables : Edited) (records : List PlainRecord)
            → RefusedAs true (changed Refusal.NotThere worker
            (stalled (setting_over program.now tables records) (length self.old.kits)) [] self.old.pieces self.old.history) e) }
        ensures unchanged { OnErr result (self.new ≡ self.old) }
        ensures fit { AreFit program.now.kinds self.new }
        ensures total { self.new.total ≡ self.old.total }
        ensures kits { kits_in self.new ≡ kits_in self.old }
    {
        match held_at(&self.pieces, worker) {
            None => Err(Refusal::NotThere),
            Some(number) => self.stall_at(alloc, program, number),
        }
    }

    /// Lays the strand of that number down where its holder has nothing to do with it, or refuses that and changes nothing.
    fn stall_at(&mut self, alloc: Global, program: &Checked, number: usize) -> Result<(), Refusal>
        requires number { number < length self.old.pieces }
        ensures taken { OnOk result (IsLaid program.now.codes number self.old self.new) }
        ensures refused { IfErr result (λ e. (d : PlainPiece)
            → IsLayingRefused (laid_at (pause_of program.now.codes (slice_index_or self.old.pieces number d).strand)
            (slice_index_or self.old.pieces number d).deque) e) }
        ensures unchanged { OnErr result (self.new ≡ self.old) }
        ensures fit { (kinds : List Kind) → AreFit kinds self.old → AreFit kinds self.new }
        ensures total { self.new.total ≡ self.old.total }
        ensures kits { kits_in self.new ≡ kits_in self.old }
    {
        match self.pieces[number].laid_state(program) {
            None => Err(Refusal::NotThere),
            Some(state) => self.lay_at(alloc, number, state),
        }
    }

    /// Lays the strand of that number down so; refused for want of memory alone, and then nothing has changed.
    fn lay_at(&mut self, alloc: Global, number: usize, state: State) -> Result<(), Refusal>
        requires number { number < length self.old.pieces }
        requires faulted { (d : PlainPiece) → MayLay state (slice_index_or self.old.pieces number d).strand.phase }
        ensures laid { OnOk result ((d : PlainPiece) → IsLaidDown number state (slice_index_or self.old.pieces number d) self.old self.new) }
        ensures cause { IfErr result (λ e. e ≡ Refusal.NoMemory) }
        ensures unchanged { OnErr result (self.new ≡ self.old) }
        ensures fit { (kinds : List Kind) → AreFit kinds self.old → AreFit kinds self.new }
        ensures total { self.new.total ≡ self.old.total }
        ensures kits { kits_in self.new ≡ kits_in self.old }
    {
        let Ok(place) = self.pieces[number].place(alloc) else {
            return Err(Refusal::NoMemory);
        };
        if self.history.reserve(1).is_err() {
            return Err(Refusal::NoMemory);
        }
        self.pieces[number].lay(state, &mut self.pool);
        self.history.push_reserved(noted(state, place));
        Ok(())
    }
}
