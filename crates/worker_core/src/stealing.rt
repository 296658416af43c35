// A thief takes the oldest continuation of its victim.
ghost use Rattle.std.specs.Prelude.{◌≡◌, true, ℕ, List, suc, ◌+◌, ◌<◌, IfOk, IfErr, OnErr, OnOk, Ok, [], ◌∷◌, length};
ghost use Rattle.meaning.specs.Strands.{Split};
ghost use Rattle.record_theory.specs.Record.{PlainRecord};
ghost use Rattle.input_tables.specs.Edited.{Edited};
ghost use Rattle.activations.specs.Given.{setting_over};
ghost use Rattle.stepped_runs.specs.Pieces.{place_of as begins_at, stolen_of, stolen_from};
ghost use Rattle.stepped_runs.specs.Runs.{changed, is_idle, if_idle};
ghost use Rattle.worker_core.specs.Moves.{IsFit, RefusedAs, has_tasks};
ghost use Rattle.worker_core.specs.Strands.{run_of, kits_in, AreFit, MayRob, IsRobbed};

use crate::piece::Piece;
use crate::strands::{Strands, held_at};
use frames::strand::Strand;
use linked_program::checked::Checked;
use numbered_runs::refusal::Refusal;
use numbered_runs::step::{BookStep, Place};
use plain_rules::waiting::{has_some, take_oldest};
use std::alloc::{AllocError, Global};
use strand_list::kits::give_back;
use strand_moves::task::Task;
use view_pool::{Kit, View};

/// A copy of the name behind which a continuation goes on.
fn copied_place(alloc: Global, task: &Task) -> Result<Place, AllocError>
    ensures place { IfOk result (λ place. place.items ≡ task.now.place) }
{
    let mut place = Vec::new(alloc);
    place.extend_from_slice(task.place())?;
    Ok(place)
}

impl<V: View> Piece<V> {
    /// Whether there is a continuation to take.
    fn has_tasks(&self) -> bool
        ensures tasks { result ≡ has_tasks self.now.deque }
    {
        has_some(&self.deque)
    }

    /// Gives a thief the oldest continuation as a strand of its own, with the name behind which that begins. Where memory is
    /// refused the kit is handed back and nothing has changed.
    fn rob(
        &mut self,
        alloc: Global,
        program: &Checked,
        kit: Kit<V>,
        thief: usize,
    ) -> Result<(Place, Piece<V>), Kit<V>>
        requires tasks { has_tasks self.old.deque ≡ true }
        requires kinds { kit ≡ program.now.kinds }
        ensures robbed { IfOk result (λ r. (tables : Edited) (records : List PlainRecord) (kits : ℕ)
            → stolen_of (setting_over program.now tables records) thief (suc kits) self.old self.old.deque
            ≡ Ok (record { pieces = self.new ∷ r.1 ∷ []; kits = kits; noted = Split (begins_at self.old) r.0.items thief ∷ [] })) }
        ensures fit { IfOk result (λ r. IsFit program.now.kinds r.1) }
        ensures one_layer { IfOk result (λ r. r.1.strand.lower ≡ []) }
        ensures strand { self.new.strand ≡ self.old.strand }
        ensures unchanged { OnErr result (self.new ≡ self.old) }
        ensures handed_back { IfErr result (λ k. k ≡ kit) }
    {
        let Some(task) = take_oldest(&mut self.deque) else {
            return Err(kit);
        };
        let Ok(place) = copied_place(alloc, &task) else {
            self.deque.push_front_reserved(task);
            return Err(kit);
        };
        match Strand::stolen(alloc, program, task, kit) {
            Ok(strand) => Ok((place, Piece::held(alloc, strand, thief))),
            Err((_, task, kit)) => {
                self.deque.push_front_reserved(task);
                Err(kit)
            }
        }
    }
}

impl<V: View> Strands<V> {
    /// Puts a thief's strand directly behind that of its victim. Where memory is refused the kit is handed back and nothing has
    /// changed.
    fn split(
        &mut self,
        alloc: Global,
        program: &Checked,
        number: usize,
        kit: Kit<V>,
        thief: usize,
    ) -> Result<(), Kit<V>>
        requires number { number < length self.old.pieces }
        requires room { kits_in self.old < self.old.total }
        requires fit { AreFit program.now.kinds self.old }
        requires tasks { MayRob number self.old.pieces }
        requires kinds { kit ≡ program.now.kinds }
        ensures taken { OnOk result ((tables : Edited) (records : List PlainRecord)
            → IsRobbed (setting_over program.now tables records) thief number self.old self.new) }
        ensures fit { AreFit program.now.kinds self.new }
        ensures total { self.new.total ≡ self.old.total }
        ensures free { self.new.kits ≡ self.old.kits }
        ensures kits { OnOk result (kits_in self.new ≡ kits_in self.old + 1) }
        ensures unchanged { OnErr result (self.new ≡ self.old) }
        ensures handed_back { IfErr result (λ k. k ≡ kit) }
    {
        let Ok(place) = self.pieces[number].place(alloc) else {
            return Err(kit);
        };
        if self.pieces.reserve(1).is_err() || self.history.reserve(1).is_err() {
            return Err(kit);
        }
        match self.pieces[number].rob(alloc, program, kit, thief) {
            Err(kit) => Err(kit),
            Ok((new, piece)) => {
                let _ = self.pieces.insert(number + 1, piece);
                self.history
                    .push_reserved(BookStep::Split(place, new, thief));
                Ok(())
            }
        }
    }

    /// Takes a kit and then the oldest continuation of the victim for a thief that holds nothing, or refuses that and changes
    /// nothing.
    pub(crate) fn steal(
        &mut self,
        alloc: Global,
        program: &Checked,
        thief: usize,
        victim: usize,
    ) -> Result<(), Refusal>
        requires fit { AreFit program.now.kinds self.old }
        ensures taken { OnOk result ((tables : Edited) (records : List PlainRecord)
            → if_idle (is_idle thief self.old.pieces)
            (changed Refusal.Nothing victim (stolen_from (setting_over program.now tables records) thief (length self.old.kits))
            [] self.old.pieces self.old.history) ≡ Ok (run_of self.new)) }
        ensures refused { IfErr result (λ e. (tables : Edited) (records : List PlainRecord)
            → RefusedAs true (if_idle (is_idle thief self.old.pieces)
            (changed Refusal.Nothing victim (stolen_from (setting_over program.now tables records) thief (length self.old.kits))
            [] self.old.pieces self.old.history)) e) }
        ensures unchanged { OnErr result (self.new ≡ self.old) }
        ensures fit { AreFit program.now.kinds self.new }
        ensures total { self.new.total ≡ self.old.total }
        ensures kits { kits_in self.new ≡ kits_in self.old }
    {
        if held_at(&self.pieces, thief).is_some() {
            return Err(Refusal::Busy);
        }
        let Some(number) = held_at(&self.pieces, victim) else {
            return Err(Refusal::Nothing);
        };
        if !self.pieces[number].has_tasks() {
            return Err(Refusal::Nothing);
        }
        let Some(kit) = self.pool.take() else {
            return Err(Refusal::NoKit);
        };
        match self.split(alloc, program, number, kit, thief) {
            Ok(()) => Ok(()),
            Err(kit) => {
                give_back(kit, &mut self.pool);
                Err(Refusal::NoMemory)
            }
        }
    }
}
