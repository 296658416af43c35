//! The parts of a strand, on which its steps are done.
ghost use Rattle.std.specs.Prelude.{◌≡◌, ◌<◌, suc, length, false, true, take, OnOk, OnErr};
ghost use Rattle.positions.specs.Activations.{WorkFits};
ghost use Rattle.positions.specs.Strands.{is_entry};
ghost use Rattle.small_steps.specs.Ready.{IsNotSpawned};
ghost use Rattle.positions.specs.Advance.{faulted, begun, pushed};

use activations::activation::Activation;
use activations::spares::Spares;
use layers::layer::{DEEPEST, Layer};
use layers::spares::SpareLists;
use layers::tally::Tally;
use meaning::FaultKind;
use positions::phase::{Fault, Phase};
use positions::start::Start;
use positions::work::Work;
use std::alloc::AllocError;
use std::marker::Model;
use std::mem;
use view_pool::View;

/// Where a strand begins, its layers, its topmost instance with its whole name and those that wait below it, what the topmost
/// does next, the arguments of the memo instance that was entered or spawned last, and what was counted and recorded. At a
/// spawn the child stands on top already, and its name lies ready for the continuation.
#[derive(Drop)]
pub struct Machine<V: View> {
    pub start: Start,
    pub layer: Layer<V>,
    pub lower: Vec<Layer<V>>,
    pub path: Vec<usize>,
    pub place: Vec<usize>,
    pub top: Activation,
    pub below: Vec<Activation>,
    pub phase: Phase,
    pub arguments: Vec<i64>,
    pub tally: Tally,
    pub numbers: Vec<i64>,
    pub spares: Spares,
    pub lists: SpareLists,
}

impl<V: View> Model for Machine<V> {
    ghost use Rattle.std.specs.Prelude.{reverse};
    ghost use Rattle.positions.specs.Strands.{PlainStrand};
    ghost use Rattle.small_steps.specs.Ready.{LiesReady};

    ghost Value = { PlainStrand };

    ghost view = { λ s. record {
      start = s.start;
      layer = s.layer;
      lower = reverse s.lower.items;
      path = s.path.items;
      top = s.top;
      below = reverse s.below.items;
      phase = s.phase;
      arguments = s.arguments.items;
      tally = s.tally;
    } };

    ghost invariant = { λ s. LiesReady s.phase s.below.items s.place.items s.path.items };
}

impl<V: View> Machine<V> {
    /// What the type keeps: at a spawn an instance waits below the child.
    pub fn ready(&self)
        ensures parent { self.now.phase ≡ Phase.AtSpawn → 0 < length self.now.below }
    {
        let _ = &self.phase;
    }

    /// How many kits it has: one for each of its layers.
    pub fn kits(&self) -> usize
        ensures kits { result ≡ suc (length self.now.lower) }
    {
        self.lower.len() + 1
    }

    /// Whether the strand begins in its topmost instance.
    pub fn is_entry(&self) -> bool
        ensures entry { result ≡ is_entry self.now }
    {
        self.start.is_in(&self.path)
    }

    /// A fault at that statement of the topmost instance.
    pub(crate) fn fault(&mut self, statement: u32, kind: FaultKind)
        ensures faulted { self.new ≡ faulted statement kind self.old }
    {
        self.phase = Phase::Broken(Fault {
            kind,
            procedure: self.top.procedure(),
            statement,
        });
    }

    /// Forgets all readings of the topmost layer but so many first ones.
    pub(crate) fn forget(&mut self, readings: usize)
        ensures forgotten { self.new ≡ record self.old { layer = record self.old.layer { notes = take readings self.old.layer.notes } } }
    {
        self.layer.forget(readings);
    }

    /// Begins the topmost instance, one of a procedure: it is noted.
    pub fn begin(&mut self)
        ensures begun { self.new ≡ begun self.old }
    {
        let depth = DEEPEST.saturating_sub(self.top.left());
        self.layer.enter(self.top.procedure(), depth);
        self.phase = Phase::Running;
    }

    /// Puts a called child on top, which has that to do next; the topmost instance waits with that left. Refused for want of
    /// memory, or where there are no more numbers for children.
    #[inline(always)]
    pub(crate) fn push_called(
        &mut self,
        child: Activation,
        work: Work,
        into: Option<usize>,
        phase: Phase,
    ) -> Result<(), AllocError>
        requires fits { WorkFits work }
        requires not_spawned { IsNotSpawned phase }
        ensures pushed { OnOk result (self.new ≡ pushed child false into work phase self.old) }
        ensures unchanged { OnErr result (self.new ≡ self.old) }
    {
        let Some(number) = self.top.children().checked_add(1) else {
            return Err(AllocError);
        };
        self.path.reserve(1)?;
        self.below.reserve(1)?;
        self.path.push_reserved(number);
        let mut parent = mem::replace(&mut self.top, child);
        parent.wait(false, into, work);
        self.below.push_reserved(parent);
        self.phase = phase;
        Ok(())
    }

    /// Puts a spawned child on top, and its name ready for the continuation; the topmost instance waits with that left. Refused
    /// for want of memory, or where there are no more numbers for children.
    #[inline(always)]
    pub(crate) fn push_spawned(
        &mut self,
        child: Activation,
        work: Work,
        into: Option<usize>,
    ) -> Result<(), AllocError>
        requires fits { WorkFits work }
        requires running { self.old.phase ≡ Phase.Running }
        ensures pushed { OnOk result (self.new ≡ pushed child true into work Phase.AtSpawn self.old) }
        ensures unchanged { OnErr result (self.new ≡ self.old) }
    {
        let Some(number) = self.top.children().checked_add(1) else {
            return Err(AllocError);
        };
        self.path.reserve(1)?;
        self.below.reserve(1)?;
        self.spares.make_room();
        self.place.clear();
        self.place.extend_from_slice(&self.path)?;
        self.place.push(number)?;
        self.path.push_reserved(number);
        let mut parent = mem::replace(&mut self.top, child);
        parent.wait(true, into, work);
        self.below.push_reserved(parent);
        self.phase = Phase::AtSpawn;
        Ok(())
    }
}
