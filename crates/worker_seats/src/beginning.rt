//! What a run begins with: new deques, and the first strand.
ghost use Rattle.std.specs.Prelude.{◌≡◌, ◌<◌, ◌≤◌, [], suc, All, length, IfOk, IfErr};
ghost use Rattle.numbered_runs.specs.Starts.{CannotStart};
ghost use Rattle.worker_seats.specs.Balances.{most};

use crate::kits::Stocked;
use crate::waiting::Waiting;
use numbered_runs::refusal::StartError;
use right_strands::run::{Run, Scene};
use right_strands::strand::RightStrand;
use std::alloc::{AllocError, Global};
use std::marker::Model;
use std::sync::ledger::{Blank, Ledger};
use stealing_deques::NewDeque;
use view_pool::{Kit, Pool, View};
use worker_rules::its_deques::deques_for;

/// New ledgers of a run: of the workers that will leave, and of the kits that strands have.
#[derive(Drop)]
pub struct Blanks {
    pub leavers: Blank,
    pub kits: Blank,
    ghost enough: { kits.parts ≡ most },
}

impl Blanks {
    /// Those of a run with so many workers.
    pub fn new(workers: usize) -> Blanks
        ensures parts { result.leavers.parts ≡ workers }
    {
        Blanks {
            leavers: Blank::new(workers as u64),
            kits: Blank::new(u64::MAX),
        }
    }
}

/// A deque for each worker of the run J, which nobody has used, and the run's ledgers. Contracts see which deques they are.
#[derive(Drop)]
pub struct NewDeques<J: Run + Ledger + Stocked + Send> {
    pub deques: Vec<NewDeque<Waiting<J>>>,
    pub blanks: Blanks,
}

impl<J: Run + Ledger + Stocked + Send> Model for NewDeques<J> {
    ghost use Rattle.std.specs.Prelude.{◌≡◌, List, length};
    ghost use Rattle.stealing_deques.specs.Identity.{Identity};

    ghost Value = { List Identity };

    ghost view = { λ d. d.deques.items };

    ghost invariant = { λ d. (d.blanks.leavers.name ≡ J.name) × (d.blanks.leavers.parts ≡ J.parts)
        × (J.parts ≡ length d.deques.items) × (d.blanks.kits.name ≡ J.ledger) };
}

/// A deque for each of so many workers. Want of memory is the only error.
pub fn deques_of<J: Run + Ledger + Stocked + Send>(
    alloc: Global,
    blanks: Blanks,
    workers: usize,
) -> Result<NewDeques<J>, AllocError>
    requires name { blanks.leavers.name ≡ J.name }
    requires parts { blanks.leavers.parts ≡ J.parts }
    requires ledger { blanks.kits.name ≡ J.ledger }
    requires workers { J.parts ≡ workers }
    ensures count { IfOk result (λ deques. length deques ≡ workers) }
{
    let deques = deques_for(alloc, workers)?;
    Ok(NewDeques { deques, blanks })
}

/// The strand of a run's beginning, with that kit, which is handed back with a refusal. Want of memory is the only error.
fn first_strand<J: Run, V: View>(
    alloc: Global,
    scene: &Scene<'_, J>,
    kit: Kit<V>,
) -> Result<RightStrand<J, V>, Kit<V>>
    requires kind { kit ≡ J.setting.kinds }
    ensures one_layer { IfOk result (λ s. s.strand.lower ≡ []) }
    ensures handed_back { IfErr result (λ k. k ≡ kit) }
{
    match RightStrand::first(alloc, scene, kit) {
        Ok(strand) => Ok(strand),
        Err((_, kit)) => Err(kit),
    }
}

/// The run's first strand, with a kit of the pool. Refused where no kit is free, or for want of memory; the pool is handed back.
pub fn first_of<J: Run, V: View>(
    alloc: Global,
    scene: &Scene<'_, J>,
    pool: Pool<Kit<V>>,
) -> Result<(RightStrand<J, V>, Pool<Kit<V>>), (StartError, Pool<Kit<V>>)>
    requires kits { All (λ k. k ≡ J.setting.kinds) pool.kits }
    ensures kits { IfOk result (λ r. All (λ k. k ≡ J.setting.kinds) r.1.kits) }
    ensures total { IfOk result (λ r. r.1.total ≡ pool.total) }
    ensures some { IfOk result (λ r. 0 < length pool.kits) }
    ensures taken { IfOk result (λ r. suc (length r.1.kits) ≡ length pool.kits) }
    ensures one_layer { IfOk result (λ r. r.0.strand.lower ≡ []) }
    ensures room { IfOk result (λ r. length pool.kits ≤ pool.total) }
    ensures refused { IfErr result (λ e. CannotStart pool e.0) }
    ensures handed_back { IfErr result (λ e. e.1 ≡ pool) }
{
    let mut pool = pool;
    let Some(kit) = pool.take() else {
        return Err((StartError::NoKit, pool));
    };
    match first_strand(alloc, scene, kit) {
        Ok(strand) => Ok((strand, pool)),
        Err(kit) => {
            let _ = pool.give(kit);
            Err((StartError::NoMemory, pool))
        }
    }
}
