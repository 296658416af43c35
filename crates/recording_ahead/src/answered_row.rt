//! Iterations that records answer one by one, which lie one behind another.
ghost use Rattle.std.specs.Prelude.{◌≡◌, ◌∷◌, ◌+◌, ◌-◌, ◌≤◌, ◌<◌, ◌+ℤ◌, ◌&&◌, pos, suc, nat_le, true, [], Some};
ghost use Rattle.std.specs.Prelude.{All, IfOk, IfSome, OnOk, option_copied, slice_get};
ghost use Rattle.monoid_laws.specs.Kinds.{IsMonoid};
ghost use Rattle.meaning.specs.Elision.{depth_limit};
ghost use Rattle.meaning.specs.Every.{every};
ghost use Rattle.record_theory.specs.Record.{is_of};
ghost use Rattle.record_theory.specs.Named.{AreValuesFrom, HaveValues};
ghost use Rattle.record_theory.specs.Validity.{has_revision};
ghost use Rattle.rerun_records.specs.Blocks.{is_fresh_at};
ghost use Rattle.positions.specs.Advance.{record_for};
ghost use Rattle.positions.specs.Layers.{PlainLayer, absorbing};
ghost use Rattle.positions.specs.Tallies.{PlainTally, answering};
ghost use Rattle.activations.specs.Given.{lent};
ghost use Rattle.recording_ahead.specs.AnsweredChains.{AreTaken};
ghost use Rattle.own_statements.specs.Leaves.{plain_leaf};

use activations::setting::Setting;
use instance_records::record::Record;
use layers::layer::DEEPEST;
use own_statements::leaf::Leaf;
use rerun_records::blocks::Width;
use small_steps::machine::Machine;
use std::alloc::{AllocError, Global};
use view_pool::View;

/// So many iterations are over, and the record of the next one may lie near that place.
#[derive(Clone, Copy)]
pub(crate) struct Passed {
    pub(crate) count: u32,
    pub(crate) near: usize,
}

/// Behind the first iterations from that one on, which are over: where it is one, those behind it that records answer by themselves, as far as
/// these lie one behind another, go onto the loop's layer, in all at most so many. How many are over. Where memory is refused, nothing is
/// claimed of that layer but its kinds.
#[inline(always)]
pub(crate) fn take_behind<V: View>(
    machine: &mut Machine<V>,
    alloc: Global,
    setting: Setting<'_>,
    leaf: Leaf<'_>,
    most: u32,
    first: Passed,
) -> Result<Passed, AllocError>
    requires deep { 0 < depth_limit - leaf.left }
    requires few { first.count ≤ most }
    requires kinds { machine.old.layer.kinds ≡ setting.program.now.kinds }
    requires monoids { All IsMonoid setting.program.now.kinds }
    requires answers { HaveValues setting.program.now.kinds setting.records.now }
    ensures taken { (l : PlainLayer) (t : PlainTally) → AreTaken (lent setting.entry) (plain_leaf leaf.entry) first.count
        l t machine.old.layer machine.old.tally
        → IfOk result (λ p. AreTaken (lent setting.entry) (plain_leaf leaf.entry) p.count
        l t machine.new.layer machine.new.tally) }
    ensures few { IfOk result (λ p. p.count ≤ most) }
    ensures others { machine.new ≡ record machine.old { layer = machine.new.layer; tally = machine.new.tally } }
    ensures opened { machine.new.tally.opened ≡ machine.old.tally.opened }
    ensures kinds { machine.new.layer.kinds ≡ machine.old.layer.kinds }
    ensures made { machine.new.tally.made ≡ machine.old.tally.made }
{
    if first.count != 1 {
        return Ok(first);
    }
    take_row(machine, alloc, setting, leaf, most, first)
}

/// The same, however many are over.
#[inline(never)]
fn take_row<V: View>(
    machine: &mut Machine<V>,
    alloc: Global,
    setting: Setting<'_>,
    leaf: Leaf<'_>,
    most: u32,
    first: Passed,
) -> Result<Passed, AllocError>
    requires deep { 0 < depth_limit - leaf.left }
    requires few { first.count ≤ most }
    requires kinds { machine.old.layer.kinds ≡ setting.program.now.kinds }
    requires monoids { All IsMonoid setting.program.now.kinds }
    requires answers { HaveValues setting.program.now.kinds setting.records.now }
    ensures taken { (l : PlainLayer) (t : PlainTally) → AreTaken (lent setting.entry) (plain_leaf leaf.entry) first.count
        l t machine.old.layer machine.old.tally
        → IfOk result (λ p. AreTaken (lent setting.entry) (plain_leaf leaf.entry) p.count
        l t machine.new.layer machine.new.tally) }
    ensures few { IfOk result (λ p. p.count ≤ most) }
    ensures others { machine.new ≡ record machine.old { layer = machine.new.layer; tally = machine.new.tally } }
    ensures opened { machine.new.tally.opened ≡ machine.old.tally.opened }
    ensures kinds { machine.new.layer.kinds ≡ machine.old.layer.kinds }
    ensures made { machine.new.tally.made ≡ machine.old.tally.made }
{
    let depth = DEEPEST.saturating_sub(leaf.left);
    let mut passed = first;
    for _ in first.count..most {
        if passed.count >= most {
            return Ok(passed);
        }
        match next_alone(setting, leaf, passed, depth) {
            Some(record) => match take_one(machine, alloc, setting, record, depth) {
                Ok(()) => {
                    passed.count += 1;
                    passed.near = passed.near.wrapping_add(1);
                }
                Err(error) => return Err(error),
            },
            None => return Ok(passed),
        }
    }
    Ok(passed)
}

/// What a record has that answers an iteration at that depth goes onto the loop's layer. Where memory is refused, that has other values, and
/// nothing else has changed.
#[inline(always)]
fn take_one<V: View>(
    machine: &mut Machine<V>,
    alloc: Global,
    _setting: Setting<'_>,
    record: &Record,
    depth: u32,
) -> Result<(), AllocError>
    requires kinds { machine.old.layer.kinds ≡ _setting.program.now.kinds }
    requires monoids { All IsMonoid _setting.program.now.kinds }
    requires values { AreValuesFrom 0 _setting.program.now.kinds record.now.contribution }
    ensures layer { OnOk result (machine.new.layer ≡ absorbing record.now depth machine.old.layer) }
    ensures tally { OnOk result (machine.new.tally ≡ answering machine.old.tally) }
    ensures others { machine.new ≡ record machine.old { layer = machine.new.layer; tally = machine.new.tally } }
    ensures opened { machine.new.tally.opened ≡ machine.old.tally.opened }
    ensures kinds { machine.new.layer.kinds ≡ machine.old.layer.kinds }
    ensures made { machine.new.tally.made ≡ machine.old.tally.made }
{
    match machine
        .tally
        .reuse(alloc, &mut machine.layer, record, depth)
    {
        Ok(()) => Ok(()),
        Err(error) => Err(error),
    }
}

/// The record that answers the iteration behind those from that one on that are over, at that depth, where it lies at the near place and is
/// part of no block.
#[inline(always)]
fn next_alone<'a>(
    setting: Setting<'a>,
    leaf: Leaf<'_>,
    passed: Passed,
    depth: u32,
) -> Option<&'a Record>
    requires deep { 0 < depth }
    ensures answer { IfSome result (λ r. record_for (lent setting.entry) depth leaf.entry.callee
        ((leaf.entry.number +ℤ pos passed.count) ∷ []) ≡ Some r.now) }
{
    match leaf.number.checked_add(i64::from(passed.count)) {
        Some(number) => alone_at(setting, leaf.callee, number, passed.near, depth),
        None => None,
    }
}

/// The record at that place, where it answers the instance of that procedure with that argument at that depth, and is part of no block.
#[inline(always)]
fn alone_at<'a>(
    setting: Setting<'a>,
    procedure: usize,
    number: i64,
    place: usize,
    depth: u32,
) -> Option<&'a Record>
    requires deep { 0 < depth }
    ensures answer { IfSome result (λ r. record_for (lent setting.entry) depth procedure (number ∷ []) ≡ Some r.now) }
{
    // What the type of records keeps: no other one is of this argument.
    setting.records.single();
    match record_at(setting.records.as_slice(), place) {
        Some(record) => {
            if !is_alone(setting, record, procedure, number, place, depth) {
                return None;
            }
            Some(record)
        }
        None => None,
    }
}

/// Whether the record, which lies at that place, answers the instance of that procedure with that argument at that depth, and is part of no
/// block.
#[inline(always)]
fn is_alone(
    setting: Setting<'_>,
    record: &Record,
    procedure: usize,
    number: i64,
    place: usize,
    depth: u32,
) -> bool
    ensures of { result ≡ true → is_of procedure (number ∷ []) record.now ≡ true }
    ensures fresh { result ≡ true → is_fresh_at setting.entry.records.now place ≡ true }
    ensures allowed { result ≡ true → (every (has_revision setting.entry.program.now.revisions) record.now.entered
        && nat_le (depth + record.now.height) (suc depth_limit)) ≡ true }
{
    !has_block(setting, place)
        && is_of(record, procedure, &[number])
        && setting.records.is_fresh(place)
        && record.is_allowed(depth, setting.program)
}

/// The record at that place.
#[inline(always)]
fn record_at(records: &[Record], place: usize) -> Option<&Record>
    ensures at { option_copied result ≡ slice_get records.now place }
{
    records.get(place)
}

/// Whether the record is that of the procedure of that number with these arguments.
#[inline(always)]
fn is_of(record: &Record, procedure: usize, arguments: &[i64]) -> bool
    ensures of { result ≡ is_of procedure arguments.now record.now }
{
    procedure == record.procedure() && *arguments == *record.arguments()
}

/// Whether the record at that place may be part of a block.
#[inline(always)]
fn has_block(setting: Setting<'_>, place: usize) -> bool {
    let kinds = setting.program.kinds();
    setting
        .records
        .block_at(Width::Fine, place, kinds)
        .is_some()
}
