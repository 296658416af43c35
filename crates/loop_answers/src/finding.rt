//! The batches of records that answer a loop's iterations.
ghost use Rattle.std.specs.Prelude.{◌≡◌, [], ◌∷◌, ◌++◌, ◌==◌, false, ◌+◌, ◌-◌, ◌≤◌, ◌<◌, pos, ◌+ℤ◌, true, ◌&&◌, length, map, take, drop};
ghost use Rattle.std.specs.Prelude.{Some, IfSome, OnErr, OnOk, OnSome, slice_set};
ghost use Rattle.linked_program.specs.CodeView.{expression as plain, memo_of};
ghost use Rattle.evaluation.specs.declared.slot.Slot.TheVariants.{Has};
ghost use Rattle.evaluation.specs.Values.{values_at, pure};
ghost use Rattle.meaning.specs.Elision.{depth_limit};
ghost use Rattle.record_theory.specs.Named.{HaveValues};
ghost use Rattle.record_theory.specs.Validity.{valid_at};
ghost use Rattle.positions.specs.Activations.{ShareFits};
ghost use Rattle.positions.specs.Code.{loop_at};
ghost use Rattle.activations.specs.Given.{lent, loop_of};
ghost use Rattle.answered_loops.specs.Arguments.{counts, are_fixed, is_fixed, is_slot};
ghost use Rattle.loop_answers.specs.Batches.{instances_in, HasBatches, IsBatchFrom, CountsAt, AreArguments};

use crate::found::{End, Found, found_so_far};
use crate::tried::{
    Ahead, Search, Wanted, begins_at_stale, behind_first, first_ahead, first_number,
    is_known_ahead, is_no_use, is_stale_at, keep_tried, most_asked, note_behind, note_stale,
    tried_in,
};
use crate::vain::{SINGLES, is_in_vain, singles_with};
use activations::code::LoopCode;
use activations::setting::Setting;
use activations::shares::Turns;
use evaluation::notes::Notes;
use evaluation::slot::Slot;
use evaluation::values::values;
use input_tables::Tables;
use layers::layer::DEEPEST;
use linked_program::code::Expression;
use positions::work::{Loop, Share};
use rerun_records::batch::Batch;
use rerun_records::series::Series;
use small_steps::machine::Machine;
use std::alloc::{AllocError, Global};
use std::mem;
use view_pool::View;

/// So many batches are looked up at most in one go: what is found of a half that isn't answered as a whole is looked up once more in its
/// own halves.
const BATCHES: u32 = 2048;

/// Few iterations are those whose number takes so many bits.
const FEW_BITS: u32 = 6;

/// There is room for so many batches with the first one: the allocator takes longer for more, and hands out what was given back last
/// where all lists begin alike.
const FIRST_CAPACITY: usize = 32;

/// Batches that answer a loop's iterations, those from the first on, one after another as far as there are such, at most so many
/// iterations; none where the loop is over a procedure whose instances aren't recorded, or there is no room to enter them.
pub(crate) fn answers<'a, V: View>(
    machine: &mut Machine<V>,
    alloc: Global,
    setting: Setting<'a>,
    code: LoopCode<'_>,
    turns: Turns,
    wanted: Wanted,
) -> Option<Found<'a>>
    requires fits { ShareFits turns.site turns.share }
    requires most { wanted.most ≤ turns.share.count }
    requires code { loop_of code ≡ loop_at setting.program.now.codes machine.old.top.procedure turns.site }
    requires values { HaveValues setting.program.now.kinds setting.records.now }
    ensures unchanged { machine.new ≡ machine.old }
    ensures count { IfSome result (λ found. found.count ≡ instances_in found.batches.items) }
    ensures few { IfSome result (λ found. found.count ≤ wanted.most) }
    ensures answers { IfSome result (λ found. HasBatches (lent setting.entry) machine.old.layer.keeps turns.site
        machine.old.top turns.share.first found.batches.items) }
{
    let counted = counted_place(machine, code);
    let tried = tried_in(&machine.numbers, counted, code.arguments.len());
    let search = Search {
        wanted,
        tried,
        counted,
    };
    if is_no_use(tried, turns, wanted) {
        return none_answered(machine, alloc, setting, code, turns, search);
    }
    let mut numbers = mem::replace(&mut machine.numbers, Vec::new(alloc));
    let found = answers_by(machine, alloc, setting, code, turns, search, &mut numbers);
    note_end(&found, &mut numbers, search, turns);
    machine.numbers = numbers;
    found
}

/// No batches, where the first iteration isn't answered, or it is known of one that stands among the first half of those that are wanted.
fn none_answered<'a, V: View>(
    machine: &Machine<V>,
    alloc: Global,
    setting: Setting<'a>,
    code: LoopCode<'_>,
    turns: Turns,
    search: Search,
) -> Option<Found<'a>>
    requires code { loop_of code ≡ loop_at setting.program.now.codes machine.now.top.procedure turns.site }
    ensures count { IfSome result (λ found. found.count ≡ instances_in found.batches.items) }
    ensures few { IfSome result (λ found. found.count ≤ search.wanted.most) }
    ensures answers { IfSome result (λ found. HasBatches (lent setting.entry) machine.now.layer.keeps turns.site
        machine.now.top turns.share.first found.batches.items) }
{
    let _ = depth_of(machine, setting, code, search.wanted)?;
    let end = if begins_at_stale(search.tried, turns) {
        End::Stale
    } else {
        End::Elsewhere
    };
    Some(found_so_far(Vec::new(alloc), 0, end, 0))
}

/// Notes where a search has gone past all that it was asked for: what was known of the others is kept, else the next number is noted.
fn note_end(found: &Option<Found<'_>>, numbers: &mut Vec<i64>, search: Search, turns: Turns) {
    match found {
        Some(found) => match found.end {
            End::Through => {
                let next = first_number(turns).wrapping_add(i64::from(found.count));
                if is_known_ahead(search.tried, next, found.count < turns.share.count) {
                    keep_tried(numbers, search.counted, search.tried);
                    return;
                }
                note_behind(numbers, search.counted, next, found.near);
            }
            _ => {}
        },
        None => {}
    }
}

/// What answers the wanted iterations, where `numbers` is for the arguments. The iteration of the number that was tried is asked first, since a half was
/// searched in vain as far as to there: where it is in the second half, the first half alone is looked up.
fn answers_by<'a, V: View>(
    machine: &mut Machine<V>,
    alloc: Global,
    setting: Setting<'a>,
    code: LoopCode<'_>,
    turns: Turns,
    search: Search,
    numbers: &mut Vec<i64>,
) -> Option<Found<'a>>
    requires fits { ShareFits turns.site turns.share }
    requires most { search.wanted.most ≤ turns.share.count }
    requires code { loop_of code ≡ loop_at setting.program.now.codes machine.old.top.procedure turns.site }
    requires values { HaveValues setting.program.now.kinds setting.records.now }
    requires counted { IfSome search.counted (CountsAt machine.old.top.slots code.variable (map plain code.arguments.now)) }
    ensures unchanged { machine.new ≡ machine.old }
    ensures count { IfSome result (λ found. found.count ≡ instances_in found.batches.items) }
    ensures few { IfSome result (λ found. found.count ≤ search.wanted.most) }
    ensures answers { IfSome result (λ found. HasBatches (lent setting.entry) machine.old.layer.keeps turns.site
        machine.old.top turns.share.first found.batches.items) }
{
    let depth = depth_of(machine, setting, code, search.wanted)?;
    let from = number_behind(turns.site, turns.share, 0);
    let counted = counted_from(machine, alloc, setting.tables, code, from, search, numbers);
    let first = first_ahead(search, from, depth, counted, turns.share.first);
    let is_stale = is_stale(machine, alloc, setting, code, search, first, numbers);
    let mut most = most_asked(search, first, is_stale);
    let mut batches = Vec::new(alloc);
    let mut count = 0;
    let mut singles = 0;
    let mut near = first.near;
    for _ in 0..BATCHES {
        if count == most {
            return Some(found_so_far(batches, count, End::Through, near));
        }
        let ahead = Ahead {
            number: number_behind(turns.site, turns.share, count),
            most: most - count,
            depth,
            counted,
            near,
        };
        match batch_from(machine, alloc, setting, code, ahead, numbers) {
            Some(batch) => {
                singles = singles_with(singles, batch);
                let asked = most_with(setting, search.wanted, ahead, batch, singles, most);
                if asked == 0 || put_batch(&mut batches, batch).is_err() {
                    return Some(found_so_far(batches, count, End::Elsewhere, near));
                }
                most = asked;
                count += batch.count;
                near = batch.next;
            }
            None => {
                note_stale(numbers, near);
                return Some(found_so_far(batches, count, End::Stale, near));
            }
        }
    }
    Some(found_so_far(batches, count, End::Elsewhere, near))
}

/// Puts a batch behind the others. Room is made with the first one, as most searches that are in vain find none.
#[inline(always)]
fn put_batch<'a>(batches: &mut Vec<Batch<'a>>, batch: Batch<'a>) -> Result<(), AllocError>
    ensures pushed { OnOk result (batches.new.items ≡ batches.old.items ++ batch.entry ∷ []) }
    ensures same { OnErr result (batches.new.items ≡ batches.old.items) }
{
    if batches.is_empty() {
        let _ = batches.reserve(FIRST_CAPACITY);
    }
    batches.push(batch)?;
    Ok(())
}

/// The depth of a loop's iterations, where some are wanted, their instances are recorded, and there is room to enter them.
fn depth_of<V: View>(
    machine: &Machine<V>,
    setting: Setting<'_>,
    code: LoopCode<'_>,
    wanted: Wanted,
) -> Option<u32>
    ensures deep { IfSome result (λ depth. 0 < depth) }
    ensures depth { IfSome result (λ depth. depth ≡ depth_limit - (machine.now.top.left - 1)) }
    ensures some { OnSome result (0 < wanted.most) }
    ensures memo { OnSome result (memo_of setting.entry.program.now.codes code.entry.callee ≡ true) }
    ensures room { OnSome result ((machine.now.top.left == 0) ≡ false) }
{
    let left = machine.top.left();
    if left == 0 || wanted.most == 0 || !setting.program.is_memo(code.callee) {
        return None;
    }
    let depth = DEEPEST.saturating_sub(left - 1);
    if depth == 0 {
        return None;
    }
    Some(depth)
}

/// Whether the iteration of the number that was tried is one of these, which are all asked for, and it is of no use to look further.
fn is_stale<V: View>(
    machine: &mut Machine<V>,
    alloc: Global,
    setting: Setting<'_>,
    code: LoopCode<'_>,
    search: Search,
    first: Ahead,
    numbers: &mut Vec<i64>,
) -> bool
    requires deep { 0 < first.depth }
    requires depth { first.depth ≡ depth_limit - (machine.old.top.left - 1) }
    requires counted { IfSome first.counted (CountsAt machine.old.top.slots code.variable (map plain code.arguments.now)) }
    requires known { IfSome first.counted (λ place. AreArguments setting.tables.now.tables machine.old.top.slots code.variable
        (map plain code.arguments.now) numbers.old.items) }
    requires values { HaveValues setting.program.now.kinds setting.records.now }
    ensures unchanged { machine.new ≡ machine.old }
    ensures known { IfSome first.counted (λ place. AreArguments setting.entry.tables.now.tables machine.old.top.slots code.entry.variable
        (map plain code.entry.arguments.now) numbers.new.items) }
{
    match behind_first(search, first) {
        Some((number, most)) => {
            if is_stale_at(search.tried, number) {
                return true;
            }
            let ahead = Ahead {
                number,
                most,
                depth: first.depth,
                counted: first.counted,
                near: 0,
            };
            match batch_from(machine, alloc, setting, code, ahead, numbers) {
                Some(batch) => is_in_vain(setting, search.wanted, ahead, batch, 1),
                None => true,
            }
        }
        None => false,
    }
}

/// How many iterations are asked for, where that batch is found and so many were: the same, or where it is the first one and alone among many
/// those of a first half of a first half that are few, as it would be found again for each of these halves; 0 where it is of no use to look
/// further.
fn most_with(
    setting: Setting<'_>,
    wanted: Wanted,
    ahead: Ahead,
    batch: Batch<'_>,
    singles: u32,
    most: u32,
) -> u32
    requires left { ahead.most ≤ most }
    requires fits { batch.count ≤ ahead.most }
    ensures few { result ≤ most }
    ensures room { (result == 0) ≡ false → (most - ahead.most) + batch.entry.count ≤ result }
{
    if !is_in_vain(setting, wanted, ahead, batch, singles) {
        return most;
    }
    if !wanted.halves || ahead.counted.is_none() || ahead.most < most || most <= SINGLES {
        return 0;
    }
    let few = few_of(most);
    if batch.count <= few { few } else { 0 }
}

/// As many as there are in the first half of the first half of so many and so on, where these are few.
fn few_of(most: u32) -> u32
    ensures few { result ≤ most }
{
    let bits = u32::BITS - most.leading_zeros();
    most.wrapping_shr(bits.saturating_sub(FEW_BITS)).min(most)
}

/// The batch that answers a loop's iterations from that number on, with what they have read where the layer keeps it; `numbers` are the
/// arguments of another iteration, where one of them counts up.
#[inline(always)]
fn batch_from<'a, V: View>(
    machine: &mut Machine<V>,
    alloc: Global,
    setting: Setting<'a>,
    code: LoopCode<'_>,
    ahead: Ahead,
    numbers: &mut Vec<i64>,
) -> Option<Batch<'a>>
    requires some { 0 < ahead.most }
    requires deep { 0 < ahead.depth }
    requires depth { ahead.depth ≡ depth_limit - (machine.old.top.left - 1) }
    requires counted { IfSome ahead.counted (CountsAt machine.old.top.slots code.variable (map plain code.arguments.now)) }
    requires known { IfSome ahead.counted (λ place. AreArguments setting.tables.now.tables machine.old.top.slots code.variable
        (map plain code.arguments.now) numbers.old.items) }
    requires values { HaveValues setting.program.now.kinds setting.records.now }
    ensures unchanged { machine.new ≡ machine.old }
    ensures batch { IfSome result (IsBatchFrom (lent setting.entry) machine.old.layer.keeps (loop_of code.entry)
        machine.old.top.slots machine.old.top.left ahead.number ahead.most) }
    ensures known { IfSome ahead.counted (λ place. AreArguments setting.entry.tables.now.tables machine.old.top.slots code.entry.variable
        (map plain code.entry.arguments.now) numbers.new.items) }
{
    let keeps = keeps_reads(machine);
    match ahead.counted {
        Some(place) => {
            put_number(numbers, place, ahead.number);
            let series = Series {
                counted: place,
                most: ahead.most,
                depth: ahead.depth,
                near: ahead.near,
                keeps,
            };
            setting.records.batch(
                code.callee,
                numbers,
                series,
                setting.tables,
                setting.program,
            )
        }
        None => single_at(machine, alloc, setting, code, ahead, numbers),
    }
}

/// Whether a strand's topmost layer keeps what is read.
#[inline(always)]
fn keeps_reads<V: View>(machine: &Machine<V>) -> bool
    ensures keeps { result ≡ machine.now.layer.keeps }
{
    machine.layer.keeps
}

/// Puts a number in the place of another one.
fn put_number(numbers: &mut Vec<i64>, place: usize, number: i64)
    requires within { place < length numbers.old.items }
    ensures put { numbers.new.items ≡ slice_set numbers.old.items place number }
{
    numbers[place] = number;
}

/// The record that answers a loop's iteration of that number.
#[inline(never)]
fn single_at<'a, V: View>(
    machine: &mut Machine<V>,
    alloc: Global,
    setting: Setting<'a>,
    code: LoopCode<'_>,
    ahead: Ahead,
    numbers: &mut Vec<i64>,
) -> Option<Batch<'a>>
    requires some { 0 < ahead.most }
    requires deep { 0 < ahead.depth }
    requires depth { ahead.depth ≡ depth_limit - (machine.old.top.left - 1) }
    requires values { HaveValues setting.program.now.kinds setting.records.now }
    ensures unchanged { machine.new ≡ machine.old }
    ensures batch { IfSome result (IsBatchFrom (lent setting.entry) machine.old.layer.keeps (loop_of code.entry)
        machine.old.top.slots machine.old.top.left ahead.number ahead.most) }
{
    if !unread_values_at(machine, alloc, setting.tables, code, ahead.number, numbers) {
        return None;
    }
    single(setting, code.callee, numbers, ahead.depth)
}

/// The record of one instance, where it is valid.
fn single<'a>(
    setting: Setting<'a>,
    procedure: usize,
    arguments: &[i64],
    depth: u32,
) -> Option<Batch<'a>>
    ensures single { IfSome result (λ b. (b.count ≡ 1)
        × (valid_at setting.entry.program.now.revisions setting.entry.tables.now.tables depth setting.entry.records.now procedure
        arguments.now ≡ Some b.sum.now)) }
{
    match setting.records.valid(procedure, arguments, depth, setting.tables, setting.program) {
        Some(sum) => Some(Batch {
            sum,
            count: 1,
            next: 0,
        }),
        None => None,
    }
}

/// The place of the argument that counts up from one of a loop's iterations to the next, as it is found in the code, where nothing is read
/// for the arguments; in `numbers` are those of that iteration then.
fn counted_from<V: View>(
    machine: &mut Machine<V>,
    alloc: Global,
    tables: &Tables,
    code: LoopCode<'_>,
    number: i64,
    search: Search,
    numbers: &mut Vec<i64>,
) -> Option<usize>
    requires counted { IfSome search.counted (CountsAt machine.old.top.slots code.variable (map plain code.arguments.now)) }
    ensures unchanged { machine.new ≡ machine.old }
    ensures counted { IfSome result (CountsAt machine.old.top.slots code.entry.variable (map plain code.entry.arguments.now)) }
    ensures known { IfSome result (λ place. AreArguments tables.now.tables machine.old.top.slots code.entry.variable
        (map plain code.entry.arguments.now) numbers.new.items) }
{
    let place = search.counted?;
    if code.arguments.len() == 1 {
        numbers.clear();
        if numbers.push(number).is_err() {
            return None;
        }
        return Some(place);
    }
    if !unread_values_at(machine, alloc, tables, code, number, numbers) {
        return None;
    }
    Some(place)
}

/// The place of the argument that is the number of a loop's iteration, where it counts up from one to the next and all others
/// stay.
fn counted_place<V: View>(machine: &Machine<V>, code: LoopCode<'_>) -> Option<usize>
    ensures counted { IfSome result (CountsAt machine.now.top.slots code.entry.variable (map plain code.entry.arguments.now)) }
{
    if code.variable >= machine.top.slots().len() {
        return None;
    }
    counted_argument(code.arguments, code.variable)
}

/// The place of that slot among arguments that are numbers and slots, where it stands once.
fn counted_argument(arguments: &[Expression], variable: usize) -> Option<usize>
    ensures counted { IfSome result (λ place. counts variable place (map plain arguments.now) ≡ true) }
{
    for place in 0..arguments.len() {
        if counts_at(arguments, variable, place) {
            return Some(place);
        }
    }
    None
}

/// Whether that slot stands at that place alone, and the other arguments are numbers and slots.
#[tactic(auto, using(crate::proofs::Counted::goes_by))]
fn counts_at(arguments: &[Expression], variable: usize, place: usize) -> bool
    requires within { place < length arguments.now }
    ensures counts { result ≡ true → counts variable place (map plain arguments.now) ≡ true }
{
    if !is_slot(&arguments[place], variable) {
        return false;
    }
    others_are_fixed(arguments, variable, place)
}

/// Whether all but that at a place are numbers and slots other than that.
fn others_are_fixed(arguments: &[Expression], variable: usize, place: usize) -> bool
    requires within { place < length arguments.now }
    ensures fixed { result ≡ (are_fixed variable (map plain (take place arguments.now)) && are_fixed variable (map plain (drop (place + 1) arguments.now))) }
{
    are_fixed(&arguments[..place], variable) && are_fixed(&arguments[place + 1..], variable)
}

/// Whether all are numbers and slots other than that.
fn are_fixed(arguments: &[Expression], variable: usize) -> bool
    ensures fixed { result ≡ are_fixed variable (map plain arguments.now) }
{
    for argument in arguments {
        if !is_fixed(argument, variable) {
            return false;
        }
    }
    true
}

fn is_fixed(argument: &Expression, variable: usize) -> bool
    ensures fixed { result ≡ is_fixed variable (plain argument.now) }
{
    match argument {
        Expression::Number(_) => true,
        Expression::Slot(slot) => *slot != variable,
        _ => false,
    }
}

fn is_slot(argument: &Expression, variable: usize) -> bool
    ensures slot { result ≡ is_slot variable (plain argument.now) }
{
    match argument {
        Expression::Slot(slot) => *slot == variable,
        _ => false,
    }
}

/// The arguments of a loop's iteration of that number, in place of what was in `numbers`; false where there are none, or something
/// is read for them.
#[tactic(auto, using(activations::proofs::Slots::put_back))]
fn unread_values_at<V: View>(
    machine: &mut Machine<V>,
    alloc: Global,
    tables: &Tables,
    code: LoopCode<'_>,
    number: i64,
    numbers: &mut Vec<i64>,
) -> bool
    ensures unchanged { machine.new ≡ machine.old }
    ensures values { result ≡ true → values_at tables.now.tables (slice_set machine.old.top.slots code.entry.variable (Has number))
        (map plain code.entry.arguments.now) ≡ pure numbers.new.items }
{
    let held = machine.top.exchange(code.variable, Slot::Has(number));
    let known = unread_values(alloc, code.arguments, machine.top.slots(), tables, numbers);
    machine.top.restore(code.variable, held);
    known
}

/// The values of arguments, in place of what `numbers` held; false where there are none, where something is read for them, or
/// where memory is refused.
fn unread_values(
    alloc: Global,
    arguments: &[Expression],
    slots: &[Slot],
    tables: &Tables,
    numbers: &mut Vec<i64>,
) -> bool
    ensures values { result ≡ true → values_at tables.now.tables slots.now (map plain arguments.now) ≡ pure numbers.new.items }
{
    let mut notes = Notes::new(alloc);
    match values(arguments, slots, tables, numbers, &mut notes) {
        Ok(()) => notes.len() == 0,
        Err(_) => false,
    }
}

/// The number of a loop's iteration behind so many first ones.
fn number_behind(site: Loop, share: Share, i: u32) -> i64
    requires fits { ShareFits site share }
    requires within { i < share.count }
    ensures number { result ≡ site.low +ℤ pos (share.first + i) }
{
    site.low + i64::from(share.first + i)
}
