//! Iterations of a loop one after another, each of which does its statements by itself.
ghost use Rattle.std.specs.Prelude.{◌≡◌, ◌≤◌, ◌==◌, ◌∷◌, true, false, length, map};
ghost use Rattle.linked_program.specs.CodeView.{expression as plain, memo_of};
ghost use Rattle.positions.specs.Activations.{ShareFits};
ghost use Rattle.positions.specs.Code.{loop_at};
ghost use Rattle.activations.specs.Given.{lent, loop_of};
ghost use Rattle.own_statements.specs.Fills.{IsCounted};
ghost use Rattle.running_ahead.specs.Ahead.{StaysBy, TurnsTo};
ghost use Rattle.running_ahead.specs.Chains.{ChainsTo, IsFewer};

use crate::came::{Chained, Gone};
use crate::nested::call_over;
use activations::activation::Activation;
use activations::code::{LoopCode, instructions, loop_code};
use activations::nest::Nest;
use activations::setting::Setting;
use activations::shares::{Turns, behind, number_of};
use layers::layer::Layer;
use own_statements::filling::{Iterations, fills_turn, is_counted};
use own_statements::ran::Ended;
use own_statements::runs::Callee;
use positions::work::{Loop, Share, Work};
use view_pool::View;

// How many iterations are done in one go.
const ITERATIONS: u32 = 1024;

/// Calls the iterations that a loop has left, one after another, where their procedure isn't marked memo and each goes back by
/// itself. Nowhere where the next one can't be called so. Where one stays, the loop's instance waits for it already. What the loop's
/// instance has left is written once, behind the last of them.
#[inline(always)]
#[tactic(auto, using(crate::proofs::Paths::ahead_here))]
pub fn turns<V: View>(
    layer: &mut Layer<V>,
    setting: Setting<'_>,
    site: Loop,
    share: Share,
    top: &mut Activation,
    nest: &mut Nest,
    numbers: &mut Vec<i64>,
) -> Gone
    requires fits { ShareFits site share }
    requires there { top.old.work ≡ Work.Turns site share }
    requires kinds { layer.old.kinds ≡ setting.program.now.kinds }
    ensures came { TurnsTo (lent setting.entry) result top.old layer.old (nest.new.child ∷ nest.new.above.items) top.new layer.new }
    ensures few { StaysBy (length nest.old.above.items) result }
    ensures long { length nest.new.above.items ≡ length nest.old.above.items }
{
    let code = loop_code(setting.program, top.procedure(), site);
    if top.left() == 0 || setting.program.is_memo(code.callee) {
        return Gone::Nowhere;
    }
    let Some(_) = top.children().checked_add(ITERATIONS as usize) else {
        return Gone::Nowhere;
    };
    let some = Turns {
        site,
        share: firsts(site, share),
    };
    let most = some.share.count;
    match chain(layer, setting, code, some, top, nest, numbers) {
        Chained::Whole => {
            top.turns(site, share, most);
            Gone::Back
        }
        Chained::Before(done) => {
            top.turns(site, share, done);
            Gone::Nowhere
        }
        Chained::Within(done, more) => {
            top.turns(site, share, done + 1);
            Gone::Stays(more)
        }
    }
}

/// So many first ones as are done in one go.
#[inline(always)]
fn firsts(site: Loop, share: Share) -> Share
    requires fits { ShareFits site share }
    ensures first { result.first ≡ share.first }
    ensures some { result.count ≤ share.count }
    ensures few { result.count ≤ 1024 }
    ensures fits { ShareFits site result }
{
    Share {
        first: share.first,
        count: share.count.min(ITERATIONS),
    }
}

/// Calls that share of a loop's iterations, one after another, as far as each goes back by itself. The loop's instance doesn't learn
/// of them.
#[inline(always)]
pub(crate) fn chain<V: View>(
    layer: &mut Layer<V>,
    setting: Setting<'_>,
    code: LoopCode<'_>,
    turns: Turns,
    top: &mut Activation,
    nest: &mut Nest,
    numbers: &mut Vec<i64>,
) -> Chained
    requires fits { ShareFits turns.site turns.share }
    requires found { loop_of code ≡ loop_at setting.program.now.codes top.old.procedure turns.site }
    requires plain { memo_of setting.program.now.codes code.callee ≡ false }
    requires deep { (top.old.left == 0) ≡ false }
    requires kinds { layer.old.kinds ≡ setting.program.now.kinds }
    ensures came { ChainsTo (lent setting.entry) turns.site top.old turns.share.first turns.share.count result layer.old
        (nest.new.child ∷ nest.new.above.items) layer.new }
    ensures fewer { IsFewer turns.share.count (length nest.old.above.items) result }
    ensures long { length nest.new.above.items ≡ length nest.old.above.items }
    ensures top { top.new ≡ top.old }
{
    if is_counted(top, code.variable, code.arguments) {
        return chain_by::<V, true>(layer, setting, code, turns, top, nest, numbers);
    }
    chain_by::<V, false>(layer, setting, code, turns, top, nest, numbers)
}

/// Calls that share of a loop's iterations so, where it is said whether they are `counted`: the loop over those that are has no more
/// in it than they need. It is compiled by itself, so that it has all registers.
#[inline(never)]
fn chain_by<V: View, const COUNTED: bool>(
    layer: &mut Layer<V>,
    setting: Setting<'_>,
    code: LoopCode<'_>,
    turns: Turns,
    top: &mut Activation,
    nest: &mut Nest,
    numbers: &mut Vec<i64>,
) -> Chained
    requires counted { COUNTED ≡ true → IsCounted top.old.slots code.variable (map plain code.arguments.now) }
    requires fits { ShareFits turns.site turns.share }
    requires found { loop_of code ≡ loop_at setting.program.now.codes top.old.procedure turns.site }
    requires plain { memo_of setting.program.now.codes code.callee ≡ false }
    requires deep { (top.old.left == 0) ≡ false }
    requires kinds { layer.old.kinds ≡ setting.program.now.kinds }
    ensures came { ChainsTo (lent setting.entry) turns.site top.old turns.share.first turns.share.count result layer.old
        (nest.new.child ∷ nest.new.above.items) layer.new }
    ensures fewer { IsFewer turns.share.count (length nest.old.above.items) result }
    ensures long { length nest.new.above.items ≡ length nest.old.above.items }
    ensures top { top.new ≡ top.old }
{
    let callee = Callee {
        procedure: code.callee,
        body: instructions(setting.program, code.callee, 0, 0),
        left: top.left() - 1,
    };
    let size = setting.program.slots(code.callee);
    let iterations = Iterations {
        size,
        arguments: code.arguments,
        tables: setting.tables,
        variable: code.variable,
        counted: COUNTED,
    };
    for done in 0..turns.share.count {
        let number = number_of(turns.site, behind(turns.site, turns.share, done));
        if !fills_turn(layer, &mut nest.child, top, iterations, number) {
            return Chained::Before(done);
        }
        match call_over(layer, setting, callee, nest, numbers) {
            Ended::Gave(_) => {}
            Ended::Stopped(more) => return Chained::Within(done, more),
        }
    }
    Chained::Whole
}
