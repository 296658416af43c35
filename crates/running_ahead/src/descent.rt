//! Parts of a loop's half that are put on the strand once the first iterations of the half are over.
ghost use Rattle.std.specs.Prelude.{◌≡◌, ◌+◌, ◌-◌, ◌<◌, ◌≤◌, ◌^◌, ◌++◌, ◌∷◌, [], ℕ, suc, None, true, false, All, length, reverse, vec_len, vec_capacity};
ghost use Rattle.positions.specs.Activations.{ShareFits, made, waiting};
ghost use Rattle.positions.specs.Advance.{left_of as first_part, right_of as second_part};
ghost use Rattle.positions.specs.Code.{loop_at};
ghost use Rattle.positions.specs.Layers.{PlainLayer};
ghost use Rattle.positions.specs.Setting.{Setting as PlainSetting};
ghost use Rattle.positions.specs.Strands.{PlainStrand};
ghost use Rattle.running_ahead.specs.Chains.{AreTurns, IsClear, Reaches, reach};
ghost use Rattle.running_ahead.specs.Leaves.{AreRecorded, Gathered, gathering};
ghost use Rattle.running_ahead.specs.RecordedHalves.{Arrives};

use activations::activation::Activation;
use activations::shares::{left_of, right_of};
use activations::spares::Spares;
use evaluation::slot::Slot;
use positions::work::{Loop, Position, Share, Work};
use std::alloc::Global;
use std::mem;

/// A part of a loop: that share of its iterations, which may be halved so many times more; and the loop's grain.
#[derive(Clone, Copy)]
pub struct Part {
    pub site: Loop,
    pub halvings: u32,
    pub share: Share,
    pub grain: u32,
}

/// A part of a loop of which so many iterations are over.
#[derive(Clone, Copy)]
pub struct Begun {
    pub part: Part,
    pub done: u32,
}

/// A part of a loop, with copies of the loop's slots for the parts that it may be halved into.
#[derive(Drop)]
pub struct Ready {
    pub part: Part,
    pub copies: Vec<Vec<Slot>>,
}

/// Puts on top the half of a part that has its next iteration, where so many are halved; those slots may become its.
fn level(
    path: &mut Vec<usize>,
    below: &mut Vec<Activation>,
    top: &mut Activation,
    spares: &mut Spares,
    alloc: Global,
    begun: Begun,
    slots: Vec<Slot>,
) -> Begun
    requires fits { ShareFits begun.part.site begun.part.share }
    requires some { begun.done < begun.part.share.count }
    requires halved { 0 < begun.part.halvings }
    requires slots { slots.items ≡ top.old.slots }
    requires children { top.old.children + 2 < 2 ^ 64 }
    requires path_room { vec_len path.old < vec_capacity path.old }
    requires below_room { vec_len below.old < vec_capacity below.old }
    ensures fits { ShareFits result.part.site result.part.share }
    ensures site { result.part.site ≡ begun.part.site }
    ensures grain { result.part.grain ≡ begun.part.grain }
    ensures some { result.done < result.part.share.count }
    ensures fewer { result.part.share.count ≤ begun.part.share.count }
    ensures halvings { begun.part.halvings ≤ result.part.halvings + 1 }
    ensures procedure { top.new.procedure ≡ top.old.procedure }
    ensures slots { top.new.slots ≡ top.old.slots }
    ensures children { top.new.children ≤ top.old.children }
    ensures nest { spares.new.nest ≡ spares.old.nest }
    ensures path_capacity { vec_capacity path.new ≡ vec_capacity path.old }
    ensures below_capacity { vec_capacity below.new ≡ vec_capacity below.old }
    ensures path_len { vec_len path.new ≤ vec_len path.old + 1 }
    ensures below_len { vec_len below.new ≤ vec_len below.old + 1 }
    ensures reach { (r : ℕ) → begun.part.share.count ≤ reach (suc r) begun.part.grain
        → result.part.share.count ≤ reach r begun.part.grain }
    ensures reaches { (setting : PlainSetting) (s : PlainStrand) (u v : PlainLayer) (r : ℕ)
        → begun.part.grain ≡ (loop_at setting.codes top.old.procedure begun.part.site).grain
        → begun.part.share.count ≤ reach (suc r) begun.part.grain
        → IsClear s → s.path ≡ path.old.items → s.below ≡ reverse below.old.items
        → AreTurns setting begun.part.site top.old.procedure top.old.slots top.old.left begun.part.share.first u begun.done v
        → Reaches setting begun.part.site r s begun.part.halvings begun.part.share top.old u v
        path.new.items (reverse below.new.items) begun.done
        result.part.halvings result.part.share top.new result.done }
    ensures arrives { (setting : PlainSetting) (s : PlainStrand) (x y : Gathered) (r : ℕ)
        → begun.part.grain ≡ (loop_at setting.codes top.old.procedure begun.part.site).grain
        → begun.part.share.count ≤ reach (suc r) begun.part.grain
        → IsClear (gathering x s) → s.path ≡ path.old.items → s.below ≡ reverse below.old.items
        → AreRecorded setting begun.part.site top.old.procedure top.old.slots top.old.left begun.part.share.first x begun.done y
        → Arrives setting begun.part.site r s begun.part.halvings begun.part.share top.old x y
        path.new.items (reverse below.new.items) begun.done
        result.part.halvings result.part.share top.new result.done }
{
    let whole = begun.part;
    let first = whole.share.count / 2;
    if whole.share.count <= whole.grain {
        return begun;
    }
    let places = spares.places(alloc);
    if begun.done < first {
        return Begun {
            part: into_first(path, below, top, slots, places, whole),
            done: begun.done,
        };
    }
    Begun {
        part: into_second(path, below, top, places, alloc, whole),
        done: begun.done - first,
    }
}

/// Puts the first half on top, with those slots and an empty list for places.
fn into_first(
    path: &mut Vec<usize>,
    below: &mut Vec<Activation>,
    top: &mut Activation,
    slots: Vec<Slot>,
    places: Vec<Position>,
    part: Part,
) -> Part
    requires fits { ShareFits part.site part.share }
    requires halved { 0 < part.halvings }
    requires empty { places.items ≡ [] }
    requires children { top.old.children + 2 < 2 ^ 64 }
    requires path_room { vec_len path.old < vec_capacity path.old }
    requires below_room { vec_len below.old < vec_capacity below.old }
    ensures half { result ≡ record part { halvings = part.halvings - 1; share = first_part part.share } }
    ensures fits { ShareFits result.site result.share }
    ensures path { path.new.items ≡ path.old.items ++ (top.old.children + 1) ∷ [] }
    ensures below { below.new.items ≡ below.old.items
        ++ waiting true None (Work.Second part.site (part.halvings - 1) (second_part part.share)) top.old ∷ [] }
    ensures top { top.new ≡ made top.old.procedure slots.items
        (Work.Halves part.site (part.halvings - 1) (first_part part.share)) top.old.left }
    ensures path_capacity { vec_capacity path.new ≡ vec_capacity path.old }
    ensures below_capacity { vec_capacity below.new ≡ vec_capacity below.old }
{
    let half = Part {
        site: part.site,
        halvings: part.halvings - 1,
        share: left_of(part.site, part.share),
        grain: part.grain,
    };
    path.push_reserved(top.children() + 1);
    let work = Work::Halves(half.site, half.halvings, half.share);
    let child = Activation::new(top.procedure(), slots, places, work, top.left());
    let mut parent = mem::replace(top, child);
    let right = right_of(part.site, part.share);
    parent.wait(true, None, Work::Second(part.site, half.halvings, right));
    below.push_reserved(parent);
    half
}

/// Puts the second half on top, with an empty list for places, where the first half is over. It takes the slots of the instance
/// below it.
fn into_second(
    path: &mut Vec<usize>,
    below: &mut Vec<Activation>,
    top: &mut Activation,
    places: Vec<Position>,
    alloc: Global,
    part: Part,
) -> Part
    requires fits { ShareFits part.site part.share }
    requires halved { 0 < part.halvings }
    requires empty { places.items ≡ [] }
    requires children { top.old.children + 2 < 2 ^ 64 }
    requires path_room { vec_len path.old < vec_capacity path.old }
    requires below_room { vec_len below.old < vec_capacity below.old }
    ensures half { result ≡ record part { halvings = part.halvings - 1; share = second_part part.share } }
    ensures fits { ShareFits result.site result.share }
    ensures path { path.new.items ≡ path.old.items ++ ((top.old.children + 1) + 1) ∷ [] }
    ensures below { below.new.items ≡ below.old.items ++ waiting false None Work.Over
        (record (waiting true None (Work.Second part.site (part.halvings - 1) (second_part part.share)) top.old) { slots = [] }) ∷ [] }
    ensures top { top.new ≡ made top.old.procedure top.old.slots
        (Work.Halves part.site (part.halvings - 1) (second_part part.share)) top.old.left }
    ensures path_capacity { vec_capacity path.new ≡ vec_capacity path.old }
    ensures below_capacity { vec_capacity below.new ≡ vec_capacity below.old }
{
    let half = Part {
        site: part.site,
        halvings: part.halvings - 1,
        share: right_of(part.site, part.share),
        grain: part.grain,
    };
    top.wait(
        true,
        None,
        Work::Second(half.site, half.halvings, half.share),
    );
    path.push_reserved(top.children() + 1);
    let slots = top.take_slots(alloc);
    let work = Work::Halves(half.site, half.halvings, half.share);
    let child = Activation::new(top.procedure(), slots, places, work, top.left());
    let mut parent = mem::replace(top, child);
    parent.wait(false, None, Work::Over);
    below.push_reserved(parent);
    half
}

/// Puts the parts of a part on the strand, each with one of the copies of its slots, down to the one that goes iteration by
/// iteration and has the one behind so many. There is room for them.
pub fn descend(
    path: &mut Vec<usize>,
    below: &mut Vec<Activation>,
    top: &mut Activation,
    spares: &mut Spares,
    alloc: Global,
    ready: Ready,
    done: u32,
) -> Begun
    requires fits { ShareFits ready.part.site ready.part.share }
    requires some { done < ready.part.share.count }
    requires halved { length ready.copies.items ≤ ready.part.halvings }
    requires reached { ready.part.share.count ≤ reach (length ready.copies.items) ready.part.grain }
    requires copies { All (λ v. v.items ≡ top.old.slots) ready.copies.items }
    requires children { top.old.children + 2 < 2 ^ 64 }
    requires path_room { vec_len path.old + length ready.copies.items < vec_capacity path.old }
    requires below_room { vec_len below.old + length ready.copies.items < vec_capacity below.old }
    ensures fits { ShareFits result.part.site result.part.share }
    ensures site { result.part.site ≡ ready.part.site }
    ensures some { result.done < result.part.share.count }
    ensures few { result.part.share.count ≤ ready.part.grain }
    ensures fewer { result.part.share.count ≤ ready.part.share.count }
    ensures procedure { top.new.procedure ≡ top.old.procedure }
    ensures children { top.new.children ≤ top.old.children }
    ensures nest { spares.new.nest ≡ spares.old.nest }
    ensures path_room { vec_len path.new < vec_capacity path.new }
    ensures below_room { vec_len below.new < vec_capacity below.new }
    ensures path_capacity { vec_capacity path.new ≡ vec_capacity path.old }
    ensures below_capacity { vec_capacity below.new ≡ vec_capacity below.old }
    ensures path_len { vec_len path.new ≤ vec_len path.old + length ready.copies.items }
    ensures below_len { vec_len below.new ≤ vec_len below.old + length ready.copies.items }
    ensures reaches { (setting : PlainSetting) (s : PlainStrand) (u v : PlainLayer)
        → ready.part.grain ≡ (loop_at setting.codes top.old.procedure ready.part.site).grain
        → IsClear s → s.path ≡ path.old.items → s.below ≡ reverse below.old.items
        → AreTurns setting ready.part.site top.old.procedure top.old.slots top.old.left ready.part.share.first u done v
        → Reaches setting ready.part.site 0 s ready.part.halvings ready.part.share top.old u v
        path.new.items (reverse below.new.items) done
        result.part.halvings result.part.share top.new result.done }
    ensures arrives { (setting : PlainSetting) (s : PlainStrand) (x y : Gathered)
        → ready.part.grain ≡ (loop_at setting.codes top.old.procedure ready.part.site).grain
        → IsClear (gathering x s) → s.path ≡ path.old.items → s.below ≡ reverse below.old.items
        → AreRecorded setting ready.part.site top.old.procedure top.old.slots top.old.left ready.part.share.first x done y
        → Arrives setting ready.part.site 0 s ready.part.halvings ready.part.share top.old x y
        path.new.items (reverse below.new.items) done
        result.part.halvings result.part.share top.new result.done }
{
    let Ready { part, copies } = ready;
    let mut begun = Begun { part, done };
    for slots in copies {
        begun = level(path, below, top, spares, alloc, begun, slots);
    }
    begun
}
