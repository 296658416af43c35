// The links of chains of places.
ghost use Rattle.std.specs.Prelude.{◌≡◌, ◌≤◌, ◌<◌, ◌+◌, ◌++◌, ◌∷◌, [], ℕ, List, length, vec_capacity, OnOk, OnErr};
ghost use Rattle.place_chains.specs.Chains.{chain_of, AreChained, IsInChain, IsEndOf};

use std::alloc::AllocError;

/// Numbers that differ by no more than their last digit of so many are in chains side by side.
const GROUP: usize = 16;

/// Which of so many chains a number's places are in: its upper digits say where a group of chains begins, and its last digit of
/// sixteen which of these it is. So the ends of chains of one group's numbers lie in one or two lines of the processor's memory.
#[tactic(auto, unfolding(crate::specs::Chains::chain_of))]
pub(crate) fn chain_of(number: u32, chains: usize) -> usize
    requires some { 0 < chains }
    requires few { chains ≤ 4294967295 }
    ensures chain { result ≡ chain_of chains number }
    ensures within { result < chains }
{
    if chains < GROUP {
        return number as usize % chains;
    }
    let first = (number / 16) as u64 * (chains as u64 - 15) / 268435456;
    first as usize + (number % 16) as usize
}

/// Puts one more place behind the others, at the end of its number's chain.
pub(crate) fn link(number: u32, befores: &mut Vec<u32>, ends: &mut [u32])
    requires some { 0 < length ends.old }
    requires fit { length ends.old ≤ 4294967295 }
    requires few { length befores.old.items < 4294967295 }
    requires room { length befores.old.items < vec_capacity befores.old }
    ensures chained { (numbers : List ℕ) → AreChained numbers befores.old.items ends.old
        → AreChained (numbers ++ number ∷ []) befores.new.items ends.new }
    ensures count { length befores.new.items ≡ length befores.old.items + 1 }
    ensures ends { length ends.new ≡ length ends.old }
    ensures room { vec_capacity befores.new ≡ vec_capacity befores.old }
{
    let chain = chain_of(number, ends.len());
    befores.push_reserved(ends[chain]);
    ends[chain] = befores.len() as u32;
}

/// Links all places anew, in so many chains.
pub(crate) fn link_all(numbers: &[u32], befores: &mut Vec<u32>, ends: &mut [u32])
    requires fit { length ends.old ≤ 4294967295 }
    requires few { length numbers.now ≤ length ends.old }
    requires room { length numbers.now ≤ vec_capacity befores.old }
    ensures chained { AreChained numbers.now befores.new.items ends.new }
    ensures ends { length ends.new ≡ length ends.old }
    ensures room { vec_capacity befores.new ≡ vec_capacity befores.old }
{
    befores.clear();
    ends.fill(0);
    for number in numbers {
        link(*number, befores, ends);
    }
}

/// Makes chains for so many places, and room. Where memory is refused no place's links change.
pub(crate) fn grow(
    numbers: &mut Vec<u32>,
    befores: &mut Vec<u32>,
    ends: &mut Vec<u32>,
    room: usize,
) -> Result<(), AllocError>
    requires fit { room ≤ 4294967295 }
    requires few { length numbers.old.items ≤ room }
    requires more { length ends.old.items ≤ room }
    requires chained { AreChained numbers.old.items befores.old.items ends.old.items }
    requires numbers { length ends.old.items ≤ vec_capacity numbers.old }
    requires befores { length ends.old.items ≤ vec_capacity befores.old }
    ensures same { numbers.new.items ≡ numbers.old.items }
    ensures chained { AreChained numbers.new.items befores.new.items ends.new.items }
    ensures ends { length ends.new.items ≤ room }
    ensures room { OnOk result (length ends.new.items ≡ room) }
    ensures refused { OnErr result (length ends.new.items ≡ length ends.old.items) }
    ensures numbers { length ends.new.items ≤ vec_capacity numbers.new }
    ensures befores { length ends.new.items ≤ vec_capacity befores.new }
{
    numbers.reserve_exact(room - numbers.len())?;
    befores.reserve_exact(room - befores.len())?;
    ends.reserve_exact(room - ends.len())?;
    ends.resize(room, 0)?;
    link_all(numbers, befores, ends);
    Ok(())
}

/// One more than the last place of a number, of those in its chain up to that one, or 0 where there is none.
pub(crate) fn last_of(
    number: u32,
    mut end: usize,
    numbers: &[u32],
    befores: &[u32],
    ends: &[u32],
) -> usize
    requires chained { AreChained numbers.now befores.now ends.now }
    requires in_chain { IsInChain (length ends.now) numbers.now (chain_of (length ends.now) number) end }
    ensures last { IsEndOf numbers.now end number result }
{
    while end > 0 {
        if numbers[end - 1] == number {
            return end;
        }
        end = befores[end - 1] as usize;
    }
    0
}
