//! What a layer keeps of readings: each of its own once, and those of the instances below.
ghost use Rattle.std.specs.Prelude.{◌≡◌, ◌++◌, ◌∷◌, [], ◌<◌, map, vec_len, vec_capacity};
ghost use Rattle.std.specs.List.{list_any};
ghost use Rattle.evaluation.specs.Short.{note_of};
ghost use Rattle.record_theory.specs.Same.{same_note};

use evaluation::reading::Reading;

/// Whether a reading is among those, so that it isn't put in once more.
pub fn is_among(seen: &[Reading], reading: &Reading) -> bool
    ensures among { result ≡ list_any (same_note (note_of reading.now)) (map note_of seen.now) }
{
    for other in seen {
        if is_same(reading, other) {
            return true;
        }
    }
    false
}

/// Whether two readings are the same.
#[tactic(auto, using(record_theory::proofs::Same::derived_same))]
fn is_same(left: &Reading, right: &Reading) -> bool
    ensures same { result ≡ same_note (note_of left.now) (note_of right.now) }
{
    left.note() == right.note()
}

/// Puts what an instance has read that was recorded or answered behind what others have, for which there is room.
#[inline(always)]
pub fn put_nested<R: Drop>(shared: &mut Vec<R>, reads: R)
    requires room { vec_len shared.old < vec_capacity shared.old }
    ensures put { shared.new.items ≡ shared.old.items ++ reads ∷ [] }
{
    shared.push_reserved(reads);
}
