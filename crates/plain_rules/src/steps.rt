//! Steps one behind another.
ghost use Rattle.std.specs.Prelude.{◌≡◌, ◌<◌, ◌++◌, ◌∷◌, [], length, vec_len, vec_capacity};

/// Puts a step behind the others, for which there is room.
#[inline(always)]
pub fn put_step<T: Drop>(history: &mut Vec<T>, step: T)
    requires room { vec_len history.old < vec_capacity history.old }
    ensures put { history.new.items ≡ history.old.items ++ step ∷ [] }
{
    history.push_reserved(step);
}
