//! The continuations that wait in a worker's deque, the oldest first.
ghost use Rattle.std.specs.Prelude.{◌≡◌, ◌==◌, ◌++◌, ◌+◌, not, option_to_list, IfNone, MatchOption};
ghost use Rattle.std.specs.VecDeque.{deque_len, deque_capacity};

use std::collections::VecDeque;

/// Whether there is one to take.
pub fn has_some<T>(tasks: &VecDeque<T>) -> bool
    ensures some { result ≡ not (deque_len tasks.now == 0) }
{
    !tasks.is_empty()
}

/// Takes the oldest; there is room to put it back.
pub fn take_oldest<T>(tasks: &mut VecDeque<T>) -> Option<T>
    ensures items { tasks.old.items ≡ option_to_list result ++ tasks.new.items }
    ensures none { IfNone result (deque_len tasks.old ≡ 0) }
    ensures len { MatchOption result (deque_len tasks.new ≡ deque_len tasks.old)
        (λ _. deque_len tasks.new + 1 ≡ deque_len tasks.old) }
    ensures capacity { deque_capacity tasks.new ≡ deque_capacity tasks.old }
{
    tasks.pop_front()
}
