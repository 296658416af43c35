//! The counts that the program's line asks for.
#![tactic(auto)]

ghost use Rattle.std.specs.Prelude.{◌≤◌, ℕ, IfSome, IfNone, option_map};
ghost use Rattle.asked_counts.specs.Counts.{AsksFor};

/// The number that a text asks for, of 1 to the most; where there is no text, the one that is meant then. None where it asks for no
/// such number.
pub fn asked(text: Option<&str>, unsaid: usize, most: usize) -> Option<usize>
    requires { (1 ≤ unsaid) × (unsaid ≤ most) }
    ensures asked { IfSome result (AsksFor unsaid most (option_map (λ t. t.now) text.entry)) }
    ensures within { IfSome result (λ n. (1 ≤ n) × (n ≤ most)) }
    ensures none { IfNone result ((n : ℕ) → AsksFor unsaid most (option_map (λ t. t.now) text.entry) n → ⊥) }
{
    let Some(text) = text else {
        return Some(unsaid);
    };
    let Ok(number) = text.parse::<usize>() else {
        return None;
    };
    if 1 <= number && number <= most {
        return Some(number);
    }
    None
}
