//! Programs, tables and records as values: what texts are read as, printed, checked and numbered, what expressions come to, and which
//! records still hold. The sessions in tests/ show what they answer.
#![tactic(auto)]

#[cfg(test)]
mod tests;
