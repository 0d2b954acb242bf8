//! Worked examples of what all else stands on: costs, the outside, lines and numerals.
#![tactic(auto)]

#[cfg(test)]
mod tests;
