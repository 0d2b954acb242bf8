//! Worked examples of a search by bulk rounds that is driven by hand: what each round takes, and how the last one begins.
#![tactic(auto)]

#[cfg(test)]
mod tests;
