//! Worked examples of how a search keeps its labels: fronts, the queue, and pieces of work that several workers do.
#![tactic(auto)]

#[cfg(test)]
mod tests;
