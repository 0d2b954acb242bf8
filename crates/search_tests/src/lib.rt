//! Worked examples of searches and their answers, of several forms of search that have to agree.
#![tactic(auto)]

#[cfg(test)]
mod tests;
