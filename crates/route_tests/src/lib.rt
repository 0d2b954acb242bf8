//! Worked examples of whole runs, over forms in memory: what the program sends and answers, row by row.
#![tactic(auto)]

#[cfg(test)]
mod tests;
