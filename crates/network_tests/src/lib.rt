//! Worked examples of weight files, files of pairs, and networks that are joined from them.
#![tactic(auto)]

#[cfg(test)]
mod tests;
