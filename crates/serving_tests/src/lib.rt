//! Worked examples of what is asked for and replied: words, requests, epochs, sessions, lanes and drawn histories.
#![tactic(auto)]

#[cfg(test)]
mod tests;
