//! Laws of lists that the standard library lacks: of members, of elements in pairs, of least numbers, of ascending lists.
//! They stand in `proofs/`, and say nothing of networks, files or searches. `specs/` has the few words that they add.
#![tactic(auto)]
