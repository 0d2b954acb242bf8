//! What holds of every text, as the contract of a function that does nothing.
ghost use Rattle.gr_reader.specs.Laws.{TextsAreDecided};

use crate::grammar::Grammar;

/// Each text is one file or has one first fault.
pub fn texts_are_decided<G: Grammar>()
    ensures { TextsAreDecided G.rules }
{}
