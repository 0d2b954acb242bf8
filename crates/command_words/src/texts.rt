//! Texts of words.
ghost use Rattle.std.specs.Prelude.{◌≡◌, ◌≤◌, Some, length, map};
ghost use Rattle.command_words.specs.Ranges.{max_files, min_files};
ghost use Rattle.command_words.specs.Words.{Gives, names_in_range};

use crate::fault::WordsFault;
use cost_vector::{MAX_CRITERIA, MIN_CRITERIA};
use std::alloc::Global;
use std::marker::Model;

/// The fewest weight files, of which each is one criterion.
pub const MIN_FILES: usize = MIN_CRITERIA;
/// The most weight files.
pub const MAX_FILES: usize = MAX_CRITERIA;

/// A word, or a part of one, as the name of a file.
#[derive(Drop)]
pub struct Word<'a> {
    text: &'a str,
}

impl<'a> Model for Word<'a> {
    ghost use Rattle.std.specs.Prelude.{ℕ, List};

    ghost Value = { List ℕ };

    ghost view = { λ word. word.text.now };
}

impl<'a> Word<'a> {
    pub(crate) fn of(text: &'a str) -> Self
        ensures { result ≡ text.entry.now }
    {
        Word { text }
    }

    pub fn text(&self) -> &'a str
        ensures { result.now ≡ self.now }
    {
        self.text
    }
}

/// The names of weight files, as many as a network may have criteria.
#[derive(Drop)]
pub struct FileNames<'a> {
    names: Vec<&'a str>,
}

impl<'a> Model for FileNames<'a> {
    ghost use Rattle.std.specs.Prelude.{◌≤◌, ℕ, List, length, map};
    ghost use Rattle.command_words.specs.Ranges.{max_files, min_files};

    ghost Value = { List (List ℕ) };

    ghost view = { λ files. map (λ name. name.now) files.names.items };

    ghost invariant = { λ files. (min_files ≤ length files.names.items)
        × (length files.names.items ≤ max_files) };
}

impl<'a> FileNames<'a> {
    /// These names, if they are as many.
    pub(crate) fn of(alloc: Global, names: &[&'a str]) -> Result<Self, WordsFault>
        ensures { Gives result (names_in_range (map (λ name. name.now) names.now)) }
    {
        if MIN_FILES <= names.len() && names.len() <= MAX_FILES {
            let names = Vec::from_slice(alloc, names)?;
            Ok(FileNames { names })
        } else {
            Err(WordsFault::Refused)
        }
    }

    pub fn as_slice(&self) -> &[&'a str]
        ensures names { map (λ name. name.now) result.now ≡ self.now }
        ensures enough { min_files ≤ length result.now }
        ensures not_more { length result.now ≤ max_files }
    {
        &self.names
    }
}
